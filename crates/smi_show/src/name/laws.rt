//! Laws of the meanings of names. Each call does nothing, and its caller may use what it ensures.
ghost use Rattle.std.specs.Prelude.{◌≡◌, ℕ, List, Ok, Result};
ghost use Rattle.snmp_oid.specs.{Identifier.IsIdentifier, Numeric.numeric_text};
ghost use Rattle.smi_show.specs.{name.Meaning.meaning, name.Meant.TextMeans};
ghost use Rattle.smi_show.specs.declared.name.error.NameError.{NameError};
ghost use Rattle.smi_tree.specs.Tree.{Contents};

use snmp_oid::names;

/// Each text means exactly one thing as a name: an identifier or a fault.
pub fn one_meaning()
    ensures found { (tree : Contents) (text : List ℕ)
        → (result : Result (List ℕ) NameError) × TextMeans tree text result }
    ensures only { (tree : Contents) (text : List ℕ) (a b : Result (List ℕ) NameError)
        → TextMeans tree text a → TextMeans tree text b → a ≡ b }
{}

/// `meaning` computes what a text means, for proofs that need a function.
#[tactic(auto, using(crate::proofs::MeantTexts::means))]
pub fn meanings_are_computed()
    ensures { (tree : Contents) (text : List ℕ) → TextMeans tree text (meaning tree text) }
{}

/// An identifier written in numbers means itself, whatever nodes the tree has.
pub fn numbers_are_read()
    ensures { (tree : Contents) (o : List ℕ) → IsIdentifier o
        → TextMeans tree (numeric_text o) (Ok o) }
{
    names();
}
