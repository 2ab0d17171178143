//! Laws of meanings, nodes and warnings, for any modules. Each call does nothing, and its caller
//! may use what it ensures.
ghost use Rattle.std.specs.Prelude.{◌≡◌, ℕ, List};
ghost use Rattle.smi_names.specs.{chains.Resolution.ComesTo, nodes.Nodes.Loads, nodes.Nodes.Node};
ghost use Rattle.smi_names.specs.declared.chains.shared.Resolution.{Resolution};
ghost use Rattle.smi_names.specs.declared.nodes.warning.Warning.{Warning};
ghost use Rattle.smi_text.specs.declared.trees.tree.Module.{Module};
ghost use Rattle.smi_names.specs.meaning.Meaning.{Means, QualifiedName, origin};

/// A name has at most one identifier in a list of modules.
#[tactic(auto, using(crate::proofs::Single::one_meaning))]
pub fn one_identifier()
    ensures { (modules : List Module) (a : QualifiedName) (o p : List ℕ)
        → Means modules a o → Means modules a p → o ≡ p }
{}

/// A name resolves to at most one thing: an identifier, or a reason for having none.
#[tactic(auto, using(crate::proofs::Single::one_resolution))]
pub fn one_resolution()
    ensures { (modules : List Module) (a : QualifiedName) (one other : Resolution)
        → ComesTo (origin modules) a one → ComesTo (origin modules) a other
        → one ≡ other }
{}

/// Modules that are loaded in one order have at most one list of nodes and one list of warnings.
pub fn one_loading()
    ensures { (modules before : List Module) (nodes others : List Node)
        (warnings more : List Warning) → Loads modules before nodes warnings
        → Loads modules before others more → (nodes ≡ others) × (warnings ≡ more) }
{
    one_resolution();
}
