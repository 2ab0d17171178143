//! The name and the details of an identifier.
ghost use Rattle.std.specs.Prelude.{◌≡◌, ◌++◌, Bool, List, ℕ, OnOk, OnErr};
ghost use Rattle.smi_value.specs.declared.letters.NameForm.{NameForm};
ghost use Rattle.smi_show.specs.{details.Detail.IsDetail, name.Name.IsName};
ghost use Rattle.smi_tree.specs.Tree.{Contents};

use crate::details::detail_text;
use smi_tree::Tree;
use smi_value::Letters;
use snmp_io::Draft;
use snmp_oid::Oid;
use std::alloc::AllocError;

/// Appends the name of `oid`, as `letters` say. If memory runs out, `out` is unchanged.
pub fn name_text(
    tree: &Tree,
    letters: &Letters,
    oid: &Oid,
    out: &mut Vec<u8>,
) -> Result<(), AllocError>
    ensures ok { let form = letters.now.names in
        let index = letters.now.numeric_index in
        OnOk result ((text : List ℕ) × IsName tree.now form index oid.now text
        × (out.new.items ≡ out.old.items ++ text)) }
    ensures unchanged_on_error { OnErr result (out.new.items ≡ out.old.items) }
{
    let mut draft = Draft::after(out);
    crate::name::name_text(tree, letters.names, letters.numeric_index, oid, &mut draft);
    draft.finish(out)
}

/// An identifier has only one name for the same tree, form and `numeric_index`.
///
/// A law: the call does nothing, and its caller may use what it ensures.
#[tactic(auto, using(crate::proofs::NamesStated::same_name))]
pub fn one_name()
    ensures { (tree : Contents) (form : NameForm) (numeric_index : Bool) (o text other : List ℕ)
        → IsName tree form numeric_index o text → IsName tree form numeric_index o other
        → text ≡ other }
{}

/// Appends the details of `oid`: what `snmptranslate -Td` prints. If memory runs out, `out` is
/// unchanged.
pub fn detail(
    tree: &Tree,
    letters: &Letters,
    oid: &Oid,
    out: &mut Vec<u8>,
) -> Result<(), AllocError>
    ensures ok { let form = letters.now.names in
        let index = letters.now.numeric_index in
        OnOk result ((text : List ℕ)
        × IsDetail tree.now form index oid.now text
        × (out.new.items ≡ out.old.items ++ text)) }
    ensures unchanged_on_error { OnErr result (out.new.items ≡ out.old.items) }
{
    let mut draft = Draft::after(out);
    detail_text(tree, letters.names, letters.numeric_index, oid, &mut draft);
    draft.finish(out)
}

/// The details of an identifier have only one text for the same tree, form and `numeric_index`.
///
/// A law: the call does nothing, and its caller may use what it ensures.
#[tactic(auto, using(std::proofs::lemmas::Grind::common_steps))]
pub fn one_detail()
    ensures { (tree : Contents) (form : NameForm) (numeric_index : Bool)
        (o text other : List ℕ) → IsDetail tree form numeric_index o text
        → IsDetail tree form numeric_index o other → text ≡ other }
{
    one_name();
}
