//! The value of a binding, and its line.
ghost use Rattle.std.specs.Prelude.{◌≡◌, ℕ, List, ◌++◌, OnOk, OnErr, option_map};
ghost use Rattle.std.specs.Option.{option_copied};
ghost use Rattle.snmp_io.specs.Draft.{Adds};
ghost use Rattle.snmp_wire.specs.ber.Value.{Datum, datum};
ghost use Rattle.smi_value.specs.Value.{ShowsValue};
ghost use Rattle.smi_value.specs.declared.letters.Letters.{Letters};
ghost use Rattle.smi_tree.specs.{Found.IsFound, Tree.Contents};
ghost use Rattle.smi_tree.specs.Naming.{nearest_node, nearest_syntax, view_of};
ghost use Rattle.smi_show.specs.Line.{IsLine, IsValueText, text_before_value, names_by, separator};

use crate::name::{name_by_node, name_text};
use smi_tree::{Found, Near, NearestNode, Tree};
use smi_value::{
    Letters, TypeForm, ValueSyntax, append_identifier_word, append_value, one_value_by_names,
};
use snmp_io::Draft;
use snmp_oid::Oid;
use snmp_wire::ValueRef;
use std::alloc::AllocError;

/// Appends the text of `value`, the value of the instance `name`, as `letters` and the syntax of
/// the object say. With the default letters, a type, a colon and a blank precede most values. If
/// memory runs out, `out` is unchanged.
pub fn value_text(
    tree: &Tree,
    letters: &Letters,
    name: &Oid,
    value: &ValueRef<'_>,
    out: &mut Vec<u8>,
) -> Result<(), AllocError>
    ensures ok { OnOk result ((text : List ℕ)
        × IsValueText tree.now letters.now name.now (datum value.now) text
        × (out.new.items ≡ out.old.items ++ text)) }
    ensures unchanged_on_error { OnErr result (out.new.items ≡ out.old.items) }
{
    let mut draft = Draft::after(out);
    let syntax = tree.nearest_syntax(name);
    append_shown(tree, letters, syntax.as_ref(), value, &mut draft);
    draft.finish(out)
}

/// Appends the line of a binding: name, ` = `, value and a newline, as `letters` say. If memory
/// runs out, `out` is unchanged.
pub fn line(
    tree: &Tree,
    letters: &Letters,
    name: &Oid,
    value: &ValueRef<'_>,
    out: &mut Vec<u8>,
) -> Result<(), AllocError>
    ensures ok { OnOk result ((text : List ℕ)
        × IsLine tree.now letters.now name.now (datum value.now) text
        × (out.new.items ≡ out.old.items ++ text)) }
    ensures unchanged_on_error { OnErr result (out.new.items ≡ out.old.items) }
{
    let found = tree.found_for(name, &mut Near::new());
    let mut draft = Draft::after(out);
    append_line(tree, letters, name, &found, value, &mut draft);
    draft.finish(out)
}

/// The value of an instance has only one text for the same tree and letters.
///
/// A law: the call does nothing, and its caller may use what it ensures.
#[tactic(auto, using(crate::proofs::NamesStated::same_name))]
pub fn one_value()
    ensures { (tree : Contents) (letters : Letters) (name : List ℕ) (value : Datum)
        (text other : List ℕ) → IsValueText tree letters name value text
        → IsValueText tree letters name value other → text ≡ other }
{
    one_value_by_names();
}

/// A binding has only one line for the same tree and letters.
///
/// A law: the call does nothing, and its caller may use what it ensures.
pub fn one_line()
    ensures { (tree : Contents) (letters : Letters) (name : List ℕ) (value : Datum)
        (text other : List ℕ) → IsLine tree letters name value text
        → IsLine tree letters name value other → text ≡ other }
{
    one_value();
}

/// Appends the line of a binding. `found` must be what `tree` finds for `name`.
pub(crate) fn append_line(
    tree: &Tree,
    letters: &Letters,
    name: &Oid,
    found: &Found<'_>,
    value: &ValueRef<'_>,
    draft: &mut Draft,
)
    requires { IsFound tree.now name.now found.now }
    ensures { (text : List ℕ)
        × IsLine tree.now letters.now name.now (datum value.now) text
        × Adds draft.old text draft.new }
{
    append_parts(tree, letters, name, found, value, draft);
    draft.octets(b"\n");
}

/// Appends the line of a binding without its newline.
fn append_parts(
    tree: &Tree,
    letters: &Letters,
    name: &Oid,
    found: &Found<'_>,
    value: &ValueRef<'_>,
    draft: &mut Draft,
)
    requires { IsFound tree.now name.now found.now }
    ensures { let names = names_by tree.now letters.now in
        let prefix = text_before_value letters.now (names name.now) in (text : List ℕ)
        × ShowsValue names letters.now (nearest_syntax tree.now name.now) (datum value.now) text
        × Adds draft.old (prefix ++ text) draft.new }
{
    append_before_value(tree, letters, name, found.node, draft);
    append_shown(tree, letters, found.syntax.as_ref(), value, draft);
}

/// Appends the name and the separator after it, or nothing if only the value is shown.
fn append_before_value(
    tree: &Tree,
    letters: &Letters,
    name: &Oid,
    node: Option<NearestNode<'_>>,
    draft: &mut Draft,
)
    requires { option_map view_of node ≡ nearest_node tree.now name.now }
    ensures { let shown = names_by tree.now letters.now name.now in
        Adds draft.old (text_before_value letters.now shown) draft.new }
{
    if !letters.value_alone {
        name_by_node(
            tree,
            letters.names,
            letters.numeric_index,
            name,
            node,
            draft,
        );
        append_separator(letters.types, draft);
    }
}

/// Appends the separator between a name and a value.
fn append_separator(types: TypeForm, draft: &mut Draft)
    ensures { Adds draft.old (separator types) draft.new }
{
    match types {
        TypeForm::Typed | TypeForm::Untyped => draft.octets(b" = "),
        TypeForm::Quick => draft.octets(b" "),
    }
}

/// Appends the text of `value`, as `letters` and `syntax` say.
fn append_shown(
    tree: &Tree,
    letters: &Letters,
    syntax: Option<&ValueSyntax<'_>>,
    value: &ValueRef<'_>,
    draft: &mut Draft,
)
    ensures { let names = names_by tree.now letters.now in (text : List ℕ)
        × ShowsValue names letters.now (option_copied syntax.entry) (datum value.now) text
        × Adds draft.old text draft.new }
{
    match value {
        ValueRef::ObjectId(oid) => {
            append_identifier_word(draft, letters);
            name_text(tree, letters.names, letters.numeric_index, oid, draft);
        }
        _ => append_value(draft, letters, syntax, value),
    }
}
