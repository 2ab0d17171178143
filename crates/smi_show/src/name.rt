//! Names of managed objects: the name of an identifier as text, and the identifier that a name
//! means.
//!
//! Uses `crate::index` for the numbers after a column; the tree of loaded modules has the nodes.
ghost use Rattle.std.specs.Prelude.{◌≡◌, ◌≤◌, ◌++◌, [], length, option_map, codes};
ghost use Rattle.std.specs.Prelude.{Some, None};
ghost use Rattle.std.specs.Option.{option_copied};
ghost use Rattle.snmp_oid.specs.Numeric.{numeric_text};
ghost use Rattle.snmp_io.specs.Draft.{Adds};
ghost use Rattle.smi_tree.specs.Naming.{view_of, nearest_node};
ghost use Rattle.smi_show.specs.name.Name.{arc_text, node_text, path_text, qualified};
ghost use Rattle.smi_show.specs.private.name.Shown.{instance_text, name_text};

mod cut;
mod error;
mod laws;
mod meaning;
mod part;
mod piece;

use crate::index::{index_text, numbers_text};
pub use error::NameError;
pub use laws::{meanings_are_computed, numbers_are_read, one_meaning};
pub use meaning::{resolve, resolve_front, resolve_front_into, resolve_into};
use smi_tree::{Near, NearestNode, Tree};
use smi_value::NameForm;
use snmp_io::Draft;
use snmp_oid::Oid;

/// Appends the name of `oid` in the form `form`.
///
/// If `numeric_index` is set (the letter `b` of the option `-O`), the numbers after a column are
/// shown as numbers.
pub fn name_text(tree: &Tree, form: NameForm, numeric_index: bool, oid: &Oid, draft: &mut Draft)
    ensures { Adds draft.old (name_text tree.now form numeric_index oid.now) draft.new }
{
    if form == NameForm::Numeric {
        numeric(oid, draft);
    } else {
        name_by_node(tree, form, numeric_index, oid, tree.nearest(oid), draft);
    }
}

/// Does what [`name_text`] does. The caller must pass the deepest node at `oid` or above as `node`.
/// Without a node the name is in numbers.
pub fn name_by_node(
    tree: &Tree,
    form: NameForm,
    numeric_index: bool,
    oid: &Oid,
    node: Option<NearestNode<'_>>,
    draft: &mut Draft,
)
    requires { option_map view_of node ≡ nearest_node tree.now oid.now }
    ensures { Adds draft.old (name_text tree.now form numeric_index oid.now) draft.new }
{
    tree.is_sound();
    match node {
        Some(node) if form != NameForm::Numeric => {
            node_text(tree, form, oid, node, draft);
            instance_text(numeric_index, oid, node, draft);
        }
        _ => numeric(oid, draft),
    }
}

/// Appends each number after a dot, or only a dot if there are no numbers.
pub fn numeric(oid: &Oid, draft: &mut Draft)
    ensures { Adds draft.old (numeric_text oid.now) draft.new }
{
    match oid.as_slice() {
        [] => draft.octet(b'.'),
        numbers => numbers_text(numbers, draft),
    }
}

/// Appends the name of `node` in the form `form`, or nothing in the numeric form.
fn node_text(tree: &Tree, form: NameForm, oid: &Oid, node: NearestNode<'_>, draft: &mut Draft)
    requires { node.depth ≤ length oid.now }
    ensures { let text = node_text tree.now form oid.now (view_of node.entry) in
        Adds draft.old text draft.new }
{
    match form {
        NameForm::Numeric => {}
        NameForm::Full => path(tree, &oid.as_slice()[..node.depth], draft),
        NameForm::Label => draft.octets(node.label),
        NameForm::ModuleLabel => append_qualified(node, draft),
    }
}

/// Appends `MODULE::label`, or only the label for a built-in root, which has no module.
fn append_qualified(node: NearestNode<'_>, draft: &mut Draft)
    ensures { let text = qualified (option_copied node.entry.home) node.entry.label.now in
        Adds draft.old text draft.new }
{
    if let Some(home) = node.home {
        draft.octets(home);
        draft.octets(b"::");
    }
    draft.octets(node.label);
}

/// Appends, for each of `numbers`, a dot and a text: if a node's identifier is the numbers up to
/// and with this one, the label of that node, otherwise the number.
fn path(tree: &Tree, numbers: &[u32], draft: &mut Draft)
    requires { length numbers.now ≤ 128 }
    ensures { Adds draft.old (path_text tree.now numbers.now) draft.new }
{
    let mut here = Oid::new();
    let mut near = Near::new();
    'numbers: for number in numbers {
        here.push_with_room(*number);
        arc(tree, &here, *number, &mut near, draft);
    }
}

/// Appends a dot and the label of the node at `here`, or `number` if there is none.
fn arc(tree: &Tree, here: &Oid, number: u32, near: &mut Near, draft: &mut Draft)
    ensures { let view = nearest_node tree.now here.now in
        Adds draft.old (codes "." ++ arc_text view here.now number) draft.new }
{
    draft.octet(b'.');
    match tree.nearest_from(here, near) {
        Some(node) if node.depth == here.len() => draft.octets(node.label),
        _ => draft.number(u64::from(number)),
    }
}

/// Appends the numbers of `oid` after `node`: by the node's index, or as numbers if the node has no
/// index, if the index doesn't read them all, or if `numeric_index` is set.
fn instance_text(numeric_index: bool, oid: &Oid, node: NearestNode<'_>, draft: &mut Draft)
    requires { node.depth ≤ length oid.now }
    ensures { let text = instance_text numeric_index oid.now (view_of node.entry) in
        Adds draft.old text draft.new }
{
    let rest = &oid.as_slice()[node.depth..];
    match node.index {
        Some(parts) if !numeric_index => index_text(parts, rest, draft),
        _ => numbers_text(rest, draft),
    }
}
