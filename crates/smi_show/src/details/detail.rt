//! The details of an identifier.
ghost use Rattle.std.specs.Prelude.{◌≡◌, ◌++◌, [], Some, None, codes};
ghost use Rattle.std.specs.Option.{option_copied};
ghost use Rattle.snmp_io.specs.Draft.{Adds};
ghost use Rattle.smi_tree.specs.Naming.{view_of};
ghost use Rattle.smi_show.specs.details.Detail.{detail_text, node_detail, from_text, kind_text};
ghost use Rattle.smi_show.specs.details.Detail.{clauses_text};

use crate::details::definition_text;
use crate::details::value::identifier_text;
use crate::name::name_text;
use smi_text::Def;
use smi_tree::{NearestNode, Tree};
use smi_value::NameForm;
use snmp_io::Draft;
use snmp_oid::Oid;

/// Appends the details of `oid`: its name; the label, kind, module and clauses of the deepest node
/// at `oid` or above, if there is one; and `oid` as a value.
pub fn detail_text(tree: &Tree, form: NameForm, numeric_index: bool, oid: &Oid, draft: &mut Draft)
    ensures { let text = detail_text tree.now form numeric_index oid.now in
        Adds draft.old text draft.new }
{
    name_text(tree, form, numeric_index, oid, draft);
    draft.octets(b"\n");
    if let Some(node) = tree.nearest(oid) {
        node_text(node, tree.nearest_definition(oid), draft);
    }
    identifier_text(tree, oid, draft);
}

/// Appends the lines of `node` and its definition.
fn node_text(node: NearestNode<'_>, definition: Option<&Def>, draft: &mut Draft)
    ensures { let view = Some (view_of node.entry) in
        Adds draft.old (node_detail view (option_copied definition.entry)) draft.new }
{
    draft.octets(node.label);
    draft.octets(b" ");
    kind_text(definition, draft);
    draft.octets(b"\n");
    from_text(node.home, draft);
    clauses_text(definition, draft);
}

/// Appends the line with the module of a node; a root has none.
fn from_text(home: Option<&[u8]>, draft: &mut Draft)
    ensures { Adds draft.old (from_text (option_copied home.entry)) draft.new }
{
    if let Some(name) = home {
        draft.octets(b"  -- FROM\t");
        draft.octets(name);
        draft.octets(b"\n");
    }
}

/// Appends the clauses of a definition, if there is one.
fn clauses_text(definition: Option<&Def>, draft: &mut Draft)
    ensures { Adds draft.old (clauses_text (option_copied definition.entry)) draft.new }
{
    if let Some(found) = definition {
        definition_text(&found.kind, draft);
    }
}

/// Appends the kind of a node's definition. A root has no definition and is shown as an OBJECT
/// IDENTIFIER.
fn kind_text(definition: Option<&Def>, draft: &mut Draft)
    ensures { Adds draft.old (kind_text (option_copied definition.entry)) draft.new }
{
    match definition {
        Some(found) => draft.octets(found.kind_words()),
        None => draft.octets(b"OBJECT IDENTIFIER"),
    }
}
