//! The columns of a table, listed by the tree of its module.
ghost use Rattle.std.specs.Prelude.{◌≡◌, ◌<◌, IfOk, length, map, option_map};
ghost use Rattle.uses.specs.Listing.{AreColumnsOf, column_at, seen_column};

use smi_text::DefKind;
use smi_tree::{NodeId, Tree};
use snmp_oid::StoredOid;
use std::alloc::{AllocError, Global};

/// A column of a table.
#[derive(Clone, Copy)]
pub struct Column<'t> {
    /// Its label.
    pub label: &'t [u8],
    /// Its identifier.
    pub oid: &'t StoredOid,
}

/// Returns the columns of a table, in increasing order of their numbers. `entry` is the node of
/// the table's entry, such as `ifEntry`.
///
/// A column is an object whose identifier is the identifier of the entry with a number appended
/// (RFC 2578, section 7.1.12). Of several nodes with the same identifier, only the first in order
/// of loading can be a column.
pub fn columns_of<'t>(
    alloc: Global,
    tree: &'t Tree,
    entry: NodeId,
) -> Result<Vec<Column<'t>>, AllocError>
    requires { entry < length tree.now.nodes }
    ensures { IfOk result (λ columns.
        AreColumnsOf tree.now.nodes entry (map seen_column columns.items)) }
{
    let row = tree.node(entry).oid.to_oid();
    let mut columns = Vec::new(alloc);
    'children: for id in tree.children(&row) {
        if let Some(column) = column_at(tree, id) {
            columns.push(column)?;
        }
    }
    Ok(columns)
}

/// Returns the node `id` as a column, or `None` if it isn't an object.
#[tactic(auto, using(std::proofs::lemmas::Option::slice_get_past))]
fn column_at<'t>(tree: &'t Tree, id: NodeId) -> Option<Column<'t>>
    ensures { option_map seen_column result ≡ column_at tree.now.nodes id }
{
    // Each child is a node, by the law `children_are_nodes`; the test spares a proof by that law.
    if id >= tree.len() {
        return None;
    }
    let node = tree.node(id);
    match &node.definition?.kind {
        DefKind::ObjectType(_) => Some(Column {
            label: node.label,
            oid: node.oid,
        }),
        _ => None,
    }
}
