//! What a tree finds for an identifier: the node of the longest prefix that has a node.
ghost use Rattle.std.specs.{Prelude.◌≡◌, Option.option_copied};
ghost use Rattle.smi_names.specs.nodes.Nodes.{roots};
ghost use Rattle.smi_tree.specs.{Naming.home_name, Nodes.index_anywhere};

use crate::columns::IndexPart;
use smi_names::root_arc;
use smi_text::Module;
use smi_value::ValueSyntax;
use snmp_oid::StoredOid;

/// The start of a tree's next search: the node that it found last. Only speed depends on it.
#[derive(Clone, Copy, Debug)]
pub struct Near {
    /// A number that lets the tree find that node again.
    pub id: usize,
}

impl Near {
    /// Returns the start of the first search.
    pub fn new() -> Near {
        Near { id: 0 }
    }
}

/// What a tree finds for an identifier.
#[derive(Drop)]
pub struct Found<'a> {
    /// The node of the longest prefix of the identifier that has a node, if any prefix has one.
    pub node: Option<NearestNode<'a>>,
    /// The syntax of that node, if it is an object that has one.
    pub syntax: Option<ValueSyntax<'a>>,
    /// An identifier such that all identifiers below it have this node and this syntax, if the tree
    /// knows one.
    pub below: Option<&'a StoredOid>,
}

/// A node that is found for an identifier: the node of the longest prefix of the identifier that
/// has a node.
#[derive(Clone, Copy, Debug)]
pub struct NearestNode<'a> {
    /// The name of the node's module; `None` for a built-in root.
    pub home: Option<&'a [u8]>,
    /// The node's label.
    pub label: &'a [u8],
    /// The number of numbers in the node's identifier.
    pub depth: usize,
    /// The parts of the node's index; `None` if the node isn't a column or its index can't be read.
    pub index: Option<&'a [IndexPart]>,
}

/// Returns the index of the root with this label, if there is one (RFC 2578, section 3.5).
pub(crate) fn root_index(label: &[u8]) -> Option<usize>
    ensures { result ≡ index_anywhere roots label.now }
{
    Some(root_arc(label)? as usize)
}

/// Returns the name of a module, if there is one.
pub(crate) fn home_name(home: Option<&Module>) -> Option<&[u8]>
    ensures { option_copied result ≡ home_name (option_copied home.entry) }
{
    Some(home?.name.as_bytes())
}
