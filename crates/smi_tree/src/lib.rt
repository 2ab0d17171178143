//! The tree of names: the built-in roots and the nodes that loaded modules define, found by name
//! and by identifier.
//!
//! Depends on module trees, on what their names mean and on the nodes that they define. Crates
//! above use it to read the names on a command line, and to show names, values and details.
//!
//! # Examples
//!
//! Loads a module, which gets a warning about its import, and finds its node:
//!
//! ```
//! let text = b"A-MIB DEFINITIONS ::= BEGIN IMPORTS b FROM B-MIB;\n\
//!     a OBJECT IDENTIFIER ::= { iso 5 } END";
//! let modules = parse_modules(alloc, text)?;
//! let (tree, warnings) = Tree::load(alloc, modules)?;
//! assert!(rt; warnings.len() == 1);
//! let node = tree.find(b"A-MIB", b"a").expect(rt, "a node");
//! assert!(rt; tree.node(node).oid.to_oid() == parse_numeric(b"1.5")?);
//! assert!(rt; tree.find_any(b"b").is_none());
//! ```
#![tactic(auto)]

mod branches;
mod columns;
mod indices;
mod laws;
mod nearest;
mod node;
mod shown;
mod syntax;
mod tree;
mod types;

pub use crate::branches::Children;
pub use crate::columns::{Extent, IndexPart};
pub use crate::syntax::TypeSyntax;
pub use nearest::{Found, Near, NearestNode};
pub use node::Node;
pub use smi_names::{NameHash, TypeBase, Warning};
pub use tree::{Loaded, NodeId, Tree};

// Parts of a tree, public only for tests.
pub use crate::branches::{Deepest, Identifiers};
pub use crate::columns::Indexes;
pub use crate::types::Types;

// Laws: the calls do nothing, and a proof may use what they ensure.
pub use laws::{
    bare_tree, children_are_nodes, defined_nodes, look_ups, nodes_have_identifiers, one_deepest,
    one_syntax, one_tree,
};
