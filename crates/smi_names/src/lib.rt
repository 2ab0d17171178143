//! What names mean in loaded modules (RFC 2578, section 3), and the nodes that modules define,
//! each with its identifier, with the warnings about modules, imports and definitions.
//!
//! Builds on parsed modules and identifiers. The crate `smi_tree` stores the nodes and finds them.
//!
//! # Examples
//!
//! Asks which modules are loaded:
//!
//! ```
//! let text = b"A-MIB DEFINITIONS ::= BEGIN IMPORTS b FROM B-MIB;\n\
//!     a OBJECT IDENTIFIER ::= { iso 5 } END";
//! let modules = parse_modules(alloc, text)?;
//! let names = Names::new(alloc, NameHash::Fixed, &modules)?;
//! assert!(rt; names.is_loaded(b"A-MIB") && !names.is_loaded(b"B-MIB"));
//! ```
#![tactic(auto)]

mod chains;
mod hash;
mod indices;
mod laws;
mod meaning;
mod name;
mod nodes;

pub use chains::Resolution;
pub use hash::NameHash;
pub use indices::insert_if_absent;
pub use meaning::{
    Decider, Entries, Entry, Meaning, Names, References, TypeBase, root_arc, root_label,
};
pub use name::{NameBuf, NameRef};
pub use nodes::{Gathered, Source, Warning, gather_nodes};

// Only for proofs and tests.
pub use chains::topological_order;
pub use laws::{one_identifier, one_loading, one_resolution};
