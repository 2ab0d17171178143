//! The nodes that modules define, each with its identifier, and the warnings about modules that
//! are left out, imports that aren't found, and definitions whose name has no identifier.
//!
//! Depends on parsed modules and on what their names mean. The crate `smi_tree` stores the nodes.

mod gather;
mod imports;
mod warning;

pub use gather::{Gathered, Source, gather_nodes};
pub use warning::Warning;
