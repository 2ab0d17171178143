//! A list of object identifiers that is searched number by number. Each prefix of an identifier
//! has a branch, which stores the numbers that follow the prefix, in order.
//!
//! Depends only on object identifiers. The tree of names stores its nodes' identifiers here, and
//! finds the node of an identifier, the node of its longest prefix, and its children.

mod branch;
mod identifiers;

pub use identifiers::{Children, Deepest, Identifiers};
