//! Module trees of SMIv2 (RFC 2578, RFC 2579, RFC 2580): what a module text says, the tokens that
//! spell it, and what its names and numbers mean. The parser makes these trees, and the crates
//! above read them.

mod items;
mod names;
mod numbers;
mod reserved;
mod tree;

pub use items::{Items, Text};
pub use names::Name;
pub use numbers::{arc, bound, is_arc, is_bound, is_number, number};
pub use reserved::{is_macro, is_reserved};
pub use tree::{
    Base, Def, DefKind, Field, Group, Import, Index, IndexParts, Module, ModuleIdentity,
    NamedNumber, NotificationType, ObjectIdentity, ObjectType, Part, Range, RawDefinition,
    Refinement, Revision, SimpleType, Status, Syntax, TextualConvention, TokenText, TypeAssignment,
};
