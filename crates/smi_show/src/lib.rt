//! The text of names, values, lines and details, appended to a `Vec<u8>`, by a tree of loaded
//! modules; and the identifier that a name means.
//!
//! The tools print names and bindings by these calls. A call that appends a text appends all of
//! it, or leaves the `Vec<u8>` unchanged if memory runs out.
//!
//! # Examples
//!
//! Reads a name, and writes the line of its instance:
//!
//! ```
//! let text = b"A-MIB DEFINITIONS ::= BEGIN a OBJECT IDENTIFIER ::= { iso 5 } END";
//! let modules = parse_modules(alloc, text)?;
//! let (tree, _warnings) = Tree::load(alloc, modules)?;
//! let name = resolve(&tree, b"A-MIB::a.1.0")?;
//! let mut text = Vec::new(alloc);
//! line(&tree, &Letters::new(), &name, &ValueRef::Integer(7), &mut text)?;
//! assert_eq!(rt; text.as_slice(), b"A-MIB::a.1.0 = INTEGER: 7\n".as_slice());
//! ```
#![tactic(auto)]

mod binding;
mod details;
mod index;
mod name;
mod text;
mod writer;

pub use crate::name::{NameError, resolve, resolve_front_into, resolve_into};
pub use smi_value::{Hint, HintValue, Letters, NameForm, StringForm, TypeForm, write_hint};
pub use text::{detail, name_text};
pub use writer::LineWriter;

// Calls for a single line or value, or for a name at the start of a text; no tool uses them.
pub use crate::name::resolve_front;
pub use binding::{line, value_text};

// Laws: the calls do nothing, and a proof may use what they ensure.
pub use crate::name::{meanings_are_computed, numbers_are_read, one_meaning};
pub use binding::{one_line, one_value};
pub use text::{one_detail, one_name};
