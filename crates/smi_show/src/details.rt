//! The details of an identifier: what `snmptranslate -Td` prints.
//!
//! Uses the names of `crate::name`; the tree of loaded modules has the definition of a node.

mod definition;
mod detail;
mod syntax;
mod value;

pub use definition::definition_text;
pub use detail::detail_text;
pub use syntax::syntax_text;
