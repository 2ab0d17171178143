//! SMIv2 module texts (RFC 2578, RFC 2579, RFC 2580): their tokens, the module trees that they
//! spell, and the parser from tokens to trees.
//!
//! The lowest of the crates for module files: the crates of names and values read the trees.
//!
//! # Examples
//!
//! A text of one module, and one with a fault:
//!
//! ```
//! let text = b"A-MIB DEFINITIONS ::= BEGIN a OBJECT IDENTIFIER ::= { iso 5 } END";
//! let modules = parse_modules(alloc, text)?;
//! assert_eq!(rt; modules.len(), 1);
//! assert_eq!(rt; modules[0].name.as_bytes(), b"A-MIB".as_slice());
//! assert!(rt; modules[0].define(b"a").is_some());
//! let fault = parse_modules(alloc, b"A-MIB DEFINITIONS ::=\nBEGIN ? END").err();
//! assert!(rt; fault.is_some());
//! ```
#![tactic(auto)]

mod clauses;
mod definitions;
mod error;
mod file;
mod lexer;
mod modules;
mod names;
mod parser;
mod syntax;
mod trees;

pub use crate::lexer::{LexError, Lexer, Span, Token, TokenKind};
pub use crate::trees::{
    Base, Def, DefKind, Field, Group, Import, Index, IndexParts, Items, Module, ModuleIdentity,
    Name, NamedNumber, NotificationType, ObjectIdentity, ObjectType, Part, Range, RawDefinition,
    Refinement, Revision, SimpleType, Status, Syntax, Text, TextualConvention, TokenText,
    TypeAssignment, arc, bound, is_arc, is_bound, is_macro, is_number, is_reserved, number,
};
pub use error::ParseError;
pub use file::parse_modules;

// Laws, for proofs only.
pub use crate::lexer::one_token_list;
pub use file::{balanced_braces, one_module_list, one_module_list_without_lines};
