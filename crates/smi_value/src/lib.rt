//! Shows SNMP values as text, by the letters of `-O` and by the syntax of the object, if it is
//! known. Display hints (RFC 2579, section 3.1) can also be used by themselves.
//!
//! # Examples
//!
//! Shows a MAC address by its display hint:
//!
//! ```
//! let hint = Hint::parse(b"1x:").expect(rt, "a hint");
//! let mut text = Vec::new(alloc);
//! write_hint(&hint, HintValue::Octets(b"\x00\x16\x3e\x5a\x78\x8e"), &mut text)?;
//! assert_eq!(rt; text.as_slice(), b"0:16:3e:5a:78:8e".as_slice());
//! ```
#![tactic(auto)]

mod base;
mod hint;
mod letters;
mod names;
mod pieces;
mod plain;
mod syntax;
mod value;

pub use base::ValueBase;
pub use hint::{Hint, HintValue, write_hint};
pub use letters::{Letters, NameForm, StringForm, TypeForm};
pub use names::NumberIndex;
pub use syntax::ValueSyntax;
pub use value::{append_identifier_word, append_value};

// Only for proofs.
pub use hint::one_text;
pub use value::one_value_by_names;
