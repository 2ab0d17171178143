//! The Basic Encoding Rules (X.690; RFC 3417, section 8) for whole numbers, lengths, object
//! identifiers, and the value of a variable binding.
//!
//! Bindings and messages are decoded and encoded by these pieces.

mod error;
mod identifier;
mod length;
mod number;
mod owned;
pub mod tag;
mod value;
mod writing;

pub use error::BerError;
pub use identifier::{check_identifier, identifier_size, push_identifier, put_identifier};
pub use length::{content_at, element_at, header_size, inner_at, put_header, put_short_header};
pub use number::{integer_at, integer_size, put_integer};
pub use owned::{OctetString, Value};
pub use value::{ValueRef, check_value, content_size, put_value, read_value};
pub use writing::{put_octet, put_text};
