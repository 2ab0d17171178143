//! Messages of SNMPv2c (RFC 3416) and their BER encoding (X.690, RFC 3417 section 8).
//!
//! Built on `snmp_oid`, whose object identifiers it re-exports. Agents and walks exchange
//! datagrams, which they decode and encode with this crate.
//!
//! # Examples
//!
//! A Get is encoded, and decoded again:
//!
//! ```
//! let bindings = [Binding {
//!     name: parse_numeric(b"1.3.6.1.2.1.1.5.0")?,
//!     value: ValueRef::Null,
//! }];
//! let parts = Parts {
//!     version: 1,
//!     community: b"public",
//!     kind: Kind::GetRequest,
//!     id: 7,
//!     a: 0,
//!     b: 0,
//!     bindings: &bindings,
//! };
//! let mut datagram = [0; 1472];
//! let size = encode(&parts, &mut datagram).unwrap_or(0);
//! let message = decode(&datagram[..size])?;
//! assert_eq!(rt; size, 40);
//! assert_eq!(rt; message.community(), b"public".as_slice());
//! assert_eq!(rt; message.id(), 7);
//! ```
#![tactic(auto)]

mod asking;
mod ber;
mod binding;
mod encoded;
mod inline_octets;
mod kind;
mod laws;
mod message;
mod name;

pub use crate::ber::{BerError, OctetString, Value, ValueRef, tag};
pub use asking::{NameBuffer, asking_size, encode_asking};
pub use binding::{Binding, BindingRef, Bindings, binding_size, encode_binding};
pub use encoded::EncodedBinding;
pub use kind::Kind;
pub use message::{
    MAX_DATAGRAM, MessageRef, Parts, decode, encode, encode_head, head_size, seal, size,
};
pub use name::{EncodedName, MAX_CONTENT};
pub use snmp_oid::{Oid, OidError, OidTextError, parse_numeric, read_numeric, write_numeric};

// Laws: calls that do nothing. What they ensure may be used in proofs.
pub use laws::{
    element_sizes, encoding_is_of_type, encoding_is_shortest, encoding_is_strict, message_sizes,
    no_fault, one_shortest_encoding, one_spelling, pieces, requests_are_short, strict_is_read,
};
pub use name::encoded_names;
