//! Object identifiers: their numbers, their order, and their numeric text.
//!
//! The lowest layer: tables, messages and walks name instances by these identifiers.
//!
//! # Examples
//!
//! Names compare by their numbers:
//!
//! ```
//! let uptime = parse_numeric(b"1.3.6.1.2.1.1.3.0")?;
//! let contact = parse_numeric(b".1.3.6.1.2.1.1.10.0")?;
//! assert!(rt; uptime < contact);
//! assert!(rt; uptime.is_below(&Oid::from_slice(&[1, 3, 6, 1, 2, 1, 1])?));
//! let mut text = [0; 64];
//! let written = write_numeric(&contact, &mut text);
//! assert_eq!(rt; written, Some(19));
//! assert_eq!(rt; &text[..19], b".1.3.6.1.2.1.1.10.0".as_slice());
//! ```
#![tactic(auto)]

mod numeric;
mod oid;
mod stored;

pub use numeric::{
    LONGEST_TEXT, OidTextError, leading_number, parse_number, parse_numeric, read_numeric,
    write_numeric,
};
pub use oid::{MAX_LEN, Oid, OidError, compare_numbers};
pub use stored::StoredOid;

// Laws: calls that do nothing. What they ensure may be used in proofs.
pub use numeric::names;
pub use oid::{order, ranks, strict_order};
