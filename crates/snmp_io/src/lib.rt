//! What the tools use of the machine, as traits: outputs, which take octets, and files, which are
//! read by their paths. Contracts speak of both by the ghost functions of the traits. Of the
//! machine's own outputs and files, only the number of failed writes is known; of outputs and files
//! in memory, all is known.
//!
//! The crate also has [`Draft`], a text that is appended whole or not at all, and
//! [`split_unquoted`], which cuts a text at an octet outside quotes.
//!
//! # Examples
//!
//! An output that becomes full has taken a prefix of the text, and a `|` within quotes ends
//! nothing:
//!
//! ```
//! let mut out = MemoryOutput::with_limit(alloc, 4);
//! assert!(rt; write_all(&mut out, b"a line").is_err());
//! assert_eq!(rt; out.octets(), b"a li".as_slice());
//! let (name, value) = split_unquoted(b"a.'|'|4|text", b'|').unwrap_or((b"", b""));
//! assert_eq!(rt; name, b"a.'|'".as_slice());
//! assert_eq!(rt; value, b"4|text".as_slice());
//! ```
#![tactic(auto)]

mod draft;
mod files;
mod machine;
pub mod memory;
mod output;
mod quotes;

pub use draft::Draft;
pub use files::{FileFault, Files, KeyedFiles};
pub use machine::{MachineFiles, MachineOutput, ReadError, read_whole};
pub use output::{Output, OutputFault, write_all};
pub use quotes::{is_quote, open_after, split_unquoted, unquoted_prefix};
