//! Why a text isn't a name.
use thiserror::Error;

/// Why a text doesn't name an identifier: its first fault from the left.
#[derive(Clone, Copy, Debug, PartialEq, Eq, Error)]
pub enum NameError {
    /// A label or a module is unknown, or the text is empty.
    #[error("unknown name")]
    Unknown,
    /// A part that begins with a quote is malformed, or has octets after the closing quote.
    #[error("bad index")]
    BadIndex,
    /// A part is empty, or begins with a digit and isn't a number up to 4294967295.
    #[error("bad number")]
    BadNumber,
    /// The identifier would have more than 128 numbers.
    #[error("name too long")]
    TooLong,
}
