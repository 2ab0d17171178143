//! Why a module text is refused, and why a step of the parser stops.

use crate::lexer::LexError;
use thiserror::Error;

/// Why a text is refused as a whole. Lines count from 1.
#[derive(Clone, Copy, Debug, PartialEq, Eq, Error)]
pub enum ParseError {
    /// The lexer can't read the text to its end, for the reason in this `LexError`.
    #[error(transparent)]
    Lex(LexError),
    /// No module text can continue with a token on line `line`, or the text ends too early, on that
    /// line.
    #[error("line {line}: no module goes on like this")]
    Syntax { line: usize },
    /// The name of the definition on line `line` was defined before it in the same module.
    #[error("line {line}: a second definition of the name")]
    DoubleName { line: usize },
    /// An allocation was refused.
    #[error("out of memory")]
    Memory,
}

/// Why the reading of a text stops.
#[derive(Clone, Copy, Debug)]
pub(crate) enum Stop {
    /// No module text can continue with the next token, which is on line `line`, or the text ends
    /// too early, on that line.
    Syntax { line: usize },
    /// The lexer returned this fault, and not another token.
    Lex(LexError),
    /// An allocation was refused.
    Memory,
}

impl From<Stop> for ParseError {
    ghost use Rattle.std.specs.Prelude.{◌≡◌};
    ghost use Rattle.smi_text.specs.private.Returned.{error_of};

    ghost from_gives = { λ stop error. error ≡ error_of stop };

    fn from(stop: Stop) -> ParseError {
        match stop {
            Stop::Syntax { line } => ParseError::Syntax { line },
            Stop::Lex(fault) => ParseError::Lex(fault),
            Stop::Memory => ParseError::Memory,
        }
    }
}
