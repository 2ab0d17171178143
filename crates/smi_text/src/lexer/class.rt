//! The classes of octets: the first octet of a lexeme, or of a gap (a blank octet or a comment),
//! decides what it may be.
ghost use Rattle.std.specs.Prelude.{◌≡◌};
ghost use Rattle.smi_text.specs.lexer.LongestMatch.{class_of};

use crate::lexer::token::TokenKind;

/// What can begin with an octet.
#[derive(Clone, Copy)]
pub enum Class {
    /// A blank octet: tab, LF, VT, FF, CR or space.
    Blank,
    /// A word that begins with a lower-case letter.
    Lowercase,
    /// A word that begins with an upper-case letter.
    Uppercase,
    /// A number.
    Digit,
    /// A number or a comment.
    Hyphen,
    /// A string.
    Quote,
    /// A hexadecimal or binary literal.
    Apostrophe,
    /// This symbol, or a longer one that begins with it.
    Symbol(TokenKind),
    /// Nothing.
    Other,
}

/// Returns the class of `octet`.
pub fn class_of_octet(octet: u8) -> Class
    ensures { result ≡ class_of octet }
{
    match octet {
        b'\t'..=b'\r' | b' ' => Class::Blank,
        b'a'..=b'z' => Class::Lowercase,
        b'A'..=b'Z' => Class::Uppercase,
        b'0'..=b'9' => Class::Digit,
        b'-' => Class::Hyphen,
        b'"' => Class::Quote,
        b'\'' => Class::Apostrophe,
        b'{' => Class::Symbol(TokenKind::OpenBrace),
        b'}' => Class::Symbol(TokenKind::CloseBrace),
        b'(' => Class::Symbol(TokenKind::OpenParen),
        b')' => Class::Symbol(TokenKind::CloseParen),
        b'[' => Class::Symbol(TokenKind::OpenBracket),
        b']' => Class::Symbol(TokenKind::CloseBracket),
        b'<' => Class::Symbol(TokenKind::Less),
        b'>' => Class::Symbol(TokenKind::Greater),
        b',' => Class::Symbol(TokenKind::Comma),
        b';' => Class::Symbol(TokenKind::Semicolon),
        b':' => Class::Symbol(TokenKind::Colon),
        b'|' => Class::Symbol(TokenKind::Bar),
        b'.' => Class::Symbol(TokenKind::Dot),
        b'=' => Class::Symbol(TokenKind::Equals),
        _ => Class::Other,
    }
}
