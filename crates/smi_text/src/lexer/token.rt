//! The tokens of a module text, and the errors of the lexer.
ghost use Rattle.smi_text.specs.lexer.Lexeme.{IsLexeme};

use thiserror::Error;

/// The kind of a token. Words of the grammar, such as `BEGIN` or `OBJECT-TYPE`, are `Upper` too:
/// the parser tells them apart by their text.
#[derive(Clone, Copy, Debug, PartialEq, Eq)]
pub enum TokenKind {
    /// A word that begins with a lower-case letter.
    Lower,
    /// A word that begins with an upper-case letter.
    Upper,
    /// Decimal digits, with or without a hyphen directly before them.
    Number,
    /// A quoted string, with its quotes.
    Text,
    /// A hexadecimal literal, such as `'0F'H`, with its quotes and letter.
    Hex,
    /// A binary literal, such as `'01'B`, with its quotes and letter.
    Binary,
    /// `::=`
    Assign,
    /// `..`
    Range,
    /// `{`
    OpenBrace,
    /// `}`
    CloseBrace,
    /// `(`
    OpenParen,
    /// `)`
    CloseParen,
    /// `[`
    OpenBracket,
    /// `]`
    CloseBracket,
    /// `<`
    Less,
    /// `>`
    Greater,
    /// `,`
    Comma,
    /// `;`
    Semicolon,
    /// `:`
    Colon,
    /// `|`
    Bar,
    /// `.`
    Dot,
    /// `=`
    Equals,
}

/// The position of a token in the source, in octets: from `start` up to `end`, which is not part
/// of it.
#[derive(Clone, Copy, Debug, PartialEq, Eq)]
pub struct Span {
    pub start: usize,
    pub end: usize,
}

/// A token of a source text. It borrows its octets from the text.
#[derive(Clone, Copy, Debug, PartialEq, Eq)]
pub struct Token<'a> {
    pub kind: TokenKind,
    /// Its position in the source.
    pub span: Span,
    /// Its octets, unchanged from the source.
    pub text: &'a [u8],
    /// The line of its first octet. Lines count from 1, and end with LF.
    pub line: usize,
    pub ghost lexical: { ∥ IsLexeme kind text.now ∥₁ },
}

/// Why the lexer stopped. `line` is the line, from 1, of the octet at which it stopped.
#[derive(Clone, Copy, Debug, PartialEq, Eq, Error)]
pub enum LexError {
    /// An octet isn't blank and begins neither a lexeme nor a comment. It may be the first `'` of
    /// a malformed literal.
    #[error("line {line}: no token begins here")]
    BadByte { line: usize },
    /// A `"` or `'` has no closing one.
    #[error("line {line}: the string has no end")]
    OpenString { line: usize },
}
