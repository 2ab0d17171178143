//! The lexer: it returns the tokens of a text one after the other. If it can't read the text to
//! its end, the fault comes last.
ghost use Rattle.std.specs.Prelude.{◌≡◌, ℕ, List, []};
ghost use Rattle.smi_text.specs.lexer.Lexes.{AreInOrder, Lexes, fault_on};
ghost use Rattle.smi_text.specs.lexer.Token.{Item, tokens_of};

use crate::lexer::scan::{gaps_at, is_open, lexeme_at, lines_in};
use crate::lexer::token::{LexError, Span, Token};
use std::marker::Model;

/// An iterator over the tokens of a module text. If it can't read the text to its end, its last
/// item is the fault. It doesn't allocate.
#[derive(Drop)]
pub struct Lexer<'a> {
    /// The octets that are still to be read; none after a fault.
    rest: &'a [u8],
    /// The number of octets before `rest`, unless `rest` is empty.
    at: usize,
    /// The number of newlines among the octets before `rest`, unless `rest` is empty.
    lines: usize,
}

impl<'a> Model for Lexer<'a> {
    ghost use Rattle.std.specs.Prelude.{List, ◌+◌, ◌<◌, ◌≤◌, ◌^◌, length};
    ghost use Rattle.smi_text.specs.lexer.Token.{Item};

    ghost Value = { List Item };

    ghost use Rattle.smi_text.specs.lexer.LongestMatch.{items_at};

    ghost view = { λ s. items_at 0 s.at s.lines s.rest.now };

    ghost invariant = { λ s. (s.at + length s.rest.now < 2 ^ 64) × (s.lines ≤ s.at) };
}

impl<'a> Lexer<'a> {
    /// Returns the lexer of `text`, a whole module text.
    pub fn new(text: &'a [u8]) -> Self
        // The lexer returns the text's tokens, and then the fault if it can't read the text to its
        // end.
        ensures tokens { Lexes [] text.now result }
        // A text has no other list of tokens.
        ensures only { (items : List Item) → Lexes [] text.now items → items ≡ result }
        // Tokens are in order, and the text of each is the octets at its span.
        ensures spans { AreInOrder text.now 0 (tokens_of result) }
    {
        Lexer {
            rest: text,
            at: 0,
            lines: 0,
        }
    }
}

impl<'a> Iterator for Lexer<'a> {
    type Item = Result<Token<'a>, LexError>;

    ghost use Rattle.std.specs.Iterator.{YieldsFirstBy, item_count};
    ghost use Rattle.smi_text.specs.lexer.Token.{item_of};

    ghost next_gives = { YieldsFirstBy item_of (λ s. s) };

    ghost remaining = { item_count (λ s. s) };

    fn next(&mut self) -> Option<Result<Token<'a>, LexError>> {
        let (gaps, ended) = gaps_at(self.rest);
        let (_, text) = self.rest.split_at(gaps);
        let start = self.at + gaps;
        let lines = self.lines + ended;
        if text.is_empty() {
            self.rest = text;
            return None;
        }
        let line = lines + 1;
        let Some((kind, len)) = lexeme_at(text) else {
            // Nothing is left after a fault.
            self.rest = &[];
            return Some(Err(fault_at(text, line)));
        };
        let (octets, rest) = text.split_at(len);
        let span = Span {
            start,
            end: start + len,
        };
        self.rest = rest;
        self.at = span.end;
        self.lines = lines + lines_in(kind, octets);
        Some(Ok(Token {
            kind,
            span,
            text: octets,
            line,
        }))
    }
}

/// Returns why no token begins at the start of `text`, which is on line `line`.
fn fault_at(text: &[u8], line: usize) -> LexError
    ensures { result ≡ fault_on line text.now }
{
    if is_open(text) {
        LexError::OpenString { line }
    } else {
        LexError::BadByte { line }
    }
}

/// After the same octets, a text has at most one list of items: its tokens, and perhaps a fault.
///
/// A law: the call does nothing, and its caller may use what it ensures.
#[tactic(auto, using(crate::proofs::LexerLaws::one_list))]
pub fn one_token_list()
    ensures { (before text : List ℕ) (xs ys : List Item) →
        Lexes before text xs → Lexes before text ys → xs ≡ ys }
{}
