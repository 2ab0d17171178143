//! The parser: the tokens that are left of a text, and the steps that all productions share.
#![tactic(auto, unfolding(crate::proofs::Productions::of_parser))]

ghost use Rattle.std.specs.Prelude.{◌≡◌, ℕ, true, false, MatchBool, List, [], ◌∷◌, codes, map};
ghost use Rattle.std.specs.Prelude.{drop, IfNone, IfSome, IfOk, IfErr, OnOk, ◌++◌, ◌<◌, length};
ghost use Rattle.smi_text.specs.lexer.Token.{Lexeme, Item, lexeme_of};
ghost use Rattle.smi_text.specs.private.Format.{Format, begins, token_ahead, a_word, a_kind};
ghost use Rattle.smi_text.specs.private.Format.{a_name, line_ahead, name_of, prepend};
ghost use Rattle.smi_text.specs.private.Kinds.{is_sign_kind, is_word_kind};
ghost use Rattle.smi_text.specs.private.Format as format;
ghost use Rattle.smi_text.specs.lexer.Lexes.{Lexes};
ghost use Rattle.smi_text.specs.private.Returned.{ReturnsReading, is_memory};
ghost use Rattle.smi_text.specs.private.Grammar as grammar;
ghost use Rattle.smi_text.specs.declared.lexer.token.TokenKind.TheVariants as kinds;

use crate::error::Stop;
use crate::lexer::{LexError, Lexer, Token, TokenKind};
use crate::names::Key;
use crate::trees::{Items, Name, Text, TokenText, is_reserved};
use std::alloc::Global;
use std::collections::BTreeSet;
use std::marker::Model;

/// What is left of a text: the item that the lexer returned last, which is the next to be read, and
/// the lexer, which returns the items after it.
#[derive(Drop)]
pub(crate) struct Parser<'a> {
    /// The allocator of the trees.
    alloc: Global,
    /// The tokens after the next one.
    lexer: Lexer<'a>,
    /// The next token, or the fault of the lexer; `None` at the end of the text.
    ahead: Option<Result<Token<'a>, LexError>>,
    /// The whole text.
    text: &'a [u8],
}

impl<'a> Model for Parser<'a> {
    ghost use Rattle.std.specs.Prelude.{List};
    ghost use Rattle.smi_text.specs.lexer.Token.{Item};

    ghost Value = { List Item };

    ghost use Rattle.smi_text.specs.private.Ahead.{items_left};

    ghost view = { λ p. items_left p.ahead p.lexer };
}

/// A production that can occur several times in a row.
pub(crate) trait Production {
    /// The type of what the production reads.
    type Output;

    ghost format: { Format Self.Output };

    /// Returns whether the token ahead, by its kind or word, can begin the production.
    fn is_ahead(parser: &Parser<'_>) -> bool
        ensures { result ≡ begins format.first parser.now };

    /// Reads the production once, from at least one token.
    fn read(parser: &mut Parser<'_>) -> Result<Self::Output, Stop>
        ensures gives { ReturnsReading result parser.new (format.read parser.old) }
        ensures shorter { OnOk result (length parser.new < length parser.old) };
}

/// The production `P` after a comma.
pub(crate) struct AfterComma<P>(P);

impl<P: Production> Production for AfterComma<P> {
    type Output = P::Output;

    ghost format = { format.preceded (format.token kinds.Comma) P.format };

    fn is_ahead(parser: &Parser<'_>) -> bool {
        parser.at_kind(TokenKind::Comma)
    }

    fn read(parser: &mut Parser<'_>) -> Result<P::Output, Stop> {
        parser.sign(TokenKind::Comma)?;
        P::read(parser)
    }
}

/// The production `P` after a bar.
pub(crate) struct AfterBar<P>(P);

impl<P: Production> Production for AfterBar<P> {
    type Output = P::Output;

    ghost format = { format.preceded (format.token kinds.Bar) P.format };

    fn is_ahead(parser: &Parser<'_>) -> bool {
        parser.at_kind(TokenKind::Bar)
    }

    fn read(parser: &mut Parser<'_>) -> Result<P::Output, Stop> {
        parser.sign(TokenKind::Bar)?;
        P::read(parser)
    }
}

/// Appends `item` to `items`. Fails only if memory runs out.
pub(crate) fn keep<T: Drop>(items: &mut Vec<T>, item: T) -> Result<(), Stop>
    ensures ok { OnOk result (items.new.items ≡ items.old.items ++ item ∷ []) }
    ensures err { IfErr result (λ e. e ≡ Stop.Memory) }
{
    items.push(item).map_err(|_| Stop::Memory)
}

impl<'a> Parser<'a> {
    /// Returns the parser of `text`, a whole text.
    pub(crate) fn new(alloc: Global, text: &'a [u8]) -> Parser<'a>
        ensures items { Lexes [] text.now result }
        ensures only { (items : List Item) → Lexes [] text.now items → items ≡ result }
    {
        let mut lexer = Lexer::new(text);
        let ahead = lexer.next();
        Parser {
            alloc,
            lexer,
            ahead,
            text,
        }
    }

    /// Returns an empty set of names.
    pub(crate) fn name_set(&self) -> BTreeSet<Key<'a>>
        ensures { result.keys ≡ [] }
    {
        BTreeSet::new(self.alloc)
    }

    /// Returns an empty list.
    pub(crate) fn list<T>(&self) -> Vec<T>
        ensures { result.items ≡ [] }
    {
        Vec::new(self.alloc)
    }

    /// Returns the token ahead, which is the next to be read. Returns `None` at the end of the
    /// text and at a fault.
    pub(crate) fn peek(&self) -> Option<Token<'a>>
        ensures none { IfNone result (token_ahead self.now ≡ None) }
        ensures some { IfSome result (λ t. self.now ≡ Ok (lexeme_of t) ∷ drop 1 self.now) }
    {
        match &self.ahead {
            Some(Ok(token)) => Some(*token),
            _ => None,
        }
    }

    /// Returns whether the text is read to its end.
    pub(crate) fn is_at_end(&self) -> bool
        ensures { MatchBool result (self.now ≡ []) (self.now ≡ [] → ⊥) }
    {
        self.ahead.is_none()
    }

    /// Moves past the token or the fault ahead. Does nothing at the end of the text.
    pub(crate) fn advance(&mut self)
        ensures { self.new ≡ drop 1 self.old }
    {
        if self.ahead.is_some() {
            self.ahead = self.lexer.next();
        }
    }

    /// Returns the line of the token ahead, or 0 if no token is ahead.
    pub(crate) fn line(&self) -> usize
        ensures { result ≡ line_ahead self.now }
    {
        self.peek().map_or(0, |token| token.line)
    }

    /// Returns whether this word of the grammar is ahead.
    #[inline(always)]
    pub(crate) fn at_word(&self, word: &[u8]) -> bool
        ensures { result ≡ begins (a_word word.now ∷ []) self.now }
    {
        match self.peek() {
            Some(token) => token.kind == TokenKind::Upper && token.text == word,
            None => false,
        }
    }

    /// Returns whether a token of this kind is ahead.
    pub(crate) fn at_kind(&self, kind: TokenKind) -> bool
        ensures { result ≡ begins (a_kind kind ∷ []) self.now }
    {
        matches!(self.peek(), Some(token) if token.kind == kind)
    }

    /// Returns whether a token of one of these two kinds is ahead.
    #[tactic(auto, using(crate::proofs::Marks::begins_cons))]
    pub(crate) fn at_either(&self, first: TokenKind, second: TokenKind) -> bool
        ensures { result ≡ begins (a_kind first ∷ a_kind second ∷ []) self.now }
    {
        self.at_kind(first) || self.at_kind(second)
    }

    /// Returns the reason to stop if the text can't continue with what is ahead: the fault if one
    /// is ahead, otherwise `Syntax`, on the line of the token ahead or, at the end of the text, of
    /// the last octet.
    #[cold]
    #[inline(never)]
    pub(crate) fn syntax(&self) -> Stop
        ensures { is_memory result ≡ false }
    {
        match &self.ahead {
            Some(Ok(token)) => Stop::Syntax { line: token.line },
            Some(Err(fault)) => Stop::Lex(*fault),
            None => Stop::Syntax {
                line: last_line(self.text),
            },
        }
    }

    /// Reads this word of the grammar.
    #[inline(always)]
    pub(crate) fn word(&mut self, word: &[u8]) -> Result<(), Stop>
        ensures { ReturnsReading result self.new ((format.word word.now).read self.old) }
    {
        if !self.at_word(word) {
            return Err(self.syntax());
        }
        self.advance();
        Ok(())
    }

    /// Reads a sign of the grammar.
    pub(crate) fn sign(&mut self, kind: TokenKind) -> Result<(), Stop>
        requires { is_sign_kind kind ≡ true }
        ensures gives { ReturnsReading result self.new ((format.token kind).read self.old) }
        ensures shorter { OnOk result (length self.new < length self.old) }
    {
        match self.peek() {
            Some(token) if token.kind == kind => {
                self.advance();
                Ok(())
            }
            _ => Err(self.syntax()),
        }
    }

    /// Moves past the token ahead, whose text is `text`, and returns a copy of the text.
    pub(crate) fn take_text(&mut self, text: &[u8]) -> Result<Text, Stop>
        ensures ok { IfOk result (λ x. (x ≡ text.now) × (self.new ≡ drop 1 self.old)) }
        ensures err { IfErr result (λ e. e ≡ Stop.Memory) }
    {
        let text = Text::from_slice(self.alloc, text).map_err(|_| Stop::Memory)?;
        self.advance();
        Ok(text)
    }

    /// Reads a token of this kind, and returns its text.
    pub(crate) fn text(&mut self, kind: TokenKind) -> Result<Text, Stop>
        ensures { ReturnsReading result self.new ((format.text kind).read self.old) }
    {
        match self.peek() {
            Some(token) if token.kind == kind => self.take_text(token.text),
            _ => Err(self.syntax()),
        }
    }

    /// Moves past the token ahead, which is the word `token`, and returns a copy of it as a name.
    pub(crate) fn take_name(&mut self, token: Token<'a>) -> Result<Name, Stop>
        requires { is_word_kind token.kind ≡ true }
        ensures ok { IfOk result (λ x. (name_of token.entry.text.now ≡ Some x)
            × (self.new ≡ drop 1 self.old)) }
        ensures err { IfErr result (λ e. e ≡ Stop.Memory) }
    {
        let octets = self.take_text(token.text)?;
        Ok(Name { octets })
    }

    /// Reads a name that begins with a lower-case letter.
    pub(crate) fn lower(&mut self) -> Result<Name, Stop>
        ensures { ReturnsReading result self.new (format.lower.read self.old) }
    {
        match self.peek() {
            Some(token) if token.kind == TokenKind::Lower => self.take_name(token),
            _ => Err(self.syntax()),
        }
    }

    /// Reads a name that begins with an upper-case letter and isn't a reserved word.
    pub(crate) fn name(&mut self) -> Result<Name, Stop>
        ensures { ReturnsReading result self.new (format.name.read self.old) }
    {
        match self.peek() {
            Some(token) if token.kind == TokenKind::Upper && !is_reserved(token.text) => {
                self.take_name(token)
            }
            _ => Err(self.syntax()),
        }
    }

    /// Reads a word and the string after it, and returns the string.
    pub(crate) fn clause(&mut self, word: &[u8]) -> Result<Text, Stop>
        ensures { ReturnsReading result self.new ((grammar.clause word.now).read self.old) }
    {
        self.word(word)?;
        self.text(TokenKind::Text)
    }

    /// Reads a word and the string after it, if the word is ahead, and returns the string.
    pub(crate) fn clause_if_any(&mut self, word: &[u8]) -> Result<Option<Text>, Stop>
        ensures { ReturnsReading result self.new
            ((format.maybe (grammar.clause word.now)).read self.old) }
    {
        if self.at_word(word) {
            Ok(Some(self.clause(word)?))
        } else {
            Ok(None)
        }
    }

    /// Moves past the token ahead, which has this kind and text, and returns a copy of them.
    pub(crate) fn take_token(&mut self, kind: TokenKind, text: &[u8]) -> Result<TokenText, Stop>
        ensures ok { IfOk result (λ x. (x ≡ record { kind = kind; text = text.now })
            × (self.new ≡ drop 1 self.old)) }
        ensures err { IfErr result (λ e. e ≡ Stop.Memory) }
    {
        let text = self.take_text(text)?;
        Ok(TokenText { kind, text })
    }

    /// Reads a production any number of times. Returns `items`, with what was read appended.
    pub(crate) fn many_after<P: Production>(
        &mut self,
        items: Vec<P::Output>,
    ) -> Result<Items<P::Output>, Stop>
    where
        P::Output: Drop,
        ensures { ReturnsReading result self.new
            (prepend items.items ((format.many P.format).read
            self.old)) }
    {
        let mut items = items;
        'each: while P::is_ahead(self) {
            let item = P::read(self)?;
            keep(&mut items, item)?;
        }
        Ok(Items::new(items))
    }

    /// Reads a production any number of times.
    #[tactic(auto, using(crate::proofs::Many::with_prefix_nil))]
    pub(crate) fn many<P: Production>(&mut self) -> Result<Items<P::Output>, Stop>
    where
        P::Output: Drop,
        ensures { ReturnsReading result self.new ((format.many P.format).read self.old) }
    {
        let items = self.list();
        self.many_after::<P>(items)
    }

    /// Reads a production any number of times. Returns `first`, which was read before, with what
    /// was read appended.
    pub(crate) fn and_more<P: Production>(
        &mut self,
        first: P::Output,
    ) -> Result<Items<P::Output>, Stop>
    where
        P::Output: Drop,
        ensures { ReturnsReading result self.new
            (prepend (first ∷ []) ((format.many P.format).read
            self.old)) }
    {
        let mut items = self.list();
        keep(&mut items, first)?;
        self.many_after::<P>(items)
    }
}

/// Returns the line of the last octet of `text`, or 1 if it has none. Lines count from 1, and end
/// with LF.
fn last_line(text: &[u8]) -> usize {
    match text.split_last() {
        Some((_, prefix)) => prefix.iter().filter(|octet| **octet == b'\n').count() + 1,
        None => 1,
    }
}
