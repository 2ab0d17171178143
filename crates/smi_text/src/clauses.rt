//! Clauses that several definitions have, and tokens that are stored as they are (RFC 2578,
//! sections 7 and 8).
#![tactic(auto, unfolding(crate::proofs::Productions::of_clauses))]

ghost use Rattle.std.specs.Prelude.{◌≡◌, ◌+◌, ◌<◌, ◌^◌, List, [], ◌∷◌, codes};
ghost use Rattle.smi_text.specs.private.Format.{begins, a_word, a_kind, no_word, no_kind};
ghost use Rattle.smi_text.specs.private.Format as format;
ghost use Rattle.smi_text.specs.private.Grammar as grammar;
ghost use Rattle.smi_text.specs.declared.lexer.token.TokenKind.TheVariants as kinds;
ghost use Rattle.smi_text.specs.private.Returned.{ReturnsReading};

use crate::error::Stop;
use crate::lexer::TokenKind;
use crate::parser::{AfterComma, Parser, Production, keep};
use crate::trees::{Index, IndexParts, Items, Name, Revision, Status, TokenText};

/// A name that begins with a lower-case letter.
pub(crate) struct OneName;

impl Production for OneName {
    type Output = Name;

    ghost format = { format.lower };

    fn is_ahead(parser: &Parser<'_>) -> bool {
        parser.at_kind(TokenKind::Lower)
    }

    #[tactic(auto, using(crate::proofs::Shorter::name_shorter))]
    fn read(parser: &mut Parser<'_>) -> Result<Name, Stop> {
        parser.lower()
    }
}

/// A REVISION with its DESCRIPTION.
pub(crate) struct OneRevision;

impl Production for OneRevision {
    type Output = Revision;

    ghost format = { grammar.revision };

    fn is_ahead(parser: &Parser<'_>) -> bool {
        parser.at_word(b"REVISION")
    }

    #[tactic(auto, using(crate::proofs::Shorter::revision_shorter))]
    fn read(parser: &mut Parser<'_>) -> Result<Revision, Stop> {
        parser.revision()
    }
}

/// A token before `::=`, in clauses that are stored as tokens.
pub(crate) struct BeforeAssign;

impl Production for BeforeAssign {
    type Output = TokenText;

    ghost format = { grammar.before_assign };

    fn is_ahead(parser: &Parser<'_>) -> bool {
        parser.at_other_than_assign()
    }

    #[tactic(auto, using(crate::proofs::Shorter::before_assign_shorter))]
    fn read(parser: &mut Parser<'_>) -> Result<TokenText, Stop> {
        parser.before_assign()
    }
}

/// A token before END, in a macro.
pub(crate) struct BeforeEnd;

impl Production for BeforeEnd {
    type Output = TokenText;

    ghost format = { grammar.before_end };

    fn is_ahead(parser: &Parser<'_>) -> bool {
        parser.at_other_than_end()
    }

    #[tactic(auto, using(crate::proofs::Shorter::before_end_shorter))]
    fn read(parser: &mut Parser<'_>) -> Result<TokenText, Stop> {
        parser.before_end()
    }
}

/// Returns how many braces are open after a token of this kind. `depth` are open before it.
fn depth_after(kind: TokenKind, depth: usize) -> usize
    requires { depth + 1 < 2 ^ 64 }
    ensures { result ≡ grammar.depth_after kind depth }
{
    match kind {
        TokenKind::OpenBrace => depth + 1,
        TokenKind::CloseBrace => depth.saturating_sub(1),
        _ => depth,
    }
}

/// Returns whether a token of this kind closes a brace that isn't open. `depth` are open before
/// it.
fn is_outside(kind: TokenKind, depth: usize) -> bool
    ensures { result ≡ grammar.is_outside kind depth }
{
    kind == TokenKind::CloseBrace && depth == 0
}

impl<'a> Parser<'a> {
    /// Reads STATUS and DESCRIPTION, and REFERENCE if it is ahead.
    pub(crate) fn status(&mut self) -> Result<Status, Stop>
        ensures { ReturnsReading result self.new (grammar.status.read self.old) }
    {
        self.word(b"STATUS")?;
        let status = self.text(TokenKind::Lower)?;
        let description = self.clause(b"DESCRIPTION")?;
        let reference = self.clause_if_any(b"REFERENCE")?;
        Ok(Status {
            status,
            description,
            reference,
        })
    }

    /// Reads a REVISION with its DESCRIPTION.
    fn revision(&mut self) -> Result<Revision, Stop>
        ensures { ReturnsReading result self.new (grammar.revision.read self.old) }
    {
        let date = self.clause(b"REVISION")?;
        let description = self.clause(b"DESCRIPTION")?;
        Ok(Revision { date, description })
    }

    /// Reads names in braces.
    pub(crate) fn names(&mut self) -> Result<Items<Name>, Stop>
        ensures { ReturnsReading result self.new (grammar.names.read self.old) }
    {
        self.sign(TokenKind::OpenBrace)?;
        let first = self.lower()?;
        let names = self.and_more::<AfterComma<OneName>>(first)?;
        self.sign(TokenKind::CloseBrace)?;
        Ok(names)
    }

    /// Reads the objects of a notification, if OBJECTS is ahead.
    pub(crate) fn objects_if_any(&mut self) -> Result<Option<Items<Name>>, Stop>
        ensures { ReturnsReading result self.new ((format.maybe grammar.objects).read self.old) }
    {
        if self.at_word(b"OBJECTS") {
            self.word(b"OBJECTS")?;
            Ok(Some(self.names()?))
        } else {
            Ok(None)
        }
    }

    /// Reads the names of an INDEX. IMPLIED may come before the last one.
    #[tactic(auto, unfolding(crate::proofs::Productions::of_index))]
    fn index_names(&mut self) -> Result<IndexParts, Stop>
        ensures { ReturnsReading result self.new (grammar.index_names.read self.old) }
    {
        let mut names = self.list();
        'each: loop {
            if self.at_word(b"IMPLIED") {
                self.word(b"IMPLIED")?;
                let name = self.lower()?;
                keep(&mut names, name)?;
                return Ok(IndexParts {
                    names: Items::new(names),
                    implied: true,
                });
            }
            let name = self.lower()?;
            keep(&mut names, name)?;
            if !self.at_kind(TokenKind::Comma) {
                return Ok(IndexParts {
                    names: Items::new(names),
                    implied: false,
                });
            }
            self.sign(TokenKind::Comma)?;
        }
    }

    /// Reads how the rows of a table are identified, by INDEX or by AUGMENTS.
    fn index(&mut self) -> Result<Index, Stop>
        ensures { ReturnsReading result self.new (grammar.index.read self.old) }
    {
        if self.at_word(b"INDEX") {
            self.word(b"INDEX")?;
            self.sign(TokenKind::OpenBrace)?;
            let parts = self.index_names()?;
            self.sign(TokenKind::CloseBrace)?;
            Ok(Index::Own(parts))
        } else {
            self.word(b"AUGMENTS")?;
            self.sign(TokenKind::OpenBrace)?;
            let row = self.lower()?;
            self.sign(TokenKind::CloseBrace)?;
            Ok(Index::Augments(row))
        }
    }

    /// Reads how the rows of a table are identified, if INDEX or AUGMENTS is ahead.
    pub(crate) fn index_if_any(&mut self) -> Result<Option<Index>, Stop>
        ensures { ReturnsReading result self.new ((format.maybe grammar.index).read self.old) }
    {
        if self.at_word(b"INDEX") || self.at_word(b"AUGMENTS") {
            Ok(Some(self.index()?))
        } else {
            Ok(None)
        }
    }

    /// Returns whether a token other than `::=` is ahead.
    fn at_other_than_assign(&self) -> bool
        ensures { result ≡ begins (no_kind TokenKind.Assign ∷ []) self.now }
    {
        matches!(self.peek(), Some(token) if token.kind != TokenKind::Assign)
    }

    /// Reads a token other than `::=`.
    fn before_assign(&mut self) -> Result<TokenText, Stop>
        ensures { ReturnsReading result self.new (grammar.before_assign.read self.old) }
    {
        match self.peek() {
            Some(token) if token.kind != TokenKind::Assign => self.take_token(
                token.kind, token.text,
            ),
            _ => Err(self.syntax()),
        }
    }

    /// Returns whether a token other than END is ahead.
    fn at_other_than_end(&self) -> bool
        ensures { result ≡ begins (no_word (codes "END") ∷ []) self.now }
    {
        self.peek().is_some() && !self.at_word(b"END")
    }

    /// Reads a token other than END.
    fn before_end(&mut self) -> Result<TokenText, Stop>
        ensures { ReturnsReading result self.new (grammar.before_end.read self.old) }
    {
        match self.peek() {
            Some(token) if !self.at_word(b"END") => { self.take_token(token.kind, token.text) }
            _ => Err(self.syntax()),
        }
    }

    /// Reads tokens up to a `}` whose `{` isn't among them, or to the end of the text or a fault.
    /// Fails there if a `{` among the tokens isn't closed.
    fn balanced_tokens(&mut self) -> Result<Items<TokenText>, Stop>
        ensures { ReturnsReading result self.new (grammar.balanced_tokens.read self.old) }
    {
        let mut tokens = self.list();
        let mut depth: usize = 0;
        'each: loop {
            match self.peek() {
                Some(token) if !is_outside(token.kind, depth) => {
                    let kept = self.take_token(token.kind, token.text)?;
                    keep(&mut tokens, kept)?;
                    depth = depth_after(token.kind, depth);
                }
                None if depth > 0 => return Err(self.syntax()),
                _ => return Ok(Items::new(tokens)),
            }
        }
    }

    /// Reads balanced tokens with the braces around them.
    pub(crate) fn braced_tokens(&mut self) -> Result<Items<TokenText>, Stop>
        ensures { ReturnsReading result self.new
            ((grammar.braced grammar.balanced_tokens).read self.old) }
    {
        self.sign(TokenKind::OpenBrace)?;
        let tokens = self.balanced_tokens()?;
        self.sign(TokenKind::CloseBrace)?;
        Ok(tokens)
    }

    /// Reads the tokens of a DEFVAL, if it is ahead.
    pub(crate) fn default_if_any(&mut self) -> Result<Option<Items<TokenText>>, Stop>
        ensures { ReturnsReading result self.new
            ((format.maybe grammar.default_value).read self.old) }
    {
        if self.at_word(b"DEFVAL") {
            self.word(b"DEFVAL")?;
            Ok(Some(self.braced_tokens()?))
        } else {
            Ok(None)
        }
    }
}
