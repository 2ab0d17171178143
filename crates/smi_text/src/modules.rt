//! Modules, with what they import (RFC 2578, section 3).
#![tactic(auto, unfolding(crate::proofs::Productions::of_modules))]

ghost use Rattle.std.specs.Prelude.{◌≡◌, List, [], ◌∷◌, codes};
ghost use Rattle.smi_text.specs.private.Format.{begins, a_word, a_kind, a_name};
ghost use Rattle.smi_text.specs.private.Format as format;
ghost use Rattle.smi_text.specs.private.Grammar as grammar;
ghost use Rattle.smi_text.specs.declared.lexer.token.TokenKind.TheVariants as kinds;
ghost use Rattle.smi_text.specs.trees.Number as number;
ghost use Rattle.smi_text.specs.private.Returned.{ReturnsReading};

use crate::error::Stop;
use crate::lexer::TokenKind;
use crate::parser::{AfterComma, Parser, Production};
use crate::syntax::HeadingPart;
use crate::trees::{Import, Items, Name, Part, TokenText, is_macro, is_reserved};

/// The start of a module, before its definitions.
#[derive(Debug, Drop)]
pub(crate) struct Head {
    /// The name of the module.
    pub(crate) name: Name,
    /// The identifier in braces after the name, if there are braces. It may be empty.
    pub(crate) heading: Option<Items<Part>>,
    /// The FROM clauses, if there is an IMPORTS.
    pub(crate) imports: Option<Items<Import>>,
}

/// A symbol that is imported.
pub(crate) struct Symbol;

impl Production for Symbol {
    type Output = TokenText;

    ghost format = { grammar.imported_symbol };

    fn is_ahead(parser: &Parser<'_>) -> bool {
        parser.at_symbol()
    }

    #[tactic(auto, using(crate::proofs::Shorter::symbol_shorter))]
    fn read(parser: &mut Parser<'_>) -> Result<TokenText, Stop> {
        parser.symbol()
    }
}

/// A FROM clause: its symbols, FROM and the name of a module.
pub(crate) struct OneImport;

impl Production for OneImport {
    type Output = Import;

    ghost format = { grammar.import_clause };

    fn is_ahead(parser: &Parser<'_>) -> bool {
        parser.at_symbol()
    }

    #[tactic(auto, using(crate::proofs::Shorter::import_clause_shorter))]
    fn read(parser: &mut Parser<'_>) -> Result<Import, Stop> {
        parser.import_clause()
    }
}

impl<'a> Parser<'a> {
    /// Returns whether a symbol that can be imported is ahead.
    #[tactic(auto, unfolding(crate::proofs::Productions::all))]
    fn at_symbol(&self) -> bool
        ensures { result ≡ begins grammar.imported_symbol.first self.now }
    {
        self.at_definition()
    }

    /// Reads a symbol that is imported: a name, or the name of a macro.
    fn symbol(&mut self) -> Result<TokenText, Stop>
        ensures { ReturnsReading result self.new (grammar.imported_symbol.read self.old) }
    {
        match self.peek() {
            Some(token) if is_symbol(token.kind, token.text) => {
                self.take_token(token.kind, token.text)
            }
            _ => Err(self.syntax()),
        }
    }

    /// Reads a FROM clause: its symbols, FROM and the name of a module.
    fn import_clause(&mut self) -> Result<Import, Stop>
        ensures { ReturnsReading result self.new (grammar.import_clause.read self.old) }
    {
        let line = self.line();
        let first = self.symbol()?;
        let symbols = self.and_more::<AfterComma<Symbol>>(first)?;
        self.word(b"FROM")?;
        let source = self.name()?;
        Ok(Import {
            symbols,
            source,
            line,
        })
    }

    /// Reads IMPORTS, its FROM clauses and the semicolon after them.
    fn imports(&mut self) -> Result<Items<Import>, Stop>
        ensures { ReturnsReading result self.new (grammar.imports.read self.old) }
    {
        self.word(b"IMPORTS")?;
        let imports = self.many::<OneImport>()?;
        self.sign(TokenKind::Semicolon)?;
        Ok(imports)
    }

    /// Reads IMPORTS, if it is ahead.
    fn imports_if_any(&mut self) -> Result<Option<Items<Import>>, Stop>
        ensures { ReturnsReading result self.new ((format.maybe grammar.imports).read self.old) }
    {
        if self.at_word(b"IMPORTS") {
            Ok(Some(self.imports()?))
        } else {
            Ok(None)
        }
    }

    /// Reads the identifier in braces after a module's name.
    fn heading(&mut self) -> Result<Items<Part>, Stop>
        ensures { ReturnsReading result self.new (grammar.heading.read self.old) }
    {
        self.sign(TokenKind::OpenBrace)?;
        let parts = self.many::<HeadingPart>()?;
        self.sign(TokenKind::CloseBrace)?;
        Ok(parts)
    }

    /// Reads the identifier after a module's name, if a brace is ahead.
    fn heading_if_any(&mut self) -> Result<Option<Items<Part>>, Stop>
        ensures { ReturnsReading result self.new ((format.maybe grammar.heading).read self.old) }
    {
        if self.at_kind(TokenKind::OpenBrace) {
            Ok(Some(self.heading()?))
        } else {
            Ok(None)
        }
    }

    /// Reads DEFINITIONS, `::=` and BEGIN.
    fn opening(&mut self) -> Result<(), Stop>
        ensures { ReturnsReading result self.new (grammar.opening.read self.old) }
    {
        self.word(b"DEFINITIONS")?;
        self.sign(TokenKind::Assign)?;
        self.word(b"BEGIN")
    }

    /// Reads the start of a module, before its definitions.
    pub(crate) fn head(&mut self) -> Result<Head, Stop>
        ensures { ReturnsReading result self.new (grammar.head.read self.old) }
    {
        let name = self.name()?;
        let heading = self.heading_if_any()?;
        self.opening()?;
        let imports = self.imports_if_any()?;
        Ok(Head {
            name,
            heading,
            imports,
        })
    }
}

/// Returns whether a token can be imported.
fn is_symbol(kind: TokenKind, text: &[u8]) -> bool
    ensures { result ≡ number.is_symbol kind text.now }
{
    match kind {
        TokenKind::Lower => true,
        TokenKind::Upper => !is_reserved(text) || is_macro(text),
        _ => false,
    }
}
