//! Identifier values and types (RFC 2578, sections 7.1, 7.10 and 9).
#![tactic(auto, unfolding(crate::proofs::Productions::of_types))]

ghost use Rattle.std.specs.Prelude.{◌≡◌, List, [], ◌∷◌, codes};
ghost use Rattle.smi_text.specs.private.Format.{begins, a_word, a_kind, a_name};
ghost use Rattle.smi_text.specs.private.Format as format;
ghost use Rattle.smi_text.specs.private.Grammar as grammar;
ghost use Rattle.smi_text.specs.{trees.Number.is_number, private.Returned.ReturnsReading};

use crate::error::Stop;
use crate::lexer::TokenKind;
use crate::parser::{AfterBar, AfterComma, Parser, Production};
use crate::trees::{
    Base, Field, Items, Name, NamedNumber, Part, Range, Refinement, SimpleType, Syntax, Text,
    TokenText, is_arc, is_bound, is_number,
};

/// A part of an identifier in a module's heading.
pub(crate) struct HeadingPart;

impl Production for HeadingPart {
    type Output = Part;

    ghost format = { grammar.part };

    fn is_ahead(parser: &Parser<'_>) -> bool {
        parser.at_either(TokenKind::Number, TokenKind::Lower)
    }

    #[tactic(auto, using(crate::proofs::Shorter::part_shorter))]
    fn read(parser: &mut Parser<'_>) -> Result<Part, Stop> {
        parser.part()
    }
}

/// A part of an identifier value after the first.
pub(crate) struct LaterPart;

impl Production for LaterPart {
    type Output = Part;

    ghost format = { grammar.later_part };

    fn is_ahead(parser: &Parser<'_>) -> bool {
        parser.at_either(TokenKind::Number, TokenKind::Lower)
    }

    #[tactic(auto, using(crate::proofs::Shorter::later_part_shorter))]
    fn read(parser: &mut Parser<'_>) -> Result<Part, Stop> {
        parser.later_part()
    }
}

/// A name, and then a number in parentheses. The number may be negative.
pub(crate) struct OneNamedNumber;

impl Production for OneNamedNumber {
    type Output = NamedNumber;

    ghost format = { grammar.named_number };

    fn is_ahead(parser: &Parser<'_>) -> bool {
        parser.at_kind(TokenKind::Lower)
    }

    #[tactic(auto, using(crate::proofs::Shorter::named_number_shorter))]
    fn read(parser: &mut Parser<'_>) -> Result<NamedNumber, Stop> {
        parser.named_number()
    }
}

/// A range.
pub(crate) struct OneRange;

impl Production for OneRange {
    type Output = Range;

    ghost format = { grammar.range };

    fn is_ahead(parser: &Parser<'_>) -> bool {
        parser.at_bound()
    }

    #[tactic(auto, using(crate::proofs::Shorter::range_shorter))]
    fn read(parser: &mut Parser<'_>) -> Result<Range, Stop> {
        parser.range()
    }
}

/// A column of a row.
pub(crate) struct OneField;

impl Production for OneField {
    type Output = Field;

    ghost format = { grammar.field };

    fn is_ahead(parser: &Parser<'_>) -> bool {
        parser.at_kind(TokenKind::Lower)
    }

    #[tactic(auto, using(crate::proofs::Shorter::field_shorter))]
    fn read(parser: &mut Parser<'_>) -> Result<Field, Stop> {
        parser.field()
    }
}

impl<'a> Parser<'a> {
    /// Reads a number of an identifier, 0 to 4294967295.
    fn arc(&mut self) -> Result<Text, Stop>
        ensures { ReturnsReading result self.new (grammar.arc.read self.old) }
    {
        match self.peek() {
            Some(token) if token.kind == TokenKind::Number && is_arc(token.text) => {
                self.take_text(token.text)
            }
            _ => Err(self.syntax()),
        }
    }

    /// Reads a number of an identifier in parentheses.
    fn arc_in_parentheses(&mut self) -> Result<Text, Stop>
        ensures { ReturnsReading result self.new
            ((grammar.parenthesized grammar.arc).read self.old) }
    {
        self.sign(TokenKind::OpenParen)?;
        let number = self.arc()?;
        self.sign(TokenKind::CloseParen)?;
        Ok(number)
    }

    /// Reads a number of an identifier in parentheses, if a parenthesis is ahead.
    fn arc_if_any(&mut self) -> Result<Option<Text>, Stop>
        ensures { ReturnsReading result self.new
            ((format.maybe (grammar.parenthesized grammar.arc)).read
            self.old) }
    {
        if self.at_kind(TokenKind::OpenParen) {
            Ok(Some(self.arc_in_parentheses()?))
        } else {
            Ok(None)
        }
    }

    /// Reads the first part of an identifier value, or a part of a module's heading.
    fn part(&mut self) -> Result<Part, Stop>
        ensures { ReturnsReading result self.new (grammar.part.read self.old) }
    {
        if self.at_kind(TokenKind::Number) {
            return Ok(Part::Number(self.arc()?));
        }
        let name = self.lower()?;
        match self.arc_if_any()? {
            Some(number) => Ok(Part::NamedNumber(NamedNumber { name, number })),
            None => Ok(Part::Name(name)),
        }
    }

    /// Reads a part of an identifier value after the first.
    fn later_part(&mut self) -> Result<Part, Stop>
        ensures { ReturnsReading result self.new (grammar.later_part.read self.old) }
    {
        if self.at_kind(TokenKind::Number) {
            return Ok(Part::Number(self.arc()?));
        }
        let name = self.lower()?;
        let number = self.arc_in_parentheses()?;
        Ok(Part::NamedNumber(NamedNumber { name, number }))
    }

    /// Reads an identifier value with its braces.
    fn identifier(&mut self) -> Result<Items<Part>, Stop>
        ensures { ReturnsReading result self.new (grammar.identifier.read self.old) }
    {
        self.sign(TokenKind::OpenBrace)?;
        let first = self.part()?;
        let parts = self.and_more::<LaterPart>(first)?;
        self.sign(TokenKind::CloseBrace)?;
        Ok(parts)
    }

    /// Reads `::=` and the identifier value after it.
    pub(crate) fn value(&mut self) -> Result<Items<Part>, Stop>
        ensures { ReturnsReading result self.new (grammar.value.read self.old) }
    {
        self.sign(TokenKind::Assign)?;
        self.identifier()
    }

    /// Reads a number outside identifiers, -9223372036854775808 to 18446744073709551615.
    pub(crate) fn number(&mut self) -> Result<Text, Stop>
        ensures { ReturnsReading result self.new
            ((format.text_where TokenKind.Number is_number).read
            self.old) }
    {
        match self.peek() {
            Some(token) if token.kind == TokenKind::Number && is_number(token.text) => {
                self.take_text(token.text)
            }
            _ => Err(self.syntax()),
        }
    }

    /// Reads a name, and then a number in parentheses. The number may be negative.
    fn named_number(&mut self) -> Result<NamedNumber, Stop>
        ensures { ReturnsReading result self.new (grammar.named_number.read self.old) }
    {
        let name = self.lower()?;
        self.sign(TokenKind::OpenParen)?;
        let number = self.number()?;
        self.sign(TokenKind::CloseParen)?;
        Ok(NamedNumber { name, number })
    }

    /// Returns whether a number or a literal is ahead: only these can be an end of a range.
    #[tactic(auto, using(crate::proofs::Marks::begins_cons))]
    fn at_bound(&self) -> bool
        ensures { result ≡ begins (a_kind TokenKind.Number ∷ a_kind TokenKind.Hex ∷ a_kind
            TokenKind.Binary ∷ []) self.now }
    {
        self.at_kind(TokenKind::Number) || self.at_either(TokenKind::Hex, TokenKind::Binary)
    }

    /// Reads an end of a range.
    fn bound(&mut self) -> Result<TokenText, Stop>
        ensures { ReturnsReading result self.new (grammar.bound.read self.old) }
    {
        match self.peek() {
            Some(token) if is_bound(token.kind, token.text) => {
                self.take_token(token.kind, token.text)
            }
            _ => Err(self.syntax()),
        }
    }

    /// Reads the upper end of a range, if `..` is ahead.
    fn upper_bound_if_any(&mut self) -> Result<Option<TokenText>, Stop>
        ensures { ReturnsReading result self.new ((format.maybe (format.preceded (format.token
            TokenKind.Range) grammar.bound)).read self.old) }
    {
        if self.at_kind(TokenKind::Range) {
            self.sign(TokenKind::Range)?;
            Ok(Some(self.bound()?))
        } else {
            Ok(None)
        }
    }

    /// Reads a range.
    fn range(&mut self) -> Result<Range, Stop>
        ensures { ReturnsReading result self.new (grammar.range.read self.old) }
    {
        let low = self.bound()?;
        let high = self.upper_bound_if_any()?;
        Ok(Range { low, high })
    }

    /// Reads ranges with bars between them.
    fn ranges(&mut self) -> Result<Items<Range>, Stop>
        ensures { ReturnsReading result self.new (grammar.ranges.read self.old) }
    {
        let first = self.range()?;
        self.and_more::<AfterBar<OneRange>>(first)
    }

    /// Reads SIZE, and the ranges of lengths in parentheses after it.
    fn size(&mut self) -> Result<Items<Range>, Stop>
        ensures { ReturnsReading result self.new (grammar.size.read self.old) }
    {
        self.word(b"SIZE")?;
        self.sign(TokenKind::OpenParen)?;
        let ranges = self.ranges()?;
        self.sign(TokenKind::CloseParen)?;
        Ok(ranges)
    }

    /// Reads named numbers in braces.
    fn numbers(&mut self) -> Result<Items<NamedNumber>, Stop>
        ensures { ReturnsReading result self.new ((grammar.braced (format.separated TokenKind.Comma
            grammar.named_number)).read self.old) }
    {
        self.sign(TokenKind::OpenBrace)?;
        let first = self.named_number()?;
        let numbers = self.and_more::<AfterComma<OneNamedNumber>>(first)?;
        self.sign(TokenKind::CloseBrace)?;
        Ok(numbers)
    }

    /// Reads what narrows a type: named numbers, ranges of values, or ranges of lengths.
    fn refinement(&mut self) -> Result<Refinement, Stop>
        ensures { ReturnsReading result self.new (grammar.refinement.read self.old) }
    {
        if self.at_kind(TokenKind::OpenBrace) {
            return Ok(Refinement::Numbers(self.numbers()?));
        }
        self.sign(TokenKind::OpenParen)?;
        let refinement = if self.at_word(b"SIZE") {
            Refinement::Size(self.size()?)
        } else {
            Refinement::Values(self.ranges()?)
        };
        self.sign(TokenKind::CloseParen)?;
        Ok(refinement)
    }

    /// Reads what narrows a type, if a brace or a parenthesis is ahead.
    fn refinement_if_any(&mut self) -> Result<Option<Refinement>, Stop>
        ensures { ReturnsReading result self.new ((format.maybe grammar.refinement).read self.old) }
    {
        if self.at_either(TokenKind::OpenBrace, TokenKind::OpenParen) {
            Ok(Some(self.refinement()?))
        } else {
            Ok(None)
        }
    }

    /// Reads OBJECT IDENTIFIER.
    pub(crate) fn object_identifier_words(&mut self) -> Result<(), Stop>
        ensures { ReturnsReading result self.new (grammar.object_identifier_words.read self.old) }
    {
        self.word(b"OBJECT")?;
        self.word(b"IDENTIFIER")
    }

    /// Reads OCTET STRING.
    fn octet_string_words(&mut self) -> Result<(), Stop>
        ensures { ReturnsReading result self.new (grammar.octet_string_words.read self.old) }
    {
        self.word(b"OCTET")?;
        self.word(b"STRING")
    }

    /// Reads a base type or the name of a type.
    fn base(&mut self) -> Result<Base, Stop>
        ensures { ReturnsReading result self.new (grammar.base.read self.old) }
    {
        if self.at_word(b"INTEGER") {
            self.word(b"INTEGER")?;
            Ok(Base::Integer)
        } else if self.at_word(b"OCTET") {
            self.octet_string_words()?;
            Ok(Base::OctetString)
        } else if self.at_word(b"OBJECT") {
            self.object_identifier_words()?;
            Ok(Base::ObjectIdentifier)
        } else if self.at_word(b"BITS") {
            self.word(b"BITS")?;
            Ok(Base::Bits)
        } else {
            Ok(Base::Named(self.name()?))
        }
    }

    /// Reads a type other than `SEQUENCE OF`.
    pub(crate) fn simple_type(&mut self) -> Result<SimpleType, Stop>
        ensures { ReturnsReading result self.new (grammar.simple_type.read self.old) }
    {
        let base = self.base()?;
        let refinement = self.refinement_if_any()?;
        Ok(SimpleType { base, refinement })
    }

    /// Reads what follows SEQUENCE in the type of a table: OF and its row's type.
    pub(crate) fn of_row(&mut self) -> Result<Name, Stop>
        ensures { ReturnsReading result self.new (grammar.of_row.read self.old) }
    {
        self.word(b"OF")?;
        self.name()
    }

    /// Reads a type.
    pub(crate) fn syntax_type(&mut self) -> Result<Syntax, Stop>
        ensures { ReturnsReading result self.new (grammar.syntax_type.read self.old) }
    {
        if self.at_word(b"SEQUENCE") {
            self.word(b"SEQUENCE")?;
            Ok(Syntax::SequenceOf(self.of_row()?))
        } else {
            Ok(Syntax::Simple(self.simple_type()?))
        }
    }

    /// Reads a column of a row.
    pub(crate) fn field(&mut self) -> Result<Field, Stop>
        ensures { ReturnsReading result self.new (grammar.field.read self.old) }
    {
        let label = self.lower()?;
        let syntax = self.syntax_type()?;
        Ok(Field { label, syntax })
    }
}
