//! Definitions (RFC 2578, sections 3 to 8; RFC 2579; RFC 2580).
#![tactic(auto, unfolding(crate::proofs::Productions::of_definitions))]

ghost use Rattle.std.specs.Prelude.{◌≡◌, List, [], ◌∷◌, codes};
ghost use Rattle.smi_text.specs.private.Format.{begins, a_word, a_kind, a_name};
ghost use Rattle.smi_text.specs.private.Format as format;
ghost use Rattle.smi_text.specs.private.Grammar as grammar;
ghost use Rattle.smi_text.specs.private.Returned.{ReturnsReading};

use crate::clauses::{BeforeAssign, BeforeEnd, OneRevision};
use crate::error::Stop;
use crate::lexer::TokenKind;
use crate::parser::{AfterComma, Parser};
use crate::syntax::OneField;
use crate::trees::{
    Def, DefKind, Field, Group, Items, ModuleIdentity, Name, NotificationType, ObjectIdentity,
    ObjectType, Part, RawDefinition, Syntax, Text, TextualConvention, TokenText, TypeAssignment,
    is_macro, is_reserved,
};

impl<'a> Parser<'a> {
    /// Reads SYNTAX and its type.
    fn syntax_clause(&mut self) -> Result<Syntax, Stop>
        ensures { ReturnsReading result self.new (grammar.syntax_clause.read self.old) }
    {
        self.word(b"SYNTAX")?;
        self.syntax_type()
    }

    /// Reads OBJECT-TYPE and its clauses.
    fn object_type(&mut self) -> Result<ObjectType, Stop>
        ensures { ReturnsReading result self.new (grammar.object_type.read self.old) }
    {
        self.word(b"OBJECT-TYPE")?;
        let syntax = self.syntax_clause()?;
        let units = self.clause_if_any(b"UNITS")?;
        self.word(b"MAX-ACCESS")?;
        let max_access = self.text(TokenKind::Lower)?;
        let status = self.status()?;
        let index = self.index_if_any()?;
        let default = self.default_if_any()?;
        let value = self.value()?;
        Ok(ObjectType {
            syntax,
            units,
            max_access,
            status,
            index,
            default,
            value,
        })
    }

    /// Reads OBJECT IDENTIFIER, `::=` and the identifier value.
    fn object_identifier(&mut self) -> Result<Items<Part>, Stop>
        ensures { ReturnsReading result self.new (grammar.object_identifier.read self.old) }
    {
        self.object_identifier_words()?;
        self.value()
    }

    /// Reads OBJECT-IDENTITY and its clauses.
    fn object_identity(&mut self) -> Result<ObjectIdentity, Stop>
        ensures { ReturnsReading result self.new (grammar.object_identity.read self.old) }
    {
        self.word(b"OBJECT-IDENTITY")?;
        let status = self.status()?;
        let value = self.value()?;
        Ok(ObjectIdentity { status, value })
    }

    /// Reads MODULE-IDENTITY and its clauses.
    #[tactic(auto, unfolding(crate::proofs::Productions::of_many))]
    fn module_identity(&mut self) -> Result<ModuleIdentity, Stop>
        ensures { ReturnsReading result self.new (grammar.module_identity.read self.old) }
    {
        self.word(b"MODULE-IDENTITY")?;
        let last_updated = self.clause(b"LAST-UPDATED")?;
        let organization = self.clause(b"ORGANIZATION")?;
        let contact_info = self.clause(b"CONTACT-INFO")?;
        let description = self.clause(b"DESCRIPTION")?;
        let revisions = self.many::<OneRevision>()?;
        let value = self.value()?;
        Ok(ModuleIdentity {
            last_updated,
            organization,
            contact_info,
            description,
            revisions,
            value,
        })
    }

    /// Reads NOTIFICATION-TYPE and its clauses.
    fn notification_type(&mut self) -> Result<NotificationType, Stop>
        ensures { ReturnsReading result self.new (grammar.notification_type.read self.old) }
    {
        self.word(b"NOTIFICATION-TYPE")?;
        let objects = self.objects_if_any()?;
        let status = self.status()?;
        let value = self.value()?;
        Ok(NotificationType {
            objects,
            status,
            value,
        })
    }

    /// Reads a group: `word`, the word `members`, the members in braces, and the other clauses.
    fn group(&mut self, word: &[u8], members: &[u8]) -> Result<Group, Stop>
        ensures { ReturnsReading result self.new
            ((grammar.group word.now members.now).read self.old) }
    {
        self.word(word)?;
        self.word(members)?;
        let members = self.names()?;
        let status = self.status()?;
        let value = self.value()?;
        Ok(Group {
            members,
            status,
            value,
        })
    }

    /// Reads a definition that begins with `word`, and stores its clauses as tokens.
    fn raw_definition(&mut self, word: &[u8]) -> Result<RawDefinition, Stop>
        ensures { ReturnsReading result self.new ((grammar.raw_definition word.now).read self.old) }
    {
        self.word(word)?;
        let clauses = self.many::<BeforeAssign>()?;
        let value = self.value()?;
        Ok(RawDefinition { clauses, value })
    }

    /// Reads what follows a name that begins with a lower-case letter.
    fn lower_definition(&mut self) -> Result<DefKind, Stop>
        ensures { ReturnsReading result self.new (grammar.lower_definition.read self.old) }
    {
        if self.at_word(b"OBJECT-TYPE") {
            Ok(DefKind::ObjectType(self.object_type()?))
        } else if self.at_word(b"OBJECT") {
            Ok(DefKind::ObjectIdentifier(self.object_identifier()?))
        } else if self.at_word(b"OBJECT-IDENTITY") {
            Ok(DefKind::ObjectIdentity(self.object_identity()?))
        } else if self.at_word(b"MODULE-IDENTITY") {
            Ok(DefKind::ModuleIdentity(self.module_identity()?))
        } else if self.at_word(b"NOTIFICATION-TYPE") {
            Ok(DefKind::NotificationType(self.notification_type()?))
        } else if self.at_word(b"OBJECT-GROUP") {
            Ok(DefKind::ObjectGroup(self.group(b"OBJECT-GROUP", b"OBJECTS")?))
        } else if self.at_word(b"NOTIFICATION-GROUP") {
            Ok(DefKind::NotificationGroup(self.group(b"NOTIFICATION-GROUP", b"NOTIFICATIONS")?))
        } else if self.at_word(b"MODULE-COMPLIANCE") {
            Ok(DefKind::ModuleCompliance(self.raw_definition(b"MODULE-COMPLIANCE")?))
        } else {
            Ok(DefKind::AgentCapabilities(self.raw_definition(b"AGENT-CAPABILITIES")?))
        }
    }

    /// Reads TEXTUAL-CONVENTION and its clauses.
    #[tactic(auto, unfolding(crate::proofs::Productions::of_many))]
    fn textual_convention(&mut self) -> Result<TextualConvention, Stop>
        ensures { ReturnsReading result self.new (grammar.textual_convention.read self.old) }
    {
        self.word(b"TEXTUAL-CONVENTION")?;
        let display_hint = self.clause_if_any(b"DISPLAY-HINT")?;
        let status = self.status()?;
        let syntax = self.syntax_clause()?;
        Ok(TextualConvention {
            display_hint,
            status,
            syntax,
        })
    }

    /// Reads CHOICE and the tokens in braces after it.
    fn choice(&mut self) -> Result<Items<TokenText>, Stop>
        ensures { ReturnsReading result self.new (grammar.choice.read self.old) }
    {
        self.word(b"CHOICE")?;
        self.braced_tokens()
    }

    /// Reads `[APPLICATION n] IMPLICIT`, and returns `n`.
    fn tag(&mut self) -> Result<Text, Stop>
        ensures { ReturnsReading result self.new (grammar.tag.read self.old) }
    {
        self.sign(TokenKind::OpenBracket)?;
        self.word(b"APPLICATION")?;
        let number = self.number()?;
        self.sign(TokenKind::CloseBracket)?;
        self.word(b"IMPLICIT")?;
        Ok(number)
    }

    /// Reads the columns of a row with their braces.
    fn fields(&mut self) -> Result<Items<Field>, Stop>
        ensures { ReturnsReading result self.new ((grammar.braced (format.separated TokenKind.Comma
            grammar.field)).read self.old) }
    {
        self.sign(TokenKind::OpenBrace)?;
        let first = self.field()?;
        let fields = self.and_more::<AfterComma<OneField>>(first)?;
        self.sign(TokenKind::CloseBrace)?;
        Ok(fields)
    }

    /// Reads what follows a name and `::=`: a textual convention or a type.
    fn read_assigned(&mut self) -> Result<DefKind, Stop>
        ensures { ReturnsReading result self.new (grammar.assigned.read self.old) }
    {
        if self.at_word(b"TEXTUAL-CONVENTION") {
            return Ok(DefKind::TextualConvention(self.textual_convention()?));
        }
        if self.at_word(b"CHOICE") {
            return Ok(DefKind::Choice(self.choice()?));
        }
        if self.at_kind(TokenKind::OpenBracket) {
            let tag = Some(self.tag()?);
            let syntax = self.syntax_type()?;
            return Ok(DefKind::TypeAssignment(TypeAssignment { tag, syntax }));
        }
        if self.at_word(b"SEQUENCE") {
            self.word(b"SEQUENCE")?;
            if self.at_kind(TokenKind::OpenBrace) {
                return Ok(DefKind::Sequence(self.fields()?));
            }
            let syntax = Syntax::SequenceOf(self.of_row()?);
            return Ok(DefKind::TypeAssignment(TypeAssignment { tag: None, syntax }));
        }
        let syntax = Syntax::Simple(self.simple_type()?);
        Ok(DefKind::TypeAssignment(TypeAssignment { tag: None, syntax }))
    }

    /// Reads a macro after its name: MACRO, `::=`, BEGIN, other tokens and END.
    fn macro_definition(&mut self) -> Result<DefKind, Stop>
        ensures { ReturnsReading result self.new (grammar.macro_definition.read self.old) }
    {
        self.word(b"MACRO")?;
        self.sign(TokenKind::Assign)?;
        self.word(b"BEGIN")?;
        let tokens = self.many::<BeforeEnd>()?;
        self.word(b"END")?;
        Ok(DefKind::Macro(tokens))
    }

    /// Reads what follows a name that begins with an upper-case letter.
    fn upper_definition(&mut self) -> Result<DefKind, Stop>
        ensures { ReturnsReading result self.new (grammar.upper_definition.read self.old) }
    {
        if self.at_kind(TokenKind::Assign) {
            self.sign(TokenKind::Assign)?;
            self.read_assigned()
        } else {
            self.macro_definition()
        }
    }

    /// Returns whether a name is ahead that begins with an upper-case letter and isn't a reserved
    /// word.
    fn at_name(&self) -> bool
        ensures { result ≡ begins (a_name ∷ []) self.now }
    {
        match self.peek() {
            Some(token) => token.kind == TokenKind::Upper && !is_reserved(token.text),
            None => false,
        }
    }

    /// Returns whether the name of a macro is ahead.
    fn at_macro(&self) -> bool
        ensures { result ≡ begins grammar.macro_words self.now }
    {
        match self.peek() {
            Some(token) => token.kind == TokenKind::Upper && is_macro(token.text),
            None => false,
        }
    }

    /// Reads the name of a macro.
    fn macro_name(&mut self) -> Result<Name, Stop>
        ensures { ReturnsReading result self.new (grammar.macro_name.read self.old) }
    {
        match self.peek() {
            Some(token) if token.kind == TokenKind::Upper && is_macro(token.text) => {
                self.take_name(token)
            }
            _ => Err(self.syntax()),
        }
    }

    /// Returns whether a definition can begin with the token ahead.
    pub(crate) fn at_definition(&self) -> bool
        ensures { result ≡ begins grammar.definition.first self.now }
    {
        self.at_kind(TokenKind::Lower) || self.at_name() || self.at_macro()
    }

    /// Reads a definition.
    pub(crate) fn definition(&mut self) -> Result<Def, Stop>
        ensures { ReturnsReading result self.new (grammar.definition.read self.old) }
    {
        let line = self.line();
        if self.at_kind(TokenKind::Lower) {
            let label = self.lower()?;
            let kind = self.lower_definition()?;
            return Ok(Def { label, line, kind });
        }
        if self.at_name() {
            let label = self.name()?;
            let kind = self.upper_definition()?;
            return Ok(Def { label, line, kind });
        }
        let label = self.macro_name()?;
        let kind = self.macro_definition()?;
        Ok(Def { label, line, kind })
    }
}
