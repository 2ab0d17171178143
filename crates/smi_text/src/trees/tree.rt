//! Module trees: what a module text says, without blanks and comments (RFC 2578, sections 3 to 8;
//! RFC 2579; RFC 2580), and what it defines and imports.
//!
//! A tree owns its texts, which are the unchanged texts of the tokens: strings with their quotes,
//! numbers with their zeros.
ghost use Rattle.std.specs.{Prelude.◌≡◌, Option.option_copied};
ghost use Rattle.smi_text.specs.trees.Lookup as lookup;

use crate::lexer::TokenKind;
use crate::trees::items::{Items, Text};
use crate::trees::names::Name;
use crate::trees::numbers;

/// A module (RFC 2578, section 3).
#[derive(Debug)]
pub struct Module {
    pub name: Name,
    /// The identifier in braces after the name, if there are braces. It may be empty.
    pub heading: Option<Items<Part>>,
    /// What is imported, one item for each FROM, if there is an IMPORTS. It may be empty.
    pub imports: Option<Items<Import>>,
    /// The definitions, in the order of the text. In a module that
    /// [`parse_modules`](crate::parse_modules) returns, no two have the same label.
    pub defs: Items<Def>,
}

// Written by hand, so that an owner of a module calls this `drop`, and not one for each field.
impl Drop for Module {
    fn drop(self) {
        let Module {
            name: _name,
            heading: _heading,
            imports: _imports,
            defs: _defs,
        } = self;
    }
}

impl Module {
    /// Returns the first definition of `name` in the text, if the module has one (RFC 2578,
    /// section 3.1).
    pub fn define(&self, name: &[u8]) -> Option<&Def>
        ensures { option_copied result ≡ lookup.definition_of self.now name.now }
    {
        definition_among(self.defs.as_slice(), name)
    }

    /// Returns the first FROM clause in the text that imports `name`, if one does (RFC 2578,
    /// section 3.2).
    pub fn import(&self, name: &[u8]) -> Option<&Import>
        ensures { option_copied result ≡ lookup.import_of self.now name.now }
    {
        let clauses = self.imports.as_ref()?;
        import_among(clauses.as_slice(), name)
    }
}

/// The symbols that one FROM clause imports (RFC 2578, section 3.2).
#[derive(Debug, Drop)]
pub struct Import {
    /// The symbols, at least one, in the order of the text.
    pub symbols: Items<TokenText>,
    /// The module after FROM.
    pub source: Name,
    /// The line of the first symbol, counted from 1.
    pub line: usize,
}

/// A token that a tree stores unchanged.
#[derive(Debug, Drop)]
pub struct TokenText {
    pub kind: TokenKind,
    pub text: Text,
}

/// A definition: a name, and what it is defined as.
#[derive(Debug, Drop)]
pub struct Def {
    pub label: Name,
    /// The line of the label, counted from 1.
    pub line: usize,
    pub kind: DefKind,
}

/// What a definition defines its name as: one variant for each form in the grammar.
#[derive(Debug, Drop)]
pub enum DefKind {
    /// `OBJECT IDENTIFIER ::= { .. }` (RFC 2578, section 3.6).
    ObjectIdentifier(Items<Part>),
    /// MODULE-IDENTITY (RFC 2578, section 5).
    ModuleIdentity(ModuleIdentity),
    /// OBJECT-IDENTITY (RFC 2578, section 6).
    ObjectIdentity(ObjectIdentity),
    /// OBJECT-TYPE (RFC 2578, section 7).
    ObjectType(ObjectType),
    /// NOTIFICATION-TYPE (RFC 2578, section 8).
    NotificationType(NotificationType),
    /// OBJECT-GROUP (RFC 2580, section 3).
    ObjectGroup(Group),
    /// NOTIFICATION-GROUP (RFC 2580, section 4).
    NotificationGroup(Group),
    /// MODULE-COMPLIANCE (RFC 2580, section 5), its clauses stored as tokens.
    ModuleCompliance(RawDefinition),
    /// AGENT-CAPABILITIES (RFC 2580, section 6), its clauses stored as tokens.
    AgentCapabilities(RawDefinition),
    /// TEXTUAL-CONVENTION (RFC 2579, section 3).
    TextualConvention(TextualConvention),
    /// A type that is assigned a name (RFC 2578, section 7.1).
    TypeAssignment(TypeAssignment),
    /// The columns of a row, SEQUENCE (RFC 2578, section 7.1.12).
    Sequence(Items<Field>),
    /// CHOICE, stored as tokens.
    Choice(Items<TokenText>),
    /// MACRO, stored as tokens.
    Macro(Items<TokenText>),
}

impl Def {
    /// Returns the identifier value of the definition (RFC 2578, section 7.10). Types and macros
    /// have none.
    pub fn identifier(&self) -> Option<&Items<Part>>
        ensures { option_copied result ≡ lookup.identifier_value_of self.now.kind }
    {
        match &self.kind {
            DefKind::ObjectIdentifier(value) => Some(value),
            DefKind::ModuleIdentity(clauses) => Some(&clauses.value),
            DefKind::ObjectIdentity(clauses) => Some(&clauses.value),
            DefKind::ObjectType(clauses) => Some(&clauses.value),
            DefKind::NotificationType(clauses) => Some(&clauses.value),
            DefKind::ObjectGroup(group) | DefKind::NotificationGroup(group) => Some(&group.value),
            DefKind::ModuleCompliance(raw) | DefKind::AgentCapabilities(raw) => Some(&raw.value),
            DefKind::TextualConvention(_)
            | DefKind::TypeAssignment(_)
            | DefKind::Sequence(_)
            | DefKind::Choice(_)
            | DefKind::Macro(_) => None,
        }
    }

    /// Returns the words that say what is defined, such as `OBJECT-TYPE`. They are empty for the
    /// assignment of a type.
    pub fn kind_words(&self) -> &'static [u8]
        ensures { result.now ≡ lookup.kind_words self.now.kind }
    {
        match &self.kind {
            DefKind::ObjectIdentifier(_) => b"OBJECT IDENTIFIER",
            DefKind::ModuleIdentity(_) => b"MODULE-IDENTITY",
            DefKind::ObjectIdentity(_) => b"OBJECT-IDENTITY",
            DefKind::ObjectType(_) => b"OBJECT-TYPE",
            DefKind::NotificationType(_) => b"NOTIFICATION-TYPE",
            DefKind::ObjectGroup(_) => b"OBJECT-GROUP",
            DefKind::NotificationGroup(_) => b"NOTIFICATION-GROUP",
            DefKind::ModuleCompliance(_) => b"MODULE-COMPLIANCE",
            DefKind::AgentCapabilities(_) => b"AGENT-CAPABILITIES",
            DefKind::TextualConvention(_) => b"TEXTUAL-CONVENTION",
            DefKind::TypeAssignment(_) => b"",
            DefKind::Sequence(_) => b"SEQUENCE",
            DefKind::Choice(_) => b"CHOICE",
            DefKind::Macro(_) => b"MACRO",
        }
    }
}

/// A part of an identifier value (RFC 2578, section 7.10), or of the identifier after a module's
/// name.
#[derive(Debug, Drop)]
pub enum Part {
    /// A number from 0 to 4294967295.
    Number(Text),
    /// A name without a number. In a definition's value, only the first part can be one.
    Name(Name),
    /// A name with its number.
    NamedNumber(NamedNumber),
}

impl Part {
    /// Returns the number of the part, 0 to 4294967295, if it has one (RFC 2578, section 7.10).
    pub fn number(&self) -> Option<u32>
        ensures { result ≡ lookup.part_number self.now }
    {
        match self {
            Part::Number(number) => numbers::arc(number.as_bytes()),
            Part::Name(_) => None,
            Part::NamedNumber(part) => numbers::arc(part.number.as_bytes()),
        }
    }
}

/// A name with a number in parentheses.
#[derive(Debug, Drop)]
pub struct NamedNumber {
    pub name: Name,
    pub number: Text,
}

/// The clauses of MODULE-IDENTITY (RFC 2578, section 5).
#[derive(Debug, Drop)]
pub struct ModuleIdentity {
    pub last_updated: Text,
    pub organization: Text,
    pub contact_info: Text,
    pub description: Text,
    pub revisions: Items<Revision>,
    pub value: Items<Part>,
}

/// A REVISION with its DESCRIPTION (RFC 2578, sections 5.5 and 5.5.1).
#[derive(Debug, Drop)]
pub struct Revision {
    pub date: Text,
    pub description: Text,
}

/// The clauses of OBJECT-IDENTITY (RFC 2578, section 6).
#[derive(Debug, Drop)]
pub struct ObjectIdentity {
    pub status: Status,
    pub value: Items<Part>,
}

/// STATUS, DESCRIPTION and REFERENCE of a definition (RFC 2578, sections 7.4 to 7.6).
#[derive(Debug, Drop)]
pub struct Status {
    pub status: Text,
    pub description: Text,
    pub reference: Option<Text>,
}

/// The clauses of OBJECT-TYPE (RFC 2578, section 7).
#[derive(Debug, Drop)]
pub struct ObjectType {
    pub syntax: Syntax,
    pub units: Option<Text>,
    pub max_access: Text,
    pub status: Status,
    pub index: Option<Index>,
    /// The tokens between the braces of DEFVAL.
    pub default: Option<Items<TokenText>>,
    pub value: Items<Part>,
}

/// How the rows of a table are identified: INDEX or AUGMENTS (RFC 2578, sections 7.7 and 7.8).
#[derive(Debug, Drop)]
pub enum Index {
    /// INDEX.
    Own(IndexParts),
    /// AUGMENTS. Holds the name of the row whose INDEX is used.
    Augments(Name),
}

/// The objects of an INDEX clause (RFC 2578, section 7.7).
#[derive(Debug, Drop)]
pub struct IndexParts {
    /// The objects, at least one.
    pub names: Items<Name>,
    /// Whether IMPLIED is before the last one.
    pub implied: bool,
}

/// The clauses of NOTIFICATION-TYPE (RFC 2578, section 8).
#[derive(Debug, Drop)]
pub struct NotificationType {
    pub objects: Option<Items<Name>>,
    pub status: Status,
    pub value: Items<Part>,
}

/// The clauses of OBJECT-GROUP and NOTIFICATION-GROUP (RFC 2580, sections 3 and 4).
#[derive(Debug, Drop)]
pub struct Group {
    /// The objects or notifications, at least one.
    pub members: Items<Name>,
    pub status: Status,
    pub value: Items<Part>,
}

/// A definition whose clauses are stored as tokens.
#[derive(Debug, Drop)]
pub struct RawDefinition {
    /// The tokens before `::=`.
    pub clauses: Items<TokenText>,
    pub value: Items<Part>,
}

/// The clauses of TEXTUAL-CONVENTION (RFC 2579, section 3).
#[derive(Debug, Drop)]
pub struct TextualConvention {
    pub display_hint: Option<Text>,
    pub status: Status,
    pub syntax: Syntax,
}

/// A type that is assigned a name, and its tag if it has one, as some base types in RFC 2578 have.
#[derive(Debug, Drop)]
pub struct TypeAssignment {
    /// The number of `[APPLICATION n] IMPLICIT`.
    pub tag: Option<Text>,
    pub syntax: Syntax,
}

/// A column of a row, with its type.
#[derive(Debug, Drop)]
pub struct Field {
    pub label: Name,
    pub syntax: Syntax,
}

/// A type (RFC 2578, sections 7.1 and 9).
#[derive(Debug, Drop)]
pub enum Syntax {
    /// `SEQUENCE OF` a row's type.
    SequenceOf(Name),
    /// Any other type.
    Simple(SimpleType),
}

/// A base type or a named one, perhaps refined.
#[derive(Debug, Drop)]
pub struct SimpleType {
    pub base: Base,
    pub refinement: Option<Refinement>,
}

/// The type that a type refines (RFC 2578, section 7.1).
#[derive(Debug, Drop)]
pub enum Base {
    /// INTEGER.
    Integer,
    /// OCTET STRING.
    OctetString,
    /// OBJECT IDENTIFIER.
    ObjectIdentifier,
    /// BITS.
    Bits,
    /// Any other type, by its name; this includes `Counter32`, which modules import.
    Named(Name),
}

/// What narrows a type (RFC 2578, section 9).
#[derive(Debug, Drop)]
pub enum Refinement {
    /// Named numbers or bits.
    Numbers(Items<NamedNumber>),
    /// Ranges of values.
    Values(Items<Range>),
    /// Ranges of lengths, SIZE.
    Size(Items<Range>),
}

/// A range, or one value if there is no upper bound.
#[derive(Debug, Drop)]
pub struct Range {
    /// A number, or a hexadecimal or binary literal.
    pub low: TokenText,
    pub high: Option<TokenText>,
}

/// Returns whether one of the symbols of `import` is `name`.
fn imports(import: &Import, name: &[u8]) -> bool
    ensures { result ≡ lookup.is_imported_by name.now import.now }
{
    import
        .symbols
        .as_slice()
        .iter()
        .any(|symbol| symbol.text.as_bytes() == name)
}

/// Returns the first of `clauses` that imports `name`, if one does.
fn import_among<'a>(clauses: &'a [Import], name: &[u8]) -> Option<&'a Import>
    ensures { option_copied result ≡ lookup.first_import name.now clauses.now }
{
    clauses.iter().find(|clause| imports(clause, name))
}

/// Returns the first of `defs` that defines `name`, if one does.
fn definition_among<'a>(defs: &'a [Def], name: &[u8]) -> Option<&'a Def>
    ensures { option_copied result ≡ lookup.first_definition name.now defs.now }
{
    defs.iter().find(|def| def.label.as_bytes() == name)
}
