//! The parts of types, and the syntax of an object.
ghost use Rattle.std.specs.Prelude.{◌≡◌, option_map};
ghost use Rattle.std.specs.Option.{option_copied, option_and_then};
ghost use Rattle.smi_tree.specs.types.Types.{names_in, sizes_in, simple_in, type_hint, type_syntax};
ghost use Rattle.smi_tree.specs.types.Types.{object_syntax, base_in, name_in};
ghost use Rattle.smi_tree.specs.types.Kept.{names_of, sizes_of, type_in};

use smi_names::TypeBase;
use smi_text::{
    Base, Def, DefKind, Name, NamedNumber, Range, Refinement, SimpleType, Syntax, Text,
};

/// The syntax of an object: what its chain of types defines. The chain is the type in its SYNTAX,
/// the type that this one refines, and so on to a base type. The syntax borrows from the modules.
#[derive(Clone, Copy, Debug)]
pub struct TypeSyntax<'a> {
    /// The base type at the end of the chain.
    pub base: TypeBase,
    /// The named numbers or bits of the first type on the chain that has them (RFC 2578, sections
    /// 7.1.1 and 7.1.4).
    pub names: Option<&'a [NamedNumber]>,
    /// The display hint of the first type on the chain that has one, as the string in quotes (RFC
    /// 2579, section 3.1).
    pub hint: Option<&'a Text>,
    /// The SIZE of the first type on the chain that has one: ranges of lengths (RFC 2578, section
    /// 9).
    pub sizes: Option<&'a [Range]>,
}

/// Returns the named numbers or bits of a type, if it has them.
pub(crate) fn names_of(simple: &SimpleType) -> Option<&[NamedNumber]>
    ensures { option_copied result ≡ names_in simple.now.refinement }
{
    match &simple.refinement {
        Some(Refinement::Numbers(names)) => Some(names.as_slice()),
        _ => None,
    }
}

/// Returns the SIZE of a type, if it has one.
pub(crate) fn sizes_of(simple: &SimpleType) -> Option<&[Range]>
    ensures { option_copied result ≡ sizes_in simple.now.refinement }
{
    match &simple.refinement {
        Some(Refinement::Size(sizes)) => Some(sizes.as_slice()),
        _ => None,
    }
}

/// Returns the base type that a type refines, or `None` if it refines another type.
pub(crate) fn base_of(simple: &SimpleType) -> Option<TypeBase>
    ensures { result ≡ base_in simple.now.base }
{
    match &simple.base {
        Base::Integer => Some(TypeBase::Integer),
        Base::OctetString => Some(TypeBase::OctetString),
        Base::ObjectIdentifier => Some(TypeBase::ObjectIdentifier),
        Base::Bits => Some(TypeBase::Bits),
        Base::Named(name) => TypeBase::from_name(name.as_bytes()),
    }
}

/// Returns the name of the type that a type refines, or `None` if it refines a base type.
pub(crate) fn name_of(simple: &SimpleType) -> Option<&Name>
    ensures { option_map (λ name. name.now.octets) result ≡ name_in simple.now.base }
{
    if base_of(simple).is_some() {
        return None;
    }
    match &simple.base {
        Base::Named(name) => Some(name),
        _ => None,
    }
}

/// Returns the display hint of a textual convention, if it has one.
pub(crate) fn hint_of(kind: &DefKind) -> Option<&Text>
    ensures { option_copied result ≡ type_hint kind.now }
{
    match kind {
        DefKind::TextualConvention(clauses) => clauses.display_hint.as_ref(),
        _ => None,
    }
}

/// Returns `syntax` unless it is a SEQUENCE OF.
fn simple_of(syntax: &Syntax) -> Option<&SimpleType>
    ensures { option_copied result ≡ simple_in syntax.now }
{
    match syntax {
        Syntax::SequenceOf(_) => None,
        Syntax::Simple(simple) => Some(simple),
    }
}

/// Returns the syntax of a textual convention or an assigned type, unless it is a SEQUENCE OF.
pub(crate) fn type_of(kind: &DefKind) -> Option<&SimpleType>
    ensures { option_copied result ≡ option_and_then simple_in (type_syntax kind.now) }
{
    match kind {
        DefKind::TextualConvention(clauses) => simple_of(&clauses.syntax),
        DefKind::TypeAssignment(assigned) => simple_of(&assigned.syntax),
        _ => None,
    }
}

/// Returns the syntax of an OBJECT-TYPE, unless it is a SEQUENCE OF.
pub(crate) fn object_type_of(kind: &DefKind) -> Option<&SimpleType>
    ensures { option_copied result ≡ option_and_then simple_in (object_syntax kind.now) }
{
    match kind {
        DefKind::ObjectType(clauses) => simple_of(&clauses.syntax),
        _ => None,
    }
}

/// Returns the syntax of a type or an object, unless it is a SEQUENCE OF.
fn type_in(kind: &DefKind) -> Option<&SimpleType>
    ensures { option_copied result ≡ type_in kind.now }
{
    type_of(kind).or(object_type_of(kind))
}

/// Returns the named numbers or bits in the definition of a type or an object, if it has them.
pub(crate) fn names_in_definition(def: &Def) -> Option<&[NamedNumber]>
    ensures { option_copied result ≡ names_of def.now }
{
    names_of(type_in(&def.kind)?)
}

/// Returns the SIZE in the definition of a type or an object, if it has one.
pub(crate) fn sizes_in_definition(def: &Def) -> Option<&[Range]>
    ensures { option_copied result ≡ sizes_of def.now }
{
    sizes_of(type_in(&def.kind)?)
}
