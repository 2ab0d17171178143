//! The syntax of objects, in the form for showing values.
ghost use Rattle.std.specs.{Prelude.◌≡◌, Prelude.option_map, Option.option_copied};
ghost use Rattle.std.specs.Prelude.{IfSome, unwrap_or, []};
ghost use Rattle.smi_tree.specs.types.Kept.{facts_of};
ghost use Rattle.smi_tree.specs.Shown.{syntax_from, value_base, between_quotes, units_of};
ghost use Rattle.smi_tree.specs.{Shown.shown_syntax, types.Numbers.AreNumbersOfAll};
ghost use Rattle.smi_value.specs.Syntax.{IsIndexOf};

use crate::syntax::TypeSyntax;
use crate::types::Types;
use smi_names::{Source, TypeBase};
use smi_text::{DefKind, Module, Text};
use smi_value::{NumberIndex, ValueBase, ValueSyntax};

/// Returns the type that determines how values of `base` are shown; `Other` if they are shown in
/// one way, whatever their syntax.
fn value_base(base: TypeBase) -> ValueBase
    ensures { result ≡ value_base base }
{
    match base {
        TypeBase::Integer => ValueBase::Integer,
        TypeBase::OctetString => ValueBase::OctetString,
        TypeBase::Bits => ValueBase::Bits,
        TypeBase::Counter32 => ValueBase::Counter32,
        TypeBase::Gauge32 | TypeBase::Unsigned32 => ValueBase::Gauge32,
        TypeBase::TimeTicks => ValueBase::TimeTicks,
        TypeBase::Counter64 => ValueBase::Counter64,
        TypeBase::ObjectIdentifier | TypeBase::IpAddress | TypeBase::Opaque => ValueBase::Other,
    }
}

/// Returns the octets between the quotes of a string.
fn between_quotes(text: &Text) -> &[u8]
    ensures { result.now ≡ between_quotes text.now }
{
    let octets = text.as_bytes();
    if octets.len() < 2 {
        return &[];
    }
    &octets[1..octets.len() - 1]
}

/// Returns the UNITS of an OBJECT-TYPE, if it has them.
pub(crate) fn units_of(kind: &DefKind) -> Option<&Text>
    ensures { option_copied result ≡ units_of kind.now }
{
    match kind {
        DefKind::ObjectType(clauses) => clauses.units.as_ref(),
        _ => None,
    }
}

/// Returns the syntax for showing values, from a type's syntax and UNITS. `index` is the index of
/// its names, if they have one.
fn value_syntax<'a>(
    syntax: TypeSyntax<'a>,
    index: Option<&'a NumberIndex>,
    units: Option<&'a Text>,
) -> ValueSyntax<'a>
    requires { IfSome (option_copied index)
        (IsIndexOf (unwrap_or (option_copied syntax.names) [])) }
    ensures { result ≡ shown_syntax (facts_of syntax.entry) (option_copied units.entry) }
{
    ValueSyntax::with_index(
        value_base(syntax.base),
        syntax.names.unwrap_or(&[]),
        index,
        syntax.hint.map(between_quotes),
        units.map(between_quotes),
    )
}

/// Returns the syntax for showing values of the object of a source, which has these UNITS. Returns
/// `None` if it isn't an object with a syntax.
pub(crate) fn source_syntax<'a>(
    types: &'a Types,
    modules: &'a [Module],
    source: Source,
    units: Option<&'a Text>,
) -> Option<ValueSyntax<'a>>
    requires { AreNumbersOfAll modules.now types.now.numbers.items }
    ensures { result ≡ option_map (λ f. shown_syntax f (option_copied units.entry))
        (syntax_from modules.now types.now source) }
{
    let syntax = syntax(types, modules, source)?;
    let index = match (syntax.names, source) {
        (Some(names), Source::Definition(index, k)) if NumberIndex::is_useful(names) => {
            types.stored_index(index, k)
        }
        _ => None,
    };
    Some(value_syntax(syntax, index, units))
}

/// Returns the syntax of the object of a source, or `None` if it isn't an object with a syntax.
pub(crate) fn syntax<'a>(
    types: &Types,
    modules: &'a [Module],
    source: Source,
) -> Option<TypeSyntax<'a>>
    ensures { option_map facts_of result ≡ syntax_from modules.now types.now source }
{
    match source {
        Source::Root(_) => None,
        Source::Definition(index, k) => types.stored_syntax(modules, index, k),
    }
}
