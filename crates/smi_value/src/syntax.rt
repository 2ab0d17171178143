//! The syntax of an object, as far as it affects how the values of the object are shown.
ghost use Rattle.std.specs.Prelude.{◌≡◌, None, Some, IsTrue, ◌↔◌, IfSome, pos};
ghost use Rattle.std.specs.Option.{option_map, option_copied};
ghost use Rattle.smi_value.specs.Syntax.{ObjectSyntax, syntax_at, name_of_number, is_number_of};
ghost use Rattle.smi_value.specs.Syntax.{IsIndexOf, is_of_bits};
ghost use Rattle.smi_text.specs.trees.Number.{stated_number};

use crate::base::ValueBase;
use crate::names::{NumberIndex, NumberNames};
use smi_text::{NamedNumber, number};
use std::marker::Model;

/// The syntax of an object, as far as it affects how values are shown. It borrows its names and
/// strings, usually from loaded modules.
#[derive(Drop)]
pub struct ValueSyntax<'a> {
    base: ValueBase,
    names: NumberNames<'a>,
    hint: Option<&'a [u8]>,
    units: Option<&'a [u8]>,
}

impl<'a> Model for ValueSyntax<'a> {
    ghost Value = { ObjectSyntax };

    ghost view = { λ s. record {
      base = s.base;
      names = s.names;
      hint = option_copied s.hint;
      units = option_copied s.units;
    } };
}

impl<'a> ValueSyntax<'a> {
    /// Returns the syntax of an object: `base` is the type of its values, `names` are the names of
    /// its numbers or bits, `hint` is its display hint, and `units` are its units.
    pub fn new(
        base: ValueBase,
        names: &'a [NamedNumber],
        hint: Option<&'a [u8]>,
        units: Option<&'a [u8]>,
    ) -> ValueSyntax<'a>
        ensures { result ≡ record {
          base = base;
          names = names.now;
          hint = option_copied hint.entry;
          units = option_copied units.entry;
        } }
    {
        ValueSyntax::with_index(base, names, None, hint, units)
    }

    /// Returns what [`ValueSyntax::new`] returns. `index` is the index of `names`, if they have
    /// one: it makes it faster to find one of many names.
    pub fn with_index(
        base: ValueBase,
        names: &'a [NamedNumber],
        index: Option<&'a NumberIndex>,
        hint: Option<&'a [u8]>,
        units: Option<&'a [u8]>,
    ) -> ValueSyntax<'a>
        requires { IfSome (option_copied index) (IsIndexOf names.now) }
        ensures { result ≡ record {
          base = base;
          names = names.now;
          hint = option_copied hint.entry;
          units = option_copied units.entry;
        } }
    {
        ValueSyntax {
            base,
            names: NumberNames::new(names, index),
            hint,
            units,
        }
    }

    /// Returns whether octets are a value of BITS: the syntax is known, and is of that type.
    pub(crate) fn is_of_bits(syntax: Option<&'a ValueSyntax<'a>>) -> bool
        ensures { result ≡ is_of_bits (option_copied syntax.entry) }
    {
        match syntax {
            Some(syntax) => syntax.base.is_same(ValueBase::Bits),
            None => false,
        }
    }

    /// Returns the name of the number `n` in `syntax`, if `syntax` has one and applies to values of
    /// type `base`.
    pub(crate) fn name_at(
        syntax: Option<&'a ValueSyntax<'a>>,
        base: ValueBase,
        n: i128,
    ) -> Option<&'a [u8]>
        ensures { option_copied result
            ≡ name_of_number (syntax_at base (option_copied syntax.entry)).names n }
    {
        match syntax {
            Some(syntax) if syntax.base.is_same(base) => syntax.names.name_of(n),
            _ => None,
        }
    }

    /// Returns the names in `syntax` if it applies to values of type `base`, otherwise none.
    pub(crate) fn names_at(syntax: Option<&'a ValueSyntax<'a>>, base: ValueBase) -> NumberNames<'a>
        ensures { result ≡ (syntax_at base (option_copied syntax.entry)).names }
    {
        match syntax {
            Some(syntax) if syntax.base.is_same(base) => syntax.names.copy(),
            _ => NumberNames::none(),
        }
    }

    /// Returns the display hint in `syntax`, if it has one and applies to values of type `base`.
    pub(crate) fn hint_at(syntax: Option<&'a ValueSyntax<'a>>, base: ValueBase) -> Option<&'a [u8]>
        ensures { option_copied result ≡ (syntax_at base (option_copied syntax.entry)).hint }
    {
        match syntax {
            Some(syntax) if syntax.base.is_same(base) => syntax.hint,
            _ => None,
        }
    }

    /// Returns the units in `syntax`, if it has any and applies to values of type `base`.
    pub(crate) fn units_at(syntax: Option<&'a ValueSyntax<'a>>, base: ValueBase) -> Option<&'a [u8]>
        ensures { option_copied result ≡ (syntax_at base (option_copied syntax.entry)).units }
    {
        match syntax {
            Some(syntax) if syntax.base.is_same(base) => syntax.units,
            _ => None,
        }
    }
}

/// Returns the name of the number `n`, if it has one: the first in `names` if it has several.
/// Reads the numbers of `names` one after the other.
pub(crate) fn first_name(names: &[NamedNumber], n: i128) -> Option<&[u8]>
    ensures { option_copied result ≡ name_of_number names.now n }
{
    let named = names.iter().find(|named| is_number_of(named, n))?;
    Some(named.name.as_bytes())
}

/// Returns whether `named` is a name of the number `n`.
fn is_number_of(named: &NamedNumber, n: i128) -> bool
    ensures { result ≡ is_number_of n named.now }
{
    let text = named.number.as_bytes();
    match few_digits(text) {
        Some(few) => i128::from(few) == n,
        None => match number(text) {
            Some(number) => number == n,
            None => false,
        },
    }
}

/// Returns the number that `text` writes if it consists of one to three digits, otherwise `None`.
/// Most numbers of an enumeration have no more digits.
fn few_digits(text: &[u8]) -> Option<u16>
    ensures { IfSome result (λ few. stated_number text.now ≡ Some (pos few)) }
{
    match text {
        [ones @ b'0'..=b'9'] => Some(u16::from(*ones) - 48),
        [tens @ b'0'..=b'9', ones @ b'0'..=b'9'] => {
            Some(10 * u16::from(*tens - b'0') + u16::from(*ones - b'0'))
        }
        [
            hundreds @ b'0'..=b'9',
            tens @ b'0'..=b'9',
            ones @ b'0'..=b'9',
        ] => {
            let tens = 10 * u16::from(*tens - b'0') + u16::from(*ones - b'0');
            Some(100 * u16::from(*hundreds - b'0') + tens)
        }
        _ => None,
    }
}
