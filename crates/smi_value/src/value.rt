//! Appends a value or an exception as text.
ghost use Rattle.std.specs.Prelude.{◌≡◌, ◌++◌, List, ℕ, Option, Some, None, pos, codes, true};
ghost use Rattle.std.specs.Option.{option_copied};
ghost use Rattle.snmp_io.specs.Draft.{Adds};
ghost use Rattle.snmp_wire.specs.ber.Value.{Datum, datum, integer_value, octet_string};
ghost use Rattle.smi_value.specs.{declared.letters.Letters.Letters, Pieces.type_word};
ghost use Rattle.smi_value.specs.Syntax.{ObjectSyntax, syntax_at, name_of_number};
ghost use Rattle.smi_value.specs.Value.{IsNumberText, IsTypedNumber, IsIntegerText, IsStringText};
ghost use Rattle.smi_value.specs.Value.{IsOctetsText, ShowsValue, IsNoIdentifier, counter_text};
ghost use Rattle.smi_value.specs.declared.base.ValueBase.TheVariants as base;

use crate::base::ValueBase;
use crate::hint::{Hint, HintValue};
use crate::letters::Letters;
use crate::pieces::{
    append_address, append_bits, append_hexadecimal, append_named, append_string, append_ticks,
    append_units, append_word,
};
use crate::syntax::ValueSyntax;
use snmp_io::Draft;
use snmp_wire::ValueRef;

/// Appends `value` as text, as `letters` say: usually its type, a colon, a blank and the value. An
/// exception (RFC 3416, section 3) is shown as a message.
///
/// `syntax` is the syntax of the value's object, if it is known. It has no effect if it is of
/// another type than the value. The value must not be an OBJECT IDENTIFIER: to show one by its
/// name takes the MIB tree, and the caller does so after [`append_identifier_word`].
pub fn append_value(
    draft: &mut Draft,
    letters: &Letters,
    syntax: Option<&ValueSyntax<'_>>,
    value: &ValueRef<'_>,
)
    requires { IsNoIdentifier (datum value.now) }
    ensures { let syntax = option_copied syntax.entry in (text : List ℕ)
        × ((names : List ℕ → List ℕ)
        → ShowsValue names letters.now syntax (datum value.now) text)
        × Adds draft.old text draft.new }
{
    match value {
        ValueRef::Integer(n) => append_integer(draft, letters, syntax, i64::from(*n)),
        ValueRef::Octets(octets) => append_octets(draft, letters, syntax, octets),
        ValueRef::Null => draft.octets(b"NULL"),
        ValueRef::ObjectId(_) => unreachable!(),
        ValueRef::IpAddress(octets) => {
            append_word(draft, letters, b"IpAddress: ");
            append_address(draft, octets);
        }
        ValueRef::Counter32(n) => {
            let units = ValueSyntax::units_at(syntax, ValueBase::Counter32);
            append_counter(draft, letters, b"Counter32: ", units, u64::from(*n));
        }
        ValueRef::Gauge32(n) => {
            let hint = ValueSyntax::hint_at(syntax, ValueBase::Gauge32);
            let units = ValueSyntax::units_at(syntax, ValueBase::Gauge32);
            append_typed_number(draft, letters, b"Gauge32: ", hint, units, i64::from(*n));
        }
        ValueRef::TimeTicks(n) => {
            append_ticks(draft, letters, *n);
            append_units(
                draft,
                letters,
                ValueSyntax::units_at(syntax, ValueBase::TimeTicks),
            );
        }
        ValueRef::Opaque(octets) => {
            append_word(draft, letters, b"OPAQUE: ");
            append_hexadecimal(draft, octets);
        }
        ValueRef::Counter64(n) => {
            let units = ValueSyntax::units_at(syntax, ValueBase::Counter64);
            append_counter(draft, letters, b"Counter64: ", units, *n);
        }
        ValueRef::NoSuchObject => {
            draft.octets(b"No Such Object available on this agent at this OID");
        }
        ValueRef::NoSuchInstance => {
            draft.octets(b"No Such Instance currently exists at this OID");
        }
        ValueRef::EndOfMibView => draft.octets(
            b"No more variables left in this MIB View (It is past the end of the MIB tree)",
        ),
    }
}

/// A value has only one text by the same letters and syntax, if each identifier has only one name.
///
/// A law: the call does nothing, and its caller may use what it ensures.
pub fn one_value_by_names()
    ensures { (letters : Letters) (names others : List ℕ → List ℕ)
        → ((o : List ℕ) → names o ≡ others o)
        → (syntax : Option ObjectSyntax) (value : Datum) (text other : List ℕ)
        → ShowsValue names letters syntax value text
        → ShowsValue others letters syntax value other → text ≡ other }
{}

/// Appends `OID: `, the word before the name of an OBJECT IDENTIFIER. With `q` or `Q` it appends
/// nothing.
pub fn append_identifier_word(draft: &mut Draft, letters: &Letters)
    ensures { Adds draft.old (type_word letters.now (codes "OID: ")) draft.new }
{
    append_word(draft, letters, b"OID: ");
}

/// Appends `word`, the word of a type, the number `n` in decimal digits, and the units. `letters`
/// may leave out the word and the units.
fn append_counter(draft: &mut Draft, letters: &Letters, word: &[u8], units: Option<&[u8]>, n: u64)
    ensures { let units = option_copied units.entry in
        Adds draft.old (counter_text letters.now word.now units n) draft.new }
{
    append_word(draft, letters, word);
    draft.number(n);
    append_units(draft, letters, units);
}

/// Appends the INTEGER `n`. If `n` has a name, appends the word of the type and what
/// [`append_named`] appends, without units; otherwise does what [`append_typed_number`] does.
fn append_integer(draft: &mut Draft, letters: &Letters, syntax: Option<&ValueSyntax<'_>>, n: i64)
    ensures { let at = syntax_at base.Integer (option_copied syntax.entry) in (text : List ℕ)
        × IsIntegerText letters.now at n (name_of_number at.names n) text
        × Adds draft.old text draft.new }
{
    match ValueSyntax::name_at(syntax, ValueBase::Integer, i128::from(n)) {
        Some(name) => {
            append_word(draft, letters, b"INTEGER: ");
            append_named(draft, letters, name, n);
        }
        None => {
            let hint = ValueSyntax::hint_at(syntax, ValueBase::Integer);
            let units = ValueSyntax::units_at(syntax, ValueBase::Integer);
            append_typed_number(draft, letters, b"INTEGER: ", hint, units, n);
        }
    }
}

/// Appends `word` (the word of a type), then the number `n` as [`append_number`] does, and then the
/// units. `letters` may leave out the word and the units.
fn append_typed_number(
    draft: &mut Draft,
    letters: &Letters,
    word: &[u8],
    hint: Option<&[u8]>,
    units: Option<&[u8]>,
    n: i64,
)
    ensures { let hint = option_copied hint.entry in let units = option_copied units.entry in
        (text : List ℕ) × IsTypedNumber letters.now word.now hint units n text
        × Adds draft.old text draft.new }
{
    append_word(draft, letters, word);
    append_number(draft, hint, n);
    append_units(draft, letters, units);
}

/// Appends `n` as [`append_hinted_number`] does if there is a hint, otherwise in decimal digits.
fn append_number(draft: &mut Draft, hint: Option<&[u8]>, n: i64)
    ensures { (text : List ℕ) × IsNumberText (option_copied hint.entry) n text
        × Adds draft.old text draft.new }
{
    match hint {
        Some(text) => append_hinted_number(draft, text, n),
        None => draft.integer(n),
    }
}

/// Appends `n` as `hint` shows it if that is a hint of integers, otherwise in decimal digits.
fn append_hinted_number(draft: &mut Draft, hint: &[u8], n: i64)
    ensures { (text : List ℕ) × IsNumberText (Some hint.now) n text
        × Adds draft.old text draft.new }
{
    match Hint::parse(hint) {
        Some(hint) if hint.is_number() => hint.append(HintValue::Number(n), draft),
        _ => draft.integer(n),
    }
}

/// Appends octets as a value of BITS if `syntax` is of that type, otherwise as a string, by its
/// hint if it has one.
fn append_octets(
    draft: &mut Draft,
    letters: &Letters,
    syntax: Option<&ValueSyntax<'_>>,
    octets: &[u8],
)
    ensures { (text : List ℕ)
        × IsOctetsText letters.now (option_copied syntax.entry) octets.now text
        × Adds draft.old text draft.new }
{
    if ValueSyntax::is_of_bits(syntax) {
        let names = ValueSyntax::names_at(syntax, ValueBase::Bits);
        append_bits(draft, letters, &names, octets);
        return;
    }
    match ValueSyntax::hint_at(syntax, ValueBase::OctetString) {
        Some(hint) => append_hinted_string(draft, letters, hint, octets),
        None => append_string(draft, letters, octets),
    }
}

/// Appends a string as `hint` shows it if that is a hint of octets, otherwise as without a hint.
fn append_hinted_string(draft: &mut Draft, letters: &Letters, hint: &[u8], octets: &[u8])
    ensures { (text : List ℕ) × IsStringText letters.now (Some hint.now) octets.now text
        × Adds draft.old text draft.new }
{
    match Hint::parse(hint) {
        Some(hint) if !hint.is_number() => {
            append_word(draft, letters, b"STRING: ");
            hint.append(HintValue::Octets(octets), draft);
        }
        _ => append_string(draft, letters, octets),
    }
}
