//! Appends the pieces of a value's text, such as the word of its type, its units or its time.
ghost use Rattle.std.specs.Prelude.{◌≡◌, ◌<◌, ◌+◌, ◌*◌, ◌++◌, List, ℕ, codes, decimal};
ghost use Rattle.std.specs.Prelude.{if◌then◌else◌, ◌/◌, ◌^◌};
ghost use Rattle.std.specs.{Fmt.signed_decimal, Option.option_copied};
ghost use Rattle.std.specs.List.{flat_map, list_all, enumerate_from};
ghost use Rattle.snmp_io.specs.Draft.{Adds};
ghost use Rattle.smi_value.specs.Pieces.{is_typed, type_word, units_text, printable_or_dot};
ghost use Rattle.smi_value.specs.Pieces.{quoted, is_text};
ghost use Rattle.smi_value.specs.Pieces.{string_text, ticks_text, named_text, bit_name, octet_bits};
ghost use Rattle.smi_value.specs.Pieces.{IsBitsText, bit_text, set_bit_text};
ghost use Rattle.smi_value.specs.Texts.{is_printable, escape_octet, hex_dump_octet};
ghost use Rattle.smi_value.specs.Texts.{hexadecimal_text};
ghost use Rattle.smi_value.specs.Texts.{address_text, two_digits, days_text, clock_text};

use crate::hint::append_marked_decimal;
use crate::letters::{Letters, StringForm, TypeForm};
use crate::names::NumberNames;
use crate::plain::is_shown_plain;
use itoa::Buffer;
use snmp_io::Draft;

/// Appends `word`, which is a type with its colon and blank. With `q` or `Q` it appends nothing.
#[tactic(auto, using(crate::proofs::Drafts::adds_none))]
pub(crate) fn append_word(draft: &mut Draft, letters: &Letters, word: &[u8])
    ensures { Adds draft.old (type_word letters.now word.now) draft.new }
{
    if is_typed(letters.types) {
        draft.octets(word);
    }
}

/// Returns whether the word of its type is shown before a value.
fn is_typed(form: TypeForm) -> bool
    ensures { result ≡ is_typed form }
{
    match form {
        TypeForm::Typed => true,
        TypeForm::Untyped | TypeForm::Quick => false,
    }
}

/// Appends a blank and the units. If there are none, or with `U`, it appends nothing.
#[tactic(auto, using(crate::proofs::Drafts::adds_none))]
pub(crate) fn append_units(draft: &mut Draft, letters: &Letters, units: Option<&[u8]>)
    ensures { Adds draft.old (units_text letters.now (option_copied units.entry)) draft.new }
{
    match units {
        Some(units) if !letters.no_units => {
            draft.octet(b' ');
            draft.octets(units);
        }
        _ => {}
    }
}

/// Appends a string without a display hint, as text between quotes or in hexadecimal.
pub(crate) fn append_string(draft: &mut Draft, letters: &Letters, octets: &[u8])
    ensures { Adds draft.old (string_text letters.now octets.now) draft.new }
{
    if octets.is_empty() {
        draft.octets(b"\"\"");
    } else if is_shown_plain(letters.strings, octets) {
        append_word(draft, letters, b"STRING: ");
        append_between_quotes(draft, octets);
    } else if is_text(letters.strings, octets) {
        append_word(draft, letters, b"STRING: ");
        append_quoted(draft, octets);
    } else {
        append_word(draft, letters, b"Hex-STRING: ");
        append_hexadecimal(draft, octets);
    }
}

/// Returns whether a string that isn't empty is shown as text, and not in hexadecimal.
fn is_text(form: StringForm, octets: &[u8]) -> bool
    ensures { result ≡ is_text form octets.now }
{
    match form {
        StringForm::Plain => are_printable(octets),
        StringForm::Hexadecimal => false,
        StringForm::Text => true,
    }
}

/// Returns whether each octet is a character of printable ASCII.
fn are_printable(octets: &[u8]) -> bool
    ensures { result ≡ list_all is_printable octets.now }
{
    octets.iter().all(|octet| is_printable(*octet))
}

/// Returns whether an octet is a character of printable ASCII.
fn is_printable(octet: u8) -> bool
    ensures { result ≡ is_printable octet }
{
    32 <= octet && octet <= 126
}

/// Appends octets between double quotes, unchanged.
fn append_between_quotes(draft: &mut Draft, octets: &[u8])
    ensures { Adds draft.old (codes "\"" ++ octets.now ++ codes "\"") draft.new }
{
    draft.octet(b'"');
    draft.octets(octets);
    draft.octet(b'"');
}

/// Appends octets between double quotes, each as [`append_character`] does.
fn append_quoted(draft: &mut Draft, octets: &[u8])
    ensures { Adds draft.old (quoted octets.now) draft.new }
{
    draft.octet(b'"');
    append_escaped(draft, octets);
    draft.octet(b'"');
}

/// Appends each of the octets as [`append_character`] does.
fn append_escaped(draft: &mut Draft, octets: &[u8])
    ensures { Adds draft.old (flat_map (λ octet. escape_octet
        (printable_or_dot octet)) octets.now) draft.new }
{
    'octets: for octet in octets {
        append_character(draft, *octet);
    }
}

/// Appends an octet as a character. A double quote or a backslash gets a backslash before it, and
/// an octet that isn't printable is shown as a dot.
fn append_character(draft: &mut Draft, octet: u8)
    ensures { Adds draft.old (escape_octet (printable_or_dot octet)) draft.new }
{
    if octet == b'"' || octet == b'\\' {
        draft.octets(&[b'\\', octet]);
    } else if is_printable(octet) {
        draft.octet(octet);
    } else {
        draft.octet(b'.');
    }
}

/// Appends octets in hexadecimal with a blank after each, sixteen a line.
pub(crate) fn append_hexadecimal(draft: &mut Draft, octets: &[u8])
    ensures { Adds draft.old (hexadecimal_text octets.now) draft.new }
{
    'octets: for (index, octet) in octets.iter().enumerate() {
        append_dumped(draft, index, *octet);
    }
}

/// Appends the octet at index `index` in hexadecimal, and a blank. A new line begins at each index
/// that is a multiple of 16, except 0.
fn append_dumped(draft: &mut Draft, index: usize, octet: u8)
    ensures { Adds draft.old (hex_dump_octet (index, octet)) draft.new }
{
    if index > 0 && index % 16 == 0 {
        draft.octet(b'\n');
    }
    draft.hexadecimal_before(octet, b' ');
}

/// Appends an IP address: its four numbers, with dots between them.
pub(crate) fn append_address(draft: &mut Draft, octets: &[u8; 4])
    ensures { Adds draft.old (address_text octets.now) draft.new }
{
    let [first, second, third, fourth] = *octets;
    draft.number(u64::from(first));
    append_marked_decimal(draft, b'.', second);
    append_marked_decimal(draft, b'.', third);
    append_marked_decimal(draft, b'.', fourth);
}

/// Appends TimeTicks as their number and the time. With `t`, appends only the number; without it,
/// but with `q` or `Q`, only the time.
pub(crate) fn append_ticks(draft: &mut Draft, letters: &Letters, ticks: u32)
    ensures { Adds draft.old (ticks_text letters.now ticks) draft.new }
{
    if letters.raw_ticks {
        draft.number(u64::from(ticks));
    } else if is_typed(letters.types) {
        append_ticks_and_time(draft, ticks);
    } else {
        draft.number(u64::from(ticks / 8640000));
        draft.octet(b':');
        append_clock(draft, ticks);
    }
}

/// Appends TimeTicks as `Timeticks: `, their number in parentheses, and the time.
fn append_ticks_and_time(draft: &mut Draft, ticks: u32)
    ensures { Adds draft.old (codes "Timeticks: (" ++ decimal ticks ++ codes ") "
        ++ days_text (ticks / 8640000) ++ clock_text ticks) draft.new }
{
    draft.octets(b"Timeticks: (");
    draft.number(u64::from(ticks));
    draft.octets(b") ");
    append_days(draft, ticks / 8640000);
    append_clock(draft, ticks);
}

/// Appends a number of days with a comma and a blank, or nothing if it is 0.
#[tactic(auto, using(crate::proofs::Drafts::adds_none))]
fn append_days(draft: &mut Draft, days: u32)
    ensures { Adds draft.old (days_text days) draft.new }
{
    match days {
        0 => {}
        1 => draft.octets(b"1 day, "),
        _ => {
            draft.number(u64::from(days));
            draft.octets(b" days, ");
        }
    }
}

/// Appends `ticks` as a time within a day: hours, minutes, seconds and hundredths.
fn append_clock(draft: &mut Draft, ticks: u32)
    ensures { Adds draft.old (clock_text ticks) draft.new }
{
    draft.number(u64::from(ticks / 360000 % 24));
    append_two_digits(draft, b':', ticks / 6000 % 60);
    append_two_digits(draft, b':', ticks / 100 % 60);
    append_two_digits(draft, b'.', ticks % 100);
}

/// Appends `mark`, and `n` as two decimal digits.
fn append_two_digits(draft: &mut Draft, mark: u8, n: u32)
    requires { n < 100 }
    ensures { Adds draft.old (two_digits mark n) draft.new }
{
    draft.octets(&[mark, b'0' + (n / 10) as u8, b'0' + (n % 10) as u8]);
}

/// Appends the name of an enumeration's value, and its number `n` in parentheses. With `e`, appends
/// only the number; without it, but with `q` or `Q`, only the name.
pub(crate) fn append_named(draft: &mut Draft, letters: &Letters, name: &[u8], n: i64)
    ensures { Adds draft.old (named_text letters.now name.now (signed_decimal n)) draft.new }
{
    if letters.numeric_enumerations {
        draft.integer(n);
    } else if is_typed(letters.types) {
        draft.octets(name);
        draft.octet(b'(');
        draft.integer(n);
        draft.octet(b')');
    } else {
        draft.octets(name);
    }
}

/// Appends a value of BITS: the word of its type, unless with `q` or `Q`, its octets in
/// hexadecimal, then the bits that are set.
pub(crate) fn append_bits(
    draft: &mut Draft,
    letters: &Letters,
    names: &NumberNames<'_>,
    octets: &[u8],
)
    ensures { (text : List ℕ) × IsBitsText letters.now names.now octets.now text
        × Adds draft.old text draft.new }
{
    append_word(draft, letters, b"BITS: ");
    append_hexadecimal(draft, octets);
    append_set_bits(draft, letters, names, octets);
}

/// Appends the bits of `octets` that are set, from the first octet to the last.
fn append_set_bits(draft: &mut Draft, letters: &Letters, names: &NumberNames<'_>, octets: &[u8])
    ensures { let bits = flat_map (octet_bits letters.now names.now) (enumerate_from 0 octets.now)
        in
        Adds draft.old bits draft.new }
{
    'octets: for (index, octet) in octets.iter().enumerate() {
        append_octet_bits(draft, letters, names, index as u128, *octet);
    }
}

/// Appends the bits that are set in the octet at index `index`, the most significant bit first.
fn append_octet_bits(
    draft: &mut Draft,
    letters: &Letters,
    names: &NumberNames<'_>,
    index: u128,
    octet: u8,
)
    requires { index < 2 ^ 64 }
    ensures { Adds draft.old (octet_bits letters.now names.now (index, octet)) draft.new }
{
    let first = 8 * index;
    append_if_set(draft, letters, names, first, octet / 128 % 2);
    append_if_set(draft, letters, names, first + 1, octet / 64 % 2);
    append_if_set(draft, letters, names, first + 2, octet / 32 % 2);
    append_if_set(draft, letters, names, first + 3, octet / 16 % 2);
    append_if_set(draft, letters, names, first + 4, octet / 8 % 2);
    append_if_set(draft, letters, names, first + 5, octet / 4 % 2);
    append_if_set(draft, letters, names, first + 6, octet / 2 % 2);
    append_if_set(draft, letters, names, first + 7, octet % 2);
}

/// Appends the bit with the number `bit` if `set` is 1.
#[tactic(auto, using(crate::proofs::Drafts::adds_none))]
fn append_if_set(draft: &mut Draft, letters: &Letters, names: &NumberNames<'_>, bit: u128, set: u8)
    requires { bit < 2 ^ 68 }
    ensures { Adds draft.old (bit_text letters.now names.now bit set) draft.new }
{
    if set == 1 {
        append_bit(draft, letters, names, bit);
    }
}

/// Appends the bit with the number `bit` as [`append_bit_name`] does, by its name in `names`.
fn append_bit(draft: &mut Draft, letters: &Letters, names: &NumberNames<'_>, bit: u128)
    requires { bit < 2 ^ 68 }
    ensures { Adds draft.old (set_bit_text letters.now names.now bit) draft.new }
{
    let mut buffer = Buffer::new();
    let number = buffer.format(bit).as_bytes();
    append_bit_name(draft, letters, names.name_of(bit as i128), number);
}

/// Appends the name of a bit, the digits of its number in parentheses, and a blank. If it has no
/// name, or with `e`, appends only the digits and the blank.
fn append_bit_name(draft: &mut Draft, letters: &Letters, name: Option<&[u8]>, number: &[u8])
    ensures { Adds draft.old
        (bit_name letters.now (option_copied name.entry) number.now) draft.new }
{
    match name {
        Some(name) if !letters.numeric_enumerations => {
            draft.octets(name);
            draft.octet(b'(');
            draft.octets(number);
            draft.octets(b") ");
        }
        _ => {
            draft.octets(number);
            draft.octet(b' ');
        }
    }
}
