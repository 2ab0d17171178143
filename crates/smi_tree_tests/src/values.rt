//! The texts of values of each type but object identifiers, with the letters and the syntaxes that
//! affect them.
ghost use Rattle.std.specs.Prelude.{◌≡◌, true};
ghost use Rattle.smi_text.specs.trees.Word.{is_word};
ghost use Rattle.snmp_wire.specs.ber.Value.{datum};
ghost use Rattle.smi_value.specs.Value.{IsNoIdentifier};

use smi_text::{Name, NamedNumber, Text};
use smi_value::{Letters, NumberIndex, ValueBase, ValueSyntax, append_value};
use snmp_io::Draft;
use snmp_wire::ValueRef;
use std::alloc::{AllocError, Global};
use std::process::Abort;

/// A value that isn't an object identifier.
#[derive(Clone, Copy)]
enum Value<'a> {
    Integer(i32),
    Octets(&'a [u8]),
    Null,
    IpAddress([u8; 4]),
    Counter32(u32),
    Gauge32(u32),
    TimeTicks(u32),
    Opaque(&'a [u8]),
    Counter64(u64),
    NoSuchObject,
    NoSuchInstance,
    EndOfMibView,
}

/// Returns the value as it is read from a message.
fn value_of(value: Value<'_>) -> ValueRef<'_>
    ensures { IsNoIdentifier (datum result) }
{
    match value {
        Value::Integer(n) => ValueRef::Integer(n),
        Value::Octets(octets) => ValueRef::Octets(octets),
        Value::Null => ValueRef::Null,
        Value::IpAddress(octets) => ValueRef::IpAddress(octets),
        Value::Counter32(n) => ValueRef::Counter32(n),
        Value::Gauge32(n) => ValueRef::Gauge32(n),
        Value::TimeTicks(n) => ValueRef::TimeTicks(n),
        Value::Opaque(octets) => ValueRef::Opaque(octets),
        Value::Counter64(n) => ValueRef::Counter64(n),
        Value::NoSuchObject => ValueRef::NoSuchObject,
        Value::NoSuchInstance => ValueRef::NoSuchInstance,
        Value::EndOfMibView => ValueRef::EndOfMibView,
    }
}

/// Returns the text of a value.
fn text_of(
    alloc: Global,
    letters: &Letters,
    syntax: Option<&ValueSyntax<'_>>,
    value: &ValueRef<'_>,
) -> Result<Vec<u8>, AllocError>
    requires { IsNoIdentifier (datum value.now) }
{
    let mut out = Vec::new(alloc);
    let mut draft = Draft::after(&mut out);
    append_value(&mut draft, letters, syntax, value);
    draft.finish(&mut out)?;
    Ok(out)
}

/// Returns whether the value is shown as `text` with these letters.
fn shows(
    alloc: Global,
    letters: &[u8],
    syntax: Option<&ValueSyntax<'_>>,
    value: Value<'_>,
    text: &[u8],
) -> bool {
    match Letters::parse(letters) {
        Ok(letters) => match text_of(alloc, &letters, syntax, &value_of(value)) {
            Ok(shown) => shown.as_slice() == text,
            Err(_) => false,
        },
        Err(_) => false,
    }
}

/// Letters, a value, and its text with these letters.
type Row = (&'static [u8], Value<'static>, &'static [u8]);

/// Asserts that each row's value is shown as its text, with its letters.
fn assert_rows(rt: &impl Abort, alloc: Global, syntax: Option<&ValueSyntax<'_>>, rows: &[Row]) {
    for (letters, value, text) in rows {
        assert!(rt;
            shows(alloc, letters, syntax, *value, text),
            "{letters:?} {text:?}"
        );
    }
}

const NUMBERS: &[Row] = &[
    (b"", Value::Integer(-2147483648), b"INTEGER: -2147483648"),
    (b"q", Value::Integer(0), b"0"),
    (b"Q", Value::Integer(2147483647), b"2147483647"),
    (b"etUxanfsSvb", Value::Integer(5), b"INTEGER: 5"),
    (b"", Value::Counter32(4294967295), b"Counter32: 4294967295"),
    (b"q", Value::Counter32(1), b"1"),
    (b"", Value::Gauge32(200), b"Gauge32: 200"),
    (b"Q", Value::Gauge32(200), b"200"),
    (
        b"",
        Value::Counter64(u64::MAX),
        b"Counter64: 18446744073709551615",
    ),
    (b"q", Value::Counter64(7), b"7"),
];

#[test]
fn numbers_are_shown_without_a_syntax(rt: HostRuntime) {
    assert_rows(&rt, rt.alloc(), None, NUMBERS);
}

const TICKS: &[Row] = &[
    (
        b"",
        Value::TimeTicks(14096763),
        b"Timeticks: (14096763) 1 day, 15:09:27.63",
    ),
    (b"q", Value::TimeTicks(14096763), b"1:15:09:27.63"),
    (b"Q", Value::TimeTicks(14096763), b"1:15:09:27.63"),
    (b"t", Value::TimeTicks(14096763), b"14096763"),
    (b"qt", Value::TimeTicks(14096763), b"14096763"),
    (b"", Value::TimeTicks(0), b"Timeticks: (0) 0:00:00.00"),
    (b"q", Value::TimeTicks(0), b"0:0:00:00.00"),
    (
        b"",
        Value::TimeTicks(8639999),
        b"Timeticks: (8639999) 23:59:59.99",
    ),
    (
        b"",
        Value::TimeTicks(8640000),
        b"Timeticks: (8640000) 1 day, 0:00:00.00",
    ),
    (
        b"",
        Value::TimeTicks(17280000),
        b"Timeticks: (17280000) 2 days, 0:00:00.00",
    ),
    (
        b"",
        Value::TimeTicks(u32::MAX),
        b"Timeticks: (4294967295) 497 days, 2:27:52.95",
    ),
    (b"q", Value::TimeTicks(u32::MAX), b"497:2:27:52.95"),
];

#[test]
fn time_ticks_are_shown_as_durations(rt: HostRuntime) {
    assert_rows(&rt, rt.alloc(), None, TICKS);
}

const STRINGS: &[Row] = &[
    (b"", Value::Octets(b""), b"\"\""),
    (b"qx", Value::Octets(b""), b"\"\""),
    (b"a", Value::Octets(b""), b"\"\""),
    (b"", Value::Octets(b"wes"), b"STRING: \"wes\""),
    (b"q", Value::Octets(b"wes"), b"\"wes\""),
    (b"x", Value::Octets(b"wes"), b"Hex-STRING: 77 65 73 "),
    (b"xQ", Value::Octets(b"wes"), b"77 65 73 "),
    (
        b"",
        Value::Octets(b" ~a\"b\\c"),
        b"STRING: \" ~a\\\"b\\\\c\"",
    ),
    (
        b"",
        Value::Octets(b"\x00\x16\x3e"),
        b"Hex-STRING: 00 16 3E ",
    ),
    (b"", Value::Octets(b"a\x7f"), b"Hex-STRING: 61 7F "),
    (
        b"a",
        Value::Octets(b"a\x7f\x1f\"\xff"),
        b"STRING: \"a..\\\".\"",
    ),
];

#[test]
fn strings_are_shown_without_a_hint(rt: HostRuntime) {
    assert_rows(&rt, rt.alloc(), None, STRINGS);
}

/// Octets that take two lines in hexadecimal.
const OCTETS: &[u8] =
    b"\x00\x01\x02\x03\x04\x05\x06\x07\x08\x09\x0a\x0b\x0c\x0d\x0e\x0f\xf0\xe1\xd2\xc3\xb4\xa5\
    \x96\x87\x78\x69\x5a\x4b\x3c\x2d\x1e\x0f";

/// `OCTETS` in hexadecimal, in two lines.
const LINES: &[u8] = b"00 01 02 03 04 05 06 07 08 09 0A 0B 0C 0D 0E 0F \n\
    F0 E1 D2 C3 B4 A5 96 87 78 69 5A 4B 3C 2D 1E 0F ";

const OPAQUES: &[Row] = &[
    (b"q", Value::Opaque(OCTETS), LINES),
    (b"", Value::Opaque(b"\xff"), b"OPAQUE: FF "),
    (b"a", Value::Opaque(b""), b"OPAQUE: "),
];

#[test]
fn hexadecimal_has_16_octets_a_line(rt: HostRuntime) {
    let line = Value::Octets(&OCTETS[..16]);
    assert!(rt;
        shows(
            rt.alloc(),
            b"q",
            None,
            line,
            b"00 01 02 03 04 05 06 07 08 09 0A 0B 0C 0D 0E 0F "
        )
    );
    let longer = Value::Octets(&OCTETS[..17]);
    assert!(rt; shows(rt.alloc(), b"q", None, longer, &LINES[..52]));
    assert_rows(&rt, rt.alloc(), None, OPAQUES);
}

/// Returns whether the string of this octet is shown as `text` with these letters.
fn shows_octet(alloc: Global, letters: &[u8], octet: u8, text: &[u8]) -> bool {
    shows(alloc, letters, None, Value::Octets(&[octet]), text)
}

/// Returns whether the string of this printable octet is shown as text, with a backslash before a
/// quote or a backslash.
fn is_shown_as_text(alloc: Global, octet: u8) -> bool {
    if octet == b'"' || octet == b'\\' {
        shows_octet(alloc, b"q", octet, &[b'"', b'\\', octet, b'"'])
    } else {
        shows_octet(alloc, b"q", octet, &[b'"', octet, b'"'])
    }
}

#[test]
fn each_octet_is_shown_as_text(rt: HostRuntime) {
    for octet in 32..127 {
        assert!(rt; is_shown_as_text(rt.alloc(), octet));
    }
    for octet in 127..=255 {
        assert!(rt; shows_octet(rt.alloc(), b"qa", octet, b"\".\""));
    }
    for octet in 0..32 {
        assert!(rt; shows_octet(rt.alloc(), b"qa", octet, b"\".\""));
    }
}

const OTHERS: &[Row] = &[
    (
        b"",
        Value::IpAddress([192, 0, 2, 255]),
        b"IpAddress: 192.0.2.255",
    ),
    (b"q", Value::IpAddress([0, 10, 100, 9]), b"0.10.100.9"),
    (b"", Value::Null, b"NULL"),
    (b"q", Value::Null, b"NULL"),
    (
        b"q",
        Value::NoSuchObject,
        b"No Such Object available on this agent at this OID",
    ),
    (
        b"",
        Value::NoSuchInstance,
        b"No Such Instance currently exists at this OID",
    ),
    (
        b"Q",
        Value::EndOfMibView,
        b"No more variables left in this MIB View (It is past the end of the MIB tree)",
    ),
];

#[test]
fn other_values_are_shown(rt: HostRuntime) {
    assert_rows(&rt, rt.alloc(), None, OTHERS);
}

const HUNDREDTHS: &[Row] = &[
    (b"", Value::Integer(-5), b"INTEGER: -0.05 degrees"),
    (b"q", Value::Integer(2050), b"20.50 degrees"),
    (b"U", Value::Integer(2050), b"INTEGER: 20.50"),
    (b"e", Value::Integer(1), b"INTEGER: 0.01 degrees"),
    (b"", Value::Gauge32(5), b"Gauge32: 5"),
    (b"", Value::Octets(b"a"), b"STRING: \"a\""),
];

const BINARY: &[Row] = &[(b"", Value::Gauge32(5), b"Gauge32: 101 jobs")];

const JOBS: &[Row] = &[(b"", Value::Gauge32(5), b"Gauge32: 5 jobs")];

const PACKETS: &[Row] = &[
    (b"", Value::Counter32(255), b"Counter32: 255 packets"),
    (b"", Value::Counter64(255), b"Counter64: 255"),
];

const OCTETS_COUNTED: &[Row] = &[
    (b"", Value::Counter64(9), b"Counter64: 9 octets"),
    (b"U", Value::Counter64(9), b"Counter64: 9"),
];

const TIME: &[Row] = &[
    (b"", Value::TimeTicks(0), b"Timeticks: (0) 0:00:00.00 ticks"),
    (b"t", Value::TimeTicks(3), b"3 ticks"),
    (b"q", Value::TimeTicks(3), b"0:0:00:00.03 ticks"),
];

#[test]
fn numbers_are_shown_with_hints_and_units(rt: HostRuntime) {
    let hundredths = ValueSyntax::new(ValueBase::Integer, &[], Some(b"d-2"), Some(b"degrees"));
    assert_rows(&rt, rt.alloc(), Some(&hundredths), HUNDREDTHS);
    let binary = ValueSyntax::new(ValueBase::Gauge32, &[], Some(b"b"), Some(b"jobs"));
    assert_rows(&rt, rt.alloc(), Some(&binary), BINARY);
    let jobs = ValueSyntax::new(ValueBase::Gauge32, &[], Some(b"1x:"), Some(b"jobs"));
    assert_rows(&rt, rt.alloc(), Some(&jobs), JOBS);
    let packets = ValueSyntax::new(ValueBase::Counter32, &[], Some(b"x"), Some(b"packets"));
    assert_rows(&rt, rt.alloc(), Some(&packets), PACKETS);
    let octets = ValueSyntax::new(ValueBase::Counter64, &[], None, Some(b"octets"));
    assert_rows(&rt, rt.alloc(), Some(&octets), OCTETS_COUNTED);
    let time = ValueSyntax::new(ValueBase::TimeTicks, &[], None, Some(b"ticks"));
    assert_rows(&rt, rt.alloc(), Some(&time), TIME);
}

const ADDRESSES: &[Row] = &[
    (b"", Value::Octets(b"\x00\x16\x3e"), b"STRING: 0:16:3e"),
    (b"qx", Value::Octets(b"\x00\x16\x3e"), b"0:16:3e"),
    (b"a", Value::Octets(b""), b"STRING: "),
    (b"", Value::Opaque(b"\x01"), b"OPAQUE: 01 "),
];

const WITH_HINT_OF_NUMBERS: &[Row] = &[(b"", Value::Octets(b"wes"), b"STRING: \"wes\"")];

#[test]
fn strings_are_shown_by_their_hint(rt: HostRuntime) {
    let mac = ValueSyntax::new(ValueBase::OctetString, &[], Some(b"1x:"), None);
    assert_rows(&rt, rt.alloc(), Some(&mac), ADDRESSES);
    let number = ValueSyntax::new(ValueBase::OctetString, &[], Some(b"d"), Some(b"m"));
    assert_rows(&rt, rt.alloc(), Some(&number), WITH_HINT_OF_NUMBERS);
}

/// Returns the name with its number, from their texts.
fn named_number(rt: &impl Abort, alloc: Global, name: &[u8], number: &[u8]) -> NamedNumber
    requires { is_word name.now ≡ true }
{
    let octets = Text::from_slice(alloc, name).expect(rt, "memory");
    let number = Text::from_slice(alloc, number).expect(rt, "memory");
    NamedNumber {
        name: Name { octets },
        number,
    }
}

/// Returns `up(1)`, `down(002)` and `again(1)`.
fn state_names(rt: &impl Abort, alloc: Global) -> [NamedNumber; 3] {
    let up = named_number(rt, alloc, b"up", b"1");
    let down = named_number(rt, alloc, b"down", b"002");
    let again = named_number(rt, alloc, b"again", b"1");
    [up, down, again]
}

const STATES: &[Row] = &[
    (b"", Value::Integer(1), b"INTEGER: up(1)"),
    (b"", Value::Integer(2), b"INTEGER: down(2)"),
    (b"q", Value::Integer(1), b"up"),
    (b"Q", Value::Integer(2), b"down"),
    (b"e", Value::Integer(1), b"INTEGER: 1"),
    (b"qe", Value::Integer(1), b"1"),
    (b"", Value::Integer(3), b"INTEGER: 0.03 m"),
    (b"", Value::Integer(-1), b"INTEGER: -0.01 m"),
    (b"", Value::Gauge32(1), b"Gauge32: 1"),
];

#[test]
fn numbers_are_shown_by_their_names(rt: HostRuntime) {
    let names = state_names(&rt, rt.alloc());
    let state = ValueSyntax::new(ValueBase::Integer, &names, Some(b"d-2"), Some(b"m"));
    assert_rows(&rt, rt.alloc(), Some(&state), STATES);
}

const FLAGS: &[Row] = &[
    (b"", Value::Octets(b""), b"BITS: "),
    (b"q", Value::Octets(b""), b""),
    (b"", Value::Octets(b"\x00"), b"BITS: 00 "),
    (b"", Value::Octets(b"\xe0"), b"BITS: E0 0 up(1) down(2) "),
    (b"qe", Value::Octets(b"\xe0"), b"E0 0 1 2 "),
    (b"qa", Value::Octets(b"\x1f\x81"), b"1F 81 3 4 5 6 7 8 15 "),
    (b"x", Value::Octets(b"@\x01"), b"BITS: 40 01 up(1) 15 "),
];

#[test]
fn bits_are_shown_by_their_names(rt: HostRuntime) {
    let names = state_names(&rt, rt.alloc());
    let flags = ValueSyntax::new(ValueBase::Bits, &names, Some(b"1x:"), Some(b"m"));
    assert_rows(&rt, rt.alloc(), Some(&flags), FLAGS);
}

/// Returns one of four words.
fn word(k: usize) -> &'static [u8]
    ensures { is_word result.now ≡ true }
{
    match k % 4 {
        0 => b"a",
        1 => b"b",
        2 => b"c",
        _ => b"d",
    }
}

/// Returns the number of the name at index `k` of `count`. The first is the least value, and the
/// last the greatest. Each other is `-m`, `m`, `m`, one out of range or `m` after two zeros, by
/// `k % 5`, where `m` is `k / 5`.
fn number_at(alloc: Global, k: usize, count: usize) -> Result<String, AllocError> {
    let m = k / 5;
    if k == 0 {
        return format!(in alloc; "-2147483648");
    }
    if k.wrapping_add(1) == count {
        return format!(in alloc; "2147483647");
    }
    match k % 5 {
        0 => format!(in alloc; "-{m}"),
        3 => format!(in alloc; "18446744073709551616{m}"),
        4 => format!(in alloc; "00{m}"),
        _ => format!(in alloc; "{m}"),
    }
}

/// Returns `count` names, each with its number of [`number_at`].
fn many_names(
    rt: &impl Abort,
    alloc: Global,
    count: usize,
) -> Result<Vec<NamedNumber>, AllocError> {
    let mut names = Vec::new(alloc);
    for k in 0..count {
        let number = number_at(alloc, k, count)?;
        names.push(named_number(rt, alloc, word(k), number.as_bytes()))?;
    }
    Ok(names)
}

/// Asserts that a value has the same text with the names in both syntaxes.
fn assert_same(
    rt: &impl Abort,
    alloc: Global,
    plain: &ValueSyntax<'_>,
    indexed: &ValueSyntax<'_>,
    value: Value<'_>,
) -> Result<(), AllocError> {
    let letters = Letters::parse(b"").expect(rt, "letters");
    let expected = text_of(alloc, &letters, Some(plain), &value_of(value))?;
    let shown = text_of(alloc, &letters, Some(indexed), &value_of(value))?;
    assert!(rt; shown.as_slice() == expected.as_slice());
    Ok(())
}

/// Asserts that an index of these names finds the same names for some values as a search does, and
/// those of `BY_INDEX`.
fn assert_index(rt: &impl Abort, alloc: Global, names: &[NamedNumber]) -> Result<(), AllocError> {
    let index = NumberIndex::new(alloc, names)?;
    let plain = ValueSyntax::new(ValueBase::Integer, names, None, None);
    let indexed = ValueSyntax::with_index(ValueBase::Integer, names, Some(&index), None, None);
    for n in -70..70 {
        assert_same(rt, alloc, &plain, &indexed, Value::Integer(n))?;
    }
    for n in [i32::MIN, i32::MIN + 1, 1000, i32::MAX] {
        assert_same(rt, alloc, &plain, &indexed, Value::Integer(n))?;
    }
    assert_rows(rt, alloc, Some(&indexed), BY_INDEX);
    let plain = ValueSyntax::new(ValueBase::Bits, names, None, None);
    let indexed = ValueSyntax::with_index(ValueBase::Bits, names, Some(&index), None, None);
    assert_same(rt, alloc, &plain, &indexed, Value::Octets(&[255; 10]))
}

const BY_INDEX: &[Row] = &[
    (b"", Value::Integer(i32::MIN), b"INTEGER: a(-2147483648)"),
    (b"", Value::Integer(-1), b"INTEGER: b(-1)"),
    (b"", Value::Integer(0), b"INTEGER: b(0)"),
    (b"", Value::Integer(1), b"INTEGER: c(1)"),
    (b"", Value::Integer(-70), b"INTEGER: -70"),
    (b"q", Value::Integer(2), b"d"),
];

#[test]
fn names_are_found_by_an_index(rt: HostRuntime) -> Result<(), AllocError> {
    let alloc = rt.alloc();
    assert!(rt; !NumberIndex::is_useful(&many_names(&rt, alloc, 16)?));
    for count in [17, 300] {
        let names = many_names(&rt, alloc, count)?;
        assert!(rt; NumberIndex::is_useful(&names));
        assert_index(&rt, alloc, &names)?;
    }
    Ok(())
}
