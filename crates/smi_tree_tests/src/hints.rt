//! Display hints, among them examples of RFC 2579, section 3.1.
use smi_value::{Hint, HintValue, write_hint};
use std::alloc::Global;
use std::process::Abort;

/// Returns whether `written` is `> ` followed by `text`.
fn is_appended(written: &[u8], text: &[u8]) -> bool {
    match written {
        [b'>', b' ', rest @ ..] => rest == text,
        _ => false,
    }
}

/// Returns whether the hint of octets shows `octets` as `text`, and appends it to what was written
/// before.
fn shows_octets(alloc: Global, hint: &[u8], octets: &[u8], text: &[u8]) -> bool {
    match (Hint::parse(hint), Vec::from_slice(alloc, b"> ")) {
        (Some(hint), Ok(mut out)) => {
            !hint.is_number()
                && write_hint(&hint, HintValue::Octets(octets), &mut out).is_ok()
                && is_appended(out.as_slice(), text)
        }
        _ => false,
    }
}

/// Returns whether the hint of numbers shows `n` as `text`.
fn shows_number(alloc: Global, hint: &[u8], n: i64, text: &[u8]) -> bool {
    let Some(hint) = Hint::parse(hint) else {
        return false;
    };
    let mut out = Vec::new(alloc);
    let is_written = hint.is_number() && write_hint(&hint, HintValue::Number(n), &mut out).is_ok();
    is_written && out.as_slice() == text
}

/// Asserts that the hint of each row shows its octets as its text.
fn assert_octets(rt: &impl Abort, alloc: Global, rows: &[(&[u8], &[u8], &[u8])]) {
    for (hint, octets, text) in rows {
        assert!(rt; shows_octets(alloc, hint, octets, text), "{hint:?}");
    }
}

const ADDRESSES_AND_DATES: &[(&[u8], &[u8], &[u8])] = &[
    (
        b"2d-1d-1d,1d:1d:1d.1d,1a1d:1d",
        b"\x07\xc8\x05\x1a\x0d\x1e\x0f\x00\x2d\x04\x00",
        b"1992-5-26,13:30:15.0,-4:0",
    ),
    (b"1x:", b"\x00\x16\x3e\x5a\x78\x8e", b"0:16:3e:5a:78:8e"),
    (
        b"1d.1d.1d.1d/2d",
        b"\x7f\x00\x00\x01\x00\xa1",
        b"127.0.0.1/161",
    ),
    (b"1d.", b"\x0a\x00\x01", b"10.0.1"),
    (b"2d-", b"\x01\x00\x05", b"256-5"),
    (b"255a", b"wes", b"wes"),
    (b"255t", b"w\xc3\xa9", b"w\xc3\xa9"),
];

#[test]
fn addresses_and_dates_are_shown(rt: HostRuntime) {
    assert_octets(&rt, rt.alloc(), ADDRESSES_AND_DATES);
}

const COUNTS: &[(&[u8], &[u8], &[u8])] = &[
    (b"*1d./2a", b"\x02\x07\x08ABC", b"7.8/ABC"),
    (b"*1x:/", b"\x02\x0a\x0b\x01\x0c", b"a:b/c"),
    (b"*1d.", b"\x05\x01\x02", b"1.2"),
    (b"*1d./1a", b"\x00A", b"A"),
    (b"1d*1d", b"\x01\x02\x03\x04", b"134"),
    (b"*0a:", b"\x03A", b":::"),
    (b"*0a", b"\xff\xff\xff", b""),
    (b"*0a:;1a", b"\x04A", b":::;A"),
    (b"0a1d", b"\x05", b"5"),
];

#[test]
fn repeated_parts_are_shown(rt: HostRuntime) {
    assert_octets(&rt, rt.alloc(), COUNTS);
}

const NO_OCTETS: &[(&[u8], &[u8], &[u8])] = &[
    (b"1x:", b"", b""),
    (b"*1d./", b"", b""),
    (b"65535a", b"", b""),
];

#[test]
fn no_octets_have_no_text(rt: HostRuntime) {
    assert_octets(&rt, rt.alloc(), NO_OCTETS);
}

const GREATEST: &[(&[u8], &[u8], &[u8])] = &[
    (b"8x", &[0xFF; 8], b"ffffffffffffffff"),
    (b"8d", &[0xFF; 8], b"18446744073709551615"),
    (b"8o", &[0xFF; 8], b"1777777777777777777777"),
    (b"0008x", b"\x00\x00\x00\x00\x00\x00\x00\x0a\x01", b"a1"),
];

#[test]
fn the_greatest_numbers_are_shown(rt: HostRuntime) {
    assert_octets(&rt, rt.alloc(), GREATEST);
}

const NUMBERS: &[(&[u8], i64, &[u8])] = &[
    (b"d", -7, b"-7"),
    (b"d-0", 5, b"5"),
    (b"d-2", 5, b"0.05"),
    (b"d-2", -5, b"-0.05"),
    (b"d-2", 50, b"0.50"),
    (b"d-02", 12345, b"123.45"),
    (b"d-20", 1, b"0.00000000000000000001"),
    (b"x", -255, b"-ff"),
    (b"x", i64::MIN, b"-8000000000000000"),
    (b"o", 8, b"10"),
    (b"b", 0, b"0"),
    (b"b", 4294967295, b"11111111111111111111111111111111"),
];

#[test]
fn numbers_are_shown(rt: HostRuntime) {
    for (hint, n, text) in NUMBERS {
        assert!(rt; shows_number(rt.alloc(), hint, *n, text), "{hint:?} {n}");
    }
}

const NO_HINTS: &[&[u8]] = &[
    b"", b"0a", b"1a0x", b"9d", b"9x:1x", b"65536a", b"d-", b"d-21", b"d-1x", b"D", b"xx", b"1",
    b"1z", b"1x:;", b"*", b"**1d", b"*1x:;,", b"a",
];

#[test]
fn malformed_hints_are_refused(rt: HostRuntime) {
    for text in NO_HINTS {
        assert!(rt; Hint::parse(text).is_none(), "{text:?}");
    }
}

const HINTS: &[&[u8]] = &[
    b"8d",
    b"65535t",
    b"00000000000000000000000008x",
    b"*0a",
    b"*1x:;",
    b"0a0a1x",
    b"1x:1x",
    b"x",
    b"d-20",
    b"d-000020",
];

#[test]
fn unusual_hints_are_accepted(rt: HostRuntime) {
    for text in HINTS {
        assert!(rt; Hint::parse(text).is_some(), "{text:?}");
    }
}
