//! Identifiers are read from text, decimal numbers with dots between them, and written as text.

use snmp_oid::{LONGEST_TEXT, MAX_LEN, Oid, OidTextError, parse_numeric, write_numeric};
use std::alloc::AllocError;
use std::process::Abort;
use std::test::Fail;

/// Returns whether `text` is the name of the identifier with these numbers.
fn is_named(text: &[u8], numbers: &[u32]) -> bool {
    match parse_numeric(text) {
        Ok(oid) => oid.as_slice() == numbers,
        Err(_) => false,
    }
}

#[test]
fn numeric_names_are_read(rt: HostRuntime) {
    let rows = [
        (b".".as_slice(), [].as_slice()),
        (b"0", &[0]),
        (b"1.3.6.1", &[1, 3, 6, 1]),
        (b".1.3.6.1", &[1, 3, 6, 1]),
        (b"2.4294967295.0", &[2, 4294967295, 0]),
        (b".007", &[7]),
        (b"00000000000000000000000000000000000000001", &[1]),
    ];
    for (text, numbers) in rows {
        assert!(rt; is_named(text, numbers), "{text:?}");
    }
}

/// Returns whether `text` is refused with `error`.
fn is_refused(text: &[u8], error: OidTextError) -> bool {
    parse_numeric(text).err() == Some(error)
}

#[test]
fn the_first_bad_part_is_reported(rt: HostRuntime) {
    let rows = [
        (b"".as_slice(), 0),
        (b"..", 1),
        (b"1.", 2),
        (b".1.", 3),
        (b"1..3", 2),
        (b"iso", 0),
        (b"1.3a.b", 2),
        (b" 1", 0),
        (b"+1", 0),
        (b"4294967296", 0),
        (b"1.3.18446744073709551617.x", 4),
    ];
    for (text, at) in rows {
        assert!(rt; is_refused(text, OidTextError::BadNumber(at)), "{text:?}");
    }
}

/// Returns whether `text` is the name of an identifier with 128 numbers.
fn has_128(text: &[u8]) -> bool {
    match parse_numeric(text) {
        Ok(oid) => oid.len() == 128,
        Err(_) => false,
    }
}

/// Appends 125 numbers to a name of three, and asserts that these 128 numbers are read. Then
/// asserts that one number more is refused as too many, and that an empty part after it is reported
/// in preference to that.
fn assert_at_most_128(rt: &impl Abort, text: &mut Vec<u8>) -> Result<(), AllocError> {
    for _ in 0..125 {
        text.extend_from_slice(b".4294967295")?;
    }
    assert!(rt; has_128(text));
    text.extend_from_slice(b".0")?;
    assert!(rt; is_refused(text, OidTextError::TooLong));
    text.extend_from_slice(b".")?;
    assert!(rt; is_refused(text, OidTextError::BadNumber(1383)));
    Ok(())
}

#[test]
fn more_than_128_numbers_are_refused(rt: HostRuntime) -> Result<(), Fail> {
    let mut text = Vec::from_slice(rt.alloc(), b"1.3.6")?;
    assert_at_most_128(&rt, &mut text)?;
    Ok(())
}

/// Returns whether the text of `oid` fills a buffer of the greatest length, is read as `oid` again,
/// and doesn't fit into a shorter buffer.
fn is_longest(oid: &Oid) -> bool {
    let mut text = [0; LONGEST_TEXT];
    let mut short = [0; 1407];
    write_numeric(oid, &mut text) == Some(LONGEST_TEXT)
        && is_named(&text, oid.as_slice())
        && write_numeric(oid, &mut short).is_none()
}

#[test]
fn the_longest_text_is_written_and_read_again(rt: HostRuntime) {
    let oid = Oid::from_slice(&[4294967295; MAX_LEN]).expect(&rt, "128 numbers");
    assert!(rt; is_longest(&oid));
}
