//! Encoded names: they are compared as their numbers are, without decoding them, and they are read
//! and written.

use snmp_wire::{
    Binding, EncodedName, MAX_CONTENT, NameBuffer, Oid, encode_asking, encode_binding,
    parse_numeric,
};
use std::process::Abort;

/// Numbers around the limits at which an encoding becomes longer, also if they are the second
/// number of an identifier, which is encoded as one with the first. The last is the greatest.
const AT_EDGES: &[u32] = &[
    0, 1, 39, 40, 47, 48, 126, 127, 128, 129, 16383, 16384, 16385, 2097151, 2097152, 268435455,
    268435456, 4294967295,
];

/// Returns whether the encodings of `o` and `p` compare as their numbers do, and the first is below
/// the other if and only if `o` is below `p`.
fn is_compared(o: &Oid, p: &Oid) -> bool {
    if !o.is_wire() || !p.is_wire() {
        return false;
    }
    let mut room = [0; MAX_CONTENT];
    let mut other_room = [0; MAX_CONTENT];
    let name = EncodedName::write(o, &mut room);
    let other = EncodedName::write(p, &mut other_room);
    name.compare(&other) == o.cmp(p) && name.is_below(&other) == o.is_below(p)
}

/// Returns [`is_compared`] of the names with these numbers.
fn are_compared(numbers: &[u32], others: &[u32]) -> bool {
    match (Oid::from_slice(numbers), Oid::from_slice(others)) {
        (Ok(o), Ok(p)) => is_compared(&o, &p),
        _ => false,
    }
}

/// Asserts [`is_compared`] of the names with these numbers.
fn assert_compared(rt: &impl Abort, numbers: &[u32], others: &[u32]) {
    assert!(rt; are_compared(numbers, others), "{numbers:?} and {others:?}");
}

#[test]
fn names_compare_as_their_numbers(rt: HostRuntime) {
    for a in AT_EDGES {
        for b in AT_EDGES {
            assert_compared(&rt, &[1, 3, 6, 1, *a, 7], &[1, 3, 6, 1, *b, 5]);
            assert_compared(&rt, &[1, 3, 6, 1, *a, *b], &[1, 3, 6, 1, *b, *a]);
            assert_compared(&rt, &[2, *a], &[2, *b, 1]);
        }
    }
}

#[test]
fn first_two_numbers_encoded_as_one_compare_right(rt: HostRuntime) {
    for a in [0, 1] {
        for b in 0..40 {
            for c in [0, 47, 48, 127, 4294967295] {
                assert_compared(&rt, &[a, b], &[2, c]);
                assert_compared(&rt, &[1, b], &[a, 39]);
            }
        }
    }
}

/// Returns whether `text` is the name of `oid`.
fn is_named(text: &[u8], oid: &Oid) -> bool {
    match parse_numeric(text) {
        Ok(named) => named == *oid,
        Err(_) => false,
    }
}

/// Returns whether `oid` is encoded as `content`.
fn is_written(oid: &Oid, content: &[u8]) -> bool {
    if !oid.is_wire() {
        return false;
    }
    let mut room = [0; MAX_CONTENT];
    EncodedName::write(oid, &mut room).content() == content
}

/// Reads `name` into an identifier that had other numbers. Returns whether it is then the
/// identifier of `text`, and is encoded as `content`.
fn is_identifier(name: &EncodedName<'_>, text: &[u8], content: &[u8]) -> bool {
    let mut oid = Oid::from_slice(&[1, 2, 3]).unwrap_or(Oid::new());
    name.read_into(&mut oid);
    is_named(text, &oid) && is_written(&oid, content)
}

/// Returns whether `content` is read as the name of `text`, and that name is written as `content`
/// again.
fn is_read(content: &[u8], text: &[u8]) -> bool {
    match EncodedName::read(content) {
        Some(name) => { is_identifier(&name, text, content) && name.copy().compare(&name).is_eq() }
        None => false,
    }
}

#[test]
fn contents_are_read_and_written_again(rt: HostRuntime) {
    let rows = [
        ([0x2B, 6, 1].as_slice(), b"1.3.6.1".as_slice()),
        (&[0x00], b"0.0"),
        (&[0x2B, 0xFF, 0x7F, 0x81, 0x80, 0x00], b"1.3.16383.16384"),
        (&[0x90, 0x80, 0x80, 0x80, 0x4F], b"2.4294967295"),
    ];
    for (content, text) in rows {
        assert!(rt; is_read(content, text), "{content:?}");
    }
}

#[test]
fn malformed_contents_are_refused(rt: HostRuntime) {
    for content in [
        b"".as_slice(),
        &[0x2B, 0x80, 0x01],
        &[0x2B, 0x86],
        &[0x2B, 0x90, 0x80, 0x80, 0x80, 0x00],
    ] {
        assert!(rt; EncodedName::read(content).is_none(), "{content:?}");
    }
}

/// Returns the numbers of a name with the longest encoding.
fn longest() -> [u32; 128] {
    let mut numbers = [4294967295; 128];
    numbers[0] = 2;
    numbers
}

/// Returns whether the name with these numbers has a content of `length` octets.
fn has_length(numbers: &[u32], length: usize) -> bool {
    match Oid::from_slice(numbers) {
        Ok(oid) if oid.is_wire() => {
            let mut room = [0; MAX_CONTENT];
            EncodedName::write(&oid, &mut room).content().len() == length
        }
        _ => false,
    }
}

#[test]
fn the_longest_name_is_written_and_compared(rt: HostRuntime) {
    let numbers = longest();
    assert!(rt; has_length(&numbers, 635));
    assert_compared(&rt, &numbers, &numbers[..127]);
    assert_compared(&rt, &numbers[..127], &numbers);
}

/// Returns whether `encode_asking` writes what `encode_binding` does for the binding of `name` and
/// NULL, and returns `None` if the buffer is one octet too short.
fn is_asked(name: &EncodedName<'_>) -> bool {
    let mut out = [0xAA; 700];
    let mut expected = [0xAA; 700];
    let mut binding = Binding::empty();
    name.read_into(&mut binding.name);
    if !binding.name.is_wire() {
        return false;
    }
    match encode_binding(&binding, &mut expected) {
        Some(size) => {
            encode_asking(name, &mut out) == Some(size)
                && out == expected
                && encode_asking(name, &mut out[..size.saturating_sub(1)]).is_none()
        }
        None => false,
    }
}

/// Sets `kept` to the name with these numbers, and returns [`is_asked`] of it.
fn is_asked_next(kept: &mut NameBuffer, numbers: &[u32]) -> bool {
    match Oid::from_slice(numbers) {
        Ok(oid) if oid.is_wire() => {
            let mut room = [0; MAX_CONTENT];
            kept.set_to(&EncodedName::write(&oid, &mut room));
            is_asked(&kept.name())
        }
        _ => false,
    }
}

#[test]
fn bindings_that_ask_for_a_name_are_written(rt: HostRuntime) {
    let first = EncodedName::read(&[0x2B]).expect(&rt, "1.3");
    let mut kept = NameBuffer::new(&first);
    assert!(rt; is_asked(&kept.name()));
    for len in [24, 25, 26, 52, 60, 128] {
        assert!(rt; is_asked_next(&mut kept, &[2; 128][..len]), "{len} numbers");
    }
    assert!(rt; is_asked_next(&mut kept, &longest()));
}
