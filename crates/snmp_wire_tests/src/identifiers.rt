//! Identifiers: their order, what they become in messages, and their greatest length.

use snmp_oid::{MAX_LEN, Oid, OidError};
use std::process::Abort;

/// Returns the identifier with these numbers, at most 128.
fn oid_of(rt: &impl Abort, numbers: &[u32]) -> Oid {
    Oid::from_slice(numbers).expect(rt, "at most 128 numbers")
}

/// Returns whether `oid` has these numbers in a message.
fn has_wire(oid: &Oid, numbers: &[u32]) -> bool {
    match oid.to_wire() {
        Ok(padded) => padded.as_slice() == numbers,
        Err(_) => false,
    }
}

/// Returns whether the identifier of `numbers` is less than the one of `others`.
fn is_before(numbers: &[u32], others: &[u32]) -> bool {
    match (Oid::from_slice(numbers), Oid::from_slice(others)) {
        (Ok(oid), Ok(other)) => oid < other,
        _ => false,
    }
}

/// The numbers of identifiers, in increasing order.
const IN_ORDER: &[&[u32]] = &[
    &[],
    &[1, 3],
    &[1, 3, 0],
    &[1, 3, 2],
    &[1, 3, 10],
    &[1, 3, 4294967295],
    &[1, 4],
];

#[test]
fn identifiers_are_ordered_number_by_number(rt: HostRuntime) {
    for pair in IN_ORDER.windows(2) {
        assert!(rt; is_before(pair[0], pair[1]), "{pair:?}");
    }
}

/// Returns whether `oid` has no encoding in a message.
fn has_no_wire(oid: &Oid) -> bool {
    oid.to_wire().err() == Some(OidError::NotWire)
}

#[test]
fn short_identifiers_are_padded_and_bad_ones_refused(rt: HostRuntime) {
    assert!(rt; has_wire(&Oid::new(), &[0, 0]));
    assert!(rt; has_wire(&oid_of(&rt, &[1]), &[1, 0]));
    assert!(rt; oid_of(&rt, &[2, 4294967295, 0]).is_wire());
    assert!(rt; has_no_wire(&oid_of(&rt, &[3])));
    assert!(rt; has_no_wire(&oid_of(&rt, &[1, 40])));
}

/// Appends 7 to an identifier that is 127 times 7, and then once more. Returns whether the first is
/// accepted and the second refused.
fn is_filled(oid: &mut Oid) -> bool {
    oid.push(7).is_ok()
        && oid.push(7) == Err(OidError::TooLong)
        && oid.as_slice() == [7; MAX_LEN].as_slice()
}

#[test]
fn the_129th_number_is_refused(rt: HostRuntime) {
    let mut oid = oid_of(&rt, &[7; 127]);
    assert!(rt; is_filled(&mut oid));
    assert!(rt; Oid::from_slice(&[7; 129]).err() == Some(OidError::TooLong));
}

/// Returns whether numbers can be appended to 1.3, and are refused as a whole if they are too many.
fn is_extended(oid: &mut Oid) -> bool {
    oid.extend_from_slice(&[6, 1, 4]).is_ok()
        && oid.as_slice() == [1, 3, 6, 1, 4].as_slice()
        && oid.extend_from_slice(&[7; 124]) == Err(OidError::TooLong)
        && oid.as_slice() == [1, 3, 6, 1, 4].as_slice()
}

/// Clears `oid`, and returns whether it is then empty and accepts a number.
fn is_cleared(oid: &mut Oid) -> bool {
    oid.clear();
    oid.is_empty() && oid.push(2).is_ok() && oid.as_slice() == [2].as_slice()
}

#[test]
fn numbers_are_appended_and_cleared(rt: HostRuntime) {
    let mut oid = oid_of(&rt, &[1, 3]);
    assert!(rt; is_extended(&mut oid));
    assert!(rt; is_cleared(&mut oid));
}
