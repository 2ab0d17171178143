//! Messages are read: recorded ones, variants of their encodings, and malformed ones.
ghost use Rattle.std.specs.Prelude.{◌≡◌, true};
ghost use Rattle.snmp_wire.specs.declared.ber.error.BerError.{BerError};
ghost use Rattle.snmp_wire.specs.Fault.{IsFault};

use crate::recorded::{REQUEST, RESPONSE};
use snmp_wire::{
    BerError, Binding, Bindings, Kind, MessageRef, OctetString, Oid, Value, ValueRef, decode,
    no_fault,
};
use std::alloc::{AllocError, Global};
use std::process::Abort;
use std::test::Fail;

/// Returns the octets of `pieces`, one piece after the other.
fn join_pieces(alloc: Global, pieces: &[&[u8]]) -> Result<Vec<u8>, AllocError> {
    let mut octets = Vec::new(alloc);
    for piece in pieces {
        octets.extend_from_slice(piece)?;
    }
    Ok(octets)
}

/// Asserts that `datagram` is refused with `error`.
fn assert_refused(rt: &impl Abort, datagram: &[u8], error: BerError) {
    assert!(rt; decode(datagram).err() == Some(error), "{datagram:?}");
}

/// Returns whether `datagram` encodes a message. If so, no error's condition holds of it.
fn is_faultless(datagram: &[u8]) -> bool
    ensures { result ≡ true → (error : BerError) → IsFault error datagram.now → ⊥ }
{
    no_fault();
    decode(datagram).is_ok()
}

/// Each error has a condition (`IsFault`). These messages meet none of the conditions, so none of
/// them holds of all datagrams.
#[test]
fn a_message_meets_no_error_condition(rt: HostRuntime) {
    assert!(rt; is_faultless(&REQUEST));
    assert!(rt; is_faultless(&RESPONSE));
}

/// Returns whether a binding has this name and value.
fn is_binding(binding: &Binding<'_>, name: &[u32], value: &ValueRef<'_>) -> bool {
    binding.name.as_slice() == name && binding.value == *value
}

/// Returns whether a message has one binding, with this name and value.
fn has_one(message: &MessageRef<'_>, name: &[u32], value: &ValueRef<'_>) -> bool {
    let mut bindings = message.bindings();
    match bindings.next() {
        Some(binding) => is_binding(&binding, name, value) && bindings.next().is_none(),
        None => false,
    }
}

/// sysName.0.
const NAME: [u32; 9] = [1, 3, 6, 1, 2, 1, 1, 5, 0];

/// Returns whether a message has the head of `REQUEST`: all that comes before the bindings.
fn has_head(message: &MessageRef<'_>) -> bool {
    message.version() == 1
        && message.community() == b"public".as_slice()
        && message.kind() == Kind::GetRequest
        && [message.id(), message.a(), message.b()] == [1, 0, 0]
}

/// Returns whether `datagram` encodes the message of `REQUEST`.
fn is_request(datagram: &[u8]) -> bool {
    match decode(datagram) {
        Ok(message) => has_head(&message) && has_one(&message, &NAME, &ValueRef::Null),
        Err(_) => false,
    }
}

/// Returns a Response with one binding: 1.3 with the value that `value` encodes.
fn with_value(rt: &impl Abort, alloc: Global, value: &[u8]) -> Result<Vec<u8>, AllocError> {
    assert!(rt; value.len() < 64);
    let len = value.len() as u8;
    join_pieces(
        alloc,
        &[
            &[0x30, len + 29, 0x02, 0x01, 0x01, 0x04, 0x06],
            b"public",
            &[0xA2, len + 16, 0x02, 0x01, 0x01, 0x02, 0x01, 0x00],
            &[0x02, 0x01, 0x00, 0x30, len + 5, 0x30, len + 3],
            &[0x06, 0x01, 0x2B],
            value,
        ],
    )
}

/// Returns whether `datagram` encodes a message with one binding: 1.3 with this value.
fn is_value(datagram: &[u8], value: &ValueRef<'_>) -> bool {
    match decode(datagram) {
        Ok(message) => has_one(&message, &[1, 3], value),
        Err(_) => false,
    }
}

/// Asserts that `datagram` is read as [`is_value`] says.
fn assert_value(rt: &impl Abort, datagram: &[u8], value: &ValueRef<'_>) {
    assert!(rt; is_value(datagram, value), "{datagram:?}");
}

/// Asserts for each row that its octets, as the value of a binding, are read as its value.
fn assert_values(
    rt: &impl Abort,
    alloc: Global,
    rows: &[(&[u8], ValueRef<'_>)],
) -> Result<(), AllocError> {
    for (octets, value) in rows {
        assert_value(rt, &with_value(rt, alloc, octets)?, value);
    }
    Ok(())
}

/// Asserts that a Response is refused with the error `Content` if the value of its one binding is
/// any of these.
fn assert_bad_contents(rt: &impl Abort, alloc: Global, rows: &[&[u8]]) -> Result<(), AllocError> {
    for octets in rows {
        let datagram = with_value(rt, alloc, octets)?;
        assert_refused(rt, &datagram, BerError::Content);
    }
    Ok(())
}

/// Asserts that `datagram` encodes the message of `REQUEST`.
fn assert_request(rt: &impl Abort, datagram: &[u8]) {
    assert!(rt; is_request(datagram), "{datagram:?}");
}

#[test]
fn a_request_is_read(rt: HostRuntime) {
    assert_request(&rt, &REQUEST);
}

/// Returns whether `datagram` encodes a Response with one binding: sysName.0 with the string `wes`.
fn is_response(datagram: &[u8]) -> bool {
    match decode(datagram) {
        Ok(message) => {
            message.kind() == Kind::Response && has_one(&message, &NAME, &ValueRef::Octets(b"wes"))
        }
        Err(_) => false,
    }
}

#[test]
fn a_response_is_read(rt: HostRuntime) {
    assert!(rt; is_response(&RESPONSE));
}

#[test]
fn longer_forms_of_a_length_are_read(rt: HostRuntime) -> Result<(), Fail> {
    let alloc = rt.alloc();
    let forms = [
        [0x30, 0x81, 0x26].as_slice(),
        [0x30, 0x82, 0x00, 0x26].as_slice(),
        [0x30, 0x83, 0x00, 0x00, 0x26].as_slice(),
        [0x30, 0x84, 0x00, 0x00, 0x00, 0x26].as_slice(),
    ];
    for form in forms {
        assert_request(&rt, &join_pieces(alloc, &[form, &REQUEST[2..]])?);
    }
    let inner = [0x30, 0x2A, 0x02, 0x84, 0x00, 0x00, 0x00, 0x01];
    assert_request(&rt, &join_pieces(alloc, &[&inner, &REQUEST[4..]])?);
    Ok(())
}

#[test]
fn a_version_of_two_octets_is_read(rt: HostRuntime) -> Result<(), Fail> {
    let wide = [0x30, 0x27, 0x02, 0x02, 0x00, 0x01];
    assert_request(&rt, &join_pieces(rt.alloc(), &[&wide, &REQUEST[5..]])?);
    Ok(())
}

/// Returns whether `datagram` encodes a message of this version.
fn has_version(datagram: &[u8], version: i32) -> bool {
    match decode(datagram) {
        Ok(message) => message.version() == version,
        Err(_) => false,
    }
}

#[test]
fn another_version_is_read(rt: HostRuntime) {
    let mut datagram = REQUEST;
    datagram[4] = 0x00;
    assert!(rt; has_version(&datagram, 0));
}

#[test]
fn each_prefix_is_truncated(rt: HostRuntime) {
    for end in 0..REQUEST.len() {
        assert_refused(&rt, &REQUEST[..end], BerError::Truncated);
    }
}

#[test]
fn trailing_octets_and_bad_content_are_refused(rt: HostRuntime) -> Result<(), Fail> {
    let longer = join_pieces(rt.alloc(), &[&REQUEST, &[0x00]])?;
    assert_refused(&rt, &longer, BerError::Trailing);
    assert_bad_contents(&rt, rt.alloc(), &[&[0x05, 0x00, 0x00]])?;
    Ok(())
}

/// Offsets in the request, each with an octet that replaces the one there, and the error that this
/// causes. The errors are a forbidden form of a length, a length that reaches past the enclosing
/// element, a wrong tag, a wrong content, and an octet left over.
const CHANGES: &[(usize, u8, BerError)] = &[
    (1, 0x80, BerError::Length),
    (1, 0x85, BerError::Length),
    (3, 0x80, BerError::Length),
    (14, 0x1A, BerError::Length),
    (39, 0x01, BerError::Length),
    (0, 0x31, BerError::Tag),
    (13, 0xA4, BerError::Tag),
    (38, 0x45, BerError::Tag),
    (3, 0x00, BerError::Content),
    (30, 0x80, BerError::Content),
    (14, 0x18, BerError::Content),
];

/// Asserts that the request with `octet` at offset `at` is refused with `error`.
fn assert_refused_with(rt: &impl Abort, at: usize, octet: u8, error: BerError) {
    let mut datagram = REQUEST;
    if let Some(target) = datagram.get_mut(at) {
        *target = octet;
    }
    assert!(rt; decode(&datagram).err() == Some(error), "octet {at}");
}

#[test]
fn each_kind_of_fault_has_its_error(rt: HostRuntime) {
    for (at, octet, error) in CHANGES {
        assert_refused_with(&rt, *at, *octet, *error);
    }
}

/// Reads a message with all of its bindings. Returns whether `datagram` encodes one.
fn is_read(datagram: &[u8]) -> bool {
    match decode(datagram) {
        Ok(message) => {
            for _ in message.bindings() {}
            true
        }
        Err(_) => false,
    }
}

/// Each octet of the request is replaced by each value. Of the 10,240 datagrams, as many encode a
/// message as an independent decoder found.
#[test]
fn of_10240_changed_requests_4507_are_read(rt: HostRuntime) {
    let mut right = 0u32;
    for at in 0..REQUEST.len() {
        for octet in 0..=255u8 {
            let mut datagram = REQUEST;
            datagram[at] = octet;
            if is_read(&datagram) {
                right = right.saturating_add(1);
            }
        }
    }
    assert!(rt; right == 4507, "{right}");
}

/// An integer whose content has five octets, and one whose content is empty.
const BAD_INTEGERS: &[&[u8]] = &[&[0x02, 0x05, 0x00, 0x00, 0x00, 0x00, 0x05], &[0x02, 0x00]];

#[test]
fn integers_are_read_in_shortest_and_longer_forms(rt: HostRuntime) -> Result<(), Fail> {
    // Integers in their shortest form and in longer ones.
    let rows = [
        (
            [0x02, 0x04, 0x00, 0x00, 0x00, 0x05].as_slice(),
            ValueRef::Integer(5),
        ),
        (&[0x02, 0x02, 0xFF, 0x7F], ValueRef::Integer(-129)),
        (&[0x02, 0x03, 0xFF, 0xFF, 0x7F], ValueRef::Integer(-129)),
        (&[0x02, 0x01, 0x80], ValueRef::Integer(-128)),
        (
            &[0x02, 0x04, 0x80, 0x00, 0x00, 0x00],
            ValueRef::Integer(-2147483648),
        ),
    ];
    assert_values(&rt, rt.alloc(), &rows)?;
    assert_bad_contents(&rt, rt.alloc(), BAD_INTEGERS)?;
    Ok(())
}

/// A Gauge32 of 2^32 and a Counter64 of 2^64, one more than they can have.
const TOO_LARGE: &[&[u8]] = &[
    &[0x42, 0x05, 0x01, 0x00, 0x00, 0x00, 0x00],
    &[
        0x46, 0x09, 0x01, 0x00, 0x00, 0x00, 0x00, 0x00, 0x00, 0x00, 0x00,
    ],
];

#[test]
fn unsigned_numbers_are_read_up_to_their_limits(rt: HostRuntime) -> Result<(), Fail> {
    // Numbers with and without a leading zero octet.
    let rows = [
        ([0x41, 0x01, 0xC8].as_slice(), ValueRef::Counter32(200)),
        (&[0x41, 0x02, 0x00, 0xC8], ValueRef::Counter32(200)),
        (
            &[0x42, 0x04, 0xFF, 0xFF, 0xFF, 0xFF],
            ValueRef::Gauge32(4294967295),
        ),
        (
            &[0x42, 0x05, 0x00, 0xFF, 0xFF, 0xFF, 0xFF],
            ValueRef::Gauge32(4294967295),
        ),
        (&[0x43, 0x01, 0x07], ValueRef::TimeTicks(7)),
        (
            &[
                0x46, 0x09, 0x00, 0xFF, 0xFF, 0xFF, 0xFF, 0xFF, 0xFF, 0xFF, 0xFF,
            ],
            ValueRef::Counter64(18446744073709551615),
        ),
        (
            &[0x46, 0x08, 0xFF, 0xFF, 0xFF, 0xFF, 0xFF, 0xFF, 0xFF, 0xFF],
            ValueRef::Counter64(18446744073709551615),
        ),
    ];
    assert_values(&rt, rt.alloc(), &rows)?;
    assert_bad_contents(&rt, rt.alloc(), TOO_LARGE)?;
    Ok(())
}

/// An IpAddress of three octets, and a NULL that isn't empty.
const BAD_VALUES: &[&[u8]] = &[&[0x40, 0x03, 192, 0, 2], &[0x05, 0x01, 0x00]];

#[test]
fn other_values_are_read(rt: HostRuntime) -> Result<(), Fail> {
    let alloc = rt.alloc();
    // Strings, addresses and exceptions.
    let rows = [
        ([0x04, 0x00].as_slice(), ValueRef::Octets(&[])),
        (&[0x44, 0x02, 0x9F, 0x78], ValueRef::Opaque(&[0x9F, 0x78])),
        (
            &[0x40, 0x04, 192, 0, 2, 1],
            ValueRef::IpAddress([192, 0, 2, 1]),
        ),
        (&[0x80, 0x00], ValueRef::NoSuchObject),
        (&[0x81, 0x00], ValueRef::NoSuchInstance),
        (&[0x82, 0x00], ValueRef::EndOfMibView),
    ];
    assert_values(&rt, alloc, &rows)?;
    assert_bad_contents(&rt, alloc, BAD_VALUES)?;
    let unknown = with_value(&rt, alloc, &[0x83, 0x00])?;
    assert_refused(&rt, &unknown, BerError::Tag);
    Ok(())
}

/// Encoded identifiers, and their numbers.
const IDENTIFIERS: &[(&[u8], &[u32])] = &[
    (
        &[0x06, 0x05, 0x90, 0x80, 0x80, 0x80, 0x4F],
        &[2, 4294967295],
    ),
    (
        &[0x06, 0x06, 0x90, 0x80, 0x80, 0x80, 0x4F, 0x00],
        &[2, 4294967295, 0],
    ),
    (&[0x06, 0x01, 0x4F], &[1, 39]),
    (&[0x06, 0x01, 0x50], &[2, 0]),
    (
        &[0x06, 0x06, 0x2B, 0x8F, 0xFF, 0xFF, 0xFF, 0x7F],
        &[1, 3, 4294967295],
    ),
];

/// Malformed identifiers: with 4294967296 as the second number; with 4294967296 as the third; with
/// an unfinished number; with a number that begins with the octet 0x80, a leading zero; without
/// content.
const BAD_IDENTIFIERS: &[&[u8]] = &[
    &[0x06, 0x05, 0x90, 0x80, 0x80, 0x80, 0x50],
    &[0x06, 0x06, 0x2B, 0x90, 0x80, 0x80, 0x80, 0x00],
    &[0x06, 0x02, 0x2B, 0x80],
    &[0x06, 0x03, 0x2B, 0x80, 0x01],
    &[0x06, 0x00],
];

/// Asserts that `octets` are read as the identifier with these numbers.
fn assert_identifier(
    rt: &impl Abort,
    alloc: Global,
    octets: &[u8],
    numbers: &[u32],
) -> Result<(), Fail> {
    let value = ValueRef::ObjectId(Oid::from_slice(numbers)?);
    assert_values(rt, alloc, &[(octets, value)])?;
    Ok(())
}

#[test]
fn identifiers_are_read(rt: HostRuntime) -> Result<(), Fail> {
    for (octets, numbers) in IDENTIFIERS {
        assert_identifier(&rt, rt.alloc(), octets, numbers)?;
    }
    assert_bad_contents(&rt, rt.alloc(), BAD_IDENTIFIERS)?;
    Ok(())
}

/// Returns a tag and a length that is encoded in the two octets after 0x82.
fn long_header(tag: u8, len: u16) -> [u8; 4] {
    let [high, low] = len.to_be_bytes();
    [tag, 0x82, high, low]
}

/// Returns a request of the name 1.3.6 followed by `more` times 4294967295.
fn long_name(alloc: Global, more: u8) -> Result<Vec<u8>, AllocError> {
    let len = 2 + 5 * u16::from(more);
    let mut datagram = join_pieces(
        alloc,
        &[
            &long_header(0x30, len + 38),
            &REQUEST[2..13],
            &long_header(0xA0, len + 23),
            &REQUEST[15..24],
            &long_header(0x30, len + 10),
            &long_header(0x30, len + 6),
            &long_header(0x06, len),
            &[0x2B, 0x06],
        ],
    )?;
    for _ in 0..more {
        datagram.extend_from_slice(&[0x8F, 0xFF, 0xFF, 0xFF, 0x7F])?;
    }
    datagram.extend_from_slice(&[0x05, 0x00])?;
    Ok(datagram)
}

/// Returns whether `datagram` encodes a message whose first binding has a name of 128 numbers, the
/// last of them 4294967295.
fn has_longest_name(datagram: &[u8]) -> bool {
    match first_of(datagram) {
        Some(binding) => {
            let name = binding.name.as_slice();
            name.len() == 128 && name.last() == Some(&4294967295)
        }
        None => false,
    }
}

/// Asserts [`has_longest_name`].
fn assert_longest_name(rt: &impl Abort, datagram: &[u8]) {
    assert!(rt; has_longest_name(datagram));
}

#[test]
fn names_of_at_most_128_numbers_are_read(rt: HostRuntime) -> Result<(), Fail> {
    let longest = long_name(rt.alloc(), 125)?;
    assert_longest_name(&rt, &longest);
    let longer = long_name(rt.alloc(), 126)?;
    assert_refused(&rt, &longer, BerError::Content);
    Ok(())
}

/// Returns the first binding of the message that `datagram` encodes, if there is one.
fn first_of(datagram: &[u8]) -> Option<Binding<'_>> {
    decode(datagram).ok()?.bindings().next()
}

/// Returns a Response with a string that makes it as long as a datagram can be.
fn longest_response(alloc: Global) -> Result<Vec<u8>, AllocError> {
    join_pieces(
        alloc,
        &[
            &[0x30, 0x82, 0xFF, 0xDF],
            &REQUEST[2..13],
            &[0xA2, 0x82, 0xFF, 0xD0],
            &REQUEST[15..24],
            &[0x30, 0x82, 0xFF, 0xC3, 0x30, 0x82, 0xFF, 0xBF],
            &[0x06, 0x01, 0x2B, 0x04, 0x82, 0xFF, 0xB8],
            &[b'x'; 65464],
        ],
    )
}

/// Returns whether `datagram` encodes a message whose first binding has a string of `length`
/// octets.
fn has_string(datagram: &[u8], length: usize) -> bool {
    match first_of(datagram) {
        Some(binding) => match binding.value {
            ValueRef::Octets(octets) => octets.len() == length,
            _ => false,
        },
        None => false,
    }
}

/// Asserts that the datagram has the greatest length, and that its string is read.
fn assert_longest(rt: &impl Abort, datagram: &[u8]) {
    assert!(rt; datagram.len() == 65507 && has_string(datagram, 65464));
}

#[test]
fn the_longest_datagram_is_read(rt: HostRuntime) -> Result<(), Fail> {
    assert_longest(&rt, &longest_response(rt.alloc())?);
    Ok(())
}

/// Returns whether an owned value is the string `wes`.
fn is_wes(value: &Value) -> bool {
    match value {
        Value::Octets(octets) => octets.as_slice() == b"wes".as_slice(),
        _ => false,
    }
}

/// Asserts [`is_wes`].
fn assert_wes(rt: &impl Abort, value: &Value) {
    assert!(rt; is_wes(value));
}

#[test]
fn a_string_is_copied_into_an_owned_value(rt: HostRuntime) -> Result<(), Fail> {
    let value = Value::from_ref(rt.alloc(), &ValueRef::Octets(b"wes"))?;
    assert_wes(&rt, &value);
    Ok(())
}

#[test]
fn a_string_returns_its_octets(rt: HostRuntime) -> Result<(), Fail> {
    let string = OctetString::from_slice(rt.alloc(), b"wes")?;
    assert!(rt; string.into_vec().as_slice() == b"wes".as_slice());
    Ok(())
}

/// A Response of four bindings: 1.3.6.1.2 with Counter32 200, 1.3 with Counter32 256, 1.3.1000 with
/// the string `x`, and 1.3 with Null.
const FOUR_BINDINGS: [u8; 64] = [
    0x30, 0x3E, 0x02, 0x01, 0x01, 0x04, 0x06, 0x70, 0x75, 0x62, 0x6C, 0x69, 0x63, 0xA2, 0x31, 0x02,
    0x01, 0x01, 0x02, 0x01, 0x00, 0x02, 0x01, 0x00, 0x30, 0x26, 0x30, 0x0A, 0x06, 0x04, 0x2B, 0x06,
    0x01, 0x02, 0x41, 0x02, 0x00, 0xC8, 0x30, 0x07, 0x06, 0x01, 0x2B, 0x41, 0x02, 0x01, 0x00, 0x30,
    0x08, 0x06, 0x03, 0x2B, 0x87, 0x68, 0x04, 0x01, 0x78, 0x30, 0x05, 0x06, 0x01, 0x2B, 0x05, 0x00,
];

/// Reads the next binding of `read` into `binding`. If it has this name and value, takes the next
/// binding of `iterated` too. Returns whether both have this name and value.
fn are_next<'a>(
    iterated: &mut Bindings<'a>,
    read: &mut Bindings<'a>,
    binding: &mut Binding<'a>,
    name: &[u32],
    value: &ValueRef<'_>,
) -> bool {
    read.read_next(binding)
        && is_binding(binding, name, value)
        && iterated.next().as_ref() == Some(&*binding)
}

/// Returns whether `iterated` and `read` have no binding left, and `binding` is still the last one:
/// 1.3 with Null.
fn are_read<'a>(
    iterated: &mut Bindings<'a>,
    read: &mut Bindings<'a>,
    binding: &mut Binding<'a>,
) -> bool {
    !read.read_next(binding)
        && is_binding(binding, &[1, 3], &ValueRef::Null)
        && iterated.next().is_none()
}

/// Reads the bindings of the message twice: as an iterator, and into `binding`. Asserts that both
/// ways yield the expected names and values, and that `binding` stays as it was when none is left.
fn assert_read_into_existing<'a>(
    rt: &impl Abort,
    message: &MessageRef<'a>,
    binding: &mut Binding<'a>,
    expected: &[(&[u32], ValueRef<'_>)],
) {
    let mut iterated = message.bindings();
    let mut read = message.bindings();
    let mut all = true;
    for (name, value) in expected {
        all = are_next(&mut iterated, &mut read, binding, name, value) && all;
    }
    assert!(rt; all && are_read(&mut iterated, &mut read, binding));
}

#[test]
fn bindings_are_read_into_an_existing_one(rt: HostRuntime) -> Result<(), Fail> {
    let mut binding = Binding {
        name: Oid::from_slice(&[9, 9, 9, 9, 9, 9])?,
        value: ValueRef::EndOfMibView,
    };
    let expected = [
        ([1, 3, 6, 1, 2].as_slice(), ValueRef::Counter32(200)),
        (&[1, 3], ValueRef::Counter32(256)),
        (&[1, 3, 1000], ValueRef::Octets(b"x")),
        (&[1, 3], ValueRef::Null),
    ];
    let Ok(message) = decode(&FOUR_BINDINGS) else {
        panic!(rt; "expected a message in FOUR_BINDINGS")
    };
    assert_read_into_existing(&rt, &message, &mut binding, &expected);
    Ok(())
}
