//! GetBulkRequests and their replies, most of them worked out by hand.

use crate::agent::{assert_dropped, outcome};
use crate::table::table_of;
use snmp_agent::{DropReason, Outcome, Table};
use snmp_wire::{Binding, Bindings, ValueRef, decode};
use std::alloc::{AllocError, Global};
use std::process::Abort;

/// Six rows, whose values are their numbers from 1. The binding of one takes 18 octets.
const SIX: &[u8] =
    b"1.3.6.1.4.1.32473.1.1.0|2|1\n1.3.6.1.4.1.32473.1.2.0|2|2\n1.3.6.1.4.1.32473.1.3.0|2|3\n\
1.3.6.1.4.1.32473.1.4.0|2|4\n1.3.6.1.4.1.32473.1.5.0|2|5\n1.3.6.1.4.1.32473.1.6.0|2|6";

/// The GetBulk of 1.3.6.1.4.1.32473.1 with max-repetitions 10, community `public` and id 1.
const BULK: [u8; 41] = [
    0x30, 0x27, 0x02, 0x01, 0x01, 0x04, 0x06, 0x70, 0x75, 0x62, 0x6C, 0x69, 0x63, 0xA5, 0x1A, 0x02,
    0x01, 0x01, 0x02, 0x01, 0x00, 0x02, 0x01, 0x0A, 0x30, 0x0F, 0x30, 0x0D, 0x06, 0x09, 0x2B, 0x06,
    0x01, 0x04, 0x01, 0x81, 0xFD, 0x59, 0x01, 0x05, 0x00,
];

/// Returns whether `binding` is as `row` describes. Its name must have ten numbers, with the first
/// number of `row` as the ninth, and its value must be the second number. There -1 stands for
/// endOfMibView.
fn is_of_row(binding: &Binding<'_>, row: (u32, i32)) -> bool {
    let number = match binding.value {
        ValueRef::Integer(number) => number,
        ValueRef::EndOfMibView => -1,
        _ => -2,
    };
    let numbers = binding.name.as_slice();
    numbers.len() == 10 && numbers[8] == row.0 && number == row.1
}

/// Returns whether there is a next binding, and it is the one that `row` describes.
fn has_row(bindings: &mut Bindings<'_>, row: (u32, i32)) -> bool {
    match bindings.next() {
        Some(binding) => is_of_row(&binding, row),
        None => false,
    }
}

/// Returns whether the bindings are those that `rows` describes, in order, and there are no others.
fn have_rows(bindings: &mut Bindings<'_>, rows: &[(u32, i32)]) -> bool {
    let mut all = true;
    for row in rows {
        all = has_row(bindings, *row) && all;
    }
    all && bindings.next().is_none()
}

/// Returns whether `reply` is a message without an error, and its bindings are those that `rows`
/// describes.
fn is_reply_of(reply: &[u8], rows: &[(u32, i32)]) -> bool {
    match decode(reply) {
        Ok(message) => {
            message.a() == 0 && message.b() == 0 && have_rows(&mut message.bindings(), rows)
        }
        Err(_) => false,
    }
}

/// Returns whether the reply has `octets` octets and no error, and its bindings are those that
/// `rows` describes.
fn has_integers(
    table: &Table,
    max_size: usize,
    request: &[u8],
    octets: usize,
    rows: &[(u32, i32)],
) -> bool {
    let mut out = [0; 65507];
    match outcome(table, max_size, request, &mut out) {
        Outcome::Reply(size) => size == octets && is_reply_of(&out[..size.min(65507)], rows),
        Outcome::Dropped(_) => false,
    }
}

/// Asserts [`has_integers`].
fn assert_integers(
    rt: &impl Abort,
    table: &Table,
    max_size: usize,
    request: &[u8],
    octets: usize,
    rows: &[(u32, i32)],
) {
    assert!(rt;
        has_integers(table, max_size, request, octets, rows),
        "not {rows:?}"
    );
}

const ALL: &[(u32, i32)] = &[(1, 1), (2, 2), (3, 3), (4, 4), (5, 5), (6, 6), (6, -1)];

/// Asserts for each greatest size of a message how many octets the reply has, and how many
/// bindings.
fn assert_fits(rt: &impl Abort, table: &Table, cases: &[(usize, usize, usize)]) {
    for &(max_size, octets, rows) in cases {
        assert_integers(rt, table, max_size, &BULK, octets, &ALL[..rows.min(7)]);
    }
}

#[test]
fn a_reply_has_as_many_bindings_as_fit(rt: HostRuntime) {
    let table = table_of(&rt, rt.alloc(), SIX);
    assert_fits(&rt, &table, &[(134, 116, 5), (135, 135, 6), (1472, 153, 7)]);
}

#[test]
fn the_room_in_a_message_is_used_to_the_octet(rt: HostRuntime) {
    const CASES: &[(usize, usize, usize)] = &[
        (153, 153, 7),
        (152, 135, 6),
        (44, 44, 1),
        (43, 26, 0),
        (26, 26, 0),
    ];
    let table = table_of(&rt, rt.alloc(), SIX);
    assert_fits(&rt, &table, CASES);
    assert_dropped(&rt, &table, 25, &BULK, DropReason::TooLong);
}

/// The GetBulk of three names, 1.3.6.1.4.1.32473.1 twice and 1.3.6.1.4.1.32473.1.5.0. Its
/// non-repeaters and max-repetitions take four octets each.
const THREE: [u8; 79] = [
    0x30, 0x4D, 0x02, 0x01, 0x01, 0x04, 0x06, 0x70, 0x75, 0x62, 0x6C, 0x69, 0x63, 0xA5, 0x40, 0x02,
    0x01, 0x01, 0x02, 0x04, 0x00, 0x00, 0x00, 0x00, 0x02, 0x04, 0x00, 0x00, 0x00, 0x00, 0x30, 0x2F,
    0x30, 0x0D, 0x06, 0x09, 0x2B, 0x06, 0x01, 0x04, 0x01, 0x81, 0xFD, 0x59, 0x01, 0x05, 0x00, 0x30,
    0x0D, 0x06, 0x09, 0x2B, 0x06, 0x01, 0x04, 0x01, 0x81, 0xFD, 0x59, 0x01, 0x05, 0x00, 0x30, 0x0F,
    0x06, 0x0B, 0x2B, 0x06, 0x01, 0x04, 0x01, 0x81, 0xFD, 0x59, 0x01, 0x05, 0x00, 0x05, 0x00,
];

/// Asserts that the reply to the GetBulk of the three names, with these non-repeaters and
/// max-repetitions, has `octets` octets and the bindings that `rows` describes.
fn assert_three(
    rt: &impl Abort,
    table: &Table,
    non_repeaters: i32,
    repetitions: i32,
    octets: usize,
    rows: &[(u32, i32)],
) {
    let mut request = THREE;
    request[20..24].copy_from_slice(&non_repeaters.to_be_bytes());
    request[26..30].copy_from_slice(&repetitions.to_be_bytes());
    assert_integers(rt, table, 1472, &request, octets, rows);
}

/// The successors of the three names.
const FIRST: &[(u32, i32)] = &[(1, 1), (1, 1), (6, 6)];

#[test]
fn repeating_names_come_after_non_repeaters(rt: HostRuntime) {
    let table = table_of(&rt, rt.alloc(), SIX);
    let wanted = &[(1, 1), (1, 1), (6, 6), (2, 2), (6, -1)];
    assert_three(&rt, &table, 1, 2, 115, wanted);
}

const AT_MOST_ZERO: &[i32] = &[-5, -1, 0, i32::MIN];

const AT_LEAST_THREE: &[i32] = &[3, 9, i32::MAX];

/// Asserts that non-repeaters and max-repetitions below 0 count as 0, and more non-repeaters than
/// names as the number of names.
fn assert_bounds(rt: &impl Abort, table: &Table) {
    for few in AT_MOST_ZERO {
        assert_three(rt, table, *few, 1, 80, FIRST);
        assert_three(rt, table, 1, *few, 44, &FIRST[..1]);
        assert_three(rt, table, *few, *few, 26, &[]);
    }
    for many in AT_LEAST_THREE {
        assert_three(rt, table, *many, 1, 80, FIRST);
        assert_three(rt, table, *many, i32::MAX, 80, FIRST);
        assert_three(rt, table, *many, -1, 80, FIRST);
    }
}

#[test]
fn numbers_out_of_bounds_count_as_the_nearest_bound(rt: HostRuntime) {
    let table = table_of(&rt, rt.alloc(), SIX);
    assert_bounds(&rt, &table);
}

/// The successor of the first name, and all repetitions for the other two, up to the first that has
/// endOfMibView for both.
const ROUNDS: &[(u32, i32)] = &[
    (1, 1),
    (1, 1),
    (6, 6),
    (2, 2),
    (6, -1),
    (3, 3),
    (6, -1),
    (4, 4),
    (6, -1),
    (5, 5),
    (6, -1),
    (6, 6),
    (6, -1),
    (6, -1),
    (6, -1),
];

#[test]
fn a_round_of_only_end_of_mib_view_is_the_last(rt: HostRuntime) {
    let table = table_of(&rt, rt.alloc(), SIX);
    assert_three(&rt, &table, 1, i32::MAX, 295, ROUNDS);
    assert_three(&rt, &table, 1, 7, 295, ROUNDS);
}

/// Returns the encoding of a length in three octets.
fn long_length(length: u16) -> [u8; 3] {
    let [high, low] = length.to_be_bytes();
    [0x82, high, low]
}

/// Returns the GetBulk of the `count` names 1.3.6.128, 1.3.6.129 and so on, with max-repetitions 3.
/// Each binding takes ten octets.
fn bulk_of(alloc: Global, count: u16) -> Result<Vec<u8>, AllocError> {
    let mut octets = Vec::new(alloc);
    add_bulk(&mut octets, count)?;
    Ok(octets)
}

/// Appends the GetBulk of [`bulk_of`].
fn add_bulk(octets: &mut Vec<u8>, count: u16) -> Result<(), AllocError> {
    let size = count.wrapping_mul(10);
    octets.push(0x30)?;
    octets.extend_from_slice(&long_length(size.wrapping_add(28)))?;
    octets.extend_from_slice(b"\x02\x01\x01\x04\x06public\xA5")?;
    octets.extend_from_slice(&long_length(size.wrapping_add(13)))?;
    octets.extend_from_slice(b"\x02\x01\x01\x02\x01\x00\x02\x01\x03\x30")?;
    octets.extend_from_slice(&long_length(size))?;
    for i in 0..count {
        let [high, low] = i.wrapping_add(128).wrapping_mul(2).to_be_bytes();
        let binding = [
            0x30,
            0x08,
            0x06,
            0x04,
            0x2B,
            0x06,
            high | 0x80,
            low / 2,
            0x05,
            0x00,
        ];
        octets.extend_from_slice(&binding)?;
    }
    Ok(())
}

/// Returns the lines of a row for each number from 128 to `last`: its name is 1.3.6 and the number,
/// and its value is the number.
fn numbers_to(alloc: Global, last: u32) -> Result<String, AllocError> {
    let mut text = String::new(alloc);
    for number in 128..=last {
        write!(text, "1.3.6.{number}|65|{number}\n")?;
    }
    Ok(text)
}

/// Returns the table of [`numbers_to`].
pub(crate) fn table_to(rt: &impl Abort, alloc: Global, last: u32) -> Table {
    let text = numbers_to(alloc, last).expect(rt, "memory for rows");
    table_of(rt, alloc, text.as_bytes())
}

/// Returns whether `binding` has `number` as the last of its name's four numbers, and as its value.
/// If `number` is above `last`, it must have `last` and endOfMibView instead.
fn is_number(binding: &Binding<'_>, number: u32, last: u32) -> bool {
    let name = binding.name.as_slice();
    let is_expected = match binding.value {
        ValueRef::Counter32(held) => held == number && number <= last,
        ValueRef::EndOfMibView => number > last,
        _ => false,
    };
    name.len() == 4 && name[3] == number.min(last) && is_expected
}

/// Returns the number of bindings in the reply, if they are the repetitions for `count` names in
/// order, from the first on, and fewer than 10,000.
fn rounds_in(reply: &[u8], count: u32, last: u32) -> Option<u32> {
    let message = decode(reply).ok()?;
    let mut bindings = message.bindings();
    let mut binding = Binding::empty();
    let count = count.max(1);
    for i in 0..10000 {
        if !bindings.read_next(&mut binding) {
            return Some(i);
        }
        let number = (i % count).wrapping_add(i / count).wrapping_add(129);
        if !is_number(&binding, number, last) {
            return None;
        }
    }
    None
}

/// Returns the number of bindings in the reply to the GetBulk of `count` names, if they are its
/// repetitions from the first on. In the third one, the last name reaches the end of the MIB view.
fn rounds_of(rt: &impl Abort, alloc: Global, count: u16) -> Option<u32> {
    let request = bulk_of(alloc, count).ok()?;
    let last = u32::from(count).wrapping_add(129);
    let table = table_to(rt, alloc, last);
    let mut out = [0; 65507];
    match outcome(&table, 65507, &request, &mut out) {
        Outcome::Reply(size) => rounds_in(&out[..size.min(65507)], u32::from(count), last),
        Outcome::Dropped(_) => None,
    }
}

#[test]
fn the_rounds_of_many_names_are_in_order(rt: HostRuntime) {
    // For 4,000 names there is room for one repetition and a part of the next: a binding takes
    // 12 octets.
    const CASES: &[(u16, u32)] = &[(1, 3), (63, 189), (64, 192), (65, 195), (4000, 5456)];
    for &(count, bindings) in CASES {
        assert!(rt;
            rounds_of(&rt, rt.alloc(), count) == Some(bindings),
            "{count} names"
        );
    }
}
