//! Walks and Gets over an agent in memory that doesn't always reply as `snmp_agent` does, but in
//! other ways that are allowed.
ghost use Rattle.snmp_walk.specs.Facts.{IsFresh};

use crate::runs::{ROOT, get_ends, names_of, public, table_of, walk_of};
use crate::sinks::Digits;
use snmp_agent::Table;
use snmp_walk::{Link, LinkFault, LooseLink, Method, Mode, WalkCore, WalkEnd, Way, walk_loose};
use snmp_wire::Oid;
use std::alloc::Global;
use std::process::Abort;

/// Nine rows, whose values are their numbers from 1.
const NINE: &[u8] = b"1.3.6.1.4.1.32473.1.1|2|1\n1.3.6.1.4.1.32473.1.2|2|2\n\
1.3.6.1.4.1.32473.1.3|2|3\n1.3.6.1.4.1.32473.1.4|2|4\n1.3.6.1.4.1.32473.1.5|2|5\n\
1.3.6.1.4.1.32473.1.6|2|6\n1.3.6.1.4.1.32473.1.7|2|7\n1.3.6.1.4.1.32473.1.8|2|8\n\
1.3.6.1.4.1.32473.1.9|2|9\n";

/// A walk: its mode and method, the ways in which the agent replies, and its retries.
#[derive(Clone, Copy)]
struct Case<'a> {
    mode: Mode,
    method: Method,
    ways: &'a [Way],
    retries: u32,
}

impl<'a> Case<'a> {
    /// Returns the case of a plain walk without retries.
    fn new(method: Method, ways: &'a [Way]) -> Case<'a> {
        Case {
            mode: Mode::Plain,
            method,
            ways,
            retries: 0,
        }
    }
}

/// Returns whether the walk ends with `end`, and `Digits` makes `number` of its bindings.
fn walk_returns(
    table: &Table,
    core: WalkCore,
    max_size: usize,
    case: Case<'_>,
    number: u64,
    end: &WalkEnd,
) -> bool
    requires { IsFresh core }
{
    let mut link = LooseLink::new(table, public(max_size), case.ways);
    let mut digits = Digits::new();
    walk_loose(&mut link, core, case.retries, &mut digits) == *end && digits.number == number
}

/// Asserts that the walk below `ROOT` over the table of `text` ends with `end`, and `Digits` makes
/// `number` of its bindings.
fn assert_walk(
    rt: &impl Abort,
    alloc: Global,
    text: &[u8],
    max_size: usize,
    case: Case<'_>,
    number: u64,
    end: &WalkEnd,
) {
    let table = table_of(rt, alloc, text);
    let core = walk_of(rt, ROOT, case.mode, case.method, 1);
    assert!(rt; walk_returns(&table, core, max_size, case, number, end));
}

/// Asserts that the walk over the nine rows ends with `end`, and `Digits` makes `number` of its
/// bindings.
fn assert_nine(rt: &impl Abort, alloc: Global, case: Case<'_>, number: u64, end: &WalkEnd) {
    assert_walk(rt, alloc, NINE, 1472, case, number, end);
}

/// Asserts that the walk over the nine rows by this method returns each row once, if the agent
/// replies in these ways.
fn assert_all(rt: &impl Abort, alloc: Global, method: Method, ways: &[Way]) {
    let case = Case::new(method, ways);
    assert_nine(rt, alloc, case, 123456789, &WalkEnd::Done(9));
}

#[test]
fn after_the_last_way_the_agent_sends_full_replies(rt: HostRuntime) {
    assert_all(&rt, rt.alloc(), Method::Next, &[]);
    assert_all(&rt, rt.alloc(), Method::Bulk(4), &[]);
    assert_all(&rt, rt.alloc(), Method::Bulk(4), &[Way::Whole, Way::Whole]);
}

#[test]
fn an_error_ends_a_walk_after_the_rows_before_it(rt: HostRuntime) {
    const FIRST: &[Way] = &[Way::GenErr];
    const THIRD: &[Way] = &[Way::Whole, Way::Whole, Way::GenErr];
    let fault = WalkEnd::Fault(5, 1);
    assert_nine(&rt, rt.alloc(), Case::new(Method::Next, FIRST), 0, &fault);
    assert_nine(&rt, rt.alloc(), Case::new(Method::Next, THIRD), 12, &fault);
    assert_nine(
        &rt,
        rt.alloc(),
        Case::new(Method::Bulk(4), FIRST),
        0,
        &fault,
    );
    assert_nine(
        &rt,
        rt.alloc(),
        Case::new(Method::Bulk(4), THIRD),
        12345678,
        &fault,
    );
}

#[test]
fn no_retry_follows_an_error(rt: HostRuntime) {
    const ONCE: &[Way] = &[Way::GenErr];
    let case = Case {
        retries: 3,
        ..Case::new(Method::Bulk(4), ONCE)
    };
    assert_nine(&rt, rt.alloc(), case, 0, &WalkEnd::Fault(5, 1));
}

#[test]
fn an_error_in_place_of_the_roots_own_row_ends_a_walk(rt: HostRuntime) {
    let case = Case {
        mode: Mode::Include,
        ..Case::new(Method::Next, &[Way::GenErr])
    };
    assert_nine(&rt, rt.alloc(), case, 0, &WalkEnd::Fault(5, 1));
    // Nothing is below the root, so the last request is a Get of it.
    let last = Case::new(Method::Next, &[Way::Whole, Way::GenErr]);
    assert_walk(&rt, rt.alloc(), b"", 1472, last, 0, &WalkEnd::Fault(5, 1));
}

#[test]
fn fewer_repetitions_return_each_row_once(rt: HostRuntime) {
    const FEWER: &[Way] = &[
        Way::Fewer(1),
        Way::Fewer(3),
        Way::Fewer(0),
        Way::Fewer(2),
        Way::Fewer(65535),
    ];
    assert_all(&rt, rt.alloc(), Method::Bulk(4), FEWER);
    assert_all(&rt, rt.alloc(), Method::Bulk(2147483647), FEWER);
    assert_all(&rt, rt.alloc(), Method::Bulk(1), FEWER);
    assert_all(&rt, rt.alloc(), Method::Next, FEWER);
}

#[test]
fn a_longer_encoding_is_read(rt: HostRuntime) {
    const LONG: &[Way] = &[Way::LongLength, Way::LongLength, Way::LongLength];
    assert_all(&rt, rt.alloc(), Method::Next, LONG);
    // The first reply has more than 127 octets, so its length takes two octets in the shortest
    // encoding.
    assert_all(&rt, rt.alloc(), Method::Bulk(8), LONG);
    let case = Case {
        mode: Mode::Include,
        ..Case::new(Method::Bulk(4), LONG)
    };
    assert_nine(&rt, rt.alloc(), case, 123456789, &WalkEnd::Done(9));
}

#[test]
fn several_ways_in_one_walk_return_the_rows_before_the_error(rt: HostRuntime) {
    const WAYS: &[Way] = &[
        Way::Fewer(2),
        Way::LongLength,
        Way::Fewer(1),
        Way::GenErr,
        Way::Whole,
    ];
    let case = Case {
        retries: 1,
        ..Case::new(Method::Bulk(3), WAYS)
    };
    assert_nine(&rt, rt.alloc(), case, 123456, &WalkEnd::Fault(5, 1));
}

#[test]
fn a_way_whose_reply_does_not_fit_is_the_full_reply(rt: HostRuntime) {
    const WAYS: &[Way] = &[Way::GenErr, Way::LongLength];
    // The reply to the first GetNext has 43 octets, and the one with genErr 41.
    let case = Case::new(Method::Next, &[Way::LongLength]);
    assert_walk(
        &rt,
        rt.alloc(),
        NINE,
        46,
        case,
        123456789,
        &WalkEnd::Done(9),
    );
    let fault = WalkEnd::Fault(1, 0);
    assert_walk(
        &rt,
        rt.alloc(),
        NINE,
        40,
        Case::new(Method::Next, WAYS),
        0,
        &fault,
    );
}

/// Returns whether the Get of these names returns `rows` bindings and ends with `end`, if the agent
/// replies in this way.
fn get_returns(table: &Table, names: &[Oid], way: Way, rows: usize, end: &WalkEnd) -> bool {
    let ways = [way];
    let mut link = LooseLink::new(table, public(1472), &ways);
    let mut digits = Digits::new();
    get_ends(&mut link, names, 1, 0, &mut digits, end) && digits.rows == rows
}

/// Asserts that the Get of these names returns `rows` bindings and ends with `end`, if the agent
/// replies in this way.
fn assert_get(rt: &impl Abort, alloc: Global, names: &[Oid], way: Way, rows: usize, end: &WalkEnd) {
    let table = table_of(rt, alloc, NINE);
    assert!(rt; get_returns(&table, names, way, rows, end));
}

#[test]
fn a_get_of_one_name_gets_an_error_and_one_of_two_its_bindings(rt: HostRuntime) {
    let texts: [&[u8]; 2] = [b"1.3.6.1.4.1.32473.1.1", b"1.3.6.1.4.1.32473.1.2"];
    let names = names_of(&rt, rt.alloc(), &texts);
    let one = names.get(..1).unwrap_or(&[]);
    assert_get(&rt, rt.alloc(), one, Way::GenErr, 0, &WalkEnd::Fault(5, 1));
    assert_get(&rt, rt.alloc(), one, Way::Fewer(1), 1, &WalkEnd::Done(1));
    assert_get(&rt, rt.alloc(), one, Way::LongLength, 1, &WalkEnd::Done(1));
    assert_get(&rt, rt.alloc(), &names, Way::GenErr, 2, &WalkEnd::Done(2));
    assert_get(
        &rt,
        rt.alloc(),
        &names,
        Way::LongLength,
        2,
        &WalkEnd::Done(2),
    );
}

/// The GetRequest of 1.3.6.1.4.1.32473.1.1, with community `public` and id 1.
const GET: [u8; 42] = [
    0x30, 0x28, 0x02, 0x01, 0x01, 0x04, 0x06, 0x70, 0x75, 0x62, 0x6C, 0x69, 0x63, 0xA0, 0x1B, 0x02,
    0x01, 0x01, 0x02, 0x01, 0x00, 0x02, 0x01, 0x00, 0x30, 0x10, 0x30, 0x0E, 0x06, 0x0A, 0x2B, 0x06,
    0x01, 0x04, 0x01, 0x81, 0xFD, 0x59, 0x01, 0x01, 0x05, 0x00,
];

/// The Response to `GET`, with the integer 1.
const GOT: [u8; 43] = [
    0x30, 0x29, 0x02, 0x01, 0x01, 0x04, 0x06, 0x70, 0x75, 0x62, 0x6C, 0x69, 0x63, 0xA2, 0x1C, 0x02,
    0x01, 0x01, 0x02, 0x01, 0x00, 0x02, 0x01, 0x00, 0x30, 0x11, 0x30, 0x0F, 0x06, 0x0A, 0x2B, 0x06,
    0x01, 0x04, 0x01, 0x81, 0xFD, 0x59, 0x01, 0x01, 0x02, 0x01, 0x01,
];

/// The Response to `GET` with genErr, at the first binding.
const FAILED: [u8; 42] = [
    0x30, 0x28, 0x02, 0x01, 0x01, 0x04, 0x06, 0x70, 0x75, 0x62, 0x6C, 0x69, 0x63, 0xA2, 0x1B, 0x02,
    0x01, 0x01, 0x02, 0x01, 0x05, 0x02, 0x01, 0x01, 0x30, 0x10, 0x30, 0x0E, 0x06, 0x0A, 0x2B, 0x06,
    0x01, 0x04, 0x01, 0x81, 0xFD, 0x59, 0x01, 0x01, 0x05, 0x00,
];

/// The Response to `GET` with the integer 1. The outermost length is encoded in five octets.
const LONG: [u8; 47] = [
    0x30, 0x84, 0x00, 0x00, 0x00, 0x29, 0x02, 0x01, 0x01, 0x04, 0x06, 0x70, 0x75, 0x62, 0x6C, 0x69,
    0x63, 0xA2, 0x1C, 0x02, 0x01, 0x01, 0x02, 0x01, 0x00, 0x02, 0x01, 0x00, 0x30, 0x11, 0x30, 0x0F,
    0x06, 0x0A, 0x2B, 0x06, 0x01, 0x04, 0x01, 0x81, 0xFD, 0x59, 0x01, 0x01, 0x02, 0x01, 0x01,
];

/// Returns whether a receive into a buffer of 65507 octets returns `octets`.
fn receives(link: &mut LooseLink<'_>, octets: &[u8]) -> bool {
    let mut buffer = [0; 65507];
    link.receive(&mut buffer) == Ok(Some(octets.len())) && buffer.starts_with(octets)
}

/// Returns whether a receive into a buffer of 65507 octets returns nothing.
fn receives_nothing(link: &mut LooseLink<'_>) -> bool {
    let mut buffer = [0; 65507];
    link.receive(&mut buffer) == Ok(None)
}

#[test]
fn each_way_has_its_reply(rt: HostRuntime) {
    const WAYS: &[Way] = &[Way::Whole, Way::GenErr, Way::Fewer(1), Way::LongLength];
    let table = table_of(&rt, rt.alloc(), NINE);
    let mut link = LooseLink::new(&table, public(1472), WAYS);
    assert!(&rt; receives_nothing(&mut link));
    assert!(&rt; link.send(&GET).is_ok());
    assert!(&rt; receives(&mut link, &FAILED));
    assert!(&rt; receives(&mut link, &GOT));
    assert!(&rt; receives(&mut link, &LONG));
    assert!(&rt; receives(&mut link, &GOT));
}

#[test]
fn a_fault_leaves_the_datagram_and_the_ways_unchanged(rt: HostRuntime) {
    const WAYS: &[Way] = &[Way::GenErr];
    let table = table_of(&rt, rt.alloc(), NINE);
    let mut link = LooseLink::new(&table, public(1472), WAYS);
    let mut short = [0; 65506];
    assert!(&rt; link.send(&GET).is_ok());
    assert!(&rt; link.send(&[0; 1025]) == Err(LinkFault));
    assert!(&rt; link.receive(&mut short) == Err(LinkFault));
    assert!(&rt; link.faults() == 2);
    assert!(&rt; receives(&mut link, &FAILED));
}

#[test]
fn a_datagram_that_is_no_request_gets_no_reply(rt: HostRuntime) {
    let table = table_of(&rt, rt.alloc(), NINE);
    let mut link = LooseLink::new(&table, public(1472), &[]);
    assert!(&rt; link.send(&[0; 1024]).is_ok());
    assert!(&rt; receives_nothing(&mut link));
    assert!(&rt; link.send(&GOT).is_ok());
    assert!(&rt; receives_nothing(&mut link));
}
