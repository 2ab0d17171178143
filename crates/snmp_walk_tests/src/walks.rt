//! Walks whose messages arrive, and walks whose messages are lost, repeated or delayed.
ghost use Rattle.snmp_walk.specs.Facts.{IsFresh};

use crate::runs::{ROOT, name_of, public, put, resumed_walk, table_of, walk_ends, walk_of};
use crate::sinks::{Counted, Digits};
use snmp_agent::Table;
use snmp_walk::{MemoryLink, Method, Mode, StartError, WalkCore, WalkEnd};
use std::alloc::Global;
use std::process::Abort;

/// Six rows, whose values are their numbers from 1. The binding of one takes 18 octets.
const SIX: &[u8] = b"1.3.6.1.4.1.32473.1.1.0|2|1\n\
    1.3.6.1.4.1.32473.1.2.0|2|2\n\
    1.3.6.1.4.1.32473.1.3.0|2|3\n\
    1.3.6.1.4.1.32473.1.4.0|2|4\n\
    1.3.6.1.4.1.32473.1.5.0|2|5\n\
    1.3.6.1.4.1.32473.1.6.0|2|6";

/// Three rows that aren't in the order of their names.
const THREE: &[u8] =
    b"1.3.6.1.4.1.32473.1.10.0|2|3\n1.3.6.1.4.1.32473.1.2.0|2|2\n1.3.6.1.4.1.32473.1.1.0|2|1\n";

/// A small row below the root, and after it one that is too large for a message of 134 octets.
const TOO_LARGE: &[u8] = b"1.3.6.1.4.1.32473.1.0|2|1\n\
    1.3.6.1.4.1.32473.1.1|4|aaaaaaaaaaaaaaaaaaaaaaaaaaaaaaaaaaaaaaaaaaaaaaaaaaaaaaaaaaaa\
    aaaaaaaaaaaaaaaaaaaaaaaaaaaaaaaaaaaaaaaaaaaaaaaaaaaaaaaaaaaaaaaaaaaaaaaaaaaaaaaaaaaaaaaaaa\
    aaaaaaaaaaaaaaaaaaaaaaaaaaaaaaaaaaaaaaaaaaaaaaaaaaaaaaaaaa\n";

/// A walk: its table, root and method, the greatest message size of its agent, its retries, and the
/// deliveries of its link.
#[derive(Clone, Copy)]
struct Case<'a> {
    table: &'a [u8],
    root: &'a [u8],
    method: Method,
    max_size: usize,
    retries: u32,
    deliveries: &'a [Option<usize>],
}

/// What a walk is expected to do: the number that `Digits` makes of its bindings, and how many
/// datagrams and how many requests it sends.
#[derive(Clone, Copy)]
struct Expected {
    number: u64,
    sends: usize,
    requests: usize,
}

/// Returns whether the walk of a case does what is expected, and ends with `end`.
fn does_as_expected(
    alloc: Global,
    table: &Table,
    core: WalkCore,
    case: Case<'_>,
    expected: Expected,
    end: &WalkEnd,
) -> bool
    requires { IsFresh core }
{
    let agent = public(case.max_size);
    let mut link = Counted::new(MemoryLink::new(alloc, table, agent, case.deliveries));
    let mut digits = Digits::new();
    walk_ends(&mut link, core, case.retries, &mut digits, end)
        && digits.number == expected.number
        && link.sends == expected.sends
        && link.requests == expected.requests
}

/// Asserts that the walk of a case does what is expected, and ends with `end`.
fn assert_walk(rt: &impl Abort, alloc: Global, case: Case<'_>, expected: Expected, end: &WalkEnd) {
    let core = walk_of(rt, case.root, Mode::Plain, case.method, 1);
    let table = table_of(rt, alloc, case.table);
    assert!(rt; does_as_expected(alloc, &table, core, case, expected, end));
}

#[test]
fn bulks_of_several_sizes_return_the_same_rows(rt: HostRuntime) {
    const CASES: &[(usize, i32, usize)] = &[
        (134, 1, 7),
        (134, 10, 2),
        (134, i32::MAX, 2),
        (135, 10, 2),
        (1472, 10, 1),
        (1472, i32::MAX, 1),
        (1472, 2, 4),
    ];
    for &(max_size, repetitions, requests) in CASES {
        let case = Case {
            table: SIX,
            root: ROOT,
            method: Method::Bulk(repetitions),
            max_size,
            retries: 0,
            deliveries: &[],
        };
        let expected = Expected {
            number: 123456,
            sends: requests,
            requests,
        };
        assert_walk(&rt, rt.alloc(), case, expected, &WalkEnd::Done(6));
    }
}

#[test]
fn a_row_too_large_for_a_message_ends_the_walk(rt: HostRuntime) {
    let case = Case {
        table: TOO_LARGE,
        root: ROOT,
        method: Method::Next,
        max_size: 134,
        retries: 0,
        deliveries: &[],
    };
    let expected = Expected {
        number: 1,
        sends: 2,
        requests: 2,
    };
    assert_walk(&rt, rt.alloc(), case, expected, &WalkEnd::Fault(1, 0));
    let asked = name_of(&rt, b"1.3.6.1.4.1.32473.1.0");
    let bulk = Case {
        method: Method::Bulk(10),
        ..case
    };
    let end = WalkEnd::NoProgress { asked };
    assert_walk(&rt, rt.alloc(), bulk, expected, &end);
}

#[test]
fn lost_and_repeated_replies_change_no_row(rt: HostRuntime) {
    let case = Case {
        table: THREE,
        root: ROOT,
        method: Method::Next,
        max_size: 1472,
        retries: 5,
        deliveries: &[Some(1), Some(1), None, Some(2)],
    };
    let expected = Expected {
        number: 123,
        sends: 5,
        requests: 4,
    };
    assert_walk(&rt, rt.alloc(), case, expected, &WalkEnd::Done(3));
    let silent = Case {
        deliveries: &[Some(1), None, None, None, None, None, None],
        ..case
    };
    let one_row = Expected {
        number: 1,
        sends: 7,
        requests: 2,
    };
    assert_walk(&rt, rt.alloc(), silent, one_row, &WalkEnd::NoResponse);
    let bulk = Case {
        table: SIX,
        method: Method::Bulk(10),
        max_size: 134,
        retries: 1,
        deliveries: &[None, Some(1), Some(2), None],
        ..case
    };
    let all = Expected {
        number: 123456,
        sends: 4,
        requests: 2,
    };
    assert_walk(&rt, rt.alloc(), bulk, all, &WalkEnd::Done(6));
}

#[test]
fn a_try_ends_with_its_64th_receive(rt: HostRuntime) {
    let strays = [Some(1); 65];
    let case = Case {
        table: THREE,
        root: ROOT,
        method: Method::Next,
        max_size: 1472,
        retries: 1,
        deliveries: &strays,
    };
    let all = Expected {
        number: 123,
        sends: 5,
        requests: 4,
    };
    assert_walk(&rt, rt.alloc(), case, all, &WalkEnd::Done(3));
    let once = Case { retries: 0, ..case };
    let one_row = Expected {
        number: 1,
        sends: 2,
        requests: 2,
    };
    assert_walk(&rt, rt.alloc(), once, one_row, &WalkEnd::NoResponse);
    let nothing = Case {
        deliveries: &[None],
        ..once
    };
    let none = Expected {
        number: 0,
        sends: 1,
        requests: 1,
    };
    assert_walk(&rt, rt.alloc(), nothing, none, &WalkEnd::NoResponse);
}

/// Returns whether a walk ends because its ids run out, and `Digits` makes 123 of its bindings. The
/// link must first succeed in reserving memory for six sends.
fn runs_out(alloc: Global, table: &Table, core: WalkCore) -> bool
    requires { IsFresh core }
{
    let mut link = MemoryLink::new(alloc, table, public(1472), &[]);
    let mut digits = Digits::new();
    let is_ready = link.reserve(6, 6000).is_ok();
    walk_ends(&mut link, core, 0, &mut digits, &WalkEnd::TooManyRequests)
        && is_ready
        && digits.number == 123
}

#[test]
fn a_walk_ends_when_its_ids_run_out(rt: HostRuntime) {
    let core = walk_of(&rt, ROOT, Mode::Plain, Method::Next, 2147483645);
    let table = table_of(&rt, rt.alloc(), THREE);
    assert!(&rt; runs_out(rt.alloc(), &table, core));
}

/// Returns whether the walk over `table` is done with `rows` rows, and `Digits` makes `number` of
/// them.
fn is_done_with(alloc: Global, table: &Table, core: WalkCore, number: u64, rows: u64) -> bool
    requires { IsFresh core }
{
    let mut link = MemoryLink::new(alloc, table, public(1472), &[]);
    let mut digits = Digits::new();
    walk_ends(&mut link, core, 0, &mut digits, &WalkEnd::Done(rows)) && digits.number == number
}

/// Asserts that the walk below `ROOT` that is resumed after the name `after` is done with `rows`
/// rows, and `Digits` makes `number` of them.
fn assert_resumed(rt: &impl Abort, alloc: Global, after: &[u8], number: u64, rows: u64) {
    let core = resumed_walk(rt, &name_of(rt, after), Method::Next);
    let table = table_of(rt, alloc, THREE);
    assert!(rt; is_done_with(alloc, &table, core, number, rows));
}

#[test]
fn a_resumed_walk_returns_the_rest(rt: HostRuntime) {
    const CASES: &[(&[u8], u64, u64)] = &[
        (b"1.3.6.1.4.1.32473.1", 123, 3),
        (b"1.3.6.1.4.1.32473.1.1.0", 23, 2),
        (b"1.3.6.1.4.1.32473.1.2", 23, 2),
        (b"1.3.6.1.4.1.32473.1.2.0", 3, 1),
        (b"1.3.6.1.4.1.32473.1.10.0", 0, 0),
    ];
    for &(after, number, rows) in CASES {
        assert_resumed(&rt, rt.alloc(), after, number, rows);
    }
}

/// Asserts that a walk below this root can't be resumed after the name `after`, for this reason.
fn assert_refused(rt: &impl Abort, root: &[u8], after: &[u8], why: StartError) {
    let after = name_of(rt, after);
    let core = WalkCore::resume(name_of(rt, root), &after, Method::Next, b"public", 1);
    assert!(rt; core.err() == Some(why));
}

#[test]
fn a_bad_root_is_reported_before_a_bad_name_to_resume_after(rt: HostRuntime) {
    const CASES: &[(&[u8], &[u8], StartError)] = &[
        (b"3.1", b"3.1.1", StartError::NotWire),
        (b"3.1", b"1.3", StartError::NotWire),
        (b"1.40", b"3.1", StartError::NotWire),
        (ROOT, b"1.3.6.1.2.1", StartError::AfterOutsideRoot),
        (ROOT, b"3.1", StartError::AfterOutsideRoot),
        (ROOT, b"1.3.6.1.4.1.32473", StartError::AfterOutsideRoot),
        (b"1", b"1.40", StartError::NotWire),
        (b".", b"3", StartError::NotWire),
        (b".", b"0.40.1", StartError::NotWire),
    ];
    for &(root, after, why) in CASES {
        assert_refused(&rt, root, after, why);
    }
}

/// Returns the text of a table with one row, whose name has 128 numbers.
fn longest_row(rt: &impl Abort, alloc: Global) -> Vec<u8> {
    let mut text = Vec::new(alloc);
    put(rt, &mut text, b"1.3.6");
    for _ in 0..125 {
        put(rt, &mut text, b".4294967295");
    }
    put(rt, &mut text, b"|2|5\n");
    text
}

/// Asserts that the row of this table is returned by GetNext and by GetBulk.
fn assert_longest(rt: &impl Abort, alloc: Global, table: &[u8]) {
    const CASES: &[(Method, usize)] = &[(Method::Next, 2), (Method::Bulk(10), 1)];
    for &(method, requests) in CASES {
        let case = Case {
            table,
            root: b"1.3.6.4294967295",
            method,
            max_size: 1472,
            retries: 0,
            deliveries: &[],
        };
        let expected = Expected {
            number: 5,
            sends: requests,
            requests,
        };
        assert_walk(rt, alloc, case, expected, &WalkEnd::Done(1));
    }
}

#[test]
fn the_row_with_the_longest_name_is_returned(rt: HostRuntime) {
    let text = longest_row(&rt, rt.alloc());
    assert_longest(&rt, rt.alloc(), &text);
}
