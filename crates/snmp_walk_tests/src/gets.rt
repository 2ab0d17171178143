//! Gets over links in memory: of names that the agent has or lacks, with lost replies, and with
//! messages that are too long.

use crate::runs::{get_ends, names_of, public, push, table_of};
use crate::sinks::{Counted, Digits};
use snmp_agent::Table;
use snmp_walk::{MemoryLink, WalkEnd};
use snmp_wire::Oid;
use std::alloc::Global;
use std::process::Abort;

/// Three integers, and an object without instances.
const THREE: &[u8] = b"object 1.3.6.1.4.1.32473.1.4\n\
    1.3.6.1.4.1.32473.1.10.0|2|3\n\
    1.3.6.1.4.1.32473.1.2.0|2|2\n\
    1.3.6.1.4.1.32473.1.1.0|2|1\n";

/// The name of the integer 1.
const FIRST: &[u8] = b"1.3.6.1.4.1.32473.1.1.0";

/// The name of the integer 2.
const SECOND: &[u8] = b"1.3.6.1.4.1.32473.1.2.0";

/// A name without a row, between the names of the integers 2 and 3.
const ABSENT: &[u8] = b"1.3.6.1.4.1.32473.1.3.0";

/// A Get: the greatest message size of its agent, its retries, and the deliveries of its link.
#[derive(Clone, Copy)]
struct Case<'a> {
    max_size: usize,
    retries: u32,
    deliveries: &'a [Option<usize>],
}

/// A Get without retries, over a link that delivers each reply.
const ONCE: Case<'static> = Case {
    max_size: 1472,
    retries: 0,
    deliveries: &[],
};

/// What a Get is expected to do: the number that `Digits` makes of its bindings, how many bindings
/// it returns, and how many datagrams it sends.
#[derive(Clone, Copy)]
struct Expected {
    number: u64,
    rows: usize,
    sends: usize,
}

/// Returns whether the Get of a case does what is expected, and ends with `end`.
fn does_as_expected(
    alloc: Global,
    table: &Table,
    names: &[Oid],
    case: Case<'_>,
    expected: Expected,
    end: &WalkEnd,
) -> bool {
    let agent = public(case.max_size);
    let mut link = Counted::new(MemoryLink::new(alloc, table, agent, case.deliveries));
    let mut digits = Digits::new();
    get_ends(&mut link, names, 1, case.retries, &mut digits, end)
        && digits.number == expected.number
        && digits.rows == expected.rows
        && link.sends == expected.sends
}

/// Asserts that the Get of these names does what is expected, and ends with `end`.
fn assert_get(
    rt: &impl Abort,
    alloc: Global,
    names: &[&[u8]],
    case: Case<'_>,
    expected: Expected,
    end: WalkEnd,
) {
    let names = names_of(rt, alloc, names);
    let table = table_of(rt, alloc, THREE);
    assert!(rt; does_as_expected(alloc, &table, &names, case, expected, &end));
}

#[test]
fn bindings_are_returned_in_the_order_of_the_names(rt: HostRuntime) {
    let names = [
        b"1.3.6.1.4.1.32473.1.10.0".as_slice(),
        ABSENT,
        b"1.3.6.1.4.1.32473.1.4.9",
        FIRST,
        b"1.3.6.1.4.1.32473.1.10.0",
        b"1",
    ];
    let expected = Expected {
        number: 313,
        rows: 6,
        sends: 1,
    };
    assert_get(&rt, rt.alloc(), &names, ONCE, expected, WalkEnd::Done(6));
    let first = Expected {
        number: 1,
        rows: 1,
        sends: 1,
    };
    assert_get(&rt, rt.alloc(), &[FIRST], ONCE, first, WalkEnd::Done(1));
    let exception = Expected { number: 0, ..first };
    assert_get(
        &rt,
        rt.alloc(),
        &[ABSENT],
        ONCE,
        exception,
        WalkEnd::Done(1),
    );
}

#[test]
fn a_request_whose_reply_is_lost_is_sent_again(rt: HostRuntime) {
    let case = Case {
        max_size: 1472,
        retries: 2,
        deliveries: &[None, Some(0)],
    };
    let expected = Expected {
        number: 2,
        rows: 1,
        sends: 3,
    };
    assert_get(&rt, rt.alloc(), &[SECOND], case, expected, WalkEnd::Done(1));
    // The second datagram is the same as the first, so a reply to the first is a reply to it too.
    let late = Case {
        deliveries: &[None, Some(1)],
        ..case
    };
    let twice = Expected {
        sends: 2,
        ..expected
    };
    assert_get(&rt, rt.alloc(), &[SECOND], late, twice, WalkEnd::Done(1));
    let silent = Case { retries: 1, ..case };
    let nothing = Expected {
        number: 0,
        rows: 0,
        sends: 2,
    };
    assert_get(
        &rt,
        rt.alloc(),
        &[SECOND],
        silent,
        nothing,
        WalkEnd::NoResponse,
    );
}

#[test]
fn a_response_that_does_not_fit_is_too_big(rt: HostRuntime) {
    // The Response has 44 octets, and the one without bindings 26.
    let case = Case {
        max_size: 44,
        ..ONCE
    };
    let expected = Expected {
        number: 2,
        rows: 1,
        sends: 1,
    };
    assert_get(&rt, rt.alloc(), &[SECOND], case, expected, WalkEnd::Done(1));
    let nothing = Expected {
        number: 0,
        rows: 0,
        ..expected
    };
    let small = Case {
        max_size: 43,
        ..ONCE
    };
    assert_get(
        &rt,
        rt.alloc(),
        &[SECOND],
        small,
        nothing,
        WalkEnd::Fault(1, 0),
    );
    let none = Case {
        max_size: 25,
        ..ONCE
    };
    assert_get(
        &rt,
        rt.alloc(),
        &[SECOND],
        none,
        nothing,
        WalkEnd::NoResponse,
    );
}

/// Returns 103 names of 128 numbers. Each takes 627 octets, and 637 in the binding that asks for
/// it.
fn longest_names(rt: &impl Abort, alloc: Global) -> Vec<Oid> {
    let mut longest = [4294967295; 128];
    longest[..3].copy_from_slice(&[1, 3, 6]);
    let mut names = Vec::new(alloc);
    for _ in 0..103 {
        let name = Oid::from_slice(&longest).expect(rt, "a name");
        push(rt, &mut names, name);
    }
    names
}

/// Returns whether a Get of 102 of the longest names is sent and done, and a Get of 103 isn't sent.
fn is_one_too_many(alloc: Global, table: &Table, names: &[Oid]) -> bool {
    let case = Case {
        max_size: 65507,
        ..ONCE
    };
    let expected = Expected {
        number: 0,
        rows: 102,
        sends: 1,
    };
    let nothing = Expected {
        rows: 0,
        sends: 0,
        ..expected
    };
    let fitting = names.get(..102).unwrap_or(&[]);
    does_as_expected(alloc, table, fitting, case, expected, &WalkEnd::Done(102))
        && names.len() == 103
        && does_as_expected(alloc, table, names, case, nothing, &WalkEnd::RequestTooLong)
}

#[test]
fn a_request_that_fits_no_datagram_is_not_sent(rt: HostRuntime) {
    let names = longest_names(&rt, rt.alloc());
    let table = table_of(&rt, rt.alloc(), THREE);
    assert!(&rt; is_one_too_many(rt.alloc(), &table, &names));
}
