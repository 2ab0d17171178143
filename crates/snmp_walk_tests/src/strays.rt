//! Walks and Gets over a link that delivers strays, datagrams that aren't a reply to the waiting
//! request, before the replies.
ghost use Rattle.snmp_walk.specs.Facts.{IsFresh};

use crate::liar::{GENERAL_ERROR, ROW};
use crate::runs::{ROOT, get_ends, names_of, public, table_of, walk_ends, walk_of};
use crate::sinks::{Counted, Digits};
use snmp_agent::Table;
use snmp_walk::{Link, LinkFault, MemoryLink, Method, Mode, WalkCore, WalkEnd};
use snmp_wire::Oid;
use std::alloc::Global;
use std::process::Abort;

/// Three integers.
const THREE: &[u8] =
    b"1.3.6.1.4.1.32473.1.1.0|2|1\n1.3.6.1.4.1.32473.1.2.0|2|2\n1.3.6.1.4.1.32473.1.10.0|2|3\n";

/// A stray, how many times it arrives, and the retries of the run.
#[derive(Clone, Copy)]
struct Case<'a> {
    stray: &'a [u8],
    /// How many times the stray arrives before the reply to the first datagram that is sent, to the
    /// second, and so on. After the end of the list, the stray doesn't arrive.
    before: &'a [usize],
    retries: u32,
}

/// A link in memory that delivers the stray of a case before the replies.
#[derive(Drop)]
struct Crowded<'a, 'c> {
    link: Counted<'a>,
    case: Case<'c>,
    /// How many times the stray still arrives before the next reply.
    remaining: usize,
    receives: usize,
}

impl<'a, 'c> Crowded<'a, 'c> {
    fn new(link: Counted<'a>, case: Case<'c>) -> Crowded<'a, 'c> {
        Crowded {
            link,
            case,
            remaining: 0,
            receives: 0,
        }
    }

    /// Returns whether as many datagrams and requests were sent, and as many receives tried, as
    /// expected.
    fn has_counted(&self, expected: Expected) -> bool {
        self.link.sends == expected.sends
            && self.link.requests == expected.requests
            && self.receives == expected.receives
    }
}

impl<'a, 'c> Link for Crowded<'a, 'c> {
    ghost use Rattle.std.specs.Prelude.{[]};
    ghost use Rattle.snmp_walk.specs.Link.{Agents};
    ghost use Rattle.snmp_walk.specs.Traffic.{Traffic};

    ghost records = { λ _. ⊥ };

    ghost honest = { λ _. ⊥ };

    ghost agents = { λ _. record { tables = []; community = []; max_size = 0 } };

    ghost traffic = { λ _. record { sent = []; ahead = [] } };

    ghost fault_count = { λ c. c.link.link.fault_count };

    ghost ready = { λ _ _ _. ⊥ };

    ghost delivers = { λ _ _ _. Unit {0} };

    ghost recording = { λ _ h. h };

    ghost lawful = { λ _ h. absurd h };

    fn send(&mut self, datagram: &[u8]) -> Result<(), LinkFault> {
        self.remaining = self.case.before.get(self.link.sends).copied().unwrap_or(0);
        self.link.send(datagram)
    }

    fn receive(&mut self, buffer: &mut [u8]) -> Result<Option<usize>, LinkFault> {
        self.receives = self.receives.saturating_add(1);
        let stray = self.case.stray;
        let length = stray.len();
        if self.remaining == 0 || length > buffer.len() {
            return self.link.receive(buffer);
        }
        self.remaining -= 1;
        buffer[..length].copy_from_slice(stray);
        Ok(Some(length))
    }

    fn faults(&self) -> u64 {
        self.link.faults()
    }
}

/// What a run is expected to do: the number that `Digits` makes of its bindings, how many datagrams
/// and requests it sends, and how many times it receives.
#[derive(Clone, Copy)]
struct Expected {
    number: u64,
    sends: usize,
    requests: usize,
    receives: usize,
}

/// Returns whether the walk over the strays of a case does what is expected, and ends with `end`.
fn walk_does_as_expected(
    alloc: Global,
    table: &Table,
    core: WalkCore,
    case: Case<'_>,
    expected: Expected,
    end: &WalkEnd,
) -> bool
    requires { IsFresh core }
{
    let link = Counted::new(MemoryLink::new(alloc, table, public(1472), &[]));
    let mut link = Crowded::new(link, case);
    let mut digits = Digits::new();
    walk_ends(&mut link, core, case.retries, &mut digits, end)
        && digits.number == expected.number
        && link.has_counted(expected)
}

/// Asserts that the walk with first id 2 over the strays of a case does what is expected. It must
/// be done if 123 is expected of `Digits`, and otherwise end without a response.
fn assert_walk(rt: &impl Abort, alloc: Global, table: &Table, case: Case<'_>, expected: Expected) {
    let core = walk_of(rt, ROOT, Mode::Plain, Method::Next, 2);
    let end = if expected.number == 123 {
        WalkEnd::Done(3)
    } else {
        WalkEnd::NoResponse
    };
    assert!(rt; walk_does_as_expected(alloc, table, core, case, expected, &end));
}

/// Returns whether the Get with id 2 over the strays of a case does what is expected, and ends with
/// `end`.
fn get_does_as_expected(
    alloc: Global,
    table: &Table,
    names: &[Oid],
    case: Case<'_>,
    expected: Expected,
    end: &WalkEnd,
) -> bool {
    let link = Counted::new(MemoryLink::new(alloc, table, public(1472), &[]));
    let mut link = Crowded::new(link, case);
    let mut digits = Digits::new();
    get_ends(&mut link, names, 2, case.retries, &mut digits, end)
        && digits.number == expected.number
        && link.has_counted(expected)
}

/// Asserts that the Get with id 2 over the strays of a case does what is expected. It must be done
/// if 1 is expected of `Digits`, and otherwise end without a response.
fn assert_get(
    rt: &impl Abort,
    alloc: Global,
    table: &Table,
    names: &[Oid],
    case: Case<'_>,
    expected: Expected,
) {
    let end = if expected.number == 1 {
        WalkEnd::Done(1)
    } else {
        WalkEnd::NoResponse
    };
    assert!(rt; get_does_as_expected(alloc, table, names, case, expected, &end));
}

/// Asserts that in a walk 63 of these datagrams before a reply change nothing, and 64 end the try.
fn assert_stray_to_walks(rt: &impl Abort, alloc: Global, table: &Table, stray: &[u8]) {
    // The strays, the retries, the number that `Digits` makes, and the numbers of sends, requests
    // and receives.
    const CASES: &[(&[usize], u32, u64, usize, usize, usize)] = &[
        (&[1], 0, 123, 4, 4, 5),
        (&[63, 63, 63, 63], 0, 123, 4, 4, 256),
        (&[64], 0, 0, 1, 1, 64),
        (&[64], 1, 123, 5, 4, 68),
        (&[64, 64], 1, 0, 2, 1, 128),
        (&[64, 64, 63], 2, 123, 6, 4, 195),
        (&[0, 64], 0, 1, 2, 2, 65),
    ];
    for &(before, retries, number, sends, requests, receives) in CASES {
        let expected = Expected {
            number,
            sends,
            requests,
            receives,
        };
        let case = Case {
            stray,
            before,
            retries,
        };
        assert_walk(rt, alloc, table, case, expected);
    }
}

/// Asserts that in a Get 63 of these datagrams before the reply change nothing, and 64 end the try.
fn assert_stray_to_gets(
    rt: &impl Abort,
    alloc: Global,
    table: &Table,
    names: &[Oid],
    stray: &[u8],
) {
    // The strays, the retries, the number that `Digits` makes, and the numbers of sends and
    // receives.
    const CASES: &[(&[usize], u32, u64, usize, usize)] = &[
        (&[1], 0, 1, 1, 2),
        (&[63], 0, 1, 1, 64),
        (&[64], 0, 0, 1, 64),
        (&[64], 1, 1, 2, 65),
        (&[64, 63], 1, 1, 2, 128),
        (&[64, 64], 1, 0, 2, 128),
    ];
    for &(before, retries, number, sends, receives) in CASES {
        let expected = Expected {
            number,
            sends,
            requests: 1,
            receives,
        };
        let case = Case {
            stray,
            before,
            retries,
        };
        assert_get(rt, alloc, table, names, case, expected);
    }
}

/// Asserts that the datagram is a stray to walks and to Gets.
fn assert_stray(rt: &impl Abort, alloc: Global, stray: &[u8]) {
    let table = table_of(rt, alloc, THREE);
    let names = names_of(rt, alloc, &[b"1.3.6.1.4.1.32473.1.1.0"]);
    assert_stray_to_gets(rt, alloc, &table, &names, stray);
    assert_stray_to_walks(rt, alloc, &table, stray);
}

#[test]
fn octets_that_are_no_message_are_strays(rt: HostRuntime) {
    let mut longer = [0; 45];
    longer[..44].copy_from_slice(&ROW);
    let strays: [&[u8]; 5] = [b"", &[0x30], b"no message", &ROW[..43], &longer];
    for stray in strays {
        assert_stray(&rt, rt.alloc(), stray);
    }
}

#[test]
fn a_reply_with_one_wrong_part_is_a_stray(rt: HostRuntime) {
    // The offset of the part, and an octet there that makes the datagram malformed, or changes
    // the version, the community, the kind of PDU or the id.
    const PARTS: &[(usize, u8)] = &[
        (1, 0x80),
        (1, 0x29),
        (13, 0xA4),
        (4, 0x00),
        (4, 0x03),
        (7, 0x71),
        (13, 0xA0),
        (13, 0xA1),
        (13, 0xA3),
        (13, 0xA5),
        (13, 0xA6),
        (13, 0xA7),
        (13, 0xA8),
        (17, 0x01),
        (17, 0x00),
        (17, 0x09),
        (17, 0x82),
    ];
    for &(offset, octet) in PARTS {
        let mut stray = ROW;
        stray[17] = 2;
        if offset < 44 {
            stray[offset] = octet;
        }
        assert_stray(&rt, rt.alloc(), &stray);
    }
}

#[test]
fn an_error_status_of_an_earlier_request_is_a_stray(rt: HostRuntime) {
    assert_stray(&rt, rt.alloc(), GENERAL_ERROR);
}
