//! Walks and Gets over a link that fails, and into a sink that refuses a binding.
ghost use Rattle.snmp_walk.specs.Facts.{IsFresh};

use crate::runs::{ROOT, get_ends, names_of, public, table_of, walk_ends, walk_of};
use crate::sinks::Digits;
use snmp_agent::Table;
use snmp_walk::{Link, LinkFault, MemoryLink, Method, Mode, Sink, SinkFault, WalkCore, WalkEnd};
use snmp_wire::{Binding, Oid};
use std::alloc::Global;
use std::process::Abort;

/// Three integers.
const THREE: &[u8] =
    b"1.3.6.1.4.1.32473.1.1.0|2|1\n1.3.6.1.4.1.32473.1.2.0|2|2\n1.3.6.1.4.1.32473.1.10.0|2|3\n";

/// Which call of a link fails, counted from 1, and how many calls there were. If `failing` is 0,
/// none fails.
#[derive(Clone, Copy)]
struct Calls {
    failing: usize,
    count: usize,
}

impl Calls {
    /// Counts a call, and returns whether it fails.
    fn is_next_failing(&mut self) -> bool {
        self.count = self.count.saturating_add(1);
        self.count == self.failing
    }
}

/// A link in memory, some of whose calls fail: the send that `sends` says, the receive that
/// `receives` says, and each call that fails in `link`.
#[derive(Drop)]
struct Failing<'a> {
    link: MemoryLink<'a>,
    sends: Calls,
    receives: Calls,
    fault_count: u64,
}

impl<'a> Failing<'a> {
    /// Returns a link whose send number `send` and receive number `receive` fail, counted from 1.
    /// Number 0 is no call.
    fn new(link: MemoryLink<'a>, send: usize, receive: usize) -> Failing<'a> {
        Failing {
            link,
            sends: Calls {
                failing: send,
                count: 0,
            },
            receives: Calls {
                failing: receive,
                count: 0,
            },
            fault_count: 0,
        }
    }
}

impl<'a> Link for Failing<'a> {
    ghost use Rattle.std.specs.Prelude.{[]};
    ghost use Rattle.snmp_walk.specs.Link.{Agents};
    ghost use Rattle.snmp_walk.specs.Traffic.{Traffic};

    ghost records = { λ _. ⊥ };

    ghost honest = { λ _. ⊥ };

    ghost agents = { λ _. record { tables = []; community = []; max_size = 0 } };

    ghost traffic = { λ _. record { sent = []; ahead = [] } };

    ghost fault_count = { λ link. link.fault_count };

    ghost ready = { λ _ _ _. ⊥ };

    ghost delivers = { λ _ _ _. Unit {0} };

    ghost recording = { λ _ h. h };

    ghost lawful = { λ _ h. absurd h };

    fn send(&mut self, datagram: &[u8]) -> Result<(), LinkFault> {
        if self.sends.is_next_failing() || self.link.send(datagram).is_err() {
            self.fault_count = self.fault_count.saturating_add(1);
            return Err(LinkFault);
        }
        Ok(())
    }

    fn receive(&mut self, buffer: &mut [u8]) -> Result<Option<usize>, LinkFault> {
        if !self.receives.is_next_failing() {
            if let Ok(got) = self.link.receive(buffer) {
                return Ok(got);
            }
        }
        self.fault_count = self.fault_count.saturating_add(1);
        Err(LinkFault)
    }

    fn faults(&self) -> u64 {
        self.fault_count
    }
}

/// A link: its deliveries, and which of its sends and which of its receives fails, or 0 if none
/// does.
#[derive(Clone, Copy)]
struct Case<'a> {
    deliveries: &'a [Option<usize>],
    send: usize,
    receive: usize,
}

/// What a run is expected to do: the number that `Digits` makes of its bindings, and how many times
/// it sends and receives.
#[derive(Clone, Copy)]
struct Expected {
    number: u64,
    sends: usize,
    receives: usize,
}

/// Returns whether the walk over the link of a case does what is expected, and ends when the link
/// fails.
fn walk_does_as_expected(
    alloc: Global,
    table: &Table,
    core: WalkCore,
    case: Case<'_>,
    expected: Expected,
) -> bool
    requires { IsFresh core }
{
    let link = MemoryLink::new(alloc, table, public(1472), case.deliveries);
    let mut link = Failing::new(link, case.send, case.receive);
    let mut digits = Digits::new();
    walk_ends(&mut link, core, 2, &mut digits, &WalkEnd::Link)
        && link.faults() == 1
        && digits.number == expected.number
        && link.sends.count == expected.sends
        && link.receives.count == expected.receives
}

/// Asserts that the walk over the link of a case does what is expected, and ends when the link
/// fails.
fn assert_walk(rt: &impl Abort, alloc: Global, case: Case<'_>, expected: Expected) {
    let core = walk_of(rt, ROOT, Mode::Plain, Method::Next, 1);
    let table = table_of(rt, alloc, THREE);
    assert!(rt; walk_does_as_expected(alloc, &table, core, case, expected));
}

/// Returns whether the Get over the link of a case ends when the link fails, and returns nothing,
/// after `sends` sends and `receives` receives.
fn get_returns_nothing(
    alloc: Global,
    table: &Table,
    names: &[Oid],
    case: Case<'_>,
    sends: usize,
    receives: usize,
) -> bool {
    let link = MemoryLink::new(alloc, table, public(1472), case.deliveries);
    let mut link = Failing::new(link, case.send, case.receive);
    let mut digits = Digits::new();
    get_ends(&mut link, names, 1, 2, &mut digits, &WalkEnd::Link)
        && link.faults() == 1
        && digits.rows == 0
        && link.sends.count == sends
        && link.receives.count == receives
}

/// Asserts that the Get over the link of a case ends when the link fails, and returns nothing,
/// after `sends` sends and `receives` receives.
fn assert_get(rt: &impl Abort, alloc: Global, case: Case<'_>, sends: usize, receives: usize) {
    let names = names_of(rt, alloc, &[b"1.3.6.1.4.1.32473.1.1.0"]);
    let table = table_of(rt, alloc, THREE);
    assert!(rt; get_returns_nothing(alloc, &table, &names, case, sends, receives));
}

#[test]
fn a_failing_link_ends_the_walk_after_the_rows_before(rt: HostRuntime) {
    // The deliveries, the failing send and receive, the number that `Digits` makes, and the numbers
    // of sends and receives.
    const CASES: &[(&[Option<usize>], usize, usize, u64, usize, usize)] = &[
        (&[], 1, 0, 0, 1, 0),
        (&[], 2, 0, 1, 2, 1),
        (&[], 3, 0, 12, 3, 2),
        (&[], 4, 0, 123, 4, 3),
        (&[], 0, 1, 0, 1, 1),
        (&[], 0, 2, 1, 2, 2),
        (&[], 0, 3, 12, 3, 3),
        (&[], 0, 4, 123, 4, 4),
        // A request that is sent again.
        (&[Some(1), None], 3, 0, 1, 3, 2),
        (&[Some(1), None], 0, 3, 1, 3, 3),
        // A receive after two strays.
        (&[Some(1), Some(1), Some(1)], 0, 4, 1, 2, 4),
        // A send after two losses.
        (&[None, None], 3, 0, 0, 3, 2),
    ];
    for &(deliveries, send, receive, number, sends, receives) in CASES {
        let case = Case {
            deliveries,
            send,
            receive,
        };
        let expected = Expected {
            number,
            sends,
            receives,
        };
        assert_walk(&rt, rt.alloc(), case, expected);
    }
}

#[test]
fn a_failing_link_ends_a_get_without_bindings(rt: HostRuntime) {
    // The deliveries, the failing send and receive, and the numbers of sends and receives.
    const CASES: &[(&[Option<usize>], usize, usize, usize, usize)] = &[
        (&[], 1, 0, 1, 0),
        (&[], 0, 1, 1, 1),
        (&[None], 2, 0, 2, 1),
        (&[None], 0, 2, 2, 2),
        (&[None, None], 0, 3, 3, 3),
    ];
    for &(deliveries, send, receive, sends, receives) in CASES {
        let case = Case {
            deliveries,
            send,
            receive,
        };
        assert_get(&rt, rt.alloc(), case, sends, receives);
    }
}

/// The reasons for which a sink refuses a binding.
const FAULTS: &[SinkFault] = &[SinkFault::Output, SinkFault::Memory];

/// A sink that passes bindings on to `digits`, but refuses binding number `refused`, counted from
/// 1, with the reason `fault`.
#[derive(Drop)]
struct Refusing {
    digits: Digits,
    refused: usize,
    fault: SinkFault,
    calls: usize,
}

impl Sink for Refusing {
    ghost takes = { λ _ _ _ _. Unit {0} };

    fn row(&mut self, binding: &Binding<'_>) -> Result<(), SinkFault> {
        self.calls = self.calls.saturating_add(1);
        if self.calls == self.refused {
            return Err(self.fault);
        }
        self.digits.row(binding)
    }
}

impl Refusing {
    /// Returns a sink that refuses binding number `refused` with the reason `fault`.
    fn new(refused: usize, fault: SinkFault) -> Refusing {
        Refusing {
            digits: Digits::new(),
            refused,
            fault,
            calls: 0,
        }
    }

    /// Returns whether `refused` bindings were passed to the sink, and `Digits` makes `number` of
    /// those that it took.
    fn was_given(&self, number: u64) -> bool {
        self.digits.number == number && self.calls == self.refused
    }
}

/// Returns whether a walk into a sink that refuses binding number `refused` ends at that binding,
/// with the reason `fault`, and `Digits` makes `number` of the bindings before it.
fn is_walk_refused(
    alloc: Global,
    table: &Table,
    core: WalkCore,
    refused: usize,
    fault: SinkFault,
    number: u64,
) -> bool
    requires { IsFresh core }
{
    let mut link = MemoryLink::new(alloc, table, public(1472), &[]);
    let mut sink = Refusing::new(refused, fault);
    walk_ends(&mut link, core, 0, &mut sink, &WalkEnd::Sink(fault)) && sink.was_given(number)
}

/// Asserts that a walk below this root, into a sink that refuses binding number `refused`, ends at
/// that binding, with the reason `fault`, and `Digits` makes `number` of the bindings before it.
fn assert_refused(
    rt: &impl Abort,
    alloc: Global,
    root: &[u8],
    method: Method,
    refused: usize,
    fault: SinkFault,
    number: u64,
) {
    let core = walk_of(rt, root, Mode::Plain, method, 1);
    let table = table_of(rt, alloc, THREE);
    assert!(rt; is_walk_refused(alloc, &table, core, refused, fault, number));
}

#[test]
fn a_refused_binding_ends_the_walk_after_those_before(rt: HostRuntime) {
    const METHODS: &[Method] = &[Method::Next, Method::Bulk(2), Method::Bulk(10)];
    const CASES: &[(usize, u64)] = &[(1, 0), (2, 1), (3, 12)];
    for &fault in FAULTS {
        for &method in METHODS {
            for &(refused, number) in CASES {
                assert_refused(&rt, rt.alloc(), ROOT, method, refused, fault, number);
            }
        }
        // The only binding is the result of a Get of the root.
        let leaf = b"1.3.6.1.4.1.32473.1.1.0";
        assert_refused(&rt, rt.alloc(), leaf, Method::Next, 1, fault, 0);
    }
}

/// Returns whether a Get into a sink that refuses binding number `refused` ends at that binding,
/// with the reason `fault`, and `Digits` makes `number` of the bindings before it.
fn is_get_refused(
    alloc: Global,
    table: &Table,
    names: &[Oid],
    refused: usize,
    fault: SinkFault,
    number: u64,
) -> bool {
    let mut link = MemoryLink::new(alloc, table, public(1472), &[]);
    let mut sink = Refusing::new(refused, fault);
    get_ends(&mut link, names, 1, 2, &mut sink, &WalkEnd::Sink(fault)) && sink.was_given(number)
}

/// The names of the three integers, from the last to the first.
const NAMES: [&[u8]; 3] = [
    b"1.3.6.1.4.1.32473.1.10.0",
    b"1.3.6.1.4.1.32473.1.2.0",
    b"1.3.6.1.4.1.32473.1.1.0",
];

/// Asserts that a Get into a sink that refuses binding number `refused` ends at that binding, with
/// the reason `fault`, and `Digits` makes `number` of the bindings before it.
fn assert_get_refused(
    rt: &impl Abort,
    alloc: Global,
    refused: usize,
    fault: SinkFault,
    number: u64,
) {
    let names = names_of(rt, alloc, &NAMES);
    let table = table_of(rt, alloc, THREE);
    assert!(rt; is_get_refused(alloc, &table, &names, refused, fault, number));
}

#[test]
fn a_refused_binding_ends_the_get_after_those_before(rt: HostRuntime) {
    const CASES: &[(usize, u64)] = &[(1, 0), (2, 3), (3, 32)];
    for &fault in FAULTS {
        for &(refused, number) in CASES {
            assert_get_refused(&rt, rt.alloc(), refused, fault, number);
        }
    }
}
