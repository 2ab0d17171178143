//! Walks over a network in memory to the agent at its other end. The network loses, repeats and
//! delays datagrams in both directions.
ghost use Rattle.snmp_walk.specs.Facts.{IsFresh};

use crate::runs::{ROOT, public, table_of, walk_of};
use crate::sinks::Digits;
use snmp_agent::{Endpoint, EndpointFault, Table};
use snmp_walk::{
    Delivery, LinkFault, MemoryNetwork, Method, Mode, Network, NetworkLink, WalkCore, WalkEnd,
    walk_served,
};
use std::alloc::Global;
use std::process::Abort;

/// Three rows, whose values are their numbers from 1.
const THREE: &[u8] =
    b"1.3.6.1.4.1.32473.1.1.0|2|1\n1.3.6.1.4.1.32473.1.2.0|2|2\n1.3.6.1.4.1.32473.1.3.0|2|3\n";

/// A walk by GetNext: the deliveries of its network, and its retries.
#[derive(Clone, Copy)]
struct Case<'a> {
    deliveries: &'a [Delivery],
    retries: u32,
}

/// Returns whether the walk of a case ends with `end`, and `Digits` makes `number` of its bindings.
fn walk_returns(
    alloc: Global,
    table: &Table,
    core: WalkCore,
    case: Case<'_>,
    number: u64,
    end: &WalkEnd,
) -> bool
    requires { IsFresh core }
{
    let network = MemoryNetwork::new(alloc, case.deliveries);
    let mut link = NetworkLink::new(network, table, public(1472));
    let mut digits = Digits::new();
    walk_served(&mut link, core, case.retries, &mut digits) == *end && digits.number == number
}

/// Asserts that a walk over a network with these deliveries ends with `end`, and `Digits` makes
/// `number` of its bindings.
fn assert_walk(
    rt: &impl Abort,
    alloc: Global,
    deliveries: &[Delivery],
    retries: u32,
    number: u64,
    end: &WalkEnd,
) {
    let case = Case {
        deliveries,
        retries,
    };
    let table = table_of(rt, alloc, THREE);
    let core = walk_of(rt, ROOT, Mode::Plain, Method::Next, 1);
    assert!(rt; walk_returns(alloc, &table, core, case, number, end));
}

#[test]
fn a_walk_returns_the_table_that_is_served(rt: HostRuntime) {
    assert_walk(&rt, rt.alloc(), &[], 0, 123, &WalkEnd::Done(3));
}

#[test]
fn lost_requests_are_sent_again(rt: HostRuntime) {
    const LOST: &[Delivery] = &[Delivery::Nothing, Delivery::Nothing];
    assert_walk(&rt, rt.alloc(), LOST, 2, 123, &WalkEnd::Done(3));
    assert_walk(&rt, rt.alloc(), LOST, 1, 0, &WalkEnd::NoResponse);
}

#[test]
fn a_request_whose_reply_is_lost_is_sent_again(rt: HostRuntime) {
    const LOST: &[Delivery] = &[
        Delivery::Request(1),
        Delivery::Reply(1),
        Delivery::Request(2),
        Delivery::Nothing,
    ];
    assert_walk(&rt, rt.alloc(), LOST, 1, 123, &WalkEnd::Done(3));
    assert_walk(&rt, rt.alloc(), LOST, 0, 1, &WalkEnd::NoResponse);
}

#[test]
fn a_request_that_arrives_twice_returns_its_row_once(rt: HostRuntime) {
    const TWICE: &[Delivery] = &[
        Delivery::Request(1),
        Delivery::Request(1),
        Delivery::Reply(1),
        // The reply to the repeated request arrives before the reply to the next request.
        Delivery::Reply(2),
    ];
    assert_walk(&rt, rt.alloc(), TWICE, 0, 123, &WalkEnd::Done(3));
}

#[test]
fn a_reply_that_arrives_twice_returns_its_row_once(rt: HostRuntime) {
    const TWICE: &[Delivery] = &[
        Delivery::Request(1),
        Delivery::Reply(1),
        Delivery::Reply(1),
        Delivery::Request(2),
        Delivery::Reply(1),
        Delivery::Reply(2),
        Delivery::Reply(2),
    ];
    assert_walk(&rt, rt.alloc(), TWICE, 0, 123, &WalkEnd::Done(3));
}

#[test]
fn a_delayed_request_returns_no_row_twice(rt: HostRuntime) {
    const LATE: &[Delivery] = &[
        // The first try is delayed, and the second returns the first row.
        Delivery::Nothing,
        Delivery::Request(2),
        Delivery::Reply(1),
        // Then the delayed try arrives before the next request, and its reply before the next
        // reply.
        Delivery::Request(1),
        Delivery::Request(3),
        Delivery::Reply(2),
        Delivery::Reply(3),
    ];
    assert_walk(&rt, rt.alloc(), LATE, 1, 123, &WalkEnd::Done(3));
}

#[test]
fn a_delayed_reply_returns_no_row_twice(rt: HostRuntime) {
    const LATE: &[Delivery] = &[
        Delivery::Request(1),
        Delivery::Nothing,
        Delivery::Request(2),
        Delivery::Reply(2),
        // The reply to the first try arrives before the reply to the next request.
        Delivery::Request(3),
        Delivery::Reply(1),
        Delivery::Reply(3),
    ];
    assert_walk(&rt, rt.alloc(), LATE, 1, 123, &WalkEnd::Done(3));
}

#[test]
fn a_datagram_that_was_not_sent_yet_does_not_arrive(rt: HostRuntime) {
    const EARLY: &[Delivery] = &[Delivery::Request(2), Delivery::Reply(1)];
    assert_walk(&rt, rt.alloc(), EARLY, 0, 0, &WalkEnd::NoResponse);
    assert_walk(&rt, rt.alloc(), EARLY, 1, 123, &WalkEnd::Done(3));
}

#[test]
fn the_agent_has_a_turn_for_each_request_that_is_delivered(rt: HostRuntime) {
    const THREE_REQUESTS: &[Delivery] = &[
        Delivery::Request(1),
        Delivery::Request(1),
        Delivery::Nothing,
        Delivery::Request(1),
    ];
    assert!(&rt; MemoryNetwork::new(rt.alloc(), THREE_REQUESTS).turns() == 3);
    assert!(&rt; MemoryNetwork::new(rt.alloc(), &[]).turns() == 1);
}

/// Returns whether at both ends a datagram of three octets arrives whole in a buffer of three, and
/// a receive into a buffer of two fails.
fn arrives_whole(network: &mut MemoryNetwork<'_>) -> bool {
    let mut short = [0; 2];
    let mut exact = [0; 3];
    network.receive(&mut short) == Err(EndpointFault)
        && network.faults() == 1
        // Without deliveries, the walk's receive fails too after the agent's receive failed.
        && network.receive_reply(&mut exact) == Err(LinkFault)
        && network.faults() == 2
        && network.receive(&mut exact) == Ok(Some((3, ())))
        && exact == [7, 8, 9]
        && network.receive_reply(&mut exact) == Ok(None)
        && network.reply(&[4, 5, 6], ()).is_ok()
        && network.receive_reply(&mut short) == Err(LinkFault)
        && network.receive_reply(&mut exact) == Ok(Some(3))
        && exact == [4, 5, 6]
        && network.faults() == 3
}

#[test]
fn a_datagram_longer_than_the_buffer_is_a_fault(rt: HostRuntime) {
    let mut network = MemoryNetwork::new(rt.alloc(), &[]);
    assert!(&rt; network.send(&[7, 8, 9]).is_ok());
    assert!(&rt; arrives_whole(&mut network));
}
