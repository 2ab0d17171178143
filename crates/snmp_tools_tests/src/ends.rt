//! The message and the status of a walk or a Get that ended early.

use snmp_oid::{Oid, parse_numeric};
use snmp_tools::Failure;
use snmp_walk::{SinkFault, WalkEnd};
use std::alloc::Global;
use std::process::Abort;

/// Asserts the message and the status of a walk or a Get of `box:1161` that ended with `end`.
fn assert_said(rt: &impl Abort, alloc: Global, end: WalkEnd, text: &str, status: u8) {
    let failure = Failure::Ended("box:1161", end);
    let mut said = Vec::new(alloc);
    failure.message(&mut said).expect(rt, "memory for a text");
    assert!(rt; said.as_slice() == text.as_bytes(), "{text}");
    assert!(rt; failure.status() == status, "{text}");
}

#[test]
fn used_up_ids_are_too_many_requests(rt: HostRuntime) {
    let end = WalkEnd::TooManyRequests;
    assert_said(&rt, rt.alloc(), end, "Too many requests.", 1);
}

#[test]
fn other_ends_have_their_messages(rt: HostRuntime) {
    let silent = "Timeout: No Response from box:1161.";
    assert_said(&rt, rt.alloc(), WalkEnd::NoResponse, silent, 1);
    let bad = "Bad reply from box:1161.";
    assert_said(&rt, rt.alloc(), WalkEnd::BadReply, bad, 1);
    let long = "Request too long.";
    assert_said(&rt, rt.alloc(), WalkEnd::RequestTooLong, long, 1);
    let link = "The link failed.";
    assert_said(&rt, rt.alloc(), WalkEnd::Link, link, 1);
    let output = WalkEnd::Sink(SinkFault::Output);
    assert_said(&rt, rt.alloc(), output, "The output failed.", 1);
    let memory = WalkEnd::Sink(SinkFault::Memory);
    assert_said(&rt, rt.alloc(), memory, "Out of memory.", 1);
    let fault = "Error in packet: tooBig (1), index 0";
    assert_said(&rt, rt.alloc(), WalkEnd::Fault(1, 0), fault, 2);
    let unknown = "Error in packet: unknown (-1), index -2";
    assert_said(&rt, rt.alloc(), WalkEnd::Fault(-1, -2), unknown, 2);
}

/// Returns the identifier of this text.
fn name(rt: &impl Abort, text: &[u8]) -> Oid {
    parse_numeric(text).expect(rt, "a name")
}

#[test]
fn names_that_end_a_walk_are_reported(rt: HostRuntime) {
    let asked = name(&rt, b"1.3.6.1");
    let none = "No progress after .1.3.6.1";
    assert_said(&rt, rt.alloc(), WalkEnd::NoProgress { asked }, none, 1);
    let (last, got) = (name(&rt, b"1.3.6.2"), name(&rt, b"1.3.6"));
    let decreasing = "Error: OID not increasing: .1.3.6.2 >= .1.3.6";
    assert_said(
        &rt,
        rt.alloc(),
        WalkEnd::NotIncreasing { last, got },
        decreasing,
        1,
    );
}
