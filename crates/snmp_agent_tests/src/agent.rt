//! Datagrams and the replies to them, most of them worked out by hand.
ghost use Rattle.std.specs.Prelude.{IsTrue};
ghost use Rattle.snmp_wire.specs.Canon.{IsEncodable};
ghost use Rattle.snmp_wire.specs.ber.Canon.{IsEncodableValue};
ghost use Rattle.snmp_wire.specs.ber.Value.{datum};
ghost use Rattle.snmp_wire.specs.Message.{var_bind};

use crate::table::{repeated_text, table_of};
use snmp_agent::{Config, DropReason, Outcome, Table, answer};
use snmp_wire::{
    Binding, MessageRef, Parts, ValueRef, binding_size, decode, encode_binding, encode_head,
};
use std::process::Abort;

/// A table file with sysName.0 only.
pub(crate) const SYS_NAME: &[u8] = b"1.3.6.1.2.1.1.5.0|4|wes";

/// The GetRequest of sysName.0, with community `public` and id 1.
pub(crate) const GET: [u8; 40] = [
    0x30, 0x26, 0x02, 0x01, 0x01, 0x04, 0x06, 0x70, 0x75, 0x62, 0x6C, 0x69, 0x63, 0xA0, 0x19, 0x02,
    0x01, 0x01, 0x02, 0x01, 0x00, 0x02, 0x01, 0x00, 0x30, 0x0E, 0x30, 0x0C, 0x06, 0x08, 0x2B, 0x06,
    0x01, 0x02, 0x01, 0x01, 0x05, 0x00, 0x05, 0x00,
];

/// The Response to `GET`, with the string `wes`.
pub(crate) const GOT: [u8; 43] = [
    0x30, 0x29, 0x02, 0x01, 0x01, 0x04, 0x06, 0x70, 0x75, 0x62, 0x6C, 0x69, 0x63, 0xA2, 0x1C, 0x02,
    0x01, 0x01, 0x02, 0x01, 0x00, 0x02, 0x01, 0x00, 0x30, 0x11, 0x30, 0x0F, 0x06, 0x08, 0x2B, 0x06,
    0x01, 0x02, 0x01, 0x01, 0x05, 0x00, 0x04, 0x03, 0x77, 0x65, 0x73,
];

/// The Response to `GET` if `GOT` doesn't fit into a message of the agent: tooBig.
const TOO_BIG: [u8; 26] = [
    0x30, 0x18, 0x02, 0x01, 0x01, 0x04, 0x06, 0x70, 0x75, 0x62, 0x6C, 0x69, 0x63, 0xA2, 0x0B, 0x02,
    0x01, 0x01, 0x02, 0x01, 0x01, 0x02, 0x01, 0x00, 0x30, 0x00,
];

/// A SetRequest of sysName.0.
const SET: [u8; 41] = [
    0x30, 0x27, 0x02, 0x01, 0x01, 0x04, 0x06, 0x70, 0x75, 0x62, 0x6C, 0x69, 0x63, 0xA3, 0x1A, 0x02,
    0x01, 0x01, 0x02, 0x01, 0x00, 0x02, 0x01, 0x00, 0x30, 0x0F, 0x30, 0x0D, 0x06, 0x08, 0x2B, 0x06,
    0x01, 0x02, 0x01, 0x01, 0x05, 0x00, 0x02, 0x01, 0x01,
];

/// The Response to `SET`: notWritable, at the first binding.
const NOT_SET: [u8; 41] = [
    0x30, 0x27, 0x02, 0x01, 0x01, 0x04, 0x06, 0x70, 0x75, 0x62, 0x6C, 0x69, 0x63, 0xA2, 0x1A, 0x02,
    0x01, 0x01, 0x02, 0x01, 0x11, 0x02, 0x01, 0x01, 0x30, 0x0F, 0x30, 0x0D, 0x06, 0x08, 0x2B, 0x06,
    0x01, 0x02, 0x01, 0x01, 0x05, 0x00, 0x02, 0x01, 0x01,
];

/// Returns what an agent with community `public` does with `request`. The agent's messages have at
/// most `max_size` octets, from 1 to 65507.
pub(crate) fn outcome(
    table: &Table,
    max_size: usize,
    request: &[u8],
    out: &mut [u8; 65507],
) -> Outcome {
    let max_size = max_size.clamp(1, 65507);
    let config = Config {
        community: b"public",
        max_size,
    };
    answer(table, &config, request, out)
}

/// Returns whether the agent of [`outcome`] replies with exactly the octets of `reply`.
fn is_reply(table: &Table, max_size: usize, request: &[u8], reply: &[u8]) -> bool {
    let mut out = [0; 65507];
    match outcome(table, max_size, request, &mut out) {
        Outcome::Reply(size) => out.get(..size) == Some(reply),
        Outcome::Dropped(_) => false,
    }
}

/// Asserts [`is_reply`].
fn assert_reply(rt: &impl Abort, table: &Table, max_size: usize, request: &[u8], reply: &[u8]) {
    assert!(rt; is_reply(table, max_size, request, reply), "{request:?}");
}

/// Asserts that the agent of [`outcome`] drops the request for this reason.
pub(crate) fn assert_dropped(
    rt: &impl Abort,
    table: &Table,
    max_size: usize,
    request: &[u8],
    why: DropReason,
) {
    let mut out = [0; 65507];
    assert!(rt;
        outcome(table, max_size, request, &mut out) == Outcome::Dropped(why),
        "{request:?}"
    );
}

#[test]
fn a_get_has_its_reply_in_the_shortest_encoding(rt: HostRuntime) {
    let table = table_of(&rt, rt.alloc(), SYS_NAME);
    assert_reply(&rt, &table, 1472, &GET, &GOT);
    assert_reply(&rt, &table, 43, &GET, &GOT);
    let mut long_length = [0; 42];
    long_length[..4].copy_from_slice(&[0x30, 0x82, 0x00, 0x26]);
    long_length[4..].copy_from_slice(&GET[2..]);
    assert_reply(&rt, &table, 1472, &long_length, &GOT);
}

#[test]
fn a_reply_that_does_not_fit_becomes_too_big(rt: HostRuntime) {
    let table = table_of(&rt, rt.alloc(), SYS_NAME);
    assert_reply(&rt, &table, 42, &GET, &TOO_BIG);
    assert_reply(&rt, &table, 26, &GET, &TOO_BIG);
    assert_dropped(&rt, &table, 25, &GET, DropReason::TooLong);
}

#[test]
fn a_set_gets_not_writable(rt: HostRuntime) {
    let table = table_of(&rt, rt.alloc(), SYS_NAME);
    assert_reply(&rt, &table, 1472, &SET, &NOT_SET);
}

#[test]
fn a_get_next_returns_the_next_variable(rt: HostRuntime) {
    let table = table_of(&rt, rt.alloc(), b"1.3.6.1.2.1.1.5.1|4|wes");
    let mut request = GET;
    request[13] = 0xA1;
    let mut reply = GOT;
    reply[37] = 0x01;
    assert_reply(&rt, &table, 1472, &request, &reply);
}

/// Returns `request` with `octet` at this offset, or unchanged if the offset is 40 or more.
fn with_octet(request: &[u8; 40], offset: usize, octet: u8) -> [u8; 40] {
    let mut changed = *request;
    if offset < 40 {
        changed[offset] = octet;
    }
    changed
}

/// Offsets in `GET`, each with an octet that replaces the one there, and why the agent then drops
/// it.
const OTHERS: &[(usize, u8, DropReason)] = &[
    (1, 0x80, DropReason::Undecodable),
    (4, 0x00, DropReason::Version),
    (7, 0x71, DropReason::Community),
    (13, 0xA2, DropReason::Pdu),
    (13, 0xA6, DropReason::Pdu),
    (13, 0xA7, DropReason::Pdu),
    (13, 0xA8, DropReason::Pdu),
    (13, 0xA4, DropReason::Undecodable),
];

/// Asserts that the agent drops each proper prefix of `GET`, and `GET` with one octet more.
fn assert_other_lengths_dropped(rt: &impl Abort, table: &Table) {
    let mut longer = [0; 41];
    longer[..40].copy_from_slice(&GET);
    assert_dropped(rt, table, 1472, &longer, DropReason::Undecodable);
    for size in 0..40 {
        assert_dropped(rt, table, 1472, &GET[..size], DropReason::Undecodable);
    }
}

#[test]
fn other_datagrams_are_dropped(rt: HostRuntime) {
    let table = table_of(&rt, rt.alloc(), SYS_NAME);
    for (offset, octet, why) in OTHERS {
        assert_dropped(&rt, &table, 1472, &with_octet(&GET, *offset, *octet), *why);
    }
    assert_other_lengths_dropped(&rt, &table);
}

/// A SetRequest that sets sysName.0 to the Counter32 200, encoded without a zero octet before its
/// high bit.
const SET_COUNTER: [u8; 41] = [
    0x30, 0x27, 0x02, 0x01, 0x01, 0x04, 0x06, 0x70, 0x75, 0x62, 0x6C, 0x69, 0x63, 0xA3, 0x1A, 0x02,
    0x01, 0x01, 0x02, 0x01, 0x00, 0x02, 0x01, 0x00, 0x30, 0x0F, 0x30, 0x0D, 0x06, 0x08, 0x2B, 0x06,
    0x01, 0x02, 0x01, 0x01, 0x05, 0x00, 0x41, 0x01, 0xC8,
];

/// The Response to `SET_COUNTER`: notWritable, at the first binding, whose value has that zero
/// octet.
const NOT_SET_COUNTER: [u8; 42] = [
    0x30, 0x28, 0x02, 0x01, 0x01, 0x04, 0x06, 0x70, 0x75, 0x62, 0x6C, 0x69, 0x63, 0xA2, 0x1B, 0x02,
    0x01, 0x01, 0x02, 0x01, 0x11, 0x02, 0x01, 0x01, 0x30, 0x10, 0x30, 0x0E, 0x06, 0x08, 0x2B, 0x06,
    0x01, 0x02, 0x01, 0x01, 0x05, 0x00, 0x41, 0x02, 0x00, 0xC8,
];

#[test]
fn values_of_a_set_return_in_the_shortest_encoding(rt: HostRuntime) {
    let table = table_of(&rt, rt.alloc(), SYS_NAME);
    assert_reply(&rt, &table, 42, &SET_COUNTER, &NOT_SET_COUNTER);
    assert_reply(&rt, &table, 41, &SET_COUNTER, &TOO_BIG);
}

/// The GetNextRequest of 1.3.6.
const NEXT: [u8; 34] = [
    0x30, 0x20, 0x02, 0x01, 0x01, 0x04, 0x06, 0x70, 0x75, 0x62, 0x6C, 0x69, 0x63, 0xA1, 0x13, 0x02,
    0x01, 0x01, 0x02, 0x01, 0x00, 0x02, 0x01, 0x00, 0x30, 0x08, 0x30, 0x06, 0x06, 0x02, 0x2B, 0x06,
    0x05, 0x00,
];

/// Returns whether the reply to `NEXT` has the length of one with the name 1.3.6 followed by 125
/// times 4294967295, and has the first octets of this name at offset 36.
fn has_longest_name(table: &Table) -> bool {
    let mut out = [0; 65507];
    let name = [
        0x06, 0x82, 0x02, 0x73, 0x2B, 0x06, 0x8F, 0xFF, 0xFF, 0xFF, 0x7F,
    ];
    outcome(table, 1472, &NEXT, &mut out) == Outcome::Reply(670)
        && out.starts_with(&[0x30, 0x82, 0x02, 0x9A])
        && out[36..].starts_with(&name)
}

/// Asserts [`has_longest_name`].
fn assert_longest_name(rt: &impl Abort, table: &Table) {
    assert!(rt; has_longest_name(table));
}

#[test]
fn the_longest_name_is_returned(rt: HostRuntime) {
    let text = repeated_text(&rt, rt.alloc(), b"1.3.6", b".4294967295", 125, b"|2|1");
    let table = table_of(&rt, rt.alloc(), &text);
    assert_longest_name(&rt, &table);
    assert_reply(&rt, &table, 669, &NEXT, &TOO_BIG);
}

/// Asserts that `binding` has an encoding.
fn assert_encodable(rt: &impl Abort, binding: &Binding<'_>)
    ensures { IsEncodable (var_bind binding.now) }
{
    assert!(rt; binding.name.is_wire());
    assert!(rt; is_encodable(&binding.value));
}

/// Returns whether `value` has an encoding.
fn is_encodable(value: &ValueRef<'_>) -> bool
    ensures { IsTrue result → IsEncodableValue (datum value.now) }
{
    match value {
        ValueRef::Octets(text) | ValueRef::Opaque(text) => text.len() <= 65535,
        ValueRef::ObjectId(name) => name.is_wire(),
        _ => true,
    }
}

/// Returns the length of the bindings of a message, each in its shortest encoding.
fn octets_of_bindings(rt: &impl Abort, message: &MessageRef<'_>) -> u64 {
    let mut total: u64 = 0;
    for binding in message.bindings() {
        assert_encodable(rt, &binding);
        total = total.saturating_add(binding_size(&binding));
    }
    total
}

/// Writes the shortest encoding of a message up to its bindings, which take `total` octets, and
/// returns its length.
fn write_head(rt: &impl Abort, message: &MessageRef<'_>, total: u64, out: &mut [u8]) -> usize {
    let parts = Parts {
        version: message.version(),
        community: message.community(),
        kind: message.kind(),
        id: message.id(),
        a: message.a(),
        b: message.b(),
        bindings: &[],
    };
    assert!(rt; total <= 4_000_000_000 && parts.community.len() <= 65535);
    encode_head(&parts, total, out).expect(rt, "room for the head")
}

/// Asserts that `octets` are the shortest encoding of the message that they encode.
fn assert_shortest(rt: &impl Abort, octets: &[u8]) {
    let Ok(message) = decode(octets) else {
        panic!(rt; "expected a message")
    };
    let mut out = [0; 1472];
    let mut size = write_head(rt, &message, octets_of_bindings(rt, &message), &mut out);
    for binding in message.bindings() {
        assert_encodable(rt, &binding);
        assert!(rt; size <= out.len());
        let written = encode_binding(&binding, &mut out[size..]);
        size = size.saturating_add(written.expect(rt, "room for a binding"));
    }
    assert!(rt; out.get(..size) == Some(octets));
}

/// Replaces each octet of the request by each value. Asserts that the changed request is dropped,
/// or its reply is a message in its shortest encoding.
fn assert_messages(rt: &impl Abort, table: &Table, request: &[u8; 40]) {
    let mut out = [0; 65507];
    for offset in 0..40 {
        for octet in 0..=255 {
            let changed = with_octet(request, offset, octet);
            if let Outcome::Reply(size) = outcome(table, 1472, &changed, &mut out) {
                assert_shortest(rt, &out[..size.min(1472)]);
            }
        }
    }
}

#[test]
fn with_any_octet_changed_a_reply_is_in_its_shortest_encoding(rt: HostRuntime) {
    let table = table_of(&rt, rt.alloc(), SYS_NAME);
    assert_messages(&rt, &table, &GET);
    assert_messages(&rt, &table, &with_octet(&GET, 13, 0xA1));
    assert_messages(&rt, &table, &with_octet(&GET, 13, 0xA3));
    let bulk = with_octet(&with_octet(&GET, 13, 0xA5), 23, 0x02);
    assert_messages(&rt, &table, &bulk);
}
