//! Receives from a link in memory into buffers of several lengths.

use crate::runs::{public, table_of};
use snmp_agent::Table;
use snmp_walk::{Link, LinkFault, MemoryLink};
use std::alloc::Global;
use std::process::Abort;

/// The GetRequest of 1.3.6.1.4.1.32473.8.1, with community `public` and id 1.
const GET: [u8; 42] = [
    0x30, 0x28, 0x02, 0x01, 0x01, 0x04, 0x06, 0x70, 0x75, 0x62, 0x6C, 0x69, 0x63, 0xA0, 0x1B, 0x02,
    0x01, 0x01, 0x02, 0x01, 0x00, 0x02, 0x01, 0x00, 0x30, 0x10, 0x30, 0x0E, 0x06, 0x0A, 0x2B, 0x06,
    0x01, 0x04, 0x01, 0x81, 0xFD, 0x59, 0x08, 0x01, 0x05, 0x00,
];

/// The Response to `GET`, with the integer 7.
const GOT: [u8; 43] = [
    0x30, 0x29, 0x02, 0x01, 0x01, 0x04, 0x06, 0x70, 0x75, 0x62, 0x6C, 0x69, 0x63, 0xA2, 0x1C, 0x02,
    0x01, 0x01, 0x02, 0x01, 0x00, 0x02, 0x01, 0x00, 0x30, 0x11, 0x30, 0x0F, 0x06, 0x0A, 0x2B, 0x06,
    0x01, 0x04, 0x01, 0x81, 0xFD, 0x59, 0x08, 0x01, 0x02, 0x01, 0x07,
];

/// Sends the Get with each of the ids 1, 2 and 3.
fn send_three(rt: &impl Abort, link: &mut MemoryLink<'_>) {
    for id in 1..4 {
        let mut request = GET;
        request[17] = id;
        assert!(rt; link.send(&request).is_ok());
    }
}

/// Returns whether a receive into a buffer of 65507 octets returns the Response with this id, and
/// `faults` calls failed so far.
fn receives(link: &mut MemoryLink<'_>, id: u8, faults: u64) -> bool {
    let mut buffer = [0; 65507];
    let mut reply = GOT;
    reply[17] = id;
    link.receive(&mut buffer) == Ok(Some(43))
        && buffer.starts_with(&reply)
        && link.faults() == faults
}

/// Returns whether a receive into a buffer of 65507 octets returns nothing.
fn receives_nothing(link: &mut MemoryLink<'_>) -> bool {
    let mut buffer = [0; 65507];
    link.receive(&mut buffer) == Ok(None)
}

/// Returns whether a receive into a buffer of 65508 octets returns a datagram of 43 octets, and
/// `faults` calls failed so far.
fn receives_into_longer(link: &mut MemoryLink<'_>, faults: u64) -> bool {
    let mut longer = [0; 65508];
    link.receive(&mut longer) == Ok(Some(43)) && link.faults() == faults
}

/// Returns whether a receive into `buffer` fails, as fault number `number`.
fn is_fault(link: &mut MemoryLink<'_>, buffer: &mut [u8], number: u64) -> bool {
    link.receive(buffer) == Err(LinkFault) && link.faults() == number
}

/// Returns whether the link delivers the reply to request 1, then nothing, then the replies to 2
/// and 3, and one more into a longer buffer. Each receive into a buffer of fewer than 65507 octets
/// must fail and use no delivery.
fn receives_all(link: &mut MemoryLink<'_>) -> bool {
    let mut short = [0; 65506];
    let mut exact = [0; 43];
    is_fault(link, &mut short, 1)
        && is_fault(link, &mut [], 2)
        && receives(link, 1, 2)
        && is_fault(link, &mut short, 3)
        && receives_nothing(link)
        && receives(link, 2, 3)
        && is_fault(link, &mut exact, 4)
        && receives(link, 3, 4)
        && receives_into_longer(link, 4)
}

/// Sends three requests over a link that delivers the first reply, nothing, and the second reply.
/// After these, it delivers the reply to the latest request. Returns [`receives_all`] of it.
fn are_received(rt: &impl Abort, alloc: Global, table: &Table) -> bool {
    let deliveries = [Some(1), None, Some(2)];
    let mut link = MemoryLink::new(alloc, table, public(1472), &deliveries);
    send_three(rt, &mut link);
    receives_all(&mut link)
}

#[test]
fn a_receive_into_a_short_buffer_is_a_fault_and_uses_no_delivery(rt: HostRuntime) {
    let table = table_of(&rt, rt.alloc(), b"1.3.6.1.4.1.32473.8.1|2|7");
    assert!(&rt; are_received(&rt, rt.alloc(), &table));
}
