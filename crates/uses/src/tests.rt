//! Tests of `trap_oid` and `put_and_remove`.

use crate::{put_and_remove, trap_oid};
use snmp_agent::{Config, Table};
use snmp_wire::{ValueRef, decode, parse_numeric};
use std::process::Abort;

/// A linkDown notification (RFC 2863) of interface 2, as a device sends it: sysUpTime.0 is 12345,
/// snmpTrapOID.0 is linkDown, and ifIndex.2 is 2.
const LINK_DOWN: [u8; 87] = [
    0x30, 0x55, 0x02, 0x01, 0x01, 0x04, 0x06, 0x70, 0x75, 0x62, 0x6C, 0x69, 0x63, 0xA7, 0x48, 0x02,
    0x04, 0x1A, 0x2B, 0x3C, 0x4D, 0x02, 0x01, 0x00, 0x02, 0x01, 0x00, 0x30, 0x3A, 0x30, 0x0E, 0x06,
    0x08, 0x2B, 0x06, 0x01, 0x02, 0x01, 0x01, 0x03, 0x00, 0x43, 0x02, 0x30, 0x39, 0x30, 0x17, 0x06,
    0x0A, 0x2B, 0x06, 0x01, 0x06, 0x03, 0x01, 0x01, 0x04, 0x01, 0x00, 0x06, 0x09, 0x2B, 0x06, 0x01,
    0x06, 0x03, 0x01, 0x01, 0x05, 0x03, 0x30, 0x0F, 0x06, 0x0A, 0x2B, 0x06, 0x01, 0x02, 0x01, 0x02,
    0x02, 0x01, 0x01, 0x02, 0x02, 0x01, 0x02,
];

#[test]
fn receives_a_trap(rt: HostRuntime) {
    let link_down = parse_numeric(b"1.3.6.1.6.3.1.1.5.3").expect(&rt, "a name");
    assert!(&rt; trap_oid(&LINK_DOWN) == Some(link_down));
    assert!(&rt; trap_oid(&LINK_DOWN[..86]).is_none());
}

#[test]
fn asks_after_changes(rt: HostRuntime) {
    let alloc = rt.alloc();
    let text = b"1.3.6.1.4.1.32473.1.1.0|2|1\nobject 1.3.6.1.4.1.32473.1.3\n";
    let mut table = Table::read(alloc, text).expect(&rt, "a table");
    let config = Config {
        community: b"public",
        max_size: 1472,
    };
    let name = parse_numeric(b"1.3.6.1.4.1.32473.1.3.0").expect(&rt, "a name");
    let mut first = [0; 65507];
    let mut second = [0; 65507];
    let value = ValueRef::Integer(7);
    let sizes = put_and_remove(&mut table, &config, &name, value, &mut first, &mut second);
    let (one, two) = sizes.expect(&rt, "an instance");
    let one = first.get(..one.expect(&rt, "a reply"));
    let two = second.get(..two.expect(&rt, "a reply"));
    let there = decode(one.expect(&rt, "octets")).expect(&rt, "a message");
    let gone = decode(two.expect(&rt, "octets")).expect(&rt, "a message");
    let there = there.bindings().next().expect(&rt, "a binding");
    let gone = gone.bindings().next().expect(&rt, "a binding");
    assert!(&rt; there.value == ValueRef::Integer(7));
    assert!(&rt; gone.value == ValueRef::NoSuchInstance);
}
