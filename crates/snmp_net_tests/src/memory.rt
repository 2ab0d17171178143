//! Links and doors in memory. A door is the socket of a server.
ghost use Rattle.std.specs.Prelude.{◌≤◌, length};

use snmp_agent::{Config, Table};
use snmp_net::Links;
use snmp_net::memory::{MemoryAgent, MemoryLinks};
use snmp_walk::{Method, Mode, Sink, SinkFault, WalkCore, WalkEnd, run_walk};
use snmp_wire::{Binding, parse_numeric};
use std::alloc::Global;
use std::process::Abort;

/// The GetRequest of sysName.0, with community `public` and id 1.
const GET: [u8; 40] = [
    0x30, 0x26, 0x02, 0x01, 0x01, 0x04, 0x06, 0x70, 0x75, 0x62, 0x6C, 0x69, 0x63, 0xA0, 0x19, 0x02,
    0x01, 0x01, 0x02, 0x01, 0x00, 0x02, 0x01, 0x00, 0x30, 0x0E, 0x30, 0x0C, 0x06, 0x08, 0x2B, 0x06,
    0x01, 0x02, 0x01, 0x01, 0x05, 0x00, 0x05, 0x00,
];

/// The configuration of an agent with community `public`.
const PUBLIC: Config<'static> = Config {
    community: b"public",
    max_size: 1472,
};

/// A sink that takes each row.
#[derive(Drop)]
struct Any;

impl Sink for Any {
    ghost takes = { λ _ _ _ _. Unit {0} };

    fn row(&mut self, _binding: &Binding<'_>) -> Result<(), SinkFault> {
        Ok(())
    }
}

/// Asserts that the walk of `system` over the link to this port of host `a` returns `rows` rows.
fn assert_rows(rt: &impl Abort, links: &mut MemoryLinks<'_>, port: u16, rows: u64) {
    let root = parse_numeric(b"1.3.6.1.2.1.1").expect(rt, "a name");
    let core = WalkCore::start(root, Mode::NoLast, Method::Next, b"public", 1);
    let core = core.expect(rt, "a root that can be sent");
    let mut wire = links.open("a", port, 1).expect(rt, "a link");
    assert!(rt; run_walk(&mut wire, core, 0, &mut Any) == WalkEnd::Done(rows));
}

/// Returns whether links without a fault so far refuse a link to an address without an agent, and a
/// door at the address of an agent, and count each refusal as a fault.
fn are_refusals_counted(links: &mut MemoryLinks<'_>) -> bool {
    links.faults() == 0
        && links.open("b", 161, 1).is_err()
        && links.open("a", 163, 1).is_err()
        && links.bind("a", 161).is_err()
        && links.faults() == 3
}

/// Asserts that of four turns at a door, one replies to the Get, one drops a datagram that isn't a
/// message, and two are idle.
fn assert_served(rt: &impl Abort, links: &mut MemoryLinks<'_>, table: &Table) {
    let mut door = links.bind("b", 161).expect(rt, "a door");
    let served = links.serve(&mut door, table, &PUBLIC, 4);
    assert!(rt; served.replies == 1 && served.dropped == 1 && served.idle == 2);
}

/// Returns the table that `text` contains.
fn table_of(rt: &impl Abort, alloc: Global, text: &[u8]) -> Table {
    Table::read(alloc, text).expect(rt, "a table")
}

/// Returns the agent at this port of host `a`.
fn agent(port: u16, table: &Table) -> MemoryAgent<'_> {
    MemoryAgent {
        host: "a",
        port,
        table,
        config: PUBLIC,
        deliveries: &[],
    }
}

/// Asserts that links to three agents, two of them at one port, reach the first agent at each port.
fn assert_links(rt: &impl Abort, alloc: Global, one: &Table, none: &Table) {
    let agents = [agent(161, one), agent(162, none), agent(161, none)];
    let requests = [GET.as_slice(), b"no message".as_slice()];
    let mut links = MemoryLinks::new(alloc, &agents, &requests);
    assert_rows(rt, &mut links, 161, 1);
    assert_rows(rt, &mut links, 162, 0);
    assert!(rt; are_refusals_counted(&mut links));
    assert_served(rt, &mut links, one);
}

#[test]
fn links_reach_the_first_agent_at_a_port(rt: HostRuntime) {
    let one = table_of(&rt, rt.alloc(), b"1.3.6.1.2.1.1.5.0|4|wes\n");
    let none = table_of(&rt, rt.alloc(), b"");
    assert_links(&rt, rt.alloc(), &one, &none);
}
