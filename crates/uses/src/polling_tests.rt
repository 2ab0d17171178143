//! Tests of the functions that poll an agent, here one with three rows.

use crate::{Collected, Direct, Subtree, poll_again, poll_each, poll_twice};
use snmp_agent::{Config, Served, Table};
use snmp_net::{Links, MachineLinks, UdpLink};
use snmp_walk::{Link, LinkFault, MemoryLink, Method, StartError, WalkEnd};
use snmp_wire::{Oid, Value, parse_numeric};
use std::alloc::Global;
use std::net::{Net, UdpSocket};
use std::process::Abort;

const THREE: &[u8] =
    b"1.3.6.1.4.1.32473.1.1.0|2|1\n1.3.6.1.4.1.32473.1.2.0|2|2\n1.3.6.1.4.1.32473.2.10.0|4|wes\n";

pub(crate) fn public() -> Config<'static> {
    Config {
        community: b"public",
        max_size: 1472,
    }
}

fn three(rt: &impl Abort, alloc: Global) -> Table {
    Table::read(alloc, THREE).expect(rt, "a table")
}

pub(crate) fn name(rt: &impl Abort, text: &[u8]) -> Oid {
    parse_numeric(text).expect(rt, "a name")
}

/// Returns whether the rows are the two of the first subtree.
fn are_first_two(rt: &impl Abort, rows: &Collected) -> bool {
    match rows.as_slice() {
        [one, two] => {
            one.name == name(rt, b"1.3.6.1.4.1.32473.1.1.0")
                && matches!(one.value, Value::Integer(1))
                && two.name == name(rt, b"1.3.6.1.4.1.32473.1.2.0")
                && matches!(two.value, Value::Integer(2))
        }
        _ => false,
    }
}

/// Returns whether the only row is the one of the second subtree.
fn is_last(rt: &impl Abort, rows: &Collected) -> bool {
    match rows.as_slice() {
        [row] => {
            row.name == name(rt, b"1.3.6.1.4.1.32473.2.10.0")
                && matches!(&row.value, Value::Octets(text) if text.as_slice() == b"wes".as_slice())
        }
        _ => false,
    }
}

#[test]
fn two_subtrees_are_polled_over_one_link(rt: HostRuntime) {
    let alloc = rt.alloc();
    let table = three(&rt, alloc);
    // The first reply doesn't arrive in time, but late, during the second poll.
    let deliveries = [None, Some(2), Some(3), Some(4), Some(1)];
    let mut link = MemoryLink::new(alloc, &table, public(), &deliveries);
    let mut rows = Collected::new(alloc);
    let mut more = Collected::new(alloc);
    let ends = poll_twice(
        &mut link,
        (
            name(&rt, b"1.3.6.1.4.1.32473.1"),
            name(&rt, b"1.3.6.1.4.1.32473.2"),
        ),
        Method::Next,
        b"public",
        1,
        &mut rows,
        &mut more,
    );
    assert!(&rt; ends == Ok((WalkEnd::Done(2), WalkEnd::Done(1))));
    assert!(&rt; are_first_two(&rt, &rows));
    assert!(&rt; is_last(&rt, &more));
}

#[test]
fn an_agent_in_memory_is_polled_again(rt: HostRuntime) {
    let alloc = rt.alloc();
    let table = three(&rt, alloc);
    let mut link = Direct::new(alloc, &table, public());
    for _ in 0..2 {
        let mut rows = Collected::new(alloc);
        let root = name(&rt, b"1.3.6.1.4.1.32473.1");
        let end = poll_again(&mut link, root, Method::Bulk(10), &mut rows);
        assert!(&rt; end == Ok(WalkEnd::Done(2)));
        assert!(&rt; are_first_two(&rt, &rows));
    }
}

/// A link over UDP. Before each receive, an agent in the same process receives once at the other
/// end, and sends its reply if it has one.
#[derive(Drop)]
struct Looped<'a, N> {
    wire: UdpLink,
    links: MachineLinks<N>,
    door: UdpSocket,
    table: &'a Table,
    served: Served,
}

impl<'a, N: Net> Link for Looped<'a, N> {
    ghost use Rattle.std.specs.Prelude.{[]};

    ghost records = { λ _. ⊥ };

    ghost honest = { λ _. ⊥ };

    ghost agents = { λ _. record { tables = []; community = []; max_size = 0 } };

    ghost traffic = { λ _. record { sent = []; ahead = [] } };

    ghost fault_count = { λ l. l.wire.faults };

    ghost ready = { λ _ _ _. ⊥ };

    ghost delivers = { λ _ _ _. Unit {0} };

    ghost recording = { λ _ h. h };

    ghost lawful = { λ _ h. absurd h };

    fn send(&mut self, datagram: &[u8]) -> Result<(), LinkFault> {
        self.wire.send(datagram)
    }

    fn receive(&mut self, buffer: &mut [u8]) -> Result<Option<usize>, LinkFault> {
        self.served = self.links.serve(&mut self.door, self.table, &public(), 1);
        self.wire.receive(buffer)
    }

    fn faults(&self) -> u64 {
        self.wire.faults()
    }
}

/// Polls a root that can't be sent, and the two subtrees, over this link.
fn poll_three<L: Link>(rt: &impl Abort, alloc: Global, link: &mut L) -> Vec<Subtree> {
    let roots = [
        name(rt, b"3.1"),
        name(rt, b"1.3.6.1.4.1.32473.1"),
        name(rt, b"1.3.6.1.4.1.32473.2"),
    ];
    let subtrees = poll_each(alloc, link, b"public", &roots);
    subtrees.expect(rt, "memory")
}

#[test]
fn subtrees_are_polled_over_udp(rt: HostRuntime) {
    let alloc = rt.alloc();
    let table = three(&rt, alloc);
    let mut links = MachineLinks::new(&rt);
    let door = links.bind("127.0.0.1", 0).expect(&rt, "a door");
    let port = door.local_addr().expect(&rt, "an address").port();
    let wire = UdpLink::open(&rt, "127.0.0.1", port, 1).expect(&rt, "a link");
    let mut looped = Looped {
        wire,
        links,
        door,
        table: &table,
        served: Served::default(),
    };
    let subtrees = poll_three(&rt, alloc, &mut looped);
    assert!(&rt; subtrees.len() == 3);
    assert!(&rt; subtrees[0].end == Err(StartError::NotWire));
    assert!(&rt; subtrees[1].end == Ok(WalkEnd::Done(2)));
    assert!(&rt; are_first_two(&rt, &subtrees[1].rows));
    assert!(&rt; subtrees[2].end == Ok(WalkEnd::Done(1)));
    assert!(&rt; is_last(&rt, &subtrees[2].rows));
}
