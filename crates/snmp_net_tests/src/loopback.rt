//! Walks over UDP sockets of this machine, in one process without threads.
ghost use Rattle.std.specs.Prelude.{◌≤◌, length};
ghost use Rattle.snmp_walk.specs.Facts.{IsFresh};

use snmp_agent::{Config, Served, Table};
use snmp_net::{Links, MachineLinks, UdpLink};
use snmp_walk::{Link, LinkFault, Method, Mode, Sink, SinkFault, WalkCore, WalkEnd, run_walk};
use snmp_wire::{Binding, ValueRef, parse_numeric};
use std::alloc::Global;
use std::net::{Net, SocketAddr, UdpSocket};
use std::process::Abort;
use std::time::Duration;

/// Three rows that aren't in order.
const THREE: &[u8] =
    b"1.3.6.1.4.1.32473.1.10.0|2|3\n1.3.6.1.4.1.32473.1.2.0|4|wes\n1.3.6.1.4.1.32473.1.1.0|2|1\n";

/// Returns the configuration of an agent with community `public`.
fn public() -> Config<'static> {
    Config {
        community: b"public",
        max_size: 1472,
    }
}

/// Returns the walk of the three rows.
fn core_of(rt: &impl Abort) -> WalkCore
    ensures { IsFresh result }
{
    let root = parse_numeric(b"1.3.6.1.4.1.32473.1").expect(rt, "a name");
    let core = WalkCore::start(root, Mode::Plain, Method::Next, b"public", 1);
    core.expect(rt, "a root that can be sent")
}

/// Returns the table of the three rows.
fn three(rt: &impl Abort, alloc: Global) -> Table {
    Table::read(alloc, THREE).expect(rt, "a table")
}

/// A sink that counts the rows and makes a number of them. For each row it appends to `number` the
/// ninth number of the name, if there is one. Then it appends the absolute value of an integer, or
/// 50 for the string `wes`. To append a number is to add it to a hundred times `number`, modulo
/// 2^64.
#[derive(Drop)]
struct Columns {
    number: u64,
    rows: usize,
}

impl Columns {
    fn add(&mut self, digit: u64) {
        self.number = self.number.wrapping_mul(100).wrapping_add(digit);
    }
}

impl Sink for Columns {
    ghost takes = { λ _ _ _ _. Unit {0} };

    fn row(&mut self, binding: &Binding<'_>) -> Result<(), SinkFault> {
        self.rows = self.rows.saturating_add(1);
        if let Some(column) = binding.name.as_slice().get(8) {
            self.add(u64::from(*column));
        }
        match binding.value {
            ValueRef::Integer(number) => self.add(u64::from(number.unsigned_abs())),
            ValueRef::Octets(b"wes") => self.add(50),
            _ => {}
        }
        Ok(())
    }
}

/// A link whose agent is in the same process, and serves one turn before each receive.
#[derive(Drop)]
struct Looped<'a, N> {
    wire: UdpLink,
    links: MachineLinks<N>,
    door: UdpSocket,
    table: &'a Table,
    served: Served,
}

impl<'a, N: Net> Link for Looped<'a, N> {
    ghost use Rattle.std.specs.Prelude.{[]};

    ghost records = { λ _. ⊥ };

    ghost honest = { λ _. ⊥ };

    ghost agents = { λ _. record { tables = []; community = []; max_size = 0 } };

    ghost traffic = { λ _. record { sent = []; ahead = [] } };

    ghost fault_count = { λ l. l.wire.faults };

    ghost ready = { λ _ _ _. ⊥ };

    ghost delivers = { λ _ _ _. Unit {0} };

    ghost recording = { λ _ h. h };

    ghost lawful = { λ _ h. absurd h };

    fn send(&mut self, datagram: &[u8]) -> Result<(), LinkFault> {
        self.wire.send(datagram)
    }

    fn receive(&mut self, buffer: &mut [u8]) -> Result<Option<usize>, LinkFault> {
        let turn = self.links.serve(&mut self.door, self.table, &public(), 1);
        self.served.replies = self.served.replies.wrapping_add(turn.replies);
        self.served.dropped = self.served.dropped.wrapping_add(turn.dropped);
        self.served.idle = self.served.idle.wrapping_add(turn.idle);
        self.served.faults = self.served.faults.wrapping_add(turn.faults);
        self.wire.receive(buffer)
    }

    fn faults(&self) -> u64 {
        self.wire.faults()
    }
}

/// Opens a door, the socket of a server, at a free port.
fn open_door<N: Net>(rt: &impl Abort, links: &mut MachineLinks<N>) -> UdpSocket {
    links.bind("127.0.0.1", 0).expect(rt, "a door")
}

/// Returns the port of `door`.
fn port_of(rt: &impl Abort, door: &UdpSocket) -> u16 {
    door.local_addr().expect(rt, "the address of a door").port()
}

/// Opens a link to `door`.
fn wire_to<N: Net>(rt: &impl Abort, links: &mut MachineLinks<N>, door: &UdpSocket) -> UdpLink {
    links
        .open("127.0.0.1", port_of(rt, door), 1)
        .expect(rt, "a link")
}

/// Runs a walk over `link`, and returns whether it ends with `end`, has `rows` rows, and `Columns`
/// makes `number` of them.
fn walk_returns<L: Link>(
    link: &mut L,
    core: WalkCore,
    retries: u32,
    end: &WalkEnd,
    rows: usize,
    number: u64,
) -> bool
    requires { IsFresh core }
{
    let mut columns = Columns { number: 0, rows: 0 };
    run_walk(link, core, retries, &mut columns) == *end
        && columns.rows == rows
        && columns.number == number
}

/// Returns whether a walk returns the three rows, and took four turns of the agent with a reply
/// each, without a fault.
fn returns_each_row<N: Net>(looped: &mut Looped<'_, N>, core: WalkCore) -> bool
    requires { IsFresh core }
{
    let served = Served {
        replies: 4,
        dropped: 0,
        idle: 0,
        faults: 0,
    };
    walk_returns(looped, core, 0, &WalkEnd::Done(3), 3, 10102501003)
        && looped.served == served
        && looped.faults() == 0
        && looped.links.faults() == 0
}

/// Asserts that a walk over `wire`, whose agent serves the table of the three rows at `door`,
/// returns each of them.
fn assert_each_row<N: Net + Drop>(
    rt: &impl Abort,
    alloc: Global,
    links: MachineLinks<N>,
    door: UdpSocket,
    wire: UdpLink,
) {
    let table = three(rt, alloc);
    let mut looped = Looped {
        wire,
        links,
        door,
        table: &table,
        served: Served::default(),
    };
    assert!(rt; returns_each_row(&mut looped, core_of(rt)));
}

#[test]
fn a_walk_over_loopback_returns_each_row(rt: HostRuntime) {
    let mut links = MachineLinks::new(&rt);
    let door = open_door(&rt, &mut links);
    let wire = wire_to(&rt, &mut links, &door);
    assert_each_row(&rt, rt.alloc(), links, door, wire);
}

#[test]
fn a_walk_over_a_link_of_the_caller_returns_each_row(rt: HostRuntime) {
    let mut links = MachineLinks::new(&rt);
    let door = open_door(&rt, &mut links);
    let wire = UdpLink::open(&rt, "127.0.0.1", port_of(&rt, &door), 1).expect(&rt, "a link");
    assert_each_row(&rt, rt.alloc(), links, door, wire);
}

/// Returns the next datagram that arrives at `door`, in `buffer`.
fn next_datagram<'a>(rt: &impl Abort, door: &UdpSocket, buffer: &'a mut [u8; 1472]) -> &'a [u8] {
    let (size, _) = door.recv_from(buffer).expect(rt, "a datagram");
    buffer.get(..size).unwrap_or(&[])
}

/// Returns whether two equal datagrams arrived at `door` that aren't empty, and no third.
fn has_two_alike(rt: &impl Abort, door: &UdpSocket) -> bool {
    let mut first = [0; 1472];
    let mut second = [0; 1472];
    let mut third = [0; 1472];
    let request = next_datagram(rt, door, &mut first);
    !request.is_empty()
        && request == next_datagram(rt, door, &mut second)
        && door.recv_from(&mut third).is_err()
}

/// Asserts that a walk over `wire` with one retry sends its first request twice and returns
/// nothing, if no reply is sent from `door`.
fn assert_silent(rt: &impl Abort, wire: &mut UdpLink, door: &UdpSocket) {
    assert!(rt; walk_returns(wire, core_of(rt), 1, &WalkEnd::NoResponse, 0, 0));
    assert!(rt; wire.faults() == 0);
    assert!(rt; has_two_alike(rt, door));
}

#[test]
fn a_silent_agent_is_asked_again_once_per_retry(rt: HostRuntime) {
    let mut links = MachineLinks::new(&rt);
    let door = open_door(&rt, &mut links);
    let mut wire = wire_to(&rt, &mut links, &door);
    assert_silent(&rt, &mut wire, &door);
}

/// Asserts that a request that is sent over `wire` arrives at `door`, and returns its sender.
fn sender_of(rt: &impl Abort, wire: &mut UdpLink, door: &UdpSocket) -> SocketAddr {
    let mut buffer = [0; 1472];
    assert!(rt; wire.send(b"request").is_ok());
    let (size, sender) = door.recv_from(&mut buffer).expect(rt, "the request");
    assert!(rt; &buffer[..size] == b"request".as_slice());
    sender
}

/// Returns whether `wire` receives an empty datagram, in place of one from another sender, then the
/// reply, and nothing more.
fn receives_reply(wire: &mut UdpLink) -> bool {
    let mut buffer = [0; 1472];
    wire.receive(&mut buffer) == Ok(Some(0))
        && wire.receive(&mut buffer) == Ok(Some(5))
        && buffer.starts_with(b"reply")
        && wire.receive(&mut buffer) == Ok(None)
        && wire.faults() == 0
}

/// Sends two datagrams to `wire`, the first from `other`. Asserts that only the one from `door`
/// arrives as the reply.
fn assert_reply(rt: &impl Abort, wire: &mut UdpLink, door: &UdpSocket, other: &UdpSocket) {
    let sender = sender_of(rt, wire, door);
    assert!(rt; other.send_to(b"another", sender).is_ok());
    assert!(rt; door.send_to(b"reply", sender).is_ok());
    assert!(rt; receives_reply(wire));
}

#[test]
fn a_datagram_from_another_sender_is_a_stray(rt: HostRuntime) {
    let mut links = MachineLinks::new(&rt);
    let door = open_door(&rt, &mut links);
    let other = open_door(&rt, &mut links);
    let mut wire = wire_to(&rt, &mut links, &door);
    assert_reply(&rt, &mut wire, &door, &other);
}

/// Returns whether no link to `host` is opened, and this is fault number `number`.
fn is_open_refused<N: Net>(links: &mut MachineLinks<N>, host: &str, number: u64) -> bool {
    links.open(host, 161, 1).is_err() && links.faults() == number
}

/// Returns whether no door at this port of `host` is opened, and this is fault number `number`.
fn is_bind_refused<N: Net>(
    links: &mut MachineLinks<N>,
    host: &str,
    port: u16,
    number: u64,
) -> bool {
    links.bind(host, port).is_err() && links.faults() == number
}

/// Returns whether the port of an open door is refused, and this is the third fault.
fn is_port_refused<N: Net>(rt: &impl Abort, links: &mut MachineLinks<N>) -> bool {
    let door = open_door(rt, links);
    is_bind_refused(links, "127.0.0.1", port_of(rt, &door), 3)
}

/// Returns whether a datagram that is too long isn't sent, and this is the first fault.
fn is_send_refused<N: Net>(rt: &impl Abort, links: &mut MachineLinks<N>) -> bool {
    let mut wire = links.open("127.0.0.1", 1, 1).expect(rt, "a link");
    wire.send(&[0; 65508]).is_err() && wire.faults() == 1
}

#[test]
fn each_failed_call_is_counted(rt: HostRuntime) {
    let mut links = MachineLinks::new(&rt);
    assert!(rt; is_open_refused(&mut links, "::1", 1));
    assert!(rt; UdpLink::open(&rt, "::1", 161, 1).is_err());
    assert!(rt; is_bind_refused(&mut links, "::1", 161, 2));
    assert!(rt; is_port_refused(&rt, &mut links));
    assert!(rt; is_send_refused(&rt, &mut links));
}

/// Returns whether a receive at `door` waits for a datagram for a second at most.
fn waits_a_second(door: &UdpSocket) -> bool {
    matches!(door.read_timeout(), Ok(Some(time)) if time == Duration::from_secs(1))
}

/// Returns whether a receive at a new door waits for a second at most, and a turn at this door,
/// where nothing arrives, is idle.
fn is_idle_turn<N: Net>(rt: &impl Abort, links: &mut MachineLinks<N>, table: &Table) -> bool {
    let mut door = links.bind("localhost", 0).expect(rt, "a door");
    waits_a_second(&door) && links.serve(&mut door, table, &public(), 1).idle == 1
}

#[test]
fn a_turn_waits_for_a_second_at_most(rt: HostRuntime) {
    let table = three(&rt, rt.alloc());
    assert!(rt; is_idle_turn(&rt, &mut MachineLinks::new(&rt), &table));
}
