//! Links to agents, and doors (the sockets of servers), by the machine's UDP sockets.
ghost use Rattle.std.specs.{Prelude.◌≡◌, Prelude.◌<◌, Prelude.ℕ, Duration.as_nanos};
ghost use Rattle.snmp_io.specs.Count.{HasIncreased};

use crate::links::Links;
use crate::udp::{UdpLink, first_address};
use snmp_agent::{Config, Served, Table};
use snmp_walk::LinkFault;
use std::net::{Net, UdpSocket};
use std::time::Duration;

/// Links to agents, and doors (the sockets of servers), over UDP. Contracts say only how many
/// calls of `open` and `bind` failed, and that the counts of `serve` add up to its turns.
#[derive(Drop)]
pub struct MachineLinks<N> {
    net: N,
    faults: u64,
}

impl<N> MachineLinks<N> {
    ghost use Rattle.std.specs.Prelude.{◌≡◌};

    /// Returns links through the network `net`, with no failed call yet.
    pub fn new(net: N) -> MachineLinks<N>
        ensures { result.faults ≡ 0 }
    {
        MachineLinks { net, faults: 0 }
    }

    /// Counts a fault and returns it.
    fn fault(&mut self) -> LinkFault
        ensures { HasIncreased self.old.faults self.new.faults }
    {
        self.faults = self.faults.saturating_add(1);
        LinkFault
    }
}

impl<N: Net> Links for MachineLinks<N> {
    type Wire = UdpLink;

    type Door = UdpSocket;

    ghost opens = { λ _ _ _ _ _ _. Unit {0} };

    ghost closes = { λ _ _ _. Unit {0} };

    ghost binds = { λ _ _ _ _ _. Unit {0} };

    ghost serves = { λ _ _ _ _ _ _ _. Unit {0} };

    ghost fails = { λ _ _. Unit {0} };

    ghost fault_count = { λ links. links.faults };

    fn open(&mut self, host: &str, port: u16, seconds: u64) -> Result<UdpLink, LinkFault> {
        match UdpLink::open(&self.net, host, port, seconds) {
            Ok(link) => Ok(link),
            Err(_) => Err(self.fault()),
        }
    }

    fn close(&mut self, _wire: UdpLink) {}

    fn bind(&mut self, host: &str, port: u16) -> Result<UdpSocket, LinkFault> {
        match bind_socket(&self.net, host, port) {
            Some(socket) => Ok(socket),
            None => Err(self.fault()),
        }
    }

    fn serve(
        &mut self,
        door: &mut UdpSocket,
        table: &Table,
        config: &Config<'_>,
        turns: u64,
    ) -> Served {
        snmp_agent::serve(door, table, config, turns)
    }

    fn faults(&self) -> u64 {
        self.faults
    }
}

/// Returns a socket bound to `port` of the first IPv4 address of `host`. A receive from it waits
/// up to one second. Returns `None` if no such address is found, or if the system refuses the
/// socket or its time limit.
fn bind_socket<N: Net>(net: &N, host: &str, port: u16) -> Option<UdpSocket> {
    let socket = UdpSocket::bind(net, first_address(net, host, port)?).ok()?;
    socket.set_read_timeout(Some(turn_time())).ok()?;
    Some(socket)
}

/// Returns the longest time that a server waits for a request in a turn: one second.
fn turn_time() -> Duration
    ensures { as_nanos result ≡ 1_000_000_000 }
{
    Duration::from_secs(1)
}
