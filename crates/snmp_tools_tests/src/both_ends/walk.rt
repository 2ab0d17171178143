//! The walk's end of a recorded network, at whose other end an agent replies.

use super::recorded::RecordedNetwork;
use snmp_agent::{Config, Served, Table, serve_at};
use snmp_net::Links;
use snmp_walk::{Delivery, Link, LinkFault};
use std::alloc::Global;
use std::mem;

/// A link over a recorded network to the agent of a table.
#[derive(Drop)]
pub struct RecordedLink<'a> {
    network: RecordedNetwork<'a>,
    table: &'a Table,
    config: Config<'a>,
    faults: u64,
}

impl<'a> RecordedLink<'a> {
    ghost use Rattle.std.specs.Prelude.{◌≡◌};
    ghost use Rattle.snmp_io.specs.Count.{HasIncreased};

    /// Counts a fault and returns it.
    fn fault(&mut self) -> LinkFault
        ensures counted { HasIncreased self.old.faults self.new.faults }
        ensures network { self.new.network ≡ self.old.network }
    {
        self.faults = self.faults.saturating_add(1);
        LinkFault
    }
}

impl<'a> Link for RecordedLink<'a> {
    ghost use Rattle.std.specs.Prelude.{[]};
    ghost use Rattle.snmp_agent.specs.Event.{came, receive_failed, send_failed, sent, silence};
    ghost use Rattle.snmp_walk.specs.{Link.Agents, Traffic.Traffic};
    ghost use Rattle.snmp_tools_tests.specs.Walk.{HappensAtWalk};

    ghost records = { λ _. ⊥ };

    ghost honest = { λ _. ⊥ };

    ghost agents = { λ _. record { tables = []; community = []; max_size = 0 } };

    // The traffic lists no datagram: the record is in `network`.
    ghost traffic = { λ _. record { sent = []; ahead = [] } };

    ghost fault_count = { λ link. link.faults };

    ghost ready = { λ _ _ _. ⊥ };

    ghost delivers = { λ old d new. HappensAtWalk old (came tt d) new };

    ghost sends = { λ old d new. HappensAtWalk old (sent tt d) new };

    ghost send_fails = { λ old d new. HappensAtWalk old (send_failed tt d) new };

    ghost is_silent = { λ old new. HappensAtWalk old silence new };

    ghost receive_fails = { λ old new. HappensAtWalk old receive_failed new };

    ghost recording = { λ _ h. h };

    ghost lawful = { λ _ h. absurd h };

    fn send(&mut self, datagram: &[u8]) -> Result<(), LinkFault> {
        match self.network.send(datagram) {
            Ok(()) => Ok(()),
            Err(_) => Err(self.fault()),
        }
    }

    /// Lets the agent have its turns, and then receives for the walk.
    fn receive(&mut self, buffer: &mut [u8]) -> Result<Option<usize>, LinkFault> {
        let turns = self.network.turns();
        serve_at(&mut self.network, self.table, &self.config, turns);
        match self.network.receive_reply(buffer) {
            Ok(got) => Ok(got),
            Err(_) => Err(self.fault()),
        }
    }

    fn faults(&self) -> u64 {
        self.faults
    }
}

/// A door, the socket of a server. It is never opened.
#[derive(Drop)]
pub struct NoDoor;

/// The walk's end of a recorded network. Each link is to the agent at its other end. While a link
/// is open, the network is in this link.
#[derive(Drop)]
pub struct WalkLinks<'a> {
    alloc: Global,
    pub(crate) network: RecordedNetwork<'a>,
    table: &'a Table,
    config: Config<'a>,
    faults: u64,
}

impl<'a> WalkLinks<'a> {
    ghost use Rattle.std.specs.Prelude.{◌≡◌, []};

    /// Returns the walk's end of a new network, which delivers as a [`MemoryNetwork`] with this
    /// list does. The agent at its other end serves `table`.
    ///
    /// [`MemoryNetwork`]: snmp_walk::MemoryNetwork
    pub fn new(
        alloc: Global,
        deliveries: &'a [Delivery],
        table: &'a Table,
        config: Config<'a>,
    ) -> WalkLinks<'a>
        ensures { result.network.run ≡ [] }
    {
        WalkLinks {
            alloc,
            network: RecordedNetwork::new(alloc, deliveries),
            table,
            config,
            faults: 0,
        }
    }
}

impl<'a> Links for WalkLinks<'a> {
    ghost use Rattle.std.specs.Prelude.{◌≡◌};

    type Wire = RecordedLink<'a>;

    type Door = NoDoor;

    ghost opens = { λ old _ _ _ link _. link.network ≡ old.network };

    ghost closes = { λ _ link new. new.network ≡ link.network };

    ghost binds = { λ _ _ _ _ _. ⊥ };

    ghost serves = { λ _ _ _ _ _ _ _. Unit {0} };

    ghost fails = { λ old new. new.network ≡ old.network };

    ghost fault_count = { λ links. links.faults };

    fn open(
        &mut self,
        _host: &str,
        _port: u16,
        _seconds: u64,
    ) -> Result<RecordedLink<'a>, LinkFault> {
        let none = RecordedNetwork::new(self.alloc, &[]);
        Ok(RecordedLink {
            network: mem::replace(&mut self.network, none),
            table: self.table,
            config: self.config,
            faults: 0,
        })
    }

    fn close(&mut self, link: RecordedLink<'a>) {
        self.network = link.network;
    }

    fn bind(&mut self, _host: &str, _port: u16) -> Result<NoDoor, LinkFault> {
        self.faults = self.faults.saturating_add(1);
        Err(LinkFault)
    }

    fn serve(
        &mut self,
        _door: &mut NoDoor,
        _table: &Table,
        _config: &Config<'_>,
        turns: u64,
    ) -> Served {
        Served {
            idle: turns,
            ..Served::default()
        }
    }

    fn faults(&self) -> u64 {
        self.faults
    }
}
