//! Links to agents in memory, and doors (server sockets) in memory, for tests and measurements.
ghost use Rattle.std.specs.Prelude.{◌≡◌, ◌<◌, ◌≤◌, ℕ, List, Option, IfOk, IfSome, IfNone, length};
ghost use Rattle.snmp_io.specs.Count.{HasIncreased};
ghost use Rattle.snmp_net.specs.Memory.{AreServed, BindsAt, OpensTo, agent_at};

use crate::links::Links;
use snmp_agent::{Config, Endpoint, EndpointFault, Served, Table, serve_at};
use snmp_walk::{LinkFault, MemoryLink};
use std::alloc::Global;

/// An agent in memory, with its host and port.
#[derive(Clone, Copy)]
pub struct MemoryAgent<'a> {
    /// The host.
    pub host: &'a str,
    /// The port.
    pub port: u16,
    /// The table that it serves.
    pub table: &'a Table,
    /// Its community, and the greatest size of its messages.
    pub config: Config<'a>,
    /// What the receives over a link to it deliver, in order: the reply to the k-th datagram sent,
    /// counted from 1 (`Some(k)`), or nothing (`None`). Later receives deliver the reply to the
    /// latest datagram. If there is no such datagram, or no reply to it, nothing is delivered.
    pub deliveries: &'a [Option<usize>],
}

/// Links to agents in memory, and doors in memory, which replace the sockets of servers.
#[derive(Drop)]
pub struct MemoryLinks<'a> {
    alloc: Global,
    agents: &'a [MemoryAgent<'a>],
    requests: &'a [&'a [u8]],
    faults: u64,
}

impl<'a> MemoryLinks<'a> {
    ghost use Rattle.std.specs.Prelude.{◌≡◌};

    /// Returns links to `agents`, and doors: at each door, all of `requests` arrive in order. If
    /// several agents have the same host and port, a link reaches the first of them.
    pub fn new(
        alloc: Global,
        agents: &'a [MemoryAgent<'a>],
        requests: &'a [&'a [u8]],
    ) -> MemoryLinks<'a>
        ensures agents { result.agents.now ≡ agents.now }
        ensures requests { result.requests.now ≡ requests.now }
        ensures no_fault { result.faults ≡ 0 }
    {
        MemoryLinks {
            alloc,
            agents,
            requests,
            faults: 0,
        }
    }

    /// Counts a fault and returns it.
    fn fault(&mut self) -> LinkFault
        ensures counted { HasIncreased self.old.faults self.new.faults }
        ensures agents { self.new.agents ≡ self.old.agents }
        ensures requests { self.new.requests ≡ self.old.requests }
    {
        self.faults = self.faults.saturating_add(1);
        LinkFault
    }
}

impl<'a> Links for MemoryLinks<'a> {
    ghost use Rattle.std.specs.Prelude.{◌≡◌, ◌+◌};
    ghost use Rattle.snmp_io.specs.Count.{HasIncreasedBy};
    ghost use Rattle.snmp_agent.specs.Reply.{agent_of};

    type Wire = MemoryLink<'a>;

    type Door = MemoryDoor<'a>;

    ghost opens = { λ old host port _ link new.
        OpensTo old.agents.now host port link × (new ≡ old) };

    ghost closes = { λ old _ new. new ≡ old };

    ghost binds = { λ old host port door new.
        BindsAt old.agents.now old.requests.now host port door × (new ≡ old) };

    ghost serves = { λ old door agent turns served new after.
        AreServed door agent turns served after × (new ≡ old) };

    ghost fails = { λ old new. (new.agents ≡ old.agents) × (new.requests ≡ old.requests) };

    ghost fault_count = { λ links. links.faults };

    fn open(&mut self, host: &str, port: u16, _seconds: u64) -> Result<MemoryLink<'a>, LinkFault> {
        match agent_at(self.agents, host, port) {
            Some(agent) => Ok(MemoryLink::new(
                self.alloc,
                agent.table,
                agent.config,
                agent.deliveries,
            )),
            None => Err(self.fault()),
        }
    }

    fn close(&mut self, _wire: MemoryLink<'a>) {}

    fn bind(&mut self, host: &str, port: u16) -> Result<MemoryDoor<'a>, LinkFault> {
        match agent_at(self.agents, host, port) {
            None => Ok(MemoryDoor {
                requests: self.requests,
                used: 0,
                faults: 0,
            }),
            Some(_) => Err(self.fault()),
        }
    }

    /// Serves the requests that arrive at the door, which counts each fault.
    fn serve(
        &mut self,
        door: &mut MemoryDoor<'a>,
        table: &Table,
        config: &Config<'_>,
        turns: u64,
    ) -> Served
        ensures adds_up { result.replies + result.dropped + result.idle + result.faults ≡ turns }
        ensures served { AreServed door.old (agent_of table.now config.now) turns result door.new
            × (self.new ≡ self.old) }
        ensures faults { HasIncreasedBy result.faults door.old.faults door.new.faults }
        ensures count { self.new.faults ≡ self.old.faults }
    {
        serve_at(door, table, config, turns)
    }

    fn faults(&self) -> u64 {
        self.faults
    }
}

/// Returns the first of `agents` with this host and port, if there is one.
fn agent_at<'a>(agents: &'a [MemoryAgent<'a>], host: &str, port: u16) -> Option<MemoryAgent<'a>>
    ensures { result ≡ agent_at agents.now host.now port }
{
    'agents: for agent in agents {
        if agent.host == host && agent.port == port {
            return Some(*agent);
        }
    }
    None
}

/// A door whose requests come from memory, one a turn, and none after the last. Replies are
/// dropped.
#[derive(Drop)]
pub struct MemoryDoor<'a> {
    requests: &'a [&'a [u8]],
    used: usize,
    faults: u64,
}

impl<'a> Endpoint for MemoryDoor<'a> {
    ghost use Rattle.std.specs.Prelude.{◌≡◌, ◌<◌, ◌≤◌, ℕ, List, [], ◌∷◌, length, take};
    ghost use Rattle.std.specs.Prelude.{IfOk, IfSome, IfNone, OnErr, OnOk};
    ghost use Rattle.snmp_io.specs.Count.{HasIncreased};
    ghost use Rattle.snmp_agent.specs.Event.{event_of_receive, event_of_reply};
    ghost use Rattle.snmp_net.specs.Memory.{HappensAtDoor, ahead_of};

    type Peer = ();

    ghost happens = { HappensAtDoor };

    ghost fault_count = { λ door. door.faults };

    /// Receives the next request, or nothing after the last. Fails if the request is longer than
    /// the buffer: counts a fault, and skips the request.
    fn receive(&mut self, buffer: &mut [u8]) -> Result<Option<(usize, ())>, EndpointFault>
        ensures bound { IfOk result (λ received. IfSome received (λ r. r.0 ≤ length buffer.new)) }
        ensures happens { 65507 ≤ length buffer.old
            → HappensAtDoor self.old (event_of_receive result buffer.new) self.new }
        ensures next { IfOk result (λ received. IfSome received
            (λ r. ahead_of self.old ≡ take r.0 buffer.new ∷ ahead_of self.new)) }
        ensures silent_after_the_last { IfOk result (λ received. IfNone received
            ((ahead_of self.old ≡ []) × (ahead_of self.new ≡ []))) }
        ensures skipped_where_too_long { OnErr result ((request : List ℕ)
            × (ahead_of self.old ≡ request ∷ ahead_of self.new)
            × (length buffer.old < length request)) }
        ensures count { OnOk result (self.new.faults ≡ self.old.faults) }
        ensures fault { OnErr result (HasIncreased self.old.faults self.new.faults) }
    {
        let Some(request) = self.requests.get(self.used) else {
            return Ok(None);
        };
        self.used += 1;
        let length = request.len();
        if length > buffer.len() {
            self.faults = self.faults.saturating_add(1);
            return Err(EndpointFault);
        }
        buffer[..length].copy_from_slice(request);
        Ok(Some((length, ())))
    }

    /// Drops the reply. The requests that are still to come are the same.
    fn reply(&mut self, datagram: &[u8], peer: ()) -> Result<(), EndpointFault>
        ensures happens { HappensAtDoor self.old (event_of_reply result peer datagram.now)
            self.new }
        ensures ahead { ahead_of self.new ≡ ahead_of self.old }
        ensures count { OnOk result (self.new.faults ≡ self.old.faults) }
        ensures fault { OnErr result (HasIncreased self.old.faults self.new.faults) }
    {
        Ok(())
    }

    fn faults(&self) -> u64 {
        self.faults
    }
}
