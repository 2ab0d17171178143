//! A network in memory that records each datagram that is sent or arrives.
ghost use Rattle.std.specs.Prelude.{◌≡◌, ◌++◌, [], ◌∷◌, OnErr, OnOk, map};
ghost use Rattle.snmp_tools_tests.specs.Recorded.{happening_of, passes};

use snmp_agent::{Endpoint, EndpointFault};
use snmp_walk::{Delivery, LinkFault, MemoryNetwork, Network};
use snmp_wire::MAX_DATAGRAM;
use std::alloc::{AllocError, Global};
use std::marker::Model;

/// A point on the way of a datagram.
#[derive(Clone, Copy)]
pub enum Passing {
    /// The walk sent it.
    RequestSent,
    /// It arrived at the agent.
    RequestArrived,
    /// The agent sent it.
    ReplySent,
    /// It arrived at the walk.
    ReplyArrived,
}

/// A datagram that was sent or arrived at one end of a network.
#[derive(Drop)]
pub struct Entry {
    pub(crate) passing: Passing,
    pub(crate) octets: Vec<u8>,
}

/// A network in memory between a walk and an agent, with a record of the datagrams that were sent
/// and arrived.
///
/// It loses, repeats and delays datagrams as a [`MemoryNetwork`] does. A send or a receive fails if
/// there is no memory to record its datagram. `faults` counts the sends and receives of the agent
/// that failed.
#[derive(Drop)]
pub struct RecordedNetwork<'a> {
    alloc: Global,
    network: MemoryNetwork<'a>,
    entries: Vec<Entry>,
    faults: u64,
}

impl<'a> Model for RecordedNetwork<'a> {
    ghost use Rattle.std.specs.Prelude.{map};
    ghost use Rattle.snmp_tools_tests.specs.Recorded.{IsRecordOf, Recording, happening_of};

    ghost Value = { Recording };

    ghost view = { λ r. record { run = map happening_of r.entries.items; faults = r.faults } };

    ghost invariant = { λ r. IsRecordOf r.network (map happening_of r.entries.items) };
}

impl<'a> RecordedNetwork<'a> {
    ghost use Rattle.std.specs.Prelude.{◌≡◌, ◌≤◌, ◌++◌, [], ◌∷◌, IfOk, IfSome, OnErr, OnOk, length};
    ghost use Rattle.std.specs.Prelude.{map};
    ghost use Rattle.snmp_io.specs.Count.{HasIncreased};
    ghost use Rattle.snmp_agent.specs.Event.{sent};
    ghost use Rattle.snmp_walk.specs.Network.{IsFaithful, at_walk, event_of_got};
    ghost use Rattle.snmp_tools_tests.specs.Recorded.{happening_of, recorded};

    /// Returns a network over which nothing was sent. It has these deliveries.
    pub fn new(alloc: Global, deliveries: &'a [Delivery]) -> RecordedNetwork<'a>
        ensures { result ≡ record { run = []; faults = 0 } }
    {
        RecordedNetwork {
            alloc,
            network: MemoryNetwork::new(alloc, deliveries),
            entries: Vec::new(alloc),
            faults: 0,
        }
    }

    /// Returns the record, in the order in which it was made. Each request that arrived, and each
    /// message that arrived as a reply, was passed to a send before (`IsFaithful`).
    pub(crate) fn entries(&self) -> &[Entry]
        ensures run { map happening_of result.now ≡ self.now.run }
        ensures faithful { IsFaithful tt self.now.run }
    {
        self.entries.as_slice()
    }

    /// Returns the number of turns of the agent before the walk's next receive returns.
    pub(crate) fn turns(&self) -> u64 {
        self.network.turns()
    }

    /// Sends a datagram of the walk to the agent.
    pub(crate) fn send(&mut self, datagram: &[u8]) -> Result<(), LinkFault>
        ensures sent { OnOk result
            (self.new.run ≡ self.old.run ++ at_walk (sent tt datagram.now) ∷ []) }
        ensures unchanged_on_error { OnErr result (self.new.run ≡ self.old.run) }
    {
        let passing = Passing::RequestSent;
        if push_entry(self.alloc, &mut self.entries, passing, datagram).is_err() {
            return Err(LinkFault);
        }
        // If the network has no memory for the datagram, the datagram is lost.
        let _lost = self.network.send(datagram).is_err();
        Ok(())
    }

    /// Receives a datagram for the walk into the start of `buffer` and returns its length. Returns
    /// `None` if none arrives in time.
    pub(crate) fn receive_reply(&mut self, buffer: &mut [u8]) -> Result<Option<usize>, LinkFault>
        ensures length { IfOk result (λ got. IfSome got (λ n. n ≤ length buffer.old)) }
        ensures received { self.new.run
            ≡ self.old.run ++ map at_walk (recorded (event_of_got result buffer.new)) }
    {
        let Some(size) = self.network.receive_reply(buffer)? else {
            return Ok(None);
        };
        let datagram = &buffer[..size];
        match push_entry(
            self.alloc,
            &mut self.entries,
            Passing::ReplyArrived,
            datagram,
        ) {
            Ok(()) => Ok(Some(size)),
            Err(_) => Err(LinkFault),
        }
    }

    /// Counts a fault and returns it.
    fn fault(&mut self) -> EndpointFault
        ensures counted { HasIncreased self.old.faults self.new.faults }
        ensures run { self.new.run ≡ self.old.run }
    {
        self.faults = self.faults.saturating_add(1);
        EndpointFault
    }
}

/// The agent's end.
impl<'a> Endpoint for RecordedNetwork<'a> {
    ghost use Rattle.snmp_tools_tests.specs.Recorded.{HappensAtAgent};

    type Peer = ();

    ghost happens = { HappensAtAgent };

    ghost fault_count = { λ network. network.faults };

    /// Receives a datagram of the walk. Fails if `buffer` is shorter than the longest datagram over
    /// UDP.
    fn receive(&mut self, buffer: &mut [u8]) -> Result<Option<(usize, ())>, EndpointFault> {
        if buffer.len() < MAX_DATAGRAM {
            return Err(self.fault());
        }
        let Ok(received) = self.network.receive(buffer) else {
            return Err(self.fault());
        };
        let Some((size, peer)) = received else {
            return Ok(None);
        };
        let datagram = &buffer[..size];
        match push_entry(
            self.alloc,
            &mut self.entries,
            Passing::RequestArrived,
            datagram,
        ) {
            Ok(()) => Ok(Some((size, peer))),
            Err(_) => Err(self.fault()),
        }
    }

    fn reply(&mut self, datagram: &[u8], peer: ()) -> Result<(), EndpointFault> {
        let passing = Passing::ReplySent;
        if push_entry(self.alloc, &mut self.entries, passing, datagram).is_err() {
            return Err(self.fault());
        }
        // If the network has no memory for the datagram, the datagram is lost.
        let _lost = self.network.reply(datagram, peer).is_err();
        Ok(())
    }

    fn faults(&self) -> u64 {
        self.faults
    }
}

/// Appends a datagram to the entries of a record. Fails, and appends nothing, if memory runs out.
fn push_entry(
    alloc: Global,
    entries: &mut Vec<Entry>,
    passing: Passing,
    datagram: &[u8],
) -> Result<(), AllocError>
    ensures pushed { OnOk result (map happening_of entries.new.items
        ≡ map happening_of entries.old.items ++ passes passing datagram.now ∷ []) }
    ensures unchanged_on_error { OnErr result (entries.new.items ≡ entries.old.items) }
{
    let octets = Vec::from_slice(alloc, datagram)?;
    match entries.push(Entry { passing, octets }) {
        Ok(()) => Ok(()),
        Err(_) => Err(AllocError),
    }
}
