//! The agent's end of a record: what arrived there arrives again. A send succeeds only if the agent
//! sent the same datagram next in the record.

use super::recorded::{Entry, Passing};
use super::walk::RecordedLink;
use snmp_agent::{Config, Endpoint, EndpointFault, Served, Table, serve_at};
use snmp_net::Links;
use snmp_walk::LinkFault;

/// The door (server socket) at the agent's end of a record.
///
/// A receive returns the next datagram of the record if it arrived at the agent, and fails if the
/// buffer is too short for it. If the datagram was sent or arrived at the walk's end, the receive
/// skips it and returns nothing. If the agent sent it, or none is left, the receive returns
/// nothing.
#[derive(Drop)]
pub struct ReplayDoor<'a> {
    entries: &'a [Entry],
    used: usize,
    faults: u64,
}

impl<'a> ReplayDoor<'a> {
    ghost use Rattle.std.specs.Prelude.{◌≡◌, [], IsTrue};
    ghost use Rattle.snmp_io.specs.Count.{HasIncreased};
    ghost use Rattle.snmp_tools_tests.specs.Replay.{ahead_of};

    /// Returns whether nothing of the record is left.
    fn is_done(&self) -> bool
        ensures { IsTrue result → ahead_of self.now ≡ [] }
    {
        self.used >= self.entries.len()
    }

    /// Counts a fault and returns it.
    fn fault(&mut self) -> EndpointFault
        ensures counted { HasIncreased self.old.faults self.new.faults }
        ensures ahead { ahead_of self.new ≡ ahead_of self.old }
    {
        self.faults = self.faults.saturating_add(1);
        EndpointFault
    }
}

impl<'a> Endpoint for ReplayDoor<'a> {
    ghost use Rattle.snmp_tools_tests.specs.Replay.{HappensAtDoor};

    type Peer = ();

    ghost happens = { HappensAtDoor };

    ghost fault_count = { λ door. door.faults };

    fn receive(&mut self, buffer: &mut [u8]) -> Result<Option<(usize, ())>, EndpointFault> {
        let Some(entry) = self.entries.get(self.used) else {
            return Ok(None);
        };
        match entry.passing {
            Passing::RequestArrived => {
                let size = entry.octets.len();
                if size > buffer.len() {
                    return Err(self.fault());
                }
                self.used += 1;
                buffer[..size].copy_from_slice(entry.octets.as_slice());
                Ok(Some((size, ())))
            }
            // The next entry of the record is a reply of the agent. Until it is sent again,
            // receives return nothing.
            Passing::ReplySent => Ok(None),
            Passing::RequestSent | Passing::ReplyArrived => {
                self.used += 1;
                Ok(None)
            }
        }
    }

    /// Sends a datagram. Fails unless the agent sent the same datagram next in the record.
    fn reply(&mut self, datagram: &[u8], _peer: ()) -> Result<(), EndpointFault> {
        let Some(entry) = self.entries.get(self.used) else {
            return Err(self.fault());
        };
        match entry.passing {
            Passing::ReplySent if entry.octets.as_slice() == datagram => {
                self.used += 1;
                Ok(())
            }
            _ => Err(self.fault()),
        }
    }

    fn faults(&self) -> u64 {
        self.faults
    }
}

/// The agent's end of a record, at which doors can be opened one after the other. Each begins at
/// the start of the record. No link can be opened.
#[derive(Drop)]
pub struct ReplayLinks<'a> {
    entries: &'a [Entry],
    /// Whether the whole record passed at the door that was served last; false if none was served.
    pub(crate) is_done: bool,
    faults: u64,
}

impl<'a> ReplayLinks<'a> {
    ghost use Rattle.std.specs.Prelude.{◌≡◌, false};

    /// Returns the agent's end of the record, at which nothing was served.
    pub(crate) fn new(entries: &'a [Entry]) -> ReplayLinks<'a>
        ensures entries { result.entries.now ≡ entries.now }
    {
        ReplayLinks {
            entries,
            is_done: false,
            faults: 0,
        }
    }
}

impl<'a> Links for ReplayLinks<'a> {
    ghost use Rattle.std.specs.Prelude.{◌≡◌};
    ghost use Rattle.snmp_tools_tests.specs.Replay.{BindsAt, IsReplayed};

    type Wire = RecordedLink<'a>;

    type Door = ReplayDoor<'a>;

    ghost opens = { λ _ _ _ _ _ _. ⊥ };

    ghost closes = { λ _ _ _. Unit {0} };

    ghost binds = { λ old _ _ door _. BindsAt old.entries.now door };

    ghost serves = { λ _ door agent turns served new after.
        IsReplayed door agent turns served after new.is_done };

    ghost fails = { λ _ _. Unit {0} };

    ghost fault_count = { λ links. links.faults };

    fn open(
        &mut self,
        _host: &str,
        _port: u16,
        _seconds: u64,
    ) -> Result<RecordedLink<'a>, LinkFault> {
        self.faults = self.faults.saturating_add(1);
        Err(LinkFault)
    }

    fn close(&mut self, _link: RecordedLink<'a>) {}

    fn bind(&mut self, _host: &str, _port: u16) -> Result<ReplayDoor<'a>, LinkFault> {
        Ok(ReplayDoor {
            entries: self.entries,
            used: 0,
            faults: 0,
        })
    }

    fn serve(
        &mut self,
        door: &mut ReplayDoor<'a>,
        table: &Table,
        config: &Config<'_>,
        turns: u64,
    ) -> Served {
        let served = serve_at(door, table, config, turns);
        self.is_done = door.is_done();
        served
    }

    fn faults(&self) -> u64 {
        self.faults
    }
}
