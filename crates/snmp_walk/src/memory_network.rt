//! A network in memory, which loses, repeats and delays datagrams as a list says.
ghost use Rattle.std.specs.Prelude.{◌≡◌, ◌≤◌, ◌+◌, ◌⊎◌, [], ℕ, List, length, take, Some, None};
ghost use Rattle.std.specs.Prelude.{◌<◌, IfNone, IfOk, IfSome, OnOk, OnErr};
ghost use Rattle.snmp_io.specs.Count.{HasIncreased};

use crate::LinkFault;
use crate::arena::Arena;
use crate::network::Network;
use snmp_agent::{Endpoint, EndpointFault};
use std::alloc::Global;

/// What a [`MemoryNetwork`] does next.
#[derive(Clone, Copy)]
pub enum Delivery {
    /// The agent receives the k-th datagram that the walk sent. Holds k, counted from 1.
    Request(usize),
    /// The walk receives the k-th datagram that the agent sent. Holds k, counted from 1.
    Reply(usize),
    /// The walk's receive returns nothing.
    Nothing,
}

/// A network in memory between a walk and an agent.
///
/// It stores what is sent at each end, and delivers it to the other end by its list of deliveries,
/// in turn. As long as the list lasts, a datagram that no delivery names doesn't arrive, one that
/// several name arrives that many times, and one that is named late is delayed. If a delivery
/// names a datagram that wasn't sent yet, the receive returns nothing.
///
/// After the last delivery nothing is lost: the agent receives the latest datagram before each
/// receive of the walk, and the walk receives what the agent sent then, or nothing. If the agent's
/// receive or send failed, the walk's receive fails too.
#[derive(Drop)]
pub struct MemoryNetwork<'a> {
    deliveries: &'a [Delivery],
    used: usize,
    requests: Arena,
    replies: Arena,
    /// The number of the reply that the agent sent in its last turn, 0 if it sent none, and None
    /// if its receive or its send failed.
    answer: Option<usize>,
    faults: u64,
}

impl<'a> MemoryNetwork<'a> {
    ghost use Rattle.std.specs.Prelude.{◌≡◌, ◌≤◌, [], length, take, Some, None, IfSome};
    ghost use Rattle.snmp_io.specs.Count.{HasIncreased};
    ghost use Rattle.snmp_walk.specs.MemoryNetwork.{IsNew, IsNextReply, IsNextRequest, ahead_of};

    /// Returns a network before anything was sent, with this list of deliveries.
    pub fn new(alloc: Global, deliveries: &'a [Delivery]) -> MemoryNetwork<'a>
        ensures new { IsNew result }
        ensures ahead { ahead_of result ≡ deliveries.now }
        ensures no_fault { result.faults ≡ 0 }
    {
        MemoryNetwork {
            deliveries,
            used: 0,
            requests: Arena::new(alloc),
            replies: Arena::new(alloc),
            answer: Some(0),
            faults: 0,
        }
    }

    /// Returns the deliveries that aren't used yet.
    fn ahead(&self) -> &'a [Delivery]
        ensures { result.now ≡ ahead_of self.now }
    {
        &self.deliveries[self.used.min(self.deliveries.len())..]
    }

    /// Returns the number of the datagram that the agent's next receive returns. The receive
    /// returns nothing if no datagram has this number, as none has 0. Uses the next delivery if it
    /// is for the agent.
    fn next_request(&mut self) -> usize
        ensures used { IsNextRequest self.old.requests.datagrams (ahead_of self.old) result
            (ahead_of self.new) }
        ensures requests { self.new.requests ≡ self.old.requests }
        ensures replies { self.new.replies ≡ self.old.replies }
        ensures answer { self.new.answer ≡ self.old.answer }
        ensures count { self.new.faults ≡ self.old.faults }
    {
        match self.deliveries.get(self.used) {
            Some(Delivery::Request(number)) => {
                self.used += 1;
                *number
            }
            Some(_) => 0,
            None => self.requests.len(),
        }
    }

    /// Returns the number of the datagram that the walk's next receive returns. The receive returns
    /// nothing if no datagram has this number, as none has 0. Returns `None` if the walk's receive
    /// fails, since the agent's receive or send failed in its last turn. Uses the next delivery if
    /// it is for the walk.
    fn next_reply(&mut self) -> Option<usize>
        ensures used { IsNextReply self.old.answer (ahead_of self.old) result (ahead_of self.new) }
        ensures requests { self.new.requests ≡ self.old.requests }
        ensures replies { self.new.replies ≡ self.old.replies }
        ensures answer { self.new.answer ≡ self.old.answer }
        ensures count { self.new.faults ≡ self.old.faults }
    {
        match self.deliveries.get(self.used) {
            Some(Delivery::Reply(number)) => {
                self.used += 1;
                Some(*number)
            }
            Some(Delivery::Nothing) => {
                self.used += 1;
                Some(0)
            }
            Some(Delivery::Request(_)) => Some(0),
            None => self.answer,
        }
    }

    /// Raises the fault count, unless it is 18446744073709551615 already.
    fn count_fault(&mut self)
        ensures counted { HasIncreased self.old.faults self.new.faults }
        ensures ahead { ahead_of self.new ≡ ahead_of self.old }
        ensures requests { self.new.requests ≡ self.old.requests }
        ensures replies { self.new.replies ≡ self.old.replies }
        ensures answer { self.new.answer ≡ self.old.answer }
    {
        self.faults = self.faults.saturating_add(1);
    }
}

/// Copies `datagram` to the start of `buffer` and returns its length. Returns `None` if there is
/// no room for it.
fn copy_to(datagram: &[u8], buffer: &mut [u8]) -> Option<usize>
    ensures whole { IfSome result (λ n. take n buffer.new ≡ datagram.now) }
    ensures bound { IfSome result (λ n. n ≤ length buffer.old) }
    ensures no_room { IfNone result (length buffer.old < length datagram.now) }
    ensures length { length buffer.new ≡ length buffer.old }
{
    let length = datagram.len();
    if length > buffer.len() {
        return None;
    }
    buffer[..length].copy_from_slice(datagram);
    Some(length)
}

impl<'a> Endpoint for MemoryNetwork<'a> {
    ghost use Rattle.std.specs.Prelude.{◌≡◌, ◌≤◌, length, IfOk, IfSome, OnErr, OnOk};
    ghost use Rattle.snmp_io.specs.Count.{HasIncreased};
    ghost use Rattle.snmp_agent.specs.Event.{event_of_receive, event_of_reply};
    ghost use Rattle.snmp_walk.specs.Network.{at_agents};
    ghost use Rattle.snmp_walk.specs.MemoryNetwork.{Carries};

    type Peer = ();

    ghost happens = { λ old e new. Carries old (at_agents e) new };

    ghost fault_count = { λ network. network.faults };

    fn receive(&mut self, buffer: &mut [u8]) -> Result<Option<(usize, ())>, EndpointFault> {
        let number = self.next_request();
        self.answer = Some(0);
        let Some(datagram) = self.requests.datagram(number) else {
            return Ok(None);
        };
        match copy_to(datagram, buffer) {
            Some(length) => Ok(Some((length, ()))),
            None => {
                self.answer = None;
                self.count_fault();
                Err(EndpointFault)
            }
        }
    }

    fn reply(&mut self, datagram: &[u8], _peer: ()) -> Result<(), EndpointFault> {
        match self.replies.push(datagram) {
            Ok(()) => {
                self.answer = Some(self.replies.len());
                Ok(())
            }
            Err(_) => {
                self.answer = None;
                self.count_fault();
                Err(EndpointFault)
            }
        }
    }

    fn faults(&self) -> u64 {
        self.faults
    }
}

impl<'a> Network for MemoryNetwork<'a> {
    ghost use Rattle.std.specs.Prelude.{◌≡◌, ◌+◌, ◌≤◌, [], List, length, None, IfOk, IfSome};
    ghost use Rattle.std.specs.Prelude.{OnErr, OnOk};
    ghost use Rattle.snmp_io.specs.Count.{HasIncreased};
    ghost use Rattle.snmp_agent.specs.Event.{InTurn};
    ghost use Rattle.snmp_walk.specs.Network.{Happening, at_walk, event_of_got, event_of_send};
    ghost use Rattle.snmp_walk.specs.MemoryNetwork.{Carries, IsNew, IsPrompt, ahead_of, replies_of};
    ghost use Rattle.snmp_walk.specs.MemoryNetwork.{leading_requests, requests_of};
    ghost use Rattle.snmp_walk.specs.Traffic.{datagram_at};
    ghost use Rattle.snmp_walk.specs.MemoryNetworkIsFaithful.{faithful_in_memory, prompt_in_memory};
    ghost use Rattle.snmp_walk.specs.MemoryNetworkIsFaithful.{still_prompt_in_memory};

    ghost carries = { Carries };

    ghost is_new = { IsNew };

    ghost walker = { λ _. tt };

    ghost turn_count = { λ network. leading_requests (ahead_of network) + 1 };

    ghost sent = { requests_of };

    ghost is_prompt = { IsPrompt };

    ghost at_end = { λ old new e h. h };

    ghost faithful = { faithful_in_memory };

    ghost starts = { λ network h. h.requests };

    ghost sending = { λ old new e h. h.requests };

    ghost still_prompt = { still_prompt_in_memory };

    ghost replying = { prompt_in_memory };

    fn turns(&self) -> u64
        ensures { result ≡ leading_requests (ahead_of self.now) + 1 }
    {
        let ahead = self.ahead();
        let mut count = 1_u64;
        'deliveries: for delivery in ahead {
            match delivery {
                Delivery::Request(_) => count += 1,
                _ => return count,
            }
        }
        count
    }

    fn send(&mut self, datagram: &[u8]) -> Result<(), LinkFault> {
        match self.requests.push(datagram) {
            Ok(()) => Ok(()),
            Err(_) => {
                self.count_fault();
                Err(LinkFault)
            }
        }
    }

    fn receive_reply(&mut self, buffer: &mut [u8]) -> Result<Option<usize>, LinkFault>
        ensures length { IfOk result (λ got. IfSome got (λ n. n ≤ length buffer.old)) }
        ensures carries { Carries self.old (at_walk (event_of_got result buffer.new)) self.new }
        ensures count { OnOk result (self.new.faults ≡ self.old.faults) }
        ensures fault { OnErr result (HasIncreased self.old.faults self.new.faults) }
        ensures no_room { OnErr result (((ahead_of self.old ≡ []) × (self.old.answer ≡ None))
            ⊎ ((number : ℕ) × (d : List ℕ)
            × (datagram_at (replies_of self.old) number ≡ Some d)
            × (length buffer.old < length d))) }
    {
        let Some(number) = self.next_reply() else {
            self.count_fault();
            return Err(LinkFault);
        };
        let Some(datagram) = self.replies.datagram(number) else {
            return Ok(None);
        };
        match copy_to(datagram, buffer) {
            Some(length) => Ok(Some(length)),
            None => {
                self.count_fault();
                Err(LinkFault)
            }
        }
    }
}
