//! A link of one's own: an agent in the same program that is called at each receive.
ghost use Rattle.std.specs.Prelude.{◌≡◌, [], IfOk, IsOk, ◌↔◌};
ghost use Rattle.snmp_oid.specs.Identifier.{IsWire, wire};
ghost use Rattle.snmp_walk.specs.WalkState.{IsMethod};
ghost use Rattle.uses.specs.Polled.{IsPolled};

use crate::{Collected, poll};
use snmp_agent::{Config, Outcome, Table, answer};
use snmp_walk::{Link, LinkFault, Method, StartError, WalkEnd};
use snmp_wire::{MAX_DATAGRAM, Oid};
use std::alloc::Global;

/// A link to the agent of a table. A receive returns the agent's reply to the datagram that was
/// sent last, if there is a reply; no other datagram is stored. Before the first send, and after a
/// send that failed, a receive returns nothing. A receive into a buffer of fewer than 65507 octets
/// fails.
#[derive(Drop)]
pub struct Direct<'a> {
    table: &'a Table,
    config: Config<'a>,
    /// The datagram that was sent last, if `is_sent`.
    last: Vec<u8>,
    /// Whether `last` is a datagram that was sent.
    is_sent: bool,
    fault_count: u64,
}

impl<'a> Direct<'a> {
    ghost use Rattle.std.specs.Prelude.{◌≡◌, ◌≤◌, IfSome, length, take};
    ghost use Rattle.snmp_agent.specs.Reply.{IsReply, agent_of};
    ghost use Rattle.uses.specs.Direct.{agent_at};

    /// Returns a new link. Nothing was sent over it.
    pub fn new(alloc: Global, table: &'a Table, config: Config<'a>) -> Direct<'a>
        ensures { agent_at result ≡ agent_of table.now config.entry }
    {
        Direct {
            table,
            config,
            last: Vec::new(alloc),
            is_sent: false,
            fault_count: 0,
        }
    }

    /// Writes the agent's reply to `last` to the start of `out`, and returns its length. Returns
    /// `None` if the agent doesn't reply.
    fn reply_into(&self, out: &mut [u8; MAX_DATAGRAM]) -> Option<usize>
        ensures length { IfSome result (λ n. n ≤ 65507) }
        ensures room { length out.new ≡ 65507 }
        ensures reply { IfSome result (λ n. IsReply (agent_at self.now) self.now.last.items
            (take n out.new)) }
    {
        match answer(self.table, &self.config, self.last.as_slice(), out) {
            Outcome::Reply(length) => Some(length),
            Outcome::Dropped(_) => None,
        }
    }
}

impl<'a> Link for Direct<'a> {
    ghost use Rattle.std.specs.Prelude.{[], ◌∷◌};
    ghost use Rattle.snmp_walk.specs.Memory.{agents_over};
    ghost use Rattle.uses.specs.Direct.{HasAsked, HasFailed, HasReplied, IsIdle};

    // A `Direct` doesn't store all that was sent over it, so it can't be `honest`, which is about
    // all that was sent. What it promises are `HasAsked`, `HasFailed`, `HasReplied` and `IsIdle`.
    ghost records = { λ _. ⊥ };

    ghost honest = { λ _. ⊥ };

    ghost agents = { λ link. agents_over (link.table.now ∷ []) link.config };

    ghost traffic = { λ _. record { sent = []; ahead = [] } };

    ghost fault_count = { λ link. link.fault_count };

    ghost ready = { λ _ _ _. ⊥ };

    ghost delivers = { HasReplied };

    ghost sends = { HasAsked };

    ghost send_fails = { λ old _ new. HasFailed old new };

    ghost is_silent = { IsIdle };

    ghost receive_fails = { IsIdle };

    ghost recording = { λ _ h. h };

    ghost lawful = { λ _ h. absurd h };

    fn send(&mut self, datagram: &[u8]) -> Result<(), LinkFault> {
        self.is_sent = false;
        self.last.clear();
        match self.last.extend_from_slice(datagram) {
            Ok(()) => {
                self.is_sent = true;
                Ok(())
            }
            Err(_) => {
                self.fault_count = self.fault_count.saturating_add(1);
                Err(LinkFault)
            }
        }
    }

    fn receive(&mut self, buffer: &mut [u8]) -> Result<Option<usize>, LinkFault> {
        let Some(out) = buffer.first_chunk_mut::<MAX_DATAGRAM>() else {
            self.fault_count = self.fault_count.saturating_add(1);
            return Err(LinkFault);
        };
        if !self.is_sent {
            return Ok(None);
        }
        match self.reply_into(out) {
            Some(length) => Ok(Some(length)),
            None => Ok(None),
        }
    }

    fn faults(&self) -> u64 {
        self.fault_count
    }
}

/// Collects the instances below `root` of the table at the other end of a `Direct`. The result says
/// how the poll ended; it is the error `NotWire` if the root can't be sent.
///
/// It may be called again and again over one link, always with ids from 1 on: a poll begins with a
/// send, and then the agent replies only to what the poll sent. So `table` is promised whatever was
/// sent over the link before.
pub fn poll_again(
    link: &mut Direct<'_>,
    root: Oid,
    method: Method,
    rows: &mut Collected,
) -> Result<WalkEnd, StartError>
    requires method { IsMethod method }
    requires empty { rows.old ≡ [] }
    ensures table { IfOk result (λ end. IsPolled link.old.table.now root end rows.new) }
    ensures same_table { link.new.table.now ≡ link.old.table.now }
    ensures variant { IsOk result ↔ IsWire (wire root) }
{
    link.table.is_mib_view();
    let community = link.config.community;
    poll(link, root, method, community, 0, 1, rows)
}
