//! A link to an agent in memory.
ghost use Rattle.std.specs.Prelude.{◌≡◌, ◌<◌, ◌+◌, ℕ, All, length, Some, None, IfSome, OnOk, OnErr};
ghost use Rattle.snmp_walk.specs.Traffic.{datagram_at, received, Gives};

use crate::arena::Arena;
use crate::{Link, LinkFault};
use snmp_agent::{Config, Hint, Outcome, Table, answer_near};
use snmp_wire::MAX_DATAGRAM;
use std::alloc::{AllocError, Global};

/// A link to an agent in memory. The agent replies to each datagram from its one table, or from
/// one of several.
///
/// It stores the datagrams that are sent. Each receive uses the next delivery of the list that the
/// link was made with: `None` delivers nothing, and `Some(k)` the agent's reply to the k-th
/// datagram sent, counted from 1. After the last delivery, a receive returns the reply to the
/// latest datagram. If the agent has no reply, or the datagram doesn't exist, the receive returns
/// `None`. A receive into a buffer of fewer than 65507 octets fails and uses no delivery.
pub struct MemoryLink<'a> {
    tables: &'a [Table],
    config: Config<'a>,
    uses: &'a [usize],
    deliveries: &'a [Option<usize>],
    used: usize,
    arena: Arena,
    fault_count: u64,
    hint: Hint,
    ghost is_served: { 0 < length tables.now },
    ghost are_tables: { All (λ index. index < length tables.now) uses.now },
}

impl<'a> Drop for MemoryLink<'a> {
    // Written by hand, so that it is proved only here: a derived one is proved in each crate
    // above.
    fn drop(self) {
        let MemoryLink {
            tables: _tables,
            config: _config,
            uses: _uses,
            deliveries: _deliveries,
            used: _used,
            arena: _arena,
            fault_count: _fault_count,
            hint: _hint,
        } = self;
    }
}

impl<'a> MemoryLink<'a> {
    ghost use Rattle.std.specs.Prelude.{◌≡◌, ◌<◌, [], ◌∷◌, ℕ, All, length, OnOk, OnErr, IfSome};
    ghost use Rattle.std.specs.Prelude.{◌≤◌};
    ghost use Rattle.snmp_agent.specs.table.Table.{IsMibView};
    ghost use Rattle.snmp_walk.specs.Link.{AreViews, OneOf};
    ghost use Rattle.snmp_walk.specs.Traffic.{Gives, datagram_at, received};
    ghost use Rattle.snmp_walk.specs.Memory.{IsHonest, IsReadyFor, IsNextNumber, agents_of};
    ghost use Rattle.snmp_walk.specs.Memory.{agents_over, traffic_of, IsTableFor, IsReplyOf};
    ghost use Rattle.snmp_walk.specs.Memory.{HasNoReplyOf};
    ghost use Rattle.std.specs.Prelude.{take, IfNone};

    /// Returns a link to the agent of one table. Nothing has been sent over it.
    pub fn new(
        alloc: Global,
        table: &'a Table,
        config: Config<'a>,
        deliveries: &'a [Option<usize>],
    ) -> MemoryLink<'a>
        ensures agents { agents_of result ≡ agents_over (table.now ∷ []) config.entry }
        ensures uses { result.uses.now ≡ [] }
        ensures traffic { traffic_of result ≡ record { sent = []; ahead = deliveries.now } }
        ensures no_fault { result.fault_count ≡ 0 }
        ensures honest { IsHonest result }
    {
        MemoryLink::changing(alloc, std::slice::from_ref(table), config, &[], deliveries)
    }

    /// Returns a link to an agent whose table changes. Nothing has been sent over it.
    ///
    /// The first datagram is answered from `tables[uses[0]]`, the second from `tables[uses[1]]`,
    /// and so on; after the end of `uses`, from the last table. The caller must pass at least one
    /// table, and each index in `uses` must be below `tables.len()`.
    pub fn changing(
        alloc: Global,
        tables: &'a [Table],
        config: Config<'a>,
        uses: &'a [usize],
        deliveries: &'a [Option<usize>],
    ) -> MemoryLink<'a>
        requires served { 0 < length tables.now }
        requires free_spans { All (λ index. index < length tables.now) uses.now }
        ensures agents { agents_of result ≡ agents_over tables.now config.entry }
        ensures uses { result.uses.now ≡ uses.now }
        ensures traffic { traffic_of result ≡ record { sent = []; ahead = deliveries.now } }
        ensures no_fault { result.fault_count ≡ 0 }
        ensures honest { IsHonest result }
    {
        // The link is honest because each table is a MIB view.
        'tables: for table in tables {
            table.is_mib_view();
        }
        MemoryLink {
            tables,
            config,
            uses,
            deliveries,
            used: 0,
            arena: Arena::new(alloc),
            fault_count: 0,
            hint: Hint::default(),
        }
    }

    /// Reserves memory so that the next `sends` sends, of at most `octets` octets in total,
    /// succeed. What was reserved before stays reserved, also if memory runs out.
    pub fn reserve(&mut self, sends: usize, octets: usize) -> Result<(), AllocError>
        ensures ready { OnOk result (IsReadyFor self.new sends octets) }
        ensures kept { (s o : ℕ) → IsReadyFor self.old s o → IsReadyFor self.new s o }
        ensures agents { agents_of self.new ≡ agents_of self.old }
        // Each datagram is still answered from the same table.
        ensures uses { self.new.uses.now ≡ self.old.uses.now }
        ensures traffic { traffic_of self.new ≡ traffic_of self.old }
        ensures no_fault { self.new.fault_count ≡ self.old.fault_count }
        ensures honest { IsHonest self.old → IsHonest self.new }
    {
        self.arena.reserve(sends, octets)
    }

    /// Uses the next delivery and returns the number of the datagram that it is for, or 0 if it is
    /// for none. After the last delivery, returns the number of the latest datagram, or 0 if there
    /// is none.
    fn next_number(&mut self) -> usize
        ensures number { IsNextNumber self.old.arena.datagrams (traffic_of self.old).ahead result
            (traffic_of self.new).ahead }
        ensures arena { self.new.arena ≡ self.old.arena }
        ensures agents { agents_of self.new ≡ agents_of self.old }
        ensures uses { self.new.uses ≡ self.old.uses }
        ensures count { self.new.fault_count ≡ self.old.fault_count }
    {
        match self.deliveries.get(self.used) {
            Some(delivery) => {
                self.used += 1;
                delivery.unwrap_or(0)
            }
            None => self.arena.len(),
        }
    }

    /// Returns the table that answers the datagram with this number, counted from 1.
    fn table_for(&self, number: usize) -> &'a Table
        ensures one { OneOf self.now.tables.now result.now }
        ensures index { 0 < number
            → IsTableFor self.now.tables.now self.now.uses.now number result.now }
    {
        match self.uses.get(number.saturating_sub(1)) {
            Some(index) => &self.tables[*index],
            None => &self.tables[self.tables.len() - 1],
        }
    }

    /// Writes the agent's reply to the datagram with this number to the start of `out`, and
    /// returns its length. Returns `None` if the datagram doesn't exist, or the agent has no reply
    /// to it. Of the link, only the hint changes.
    fn reply_to(&mut self, number: usize, out: &mut [u8; MAX_DATAGRAM]) -> Option<usize>
        ensures length { IfSome result (λ n. n ≤ 65507) }
        ensures room { length out.new ≡ 65507 }
        ensures reply { Gives (agents_of self.old) (datagram_at self.old.arena.datagrams number)
            (received result out.new) }
        ensures table { IfSome result (λ n. IsReplyOf (agents_of self.old) self.old.uses.now
            self.old.arena.datagrams number (take n out.new)) }
        ensures none { IfNone result (HasNoReplyOf (agents_of self.old) self.old.uses.now
            self.old.arena.datagrams number) }
        ensures arena { self.new.arena ≡ self.old.arena }
        ensures agents { agents_of self.new ≡ agents_of self.old }
        ensures uses { self.new.uses ≡ self.old.uses }
        ensures ahead { (traffic_of self.new).ahead ≡ (traffic_of self.old).ahead }
        ensures count { self.new.fault_count ≡ self.old.fault_count }
    {
        let table = self.table_for(number);
        let datagram = self.arena.datagram(number)?;
        match answer_near(table, &self.config, datagram, out, &mut self.hint) {
            Outcome::Reply(length) => Some(length),
            Outcome::Dropped(_) => None,
        }
    }
}

impl<'a> Link for MemoryLink<'a> {
    ghost use Rattle.std.specs.Prelude.{◌≡◌, ◌<◌, ◌≤◌, [], ◌∷◌, length, take};
    ghost use Rattle.std.specs.Prelude.{OnOk, OnErr, IsErr, IfOk, IfSome, IfNone};
    ghost use Rattle.snmp_walk.specs.Memory.{IsHonest, IsReadyFor, agents_of, traffic_of};
    ghost use Rattle.snmp_walk.specs.Memory.{IsSentOver, IsDeliveredBy, IsSilentBy, IsAfterFault};
    ghost use Rattle.snmp_walk.specs.Moves.{Moves};
    ghost use Rattle.snmp_walk.specs.Traffic.{Receives, received};

    ghost records = { λ _. Unit {0} };

    ghost honest = { IsHonest };

    ghost agents = { agents_of };

    ghost traffic = { traffic_of };

    ghost fault_count = { λ link. link.fault_count };

    ghost ready = { IsReadyFor };

    ghost delivers = { IsDeliveredBy };

    ghost sends = { IsSentOver };

    ghost send_fails = { λ old _ new. IsAfterFault old new };

    ghost is_silent = { IsSilentBy };

    ghost receive_fails = { IsAfterFault };

    ghost refuses_short = { λ _. Unit {0} };

    ghost recording = { λ _ _. tt };

    ghost lawful = { λ link h. h.lawful };

    fn send(&mut self, datagram: &[u8]) -> Result<(), LinkFault>
        ensures sends { OnOk result (IsSentOver self.old datagram.now self.new) }
        ensures send_fails { OnErr result (IsAfterFault self.old self.new) }
        ensures unchanged { OnErr result (traffic_of self.new ≡ traffic_of self.old) }
        ensures moves { Moves (λ _. Unit {0}) IsHonest agents_of traffic_of
            (λ link. link.fault_count) IsReadyFor self.old (datagram.now ∷ []) 0 (IsErr result)
            self.new }
    {
        match self.arena.push(datagram) {
            Ok(()) => Ok(()),
            Err(_) => {
                self.fault_count = self.fault_count.saturating_add(1);
                Err(LinkFault)
            }
        }
    }

    fn receive(&mut self, buffer: &mut [u8]) -> Result<Option<usize>, LinkFault>
        ensures length { IfOk result (λ got. IfSome got (λ n. n ≤ length buffer.old)) }
        ensures delivers { IfOk result (λ got. IfSome got
            (λ n. IsDeliveredBy self.old (take n buffer.new) self.new)) }
        ensures silent { IfOk result (λ got. IfNone got (IsSilentBy self.old self.new)) }
        ensures receive_fails { OnErr result (IsAfterFault self.old self.new) }
        ensures reply { IsHonest self.old → 65507 ≤ length buffer.old
            → IfOk result (λ got. Receives (agents_of self.old) (traffic_of self.old).sent
            (traffic_of self.old).ahead (received got buffer.new) (traffic_of self.new).ahead) }
        ensures short { length buffer.old < 65507 → IsErr result }
        ensures unchanged { OnErr result (traffic_of self.new ≡ traffic_of self.old) }
        ensures moves { Moves (λ _. Unit {0}) IsHonest agents_of traffic_of
            (λ link. link.fault_count)
            (λ link sends octets. (65507 ≤ length buffer.old) × IsReadyFor link sends octets)
            self.old [] 1 (IsErr result) self.new }
    {
        let Some(out) = buffer.first_chunk_mut::<MAX_DATAGRAM>() else {
            self.fault_count = self.fault_count.saturating_add(1);
            return Err(LinkFault);
        };
        let number = self.next_number();
        Ok(self.reply_to(number, out))
    }

    fn faults(&self) -> u64 {
        self.fault_count
    }
}
