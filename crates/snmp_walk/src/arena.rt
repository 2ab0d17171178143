//! Datagrams in one buffer.
ghost use Rattle.std.specs.Prelude.{◌≡◌, ◌≤◌, ◌+◌, ◌++◌, [], ◌∷◌, ℕ, length, Option, Some, None};
ghost use Rattle.std.specs.Prelude.{OnOk, OnErr, IsOk, IfSome, IfNone, OnSome};
ghost use Rattle.snmp_walk.specs.Traffic.{datagram_at};

use std::alloc::{AllocError, Global};
use std::marker::Model;

/// The range of a datagram in the buffer.
#[derive(Clone, Copy)]
struct Span {
    start: usize,
    len: usize,
}

/// Datagrams, stored one after the other in one buffer.
#[derive(Drop)]
pub(crate) struct Arena {
    octets: Vec<u8>,
    spans: Vec<Span>,
}

impl Model for Arena {
    ghost use Rattle.std.specs.Prelude.{◌-◌, ◌+◌, ◌≤◌, All, length, vec_len, vec_capacity};
    ghost use Rattle.snmp_walk.specs.Arena.{Store, cut};

    ghost Value = { Store };

    ghost view = { λ a. record {
      datagrams = cut a.octets.items a.spans.items;
      free_spans = vec_capacity a.spans - vec_len a.spans;
      room = vec_capacity a.octets - vec_len a.octets;
    } };

    ghost invariant = { λ a. All (λ s. s.start + s.len ≤ length a.octets.items) a.spans.items };
}

impl Arena {
    ghost use Rattle.std.specs.Prelude.{◌≡◌, ◌≤◌, ◌+◌, ◌++◌, ℕ, [], ◌∷◌, length, Option, Some};
    ghost use Rattle.std.specs.Prelude.{None, OnOk, OnErr, IsOk, IfSome, IfNone, IfOk};

    /// Returns an arena without datagrams. Allocates nothing.
    pub(crate) fn new(alloc: Global) -> Arena
        ensures { result.datagrams ≡ [] }
    {
        Arena {
            octets: Vec::new(alloc),
            spans: Vec::new(alloc),
        }
    }

    /// Reserves memory for `sends` more datagrams of `octets` octets in total. What was reserved
    /// before stays reserved, also if memory runs out.
    pub(crate) fn reserve(&mut self, sends: usize, octets: usize) -> Result<(), AllocError>
        ensures datagrams { self.new.datagrams ≡ self.old.datagrams }
        ensures reserved { OnOk result ((sends ≤ self.new.free_spans) × (octets ≤ self.new.room)) }
        ensures kept { (self.old.free_spans ≤ self.new.free_spans)
            × (self.old.room ≤ self.new.room) }
    {
        self.spans.reserve_exact(sends)?;
        self.octets.reserve_exact(octets)
    }

    /// Appends a copy of `datagram`. Allocates nothing if enough memory is reserved. Fails, and
    /// stores nothing, if memory runs out.
    pub(crate) fn push(&mut self, datagram: &[u8]) -> Result<(), AllocError>
        ensures added { OnOk result (self.new.datagrams ≡ self.old.datagrams ++ datagram.now ∷ []) }
        ensures unchanged { OnErr result (self.new.datagrams ≡ self.old.datagrams) }
        ensures kept { OnErr result
            ((self.old.free_spans ≤ self.new.free_spans) × (self.old.room ≤ self.new.room)) }
        ensures ready { (s o : ℕ) → s + 1 ≤ self.old.free_spans
            → o + length datagram.now ≤ self.old.room
            → IsOk result × (s ≤ self.new.free_spans) × (o ≤ self.new.room) }
    {
        let span = Span {
            start: self.octets.len(),
            len: datagram.len(),
        };
        self.spans.reserve(1)?;
        self.octets.extend_from_slice(datagram)?;
        match self.spans.push(span) {
            Ok(()) => Ok(()),
            Err(_) => unreachable!(),
        }
    }

    /// Returns the number of datagrams.
    pub(crate) fn len(&self) -> usize
        ensures { result ≡ length self.now.datagrams }
    {
        self.spans.len()
    }

    /// Returns the datagram with this number, counted from 1, or `None` if there is none.
    pub(crate) fn datagram(&self, number: usize) -> Option<&[u8]>
        ensures some { IfSome result (λ d. datagram_at self.now.datagrams number ≡ Some d.now) }
        ensures none { IfNone result (datagram_at self.now.datagrams number ≡ None) }
    {
        let span = self.spans.get(number.checked_sub(1)?)?;
        Some(&self.octets[span.start..span.start + span.len])
    }
}
