//! Sinks and a link that count.

use snmp_walk::{Link, LinkFault, MemoryLink, Sink, SinkFault};
use snmp_wire::{Binding, ValueRef, parse_numeric};

/// A sink that counts the bindings, and makes a number of the integers: 1, 2 and 3 make 123, and
/// none make 0. Each integer from 0 to 255 is added to ten times `number`, modulo 2^64. Other
/// values leave `number` as it is.
#[derive(Drop)]
pub struct Digits {
    pub number: u64,
    pub rows: usize,
}

impl Digits {
    pub fn new() -> Digits {
        Digits { number: 0, rows: 0 }
    }

    /// Counts a binding. Adds `digit` to ten times `number`, unless `digit` is `None`.
    pub fn add(&mut self, digit: Option<u8>) {
        self.rows = self.rows.saturating_add(1);
        if let Some(digit) = digit {
            self.number = self.number.wrapping_mul(10).wrapping_add(u64::from(digit));
        }
    }
}

impl Sink for Digits {
    ghost takes = { λ _ _ _ _. Unit {0} };

    fn row(&mut self, binding: &Binding<'_>) -> Result<(), SinkFault> {
        let digit = match binding.value {
            ValueRef::Integer(digit) => u8::try_from(digit).ok(),
            _ => None,
        };
        self.add(digit);
        Ok(())
    }
}

/// A binding: the text of its name, and its value.
pub type Row = (&'static [u8], ValueRef<'static>);

/// A sink that compares each binding with the wanted one at the same index. `rows` counts all
/// bindings, and `others` those that differ or that are more than wanted.
#[derive(Drop)]
pub struct Listed<'a> {
    pub wanted: &'a [Row],
    pub rows: usize,
    pub others: usize,
}

impl<'a> Listed<'a> {
    pub fn new(wanted: &'a [Row]) -> Listed<'a> {
        Listed {
            wanted,
            rows: 0,
            others: 0,
        }
    }

    /// Returns whether `binding` is the next that is wanted.
    fn is_next(&self, binding: &Binding<'_>) -> bool {
        let Some((name, value)) = self.wanted.get(self.rows) else {
            return false;
        };
        match parse_numeric(name) {
            Ok(name) => name == binding.name && *value == binding.value,
            Err(_) => false,
        }
    }
}

impl<'a> Sink for Listed<'a> {
    ghost takes = { λ _ _ _ _. Unit {0} };

    fn row(&mut self, binding: &Binding<'_>) -> Result<(), SinkFault> {
        if !self.is_next(binding) {
            self.others = self.others.saturating_add(1);
        }
        self.rows = self.rows.saturating_add(1);
        Ok(())
    }
}

/// A link in memory that counts its sends, and its requests: the first send, and each send whose
/// datagram has another octet at offset 17 than the datagram before.
#[derive(Drop)]
pub struct Counted<'a> {
    pub link: MemoryLink<'a>,
    pub sends: usize,
    pub requests: usize,
    last_id: Option<u8>,
}

impl<'a> Counted<'a> {
    pub fn new(link: MemoryLink<'a>) -> Counted<'a> {
        Counted {
            link,
            sends: 0,
            requests: 0,
            last_id: None,
        }
    }
}

impl<'a> Link for Counted<'a> {
    ghost use Rattle.snmp_walk.specs.Memory.{agents_of, traffic_of};

    ghost records = { λ _. ⊥ };

    ghost honest = { λ _. ⊥ };

    ghost agents = { λ c. agents_of c.link };

    ghost traffic = { λ c. traffic_of c.link };

    ghost fault_count = { λ c. c.link.fault_count };

    ghost ready = { λ _ _ _. ⊥ };

    ghost delivers = { λ _ _ _. Unit {0} };

    ghost recording = { λ _ h. h };

    ghost lawful = { λ _ h. absurd h };

    fn send(&mut self, datagram: &[u8]) -> Result<(), LinkFault> {
        // The request-id, if it and all lengths have one octet each and the community is `public`.
        let id = datagram.get(17).copied();
        if self.sends == 0 || id != self.last_id {
            self.requests = self.requests.saturating_add(1);
        }
        self.sends = self.sends.saturating_add(1);
        self.last_id = id;
        self.link.send(datagram)
    }

    fn receive(&mut self, buffer: &mut [u8]) -> Result<Option<usize>, LinkFault> {
        self.link.receive(buffer)
    }

    fn faults(&self) -> u64 {
        self.link.faults()
    }
}
