//! The tools over a caller's own files and outputs.
ghost use Rattle.std.specs.Prelude.{None, refl};

use crate::run::{THREE, THREE_LINES};
use snmp_io::{FileFault, Files, Output, OutputFault};
use snmp_net::memory::MemoryLinks;
use snmp_tools::tool;
use std::alloc::Global;
use std::cell::Cell;
use std::hash::RandomState;

/// Files that have one text at every path, and count how many times their key is asked for.
#[derive(Drop)]
struct OneText<'a> {
    text: &'a [u8],
    asked: &'a Cell<u32>,
}

impl Files for OneText<'_> {
    ghost text_at = { λ _ _. None };

    fn read(&self, alloc: Global, _path: &str) -> Result<Vec<u8>, FileFault> {
        Vec::from_slice(alloc, self.text).map_err(|_| FileFault::Memory)
    }

    fn hash_key(&self) -> Option<RandomState> {
        self.asked.set(self.asked.get().saturating_add(1));
        None
    }
}

/// An output that counts the octets that it accepts, and its writes.
#[derive(Drop)]
struct Counter {
    octets: usize,
    writes: usize,
}

const UNUSED: Counter = Counter {
    octets: 0,
    writes: 0,
};

impl Output for Counter {
    ghost stream = { λ _. record { taken = None; faults = 0 } };

    ghost after = { λ counter _. counter };

    fn write(&mut self, piece: &[u8]) -> Result<usize, OutputFault> {
        self.octets = self.octets.saturating_add(piece.len());
        self.writes = self.writes.saturating_add(1);
        Ok(piece.len())
    }

    fn faults(&self) -> u64 {
        0
    }

    ghost after_takes = { λ _ _. refl };
}

#[test]
fn files_and_outputs_may_be_a_callers_own(rt: HostRuntime) {
    let alloc = rt.alloc();
    let asked = Cell::new(0);
    let files = OneText {
        text: THREE,
        asked: &asked,
    };
    let mut links = MemoryLinks::new(alloc, &[], &[]);
    let (mut out, mut err) = (UNUSED, UNUSED);
    let words = [
        "snmp",
        "snmpwalk",
        "-On",
        "table:any.tab",
        ".1.3.6.1.4.1.32473.1",
    ];
    assert!(rt; tool(alloc, &words, &files, &mut links, &mut out, &mut err) == 0);
    assert!(rt; out.octets == THREE_LINES.len() && err.octets == 0);
    assert!(rt; asked.get() == 1);
}

#[test]
fn lines_of_names_are_written_together(rt: HostRuntime) {
    let alloc = rt.alloc();
    let asked = Cell::new(0);
    let files = OneText {
        text: b"",
        asked: &asked,
    };
    let mut links = MemoryLinks::new(alloc, &[], &[]);
    let (mut out, mut err) = (UNUSED, UNUSED);
    let good = ["snmp", "snmptranslate", "iso.3", "iso"];
    assert!(rt; tool(alloc, &good, &files, &mut links, &mut out, &mut err) == 0);
    assert!(rt; out.octets == b"iso.3\niso\n".len() && out.writes == 1);
    let bad = ["snmp", "snmptranslate", "iso.3", "iso", "nosuch", "iso"];
    assert!(rt; tool(alloc, &bad, &files, &mut links, &mut out, &mut err) == 1);
    assert!(rt; out.octets == 2 * b"iso.3\niso\n".len() && out.writes == 2);
}
