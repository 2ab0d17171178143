//! An output and files in memory, for tests of what is written and read. All is known of them.
ghost use Rattle.std.specs.Prelude.{◌≡◌, [], ◌∷◌, ◌++◌, Some, option_map, refl};
ghost use Rattle.snmp_io.specs.Memory.{KeptOutput, held_at};

use crate::files::{FileFault, Files};
use crate::output::{Output, OutputFault};
use std::alloc::Global;
use std::marker::Model;

/// An output that stores the octets it takes.
#[derive(Drop)]
pub struct MemoryOutput {
    octets: Vec<u8>,
    limit: usize,
    faults: u64,
}

impl Model for MemoryOutput {
    ghost Value = { KeptOutput };

    ghost view = { λ o. record { octets = o.octets.items; limit = o.limit; faults = o.faults } };
}

impl MemoryOutput {
    /// Returns an output that fails only if memory runs out.
    pub fn new(alloc: Global) -> MemoryOutput
        ensures { result ≡ record { octets = []; limit = usize.MAX; faults = 0 } }
    {
        MemoryOutput::with_limit(alloc, usize::MAX)
    }

    /// Returns an output that takes at most `limit` octets. After them, a write fails unless it is
    /// empty.
    pub fn with_limit(alloc: Global, limit: usize) -> MemoryOutput
        ensures { result ≡ record { octets = []; limit = limit; faults = 0 } }
    {
        MemoryOutput {
            octets: Vec::new(alloc),
            limit,
            faults: 0,
        }
    }

    /// Returns the octets taken so far.
    pub fn octets(&self) -> &[u8]
        ensures { result.now ≡ self.now.octets }
    {
        self.octets.as_slice()
    }
}

impl Output for MemoryOutput {
    ghost use Rattle.std.specs.Prelude.{◌<◌, ◌≤◌, ◌-◌, IfOk, IsErr, OnErr, OnOk, length, min, take};
    ghost use Rattle.snmp_io.specs.Count.{HasIncreased};

    ghost stream = { λ o. record { taken = Some o.octets; faults = o.faults } };

    ghost after = { λ o text. record {
      octets = o.octets ++ text;
      limit = o.limit;
      faults = o.faults;
    } };

    /// Takes as much of `piece` as the limit leaves room for. Fails if it leaves none and `piece`
    /// isn't empty, or if memory runs out.
    fn write(&mut self, piece: &[u8]) -> Result<usize, OutputFault>
        ensures not_empty { IfOk result (λ n. 0 < length piece.now → 0 < n) }
        ensures within_piece { IfOk result (λ n. n ≤ length piece.now) }
        ensures all_that_fits { IfOk result (λ n.
            n ≡ min (length piece.now) (self.old.limit - length self.old.octets)) }
        ensures prefix_taken { IfOk result (λ n.
            self.new.octets ≡ self.old.octets ++ take n piece.now) }
        ensures no_fault_at_ok { OnOk result (self.new.faults ≡ self.old.faults) }
        ensures none_taken_at_fault { OnErr result (self.new.octets ≡ self.old.octets) }
        ensures fault_counted { OnErr result (HasIncreased self.old.faults self.new.faults) }
        ensures limit_kept { self.new.limit ≡ self.old.limit }
        ensures fails_when_full { 0 < length piece.now → self.old.limit ≤ length self.old.octets
            → IsErr result }
    {
        let room = self.limit.saturating_sub(self.octets.len());
        let n = piece.len().min(room);
        if (n > 0 || piece.is_empty()) && self.octets.extend_from_slice(&piece[..n]).is_ok() {
            return Ok(n);
        }
        self.faults = self.faults.saturating_add(1);
        Err(OutputFault)
    }

    fn faults(&self) -> u64 {
        self.faults
    }

    ghost after_takes = { λ _ _. refl };
}

/// Files in memory. If several have the same path, only the first one is read.
#[derive(Clone, Copy, Debug)]
pub struct MemoryFiles<'a> {
    /// The paths, each with its text.
    pub files: &'a [(&'a str, &'a [u8])],
}

impl Files for MemoryFiles<'_> {
    ghost text_at = { λ f path. Some (held_at f.files.now path) };

    fn read(&self, alloc: Global, path: &str) -> Result<Vec<u8>, FileFault> {
        match text_at(self.files, path) {
            Some(text) => Vec::from_slice(alloc, text).map_err(|_| FileFault::Memory),
            None => Err(FileFault::Unreadable),
        }
    }
}

/// Returns the text of the first file whose path is `path`, if there is one.
fn text_at<'a>(files: &[(&'a str, &'a [u8])], path: &str) -> Option<&'a [u8]>
    ensures { option_map (λ text. text.now) result ≡ held_at files.now path.now }
{
    'files: for (held, text) in files {
        if *held == path {
            return Some(text);
        }
    }
    None
}
