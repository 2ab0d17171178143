//! The machine's own outputs and files. Nothing is known of their octets.
ghost use Rattle.std.specs.Prelude.{◌≡◌, ◌<◌, ◌≤◌, ◌↔◌, ℕ, None, IfOk, IfSome, IsErrOf};
ghost use Rattle.std.specs.Prelude.{length, refl, vec_len};
ghost use Rattle.snmp_io.specs.Machine.{IsWantOfMemory, most_octets};

use crate::files::{FileFault, Files};
use crate::output::{Output, OutputFault};
use std::alloc::Global;
use std::fs::File;
use std::io::{ErrorKind, Read, Write};
use std::marker::Model;
use std::{io, rt};

/// The most octets that a file may have. A read of one with more, or without an end, fails.
const MOST_OCTETS: usize = 268_435_456;

/// How many times, at most, a write is tried if signals interrupt it.
const TRIES: u8 = 100;

/// An output of the machine, such as standard output. It adds no buffer to its writer.
#[derive(Drop)]
pub struct MachineOutput<W> {
    to: W,
    faults: u64,
}

/// In a contract, the output is the number of its writes that failed.
impl<W> Model for MachineOutput<W> {
    ghost Value = { ℕ };

    ghost view = { λ o. o.faults };
}

impl<W> MachineOutput<W> {
    /// Returns an output to the writer `to`, with no failed write yet.
    pub fn new(to: W) -> MachineOutput<W>
        ensures { result ≡ 0 }
    {
        MachineOutput { to, faults: 0 }
    }
}

impl<W: Write> Output for MachineOutput<W> {
    ghost stream = { λ faults. record { taken = None; faults = faults } };

    ghost after = { λ faults _. faults };

    fn write(&mut self, piece: &[u8]) -> Result<usize, OutputFault> {
        match write_some(&mut self.to, piece) {
            Some(n) => Ok(n),
            None => {
                self.faults = self.faults.saturating_add(1);
                Err(OutputFault)
            }
        }
    }

    fn faults(&self) -> u64 {
        self.faults
    }

    ghost after_takes = { λ _ _. refl };
}

/// Writes a prefix of `piece` and returns its length. Returns `None` if the write fails or takes
/// nothing of a piece that isn't empty, or if signals interrupt each try.
fn write_some<W: Write>(to: &mut W, piece: &[u8]) -> Option<usize>
    ensures some { IfSome result (λ n. 0 < length piece.now → 0 < n) }
    ensures within { IfSome result (λ n. n ≤ length piece.now) }
{
    'tries: for _ in 0..TRIES {
        match to.write(piece) {
            Ok(n) if n > 0 || piece.is_empty() => return Some(n),
            Err(error) if error.kind() == ErrorKind::Interrupted => {}
            _ => return None,
        }
    }
    None
}

/// The files of the machine. They have no key for hashing names: `KeyedFiles` adds one.
#[derive(Drop)]
pub struct MachineFiles<R> {
    /// The handle that opens the files.
    pub rt: R,
}

impl<R: rt::Files> Files for MachineFiles<R> {
    ghost text_at = { λ _ _. None };

    fn read(&self, alloc: Global, path: &str) -> Result<Vec<u8>, FileFault> {
        let file = File::open(&self.rt, path).map_err(|error| ReadError::Failed(error).fault())?;
        read_whole(alloc, file).map_err(|error| error.fault())
    }
}

/// Why a file or another reader couldn't be read.
#[derive(Clone, Copy, Debug)]
pub enum ReadError {
    /// The reader had more than 268435456 octets left.
    TooLong,
    /// Opening the file failed, or reading failed, or memory for the octets ran out.
    Failed(io::Error),
}

impl ReadError {
    ghost use Rattle.std.specs.Prelude.{◌≡◌, ◌↔◌};

    /// Returns what the error means for a file: `Memory` if memory ran out, otherwise
    /// `Unreadable`.
    pub fn fault(&self) -> FileFault
        ensures { result ≡ FileFault.Memory ↔ IsWantOfMemory self.now }
    {
        match self {
            ReadError::Failed(error) if matches!(error.kind(), ErrorKind::OutOfMemory) => {
                FileFault::Memory
            }
            _ => FileFault::Unreadable,
        }
    }
}

/// Returns all octets that `from` has left. Fails with `Failed` if reading fails or memory runs
/// out, and otherwise with `TooLong` if there are more than 268435456.
pub fn read_whole<R: Read + Drop>(alloc: Global, from: R) -> Result<Vec<u8>, ReadError>
    ensures whole { IfOk result (λ text.
        IfSome (R.remaining from) (λ octets. text.items ≡ octets)) }
    ensures within_limit { IfOk result (λ text. vec_len text ≤ most_octets) }
    ensures too_long { IsErrOf result ReadError.TooLong
        → IfSome (R.remaining from) (λ octets. most_octets < length octets) }
{
    let mut text = Vec::new(alloc);
    match from.take(MOST_OCTETS as u64 + 1).read_to_end(&mut text) {
        Ok(_) if text.len() <= MOST_OCTETS => Ok(text),
        Ok(_) => Err(ReadError::TooLong),
        Err(error) => Err(ReadError::Failed(error)),
    }
}
