//! Outputs, which take octets, and the loop that writes a whole text to one.
ghost use Rattle.std.specs.Prelude.{◌≡◌, ◌<◌, ◌≤◌, ℕ, List, length, take, IfOk, OnErr, OnOk};
ghost use Rattle.snmp_io.specs.{Count.HasIncreased, Output.FailsWithin, Output.Stream};
ghost use Rattle.snmp_io.specs.{Output.stream_after};

use thiserror::Error;

/// A write failed. The output has counted it.
#[derive(Clone, Copy, Debug, PartialEq, Eq, Error)]
#[error("The output failed.")]
pub struct OutputFault;

/// An output that takes octets, as standard output does.
pub trait Output {
    /// What is known of the output: the octets that it took, and the number of writes that failed.
    ghost stream: { Self → Stream };

    /// `after out text`: what `out` would be if it had also taken the octets `text`.
    ghost after: { Self → List ℕ → Self };

    /// Takes a prefix of `piece` and returns its length. The prefix is empty only if `piece` is.
    /// If the write fails, the output counts it and has taken nothing of `piece`.
    fn write(&mut self, piece: &[u8]) -> Result<usize, OutputFault>
        ensures not_empty { IfOk result (λ n. 0 < length piece.now → 0 < n) }
        ensures within_piece { IfOk result (λ n. n ≤ length piece.now) }
        ensures prefix_taken { IfOk result (λ n.
            stream self.new ≡ stream_after (stream self.old) (take n piece.now)) }
        ensures none_taken_at_fault { OnErr result (
            (stream self.new).taken ≡ (stream self.old).taken) }
        ensures fault_counted { OnErr result (
            HasIncreased (stream self.old).faults (stream self.new).faults) };

    /// Returns how many writes have failed so far. The count stays at 18446744073709551615 once it
    /// gets there.
    fn faults(&self) -> u64
        ensures { result ≡ (stream self.now).faults };

    /// The stream of `after out text` is the stream of `out` with `text` appended, and as many
    /// failed writes. So a proof can treat one write of several lines as a write for each line.
    ghost after_takes: { (out : Self) (text : List ℕ)
        → stream (after out text) ≡ stream_after (stream out) text };
}

/// Writes all of `text`. Fails if a write fails; the output has then taken a prefix of `text`.
pub fn write_all<O: Output>(out: &mut O, text: &[u8]) -> Result<(), OutputFault>
    ensures whole_at_ok { OnOk result (O.stream out.new
        ≡ stream_after (O.stream out.old) text.now) }
    ensures prefix_at_fault { OnErr result (
        FailsWithin (O.stream out.old) text.now (O.stream out.new)) }
{
    let mut written = 0;
    'pieces: while written < text.len() {
        written += out.write(&text[written..])?;
    }
    Ok(())
}
