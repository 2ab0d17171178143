//! The trait of links. A walk sends its requests and receives replies over a link.
ghost use Rattle.std.specs.Prelude.{◌≡◌, ◌≤◌, ◌+◌, ◌++◌, [], ◌∷◌, ◌⊎◌, ℕ, List, length, Option};
ghost use Rattle.std.specs.Prelude.{Some, None, IsOk, IsErr, OnOk, IfOk, OnErr, IfSome, IfNone};
ghost use Rattle.std.specs.Prelude.{take, ◌<◌};

use crate::LinkFault;

/// A way to send datagrams to an agent and to receive its replies.
///
/// The promises of a walk rest on the facts below. A link in memory can have all of them. Another
/// link may have `records` only, and a socket has neither `records` nor `honest`.
pub trait Link {
    ghost use Rattle.std.specs.Prelude.{Option, take};
    ghost use Rattle.snmp_walk.specs.Link.{Agents, AreLawful};
    ghost use Rattle.snmp_walk.specs.Moves.{Moves};
    ghost use Rattle.snmp_walk.specs.Traffic.{Traffic, Receives, received};

    /// `records link`: the traffic of `link` lists every datagram sent over it.
    ghost records: { Self → Type 0 };

    /// `honest link`: all that `link` delivers are replies of its agents, as its traffic says.
    ghost honest: { Self → Type 0 };

    /// The agents that may reply, if the link is honest.
    ghost agents: { Self → Agents };

    /// The datagrams sent, if `records` holds, and what the next receives deliver, if the link is
    /// honest.
    ghost traffic: { Self → Traffic };

    /// The number of sends and receives that failed, up to 18446744073709551615.
    ghost fault_count: { Self → ℕ };

    /// `ready link sends octets`: the next `sends` sends, of at most `octets` octets in total,
    /// succeed, and so does every receive into a buffer of at least 65507 octets.
    ghost ready: { Self → ℕ → ℕ → Type 0 };

    /// `delivers old octets new`: a receive in state `old` can return `octets` and leave the link
    /// in state `new`.
    ghost delivers: { Self → List ℕ → Self → Type 0 };

    /// `sends old octets new`: a send of `octets` in state `old` can succeed and leave the link in
    /// state `new`.
    ghost sends: { Self → List ℕ → Self → Type 0 } = { λ _ _ _. Unit {0} };

    /// `send_fails old octets new`: a send of `octets` in state `old` can fail and leave the link
    /// in state `new`.
    ghost send_fails: { Self → List ℕ → Self → Type 0 } = { λ _ _ _. Unit {0} };

    /// `is_silent old new`: a receive in state `old` can return `None` and leave the link in state
    /// `new`.
    ghost is_silent: { Self → Self → Type 0 } = { λ _ _. Unit {0} };

    /// `receive_fails old new`: a receive in state `old` can fail and leave the link in state
    /// `new`.
    ghost receive_fails: { Self → Self → Type 0 } = { λ _ _. Unit {0} };

    /// `refuses_short link`: a receive into a buffer of fewer than 65507 octets fails.
    ghost refuses_short: { Self → Type 0 } = { λ _. ⊥ };

    /// Sends a datagram. If this fails, the fault is counted, and agents and traffic stay the
    /// same.
    fn send(&mut self, datagram: &[u8]) -> Result<(), LinkFault>
        ensures sends { OnOk result (sends self.old datagram.now self.new) }
        ensures send_fails { OnErr result (send_fails self.old datagram.now self.new) }
        ensures unchanged { OnErr result (traffic self.new ≡ traffic self.old) }
        ensures moves { Moves records honest agents traffic fault_count ready self.old
            (datagram.now ∷ []) 0 (IsErr result) self.new };

    /// Receives a datagram into the start of `buffer` and returns its length. Returns `None` if
    /// none arrives in time. If the receive fails, the fault is counted, and agents and traffic
    /// stay the same.
    fn receive(&mut self, buffer: &mut [u8]) -> Result<Option<usize>, LinkFault>
        ensures length { IfOk result (λ got. IfSome got (λ n. n ≤ length buffer.old)) }
        ensures delivers { IfOk result (λ got. IfSome got
            (λ n. delivers self.old (take n buffer.new) self.new)) }
        ensures silent { IfOk result (λ got. IfNone got (is_silent self.old self.new)) }
        ensures receive_fails { OnErr result (receive_fails self.old self.new) }
        ensures reply { honest self.old → 65507 ≤ length buffer.old
            → IfOk result (λ got. Receives (agents self.old) (traffic self.old).sent
            (traffic self.old).ahead (received got buffer.new) (traffic self.new).ahead) }
        ensures short { refuses_short self.old → length buffer.old < 65507 → IsErr result }
        ensures unchanged { OnErr result (traffic self.new ≡ traffic self.old) }
        ensures moves { Moves records honest agents traffic fault_count
            (λ link sends octets. (65507 ≤ length buffer.old) × ready link sends octets) self.old []
            1 (IsErr result) self.new };

    /// Returns the number of sends and receives that failed, up to 18446744073709551615.
    fn faults(&self) -> u64
        ensures { result ≡ fault_count self.now };

    /// The traffic of an honest link lists every datagram sent over it.
    ghost recording: { (link : Self) → honest link → records link };

    /// The agents of an honest link serve MIB views, and their messages fit into datagrams.
    ghost lawful: { (link : Self) → honest link → AreLawful (agents link) };
}
