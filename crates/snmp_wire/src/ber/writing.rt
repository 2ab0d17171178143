//! Writing of the pieces of a message, from its end to its start, so that each length is known
//! when it is written. A piece is written directly before the offset `end`, and its own offset is
//! returned.
ghost use Rattle.std.specs.Prelude.{◌≡◌, ℕ, ◌+◌, ◌<◌, ◌≤◌, [], ◌∷◌, length};
ghost use Rattle.snmp_wire.specs.ber.Writing.{Writes};

/// Writes an octet before `end`, and returns its offset.
#[inline]
#[tactic(auto, using(crate::proofs::WrittenOctets::writes_one))]
pub fn put_octet(out: &mut [u8], end: usize, octet: u8) -> usize
    requires room { 1 ≤ end }
    requires within { end ≤ length out.old }
    ensures { Writes out.old result end (octet ∷ []) out.new }
{
    out[end - 1] = octet;
    end - 1
}

/// Writes `text` before `end`, and returns its offset.
#[inline]
#[tactic(auto, using(crate::proofs::WrittenOctets::writes_copy))]
pub fn put_text(out: &mut [u8], end: usize, text: &[u8]) -> usize
    requires room { length text.now ≤ end }
    requires within { end ≤ length out.old }
    ensures { Writes out.old result end text.now out.new }
{
    let start = end - text.len();
    out[start..end].copy_from_slice(text);
    start
}
