//! Octets that own their memory: a few are stored inline, more on the heap.

use std::fmt;

/// The longest encoding, in octets, that [`Octets`] stores inline; longer ones are on the heap.
/// Most bindings of a device fit, and with this limit an [`Octets`] takes 64 octets of memory.
pub const MAX_INLINE: usize = 39;

/// The [`Octets::size`] of an encoding on the heap; any number above [`MAX_INLINE`] would do.
pub const ON_HEAP: u8 = 255;

/// An encoding, stored inline if it has at most [`MAX_INLINE`] octets. Inline, it needs no
/// allocation, and a search reads it without following a pointer.
// A struct and not an enum: a move copies all of it, whatever it stores, so that many are moved by
// one copy.
#[derive(Drop)]
pub struct Octets {
    /// All octets, if they are on the heap.
    pub many: Vec<u8>,
    /// The number of octets stored inline, or [`ON_HEAP`].
    pub size: u8,
    /// The octets stored inline, and zeros after them.
    pub few: [u8; MAX_INLINE],
}

impl Octets {
    ghost use Rattle.std.specs.Prelude.{◌≡◌};
    ghost use Rattle.snmp_wire.specs.Encoded.{octets_of};

    /// Returns the octets.
    // `inline(always)`: called for each comparison of a search.
    #[inline(always)]
    pub fn as_slice(&self) -> &[u8]
        ensures { result.now ≡ octets_of self.now }
    {
        if usize::from(self.size) <= MAX_INLINE {
            &self.few[..usize::from(self.size)]
        } else {
            self.many.as_slice()
        }
    }
}

impl fmt::Debug for Octets {
    fn fmt<W: fmt::Write>(&self, f: &mut fmt::Formatter<W>) -> fmt::Result {
        f.debug_list().entries(self.as_slice()).finish()
    }
}
