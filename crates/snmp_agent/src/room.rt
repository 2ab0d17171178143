//! The bindings of a reply while they are written, and the room that is left for more.
ghost use Rattle.std.specs.Prelude.{◌+◌, ◌≤◌};

use snmp_wire::{Binding, EncodedBinding, MAX_DATAGRAM, ValueRef, element_sizes, encode_binding};

/// The bindings of a reply that is being written, at the start of an output. Once a binding had no
/// room, no other has.
#[derive(Clone, Copy)]
pub struct ReplyBindings {
    /// The number of octets that the bindings take.
    pub total: usize,
    /// The number of octets that further bindings may take.
    pub left: usize,
    ghost datagram: { total + left ≤ 65507 },
}

impl ReplyBindings {
    ghost use Rattle.std.specs.Prelude.{◌≡◌, ◌↔◌, ◌≤◌, IsTrue};
    ghost use Rattle.snmp_wire.specs.Message.{datum, var_bind};
    ghost use Rattle.snmp_agent.specs.private.Answering.{IsShortValue, IsWritable, add, put, held};

    /// Returns an empty list of bindings, with room for `room` octets.
    #[inline]
    pub fn new(room: usize) -> ReplyBindings
        requires { room ≤ 65507 }
        ensures empty { result.total ≡ 0 }
        ensures room { result.left ≡ room }
    {
        ReplyBindings {
            total: 0,
            left: room,
        }
    }

    /// Returns whether no room is left.
    #[inline]
    pub fn is_full(self) -> bool
        ensures { IsTrue result ↔ (self.left ≡ 0) }
    {
        self.left == 0
    }

    /// Returns the same bindings, with no room for others.
    #[inline]
    pub fn full(self) -> ReplyBindings
        ensures same { result.total ≡ self.total }
        ensures full { result.left ≡ 0 }
    {
        ReplyBindings {
            total: self.total,
            left: 0,
        }
    }

    /// Appends a row by copying its octets, if there is room for it. Otherwise appends nothing, and
    /// leaves no room for later bindings.
    #[inline]
    pub fn append_row(self, out: &mut [u8; MAX_DATAGRAM], row: &EncodedBinding) -> ReplyBindings
        ensures { held result out.new ≡ add (held self out.old) row.now }
    {
        self.append_octets(out, row.octets())
    }

    /// Appends `octets` if there is room for them. Otherwise appends nothing, and leaves no room
    /// for later bindings.
    fn append_octets(self, out: &mut [u8; MAX_DATAGRAM], octets: &[u8]) -> ReplyBindings
        ensures { held result out.new ≡ put (held self out.old) octets.now }
    {
        if octets.len() > self.left {
            return self.full();
        }
        let end = self.total + octets.len();
        out[self.total..end].copy_from_slice(octets);
        ReplyBindings {
            total: end,
            left: self.left - octets.len(),
        }
    }

    /// Appends a binding if there is room for it. Otherwise appends nothing, and leaves no room for
    /// later bindings.
    pub fn append(self, out: &mut [u8; MAX_DATAGRAM], binding: &Binding<'_>) -> ReplyBindings
        requires { IsWritable (var_bind binding.now) }
        ensures { held result out.new ≡ add (held self out.old) (var_bind binding.now) }
    {
        if !ReplyBindings::is_short(&binding.value) {
            element_sizes();
            return self.full();
        }
        let room = self.total + self.left;
        if let Some(size) = encode_binding(binding, &mut out[self.total..room]) {
            return ReplyBindings {
                total: self.total + size,
                left: self.left - size,
            };
        }
        self.full()
    }

    /// Returns `false` if the value is a string of more than 65535 octets, otherwise `true`. A
    /// table has no such string; a Set may contain one, and it fits in no reply.
    fn is_short(value: &ValueRef<'_>) -> bool
        ensures { IsTrue result ↔ IsShortValue (datum value.now) }
    {
        match value {
            ValueRef::Octets(text) | ValueRef::Opaque(text) => text.len() <= 65535,
            _ => true,
        }
    }
}
