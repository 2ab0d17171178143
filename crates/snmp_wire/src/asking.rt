//! The encoded name that a walk stores, and the binding that requests it.
ghost use Rattle.std.specs.Prelude.{◌≡◌, ℕ, ◌≤◌, ◌↔◌, ◌++◌, drop, length, take, IfNone, IfSome};
ghost use Rattle.std.specs.Prelude.{IsSome};
ghost use Rattle.snmp_oid.specs.Identifier.{IsIdentifier, IsWire};
ghost use Rattle.snmp_wire.specs.{Canon.canon_binding, Name.asking, ber.Writing.Writes};

use crate::ber::tag::{NULL, OBJECT_IDENTIFIER, SEQUENCE};
use crate::ber::{header_size, put_header, put_text};
use crate::{EncodedName, MAX_CONTENT};
use std::marker::Model;

/// An encoded name that owns its octets.
#[derive(Drop)]
pub struct NameBuffer {
    octets: [u8; MAX_CONTENT],
    len: usize,
}

impl Model for NameBuffer {
    ghost use Rattle.std.specs.Prelude.{List, ℕ, ◌≤◌, take};
    ghost use Rattle.snmp_wire.specs.Name.{IsContentOctets, identifier_in};

    ghost Value = { List ℕ };

    ghost view = { λ name. identifier_in (take name.len name.octets) };

    ghost invariant = { λ name.
        (name.len ≤ 640) × IsContentOctets (take name.len name.octets) };
}

impl NameBuffer {
    /// Returns a copy of `name`.
    pub fn new(name: &EncodedName<'_>) -> NameBuffer
        ensures value { result ≡ name.now }
        ensures wire { IsWire name.now }
        ensures identifier { IsIdentifier name.now }
    {
        let content = name.content();
        let mut octets = [0; MAX_CONTENT];
        copy_to_start(&mut octets, content);
        NameBuffer {
            octets,
            len: content.len(),
        }
    }

    /// Returns the name.
    #[inline]
    pub fn name(&self) -> EncodedName<'_>
        ensures { result ≡ self.now }
    {
        EncodedName::of(&self.octets[..self.len])
    }

    /// Replaces the stored name by `name`, in place.
    #[inline]
    pub fn set_to(&mut self, name: &EncodedName<'_>)
        ensures value { self.new ≡ name.now }
        ensures wire { IsWire name.now }
        ensures identifier { IsIdentifier name.now }
    {
        let content = name.content();
        copy_to_start(&mut self.octets, content);
        self.len = content.len();
    }
}

/// Copies `content`, of at most 640 octets, to the start of `octets`.
#[inline]
fn copy_to_start(octets: &mut [u8; MAX_CONTENT], content: &[u8])
    requires { length content.now ≤ 640 }
    ensures { take (length content.now) octets.new ≡ content.now }
{
    octets[..content.len()].copy_from_slice(content);
}

/// Returns the length, in octets, of the shortest encoding of the binding that requests `name`.
#[inline]
#[tactic(auto, using(crate::proofs::WrittenBindings::sizes_null))]
pub fn asking_size(name: &EncodedName<'_>) -> u64
    ensures { result ≡ length (canon_binding (asking name.now)) }
{
    let len = name.content().len() as u64;
    let content = header_size(len) + len + 2;
    header_size(content) + content
}

/// Writes the shortest encoding of the binding that requests `name` to the start of `out`, and
/// returns its length. The value of the binding is NULL (RFC 3416, section 3).
///
/// Returns `None` if `out` is shorter than that; `out` is then unchanged.
pub fn encode_asking(name: &EncodedName<'_>, out: &mut [u8]) -> Option<usize>
    // The octets of `out` after the binding are unchanged.
    ensures some { IfSome result (λ n.
        (n ≡ length (canon_binding (asking name.now)))
        × (out.new ≡ canon_binding (asking name.now) ++ drop n out.old)) }
    ensures variant { IsSome result
        ↔ (length (canon_binding (asking name.now)) ≤ length out.old) }
    ensures unchanged { IfNone result (out.new ≡ out.old) }
{
    let size = asking_size(name) as usize;
    if out.len() < size {
        return None;
    }
    put_asking(out, size, name);
    Some(size)
}

/// Writes a binding, the one that requests `asked`, before `end`, and returns its offset.
#[inline]
fn put_asking(out: &mut [u8], end: usize, asked: &EncodedName<'_>) -> usize
    requires room { length (canon_binding (asking asked.now)) ≤ end }
    requires within { end ≤ length out.old }
    ensures { Writes out.old result end (canon_binding (asking asked.now)) out.new }
{
    let value = put_text(out, end, &[NULL, 0]);
    let content = put_text(out, value, asked.content());
    let name = put_header(out, content, OBJECT_IDENTIFIER, (value - content) as u64);
    put_header(out, name, SEQUENCE, (end - name) as u64)
}
