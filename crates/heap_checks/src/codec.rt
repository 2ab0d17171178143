//! A check of the calls that read and write messages. None of them allocates.
ghost use Rattle.std.specs.Prelude.{[], ◌∷◌, ◌≡◌, ◌≤◌, length, true};
ghost use Rattle.snmp_wire.specs.Canon.{IsEncodable, canon_binding, canon_bindings};
ghost use Rattle.snmp_wire.specs.Message.{var_bind};

use crate::Fault;
use crate::free::mark;
use crate::room::Room;
use snmp_wire::{
    Binding, MessageRef, Parts, ValueRef, binding_size, decode, encode, encode_binding,
    encode_head, head_size, seal, size,
};
use std::alloc::Global;

/// Checks the calls that read and write messages. Reads a message, and appends it with its first
/// binding only, twice: written whole by `encode`, and in pieces by `encode_binding` and `seal`.
/// The lengths of the message by `encode` and of its head by `encode_head` must be those that
/// `size` and `head_size` return.
pub fn check_codec(alloc: Global, datagram: &[u8], room: &mut Room<'_>) -> Result<(), Fault> {
    let _begun = mark(alloc)?;
    let Ok(message) = decode(datagram) else {
        return Err(Fault::Wrong);
    };
    let Some(binding) = message.bindings().next() else {
        return Err(Fault::Wrong);
    };
    let ended = write_again(&message, binding, room);
    let _ended = mark(alloc)?;
    ended
}

/// Returns whether a binding of a string or NULL can be written. Returns false for other values.
fn is_encodable(binding: &Binding<'_>) -> bool
    ensures { result ≡ true → IsEncodable (var_bind binding.now) }
{
    binding.name.is_wire()
        && match binding.value {
            ValueRef::Octets(string) => string.len() <= 65535,
            ValueRef::Null => true,
            _ => false,
        }
}

/// Returns the encoded length of a binding. It is short enough for a message.
#[tactic(auto, unfolding(snmp_wire::specs::Canon::canon_bindings))]
fn size_of_one(binding: &Binding<'_>) -> u64
    requires { IsEncodable (var_bind binding.now) }
    ensures value { result ≡ length (canon_binding (var_bind binding.now)) }
    ensures total { length (canon_bindings (var_bind binding.now ∷ [])) ≤ 4000000000 }
    ensures at_most_70000 { result ≤ 70000 }
{
    binding_size(binding)
}

/// Writes `message` with this binding only, whole and in pieces, and appends both.
fn write_again(
    message: &MessageRef<'_>,
    binding: Binding<'_>,
    room: &mut Room<'_>,
) -> Result<(), Fault> {
    if !is_encodable(&binding) || message.community().len() > 65535 {
        return Err(Fault::Wrong);
    }
    let total = size_of_one(&binding);
    let bindings = [binding];
    let parts = Parts {
        version: message.version(),
        community: message.community(),
        kind: message.kind(),
        id: message.id(),
        a: message.a(),
        b: message.b(),
        bindings: &bindings,
    };
    let mut octets = [0; 1472];
    let whole = encode(&parts, &mut octets).unwrap_or(0);
    room.append(octets.get(..whole).unwrap_or(&[]));
    let head = encode_head(&parts, total, &mut octets).unwrap_or(0);
    if size(&parts) != whole as u64 || head_size(&parts, total) != head as u64 {
        return Err(Fault::Wrong);
    }
    append_pieces(&parts, &bindings[0], room)
}

/// Appends to `room` the message of `parts` with `binding` as its only binding. The binding is
/// written first, and then the head before it.
fn append_pieces(parts: &Parts<'_>, binding: &Binding<'_>, room: &mut Room<'_>) -> Result<(), Fault>
    requires community { length parts.now.community.now ≤ 65535 }
    requires binding { IsEncodable (var_bind binding.now) }
{
    let mut octets = [0; 1472];
    let Some(len) = encode_binding(binding, &mut octets[200..]) else {
        return Err(Fault::Wrong);
    };
    let size = seal(parts, 200, len, &mut octets).unwrap_or(0);
    room.append(octets.get(..size).unwrap_or(&[]));
    Ok(())
}
