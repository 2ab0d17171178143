//! Bindings that own their memory, stored as their encodings.
ghost use Rattle.std.specs.Prelude.{◌≡◌, length, IfOk, Ok};
ghost use Rattle.snmp_wire.specs.Encoded.{IsKept, binding_in, octets_of};
ghost use Rattle.snmp_wire.specs.ber.Decode as reading;
ghost use Rattle.snmp_wire.specs.Canon.{IsEncodable, canon_binding};
ghost use Rattle.snmp_wire.specs.Message.{datum, object_id, var_bind};
ghost use Rattle.snmp_wire.specs.Range.{IsBindingInRange, IsInRange};

use crate::ber::tag::{OBJECT_IDENTIFIER, SEQUENCE};
use crate::ber::{ValueRef, inner_at};
use crate::binding::{Binding, Bindings, pair_size, put_pair};
use crate::inline_octets::{MAX_INLINE, ON_HEAP, Octets};
use crate::name::EncodedName;
use snmp_oid::Oid;
use std::alloc::{AllocError, Global};
use std::marker::Model;

/// A variable binding (RFC 3416, section 3), stored as its shortest encoding. That is copied into
/// a message as it is.
#[derive(Debug, Drop)]
pub struct EncodedBinding {
    octets: Octets,
}

impl Model for EncodedBinding {
    ghost use Rattle.snmp_wire.specs.Encoded.{IsKept, binding_in, octets_of};
    ghost use Rattle.snmp_wire.specs.Message.{VarBind};

    ghost Value = { VarBind };

    ghost view = { λ b. binding_in (octets_of b.octets) };

    // The octets are the encoding that this crate computes for their binding.
    ghost invariant = { λ b. IsKept (octets_of b.octets) };
}

impl EncodedBinding {
    /// Returns the binding of `name` and `value`. Allocates only if its encoding has more than 39
    /// octets, and fails only if memory runs out.
    ///
    /// The name, and the value if it is an identifier, must have an encoding ([`Oid::is_wire`]),
    /// and a string must have at most 65535 octets.
    pub fn new(
        alloc: Global,
        name: &Oid,
        value: &ValueRef<'_>,
    ) -> Result<EncodedBinding, AllocError>
        requires name { IsInRange (object_id name.now) }
        requires value { IsInRange (datum value.now) }
        ensures { IfOk result
            (λ binding. binding ≡ record { name = name.now; value = datum value.now }) }
    {
        let octets = encode_pair(alloc, name, value)?;
        Ok(EncodedBinding { octets })
    }

    /// Returns the shortest encoding of the binding.
    #[inline]
    pub fn octets(&self) -> &[u8]
        // The encoding that this crate computes. By the laws of messages, no strict encoding of a
        // message is shorter than the one that contains these octets for its bindings.
        ensures encoding { result.now ≡ canon_binding self.now }
        ensures range { IsBindingInRange self.now }
    {
        self.octets.as_slice()
    }

    /// Returns the encoded name.
    #[inline]
    pub fn name(&self) -> EncodedName<'_>
        ensures { result ≡ self.now.name }
    {
        EncodedName::of(name_in(self.octets.as_slice()))
    }

    /// Reads the binding into `into`.
    pub fn read_into<'a>(&'a self, into: &mut Binding<'a>)
        ensures { var_bind into.new ≡ self.now }
    {
        let _ = Bindings::new(self.octets.as_slice()).read_next(into);
    }

    /// Returns the value.
    pub fn value(&self) -> ValueRef<'_>
        ensures { datum result ≡ self.now.value }
    {
        let mut binding = Binding::empty();
        self.read_into(&mut binding);
        binding.value
    }
}

/// Returns the content of the name in the encoding of a binding.
// `inline(always)`: called for each comparison of a search. If the lengths have one octet each, as
// in most bindings, the name begins at the fifth octet.
#[inline(always)]
#[tactic(auto, using(crate::proofs::Kept::short_name))]
fn name_in(octets: &[u8]) -> &[u8]
    requires { IsKept octets.now }
    ensures { reading.identifier_of result.now ≡ Ok (binding_in octets.now).name }
{
    match octets {
        [_, size, _, name_size, ..] if *size < 0x80 && *name_size < 0x80 => {
            let (_, suffix) = octets.split_at(4);
            let (name, _) = suffix.split_at(usize::from(*name_size));
            name
        }
        _ => name_in_long(octets),
    }
}

/// Does what [`name_in`] does, for lengths of any form.
#[cold]
fn name_in_long(octets: &[u8]) -> &[u8]
    requires { IsKept octets.now }
    ensures { reading.identifier_of result.now ≡ Ok (binding_in octets.now).name }
{
    let Ok((content, _)) = inner_at(SEQUENCE, octets) else {
        unreachable!()
    };
    let Ok((name, _)) = inner_at(OBJECT_IDENTIFIER, content) else {
        unreachable!()
    };
    name
}

/// Returns the shortest encoding of the binding of `name` and `value`. Fails only if memory runs
/// out.
fn encode_pair(alloc: Global, name: &Oid, value: &ValueRef<'_>) -> Result<Octets, AllocError>
    requires { IsEncodable (record { name = name.now; value = datum value.now }) }
    ensures { IfOk result (λ octets. octets_of octets
        ≡ canon_binding (record { name = name.now; value = datum value.now })) }
{
    let size = pair_size(name, value) as usize;
    if size > MAX_INLINE {
        return encoded_elsewhere(alloc, size, name, value);
    }
    let mut few = [0; MAX_INLINE];
    let _ = put_pair(&mut few, size, name, value);
    Ok(Octets {
        many: Vec::new(alloc),
        size: size as u8,
        few,
    })
}

/// Does what [`encode_pair`] does for an encoding of more than [`MAX_INLINE`] octets: allocates
/// memory for it. The encoding has `size` octets.
#[inline(never)]
#[tactic(auto, using(crate::proofs::WrittenBindings::encoded))]
fn encoded_elsewhere(
    alloc: Global,
    size: usize,
    name: &Oid,
    value: &ValueRef<'_>,
) -> Result<Octets, AllocError>
    requires encodable { IsEncodable (record { name = name.now; value = datum value.now }) }
    requires size { size ≡ length (canon_binding (record {
      name = name.now;
      value = datum value.now;
    })) }
    ensures { IfOk result (λ octets. octets_of octets
        ≡ canon_binding (record { name = name.now; value = datum value.now })) }
{
    let mut many = vec![in alloc; 0; size]?;
    let _ = put_pair(many.as_mut_slice(), size, name, value);
    Ok(Octets {
        many,
        size: ON_HEAP,
        few: [0; MAX_INLINE],
    })
}
