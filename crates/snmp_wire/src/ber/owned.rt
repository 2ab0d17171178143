//! Values that own their octets.
ghost use Rattle.std.specs.Prelude.{◌≡◌, IfOk, IsOk};
ghost use Rattle.snmp_wire.specs.{ber.Value.datum, ber.Owned.HasNoString, ber.Owned.owned};

use crate::ber::ValueRef;
use snmp_oid::Oid;
use std::alloc::{AllocError, Global};
use std::marker::Model;

/// The octets of a string, owned.
#[derive(Debug, Drop)]
pub struct OctetString {
    octets: Vec<u8>,
}

impl Model for OctetString {
    ghost use Rattle.std.specs.Prelude.{List, ℕ};

    ghost Value = { List ℕ };

    ghost view = { λ s. s.octets.items };
}

impl OctetString {
    /// Returns a copy of `octets`, in memory of its own. Fails only if memory runs out.
    pub fn from_slice(alloc: Global, octets: &[u8]) -> Result<OctetString, AllocError>
        ensures { IfOk result (λ s. s ≡ octets.now) }
    {
        Ok(OctetString {
            octets: Vec::from_slice(alloc, octets)?,
        })
    }

    /// Returns the octets.
    pub fn as_slice(&self) -> &[u8]
        ensures { result.now ≡ self.now }
    {
        self.octets.as_slice()
    }

    /// Returns the vector that stores the octets, without allocating.
    pub fn into_vec(self) -> Vec<u8>
        ensures { result.items ≡ self }
    {
        self.octets
    }
}

/// A value, or an exception in place of one (RFC 3416, section 3), that owns its octets: the
/// counterpart of [`ValueRef`].
#[derive(Debug, Drop)]
pub enum Value {
    /// INTEGER.
    Integer(i32),
    /// OCTET STRING.
    Octets(OctetString),
    /// NULL.
    Null,
    /// OBJECT IDENTIFIER.
    ObjectId(Oid),
    /// IpAddress.
    IpAddress([u8; 4]),
    /// Counter32.
    Counter32(u32),
    /// Gauge32 or Unsigned32.
    Gauge32(u32),
    /// TimeTicks, in hundredths of a second.
    TimeTicks(u32),
    /// Opaque.
    Opaque(OctetString),
    /// Counter64.
    Counter64(u64),
    /// The exception noSuchObject.
    NoSuchObject,
    /// The exception noSuchInstance.
    NoSuchInstance,
    /// The exception endOfMibView.
    EndOfMibView,
}

impl Value {
    /// Returns a copy of `value`. Allocates memory only for the octets of a string, and can't fail
    /// for any other value.
    pub fn from_ref(alloc: Global, value: &ValueRef<'_>) -> Result<Value, AllocError>
        ensures same_value { IfOk result (λ v. owned v ≡ datum value.now) }
        ensures ok_without_string { HasNoString (datum value.now) → IsOk result }
    {
        Ok(match value {
            ValueRef::Integer(number) => Value::Integer(*number),
            ValueRef::Octets(octets) => Value::Octets(OctetString::from_slice(alloc, octets)?),
            ValueRef::Null => Value::Null,
            ValueRef::ObjectId(oid) => Value::ObjectId(oid.copy()),
            ValueRef::IpAddress(address) => Value::IpAddress(*address),
            ValueRef::Counter32(number) => Value::Counter32(*number),
            ValueRef::Gauge32(number) => Value::Gauge32(*number),
            ValueRef::TimeTicks(hundredths) => Value::TimeTicks(*hundredths),
            ValueRef::Opaque(octets) => Value::Opaque(OctetString::from_slice(alloc, octets)?),
            ValueRef::Counter64(number) => Value::Counter64(*number),
            ValueRef::NoSuchObject => Value::NoSuchObject,
            ValueRef::NoSuchInstance => Value::NoSuchInstance,
            ValueRef::EndOfMibView => Value::EndOfMibView,
        })
    }

    /// Returns the value, with its strings borrowed.
    pub fn as_ref(&self) -> ValueRef<'_>
        ensures { datum result ≡ owned self.now }
    {
        match self {
            Value::Integer(number) => ValueRef::Integer(*number),
            Value::Octets(octets) => ValueRef::Octets(octets.as_slice()),
            Value::Null => ValueRef::Null,
            Value::ObjectId(oid) => ValueRef::ObjectId(oid.copy()),
            Value::IpAddress(address) => ValueRef::IpAddress(*address),
            Value::Counter32(number) => ValueRef::Counter32(*number),
            Value::Gauge32(number) => ValueRef::Gauge32(*number),
            Value::TimeTicks(hundredths) => ValueRef::TimeTicks(*hundredths),
            Value::Opaque(octets) => ValueRef::Opaque(octets.as_slice()),
            Value::Counter64(number) => ValueRef::Counter64(*number),
            Value::NoSuchObject => ValueRef::NoSuchObject,
            Value::NoSuchInstance => ValueRef::NoSuchInstance,
            Value::EndOfMibView => ValueRef::EndOfMibView,
        }
    }
}
