//! Base types, whose names mean the same in every module.
ghost use Rattle.std.specs.Prelude.{◌≡◌};
ghost use Rattle.smi_names.specs.meaning.Base.{base_named};

/// The base type of an object's values (RFC 2578, section 7.1).
#[derive(Clone, Copy, Debug, PartialEq, Eq)]
pub enum TypeBase {
    /// INTEGER and Integer32.
    Integer,
    /// OCTET STRING.
    OctetString,
    /// OBJECT IDENTIFIER.
    ObjectIdentifier,
    /// BITS.
    Bits,
    /// Counter32.
    Counter32,
    /// Gauge32.
    Gauge32,
    /// Unsigned32.
    Unsigned32,
    /// TimeTicks.
    TimeTicks,
    /// IpAddress.
    IpAddress,
    /// Opaque.
    Opaque,
    /// Counter64.
    Counter64,
}

impl TypeBase {
    /// Returns the base type of this name, even if a module defines it too (RFC 2578, section
    /// 7.1). Returns `None` for any other text, and for words of the grammar such as INTEGER,
    /// which aren't names.
    #[tactic(auto, unfolding(crate::specs::meaning::Base::base_named))]
    pub fn from_name(name: &[u8]) -> Option<TypeBase>
        ensures { result ≡ base_named name.now }
    {
        if name == b"Integer32".as_slice() {
            Some(TypeBase::Integer)
        } else if name == b"Counter32".as_slice() {
            Some(TypeBase::Counter32)
        } else if name == b"Gauge32".as_slice() {
            Some(TypeBase::Gauge32)
        } else if name == b"Unsigned32".as_slice() {
            Some(TypeBase::Unsigned32)
        } else if name == b"TimeTicks".as_slice() {
            Some(TypeBase::TimeTicks)
        } else if name == b"IpAddress".as_slice() {
            Some(TypeBase::IpAddress)
        } else if name == b"Opaque".as_slice() {
            Some(TypeBase::Opaque)
        } else if name == b"Counter64".as_slice() {
            Some(TypeBase::Counter64)
        } else {
            None
        }
    }
}
