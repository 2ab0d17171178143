//! The types of values that the syntax of an object affects (RFC 2578, section 7.1).

/// The type of an object's values. The syntax of the object applies to values of this type only.
#[derive(Clone, Copy, Debug, PartialEq, Eq)]
pub enum ValueBase {
    /// INTEGER and Integer32.
    Integer,
    /// OCTET STRING.
    OctetString,
    /// BITS.
    Bits,
    /// Counter32.
    Counter32,
    /// Gauge32 and Unsigned32.
    Gauge32,
    /// TimeTicks.
    TimeTicks,
    /// Counter64.
    Counter64,
    /// Any other type. No syntax applies to its values.
    Other,
}

impl ValueBase {
    ghost use Rattle.std.specs.Prelude.{◌≡◌};
    ghost use Rattle.smi_value.specs.Syntax.{same_base};

    /// Returns whether a syntax of the type `other` applies to values of this type: the two are
    /// the same type, and not `Other`.
    pub(crate) fn is_same(self, other: ValueBase) -> bool
        ensures { result ≡ same_base self other }
    {
        matches!(
            (self, other),
            (ValueBase::Integer, ValueBase::Integer)
                | (ValueBase::OctetString, ValueBase::OctetString)
                | (ValueBase::Bits, ValueBase::Bits)
                | (ValueBase::Counter32, ValueBase::Counter32)
                | (ValueBase::Gauge32, ValueBase::Gauge32)
                | (ValueBase::TimeTicks, ValueBase::TimeTicks)
                | (ValueBase::Counter64, ValueBase::Counter64)
        )
    }
}
