//! Why a datagram isn't accepted.
ghost use Rattle.snmp_wire.specs.ber.Decode as reading;
ghost use Rattle.snmp_wire.specs.ber.Decode.{AgreesBy};

use thiserror::Error;

/// Why a datagram isn't accepted as a message. If several faults apply, any of them may be
/// returned.
#[derive(Clone, Copy, Debug, PartialEq, Eq, Error)]
pub enum BerError {
    /// The datagram ends before its outermost element does.
    #[error("the message is cut short")]
    Truncated,
    /// Octets follow the outermost element.
    #[error("octets follow the message")]
    Trailing,
    /// A length has the indefinite form or more than four octets after its first, or an inner
    /// element is missing from the element around it, or reaches past the end of that element.
    #[error("a length is wrong")]
    Length,
    /// A tag isn't allowed at its position.
    #[error("a tag is out of place")]
    Tag,
    /// The content of an element isn't allowed for its type, or octets are left over in a SEQUENCE
    /// or PDU.
    #[error("content doesn't fit its type")]
    Content,
}

/// Returns `Ok` if `is_allowed`, otherwise [`BerError::Content`].
#[inline]
pub(crate) fn check_content(is_allowed: bool) -> Result<(), BerError>
    ensures { AgreesBy (λ u. u) result (reading.allowed is_allowed) }
{
    if is_allowed {
        Ok(())
    } else {
        Err(BerError::Content)
    }
}
