//! The kinds of PDU.
ghost use Rattle.std.specs.Prelude.{◌≡◌};
ghost use Rattle.snmp_wire.specs.Decode as reading;
ghost use Rattle.snmp_wire.specs.{ber.Decode.AgreesBy, Spelling.kind_tag};

use crate::ber::BerError;

/// The kind of a PDU (RFC 3416, section 3).
#[derive(Clone, Copy, Debug, PartialEq, Eq)]
pub enum Kind {
    /// GetRequest-PDU, tag A0.
    GetRequest,
    /// GetNextRequest-PDU, tag A1.
    GetNextRequest,
    /// Response-PDU, tag A2.
    Response,
    /// SetRequest-PDU, tag A3.
    SetRequest,
    /// GetBulkRequest-PDU, tag A5.
    GetBulkRequest,
    /// InformRequest-PDU, tag A6.
    InformRequest,
    /// SNMPv2-Trap-PDU, tag A7.
    Trap,
    /// Report-PDU, tag A8.
    Report,
}

/// Returns the kind whose tag is `tag`, or [`BerError::Tag`] if there is none.
#[tactic(auto, unfolding(crate::specs::Decode::kind_of))]
// `inline(always)`: its single caller decodes each message.
#[inline(always)]
pub(crate) fn kind_of(tag: u8) -> Result<Kind, BerError>
    ensures { AgreesBy (λ kind. kind) result (reading.kind_of tag) }
{
    match tag {
        0xA0 => Ok(Kind::GetRequest),
        0xA1 => Ok(Kind::GetNextRequest),
        0xA2 => Ok(Kind::Response),
        0xA3 => Ok(Kind::SetRequest),
        0xA5 => Ok(Kind::GetBulkRequest),
        0xA6 => Ok(Kind::InformRequest),
        0xA7 => Ok(Kind::Trap),
        0xA8 => Ok(Kind::Report),
        _ => Err(BerError::Tag),
    }
}

/// Returns the tag of a PDU of this kind (RFC 3416, section 3).
#[inline]
pub(crate) fn tag_of_kind(kind: Kind) -> u8
    ensures { result ≡ kind_tag kind }
{
    match kind {
        Kind::GetRequest => 0xA0,
        Kind::GetNextRequest => 0xA1,
        Kind::Response => 0xA2,
        Kind::SetRequest => 0xA3,
        Kind::GetBulkRequest => 0xA5,
        Kind::InformRequest => 0xA6,
        Kind::Trap => 0xA7,
        Kind::Report => 0xA8,
    }
}
