//! Laws of messages and their encodings, for readers and for proofs in other crates. Each is a
//! call that does nothing; its caller's proof may use its clause.
//!
//! An encoding is *strict* if its unsigned numbers too are in two's complement (X.690, 8.3.3), so
//! that the high bit of their first octet is clear.
ghost use Rattle.std.specs.Prelude.{ℕ, List};
ghost use Rattle.snmp_wire.specs.{ber.Sizes.ElementSizes, declared.ber.error.BerError.BerError};
ghost use Rattle.snmp_wire.specs.Fault.{IsFault};
ghost use Rattle.snmp_wire.specs.{Message.Message, Sizes.MessageSizes, Spelling.Spells};
ghost use Rattle.snmp_wire.specs.Laws.{EncodingIsShortest, EncodingIsStrict, HasPieces, OneMessage};
ghost use Rattle.snmp_wire.specs.Laws.{OneShortestEncoding, RequestsAreShort, EncodingIsOfType};
ghost use Rattle.snmp_wire.specs.Laws.{StrictIsRead};

/// Octets encode at most one message, and no encoding is a proper prefix of another.
#[inline]
pub fn one_spelling()
    ensures { OneMessage }
{}

/// If octets encode a message, they have no fault: what each error says of them is false.
#[inline]
pub fn no_fault()
    ensures { (message : Message) (octets : List ℕ) (error : BerError)
        → Spells message octets → IsFault error octets → ⊥ }
{}

/// If octets encode a message, its parts are of their types: its numbers are within their ranges,
/// its strings are octets, and its identifiers have encodings.
#[inline]
pub fn encoding_is_of_type()
    ensures { EncodingIsOfType }
{}

/// Octets that encode a message strictly, with unsigned numbers in two's complement, are in a form
/// that is accepted: [`decode`](crate::decode) returns the message.
#[inline]
#[tactic(auto, using(crate::proofs::MessageElements::strict_is_read))]
pub fn strict_is_read()
    ensures { StrictIsRead }
{}

/// If a message is in range (`IsMessageInRange`), the encoding that is written of it is strict, so
/// [`decode`](crate::decode) returns the message.
#[inline]
#[tactic(auto, using(crate::proofs::MessageElements::strict_canon))]
pub fn encoding_is_strict()
    ensures { EncodingIsStrict }
{}

/// No strict encoding of a message is shorter than the one that is written.
#[inline]
#[tactic(auto, using(crate::proofs::MessageElements::no_shorter))]
pub fn encoding_is_shortest()
    ensures { EncodingIsShortest }
{}

/// A message in range (`IsMessageInRange`) has exactly one shortest strict encoding: the one that
/// is written.
#[inline]
pub fn one_shortest_encoding()
    ensures { OneShortestEncoding }
{}

/// The encoding that is written of a message is its head, which ends before the first binding, and
/// then the encodings of its bindings in turn.
#[inline]
#[tactic(auto, using(crate::proofs::WrittenMessages::canon_parts))]
pub fn pieces()
    ensures { HasPieces }
{}

/// Says how many octets are written of lengths, elements and whole numbers from zero on, and that
/// an INTEGER of 32 bits takes at most 6.
#[inline]
#[tactic(auto, using(std::proofs::lemmas::Grind::common_steps, crate::proofs::NumberSizes::element_lengths))]
pub fn element_sizes()
    ensures { ElementSizes }
{}

/// Says how many octets each part of the encoding that is written of a message takes.
#[inline]
#[tactic(auto, using(std::proofs::lemmas::Grind::common_steps, crate::proofs::WrittenMessages::message_lengths))]
pub fn message_sizes()
    ensures { MessageSizes }
{
    element_sizes();
}

/// A request for one name, whatever its kind, has at most 1,000 octets, if its community has at
/// most 255 octets and the name at most 128 numbers, as each [`Oid`](crate::Oid) has.
#[inline]
#[tactic(auto, using(crate::proofs::Requests::short_request))]
pub fn requests_are_short()
    ensures { RequestsAreShort }
{}
