//! Messages: decoded from datagrams, and encoded.
ghost use Rattle.std.specs.Prelude.{◌≡◌, ℕ, List, ◌++◌, IfOk, IfErr, Ok, ◌+◌, ◌^◌, ◌<◌, ◌≤◌, ◌↔◌};
ghost use Rattle.std.specs.Prelude.{length, drop, take, IfSome, IfNone, IsSome, All};
ghost use Rattle.std.specs.List.{AllByRecursion};
ghost use Rattle.snmp_wire.specs.{Fault.IsFault, ber.Value.integer_value, ber.Value.octet_string};
ghost use Rattle.snmp_wire.specs.{ber.Decode.AgreesBy, Spelling.Spells, ber.Canon.canon_value};
ghost use Rattle.snmp_wire.specs.{Parts.parts_message, Parts.with_bindings, ber.Number.AreOctets};
ghost use Rattle.snmp_wire.specs.Range.{IsBindingInRange, IsMessageInRange};
ghost use Rattle.snmp_wire.specs.{Shortest.IsShortestEncoding, ber.Writing.Writes};
ghost use Rattle.snmp_wire.specs.Message.{Message, VarBind, var_bind, var_binds};
ghost use Rattle.snmp_wire.specs.Decode as reading;
ghost use Rattle.snmp_wire.specs.Canon.{IsEncodable, canon, canon_bindings, canon_prefix};
ghost use Rattle.snmp_wire.specs.Canon.{canon_head};

use crate::ber::tag::{INTEGER, OCTET_STRING, SEQUENCE};
use crate::ber::{
    BerError, content_at, element_at, header_size, inner_at, integer_at, integer_size, put_header,
    put_integer, put_octet, put_short_header, put_text,
};
use crate::binding::{binding_size, check_bindings, put_binding};
use crate::kind::{kind_of, tag_of_kind};
use crate::laws::one_shortest_encoding;
use crate::{Binding, Bindings, Kind};
use std::marker::Model;

/// The greatest number of octets that a UDP datagram carries over IPv4 (RFC 768; RFC 791, section
/// 3.1): 65535 less the headers of 20 and 8 octets.
pub const MAX_DATAGRAM: usize = 65507;

/// A decoded message (RFC 1901, section 3). Its strings are borrowed from the datagram.
#[derive(Debug, Drop)]
pub struct MessageRef<'a> {
    version: i32,
    community: &'a [u8],
    kind: Kind,
    id: i32,
    a: i32,
    b: i32,
    /// The encoded bindings.
    bindings: &'a [u8],
}

impl<'a> Model for MessageRef<'a> {
    ghost use Rattle.std.specs.Prelude.{IsOk};
    ghost use Rattle.snmp_wire.specs.Message.{Message};
    ghost use Rattle.snmp_wire.specs.Decode as reading;

    ghost Value = { Message };

    ghost view = { λ m. record {
      version = m.version;
      community = m.community.now;
      kind = m.kind;
      id = m.id;
      a = m.a;
      b = m.b;
      bindings = reading.bindings_in m.bindings.now;
    } };

    ghost invariant = { λ m. IsOk (reading.bindings_of m.bindings.now) };
}

impl<'a> MessageRef<'a> {
    /// Returns the version: 1 for SNMPv2c.
    #[inline]
    pub fn version(&self) -> i32
        ensures { result ≡ self.now.version }
    {
        self.version
    }

    /// Returns the community.
    #[inline]
    pub fn community(&self) -> &'a [u8]
        ensures { result.now ≡ self.now.community }
    {
        self.community
    }

    /// Returns the kind of the PDU.
    #[inline]
    pub fn kind(&self) -> Kind
        ensures { result ≡ self.now.kind }
    {
        self.kind
    }

    /// Returns the request-id.
    #[inline]
    pub fn id(&self) -> i32
        ensures { result ≡ self.now.id }
    {
        self.id
    }

    /// Returns the error-status, or the non-repeaters of a GetBulk request.
    #[inline]
    pub fn a(&self) -> i32
        ensures { result ≡ self.now.a }
    {
        self.a
    }

    /// Returns the error-index, or the max-repetitions of a GetBulk request.
    #[inline]
    pub fn b(&self) -> i32
        ensures { result ≡ self.now.b }
    {
        self.b
    }

    /// Returns the variable bindings, in order.
    #[inline]
    pub fn bindings(&self) -> Bindings<'a>
        ensures { result ≡ self.now.bindings }
    {
        Bindings::new(self.bindings)
    }
}

/// Decodes the message that a datagram encodes in BER (RFC 3417, section 8; X.690). If it encodes
/// none, the error says why.
///
/// Checks the whole datagram. A length must have at most four octets after its first. Besides the
/// standard's forms, accepts whole numbers that aren't minimal, and unsigned numbers without their
/// leading zero octet.
pub fn decode(datagram: &[u8]) -> Result<MessageRef<'_>, BerError>
    // The datagram encodes the message that is returned.
    ensures found { IfOk result (λ message. Spells message datagram.now) }
    // A message that the datagram encodes is returned.
    ensures only { (message : Message) → Spells message datagram.now → result ≡ Ok message }
    // An error is returned only if what it says is true of the datagram.
    ensures fault { IfErr result (λ e. IsFault e datagram.now) }
{
    message_of(datagram)
}

/// Returns the message that `octets` encode.
#[tactic(auto, unfolding(crate::specs::Decode::message_of))]
fn message_of<'a>(octets: &'a [u8]) -> Result<MessageRef<'a>, BerError>
    ensures { AgreesBy (λ message. message) result (reading.message_of octets.now) }
{
    let content = outermost_of(octets)?;
    let (version, rest) = integer_at(content)?;
    let (community, rest) = inner_at(OCTET_STRING, rest)?;
    let (tag, content, rest) = element_at(rest)?;
    let kind = kind_of(tag)?;
    if !rest.is_empty() {
        return Err(BerError::Content);
    }
    pdu_of(version, community, kind, content)
}

/// Returns the content of the outermost element. Fails unless that is a SEQUENCE and no octets
/// follow it.
#[tactic(auto, unfolding(crate::specs::Decode::outermost_of))]
#[inline]
fn outermost_of(octets: &[u8]) -> Result<&[u8], BerError>
    ensures { AgreesBy (λ content. content.now) result (reading.outermost_of octets.now) }
{
    match octets {
        [] => Err(BerError::Truncated),
        [tag, rest @ ..] => {
            if *tag != SEQUENCE {
                return Err(BerError::Tag);
            }
            let (content, rest) = content_at(rest, BerError::Truncated)?;
            if !rest.is_empty() {
                return Err(BerError::Trailing);
            }
            Ok(content)
        }
    }
}

/// Returns the message of this version, community and kind whose PDU has the content `content`.
#[tactic(auto, unfolding(crate::specs::Decode::pdu_of))]
// `inline(always)`: it has a single caller. Inlined, its result isn't moved.
#[inline(always)]
fn pdu_of<'a>(
    version: i32,
    community: &'a [u8],
    kind: Kind,
    content: &'a [u8],
) -> Result<MessageRef<'a>, BerError>
    ensures { AgreesBy (λ message. message) result
        (reading.pdu_of version community.now kind content.now) }
{
    let (id, rest) = integer_at(content)?;
    let (a, rest) = integer_at(rest)?;
    let (b, rest) = integer_at(rest)?;
    let (bindings, rest) = inner_at(SEQUENCE, rest)?;
    if !rest.is_empty() {
        return Err(BerError::Content);
    }
    check_bindings(bindings)?;
    Ok(MessageRef {
        version,
        community,
        kind,
        id,
        a,
        b,
        bindings,
    })
}

/// The parts of a message to encode.
#[derive(Clone, Copy, Debug)]
pub struct Parts<'a> {
    /// The version: 1 for SNMPv2c.
    pub version: i32,
    /// The community.
    pub community: &'a [u8],
    /// The kind of the PDU.
    pub kind: Kind,
    /// The request-id.
    pub id: i32,
    /// The error-status, or the non-repeaters of a GetBulk request.
    pub a: i32,
    /// The error-index, or the max-repetitions of a GetBulk request.
    pub b: i32,
    /// The variable bindings.
    pub bindings: &'a [Binding<'a>],
}

/// Returns the length, in octets, of the shortest encoding of a message.
///
/// The community must have at most 65535 octets. Each binding must meet what [`binding_size`]
/// requires, and together they must take at most 4,000,000,000 octets.
pub fn size(parts: &Parts<'_>) -> u64
    requires community { length parts.now.community.now ≤ 65535 }
    requires bindings { All (λ b. IsEncodable (var_bind b)) parts.now.bindings.now }
    requires total { length (canon_bindings (var_binds parts.now.bindings.now)) ≤ 4000000000 }
    ensures value { result ≡ length (canon (parts_message parts.now)) }
    // Every shortest encoding of the message has this length.
    ensures shortest { (octets : List ℕ)
        → IsShortestEncoding octets (parts_message parts.now) → result ≡ length octets }
{
    one_shortest_encoding();
    let total = bindings_size(parts.bindings);
    head_size(parts, total) + total
}

/// Writes the shortest encoding of a message to the start of `out`, and returns its length. It
/// requires what [`size`] requires.
///
/// Returns `None` if `out` is shorter than that; `out` is then unchanged.
pub fn encode(parts: &Parts<'_>, out: &mut [u8]) -> Option<usize>
    requires community { length parts.now.community.now ≤ 65535 }
    requires bindings { All (λ b. IsEncodable (var_bind b)) parts.now.bindings.now }
    requires total { length (canon_bindings (var_binds parts.now.bindings.now)) ≤ 4000000000 }
    // The octets of `out` after the message are unchanged.
    ensures some { IfSome result (λ n.
        (n ≡ length (canon (parts_message parts.now)))
        × (out.new ≡ canon (parts_message parts.now) ++ drop n out.old)) }
    // What is written is a shortest encoding of the message, which has only one.
    ensures shortest { IfSome result
        (λ n. IsShortestEncoding (take n out.new) (parts_message parts.now)) }
    // The octets that are written encode the message.
    ensures read { IfSome result (λ n. Spells (parts_message parts.now) (take n out.new)) }
    ensures variant { IsSome result ↔ (length (canon (parts_message parts.now)) ≤ length out.old) }
    ensures unchanged { IfNone result (out.new ≡ out.old) }
{
    one_shortest_encoding();
    let total = bindings_size(parts.bindings);
    let size = (head_size(parts, total) + total) as usize;
    if out.len() < size {
        return None;
    }
    let head = put_bindings(out, size, parts.bindings);
    put_head(out, head, parts, total);
    Some(size)
}

/// Returns the length, in octets, of the head of a message: what precedes the first binding in its
/// shortest encoding. The bindings take `total` octets together; `parts.bindings` isn't read.
///
/// The community must have at most 65535 octets, and `total` must be at most 4,000,000,000.
// `inline(always)`: called several times for one reply to a GetBulk, with different totals.
// Inlined, what these calls have in common is computed once.
#[inline(always)]
#[tactic(auto, using(crate::proofs::WrittenMessages::head_sizes))]
pub fn head_size(parts: &Parts<'_>, total: u64) -> u64
    requires community { length parts.now.community.now ≤ 65535 }
    requires total { total ≤ 4000000000 }
    ensures value { result ≡ length (canon_head (parts_message parts.now) total) }
    ensures at_most_70000 { result ≤ 70000 }
    // The message is in range if its bindings are, and take at most 4,000,000,000 octets together.
    ensures range { (bindings : List VarBind) → AllByRecursion IsBindingInRange bindings
        → length (canon_bindings bindings) ≤ 4000000000
        → IsMessageInRange (with_bindings parts.now bindings) }
{
    let version = integer_element_size(parts.version);
    let community = text_element_size(parts.community);
    let id = integer_element_size(parts.id);
    let a = integer_element_size(parts.a);
    let b = integer_element_size(parts.b);
    let list = header_size(total);
    let fields = id + a + b + list;
    let pdu = header_size(fields + total);
    let prefix = version + community + pdu + fields;
    let message = header_size(prefix + total);
    message + prefix
}

/// Writes the head of a message to the start of `out`, and returns its length. The head is what
/// precedes the first binding in the shortest encoding. The bindings take `total` octets together;
/// `parts.bindings` isn't read. It requires what [`head_size`] requires.
///
/// Returns `None` if `out` is shorter than that; `out` is then unchanged.
// `inline(always)`: called for the head of each request of a walk.
#[inline(always)]
pub fn encode_head(parts: &Parts<'_>, total: u64, out: &mut [u8]) -> Option<usize>
    requires community { length parts.now.community.now ≤ 65535 }
    requires total { total ≤ 4000000000 }
    // The octets of `out` after the head are unchanged.
    ensures some { IfSome result (λ n.
        (n ≡ length (canon_head (parts_message parts.now) total))
        × (out.new ≡ canon_head (parts_message parts.now) total ++ drop n out.old)) }
    // If `bindings` are in range and take `total` octets together, then the head and their
    // encodings after it are a shortest encoding of the message with these bindings.
    ensures shortest { (bindings : List VarBind)
        → AllByRecursion IsBindingInRange bindings
        → total ≡ length (canon_bindings bindings)
        → IfSome result (λ n. IsShortestEncoding (take n out.new ++ canon_bindings bindings)
        (with_bindings parts.now bindings)) }
    ensures variant { IsSome result
        ↔ (length (canon_head (parts_message parts.now) total) ≤ length out.old) }
    ensures unchanged { IfNone result (out.new ≡ out.old) }
{
    one_shortest_encoding();
    let size = head_size(parts, total) as usize;
    if out.len() < size {
        return None;
    }
    put_head(out, size, parts, total);
    Some(size)
}

/// Makes a message of encoded bindings that are already in `out`: they are the `len` octets from
/// `at` on. Writes the head of the message to the start of `out`, moves the bindings so that they
/// follow the head, and returns the length of the message. The octets of `out` after the message
/// are unspecified. The bindings of `parts` aren't read.
///
/// The community must have at most 65535 octets, `len` must be at most 4,000,000,000, and the
/// `len` octets must lie within `out`. Returns `None` if the message is longer than `out`, which
/// is then unchanged.
#[inline]
pub fn seal(parts: &Parts<'_>, at: usize, len: usize, out: &mut [u8]) -> Option<usize>
    requires community { length parts.now.community.now ≤ 65535 }
    requires total { len ≤ 4000000000 }
    requires within { at + len ≤ length out.old }
    ensures some { IfSome result (λ n.
        (n ≡ length (canon_head (parts_message parts.now) len) + len)
        × (take n out.new
        ≡ canon_head (parts_message parts.now) len ++ take len (drop at out.old))) }
    // If the `len` octets are the shortest encodings of bindings in range, then what is written is
    // a shortest encoding of the message with these bindings.
    ensures shortest { (bindings : List VarBind)
        → AllByRecursion IsBindingInRange bindings
        → take len (drop at out.old) ≡ canon_bindings bindings
        → IfSome result (λ n. IsShortestEncoding (take n out.new)
        (with_bindings parts.now bindings)) }
    ensures variant { IsSome result
        ↔ (length (canon_head (parts_message parts.now) len) + len ≤ length out.old) }
    ensures unchanged { IfNone result (out.new ≡ out.old) }
{
    one_shortest_encoding();
    let head = head_size(parts, len as u64) as usize;
    if out.len() - len < head {
        return None;
    }
    out.copy_within(at..at + len, head);
    put_head(out, head, parts, len as u64);
    Some(head + len)
}

/// Returns the number of octets that the shortest encodings of `bindings` take together.
#[inline(never)]
#[tactic(auto, using(crate::proofs::WrittenBindings::binding_sizes))]
fn bindings_size(bindings: &[Binding<'_>]) -> u64
    requires bindings { All (λ b. IsEncodable (var_bind b)) bindings.now }
    requires total { length (canon_bindings (var_binds bindings.now)) ≤ 4000000000 }
    ensures value { result ≡ length (canon_bindings (var_binds bindings.now)) }
    ensures range { AllByRecursion IsBindingInRange (var_binds bindings.now) }
{
    let mut total = 0;
    'bindings: for binding in bindings {
        total += binding_size(binding);
    }
    total
}

/// Returns the length, in octets, of an INTEGER with its header.
#[inline]
#[tactic(auto, using(std::proofs::lemmas::Grind::common_steps, crate::proofs::ElementLaws::sizes_value, crate::proofs::ElementLaws::content_number))]
fn integer_element_size(number: i32) -> u64
    ensures value { result ≡ length (canon_value (integer_value number)) }
    ensures at_most_15 { result ≤ 15 }
{
    let content = integer_size(number) as u64;
    header_size(content) + content
}

/// Returns the length, in octets, of an OCTET STRING with its header.
#[inline]
#[tactic(auto, using(crate::proofs::ElementLaws::sizes_value, crate::proofs::ElementLaws::content_text))]
fn text_element_size(text: &[u8]) -> u64
    requires { length text.now ≤ 65535 }
    ensures value { result ≡ length (canon_value (octet_string text.now)) }
    ensures at_most_65541 { result ≤ 65541 }
    ensures octets { AreOctets text.now }
{
    header_size(text.len() as u64) + text.len() as u64
}

/// Writes bindings before `end`, and returns their offset.
#[inline(never)]
fn put_bindings(out: &mut [u8], end: usize, bindings: &[Binding<'_>]) -> usize
    requires bindings { All (λ b. IsEncodable (var_bind b)) bindings.now }
    requires room { length (canon_bindings (var_binds bindings.now)) ≤ end }
    requires within { end ≤ length out.old }
    ensures { Writes out.old result end (canon_bindings (var_binds bindings.now)) out.new }
{
    let mut start = end;
    'bindings: for i in (0..bindings.len()).rev() {
        start = put_binding(out, start, &bindings[i]);
    }
    start
}

/// Writes the head of a message before `end`, and returns its offset. The bindings of the message
/// take `total` octets together.
fn put_head(out: &mut [u8], end: usize, parts: &Parts<'_>, total: u64) -> usize
    requires community { length parts.now.community.now ≤ 65535 }
    requires total { total ≤ 4000000000 }
    requires room { length (canon_head (parts_message parts.now) total) ≤ end }
    requires within { end ≤ length out.old }
    ensures { Writes out.old result end (canon_head (parts_message parts.now) total) out.new }
{
    let list = put_header(out, end, SEQUENCE, total);
    let b = put_integer_element(out, list, parts.b);
    let a = put_integer_element(out, b, parts.a);
    let id = put_integer_element(out, a, parts.id);
    let pdu = put_header(out, id, tag_of_kind(parts.kind), (end - id) as u64 + total);
    let community = put_text_element(out, pdu, parts.community);
    let version = put_integer_element(out, community, parts.version);
    put_header(out, version, SEQUENCE, (end - version) as u64 + total)
}

/// Writes an INTEGER before `end`, and returns its offset.
// `inline(always)`: called for four numbers of each message. Most of them take one octet.
#[inline(always)]
fn put_integer_element(out: &mut [u8], end: usize, number: i32) -> usize
    requires room { length (canon_value (integer_value number)) ≤ end }
    requires within { end ≤ length out.old }
    ensures { Writes out.old result end (canon_value (integer_value number)) out.new }
{
    if 0 <= number && number < 128 {
        let start = put_octet(out, end, number as u8);
        return put_short_header(out, start, INTEGER, (end - start) as u64);
    }
    put_any_integer_element(out, end, number)
}

/// Does what [`put_integer_element`] does, for a number of any length.
#[inline(never)]
fn put_any_integer_element(out: &mut [u8], end: usize, number: i32) -> usize
    requires room { length (canon_value (integer_value number)) ≤ end }
    requires within { end ≤ length out.old }
    ensures { Writes out.old result end (canon_value (integer_value number)) out.new }
{
    let start = put_integer(out, end, number);
    put_header(out, start, INTEGER, (end - start) as u64)
}

/// Writes an OCTET STRING before `end`, and returns its offset.
#[inline]
fn put_text_element(out: &mut [u8], end: usize, text: &[u8]) -> usize
    requires room { length (canon_value (octet_string text.now)) ≤ end }
    requires within { end ≤ length out.old }
    ensures { Writes out.old result end (canon_value (octet_string text.now)) out.new }
{
    let start = put_text(out, end, text);
    put_header(out, start, OCTET_STRING, (end - start) as u64)
}
