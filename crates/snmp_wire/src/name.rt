//! Encoded names: compared, and tested against a root, without being decoded.
ghost use Rattle.std.specs.Prelude.{◌≡◌, ℕ, ◌+◌, ◌<◌, ◌≤◌, ◌↔◌, List, length, get_or, IsOk, IsSome};
ghost use Rattle.std.specs.Prelude.{IsTrue, IfSome, Ok, true};
ghost use Rattle.std.specs.{Ordering.nat_cmp, Int.w64, Int.from_le_bytes};
ghost use Rattle.std.specs.Cmp.Lexicographic.{slice_cmp};
ghost use Rattle.snmp_oid.specs.Identifier.{IsBelow, IsIdentifier, IsWire};
ghost use Rattle.snmp_wire.specs.Name.{EncodedNames, EndsAt, IsAlike};
ghost use Rattle.snmp_wire.specs.ber.Canon.{canon_content, eight_from};
ghost use Rattle.snmp_wire.specs.ber.Identifier.{IsObjectId};
ghost use Rattle.snmp_wire.specs.{ber.Number.AreOctets, ber.Value.object_id};
ghost use Rattle.snmp_wire.specs.ber.Decode as reading;

use crate::ber::{check_identifier, push_identifier, put_identifier};
use snmp_oid::{Oid, order};
use std::cmp::Ordering;
use std::marker::Model;

/// An upper bound on the number of octets in the content of an identifier: five for each of at
/// most 128 numbers.
pub const MAX_CONTENT: usize = 640;

/// The name of an instance as it is encoded: the content octets of an identifier (X.690, 8.19).
///
/// An identifier has at most one content, and a content encodes at most one identifier
/// ([`encoded_names`]). So names are compared as they are in a datagram, without decoding their
/// numbers.
#[derive(Debug, Drop)]
pub struct EncodedName<'a> {
    content: &'a [u8],
}

impl<'a> Model for EncodedName<'a> {
    ghost use Rattle.std.specs.Prelude.{List, ℕ};
    ghost use Rattle.snmp_wire.specs.Name.{IsContentOctets, identifier_in};

    ghost Value = { List ℕ };

    ghost view = { λ name. identifier_in name.content.now };

    ghost invariant = { λ name. IsContentOctets name.content.now };
}

impl<'a> EncodedName<'a> {
    /// Returns the name that `content` encodes, or `None` if it encodes none.
    #[inline]
    pub fn read(content: &'a [u8]) -> Option<EncodedName<'a>>
        ensures some { IfSome result (λ name. IsObjectId content.now name) }
        ensures variant { IsSome result ↔ ((name : List ℕ) × IsObjectId content.now name) }
    {
        match check_identifier(content) {
            Ok(()) => Some(EncodedName::of(content)),
            Err(_) => None,
        }
    }

    /// Returns the name with this content, which must have been checked.
    #[inline]
    pub(crate) fn of(content: &'a [u8]) -> EncodedName<'a>
        requires { IsOk (reading.identifier_of content.now) }
        ensures { reading.identifier_of content.now ≡ Ok result }
    {
        EncodedName { content }
    }

    /// Writes the content of `name` to the end of `out`, and returns the name that is stored
    /// there. The identifier must have an encoding ([`Oid::is_wire`]).
    #[inline]
    pub fn write(name: &Oid, out: &'a mut [u8; MAX_CONTENT]) -> EncodedName<'a>
        requires { IsWire name.now }
        ensures { result ≡ name.now }
    {
        // By its contract, this call returns at most 128 numbers, so the content fits.
        let _numbers = name.as_slice();
        let start = put_identifier(out, MAX_CONTENT, name);
        let written: &'a [u8] = out;
        EncodedName::of(&written[start..])
    }

    /// Returns the content octets: at most 640, and the only content of the name.
    #[inline]
    #[tactic(auto, using(crate::proofs::NameOrder::is_name, crate::proofs::NameOrder::canonical, crate::proofs::Digits::octets_by, crate::proofs::NameOrder::content_short))]
    pub fn content(&self) -> &'a [u8]
        ensures value { result.now ≡ canon_content (object_id self.now) }
        ensures encodes { IsObjectId result.now self.now }
        ensures octets { AreOctets result.now }
        ensures at_most_640 { length result.now ≤ 640 }
    {
        self.content
    }

    /// Returns a second handle to the name.
    #[inline]
    pub fn copy(&self) -> EncodedName<'a>
        ensures { result ≡ self.now }
    {
        EncodedName {
            content: self.content,
        }
    }

    /// Sets `oid` to the name, in place.
    #[inline]
    pub fn read_into(&self, oid: &mut Oid)
        ensures { oid.new ≡ self.now }
    {
        oid.clear();
        push_identifier(oid, self.content);
    }

    /// Compares two names as identifiers ([`order`]). If one content is a prefix of the other, the
    /// lengths decide. Otherwise the first octets that differ decide, with the lengths of their
    /// subidentifiers. Contents of eight or more octets are compared eight octets at a time.
    // `inline(always)`: called for each comparison of a search, mostly of names of 8 to 24 octets.
    #[inline(always)]
    pub fn compare(&self, other: &EncodedName<'_>) -> Ordering
        ensures { result ≡ slice_cmp nat_cmp self.now other.now }
    {
        match compare_ends(self.content, other.content) {
            Some(ordering) => ordering,
            None => compare_contents(self.content, other.content),
        }
    }

    /// Returns whether the name begins with `root` and is longer.
    #[inline]
    pub fn is_below(&self, root: &EncodedName<'_>) -> bool
        ensures { IsTrue result ↔ IsBelow self.now root.now }
    {
        is_content_below(self.content, root.content)
    }
}

/// Compares the names of two contents, or returns `None` if a slower comparison is needed: if the
/// shorter content doesn't have 8 to 24 octets; or if both subidentifiers continue after the first
/// octets that differ, and don't both end with the next octet.
#[inline(always)]
fn compare_ends(content: &[u8], other: &[u8]) -> Option<Ordering>
    requires this { IsOk (reading.identifier_of content.now) }
    requires other { IsOk (reading.identifier_of other.now) }
    ensures { (o p : List ℕ) → reading.identifier_of content.now ≡ Ok o
        → reading.identifier_of other.now ≡ Ok p
        → IfSome result (λ ordering. ordering ≡ slice_cmp nat_cmp o p) }
{
    order();
    let both = content.len().min(other.len());
    if both < 8 || both > 24 {
        return None;
    }
    let at = words_alike(content, other, both);
    if at == both {
        return Some(content.len().cmp(&other.len()));
    }
    let octet = content[at];
    let beside = other[at];
    if octet >= 0x80 && beside >= 0x80 && !both_end(content, other, at + 1) {
        return None;
    }
    Some(octet.cmp(&beside))
}

/// Returns the length of the common prefix of the two slices, but at most `both`, which must be 8
/// to 24. Compares words of eight octets; the last word may overlap the one before.
// `inline(always)`: called for most comparisons of names.
#[inline(always)]
fn words_alike(octets: &[u8], others: &[u8], both: usize) -> usize
    requires these { both ≤ length octets.now }
    requires others { both ≤ length others.now }
    requires at_least_8 { 8 ≤ both }
    requires at_most_24 { both ≤ 24 }
    ensures same { IsAlike octets.now others.now result }
    ensures within { result ≤ both }
    ensures first { result < both
        → get_or octets.now result 0 ≡ get_or others.now result 0 → ⊥ }
{
    let first = eight_alike(octets, others, 0);
    if first < 8 {
        return first;
    }
    if both <= 16 {
        let last = eight_alike(octets, others, both - 8);
        return both - 8 + last;
    }
    let second = eight_alike(octets, others, 8);
    if second < 8 {
        return 8 + second;
    }
    let third = eight_alike(octets, others, both - 8);
    both - 8 + third
}

/// Returns whether both contents have an octet at `at`, and it is the last of a subidentifier in
/// each.
#[inline(always)]
fn both_end(content: &[u8], other: &[u8], at: usize) -> bool
    ensures { IsTrue result → EndsAt content.now at at × EndsAt other.now at at }
{
    at < content.len() && at < other.len() && content[at] < 0x80 && other[at] < 0x80
}

/// Compares the names of two contents of any length.
#[cold]
#[inline(never)]
fn compare_contents(content: &[u8], other: &[u8]) -> Ordering
    requires this { IsOk (reading.identifier_of content.now) }
    requires other { IsOk (reading.identifier_of other.now) }
    ensures { (o p : List ℕ) → reading.identifier_of content.now ≡ Ok o
        → reading.identifier_of other.now ≡ Ok p → result ≡ slice_cmp nat_cmp o p }
{
    order();
    let at = alike(content, other);
    if at == content.len() || at == other.len() {
        return content.len().cmp(&other.len());
    }
    let octet = content[at];
    let beside = other[at];
    if octet >= 0x80 && beside >= 0x80 {
        // Both subidentifiers continue: the longer one is greater.
        let end = last_octet(content, at);
        let other_end = last_octet(other, at);
        if end != other_end {
            return end.cmp(&other_end);
        }
    }
    octet.cmp(&beside)
}

/// Returns whether the name with the content `content` is below the one with the content `root`.
fn is_content_below(content: &[u8], root: &[u8]) -> bool
    requires this { IsOk (reading.identifier_of content.now) }
    requires root { IsOk (reading.identifier_of root.now) }
    ensures { (o p : List ℕ) → reading.identifier_of content.now ≡ Ok o
        → reading.identifier_of root.now ≡ Ok p → IsTrue result ↔ IsBelow o p }
{
    content.len() > root.len() && alike(content, root) == root.len()
}

/// Returns the index of the last octet of the subidentifier that contains the octet at `at`.
#[tactic(auto, using(std::proofs::lemmas::Grind::common_steps, crate::proofs::NameOrder::more_octets))]
fn last_octet(content: &[u8], at: usize) -> usize
    requires identifier { IsOk (reading.identifier_of content.now) }
    requires within { at < length content.now }
    ensures { EndsAt content.now at result }
{
    let mut end = at;
    'octets: while content[end] >= 0x80 {
        end += 1;
    }
    end
}

/// Returns the length of the common prefix of the two slices.
#[inline]
fn alike(octets: &[u8], others: &[u8]) -> usize
    ensures same { IsAlike octets.now others.now result }
    ensures first { result < length octets.now → result < length others.now
        → get_or octets.now result 0 ≡ get_or others.now result 0 → ⊥ }
{
    let both = octets.len().min(others.len());
    if both < 8 {
        return few_alike(octets, others);
    }
    let mut count = 0;
    'eights: while both - count >= 8 {
        let more = eight_alike(octets, others, count);
        if more < 8 {
            return count + more;
        }
        count += 8;
    }
    // The last eight octets overlap octets that are known to be the same.
    both - 8 + eight_alike(octets, others, both - 8)
}

/// Does what [`alike`] does, octet by octet.
fn few_alike(octets: &[u8], others: &[u8]) -> usize
    ensures same { IsAlike octets.now others.now result }
    ensures first { result < length octets.now → result < length others.now
        → get_or octets.now result 0 ≡ get_or others.now result 0 → ⊥ }
{
    let both = octets.len().min(others.len());
    let mut count = 0;
    'octets: while count < both && octets[count] == others[count] {
        count += 1;
    }
    count
}

/// Returns how many of the eight octets from `at` on are the same before the first that differs,
/// or 8 if none does. The lowest bit that differs between the two words is in the first octet that
/// differs.
// `inline(always)`: called for most comparisons of names.
#[inline(always)]
fn eight_alike(octets: &[u8], others: &[u8], at: usize) -> usize
    requires these { at + 8 ≤ length octets.now }
    requires others { at + 8 ≤ length others.now }
    ensures at_most_8 { result ≤ 8 }
    ensures same { (k : ℕ) → k < result
        → get_or octets.now (at + k) 0 ≡ get_or others.now (at + k) 0 }
    ensures first { result < 8
        → get_or octets.now (at + result) 0 ≡ get_or others.now (at + result) 0 → ⊥ }
{
    let differ = word_at(octets, at) ^ word_at(others, at);
    differ.trailing_zeros() as usize / 8
}

/// Returns the eight octets from `at` on as one word.
// `inline(always)`: inlined, it is one load for eight octets of a name.
#[inline(always)]
fn word_at(octets: &[u8], at: usize) -> u64
    requires { at + 8 ≤ length octets.now }
    ensures { result ≡ from_le_bytes w64 (eight_from octets.now at) }
{
    u64::from_le_bytes([
        octets[at],
        octets[at + 1],
        octets[at + 2],
        octets[at + 3],
        octets[at + 4],
        octets[at + 5],
        octets[at + 6],
        octets[at + 7],
    ])
}

/// An identifier has at most one content, and a content encodes at most one identifier. A name is
/// below a root if and only if its content begins with the root's and is longer. Names are ordered
/// by their subidentifiers, and subidentifiers by their lengths and then their octets.
///
/// A law: the call does nothing; its caller's proof may use its clause.
#[inline]
#[tactic(auto, using(crate::proofs::NameOrder::encoded))]
pub fn encoded_names()
    ensures { EncodedNames }
{
    order();
}
