//! Lengths and elements (X.690, section 8.1): a tag, the length of the content, and the content.
ghost use Rattle.std.specs.Prelude.{◌≡◌, List, ℕ, ◌+◌, ◌^◌, ◌<◌, ◌≤◌, ◌++◌, length};
ghost use Rattle.snmp_wire.specs.ber.Decode as reading;
ghost use Rattle.snmp_wire.specs.{ber.Decode.AgreesBy, ber.Writing.Writes};
ghost use Rattle.snmp_wire.specs.ber.Canon.{canon_header, canon_length, length_size, octets};

use crate::ber::BerError;
use crate::ber::number::{put_octets, unsigned};
use crate::ber::writing::put_octet;

/// Returns the length that is encoded at the start of `octets`, and the octets after it. Fails
/// with [`BerError::Length`] if the form of the length isn't accepted, otherwise with `cut` if the
/// octets end before the length does.
#[tactic(auto, unfolding(crate::specs::ber::Decode::length_at))]
// `inline(always)`: called for many elements of a message. Inlined, its result stays in registers.
#[inline(always)]
fn length_at(octets: &[u8], cut: BerError) -> Result<(usize, &[u8]), BerError>
    ensures { AgreesBy (λ x. (x.0, x.1.now)) result (reading.length_at cut octets.now) }
{
    match octets {
        [] => Err(cut),
        [first, rest @ ..] => {
            if *first < 0x80 {
                Ok((usize::from(*first), rest))
            } else {
                long_length_at(*first, rest, cut)
            }
        }
    }
}

/// Returns the length in the long form whose first octet is `first`, and the octets after it.
/// `octets` follow the first octet, which says how many of them belong to the length.
#[tactic(auto, unfolding(crate::specs::ber::Decode::long_length_at))]
#[cold]
fn long_length_at(first: u8, octets: &[u8], cut: BerError) -> Result<(usize, &[u8]), BerError>
    ensures { AgreesBy (λ x. (x.0, x.1.now)) result (reading.long_length_at cut first octets.now) }
{
    if !(0x80 < first && first < 0x85) {
        return Err(BerError::Length);
    }
    let width = usize::from(first - 0x80);
    if octets.len() < width {
        return Err(cut);
    }
    let (digits, rest) = octets.split_at(width);
    Ok((unsigned(digits) as usize, rest))
}

/// Returns the content of an element and the octets after it; `octets` follow the element's tag.
/// Fails as [`length_at`] does, and with `cut` if the octets end before the content does.
#[tactic(auto, unfolding(crate::specs::ber::Decode::content_at))]
// `inline(always)`: called for many elements of a message. Inlined, its result stays in registers.
#[inline(always)]
pub fn content_at(octets: &[u8], cut: BerError) -> Result<(&[u8], &[u8]), BerError>
    ensures { AgreesBy (λ x. (x.0.now, x.1.now)) result (reading.content_at cut octets.now) }
{
    let (length, rest) = length_at(octets, cut)?;
    if rest.len() < length {
        return Err(cut);
    }
    Ok(rest.split_at(length))
}

/// Returns the content of the inner element at the start of `octets`, and the octets after it.
/// Fails unless `octets` begin with an element with this tag.
#[tactic(auto, unfolding(crate::specs::ber::Decode::inner_at))]
// `inline(always)`: called for many elements of a message. Inlined, its tag is a constant.
#[inline(always)]
pub fn inner_at(tag: u8, octets: &[u8]) -> Result<(&[u8], &[u8]), BerError>
    ensures { AgreesBy (λ x. (x.0.now, x.1.now)) result (reading.inner_at tag octets.now) }
{
    match octets {
        [] => Err(BerError::Length),
        [found, rest @ ..] => {
            if *found == tag {
                content_at(rest, BerError::Length)
            } else {
                Err(BerError::Tag)
            }
        }
    }
}

/// Returns the tag and the content of the inner element at the start of `octets`, and the octets
/// after it. Fails unless `octets` begin with an element.
#[tactic(auto, unfolding(crate::specs::ber::Decode::element_at))]
// `inline(always)`: called for many elements of a message. Inlined, its result stays in registers.
#[inline(always)]
pub fn element_at(octets: &[u8]) -> Result<(u8, &[u8], &[u8]), BerError>
    ensures { AgreesBy (λ x. (x.0, x.1.now, x.2.now)) result (reading.element_at octets.now) }
{
    match octets {
        [] => Err(BerError::Length),
        [tag, rest @ ..] => {
            let (content, rest) = content_at(rest, BerError::Length)?;
            Ok((*tag, content, rest))
        }
    }
}

/// Returns the number of octets, 1 to 4, that the long form of a length of at most 32 bits takes
/// after the first.
#[inline]
#[tactic(auto, unfolding(crate::specs::ber::Canon::length_size))]
fn digits_size(size: u64) -> usize
    ensures value { result ≡ length_size size }
    ensures at_most_4 { result ≤ 4 }
{
    if size < 1 << 8 {
        1
    } else if size < 1 << 16 {
        2
    } else if size < 1 << 24 {
        3
    } else {
        4
    }
}

/// Returns the length, in octets, of the header before a content of `size` octets, fewer than 2^32.
#[inline]
#[tactic(auto, using(crate::proofs::NumberSizes::header_lengths))]
pub fn header_size(size: u64) -> u64
    ensures value { result ≡ 1 + length (canon_length size) }
    ensures at_most_6 { result ≤ 6 }
{
    if size < 128 {
        2
    } else {
        2 + digits_size(size) as u64
    }
}

/// Writes the header for a content of `size` octets, fewer than 2^32, before `end`, and returns its
/// offset.
#[inline]
pub fn put_header(out: &mut [u8], end: usize, tag: u8, size: u64) -> usize
    requires room { length (canon_header tag size) ≤ end }
    requires within { end ≤ length out.old }
    ensures { Writes out.old result end (canon_header tag size) out.new }
{
    let start = put_length(out, end, size);
    put_octet(out, start, tag)
}

/// Writes the header for a content of `size` octets, fewer than 128, before `end`, and returns its
/// offset. The header has two octets.
#[inline]
pub fn put_short_header(out: &mut [u8], end: usize, tag: u8, size: u64) -> usize
    requires below_128 { size < 128 }
    requires room { length (canon_header tag size) ≤ end }
    requires within { end ≤ length out.old }
    ensures { Writes out.old result end (canon_header tag size) out.new }
{
    let start = put_octet(out, end, size as u8);
    put_octet(out, start, tag)
}

/// Writes the shortest form of a length below 2^32 before `end`, and returns its offset.
#[inline]
#[tactic(auto, using(crate::proofs::NumberSizes::length_forms))]
fn put_length(out: &mut [u8], end: usize, size: u64) -> usize
    requires room { length (canon_length size) ≤ end }
    requires within { end ≤ length out.old }
    ensures { Writes out.old result end (canon_length size) out.new }
{
    if size < 128 {
        put_octet(out, end, size as u8)
    } else {
        let count = digits_size(size);
        let start = put_octets(out, end, count, size);
        put_octet(out, start, 128 + count as u8)
    }
}
