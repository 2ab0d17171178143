//! Whole numbers (X.690, section 8.3).
ghost use Rattle.std.specs.Prelude.{◌≡◌, ℕ, ◌^◌, ◌<◌, ◌≤◌, length, IsTrue, Ok, ◌+◌, pos};
ghost use Rattle.snmp_wire.specs.ber.Number as number;
ghost use Rattle.snmp_wire.specs.ber.Decode as reading;
ghost use Rattle.snmp_wire.specs.{ber.Decode.AgreesBy, ber.Writing.Writes};
ghost use Rattle.snmp_wire.specs.ber.Canon.{canon_number, magnitude_of, number_size, octets};

use crate::ber::length::inner_at;
use crate::ber::writing::{put_octet, put_text};
use crate::ber::{BerError, tag};

/// Returns the unsigned number that `octets`, at most eight, encode, with the most significant
/// octet first.
#[inline]
pub(crate) fn unsigned(octets: &[u8]) -> u64
    requires { length octets.now ≤ 8 }
    ensures value { result ≡ number.unsigned octets.now }
    ensures bound { result < 256 ^ length octets.now }
{
    let mut sum = 0;
    'octets: for octet in octets {
        sum = sum * 256 + u64::from(*octet);
    }
    sum
}

/// Returns the INTEGER whose two's complement is `content`. Fails if `content` doesn't have one to
/// four octets.
#[tactic(auto, unfolding(crate::specs::ber::Decode::integer_of))]
// `inline(always)`: called for each INTEGER that is read as the value of a binding.
#[inline(always)]
pub(crate) fn integer_of(content: &[u8]) -> Result<i32, BerError>
    ensures { AgreesBy (λ z. z) result (reading.integer_of content.now) }
{
    // Octets that repeat the sign of `a` extend the content to four octets.
    match content {
        [a] => {
            let s = sign_of(*a);
            Ok(i32::from_be_bytes([s, s, s, *a]))
        }
        [a, b] => {
            let s = sign_of(*a);
            Ok(i32::from_be_bytes([s, s, *a, *b]))
        }
        [a, b, c] => Ok(i32::from_be_bytes([sign_of(*a), *a, *b, *c])),
        [a, b, c, d] => Ok(i32::from_be_bytes([*a, *b, *c, *d])),
        _ => Err(BerError::Content),
    }
}

/// Returns the octet that can be added before a number in two's complement that begins with `octet`
/// without changing the number.
#[inline]
fn sign_of(octet: u8) -> u8
    ensures { result ≡ reading.sign_of octet }
{
    if octet < 0x80 { 0 } else { 0xFF }
}

/// Returns the INTEGER at the start of `octets`, and the octets after it.
#[tactic(auto, unfolding(crate::specs::ber::Decode::integer_at, crate::specs::ber::Decode::inner_at, crate::specs::ber::Decode::content_at, crate::specs::ber::Decode::length_at, crate::specs::ber::Decode::integer_of))]
// `inline(always)`: called for four numbers of each message. Inlined, it takes a few tests for a
// number from 0 to 127 in one octet.
#[inline(always)]
pub fn integer_at(octets: &[u8]) -> Result<(i32, &[u8]), BerError>
    ensures { AgreesBy (λ x. (x.0, x.1.now)) result (reading.integer_at octets.now) }
{
    match octets {
        // Most have one octet: the version, the error-status and the error-index, for example.
        [tag::INTEGER, 1, octet, rest @ ..] if *octet < 0x80 => Ok((i32::from(*octet), rest)),
        _ => any_integer_at(octets),
    }
}

/// Does what [`integer_at`] does, for a number of any length.
#[tactic(auto, unfolding(crate::specs::ber::Decode::integer_at))]
#[inline(never)]
fn any_integer_at(octets: &[u8]) -> Result<(i32, &[u8]), BerError>
    ensures { AgreesBy (λ x. (x.0, x.1.now)) result (reading.integer_at octets.now) }
{
    let (content, rest) = inner_at(tag::INTEGER, octets)?;
    Ok((integer_of(content)?, rest))
}

/// Returns whether the content of an unsigned number has 1 to `width` octets, or `width + 1`
/// octets that begin with a zero.
#[inline]
pub(crate) fn has_width(width: usize, content: &[u8]) -> bool
    requires { width ≤ 8 }
    ensures { result ≡ reading.has_width width content.now }
{
    match content {
        [] => false,
        [first, ..] => content.len() <= width || (content.len() == width + 1 && *first == 0),
    }
}

/// Returns the unsigned number of 32 bits that `content` encodes.
// `inline(always)`: called for each unsigned value of 32 bits that is read.
#[inline(always)]
pub(crate) fn unsigned32(content: &[u8]) -> u32
    requires { IsTrue (reading.has_width 4 content.now) }
    ensures { result ≡ number.unsigned content.now }
{
    match without_zero(4, content) {
        [a, b, c, d] => u32::from_be_bytes([*a, *b, *c, *d]),
        short => unsigned(short) as u32,
    }
}

/// Returns the unsigned number of 64 bits that `content` encodes.
#[inline]
pub(crate) fn unsigned64(content: &[u8]) -> u64
    requires { IsTrue (reading.has_width 8 content.now) }
    ensures { result ≡ number.unsigned content.now }
{
    unsigned(without_zero(8, content))
}

/// Returns `content`, without its leading zero octet if it has more than `width` octets.
#[inline]
fn without_zero(width: usize, content: &[u8]) -> &[u8]
    requires { IsTrue (reading.has_width width content.now) }
    ensures within_width { length result.now ≤ width }
    ensures same { number.unsigned result.now ≡ number.unsigned content.now }
{
    if content.len() > width {
        &content[1..]
    } else {
        content
    }
}

/// Returns the number of octets that the content of an unsigned number takes.
#[inline]
pub(crate) fn unsigned_size(number: u64) -> usize
    ensures value { result ≡ number_size number }
    ensures at_most_9 { result ≤ 9 }
{
    if number < 128 {
        1
    } else {
        // The number has `ilog2 + 1` bits, and a zero bit for the sign precedes them.
        (number.ilog2() as usize + 9) / 8
    }
}

/// Returns the number of octets that the content of an unsigned number of 32 bits takes.
#[inline]
#[tactic(auto, using(crate::proofs::NumberSizes::size_four, crate::proofs::NumberSizes::size_five))]
pub(crate) fn unsigned32_size(number: u32) -> usize
    ensures value { result ≡ number_size number }
    ensures at_most_9 { result ≤ 9 }
{
    if number < 1 << 23 {
        unsigned_size(u64::from(number))
    } else if number < 1 << 31 {
        4
    } else {
        5
    }
}

/// Returns the number of octets that the content of an INTEGER takes.
#[inline]
#[tactic(auto, using(crate::proofs::NumberSizes::number_lengths))]
pub fn integer_size(number: i32) -> usize
    ensures value { result ≡ length (canon_number number) }
    ensures at_most_9 { result ≤ 9 }
{
    unsigned_size(magnitude(number))
}

/// Returns the number, or its complement if it is below zero. Both take the same number of octets.
#[inline]
fn magnitude(number: i32) -> u64
    ensures { result ≡ magnitude_of number }
{
    if number < 0 {
        (-1 - number) as u64
    } else {
        number as u64
    }
}

/// Writes the content of an unsigned number before `end`, and returns its offset.
#[inline]
#[tactic(auto, using(crate::proofs::WritingLaws::writes_same, crate::proofs::NumberSizes::octets_from_zero))]
pub(crate) fn put_unsigned(out: &mut [u8], end: usize, number: u64) -> usize
    requires room { number_size number ≤ end }
    requires within { end ≤ length out.old }
    ensures { Writes out.old result end (canon_number (pos number)) out.new }
{
    put_octets(out, end, unsigned_size(number), number)
}

/// Writes the four octets of a number before `end`, and returns their offset.
#[inline]
#[tactic(auto, using(crate::proofs::WritingLaws::writes_same, crate::proofs::NumberSizes::four_octets))]
pub(crate) fn put_four(out: &mut [u8], end: usize, number: u32) -> usize
    requires room { 4 ≤ end }
    requires within { end ≤ length out.old }
    ensures { Writes out.old result end (octets 4 number) out.new }
{
    put_text(out, end, &number.to_be_bytes())
}

/// Writes the content of an INTEGER before `end`, and returns its offset.
#[inline]
pub fn put_integer(out: &mut [u8], end: usize, number: i32) -> usize
    requires room { length (canon_number number) ≤ end }
    requires within { end ≤ length out.old }
    ensures { Writes out.old result end (canon_number number) out.new }
{
    put_octets(out, end, integer_size(number), sign_extended(number))
}

/// Returns `number` in two's complement of 64 bits. Its lowest octets are the content of the
/// INTEGER.
#[inline]
#[tactic(auto, using(std::proofs::lemmas::Grind::common_steps, crate::proofs::NumberSizes::extended_below, crate::proofs::NumberSizes::extended_above))]
fn sign_extended(number: i32) -> u64
    ensures { octets (length (canon_number number)) result ≡ canon_number number }
{
    let magnitude = magnitude(number);
    if number < 0 {
        u64::MAX - magnitude
    } else {
        magnitude
    }
}

/// Writes the lowest `count` octets of a number before `end`, and returns their offset.
#[inline]
pub(crate) fn put_octets(out: &mut [u8], end: usize, count: usize, number: u64) -> usize
    requires room { count ≤ end }
    requires within { end ≤ length out.old }
    ensures { Writes out.old result end (octets count number) out.new }
{
    match count {
        // Most numbers take one or two octets, and need no loop.
        1 => put_octet(out, end, (number % 256) as u8),
        2 => {
            let last = put_octet(out, end, (number % 256) as u8);
            put_octet(out, last, (number / 256 % 256) as u8)
        }
        _ => put_many_octets(out, end, count, number),
    }
}

/// Does what [`put_octets`] does, for any `count`.
fn put_many_octets(out: &mut [u8], end: usize, count: usize, number: u64) -> usize
    requires room { count ≤ end }
    requires within { end ≤ length out.old }
    ensures { Writes out.old result end (octets count number) out.new }
{
    let start = end - count;
    let mut rest = number;
    'octets: for at in (start..end).rev() {
        out[at] = (rest % 256) as u8;
        rest /= 256;
    }
    start
}
