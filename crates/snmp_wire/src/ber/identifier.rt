//! The content of an OBJECT IDENTIFIER (X.690, section 8.19).
ghost use Rattle.std.specs.Prelude.{◌≡◌, true, ℕ, ◌+◌, ◌-◌, ◌<◌, ◌≤◌, ◌↔◌, List, [], ◌∷◌, ◌++◌};
ghost use Rattle.std.specs.Prelude.{length, drop, IsOk, IsTrue, IfOk, IfErr, IfSome, Ok, Err, ◌*◌};
ghost use Rattle.std.specs.Prelude.{◌^◌, ◌%◌};
ghost use Rattle.snmp_wire.specs.ber.Decode as reading;
ghost use Rattle.snmp_wire.specs.ber.Decode.{AgreesBy, checked};
ghost use Rattle.std.specs.List.{flat_map};
ghost use Rattle.snmp_oid.specs.Identifier.{IsIdentifier, IsWire};
ghost use Rattle.snmp_wire.specs.ber.Canon.{AreShort, canon_content, canon_subidentifier};
ghost use Rattle.snmp_wire.specs.ber.Canon.{eight_from, septets, subidentifier_size};
ghost use Rattle.snmp_wire.specs.{ber.Value.object_id, ber.Writing.Writes};

use crate::ber::BerError;
use crate::ber::writing::{put_octet, put_text};
use snmp_oid::Oid;

/// The largest subidentifier: the numbers 2 and 4294967295 together make 80 + 4294967295.
const LARGEST_SUBIDENTIFIER: u64 = 4294967375;

/// The greatest number of numbers after the first two of an identifier.
const MORE_NUMBERS: usize = 126;

/// Returns the subidentifier at the start of `octets`, and the octets after it.
#[tactic(auto, unfolding(crate::specs::ber::Decode::subidentifier_at))]
#[inline]
fn subidentifier_at(octets: &[u8]) -> Result<(u64, &[u8]), BerError>
    ensures { AgreesBy (λ x. (x.0, x.1.now)) result (reading.subidentifier_at octets.now) }
{
    match octets {
        // Most subidentifiers have one octet, and most others two.
        [octet, rest @ ..] if *octet < 0x80 => Ok((u64::from(*octet), rest)),
        [] | [0x80, ..] => Err(BerError::Content),
        [high, low, rest @ ..] if *low < 0x80 => {
            Ok((u64::from(*high % 128) * 128 + u64::from(*low), rest))
        }
        // An enterprise's number often has three octets.
        [high, mid, low, rest @ ..] if *low < 0x80 => Ok((three_digits(*high, *mid, *low), rest)),
        _ => digits_at(octets),
    }
}

/// Returns the number whose base-128 digits are the lowest seven bits of each octet. The high bit
/// of `low` must be clear.
// `inline(always)`: inlined, it is a few instructions. The numbers of most enterprises have three
// digits.
#[inline(always)]
fn three_digits(high: u8, mid: u8, low: u8) -> u64
    requires { low < 128 }
    ensures value { result ≡ (high % 128 * 128 + mid % 128) * 128 + low }
    ensures at_most_21_bits { result < 2097152 }
{
    (u64::from(high % 128) * 128 + u64::from(mid % 128)) * 128 + u64::from(low)
}

/// Returns the number whose base-128 digits begin `octets` and end at the first octet with a clear
/// high bit, and the octets after that. Fails if no octet has a clear high bit, or if the number
/// is above the largest subidentifier.
#[tactic(auto, using(crate::proofs::ReadIdentifiers::digit_steps))]
fn digits_at(octets: &[u8]) -> Result<(u64, &[u8]), BerError>
    ensures { AgreesBy (λ x. (x.0, x.1.now)) result (reading.subidentifier_from 0 octets.now) }
{
    let mut number = 0;
    'octets: for (i, octet) in octets.iter().enumerate() {
        number = number * 128 + u64::from(*octet % 128);
        if number > LARGEST_SUBIDENTIFIER {
            return Err(BerError::Content);
        }
        if *octet < 0x80 {
            return Ok((number, &octets[i + 1..]));
        }
    }
    Err(BerError::Content)
}

/// Returns the number of 32 bits at the start of `octets`, and the octets after it.
#[tactic(auto, unfolding(crate::specs::ber::Decode::number_at))]
#[inline]
fn number_at(octets: &[u8]) -> Result<(u32, &[u8]), BerError>
    ensures { AgreesBy (λ x. (x.0, x.1.now)) result (reading.number_at octets.now) }
{
    let (number, rest) = subidentifier_at(octets)?;
    if number >= 0x1_0000_0000 {
        return Err(BerError::Content);
    }
    Ok((number as u32, rest))
}

/// Does what [`subidentifier_at`] does, for octets that are known to begin with a subidentifier.
/// A subidentifier of at most three octets isn't checked again.
#[inline]
#[tactic(auto, using(std::proofs::lemmas::Grind::common_steps, crate::proofs::ReadIdentifiers::reads_short))]
fn subidentifier_in(octets: &[u8]) -> (u64, &[u8])
    requires { IsOk (reading.subidentifier_at octets.now) }
    ensures { reading.subidentifier_at octets.now ≡ Ok (result.0, result.1.now) }
{
    let high = octets[0];
    if high < 0x80 {
        let (_, rest) = octets.split_at(1);
        return (u64::from(high), rest);
    }
    let low = octets[1];
    if low < 0x80 {
        let (_, rest) = octets.split_at(2);
        return (u64::from(high % 128) * 128 + u64::from(low), rest);
    }
    let last = octets[2];
    if last < 0x80 {
        let (_, rest) = octets.split_at(3);
        return (three_digits(high, low, last), rest);
    }
    digits_in(octets)
}

/// Does what [`subidentifier_in`] does, for a subidentifier of any length.
#[tactic(auto, using(crate::proofs::ReadingLaws::never_err, crate::proofs::ReadIdentifiers::digits_ok))]
fn digits_in(octets: &[u8]) -> (u64, &[u8])
    requires { IsOk (reading.subidentifier_at octets.now) }
    ensures { reading.subidentifier_at octets.now ≡ Ok (result.0, result.1.now) }
{
    match digits_at(octets) {
        Ok(read) => read,
        Err(_) => unreachable!(),
    }
}

/// Does what [`number_at`] does, for octets that are known to begin with a number. It isn't tested
/// again that the number has 32 bits.
#[inline]
fn number_in(octets: &[u8]) -> (u32, &[u8])
    requires { IsOk (reading.number_at octets.now) }
    ensures { reading.number_at octets.now ≡ Ok (result.0, result.1.now) }
{
    let (number, rest) = subidentifier_in(octets);
    (number as u32, rest)
}

/// Checks that `content` encodes an identifier.
#[tactic(auto, unfolding(crate::specs::ber::Decode::identifier_of))]
// `inline(always)`: called for each binding that is checked.
#[inline(always)]
pub fn check_identifier(content: &[u8]) -> Result<(), BerError>
    ensures { AgreesBy (λ u. u) result (checked (reading.identifier_of content.now)) }
{
    let (_, rest) = subidentifier_at(content)?;
    check_numbers(rest)
}

/// Checks that `octets` encode numbers, one after the other, at most [`MORE_NUMBERS`] of them.
// `inline(always)`: this is the loop that checks a name.
#[inline(always)]
#[tactic(auto, using(crate::proofs::ReadIdentifiers::counted_numbers))]
fn check_numbers(octets: &[u8]) -> Result<(), BerError>
    ensures { AgreesBy (λ u. u) result (checked (reading.numbers_of 126 octets.now)) }
{
    let mut rest = octets;
    let mut count = 0;
    'numbers: while !rest.is_empty() {
        let (some, after) = some_numbers_at(rest)?;
        rest = after;
        count += some;
    }
    // Tested once, after the loop.
    if count > MORE_NUMBERS {
        return Err(BerError::Content);
    }
    Ok(())
}

/// Checks one, four or eight numbers at the start of `octets`. Returns how many it checked, and
/// the octets after them.
// `inline(always)`: its single caller is the loop that checks a name.
#[inline(always)]
#[tactic(auto, using(crate::proofs::ReadIdentifiers::checked_numbers))]
fn some_numbers_at(octets: &[u8]) -> Result<(usize, &[u8]), BerError>
    requires { 0 < length octets.now }
    ensures some { IfOk result (λ x. (1 ≤ x.0) × (x.0 + length x.1.now ≤ length octets.now)) }
    ensures fits { IfOk result (λ x. (room : ℕ) → x.0 ≤ room
        → checked (reading.numbers_of (room - x.0) x.1.now)
        ≡ checked (reading.numbers_of room octets.now)) }
    ensures full { IfOk result (λ x. (room : ℕ) → room < x.0
        → checked (reading.numbers_of room octets.now) ≡ Err BerError.Content) }
    ensures err { IfErr result (λ e. (room : ℕ)
        → checked (reading.numbers_of room octets.now) ≡ Err e) }
{
    if let Some((_, rest)) = eight_at(octets) {
        return Ok((8, rest));
    }
    if let Some((_, rest)) = four_at(octets) {
        return Ok((4, rest));
    }
    let (_, rest) = number_at(octets)?;
    Ok((1, rest))
}

/// Returns the first eight octets if each is a number of its own, as in most names, and the octets
/// after them.
// `inline(always)`: inlined, it is a few instructions for eight numbers of a name.
#[inline(always)]
#[tactic(auto, using(crate::proofs::ReadIdentifiers::plain_prefixes))]
fn eight_at(octets: &[u8]) -> Option<(&[u8], &[u8])>
    ensures { IfSome result (λ x. reading.IsPlainPrefix 8 x.0.now x.1.now octets.now) }
{
    match octets {
        [a, b, c, d, e, f, g, h, ..] => {
            if are_low(*a, *b, *c, *d) && are_low(*e, *f, *g, *h) {
                Some(octets.split_at(8))
            } else {
                None
            }
        }
        _ => None,
    }
}

/// Returns the first four octets if each is a number of its own, and the octets after them.
// `inline(always)`: inlined, it is a few instructions for four numbers of a name.
#[inline(always)]
#[tactic(auto, using(crate::proofs::ReadIdentifiers::plain_prefix))]
fn four_at(octets: &[u8]) -> Option<(&[u8], &[u8])>
    ensures { IfSome result (λ x. reading.IsPlainPrefix 4 x.0.now x.1.now octets.now) }
{
    match octets {
        [a, b, c, d, ..] => {
            if are_low(*a, *b, *c, *d) {
                Some(octets.split_at(4))
            } else {
                None
            }
        }
        _ => None,
    }
}

/// Returns whether no octet has its high bit set, by a test of one word.
// `inline(always)`: inlined, it is a few instructions for four numbers of a name.
#[inline(always)]
#[tactic(auto, using(std::proofs::lemmas::Grind::common_steps, crate::proofs::HighBits::low_octets))]
fn are_low(a: u8, b: u8, c: u8, d: u8) -> bool
    ensures { IsTrue result → (a < 128) × (b < 128) × (c < 128) × (d < 128) }
{
    u32::from_le_bytes([a, b, c, d]) & 0x8080_8080 == 0
}

/// Returns the identifier that `content` encodes. The content must have been checked.
#[inline]
pub(crate) fn identifier_of(content: &[u8]) -> Oid
    requires { IsOk (reading.identifier_of content.now) }
    ensures { reading.identifier_of content.now ≡ Ok result }
{
    let mut oid = Oid::new();
    push_identifier(&mut oid, content);
    oid
}

/// Sets `oid`, which must be empty, to the identifier that `content` encodes. The content must
/// have been checked. Setting it in place saves moving its 520 octets.
#[tactic(auto, using(crate::proofs::ReadIdentifiers::subidentifier_small), unfolding(crate::specs::ber::Decode::identifier_of))]
// `inline(always)`: called for each binding that is read.
#[inline(always)]
pub fn push_identifier(oid: &mut Oid, content: &[u8])
    requires is_identifier { IsOk (reading.identifier_of content.now) }
    requires empty { oid.old ≡ [] }
    ensures { reading.identifier_of content.now ≡ Ok oid.new }
{
    let (first, rest) = subidentifier_in(content);
    oid.push_with_room(first_number(first));
    oid.push_with_room(second_number(first));
    push_numbers(oid, rest);
}

/// Returns the first number of the identifier that begins with `subidentifier`.
#[inline]
fn first_number(subidentifier: u64) -> u32
    requires { subidentifier ≤ reading.largest_subidentifier }
    ensures { result ≡ reading.first_number subidentifier }
{
    if subidentifier < 80 {
        (subidentifier / 40) as u32
    } else {
        2
    }
}

/// Returns the second number of the identifier that begins with `subidentifier`.
#[inline]
fn second_number(subidentifier: u64) -> u32
    requires { subidentifier ≤ reading.largest_subidentifier }
    ensures { result ≡ reading.second_number subidentifier }
{
    if subidentifier < 80 {
        (subidentifier % 40) as u32
    } else {
        (subidentifier - 80) as u32
    }
}

/// Appends the numbers that `octets` encode to `oid`, which must have two numbers. The octets must
/// have been checked.
// `inline(always)`: this is the loop that reads a name.
#[inline(always)]
#[tactic(auto, using(crate::proofs::ReadIdentifiers::pushed_numbers))]
fn push_numbers(oid: &mut Oid, octets: &[u8])
    requires numbers { IsOk (reading.numbers_of 126 octets.now) }
    requires two { length oid.old ≡ 2 }
    ensures { oid.new ≡ oid.old ++ reading.numbers_in octets.now }
{
    let mut rest = octets;
    'numbers: while !rest.is_empty() {
        if let Some((four, after)) = four_at(rest) {
            push_four(oid, four);
            rest = after;
        } else {
            let (number, after) = number_in(rest);
            oid.push_with_room(number);
            rest = after;
        }
    }
}

/// Appends four numbers, each of one octet, to an identifier that has room for them.
// `inline(always)`: inlined, it is four stores for four numbers of a name.
#[inline(always)]
fn push_four(oid: &mut Oid, octets: &[u8])
    requires four { length octets.now ≡ 4 }
    requires room { length oid.old + 4 ≤ 128 }
    ensures { oid.new ≡ oid.old ++ octets.now }
{
    let [a, b, c, d] = octets else { unreachable!() };
    oid.push_with_room(u32::from(*a));
    oid.push_with_room(u32::from(*b));
    oid.push_with_room(u32::from(*c));
    oid.push_with_room(u32::from(*d));
}

/// Returns the number of octets that a subidentifier takes.
#[inline]
#[tactic(auto, unfolding(crate::specs::ber::Canon::subidentifier_size))]
fn septets_size(number: u64) -> usize
    ensures value { result ≡ subidentifier_size number }
    ensures some { 1 ≤ result }
    ensures at_most_5 { result ≤ 5 }
{
    if number < 1 << 7 {
        1
    } else if number < 1 << 14 {
        2
    } else if number < 1 << 21 {
        3
    } else if number < 1 << 28 {
        4
    } else {
        5
    }
}

/// Returns the length, in octets, of the content of an identifier: at most 640.
// `inline(always)`: called for each binding that is encoded from a name and a value.
#[inline(always)]
pub fn identifier_size(name: &Oid) -> u64
    requires { IsWire name.now }
    ensures value { result ≡ length (canon_content (object_id name.now)) }
    ensures at_most_640 { result ≤ 640 }
    ensures identifier { IsIdentifier name.now }
{
    let [first, second, rest @ ..] = name.as_slice() else {
        unreachable!()
    };
    first_size(*first, *second) + numbers_size(rest)
}

/// Returns the number of octets that the subidentifier of the first two numbers takes.
#[inline]
#[tactic(auto, using(crate::proofs::WrittenIdentifiers::subidentifier_one))]
fn first_size(first: u32, second: u32) -> u64
    requires { first ≤ 2 }
    ensures value { result ≡ subidentifier_size (40 * first + second) }
    ensures at_most_5 { result ≤ 5 }
{
    if second < 48 {
        // The subidentifier is below 80 + 48, which is 128.
        1
    } else {
        septets_size(first_subidentifier(first, second)) as u64
    }
}

/// Returns the number of octets that `numbers` take, each as a subidentifier.
///
/// In most names each of the eight numbers before the last takes one octet.
// `inline(always)`: its single caller is `identifier_size`.
#[inline(always)]
#[tactic(auto, using(crate::proofs::WrittenIdentifiers::nine_counted, crate::proofs::WrittenIdentifiers::none_before))]
fn numbers_size(numbers: &[u32]) -> u64
    requires { length numbers.now ≤ 128 }
    ensures value { result ≡ length (flat_map canon_subidentifier numbers.now) }
    ensures at_most_5_each { result ≤ 5 * length numbers.now }
{
    let count = numbers.len();
    if count < 9 || !are_short(numbers, count - 9) {
        return other_numbers_size(numbers);
    }
    let size = 8 + septets_size(u64::from(numbers[count - 1])) as u64;
    if count == 9 {
        return size;
    }
    size + other_numbers_size(&numbers[..count - 9])
}

/// Does what [`numbers_size`] does, for any numbers.
// Most numbers take one octet, so four such numbers are counted at once.
#[inline(never)]
#[tactic(auto, using(crate::proofs::WrittenIdentifiers::subidentifier_sizes))]
fn other_numbers_size(numbers: &[u32]) -> u64
    requires { length numbers.now ≤ 128 }
    ensures value { result ≡ length (flat_map canon_subidentifier numbers.now) }
    ensures at_most_5_each { result ≤ 5 * length numbers.now }
{
    let mut size = 0;
    let mut left = numbers.len();
    'numbers: while left > 0 {
        match four_before(numbers, left) {
            Some(_) => {
                left -= 4;
                size += 4;
            }
            None => {
                left -= 1;
                size += septets_size(u64::from(numbers[left])) as u64;
            }
        }
    }
    size
}

/// Returns whether the eight numbers from `from` on take one octet each.
// `inline(always)`: inlined, it is a few instructions for eight numbers of a name.
#[inline(always)]
fn are_short(numbers: &[u32], from: usize) -> bool
    requires { from + 8 ≤ length numbers.now }
    ensures { result ≡ true → AreShort numbers.now from }
{
    let low = numbers[from] | numbers[from + 1] | numbers[from + 2] | numbers[from + 3];
    let high = numbers[from + 4] | numbers[from + 5] | numbers[from + 6] | numbers[from + 7];
    low | high < 128
}

/// Returns the subidentifiers of the four numbers before the index `left` if each takes one octet,
/// as in most names.
// `inline(always)`: inlined, it is a few instructions for four numbers of a name.
#[inline(always)]
fn four_before(numbers: &[u32], left: usize) -> Option<(u8, u8, u8, u8)>
    requires { left ≤ length numbers.now }
    ensures { IfSome result (λ x.
        (4 ≤ left)
        × (flat_map canon_subidentifier (drop (left - 4) numbers.now)
        ≡ (x.0 ∷ x.1 ∷ x.2 ∷ x.3 ∷ []) ++ flat_map canon_subidentifier (drop left numbers.now))) }
{
    if left < 4 {
        return None;
    }
    let a = numbers[left - 4];
    let b = numbers[left - 3];
    let c = numbers[left - 2];
    let d = numbers[left - 1];
    if a | b | c | d < 128 {
        Some((a as u8, b as u8, c as u8, d as u8))
    } else {
        None
    }
}

/// Returns the subidentifier of the first two numbers (X.690, 8.19.4).
#[inline]
fn first_subidentifier(first: u32, second: u32) -> u64
    requires { first ≤ 2 }
    ensures { result ≡ 40 * first + second }
{
    40 * u64::from(first) + u64::from(second)
}

/// Writes the content of an identifier before `end`, and returns its offset.
// `inline(always)`: called for each name that is encoded from its numbers.
#[inline(always)]
pub fn put_identifier(out: &mut [u8], end: usize, name: &Oid) -> usize
    requires encodable { IsWire name.now }
    requires room { length (canon_content (object_id name.now)) ≤ end }
    requires within { end ≤ length out.old }
    ensures { Writes out.old result end (canon_content (object_id name.now)) out.new }
{
    let [first, second, rest @ ..] = name.as_slice() else {
        unreachable!()
    };
    let start = put_numbers(out, end, rest);
    put_subidentifier(out, start, first_subidentifier(*first, *second))
}

/// Writes `numbers` before `end`, each as a subidentifier, and returns their offset. If eight
/// numbers of one octet precede the last, as in most names, these are written at once.
// `inline(always)`: its single caller encodes each name from its numbers.
#[inline(always)]
#[tactic(auto, using(crate::proofs::WrittenIdentifiers::subidentifier_sizes))]
fn put_numbers(out: &mut [u8], end: usize, numbers: &[u32]) -> usize
    requires room { length (flat_map canon_subidentifier numbers.now) ≤ end }
    requires within { end ≤ length out.old }
    ensures { Writes out.old result end (flat_map canon_subidentifier numbers.now) out.new }
{
    let count = numbers.len();
    if count < 9 || !are_short(numbers, count - 9) {
        return put_other_numbers(out, end, numbers);
    }
    let last = put_subidentifier(out, end, u64::from(numbers[count - 1]));
    let start = put_eight(out, last, numbers, count - 9);
    if count == 9 {
        return start;
    }
    put_other_numbers(out, start, &numbers[..count - 9])
}

/// Does what [`put_numbers`] does, for any numbers.
// Most numbers take one octet, so four such numbers are written at once.
#[inline(never)]
fn put_other_numbers(out: &mut [u8], end: usize, numbers: &[u32]) -> usize
    requires room { length (flat_map canon_subidentifier numbers.now) ≤ end }
    requires within { end ≤ length out.old }
    ensures { Writes out.old result end (flat_map canon_subidentifier numbers.now) out.new }
{
    let mut start = end;
    let mut left = numbers.len();
    'numbers: while left > 0 {
        match four_before(numbers, left) {
            Some((a, b, c, d)) => {
                left -= 4;
                start = put_text(out, start, &[a, b, c, d]);
            }
            None => {
                left -= 1;
                start = put_subidentifier(out, start, u64::from(numbers[left]));
            }
        }
    }
    start
}

/// Writes the eight numbers from `from` on before `end`, an octet each, and returns their offset.
// `inline(always)`: inlined, it is a few instructions for eight numbers of a name.
#[inline(always)]
fn put_eight(out: &mut [u8], end: usize, numbers: &[u32], from: usize) -> usize
    requires one_octet_each { AreShort numbers.now from }
    requires eight { from + 8 ≤ length numbers.now }
    requires room { 8 ≤ end }
    requires within { end ≤ length out.old }
    ensures { Writes out.old result end (eight_from numbers.now from) out.new }
{
    // All are read before the first is written, so that they can be read at once.
    let a = numbers[from] as u8;
    let b = numbers[from + 1] as u8;
    let c = numbers[from + 2] as u8;
    let d = numbers[from + 3] as u8;
    let e = numbers[from + 4] as u8;
    let f = numbers[from + 5] as u8;
    let g = numbers[from + 6] as u8;
    let h = numbers[from + 7] as u8;
    let at_h = put_octet(out, end, h);
    let at_g = put_octet(out, at_h, g);
    let at_f = put_octet(out, at_g, f);
    let at_e = put_octet(out, at_f, e);
    let at_d = put_octet(out, at_e, d);
    let at_c = put_octet(out, at_d, c);
    let at_b = put_octet(out, at_c, b);
    put_octet(out, at_b, a)
}

/// Writes a subidentifier before `end`, and returns its offset.
#[inline]
#[tactic(auto, using(crate::proofs::WrittenIdentifiers::subidentifier_sizes))]
fn put_subidentifier(out: &mut [u8], end: usize, number: u64) -> usize
    requires room { length (canon_subidentifier number) ≤ end }
    requires within { end ≤ length out.old }
    ensures { Writes out.old result end (canon_subidentifier number) out.new }
{
    if number < 128 {
        return put_octet(out, end, number as u8);
    }
    let last = put_octet(out, end, (number % 128) as u8);
    if number < 16384 {
        return put_octet(out, last, 128 + (number / 128) as u8);
    }
    if number < 2097152 {
        let rest = number / 128;
        let mid = put_octet(out, last, 128 + (rest % 128) as u8);
        return put_octet(out, mid, 128 + (rest / 128) as u8);
    }
    put_septets(out, last, septets_size(number) - 1, number / 128)
}

/// Writes the lowest `count` base-128 digits of a number before `end`, each with the bit that says
/// that more digits follow, and returns their offset.
fn put_septets(out: &mut [u8], end: usize, count: usize, number: u64) -> usize
    requires room { count ≤ end }
    requires within { end ≤ length out.old }
    ensures { Writes out.old result end (septets count number) out.new }
{
    let start = end - count;
    let mut rest = number;
    'septets: for at in (start..end).rev() {
        out[at] = 128 + (rest % 128) as u8;
        rest /= 128;
    }
    start
}
