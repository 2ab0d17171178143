//! Identifiers as text: decimal numbers with a dot before or between them, as in `.1.3.6.1`.
ghost use Rattle.std.specs.Prelude.{◌≡◌, ◌≢◌, ℕ, ◌+◌, ◌<◌, ◌≤◌, ◌↔◌, ◌⊎◌, List, [], ◌∷◌, ◌++◌};
ghost use Rattle.std.specs.Prelude.{decimal, length, drop, slice_index, All, MatchOption, IsTrue};
ghost use Rattle.std.specs.Prelude.{IfOk, OnOk, IfSome, IfNone, IsSome, Ok, Err, Some, true};
ghost use Rattle.std.specs.{Char.is_ascii_digit, Option.option_map};
ghost use Rattle.snmp_oid.specs.Identifier.{IsIdentifier};
ghost use Rattle.snmp_oid.specs.Numeric.{IsNumericName, IsFirstBadPart, IsTooLong, IsNumeral};
ghost use Rattle.snmp_oid.specs.Numeric.{AreDigitsRead, IsPartRead, IsWrittenTo, dot, numeric_text};

use crate::Oid;
use arrayvec::ArrayVec;
use itoa::Buffer;
use thiserror::Error;

/// Why a text doesn't name an identifier.
#[derive(Clone, Copy, Debug, PartialEq, Eq, Error)]
pub enum OidTextError {
    /// A part is empty, contains an octet other than a digit, or is above 4294967295. Holds the
    /// offset, from 0, of the first such part.
    #[error("no number at octet {0}")]
    BadNumber(usize),
    /// Each part is a number, but there are more than 128.
    #[error("a name has at most 128 numbers")]
    TooLong,
}

/// Reads the identifier that `text` names: decimal numbers with a dot between each two and perhaps
/// one before the first, or a single dot for no numbers. Numbers may have leading zeros.
///
/// `BadNumber` takes precedence over `TooLong`. An empty text has one part, which is empty.
pub fn parse_numeric(text: &[u8]) -> Result<Oid, OidTextError>
    ensures found { IfOk result (IsNumericName text.now) }
    ensures at_most_128 { IfOk result (λ o. length o ≤ 128) }
    // If `text` names an identifier of at most 128 numbers, this is the result.
    ensures only { (o : List ℕ) → IsNumericName text.now o → length o ≤ 128 → result ≡ Ok o }
    // `at` is the offset of the first part that isn't a number of 32 bits; an empty part isn't.
    ensures bad_number { (at : ℕ)
        → (result ≡ Err (OidTextError.BadNumber at)) ↔ IsFirstBadPart text.now at }
    ensures too_long { (result ≡ Err OidTextError.TooLong) ↔ IsTooLong text.now }
{
    let mut oid = Oid::new();
    match read_numeric(text, &mut oid) {
        Ok(()) => Ok(oid),
        Err(error) => Err(error),
    }
}

/// Reads the identifier that `text` names into `oid`, as [`parse_numeric`] does. Returns no `Oid`
/// by value: moving one takes as long as reading it. After an error, `oid` may have any numbers.
pub fn read_numeric(text: &[u8], oid: &mut Oid) -> Result<(), OidTextError>
    ensures found { OnOk result (IsNumericName text.now oid.new) }
    ensures at_most_128 { OnOk result (length oid.new ≤ 128) }
    ensures only { (o : List ℕ) → IsNumericName text.now o → length o ≤ 128
        → (result ≡ Ok tt) × (oid.new ≡ o) }
    ensures bad_number { (at : ℕ)
        → (result ≡ Err (OidTextError.BadNumber at)) ↔ IsFirstBadPart text.now at }
    ensures too_long { (result ≡ Err OidTextError.TooLong) ↔ IsTooLong text.now }
{
    oid.clear();
    if is_dot(text) {
        return Ok(());
    }
    let mut too_long = false;
    let mut left = Some(without_leading_dot(text));
    'parts: while let Some(here) = left {
        if let Some(rest) = read_three(here, oid) {
            left = Some(rest);
        } else {
            let (number, after) = read_part(here);
            let Some(number) = number else {
                return Err(OidTextError::BadNumber(text.len() - here.len()));
            };
            if oid.push(number).is_err() {
                too_long = true;
            }
            left = after;
        }
    }
    if too_long {
        Err(OidTextError::TooLong)
    } else {
        Ok(())
    }
}

/// Returns whether `text` is a single dot.
fn is_dot(text: &[u8]) -> bool
    ensures { IsTrue result ↔ (text.now ≡ dot ∷ []) }
{
    text == b".".as_slice()
}

/// Returns `text` without its leading dot, if it has one.
fn without_leading_dot(text: &[u8]) -> &[u8]
    ensures { ((result.now ≡ text.now) × (slice_index text.now 0 ≢ dot))
        ⊎ (text.now ≡ dot ∷ result.now) }
{
    match text {
        [b'.', rest @ ..] => rest,
        _ => text,
    }
}

/// Appends the numbers of the first three parts of `text`, and returns what follows the dot after
/// them, if each is one digit before a dot and there is room for three numbers. Otherwise returns
/// `None` and leaves `oid` unchanged.
// Hot: most numbers of a name have one digit. A longer number is recognized by its second octet,
// which is read in any case.
#[inline(always)]
fn read_three<'a>(text: &'a [u8], oid: &mut Oid) -> Option<&'a [u8]>
    ensures three { IfSome result (λ rest. AreDigitsRead 3 text.now rest.now oid.old oid.new) }
    ensures unchanged_on_none { IfNone result (oid.new ≡ oid.old) }
{
    // Tested before the octets are read: the caller reads them again after a `None`.
    if oid.len() > 125 {
        return None;
    }
    match text {
        [a, b'.', b, b'.', c, b'.', rest @ ..]
            if a.is_ascii_digit() && b.is_ascii_digit() && c.is_ascii_digit() => {
            // All three digits are read before the first push. After a push, which writes to
            // memory, they would be read once more.
            let first = u32::from(*a - b'0');
            let second = u32::from(*b - b'0');
            let third = u32::from(*c - b'0');
            oid.push_with_room(first);
            oid.push_with_room(second);
            oid.push_with_room(third);
            Some(rest)
        }
        _ => None,
    }
}

/// Returns two results: the number of the first part of `text`, or `None` if this part isn't a
/// numeral; and what follows the first dot of `text`, or `None` if `text` has no dot.
// Hot: runs for each number of a name that `read_three` leaves.
#[inline(always)]
fn read_part(text: &[u8]) -> (Option<u32>, Option<&[u8]>)
    ensures { IsPartRead text.now result.0 (option_map (λ rest. rest.now) result.1) }
{
    match leading_number(text) {
        Some((number, after)) => (Some(number), after),
        None => read_other_part(text),
    }
}

/// Does what [`read_part`] does, for any part. This is a separate function, since it calls
/// [`read_any_part`]: if the body of a loop has a call, each turn zeroes the memory for its
/// result, even if the call isn't made.
#[inline(always)]
fn read_other_part(text: &[u8]) -> (Option<u32>, Option<&[u8]>)
    ensures { IsPartRead text.now result.0 (option_map (λ rest. rest.now) result.1) }
{
    let (number, after) = read_any_part(text);
    (number, after)
}

/// Reads the number that `text` has before its first dot, or that is all of `text` if it has no
/// dot. Returns it with the text after the dot, or with `None` if there is no dot. A number of one
/// digit before a dot is read fastest.
///
/// Reads only numerals below 4000000000, and returns `None` for any other part, even for a numeral
/// from 4000000000 to 4294967295.
// Hot: runs for each number of a name that `read_three` leaves.
#[inline(always)]
pub fn leading_number(text: &[u8]) -> Option<(u32, Option<&[u8]>)>
    ensures { IfSome result
        (λ read. IsPartRead text.now (Some read.0) (option_map (λ rest. rest.now) read.1)) }
{
    match text {
        [digit, b'.', rest @ ..] if digit.is_ascii_digit() => {
            Some((u32::from(*digit - b'0'), Some(rest)))
        }
        _ => read_two_digits(text),
    }
}

/// Does what [`leading_number`] does, for a part that isn't one digit before a dot.
// Hot: runs for each number of two or more digits, and for the last one of a name.
#[inline(always)]
fn read_two_digits(text: &[u8]) -> Option<(u32, Option<&[u8]>)>
    ensures { IfSome result
        (λ read. IsPartRead text.now (Some read.0) (option_map (λ rest. rest.now) read.1)) }
{
    match text {
        [tens, ones, b'.', rest @ ..] if tens.is_ascii_digit() && ones.is_ascii_digit() => {
            Some((two_digits(*tens, *ones), Some(rest)))
        }
        _ => read_three_digits(text),
    }
}

/// Does what [`leading_number`] does, for a part that isn't one or two digits before a dot.
// Hot: runs for each number of three or more digits, and for the last one of a name.
#[inline(always)]
fn read_three_digits(text: &[u8]) -> Option<(u32, Option<&[u8]>)>
    ensures { IfSome result
        (λ read. IsPartRead text.now (Some read.0) (option_map (λ rest. rest.now) read.1)) }
{
    match text {
        [hundreds, tens, ones, b'.', rest @ ..]
            if hundreds.is_ascii_digit() && tens.is_ascii_digit() && ones.is_ascii_digit() => {
            Some((three_digits(*hundreds, *tens, *ones), Some(rest)))
        }
        _ => read_digits(text),
    }
}

/// Returns the number that two digits write.
#[inline(always)]
fn two_digits(tens: u8, ones: u8) -> u32
    requires tens { is_ascii_digit tens ≡ true }
    requires ones { is_ascii_digit ones ≡ true }
    ensures value { IsNumeral (tens ∷ ones ∷ []) result }
    ensures plain { All (λ octet. octet ≢ dot) (tens ∷ ones ∷ []) }
{
    u32::from(tens - b'0') * 10 + u32::from(ones - b'0')
}

/// Returns the number that three digits write.
#[inline(always)]
fn three_digits(hundreds: u8, tens: u8, ones: u8) -> u32
    requires hundreds { is_ascii_digit hundreds ≡ true }
    requires tens { is_ascii_digit tens ≡ true }
    requires ones { is_ascii_digit ones ≡ true }
    ensures value { IsNumeral (hundreds ∷ tens ∷ ones ∷ []) result }
    ensures plain { All (λ octet. octet ≢ dot) (hundreds ∷ tens ∷ ones ∷ []) }
{
    u32::from(hundreds - b'0') * 100 + u32::from(tens - b'0') * 10 + u32::from(ones - b'0')
}

/// Does what [`leading_number`] does, for any number of digits.
// Hot: runs for each number of four or more digits, and for the last one of a name. One pass reads
// the digits and finds their end.
#[inline(always)]
fn read_digits(text: &[u8]) -> Option<(u32, Option<&[u8]>)>
    ensures { IfSome result
        (λ read. IsPartRead text.now (Some read.0) (option_map (λ rest. rest.now) read.1)) }
{
    let mut number: u32 = 0;
    let mut count = 0;
    'digits: while count < text.len() && text[count].is_ascii_digit() {
        if number >= 400_000_000 {
            return None;
        }
        number = number * 10 + u32::from(text[count] - b'0');
        count += 1;
    }
    if count == 0 {
        return None;
    }
    let (_, end) = text.split_at(count);
    match end.split_first() {
        None => Some((number, None)),
        Some((octet, rest)) if *octet == b'.' => Some((number, Some(rest))),
        _ => None,
    }
}

/// Does what [`read_part`] does, for any part: looks for the end of the part first.
#[cold]
#[inline(never)]
fn read_any_part(text: &[u8]) -> (Option<u32>, Option<&[u8]>)
    ensures { IsPartRead text.now result.0 (option_map (λ rest. rest.now) result.1) }
{
    let (part, after) = split_part(text);
    (parse_number(part), after)
}

/// Returns the first part of `text`, and what follows the dot that ends the part, or `None` if
/// `text` has no dot.
fn split_part(text: &[u8]) -> (&[u8], Option<&[u8]>)
    ensures part { All (λ octet. octet ≢ dot) result.0.now }
    ensures parts { MatchOption result.1
        (text.now ≡ result.0.now)
        (λ rest. text.now ≡ result.0.now ++ dot ∷ rest.now) }
{
    match text.iter().position(|octet| *octet == b'.') {
        Some(end) => (&text[..end], Some(&text[end + 1..])),
        None => (text, None),
    }
}

/// Returns the number of 32 bits that the decimal digits of `part` write, or `None` if `part`
/// isn't such a numeral.
#[tactic(auto, using(crate::proofs::Numeral::read_large_at, crate::proofs::Numeral::read_more_at, crate::proofs::Numeral::read_all))]
pub fn parse_number(part: &[u8]) -> Option<u32>
    ensures found { IfSome result (IsNumeral part.now) }
    ensures none { IfNone result ((n : ℕ) → IsNumeral part.now n → ⊥) }
{
    if part.is_empty() {
        return None;
    }
    let mut number: u32 = 0;
    'digits: for octet in part {
        if !octet.is_ascii_digit() {
            return None;
        }
        number = number
            .checked_mul(10)?
            .checked_add(u32::from(*octet - b'0'))?;
    }
    Some(number)
}

/// The length in octets of the longest numeric text: a dot and ten digits for each of 128 numbers.
pub const LONGEST_TEXT: usize = 1408;

/// Writes the numeric text of `oid` to the start of `out` and returns its length in octets, at
/// most 1408. The text has a dot before each number, or is a single dot if there are none.
///
/// Returns `None`, and leaves `out` unchanged, if and only if `out` is shorter than the text.
pub fn write_numeric(oid: &Oid, out: &mut [u8]) -> Option<usize>
    ensures some { IfSome result (IsWrittenTo out.new out.old (numeric_text oid.now)) }
    ensures variant { IsSome result ↔ (length (numeric_text oid.now) ≤ length out.old) }
    ensures unchanged_on_none { IfNone result (out.new ≡ out.old) }
    ensures at_most_1408 { length (numeric_text oid.now) ≤ 1408 }
{
    let text = written(oid);
    if out.len() < text.len() {
        return None;
    }
    out[..text.len()].copy_from_slice(text.as_slice());
    Some(text.len())
}

/// The written text of an identifier names it, and a text names at most one identifier.
///
/// A law: the call does nothing, and its caller may use what it ensures.
#[inline]
pub fn names()
    ensures written_is_named { (o : List ℕ) → IsIdentifier o → IsNumericName (numeric_text o) o }
    ensures at_most_one { (text o p : List ℕ)
        → IsNumericName text o → IsNumericName text p → o ≡ p }
{}

/// Returns the numeric text of `oid`.
fn written(oid: &Oid) -> ArrayVec<u8, LONGEST_TEXT>
    ensures { result.items ≡ numeric_text oid.now }
{
    let mut text = ArrayVec::new();
    let numbers = oid.as_slice();
    if numbers.is_empty() {
        text.push(b'.');
    }
    'numbers: for number in numbers {
        push_number(&mut text, *number);
    }
    text
}

/// Appends a dot and `number`. The caller must leave room for 11 octets.
fn push_number(text: &mut ArrayVec<u8, LONGEST_TEXT>, number: u32)
    requires { length text.old.items + 11 ≤ 1408 }
    ensures value { text.new.items ≡ text.old.items ++ dot ∷ decimal number }
    ensures at_most_11_more { length text.new.items ≤ length text.old.items + 11 }
{
    let mut digits = Buffer::new();
    let digits = digits.format(number).as_bytes();
    text.push(b'.');
    let _fits = text.try_extend_from_slice(digits);
}
