//! Numbers and literals: their values and ranges (RFC 2578, sections 3.5 and 7.1).

ghost use Rattle.std.specs.Prelude.{◌≡◌, ◌<◌, ◌≤◌, nat_le, drop, if◌then◌else◌};
ghost use Rattle.std.specs.Bool.{then_some};
ghost use Rattle.smi_text.specs.trees.Number.{number_value, is_negative};
ghost use Rattle.smi_text.specs.trees.Number as number;

use crate::lexer::TokenKind;

/// Returns the value of a digit in a base up to 16; a letter may be in either case.
fn digit_value(digit: u8) -> u8
    ensures value { result ≡ number.digit_value digit }
    ensures octet { result < 256 }
{
    if digit <= b'9' {
        digit.saturating_sub(b'0')
    } else if digit <= b'F' {
        digit - (b'A' - 10)
    } else {
        digit.saturating_sub(b'a' - 10)
    }
}

/// Returns the number that `digits` write in base `base`, if it is at most `most`.
#[tactic(auto, using(crate::proofs::Digits::worths, std::proofs::lemmas::Grind::common_steps))]
fn value_up_to(base: u64, digits: &[u8], most: u64) -> Option<u64>
    requires { 0 < base }
    ensures { result ≡ number.up_to most (number_value base digits.now) }
{
    let mut value: u64 = 0;
    for digit in digits {
        let scaled = value.checked_mul(base)?;
        value = scaled.checked_add(u64::from(digit_value(*digit)))?;
    }
    if value <= most { Some(value) } else { None }
}

/// Returns whether `text` begins with a hyphen.
fn is_negative(text: &[u8]) -> bool
    ensures { result ≡ is_negative text.now }
{
    matches!(text, [b'-', ..])
}

/// Returns the digits of a number token, without its hyphen.
fn digits(text: &[u8]) -> &[u8]
    ensures { result.now ≡ (if is_negative text.now then drop 1 text.now else text.now) }
{
    if is_negative(text) { &text[1..] } else { text }
}

/// Returns the number that a number token writes, if it can be a number of an identifier: 0 to
/// 4294967295 (RFC 2578, section 3.5). `-0` is 0.
#[tactic(auto, unfolding(crate::specs::trees::Number::is_arc))]
pub fn arc(text: &[u8]) -> Option<u32>
    ensures { result ≡ number.arc_in text.now }
{
    let most = if is_negative(text) { 0 } else { 4294967295 };
    Some(value_up_to(10, digits(text), most)? as u32)
}

/// Returns whether a number token can be a number of an identifier.
pub fn is_arc(text: &[u8]) -> bool
    ensures { result ≡ number.is_arc text.now }
{
    arc(text).is_some()
}

/// Returns the number that a number token writes outside identifiers, -9223372036854775808 to
/// 18446744073709551615 (RFC 2578, section 7.1.1), or `None` if it is out of this range.
#[tactic(auto, unfolding(crate::specs::trees::Number::is_number))]
pub fn number(text: &[u8]) -> Option<i128>
    ensures { result ≡ number.stated_number text.now }
{
    let negative = is_negative(text);
    let most = if negative {
        9223372036854775808
    } else {
        u64::MAX
    };
    let magnitude = i128::from(value_up_to(10, digits(text), most)?);
    Some(if negative { 0 - magnitude } else { magnitude })
}

/// Returns whether a number token is in the range of numbers outside identifiers.
pub fn is_number(text: &[u8]) -> bool
    ensures { result ≡ number.is_number text.now }
{
    number(text).is_some()
}

/// Returns the value of a hexadecimal or binary literal, if it is at most 18446744073709551615.
#[tactic(auto, unfolding(crate::specs::trees::Number::is_literal))]
fn literal(base: u64, text: &[u8]) -> Option<u64>
    requires { 0 < base }
    ensures { result ≡ then_some (number.is_literal base text.now) (number_value base
        (number.literal_digits text.now)) }
{
    let digits = if text.len() < 3 {
        &[]
    } else {
        &text[1..text.len() - 2]
    };
    value_up_to(base, digits, u64::MAX)
}

/// Returns the value of an end of a range: what [`number`] returns for a number token, or the
/// value of a literal up to 18446744073709551615 (RFC 2578, section 7.1.1). Returns `None` for any
/// other token.
#[tactic(auto, unfolding(crate::specs::trees::Number::is_bound))]
pub fn bound(kind: TokenKind, text: &[u8]) -> Option<i128>
    ensures { result ≡ number.bound_in kind text.now }
{
    let base = match kind {
        TokenKind::Number => return number(text),
        TokenKind::Hex => 16,
        TokenKind::Binary => 2,
        _ => return None,
    };
    Some(i128::from(literal(base, text)?))
}

/// Returns whether a token can be an end of a range.
pub fn is_bound(kind: TokenKind, text: &[u8]) -> bool
    ensures { result ≡ number.is_bound kind text.now }
{
    bound(kind, text).is_some()
}
