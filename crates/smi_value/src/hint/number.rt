//! Display hints of integers (RFC 2579, section 3.1): `d`, `d-n`, `x`, `o` and `b`.
ghost use Rattle.std.specs.Prelude.{◌≡◌, ◌<◌, ◌≤◌, ◌^◌, ◌*◌, ℕ, List, length, drop, replicate};
ghost use Rattle.std.specs.Prelude.{IfSome, IfNone, false, decimal, codes, ◌++◌, EachIndex};
ghost use Rattle.std.specs.Prelude.{slice_index};
ghost use Rattle.std.specs.{List.take_while, Char.is_ascii_digit, Int.IsInRange};
ghost use Rattle.std.specs.Fmt.{digits, digit_glyph};
ghost use Rattle.snmp_io.specs.Draft.{Adds};
ghost use Rattle.smi_value.specs.declared.hint.number.NumberForm.{NumberForm};
ghost use Rattle.smi_value.specs.hint.Number.{StartsWithNumber, leading_digits, after_digits};
ghost use Rattle.smi_value.specs.hint.Number.{IsNumberHint, with_point, magnitude_text};
ghost use Rattle.smi_value.specs.hint.Number.{number_text, begins_with_digit};

use itoa::Buffer;
use snmp_io::Draft;

/// How an integer is shown (RFC 2579, section 3.1).
#[derive(Clone, Copy, Debug, PartialEq, Eq)]
pub enum NumberForm {
    /// `d` and `d-n`: in decimal digits. Holds the number of digits after the point, at most 20;
    /// 0 is for no point.
    Decimal(u8),
    /// `x`: in base 16.
    Hexadecimal,
    /// `o`: in base 8.
    Octal,
    /// `b`: in base 2.
    Binary,
}

/// Returns how integers are shown if `text` is a hint of integers, otherwise `None`.
pub(crate) fn number_form(text: &[u8]) -> Option<NumberForm>
    ensures found { IfSome result (IsNumberHint text.now) }
    ensures none { IfNone result ((form : NumberForm) → IsNumberHint text.now form → ⊥) }
{
    match text {
        [b'd'] => Some(NumberForm::Decimal(0)),
        [b'd', b'-', digits @ ..] => decimal_places(digits),
        [b'x'] => Some(NumberForm::Hexadecimal),
        [b'o'] => Some(NumberForm::Octal),
        [b'b'] => Some(NumberForm::Binary),
        _ => None,
    }
}

/// Returns the form that a hint `d-n` asks for, with `text` as its `n`. Returns `None` if `text`
/// isn't a decimal number of at most 20.
fn decimal_places(text: &[u8]) -> Option<NumberForm>
    ensures found { IfSome result (λ form. IsNumberHint (codes "d-" ++ text.now) form) }
    ensures none { IfNone result
        ((form : NumberForm) → IsNumberHint (codes "d-" ++ text.now) form → ⊥) }
{
    let Some((indices, rest)) = leading_number(text, 20) else {
        return None;
    };
    if rest.is_empty() {
        Some(NumberForm::Decimal(indices as u8))
    } else {
        None
    }
}

/// Returns the number that `text` begins with, and the rest of the text. Returns `None` if there is
/// no digit at the start, or the number is above `most`.
pub(crate) fn leading_number(text: &[u8], most: u32) -> Option<(u32, &[u8])>
    requires { most < 2 ^ 24 }
    ensures found { IfSome result (λ r. StartsWithNumber text.now r.0 r.1.now) }
    ensures at_most { IfSome result (λ r. r.0 ≤ most) }
    ensures none { IfNone result ((number : ℕ) (rest : List ℕ)
        → StartsWithNumber text.now number rest → most < number) }
{
    // Most numbers of a hint have one digit.
    match leading_digit(text) {
        Some((digit, rest)) if u32::from(digit) <= most => Some((u32::from(digit), rest)),
        _ => long_number(text, most),
    }
}

/// Returns the value of the first digit and the rest of `text`, if it begins with just one digit.
fn leading_digit(text: &[u8]) -> Option<(u8, &[u8])>
    ensures { IfSome result (λ r. StartsWithNumber text.now r.0 r.1.now) }
{
    match text {
        [digit @ b'0'..=b'9', rest @ ..] if !begins_with_digit(rest) => Some((*digit - b'0', rest)),
        _ => None,
    }
}

/// Returns whether `text` begins with a decimal digit.
fn begins_with_digit(text: &[u8]) -> bool
    ensures { result ≡ begins_with_digit text.now }
{
    match text {
        [octet, ..] => octet.is_ascii_digit(),
        [] => false,
    }
}

/// Does what [`leading_number`] does, for any number of digits.
fn long_number(text: &[u8], most: u32) -> Option<(u32, &[u8])>
    requires { most < 2 ^ 24 }
    ensures found { IfSome result (λ r. StartsWithNumber text.now r.0 r.1.now) }
    ensures at_most { IfSome result (λ r. r.0 ≤ most) }
    ensures none { IfNone result ((number : ℕ) (rest : List ℕ)
        → StartsWithNumber text.now number rest → most < number) }
{
    let (prefix, rest) = split_digits(text);
    if prefix.is_empty() {
        return None;
    }
    let mut number = 0;
    'digits: for octet in prefix {
        number = number * 10 + u32::from(*octet - b'0');
        if number > most {
            return None;
        }
    }
    Some((number, rest))
}

/// Returns the digits that `text` begins with, and the rest of the text.
fn split_digits(text: &[u8]) -> (&[u8], &[u8])
    ensures prefix { result.0.now ≡ leading_digits text.now }
    ensures after { result.1.now ≡ after_digits text.now }
    ensures digits { EachIndex result.0.now
        (λ k. IsInRange 48 57 (slice_index result.0.now k)) }
{
    text.split_at(count_digits(text))
}

/// Returns the number of digits that `text` begins with.
fn count_digits(text: &[u8]) -> usize
    ensures count { result ≡ length (take_while is_ascii_digit text.now) }
    ensures within { result ≤ length text.now }
{
    text.iter()
        .take_while(|octet| octet.is_ascii_digit())
        .count()
}

/// Appends `n` in the form `form`, after a `-` if it is negative.
pub(crate) fn append_number(draft: &mut Draft, form: NumberForm, n: i64)
    ensures { Adds draft.old (number_text form n) draft.new }
{
    if n < 0 {
        draft.octet(b'-');
    }
    append_magnitude(draft, form, n.unsigned_abs());
}

/// Appends the digits of `n` in the form `form`.
fn append_magnitude(draft: &mut Draft, form: NumberForm, n: u64)
    ensures { Adds draft.old (magnitude_text form n) draft.new }
{
    match form {
        NumberForm::Decimal(0) => draft.number(n),
        NumberForm::Decimal(indices) => append_with_point(draft, usize::from(indices), n),
        NumberForm::Hexadecimal => append_base_16(draft, n),
        NumberForm::Octal => append_base_8(draft, n),
        NumberForm::Binary => append_base_2(draft, n),
    }
}

/// Appends `n` in decimal digits with a point before the last `indices` of them. If there are too
/// few digits, zeros are put before them, so that one digit precedes the point.
fn append_with_point(draft: &mut Draft, indices: usize, n: u64)
    requires { 0 < indices }
    ensures { Adds draft.old (with_point indices (decimal n)) draft.new }
{
    let mut buffer = Buffer::new();
    let number = buffer.format(n).as_bytes();
    if number.len() > indices {
        let (whole, part) = number.split_at(number.len() - indices);
        draft.octets(whole);
        draft.octet(b'.');
        draft.octets(part);
    } else {
        draft.octets(b"0.");
        append_zeros(draft, indices - number.len());
        draft.octets(number);
    }
}

/// Appends the digit 0, `count` times.
fn append_zeros(draft: &mut Draft, count: usize)
    ensures { Adds draft.old (replicate count 48) draft.new }
{
    'zeros: for index in 0..count {
        draft.octet(b'0');
    }
}

/// Appends `n` in base 16, with digits in lower case.
#[inline(never)]
pub(crate) fn append_base_16(draft: &mut Draft, n: u64)
    ensures { Adds draft.old (digits 16 false n) draft.new }
{
    append_digits(draft, 16, n);
}

/// Appends `n` in base 8.
#[inline(never)]
pub(crate) fn append_base_8(draft: &mut Draft, n: u64)
    ensures { Adds draft.old (digits 8 false n) draft.new }
{
    append_digits(draft, 8, n);
}

/// Appends `n` in base 2.
#[inline(never)]
fn append_base_2(draft: &mut Draft, n: u64)
    ensures { Adds draft.old (digits 2 false n) draft.new }
{
    append_digits(draft, 2, n);
}

/// Appends `n` in `base`, 2 to 16, with digits in lower case. `inline(always)`: its callers pass
/// constant bases, which then take no division.
#[inline(always)]
fn append_digits(draft: &mut Draft, base: u64, n: u64)
    requires low { 2 ≤ base }
    requires high { base ≤ 16 }
    ensures { Adds draft.old (digits base false n) draft.new }
{
    let mut text = [0; 64];
    let start = put_digits(&mut text, base, n);
    draft.octets(&text[start..]);
}

/// Writes `n` in `base`, 2 to 16, at the end of `text`, and returns the offset of its first digit.
#[inline(always)]
fn put_digits(text: &mut [u8; 64], base: u64, n: u64) -> usize
    requires low { 2 ≤ base }
    requires high { base ≤ 16 }
    ensures within { result ≤ 64 }
    ensures digits { drop result text.new ≡ digits base false n }
{
    let mut at = 64;
    let mut left = n;
    'digits: while at > 0 {
        at -= 1;
        text[at] = digit((left % base) as u8);
        left /= base;
        if left == 0 {
            return at;
        }
    }
    at
}

/// Returns the digit for `n` in base 16, in lower case.
#[inline]
pub(crate) fn digit(n: u8) -> u8
    requires { n < 16 }
    ensures { result ≡ digit_glyph false n }
{
    if n < 10 { b'0' + n } else { b'a' + (n - 10) }
}
