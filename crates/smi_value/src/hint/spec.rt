//! Reads display hints of octets (RFC 2579, section 3.1), which consist of specs.
ghost use Rattle.std.specs.Prelude.{◌≡◌, ◌<◌, ◌≤◌, ◌+◌, ◌↔◌, List, ℕ, length, IfSome, IfNone};
ghost use Rattle.std.specs.Prelude.{IsTrue, slice_get, option_and_then, option_to_list, drop};
ghost use Rattle.smi_value.specs.hint.Spec.{IsFirstSpec, IsOctetHint, format_of, has_star};
ghost use Rattle.smi_value.specs.hint.Spec.{after_star, mark_of, after_mark, most_octets};
ghost use Rattle.smi_value.specs.hint.{Spec.takes_octets, Pieces.last_mark, Pieces.is_single};
ghost use Rattle.smi_value.specs.declared.hint.spec.Spec.{Spec};

use crate::hint::number::leading_number;

/// How the octets of one application of a spec are shown.
#[derive(Clone, Copy, Debug, PartialEq, Eq)]
pub enum OctetFormat {
    /// `x`: as one number in base 16.
    Hexadecimal,
    /// `d`: as one number in base 10.
    Decimal,
    /// `o`: as one number in base 8.
    Octal,
    /// `a` and `t`: as text, unchanged.
    Text,
}

/// One spec of a hint: how many octets are shown, in what format, and what is shown after them.
#[derive(Clone, Copy, Debug, PartialEq, Eq)]
pub struct Spec {
    /// Whether the first octet is the number of times that the spec is applied (`*`).
    pub is_counted: bool,
    /// The number of octets that one application takes, if as many remain: 0 to 65535.
    pub length: u16,
    /// How the octets are shown.
    pub format: OctetFormat,
    /// The octet shown after an application, if octets remain.
    pub separator: Option<u8>,
    /// The octet shown instead of the separator after the last application that a `*` counts, if
    /// octets remain.
    pub terminator: Option<u8>,
}

/// Returns the first spec of `text` and the text after it, or `None` if `text` begins with no spec.
/// `inline(always)`: the spec then stays in registers.
#[inline(always)]
pub(crate) fn first_spec(text: &[u8]) -> Option<(Spec, &[u8])>
    ensures found { IfSome result (λ r. IsFirstSpec text.now r.0 r.1.now) }
    ensures shorter { IfSome result (λ r. length r.1.now < length text.now) }
    ensures none { IfNone result
        ((spec : Spec) (rest : List ℕ) → IsFirstSpec text.now spec rest → ⊥) }
{
    let (is_counted, text) = split_star(text);
    let Some((length, text)) = leading_number(text, 65535) else {
        return None;
    };
    let Some((format, text)) = split_format(text) else {
        return None;
    };
    if length > longest(format) {
        return None;
    }
    let (separator, text) = split_mark(text);
    let (terminator, text) = if is_counted && separator.is_some() {
        split_mark(text)
    } else {
        (None, text)
    };
    let spec = Spec {
        is_counted,
        length: length as u16,
        format,
        separator,
        terminator,
    };
    Some((spec, text))
}

/// Returns whether `text` begins with a `*`, and `text` without it.
fn split_star(text: &[u8]) -> (bool, &[u8])
    ensures star { result.0 ≡ has_star text.now }
    ensures after { result.1.now ≡ after_star text.now }
{
    match text {
        [b'*', rest @ ..] => (true, rest),
        _ => (false, text),
    }
}

/// Returns the format that the first letter of `text` names, and the rest of the text. Returns
/// `None` if `text` doesn't begin with the letter of a format.
fn split_format(text: &[u8]) -> Option<(OctetFormat, &[u8])>
    ensures found { IfSome result
        (λ r. option_and_then format_of (slice_get text.now 0) ≡ Some r.0) }
    ensures after { IfSome result (λ r. r.1.now ≡ drop 1 text.now) }
    ensures shorter { IfSome result (λ r. length r.1.now + 1 ≡ length text.now) }
    ensures none { IfNone result (option_and_then format_of (slice_get text.now 0) ≡ None) }
{
    match text {
        [b'x', rest @ ..] => Some((OctetFormat::Hexadecimal, rest)),
        [b'd', rest @ ..] => Some((OctetFormat::Decimal, rest)),
        [b'o', rest @ ..] => Some((OctetFormat::Octal, rest)),
        [b'a' | b't', rest @ ..] => Some((OctetFormat::Text, rest)),
        _ => None,
    }
}

/// Returns the greatest number of octets that one application of a spec may take.
fn longest(format: OctetFormat) -> u32
    ensures { result ≡ most_octets format }
{
    match format {
        OctetFormat::Text => 65535,
        OctetFormat::Hexadecimal | OctetFormat::Decimal | OctetFormat::Octal => 8,
    }
}

/// Returns the mark (a separator or a terminator) that `text` begins with, and the rest. The mark
/// is the first octet. If a spec can begin with that octet, or `text` is empty, the mark is `None`,
/// and the rest is `text`.
fn split_mark(text: &[u8]) -> (Option<u8>, &[u8])
    ensures mark { result.0 ≡ mark_of text.now }
    ensures after { result.1.now ≡ after_mark text.now }
{
    match text {
        [] | [b'*' | b'0'..=b'9', ..] => (None, text),
        [mark, rest @ ..] => (Some(*mark), rest),
    }
}

/// Returns the first spec and the rest of `text` if it is a hint of octets, otherwise `None`.
pub(crate) fn octet_hint(text: &[u8]) -> Option<(Spec, &[u8])>
    ensures found { IfSome result (λ r. (specs : List Spec) × IsOctetHint text.now specs
        × IsFirstSpec text.now r.0 r.1.now) }
    ensures none { IfNone result ((specs : List Spec) → IsOctetHint text.now specs → ⊥) }
{
    let Some((first, ahead)) = first_spec(text) else {
        return None;
    };
    if ends_hint(text, &first, ahead) {
        Some((first, ahead))
    } else {
        None
    }
}

/// Returns whether `text` is a hint of octets. `first` is its first spec, and `ahead` is the rest.
fn ends_hint(text: &[u8], first: &Spec, ahead: &[u8]) -> bool
    requires { IsFirstSpec text.now first.now ahead.now }
    ensures { IsTrue result ↔ ((specs : List Spec) × IsOctetHint text.now specs) }
{
    let mut rest = ahead;
    let mut ends_well = first.takes_octets();
    'specs: while !rest.is_empty() {
        let Some((spec, more)) = first_spec(rest) else {
            return false;
        };
        ends_well = spec.takes_octets();
        rest = more;
    }
    ends_well
}

impl Spec {
    /// Returns whether each use of the spec takes octets: it has a `*`, so it takes the count, or
    /// its length isn't 0.
    pub(crate) fn takes_octets(&self) -> bool
        ensures { result ≡ takes_octets self.now }
    {
        self.is_counted || self.length > 0
    }

    /// Returns whether each use of the spec shows one octet: it has no `*`, and the length 1.
    pub(crate) fn is_single(&self) -> bool
        ensures { result ≡ is_single self.now }
    {
        !self.is_counted && self.length == 1
    }

    /// Returns the mark after the last application: the terminator if the spec has one, otherwise
    /// the separator, which may be `None`.
    pub(crate) fn last_mark(&self) -> Option<u8>
        ensures { result ≡ last_mark self.now }
    {
        if self.terminator.is_some() {
            self.terminator
        } else {
            self.separator
        }
    }
}
