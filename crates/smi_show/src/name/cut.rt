//! Cuts a name at dots and at `::` outside quotes.
ghost use Rattle.std.specs.Prelude.{◌≡◌, ◌&&◌, ◌∷◌, ◌<◌, IfSome, None, length, option_map};
ghost use Rattle.smi_show.specs.name.Cutting.{is_double_colon, is_unquoted, module_after};
ghost use Rattle.smi_show.specs.name.Cutting.{name_parts};
ghost use Rattle.smi_show.specs.private.name.Left.{parts_left};

use snmp_io::{open_after, split_unquoted};

/// Returns the first part of `text`, and the text after the dot that ends it, if one does.
#[tactic(auto, using(crate::proofs::Parted::one_part, crate::proofs::Parted::part_before))]
pub fn cut_part(text: &[u8]) -> (&[u8], Option<&[u8]>)
    ensures parts { let left = parts_left (option_map (λ rest. rest.now) result.1) in
        result.0.now ∷ left ≡ name_parts text.now }
    ensures shorter { IfSome result.1 (λ rest. length rest.now < length text.now) }
{
    match split_unquoted(text, b'.') {
        Some((part, rest)) => (part, Some(rest)),
        None => (text, None),
    }
}

/// Returns the text before the first `::` outside quotes and the text after it, if there is one.
pub fn cut_module(text: &[u8]) -> Option<(&[u8], &[u8])>
    ensures { option_map (λ r. (r.0.now, r.1.now)) result ≡ module_after None text.now }
{
    // In most names no other colon comes before `::`.
    let (home, after) = split_unquoted(text, b':')?;
    match after {
        [b':', rest @ ..] => Some((home, rest)),
        _ => cut_later_module(text),
    }
}

/// Does what [`cut_module`] does, also for a name with other colons before `::`.
#[tactic(auto, using(std::proofs::lemmas::List::take_rest, crate::proofs::ModuleCut::module_here, crate::proofs::ModuleCut::module_later))]
fn cut_later_module(text: &[u8]) -> Option<(&[u8], &[u8])>
    ensures { option_map (λ r. (r.0.now, r.1.now)) result ≡ module_after None text.now }
{
    let mut quote = None;
    'octets: for (at, octet) in text.iter().enumerate() {
        if ends_module(quote, &text[at..]) {
            return Some((&text[..at], &text[at + 2..]));
        }
        quote = open_after(quote, *octet);
    }
    None
}

/// Returns whether `text` begins with `::` and no quote is open before it.
fn ends_module(before: Option<u8>, text: &[u8]) -> bool
    ensures { result ≡ (is_unquoted before && is_double_colon text.now) }
{
    before.is_none() && matches!(text, [b':', b':', ..])
}
