//! The part of an index for an object, by its type.
ghost use Rattle.std.specs.{Prelude.ℕ, Prelude.MatchOption, Option.option_copied};
ghost use Rattle.smi_tree.specs.declared.columns.index_part.IndexPart.{IndexPart};
ghost use Rattle.smi_tree.specs.declared.columns.index_part.Extent.{Extent};
ghost use Rattle.smi_tree.specs.columns.Parts.{StatesBound, IsFixedBy, IsNotFixed, HasExtent};
ghost use Rattle.smi_tree.specs.columns.Parts.{IsPartOf};

use crate::columns::{Extent, IndexPart};
use smi_names::TypeBase;
use smi_text::{Range, TokenText, bound as value_of};

/// Returns the number that `bound` represents. Returns `None` if it represents none (a bound has
/// at most 64 bits) or a number below zero.
fn number(bound: &TokenText) -> Option<u64>
    ensures { MatchOption result ((n : ℕ) → StatesBound bound.now n → ⊥)
        (λ n. StatesBound bound.now n) }
{
    let value = value_of(bound.kind, bound.text.as_bytes())?;
    if value < 0 { None } else { Some(value as u64) }
}

/// Returns the bound of a SIZE that is a single bound, as in `SIZE (4)`. Returns `None` for a
/// range with two ends, even if they are the same, for several ranges, and if there is no SIZE.
fn single(sizes: Option<&[Range]>) -> Option<&TokenText>
    ensures { let returned = option_copied sizes.entry in
        MatchOption result (IsNotFixed returned) (λ bound. IsFixedBy returned bound.now) }
{
    match sizes {
        Some([Range { low, high: None }]) => Some(low),
        _ => None,
    }
}

/// Returns what determines the number of numbers in a string, from its SIZE and from whether
/// IMPLIED precedes it. Returns `None` if its SIZE is fixed, but not to a number of 0 to
/// 18446744073709551615: no string has that length.
fn extent(sizes: Option<&[Range]>, implied: bool) -> Option<Extent>
    ensures { let returned = option_copied sizes.entry in
        MatchOption result ((extent : Extent) → HasExtent returned implied extent → ⊥)
        (λ extent. HasExtent returned implied extent) }
{
    match single(sizes) {
        Some(bound) => Some(Extent::Fixed(number(bound)?)),
        None if implied => Some(Extent::Implied),
        None => Some(Extent::Counted),
    }
}

/// Returns the part for an object with this base type and SIZE (RFC 2578, section 7.7). `implied`
/// says whether IMPLIED precedes it. Returns `None` for Counter64, and for a string for which
/// [`extent`] returns `None`.
pub(crate) fn part(base: TypeBase, sizes: Option<&[Range]>, implied: bool) -> Option<IndexPart>
    ensures { let returned = option_copied sizes.entry in
        MatchOption result
        ((part : IndexPart) → IsPartOf base returned implied part → ⊥)
        (λ part. IsPartOf base returned implied part) }
{
    match base {
        TypeBase::Integer
        | TypeBase::Counter32
        | TypeBase::Gauge32
        | TypeBase::Unsigned32
        | TypeBase::TimeTicks => Some(IndexPart::Number),
        TypeBase::IpAddress => Some(IndexPart::Address),
        TypeBase::OctetString => Some(IndexPart::Text(extent(sizes, implied)?)),
        TypeBase::Bits | TypeBase::Opaque => Some(IndexPart::Octets(extent(sizes, implied)?)),
        TypeBase::ObjectIdentifier if implied => Some(IndexPart::ImpliedIdentifier),
        TypeBase::ObjectIdentifier => Some(IndexPart::Identifier),
        TypeBase::Counter64 => None,
    }
}
