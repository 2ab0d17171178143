//! Reads the value of one part of an index from the start of a list of numbers.
ghost use Rattle.std.specs.Prelude.{◌≡◌, ℕ, ◌≤◌, ◌<◌, ◌↔◌, List, ◌++◌, length, Some, None};
ghost use Rattle.std.specs.Prelude.{option_map, IfSome, IfNone, IsTrue};
ghost use Rattle.std.specs.List.{list_all};
ghost use Rattle.smi_show.specs.index.Index.{ReadsValue, is_octet};
ghost use Rattle.smi_show.specs.private.index.IndexValues.{split_numbers, counted, remaining};
ghost use Rattle.smi_show.specs.private.index.IndexValues.{of_octets, in_extent, value_and_rest};

use smi_tree::{Extent, IndexPart};

/// Returns the value of `part` at the start of `numbers`, without its length, and the numbers after
/// it. Returns `None` if `numbers` doesn't begin with an encoded value (RFC 2578, section 7.7).
pub fn read_part<'a>(part: IndexPart, numbers: &'a [u32]) -> Option<(&'a [u32], &'a [u32])>
    ensures reads { option_map (λ r. (r.0.now, r.1.now)) result ≡ value_and_rest part numbers.now }
    ensures found { IfSome result (λ r. ReadsValue part numbers.now r.0.now r.1.now) }
    ensures none { IfNone result ((value rest : List ℕ)
        → ¬ ReadsValue part numbers.now value rest) }
{
    let read = value_and_rest(part, numbers);
    read
}

/// Returns what `read_part` does, by the cases of `part`.
fn value_and_rest<'a>(part: IndexPart, numbers: &'a [u32]) -> Option<(&'a [u32], &'a [u32])>
    ensures { option_map (λ r. (r.0.now, r.1.now)) result ≡ value_and_rest part numbers.now }
{
    match part {
        IndexPart::Number => split(numbers, 1),
        IndexPart::Address => octets_alone(split(numbers, 4)),
        IndexPart::Text(extent) | IndexPart::Octets(extent) => {
            octets_alone(split_extent(extent, numbers))
        }
        IndexPart::Identifier => split_counted(numbers),
        IndexPart::ImpliedIdentifier => split_all(numbers),
    }
}

/// For the same `part`, at most one value is read from the start of a list of numbers, and only
/// one rest is left.
///
/// A law: the call does nothing, and its caller may use what it ensures.
#[inline]
pub fn one_part_reading()
    ensures { (part : IndexPart) (numbers value rest other left : List ℕ)
        → ReadsValue part numbers value rest → ReadsValue part numbers other left
        → (value ≡ other) × (rest ≡ left) }
{}

/// Returns the numbers of the string at the start of `numbers`, without its length, and the
/// numbers after it. Returns `None` if there are too few numbers for this extent. Doesn't check
/// that the numbers are octets.
fn split_extent<'a>(extent: Extent, numbers: &'a [u32]) -> Option<(&'a [u32], &'a [u32])>
    ensures { option_map (λ r. (r.0.now, r.1.now)) result ≡ in_extent extent numbers.now }
{
    match extent {
        Extent::Fixed(size) => split(numbers, size),
        Extent::Counted => split_counted(numbers),
        Extent::Implied => split_all(numbers),
    }
}

/// Returns the first `size` numbers and the rest, or `None` if there are fewer.
fn split<'a>(numbers: &'a [u32], size: u64) -> Option<(&'a [u32], &'a [u32])>
    ensures { option_map (λ r. (r.0.now, r.1.now)) result ≡ split_numbers size numbers.now }
{
    if size <= numbers.len() as u64 {
        Some(numbers.split_at(size as usize))
    } else {
        None
    }
}

/// Splits off a length, and returns the numbers that it counts and the rest. Returns `None` if
/// there is no length, or fewer numbers follow.
fn split_counted<'a>(numbers: &'a [u32]) -> Option<(&'a [u32], &'a [u32])>
    ensures { option_map (λ r. (r.0.now, r.1.now)) result ≡ counted numbers.now }
{
    match numbers {
        [length, after @ ..] => split(after, u64::from(*length)),
        [] => None,
    }
}

/// Returns all numbers and an empty rest, or `None` if there are no numbers.
fn split_all<'a>(numbers: &'a [u32]) -> Option<(&'a [u32], &'a [u32])>
    ensures { option_map (λ r. (r.0.now, r.1.now)) result ≡ remaining numbers.now }
{
    if numbers.is_empty() {
        None
    } else {
        Some(numbers.split_at(numbers.len()))
    }
}

/// Returns `read`, or `None` if a number of its value is above 255.
fn octets_alone<'a>(read: Option<(&'a [u32], &'a [u32])>) -> Option<(&'a [u32], &'a [u32])>
    ensures { option_map (λ r. (r.0.now, r.1.now)) result
        ≡ of_octets (option_map (λ r. (r.0.now, r.1.now)) read.entry) }
{
    match read {
        Some((value, rest)) if are_octets(value) => Some((value, rest)),
        _ => None,
    }
}

/// Returns whether each number is at most 255.
fn are_octets(numbers: &[u32]) -> bool
    ensures { result ≡ list_all is_octet numbers.now }
{
    numbers.iter().all(|number| *number <= 255)
}
