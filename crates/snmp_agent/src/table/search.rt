//! Searches by name in lists with increasing names: by halves, or from a guess.
ghost use Rattle.std.specs.Prelude.{◌≡◌, ◌<◌, ◌≤◌, Bool, List, ℕ, IfOk, IfErr, IfSome};
ghost use Rattle.std.specs.{List.Sorted.IsPartitionedBy, Option.option_map, Ordering.nat_cmp};
ghost use Rattle.std.specs.{Cmp.Lexicographic.slice_cmp, FinMap.find};
ghost use Rattle.snmp_agent.specs.private.table.BinarySearch.{IsHalvedTo};
ghost use Rattle.snmp_agent.specs.table.Pages.{IsIncreasing, HasNameAt, BelongsAt, IsIndexAfter};
ghost use Rattle.snmp_agent.specs.table.Pages.{entries_of};

use snmp_wire::{EncodedBinding, EncodedName};

/// An element of a list with increasing names: a row, or a page of rows. An element is *up to* a
/// name if the name of its row, or of its first row, isn't greater than that name.
pub trait Placed {
    /// `up_to name element`: the element is up to `name`.
    ghost up_to: { List ℕ → Self → Bool };

    /// Returns whether the element is up to `name`.
    fn is_up_to(&self, name: &EncodedName<'_>) -> bool
        ensures { result ≡ up_to name.now self.now };
}

impl Placed for EncodedBinding {
    ghost use Rattle.std.specs.Prelude.{◌≡◌};
    ghost use Rattle.snmp_agent.specs.table.Pages.{is_up_to};

    ghost up_to = { is_up_to };

    #[inline(always)]
    fn is_up_to(&self, name: &EncodedName<'_>) -> bool
        ensures { result ≡ is_up_to name.now self.now }
    {
        self.name().compare(name).is_le()
    }
}

/// Returns how many elements are up to `name`. The elements before index `from` must be up to
/// `name`, and the elements from index `to` on must not be.
#[inline(always)]
pub fn count_between<T: Placed>(
    items: &[T],
    name: &EncodedName<'_>,
    from: usize,
    to: usize,
) -> usize
    requires parted { IsPartitionedBy (T.up_to name.now) items.now }
    requires halved { IsHalvedTo (T.up_to name.now) items.now from to }
    ensures { IsHalvedTo (T.up_to name.now) items.now result result }
{
    let mut begun = from;
    let mut end = to;
    'halves: while begun < end {
        let middle = begun + (end - begun) / 2;
        if items[middle].is_up_to(name) {
            begun = middle + 1;
        } else {
            end = middle;
        }
    }
    begun
}

/// Narrows a search by a guess of the index of the last element that is up to `name`. Returns two
/// indices: the elements before the first are up to `name`, and those from the second on aren't.
/// Both are the same index if the guess is right.
#[inline(always)]
pub fn near<T: Placed>(items: &[T], name: &EncodedName<'_>, guess: usize) -> (usize, usize)
    requires { IsPartitionedBy (T.up_to name.now) items.now }
    ensures { IsHalvedTo (T.up_to name.now) items.now result.0 result.1 }
{
    let end = items.len();
    if guess >= end {
        return (0, end);
    }
    let (begun, end) = by_test(items, name, 0, end, guess);
    if begun == guess + 1 && begun < end {
        by_test(items, name, begun, end, begun)
    } else {
        (begun, end)
    }
}

/// Tests the element at index `at`, and returns the two indices between which the search continues.
#[inline(always)]
fn by_test<T: Placed>(
    items: &[T],
    name: &EncodedName<'_>,
    begun: usize,
    end: usize,
    at: usize,
) -> (usize, usize)
    requires parted { IsPartitionedBy (T.up_to name.now) items.now }
    requires halved { IsHalvedTo (T.up_to name.now) items.now begun end }
    requires from { begun ≤ at }
    requires to { at < end }
    ensures { IsHalvedTo (T.up_to name.now) items.now result.0 result.1 }
{
    if items[at].is_up_to(name) {
        (at + 1, end)
    } else {
        (begun, at)
    }
}

/// Returns how many rows are up to `name`. `guess` is a guess of the result, or 0 for none. If a
/// guess other than 0 is right, nothing is searched.
#[tactic(auto, using(crate::proofs::Partition::partitioned))]
pub fn index_near(rows: &[EncodedBinding], name: &EncodedName<'_>, guess: usize) -> usize
    requires { IsIncreasing rows.now }
    ensures { IsIndexAfter name.now rows.now result }
{
    // If `guess` rows are up to `name`, the last of them is at the index `guess - 1`.
    let (passed, end) = near(rows, name, guess.wrapping_sub(1));
    count_between(rows, name, passed, end)
}

/// Returns the row of `name`, if there is one. `index` is the number of rows that are up to
/// `name`.
#[inline]
pub fn row_at<'a>(
    rows: &'a [EncodedBinding],
    name: &EncodedName<'_>,
    index: usize,
) -> Option<&'a EncodedBinding>
    requires rising { IsIncreasing rows.now }
    requires index { IsIndexAfter name.now rows.now index }
    ensures value { option_map
        (λ row. row.now.value) result ≡ find (slice_cmp nat_cmp) name.now (entries_of
        rows.now) }
    ensures name { IfSome result (λ row. row.now.name ≡ name.now) }
{
    let (prefix, _) = rows.split_at(index);
    let row = prefix.last()?;
    if row.name().compare(name).is_eq() {
        Some(row)
    } else {
        None
    }
}

/// Returns the index of the row of `name`, or as an error the index at which such a row belongs.
pub fn find_row(rows: &[EncodedBinding], name: &EncodedName<'_>) -> Result<usize, usize>
    requires { IsIncreasing rows.now }
    ensures found { IfOk result (HasNameAt name.now rows.now) }
    ensures none { IfErr result (BelongsAt name.now rows.now) }
{
    let index = index_near(rows, name, 0);
    let (prefix, _) = rows.split_at(index);
    match prefix.last() {
        Some(row) if row.name().compare(name).is_eq() => Ok(index - 1),
        _ => Err(index),
    }
}
