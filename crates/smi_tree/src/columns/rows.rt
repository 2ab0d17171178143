//! The rows that columns belong to.
ghost use Rattle.std.specs.Prelude.{◌≡◌, ◌<◌, ℕ, ◌∷◌, [], ◌++◌, List, length, MatchOption, Some};
ghost use Rattle.smi_tree.specs.branches.FirstIndex.{oid_at, first_index};
ghost use Rattle.smi_tree.specs.columns.Kept.{IsLastRow};

use crate::branches::Identifiers;

/// The row that was looked up last.
#[derive(Clone, Copy)]
pub(crate) struct LastRow<'i> {
    /// The numbers of the row's identifier.
    numbers: &'i [u32],
    /// The first index of that identifier in the list of all identifiers, or `None` if it isn't
    /// there.
    id: Option<usize>,
}

/// Returns the index of the row of a column: the first index of the identifier at index `id`
/// without its last number, if that is in the list. `last` is the row that was looked up last:
/// successive nodes are mostly columns of the same row.
pub(crate) fn row_index<'i>(
    identifiers: &'i Identifiers,
    id: usize,
    last: &mut Option<LastRow<'i>>,
) -> Option<usize>
    requires within { id < length identifiers.now }
    requires last { IsLastRow identifiers.now last.old }
    ensures row { MatchOption result
        ((prefix : List ℕ) (last row : ℕ) → oid_at identifiers.now id ≡ prefix ++ last ∷ []
        → first_index identifiers.now prefix ≡ Some row → ⊥)
        (λ row. (prefix : List ℕ) × (last : ℕ)
        × (oid_at identifiers.now id ≡ prefix ++ last ∷ [])
        × (first_index identifiers.now prefix ≡ Some row)) }
    ensures last { IsLastRow identifiers.now last.new }
{
    let (_last, prefix) = identifiers.get(id).as_slice().split_last()?;
    match last {
        Some(row) if row.numbers == prefix => row.id,
        _ => {
            let found = identifiers.find_numbers(prefix);
            *last = Some(LastRow {
                numbers: prefix,
                id: found,
            });
            found
        }
    }
}
