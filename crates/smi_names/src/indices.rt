//! Maps from names to indices.
ghost use Rattle.std.specs.Prelude.{◌≡◌, Some, None, IfOk, OnOk, if◌then◌else◌, unwrap_or};
ghost use Rattle.indexmap.specs.IndexMap.{get, hasher_of};
ghost use Rattle.smi_names.specs.{meaning.Meaning.or_else, meaning.Scopes.index_in};

use crate::hash::NameHash;
use crate::name::NameRef;
use indexmap::IndexMap;
use std::alloc::AllocError;
use std::hash::Hash;

/// A map from names to indices.
pub(crate) type NameIndices<'a> = IndexMap<NameRef<'a>, usize, NameHash>;

/// Inserts `index` under `key` unless `key` has an index already. Returns the index that `key`
/// had, or `index` if it had none.
pub fn insert_if_absent<K: Eq + Hash + Drop>(
    indices: &mut IndexMap<K, usize, NameHash>,
    key: K,
    index: usize,
) -> Result<usize, AllocError>
    ensures put { OnOk result ((x : K) → get K.eq indices.new x
        ≡ or_else (get K.eq indices.old x) (if K.eq key x then Some index else None)) }
    ensures returned { IfOk result (λ p. p ≡ unwrap_or (get K.eq indices.old key) index) }
    ensures hashed { OnOk result (hasher_of indices.new ≡ hasher_of indices.old) }
{
    Ok(*indices.entry(key)?.or_insert(index))
}

/// Returns the index of `name`, if the map has one.
pub(crate) fn find<'b>(indices: &NameIndices<'b>, name: &'b [u8]) -> Option<usize>
    ensures { result ≡ index_in indices.now name.now }
{
    indices.get(&NameRef::new(name)).copied()
}
