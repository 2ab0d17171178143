//! Maps from the names of modules and the labels of nodes to indices.
//!
//! Names come from files that others wrote. Someone who doesn't know the key of the maps can't
//! choose names that all have the same hash.
ghost use Rattle.std.specs.Prelude.{◌≡◌, List, ℕ, IfOk, length, map};
ghost use Rattle.std.specs.List.{position_from};
ghost use Rattle.indexmap.specs.IndexMap.{hasher_of};
ghost use Rattle.smi_names.specs.{meaning.Names.module_index, meaning.Scopes.index_in};
ghost use Rattle.smi_tree.specs.Indices as indices;
ghost use Rattle.smi_tree.specs.Indices.{AreOthers, ArePrevious};

use crate::node::{home, label};
use indexmap::IndexMap;
use smi_names::{NameBuf, NameHash, NameRef, Source, insert_if_absent};
use smi_text::Module;
use std::alloc::{AllocError, Global};

/// A map from names to indices.
pub(crate) type Indices = IndexMap<NameBuf, usize, NameHash>;

/// A map to the index of a label's first source in a module. It is read only for a label whose
/// first source of all isn't in that module. The key is the index of the module and the index of
/// the label's first source of all. (A source is what a node comes from, a root or a definition.
/// It has the same index as the node.)
pub(crate) type Others = IndexMap<(usize, usize), usize, NameHash>;

/// For each label, the indices of the sources with it.
#[derive(Drop)]
pub(crate) struct LabelIndices {
    /// For each label, the index of its first source.
    pub(crate) labels: Indices,
    /// For each label, and each module other than the module of its first source: the index of the
    /// label's first source in that module, if it has one there.
    pub(crate) others: Others,
    /// For each source, the last one before it with the same label. For a label's first source,
    /// the last one with this label.
    pub(crate) previous: Vec<usize>,
}

/// Returns the index that `indices` has for `name`, if it has one.
pub(crate) fn find(indices: &Indices, name: &[u8]) -> Option<usize>
    ensures { result ≡ index_in indices.now name.now }
{
    indices.get(&NameRef::new(name)).copied()
}

/// Returns a map with the index of the first module of each name.
pub(crate) fn homes(
    alloc: Global,
    hash: NameHash,
    modules: &[Module],
) -> Result<Indices, AllocError>
    ensures placed { IfOk result (λ homes. (x : List ℕ)
        → index_in homes x ≡ module_index modules.now x) }
    ensures hashed { IfOk result (λ homes. hasher_of homes ≡ hash) }
{
    let mut homes = IndexMap::with_hasher(alloc, hash);
    'modules: for (i, module) in modules.iter().enumerate() {
        insert_if_absent(&mut homes, NameBuf::new(alloc, module.name.as_bytes())?, i)?;
    }
    Ok(homes)
}

/// Returns the key in [`Others`] of the source at index `index`, whose label has its first source
/// at index `first`. Returns `None` for that first source, for a root, and if `modules` doesn't
/// have the source's module or `homes` doesn't have its name.
fn key_of(
    modules: &[Module],
    homes: &Indices,
    source: Source,
    first: usize,
    index: usize,
) -> Option<(usize, usize)>
    ensures { result ≡ indices.key_of modules.now homes.now source first index }
{
    if first == index {
        return None;
    }
    let home = find(homes, home(modules, source)?.name.as_bytes())?;
    Some((home, first))
}

/// Returns the index of each label's first source, the index of its first source in each other
/// module, and for each source the last one before it with the same label. (For a label's first
/// source, this is the last one with this label.) `homes` has the index of the first module of each
/// name.
pub(crate) fn labels(
    alloc: Global,
    hash: NameHash,
    modules: &[Module],
    homes: &Indices,
    sources: &[Source],
) -> Result<LabelIndices, AllocError>
    requires { (x : List ℕ) → index_in homes.now x ≡ module_index modules.now x }
    ensures labels { IfOk result (λ made. (x : List ℕ) → index_in made.labels x
        ≡ position_from (indices.has_label modules.now x) 0 sources.now) }
    ensures others { IfOk result
        (λ made. AreOthers modules.now sources.now made.others sources.now) }
    ensures previous { IfOk result (λ made. ArePrevious
        (map (indices.label_from modules.now) sources.now) (length sources.now)
        made.previous.items) }
    ensures hashed { IfOk result
        (λ made. (hasher_of made.labels ≡ hash) × (hasher_of made.others ≡ hash)) }
{
    let mut labels = IndexMap::with_capacity_and_hasher(alloc, sources.len(), hash)?;
    let mut others = IndexMap::with_hasher(alloc, hash);
    let mut previous = Vec::with_capacity(alloc, sources.len())?;
    'sources: for (k, source) in sources.iter().enumerate() {
        let label = NameBuf::new(alloc, label(modules, *source))?;
        let first = insert_if_absent(&mut labels, label, k)?;
        if let Some(key) = key_of(modules, homes, *source, first, k) {
            insert_if_absent(&mut others, key, k)?;
        }
        // If sources before this one have its label, `previous` has the last of them at `first`.
        previous.push(k)?;
        previous.swap(first, k);
    }
    Ok(LabelIndices {
        labels,
        others,
        previous,
    })
}
