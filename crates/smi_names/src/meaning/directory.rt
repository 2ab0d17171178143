//! Finds the index of a name's entry, and for each entry the index of the entry that it refers to:
//! a name can refer to another by its definition or by an import.
ghost use Rattle.std.specs.Prelude.{◌≡◌, ℕ, List, [], map, IfOk, Some, All};
ghost use Rattle.indexmap.specs.IndexMap.{hasher_of};
ghost use Rattle.smi_names.specs.meaning.Scopes.{index_in};
ghost use Rattle.smi_names.specs.meaning.Names.{AreEach, module_index};
ghost use Rattle.smi_names.specs.meaning.Directory.{index_by, index_at, next_index};
ghost use Rattle.smi_names.specs.meaning.Directory.{IsFound, KeepsImports, is_entry_of};
ghost use Rattle.std.specs.List.{slice_get};

use crate::hash::NameHash;
use crate::indices::{NameIndices, find, insert_if_absent};
use crate::meaning::along::References;
use crate::meaning::entry::{Decider, Entry};
use crate::meaning::scope::scope;
use crate::name::NameRef;
use indexmap::IndexMap;
use smi_text::Module;
use std::alloc::{AllocError, Global};

/// The modules and their names, each with its index.
#[derive(Drop)]
pub(crate) struct Directory<'a> {
    /// For each module name, the index of the first module with that name.
    pub(crate) homes: NameIndices<'a>,
    /// For each module, a map from its names to the indices of their entries.
    pub(crate) scopes: Vec<NameIndices<'a>>,
    /// The names that have a meaning in a module, each with what decides the meaning.
    pub(crate) entries: Vec<Entry<'a>>,
    /// For each entry, the index of its parent's entry. The parent of an imported name is the same
    /// name in the module after FROM. The parent of a defined name is the name at the start of its
    /// identifier value, if the other parts, and only they, have numbers. `None` without a parent;
    /// the number of entries if the parent has no entry. Empty until computed.
    pub(crate) parents: Vec<Option<usize>>,
}

/// A name of a module that was looked up, with the index that was found.
#[derive(Clone, Copy, Debug)]
struct Found<'a> {
    /// The name of the module.
    home: &'a [u8],
    /// The index of the first module named `home`, if there is one.
    at: Option<usize>,
    /// The name.
    name: &'a [u8],
    /// The index of the entry of `name` in that module, or the number of entries if `name` has no
    /// entry there.
    index: usize,
}

/// Returns a map from the names of modules to their indices. A name of several modules has the
/// index of the first.
pub(crate) fn homes<'a>(
    alloc: Global,
    hash: NameHash,
    modules: &'a [Module],
) -> Result<NameIndices<'a>, AllocError>
    ensures placed { IfOk result (λ homes.
        (x : List ℕ) → index_in homes x ≡ module_index modules.now x) }
    ensures hashed { IfOk result (λ homes. hasher_of homes ≡ hash) }
{
    let mut homes = IndexMap::with_hasher(alloc, hash);
    'modules: for (i, module) in modules.iter().enumerate() {
        insert_if_absent(&mut homes, NameRef::new(module.name.as_bytes()), i)?;
    }
    Ok(homes)
}

/// Appends an entry for each name that has a meaning in a module. Returns for each module a map
/// from these names to the indices of their entries.
pub(crate) fn scopes<'a>(
    alloc: Global,
    hash: NameHash,
    entries: &mut Vec<Entry<'a>>,
    modules: &'a [Module],
) -> Result<Vec<NameIndices<'a>>, AllocError>
    requires { entries.old.items ≡ [] }
    ensures each { IfOk result (λ scopes. AreEach modules.now scopes.items entries.new.items) }
    ensures hashed { IfOk result (λ scopes. All (λ scope. hasher_of scope ≡ hash) scopes.items) }
{
    let mut scopes = Vec::new(alloc);
    'modules: for (i, module) in modules.iter().enumerate() {
        let scope = scope(alloc, hash, entries, module, i)?;
        scopes.push(scope)?;
    }
    Ok(scopes)
}

impl<'a> Directory<'a> {
    /// Returns the index of the entry of `name` in the module named `home`, or the number of
    /// entries if it has no meaning there.
    pub(crate) fn entry_index(&self, home: &'a [u8], name: &'a [u8]) -> usize
        ensures { result ≡ index_by self.now (record { home = home.now; name = name.now }) }
    {
        self.index_in(find(&self.homes, home), name)
    }

    /// Returns the index of the entry of `name` in the module at index `at`. Returns the number of
    /// entries if no such module exists, as for `None`, or `name` has no meaning in it.
    fn index_in(&self, at: Option<usize>, name: &'a [u8]) -> usize
        ensures { result ≡ index_at self.now at name.now }
    {
        let Some(i) = at else {
            return self.entries.len();
        };
        let Some(scope) = self.scopes.get(i) else {
            return self.entries.len();
        };
        match find(scope, name) {
            Some(index) => index,
            None => self.entries.len(),
        }
    }

    /// Returns whether the entry at `index` belongs to `name` in the module at index `home`.
    pub(crate) fn is_entry(&self, index: usize, home: usize, name: &[u8]) -> bool
        ensures { result ≡ is_entry_of (slice_get self.now.entries.items index) home name.now }
    {
        match self.entries.get(index) {
            Some(entry) => entry.source.0 == home && entry.name == name,
            None => false,
        }
    }

    /// Returns what [`Directory::entry_index`] does. `last` is the name that was looked up last;
    /// it makes the search faster, since successive look-ups are mostly in one module, and often
    /// of one name.
    fn cached_index(&self, home: &'a [u8], name: &'a [u8], last: &mut Option<Found<'a>>) -> usize
        requires { IsFound self.now last.old }
        ensures index { result ≡ index_by self.now (record { home = home.now; name = name.now }) }
        ensures last { IsFound self.now last.new }
    {
        let at = match last {
            Some(found) if found.home == home => {
                if found.name == name {
                    return found.index;
                }
                found.at
            }
            _ => find(&self.homes, home),
        };
        let index = self.index_in(at, name);
        *last = Some(Found {
            home,
            at,
            name,
            index,
        });
        index
    }

    /// Returns the index of the entry that `entry`, which is at `index`, refers to. Returns `None`
    /// if `entry` refers to no name, and the number of entries if it refers to a name without an
    /// entry. `last` is the name that was looked up last.
    fn next<M: References>(
        &self,
        index: usize,
        entry: &Entry<'a>,
        last: &mut Option<Found<'a>>,
    ) -> Option<usize>
        requires there { slice_get self.now.entries.items index ≡ Some entry.now }
        requires imports { KeepsImports self.now }
        requires last { IsFound self.now last.old }
        ensures to { result ≡ next_index self.now M.refers_to entry.now }
        ensures last { IsFound self.now last.new }
    {
        let home = entry.module.name.as_bytes();
        match entry.decider {
            Decider::Definition(def) => {
                let name = M::reference(def)?;
                Some(self.cached_index(home, name.as_bytes(), last))
            }
            // An import refers to the same entry for any meaning. `parents` has the index of that
            // entry, except while `parents` itself is computed.
            Decider::Import(import) => match self.parents.get(index) {
                Some(to) => *to,
                None => Some(self.cached_index(import.source.as_bytes(), entry.name, last)),
            },
            Decider::Root(_) => None,
        }
    }

    /// Returns for each entry the index of the entry that it refers to. This is `None` if the entry
    /// refers to no name, and the number of entries if it refers to a name without an entry. The
    /// first call, which computes `parents`, is made while `parents` is empty.
    pub(crate) fn next_indices<M: References>(
        &self,
        alloc: Global,
    ) -> Result<Vec<Option<usize>>, AllocError>
        requires { KeepsImports self.now }
        ensures { IfOk result (λ next.
            next.items ≡ map (next_index self.now M.refers_to) self.now.entries.items) }
    {
        let mut next = Vec::with_capacity(alloc, self.entries.len())?;
        let mut last = None;
        'entries: for (index, entry) in self.entries.iter().enumerate() {
            next.push(self.next::<M>(index, entry, &mut last))?;
        }
        Ok(next)
    }
}
