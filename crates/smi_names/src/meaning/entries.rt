//! The names of modules by their indices, what each means and what it resolves to.
ghost use Rattle.std.specs.Prelude.{◌≡◌, ℕ, Option, None, Some, length, option_map, IfOk};
ghost use Rattle.std.specs.{Prelude.MatchOption, List.slice_get, Option.option_and_then};
ghost use Rattle.smi_names.specs.{chains.Order.option_at, meaning.Names.IsSourced};
ghost use Rattle.smi_names.specs.chains.Resolution.{resolutions_at, far_at, resolution_by};
ghost use Rattle.smi_names.specs.chains.Resolution.{AreWithin};
ghost use Rattle.smi_names.specs.chains.Resolution.{HasReasons, GrowsTo};
ghost use Rattle.smi_names.specs.meaning.Along.{AreMeant, AreNext, IsNext, MeansAt};
ghost use Rattle.smi_names.specs.meaning.Parents.{origin_here, parent_of, AreResolved};
ghost use Rattle.smi_names.specs.meaning.Scopes.{content_of, content_named};
ghost use Rattle.smi_names.specs.declared.meaning.entry.Entry.{Entry};

use crate::chains::{
    CYCLE, Resolution, Shared, UNRESOLVED, push_extended, reasons, resolve_through,
    topological_order,
};
use crate::meaning::along::{Meaning, References};
use crate::meaning::directory::Directory;
use crate::meaning::entry::{Decider, Entry};
use crate::meaning::parents::by_parts;
use smi_text::Module;
use std::alloc::{AllocError, Global};
use std::marker::Model;

/// The names that have a meaning in modules, each with its index.
///
/// Of two modules with the same name, the first is used.
#[derive(Drop)]
pub struct Entries<'s, 'a> {
    pub(crate) modules: &'a [Module],
    pub(crate) directory: &'s Directory<'a>,
}

impl<'s, 'a> Model for Entries<'s, 'a> {
    ghost use Rattle.smi_names.specs.meaning.Scopes.{KnownNames};
    ghost use Rattle.smi_names.specs.meaning.Resolved.{IsDirectory, known_names};

    ghost Value = { KnownNames };

    ghost view = { λ s. known_names s.modules.now s.directory.now };

    ghost invariant = { λ s. IsDirectory s.modules.now s.directory.now };
}

impl<'s, 'a> Entries<'s, 'a> {
    /// Returns the number of names.
    pub fn len(&self) -> usize
        ensures { result ≡ length self.now.names }
    {
        self.directory.entries.len()
    }

    /// Returns the index of `name` in the module named `home`, or the number of names if it has no
    /// meaning there.
    pub fn entry_index(&self, home: &'a [u8], name: &'a [u8]) -> usize
        ensures { slice_get self.now.names result
            ≡ content_named self.now.modules (record { home = home.now; name = name.now }) }
    {
        self.directory.entry_index(home, name)
    }

    /// Returns the name at `index`, with what decides its meaning; `None` past the end.
    pub fn get(&self, index: usize) -> Option<Entry<'a>>
        ensures found { option_map content_of result ≡ slice_get self.now.names index }
        ensures source { (e : Entry) → result ≡ Some e → IsSourced self.now.modules e }
    {
        self.directory.entries.get(index).copied()
    }

    /// Returns what each name means: `None` for a root, for a definition that means nothing, for
    /// an import of a name that means nothing, and for a name whose chain has no end, as in a ring
    /// of imports. Finds the meaning of each name at most once, without recursion. Fails only if
    /// memory runs out.
    pub fn along<M: Meaning>(&self, alloc: Global) -> Result<Vec<Option<M>>, AllocError>
        ensures { IfOk result (λ found. AreMeant self.now M.refers_to M.means found.items) }
    {
        let next = self.next_indices::<M>(alloc)?;
        let order = topological_order(alloc, &next)?;
        let mut found = vec![in alloc; None; next.len()]?;
        'indices: for index in &order {
            let index = *index;
            found[index] = self.meaning_at::<M>(index, far_meaning(&found, next[index]));
        }
        Ok(found)
    }

    /// Returns for each name the index of the name that it refers to, if it refers to one. The
    /// index is the number of names if the other name has no meaning.
    fn next_indices<M: References>(&self, alloc: Global) -> Result<Vec<Option<usize>>, AllocError>
        ensures { IfOk result (λ next. AreNext self.now M.refers_to next.items) }
    {
        self.directory.next_indices::<M>(alloc)
    }

    /// Returns what the name at `index` means. `far` is the meaning of the name that this name
    /// refers to, or `None` if it refers to none.
    fn meaning_at<M: Meaning>(&self, index: usize, far: Option<M>) -> Option<M>
        ensures { let k = self.now in (to : Option ℕ) → IsNext k M.refers_to index to
            → MatchOption to (far ≡ None) (λ q. MeansAt k M.refers_to M.means q far)
            → MeansAt k M.refers_to M.means index result }
    {
        let Some(entry) = self.get(index) else {
            return None;
        };
        match entry.decider {
            Decider::Definition(def) => M::meaning(entry.source, def, far),
            Decider::Import(_) => far,
            Decider::Root(_) => None,
        }
    }

    /// Returns what each name resolves to.
    ///
    /// Resolves each name at most once, without recursion: chains may be of any length, and may be
    /// rings.
    pub(crate) fn resolutions(&self, alloc: Global) -> Result<Shared, AllocError>
        ensures within { IfOk result (λ s. AreWithin s.list.items s.indices.items) }
        ensures resolved { IfOk result (λ s.
            AreResolved self.now (resolutions_at s.list.items s.indices.items)) }
    {
        let next = self.parents();
        // Without names nothing is stored, and no memory is allocated.
        if next.is_empty() {
            return Ok(Shared {
                list: Vec::new(alloc),
                indices: Vec::new(alloc),
            });
        }
        let order = topological_order(alloc, next)?;
        let mut list = reasons(alloc, self.most())?;
        let mut indices = vec![in alloc; CYCLE; next.len()]?;
        'indices: for index in &order {
            let index = *index;
            indices[index] = self.resolve_entry(alloc, &mut list, &indices, index, next[index])?;
        }
        Ok(Shared { list, indices })
    }

    /// Returns for each name the index of its parent, if it has one: the name that its identifier
    /// value begins with, or, for an import, the same name in the module after FROM. The index is
    /// the number of names if the parent has no meaning.
    #[tactic(auto, using(crate::proofs::ReferenceChains::are_next))]
    fn parents(&self) -> &[Option<usize>]
        ensures { AreNext self.now parent_of result.now }
    {
        &self.directory.parents
    }

    /// Returns an upper bound of the number of identifiers in the list of resolutions: the number
    /// of names that a root, or a definition with an identifier value, decides.
    fn most(&self) -> usize {
        let mut count = 0_usize;
        'entries: for entry in &self.directory.entries {
            let is_new = match entry.decider {
                Decider::Definition(def) => def.identifier().is_some(),
                Decider::Import(_) => false,
                Decider::Root(_) => true,
            };
            if is_new {
                count = count.saturating_add(1);
            }
        }
        count
    }

    /// Returns the index in `list` of what the name at `index` resolves to; a new identifier is
    /// appended. `to` is the index of the name that this name refers to, and `indices[to]` is the
    /// index in `list` of what that other name resolves to. `to` is `None` if the name at `index`
    /// refers to none, and the number of names if it refers to a name without a meaning.
    fn resolve_entry(
        &self,
        alloc: Global,
        list: &mut Vec<Resolution>,
        indices: &[usize],
        index: usize,
        to: Option<usize>,
    ) -> Result<usize, AllocError>
        requires reasons { HasReasons list.old.items }
        requires within { AreWithin list.old.items indices.now }
        ensures grown { IfOk result (λ at. GrowsTo list.old.items list.new.items at
            (resolution_by (origin_here (slice_get self.now.names index))
            (far_at (resolutions_at list.old.items indices.now) to))) }
    {
        let Some(entry) = self.get(index) else {
            return Ok(UNRESOLVED);
        };
        match entry.decider {
            Decider::Definition(def) => match def.identifier() {
                Some(parts) => by_parts(alloc, list, indices, to, parts.as_slice()),
                None => Ok(UNRESOLVED),
            },
            Decider::Import(_) => resolve_through(alloc, list, indices, to, &[]),
            Decider::Root(number) => push_extended(alloc, list, &[number]),
        }
    }
}

/// Returns what `found` has at index `to`; `None` if `to` is `None` or past the end.
fn far_meaning<T: Copy>(found: &[Option<T>], to: Option<usize>) -> Option<T>
    ensures { result ≡ option_and_then (λ p. option_at found.now p) to }
{
    *found.get(to?)?
}
