//! The names of modules, with what decides each and what it resolves to.
ghost use Rattle.std.specs.Prelude.{◌≡◌, IfOk, MatchOption, Some, is_some, option_map};
ghost use Rattle.std.specs.{List.slice_get, Option.option_and_then};
ghost use Rattle.smi_names.specs.{chains.Chain.nowhere, chains.Resolution.ComesTo};
ghost use Rattle.smi_names.specs.{meaning.Scopes.decision_of, meaning.Names.module_index};
ghost use Rattle.smi_names.specs.meaning.Meaning.{origin, module_named, decision, QualifiedName};

use crate::chains::{Resolution, Shared};
use crate::hash::NameHash;
use crate::indices::find;
use crate::meaning::directory::{Directory, homes, scopes};
use crate::meaning::entries::Entries;
use crate::meaning::entry::Decider;
use crate::meaning::parents::Parents;
use smi_text::Module;
use std::alloc::{AllocError, Global};
use std::marker::Model;

/// The names of modules: what decides the meaning of each, and what it resolves to.
///
/// Of two modules with the same name, the first is used.
#[derive(Drop)]
pub struct Names<'a> {
    modules: &'a [Module],
    directory: Directory<'a>,
    resolutions: Shared,
}

impl<'a> Model for Names<'a> {
    ghost use Rattle.indexmap.specs.IndexMap.{hasher_of};
    ghost use Rattle.smi_names.specs.chains.Resolution.{resolutions_at, AreWithin};
    ghost use Rattle.smi_names.specs.meaning.Directory.{HaveOneKey};
    ghost use Rattle.smi_names.specs.meaning.Names.{KeyedNames};
    ghost use Rattle.smi_names.specs.meaning.Resolved.{IsDirectory, known_names};
    ghost use Rattle.smi_names.specs.meaning.Parents.{AreResolved};

    ghost Value = { KeyedNames };

    ghost view = { λ s. record { modules = s.modules.now; key = hasher_of s.directory.homes } };

    ghost invariant = { λ s. AreWithin s.resolutions.list.items s.resolutions.indices.items
        × IsDirectory s.modules.now s.directory
        × AreResolved (known_names s.modules.now s.directory)
        (resolutions_at s.resolutions.list.items s.resolutions.indices.items)
        × HaveOneKey s.directory };
}

impl<'a> Names<'a> {
    /// Resolves the names of `modules`, each at most once. The maps that find the names hash them
    /// by `hash`.
    pub fn new(
        alloc: Global,
        hash: NameHash,
        modules: &'a [Module],
    ) -> Result<Names<'a>, AllocError>
        ensures modules { IfOk result (λ names. names.modules ≡ modules.now) }
        ensures key { IfOk result (λ names. names.key ≡ hash) }
    {
        let mut entries = Vec::new(alloc);
        let scopes = scopes(alloc, hash, &mut entries, modules)?;
        let mut directory = Directory {
            homes: homes(alloc, hash, modules)?,
            scopes,
            entries,
            parents: Vec::new(alloc),
        };
        directory.parents = directory.next_indices::<Parents>(alloc)?;
        let entries = Entries {
            modules,
            directory: &directory,
        };
        let resolutions = entries.resolutions(alloc)?;
        Ok(Names {
            modules,
            directory,
            resolutions,
        })
    }

    /// Returns how the maps that find the names hash them.
    pub fn key(&self) -> NameHash
        ensures { result ≡ self.now.key }
    {
        *self.directory.homes.hasher()
    }

    /// Returns what `name` resolves to in the module named `home`, or `None` if it has no meaning
    /// there.
    pub fn resolution(&self, home: &'a [u8], name: &'a [u8]) -> Option<&Resolution>
        // The module's own definition decides, otherwise an import, by what the name means in the
        // module after FROM, otherwise a root. A resolution is an identifier, or the reason why
        // the name has none.
        ensures { let qualified : QualifiedName = record { home = home.now; name = name.now } in
            MatchOption result (origin self.now.modules qualified ≡ nowhere)
            (λ resolution. ComesTo (origin self.now.modules) qualified resolution.now) }
    {
        let index = self.directory.entry_index(home, name);
        self.resolutions.get(index)
    }

    /// Returns what `name` resolves to in `module`, or `None` if it has no meaning there. `module`
    /// must be the first module of its name. `source` has the index of `module`, and the index of
    /// a definition in it, which should be the definition of `name`.
    ///
    /// `from` is a guess at the index of the module's first name. The names of its definitions
    /// follow one another from that index, unless one is defined twice. A wrong guess is replaced
    /// by another. What is returned doesn't depend on the guess.
    pub(crate) fn resolution_of(
        &self,
        source: (usize, usize),
        module: &'a Module,
        name: &'a [u8],
        from: &mut usize,
    ) -> Option<&Resolution>
        requires there { slice_get self.now.modules source.0 ≡ Some «module».now }
        requires first { module_named self.now.modules «module».now.name.octets
            ≡ Some «module».now }
        ensures { let qualified : QualifiedName
            = record { home = «module».now.name.octets; name = name.now } in
            MatchOption result (origin self.now.modules qualified ≡ nowhere)
            (λ resolution. ComesTo (origin self.now.modules) qualified resolution.now) }
    {
        let guess = from.saturating_add(source.1);
        if self.directory.is_entry(guess, source.0, name) {
            return self.resolutions.get(guess);
        }
        let index = self.directory.entry_index(module.name.as_bytes(), name);
        *from = index.saturating_sub(source.1);
        self.resolutions.get(index)
    }

    /// Returns a guess at the number of nodes: the number of resolutions stored.
    pub(crate) fn identifiers(&self) -> usize {
        self.resolutions.list.len()
    }

    /// Returns what decides the meaning of `name` in the module named `home`, if anything does.
    pub fn decider(&self, home: &'a [u8], name: &'a [u8]) -> Option<Decider<'a>>
        ensures { option_map decision_of result ≡ option_and_then (λ m. decision m name.now)
            (module_named self.now.modules home.now) }
    {
        let entries = self.entries();
        let entry = entries.get(entries.entry_index(home, name))?;
        Some(entry.decider)
    }

    /// Returns the names as [`Entries`]: each name has an index there.
    pub fn entries(&self) -> Entries<'_, 'a>
        ensures { result.modules ≡ self.now.modules }
    {
        Entries {
            modules: self.modules,
            directory: &self.directory,
        }
    }

    /// Returns the index of the first module named `name`, if one is loaded.
    pub fn module_index(&self, name: &'a [u8]) -> Option<usize>
        ensures { result ≡ module_index self.now.modules name.now }
    {
        find(&self.directory.homes, name)
    }

    /// Returns whether a module named `name` is loaded.
    pub fn is_loaded(&self, name: &'a [u8]) -> bool
        ensures { result ≡ is_some (module_named self.now.modules name.now) }
    {
        find(&self.directory.homes, name).is_some()
    }
}
