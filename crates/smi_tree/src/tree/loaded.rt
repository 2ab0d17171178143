//! Trees as they are loaded: what modules define is resolved, and maps from their names to indices
//! are made.
ghost use Rattle.std.specs.Prelude.{◌≡◌, IfOk};
ghost use Rattle.smi_tree.specs.private.Resolved.{IsResolved};

use crate::branches::Identifiers;
use crate::columns::Indexes;
use crate::indices::{Indices, LabelIndices};
use crate::tree::Tree;
use crate::types::Types;
use smi_names::{NameHash, Names, Source, Warning, gather_nodes};
use smi_text::Module;
use std::alloc::{AllocError, Global};
use std::marker::Model;

/// The roots and the nodes that modules define, with their identifiers, syntaxes and indexes, and
/// the warnings.
#[derive(Drop)]
pub(super) struct Resolved {
    /// What each node comes from: a root or a definition.
    pub(super) sources: Vec<Source>,
    /// The identifier of each node.
    identifiers: Identifiers,
    /// The syntaxes of objects.
    types: Types,
    /// The indexes of columns.
    indexes: Indexes,
    /// The warnings, in order of loading.
    warnings: Vec<Warning>,
    /// The hash that the maps of names use.
    key: NameHash,
}

/// Finds the roots and the nodes that `modules` define. The maps of names use the hash `hash`.
pub(super) fn resolve(
    alloc: Global,
    hash: NameHash,
    modules: &[Module],
) -> Result<Resolved, AllocError>
    ensures resolved { IfOk result (λ resolved. IsResolved modules.now resolved) }
    ensures hashed { IfOk result (λ resolved. resolved.key ≡ hash) }
{
    let names = Names::new(alloc, hash, modules)?;
    resolve_by(alloc, &names, modules)
}

/// Does what [`resolve`] does. `names` are the names of `modules`.
fn resolve_by<'a>(
    alloc: Global,
    names: &Names<'a>,
    modules: &'a [Module],
) -> Result<Resolved, AllocError>
    requires { names.now.modules ≡ modules.now }
    ensures resolved { IfOk result (λ resolved. IsResolved modules.now resolved) }
    ensures hashed { IfOk result (λ resolved. resolved.key ≡ names.now.key) }
{
    let types = Types::new(alloc, names, modules)?;
    let gathered = gather_nodes(alloc, names, modules)?;
    let identifiers = Identifiers::new(alloc, gathered.oids)?;
    let sources = gathered.sources;
    let indexes = Indexes::new(alloc, names, modules, &types, &sources, &identifiers)?;
    Ok(Resolved {
        sources,
        identifiers,
        types,
        indexes,
        warnings: gathered.warnings,
        key: names.key(),
    })
}

/// A tree as it was loaded, with its warnings and with the key of its maps of names.
///
/// [`Tree::load_with_key`] returns it, and [`Loaded::into_parts`] takes it apart.
pub struct Loaded {
    pub(super) modules: Vec<Module>,
    pub(super) resolved: Resolved,
    /// For each module name, the index of the first module with that name.
    pub(super) homes: Indices,
    /// For each label, the indices of the nodes with it.
    pub(super) indices: LabelIndices,
}

impl Model for Loaded {
    ghost use Rattle.smi_tree.specs.Tree.{Load};

    ghost Value = { Load };

    ghost use Rattle.smi_tree.specs.Kept.{load_kept, IsLoadKept};

    ghost view = { λ s. load_kept s.modules.items s.resolved };

    ghost invariant = { λ s. IsLoadKept s.modules.items s.resolved s.homes s.indices };
}

impl Drop for Loaded {
    // Written out for the reason that the drop of [`Tree`] is.
    fn drop(self) {
        let Loaded {
            modules: _modules,
            resolved: _resolved,
            homes: _homes,
            indices: _indices,
        } = self;
    }
}

impl Loaded {
    /// Returns the tree, and the warnings in order of loading.
    pub fn into_parts(self) -> (Tree, Vec<Warning>)
        ensures tree { result.0 ≡ self.tree }
        ensures warnings { result.1.items ≡ self.warnings }
    {
        let Loaded {
            modules,
            resolved,
            homes,
            indices,
        } = self;
        let tree = Tree {
            modules,
            sources: resolved.sources,
            identifiers: resolved.identifiers,
            homes,
            labels: indices.labels,
            others: indices.others,
            previous: indices.previous,
            types: resolved.types,
            indexes: resolved.indexes,
        };
        (tree, resolved.warnings)
    }
}
