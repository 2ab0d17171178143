//! The index of each node, as it is stored.
ghost use Rattle.std.specs.Prelude.{◌≡◌, length, IfOk, option_map};
ghost use Rattle.smi_tree.specs.types.Kept.{AreTypesOf};
ghost use Rattle.smi_names.specs.nodes.Gathered.{nodes_of};
ghost use Rattle.smi_tree.specs.columns.Index.{AreIndexesOf, index_at};

use crate::branches::Identifiers;
use crate::columns::IndexPart;
use crate::columns::objects::Objects;
use crate::types::Types;
use smi_names::{Names, Source};
use smi_text::Module;
use std::alloc::{AllocError, Global};
use std::marker::Model;

/// The indexes of columns: what the numbers after a column's identifier encode (RFC 2578, sections
/// 7.7 and 7.8).
///
/// The parts of an INDEX clause are stored once, however many columns use it.
#[derive(Drop)]
pub struct Indexes {
    /// For each definition of each module, the parts of its INDEX clause, if it has one that can
    /// be read.
    parts: Vec<Vec<Option<Vec<IndexPart>>>>,
    /// For each node, the definition whose INDEX clause, if it has one, identifies its rows: the
    /// index of the module, and the index of the definition in it. `None` if the node isn't a
    /// column or there is no such definition.
    rows: Vec<Option<(usize, usize)>>,
}

impl Model for Indexes {
    ghost use Rattle.std.specs.Prelude.{List, Option};
    ghost use Rattle.smi_tree.specs.declared.columns.index_part.IndexPart.{IndexPart};
    ghost use Rattle.smi_tree.specs.columns.Kept.{indexes_of};

    ghost Value = { List (Option (List IndexPart)) };

    ghost view = { λ s. indexes_of s.parts.items s.rows.items };
}

impl Indexes {
    /// Returns the index of each node of `modules`. `sources` and `identifiers` belong to the
    /// nodes, in order.
    #[tactic(auto, using(crate::proofs::IndexesOfNodes::are_indexes))]
    pub fn new<'a>(
        alloc: Global,
        names: &Names<'a>,
        modules: &'a [Module],
        types: &Types,
        sources: &[Source],
        identifiers: &Identifiers,
    ) -> Result<Indexes, AllocError>
        // Names and types belong to these modules, and each source has an identifier.
        requires named { names.now.modules ≡ modules.now }
        requires typed { AreTypesOf modules.now types.now }
        requires long { length sources.now ≡ length identifiers.now }
        ensures { IfOk result (λ indexes. AreIndexesOf modules.now
            (nodes_of modules.now sources.now identifiers.now) indexes) }
    {
        let objects = Objects::new(alloc, names, modules, types)?;
        let parts = objects.parts_of_modules(alloc)?;
        let rows = objects.rows(alloc, sources, identifiers)?;
        Ok(Indexes { parts, rows })
    }

    /// Returns the parts of the index of the node `id`, or `None` if it isn't a column or its
    /// index can't be read.
    pub fn get(&self, id: usize) -> Option<&[IndexPart]>
        ensures { option_map (λ r. r.now) result ≡ index_at self.now id }
    {
        let (i, k) = (*self.rows.get(id)?)?;
        let parts = self.parts.get(i)?.get(k)?.as_ref()?;
        Some(parts.as_slice())
    }
}
