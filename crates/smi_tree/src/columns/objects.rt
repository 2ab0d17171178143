//! The parts of INDEX clauses, from the objects that they name, and the clause that each column
//! uses.
ghost use Rattle.std.specs.Prelude.{◌≡◌, ◌<◌, ◌↔◌, ℕ, List, length, IsTrue, IfOk, MatchOption};
ghost use Rattle.std.specs.Prelude.{Some, slice_get};
ghost use Rattle.std.specs.Option.{option_copied};
ghost use Rattle.smi_names.specs.nodes.Nodes.{Node};
ghost use Rattle.smi_names.specs.nodes.Gathered.{node_from, nodes_of};
ghost use Rattle.smi_names.specs.chains.Resolution.{ComesTo};
ghost use Rattle.smi_names.specs.meaning.Meaning.{origin, QualifiedName};
ghost use Rattle.smi_tree.specs.types.Kept.{AreTypesOf};
ghost use Rattle.smi_tree.specs.columns.Index.{IsIndexPart, IsObjectType, clause_of};
ghost use Rattle.smi_tree.specs.private.Named.{IsFoundAt, IsUndefined};
ghost use Rattle.smi_tree.specs.columns.Index.{is_implied};
ghost use Rattle.smi_tree.specs.columns.Kept.{AreOwn, AreOwnOfAll, AreRows, HasNoPart};
ghost use Rattle.smi_tree.specs.columns.Kept.{HasRowOrNone, IsLastRow, IsOwn, IsReading, UsesAt};
ghost use Rattle.smi_tree.specs.columns.Kept.{UsesNone, items_of};

use crate::branches::Identifiers;
use crate::columns::IndexPart;
use crate::columns::part::part;
use crate::columns::rows::{LastRow, row_index};
use crate::node::{copy_at, definition};
use crate::types::Types;
use smi_names::{Entries, Names, Resolution, Source, one_resolution};
use smi_text::{Def, DefKind, Index, IndexParts, Module, Name};
use std::alloc::{AllocError, Global};
use std::marker::Model;

/// What is needed to read INDEX and AUGMENTS clauses.
#[derive(Drop)]
pub(crate) struct Objects<'n, 'a> {
    /// The loaded modules.
    modules: &'a [Module],
    /// The names, each with its index.
    entries: Entries<'n, 'a>,
    /// For each name, the definition that it refers to, if there is one: the index of the module,
    /// and the index of the definition in it.
    found: Vec<Option<(usize, usize)>>,
    /// What names resolve to.
    names: &'n Names<'a>,
    /// The syntaxes of objects.
    types: &'n Types,
}

impl<'n, 'a> Model for Objects<'n, 'a> {
    ghost use Rattle.std.specs.Prelude.{List, ◌≡◌};
    ghost use Rattle.smi_text.specs.declared.trees.tree.Module.{Module};
    ghost use Rattle.smi_names.specs.meaning.Along.{AreMeant, refers_to_nothing, source_as_meaning};
    ghost use Rattle.smi_tree.specs.types.Kept.{AreTypesOf};

    ghost Value = { List Module };

    ghost view = { λ s. s.modules.now };

    ghost invariant = { λ s. (s.entries.modules ≡ s.modules.now)
        × (s.names.now.modules ≡ s.modules.now) × AreTypesOf s.modules.now s.types.now
        × AreMeant s.entries refers_to_nothing source_as_meaning s.found.items };
}

/// Returns the INDEX or AUGMENTS clause of a definition, if it has one.
fn clause(def: &Def) -> Option<&Index>
    ensures { option_copied result ≡ clause_of def.now.kind }
{
    match &def.kind {
        DefKind::ObjectType(object) => object.index.as_ref(),
        _ => None,
    }
}

/// Returns whether a definition is an OBJECT-TYPE.
fn is_object_type(def: &Def) -> bool
    ensures { IsTrue result ↔ IsObjectType (Some def.now) }
{
    matches!(&def.kind, DefKind::ObjectType(_))
}

/// Returns whether `resolution` is an identifier.
fn is_identifier(resolution: &Resolution) -> bool
    ensures { IsTrue result ↔ ((oid : List ℕ) × (resolution.now ≡ Resolution.Numbers oid)) }
{
    matches!(resolution, Resolution::Numbers(_))
}

/// Returns whether IMPLIED precedes the name at index `position` of an INDEX clause. Only the last
/// name can have it.
fn is_implied(clause: &IndexParts, position: usize) -> bool
    requires { position < length clause.now.names }
    ensures { result ≡ is_implied clause.now position }
{
    let names = clause.names.len();
    clause.implied && position + 1 == names
}

impl<'n, 'a> Objects<'n, 'a> {
    /// Finds the definition that each name of `modules` refers to. `names` and `types` must belong
    /// to `modules`.
    pub(crate) fn new(
        alloc: Global,
        names: &'n Names<'a>,
        modules: &'a [Module],
        types: &'n Types,
    ) -> Result<Objects<'n, 'a>, AllocError>
        requires named { names.now.modules ≡ modules.now }
        requires typed { AreTypesOf modules.now types.now }
        ensures { IfOk result (λ objects. objects ≡ modules.now) }
    {
        let entries = names.entries();
        let found = entries.along(alloc)?;
        Ok(Objects {
            modules,
            entries,
            found,
            names,
            types,
        })
    }

    /// Returns the definition that `name` refers to in the module named `home`, with imports
    /// followed, if there is one: the index of its module, and its index in the module.
    fn find(&self, home: &'a [u8], name: &'a [u8]) -> Option<(usize, usize)>
        ensures { let qualified : QualifiedName = record { home = home.now; name = name.now } in
            MatchOption result (IsUndefined self.now qualified)
            (λ at. IsFoundAt self.now qualified at.0 at.1) }
    {
        copy_at(&self.found, self.entries.entry_index(home, name))
    }

    /// Returns whether `name` resolves to an identifier in the module named `home`.
    fn has_identifier(&self, home: &'a [u8], name: &'a [u8]) -> bool
        ensures { let qualified : QualifiedName = record { home = home.now; name = name.now } in
            IsTrue result ↔ ((oid : List ℕ)
            × ComesTo (origin self.now) qualified (Resolution.Numbers oid)) }
    {
        one_resolution();
        match self.names.resolution(home, name) {
            Some(resolution) => is_identifier(resolution),
            None => false,
        }
    }

    /// Returns the part for `name` in an INDEX clause of the module `home`. `implied` says whether
    /// IMPLIED precedes the name. Returns `None` if the name has no identifier, or isn't the name
    /// of an object whose type an index can have.
    fn part(&self, home: &'a Module, name: &'a Name, implied: bool) -> Option<IndexPart>
        ensures { let ms = self.now in
            MatchOption result (HasNoPart ms home.now name.now.octets implied)
            (λ part. IsIndexPart ms home.now name.now.octets implied part) }
    {
        let home = home.name.as_bytes();
        let name = name.as_bytes();
        if !self.has_identifier(home, name) {
            return None;
        }
        let (module, def) = self.find(home, name)?;
        let syntax = self.types.syntax(self.modules, module, def)?;
        part(syntax.base, syntax.sizes, implied)
    }

    /// Returns the parts of an INDEX clause of the module `home`, or `None` if a name in it has no
    /// part.
    fn parts(
        &self,
        alloc: Global,
        home: &'a Module,
        clause: &'a IndexParts,
    ) -> Result<Option<Vec<IndexPart>>, AllocError>
        ensures { IfOk result (λ parts.
            IsReading self.now home.now clause.now (items_of parts)) }
    {
        let names = clause.names.as_slice();
        let mut parts = Vec::with_capacity(alloc, names.len())?;
        'names: for (i, name) in names.iter().enumerate() {
            let Some(part) = self.part(home, name, is_implied(clause, i)) else {
                return Ok(None);
            };
            parts.push(part)?;
        }
        Ok(Some(parts))
    }

    /// Returns the parts of the INDEX clause of `def`, or `None` if `def` has no INDEX clause or
    /// the clause can't be read.
    fn own_parts(
        &self,
        alloc: Global,
        home: &'a Module,
        def: &'a Def,
    ) -> Result<Option<Vec<IndexPart>>, AllocError>
        ensures { IfOk result (λ parts.
            IsOwn self.now home.now def.now (items_of parts)) }
    {
        match clause(def) {
            Some(Index::Own(clause)) => self.parts(alloc, home, clause),
            Some(Index::Augments(_)) | None => Ok(None),
        }
    }

    /// Returns, for each definition of the module `home`, the parts of its INDEX clause, if it has
    /// one that can be read.
    fn parts_of_module(
        &self,
        alloc: Global,
        home: &'a Module,
    ) -> Result<Vec<Option<Vec<IndexPart>>>, AllocError>
        ensures { IfOk result (λ kept.
            AreOwn self.now home.now kept.items) }
    {
        let defs = home.defs.as_slice();
        let mut kept = Vec::with_capacity(alloc, defs.len())?;
        'defs: for def in defs {
            kept.push(self.own_parts(alloc, home, def)?)?;
        }
        Ok(kept)
    }

    /// Returns, for each definition of each module, the parts of its INDEX clause, if it has one
    /// that can be read.
    pub(crate) fn parts_of_modules(
        &self,
        alloc: Global,
    ) -> Result<Vec<Vec<Option<Vec<IndexPart>>>>, AllocError>
        ensures { IfOk result (λ kept.
            AreOwnOfAll self.now kept.items) }
    {
        let mut kept = Vec::with_capacity(alloc, self.modules.len())?;
        'modules: for home in self.modules {
            kept.push(self.parts_of_module(alloc, home)?)?;
        }
        Ok(kept)
    }

    /// Returns the definition whose INDEX clause, if it has one, identifies the rows of `source`:
    /// the definition of `source`, if that has an INDEX clause, or the definition that its
    /// AUGMENTS clause names, if there is one. The result is the index of the definition's module,
    /// and the definition's index in the module.
    fn index_clause_of(&self, source: Source) -> Option<(usize, usize)>
        ensures { let ms = self.now in MatchOption result
            ((o : List ℕ) → UsesNone ms (node_from ms source o))
            (λ at. (o : List ℕ) → UsesAt ms (node_from ms source o) at.0 at.1) }
    {
        let Source::Definition(i, k) = source else {
            return None;
        };
        let module = self.modules.get(i)?;
        let def = module.defs.as_slice().get(k)?;
        match clause(def)? {
            Index::Own(_) => Some((i, k)),
            Index::Augments(name) => self.find(module.name.as_bytes(), name.as_bytes()),
        }
    }

    /// Returns the definition whose INDEX clause, if it has one, identifies the rows of the node
    /// `id`. Returns `None` if the node isn't a column or there is no such definition. `last` is
    /// the row that was looked up last.
    fn row<'i>(
        &self,
        sources: &[Source],
        identifiers: &'i Identifiers,
        id: usize,
        last: &mut Option<LastRow<'i>>,
    ) -> Option<(usize, usize)>
        requires long { length sources.now ≡ length identifiers.now }
        requires within { id < length sources.now }
        requires last { IsLastRow identifiers.now last.old }
        ensures row { let ms = self.now in
            let nodes = nodes_of ms sources.now identifiers.now in
            (node : Node) → slice_get nodes id ≡ Some node → HasRowOrNone ms nodes node result }
        ensures last { IsLastRow identifiers.now last.new }
    {
        let def = definition(self.modules, sources[id])?;
        if !is_object_type(def) {
            return None;
        }
        let row = row_index(identifiers, id, last)?;
        let source = sources.get(row)?;
        self.index_clause_of(*source)
    }

    /// Returns, for each node, the definition whose INDEX clause, if it has one, identifies its
    /// rows, or `None` if the node isn't a column or there is no such definition.
    pub(crate) fn rows(
        &self,
        alloc: Global,
        sources: &[Source],
        identifiers: &Identifiers,
    ) -> Result<Vec<Option<(usize, usize)>>, AllocError>
        requires { length sources.now ≡ length identifiers.now }
        ensures { let ms = self.now in IfOk result (λ rows.
            AreRows ms (nodes_of ms sources.now identifiers.now) rows.items) }
    {
        let mut rows = Vec::with_capacity(alloc, sources.len())?;
        let mut last = None;
        'indices: for id in 0..sources.len() {
            rows.push(self.row(sources, identifiers, id, &mut last))?;
        }
        Ok(rows)
    }
}
