//! The tree of names, and look-ups in it.
ghost use Rattle.std.specs.Prelude.{◌≡◌, ◌<◌, ℕ, List, length, drop, Some, None, IfOk};
ghost use Rattle.std.specs.Prelude.{MatchOption, IfSome, option_map, slice_index_or};
ghost use Rattle.std.specs.{Option.option_and_then, Option.option_copied, List.slice_get};
ghost use Rattle.smi_names.specs.declared.nodes.warning.Warning.{Warning};
ghost use Rattle.smi_tree.specs.branches.Children.{ids_left};
ghost use Rattle.smi_tree.specs.branches.FirstIndex.{AreChildren, HasNoBeginning, HasNoneBelow};
ghost use Rattle.smi_tree.specs.branches.FirstIndex.{IsDeepestAt, oid_at};
ghost use Rattle.smi_tree.specs.{Found.IsFound, Found.IsFoundBelow, Tree.IsTree, Tree.seen_node};
ghost use Rattle.smi_tree.specs.Naming.{IsSound, is_module_loaded, nearest_definition};
ghost use Rattle.smi_tree.specs.Naming.{nearest_node, nearest_syntax, oid_anywhere, oid_in_module};
ghost use Rattle.smi_tree.specs.Naming.{oid_of, oid_of_child, oid_of_root, view_of};
ghost use Rattle.smi_tree.specs.Naming.{view_of_longest};
ghost use Rattle.smi_tree.specs.{Indices.IsPrevious, Nodes.IsFirstChild, Nodes.oids_of};
ghost use Rattle.smi_tree.specs.Nodes.{index_anywhere, index_in_module, labels_of};
ghost use Rattle.smi_tree.specs.LongestPrefix.{depth_of, longest, longest_of};
ghost use Rattle.smi_tree.specs.{types.Kept.facts_of, Shown.shown_at, Shown.units_at};

mod loaded;

use crate::branches::{Children, Deepest, Identifiers};
use crate::columns::{IndexPart, Indexes};
use crate::indices::{Indices, Others, find, homes, labels};
use crate::nearest::{Found, Near, NearestNode, home_name, root_index};
use crate::node::{Node, definition, home, is_in_module, label};
use crate::shown::{source_syntax, syntax, units_of};
use crate::syntax::TypeSyntax;
use crate::types::Types;
pub use loaded::Loaded;
use loaded::resolve;
use smi_names::{NameHash, Source, Warning, one_identifier};
use smi_text::{Def, Module, Text};
use smi_value::ValueSyntax;
use snmp_oid::{Oid, StoredOid};
use std::alloc::{AllocError, Global};
use std::marker::Model;

/// The index of a node in order of loading, the roots first. Each index that a tree returns is
/// below its `len()`.
pub type NodeId = usize;

/// A tree of names: the nodes of the roots `ccitt`, `iso` and `joint-iso-ccitt`, followed by the
/// nodes that modules define (RFC 2578, sections 3.5 and 3.6).
///
/// If several nodes have the same identifier, the first in order of loading represents it. Only
/// the calls that load a tree allocate.
pub struct Tree {
    modules: Vec<Module>,
    /// What each node comes from: a root or a definition.
    sources: Vec<Source>,
    /// The identifier of each node.
    identifiers: Identifiers,
    /// For each module name, the index of the first module with that name.
    homes: Indices,
    /// For each label, the index of the first node with that label.
    labels: Indices,
    /// For each label, and each module other than the module of the label's first node: the index
    /// of the first node with that label in that module, if there is one.
    others: Others,
    /// For each node, the last one before it with the same label. For a label's first node, the
    /// last one with this label.
    previous: Vec<NodeId>,
    /// The syntaxes of objects.
    types: Types,
    /// The indexes of columns: what the numbers after a column's identifier encode (INDEX or
    /// AUGMENTS).
    indexes: Indexes,
}

impl Model for Tree {
    ghost use Rattle.smi_tree.specs.Tree.{Contents};
    ghost use Rattle.smi_tree.specs.Kept.{contents, IsTreeKept};

    ghost Value = { Contents };

    ghost view = { λ s.
        contents s.modules.items s.sources.items s.identifiers s.types s.indexes };

    ghost invariant = { λ s.
        IsTreeKept s.modules.items s.sources.items s.identifiers s.types s.indexes s.homes s.labels
        s.others s.previous.items };
}

impl Drop for Tree {
    // Written out, so that it is proved only here. A derived drop would be proved again in each
    // crate that uses this one, with the drops of `Module` and of all types in it.
    fn drop(self) {
        let Tree {
            modules: _modules,
            sources: _sources,
            identifiers: _identifiers,
            homes: _homes,
            labels: _labels,
            others: _others,
            previous: _previous,
            types: _types,
            indexes: _indexes,
        } = self;
    }
}

impl Tree {
    /// Returns the tree of `modules`, and the warnings about them in order of loading. This is
    /// what [`Tree::load_with_key`] loads with the fixed key.
    ///
    /// Names may refer to later definitions, in the same module or in another. A module with the
    /// name of an earlier one is left out.
    pub fn load(alloc: Global, modules: Vec<Module>) -> Result<(Tree, Vec<Warning>), AllocError>
        ensures { IfOk result (λ loaded. IsTree modules.items loaded.0 loaded.1.items) }
    {
        Ok(Tree::load_with_key(alloc, NameHash::Fixed, modules)?.into_parts())
    }

    /// Loads the tree of `modules`, as [`Tree::load`] does, with this key: each map of names that
    /// the load makes has it. Someone who doesn't know the key can't choose names that all have
    /// the same hash.
    pub fn load_with_key(
        alloc: Global,
        key: NameHash,
        modules: Vec<Module>,
    ) -> Result<Loaded, AllocError>
        ensures tree { IfOk result (λ loaded. IsTree modules.items loaded.tree loaded.warnings) }
        ensures key { IfOk result (λ loaded. loaded.key ≡ key) }
    {
        let resolved = resolve(alloc, key, &modules)?;
        let homes = homes(alloc, key, &modules)?;
        let indices = labels(alloc, key, &modules, &homes, &resolved.sources)?;
        Ok(Loaded {
            modules,
            resolved,
            homes,
            indices,
        })
    }

    /// Returns the number of nodes, the roots included.
    #[tactic(auto, using(crate::proofs::Sources::length_nodes))]
    pub fn len(&self) -> usize
        ensures { result ≡ length self.now.nodes }
    {
        self.sources.len()
    }

    /// Returns the node `id`, which must be below `len()`.
    pub fn node(&self, id: NodeId) -> Node<'_>
        requires { id < length self.now.nodes }
        ensures { slice_get self.now.nodes id ≡ Some (seen_node result) }
    {
        let source = self.sources[id];
        Node {
            home: home(&self.modules, source),
            label: label(&self.modules, source),
            oid: self.identifiers.get(id),
            definition: definition(&self.modules, source),
        }
    }

    /// Returns whether a module of this name is loaded.
    #[tactic(auto, using(crate::proofs::Sources::is_some_find), unfolding(crate::specs::Naming::is_module_loaded))]
    pub fn has_module(&self, name: &[u8]) -> bool
        ensures { result ≡ is_module_loaded self.now name.now }
    {
        find(&self.homes, name).is_some()
    }

    /// Returns the first node with this label in the module named `home`.
    pub fn find(&self, home: &[u8], label: &[u8]) -> Option<NodeId>
        ensures { result ≡ index_in_module self.now.nodes home.now label.now }
    {
        let first = self.find_any(label)?;
        // Most labels are defined in only one module.
        if is_in_module(&self.modules, self.sources[first], home) {
            return Some(first);
        }
        let home = find(&self.homes, home)?;
        self.others.get(&(home, first)).copied()
    }

    /// Returns the first node with this label, the roots before all others.
    #[tactic(auto, using(crate::proofs::Sources::anywhere_sources))]
    pub fn find_any(&self, label: &[u8]) -> Option<NodeId>
        ensures { result ≡ index_anywhere self.now.nodes label.now }
    {
        find(&self.labels, label)
    }

    /// Returns the node of the longest prefix of `oid` that has a node, and the numbers of `oid`
    /// after that prefix: all of them if no prefix has a node. `oid` itself counts as a prefix.
    pub fn deepest<'o>(&self, oid: &'o Oid) -> (Option<NodeId>, &'o [u32])
        ensures deepest { let oids = oids_of self.now.nodes in MatchOption result.0
            (HasNoBeginning oids oid.now × (result.1.now ≡ oid.now))
            (λ id. (depth : ℕ) × IsDeepestAt oids oid.now id depth
            × (result.1.now ≡ drop depth oid.now)) }
        ensures longest { let at = longest self.now.nodes oid.now in
            (result.0 ≡ option_map (λ l. l.id) at)
            × (result.1.now ≡ drop (depth_of at) oid.now) }
    {
        match self.deepest_near(oid, &mut Near::new()) {
            Some(deepest) => (Some(deepest.id), &oid.as_slice()[deepest.depth..]),
            None => (None, oid.as_slice()),
        }
    }

    /// Returns an iterator over the nodes whose identifiers have `oid` as a prefix and are one
    /// number longer, in increasing order of that number. If several have the same identifier, it
    /// returns the first.
    pub fn children(&self, oid: &Oid) -> Children<'_>
        ensures { AreChildren (oids_of self.now.nodes) oid.now (ids_left result) }
    {
        self.oids().children(oid)
    }

    /// Returns the first of the children of `oid` that has this label. Visits each node with this
    /// label, and not each child.
    #[tactic(auto, using(crate::proofs::Childhood::no_child, crate::proofs::Childhood::within, crate::proofs::Childhood::search_falls, crate::proofs::Childhood::search_ends))]
    pub fn child(&self, oid: &Oid, label: &[u8]) -> Option<NodeId>
        ensures { IsFirstChild self.now.nodes oid.now label.now result }
    {
        let first = self.find_any(label)?;
        // From the last node with the label to the first.
        let mut id = self.previous_of(first);
        let mut child = self.oids().lower_child(oid, None, id);
        'nodes: while id != first {
            id = self.previous_of(id);
            child = self.oids().lower_child(oid, child, id);
        }
        Some(child?.1)
    }

    /// Returns the syntax of a node's object: what its chain of types defines. The chain is the
    /// type in its SYNTAX, the type that this one refines, and so on. Returns `None` if there is
    /// no node `id`, if it isn't an object, or if that chain is broken, has no end, or ends at
    /// something other than a type of values (RFC 2578, sections 7.1 and 9).
    pub fn syntax_of(&self, id: NodeId) -> Option<TypeSyntax<'_>>
        ensures { option_map facts_of result ≡ slice_index_or self.now.syntaxes id None }
    {
        let source = self.sources.get(id)?;
        syntax(&self.types, &self.modules, *source)
    }

    /// Returns the parts of the index of a node. Returns `None` if there is no node `id`, if it
    /// isn't a column, or if its index can't be read (RFC 2578, sections 7.7 and 7.8).
    pub fn index_of(&self, id: NodeId) -> Option<&[IndexPart]>
        ensures { option_map (λ parts. parts.now) result
            ≡ slice_index_or self.now.indexes id None }
    {
        self.indexes.get(id)
    }
}

// Look-ups for reading names, and for showing names, values and details.
impl Tree {
    /// Returns the identifier of the first node with this label in the module named `home`.
    #[tactic(auto, unfolding(crate::specs::Naming::oid_in_module))]
    pub fn in_module(&self, home: &[u8], label: &[u8]) -> Option<&StoredOid>
        ensures { option_copied result ≡ oid_in_module self.now home.now label.now }
    {
        self.oid_of(self.find(home, label))
    }

    /// Returns the identifier of the first node with this label, the roots before all others.
    #[tactic(auto, unfolding(crate::specs::Naming::oid_anywhere))]
    pub fn anywhere(&self, label: &[u8]) -> Option<&StoredOid>
        ensures { option_copied result ≡ oid_anywhere self.now label.now }
    {
        self.oid_of(self.find_any(label))
    }

    /// Returns the identifier of the root with this label.
    #[tactic(auto, using(crate::proofs::SoundNames::roots_first), unfolding(crate::specs::Naming::oid_of_root))]
    pub fn among_roots(&self, label: &[u8]) -> Option<&StoredOid>
        ensures { option_copied result ≡ oid_of_root label.now }
    {
        self.is_tree();
        self.oid_of(root_index(label))
    }

    /// Returns the identifier of the first child of `oid` with this label.
    #[tactic(auto, using(crate::proofs::Childhood::child_is), unfolding(crate::specs::Naming::oid_of_child))]
    pub fn child_oid(&self, oid: &Oid, label: &[u8]) -> Option<&StoredOid>
        ensures { option_copied result ≡ oid_of_child self.now oid.now label.now }
    {
        self.oid_of(self.child(oid, label))
    }

    /// Returns the node of the longest prefix of `oid` that has a node, if any prefix has one.
    pub fn nearest(&self, oid: &Oid) -> Option<NearestNode<'_>>
        ensures { option_map view_of result ≡ nearest_node self.now oid.now }
    {
        self.nearest_from(oid, &mut Near::new())
    }

    /// Returns what [`Tree::nearest`] returns, faster if `oid` is below the node that was found
    /// last: the search then begins at that node, which `near` stores.
    #[tactic(auto, unfolding(crate::specs::Naming::nearest_node))]
    pub fn nearest_from(&self, oid: &Oid, near: &mut Near) -> Option<NearestNode<'_>>
        ensures { option_map view_of result ≡ nearest_node self.now oid.now }
    {
        let deepest = self.deepest_near(oid, near)?;
        self.seen(deepest)
    }

    /// Returns the definition of the node of the longest prefix of `oid` that has a node. Returns
    /// `None` if there is no such node, or if it is a built-in root.
    #[tactic(auto, unfolding(crate::specs::Naming::nearest_definition))]
    pub fn nearest_definition(&self, oid: &Oid) -> Option<&Def>
        ensures { option_copied result ≡ nearest_definition self.now oid.now }
    {
        let deepest = self.deepest_near(oid, &mut Near::new())?;
        self.definition_of(deepest.id)
    }

    /// Returns the syntax, for showing values, of the node of the longest prefix of `oid` that has
    /// a node. Returns `None` if there is no such node, or if it isn't an object with a syntax.
    #[tactic(auto, unfolding(crate::specs::Naming::nearest_syntax))]
    pub fn nearest_syntax(&self, oid: &Oid) -> Option<ValueSyntax<'_>>
        ensures { result ≡ nearest_syntax self.now oid.now }
    {
        let deepest = self.deepest_near(oid, &mut Near::new())?;
        self.value_syntax(deepest.id)
    }

    /// Returns what [`Tree::nearest`] and [`Tree::nearest_syntax`] return, by one search, and an
    /// identifier such that both return the same for all identifiers below it, if one is known.
    #[tactic(auto, unfolding(crate::specs::Naming::nearest_node, crate::specs::Naming::nearest_syntax))]
    pub fn found_for(&self, oid: &Oid, near: &mut Near) -> Found<'_>
        ensures found { IsFound self.now oid.now result }
        ensures below { IsFoundBelow self.now result }
    {
        match self.deepest_near(oid, near) {
            Some(deepest) => Found {
                node: self.seen(deepest),
                syntax: self.value_syntax(deepest.id),
                below: self.last_on_way(deepest.id, near),
            },
            None => Found {
                node: None,
                syntax: None,
                below: None,
            },
        }
    }

    /// This tree is the tree of its modules, as `IsTree` says. A tree doesn't store the warnings
    /// about its modules, so the law only says that there is a list of them.
    ///
    /// A law: the call does nothing, and its caller may use what it ensures.
    pub fn is_tree(&self)
        ensures { (warnings : List Warning) × IsTree self.now.modules self.now warnings }
    {
        let _ = &self.modules;
    }

    /// If a node is found for an identifier, then its label is a word (a letter, and then letters,
    /// digits, `_`, and single hyphens between them), and a look-up of the label, in the node's
    /// module if it has one, returns the identifier of that node.
    ///
    /// A law: the call does nothing, and its caller may use what it ensures.
    #[tactic(auto, using(crate::proofs::SoundNames::sound_by))]
    pub fn is_sound(&self)
        ensures { IsSound self.now }
    {
        self.is_tree();
        one_identifier();
    }
}

impl Tree {
    /// Returns the node `id`, if there is one. It is `inline(always)`, so that parts that a caller
    /// doesn't read aren't looked up.
    #[inline(always)]
    fn node_at(&self, id: NodeId) -> Option<Node<'_>>
        ensures { option_map seen_node result ≡ slice_get self.now.nodes id }
    {
        if id < self.len() {
            Some(self.node(id))
        } else {
            None
        }
    }

    /// Returns the identifiers of the nodes.
    #[tactic(auto, using(crate::proofs::Sources::oids_nodes))]
    fn oids(&self) -> &Identifiers
        ensures { result.now ≡ oids_of self.now.nodes }
    {
        &self.identifiers
    }

    /// Returns the identifier of the node `id`. Returns `None` if `id` is `None` or no node has
    /// this index.
    fn oid_of(&self, id: Option<NodeId>) -> Option<&StoredOid>
        ensures { option_copied result ≡ oid_of self.now.nodes id }
    {
        let node = self.node_at(id?)?;
        Some(node.oid)
    }

    /// Returns the last node before the node `id` with the same label. If there is none, returns
    /// the last node with this label.
    fn previous_of(&self, id: NodeId) -> NodeId
        requires { id < length self.now.nodes }
        ensures { IsPrevious (labels_of self.now.nodes) (length self.now.nodes) id result }
    {
        self.previous[id]
    }

    /// Returns the definition of the node `id`. Returns `None` for a root, or if no node has the
    /// index `id`.
    fn definition_of(&self, id: NodeId) -> Option<&Def>
        ensures { option_copied result
            ≡ option_and_then (λ n. n.definition) (slice_get self.now.nodes id) }
    {
        self.node_at(id)?.definition
    }

    /// Returns the UNITS of a node's object, if it has them (RFC 2578, section 7.2).
    fn units(&self, id: NodeId) -> Option<&Text>
        ensures { option_copied result ≡ units_at self.now.nodes id }
    {
        units_of(&self.definition_of(id)?.kind)
    }

    /// Returns the syntax for showing values of a node's object, if it has one.
    fn value_syntax(&self, id: NodeId) -> Option<ValueSyntax<'_>>
        ensures { result ≡ shown_at self.now.nodes self.now.syntaxes id }
    {
        let source = *self.sources.get(id)?;
        source_syntax(&self.types, &self.modules, source, self.units(id))
    }

    /// Returns the node of the longest prefix of `oid` that has a node, with the length of that
    /// prefix. The search begins at the node that was found last, if `oid` is below that node.
    #[tactic(auto, using(crate::proofs::Sources::oids_nodes, crate::proofs::LongestPrefix::longest_found))]
    fn deepest_near(&self, oid: &Oid, near: &mut Near) -> Option<Deepest>
        ensures deepest { MatchOption result (HasNoBeginning (oids_of self.now.nodes) oid.now)
            (λ deepest. IsDeepestAt (oids_of self.now.nodes) oid.now deepest.id
            deepest.depth) }
        ensures longest { option_map longest_of result ≡ longest self.now.nodes oid.now }
    {
        self.identifiers.deepest_near(oid, &mut near.id)
    }

    /// Returns the identifier of the node `id` if no node is below it. `near` is the value that
    /// `deepest_near` left when it found the node; with any other, returns `None`.
    fn last_on_way(&self, id: NodeId, near: &Near) -> Option<&StoredOid>
        ensures at { IfSome result (λ o. o.now ≡ oid_at (oids_of self.now.nodes) id) }
        ensures last { IfSome result (λ o. HasNoneBelow (oids_of self.now.nodes) o.now) }
    {
        self.oids().last_on_way(id, near.id)
    }

    /// Returns the node of `deepest`, with its name, the length of its identifier and its index.
    fn seen(&self, deepest: Deepest) -> Option<NearestNode<'_>>
        ensures { option_map view_of result
            ≡ view_of_longest self.now (longest_of deepest) }
    {
        let node = self.node_at(deepest.id)?;
        Some(NearestNode {
            home: home_name(node.home),
            label: node.label,
            depth: deepest.depth,
            index: self.index_of(deepest.id),
        })
    }
}
