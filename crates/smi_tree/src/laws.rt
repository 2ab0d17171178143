//! Laws of trees of names, for any modules. Each call does nothing, and its caller may use what it
//! ensures.
ghost use Rattle.std.specs.{Prelude.◌≡◌, Prelude.ℕ, Prelude.List, Prelude.[], Prelude.◌⊎◌};
ghost use Rattle.std.specs.{Prelude.MatchOption, Prelude.Some, List.slice_get};
ghost use Rattle.std.specs.Prelude.{◌<◌, All, length};
ghost use Rattle.smi_text.specs.declared.trees.tree.Module.{Module};
ghost use Rattle.smi_names.specs.{declared.nodes.warning.Warning.Warning, nodes.Nodes.Node};
ghost use Rattle.smi_names.specs.meaning.Meaning.{QualifiedName};
ghost use Rattle.smi_tree.specs.{Bare.bare, LongestPrefix.longest, Tree.Contents, Tree.IsTree};
ghost use Rattle.smi_tree.specs.{Defined.IsRoot, Defined.IsDefined, columns.Index.IsNodeAt};
ghost use Rattle.smi_tree.specs.{types.Chain.TypeOrigin, types.Types.Facts, types.Types.HasSyntax};
ghost use Rattle.smi_tree.specs.Nodes.{IsFirstChild, child_of, oids_of};
ghost use Rattle.smi_tree.specs.branches.FirstIndex.{AreChildren, HasNoBeginning, IsDeepestAt};

use smi_names::one_loading;

/// Modules have at most one tree, with one list of warnings.
pub fn one_tree()
    ensures { (modules : List Module) (tree other : Contents) (warnings more : List Warning)
        → IsTree modules tree warnings → IsTree modules other more
        → (tree ≡ other) × (warnings ≡ more) }
{
    one_loading();
}

/// An identifier has at most one longest prefix in a list of identifiers. The prefix has one
/// length, and one index represents it.
pub fn one_deepest()
    ensures { (oids : List (List ℕ)) (o : List ℕ) (id other depth more : ℕ)
        → IsDeepestAt oids o id depth → IsDeepestAt oids o other more
        → (id ≡ other) × (depth ≡ more) }
{}

/// The tree of no modules has only the roots, and no warnings (RFC 2578, section 3.5).
#[tactic(auto, using(crate::proofs::Bare::is_bare))]
pub fn bare_tree()
    ensures { IsTree [] bare [] }
{}

/// `longest` is the longest prefix of an identifier that has a node, if one has, and `child_of` is
/// the first child with a label, if one has it (RFC 2578, section 3.6). Look-ups of names,
/// definitions and syntaxes find these.
#[tactic(auto, using(crate::proofs::Childhood::child_first, crate::proofs::LongestPrefix::longest_is))]
pub fn look_ups()
    ensures longest { (nodes : List Node) (o : List ℕ) → MatchOption (longest nodes o)
        (HasNoBeginning (oids_of nodes) o)
        (λ at. IsDeepestAt (oids_of nodes) o at.id at.depth) }
    ensures child { (nodes : List Node) (o label : List ℕ)
        → IsFirstChild nodes o label (child_of nodes o label) }
{}

/// Each node of a tree is a root, or the node of a definition in its modules (RFC 2578, sections
/// 3.5 and 3.6).
pub fn defined_nodes()
    ensures { (modules : List Module) (tree : Contents) (warnings : List Warning) (id : ℕ)
        (node : Node) → IsTree modules tree warnings → slice_get tree.nodes id ≡ Some node
        → IsRoot node ⊎ IsDefined modules node }
{}

/// The node that represents an identifier has this identifier.
pub fn nodes_have_identifiers()
    ensures { (nodes : List Node) (oid : List ℕ) (node : Node) → IsNodeAt nodes oid node
        → node.oid ≡ oid }
{}

/// An object has at most one syntax: its chain of types has at most one end.
pub fn one_syntax()
    ensures { (modules : List Module) (object : TypeOrigin QualifiedName) (facts other : Facts)
        → HasSyntax modules object facts → HasSyntax modules object other → facts ≡ other }
{}

/// Each child of an identifier is a node: its index is below the number of nodes.
pub fn children_are_nodes()
    ensures { (nodes : List Node) (o indices : List ℕ) → AreChildren (oids_of nodes) o indices
        → All (λ id. id < length nodes) indices }
{}
