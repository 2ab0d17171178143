//! Writes the lines of many bindings by one tree.
ghost use Rattle.std.specs.Prelude.{◌≡◌, ℕ, List, ◌++◌, ◌↔◌, OnOk, OnErr, IsTrue, MatchOption};
ghost use Rattle.snmp_oid.specs.Identifier.{IsBelow};
ghost use Rattle.snmp_wire.specs.ber.Value.{datum};
ghost use Rattle.smi_show.specs.Line.{IsLine};
ghost use Rattle.smi_tree.specs.Found.{IsFound, IsFoundBelow};

use crate::binding::append_line;
use smi_tree::{Found, Near, Tree};
use smi_value::Letters;
use snmp_io::Draft;
use snmp_oid::Oid;
use snmp_wire::ValueRef;
use std::alloc::AllocError;
use std::marker::Model;

/// Writes the lines of bindings by one tree, one after the other.
///
/// A writer stores what the tree found for the last name. If this is known to be right for the next
/// name too, the tree isn't searched again: most lines follow a line of the same column. In
/// contracts, a writer is its tree.
#[derive(Drop)]
pub struct LineWriter<'t> {
    tree: &'t Tree,
    near: Near,
    // What the tree found for the last name, if there was one.
    found: Found<'t>,
}

impl<'t> Model for LineWriter<'t> {
    ghost use Rattle.smi_tree.specs.{Found.IsFoundBelow, Tree.Contents};

    ghost Value = { Contents };

    ghost view = { λ w. w.tree.now };

    // If `below` in `found` is an identifier, `found` is what the tree finds for each name below
    // it.
    ghost invariant = { λ w. IsFoundBelow w.tree.now w.found };
}

impl<'t> LineWriter<'t> {
    /// Returns a writer of lines that looks up names and types in `tree`.
    pub fn new(tree: &'t Tree) -> LineWriter<'t>
        ensures { result ≡ tree.now }
    {
        LineWriter {
            tree,
            near: Near::new(),
            found: Found {
                node: None,
                syntax: None,
                below: None,
            },
        }
    }

    /// Appends the line of a binding, as [`line`](crate::line) does. If memory runs out, `out` is
    /// unchanged.
    pub fn line(
        &mut self,
        letters: &Letters,
        name: &Oid,
        value: &ValueRef<'_>,
        out: &mut Vec<u8>,
    ) -> Result<(), AllocError>
        ensures same { self.new ≡ self.old }
        ensures ok { OnOk result ((text : List ℕ)
            × IsLine self.old letters.now name.now (datum value.now) text
            × (out.new.items ≡ out.old.items ++ text)) }
        ensures unchanged_on_error { OnErr result (out.new.items ≡ out.old.items) }
    {
        find(self.tree, name, &mut self.near, &mut self.found);
        let mut draft = Draft::after(out);
        append_line(self.tree, letters, name, &self.found, value, &mut draft);
        draft.finish(out)
    }
}

/// Sets `found` to what the tree finds for `name`. Leaves `found` unchanged if [`is_known`] says
/// that `found` is that already.
fn find<'t>(tree: &'t Tree, name: &Oid, near: &mut Near, found: &mut Found<'t>)
    requires { IsFoundBelow tree.now found.old }
    ensures found { IsFound tree.now name.now found.new }
    ensures below { IsFoundBelow tree.now found.new }
{
    if !is_known(found, name) {
        *found = tree.found_for(name, near);
    }
}

/// Returns whether `found` is known to be what the tree finds for `name`: `found.below` is an
/// identifier, and `name` is below that identifier.
fn is_known(found: &Found<'_>, name: &Oid) -> bool
    ensures { IsTrue result ↔ MatchOption found.now.below ⊥ (λ root. IsBelow name.now root.now) }
{
    matches!(found.below, Some(root) if name.is_below_numbers(root.as_slice()))
}
