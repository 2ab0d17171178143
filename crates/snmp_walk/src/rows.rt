//! What a datagram means to a walk, and which of its bindings are passed on.
ghost use Rattle.std.specs.Prelude.{◌≡◌, ◌≤◌, ℕ, List, [], ◌∷◌, take, length, true, false};
ghost use Rattle.snmp_wire.specs.Message.{var_bind};

use crate::WalkEnd;
use snmp_wire::{Binding, Bindings};
use std::marker::Model;

/// An iterator over the bindings of a reply that a walk or a Get passes on: the first ones, in
/// order.
#[derive(Drop)]
pub struct Rows<'a> {
    bindings: Bindings<'a>,
    left: usize,
}

impl<'a> Model for Rows<'a> {
    ghost use Rattle.std.specs.Prelude.{List, ◌≤◌, take, length};
    ghost use Rattle.snmp_wire.specs.Message.{VarBind};

    ghost Value = { List VarBind };

    ghost view = { λ rows. take rows.left rows.bindings };

    ghost invariant = { λ rows. rows.left ≤ length rows.bindings };
}

impl<'a> Rows<'a> {
    /// Returns the first `left` bindings of `bindings`.
    pub(crate) fn read_rows(bindings: Bindings<'a>, left: usize) -> Rows<'a>
        requires { left ≤ length bindings }
        ensures { result ≡ take left bindings.entry }
    {
        Rows { bindings, left }
    }

    /// Reads the next binding into `into` and returns whether there was one. If none is left,
    /// leaves `into` unchanged.
    ///
    /// This is [`Iterator::next`] for a caller that reads many bindings: no binding is moved, as
    /// in [`Bindings::read_next`].
    pub fn read_next(&mut self, into: &mut Binding<'a>) -> bool
        ensures some { result ≡ true → self.old ≡ var_bind into.new ∷ self.new }
        ensures none { result ≡ false → (self.old ≡ []) × (self.new ≡ []) × (into.new ≡ into.old) }
    {
        if self.left == 0 {
            return false;
        }
        self.left -= 1;
        self.bindings.read_next(into)
    }
}

impl<'a> Iterator for Rows<'a> {
    ghost use Rattle.std.specs.Iterator.{YieldsFirstBy, item_count};
    ghost use Rattle.snmp_wire.specs.Message.{var_bind};

    type Item = Binding<'a>;

    ghost next_gives = { YieldsFirstBy var_bind (λ s. s) };

    ghost remaining = { item_count (λ s. s) };

    fn next(&mut self) -> Option<Binding<'a>> {
        if self.left == 0 {
            return None;
        }
        self.left -= 1;
        self.bindings.next()
    }
}

/// What a datagram means to a walk.
#[derive(Drop)]
pub enum Step<'a> {
    /// The datagram isn't the reply to the waiting request. The walk is unchanged.
    Stray,
    /// The datagram is the reply. Its rows are to be passed on, and then the next request sent.
    Rows(Rows<'a>),
    /// The datagram is the reply that ends the walk, once these rows are passed on.
    Last(Rows<'a>, WalkEnd),
}
