//! The root of a walk.
ghost use Rattle.std.specs.Prelude.{◌≡◌};
ghost use Rattle.snmp_oid.specs.Identifier.{wire};
ghost use Rattle.snmp_walk.specs.Names.{is_below};

use snmp_wire::{EncodedName, NameBuffer, Oid};
use std::marker::Model;

/// The root of a walk, stored also as it is encoded in messages.
#[derive(Drop)]
pub(crate) struct Root {
    oid: Oid,
    sent: NameBuffer,
}

impl Model for Root {
    ghost use Rattle.std.specs.Prelude.{◌≡◌, List, ℕ};
    ghost use Rattle.snmp_oid.specs.Identifier.{wire};

    ghost Value = { List ℕ };

    ghost view = { λ root. root.oid };

    ghost invariant = { λ root. root.sent ≡ wire root.oid };
}

impl Root {
    /// Returns the root `oid`, whose encoded form is `sent`.
    pub(crate) fn new(oid: Oid, sent: NameBuffer) -> Root
        requires { sent ≡ wire oid }
        ensures { result ≡ oid }
    {
        Root { oid, sent }
    }

    /// Returns whether `name` begins with the root and is longer.
    #[inline]
    pub(crate) fn is_above(&self, name: &EncodedName<'_>) -> bool
        ensures { result ≡ is_below name.now self.now }
    {
        if self.oid.len() < 2 {
            return begins_with(name, &self.oid);
        }
        name.is_below(&self.sent.name())
    }
}

/// Returns whether `name` begins with `root`, which may be of any length, and is longer.
// `inline(never)`: only roots of fewer than two numbers come here. Inlined, its `Oid` would be
// zeroed for each name tested, for every root.
#[inline(never)]
fn begins_with(name: &EncodedName<'_>, root: &Oid) -> bool
    ensures { result ≡ is_below name.now root.now }
{
    let mut oid = Oid::new();
    name.read_into(&mut oid);
    oid.is_below(root)
}
