//! Sinks, which take the bindings of a walk or a Get.

use crate::{Rows, SinkFault};
use snmp_wire::Binding;

/// A consumer of the bindings of a walk or a Get, one by one.
pub trait Sink {
    ghost use Rattle.std.specs.Prelude.{◌≡◌, ◌++◌, ◌∷◌, List, Result, OnOk, IfErr, Err};
    ghost use Rattle.snmp_wire.specs.Message.{VarBind, var_bind};
    ghost use Rattle.snmp_walk.specs.Sink.{TakesAll};
    ghost use Rattle.snmp_walk.specs.declared.end.SinkFault.{SinkFault};

    /// `takes old binding result new`: in state `old`, [`Sink::row`] can return `result` for
    /// `binding` and leave the sink in state `new`.
    ghost takes: { Self → VarBind → Result (Unit {0}) SinkFault → Self → Type 0 };

    /// Takes `binding`, or refuses it by an error, which ends the walk or the Get.
    fn row(&mut self, binding: &Binding<'_>) -> Result<(), SinkFault>
        ensures { takes self.old (var_bind binding.now) result self.new };

    /// Takes those bindings of one reply that are passed on, in order. Fails at the first one that
    /// is refused. A sink whose calls are costly, as writes are, can have its own `rows`, with one
    /// costly call for all of them.
    fn rows(&mut self, mut rows: Rows<'_>) -> Result<(), SinkFault>
        ensures ok { OnOk result (TakesAll takes self.old rows.entry self.new) }
        ensures err { IfErr result (λ fault. (prefix : List VarBind) × (p : VarBind)
            × (back : List VarBind) × (rows.entry ≡ prefix ++ p ∷ back) × (between : Self)
            × TakesAll takes self.old prefix between × takes between p (Err fault) self.new) }
    {
        let mut binding = Binding::empty();
        'rows: while rows.read_next(&mut binding) {
            self.row(&binding)?;
        }
        Ok(())
    }
}
