//! A sink of one's own: it collects the rows of a walk in memory.

use snmp_walk::{Sink, SinkFault};
use snmp_wire::{Binding, Oid, Value};
use std::alloc::Global;
use std::marker::Model;

/// A variable binding that owns its octets, so that it outlives the datagram that it arrived in.
#[derive(Drop)]
pub struct Row {
    /// The name of the instance.
    pub name: Oid,
    /// The value of the instance.
    pub value: Value,
}

/// The rows that were collected, in order of arrival.
///
/// Contracts see the list of their bindings.
#[derive(Drop)]
pub struct Collected {
    alloc: Global,
    rows: Vec<Row>,
}

impl Model for Collected {
    ghost use Rattle.std.specs.Prelude.{List, map};
    ghost use Rattle.snmp_wire.specs.Message.{VarBind};
    ghost use Rattle.uses.specs.Rows.{binding_of};

    ghost Value = { List VarBind };

    ghost view = { λ c. map binding_of c.rows.items };
}

impl Collected {
    ghost use Rattle.std.specs.Prelude.{◌≡◌, [], length, map};
    ghost use Rattle.uses.specs.Rows.{binding_of};

    /// Returns a sink without rows. It takes memory from `alloc` only when a row arrives.
    pub fn new(alloc: Global) -> Collected
        ensures { result ≡ [] }
    {
        Collected {
            alloc,
            rows: Vec::new(alloc),
        }
    }

    /// Returns how many rows were collected.
    pub fn len(&self) -> usize
        ensures { result ≡ length self.now }
    {
        self.rows.len()
    }

    /// Returns the rows.
    pub fn as_slice(&self) -> &[Row]
        ensures { map binding_of result.now ≡ self.now }
    {
        self.rows.as_slice()
    }
}

impl Sink for Collected {
    ghost use Rattle.snmp_walk.specs.Appends.{Appends};

    // A row is appended; without memory for it, it is refused, which ends the walk.
    ghost takes = { Appends };

    fn row(&mut self, binding: &Binding<'_>) -> Result<(), SinkFault> {
        let Ok(value) = Value::from_ref(self.alloc, &binding.value) else {
            return Err(SinkFault::Memory);
        };
        let row = Row {
            name: binding.name.copy(),
            value,
        };
        match self.rows.push(row) {
            Ok(()) => Ok(()),
            Err(_) => Err(SinkFault::Memory),
        }
    }
}
