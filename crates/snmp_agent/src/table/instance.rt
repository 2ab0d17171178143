//! Which names and values an instance may have.
ghost use Rattle.std.specs.Prelude.{IsTrue, ◌↔◌};
ghost use Rattle.snmp_wire.specs.Message.{datum, object_id};
ghost use Rattle.snmp_agent.specs.table.Table.{IsInstanceName, IsInstanceValue, IsTableString};

use crate::table::value::LONGEST_STRING;
use snmp_wire::{Oid, ValueRef};

/// Returns whether an instance may have this name: it has at least three numbers, and an encoding.
pub fn is_instance_name(name: &Oid) -> bool
    ensures { IsTrue result ↔ IsInstanceName name.now }
{
    let numbers = name.as_slice();
    numbers.len() >= 3 && name.is_wire()
}

/// Returns whether an instance may hold `value`. Numbers are read but not used: that a number was
/// read shows to the proof that it is within the range of its type.
pub fn is_instance_value(value: &ValueRef<'_>) -> bool
    ensures { IsTrue result ↔ IsInstanceValue (datum value.now) }
{
    match value {
        ValueRef::Integer(number) => {
            let _number = *number;
            true
        }
        ValueRef::Octets(octets) | ValueRef::Opaque(octets) => is_table_string(octets),
        ValueRef::ObjectId(name) => is_table_identifier(name),
        ValueRef::IpAddress([a, b, c, d]) => {
            let _octets = [*a, *b, *c, *d];
            true
        }
        ValueRef::Counter32(number) | ValueRef::Gauge32(number) | ValueRef::TimeTicks(number) => {
            let _number = *number;
            true
        }
        ValueRef::Counter64(number) => {
            let _number = *number;
            true
        }
        ValueRef::Null
        | ValueRef::NoSuchObject
        | ValueRef::NoSuchInstance
        | ValueRef::EndOfMibView => false,
    }
}

/// Returns whether a table may hold a string of these octets.
fn is_table_string(octets: &[u8]) -> bool
    ensures { IsTrue result ↔ IsTableString octets.now }
{
    octets.len() <= LONGEST_STRING
}

/// Returns whether a table may hold `name` as a value: it has an encoding.
fn is_table_identifier(name: &Oid) -> bool
    ensures { IsTrue result ↔ IsInstanceValue (object_id name.now) }
{
    let _numbers = name.as_slice();
    name.is_wire()
}
