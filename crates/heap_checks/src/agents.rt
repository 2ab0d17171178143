//! Checks of values and tables.

use crate::Fault;
use crate::room::Room;
use snmp_agent::{Config, NumericNames, Outcome, PutError, Table, TableError, answer};
use snmp_oid::{Oid, parse_numeric};
use snmp_wire::{Value, ValueRef, decode};
use std::alloc::Global;

/// The agent's community and greatest message size.
pub(crate) const CONFIG: Config<'static> = Config {
    community: b"public",
    max_size: 1472,
};

/// Checks `Value::from_ref`, for each value of a message up to the first that fails. Appends the
/// names of the bindings before that.
pub fn values(alloc: Global, datagram: &[u8], room: &mut Room<'_>) -> Result<(), Fault> {
    let Ok(message) = decode(datagram) else {
        return Err(Fault::Wrong);
    };
    'bindings: for binding in message.bindings() {
        match Value::from_ref(alloc, &binding.value) {
            Ok(value) if value.as_ref() == binding.value => room.append_name(&binding.name),
            Ok(_) => return Err(Fault::Wrong),
            Err(_) => return Err(Fault::Refused),
        }
    }
    Ok(())
}

/// Returns the table of `text`.
pub(crate) fn table_of(alloc: Global, text: &[u8]) -> Result<Table, Fault> {
    read(Table::read(alloc, text))
}

/// Returns the table that was read, or the fault.
fn read(table: Result<Table, TableError>) -> Result<Table, Fault> {
    match table {
        Ok(table) => Ok(table),
        Err(TableError::Memory) => Err(Fault::Refused),
        Err(_) => Err(Fault::Wrong),
    }
}

/// Checks `Table::read`. Appends the reply to `request` over the table.
pub fn table(alloc: Global, text: &[u8], request: &[u8], room: &mut Room<'_>) -> Result<(), Fault> {
    let table = table_of(alloc, text)?;
    reply(&table, request, room);
    Ok(())
}

/// Checks `Table::read`. Appends the number of the line that repeats a name, as an identifier.
pub fn double(alloc: Global, text: &[u8], room: &mut Room<'_>) -> Result<(), Fault> {
    let line = match Table::read(alloc, text) {
        Err(TableError::Double { line }) => u32::try_from(line).unwrap_or(0),
        Err(TableError::Memory) => return Err(Fault::Refused),
        _ => return Err(Fault::Wrong),
    };
    match Oid::from_slice(&[line]) {
        Ok(line) => {
            room.append_name(&line);
            Ok(())
        }
        Err(_) => Err(Fault::Wrong),
    }
}

/// Checks `Table::read_with`. Appends the reply to `request` over the table.
pub fn table_with(
    alloc: Global,
    text: &[u8],
    request: &[u8],
    room: &mut Room<'_>,
) -> Result<(), Fault> {
    let table = read(Table::read_with(alloc, text, &NumericNames))?;
    reply(&table, request, room);
    Ok(())
}

/// Appends the reply to `request`, if it isn't dropped.
pub(crate) fn reply(table: &Table, request: &[u8], room: &mut Room<'_>) {
    let mut octets = [0; 65507];
    if let Outcome::Reply(size) = answer(table, &CONFIG, request, &mut octets) {
        room.append(octets.get(..size).unwrap_or(&[]));
    }
}

/// Checks `Table::put` of a string at 1.3.6.1.4.1.32473.1.5.0. Appends the reply to `request` after
/// that. If memory is refused, the reply must be as before.
pub fn put(
    alloc: Global,
    text: &[u8],
    string: &[u8],
    request: &[u8],
    room: &mut Room<'_>,
) -> Result<(), Fault> {
    let mut table = table_of(alloc, text)?;
    let Ok(name) = parse_numeric(b"1.3.6.1.4.1.32473.1.5.0") else {
        return Err(Fault::Wrong);
    };
    let mut octets = ([0; 1472], [0; 1472]);
    reply(&table, request, &mut Room::new(&mut octets.0));
    match table.put(&name, ValueRef::Octets(string)) {
        Ok(_) => {
            reply(&table, request, room);
            Ok(())
        }
        Err(PutError::Memory) => {
            reply(&table, request, &mut Room::new(&mut octets.1));
            if octets.0 == octets.1 {
                Err(Fault::Refused)
            } else {
                Err(Fault::Wrong)
            }
        }
        Err(_) => Err(Fault::Wrong),
    }
}
