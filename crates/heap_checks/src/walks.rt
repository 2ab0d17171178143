//! Checks of walks over an agent in memory.

use crate::Fault;
use crate::agents::{CONFIG, table_of};
use crate::room::Room;
use snmp_agent::Table;
use snmp_oid::parse_numeric;
use snmp_walk::{Link, MemoryLink, Method, Mode, Sink, SinkFault, WalkCore, WalkEnd, run_walk};
use snmp_wire::{Binding, ValueRef};
use std::alloc::Global;

/// The number of requests of a walk for which memory is reserved.
const REQUESTS: usize = 320;

/// The number of octets that are reserved for each request.
const REQUEST_SIZE: usize = 1000;

/// A sink that appends the name of each binding, and its value if that is a string, as lines.
#[derive(Drop)]
pub struct Rows<'r, 'a> {
    pub room: &'r mut Room<'a>,
}

impl<'r, 'a> Sink for Rows<'r, 'a> {
    ghost takes = { λ _ _ _ _. Unit {0} };

    fn row(&mut self, binding: &Binding<'_>) -> Result<(), SinkFault> {
        self.room.append_name(&binding.name);
        if let ValueRef::Octets(string) = binding.value {
            self.room.append_line(string);
        }
        Ok(())
    }
}

/// Returns a link to the agent of `table`, which delivers each reply.
pub(crate) fn link_of<'a>(alloc: Global, table: &'a Table) -> MemoryLink<'a> {
    MemoryLink::new(alloc, table, CONFIG, &[])
}

/// Reserves memory for a walk.
pub(crate) fn reserve(link: &mut MemoryLink<'_>) -> Result<(), Fault> {
    match link.reserve(REQUESTS, REQUESTS * REQUEST_SIZE) {
        Ok(()) => Ok(()),
        Err(_) => Err(Fault::Refused),
    }
}

/// Runs the walk below `root`, and returns how it ends. Its rows are appended.
pub(crate) fn walk_over(
    link: &mut MemoryLink<'_>,
    root: &[u8],
    method: Method,
    room: &mut Room<'_>,
) -> Result<WalkEnd, Fault> {
    let method = match method {
        Method::Next => Method::Next,
        Method::Bulk(repetitions) => Method::Bulk(repetitions.max(1)),
    };
    let Ok(root) = parse_numeric(root) else {
        return Err(Fault::Wrong);
    };
    let Ok(core) = WalkCore::start(root, Mode::Plain, method, b"public", 1) else {
        return Err(Fault::Wrong);
    };
    let mut rows = Rows { room };
    Ok(run_walk(link, core, 0, &mut rows))
}

/// Checks `run_walk` over a `MemoryLink`. If memory for a request is refused, the link must have
/// counted a fault, and must serve a second walk, whose rows begin with the rows of the first. If
/// memory is refused for that one too, it must have counted two faults.
pub fn walk(
    alloc: Global,
    text: &[u8],
    root: &[u8],
    method: Method,
    room: &mut Room<'_>,
) -> Result<(), Fault> {
    let table = table_of(alloc, text)?;
    let mut link = link_of(alloc, &table);
    let mut octets = [0; 16384];
    let mut first_rows = Room::new(&mut octets);
    match walk_over(&mut link, root, method, &mut first_rows)? {
        WalkEnd::Done(_) => {
            room.append(first_rows.octets());
            return Ok(());
        }
        WalkEnd::Link if link.faults() == 1 => {}
        _ => return Err(Fault::Wrong),
    }
    match walk_over(&mut link, root, method, room)? {
        WalkEnd::Done(_) if room.octets().starts_with(first_rows.octets()) => Ok(()),
        WalkEnd::Link if link.faults() == 2 => Err(Fault::Again),
        _ => Err(Fault::Wrong),
    }
}

/// Checks `MemoryLink::reserve`: what is reserved is enough for a walk. If memory for that is
/// refused, the link serves a walk too, unless memory is refused again.
pub fn check_reserve(
    alloc: Global,
    text: &[u8],
    root: &[u8],
    room: &mut Room<'_>,
) -> Result<(), Fault> {
    let table = table_of(alloc, text)?;
    let mut link = link_of(alloc, &table);
    let ready = reserve(&mut link).is_ok();
    match walk_over(&mut link, root, Method::Next, room)? {
        WalkEnd::Done(_) => Ok(()),
        WalkEnd::Link if !ready => Err(Fault::Again),
        _ => Err(Fault::Wrong),
    }
}
