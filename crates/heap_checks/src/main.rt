//! The program `heap_checks CHECK FILE FILE`, which `tests/heap.py` runs over a heap that refuses
//! memory.
//!
//! A check makes a call or several, on the octets of the two files. Status 0: the check succeeded,
//! and its result is printed, up to 16384 octets, without allocating for that. A check of walks or
//! of lines also succeeds if memory was refused for one call, and the next succeeded. Status 1:
//! memory was refused, and what was to be changed is unchanged. Status 2: the result or an input
//! was wrong, memory was refused and what was to be changed isn't as it was, or the output failed.
//! Status 3: memory was refused, and refused again in the next call.
#![tactic(auto)]

mod agents;
mod codec;
mod free;
mod modules;
mod room;
mod texts;
mod walks;

use crate::room::Room;
use snmp_io::{FileFault, Files, MachineFiles, MachineOutput, write_all};
use snmp_walk::Method;
use std::alloc::Global;
use std::env::Env;
use std::process::ExitCode;
use std::{env, rt};

/// A string whose row is stored on the heap: 60 octets with its name.
const LONG: &[u8] = b"a string of 43 octets, more than in a place";

/// Why a check has no result to print.
#[derive(Clone, Copy, Debug)]
pub(crate) enum Fault {
    /// Memory was refused, and what was to be changed is unchanged.
    Refused,
    /// Memory was refused, and refused again in the next call.
    Again,
    /// The result or an input is wrong, or memory was refused and what was to be changed isn't as
    /// it was.
    Wrong,
}

fn main(rt: HostRuntime) -> ExitCode {
    let mut octets = [0; 16384];
    let mut room = Room::new(&mut octets);
    let status = match run(&rt, &mut room) {
        Ok(()) => {
            let mut out = MachineOutput::new(rt.stdout());
            match write_all(&mut out, room.octets()) {
                Ok(()) => 0,
                Err(_) => 2,
            }
        }
        Err(Fault::Refused) => 1,
        Err(Fault::Wrong) => 2,
        Err(Fault::Again) => 3,
    };
    ExitCode::from(status)
}

/// Runs the check that the arguments name, on the files that they name.
fn run<R: Env + rt::Files + AllocGlobal>(rt: &R, room: &mut Room<'_>) -> Result<(), Fault> {
    let Ok(words) = env::args(rt) else {
        return Err(Fault::Refused);
    };
    let Ok(words): Result<Vec<String>, _> = words.collect(rt.alloc()) else {
        return Err(Fault::Refused);
    };
    let [_, check, first, second] = words.as_slice() else {
        return Err(Fault::Wrong);
    };
    let first = file(rt, first)?;
    let second = file(rt, second)?;
    check_by(rt.alloc(), check, &first, &second, room)
}

/// Returns the octets of a file.
fn file<R: rt::Files + AllocGlobal>(rt: &R, path: &str) -> Result<Vec<u8>, Fault> {
    let files = MachineFiles { rt };
    match files.read(rt.alloc(), path) {
        Ok(octets) => Ok(octets),
        Err(FileFault::Memory) => Err(Fault::Refused),
        Err(FileFault::Unreadable) => Err(Fault::Wrong),
    }
}

/// Runs the check with this name.
fn check_by(
    alloc: Global,
    check: &str,
    first: &[u8],
    second: &[u8],
    room: &mut Room<'_>,
) -> Result<(), Fault> {
    match check {
        "values" => agents::values(alloc, first, room),
        "table" => agents::table(alloc, first, second, room),
        "table_with" => agents::table_with(alloc, first, second, room),
        "double" => agents::double(alloc, first, room),
        "put" => agents::put(alloc, first, b"sextet", second, room),
        "put_long" => agents::put(alloc, first, LONG, second, room),
        "walk" => walks::walk(alloc, first, second, Method::Next, room),
        "bulk_walk" => walks::walk(alloc, first, second, Method::Bulk(10), room),
        "reserved" => walks::check_reserve(alloc, first, second, room),
        "modules" => modules::modules(alloc, first, room),
        "tree" => modules::tree(alloc, first, room),
        "hint" => texts::hint(alloc, first, second, room),
        "lines" => texts::lines(alloc, first, second, room),
        "name" | "value" | "line" | "detail" => texts::check_text(
            alloc, check, first, second, room,
        ),
        _ => free_by(alloc, check, first, second, room),
    }
}

/// Runs the check with this name, of calls that don't allocate.
fn free_by(
    alloc: Global,
    check: &str,
    first: &[u8],
    second: &[u8],
    room: &mut Room<'_>,
) -> Result<(), Fault> {
    match check {
        "free_answer" => free::check_answer(alloc, first, second, room),
        "free_remove" => free::check_remove(alloc, first, second, room),
        "free_walk" => free::check_walk(alloc, first, second, Method::Next, room),
        "free_bulk_walk" => free::check_walk(alloc, first, second, Method::Bulk(10), room),
        "free_get" => free::check_get(alloc, first, room),
        "free_codec" => codec::check_codec(alloc, first, room),
        "free_lexer" => free::check_lexer(alloc, first, room),
        "free_found" => free::check_find(alloc, first, second, room),
        "free_front" => free::check_resolve_front(alloc, first, second, room),
        "free_letters" => free::check_letters(alloc, first, room),
        "free_look_ups" => free::check_look_ups(alloc, first, room),
        "free_resolve" => free::check_resolve(alloc, first, second, room),
        "free_hint" => free::check_hint(alloc, first, room),
        _ => Err(Fault::Wrong),
    }
}
