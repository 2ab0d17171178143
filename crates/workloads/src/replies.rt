//! An agent that many pollers ask.

use crate::device::{Spelling, device_text, parts};
use crate::digest::Digest;
use crate::draws::Draws;
use crate::jobs::Turn;
use crate::lines::Lines;
use snmp_agent::{Config, Hint, Outcome, Table, answer_near};
use snmp_wire::{
    EncodedName, Kind, MAX_CONTENT, NameBuffer, Oid, Parts, encode_asking, parse_numeric, seal,
};
use std::alloc::AllocError;

const CONFIG: Config<'static> = Config {
    community: b"public",
    max_size: 1472,
};

/// How many requests each turn sends for each interface of its device.
const REQUESTS: u64 = 40;

/// What a request's names are taken from.
#[derive(Drop)]
struct Poller {
    draws: Draws,
    names: Vec<NameBuffer>,
    columns: Vec<NameBuffer>,
}

/// A table is read, and its agent replies to Gets of 5 to 50 names, a few of them missing, to
/// GetNexts, and to GetBulks of 1 to 10 columns.
pub fn replies(turn: &Turn<'_>, digest: &mut Digest) -> Result<(), AllocError> {
    let text = device_text(turn.alloc, turn.draws, turn.size, Spelling::Numbers)?;
    let Ok(table) = Table::read(turn.alloc, text.as_bytes()) else {
        return Err(AllocError);
    };
    let mut poller = poller_of(turn, text.as_str())?;
    let mut request = [0; 65507];
    let mut reply = [0; 65507];
    let mut hint = Hint::default();
    'requests: for id in 0..turn.size.saturating_mul(REQUESTS) {
        let size = poller.request(id, &mut request);
        let octets = request.get(..size).unwrap_or(&[]);
        if let Outcome::Reply(n) = answer_near(&table, &CONFIG, octets, &mut reply, &mut hint) {
            digest.add(reply.get(..n).unwrap_or(&[]));
        }
    }
    Ok(())
}

/// A poller of the device: it knows one name of each hundred, and all columns. One name in sixteen
/// has a number too many.
fn poller_of(turn: &Turn<'_>, text: &str) -> Result<Poller, AllocError> {
    let mut draws = turn.draws.apart(6);
    let lines = Lines::of(turn.alloc, text)?;
    let mut names = Vec::new(turn.alloc);
    'names: for _ in 0..turn.size {
        let drawn = draws.next();
        if let Ok(mut name) = parse_numeric(lines.name(drawn).as_bytes()) {
            if drawn % 16 == 0 {
                let _ = name.push(1);
            }
            keep(&name, &mut names)?;
        }
    }
    let mut columns = Vec::new(turn.alloc);
    let parts = parts();
    'parts: for part in &parts {
        'columns: for column in part.columns {
            if let Ok(mut name) = parse_numeric(part.entry.as_bytes()) {
                let _ = name.push((column.0 % 256) as u32);
                keep(&name, &mut columns)?;
            }
        }
    }
    Ok(Poller {
        draws,
        names,
        columns,
    })
}

/// Keeps a name that a message can hold.
fn keep(name: &Oid, names: &mut Vec<NameBuffer>) -> Result<(), AllocError> {
    if name.is_wire() {
        let mut octets = [0; MAX_CONTENT];
        names.push(NameBuffer::new(&EncodedName::write(name, &mut octets)))?;
    }
    Ok(())
}

impl Poller {
    /// Writes the request of this id, and returns how many octets it has.
    fn request(&mut self, id: u64, out: &mut [u8]) -> usize {
        let drawn = self.draws.next();
        let (kind, count, b) = match drawn % 4 {
            0 => (Kind::GetRequest, 5 + (drawn >> 8) % 46, 0),
            1 => (Kind::GetNextRequest, 1 + (drawn >> 8) % 10, 0),
            _ => (
                Kind::GetBulkRequest,
                1 + (drawn >> 8) % 10,
                10 + (drawn >> 16) % 41,
            ),
        };
        let total = if drawn % 4 > 1 {
            ask(&self.columns, &mut self.draws, count, out)
        } else {
            ask(&self.names, &mut self.draws, count, out)
        };
        let parts = Parts {
            version: 1,
            community: b"public",
            kind,
            id: (id % (1 << 31)) as i32,
            a: 0,
            b: (b % 64) as i32,
            bindings: &[],
        };
        if total > out.len().min(65507) {
            return 0;
        }
        seal(&parts, 0, total, out).unwrap_or(0)
    }
}

/// Writes the bindings that ask for this many of the names, and returns how many octets they take.
fn ask(names: &[NameBuffer], draws: &mut Draws, count: u64, out: &mut [u8]) -> usize {
    let mut total: usize = 0;
    'bindings: for _ in 0..count {
        let drawn = draws.next();
        let at = (drawn >> 8) as usize % names.len().max(1);
        if let Some(name) = names.get(at) {
            total = total.saturating_add(append(name, total, out));
        }
    }
    total
}

/// Writes the binding that asks for a name from a place on, and returns how many octets it takes;
/// 0 where there is no room.
fn append(name: &NameBuffer, from: usize, out: &mut [u8]) -> usize {
    match out.get_mut(from..) {
        Some(room) => encode_asking(&name.name(), room).unwrap_or(0),
        None => 0,
    }
}
