//! What the tests share: tables, names, and walks and Gets with community `public`.
ghost use Rattle.std.specs.Prelude.{◌≡◌, All, true};
ghost use Rattle.snmp_oid.specs.Identifier.{IsWire, wire};
ghost use Rattle.snmp_walk.specs.Facts.{IsFresh};
ghost use Rattle.snmp_walk.specs.WalkState.{IsMethod};

use snmp_agent::{Config, Table};
use snmp_walk::{Link, Method, Mode, Sink, WalkCore, WalkEnd, run_get, run_walk};
use snmp_wire::{Oid, parse_numeric};
use std::alloc::Global;
use std::fmt::Debug;
use std::process::Abort;

/// The root of most walks.
pub const ROOT: &[u8] = b"1.3.6.1.4.1.32473.1";

/// Returns the configuration of an agent with community `public`, whose messages have at most
/// `max_size` octets. A size outside 1 to 65507 is changed to the nearest in it.
pub fn public(max_size: usize) -> Config<'static> {
    Config {
        community: b"public",
        max_size: max_size.clamp(1, 65507),
    }
}

/// Returns the table that `text` describes, as a table file.
pub fn table_of(rt: &impl Abort, alloc: Global, text: &[u8]) -> Table {
    Table::read(alloc, text).expect(rt, "a table")
}

/// Returns the identifier that `text` writes as numbers and dots.
pub fn name_of(rt: &impl Abort, text: &[u8]) -> Oid {
    parse_numeric(text).expect(rt, "a name")
}

/// Returns the walk below `root`, with first id `first_id`. A walk needs max-repetitions of at
/// least 1 and an id below 2^31, so others are changed to such numbers.
pub fn walk_of(rt: &impl Abort, root: &[u8], mode: Mode, method: Method, first_id: u32) -> WalkCore
    ensures { IsFresh result }
{
    let method = match method {
        Method::Next => Method::Next,
        Method::Bulk(repetitions) => Method::Bulk(repetitions.max(1)),
    };
    let root = name_of(rt, root);
    let first_id = first_id & 0x7FFF_FFFF;
    WalkCore::start(root, mode, method, b"public", first_id).expect(rt, "a root that can be sent")
}

/// Returns the walk below [`ROOT`] that is resumed after the name `after`, with first id 1.
pub fn resumed_walk(rt: &impl Abort, after: &Oid, method: Method) -> WalkCore
    requires { IsMethod method }
    ensures { IsFresh result }
{
    let root = name_of(rt, ROOT);
    WalkCore::resume(root, after, method, b"public", 1).expect(rt, "names that can be sent")
}

/// Runs the walk, and returns whether it ends with `end`.
pub fn walk_ends<L: Link, S: Sink>(
    link: &mut L,
    core: WalkCore,
    retries: u32,
    sink: &mut S,
    end: &WalkEnd,
) -> bool
    requires { IsFresh core }
{
    run_walk(link, core, retries, sink) == *end
}

/// Appends an item.
pub fn push<T: Debug + Drop>(rt: &impl Abort, items: &mut Vec<T>, item: T) {
    items.push(item).expect(rt, "memory for an item");
}

/// Appends these octets.
pub fn put(rt: &impl Abort, text: &mut Vec<u8>, octets: &[u8]) {
    text.extend_from_slice(octets)
        .expect(rt, "memory for octets");
}

/// Returns the identifiers that `texts` write as numbers and dots.
pub fn names_of(rt: &impl Abort, alloc: Global, texts: &[&[u8]]) -> Vec<Oid> {
    let mut names = Vec::new(alloc);
    for text in texts {
        push(rt, &mut names, name_of(rt, text));
    }
    names
}

/// Returns whether each name can be sent.
fn are_sendable(names: &[Oid]) -> bool
    ensures { result ≡ true → All (λ o. IsWire (wire o)) names.now }
{
    names.iter().all(|name| name.to_wire().is_ok())
}

/// Runs the Get of these names, and returns whether it ends with `end`. Its id is `id` modulo 2^31.
/// Runs nothing and returns false if there are no names, or one can't be sent.
pub fn get_ends<L: Link, S: Sink>(
    link: &mut L,
    names: &[Oid],
    id: u32,
    retries: u32,
    sink: &mut S,
    end: &WalkEnd,
) -> bool {
    if names.is_empty() || !are_sendable(names) {
        return false;
    }
    run_get(link, names, b"public", id & 0x7FFF_FFFF, retries, sink) == *end
}
