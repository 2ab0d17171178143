//! What names mean in modules that import from one another.

use crate::reading::{modules_of, names_of, resolves_to};
use smi_names::{Decider, Names};
use smi_text::Module;
use std::alloc::Global;
use std::process::Abort;
use std::test::Fail;

const MODULES: &[u8] = b"A DEFINITIONS ::= BEGIN
IMPORTS x, y FROM B
  x, y, z, iso FROM C
  far FROM RING-A
  round FROM RING-A
  own FROM A
  gone FROM GONE
  absent, OBJECT-TYPE FROM B;
early OBJECT IDENTIFIER ::= { late 1 }
x OBJECT IDENTIFIER ::= { joint-iso-ccitt 1 }
late OBJECT IDENTIFIER ::= { y 5 }
under OBJECT IDENTIFIER ::= { iso 6 org(7) }
named OBJECT IDENTIFIER ::= { iso(1) 3 }
number OBJECT IDENTIFIER ::= { 1 3 }
each OBJECT IDENTIFIER ::= { other 1 }
other OBJECT IDENTIFIER ::= { each 2 }
on OBJECT IDENTIFIER ::= { each 3 }
missing OBJECT IDENTIFIER ::= { nothing 1 }
onMissing OBJECT IDENTIFIER ::= { missing 1 }
T ::= INTEGER
END
B DEFINITIONS ::= BEGIN IMPORTS z FROM D;
x OBJECT IDENTIFIER ::= { iso 3 }
y OBJECT IDENTIFIER ::= { iso 2 }
END
C DEFINITIONS ::= BEGIN IMPORTS z FROM D;
y OBJECT IDENTIFIER ::= { iso 4 }
iso OBJECT IDENTIFIER ::= { joint-iso-ccitt 9 }
END
D DEFINITIONS ::= BEGIN z OBJECT IDENTIFIER ::= { ccitt 7 } END
RING-A DEFINITIONS ::= BEGIN IMPORTS far, round FROM RING-B;
back OBJECT IDENTIFIER ::= { iso 11 } END
RING-B DEFINITIONS ::= BEGIN IMPORTS far, round FROM RING-C; END
RING-C DEFINITIONS ::= BEGIN IMPORTS round, back FROM RING-A;
far OBJECT IDENTIFIER ::= { back 10 }
END
A DEFINITIONS ::= BEGIN hidden OBJECT IDENTIFIER ::= { iso 12 } END
";

/// A module, a name in it, and what the name resolves to.
type Row = (&'static str, &'static str, &'static str);

/// Returns the index of the first row whose name doesn't resolve, in the row's module, as the row
/// says.
fn unresolved_row(names: &Names<'_>, rows: &[Row]) -> Option<usize> {
    for (k, (home, name, expected)) in rows.iter().enumerate() {
        let found = names.resolution(home.as_bytes(), name.as_bytes());
        if !resolves_to(found, expected) {
            return Some(k);
        }
    }
    None
}

/// What decides the meaning of a name: a definition, with its line; an import, with its line and
/// module; or a built-in root, with its number. What doesn't apply is 0 or empty.
type Decided<'a> = Option<(usize, &'a str, u32)>;

/// Returns whether `decider` is the expected one.
fn is_decided(decider: Option<Decider<'_>>, expected: Decided<'_>) -> bool {
    let Some((line, source, number)) = expected else {
        return decider.is_none();
    };
    match decider {
        Some(Decider::Definition(def)) => def.line == line && source.is_empty(),
        Some(Decider::Import(import)) => {
            import.line == line && import.source.as_bytes() == source.as_bytes()
        }
        Some(Decider::Root(root)) => line == 0 && root == number,
        None => false,
    }
}

/// A module, a name in it, and what decides the name.
type Decision = (&'static str, &'static str, Decided<'static>);

/// Returns the index of the first row whose name isn't decided, in the row's module, by what the
/// row says.
fn undecided_row(names: &Names<'_>, rows: &[Decision]) -> Option<usize> {
    for (k, (home, name, expected)) in rows.iter().enumerate() {
        if !is_decided(names.decider(home.as_bytes(), name.as_bytes()), *expected) {
            return Some(k);
        }
    }
    None
}

#[test]
fn names_resolve_in_their_modules(rt: HostRuntime) -> Result<(), Fail> {
    let modules = modules_of(rt.alloc(), MODULES)?;
    assert_names(&rt, rt.alloc(), &modules, &RESOLUTIONS, &[])
}

fn assert_names(
    rt: &impl Abort,
    alloc: Global,
    modules: &[Module],
    rows: &[Row],
    decisions: &[Decision],
) -> Result<(), Fail> {
    let names = names_of(alloc, modules)?;
    assert!(rt; are_loaded(&names) && are_named(&names, rows, decisions));
    Ok(())
}

fn are_named(names: &Names<'_>, rows: &[Row], decisions: &[Decision]) -> bool {
    unresolved_row(names, rows).is_none() && undecided_row(names, decisions).is_none()
}

/// Returns whether two modules that were read are loaded, and two that weren't are not.
fn are_loaded(names: &Names<'_>) -> bool {
    names.is_loaded(b"RING-C")
        && names.is_loaded(b"A")
        && !names.is_loaded(b"GONE")
        && !names.is_loaded(b"")
}

static RESOLUTIONS: [Row; 29] = [
    // The module's own definition, not the imports of the name.
    ("A", "x", "2.1"),
    // The first import of the name.
    ("A", "y", "1.2"),
    ("A", "late", "1.2.5"),
    ("A", "early", "1.2.5.1"),
    // An import from a module that doesn't define the name, but imports it from a third.
    ("A", "z", "0.7"),
    // An imported name comes before the root.
    ("A", "iso", "2.9"),
    ("A", "under", "2.9.6.7"),
    ("A", "joint-iso-ccitt", "2"),
    ("B", "iso", "1"),
    ("D", "ccitt", "0"),
    ("A", "named", "1.3"),
    ("A", "number", "1.3"),
    // Imports around a ring of modules: those of `far` end at a definition, those of `round` never.
    ("A", "far", "1.11.10"),
    ("A", "round", "cycle"),
    ("RING-C", "round", "cycle"),
    ("A", "own", "cycle"),
    ("A", "each", "cycle"),
    ("A", "on", "cycle"),
    ("A", "gone", "unresolved"),
    ("A", "absent", "unresolved"),
    ("A", "OBJECT-TYPE", "unresolved"),
    ("A", "missing", "unresolved"),
    ("A", "onMissing", "unresolved"),
    ("A", "T", "unresolved"),
    ("A", "nothing", "no meaning"),
    ("A", "hidden", "no meaning"),
    ("B", "late", "no meaning"),
    ("GONE", "iso", "no meaning"),
    ("", "", "no meaning"),
];

#[test]
fn each_name_is_decided_by_one_definition_import_or_root(rt: HostRuntime) -> Result<(), Fail> {
    let modules = modules_of(rt.alloc(), MODULES)?;
    assert_names(&rt, rt.alloc(), &modules, &[], &DECISIONS)
}

static DECISIONS: [Decision; 10] = [
    ("A", "x", Some((10, "", 0))),
    ("A", "T", Some((20, "", 0))),
    ("A", "y", Some((2, "B", 0))),
    ("A", "iso", Some((3, "C", 0))),
    ("A", "gone", Some((7, "GONE", 0))),
    ("A", "OBJECT-TYPE", Some((8, "B", 0))),
    ("A", "joint-iso-ccitt", Some((0, "", 2))),
    ("RING-B", "iso", Some((0, "", 1))),
    ("A", "nothing", None),
    ("GONE", "iso", None),
];
