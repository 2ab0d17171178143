//! Look-ups among identifiers. Some of these occur more than once.

use crate::reading::oid;
use smi_tree::{Deepest, Identifiers};
use snmp_oid::{Oid, StoredOid};
use std::alloc::Global;
use std::process::Abort;
use std::test::Fail;

/// `1.3.6` occurs twice, `1.3.6.1` three times.
static OIDS: [&str; 10] = [
    "1",
    "1.3.6",
    "1.3.6.10",
    "1.3.6.1",
    "1.3.6",
    "1.3.6.1",
    "1.3.6.2",
    "1.3.6.4294967295",
    "1.3.6.1",
    "2.5.1",
];

/// Returns the identifiers, in a box, so that the code that drops them is proved only once.
fn identifiers(alloc: Global) -> Result<Box<Identifiers>, Fail> {
    let mut oids = Vec::new(alloc);
    push_oids(alloc, &mut oids)?;
    Ok(Box::new(alloc, Identifiers::new(alloc, oids)?)?)
}

fn push_oids(alloc: Global, oids: &mut Vec<StoredOid>) -> Result<(), Fail> {
    for text in &OIDS {
        oids.push(StoredOid::join(alloc, oid(text)?.as_slice(), &[])?)?;
    }
    Ok(())
}

static FIRST: [(&str, Option<usize>); 10] = [
    ("1", Some(0)),
    ("1.3", None),
    ("1.3.6", Some(1)),
    ("1.3.6.1", Some(3)),
    ("1.3.6.10", Some(2)),
    ("1.3.6.3", None),
    ("1.3.6.1.1", None),
    ("2", None),
    ("2.5.1", Some(9)),
    ("3", None),
];

#[test]
fn the_first_index_is_found(rt: HostRuntime) -> Result<(), Fail> {
    let identifiers = identifiers(rt.alloc())?;
    assert_first(&rt, &identifiers)
}

fn assert_first(rt: &impl Abort, identifiers: &Identifiers) -> Result<(), Fail> {
    assert!(rt; identifiers.len() == 10);
    for (text, expected) in &FIRST {
        assert!(rt; identifiers.find(&oid(text)?) == *expected, "{text}");
    }
    Ok(())
}

/// Identifiers, each with the index and the length of its longest known prefix.
static DEEPEST: [(&str, Option<(usize, usize)>); 10] = [
    ("1", Some((0, 1))),
    ("1.3", Some((0, 1))),
    ("1.4.6.1", Some((0, 1))),
    ("1.3.6", Some((1, 3))),
    ("1.3.6.3.1", Some((1, 3))),
    ("1.3.6.1", Some((3, 4))),
    ("1.3.6.10.0.0", Some((2, 4))),
    ("2.5", None),
    ("2.5.1.0", Some((9, 3))),
    ("0", None),
];

#[test]
fn the_longest_prefix_is_deepest(rt: HostRuntime) -> Result<(), Fail> {
    let identifiers = identifiers(rt.alloc())?;
    assert_deepest(&rt, &identifiers)
}

fn assert_deepest(rt: &impl Abort, identifiers: &Identifiers) -> Result<(), Fail> {
    let mut near = usize::MAX;
    for (text, expected) in &DEEPEST {
        let oid = oid(text)?;
        assert!(rt;
            index_and_depth(identifiers.deepest_near(&oid, &mut 0)) == *expected,
            "{text}"
        );
        assert!(rt;
            index_and_depth(identifiers.deepest_near(&oid, &mut near)) == *expected,
            "{text}"
        );
    }
    Ok(())
}

/// Returns the index and the depth of what was found.
fn index_and_depth(deepest: Option<Deepest>) -> Option<(usize, usize)> {
    match deepest {
        Some(deepest) => Some((deepest.id, deepest.depth)),
        None => None,
    }
}

static CHILDREN: [(&str, &[usize]); 6] = [
    ("1.3.6", &[3, 6, 2, 7]),
    ("1.3", &[1]),
    ("1", &[]),
    ("1.3.6.1", &[]),
    ("2.5", &[9]),
    ("1.3.7", &[]),
];

#[test]
fn children_come_in_order(rt: HostRuntime) -> Result<(), Fail> {
    let identifiers = identifiers(rt.alloc())?;
    assert_children(&rt, &identifiers)
}

fn assert_children(rt: &impl Abort, identifiers: &Identifiers) -> Result<(), Fail> {
    for (text, expected) in &CHILDREN {
        let oid = oid(text)?;
        assert!(rt; has_children(identifiers, &oid, expected), "{text}");
    }
    Ok(())
}

/// Returns whether the children of an identifier have these indices, in order.
fn has_children(identifiers: &Identifiers, oid: &Oid, expected: &[usize]) -> bool {
    let mut remaining = expected;
    for index in identifiers.children(oid) {
        match rest_after(remaining, index) {
            Some(rest) => remaining = rest,
            None => return false,
        }
    }
    remaining.is_empty()
}

/// Returns the other indices if the first one is `index`.
fn rest_after(indices: &[usize], index: usize) -> Option<&[usize]> {
    match indices {
        [first, rest @ ..] if *first == index => Some(rest),
        _ => None,
    }
}
