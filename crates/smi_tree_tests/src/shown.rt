//! Names read and shown with the tree of the tiny modules. The table `rows/shown.rt` of
//! `snmp_tools_tests` tests more of what is shown with a tree.

use crate::names::random_oid;
use crate::reading::{TINY, modules_of, oid};
use smi_show::{Letters, LineWriter, line, name_text, resolve};
use smi_tree::Tree;
use snmp_oid::Oid;
use snmp_wire::ValueRef;
use std::alloc::Global;
use std::process::Abort;
use std::test::Fail;

const STATE: &str = "1.3.6.1.4.1.32473.1.0";

const MAC: &str = "1.3.6.1.4.1.32473.2.1.2.3.119.101.115";

const USE: &str = "1.3.6.1.4.1.32473.3.1.1.119.101.115";

/// Returns the tree of the tiny modules, in a box, so that the code that drops it is proved only
/// once.
fn tiny(alloc: Global) -> Result<Box<Tree>, Fail> {
    let modules = modules_of(alloc, TINY)?;
    let (tree, _warnings) = Tree::load(alloc, modules)?;
    Ok(Box::new(alloc, tree)?)
}

#[test]
fn names_are_read(rt: HostRuntime) -> Result<(), Fail> {
    let tree = tiny(rt.alloc())?;
    assert_read(&rt, &tree)
}

/// Names, with the identifiers that they mean.
static READ: [(&str, &str); 3] = [
    ("TINY-MIB::tinyState.0", STATE),
    ("TINY-MIB::tinyMac.\"wes\"", MAC),
    ("TINY-MIB::tinyKeyUse.'wes'", USE),
];

fn assert_read(rt: &impl Abort, tree: &Tree) -> Result<(), Fail> {
    for (text, expected) in &READ {
        assert!(rt; means(tree, text.as_bytes(), &oid(expected)?), "{text}");
    }
    Ok(())
}

/// Returns whether `text` means this identifier.
fn means(tree: &Tree, text: &[u8], expected: &Oid) -> bool {
    match resolve(tree, text) {
        Ok(found) => found == *expected,
        Err(_) => false,
    }
}

fn letters_of(letters: &str) -> Result<Letters, Fail> {
    Ok(Letters::parse(letters.as_bytes()).ok().ok_or("letters")?)
}

/// Prefixes of most of the identifiers that are shown.
static PREFIXES: [&str; 3] = [
    "1.3.6.1.4.1.32473",
    "1.3.6.1.4.1.32473.2.1.2",
    "1.3.6.1.4.1.32473.3.1.1",
];

#[test]
fn what_is_shown_is_read_back(rt: HostRuntime) -> Result<(), Fail> {
    let tree = tiny(rt.alloc())?;
    assert_prefixes(&rt, rt.alloc(), &tree)
}

fn assert_prefixes(rt: &impl Abort, alloc: Global, tree: &Tree) -> Result<(), Fail> {
    for prefix in &PREFIXES {
        let prefix = oid(prefix)?;
        for seed in 0..1000 {
            let name = random_oid(prefix.as_slice(), seed);
            assert!(rt; are_read_back(alloc, tree, &name)?);
        }
    }
    Ok(())
}

/// Returns whether the names of an identifier are read back, with letters of three kinds.
fn are_read_back(alloc: Global, tree: &Tree, name: &Oid) -> Result<bool, Fail> {
    for letters in ["S", "Sb", "n"] {
        if !is_read_back(alloc, tree, letters, name)? {
            return Ok(false);
        }
    }
    Ok(true)
}

fn is_read_back(alloc: Global, tree: &Tree, letters: &str, name: &Oid) -> Result<bool, Fail> {
    let mut text = Vec::new(alloc);
    name_text(tree, &letters_of(letters)?, name, &mut text)?;
    Ok(means(tree, &text, name))
}

#[test]
fn a_line_writer_writes_each_line_as_line_does(rt: HostRuntime) -> Result<(), Fail> {
    let tree = tiny(rt.alloc())?;
    assert_writers(&rt, rt.alloc(), &tree)
}

fn assert_writers(rt: &impl Abort, alloc: Global, tree: &Tree) -> Result<(), Fail> {
    for letters in ["", "b", "f", "n", "q", "v"] {
        assert_written(rt, alloc, tree, &letters_of(letters)?)?;
    }
    Ok(())
}

/// Asserts that one `LineWriter` writes the same lines as `line`: for each of `PREFIXES` in turn,
/// and after each for up to three random names. Most of these begin with the prefix.
fn assert_written(
    rt: &impl Abort,
    alloc: Global,
    tree: &Tree,
    letters: &Letters,
) -> Result<(), Fail> {
    let mut writer = LineWriter::new(tree);
    for round in 0..100 {
        for prefix in &PREFIXES {
            let prefix = oid(prefix)?;
            assert!(rt; is_written_alike(alloc, tree, &mut writer, letters, &prefix)?);
            for seed in 0..round % 4 {
                let name = random_oid(prefix.as_slice(), round * 4 + seed);
                assert!(rt; is_written_alike(alloc, tree, &mut writer, letters, &name)?);
            }
        }
    }
    Ok(())
}

/// Returns whether the writer's next line is the one that `line` writes for this name.
fn is_written_alike(
    alloc: Global,
    tree: &Tree,
    writer: &mut LineWriter<'_>,
    letters: &Letters,
    name: &Oid,
) -> Result<bool, Fail> {
    let single_line = single_line(alloc, tree, letters, name)?;
    let mut written = Vec::new(alloc);
    writer.line(letters, name, &ValueRef::Integer(1), &mut written)?;
    Ok(written.as_slice() == single_line.as_slice())
}

fn single_line(alloc: Global, tree: &Tree, letters: &Letters, name: &Oid) -> Result<Vec<u8>, Fail> {
    let mut text = Vec::new(alloc);
    line(tree, letters, name, &ValueRef::Integer(1), &mut text)?;
    Ok(text)
}
