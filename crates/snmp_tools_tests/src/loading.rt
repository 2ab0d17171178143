//! Trees that are loaded from module files.

use crate::rows::{file_pairs, shared_files};
use crate::run::Held;
use smi_tree::Tree;
use snmp_io::memory::{MemoryFiles, MemoryOutput};
use snmp_io::{KeyedFiles, Output};
use snmp_tools::{FilesError, load_tree};
use std::alloc::Global;
use std::hash::RandomState;
use std::process::Abort;
use std::test::Fail;

// Returns the tree of these files, or why they are refused.
fn load<'a>(
    alloc: Global,
    files: Held<'_>,
    paths: &[&'a str],
    err: &mut MemoryOutput,
) -> Result<Tree, FilesError<'a>> {
    let files = MemoryFiles { files };
    load_tree(alloc, &files, paths, err)
}

// Asserts that the tree has five nodes, and that ACROSS-MIB::across is 1.7.2.
fn assert_across(rt: &impl Abort, tree: &Tree) {
    assert!(rt; tree.len() == 5);
    let Some(id) = tree.find(b"ACROSS-MIB", b"across") else {
        panic!(rt; "no node")
    };
    assert!(rt; id < tree.len() && tree.node(id).oid.as_slice() == [1, 7, 2].as_slice());
}

#[test]
fn names_are_found_across_files(rt: HostRuntime) -> Result<(), Fail> {
    let files = shared_files(&rt, rt.alloc())?;
    let files = file_pairs(rt.alloc(), files.as_slice())?;
    let mut err = MemoryOutput::new(rt.alloc());
    let tree = load(
        rt.alloc(),
        files.as_slice(),
        &["across.txt", "well.txt"],
        &mut err,
    )?;
    let roots = load(rt.alloc(), files.as_slice(), &[], &mut err)?;
    assert_across(&rt, &tree);
    assert!(rt; roots.len() == 3);
    Ok(())
}

// Asserts that the tree has 15 nodes, and that the output accepted the first 20 octets of the
// warnings and then failed once.
fn assert_cut_off(rt: &impl Abort, tree: &Tree, err: &MemoryOutput) {
    assert!(rt; tree.len() == 15);
    assert!(rt; err.octets() == b"snmp: TINY-MIB impor".as_slice());
    assert!(rt; err.faults() == 1);
}

#[test]
fn a_tree_is_loaded_though_the_output_fails(rt: HostRuntime) -> Result<(), Fail> {
    let files = shared_files(&rt, rt.alloc())?;
    let files = file_pairs(rt.alloc(), files.as_slice())?;
    let mut err = MemoryOutput::with_limit(rt.alloc(), 20);
    let tree = load(rt.alloc(), files.as_slice(), &["tiny.txt"], &mut err)?;
    assert_cut_off(&rt, &tree, &err);
    Ok(())
}

#[test]
fn a_tree_loaded_with_a_key_has_as_many_nodes(rt: HostRuntime) -> Result<(), Fail> {
    let files = shared_files(&rt, rt.alloc())?;
    let files = file_pairs(rt.alloc(), files.as_slice())?;
    let mut err = MemoryOutput::new(rt.alloc());
    let files = KeyedFiles {
        files: MemoryFiles {
            files: files.as_slice(),
        },
        key: RandomState::new(&rt).ok(),
        ends_process: false,
    };
    let tree = load_tree(rt.alloc(), &files, &["across.txt", "well.txt"], &mut err)?;
    assert_across(&rt, &tree);
    Ok(())
}
