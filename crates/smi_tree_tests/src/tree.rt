//! Trees of whole modules: their warnings in order, and what each look-up finds.

use crate::reading::{TINY, modules_of, oid};
use smi_tree::{NodeId, Tree, Warning};
use snmp_oid::Oid;
use std::alloc::Global;
use std::process::Abort;
use std::test::Fail;

static TINY_WARNINGS: [&str; 4] = [
    "TINY-MIB imports absent from TINY-SMI, which has none",
    "TINY-MIB imports from GONE-MIB, which is not loaded",
    "TINY-MIB::loopA stands on a cycle",
    "TINY-MIB::loopB stands on a cycle",
];

/// The nodes of the tiny modules, without the built-in roots.
static TINY_NODES: [(&str, &str, &str); 12] = [
    ("TINY-SMI", "internet", "1.3.6.1"),
    ("TINY-SMI", "private", "1.3.6.1.4"),
    ("TINY-SMI", "enterprises", "1.3.6.1.4.1"),
    ("TINY-MIB", "tiny", "1.3.6.1.4.1.32473"),
    ("TINY-MIB", "tinyState", "1.3.6.1.4.1.32473.1"),
    ("TINY-MIB", "tinyTable", "1.3.6.1.4.1.32473.2"),
    ("TINY-MIB", "tinyEntry", "1.3.6.1.4.1.32473.2.1"),
    ("TINY-MIB", "tinyName", "1.3.6.1.4.1.32473.2.1.1"),
    ("TINY-MIB", "tinyMac", "1.3.6.1.4.1.32473.2.1.2"),
    ("TINY-MIB", "tinyKeyTable", "1.3.6.1.4.1.32473.3"),
    ("TINY-MIB", "tinyKeyEntry", "1.3.6.1.4.1.32473.3.1"),
    ("TINY-MIB", "tinyKeyUse", "1.3.6.1.4.1.32473.3.1.1"),
];

/// A tree, and the warnings about its modules.
#[derive(Drop)]
struct Loaded {
    tree: Tree,
    warnings: Vec<Warning>,
}

/// Returns the tree of a text's modules, in a box, so that the code that drops it is proved only
/// once.
fn load(alloc: Global, text: &str) -> Result<Box<Loaded>, Fail> {
    let modules = modules_of(alloc, text.as_bytes())?;
    let (tree, warnings) = Tree::load(alloc, modules)?;
    Ok(Box::new(alloc, Loaded { tree, warnings })?)
}

/// Returns the texts, one after the other.
fn join_texts(alloc: Global, texts: &[&str]) -> Result<String, Fail> {
    let mut all = String::new(alloc);
    for text in texts {
        all.push_str(text)?;
    }
    Ok(all)
}

/// Returns whether `text` consists of `parts`, in order.
fn consists_of(text: &str, parts: &[&[u8]]) -> bool {
    let mut rest = text.as_bytes();
    for part in parts {
        match rest.strip_prefix(*part) {
            Some(after) => rest = after,
            None => return false,
        }
    }
    rest.is_empty()
}

/// Returns whether `sentence` says what `warning` does. Only four kinds of warning have a sentence
/// here.
fn says(sentence: &str, warning: &Warning) -> bool {
    match warning {
        Warning::DoubleModule(home) => {
            consists_of(sentence, &[home.as_bytes(), b" is loaded twice"])
        }
        Warning::MissingModule(home, from) => consists_of(
            sentence,
            &[
                home.as_bytes(),
                b" imports from ",
                from.as_bytes(),
                b", which is not loaded",
            ],
        ),
        Warning::MissingImport(home, name, from) => consists_of(
            sentence,
            &[
                home.as_bytes(),
                b" imports ",
                name.as_bytes(),
                b" from ",
                from.as_bytes(),
                b", which has none",
            ],
        ),
        Warning::Cycle(home, name) => consists_of(
            sentence,
            &[
                home.as_bytes(),
                b"::",
                name.as_bytes(),
                b" stands on a cycle",
            ],
        ),
        _ => false,
    }
}

/// Returns whether the sentences say what the warnings do, in order.
fn say(sentences: &[&str], warnings: &[Warning]) -> bool {
    if sentences.len() != warnings.len() {
        return false;
    }
    for (sentence, warning) in sentences.iter().zip(warnings) {
        if !says(sentence, warning) {
            return false;
        }
    }
    true
}

/// Returns the node of a label in a module.
fn find(tree: &Tree, home: &[u8], label: &[u8]) -> Option<NodeId> {
    tree.find(home, label)
}

/// Returns the first node of a label, in any module or among the built-in roots.
fn find_any(tree: &Tree, label: &[u8]) -> Option<NodeId> {
    tree.find_any(label)
}

/// Returns whether a label in a module has the identifier `wanted`.
fn is_found(tree: &Tree, home: &str, label: &str, wanted: &str) -> Result<bool, Fail> {
    Ok(match find(tree, home.as_bytes(), label.as_bytes()) {
        Some(id) => id < tree.len() && tree.node(id).oid.as_slice() == oid(wanted)?.as_slice(),
        None => false,
    })
}

/// Returns whether a tree has these nodes, each of a label in a module with its identifier.
fn has_nodes(tree: &Tree, rows: &[(&str, &str, &str)]) -> Result<bool, Fail> {
    for (home, label, text) in rows {
        if !is_found(tree, home, label, text)? {
            return Ok(false);
        }
    }
    Ok(true)
}

/// Returns the first node of a label directly below an identifier.
fn child(tree: &Tree, parent: &str, label: &str) -> Result<Option<NodeId>, Fail> {
    Ok(tree.child(&oid(parent)?, label.as_bytes()))
}

/// Returns whether a tree has the nodes of the tiny modules and the three built-in roots, and no
/// others.
fn is_tiny(tree: &Tree) -> Result<bool, Fail> {
    Ok(has_nodes(tree, &TINY_NODES)? && tree.len() == TINY_NODES.len() + 3)
}

/// Returns the texts of the two tiny modules, the first without its last word.
fn tiny_texts() -> Result<(&'static str, &'static str), Fail> {
    let text = str::from_utf8(TINY).ok().ok_or("no text")?;
    Ok(text.split_once("END\n").ok_or("no second module")?)
}

#[test]
fn the_tiny_modules_load_in_either_order(rt: HostRuntime) -> Result<(), Fail> {
    let (smi, mib) = tiny_texts()?;
    assert_tiny(&rt, rt.alloc(), &[smi, "END\n", mib])?;
    assert_tiny(&rt, rt.alloc(), &[mib, smi, "END\n"])
}

fn assert_tiny(rt: &impl Abort, alloc: Global, texts: &[&str]) -> Result<(), Fail> {
    let loaded = load(alloc, &join_texts(alloc, texts)?)?;
    assert_tiny_tree(rt, &loaded)
}

fn assert_tiny_tree(rt: &impl Abort, loaded: &Loaded) -> Result<(), Fail> {
    let tree = &loaded.tree;
    assert!(rt; say(&TINY_WARNINGS, &loaded.warnings));
    assert!(rt; is_tiny(tree)?);
    assert!(rt;
        tree.has_module(b"TINY-MIB")
            && !tree.has_module(b"GONE-MIB")
            && find(tree, b"TINY-MIB", b"enterprises").is_none()
            && find(tree, b"GONE-MIB", b"other").is_none()
            && find_any(tree, b"loopA").is_none()
    );
    Ok(())
}

#[test]
fn modules_loaded_twice_change_no_node(rt: HostRuntime) -> Result<(), Fail> {
    let (smi, mib) = tiny_texts()?;
    let texts = [smi, "END\n", mib, smi, "END\n", mib];
    let loaded = load(rt.alloc(), &join_texts(rt.alloc(), &texts)?)?;
    assert_twice_tiny(&rt, &loaded)
}

fn assert_twice_tiny(rt: &impl Abort, loaded: &Loaded) -> Result<(), Fail> {
    let expected = [
        TINY_WARNINGS[0],
        TINY_WARNINGS[1],
        TINY_WARNINGS[2],
        TINY_WARNINGS[3],
        "TINY-SMI is loaded twice",
        "TINY-MIB is loaded twice",
    ];
    assert!(rt; say(&expected, &loaded.warnings));
    assert!(rt; is_tiny(&loaded.tree)?);
    Ok(())
}

const ONE_AND_TWO: &str = "A DEFINITIONS ::= BEGIN
one OBJECT IDENTIFIER ::= { iso 3 }
two OBJECT IDENTIFIER ::= { iso 3 }
below OBJECT IDENTIFIER ::= { two 1 }
own OBJECT IDENTIFIER ::= { 1 }
END
";

/// Identifiers, each with the label of the node that is its longest prefix, if there is one, and
/// the numbers after this prefix.
static DEEPEST: [(&str, Option<&str>, &[u32]); 5] = [
    ("1.3", Some("one"), &[]),
    ("1.3.2", Some("one"), &[2]),
    ("1.3.1.9", Some("below"), &[9]),
    ("1.4", Some("iso"), &[4]),
    ("3", None, &[3]),
];

/// Returns whether the node that is the longest prefix of an identifier has this label, and these
/// numbers follow it.
fn is_deepest(tree: &Tree, text: &str, label: Option<&str>, numbers: &[u32]) -> Result<bool, Fail> {
    let oid = oid(text)?;
    let (found, rest) = tree.deepest(&oid);
    Ok(is_labelled(tree, found, label) && rest == numbers)
}

/// Returns whether a node has this label, or both are absent.
fn is_labelled(tree: &Tree, found: Option<NodeId>, label: Option<&str>) -> bool {
    match (found, label) {
        (Some(id), Some(label)) => id < tree.len() && tree.node(id).label == label.as_bytes(),
        (found, label) => found.is_none() && label.is_none(),
    }
}

#[test]
fn the_first_node_represents_an_identifier(rt: HostRuntime) -> Result<(), Fail> {
    let loaded = load(rt.alloc(), ONE_AND_TWO)?;
    assert_one_and_two(&rt, &loaded.tree)
}

fn assert_one_and_two(rt: &impl Abort, tree: &Tree) -> Result<(), Fail> {
    for (text, label, rest) in &DEEPEST {
        assert!(rt; is_deepest(tree, text, *label, rest)?, "{text}");
    }
    assert!(rt; child(tree, "1", "one")? == find(tree, b"A", b"one"));
    assert!(rt; child(tree, "1", "two")?.is_none() && child(tree, "2", "one")?.is_none());
    Ok(())
}

const SHARED: &str = "A DEFINITIONS ::= BEGIN
shared OBJECT IDENTIFIER ::= { 1 3 }
only OBJECT IDENTIFIER ::= { 1 4 }
END
B DEFINITIONS ::= BEGIN
shared OBJECT IDENTIFIER ::= { 1 5 }
mine OBJECT IDENTIFIER ::= { 1 6 }
iso OBJECT IDENTIFIER ::= { 2 7 }
END
C DEFINITIONS ::= BEGIN
mine OBJECT IDENTIFIER ::= { 1 8 }
iso OBJECT IDENTIFIER ::= { 2 9 }
END
A DEFINITIONS ::= BEGIN
mine OBJECT IDENTIFIER ::= { 1 10 }
END
";

/// The node of each label in the first module of each name. Some labels occur in several modules,
/// and one is also a built-in root.
static SHARED_NODES: [(&str, &str, &str); 7] = [
    ("A", "shared", "1.3"),
    ("A", "only", "1.4"),
    ("B", "shared", "1.5"),
    ("B", "mine", "1.6"),
    ("B", "iso", "2.7"),
    ("C", "mine", "1.8"),
    ("C", "iso", "2.9"),
];

/// Names of modules, each with a label that isn't found there. Only the first module A counts, so
/// `mine` isn't found in A.
static ABSENT: [(&str, &str); 7] = [
    ("A", "mine"),
    ("A", "iso"),
    ("B", "only"),
    ("C", "shared"),
    ("C", "gone"),
    ("D", "shared"),
    ("D", "gone"),
];

#[test]
fn a_label_is_found_in_each_of_its_modules(rt: HostRuntime) -> Result<(), Fail> {
    let loaded = load(rt.alloc(), SHARED)?;
    assert_shared(&rt, &loaded.tree)
}

fn assert_shared(rt: &impl Abort, tree: &Tree) -> Result<(), Fail> {
    assert!(rt; has_nodes(tree, &SHARED_NODES)?);
    for (home, label) in &ABSENT {
        assert!(rt;
            find(tree, home.as_bytes(), label.as_bytes()).is_none(),
            "{home}::{label}"
        );
    }
    assert!(rt; find_any(tree, b"shared") == find(tree, b"A", b"shared"));
    assert!(rt; find_any(tree, b"mine") == find(tree, b"B", b"mine"));
    assert!(rt; find_any(tree, b"iso") == Some(1) && find_any(tree, b"gone").is_none());
    Ok(())
}

const NAMESAKES: &str = "A DEFINITIONS ::= BEGIN
top OBJECT IDENTIFIER ::= { iso 9 }
same OBJECT IDENTIFIER ::= { top 5 }
other OBJECT IDENTIFIER ::= { top 3 }
END
B DEFINITIONS ::= BEGIN
same OBJECT IDENTIFIER ::= { 1 9 3 }
iso OBJECT IDENTIFIER ::= { 1 9 8 }
END
C DEFINITIONS ::= BEGIN
same OBJECT IDENTIFIER ::= { 1 9 4 }
top OBJECT IDENTIFIER ::= { 1 9 9 }
END
D DEFINITIONS ::= BEGIN
same OBJECT IDENTIFIER ::= { 1 9 5 1 }
iso OBJECT IDENTIFIER ::= { 1 9 7 }
END
E DEFINITIONS ::= BEGIN
same OBJECT IDENTIFIER ::= { 1 9 4 }
END
";

/// Identifiers, each with a label and the module of its first child with this label.
static FIRST_CHILDREN: [(&str, &str, &str); 5] = [
    ("1.9", "same", "C"),
    ("1.9", "top", "C"),
    ("1.9", "iso", "D"),
    ("1.9.5", "same", "D"),
    ("1", "top", "A"),
];

#[test]
fn the_first_child_with_a_label_has_the_lowest_number(rt: HostRuntime) -> Result<(), Fail> {
    let loaded = load(rt.alloc(), NAMESAKES)?;
    assert_first_children(&rt, &loaded.tree)
}

fn assert_first_children(rt: &impl Abort, tree: &Tree) -> Result<(), Fail> {
    for (parent, label, home) in &FIRST_CHILDREN {
        let wanted = find(tree, home.as_bytes(), label.as_bytes());
        assert!(rt; child(tree, parent, label)? == wanted, "{parent} {label}");
    }
    for label in &["same", "other", "top", "iso", "gone"] {
        assert!(rt; is_as_searched(tree, &Oid::new(), label), "{label}");
        for id in 0..tree.len() {
            let parent = tree.node(id).oid.to_oid();
            assert!(rt; is_as_searched(tree, &parent, label), "{id} {label}");
        }
    }
    Ok(())
}

/// Returns whether `Tree::child` finds the same child as a search of all children of the identifier
/// for the first one with this label.
fn is_as_searched(tree: &Tree, oid: &Oid, label: &str) -> bool {
    let mut searched = None;
    for id in tree.children(oid) {
        if searched.is_none() && is_labelled(tree, Some(id), Some(label)) {
            searched = Some(id);
        }
    }
    tree.child(oid, label.as_bytes()) == searched
}

/// Appends a module of 1000 definitions, each below the next, and the last below the first.
fn push_ring(text: &mut String) -> Result<(), Fail> {
    text.push_str("R DEFINITIONS ::= BEGIN\n")?;
    for k in 0..1000 {
        let parent = (k + 1) % 1000;
        writeln!(text, "r{k} OBJECT IDENTIFIER ::= {{ r{parent} 1 }}")?;
    }
    text.push_str("END\n")?;
    Ok(())
}

#[test]
fn each_name_on_a_ring_has_a_warning(rt: HostRuntime) -> Result<(), Fail> {
    let mut text = String::new(rt.alloc());
    push_ring(&mut text)?;
    assert!(rt; has_ring(rt.alloc(), &text)?);
    Ok(())
}

#[test]
fn a_name_on_a_ring_of_imports_has_one_warning(rt: HostRuntime) -> Result<(), Fail> {
    let text = "A DEFINITIONS ::= BEGIN IMPORTS x FROM B;
y OBJECT IDENTIFIER ::= { x 1 }
END
B DEFINITIONS ::= BEGIN IMPORTS x FROM A; END
";
    let loaded = load(rt.alloc(), text)?;
    assert!(rt; say(&["A::y stands on a cycle"], &loaded.warnings) && loaded.tree.len() == 3);
    Ok(())
}

/// Returns whether a text has a tree of only the built-in roots, and a warning for each definition
/// on the ring.
fn has_ring(alloc: Global, text: &str) -> Result<bool, Fail> {
    let loaded = load(alloc, text)?;
    Ok(loaded.tree.len() == 3 && are_on_a_ring(alloc, &loaded.warnings)?)
}

/// Returns whether the warnings say of each of the 1000 definitions in turn that it is on a cycle.
fn are_on_a_ring(alloc: Global, warnings: &[Warning]) -> Result<bool, Fail> {
    for (k, warning) in warnings.iter().enumerate() {
        if !is_on_a_ring(alloc, warning, k)? {
            return Ok(false);
        }
    }
    Ok(warnings.len() == 1000)
}

fn is_on_a_ring(alloc: Global, warning: &Warning, number: usize) -> Result<bool, Fail> {
    let sentence = format!(in alloc; "R::r{number} stands on a cycle")?;
    Ok(says(&sentence, warning))
}

/// Appends a module with the node 1.9 and 5000 children of it, numbered from 0 but not in order.
fn push_children(text: &mut String) -> Result<(), Fail> {
    text.push_str("M DEFINITIONS ::= BEGIN\n")?;
    for k in 0..5000 {
        let number = (k + 2500) % 5000;
        writeln!(text, "c{number} OBJECT IDENTIFIER ::= {{ top {number} }}")?;
    }
    text.push_str("top OBJECT IDENTIFIER ::= { iso 9 }\nEND\n")?;
    Ok(())
}

#[test]
fn many_children_are_in_order(rt: HostRuntime) -> Result<(), Fail> {
    let mut text = String::new(rt.alloc());
    push_children(&mut text)?;
    assert!(rt; has_wide_tree(rt.alloc(), &text)?);
    Ok(())
}

/// Returns whether a text has a tree without warnings, which returns 5000 children of 1.9 in order.
fn has_wide_tree(alloc: Global, text: &str) -> Result<bool, Fail> {
    let loaded = load(alloc, text)?;
    Ok(loaded.warnings.is_empty() && is_wide(&loaded.tree)?)
}

fn is_wide(tree: &Tree) -> Result<bool, Fail> {
    Ok(
        children_in_order(tree, &oid("1.9")?) == Some(5000)
            && child(tree, "1.9", "c4999")? == find(tree, b"M", b"c4999")
            && child(tree, "1.9", "top")?.is_none(),
    )
}

/// Returns the number of children of `top`, or `None` if the identifier of one isn't 1.9 and its
/// index among them.
fn children_in_order(tree: &Tree, top: &Oid) -> Option<u32> {
    let mut number: u32 = 0;
    for id in tree.children(top) {
        if id >= tree.len() || tree.node(id).oid.as_slice() != &[1, 9, number][..] {
            return None;
        }
        number = number.wrapping_add(1);
    }
    Some(number)
}
