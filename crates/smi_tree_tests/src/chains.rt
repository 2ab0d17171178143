//! Chains of names, in which each name refers to the next: long ones in both directions, rings, and
//! names that refer into a ring or to nothing.

use crate::reading::{modules_of, names_of, resolves_to};
use smi_names::{Names, topological_order};
use smi_text::Module;
use std::alloc::Global;
use std::process::Abort;
use std::test::Fail;

const MANY: usize = 40_000;

/// What the identifier value of a name consists of.
#[derive(Clone, Copy)]
enum Basis<'a> {
    /// Only numbers.
    Numbers(&'a [u32]),
    /// The name with this index, and these numbers after it.
    After(usize, &'a [u32]),
    /// A name that isn't defined.
    Nowhere,
}

/// Returns `count` names, but at least one. The first has the number 1 only, and each other one
/// refers to the name before it and appends `numbers`.
fn references_back(alloc: Global, count: usize, numbers: &[u32]) -> Result<Vec<Basis<'_>>, Fail> {
    let mut bases = Vec::new(alloc);
    bases.push(Basis::Numbers(&[1]))?;
    for index in 1..count {
        bases.push(Basis::After(index.saturating_sub(1), numbers))?;
    }
    Ok(bases)
}

/// Returns `count` names, but at least one. Each refers to the name after it, but the last one to
/// the name with index `end`.
fn references_forward(
    alloc: Global,
    count: usize,
    end: usize,
) -> Result<Vec<Basis<'static>>, Fail> {
    let mut bases = Vec::new(alloc);
    for index in 1..count {
        bases.push(Basis::After(index, &[]))?;
    }
    bases.push(Basis::After(end, &[]))?;
    Ok(bases)
}

/// Returns how many names of a module with these bases resolve to `expected`, or fail for this
/// reason.
fn count(alloc: Global, bases: &[Basis<'_>], expected: &str) -> Result<usize, Fail> {
    let mut text = String::new(alloc);
    push_module(&mut text, bases)?;
    let modules = modules_of(alloc, text.as_bytes())?;
    count_in(alloc, &modules, expected)
}

/// Returns how many labels of the modules' definitions resolve to `expected`, or fail for this
/// reason.
fn count_in(alloc: Global, modules: &[Module], expected: &str) -> Result<usize, Fail> {
    let names = names_of(alloc, modules)?;
    Ok(count_among(&names, modules, expected))
}

fn count_among<'a>(names: &Names<'a>, modules: &'a [Module], expected: &str) -> usize {
    let mut count: usize = 0;
    for module in modules {
        count = count.saturating_add(count_of(names, module, expected));
    }
    count
}

/// Returns how many labels of a module's definitions resolve to `expected`, or fail for this
/// reason.
fn count_of<'a>(names: &Names<'a>, module: &'a Module, expected: &str) -> usize {
    let mut count: usize = 0;
    for def in module.defs.as_slice() {
        let found = names.resolution(module.name.as_bytes(), def.label.as_bytes());
        if resolves_to(found, expected) {
            count = count.saturating_add(1);
        }
    }
    count
}

/// Appends a module with a name for each basis.
fn push_module(text: &mut String, bases: &[Basis<'_>]) -> Result<(), Fail> {
    text.push_str("M DEFINITIONS ::= BEGIN\n")?;
    for (index, basis) in bases.iter().enumerate() {
        write!(text, "p{index} OBJECT IDENTIFIER ::= {{")?;
        push_basis(text, *basis)?;
        text.push_str(" }\n")?;
    }
    text.push_str("END\n")?;
    Ok(())
}

/// Appends the parts of an identifier value with this basis.
fn push_basis(text: &mut String, basis: Basis<'_>) -> Result<(), Fail> {
    match basis {
        Basis::Numbers(numbers) => push_numbers(text, numbers),
        Basis::After(index, numbers) => {
            write!(text, " p{index}")?;
            push_numbers(text, numbers)
        }
        Basis::Nowhere => {
            text.push_str(" nowhere")?;
            Ok(())
        }
    }
}

fn push_numbers(text: &mut String, numbers: &[u32]) -> Result<(), Fail> {
    for number in numbers {
        write!(text, " {number}")?;
    }
    Ok(())
}

/// Asserts for each row that in a module with these bases, as many names as the row says resolve to
/// its identifier, or fail for its reason.
fn assert_counts(
    rt: &impl Abort,
    alloc: Global,
    bases: &[Basis<'_>],
    rows: &[(&str, usize)],
) -> Result<(), Fail> {
    for (expected, wanted) in rows {
        assert!(rt; count(alloc, bases, expected)? == *wanted, "{expected}");
    }
    Ok(())
}

#[test]
fn long_chains_end(rt: HostRuntime) -> Result<(), Fail> {
    let alloc = rt.alloc();
    assert_counts(
        &rt,
        alloc,
        &references_back(alloc, MANY, &[])?,
        &[("1", MANY)],
    )?;
    assert_counts(
        &rt,
        alloc,
        &references_forward_to_numbers(alloc)?,
        &[("1.3", MANY + 1)],
    )?;
    // Without the name with numbers at the end, the last name refers to nothing.
    let bases = references_forward(alloc, MANY, MANY)?;
    assert_counts(&rt, alloc, &bases, &[("unresolved", MANY)])
}

/// Returns `MANY` names that refer to the name after them, and at the end one with the numbers 1
/// and 3.
fn references_forward_to_numbers(alloc: Global) -> Result<Vec<Basis<'static>>, Fail> {
    let mut bases = references_forward(alloc, MANY, MANY)?;
    bases.push(Basis::Numbers(&[1, 3]))?;
    Ok(bases)
}

#[test]
fn rings_have_no_end(rt: HostRuntime) -> Result<(), Fail> {
    let alloc = rt.alloc();
    assert_counts(
        &rt,
        alloc,
        &references_forward(alloc, MANY, 0)?,
        &[("cycle", MANY)],
    )?;
    let rows = [("cycle", 1002), ("2", 1), ("unresolved", 1)];
    assert_counts(&rt, alloc, &ring_and_others(alloc)?, &rows)
}

/// Returns names that refer into a ring, and the ring. After these come a name that refers to
/// itself, one that refers to the first, one with a number only, and one that refers to nothing.
fn ring_and_others(alloc: Global) -> Result<Vec<Basis<'static>>, Fail> {
    let mut bases = references_forward(alloc, 1000, 500)?;
    bases.extend_from_slice(&[
        Basis::After(1000, &[1]),
        Basis::After(0, &[1]),
        Basis::Numbers(&[2]),
        Basis::Nowhere,
    ])?;
    Ok(bases)
}

#[test]
fn numbers_are_appended_along_a_chain(rt: HostRuntime) -> Result<(), Fail> {
    let bases = references_back(rt.alloc(), 200, &[7])?;
    assert_counts(&rt, rt.alloc(), &bases, &NUMBERS)
}

/// What names resolve to, and how many. One name has 128 numbers, and those after it have too many.
static NUMBERS: [(&str, usize); 4] = [
    ("1", 1),
    ("1.7.7.7", 1),
    (SEVENS, 1),
    ("too long", 200 - 128),
];

/// The number 1 and 127 times 7.
const SEVENS: &str = "\
1.7.7.7.7.7.7.7.7.7.7.7.7.7.7.7.7.7.7.7.7.7.7.7.7.7.7.7.7.7.7.7.7.7.7.7.7.7.7.7.7.7.7.7.7.7.7.7.\
7.7.7.7.7.7.7.7.7.7.7.7.7.7.7.7.7.7.7.7.7.7.7.7.7.7.7.7.7.7.7.7.7.7.7.7.7.7.7.7.7.7.7.7.7.7.7.7.\
7.7.7.7.7.7.7.7.7.7.7.7.7.7.7.7.7.7.7.7.7.7.7.7.7.7.7.7.7.7.7.7";

#[test]
fn each_index_comes_after_the_one_it_refers_to(rt: HostRuntime) -> Result<(), Fail> {
    let order = topological_order(rt.alloc(), &NEXT)?;
    assert!(rt; order.as_slice() == [2, 3, 0, 6, 7].as_slice());
    Ok(())
}

/// The index that each index refers to, if there is one. Indices 1, 4 and 5 are on a ring or refer
/// into one, and index 9 isn't in the list.
static NEXT: [Option<usize>; 8] = [
    Some(3),
    Some(4),
    None,
    Some(2),
    Some(1),
    Some(1),
    Some(9),
    Some(0),
];
