//! Lines of bindings and texts of values, which depend on the letters of `-O` and on the syntax of
//! the object.

use crate::names::{COUNTED, MAC, sample};
use smi_show::{Letters, line, name_text, value_text};
use smi_tree::Tree;
use snmp_oid::Oid;
use snmp_wire::ValueRef;
use std::alloc::Global;
use std::process::Abort;
use std::test::Fail;

fn letters_of(letters: &[u8]) -> Result<Letters, Fail> {
    Ok(Letters::parse(letters).ok().ok_or("no letters")?)
}

/// Returns whether the line of a binding is `text`, and is appended to what was written before.
fn has_line(
    alloc: Global,
    tree: &Tree,
    letters: &Letters,
    name: &Oid,
    value: &ValueRef<'_>,
    text: &[u8],
) -> Result<bool, Fail> {
    let mut out = Vec::from_slice(alloc, b"before")?;
    line(tree, letters, name, value, &mut out)?;
    Ok(is_after_before(&out, text))
}

fn is_after_before(out: &[u8], text: &[u8]) -> bool {
    match out.strip_prefix(b"before") {
        Some(rest) => rest == text,
        None => false,
    }
}

/// Returns whether `line` ends with the text of `value` and a line feed.
fn ends_in_value(
    alloc: Global,
    tree: &Tree,
    letters: &Letters,
    name: &Oid,
    value: &ValueRef<'_>,
    line: &[u8],
) -> Result<bool, Fail> {
    let mut shown = Vec::new(alloc);
    value_text(tree, letters, name, value, &mut shown)?;
    shown.push(b'\n')?;
    Ok(line.ends_with(&shown))
}

/// Asserts that the line of a binding is `text`, is appended to what was written before, and ends
/// with the text of `value` and a line feed.
fn assert_line(
    rt: &impl Abort,
    alloc: Global,
    tree: &Tree,
    letters: &[u8],
    numbers: &[u32],
    value: &ValueRef<'_>,
    text: &str,
) -> Result<(), Fail> {
    let letters = letters_of(letters)?;
    let name = Oid::from_slice(numbers)?;
    let line = text.as_bytes();
    assert!(rt;
        has_line(alloc, tree, &letters, &name, value, line)?,
        "{text}"
    );
    assert!(rt;
        ends_in_value(alloc, tree, &letters, &name, value, line)?,
        "{text}"
    );
    Ok(())
}

/// Asserts that a binding has the line of each row, with the row's letters.
fn assert_lines(
    rt: &impl Abort,
    alloc: Global,
    tree: &Tree,
    numbers: &[u32],
    value: &ValueRef<'_>,
    rows: &[(&[u8], &str)],
) -> Result<(), Fail> {
    for (letters, text) in rows {
        assert_line(rt, alloc, tree, letters, numbers, value, text)?;
    }
    Ok(())
}

/// The instance of `tinyMac` whose index is `wes`.
const WES: [u32; 8] = [1, 3, 6, 2, 3, 119, 101, 115];

/// Letters, and the line of a value with these letters.
static NAMES: [(&[u8], &str); 14] = [
    (
        b"",
        "TINY-MIB::tinyMac.\"wes\" = STRING: 0:16:3e:5a:78:8e\n",
    ),
    (
        b"S",
        "TINY-MIB::tinyMac.\"wes\" = STRING: 0:16:3e:5a:78:8e\n",
    ),
    (b"s", "tinyMac.\"wes\" = STRING: 0:16:3e:5a:78:8e\n"),
    (
        b"f",
        ".iso.3.tinyEntry.tinyMac.\"wes\" = STRING: 0:16:3e:5a:78:8e\n",
    ),
    (b"n", ".1.3.6.2.3.119.101.115 = STRING: 0:16:3e:5a:78:8e\n"),
    (
        b"b",
        "TINY-MIB::tinyMac.3.119.101.115 = STRING: 0:16:3e:5a:78:8e\n",
    ),
    (
        b"fb",
        ".iso.3.tinyEntry.tinyMac.3.119.101.115 = STRING: 0:16:3e:5a:78:8e\n",
    ),
    (b"q", "TINY-MIB::tinyMac.\"wes\" 0:16:3e:5a:78:8e\n"),
    (b"Q", "TINY-MIB::tinyMac.\"wes\" = 0:16:3e:5a:78:8e\n"),
    (b"v", "STRING: 0:16:3e:5a:78:8e\n"),
    (b"qv", "0:16:3e:5a:78:8e\n"),
    (b"Qvs", "0:16:3e:5a:78:8e\n"),
    (b"xas", "tinyMac.\"wes\" = STRING: 0:16:3e:5a:78:8e\n"),
    (
        b"nS",
        "TINY-MIB::tinyMac.\"wes\" = STRING: 0:16:3e:5a:78:8e\n",
    ),
];

#[test]
fn letters_change_the_line(rt: HostRuntime) -> Result<(), Fail> {
    let tree = sample(rt.alloc(), COUNTED, MAC)?;
    let value = ValueRef::Octets(b"\x00\x16\x3e\x5a\x78\x8e");
    assert_lines(&rt, rt.alloc(), &tree, &WES, &value, &NAMES)
}

/// Letters, and the line of an identifier with these letters.
static IDENTIFIERS: [(&[u8], &str); 7] = [
    (b"", "iso.3 = OID: TINY-MIB::tinyMac.\"wes\"\n"),
    (b"n", ".1.3 = OID: .1.3.6.2.3.119.101.115\n"),
    (b"s", "iso.3 = OID: tinyMac.\"wes\"\n"),
    (b"f", ".iso.3 = OID: .iso.3.tinyEntry.tinyMac.\"wes\"\n"),
    (b"b", "iso.3 = OID: TINY-MIB::tinyMac.3.119.101.115\n"),
    (b"q", "iso.3 TINY-MIB::tinyMac.\"wes\"\n"),
    (b"v", "OID: TINY-MIB::tinyMac.\"wes\"\n"),
];

#[test]
fn identifiers_are_shown_as_names(rt: HostRuntime) -> Result<(), Fail> {
    let value = ValueRef::ObjectId(Oid::from_slice(&WES)?);
    let tree = sample(rt.alloc(), COUNTED, MAC)?;
    assert_lines(&rt, rt.alloc(), &tree, &[1, 3], &value, &IDENTIFIERS)
}

#[test]
fn a_syntax_applies_only_to_values_of_its_type(rt: HostRuntime) -> Result<(), Fail> {
    assert_by_base(&rt, rt.alloc())
}

const NUMBER: &str = "OBJECT-TYPE SYNTAX INTEGER { up(1) } UNITS \"jobs\" MAX-ACCESS read-only
  STATUS current DESCRIPTION \"Number.\"";

const BITS: &str = "OBJECT-TYPE SYNTAX BITS { up(1) } UNITS \"jobs\" MAX-ACCESS read-only
  STATUS current DESCRIPTION \"Bits.\"";

const TICKS: &str = "OBJECT-TYPE SYNTAX TimeTicks UNITS \"jobs\" MAX-ACCESS read-only
  STATUS current DESCRIPTION \"Time.\"";

/// Asserts that a value of the column has this line.
fn assert_column(
    rt: &impl Abort,
    alloc: Global,
    tree: &Tree,
    letters: &[u8],
    value: &ValueRef<'_>,
    text: &str,
) -> Result<(), Fail> {
    assert_line(rt, alloc, tree, letters, &[1, 3, 6, 2], value, text)
}

/// Asserts lines of values for syntaxes of three base types.
fn assert_by_base(rt: &impl Abort, alloc: Global) -> Result<(), Fail> {
    let tree = sample(alloc, COUNTED, NUMBER)?;
    assert_integers(rt, alloc, &tree)?;
    let bits = ValueRef::Octets(b"\x40");
    let text = "TINY-MIB::tinyMac = BITS: 40 up(1) \n";
    let tree = sample(alloc, COUNTED, BITS)?;
    assert_column(rt, alloc, &tree, b"", &bits, text)?;
    let ticks = ValueRef::TimeTicks(14096763);
    let text = "TINY-MIB::tinyMac = 14096763 jobs\n";
    let tree = sample(alloc, COUNTED, TICKS)?;
    assert_column(rt, alloc, &tree, b"t", &ticks, text)
}

/// Letters, and the line of the number 1 with these letters.
static ONE: [(&[u8], &str); 3] = [
    (b"", "TINY-MIB::tinyMac = INTEGER: up(1)\n"),
    (b"q", "TINY-MIB::tinyMac up\n"),
    (b"e", "TINY-MIB::tinyMac = INTEGER: 1\n"),
];

/// Letters, and the line of the number 2, which has no name.
static TWO: [(&[u8], &str); 2] = [
    (b"", "TINY-MIB::tinyMac = INTEGER: 2 jobs\n"),
    (b"U", "TINY-MIB::tinyMac = INTEGER: 2\n"),
];

fn assert_integers(rt: &impl Abort, alloc: Global, tree: &Tree) -> Result<(), Fail> {
    assert_lines(rt, alloc, tree, &[1, 3, 6, 2], &ValueRef::Integer(1), &ONE)?;
    assert_lines(rt, alloc, tree, &[1, 3, 6, 2], &ValueRef::Integer(2), &TWO)?;
    let gauge = ValueRef::Gauge32(2);
    assert_column(
        rt,
        alloc,
        tree,
        b"",
        &gauge,
        "TINY-MIB::tinyMac = Gauge32: 2\n",
    )?;
    assert_column(
        rt,
        alloc,
        tree,
        b"",
        &ValueRef::Null,
        "TINY-MIB::tinyMac = NULL\n",
    )
}

#[test]
fn exceptions_have_their_texts(rt: HostRuntime) -> Result<(), Fail> {
    let tree = sample(rt.alloc(), COUNTED, MAC)?;
    assert_exceptions(&rt, rt.alloc(), &tree)
}

fn assert_exceptions(rt: &impl Abort, alloc: Global, tree: &Tree) -> Result<(), Fail> {
    let text = ".1.0 = No Such Object available on this agent at this OID\n";
    assert_line(
        rt,
        alloc,
        tree,
        b"n",
        &[1, 0],
        &ValueRef::NoSuchObject,
        text,
    )?;
    let text = ".1.0 = No Such Instance currently exists at this OID\n";
    assert_line(
        rt,
        alloc,
        tree,
        b"n",
        &[1, 0],
        &ValueRef::NoSuchInstance,
        text,
    )?;
    let text = ". = No more variables left in this MIB View (It is past the end of the MIB tree)\n";
    assert_line(rt, alloc, tree, b"n", &[], &ValueRef::EndOfMibView, text)
}

#[test]
fn a_name_is_shown_without_a_value(rt: HostRuntime) -> Result<(), Fail> {
    let mut out = Vec::new(rt.alloc());
    let tree = sample(rt.alloc(), COUNTED, MAC)?;
    push_names(&tree, &mut out)?;
    let all = b"TINY-MIB::tinyMac .1.3.6.2 .iso.3.tinyEntry.tinyMac tinyMac ";
    assert!(rt; out.as_slice() == all.as_slice());
    Ok(())
}

/// Appends the name of the column in four forms, and a space after each.
fn push_names(tree: &Tree, out: &mut Vec<u8>) -> Result<(), Fail> {
    let column = Oid::from_slice(&[1, 3, 6, 2])?;
    for letters in [b"".as_slice(), b"n", b"f", b"s"] {
        name_text(tree, &letters_of(letters)?, &column, out)?;
        out.push(b' ')?;
    }
    Ok(())
}
