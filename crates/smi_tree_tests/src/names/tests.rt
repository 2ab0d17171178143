//! Names that are read, refused and shown.
use crate::names::{COUNTED, IMPLIED, MAC, TRIPLE, random_oid, sample};
use smi_show::{
    Letters, NameError, NameForm, name_text, resolve, resolve_front, resolve_front_into,
    resolve_into,
};
use smi_tree::Tree;
use snmp_oid::Oid;
use std::alloc::Global;
use std::process::Abort;
use std::test::Fail;

/// Returns whether `text` means the identifier with these numbers.
fn means(tree: &Tree, text: &[u8], numbers: &[u32]) -> bool {
    match resolve(tree, text) {
        Ok(found) => found.as_slice() == numbers,
        Err(_) => false,
    }
}

/// Returns whether `text` means an identifier.
fn is_meant(tree: &Tree, text: &[u8]) -> bool {
    resolve(tree, text).is_ok()
}

/// Returns whether `text` means no identifier, for this reason.
fn is_fault(tree: &Tree, text: &[u8], fault: NameError) -> bool {
    match resolve(tree, text) {
        Ok(_) => false,
        Err(found) => found == fault,
    }
}

/// Returns whether `resolve_into` reads `text` as `resolve` does.
fn is_read_alike(tree: &Tree, text: &[u8], oid: &mut Oid) -> bool {
    let found = resolve(tree, text);
    let other = resolve_into(tree, text, oid);
    are_alike(&found, &other, oid)
}

fn are_alike(found: &Result<Oid, NameError>, other: &Result<(), NameError>, oid: &Oid) -> bool {
    match (found, other) {
        (Ok(found), Ok(())) => found == oid,
        (Err(fault), Err(other)) => fault == other,
        _ => false,
    }
}

/// Names, with the numbers of the identifiers that they mean.
static READ: [(&str, &[u32]); 16] = [
    (".", &[]),
    ("iso", &[1]),
    ("iso.3", &[1, 3]),
    (".1.03", &[1, 3]),
    ("TINY-MIB::1.3", &[1, 3]),
    ("TINY-MIB::tinyMac.\"wes\"", &[1, 3, 6, 2, 3, 119, 101, 115]),
    ("tinyMac.'wes'", &[1, 3, 6, 2, 119, 101, 115]),
    (
        ".iso.3.6.tinyMac.\"a.b\".'c::d'",
        &[1, 3, 6, 2, 3, 97, 46, 98, 99, 58, 58, 100],
    ),
    ("iso.\"\"", &[1, 0]),
    ("\"a\"", &[1, 97]),
    ("iso.399999999.400000000", &[1, 399999999, 400000000]),
    ("iso.3999999999.0", &[1, 3999999999, 0]),
    ("iso.4294967295.4294967295", &[1, 4294967295, 4294967295]),
    ("iso.00000000000012.007", &[1, 12, 7]),
    ("iso.12.'c.d'.9", &[1, 12, 99, 46, 100, 9]),
    ("0.12.3", &[0, 12, 3]),
];

#[test]
fn names_are_read(rt: HostRuntime) -> Result<(), Fail> {
    let tree = sample(rt.alloc(), COUNTED, MAC)?;
    assert_read(&rt, &tree);
    Ok(())
}

fn assert_read(rt: &impl Abort, tree: &Tree) {
    for (text, numbers) in &READ {
        assert!(rt; means(tree, text.as_bytes(), numbers), "{text}");
    }
}

#[test]
fn a_name_is_read_into_an_existing_identifier(rt: HostRuntime) -> Result<(), Fail> {
    let tree = sample(rt.alloc(), COUNTED, MAC)?;
    assert_read_alike(&rt, &tree);
    Ok(())
}

fn assert_read_alike(rt: &impl Abort, tree: &Tree) {
    let mut oid = Oid::new();
    for (text, _) in &READ {
        assert!(rt; is_read_alike(tree, text.as_bytes(), &mut oid), "{text}");
    }
    for (text, _) in &FAULTS {
        assert!(rt; is_read_alike(tree, text.as_bytes(), &mut oid), "{text}");
    }
}

/// Texts without a meaning, with their first faults.
static FAULTS: [(&str, NameError); 27] = [
    ("", NameError::Unknown),
    ("nosuch", NameError::Unknown),
    (".tinyMac", NameError::Unknown),
    ("iso.tinyMac", NameError::Unknown),
    ("NO-MIB::1.3", NameError::Unknown),
    ("NO-MIB::", NameError::Unknown),
    ("::x", NameError::Unknown),
    ("ab'c.d'", NameError::Unknown),
    ("TINY-MIB::", NameError::BadNumber),
    ("TINY-MIB::.1", NameError::BadNumber),
    ("..", NameError::BadNumber),
    ("iso..3", NameError::BadNumber),
    ("iso.3x", NameError::BadNumber),
    ("iso.4294967296", NameError::BadNumber),
    ("tinyMac.\"wes", NameError::BadIndex),
    ("tinyMac.\"wes\"x", NameError::BadIndex),
    ("tinyMac.''", NameError::BadIndex),
    ("tinyMac.'a\\b'", NameError::BadIndex),
    ("tinyMac.\"\x7f\"", NameError::BadIndex),
    ("'abc::x", NameError::BadIndex),
    ("iso.nosuch.4294967296", NameError::Unknown),
    ("iso.4294967296.nosuch", NameError::BadNumber),
    ("iso.'x.nosuch", NameError::BadIndex),
    ("iso.12'.3'", NameError::BadNumber),
    ("iso.12x.3", NameError::BadNumber),
    ("iso.12.", NameError::BadNumber),
    ("iso.42949672960.x", NameError::BadNumber),
];

#[test]
fn the_first_fault_is_reported(rt: HostRuntime) -> Result<(), Fail> {
    let tree = sample(rt.alloc(), COUNTED, MAC)?;
    assert_faults(&rt, &tree);
    Ok(())
}

fn assert_faults(rt: &impl Abort, tree: &Tree) {
    for (text, fault) in &FAULTS {
        assert!(rt; is_fault(tree, text.as_bytes(), *fault), "{text}");
    }
}

/// Texts that begin with a name, the octet that ends the name if the text continues, the numbers of
/// the identifier that the name means, and the name's length.
static PREFIXES: [(&str, u8, &[u32], usize); 9] = [
    ("iso.3|x", b'|', &[1, 3], 5),
    ("iso.3", b'|', &[1, 3], 5),
    (".|.", b'|', &[], 1),
    ("1.3||7", b'|', &[1, 3], 3),
    ("1.3:4|5", b':', &[1, 3], 3),
    ("TINY-MIB::1.3|2|1", b'|', &[1, 3], 13),
    (
        "tinyMac.\"a|b\"|4x|00",
        b'|',
        &[1, 3, 6, 2, 3, 97, 124, 98],
        13,
    ),
    ("iso.'|'.\"||\"|x", b'|', &[1, 124, 2, 124, 124], 12),
    ("'a|b'.1|'", b'|', &[97, 124, 98, 1], 7),
];

/// Texts that don't begin with a name, the octet that would end it, and the fault that is reported.
static BAD_PREFIXES: [(&str, u8, NameError); 8] = [
    ("", b'|', NameError::Unknown),
    ("|1.3", b'|', NameError::Unknown),
    ("nosuch|iso", b'|', NameError::Unknown),
    ("TINY-MIB::1.3", b':', NameError::Unknown),
    ("iso.|3", b'|', NameError::BadNumber),
    ("iso.4294967296|", b'|', NameError::BadNumber),
    ("tinyMac.\"a|b", b'|', NameError::BadIndex),
    ("tinyMac.\"a\"b|c", b'|', NameError::BadIndex),
];

#[test]
fn a_name_at_the_start_of_a_text_is_read(rt: HostRuntime) -> Result<(), Fail> {
    let tree = sample(rt.alloc(), COUNTED, MAC)?;
    assert_prefixes(&rt, &tree);
    Ok(())
}

fn assert_prefixes(rt: &impl Abort, tree: &Tree) {
    for (text, stop, numbers, size) in &PREFIXES {
        assert!(rt;
            prefix_means(tree, text.as_bytes(), *stop, numbers, *size),
            "{text}"
        );
    }
    for (text, stop, fault) in &BAD_PREFIXES {
        assert!(rt;
            is_prefix_fault(tree, text.as_bytes(), *stop, *fault),
            "{text}"
        );
    }
}

/// Returns whether the name at the start of `text` means the identifier with these numbers and has
/// this length, by `resolve_front` and by `resolve_front_into`.
fn prefix_means(tree: &Tree, text: &[u8], stop: u8, numbers: &[u32], size: usize) -> bool {
    let mut oid = Oid::new();
    let found = resolve_front(tree, text, stop);
    let other = resolve_front_into(tree, text, stop, &mut oid);
    are_prefixes(&found, &other, numbers, size) && oid.as_slice() == numbers
}

fn are_prefixes(
    found: &Result<(Oid, usize), NameError>,
    other: &Result<usize, NameError>,
    numbers: &[u32],
    size: usize,
) -> bool {
    match (found, other) {
        (Ok((found, length)), Ok(other)) => {
            found.as_slice() == numbers && *length == size && *other == size
        }
        _ => false,
    }
}

/// Returns whether the start of `text` means no identifier, for this reason.
fn is_prefix_fault(tree: &Tree, text: &[u8], stop: u8, fault: NameError) -> bool {
    let mut oid = Oid::new();
    match (
        resolve_front(tree, text, stop),
        resolve_front_into(tree, text, stop, &mut oid),
    ) {
        (Err(found), Err(other)) => found == fault && other == fault,
        _ => false,
    }
}

/// `iso`, 128 sevens, a label and a number that is too great. The first 257 octets are a name of
/// 128 numbers.
const SEVENS: &[u8] = b"\
iso.7.7.7.7.7.7.7.7.7.7.7.7.7.7.7.7.7.7.7.7.7.7.7.7.7.7.7.7.7.7.7.7.7.7.7.7.7.7.7.7.7.7.7.7.7.7.\
7.7.7.7.7.7.7.7.7.7.7.7.7.7.7.7.7.7.7.7.7.7.7.7.7.7.7.7.7.7.7.7.7.7.7.7.7.7.7.7.7.7.7.7.7.7.7.7.\
7.7.7.7.7.7.7.7.7.7.7.7.7.7.7.7.7.7.7.7.7.7.7.7.7.7.7.7.7.7.7.7.7.7.x.4294967296";

#[test]
fn a_name_has_at_most_128_numbers(rt: HostRuntime) -> Result<(), Fail> {
    let tree = sample(rt.alloc(), COUNTED, MAC)?;
    assert_limit(&rt, &tree);
    Ok(())
}

fn assert_limit(rt: &impl Abort, tree: &Tree) {
    assert!(rt; is_meant(tree, &SEVENS[..257]));
    assert!(rt; is_fault(tree, &SEVENS[..259], NameError::TooLong));
    assert!(rt; is_fault(tree, SEVENS, NameError::TooLong));
}

/// The INDEX of the column, whether it is shown as numbers, the numbers after the column, and the
/// name.
static INSTANCES: [(&str, bool, &[u32], &str); 11] = [
    (COUNTED, false, &[], "TINY-MIB::tinyMac"),
    (
        COUNTED,
        false,
        &[3, 119, 101, 115],
        "TINY-MIB::tinyMac.\"wes\"",
    ),
    (
        COUNTED,
        true,
        &[3, 119, 101, 115],
        "TINY-MIB::tinyMac.3.119.101.115",
    ),
    (COUNTED, false, &[2, 119, 0], "TINY-MIB::tinyMac.2.119.0"),
    (COUNTED, false, &[2, 119], "TINY-MIB::tinyMac.2.119"),
    (COUNTED, false, &[1, 119, 7], "TINY-MIB::tinyMac.1.119.7"),
    (COUNTED, false, &[1, 34], "TINY-MIB::tinyMac.1.34"),
    (COUNTED, false, &[0], "TINY-MIB::tinyMac.0"),
    (IMPLIED, false, &[119, 101, 115], "TINY-MIB::tinyMac.'wes'"),
    (IMPLIED, false, &[256], "TINY-MIB::tinyMac.256"),
    (
        TRIPLE,
        false,
        &[7, 97, 46, 192, 0, 2, 1],
        "TINY-MIB::tinyMac.7.'a.'.192.0.2.1",
    ),
];

#[test]
fn instances_are_shown(rt: HostRuntime) -> Result<(), Fail> {
    for (index, numeric_index, tail, text) in &INSTANCES {
        let tree = sample(rt.alloc(), index, MAC)?;
        assert!(rt;
            shows(rt.alloc(), &tree, *numeric_index, tail, text)?,
            "{text}"
        );
    }
    Ok(())
}

/// Returns whether the column with the numbers `tail` after it is shown as `text`, and `text` is
/// read back.
fn shows(
    alloc: Global,
    tree: &Tree,
    numeric_index: bool,
    tail: &[u32],
    text: &str,
) -> Result<bool, Fail> {
    let mut oid = Oid::from_slice(&[1, 3, 6, 2])?;
    oid.extend_from_slice(tail)?;
    let mut out = Vec::new(alloc);
    let letters = letters_by(NameForm::ModuleLabel, numeric_index);
    push_name(tree, &letters, &oid, &mut out)?;
    Ok(out.as_slice() == text.as_bytes() && means(tree, &out, oid.as_slice()))
}

/// Returns the letters for a form of names, and for whether indexes are shown as numbers.
fn letters_by(names: NameForm, numeric_index: bool) -> Letters {
    Letters {
        names,
        numeric_index,
        ..Letters::new()
    }
}

/// Appends the name of an identifier.
fn push_name(tree: &Tree, letters: &Letters, oid: &Oid, out: &mut Vec<u8>) -> Result<(), Fail> {
    name_text(tree, letters, oid, out)?;
    Ok(())
}

#[test]
fn what_is_shown_is_read_back(rt: HostRuntime) -> Result<(), Fail> {
    for index in [COUNTED, IMPLIED, TRIPLE] {
        let tree = sample(rt.alloc(), index, MAC)?;
        assert_read_back(&rt, rt.alloc(), &tree)?;
    }
    Ok(())
}

fn assert_read_back(rt: &impl Abort, alloc: Global, tree: &Tree) -> Result<(), Fail> {
    for seed in 0..1000 {
        let oid = random_oid(&[1, 3, 6, 2], seed);
        assert!(rt; is_read_back(alloc, tree, seed % 3 == 0, &oid)?);
    }
    Ok(())
}

/// Returns whether the names of an identifier, in numbers and by its module, are read back.
fn is_read_back(alloc: Global, tree: &Tree, numeric_index: bool, oid: &Oid) -> Result<bool, Fail> {
    let numeric = letters_by(NameForm::Numeric, numeric_index);
    let named = letters_by(NameForm::ModuleLabel, numeric_index);
    Ok(
        is_name_read_back(alloc, tree, &numeric, oid)?
            && is_name_read_back(alloc, tree, &named, oid)?,
    )
}

fn is_name_read_back(
    alloc: Global,
    tree: &Tree,
    letters: &Letters,
    oid: &Oid,
) -> Result<bool, Fail> {
    let mut out = Vec::new(alloc);
    push_name(tree, letters, oid, &mut out)?;
    Ok(means(tree, &out, oid.as_slice()))
}
