//! The indexes of columns, by INDEX and AUGMENTS of their rows. The table `rows/indexes.rt` of
//! `snmp_tools_tests` tests indexes of each base type.

ghost use Rattle.std.specs.Prelude.{◌≡◌};

use crate::reading::{TINY, modules_of, names_of};
use smi_names::{Gathered, Names, Source, gather_nodes};
use smi_text::Module;
use smi_tree::{Extent, Identifiers, IndexPart, Indexes, Types};
use std::alloc::Global;
use std::test::Fail;

/// A label, and the INDEX parts of its node, if it has such parts.
type Row<'a> = (&'a str, Option<&'a [IndexPart]>);

const TEXT: IndexPart = IndexPart::Text(Extent::Counted);

const IMPLIED_TEXT: IndexPart = IndexPart::Text(Extent::Implied);

/// Returns the index in `sources` of the first node whose definition has this label.
fn node_of(modules: &[Module], sources: &[Source], label: &str) -> Option<usize> {
    for (node, source) in sources.iter().enumerate() {
        if has_label(modules, *source, label) {
            return Some(node);
        }
    }
    None
}

fn has_label(modules: &[Module], source: Source, label: &str) -> bool {
    let Source::Definition(i, k) = source else {
        return false;
    };
    match modules.get(i) {
        Some(module) => match module.defs.as_slice().get(k) {
            Some(def) => def.label.as_bytes() == label.as_bytes(),
            None => false,
        },
        None => false,
    }
}

/// Returns the position of the first row whose node has other INDEX parts or doesn't exist.
fn first_wrong(
    modules: &[Module],
    sources: &[Source],
    indexes: &Indexes,
    rows: &[Row<'_>],
) -> Option<usize> {
    for (k, (label, expected)) in rows.iter().enumerate() {
        let found = match node_of(modules, sources, label) {
            Some(node) => indexes.get(node) == *expected,
            None => false,
        };
        if !found {
            return Some(k);
        }
    }
    None
}

/// Returns the position of the first wrong row for the modules of `text`.
fn wrong_row(alloc: Global, text: &[u8], rows: &[Row<'_>]) -> Result<Option<usize>, Fail> {
    let modules = modules_of(alloc, text)?;
    let names = names_of(alloc, &modules)?;
    wrong_row_by(alloc, &names, &modules, rows)
}

fn wrong_row_by<'a>(
    alloc: Global,
    names: &Names<'a>,
    modules: &'a [Module],
    rows: &[Row<'_>],
) -> Result<Option<usize>, Fail>
    requires { names.now.modules ≡ modules.now }
{
    let Gathered { sources, oids, .. } = gather_nodes(alloc, names, modules)?;
    wrong_row_among(
        alloc,
        names,
        modules,
        &sources,
        &Identifiers::new(alloc, oids)?,
        rows,
    )
}

fn wrong_row_among<'a>(
    alloc: Global,
    names: &Names<'a>,
    modules: &'a [Module],
    sources: &[Source],
    identifiers: &Identifiers,
    rows: &[Row<'_>],
) -> Result<Option<usize>, Fail>
    requires { names.now.modules ≡ modules.now }
{
    if sources.len() != identifiers.len() {
        return Err("a node without an identifier")?;
    }
    let types = Types::new(alloc, names, modules)?;
    let indexes = Indexes::new(alloc, names, modules, &types, sources, identifiers)?;
    Ok(first_wrong(modules, sources, &indexes, rows))
}

#[test]
fn columns_have_the_index_of_their_row(rt: HostRuntime) -> Result<(), Fail> {
    assert!(rt; wrong_row(rt.alloc(), TINY, &COLUMNS)?.is_none());
    Ok(())
}

static COLUMNS: [Row<'static>; 8] = [
    ("tinyName", Some(&[TEXT])),
    ("tinyMac", Some(&[TEXT])),
    ("tinyKeyUse", Some(&[IMPLIED_TEXT])),
    ("tinyState", None),
    ("tinyTable", None),
    ("tinyEntry", None),
    ("tinyKeyEntry", None),
    ("tiny", None),
];

/// A row that augments a row of another module, and an object `local` in each of the two modules.
const ROWS: &[u8] = b"M DEFINITIONS ::= BEGIN IMPORTS farRow FROM P;
local OBJECT-TYPE SYNTAX OCTET STRING (SIZE (6)) MAX-ACCESS read-only STATUS current
  DESCRIPTION \"\" ::= { iso 1 }
row OBJECT-TYPE SYNTAX R MAX-ACCESS not-accessible STATUS current DESCRIPTION \"\"
  AUGMENTS { farRow } ::= { iso 4 }
column OBJECT-TYPE SYNTAX INTEGER MAX-ACCESS read-only STATUS current DESCRIPTION \"\" ::= { row 1 }
END
P DEFINITIONS ::= BEGIN
farRow OBJECT-TYPE SYNTAX R MAX-ACCESS not-accessible STATUS current DESCRIPTION \"\"
  INDEX { local, key } ::= { iso 12 }
local OBJECT-TYPE SYNTAX IpAddress MAX-ACCESS read-only STATUS current DESCRIPTION \"\"
  ::= { farRow 1 }
key OBJECT-TYPE SYNTAX INTEGER MAX-ACCESS read-only STATUS current DESCRIPTION \"\"
  ::= { farRow 2 }
END
";

#[test]
fn names_in_an_index_are_looked_up_in_its_module(rt: HostRuntime) -> Result<(), Fail> {
    assert!(rt; wrong_row(rt.alloc(), ROWS, &COLUMNS_OF_ROWS)?.is_none());
    Ok(())
}

static COLUMNS_OF_ROWS: [Row<'static>; 2] = [
    ("column", Some(&[IndexPart::Address, IndexPart::Number])),
    ("key", Some(&[IndexPart::Address, IndexPart::Number])),
];

/// Rows, each with an INDEX of one object: an OCTET STRING of a fixed SIZE below zero, an Opaque of
/// such a SIZE with IMPLIED, an OCTET STRING of a range below zero, and one of SIZE zero.
const SIZES: &[u8] = b"M DEFINITIONS ::= BEGIN
below OBJECT-TYPE SYNTAX OCTET STRING (SIZE (-5)) MAX-ACCESS read-only STATUS current
  DESCRIPTION \"\" ::= { belowRow 1 }
belowRow OBJECT-TYPE SYNTAX R MAX-ACCESS not-accessible STATUS current DESCRIPTION \"\"
  INDEX { below } ::= { iso 1 }
implied OBJECT-TYPE SYNTAX Opaque (SIZE (-5)) MAX-ACCESS read-only STATUS current
  DESCRIPTION \"\" ::= { impliedRow 1 }
impliedRow OBJECT-TYPE SYNTAX R MAX-ACCESS not-accessible STATUS current DESCRIPTION \"\"
  INDEX { IMPLIED implied } ::= { iso 2 }
range OBJECT-TYPE SYNTAX OCTET STRING (SIZE (-5..-5)) MAX-ACCESS read-only STATUS current
  DESCRIPTION \"\" ::= { rangeRow 1 }
rangeRow OBJECT-TYPE SYNTAX R MAX-ACCESS not-accessible STATUS current DESCRIPTION \"\"
  INDEX { range } ::= { iso 3 }
none OBJECT-TYPE SYNTAX OCTET STRING (SIZE (-0)) MAX-ACCESS read-only STATUS current
  DESCRIPTION \"\" ::= { noneRow 1 }
noneRow OBJECT-TYPE SYNTAX R MAX-ACCESS not-accessible STATUS current DESCRIPTION \"\"
  INDEX { none } ::= { iso 4 }
END
";

#[test]
fn no_string_has_a_size_below_zero(rt: HostRuntime) -> Result<(), Fail> {
    assert!(rt; wrong_row(rt.alloc(), SIZES, &COLUMNS_OF_SIZES)?.is_none());
    Ok(())
}

static COLUMNS_OF_SIZES: [Row<'static>; 4] = [
    ("below", None),
    ("implied", None),
    ("range", Some(&[TEXT])),
    ("none", Some(&[IndexPart::Text(Extent::Fixed(0))])),
];
