//! What a module defines and imports, the values of numbers and bounds, and lists and texts as
//! vectors.

use crate::reading::parts_of;
use smi_text::{Items, Module, Text, TokenKind, arc, bound, number, parse_modules};
use std::process::Abort;
use std::test::Fail;

/// A module with two imports of `a`, the later one from another module.
const LOOKED_UP: &[u8] = b"A DEFINITIONS ::= BEGIN IMPORTS a, b FROM M\nOBJECT-TYPE, c, a FROM N;\n\
    x OBJECT IDENTIFIER ::= { a -0 b(7) }\nY ::= BITS\n\
    g OBJECT-GROUP OBJECTS { x } STATUS current DESCRIPTION \"d\" ::= { x 2 }\nEND\n";

/// The name of an import, with the module after FROM and the line of that clause.
type Imported = (&'static [u8], Option<(&'static [u8], usize)>);

/// What `LOOKED_UP` imports, and names that it doesn't.
const IMPORTED: &[Imported] = &[
    (b"a", Some((b"M", 1))),
    (b"b", Some((b"M", 1))),
    (b"c", Some((b"N", 2))),
    (b"OBJECT-TYPE", Some((b"N", 2))),
    (b"x", None),
    (b"", None),
    (b"A", None),
];

/// The name of a definition, with its line and the words of its kind.
type Defined = (&'static [u8], Option<(usize, &'static [u8])>);

/// What `LOOKED_UP` defines, and names that it doesn't.
const DEFINED: &[Defined] = &[
    (b"x", Some((3, b"OBJECT IDENTIFIER"))),
    (b"Y", Some((4, b""))),
    (b"g", Some((5, b"OBJECT-GROUP"))),
    (b"X", None),
    (b"a", None),
    (b"", None),
];

/// Returns the name of the module from which `module` imports `name`, and the line of that FROM
/// clause.
fn import_of<'a>(module: &'a Module, name: &[u8]) -> Option<(&'a [u8], usize)> {
    let import = module.import(name)?;
    Some((import.source.as_bytes(), import.line))
}

/// Returns the line on which `module` defines `name`, and the words of the definition's kind.
fn definition_of<'a>(module: &'a Module, name: &[u8]) -> Option<(usize, &'a [u8])> {
    let def = module.define(name)?;
    Some((def.line, def.kind_words()))
}

#[test]
fn imports_and_definitions_are_found_by_name(rt: HostRuntime) -> Result<(), Fail> {
    let modules = parse_modules(rt.alloc(), LOOKED_UP)?;
    let module = modules.first().ok_or("no module")?;
    assert_names(&rt, module);
    Ok(())
}

/// Asserts that `module` imports and defines the names of [`IMPORTED`] and [`DEFINED`] as they say.
fn assert_names(rt: &impl Abort, module: &Module) {
    for (name, expected) in IMPORTED {
        assert!(rt; import_of(module, name) == *expected);
    }
    for (name, expected) in DEFINED {
        assert!(rt; definition_of(module, name) == *expected);
    }
}

#[test]
fn parts_of_an_identifier_have_numbers(rt: HostRuntime) -> Result<(), Fail> {
    let modules = parse_modules(rt.alloc(), LOOKED_UP)?;
    let module = modules.first().ok_or("no module")?;
    assert_numbers(&rt, module)
}

/// Asserts that the first part of `x` has no number, that the others have the numbers 0 and 7, and
/// that `Y` has no identifier value.
fn assert_numbers(rt: &impl Abort, module: &Module) -> Result<(), Fail> {
    let x = module.define(b"x").ok_or("no x")?;
    let [first, second, third] = parts_of(x) else {
        return Err("not three parts".into());
    };
    assert_eq!(rt; first.number(), None);
    assert_eq!(rt; second.number(), Some(0));
    assert_eq!(rt; third.number(), Some(7));
    let y = module.define(b"Y").ok_or("no Y")?;
    assert!(rt; y.identifier().is_none());
    Ok(())
}

#[test]
fn numbers_of_identifiers_are_read_within_their_range(rt: HostRuntime) {
    let rows = [
        (b"0".as_slice(), Some(0)),
        (b"-0", Some(0)),
        (b"-000", Some(0)),
        (b"007", Some(7)),
        (b"4294967295", Some(4294967295)),
        (b"4294967296", None),
        (b"-1", None),
        (b"99999999999999999999999999", None),
    ];
    for (text, expected) in rows {
        assert_eq!(rt; arc(text), expected);
    }
}

#[test]
fn signed_numbers_are_read_within_their_range(rt: HostRuntime) {
    let rows = [
        (b"-0".as_slice(), Some(0)),
        (b"-1", Some(-1)),
        (b"-9223372036854775808", Some(-9223372036854775808)),
        (b"-9223372036854775809", None),
        (b"18446744073709551615", Some(18446744073709551615)),
        (b"18446744073709551616", None),
    ];
    for (text, expected) in rows {
        assert_eq!(rt; number(text), expected);
    }
}

#[test]
fn bounds_of_ranges_are_read(rt: HostRuntime) {
    let rows = [
        (TokenKind::Number, b"-12".as_slice(), Some(-12)),
        (TokenKind::Hex, b"''H", Some(0)),
        (TokenKind::Hex, b"'fF'h", Some(255)),
        (
            TokenKind::Hex,
            b"'FFFFFFFFFFFFFFFF'H",
            Some(18446744073709551615),
        ),
        (TokenKind::Hex, b"'10000000000000000'H", None),
        (TokenKind::Binary, b"'101'B", Some(5)),
        (TokenKind::Binary, b"''b", Some(0)),
        (TokenKind::Lower, b"12", None),
    ];
    for (kind, text, expected) in rows {
        assert_eq!(rt; bound(kind, text), expected);
    }
}

#[test]
fn lists_and_texts_become_vectors(rt: HostRuntime) -> Result<(), Fail> {
    let alloc = rt.alloc();
    let numbers = Items::new(vec![in alloc; 7, 8]?).into_vec();
    assert_eq!(rt; numbers.as_slice(), [7, 8].as_slice());
    for octets in [b"".as_slice(), b"sysDescr", b"aNameOfMoreThan24OctetsInAll"] {
        let text = Text::from_slice(alloc, octets)?;
        assert_eq!(rt; text.into_vec(alloc)?.as_slice(), octets);
    }
    Ok(())
}
