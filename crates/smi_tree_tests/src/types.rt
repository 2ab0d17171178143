//! The syntax of objects, which chains of types define across modules that import from one another.

ghost use Rattle.std.specs.Prelude.{IfOk};
ghost use Rattle.smi_tree.specs.types.Kept.{AreTypesOf};

use crate::reading::{modules_of, names_of};
use smi_text::{Module, NamedNumber, Range};
use smi_tree::{TypeBase, TypeSyntax, Types};
use std::alloc::Global;
use std::process::Abort;
use std::test::Fail;

const TYPES: &str = "M DEFINITIONS ::= BEGIN IMPORTS Far, Counter32, Integer32 FROM N;
Gauge32 ::= OCTET STRING
TimeTicks ::= Nothing
Ranged ::= Far (SIZE (0..32))
Bound ::= Integer32 (5..9)
";

const IMPORTED: &str = "END
N DEFINITIONS ::= BEGIN IMPORTS Far FROM P;
Counter32 ::= OCTET STRING
Integer32 ::= BITS { no(0) }
END
P DEFINITIONS ::= BEGIN
Far ::= TEXTUAL-CONVENTION DISPLAY-HINT \"255a\" STATUS current DESCRIPTION \"\" \
SYNTAX Deep (SIZE (6))
Deep ::= OCTET STRING (SIZE (0..255))
END
";

/// Returns the modules, with an object of each row's syntax in the first one.
fn modules(alloc: Global, rows: &[Row<'_>]) -> Result<Vec<Module>, Fail> {
    let mut text = String::new(alloc);
    push_objects(&mut text, rows)?;
    modules_of(alloc, text.as_bytes())
}

fn push_objects(text: &mut String, rows: &[Row<'_>]) -> Result<(), Fail> {
    text.push_str(TYPES)?;
    for (k, (syntax, _)) in rows.iter().enumerate() {
        writeln!(
            text,
            "o{k} OBJECT-TYPE SYNTAX {syntax} MAX-ACCESS read-only STATUS \
current DESCRIPTION \"\" ::= {{ iso {k} }}"
        )?;
    }
    text.push_str(IMPORTED)?;
    Ok(())
}

/// Returns the hint without its quotes, empty if there is none.
fn hint<'a>(syntax: &TypeSyntax<'a>) -> &'a [u8] {
    match syntax.hint {
        Some(hint) => match hint.as_bytes() {
            [b'"', octets @ .., b'"'] => octets,
            octets => octets,
        },
        None => b"",
    }
}

/// Returns the first name, empty if there is none.
fn first_name<'a>(names: Option<&'a [NamedNumber]>) -> &'a [u8] {
    match names {
        Some([first, ..]) => first.name.as_bytes(),
        _ => b"",
    }
}

/// Returns the first length of a SIZE, empty if there is none.
fn first_length<'a>(sizes: Option<&'a [Range]>) -> &'a [u8] {
    match sizes {
        Some([first, ..]) => first.low.text.as_bytes(),
        _ => b"",
    }
}

/// A base, a hint, the first name, and the first length of SIZE. Each text is empty if there is
/// none.
type Expected<'a> = Option<(TypeBase, &'a str, &'a str, &'a str)>;

/// A type, and the syntax that its chain of types defines.
type Row<'a> = (&'a str, Expected<'a>);

fn is_syntax(found: Option<TypeSyntax<'_>>, expected: Expected<'_>) -> bool {
    match (found, expected) {
        (None, None) => true,
        (Some(found), Some((base, text, name, length))) => {
            found.base == base
                && hint(&found) == text.as_bytes()
                && first_name(found.names) == name.as_bytes()
                && first_length(found.sizes) == length.as_bytes()
        }
        _ => false,
    }
}

/// The number of definitions before the objects in the first module.
const BEFORE: usize = 4;

/// Returns the index of the first of these rows whose syntax isn't as the row says.
fn wrong_row(alloc: Global, rows: &[Row<'_>]) -> Result<Option<usize>, Fail> {
    let modules = modules(alloc, rows)?;
    wrong_row_from(alloc, &modules, BEFORE, rows)
}

/// Returns the index of the first wrong row, if the objects begin with definition `first` of the
/// first module.
fn wrong_row_from(
    alloc: Global,
    modules: &[Module],
    first: usize,
    rows: &[Row<'_>],
) -> Result<Option<usize>, Fail> {
    let types = types_of(alloc, modules)?;
    Ok(first_wrong(modules, &types, first, rows))
}

fn types_of(alloc: Global, modules: &[Module]) -> Result<Types, Fail>
    ensures { IfOk result (λ types. AreTypesOf modules.now types) }
{
    let names = names_of(alloc, modules)?;
    Ok(Types::new(alloc, &names, modules)?)
}

fn first_wrong(modules: &[Module], types: &Types, first: usize, rows: &[Row<'_>]) -> Option<usize>
    requires { AreTypesOf modules.now types.now }
{
    for (k, (_, expected)) in rows.iter().enumerate() {
        let found = types.syntax(modules, 0, first.saturating_add(k));
        if !is_syntax(found, *expected) {
            return Some(k);
        }
    }
    None
}

#[test]
fn base_types_are_known_by_name_and_the_nearest_size_applies(rt: HostRuntime) -> Result<(), Fail> {
    assert!(rt; wrong_row(rt.alloc(), &SYNTAXES)?.is_none());
    Ok(())
}

static SYNTAXES: [Row<'static>; 15] = [
    ("INTEGER", Some((TypeBase::Integer, "", "", ""))),
    ("OCTET STRING", Some((TypeBase::OctetString, "", "", ""))),
    (
        "OBJECT IDENTIFIER",
        Some((TypeBase::ObjectIdentifier, "", "", "")),
    ),
    ("BITS { x(0) }", Some((TypeBase::Bits, "", "x", ""))),
    // Imported from a module that defines it as another type.
    ("Integer32", Some((TypeBase::Integer, "", "", ""))),
    ("Counter32", Some((TypeBase::Counter32, "", "", ""))),
    // Defined by the module itself, as a string and as a type that doesn't exist.
    ("Gauge32", Some((TypeBase::Gauge32, "", "", ""))),
    ("TimeTicks", Some((TypeBase::TimeTicks, "", "", ""))),
    // Defined by no module.
    ("Unsigned32", Some((TypeBase::Unsigned32, "", "", ""))),
    ("IpAddress", Some((TypeBase::IpAddress, "", "", ""))),
    ("Opaque (SIZE (2))", Some((TypeBase::Opaque, "", "", "2"))),
    ("Counter64", Some((TypeBase::Counter64, "", "", ""))),
    // Defined by the module itself, by an imported name of a base type.
    ("Bound", Some((TypeBase::Integer, "", "", ""))),
    // Across two imports, to the end of the chain.
    (
        "Far (SIZE (1 | 3))",
        Some((TypeBase::OctetString, "255a", "", "1")),
    ),
    ("Ranged", Some((TypeBase::OctetString, "255a", "", "0"))),
];

#[test]
fn only_objects_have_a_syntax(rt: HostRuntime) -> Result<(), Fail> {
    let modules = modules(rt.alloc(), &[("INTEGER", None)])?;
    assert_objects(&rt, rt.alloc(), &modules)
}

fn assert_objects(rt: &impl Abort, alloc: Global, modules: &[Module]) -> Result<(), Fail> {
    let types = types_of(alloc, modules)?;
    assert!(rt; first_object(modules, &types) == Some(BEFORE));
    assert!(rt; are_no_objects(modules, &types));
    Ok(())
}

/// Returns the index of the first object in the first module, if it is at most `BEFORE`. An object
/// is a definition with a syntax.
fn first_object(modules: &[Module], types: &Types) -> Option<usize>
    requires { AreTypesOf modules.now types.now }
{
    for index in 0..=BEFORE {
        if types.syntax(modules, 0, index).is_some() {
            return Some(index);
        }
    }
    None
}

/// Returns whether there is no syntax at the index after the object, none for the first definition
/// of the second module, and none in a module that doesn't exist.
fn are_no_objects(modules: &[Module], types: &Types) -> bool
    requires { AreTypesOf modules.now types.now }
{
    types.syntax(modules, 0, BEFORE + 1).is_none()
        && types.syntax(modules, 1, 0).is_none()
        && types.syntax(modules, 3, 0).is_none()
}

const CHAIN: &str = "M DEFINITIONS ::= BEGIN
o OBJECT-TYPE SYNTAX T0 MAX-ACCESS read-only STATUS current DESCRIPTION \"\"
::= { iso 1 }
";

/// Appends a module with an object whose type is the first of a chain of 10,001 types.
fn push_chain(text: &mut String) -> Result<(), Fail> {
    text.push_str(CHAIN)?;
    for k in 0..10_000 {
        writeln!(text, "T{k} ::= T{}", k + 1)?;
    }
    text.push_str("T10000 ::= INTEGER { last(1) }\nEND\n")?;
    Ok(())
}

fn chain(alloc: Global) -> Result<Vec<Module>, Fail> {
    let mut text = String::new(alloc);
    push_chain(&mut text)?;
    modules_of(alloc, text.as_bytes())
}

#[test]
fn long_chains_have_a_syntax(rt: HostRuntime) -> Result<(), Fail> {
    let modules = chain(rt.alloc())?;
    let last = [("T0", Some((TypeBase::Integer, "", "last", "")))];
    assert!(rt; wrong_row_from(rt.alloc(), &modules, 0, &last)?.is_none());
    Ok(())
}
