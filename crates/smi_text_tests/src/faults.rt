//! Texts that are refused, each with its fault and line, and similar texts that are accepted.

use crate::reading::{
    are_tokens, assert_fault_of_each, assert_faults, bad_byte, counts, fault_of, fault_of_pieces,
    is_named, open_string, syntax,
};
use smi_text::{DefKind, Module, ParseError, parse_modules};
use std::alloc::{AllocError, Global};
use std::process::Abort;
use std::test::Fail;

/// Returns the fault of a second definition on this line.
fn double_name(line: usize) -> Option<ParseError> {
    Some(ParseError::DoubleName { line })
}

/// Texts without a module.
const NO_MODULES: &[&[u8]] = &[
    b"",
    b"-- only a comment",
    b" \t\r\n\x0b\x0c",
    b"\n\n",
    b"--",
    b"-- one -- -- two\n",
];

/// Texts of an empty module.
const EMPTY_MODULES: &[&[u8]] = &[
    b"A DEFINITIONS ::= BEGIN END",
    b"A -- note -- DEFINITIONS ::= BEGIN END",
    b"A---note\nDEFINITIONS::=BEGIN--x--END",
];

#[test]
fn texts_without_a_module_and_empty_modules_are_accepted(rt: HostRuntime) {
    let alloc = rt.alloc();
    for text in NO_MODULES {
        assert_eq!(rt; counts(alloc, text), Ok((0, 0)));
    }
    for text in EMPTY_MODULES {
        assert!(rt; is_empty_module(alloc, text));
    }
    assert!(rt;
        is_module_of_macro(
            alloc,
            b"A DEFINITIONS ::= BEGIN OBJECT-TYPE MACRO ::= BEGIN x ::= \"y\" z(VALUE) END END"
        )
    );
}

/// Returns whether `text` is one module A, which has only the macro OBJECT-TYPE.
fn is_module_of_macro(alloc: Global, text: &[u8]) -> bool {
    match parse_modules(alloc, text) {
        Ok(modules) => has_macro(&modules),
        Err(_) => false,
    }
}

/// Returns whether `modules` are one module A, which has only the macro OBJECT-TYPE.
fn has_macro(modules: &[Module]) -> bool {
    let [module] = modules else {
        return false;
    };
    let [def] = module.defs.as_slice() else {
        return false;
    };
    let DefKind::Macro(tokens) = &def.kind else {
        return false;
    };
    is_named(&module.name, "A")
        && is_named(&def.label, "OBJECT-TYPE")
        && are_tokens(tokens.as_slice(), "x ::= \"y\" z ( VALUE )")
}

/// Returns whether `text` is one module A, which is empty.
fn is_empty_module(alloc: Global, text: &[u8]) -> bool {
    match parse_modules(alloc, text) {
        Ok(modules) => are_empty_module(&modules),
        Err(_) => false,
    }
}

/// Returns whether `modules` are one module A, which is empty.
fn are_empty_module(modules: &[Module]) -> bool {
    let [module] = modules else {
        return false;
    };
    is_named(&module.name, "A")
        && module.heading.is_none()
        && module.imports.is_none()
        && module.defs.len() == 0
}

#[test]
fn each_fault_has_its_line(rt: HostRuntime) {
    let alloc = rt.alloc();
    let rows = [
        (b"A DEFINITIONS BEGIN\nEND".as_slice(), syntax(1)),
        (
            b"A DEFINITIONS ::= BEGIN\nx OBJECT IDENTIFIER ::= { }\nEND",
            syntax(2),
        ),
        (b"A\n\n\"open", open_string(3)),
        (b"A DEFINITIONS ::= BEGIN\n? END", bad_byte(2)),
        // A fault on the first line, and in the middle of a text.
        (b"::=\nA DEFINITIONS ::= BEGIN END", syntax(1)),
        (b"END\n\n\n", syntax(1)),
        (
            b"A DEFINITIONS ::= BEGIN\nx OBJECT\nIDENTIFER\n::= { iso 1 }\nEND\n",
            syntax(3),
        ),
        (
            b"A DEFINITIONS ::= BEGIN\nx OBJECT IDENTIFIER ::= {\n\niso org\n\n}\nEND\n",
            syntax(6),
        ),
        (
            b"A DEFINITIONS ::= BEGIN END\n\nA DEFINITIONS ::= BEGIN END\nEND\n\n",
            syntax(4),
        ),
        // A text that ends too early has its fault on the line of its last octet.
        (b"A", syntax(1)),
        (b"A\n", syntax(1)),
        (b"A\n\n", syntax(2)),
        (b"A DEFINITIONS ::= BEGIN\n\n", syntax(2)),
        (b"A DEFINITIONS ::= BEGIN\n\n ", syntax(3)),
        (b"A DEFINITIONS ::= BEGIN\n-- END\n-- END", syntax(3)),
        (
            b"A DEFINITIONS ::= BEGIN\nx MODULE-COMPLIANCE END\nEND\n",
            syntax(3),
        ),
        (
            b"A DEFINITIONS ::= BEGIN\nX ::= CHOICE { {\n}\nEND\n",
            syntax(4),
        ),
        (
            b"A DEFINITIONS ::= BEGIN\nX MACRO ::= BEGIN\n::=\n",
            syntax(3),
        ),
        (
            b"A DEFINITIONS ::= BEGIN\nX ::= CHOICE { \"two\nlines\"",
            syntax(3),
        ),
    ];
    assert_faults(&rt, alloc, &rows);
}

#[test]
fn a_second_definition_of_a_name_is_a_fault(rt: HostRuntime) {
    let alloc = rt.alloc();
    let rows = [
        (
            b"A DEFINITIONS ::= BEGIN\nx OBJECT IDENTIFIER ::= { iso 1 }\n\
            x OBJECT IDENTIFIER ::= { iso 2 }\nEND"
                .as_slice(),
            double_name(3),
        ),
        (
            b"A DEFINITIONS ::= BEGIN X ::= BITS\ny OBJECT IDENTIFIER ::= { iso 1 } X ::=\n\
            SEQUENCE OF Y\nEND",
            double_name(2),
        ),
        (
            b"A DEFINITIONS ::= BEGIN\nOBJECT-TYPE MACRO ::= BEGIN END\n\nOBJECT-TYPE MACRO ::=\n\
            BEGIN END END",
            double_name(4),
        ),
        (
            b"B DEFINITIONS ::= BEGIN END\nA DEFINITIONS ::= BEGIN\n\
            a OBJECT IDENTIFIER ::= { iso 1 }\nb OBJECT IDENTIFIER ::= { a 2 }\n\
            a MODULE-COMPLIANCE ::= { a 1 }\nEND",
            double_name(5),
        ),
        // The case of letters matters, each module has its own names, and imports are not
        // definitions.
        (
            b"A DEFINITIONS ::= BEGIN x OBJECT IDENTIFIER ::= { iso 1 } X ::= BITS xX ::= BITS END",
            syntax(1),
        ),
        (
            b"A DEFINITIONS ::= BEGIN x OBJECT IDENTIFIER ::= { iso 1 } X ::= BITS XX ::= BITS END",
            None,
        ),
        (
            b"A DEFINITIONS ::= BEGIN X ::= BITS END\nA DEFINITIONS ::= BEGIN X ::= BITS END",
            None,
        ),
        (
            b"A DEFINITIONS ::= BEGIN IMPORTS X, X FROM B X FROM B; X ::= BITS END",
            None,
        ),
        // A definition that has a fault and repeats a name is reported for its fault.
        (
            b"A DEFINITIONS ::= BEGIN\nX ::= BITS\nX ::= ;\nX ::= BITS END",
            syntax(3),
        ),
    ];
    assert_faults(&rt, alloc, &rows);
}

#[test]
fn the_first_of_several_faults_is_reported(rt: HostRuntime) {
    let alloc = rt.alloc();
    let rows = [
        // A second definition before a fault of the lexer, and after one.
        (
            b"A DEFINITIONS ::= BEGIN\nX ::= BITS\nX ::= BITS\n? END".as_slice(),
            double_name(3),
        ),
        (
            b"A DEFINITIONS ::= BEGIN\nX ::= BITS\n?\nX ::= BITS END",
            bad_byte(3),
        ),
        (
            b"A DEFINITIONS ::= BEGIN X ::= BITS\nX ::= BITS END\n\"open",
            double_name(2),
        ),
        // An unexpected token before a fault of the lexer, and faults of the lexer without such a
        // token before them.
        (b"A DEFINITIONS BEGIN\n?", syntax(1)),
        (b"A DEFINITIONS\n? BEGIN", bad_byte(2)),
        (b"A DEFINITIONS ::= BEGIN END\n'1", open_string(2)),
        // A fault of the lexer is also reported in the braces of a CHOICE, which aren't parsed.
        (
            b"A DEFINITIONS ::= BEGIN\nX ::= CHOICE { { ?\n} } END",
            bad_byte(2),
        ),
    ];
    assert_faults(&rt, alloc, &rows);
}

/// Definitions with numbers that are in their ranges, or aren't parsed.
const IN_RANGE: &[&str] = &[
    "x OBJECT IDENTIFIER ::= { 0 -0 4294967295 000004294967295 a(0) b(4294967295) c(-0) }",
    "X ::= INTEGER { low(-9223372036854775808), high(18446744073709551615), zero(-0) }",
    "X ::= INTEGER (-9223372036854775808..18446744073709551615)",
    "X ::= INTEGER (-0009223372036854775808 | 00018446744073709551615)",
    "X ::= OCTET STRING (SIZE (''H | ''B | 'ffffFFFFffffFFFF'h | '0000000000000000000000FF'H))",
    "X ::= INTEGER ('1111111111111111111111111111111111111111111111111111111111111111'b)",
    "X ::= [APPLICATION 18446744073709551615] IMPLICIT INTEGER",
    "X ::= [APPLICATION -9223372036854775808] IMPLICIT INTEGER",
    "x AGENT-CAPABILITIES 99999999999999999999999999 '10000000000000000'H ::= { 1 }",
];

/// Definitions with a number that is out of its range, or with a literal in place of a number.
const OUT_OF_RANGE: &[&str] = &[
    "x OBJECT IDENTIFIER ::= { 4294967296 }",
    "x OBJECT IDENTIFIER ::= { -1 }",
    "x OBJECT IDENTIFIER ::= { iso 4294967296 }",
    "x OBJECT IDENTIFIER ::= { iso a(4294967296) }",
    "x OBJECT IDENTIFIER ::= { a(-1) }",
    "x OBJECT IDENTIFIER ::= { 99999999999999999999999 }",
    "X ::= INTEGER { low(-9223372036854775809) }",
    "X ::= INTEGER { high(18446744073709551616) }",
    "X ::= INTEGER (0..18446744073709551616)",
    "X ::= INTEGER (-9223372036854775809..0)",
    "X ::= INTEGER ('10000000000000000'H)",
    "X ::= INTEGER ('10000000000000000000000000000000000000000000000000000000000000000'B)",
    "X ::= [APPLICATION 18446744073709551616] IMPLICIT INTEGER",
    "X ::= [APPLICATION '1'H] IMPLICIT INTEGER",
    "X ::= INTEGER { a('1'H) }",
    "x OBJECT IDENTIFIER ::= { '1'H }",
];

#[test]
fn numbers_out_of_their_range_are_faults(rt: HostRuntime) -> Result<(), Fail> {
    assert_fault_of_each(&rt, rt.alloc(), IN_RANGE, None)?;
    assert_fault_of_each(&rt, rt.alloc(), OUT_OF_RANGE, syntax(2))?;
    Ok(())
}

/// Definitions with a clause or a token that is misplaced or missing, or that doesn't belong there.
const MISPLACED: &[&str] = &[
    "x OBJECT IDENTIFIER ::= iso",
    "x OBJECT-TYPE SYNTAX BITS STATUS current DESCRIPTION \"\" MAX-ACCESS read-only \
    ::= { iso 1 }",
    "x OBJECT-TYPE SYNTAX BITS MAX-ACCESS read-only STATUS current DESCRIPTION \"\" \
    DEFVAL { } INDEX { a } ::= { iso 1 }",
    "x OBJECT-TYPE SYNTAX BITS MAX-ACCESS read-only UNITS \"\" STATUS current \
    DESCRIPTION \"\" ::= { iso 1 }",
    "x OBJECT-TYPE SYNTAX BITS MAX-ACCESS read-only STATUS current REFERENCE \"\" \
    DESCRIPTION \"\" ::= { iso 1 }",
    "x OBJECT-TYPE SYNTAX BITS MAX-ACCESS read-only STATUS current DESCRIPTION \"\" \
    INDEX { IMPLIED a, b } ::= { iso 1 }",
    "x OBJECT-TYPE SYNTAX BITS MAX-ACCESS read-only STATUS current DESCRIPTION \"\" INDEX { } \
    ::= { iso 1 }",
    "x OBJECT-TYPE SYNTAX BITS MAX-ACCESS read-only STATUS current DESCRIPTION \"\" \
    AUGMENTS { a, b } ::= { iso 1 }",
    "x OBJECT-TYPE SYNTAX BITS MAX-ACCESS read-only STATUS current DESCRIPTION \"\"",
    "x NOTIFICATION-TYPE OBJECTS { } STATUS current DESCRIPTION \"\" ::= { iso 1 }",
    "x OBJECT-GROUP STATUS current DESCRIPTION \"\" ::= { iso 1 }",
    "x OBJECT-IDENTITY STATUS current ::= { iso 1 }",
    "x MODULE-IDENTITY LAST-UPDATED \"\" ORGANIZATION \"\" DESCRIPTION \"\" CONTACT-INFO \"\" \
    ::= { iso 1 }",
    "x MODULE-COMPLIANCE a b",
    "X ::= SEQUENCE { }",
    "X ::= SEQUENCE { a BITS, }",
    "X ::= SEQUENCE OF INTEGER",
    "X ::= CHOICE { { }",
    "X ::= CHOICE { } }",
    "X ::= INTEGER { }",
    "X ::= INTEGER { a(1), }",
    "X ::= INTEGER { a }",
    "X ::= INTEGER ( )",
    "X ::= INTEGER (1..)",
    "X ::= INTEGER (1 2)",
    "X ::= INTEGER (MIN..MAX)",
    "X ::= OCTET STRING SIZE (1)",
    "X ::= OCTET STRING (SIZE 1)",
    "X ::= OCTET STRING (SIZE (1)",
    "X ::= SEQUENCE OF Y (1)",
    "X ::= [1] IMPLICIT BITS",
    "X ::= [APPLICATION 1] BITS",
    "X ::= TEXTUAL-CONVENTION STATUS current DESCRIPTION \"\" DISPLAY-HINT \"d\" SYNTAX BITS",
    "x BITS ::= { a }",
    "x ::= { a }",
    "X OBJECT IDENTIFIER ::= { a }",
    "x OBJECT IDENTIFIER ::= { iso } IMPORTS a FROM B;",
];

#[test]
fn misplaced_clauses_are_faults(rt: HostRuntime) -> Result<(), Fail> {
    let alloc = rt.alloc();
    for text in MISPLACED {
        assert!(rt;
            matches!(fault_of(alloc, text)?, Some(ParseError::Syntax { .. })),
            "{text}"
        );
    }
    Ok(())
}

/// Appends `brace` 10,000 times.
fn put_braces(text: &mut Vec<u8>, brace: u8) -> Result<(), AllocError> {
    for _ in 0..10000 {
        text.push(brace)?;
    }
    Ok(())
}

/// Returns the fault of `text` with a line feed after it.
fn fault_of_line(alloc: Global, text: &[u8]) -> Result<Option<ParseError>, AllocError> {
    fault_of_pieces(alloc, &[text, b"\n"])
}

/// Appends 10,000 opening braces to `text`, the start of a module, then as many closing ones, and
/// then `rest`, which closes the brace at the end of `text` and ends the module. Asserts that the
/// text is refused on its last line after the braces of each kind, and is accepted after `rest`.
fn assert_deep(
    rt: &impl Abort,
    alloc: Global,
    text: &mut Vec<u8>,
    rest: &[u8],
) -> Result<(), AllocError> {
    put_braces(text, b'{')?;
    assert_eq!(rt; fault_of_line(alloc, text)?, syntax(2));
    put_braces(text, b'}')?;
    assert_eq!(rt; fault_of_line(alloc, text)?, syntax(2));
    text.extend_from_slice(rest)?;
    assert_eq!(rt; counts(alloc, text), Ok((1, 1)));
    Ok(())
}

#[test]
fn deep_braces_are_accepted(rt: HostRuntime) -> Result<(), Fail> {
    let alloc = rt.alloc();
    let mut text = Vec::from_slice(alloc, b"A DEFINITIONS ::= BEGIN\nX ::= CHOICE {")?;
    assert_deep(&rt, alloc, &mut text, b"}\nEND\n")?;
    Ok(())
}

#[test]
fn deep_braces_in_a_default_are_accepted(rt: HostRuntime) -> Result<(), Fail> {
    let alloc = rt.alloc();
    let mut text = Vec::from_slice(
        alloc,
        b"A DEFINITIONS ::= BEGIN\nx OBJECT-TYPE SYNTAX INTEGER MAX-ACCESS read-only \
STATUS current DESCRIPTION \"\" DEFVAL {",
    )?;
    assert_deep(&rt, alloc, &mut text, b"} ::= { iso 1 }\nEND\n")?;
    Ok(())
}
