//! Tokens, line ends, comments and signs, as the lexer and the parser read them.

use crate::reading::{
    assert_counts, assert_fault_of_each, assert_faults, bad_byte, counts, definition, open_string,
    syntax,
};
use smi_text::{LexError, Lexer, ParseError, Span, Token, TokenKind, parse_modules};
use std::alloc::{AllocError, Global};
use std::process::Abort;
use std::test::Fail;

/// A token: its kind and text, where it begins and ends, and its line.
type Row = (TokenKind, &'static str, usize, usize, usize);

/// A text that begins with `TOKENS`. The octets after them begin no token.
const MIXED: &[u8] = b"A-b_9 x-- note --'0F'h -07..\n\"two\nlines\"::= :: '';";

/// The tokens of `MIXED`.
const TOKENS: &[Row] = &[
    (TokenKind::Upper, "A-b_9", 0, 5, 1),
    (TokenKind::Lower, "x", 6, 7, 1),
    (TokenKind::Hex, "'0F'h", 17, 22, 1),
    (TokenKind::Number, "-07", 23, 26, 1),
    (TokenKind::Range, "..", 26, 28, 1),
    (TokenKind::Text, "\"two\nlines\"", 29, 40, 2),
    (TokenKind::Assign, "::=", 40, 43, 3),
    (TokenKind::Colon, ":", 44, 45, 3),
    (TokenKind::Colon, ":", 45, 46, 3),
];

/// Returns whether `token` is the one that `row` describes.
fn is_token(token: &Token<'_>, row: &Row) -> bool {
    let (kind, octets, start, end, line) = *row;
    token.kind == kind
        && token.span == Span { start, end }
        && token.text == octets.as_bytes()
        && token.line == line
}

#[test]
fn tokens_have_their_spans_and_lines(rt: HostRuntime) -> Result<(), Fail> {
    let mut lexer = Lexer::new(MIXED);
    for row in TOKENS {
        let Some(Ok(token)) = lexer.next() else {
            return Err("no token".into());
        };
        assert!(rt; is_token(&token, row), "{row:?}");
    }
    assert_eq!(rt; lexer.next(), Some(Err(LexError::BadByte { line: 3 })));
    assert_eq!(rt; lexer.next(), None);
    assert_eq!(rt; lexer.next(), None);
    Ok(())
}

/// Returns whether `text` defines `name` on this line.
fn has_line(alloc: Global, text: &[u8], name: &str, line: usize) -> Result<bool, ParseError> {
    let modules = parse_modules(alloc, text)?;
    Ok(definition(&modules, name).is_some_and(|def| def.line == line))
}

#[test]
fn only_a_line_feed_ends_a_line(rt: HostRuntime) -> Result<(), Fail> {
    let alloc = rt.alloc();
    let text =
        b"A DEFINITIONS ::= BEGIN\r\nIMPORTS a\r\nFROM B;\r\n\x0cx OBJECT IDENTIFIER ::= {\r\n\
        iso 1 }\r\nEND\r\n";
    assert!(rt; has_line(alloc, text, "x", 4)?);
    let rows = [
        (
            b"A\x0cDEFINITIONS\x0b::=\tBEGIN\x0cEND\x0c".as_slice(),
            None,
        ),
        // A CR by itself ends no line, nor do FF and VT.
        (b"A DEFINITIONS ::= BEGIN\r\x0c\x0b;\r\nEND", syntax(1)),
        (b"A DEFINITIONS ::= BEGIN\r\n;\r\nEND", syntax(2)),
        (b"-- a comment that a CR doesn't end \rA", None),
    ];
    assert_faults(&rt, alloc, &rows);
    Ok(())
}

#[test]
fn comments_are_skipped(rt: HostRuntime) {
    let alloc = rt.alloc();
    let rows = [
        (
            b"A DEFINITIONS ::= BEGIN -- note -- x OBJECT IDENTIFIER ::= { iso 1 } -- end\n\
            END"
                .as_slice(),
            Ok((1, 1)),
        ),
        (
            b"A DEFINITIONS ::= BEGIN -- x OBJECT IDENTIFIER ::= { iso 1 }\nEND",
            Ok((1, 0)),
        ),
        (
            b"A DEFINITIONS ::= BEGIN\n-----------------------------------------\nEND",
            Ok((1, 0)),
        ),
        (
            b"A DEFINITIONS ::= BEGIN\n-- \xff \x00 \" ' ? --\nEND",
            Ok((1, 0)),
        ),
        (b"A DEFINITIONS ::= BEGIN --a-b-c-- END", Ok((1, 0))),
        (b"A DEFINITIONS ::= BEGIN X ::= A---b\nEND", Ok((1, 1))),
        // The second run of hyphens ends the comment, so `title` is outside of it.
        (
            b"A DEFINITIONS ::= BEGIN\n-- ---- title ----\nEND",
            Err(ParseError::Syntax { line: 3 }),
        ),
        (b"A DEFINITIONS ::= BEGIN\n-- ---- END ----\n", Ok((1, 0))),
    ];
    assert_counts(&rt, alloc, &rows);
}

#[test]
fn octets_that_begin_no_token_are_faults(rt: HostRuntime) {
    let alloc = rt.alloc();
    let rows = [
        (b"\x00".as_slice(), bad_byte(1)),
        (b"A DEFINITIONS\n\x00::= BEGIN END", bad_byte(2)),
        (
            b"A DEFINITIONS ::= BEGIN\nX\xc3\xa4 ::= BITS END",
            bad_byte(2),
        ),
        (b"A DEFINITIONS ::= BEGIN\n\n\xff END", bad_byte(3)),
        (b"A DEFINITIONS ::= BEGIN X ::= A\n-\n1 END", bad_byte(2)),
        (
            b"A DEFINITIONS ::= BEGIN\n_x OBJECT IDENTIFIER ::= { iso 1 } END",
            bad_byte(2),
        ),
        (
            b"A DEFINITIONS ::= BEGIN x OBJECT-IDENTITY STATUS current\nDESCRIPTION \"open\n\n\
            END\n",
            open_string(2),
        ),
        (
            b"A DEFINITIONS ::= BEGIN\nX ::= INTEGER ('0F\n) END\n",
            open_string(2),
        ),
        (
            b"A DEFINITIONS ::= BEGIN\nX ::= INTEGER ('0F)\nY ::= INTEGER ('0F'H) END\n",
            bad_byte(2),
        ),
        (
            b"A DEFINITIONS ::= BEGIN\nX ::= INTEGER ('0F')\nEND\n",
            bad_byte(2),
        ),
        (
            b"A DEFINITIONS ::= BEGIN\nX ::= INTEGER ('0F'B)\nEND\n",
            bad_byte(2),
        ),
        (
            b"A DEFINITIONS ::= BEGIN\nX ::= INTEGER ('0F' H)\nEND\n",
            bad_byte(2),
        ),
    ];
    assert_faults(&rt, alloc, &rows);
}

/// Appends a module that has a string with each octet but the quote.
fn put_any_string(text: &mut Vec<u8>) -> Result<(), AllocError> {
    text.extend_from_slice(b"A DEFINITIONS ::= BEGIN X ::= CHOICE { \"")?;
    for octet in 0..=255u8 {
        if octet != b'"' {
            text.push(octet)?;
        }
    }
    text.extend_from_slice(b"\" } END")?;
    Ok(())
}

#[test]
fn a_string_has_any_octet_but_a_quote(rt: HostRuntime) -> Result<(), Fail> {
    let mut text = Vec::new(rt.alloc());
    put_any_string(&mut text)?;
    assert_eq!(rt; counts(rt.alloc(), &text), Ok((1, 1)));
    Ok(())
}

/// Definitions with a part that isn't parsed, only stored as tokens. Tokens of almost every kind
/// are accepted there.
const RAW: &[&str] = &[
    "x MODULE-COMPLIANCE { } } ( [ ] < > , ; : | . = .. -5 'a'H '1'B \"\" a B END \
        ::= { iso 1 }",
    "X ::= CHOICE { ) ( ] [ < > , ; : | . = .. ::= { END } -5 'a'H '1'B \"\" a B }",
    "OBJECT-TYPE MACRO ::= BEGIN } ( [ < > , ; : | . = .. ::= -5 'a'H '1'B \"\" a BEGIN END",
];

/// Tokens that no definition begins with.
const SIGNS: &[&str] = &["<", ">", ":", ".", "=", "|", ")", "]", "-1", "\"\"", "''H"];

#[test]
fn signs_begin_no_definition_outside_raw_text(rt: HostRuntime) -> Result<(), Fail> {
    assert_fault_of_each(&rt, rt.alloc(), RAW, None)?;
    assert_fault_of_each(&rt, rt.alloc(), SIGNS, syntax(2))?;
    Ok(())
}
