//! Texts with their tokens and faults, written by hand from the standard.

use smi_text::TokenKind::{
    Assign, Binary, CloseBrace, CloseParen, Colon, Dot, Hex, Lower, Number, OpenBrace, OpenParen,
    Range, Text, Upper,
};
use smi_text::{LexError, Lexer, Token, TokenKind};
use std::process::Abort;

/// A token's kind, text and line.
type Row = (TokenKind, &'static [u8], usize);

/// A text, its tokens, and its fault if it isn't read to its end.
type Case = (&'static [u8], &'static [Row], Option<LexError>);

/// Returns whether `token` is the one that `row` describes, and `text` has its octets at its span.
fn is_token(text: &[u8], token: &Token<'_>, row: &Row) -> bool {
    let (kind, octets, line) = row;
    let span = token.span;
    token.kind == *kind
        && token.text == *octets
        && token.line == *line
        && text.get(span.start..span.end) == Some(*octets)
}

/// Returns whether `text` has these tokens and this fault, and the lexer ends after them.
fn is_lexed(text: &[u8], rows: &[Row], fault: Option<LexError>) -> bool {
    let mut lexer = Lexer::new(text);
    for row in rows {
        match lexer.next() {
            Some(Ok(token)) if is_token(text, &token, row) => {}
            _ => return false,
        }
    }
    if let Some(fault) = fault {
        if lexer.next() != Some(Err(fault)) {
            return false;
        }
    }
    lexer.next().is_none() && lexer.next().is_none()
}

/// Asserts that each text has its tokens and its fault.
fn assert_lexed(rt: &impl Abort, cases: &[Case]) {
    for (text, rows, fault) in cases {
        assert!(rt; is_lexed(text, rows, *fault), "{text:?}");
    }
}

const BLANKS_AND_COMMENTS: &[Case] = &[
    (b"", &[], None),
    (b" \t\r\n\x0b\x0c", &[], None),
    (b"-- only a comment", &[], None),
    (b"--", &[], None),
    (b"-----", &[], None),
    (
        b"a\r\nb\x0cc",
        &[(Lower, b"a", 1), (Lower, b"b", 2), (Lower, b"c", 2)],
        None,
    ),
    (
        b"A -- note -- B",
        &[(Upper, b"A", 1), (Upper, b"B", 1)],
        None,
    ),
    (b"-- note\nb", &[(Lower, b"b", 2)], None),
    (b"-- note\r\nb", &[(Lower, b"b", 2)], None),
    (b"-- ---- title ----", &[(Lower, b"title", 1)], None),
    (b"--a-b--c---- d", &[(Lower, b"c", 1)], None),
    (b"-- a -\n- 1", &[], Some(LexError::BadByte { line: 2 })),
    (b"---a---b", &[(Lower, b"b", 1)], None),
    (b"-- \"x\n\"y\"", &[(Text, b"\"y\"", 2)], None),
];

const WORDS_AND_NUMBERS: &[Case] = &[
    (
        b"OBJECT-TYPE x1_2",
        &[(Upper, b"OBJECT-TYPE", 1), (Lower, b"x1_2", 1)],
        None,
    ),
    (b"a--b\nc", &[(Lower, b"a", 1), (Lower, b"c", 2)], None),
    (b"a---b--c", &[(Lower, b"a", 1), (Lower, b"c", 1)], None),
    (
        b"a-",
        &[(Lower, b"a", 1)],
        Some(LexError::BadByte { line: 1 }),
    ),
    (
        b"a- b",
        &[(Lower, b"a", 1)],
        Some(LexError::BadByte { line: 1 }),
    ),
    (b"a-5 b-_", &[(Lower, b"a-5", 1), (Lower, b"b-_", 1)], None),
    (b"_a", &[], Some(LexError::BadByte { line: 1 })),
    (b"12ab", &[(Number, b"12", 1), (Lower, b"ab", 1)], None),
    (
        b"-5 007 -0",
        &[(Number, b"-5", 1), (Number, b"007", 1), (Number, b"-0", 1)],
        None,
    ),
    (b"5-3", &[(Number, b"5", 1), (Number, b"-3", 1)], None),
    (
        b"1 - 2",
        &[(Number, b"1", 1)],
        Some(LexError::BadByte { line: 1 }),
    ),
    (b"5--3", &[(Number, b"5", 1)], None),
];

const STRINGS_AND_LITERALS: &[Case] = &[
    (
        b"\"\" \"a\n--b\n\" c",
        &[
            (Text, b"\"\"", 1),
            (Text, b"\"a\n--b\n\"", 1),
            (Lower, b"c", 3),
        ],
        None,
    ),
    (
        b"A\n\n\"open",
        &[(Upper, b"A", 1)],
        Some(LexError::OpenString { line: 3 }),
    ),
    (
        b"\"a\" \"\nb\n",
        &[(Text, b"\"a\"", 1)],
        Some(LexError::OpenString { line: 1 }),
    ),
    (
        b"'01'H'01'b''h",
        &[(Hex, b"'01'H", 1), (Binary, b"'01'b", 1), (Hex, b"''h", 1)],
        None,
    ),
    (
        b"'fF'H ''B",
        &[(Hex, b"'fF'H", 1), (Binary, b"''B", 1)],
        None,
    ),
    (b"\n'01", &[], Some(LexError::OpenString { line: 2 })),
    (
        b"x\n'01'",
        &[(Lower, b"x", 1)],
        Some(LexError::BadByte { line: 2 }),
    ),
    (b"'01'X", &[], Some(LexError::BadByte { line: 1 })),
    (b"'0G'H", &[], Some(LexError::BadByte { line: 1 })),
    (b"'02'B", &[], Some(LexError::BadByte { line: 1 })),
    (b"'01' H", &[], Some(LexError::BadByte { line: 1 })),
    (b"'0\n1'H", &[], Some(LexError::BadByte { line: 1 })),
    (b"'01'Hx", &[(Hex, b"'01'H", 1), (Lower, b"x", 1)], None),
];

const SYMBOLS: &[Case] = &[
    (
        b"x ::= { iso 1 }",
        &[
            (Lower, b"x", 1),
            (Assign, b"::=", 1),
            (OpenBrace, b"{", 1),
            (Lower, b"iso", 1),
            (Number, b"1", 1),
            (CloseBrace, b"}", 1),
        ],
        None,
    ),
    (
        b"z(VALUE)",
        &[
            (Lower, b"z", 1),
            (OpenParen, b"(", 1),
            (Upper, b"VALUE", 1),
            (CloseParen, b")", 1),
        ],
        None,
    ),
    (
        b":::==",
        &[
            (Colon, b":", 1),
            (Assign, b"::=", 1),
            (TokenKind::Equals, b"=", 1),
        ],
        None,
    ),
    (b"::", &[(Colon, b":", 1), (Colon, b":", 1)], None),
    (
        b"0..9",
        &[(Number, b"0", 1), (Range, b"..", 1), (Number, b"9", 1)],
        None,
    ),
    (b"...", &[(Range, b"..", 1), (Dot, b".", 1)], None),
    (
        b"[]<>,;|",
        &[
            (TokenKind::OpenBracket, b"[", 1),
            (TokenKind::CloseBracket, b"]", 1),
            (TokenKind::Less, b"<", 1),
            (TokenKind::Greater, b">", 1),
            (TokenKind::Comma, b",", 1),
            (TokenKind::Semicolon, b";", 1),
            (TokenKind::Bar, b"|", 1),
        ],
        None,
    ),
];

const FAULTS: &[Case] = &[
    (
        b"A BEGIN\n? END",
        &[(Upper, b"A", 1), (Upper, b"BEGIN", 1)],
        Some(LexError::BadByte { line: 2 }),
    ),
    (
        b"a\0b",
        &[(Lower, b"a", 1)],
        Some(LexError::BadByte { line: 1 }),
    ),
    (b"\x80", &[], Some(LexError::BadByte { line: 1 })),
    (b"\xff a", &[], Some(LexError::BadByte { line: 1 })),
    (b"-", &[], Some(LexError::BadByte { line: 1 })),
    (
        b"x-- y --\n!",
        &[(Lower, b"x", 1)],
        Some(LexError::BadByte { line: 2 }),
    ),
];

#[test]
fn blanks_and_comments_are_skipped(rt: HostRuntime) {
    assert_lexed(&rt, BLANKS_AND_COMMENTS);
}

#[test]
fn words_and_numbers_are_lexed(rt: HostRuntime) {
    assert_lexed(&rt, WORDS_AND_NUMBERS);
}

#[test]
fn strings_and_literals_are_lexed(rt: HostRuntime) {
    assert_lexed(&rt, STRINGS_AND_LITERALS);
}

#[test]
fn symbols_are_lexed(rt: HostRuntime) {
    assert_lexed(&rt, SYMBOLS);
}

#[test]
fn octets_that_begin_no_token_are_faults(rt: HostRuntime) {
    assert_lexed(&rt, FAULTS);
}
