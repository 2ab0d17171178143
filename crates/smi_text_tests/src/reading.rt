//! Helpers of the tests, which read texts and compare what was read.

use smi_text::{Def, LexError, Module, Name, ParseError, Part, Text, TokenText, parse_modules};
use std::alloc::{AllocError, Global};
use std::process::Abort;

/// Returns the fault of `text`, if it has one.
pub(crate) fn fault(alloc: Global, text: &[u8]) -> Option<ParseError> {
    parse_modules(alloc, text).err()
}

/// Returns the fault of wrong syntax on this line.
pub(crate) fn syntax(line: usize) -> Option<ParseError> {
    Some(ParseError::Syntax { line })
}

/// Returns the fault of an octet on this line that begins no token.
pub(crate) fn bad_byte(line: usize) -> Option<ParseError> {
    Some(ParseError::Lex(LexError::BadByte { line }))
}

/// Returns the fault of a string that begins on this line and has no end.
pub(crate) fn open_string(line: usize) -> Option<ParseError> {
    Some(ParseError::Lex(LexError::OpenString { line }))
}

/// Asserts that each text has the fault of its row, or none if the row has none.
pub(crate) fn assert_faults(rt: &impl Abort, alloc: Global, rows: &[(&[u8], Option<ParseError>)]) {
    for (text, expected) in rows {
        assert_eq!(rt; fault(alloc, text), *expected);
    }
}

/// Returns the octets of `pieces`, one piece after the other.
pub(crate) fn join_pieces(alloc: Global, pieces: &[&[u8]]) -> Result<Vec<u8>, AllocError> {
    let mut octets = Vec::new(alloc);
    for piece in pieces {
        octets.extend_from_slice(piece)?;
    }
    Ok(octets)
}

/// Returns the fault of the text that consists of `pieces`, if it has one.
pub(crate) fn fault_of_pieces(
    alloc: Global,
    pieces: &[&[u8]],
) -> Result<Option<ParseError>, AllocError> {
    let text = join_pieces(alloc, pieces)?;
    Ok(fault(alloc, &text))
}

/// Returns the fault of a text of three pieces, if it has one. There is a line feed before `piece`
/// and after it.
pub(crate) fn fault_in_line(
    alloc: Global,
    before: &[u8],
    piece: &str,
    after: &str,
) -> Result<Option<ParseError>, AllocError> {
    fault_of_pieces(
        alloc,
        &[before, b"\n", piece.as_bytes(), b"\n", after.as_bytes()],
    )
}

/// Returns the fault of a module whose second line is `definition`, and which has nothing else, if
/// it has a fault.
pub(crate) fn fault_of(alloc: Global, definition: &str) -> Result<Option<ParseError>, AllocError> {
    fault_in_line(alloc, b"A DEFINITIONS ::= BEGIN", definition, "END\n")
}

/// Asserts that each of these definitions has the fault `expected`, or none if that is `None`.
pub(crate) fn assert_fault_of_each(
    rt: &impl Abort,
    alloc: Global,
    definitions: &[&str],
    expected: Option<ParseError>,
) -> Result<(), AllocError> {
    for text in definitions {
        assert_eq!(rt; fault_of(alloc, text)?, expected, "{text}");
    }
    Ok(())
}

/// Returns the number of modules in `text`, and the number of definitions that they have together.
pub(crate) fn counts(alloc: Global, text: &[u8]) -> Result<(usize, usize), ParseError> {
    let modules = parse_modules(alloc, text)?;
    let mut defs: usize = 0;
    for module in &modules {
        defs = defs.saturating_add(module.defs.len());
    }
    Ok((modules.len(), defs))
}

/// Asserts that each text has these numbers of modules and definitions, or this fault.
pub(crate) fn assert_counts(
    rt: &impl Abort,
    alloc: Global,
    rows: &[(&[u8], Result<(usize, usize), ParseError>)],
) {
    for (text, expected) in rows {
        assert_eq!(rt; counts(alloc, text), *expected);
    }
}

/// Returns whether `text` has these octets.
pub(crate) fn is(text: &Text, octets: &str) -> bool {
    text.as_bytes() == octets.as_bytes()
}

/// Returns whether `name` has these octets.
pub(crate) fn is_named(name: &Name, octets: &str) -> bool {
    name.as_bytes() == octets.as_bytes()
}

/// Returns whether there is a text, and it has these octets.
pub(crate) fn is_some(text: &Option<Text>, octets: &str) -> bool {
    match text {
        Some(text) => is(text, octets),
        None => false,
    }
}

/// Returns whether `names` are these words, in this order.
pub(crate) fn are(names: &[Name], words: &str) -> bool {
    let mut rest = words.split_whitespace();
    for name in names {
        match rest.next() {
            Some(word) if is_named(name, word) => {}
            _ => return false,
        }
    }
    rest.next().is_none()
}

/// Returns whether `tokens` are these words, in this order.
pub(crate) fn are_tokens(tokens: &[TokenText], words: &str) -> bool {
    let mut rest = words.split_whitespace();
    for token in tokens {
        match rest.next() {
            Some(word) if is(&token.text, word) => {}
            _ => return false,
        }
    }
    rest.next().is_none()
}

/// Returns the first definition of `name` in a list of modules.
pub(crate) fn definition<'a>(modules: &'a [Module], name: &str) -> Option<&'a Def> {
    for module in modules {
        if let Some(def) = module.define(name.as_bytes()) {
            return Some(def);
        }
    }
    None
}

/// Returns the parts of a definition's identifier value, or none if it has no such value.
pub(crate) fn parts_of(def: &Def) -> &[Part] {
    match def.identifier() {
        Some(parts) => parts.as_slice(),
        None => &[],
    }
}
