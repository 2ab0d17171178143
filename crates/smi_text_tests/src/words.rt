//! Each reserved word at many positions in the grammar: it is accepted only where the grammar has
//! it.

use crate::reading::{fault_in_line, join_pieces, syntax};
use smi_text::ParseError;
use std::alloc::{AllocError, Global};
use std::test::Fail;

/// The reserved words of the grammar.
const WORDS: &str =
    "DEFINITIONS BEGIN END IMPORTS FROM OBJECT IDENTIFIER LAST-UPDATED ORGANIZATION CONTACT-INFO \
    DESCRIPTION REVISION SYNTAX UNITS MAX-ACCESS DEFVAL OBJECTS NOTIFICATIONS DISPLAY-HINT \
    APPLICATION IMPLICIT SEQUENCE CHOICE MACRO STATUS REFERENCE INDEX IMPLIED AUGMENTS OF INTEGER \
    OCTET STRING BITS SIZE MODULE-IDENTITY OBJECT-IDENTITY OBJECT-TYPE NOTIFICATION-TYPE \
    TEXTUAL-CONVENTION OBJECT-GROUP NOTIFICATION-GROUP MODULE-COMPLIANCE AGENT-CAPABILITIES";

/// The words that name a macro.
const MACROS: &str =
    "MODULE-IDENTITY OBJECT-IDENTITY OBJECT-TYPE NOTIFICATION-TYPE TEXTUAL-CONVENTION \
    OBJECT-GROUP NOTIFICATION-GROUP MODULE-COMPLIANCE AGENT-CAPABILITIES";

/// Positions outside of a module. Each has four pieces with `@` between them: the text before the
/// position, the text after it, the words with which the whole is a module, and the words that are
/// accepted there although the whole isn't a module, so that the fault is after the word. A word in
/// both lists counts only in the second. MACROS stands for all names of macros, ANY for all words.
const OUTSIDE: &[&str] = &[
    "@DEFINITIONS ::= BEGIN END@@",
    "A {@} DEFINITIONS ::= BEGIN END@@",
    "A { a@} DEFINITIONS ::= BEGIN END@@",
    "A { a (@) } DEFINITIONS ::= BEGIN END@@",
    "A@::= BEGIN END@DEFINITIONS@",
    "A DEFINITIONS ::=@END@BEGIN@",
];

/// Positions in a module, as in [`OUTSIDE`]. The head of the module comes before the first piece.
const INSIDE: &[&str] = &[
    "IMPORTS@FROM B; END@MACROS@",
    "IMPORTS a,@FROM B; END@MACROS@",
    "IMPORTS a@B; END@FROM@",
    "IMPORTS a FROM@; END@@",
    "@::= BITS END@@MACROS END IMPORTS",
    "@MACRO ::= BEGIN END END@MACROS@END IMPORTS",
    "@OBJECT IDENTIFIER ::= { iso 1 } END@@MACROS END IMPORTS",
    "X ::=@END@INTEGER BITS@OCTET OBJECT SEQUENCE TEXTUAL-CONVENTION CHOICE",
    "X ::= SEQUENCE OF@END@@",
    "X ::= SEQUENCE@END@@OF",
    "X ::= [@1 ] IMPLICIT BITS END@APPLICATION@",
    "X ::= [ APPLICATION@] IMPLICIT BITS END@@",
    "X ::= [ APPLICATION 1 ]@BITS END@IMPLICIT@",
    "X ::= [ APPLICATION 1 ] IMPLICIT@END@INTEGER BITS@OCTET OBJECT SEQUENCE",
    "X ::= OCTET@END@STRING@",
    "X ::= OBJECT@END@IDENTIFIER@",
    "X ::= SEQUENCE {@INTEGER } END@@",
    "X ::= SEQUENCE { a@} END@INTEGER BITS@OCTET OBJECT SEQUENCE",
    "X ::= INTEGER {@(1) } END@@",
    "X ::= INTEGER { a (@) } END@@",
    "X ::= INTEGER (@) END@@SIZE",
    "X ::= INTEGER (1 ..@) END@@",
    "X ::= INTEGER (1 |@) END@@",
    "X ::= OCTET STRING (SIZE (@)) END@@",
    "X ::= CHOICE@} END@@",
    "X ::= CHOICE {@} END@ANY@",
    "X ::= TEXTUAL-CONVENTION@; END@@DISPLAY-HINT STATUS",
    "X ::= TEXTUAL-CONVENTION DISPLAY-HINT@STATUS current DESCRIPTION \"\" SYNTAX BITS END@@",
    "X ::= TEXTUAL-CONVENTION DISPLAY-HINT \"\"@; END@@STATUS",
    "X ::= TEXTUAL-CONVENTION STATUS@DESCRIPTION \"\" SYNTAX BITS END@@",
    "X ::= TEXTUAL-CONVENTION STATUS current@; END@@DESCRIPTION",
    "X ::= TEXTUAL-CONVENTION STATUS current DESCRIPTION@SYNTAX BITS END@@",
    "X ::= TEXTUAL-CONVENTION STATUS current DESCRIPTION \"\"@; END@@REFERENCE SYNTAX",
    "X ::= TEXTUAL-CONVENTION STATUS current DESCRIPTION \"\" REFERENCE@SYNTAX BITS END@@",
    "X ::= TEXTUAL-CONVENTION STATUS current DESCRIPTION \"\" REFERENCE \"\"@; END@@SYNTAX",
    "X@::= BEGIN END END@MACRO@",
    "X MACRO@BEGIN END END@@",
    "X MACRO ::=@END END@BEGIN@",
    "OBJECT-TYPE MACRO ::= BEGIN@END END@ANY@END",
    "x@::= { iso 1 } END@MODULE-COMPLIANCE AGENT-CAPABILITIES@OBJECT MODULE-IDENTITY \
    OBJECT-IDENTITY OBJECT-TYPE NOTIFICATION-TYPE OBJECT-GROUP NOTIFICATION-GROUP",
    "x OBJECT@::= { iso 1 } END@IDENTIFIER@",
    "x OBJECT IDENTIFIER@{ iso 1 } END@@",
    "x OBJECT IDENTIFIER ::=@iso 1 } END@@",
    "x OBJECT IDENTIFIER ::= {@} END@@",
    "x OBJECT IDENTIFIER ::= { iso@} END@@",
    "x OBJECT IDENTIFIER ::= { iso 1@END@@",
    "x OBJECT IDENTIFIER ::= { iso 1 }@; END@@MACROS END",
    "x MODULE-COMPLIANCE@::= { iso 1 } END@ANY@",
    "x AGENT-CAPABILITIES@::= { iso 1 } END@ANY@",
    "x OBJECT-IDENTITY@; END@@STATUS",
    "x OBJECT-IDENTITY STATUS current DESCRIPTION \"\"@; END@@REFERENCE",
    "x MODULE-IDENTITY@; END@@LAST-UPDATED",
    "x MODULE-IDENTITY LAST-UPDATED@; END@@",
    "x MODULE-IDENTITY LAST-UPDATED \"\"@; END@@ORGANIZATION",
    "x MODULE-IDENTITY LAST-UPDATED \"\" ORGANIZATION \"\"@; END@@CONTACT-INFO",
    "x MODULE-IDENTITY LAST-UPDATED \"\" ORGANIZATION \"\" CONTACT-INFO \"\"@; END@@DESCRIPTION",
    "x MODULE-IDENTITY LAST-UPDATED \"\" ORGANIZATION \"\" CONTACT-INFO \"\" DESCRIPTION \"\"@; \
    END@@REVISION",
    "x MODULE-IDENTITY LAST-UPDATED \"\" ORGANIZATION \"\" CONTACT-INFO \"\" \
    DESCRIPTION \"\" REVISION \"\"@; END@@DESCRIPTION",
    "x OBJECT-TYPE@; END@@SYNTAX",
    "x OBJECT-TYPE SYNTAX@MAX-ACCESS a STATUS b DESCRIPTION \"\" ::= { iso 1 } \
    END@INTEGER BITS@OCTET OBJECT SEQUENCE",
    "x OBJECT-TYPE SYNTAX BITS@; END@@UNITS MAX-ACCESS",
    "x OBJECT-TYPE SYNTAX BITS UNITS@; END@@",
    "x OBJECT-TYPE SYNTAX BITS UNITS \"\"@; END@@MAX-ACCESS",
    "x OBJECT-TYPE SYNTAX BITS MAX-ACCESS@; END@@",
    "x OBJECT-TYPE SYNTAX BITS MAX-ACCESS a@; END@@STATUS",
    "x OBJECT-TYPE SYNTAX BITS MAX-ACCESS a STATUS b DESCRIPTION \"\"@; END@@REFERENCE INDEX \
    AUGMENTS DEFVAL",
    "x OBJECT-TYPE SYNTAX BITS MAX-ACCESS a STATUS b DESCRIPTION \"\" REFERENCE \"\"@; END@@INDEX \
    AUGMENTS DEFVAL",
    "x OBJECT-TYPE SYNTAX BITS MAX-ACCESS a STATUS b DESCRIPTION \"\" INDEX {@} ::= { iso 1 } \
    END@@IMPLIED",
    "x OBJECT-TYPE SYNTAX BITS MAX-ACCESS a STATUS b DESCRIPTION \"\" INDEX { a,@} ::= { iso 1 } \
    END@@IMPLIED",
    "x OBJECT-TYPE SYNTAX BITS MAX-ACCESS a STATUS b DESCRIPTION \"\" INDEX { IMPLIED@} \
    ::= { iso 1 } END@@",
    "x OBJECT-TYPE SYNTAX BITS MAX-ACCESS a STATUS b DESCRIPTION \"\" AUGMENTS {@} ::= { iso 1 } \
    END@@",
    "x OBJECT-TYPE SYNTAX BITS MAX-ACCESS a STATUS b DESCRIPTION \"\" INDEX { a }@; END@@DEFVAL",
    "x OBJECT-TYPE SYNTAX BITS MAX-ACCESS a STATUS b DESCRIPTION \"\" DEFVAL { }@; END@@",
    "x OBJECT-TYPE SYNTAX BITS MAX-ACCESS a STATUS b DESCRIPTION \"\" DEFVAL {@} ::= { iso 1 } \
    END@ANY@",
    "x NOTIFICATION-TYPE@; END@@OBJECTS STATUS",
    "x NOTIFICATION-TYPE OBJECTS {@} STATUS b DESCRIPTION \"\" ::= { iso 1 } END@@",
    "x NOTIFICATION-TYPE OBJECTS { a,@} STATUS b DESCRIPTION \"\" ::= { iso 1 } END@@",
    "x NOTIFICATION-TYPE OBJECTS { a }@; END@@STATUS",
    "x OBJECT-GROUP@; END@@OBJECTS",
    "x NOTIFICATION-GROUP@; END@@NOTIFICATIONS",
];

/// Returns whether `word` is one of `words`, which may contain MACROS and ANY.
fn is_among(words: &str, word: &str) -> bool {
    for other in words.split_whitespace() {
        if other == word || other == "ANY" {
            return true;
        }
        if other == "MACROS" && is_among_macros(word) {
            return true;
        }
    }
    false
}

fn is_among_macros(word: &str) -> bool {
    for other in MACROS.split_whitespace() {
        if other == word {
            return true;
        }
    }
    false
}

/// Returns what is before the first `@`, and what is after it. Without an `@` both are empty.
fn cut(position: &str) -> (&str, &str) {
    position.split_once('@').unwrap_or(("", ""))
}

/// Returns the fault that `word` should have at a position, whose last two pieces are `whole` and
/// `further`.
fn expected_fault(whole: &str, further: &str, word: &str) -> Option<ParseError> {
    if is_among(further, word) {
        syntax(3)
    } else if is_among(whole, word) {
        None
    } else {
        syntax(2)
    }
}

/// Returns the first word that has another fault between `before` and `after` than expected.
/// `words` are the last two pieces of the position.
fn first_wrong(
    alloc: Global,
    before: &[u8],
    after: &str,
    words: &str,
) -> Result<Option<&'static str>, AllocError> {
    let (whole, further) = cut(words);
    for word in WORDS.split_whitespace() {
        if fault_in_line(alloc, before, word, after)? != expected_fault(whole, further, word) {
            return Ok(Some(word));
        }
    }
    Ok(None)
}

/// Returns the first word that has another fault at `position` than expected, in a text that begins
/// with `head`.
fn wrong_word(
    alloc: Global,
    head: &str,
    position: &str,
) -> Result<Option<&'static str>, AllocError> {
    let (before, rest) = cut(position);
    let (after, words) = cut(rest);
    let start = join_pieces(alloc, &[head.as_bytes(), before.as_bytes()])?;
    first_wrong(alloc, &start, after, words)
}

#[test]
fn words_outside_of_modules_are_accepted_where_they_belong(rt: HostRuntime) -> Result<(), Fail> {
    for position in OUTSIDE {
        assert_eq!(rt; wrong_word(rt.alloc(), "", position)?, None, "{position}");
    }
    Ok(())
}

#[test]
fn words_inside_of_modules_are_accepted_where_they_belong(rt: HostRuntime) -> Result<(), Fail> {
    for position in INSIDE {
        assert_eq!(rt;
            wrong_word(rt.alloc(), "A DEFINITIONS ::= BEGIN ", position)?,
            None,
            "{position}"
        );
    }
    Ok(())
}
