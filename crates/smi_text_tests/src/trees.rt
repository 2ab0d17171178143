//! The trees of texts that use each production of the grammar.

use crate::reading::{are, are_tokens, counts, definition, is, is_named, is_some, parts_of};
use smi_text::{
    Base, DefKind, Group, Import, Index, Module, ModuleIdentity, NamedNumber, NotificationType,
    ObjectType, Part, Range, Refinement, Revision, SimpleType, Status, Syntax, TextualConvention,
    TokenText, TypeAssignment, parse_modules,
};
use std::process::Abort;
use std::test::Fail;

#[test]
fn two_small_modules_have_17_definitions(rt: HostRuntime) -> Result<(), Fail> {
    assert_eq!(rt; counts(rt.alloc(), TINY), Ok((2, 17)));
    Ok(())
}

#[test]
fn an_incomplete_text_lacks_its_last_module(rt: HostRuntime) -> Result<(), Fail> {
    let alloc = rt.alloc();
    // Without its last line feed the text is still complete. If it is any shorter, its last module
    // has no end.
    for len in 0..ALL.len().saturating_sub(1) {
        let (prefix, _) = ALL.split_at(len);
        if let Ok((modules, _)) = counts(alloc, prefix) {
            assert!(rt; modules < 2);
        }
    }
    Ok(())
}

#[test]
fn each_production_has_its_tree(rt: HostRuntime) -> Result<(), Fail> {
    let modules = parse_modules(rt.alloc(), ALL)?;
    assert_shapes(&rt, &modules);
    assert_clauses(&rt, &modules);
    Ok(())
}

/// Asserts that the modules have the expected heads, and each definition the expected shape.
fn assert_shapes(rt: &impl Abort, modules: &[Module]) {
    assert!(rt; has_heads(modules), "heads");
    for row in SHAPES {
        assert!(rt; has_shape(modules, row), "{row}");
    }
}

/// Asserts that the definitions have the expected clauses.
fn assert_clauses(rt: &impl Abort, modules: &[Module]) {
    assert_right(rt, has_identities(modules), "identities");
    assert_right(rt, has_groups(modules), "groups");
    assert_right(rt, has_objects(modules), "objects");
    assert_right(rt, has_indexes(modules), "indexes");
    assert_right(rt, has_conventions(modules), "conventions");
    assert_right(rt, has_types(modules), "types");
    assert_right(rt, has_raw_tokens(modules), "raw tokens");
}

/// Asserts that the definitions exist and are as expected.
fn assert_right(rt: &impl Abort, right: Option<bool>, what: &str) {
    assert_eq!(rt; right, Some(true), "{what}");
}

/// The name, the line, the words of the kind and the identifier value of each definition, with `@`
/// between them. An assigned type other than SEQUENCE, CHOICE and TEXTUAL-CONVENTION has no words.
const SHAPES: &[&str] = &[
    "m@5@MODULE-IDENTITY@iso 1",
    "o@7@OBJECT IDENTIFIER@iso org(3) dod(6) 1",
    "oi@8@OBJECT-IDENTITY@o 1",
    "t1@9@OBJECT-TYPE@o 2",
    "t2@10@OBJECT-TYPE@o 3",
    "t3@11@OBJECT-TYPE@t2 1",
    "t4@12@OBJECT-TYPE@o 4",
    "t5@13@OBJECT-TYPE@1 3",
    "t6@14@OBJECT-TYPE@o(1) 3",
    "n1@15@NOTIFICATION-TYPE@o 5",
    "n2@16@NOTIFICATION-TYPE@o 6",
    "g1@17@OBJECT-GROUP@o 7",
    "g2@18@NOTIFICATION-GROUP@o 8",
    "c1@19@MODULE-COMPLIANCE@o 9",
    "c2@20@AGENT-CAPABILITIES@o 10",
    "Tc@21@TEXTUAL-CONVENTION@",
    "Tc2@22@TEXTUAL-CONVENTION@",
    "App@23@@",
    "Plain@24@@",
    "Rows@25@@",
    "Row@26@SEQUENCE@",
    "Ch@27@CHOICE@",
    "OBJECT-TYPE@28@MACRO@",
    "MyMacro@29@MACRO@",
    "t7@30@OBJECT-TYPE@o 11",
    "Bare@31@@",
];

fn has_shape(modules: &[Module], row: &str) -> bool {
    let (name, rest) = row.split_once('@').unwrap_or(("", ""));
    let (line, rest) = rest.split_once('@').unwrap_or(("", ""));
    let (kind, value) = rest.split_once('@').unwrap_or(("", ""));
    let Ok(line) = line.parse::<usize>() else {
        return false;
    };
    match definition(modules, name) {
        Some(def) => def.line == line
            && def.kind_words() == kind.as_bytes()
            && are_parts(parts_of(def), value),
        None => false,
    }
}

/// Returns whether `numbered` has this name and this number.
fn is_numbered(numbered: &NamedNumber, name: &str, number: &str) -> bool {
    is_named(&numbered.name, name) && is(&numbered.number, number)
}

/// Returns whether `part` is written as `word`.
fn is_part(part: &Part, word: &str) -> bool {
    match part {
        Part::Number(number) => is(number, word),
        Part::Name(name) => is_named(name, word),
        Part::NamedNumber(part) => {
            let (name, rest) = word.split_once('(').unwrap_or(("", ""));
            let (number, _) = rest.split_once(')').unwrap_or(("", ""));
            is_numbered(part, name, number)
        }
    }
}

/// Returns whether `parts` are these words, in this order.
fn are_parts(parts: &[Part], words: &str) -> bool {
    let mut rest = words.split_whitespace();
    for part in parts {
        match rest.next() {
            Some(word) if is_part(part, word) => {}
            _ => return false,
        }
    }
    rest.next().is_none()
}

fn has_heads(modules: &[Module]) -> bool {
    let [first, second] = modules else {
        return false;
    };
    let names = is_named(&first.name, "NAMES") && is_named(&second.name, "EMPTY");
    let headings = match (&first.heading, &second.heading) {
        (Some(parts), Some(none)) => {
            are_parts(parts.as_slice(), "iso org(3) dod 1") && none.len() == 0
        }
        _ => false,
    };
    names
        && headings
        && has_imports(first, second)
        && first.defs.len() == 26
        && second.defs.len() == 0
}

/// Returns whether a FROM clause on this line imports these symbols from this module.
fn is_import(import: &Import, symbols: &str, source: &str, line: usize) -> bool {
    are_tokens(import.symbols.as_slice(), symbols)
        && is_named(&import.source, source)
        && import.line == line
}

fn has_imports(first: &Module, second: &Module) -> bool {
    let (Some(imports), Some(none)) = (&first.imports, &second.imports) else {
        return false;
    };
    let [c, e] = imports.as_slice() else {
        return false;
    };
    is_import(c, "a B OBJECT-TYPE MODULE-IDENTITY", "C", 3)
        && is_import(e, "d", "E", 4)
        && none.len() == 0
}

/// Returns what `name` is defined as.
fn kind<'a>(modules: &'a [Module], name: &str) -> Option<&'a DefKind> {
    let def = definition(modules, name)?;
    Some(&def.kind)
}

/// Returns whether `status` has this STATUS, DESCRIPTION and REFERENCE. If `reference` is empty, it
/// must have no REFERENCE.
fn is_status(status: &Status, word: &str, description: &str, reference: &str) -> bool {
    let same = if reference.is_empty() {
        status.reference.is_none()
    } else {
        is_some(&status.reference, reference)
    };
    is(&status.status, word) && is(&status.description, description) && same
}

fn has_identities(modules: &[Module]) -> Option<bool> {
    let DefKind::ModuleIdentity(m) = kind(modules, "m")? else {
        return None;
    };
    let DefKind::ObjectIdentity(oi) = kind(modules, "oi")? else {
        return None;
    };
    Some(is_identity(m) && is_status(&oi.status, "current", "\"d\"", "\"r\""))
}

/// Returns whether `revision` has this date and DESCRIPTION.
fn is_revision(revision: &Revision, date: &str, description: &str) -> bool {
    is(&revision.date, date) && is(&revision.description, description)
}

fn is_identity(m: &ModuleIdentity) -> bool {
    let [one, two] = m.revisions.as_slice() else {
        return false;
    };
    let clauses = is(&m.last_updated, "\"1\"")
        && is(&m.organization, "\"2\"")
        && is(&m.contact_info, "\"3\"")
        && is(&m.description, "\"4\"");
    clauses && is_revision(one, "\"5\"", "\"6\"") && is_revision(two, "\"7\"", "\"8\"")
}

fn notification<'a>(modules: &'a [Module], name: &str) -> Option<&'a NotificationType> {
    match kind(modules, name)? {
        DefKind::NotificationType(notification) => Some(notification),
        _ => None,
    }
}

fn group<'a>(modules: &'a [Module], name: &str) -> Option<&'a Group> {
    match kind(modules, name)? {
        DefKind::ObjectGroup(group) | DefKind::NotificationGroup(group) => Some(group),
        _ => None,
    }
}

fn has_groups(modules: &[Module]) -> Option<bool> {
    let n1 = notification(modules, "n1")?;
    let n2 = notification(modules, "n2")?;
    let g1 = group(modules, "g1")?;
    let g2 = group(modules, "g2")?;
    let objects = n1.objects.as_ref()?;
    let notices = are(objects.as_slice(), "t1 t2")
        && n2.objects.is_none()
        && is_status(&n1.status, "deprecated", "\"n\"", "");
    Some(
        notices
            && are(g1.members.as_slice(), "t1")
            && are(g2.members.as_slice(), "n1 n2")
            && is_status(&g1.status, "current", "\"g\"", ""),
    )
}

fn object<'a>(modules: &'a [Module], name: &str) -> Option<&'a ObjectType> {
    match kind(modules, name)? {
        DefKind::ObjectType(object) => Some(object),
        _ => None,
    }
}

fn has_objects(modules: &[Module]) -> Option<bool> {
    let t1 = object(modules, "t1")?;
    let t2 = object(modules, "t2")?;
    let t7 = object(modules, "t7")?;
    let first = is_some(&t1.units, "\"u\"")
        && is(&t1.max_access, "read-only")
        && t1.index.is_none()
        && is_status(&t1.status, "current", "\"d\"", "")
        && are_tokens(t1.default.as_ref()?.as_slice(), "{ a { } } b")
        && has_numbers(&t1.syntax)?;
    let second = t2.units.is_none()
        && t2.index.is_none()
        && t2.default.is_none()
        && is_table_of(&t2.syntax, "Row");
    let all = is_some(&t7.units, "\"u\"")
        && is_status(&t7.status, "current", "\"d\"", "\"r\"")
        && t7.index.is_some()
        && t7.default.as_ref()?.len() == 0;
    Some(first && second && all)
}

/// Returns the type, unless it is a SEQUENCE OF.
fn as_simple(syntax: &Syntax) -> Option<&SimpleType> {
    match syntax {
        Syntax::Simple(simple) => Some(simple),
        Syntax::SequenceOf(_) => None,
    }
}

/// Returns `Some(true)` if a type is `INTEGER { a(1), b(-2) }`, and another result if it isn't.
fn has_numbers(syntax: &Syntax) -> Option<bool> {
    let simple = as_simple(syntax)?;
    let Some(Refinement::Numbers(numbers)) = &simple.refinement else {
        return None;
    };
    let [a, b] = numbers.as_slice() else {
        return None;
    };
    Some(
        matches!(simple.base, Base::Integer)
            && is_numbered(a, "a", "1")
            && is_numbered(b, "b", "-2"),
    )
}

/// Returns whether a type is SEQUENCE OF `name`.
fn is_table_of(syntax: &Syntax, name: &str) -> bool {
    match syntax {
        Syntax::SequenceOf(row) => is_named(row, name),
        Syntax::Simple(_) => false,
    }
}

/// Returns `Some(true)` if the row `name` has the objects `names` as its INDEX, with IMPLIED before
/// the last one if `implied` is true, and without it otherwise. Returns another result if the
/// row has no such INDEX.
fn has_index(modules: &[Module], name: &str, names: &str, implied: bool) -> Option<bool> {
    match object(modules, name)?.index.as_ref()? {
        Index::Own(parts) => Some(are(parts.names.as_slice(), names) && parts.implied == implied),
        Index::Augments(_) => None,
    }
}

fn has_indexes(modules: &[Module]) -> Option<bool> {
    let augments = match object(modules, "t4")?.index.as_ref()? {
        Index::Augments(row) => is_named(row, "t3"),
        Index::Own(_) => false,
    };
    Some(
        augments
            && has_index(modules, "t3", "a b c", true)?
            && has_index(modules, "t5", "a", false)?
            && has_index(modules, "t7", "a", true)?,
    )
}

fn convention<'a>(modules: &'a [Module], name: &str) -> Option<&'a TextualConvention> {
    match kind(modules, name)? {
        DefKind::TextualConvention(convention) => Some(convention),
        _ => None,
    }
}

/// Returns `Some(true)` if a type is `OCTET STRING (SIZE (0..8 | '10'H..'11111'B | 99))`, and
/// another result if it isn't.
fn has_sizes(syntax: &Syntax) -> Option<bool> {
    let simple = as_simple(syntax)?;
    let Some(Refinement::Size(sizes)) = &simple.refinement else {
        return None;
    };
    Some(
        matches!(simple.base, Base::OctetString)
            && are_ranges(sizes.as_slice(), "0 8 '10'H '11111'B 99 -"),
    )
}

/// Returns `Some(true)` if a type is `Tc (1 | 2..3)`, and another result if it isn't.
fn has_values(syntax: &Syntax) -> Option<bool> {
    let simple = as_simple(syntax)?;
    let (Base::Named(name), Some(Refinement::Values(values))) = (&simple.base, &simple.refinement)
    else {
        return None;
    };
    Some(is_named(name, "Tc") && are_ranges(values.as_slice(), "1 - 2 3"))
}

fn has_conventions(modules: &[Module]) -> Option<bool> {
    let tc = convention(modules, "Tc")?;
    let tc2 = convention(modules, "Tc2")?;
    Some(
        is_some(&tc.display_hint, "\"1d\"")
            && is_status(&tc.status, "current", "\"d\"", "\"r\"")
            && has_sizes(&tc.syntax)?
            && tc2.display_hint.is_none()
            && has_values(&tc2.syntax)?,
    )
}

/// Returns whether ranges have these bounds, in this order. A `-` stands for no upper bound.
fn are_ranges(ranges: &[Range], words: &str) -> bool {
    let mut rest = words.split_whitespace();
    for range in ranges {
        let (Some(low), Some(high)) = (rest.next(), rest.next()) else {
            return false;
        };
        if !is(&range.low.text, low) || !is_end(&range.high, high) {
            return false;
        }
    }
    rest.next().is_none()
}

fn is_end(end: &Option<TokenText>, word: &str) -> bool {
    match end {
        Some(end) => is(&end.text, word),
        None => word == "-",
    }
}

fn assignment<'a>(modules: &'a [Module], name: &str) -> Option<&'a TypeAssignment> {
    match kind(modules, name)? {
        DefKind::TypeAssignment(assignment) => Some(assignment),
        _ => None,
    }
}

fn has_types(modules: &[Module]) -> Option<bool> {
    let app = assignment(modules, "App")?;
    let bare = assignment(modules, "Bare")?;
    let rows = assignment(modules, "Rows")?;
    let simple = as_simple(&bare.syntax)?;
    let plain = matches!(simple.base, Base::ObjectIdentifier) && simple.refinement.is_none();
    Some(
        is_some(&app.tag, "3")
            && bare.tag.is_none()
            && plain
            && rows.tag.is_none()
            && is_table_of(&rows.syntax, "Row"),
    )
}

/// Returns the tokens of a definition that are stored without being parsed.
fn raw<'a>(modules: &'a [Module], name: &str) -> Option<&'a [TokenText]> {
    match kind(modules, name)? {
        DefKind::ModuleCompliance(d) | DefKind::AgentCapabilities(d) => Some(d.clauses.as_slice()),
        DefKind::Choice(tokens) | DefKind::Macro(tokens) => Some(tokens.as_slice()),
        _ => None,
    }
}

fn has_raw_tokens(modules: &[Module]) -> Option<bool> {
    let DefKind::Sequence(fields) = kind(modules, "Row")? else {
        return None;
    };
    let [a, b] = fields.as_slice() else {
        return None;
    };
    let bits = as_simple(&a.syntax)?;
    let columns = is_named(&a.label, "a")
        && is_named(&b.label, "b")
        && matches!(bits.base, Base::Bits);
    Some(
        columns
            && are_tokens(raw(modules, "c1")?, "STATUS current END { } }")
            && are_tokens(raw(modules, "c2")?, "")
            && are_tokens(raw(modules, "MyMacro")?, "")
            && are_tokens(raw(modules, "Ch")?, "a INTEGER , b { }")
            && are_tokens(raw(modules, "OBJECT-TYPE")?, "a ::= b { ("),
    )
}

const TINY: &[u8] = b"TINY-SMI DEFINITIONS ::= BEGIN\n\
enterprises OBJECT IDENTIFIER ::= { private 1 }\n\
private     OBJECT IDENTIFIER ::= { internet 4 }\n\
internet    OBJECT IDENTIFIER ::= { iso org(3) dod(6) 1 }\n\
END\n\
TINY-MIB DEFINITIONS ::= BEGIN\n\
IMPORTS enterprises, absent FROM TINY-SMI\n\
\x20       other FROM GONE-MIB;\n\
-----------------------------------------\n\
tiny OBJECT IDENTIFIER ::= { enterprises 32473 }\n\
Mac ::= TEXTUAL-CONVENTION DISPLAY-HINT \"1x:\" STATUS current\n\
\x20 DESCRIPTION \"An address.\" SYNTAX OCTET STRING (SIZE (6))\n\
tinyState OBJECT-TYPE SYNTAX INTEGER { up(1), down(2) } MAX-ACCESS read-only\n\
\x20 STATUS current DESCRIPTION \"State.\" ::= { tiny 1 }\n\
tinyTable OBJECT-TYPE SYNTAX SEQUENCE OF TinyEntry MAX-ACCESS not-accessible\n\
\x20 STATUS current DESCRIPTION \"Table.\" ::= { tiny 2 }\n\
tinyEntry OBJECT-TYPE SYNTAX TinyEntry MAX-ACCESS not-accessible\n\
\x20 STATUS current DESCRIPTION \"Row.\" INDEX { tinyName } ::= { tinyTable 1 }\n\
TinyEntry ::= SEQUENCE { tinyName OCTET STRING, tinyMac Mac }\n\
tinyName OBJECT-TYPE SYNTAX OCTET STRING (SIZE (0..32)) MAX-ACCESS not-accessible\n\
\x20 STATUS current DESCRIPTION \"Name.\" ::= { tinyEntry 1 }\n\
tinyMac OBJECT-TYPE SYNTAX Mac MAX-ACCESS read-only\n\
\x20 STATUS current DESCRIPTION \"Address.\" ::= { tinyEntry 2 }\n\
tinyKeyTable OBJECT IDENTIFIER ::= { tiny 3 }\n\
tinyKeyEntry OBJECT-TYPE SYNTAX TinyKeyEntry MAX-ACCESS not-accessible\n\
\x20 STATUS current DESCRIPTION \"Key row.\" INDEX { IMPLIED tinyName } ::= { tinyKeyTable 1 }\n\
TinyKeyEntry ::= SEQUENCE { tinyKeyUse Gauge32 }\n\
tinyKeyUse OBJECT-TYPE SYNTAX Gauge32 UNITS \"jobs\" MAX-ACCESS read-only\n\
\x20 STATUS current DESCRIPTION \"Use.\" ::= { tinyKeyEntry 1 }\n\
loopA OBJECT IDENTIFIER ::= { loopB 1 }\n\
loopB OBJECT IDENTIFIER ::= { loopA 1 }\n\
END\n";

const ALL: &[u8] = b"NAMES { iso org(3) dod 1 } DEFINITIONS ::= BEGIN\n\
IMPORTS\n\
a, B, OBJECT-TYPE, MODULE-IDENTITY FROM C\n\
d FROM E ;\n\
m MODULE-IDENTITY LAST-UPDATED \"1\" ORGANIZATION \"2\" CONTACT-INFO \"3\" DESCRIPTION \"4\"\n\
\x20REVISION \"5\" DESCRIPTION \"6\" REVISION \"7\" DESCRIPTION \"8\" ::= { iso 1 }\n\
o OBJECT IDENTIFIER ::= { iso org(3) dod(6) 1 }\n\
oi OBJECT-IDENTITY STATUS current DESCRIPTION \"d\" REFERENCE \"r\" ::= { o 1 }\n\
t1 OBJECT-TYPE SYNTAX INTEGER { a(1), b(-2) } UNITS \"u\" MAX-ACCESS read-only STATUS current \
DESCRIPTION \"d\" DEFVAL { { a { } } b } ::= { o 2 }\n\
t2 OBJECT-TYPE SYNTAX SEQUENCE OF Row MAX-ACCESS not-accessible STATUS current DESCRIPTION \"d\" \
::= { o 3 }\n\
t3 OBJECT-TYPE SYNTAX Row MAX-ACCESS not-accessible STATUS current DESCRIPTION \"d\" \
INDEX { a, b, IMPLIED c } ::= { t2 1 }\n\
t4 OBJECT-TYPE SYNTAX Row MAX-ACCESS not-accessible STATUS current DESCRIPTION \"d\" \
AUGMENTS { t3 } DEFVAL { } ::= { o 4 }\n\
t5 OBJECT-TYPE SYNTAX BITS { x(0) } MAX-ACCESS read-only STATUS current DESCRIPTION \"d\" \
INDEX { a } ::= { 1 3 }\n\
t6 OBJECT-TYPE SYNTAX OBJECT IDENTIFIER MAX-ACCESS read-only STATUS current DESCRIPTION \"d\" \
::= { o(1) 3 }\n\
n1 NOTIFICATION-TYPE OBJECTS { t1, t2 } STATUS deprecated DESCRIPTION \"n\" ::= { o 5 }\n\
n2 NOTIFICATION-TYPE STATUS current DESCRIPTION \"d\" ::= { o 6 }\n\
g1 OBJECT-GROUP OBJECTS { t1 } STATUS current DESCRIPTION \"g\" ::= { o 7 }\n\
g2 NOTIFICATION-GROUP NOTIFICATIONS { n1, n2 } STATUS current DESCRIPTION \"d\" ::= { o 8 }\n\
c1 MODULE-COMPLIANCE STATUS current END { } } ::= { o 9 }\n\
c2 AGENT-CAPABILITIES ::= { o 10 }\n\
Tc ::= TEXTUAL-CONVENTION DISPLAY-HINT \"1d\" STATUS current DESCRIPTION \"d\" REFERENCE \"r\" \
SYNTAX OCTET STRING (SIZE (0..8 | '10'H..'11111'B | 99))\n\
Tc2 ::= TEXTUAL-CONVENTION STATUS current DESCRIPTION \"d\" SYNTAX Tc (1 | 2..3)\n\
App ::= [APPLICATION 3] IMPLICIT OCTET STRING (SIZE (4))\n\
Plain ::= INTEGER (-5..5)\n\
Rows ::= SEQUENCE OF Row\n\
Row ::= SEQUENCE { a BITS, b OCTET STRING (SIZE (1)) }\n\
Ch ::= CHOICE { a INTEGER, b { } }\n\
OBJECT-TYPE MACRO ::= BEGIN a ::= b { ( END\n\
MyMacro MACRO ::= BEGIN END\n\
t7 OBJECT-TYPE SYNTAX Row (1..2) UNITS \"u\" MAX-ACCESS read-only STATUS current \
DESCRIPTION \"d\" REFERENCE \"r\" INDEX { IMPLIED a } DEFVAL { } ::= { o 11 }\n\
Bare ::= OBJECT IDENTIFIER\n\
END\n\
EMPTY { } DEFINITIONS ::= BEGIN IMPORTS ; END\n";
