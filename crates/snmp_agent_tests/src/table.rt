//! Table files: the rows of their lines, and each fault with its line.

use snmp_agent::{Successors, Table, TableError};
use snmp_wire::{Binding, EncodedName, MAX_CONTENT, Oid, ValueRef, parse_numeric};
use std::alloc::{AllocError, Global};
use std::process::Abort;

/// Three rows that aren't in order, with each kind of line ending.
const ROWS: &[u8] =
    b"# three rows\r\nobject 1.3.6.1.4.1.32473.1\n\n1.3.6.1.4.1.32473.1.10.0|2|3\r\n\
1.3.6.1.4.1.32473.1.2.0|4|wes\n.1.3.6.1.4.1.32473.1.1.0|2|1";

/// Returns whether `binding` has this name and value.
fn is_variable(binding: &Binding<'_>, name: &[u8], value: &ValueRef<'_>) -> bool {
    match parse_numeric(name) {
        Ok(name) => binding.name == name && binding.value == *value,
        Err(_) => false,
    }
}

/// Returns the binding that a GetNext of `name` returns.
fn next<'a>(table: &'a Table, name: &EncodedName<'_>) -> Binding<'a> {
    let mut binding = Binding::empty();
    table.read_next_after(name, 0, &mut binding);
    binding
}

/// Returns the table that `text` describes, as a table file.
pub(crate) fn table_of(rt: &impl Abort, alloc: Global, text: &[u8]) -> Table {
    Table::read(alloc, text).expect(rt, "a table")
}

/// Returns the identifier that `text` writes as numbers and dots.
pub(crate) fn name(rt: &impl Abort, text: &[u8]) -> Oid {
    parse_numeric(text).expect(rt, "a name")
}

/// Returns the rows after `name`, or `None` if `name` has no encoding.
fn rows_after<'a>(table: &'a Table, name: &Oid) -> Option<Successors<'a>> {
    if !name.is_wire() {
        return None;
    }
    let mut content = [0; MAX_CONTENT];
    Some(table.after(&EncodedName::write(name, &mut content)))
}

/// Returns all rows: those after 0.0, which isn't the name of a row.
pub(crate) fn all_rows<'a>(table: &'a Table) -> Option<Successors<'a>> {
    Some(table.after(&EncodedName::read(&[0])?))
}

/// Reads the row that is `rounds` rows past the first row after `from`, into a binding that has the
/// first one. Returns whether the binding then has this name and value.
fn is_read(table: &Table, from: &[u8], rounds: usize, name: &[u8], value: &ValueRef<'_>) -> bool {
    match parse_numeric(from) {
        Ok(from) if from.is_wire() => {
            let mut content = [0; MAX_CONTENT];
            let from = EncodedName::write(&from, &mut content);
            let mut binding = next(table, &from);
            table.read_next_after(&from, rounds, &mut binding);
            is_variable(&binding, name, value)
        }
        _ => false,
    }
}

const ROOT: &[u8] = b"1.3.6.1.4.1.32473.1";

const FIRST: &[u8] = b"1.3.6.1.4.1.32473.1.1.0";

const SECOND: &[u8] = b"1.3.6.1.4.1.32473.1.2.0";

const LAST: &[u8] = b"1.3.6.1.4.1.32473.1.10.0";

const PAST: &[u8] = b"2.100.3";

/// Asserts that each row comes after the one before, and endOfMibView after the last.
fn assert_order(rt: &impl Abort, table: &Table) {
    let rows = [
        (ROOT, 0, FIRST, ValueRef::Integer(1)),
        (FIRST, 0, SECOND, ValueRef::Octets(b"wes")),
        (SECOND, 0, LAST, ValueRef::Integer(3)),
        (ROOT, 2, LAST, ValueRef::Integer(3)),
        (LAST, 0, LAST, ValueRef::EndOfMibView),
        (ROOT, 3, LAST, ValueRef::EndOfMibView),
        (PAST, 0, PAST, ValueRef::EndOfMibView),
        (PAST, 7, PAST, ValueRef::EndOfMibView),
    ];
    for (from, rounds, name, value) in &rows {
        assert!(rt;
            is_read(table, from, *rounds, name, value),
            "{rounds} rows past the first after {from:?}"
        );
    }
}

#[test]
fn rows_are_in_order(rt: HostRuntime) {
    let table = table_of(&rt, rt.alloc(), ROWS);
    assert_order(&rt, &table);
}

/// A binding that moves along the rows of a table.
#[derive(Drop)]
struct Walk<'a> {
    rows: Successors<'a>,
    binding: Binding<'a>,
}

impl Walk<'_> {
    /// Advances the binding, and returns whether it has this name and value then.
    fn advances_to(&mut self, name: &[u8], value: &ValueRef<'_>) -> bool {
        self.rows.advance(&mut self.binding);
        is_variable(&self.binding, name, value)
    }
}

/// Asserts that the walk reaches each row, and then the end.
fn assert_walk(rt: &impl Abort, walk: &mut Walk<'_>) {
    let steps = [
        (FIRST, ValueRef::Integer(1)),
        (SECOND, ValueRef::Octets(b"wes")),
        (LAST, ValueRef::Integer(3)),
        (LAST, ValueRef::EndOfMibView),
        (LAST, ValueRef::EndOfMibView),
    ];
    for (name, value) in &steps {
        assert!(rt; walk.advances_to(name, value), "{name:?}");
    }
}

#[test]
fn a_binding_advances_along_the_rows(rt: HostRuntime) {
    let name = name(&rt, ROOT);
    let table = table_of(&rt, rt.alloc(), ROWS);
    let mut walk = Walk {
        rows: rows_after(&table, &name).expect(&rt, "rows"),
        binding: Binding {
            name,
            value: ValueRef::Null,
        },
    };
    assert_walk(&rt, &mut walk);
}

/// Returns whether a Get of `name` returns `value`.
pub(crate) fn get_returns(table: &Table, name: &[u8], value: &ValueRef<'_>) -> bool {
    match parse_numeric(name) {
        Ok(name) => table.get(&name) == *value,
        Err(_) => false,
    }
}

/// Asserts that a Get of `name` returns `value`.
pub(crate) fn assert_get(rt: &impl Abort, table: &Table, name: &[u8], value: &ValueRef<'_>) {
    assert!(rt; get_returns(table, name, value), "{name:?}");
}

/// Asserts that a Get of a row's name returns its value, and a Get of another name an exception.
fn assert_exceptions(rt: &impl Abort, table: &Table) {
    let rows = [
        (LAST, ValueRef::Integer(3)),
        (ROOT, ValueRef::NoSuchInstance),
        (b"1.3.6.1.4.1.32473.1.3", ValueRef::NoSuchInstance),
        (b"1.3.6.1.4.1.32473", ValueRef::NoSuchObject),
        (b"1.3.6.1.4.1.32473.2", ValueRef::NoSuchObject),
        (b".", ValueRef::NoSuchObject),
    ];
    for (name, value) in &rows {
        assert_get(rt, table, name, value);
    }
}

#[test]
fn names_without_a_row_have_exceptions(rt: HostRuntime) {
    let table = table_of(&rt, rt.alloc(), ROWS);
    assert_exceptions(&rt, &table);
}

/// Returns whether 1.3.6 has this value in the table of `line`.
fn line_has_value(alloc: Global, line: &[u8], value: &ValueRef<'_>) -> bool {
    match Table::read(alloc, line) {
        Ok(table) => get_returns(&table, b"1.3.6", value),
        Err(_) => false,
    }
}

/// Asserts that 1.3.6 has this value in the table of `line`.
fn assert_line(rt: &impl Abort, alloc: Global, line: &[u8], value: &ValueRef<'_>) {
    assert!(rt; line_has_value(alloc, line, value), "of {line:?}");
}

#[test]
fn each_tag_has_its_values(rt: HostRuntime) {
    let id = name(&rt, b"2.4294967295.0");
    let rows = [
        (
            b"1.3.6|2|-2147483648".as_slice(),
            ValueRef::Integer(i32::MIN),
        ),
        (b"1.3.6|2|0002147483647", ValueRef::Integer(i32::MAX)),
        (b"1.3.6|2|-0", ValueRef::Integer(0)),
        (b"1.3.6|4|", ValueRef::Octets(b"")),
        (b"1.3.6|4|a|b \r", ValueRef::Octets(b"a|b \r")),
        (b"1.3.6|4|a\r\n", ValueRef::Octets(b"a")),
        (b"1.3.6|4x|00fFe0", ValueRef::Octets(&[0x00, 0xFF, 0xE0])),
        (
            b"1.3.6|64|192.0.2.255",
            ValueRef::IpAddress([192, 0, 2, 255]),
        ),
        (b"1.3.6|65|4294967295", ValueRef::Counter32(u32::MAX)),
        (b"1.3.6|66|0", ValueRef::Gauge32(0)),
        (b"1.3.6|67|14096763", ValueRef::TimeTicks(14_096_763)),
        (b"1.3.6|68x|9f", ValueRef::Opaque(&[0x9F])),
        (
            b"1.3.6|70|18446744073709551615",
            ValueRef::Counter64(u64::MAX),
        ),
        (b"#snmptab 2\n.1.3.6|2|3", ValueRef::Integer(3)),
        (b"#snmptab 2\n1.3.6|4|\"a|b", ValueRef::Octets(b"\"a|b")),
        (b"1.3.6|6|2.4294967295.0", ValueRef::ObjectId(id)),
    ];
    for (line, value) in &rows {
        assert_line(&rt, rt.alloc(), line, value);
    }
}

/// Table files, each with the fault of its first faulty line.
const FAULTS: &[(&[u8], TableError)] = &[
    (
        b"1.3.6.1.4.1.32473.1.0|2|1\n1.3.6.1.4.1.32473.1.0|2|1",
        TableError::Double { line: 2 },
    ),
    (
        b"1.3.6.1.4.1.32473.1.0|4x|0",
        TableError::BadValue { line: 1 },
    ),
    (b"1.3|2|1", TableError::BadName { line: 1 }),
    (b"1.3.6.1.4.1.32473.1.0|5|", TableError::BadLine { line: 1 }),
    (b"# comment\n\nrow", TableError::BadLine { line: 3 }),
    (b"1.3.6|2", TableError::BadLine { line: 1 }),
    (b"objects", TableError::BadLine { line: 1 }),
    (b"a|04|b", TableError::BadLine { line: 1 }),
    (b"1.3.6|2|1\r\r\n", TableError::BadValue { line: 1 }),
    (b"object .", TableError::BadName { line: 1 }),
    (b"object ", TableError::BadName { line: 1 }),
    (b"1.40.1|2|a", TableError::BadName { line: 1 }),
    (b"1.3.6 |2|1", TableError::BadName { line: 1 }),
    (b"1.3.6|2|", TableError::BadValue { line: 1 }),
    (b"1.3.6|2|--1", TableError::BadValue { line: 1 }),
    (b"1.3.6|2|2147483648", TableError::BadValue { line: 1 }),
    (b"1.3.6|2|-2147483649", TableError::BadValue { line: 1 }),
    (b"1.3.6|65|-1", TableError::BadValue { line: 1 }),
    (b"1.3.6|66|4294967296", TableError::BadValue { line: 1 }),
    (
        b"1.3.6|70|18446744073709551616",
        TableError::BadValue { line: 1 },
    ),
    (b"1.3.6|6|1", TableError::BadValue { line: 1 }),
    (b"1.3.6|6|3.1", TableError::BadValue { line: 1 }),
    (b"1.3.6|64|1.2.3", TableError::BadValue { line: 1 }),
    (b"1.3.6|64|.1.2.3.4", TableError::BadValue { line: 1 }),
    (b"1.3.6|64|1.2.3.256", TableError::BadValue { line: 1 }),
    (b"1.3.6|68x|0g", TableError::BadValue { line: 1 }),
    (
        b"1.3.6|2|1\nobject 1\nobject 1\n1.3.6|4|a\n?",
        TableError::Double { line: 4 },
    ),
    // The second format: the line that marks it, and bars within quotes.
    (b"\"a|b\"|2|1", TableError::BadLine { line: 1 }),
    (b"#snmptab 2\n\"a|b\"|2|1", TableError::BadName { line: 2 }),
    (b"#snmptab 2\r\n'a|b'|2|1", TableError::BadName { line: 2 }),
    (b"#snmptab 2 \n\"a|b\"|2|1", TableError::BadLine { line: 2 }),
    (
        b"\n#snmptab 2\n\"a|b\"|2|1",
        TableError::BadLine { line: 3 },
    ),
    (b"#snmptab 3\n\"a|b\"|2|1", TableError::BadLine { line: 2 }),
    (b"#snmptab 2\n'a|2|1", TableError::BadLine { line: 2 }),
    (b"#snmptab 2\n1.3.6\"|2|1", TableError::BadLine { line: 2 }),
    (b"#snmptab 2\nobject 1.3|6", TableError::BadName { line: 2 }),
    (
        b"#snmptab 2\n1.3.6|6|1.3|6",
        TableError::BadValue { line: 2 },
    ),
    (
        b"#snmptab 2\n1.3.6|2|1\n.1.3.6|2|1",
        TableError::Double { line: 3 },
    ),
];

/// Returns the fault of `text`, or `None` if it is a table.
pub(crate) fn fault_of(alloc: Global, text: &[u8]) -> Option<TableError> {
    Table::read(alloc, text).err()
}

/// Asserts that `text` has this fault.
fn assert_fault(rt: &impl Abort, alloc: Global, text: &[u8], fault: TableError) {
    assert!(rt; fault_of(alloc, text) == Some(fault), "of {text:?}");
}

#[test]
fn the_first_faulty_line_is_reported(rt: HostRuntime) {
    for (text, fault) in FAULTS {
        assert_fault(&rt, rt.alloc(), text, *fault);
    }
}

/// Appends `octets` to `text`.
fn put(rt: &impl Abort, text: &mut Vec<u8>, octets: &[u8]) {
    text.extend_from_slice(octets).expect(rt, "memory");
}

/// Returns `before`, then `part` repeated `count` times, then `after`.
pub(crate) fn repeated_text(
    rt: &impl Abort,
    alloc: Global,
    before: &[u8],
    part: &[u8],
    count: usize,
    after: &[u8],
) -> Vec<u8> {
    let mut text = Vec::new(alloc);
    put(rt, &mut text, before);
    for _ in 0..count {
        put(rt, &mut text, part);
    }
    put(rt, &mut text, after);
    text
}

/// Appends the line of row 1.3.6.1.4.1.32473.1.`number`.0, with the Counter32 `value`.
pub(crate) fn add_row(text: &mut String, number: u32, value: u32) -> Result<(), AllocError> {
    write!(text, "1.3.6.1.4.1.32473.1.{number}.0|65|{value}\n")
}

/// Returns whether the first name after 1.3.6 in the table of `text` has 128 numbers.
fn has_longest_name(alloc: Global, text: &[u8]) -> bool {
    let Some(root) = EncodedName::read(&[0x2b, 6]) else {
        return false;
    };
    match Table::read(alloc, text) {
        Ok(table) => next(&table, &root).name.len() == 128,
        Err(_) => false,
    }
}

/// Asserts [`has_longest_name`].
fn assert_longest_name(rt: &impl Abort, alloc: Global, text: &[u8]) {
    assert!(rt; has_longest_name(alloc, text));
}

#[test]
fn names_have_128_numbers_at_most(rt: HostRuntime) {
    let alloc = rt.alloc();
    let longest = repeated_text(&rt, alloc, b"1.3.6", b".4294967295", 125, b"|2|1");
    assert_longest_name(&rt, alloc, &longest);
    let longer = repeated_text(&rt, alloc, b"1.3.6", b".4294967295", 126, b"|2|1");
    assert_fault(&rt, alloc, &longer, TableError::BadName { line: 1 });
}

/// Returns whether a Get of 1.3.6 returns a string of 65535 octets.
fn has_longest_string(table: &Table) -> bool {
    match parse_numeric(b"1.3.6") {
        Ok(name) => match table.get(&name) {
            ValueRef::Octets(octets) => octets.len() == 65535,
            _ => false,
        },
        Err(_) => false,
    }
}

/// Asserts that the table of `text` has a string of 65535 octets at 1.3.6.
fn assert_longest_string(rt: &impl Abort, alloc: Global, text: &[u8]) {
    assert!(rt; has_longest_string(&table_of(rt, alloc, text)));
}

/// Asserts that a line is read whose value is `part`, an octet, 65535 times after `tag`, and that
/// one part more is a fault.
fn assert_longest(rt: &impl Abort, alloc: Global, tag: &[u8], part: &[u8]) {
    let longest = repeated_text(rt, alloc, tag, part, 65535, b"");
    assert_longest_string(rt, alloc, &longest);
    let longer = repeated_text(rt, alloc, tag, part, 65536, b"");
    assert_fault(rt, alloc, &longer, TableError::BadValue { line: 1 });
}

#[test]
fn strings_have_65535_octets_at_most(rt: HostRuntime) {
    assert_longest(&rt, rt.alloc(), b"1.3.6|4|", b"a");
    assert_longest(&rt, rt.alloc(), b"1.3.6|4x|", b"00");
}
