//! Table files whose rows are in no order are read, and compared with a map into which the rows are
//! put one by one.

use crate::pages::{EVEN, Random, has_rows, map_of, text_of};
use crate::table::{add_row, fault_of};
use snmp_agent::{Table, TableError};
use std::alloc::{AllocError, Global};
use std::collections::BTreeMap;
use std::process::Abort;

/// The number of rows at the start, which are in order and have even numbers. After them, a table
/// gathers the other rows if these belong to many pages, instead of putting them one by one.
const FIRST_ROWS: u32 = 10_000;

/// The number of other rows that a table puts one by one before it gathers the next. It looks at
/// them in three samples of 128 rows.
const SEEN: u32 = 384;

/// The order of the other rows, whose numbers are odd.
#[derive(Clone, Copy, Debug)]
struct Order {
    /// The number of rows.
    count: u32,
    /// The number of columns that the rows form. Positions are counted across the columns. With one
    /// column, the row at position `n` has the number `2 * n + 1`.
    columns: u32,
    /// The distance from the position of a row to the position of the next, modulo `FIRST_ROWS`.
    /// With 0 the positions decrease by one.
    step: u32,
}

/// Two lines of a file that don't have the next row: one repeats an earlier row, and one is faulty.
/// If an index is past the last row, there is no such line. If `first` is `again`, no row is
/// repeated.
#[derive(Clone, Copy, Debug)]
struct Wrong {
    /// The index of the row whose line has an earlier row instead.
    again: u32,
    /// The index of the row that is repeated.
    first: u32,
    /// The index of the row whose line is faulty instead.
    bad: u32,
    /// The kind of the fault.
    kind: u32,
}

/// A table file, and what it contains: these rows, or this fault.
#[derive(Drop)]
struct TableFile {
    text: String,
    map: BTreeMap<u32, u32>,
    fault: Option<TableError>,
}

impl Order {
    /// Returns the number of the row at index `index`, which is odd.
    fn number(&self, index: u32) -> u32 {
        let index = if self.step == 0 {
            FIRST_ROWS.saturating_sub(index.wrapping_add(1))
        } else {
            index.wrapping_mul(self.step) % FIRST_ROWS
        };
        let columns = self.columns.max(1);
        let number = (index % columns)
            .wrapping_mul(FIRST_ROWS / columns)
            .wrapping_add(index / columns);
        number.wrapping_mul(2).wrapping_add(1)
    }
}

/// Returns a line with a fault of this kind, and the fault.
fn faulty_line(kind: u32, line: usize) -> (&'static str, TableError) {
    match kind % 3 {
        0 => ("no row\n", TableError::BadLine { line }),
        1 => ("1.40|65|1\n", TableError::BadName { line }),
        _ => (
            "1.3.6.1.4.1.32473.2.0|65|-1\n",
            TableError::BadValue { line },
        ),
    }
}

/// Returns the lines of the rows at the start.
fn first_lines(rt: &impl Abort, alloc: Global) -> String {
    text_of(alloc, FIRST_ROWS, 1, EVEN).expect(rt, "memory")
}

/// Returns the text of `first_lines`, after the mark of the second format if `is_marked`.
fn beginning(alloc: Global, first_lines: &str, is_marked: bool) -> Result<String, AllocError> {
    let mark = if is_marked { "#snmptab 2\n" } else { "" };
    format!(in alloc; "{mark}{first_lines}")
}

impl TableFile {
    /// Returns the file of the rows at the start, in the second format if `is_marked`.
    fn of_first(
        alloc: Global,
        first_lines: &str,
        is_marked: bool,
    ) -> Result<TableFile, AllocError> {
        let text = beginning(alloc, first_lines, is_marked)?;
        let map = map_of(alloc, FIRST_ROWS, EVEN).ok_or(AllocError)?;
        Ok(TableFile {
            text,
            map,
            fault: None,
        })
    }

    /// Appends the line with number `line`: the row of `number`.
    fn add_row(&mut self, line: usize, number: u32, value: u32) -> Result<(), AllocError> {
        add_row(&mut self.text, number, value)?;
        if self.map.contains_key(&number) {
            self.fault = self.fault.or(Some(TableError::Double { line }));
        } else if self.map.insert(number, value).is_err() {
            return Err(AllocError);
        }
        Ok(())
    }

    /// Appends the line with number `line`: a fault of this kind.
    fn add_fault(&mut self, line: usize, kind: u32) -> Result<(), AllocError> {
        let (shown, fault) = faulty_line(kind, line);
        self.text.push_str(shown)?;
        self.fault = self.fault.or(Some(fault));
        Ok(())
    }

    /// Appends the lines of the other rows, after `lines` lines.
    fn add_rows(&mut self, order: &Order, wrong: &Wrong, lines: usize) -> Result<(), AllocError> {
        let mut line = lines;
        for index in 0..order.count {
            line = line.wrapping_add(1);
            if index == wrong.bad {
                self.add_fault(line, wrong.kind)?;
                continue;
            }
            let row = if index == wrong.again {
                wrong.first
            } else {
                index
            };
            self.add_row(line, order.number(row), index)?;
        }
        Ok(())
    }
}

/// Asserts that the file of the first rows and of the rows in `order`, but with the lines of
/// `wrong`, is read as its rows or refused with its fault. It is in the second format if
/// `is_marked`.
fn assert_read_so(
    rt: &impl Abort,
    alloc: Global,
    first_lines: &str,
    order: &Order,
    wrong: &Wrong,
    is_marked: bool,
) {
    let mut file = TableFile::of_first(alloc, first_lines, is_marked).expect(rt, "memory");
    let lines = (FIRST_ROWS as usize).wrapping_add(usize::from(is_marked));
    let added = file.add_rows(order, wrong, lines);
    assert!(rt;
        added.is_ok() && is_read_so(alloc, &file),
        "{order:?}, {wrong:?}, marked: {is_marked}"
    );
}

/// Returns whether the text of the file is read as its rows, or refused with its fault.
fn is_read_so(alloc: Global, file: &TableFile) -> bool {
    match (Table::read(alloc, file.text.as_bytes()), file.fault) {
        (Ok(table), None) => has_rows(&table, &file.map),
        (Err(error), Some(fault)) => error == fault,
        _ => false,
    }
}

/// Returns a random order of 100 to 1,699 rows, of one column or of several, with a step or
/// decreasing. A table puts the first of them one by one. If the step is long, or the columns are
/// many, it gathers any others.
fn any_order(random: &mut Random) -> Order {
    let count = random.below(1600);
    let steps = [0, 1, 619, 1543, 3089];
    let columns = [1, 1, 8, 40, 100];
    let step = random.below(5) as usize;
    let column = random.below(5) as usize;
    Order {
        count: count.wrapping_add(100),
        columns: *columns.get(column).unwrap_or(&1),
        step: *steps.get(step).unwrap_or(&1),
    }
}

/// Returns wrong lines at random indices. An index may be past the last row.
fn any_wrong(random: &mut Random, count: u32) -> Wrong {
    let more = count.saturating_mul(2);
    let again = random.below(more);
    Wrong {
        again,
        first: random.below(again.min(count)),
        bad: random.below(more),
        kind: random.below(3),
    }
}

#[test]
fn tables_in_random_orders_are_read_as_if_row_by_row(rt: HostRuntime) {
    let first_lines = first_lines(&rt, rt.alloc());
    let mut random = Random { state: 7 };
    for _ in 0..12 {
        let order = any_order(&mut random);
        let wrong = any_wrong(&mut random, order.count);
        let is_marked = random.below(2) == 0;
        assert_read_so(&rt, rt.alloc(), &first_lines, &order, &wrong, is_marked);
    }
}

#[test]
fn the_first_repeated_row_is_reported_as_gathering_begins(rt: HostRuntime) {
    let first_lines = first_lines(&rt, rt.alloc());
    for again in SEEN - 2..SEEN + 3 {
        let order = Order {
            count: SEEN + 8,
            columns: 1,
            step: 619,
        };
        for &first in &[0, 200, SEEN - 1, SEEN] {
            let wrong = Wrong {
                again,
                first: first.min(again.saturating_sub(1)),
                bad: SEEN + 7,
                kind: 0,
            };
            assert_read_so(&rt, rt.alloc(), &first_lines, &order, &wrong, false);
        }
    }
}

/// Pairs of names with the same hash. While rows are gathered, the second name looks like one that
/// is in the table, until all rows are sorted into the pages.
const WITH_SAME_HASH: [(&str, &str); 6] = [
    (
        "1.3.6.1.4.1.66.68.108.100.113.111.62.21.33.53.94",
        "1.3.6.1.4.1.30.97.72.73.74.104.26.33.125.0.110",
    ),
    (
        "1.3.6.1.4.1.35.44.75.91.123.67.51.71.70.103.41",
        "1.3.6.1.4.1.106.53.109.20.99.69.118.24.50.57.90",
    ),
    (
        "1.3.6.1.4.1.98.111.28.53.91.67.72.34.26.57.82",
        "1.3.6.1.4.1.34.96.101.15.26.7.73.107.83.3.54",
    ),
    (
        "1.3.6.1.4.1.98.73.14.72.16.73.62.66.6.121.75",
        "1.3.6.1.4.1.55.40.21.116.84.127.49.30.62.124.91",
    ),
    (
        "1.3.6.1.4.1.6.59.64.127.66.7.30.49.15.37.100",
        "1.3.6.1.4.1.123.44.15.100.69.5.50.47.58.24.83",
    ),
    (
        "1.3.6.1.4.1.101.15.27.96.92.83.125.30.26.101.26",
        "1.3.6.1.4.1.30.5.60.24.67.55.53.76.107.50.41",
    ),
];

/// Appends rows with the first name of each pair of [`WITH_SAME_HASH`], `before` rows in no order,
/// rows with the second name of each pair, and the row at index `again` of this order.
fn add_names(text: &mut String, before: u32, again: u32) -> Result<(), AllocError> {
    let order = Order {
        count: before,
        columns: 1,
        step: 619,
    };
    for (name, _) in &WITH_SAME_HASH {
        write!(text, "{name}|65|1\n")?;
    }
    for index in 0..before {
        add_row(text, order.number(index), 1)?;
    }
    for (_, name) in &WITH_SAME_HASH {
        write!(text, "{name}|65|1\n")?;
    }
    add_row(text, order.number(again), 1)
}

/// Returns the fault of the text that has the first rows and then the rows of [`add_names`].
fn fault_of_names(alloc: Global, first_lines: &str, before: u32, again: u32) -> Option<TableError> {
    let mut text = beginning(alloc, first_lines, false).ok()?;
    add_names(&mut text, before, again).ok()?;
    fault_of(alloc, text.as_bytes())
}

/// Asserts that the last row of [`add_names`] is reported as a repetition if `again` is below
/// `before`, and that the text is a table otherwise.
fn assert_double(rt: &impl Abort, alloc: Global, first_lines: &str, before: u32, again: u32) {
    let double = Some(TableError::Double {
        line: (FIRST_ROWS as usize)
            .saturating_add(before as usize)
            .saturating_add(13),
    });
    assert!(rt;
        fault_of_names(alloc, first_lines, before, again)
            == if again < before { double } else { None },
        "{before} rows, that of {again} again"
    );
}

#[test]
fn names_with_the_same_hash_are_told_apart(rt: HostRuntime) {
    let first_lines = first_lines(&rt, rt.alloc());
    for before in [377, 378, 379, 1000] {
        for again in [0, 378, 999] {
            assert_double(&rt, rt.alloc(), &first_lines, before, again);
        }
    }
}
