//! Tables of many sizes, whose rows are stored in pages, are compared with plain maps.

use crate::changes::{is_numbered, name_of};
use crate::table::{add_row, all_rows, fault_of, table_of};
use snmp_agent::{Table, TableError};
use snmp_wire::{Binding, ValueRef};
use std::alloc::{AllocError, Global};
use std::collections::BTreeMap;
use std::process::Abort;

/// Pseudo-random numbers, the same in each run.
#[derive(Drop)]
pub(crate) struct Random {
    pub(crate) state: u32,
}

impl Random {
    /// Returns the next number below `bound`, or 0 if `bound` is 0.
    pub(crate) fn below(&mut self, bound: u32) -> u32 {
        self.state = self.state.wrapping_mul(1664525).wrapping_add(1013904223);
        (self.state >> 8) % bound.max(1)
    }
}

/// Returns whether `table` has exactly the rows of `map`, which maps the number of each row to its
/// value.
pub(crate) fn has_rows(table: &Table, map: &BTreeMap<u32, u32>) -> bool {
    let mut binding = Binding::empty();
    let Some(mut rows) = all_rows(table) else {
        return false;
    };
    for (number, value) in map.iter() {
        rows.advance(&mut binding);
        if !is_numbered(&binding, *number, *value) {
            return false;
        }
    }
    rows.advance(&mut binding);
    matches!(binding.value, ValueRef::EndOfMibView)
}

/// Puts the value at the row of the number, in `table` and in `map`. Returns whether they agree on
/// whether there was such a row.
fn is_put(table: &mut Table, map: &mut BTreeMap<u32, u32>, number: u32, value: u32) -> bool {
    let Some(name) = name_of(number) else {
        return false;
    };
    match (
        table.put(&name, ValueRef::Counter32(value)),
        map.insert(number, value),
    ) {
        (Ok(replaced), Ok(old)) => replaced == old.is_some(),
        _ => false,
    }
}

/// Removes the row of the number from `table` and `map`. Returns whether they agree on whether
/// there was such a row.
fn is_removed(table: &mut Table, map: &mut BTreeMap<u32, u32>, number: u32) -> bool {
    match name_of(number) {
        Some(name) => table.remove(&name) == map.remove(&number).is_some(),
        None => false,
    }
}

/// Asserts that `table` and `map` have the same rows after the same random changes.
fn assert_changed(rt: &impl Abort, table: &mut Table, map: &mut BTreeMap<u32, u32>) {
    let mut random = Random { state: 1 };
    for change in 0..10000 {
        let number = random.below(1500);
        if random.below(3) == 0 {
            assert!(rt; is_removed(table, map, number));
        } else {
            assert!(rt; is_put(table, map, number, change));
        }
        if change % 500 == 499 {
            assert!(rt; has_rows(table, map), "after {change} changes");
        }
    }
}

#[test]
fn random_changes_have_the_same_effect_on_a_map(rt: HostRuntime) {
    let mut table = table_of(&rt, rt.alloc(), b"");
    let mut map = BTreeMap::new(rt.alloc());
    assert_changed(&rt, &mut table, &mut map);
}

/// How the number of a row is made of a number `n`: for `(a, b)` it is `a * n * n + b * n`.
pub(crate) type Spread = (u32, u32);

/// Each number as it is.
const PLAIN: Spread = (0, 1);

/// Each number doubled.
pub(crate) const EVEN: Spread = (0, 2);

/// Returns the row number that is computed from `number`.
fn spread(number: u32, (square, single): Spread) -> u32 {
    let squares = number.wrapping_mul(number).wrapping_mul(square);
    squares.wrapping_add(number.wrapping_mul(single))
}

/// Returns the lines of `count` rows. Their numbers begin with 0, increase by `step` modulo
/// `count`, and are then spread by `factors`.
pub(crate) fn text_of(
    alloc: Global,
    count: u32,
    step: u32,
    factors: Spread,
) -> Result<String, AllocError> {
    let mut text = String::new(alloc);
    let mut number: u32 = 0;
    for _ in 0..count {
        let shown = spread(number, factors);
        add_row(&mut text, shown, shown)?;
        number = number.wrapping_add(step) % count.max(1);
    }
    Ok(text)
}

/// Returns the map from the number of each row of [`text_of`] to its value, for a step that has no
/// factor in common with `count`.
pub(crate) fn map_of(alloc: Global, count: u32, factors: Spread) -> Option<BTreeMap<u32, u32>> {
    let mut map = BTreeMap::new(alloc);
    for number in 0..count {
        let shown = spread(number, factors);
        map.insert(shown, shown).ok()?;
    }
    Some(map)
}

/// Returns the table of [`text_of`].
fn table_read(alloc: Global, count: u32, step: u32, factors: Spread) -> Option<Table> {
    let text = text_of(alloc, count, step, factors).ok()?;
    Table::read(alloc, text.as_bytes()).ok()
}

/// Returns whether the table of [`text_of`] has the rows of [`map_of`].
fn is_read(alloc: Global, count: u32, step: u32, factors: Spread) -> Option<bool> {
    let table = table_read(alloc, count, step, factors)?;
    let map = map_of(alloc, count, factors)?;
    Some(has_rows(&table, &map))
}

#[test]
fn counts_of_rows_around_the_size_of_a_page_are_read(rt: HostRuntime) {
    // A step without a common factor with the count reaches each number below the count once.
    for &count in &[0, 1, 127, 128, 129, 255, 256, 257, 512, 513] {
        assert!(rt;
            is_read(rt.alloc(), count, 1, PLAIN) == Some(true),
            "{count} rows that rise"
        );
        assert!(rt;
            is_read(rt.alloc(), count, 101, PLAIN) == Some(true),
            "{count} rows in no order"
        );
    }
}

/// Counts of rows, each with the step between the numbers of successive lines. Many rows then have
/// a smaller name than the line before. At the last counts a table gathers such rows. At 40,000
/// they become as many as its pages have room for, so it sorts them in before the end.
const UNORDERED: [(u32, u32); 14] = [
    (100, 61),
    (129, 79),
    (190, 117),
    (191, 100),
    (200, 123),
    (383, 239),
    (512, 317),
    (577, 357),
    (1000, 619),
    (2500, 1543),
    (5000, 3089),
    (9000, 5563),
    (20000, 12347),
    (40000, 24697),
];

#[test]
fn unordered_rows_are_read_before_and_after_they_are_sorted_in(rt: HostRuntime) {
    for &(count, step) in &UNORDERED {
        assert!(rt;
            is_read(rt.alloc(), count, step, PLAIN) == Some(true),
            "{count} rows"
        );
    }
}

#[test]
fn unordered_names_of_short_and_long_numbers_are_read(rt: HostRuntime) {
    // The greatest number is 400 * 2,999 * 2,999, which fits into 32 bits. The encodings have one
    // octet to five.
    for &(count, step) in &[(200, 123), (1000, 619), (3000, 1853)] {
        assert!(rt;
            is_read(rt.alloc(), count, step, (400, 0)) == Some(true),
            "{count} rows"
        );
    }
}

/// The numbers of three lines, from 1: one with a row, one with the same row again, and one that
/// isn't a row. 0 is for no line.
type Lines = (u32, u32, u32);

/// Appends `count` rows, in the order of [`text_of`], with these faults.
fn add_rows(text: &mut String, count: u32, step: u32, lines: Lines) -> Result<(), AllocError> {
    let (first, again, bad) = lines;
    let mut number: u32 = 0;
    for index in 0..count {
        if index.wrapping_add(1) == bad {
            text.push_str("no row\n")?;
        } else if index.wrapping_add(1) == again {
            let number = first.wrapping_sub(1).wrapping_mul(step) % count.max(1);
            add_row(text, number, 1)?;
        } else {
            add_row(text, number, number)?;
        }
        number = number.wrapping_add(step) % count.max(1);
    }
    Ok(())
}

/// Returns the fault of a table file with the lines of [`add_rows`].
fn fault_of_rows(alloc: Global, count: u32, step: u32, lines: Lines) -> Option<TableError> {
    let mut text = String::new(alloc);
    add_rows(&mut text, count, step, lines).ok()?;
    fault_of(alloc, text.as_bytes())
}

/// The first and the second line with the same name.
const TWICE: [(u32, u32); 10] = [
    (1, 2),
    (1, 100),
    (99, 100),
    (1, 600),
    (600, 601),
    (500, 1900),
    (1200, 2400),
    (2399, 2400),
    (1, 2500),
    (2499, 2500),
];

#[test]
fn a_repeated_name_is_reported_after_gathered_rows_were_sorted_in(rt: HostRuntime) {
    for &(first, again) in &[(1, 39_000), (20_000, 39_999), (38_000, 38_500)] {
        let double = Some(TableError::Double {
            line: again as usize,
        });
        assert!(rt;
            fault_of_rows(rt.alloc(), 40_000, 24_697, (first, again, 0)) == double,
            "lines {first} and {again}"
        );
    }
}

#[test]
fn the_first_line_that_repeats_a_name_is_reported(rt: HostRuntime) {
    for &(first, again) in &TWICE {
        let double = Some(TableError::Double {
            line: again as usize,
        });
        for &bad in &[0, again.wrapping_add(1), 2501] {
            assert!(rt;
                fault_of_rows(rt.alloc(), 2500, 1543, (first, again, bad)) == double,
                "lines {first} and {again}, and a fault in {bad}"
            );
        }
        let bad = again.wrapping_sub(1);
        if bad != first {
            assert!(rt;
                fault_of_rows(rt.alloc(), 2500, 1543, (first, again, bad))
                    == Some(TableError::BadLine { line: bad as usize }),
                "a fault in {bad}, before {again}"
            );
        }
    }
}

/// Numbers just below and above three limits at which an encoding becomes longer, and the greatest
/// number.
const LIMITS: [u32; 7] = [127, 128, 16383, 16384, 2097151, 2097152, 4294967295];

/// Puts the rows of the numbers in `remaining`, in their permutation number `order`. Returns
/// whether each was put, and `table` and `map` agree on whether it was there.
fn are_put(
    table: &mut Table,
    map: &mut BTreeMap<u32, u32>,
    remaining: &mut Vec<u32>,
    order: usize,
) -> bool {
    let mut order = order;
    for _ in 0..LIMITS.len() {
        let count = remaining.len();
        if count == 0 {
            return false;
        }
        let number = remaining.remove(order % count);
        order /= count;
        if !is_put(table, map, number, number) {
            return false;
        }
    }
    true
}

/// Returns whether the rows of `LIMITS` are in order after they were put in their permutation
/// number `order`.
fn is_ordered(alloc: Global, order: usize) -> Option<bool> {
    let mut remaining = Vec::from_array(alloc, LIMITS).ok()?;
    let mut table = Table::read(alloc, b"").ok()?;
    let mut map = BTreeMap::new(alloc);
    Some(are_put(&mut table, &mut map, &mut remaining, order) && has_rows(&table, &map))
}

#[test]
fn names_at_the_limits_of_encodings_are_in_order(rt: HostRuntime) {
    for order in 0..5040 {
        assert!(rt;
            is_ordered(rt.alloc(), order) == Some(true),
            "order {order}"
        );
    }
}

/// Returns [`is_changed`] at index `index` for a table of `count` rows with even numbers, and a map
/// with the same rows.
fn is_changed_at(alloc: Global, count: u32, index: u32) -> Option<bool> {
    let mut table = table_read(alloc, count, 1, EVEN)?;
    let mut map = map_of(alloc, count, EVEN)?;
    Some(is_changed(&mut table, &mut map, index))
}

/// Changes `table` and `map`: the row at index `index` gets a new value, a row is put after it, and
/// the two rows are removed. Returns whether the table has the rows of the map after each change.
fn is_changed(table: &mut Table, map: &mut BTreeMap<u32, u32>, index: u32) -> bool {
    let number = index.wrapping_mul(2);
    let beside = number.wrapping_add(1);
    let replaced = is_put(table, map, number, 7) && has_rows(table, map);
    let inserted = is_put(table, map, beside, 8) && has_rows(table, map);
    let removed = is_removed(table, map, number) && has_rows(table, map);
    let emptied = is_removed(table, map, beside) && has_rows(table, map);
    replaced && inserted && removed && emptied
}

#[test]
fn rows_change_at_the_ends_of_pages_and_inside_them(rt: HostRuntime) {
    // Rows that are read in order fill pages of 128.
    for &count in &[1, 128, 129, 256, 257, 513] {
        for &index in &[0, 1, 127, 128, 129, 254, 255, 256, 257, 384, 510, 511, 512] {
            if index < count {
                assert!(rt;
                    is_changed_at(rt.alloc(), count, index) == Some(true),
                    "at {index} of {count}"
                );
            }
        }
    }
}
