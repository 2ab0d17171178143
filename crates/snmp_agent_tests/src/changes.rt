//! Rows that are put into a table and removed again.

use crate::table::{all_rows, assert_get, get_returns, name, table_of};
use snmp_agent::{PutError, Table};
use snmp_wire::{Binding, Oid, ValueRef, parse_numeric};
use std::process::Abort;

/// Returns 1.3.6.1.4.1.32473.1.`number`.0.
pub(crate) fn name_of(number: u32) -> Option<Oid> {
    Oid::from_slice(&[1, 3, 6, 1, 4, 1, 32473, 1, number, 0]).ok()
}

/// Returns whether `binding` is the row of `number`, with this value.
pub(crate) fn is_numbered(binding: &Binding<'_>, number: u32, value: u32) -> bool {
    match name_of(number) {
        Some(name) => {
            binding.name == name && matches!(binding.value, ValueRef::Counter32(n) if n == value)
        }
        None => false,
    }
}

/// Returns whether `table` has a row for each number from `low` to `high`, with the number as its
/// value, and no other rows.
fn has_rows(table: &Table, low: u32, high: u32) -> bool {
    let mut binding = Binding::empty();
    let Some(mut rows) = all_rows(table) else {
        return false;
    };
    for number in low..=high {
        rows.advance(&mut binding);
        if !is_numbered(&binding, number, number) {
            return false;
        }
    }
    rows.advance(&mut binding);
    matches!(binding.value, ValueRef::EndOfMibView)
}

/// Puts the row of `number`, with the number as its value, and returns whether there was none.
fn is_added(table: &mut Table, number: u32) -> bool {
    match name_of(number) {
        Some(name) => matches!(table.put(&name, ValueRef::Counter32(number)), Ok(false)),
        None => false,
    }
}

/// Removes the row of `number`, and returns whether there was one.
fn is_removed(table: &mut Table, number: u32) -> bool {
    match name_of(number) {
        Some(name) => table.remove(&name),
        None => false,
    }
}

/// Puts rows in decreasing order and removes them in increasing order, and asserts that the table
/// has the right rows after each change.
fn assert_changed(rt: &impl Abort, table: &mut Table) {
    for number in (1..=600).rev() {
        assert!(rt;
            is_added(table, number) && has_rows(table, number, 600),
            "{number} is put"
        );
    }
    for number in 1..=600 {
        assert!(rt;
            is_removed(table, number)
                && !is_removed(table, number)
                && has_rows(table, number + 1, 600),
            "{number} is removed"
        );
    }
}

#[test]
fn rows_put_in_decreasing_order_are_removed_in_increasing_order(rt: HostRuntime) {
    let mut table = table_of(&rt, rt.alloc(), b"object 1.3.6.1.4.1.32473.1\n");
    assert_changed(&rt, &mut table);
    // The object prefix stays.
    assert_get(
        &rt,
        &table,
        b"1.3.6.1.4.1.32473.1.1.0",
        &ValueRef::NoSuchInstance,
    );
}

/// Puts `value` at `name`, and returns whether there was a row.
fn is_put_again(table: &mut Table, name: &[u8], value: ValueRef<'_>) -> bool {
    match parse_numeric(name) {
        Ok(name) => matches!(table.put(&name, value), Ok(true)),
        Err(_) => false,
    }
}

/// Puts `value` at the row of 1.3.6.2, and asserts that the row has it then. `same` is equal to
/// `value`.
fn assert_replaced(rt: &impl Abort, table: &mut Table, value: ValueRef<'_>, same: &ValueRef<'_>) {
    assert!(rt; is_put_again(table, b"1.3.6.2", value) && get_returns(table, b"1.3.6.2", same));
}

#[test]
fn a_row_put_again_has_the_new_value(rt: HostRuntime) {
    let id = name(&rt, b"1.3.6.1");
    let mut table = table_of(&rt, rt.alloc(), b"1.3.6.1|2|1\n1.3.6.2|4|wes\n1.3.6.3|2|3");
    let string = ValueRef::Octets(b"new");
    assert_replaced(&rt, &mut table, ValueRef::Octets(b"new"), &string);
    let copy = ValueRef::ObjectId(id.copy());
    assert_replaced(&rt, &mut table, copy, &ValueRef::ObjectId(id));
    assert_get(&rt, &table, b"1.3.6.1", &ValueRef::Integer(1));
    assert_get(&rt, &table, b"1.3.6.3", &ValueRef::Integer(3));
}

/// Puts the value at the name, and returns whether it is refused with this error.
fn is_refused(table: &mut Table, name: &[u8], value: ValueRef<'_>, error: PutError) -> bool {
    match parse_numeric(name) {
        Ok(name) => table.put(&name, value).err() == Some(error),
        Err(_) => false,
    }
}

/// Asserts that an integer, and also Null, is refused at `name` because of the name.
fn assert_bad_name(rt: &impl Abort, table: &mut Table, name: &[u8]) {
    assert!(rt;
        is_refused(table, name, ValueRef::Integer(1), PutError::BadName)
            && is_refused(table, name, ValueRef::Null, PutError::BadName),
        "{name:?}"
    );
}

/// Returns whether `value` is refused at 1.3.6.1, whose value stays 1.
fn is_bad_value(table: &mut Table, value: ValueRef<'_>) -> bool {
    is_refused(table, b"1.3.6.1", value, PutError::BadValue)
        && get_returns(table, b"1.3.6.1", &ValueRef::Integer(1))
}

/// Asserts that Null, the exceptions and `value` are refused at 1.3.6.1.
fn assert_bad_values(rt: &impl Abort, table: &mut Table, value: ValueRef<'_>) {
    assert!(rt; is_bad_value(table, ValueRef::Null));
    assert!(rt; is_bad_value(table, ValueRef::NoSuchObject));
    assert!(rt; is_bad_value(table, ValueRef::NoSuchInstance));
    assert!(rt; is_bad_value(table, ValueRef::EndOfMibView));
    assert!(rt; is_bad_value(table, value));
}

/// Asserts that a string and an Opaque of all 65536 octets are refused at 1.3.6.1, and a string of
/// the first 65535 is put there.
fn assert_longest(rt: &impl Abort, table: &mut Table, octets: &[u8; 65536]) {
    assert!(rt; is_bad_value(table, ValueRef::Octets(octets)));
    assert!(rt; is_bad_value(table, ValueRef::Opaque(octets)));
    assert!(rt; is_put_again(table, b"1.3.6.1", ValueRef::Octets(&octets[..65535])));
}

#[test]
fn bad_names_and_values_are_refused(rt: HostRuntime) {
    let id = name(&rt, b"1");
    let mut table = table_of(&rt, rt.alloc(), b"1.3.6.1|2|1");
    for name in [b"1.3".as_slice(), b".", b"1.40.1", b"3.1.1"] {
        assert_bad_name(&rt, &mut table, name);
    }
    assert_bad_values(&rt, &mut table, ValueRef::ObjectId(id));
    assert_longest(&rt, &mut table, &[b'a'; 65536]);
}
