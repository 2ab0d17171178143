//! Walks over tables of several sizes, whose rows are stored in pages of up to 128 each.

use crate::runs::{ROOT, name_of, public, resumed_walk, walk_ends, walk_of};
use snmp_agent::Table;
use snmp_walk::{MemoryLink, Method, Mode, Sink, SinkFault, WalkEnd};
use snmp_wire::{Binding, ValueRef};
use std::alloc::{AllocError, Global};
use std::process::Abort;

/// A sink for rows in the order of their numbers. `next` is the number of the next one, and
/// `others` counts all other bindings.
#[derive(Drop)]
struct Numbers {
    next: u32,
    others: u32,
}

/// Returns whether `binding` is the row of `number`, with the number as its value.
fn is_row(binding: &Binding<'_>, number: u32) -> bool {
    binding.name.as_slice() == [1, 3, 6, 1, 4, 1, 32473, 1, number].as_slice()
        && matches!(binding.value, ValueRef::Counter32(held) if held == number)
}

impl Sink for Numbers {
    ghost takes = { λ _ _ _ _. Unit {0} };

    fn row(&mut self, binding: &Binding<'_>) -> Result<(), SinkFault> {
        if is_row(binding, self.next) {
            self.next = self.next.wrapping_add(1);
        } else {
            self.others = self.others.wrapping_add(1);
        }
        Ok(())
    }
}

/// Returns the lines of `count` rows. Their numbers begin with 0 and increase by `step`, modulo
/// `count`.
fn rows_of(alloc: Global, count: u32, step: u32) -> Result<Vec<u8>, AllocError> {
    let mut text = Vec::new(alloc);
    let mut number: u32 = 0;
    for _ in 0..count {
        let line = format!(in alloc; "1.3.6.1.4.1.32473.1.{number}|65|{number}\n")?;
        text.extend_from_slice(line.as_bytes())?;
        number = number.wrapping_add(step) % count.max(1);
    }
    Ok(text)
}

/// Returns whether a walk over the `count` rows of `table` returns each of them once, in order, and
/// nothing else. If there are none, the walk must return one binding, from a Get of the root.
fn is_walked(
    rt: &impl Abort,
    alloc: Global,
    table: &Table,
    count: u32,
    method: Method,
    size: usize,
) -> bool {
    let core = walk_of(rt, ROOT, Mode::Plain, method, 1);
    let mut link = MemoryLink::new(alloc, table, public(size), &[]);
    let mut numbers = Numbers { next: 0, others: 0 };
    let end = WalkEnd::Done(u64::from(count.max(1)));
    walk_ends(&mut link, core, 0, &mut numbers, &end)
        && numbers.next == count
        && numbers.others == u32::from(count == 0)
}

/// Returns whether a walk over the `count` rows of `table` that is resumed after the row of number
/// `after` returns those after it, in order, and nothing else.
fn is_resumed(
    rt: &impl Abort,
    alloc: Global,
    table: &Table,
    count: u32,
    after: u32,
    method: Method,
    size: usize,
) -> bool {
    let method = match method {
        Method::Next => Method::Next,
        Method::Bulk(repetitions) => Method::Bulk(repetitions.max(1)),
    };
    let mut name = name_of(rt, ROOT);
    let next = after.wrapping_add(1);
    let core = match name.push(after) {
        Ok(()) => resumed_walk(rt, &name, method),
        Err(_) => return false,
    };
    let mut link = MemoryLink::new(alloc, table, public(size), &[]);
    let mut numbers = Numbers { next, others: 0 };
    let end = WalkEnd::Done(u64::from(count.wrapping_sub(next)));
    walk_ends(&mut link, core, 0, &mut numbers, &end)
        && numbers.next == count
        && numbers.others == 0
}

/// Asserts that walks by each of the methods, at several sizes of messages, return the rows of a
/// table of `count` rows.
fn assert_walked(rt: &impl Abort, alloc: Global, count: u32, step: u32, methods: &[Method]) {
    let text = rows_of(alloc, count, step).expect(rt, "memory for rows");
    let table = Table::read(alloc, &text).expect(rt, "a table");
    for &size in &[134, 1472, 65507] {
        for &method in methods {
            assert!(rt;
                is_walked(rt, alloc, &table, count, method, size),
                "{count} rows by {step} in messages of {size} octets"
            );
            // Resumed near multiples of 128, and after the last row.
            for &after in &[0, 127, 128, 255, 256, 511, count.saturating_sub(1)] {
                assert!(rt;
                    after >= count || is_resumed(rt, alloc, &table, count, after, method, size),
                    "{count} rows by {step} in messages of {size} octets, after {after}"
                );
            }
        }
    }
}

#[test]
fn tables_around_the_size_of_a_page_are_walked_in_order(rt: HostRuntime) {
    let methods = [Method::Next, Method::Bulk(50)];
    // A step without a common factor with the count reaches each number below the count once.
    for &count in &[0, 1, 127, 128, 129, 255, 256, 257, 512, 513] {
        assert_walked(&rt, rt.alloc(), count, 1, &methods);
        assert_walked(&rt, rt.alloc(), count, 101, &methods);
    }
}

#[test]
fn a_table_of_many_pages_is_walked(rt: HostRuntime) {
    let methods = [Method::Next, Method::Bulk(50)];
    assert_walked(&rt, rt.alloc(), 10000, 1, &methods);
    assert_walked(&rt, rt.alloc(), 10000, 7919, &methods);
}
