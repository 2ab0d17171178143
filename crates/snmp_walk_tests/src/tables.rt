//! Walks over tables that change from one datagram to the next.
ghost use Rattle.std.specs.Prelude.{◌≡◌, ◌<◌, All, length, true};
ghost use Rattle.snmp_walk.specs.Facts.{IsFresh};

use crate::runs::{public, table_of, walk_ends, walk_of};
use crate::sinks::{Counted, Listed, Row};
use snmp_agent::Table;
use snmp_walk::{MemoryLink, Method, Mode, WalkCore, WalkEnd};
use snmp_wire::ValueRef;
use std::alloc::Global;
use std::process::Abort;

/// A link and the retries of a walk over it. The link has its tables, the index of the table that
/// replies to each datagram, in the order of sending, and its deliveries.
#[derive(Clone, Copy)]
struct Case<'a> {
    tables: &'a [Table],
    uses: &'a [usize],
    deliveries: &'a [Option<usize>],
    retries: u32,
}

/// Returns whether each of `uses` is the index of a table.
fn are_indices(uses: &[usize], tables: &[Table]) -> bool
    ensures { result ≡ true → All (λ index. index < length tables.now) uses.now }
{
    let count = tables.len();
    uses.iter().all(|index| *index < count)
}

/// Returns whether the walk over the link of a case returns these bindings, is done, and sends
/// `sends` datagrams.
fn returns_wanted(
    alloc: Global,
    core: WalkCore,
    case: Case<'_>,
    wanted: &[Row],
    sends: usize,
) -> bool
    requires { IsFresh core }
{
    if case.tables.is_empty() || !are_indices(case.uses, case.tables) {
        return false;
    }
    let (tables, agent) = (case.tables, public(1472));
    let link = MemoryLink::changing(alloc, tables, agent, case.uses, case.deliveries);
    let mut link = Counted::new(link);
    let mut listed = Listed::new(wanted);
    let end = WalkEnd::Done(wanted.len() as u64);
    walk_ends(&mut link, core, case.retries, &mut listed, &end)
        && listed.rows == wanted.len()
        && listed.others == 0
        && link.sends == sends
}

/// Asserts that the walk from 1.3.6.1.4.1.32473.8 over the link of a case returns these bindings,
/// is done, and sends `sends` datagrams.
fn assert_changing(rt: &impl Abort, alloc: Global, case: Case<'_>, wanted: &[Row], sends: usize) {
    let core = walk_of(rt, b"1.3.6.1.4.1.32473.8", Mode::Plain, Method::Next, 1);
    assert!(rt; returns_wanted(alloc, core, case, wanted, sends));
}

/// A table with the rows 1, 2 and 4.
const A: &[u8] =
    b"1.3.6.1.4.1.32473.8.1|2|1\n1.3.6.1.4.1.32473.8.2|2|2\n1.3.6.1.4.1.32473.8.4|2|4\n";

/// A table with the rows 0, 2, 3 and 4.
const B: &[u8] = b"1.3.6.1.4.1.32473.8.0|2|9\n\
    1.3.6.1.4.1.32473.8.2|2|2\n\
    1.3.6.1.4.1.32473.8.3|2|3\n\
    1.3.6.1.4.1.32473.8.4|2|4\n";

/// The names of the rows 1, 2, 3 and 4.
const NAMES: [&[u8]; 4] = [
    b"1.3.6.1.4.1.32473.8.1",
    b"1.3.6.1.4.1.32473.8.2",
    b"1.3.6.1.4.1.32473.8.3",
    b"1.3.6.1.4.1.32473.8.4",
];

/// Asserts that a walk returns the rows 1 to 4 if its first datagram is answered from `A`, and the
/// others from `B`.
fn assert_both(rt: &impl Abort, alloc: Global, tables: &[Table]) {
    let case = Case {
        tables,
        uses: &[0, 1],
        deliveries: &[],
        retries: 0,
    };
    let wanted = [
        (NAMES[0], ValueRef::Integer(1)),
        (NAMES[1], ValueRef::Integer(2)),
        (NAMES[2], ValueRef::Integer(3)),
        (NAMES[3], ValueRef::Integer(4)),
    ];
    assert_changing(rt, alloc, case, &wanted, 5);
}

#[test]
fn rows_of_both_tables_are_returned_in_order(rt: HostRuntime) {
    let tables = [table_of(&rt, rt.alloc(), A), table_of(&rt, rt.alloc(), B)];
    assert_both(&rt, rt.alloc(), &tables);
}

/// The tables are one with the row 1, and an empty one. Asserts that a walk returns the row 1 if
/// its first datagram is answered from the first table and the next from the empty one. If the
/// first is answered from the empty table and the next from the other, the walk returns an
/// exception.
fn assert_emptied(rt: &impl Abort, alloc: Global, tables: &[Table]) {
    let case = Case {
        tables,
        uses: &[0, 1],
        deliveries: &[],
        retries: 0,
    };
    let row = [(NAMES[0], ValueRef::Integer(1))];
    assert_changing(rt, alloc, case, &row, 2);
    // The only binding is the result of a Get of the root, an exception.
    let swapped = Case {
        uses: &[1, 0],
        ..case
    };
    let root: &'static [u8] = b"1.3.6.1.4.1.32473.8";
    let exception = [(root, ValueRef::NoSuchObject)];
    assert_changing(rt, alloc, swapped, &exception, 2);
}

#[test]
fn a_table_that_empties_ends_the_walk(rt: HostRuntime) {
    let one = b"1.3.6.1.4.1.32473.8.1|2|1\n";
    let tables = [
        table_of(&rt, rt.alloc(), one),
        table_of(&rt, rt.alloc(), b""),
    ];
    assert_emptied(&rt, rt.alloc(), &tables);
}

/// The rows 1, 2 and 3, with the value 0.
const ZEROS: &[u8] =
    b"1.3.6.1.4.1.32473.8.1|2|0\n1.3.6.1.4.1.32473.8.2|2|0\n1.3.6.1.4.1.32473.8.3|2|0\n";

/// The rows 1, 2 and 3, with the value 1.
const ONES: &[u8] =
    b"1.3.6.1.4.1.32473.8.1|2|1\n1.3.6.1.4.1.32473.8.2|2|1\n1.3.6.1.4.1.32473.8.3|2|1\n";

/// The rows 1, 2 and 3, with the value 2.
const TWOS: &[u8] =
    b"1.3.6.1.4.1.32473.8.1|2|2\n1.3.6.1.4.1.32473.8.2|2|2\n1.3.6.1.4.1.32473.8.3|2|2\n";

/// Asserts that the walk over the link of a case returns the rows 1, 2 and 3 with these values, and
/// sends `sends` datagrams.
fn assert_values(rt: &impl Abort, alloc: Global, case: Case<'_>, values: [i32; 3], sends: usize) {
    let wanted = [
        (NAMES[0], ValueRef::Integer(values[0])),
        (NAMES[1], ValueRef::Integer(values[1])),
        (NAMES[2], ValueRef::Integer(values[2])),
    ];
    assert_changing(rt, alloc, case, &wanted, sends);
}

/// Asserts that each row is from the table that replies to its datagram. The value of each row is
/// the index of its table.
fn assert_uses(rt: &impl Abort, alloc: Global, tables: &[Table]) {
    // The uses, the deliveries, the index of the table of each of the three rows, and how many
    // datagrams are sent.
    const CASES: &[(&[usize], &[Option<usize>], [i32; 3], usize)] = &[
        // After the uses, the last table replies.
        (&[], &[], [2, 2, 2], 4),
        (&[0], &[], [0, 2, 2], 4),
        (&[1, 0], &[], [1, 0, 2], 4),
        (&[2, 1, 0, 1], &[], [2, 1, 0], 4),
        (&[1, 1, 0, 0, 1, 2], &[], [1, 1, 0], 4),
        // The first request is sent twice. In the first case the reply that arrives is to its
        // second datagram, in the other case a late one to its first.
        (&[0, 1, 0], &[None], [1, 0, 2], 5),
        (&[0, 1, 0], &[None, Some(1)], [0, 0, 2], 5),
        // The first reply, this reply again (a stray), a loss, and a late reply to the second
        // datagram.
        (&[1, 0, 1], &[Some(1), Some(1), None, Some(2)], [1, 0, 2], 5),
        // A datagram that wasn't sent yet has no reply.
        (&[0, 1], &[Some(2)], [1, 2, 2], 5),
    ];
    for &(uses, deliveries, values, sends) in CASES {
        let case = Case {
            tables,
            uses,
            deliveries,
            retries: 1,
        };
        assert_values(rt, alloc, case, values, sends);
    }
}

#[test]
fn each_datagram_is_answered_from_its_own_table(rt: HostRuntime) {
    let tables = [
        table_of(&rt, rt.alloc(), ZEROS),
        table_of(&rt, rt.alloc(), ONES),
        table_of(&rt, rt.alloc(), TWOS),
    ];
    assert_uses(&rt, rt.alloc(), &tables);
}
