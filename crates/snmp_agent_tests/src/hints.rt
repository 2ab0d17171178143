//! An agent answers a series of requests with a hint, which stores where earlier names were in the
//! table. Its replies are the same as without a hint.

use crate::bulk::table_to;
use crate::table::table_of;
use snmp_agent::{Config, Hint, Outcome, Table, answer, answer_near};
use snmp_wire::{EncodedName, Kind, MAX_CONTENT, Oid, Parts, encode_asking, seal};
use std::alloc::{AllocError, Global};
use std::process::Abort;

/// The tag of a GetRequest.
const GET: u8 = 0xA0;

/// The tag of a GetNextRequest.
const NEXT: u8 = 0xA1;

/// The tag of a GetBulkRequest.
const BULK: u8 = 0xA5;

/// Returns the request with this tag for 1.3.6.`number`, if `number` is from 128 to 16383. A
/// GetBulk has max-repetitions 5.
fn request_of(tag: u8, number: u16) -> [u8; 36] {
    let [high, low] = number.wrapping_mul(2).to_be_bytes();
    let mut request = [
        0x30, 0x22, 0x02, 0x01, 0x01, 0x04, 0x06, 0x70, 0x75, 0x62, 0x6C, 0x69, 0x63, 0xA1, 0x15,
        0x02, 0x01, 0x01, 0x02, 0x01, 0x00, 0x02, 0x01, 0x00, 0x30, 0x0A, 0x30, 0x08, 0x06, 0x04,
        0x2B, 0x06, 0x81, 0x00, 0x05, 0x00,
    ];
    request[13] = tag;
    request[23] = if tag == BULK { 5 } else { 0 };
    request[32] = high | 0x80;
    request[33] = low / 2;
    request
}

/// Returns whether the agent replies to `request`, and in the same way with `hint` as without one.
fn is_same(table: &Table, request: &[u8], hint: &mut Hint) -> bool {
    let config = Config {
        community: b"public",
        max_size: 1472,
    };
    let mut near = [0; 65507];
    let mut out = [0; 65507];
    match (
        answer_near(table, &config, request, &mut near, hint),
        answer(table, &config, request, &mut out),
    ) {
        (Outcome::Reply(size), Outcome::Reply(same)) => {
            size == same && near.get(..size) == out.get(..size)
        }
        _ => false,
    }
}

/// Asserts that the reply to `request` is the same with `hint`. If not, the test's message shows
/// `at`: the index or number of a row, and the round or step.
fn assert_same(rt: &impl Abort, table: &Table, request: &[u8], hint: &mut Hint, at: (u32, u32)) {
    let (index, round) = at;
    assert!(rt;
        is_same(table, request, hint),
        "{index} in {round}: {request:?}"
    );
}

/// Asserts that the request with this tag for this number has the same reply with `hint`.
fn assert_same_reply(
    rt: &impl Abort,
    table: &Table,
    asked: (u8, u16),
    hint: &mut Hint,
    round: u32,
) {
    let (tag, number) = asked;
    let request = request_of(tag, number);
    assert_same(rt, table, &request, hint, (u32::from(number), round));
}

#[test]
fn no_hint_changes_a_reply(rt: HostRuntime) {
    let many = table_to(&rt, rt.alloc(), 700);
    let few = table_to(&rt, rt.alloc(), 130);
    let mut hint = Hint::default();
    // Each name is asked for in turn, also past the last row. Then other names are asked for with
    // the hint of another row.
    for number in 128..=702 {
        assert_same_reply(&rt, &many, (NEXT, number), &mut hint, 0);
    }
    for &number in &[383, 128, 384, 700, 639, 640, 129] {
        assert_same_reply(&rt, &many, (NEXT, number), &mut hint, 1);
        // This hint is from another table.
        assert_same_reply(&rt, &few, (NEXT, 129), &mut hint, 1);
        let mut other = hint;
        assert_same_reply(&rt, &many, (NEXT, number), &mut other, 2);
    }
}

/// Removes the row of this name, and returns whether there was one.
fn is_removed(rt: &impl Abort, table: &mut Table, name: &[u32]) -> bool {
    let name = Oid::from_slice(name).expect(rt, "a name");
    table.remove(&name)
}

/// Removes the row of this number, and asserts that there was one.
fn assert_removed(rt: &impl Abort, table: &mut Table, number: u32) {
    assert!(rt;
        is_removed(rt, table, &[1, 3, 6, number]),
        "no row of {number}"
    );
}

#[test]
fn a_hint_that_is_out_of_date_changes_no_reply(rt: HostRuntime) {
    let mut table = table_to(&rt, rt.alloc(), 700);
    let mut hint = Hint::default();
    for number in 300..500 {
        assert_same_reply(&rt, &table, (NEXT, number), &mut hint, 0);
        // Removes the row of the hint, or one before it.
        let back = if number % 2 == 0 { 0 } else { 100 };
        let last = u32::from(number).wrapping_add(1).wrapping_sub(back);
        assert_removed(&rt, &mut table, last);
        assert_same_reply(&rt, &table, (NEXT, number.wrapping_add(1)), &mut hint, 1);
    }
}

#[test]
fn names_asked_for_again_have_the_same_replies(rt: HostRuntime) {
    let mut table = table_to(&rt, rt.alloc(), 900);
    let few = table_to(&rt, rt.alloc(), 130);
    let mut hint = Hint::default();
    // The names have four octets and come in no order. Each is in a Get, a GetNext and a GetBulk.
    for round in 0..4 {
        for step in 0..800_u16 {
            let number = step.wrapping_mul(331) % 800 + 128;
            for &tag in &[GET, NEXT, BULK] {
                assert_same_reply(&rt, &table, (tag, number), &mut hint, round);
            }
        }
        assert_same_reply(&rt, &few, (GET, 129), &mut hint, round);
        // Removes rows, so that others move.
        for number in 0..60_u32 {
            let last = number.wrapping_mul(13).wrapping_add(128 + round);
            let _ = is_removed(&rt, &mut table, &[1, 3, 6, last]);
        }
    }
}

/// Returns the GetNext of 1.3.6.1.4.1.1.`number`, if `number` is from 128 to 16383. Then the name
/// has eight octets.
fn next_request_of(number: u16) -> [u8; 40] {
    let [high, low] = number.wrapping_mul(2).to_be_bytes();
    let mut request = [
        0x30, 0x26, 0x02, 0x01, 0x01, 0x04, 0x06, 0x70, 0x75, 0x62, 0x6C, 0x69, 0x63, 0xA1, 0x19,
        0x02, 0x01, 0x01, 0x02, 0x01, 0x00, 0x02, 0x01, 0x00, 0x30, 0x0E, 0x30, 0x0C, 0x06, 0x08,
        0x2B, 0x06, 0x01, 0x04, 0x01, 0x01, 0x81, 0x00, 0x05, 0x00,
    ];
    request[36] = high | 0x80;
    request[37] = low / 2;
    request
}

/// Returns the lines of rows for the even numbers from 128 to `last`, below 1.3.6.1.4.1.1.
fn even_rows(alloc: Global, last: u32) -> Result<String, AllocError> {
    let mut text = String::new(alloc);
    for number in 64..=last / 2 {
        write!(
            text,
            "1.3.6.1.4.1.1.{}|65|{number}\n",
            number.wrapping_mul(2)
        )?;
    }
    Ok(text)
}

#[test]
fn more_names_than_a_hint_stores_have_the_same_replies(rt: HostRuntime) {
    let text = even_rows(rt.alloc(), 2200).expect(&rt, "memory for rows");
    let mut table = table_of(&rt, rt.alloc(), text.as_bytes());
    let mut hint = Hint::default();
    // The names are those of rows and others between them. They come in no order, in three rounds.
    // A hint stores at most 1,024 names.
    for round in 0..3_u32 {
        for step in 0..1500_u16 {
            let number = step.wrapping_mul(331) % 1500 + 650;
            let mut request = next_request_of(number);
            for &tag in &[GET, NEXT] {
                request[13] = tag;
                assert_same(&rt, &table, &request, &mut hint, (u32::from(number), round));
            }
        }
        // Removes rows, so that others move.
        for number in 0..60_u32 {
            let last = number
                .wrapping_mul(26)
                .wrapping_add(660)
                .wrapping_add(round.wrapping_mul(2));
            let _ = is_removed(&rt, &mut table, &[1, 3, 6, 1, 4, 1, 1, last]);
        }
    }
}

/// The number of columns in the table of [`routes`].
const COLUMNS: u32 = 6;

/// The number of rows in each column.
const ROUTES: u32 = 90;

/// Returns the name of the row at index `index` in the table of routes. After the last row, the
/// count continues at the first. An INDEX there has many numbers, and the names of rows differ only
/// in the middle.
fn route(index: u32) -> Option<Oid> {
    let column = index / ROUTES % COLUMNS + 1;
    let row = index % ROUTES;
    Oid::from_slice(&[
        1, 3, 6, 1, 2, 1, 4, 24, 7, 1, column, 2, 16, 253, 0, 170, 187, 204, row, 0, 0, 0, 0, 0, 0,
        0, 0, 0, 0, 64, 2, 0, 0, 1, 4, 10, 1, 1, 1,
    ])
    .ok()
}

/// Returns the text of the table of routes.
fn routes(alloc: Global) -> Result<String, AllocError> {
    let mut text = String::new(alloc);
    for column in 1..=COLUMNS {
        for row in 0..ROUTES {
            write!(
                text,
                "1.3.6.1.2.1.4.24.7.1.{column}.2.16.253.0.170.187.204.{row}\
.0.0.0.0.0.0.0.0.0.0.64.2.0.0.1.4.10.1.1.1|65|{row}\n"
            )?;
        }
    }
    Ok(text)
}

/// Returns the table of routes.
fn routes_table(rt: &impl Abort, alloc: Global) -> Table {
    let text = routes(alloc).expect(rt, "memory for rows");
    table_of(rt, alloc, text.as_bytes())
}

/// Writes a request for `count` rows of the table of routes, `step` rows apart from row `index` on,
/// and returns its length, or 0 if there is no room for it.
fn write_request(
    kind: Kind,
    repetitions: i32,
    index: u32,
    step: u32,
    count: u32,
    out: &mut [u8; 65507],
) -> usize {
    let mut total: usize = 0;
    for i in 0..count {
        if let Some(name) = route(index.wrapping_add(step.wrapping_mul(i))) {
            total = total.saturating_add(write_binding(&name, total, out));
        }
    }
    let parts = Parts {
        version: 1,
        community: b"public",
        kind,
        id: 1,
        a: 0,
        b: repetitions,
        bindings: &[],
    };
    if total > 65507 {
        return 0;
    }
    seal(&parts, 0, total, out).unwrap_or(0)
}

/// Writes the binding that asks for `name` to `out` at offset `from`. Returns its length, or 0 if
/// it isn't written.
fn write_binding(name: &Oid, from: usize, out: &mut [u8; 65507]) -> usize {
    let mut content = [0; MAX_CONTENT];
    if !name.is_wire() {
        return 0;
    }
    match out.get_mut(from..) {
        Some(room) => encode_asking(&EncodedName::write(name, &mut content), room).unwrap_or(0),
        None => 0,
    }
}

#[test]
fn columns_of_rows_with_a_long_index_have_the_same_replies(rt: HostRuntime) {
    let table = routes_table(&rt, rt.alloc());
    let mut hint = Hint::default();
    let mut request = [0; 65507];
    // Each request is for all columns of one row. The rows come in order, in three rounds. After
    // the last row of a column comes the next column, and after the last column the end.
    for round in 0..3 {
        for row in 0..ROUTES {
            for &kind in &[Kind::GetRequest, Kind::GetNextRequest, Kind::GetBulkRequest] {
                let size = write_request(kind, 3, row, ROUTES, COLUMNS, &mut request);
                let request = &request[..size.min(65507)];
                assert_same(&rt, &table, request, &mut hint, (row, round));
            }
        }
    }
}

#[test]
fn interleaved_walks_have_the_same_replies(rt: HostRuntime) {
    let table = routes_table(&rt, rt.alloc());
    let mut hint = Hint::default();
    let mut request = [0; 65507];
    // Six series of requests alternate: two walks by GetNext, two by GetBulk of one column, one by
    // GetBulk of two columns, and Gets.
    for step in 0..ROUTES * COLUMNS {
        for &(kind, repetitions, index, count) in &[
            (Kind::GetNextRequest, 0, step, 1),
            (Kind::GetBulkRequest, 5, step.wrapping_mul(5), 1),
            (Kind::GetNextRequest, 0, step.wrapping_add(200), 1),
            (Kind::GetBulkRequest, 7, step.wrapping_mul(7), 1),
            (Kind::GetBulkRequest, 2, step.wrapping_mul(2), 2),
            (Kind::GetRequest, 0, step.wrapping_mul(3), 2),
        ] {
            let size = write_request(kind, repetitions, index, ROUTES, count, &mut request);
            let request = &request[..size.min(65507)];
            assert_same(&rt, &table, request, &mut hint, (index, step));
        }
    }
}
