//! Walks over schedules, which are lists of deliveries drawn at random. What the walks return is
//! compared with a simple computation.
ghost use Rattle.snmp_walk.specs.Facts.{IsFresh};

use crate::runs::{ROOT, name_of, public, push, put, resumed_walk, table_of, walk_ends, walk_of};
use crate::sinks::{Counted, Digits};
use snmp_agent::Table;
use snmp_walk::{MemoryLink, Method, Mode, WalkCore, WalkEnd};
use std::alloc::Global;
use std::process::Abort;

/// Pseudo-random numbers: a linear congruential generator (Knuth, MMIX).
#[derive(Drop)]
struct Random {
    state: u64,
}

impl Random {
    /// Returns a number below `bound`, or 0 if `bound` is 0.
    fn below(&mut self, bound: u64) -> u64 {
        self.state = self
            .state
            .wrapping_mul(6364136223846793005)
            .wrapping_add(1442695040888963407);
        (self.state >> 33).checked_rem(bound).unwrap_or(0)
    }

    /// Returns a small number below `bound`, or 0 if `bound` is 0.
    fn small(&mut self, bound: u8) -> u8 {
        u8::try_from(self.below(u64::from(bound))).unwrap_or(0)
    }
}

/// What a walk asks for.
#[derive(Clone, Copy)]
struct Asked {
    mode: Mode,
    /// The max-repetitions of its GetBulk, or `None` if it asks by GetNext.
    repetitions: Option<u8>,
    /// The number below the root after which it is resumed, if it is.
    after: Option<u8>,
    retries: u8,
}

/// What a walk returns if each request gets its reply: the digit of each binding, if it has one,
/// and how many bindings were returned up to the reply to each request.
#[derive(Drop)]
struct Whole {
    digits: Vec<Option<u8>>,
    rows_after: Vec<usize>,
}

impl Whole {
    /// Appends a binding.
    fn add(&mut self, rt: &impl Abort, digit: Option<u8>) {
        push(rt, &mut self.digits, digit);
    }

    /// Records one more request: once its reply arrives, all bindings appended so far are returned.
    fn end_request(&mut self, rt: &impl Abort) {
        push(rt, &mut self.rows_after, self.digits.len());
    }

    /// Appends the rows of these numbers and the requests for them, for `step` rows each. The last
    /// request gets fewer rows, or none. If the walk is resumed after a number, only rows of
    /// greater numbers are appended.
    fn add_rows(&mut self, rt: &impl Abort, numbers: &[u8], after: Option<u8>, step: usize) {
        let mut here = 0_usize;
        for number in numbers {
            if after.is_none_or(|after| after < *number) {
                self.add(rt, Some(*number));
                here = here.saturating_add(1);
                if here.checked_rem(step) == Some(0) {
                    self.end_request(rt);
                }
            }
        }
        self.end_request(rt);
    }

    /// Appends the bindings and requests of the walk that `asked` describes. Its table has a row
    /// for each of these numbers below the root, with the number as its value. If `own` isn't
    /// `None`, the root too has a row, with the value `own`.
    fn add_walk(&mut self, rt: &impl Abort, asked: Asked, numbers: &[u8], own: Option<u8>) {
        let is_whole = asked.after.is_none();
        if asked.mode == Mode::Include && is_whole {
            if own.is_some() {
                self.add(rt, own);
            }
            self.end_request(rt);
        }
        let step = usize::from(asked.repetitions.unwrap_or(1)).max(1);
        self.add_rows(rt, numbers, asked.after, step);
        if asked.mode == Mode::Plain && is_whole && self.digits.is_empty() {
            self.add(rt, own);
            self.end_request(rt);
        }
    }

    /// Returns what is expected of a run with these counts.
    fn wanted_after(&self, counts: RunCounts) -> Wanted {
        let rows = match counts.replied.checked_sub(1) {
            Some(last) => self.rows_after.get(last).copied().unwrap_or(0),
            None => 0,
        };
        let mut taken = Digits::new();
        for digit in self.digits.iter().take(rows) {
            taken.add(*digit);
        }
        Wanted {
            number: taken.number,
            rows: taken.rows,
            sends: counts.sends,
            requests: counts.replied.saturating_add(1).min(self.rows_after.len()),
            is_done: counts.replied == self.rows_after.len(),
        }
    }
}

/// The counts of a run: how many requests have their replies, and how many datagrams it sends.
#[derive(Clone, Copy)]
struct RunCounts {
    replied: usize,
    sends: usize,
}

/// Returns whether a try of `request`, of up to 64 receives, receives its reply. A delivery is the
/// reply to the datagram of its number, from 1; if it is `None` or there is no such datagram, the
/// try ends. After the last delivery, a receive returns the reply to the latest datagram. `sent`
/// has the request in each datagram that was sent, and `used` counts the deliveries so far.
fn receives_reply(
    request: usize,
    sent: &[usize],
    deliveries: &[Option<usize>],
    used: &mut usize,
) -> bool {
    for _ in 0..64 {
        let number = match deliveries.get(*used) {
            Some(delivery) => {
                *used += 1;
                delivery.unwrap_or(0)
            }
            None => sent.len(),
        };
        match number
            .checked_sub(1)
            .and_then(|index| sent.get(index).copied())
        {
            None => return false,
            Some(asked) => {
                if asked == request {
                    return true;
                }
            }
        }
    }
    false
}

/// Returns how many of `requests` requests get their replies. Appends to `sent` the request in each
/// datagram that is sent.
fn replied_count(
    rt: &impl Abort,
    sent: &mut Vec<usize>,
    requests: usize,
    retries: u8,
    deliveries: &[Option<usize>],
) -> usize {
    let mut used = 0;
    for request in 0..requests {
        let mut has_reply = false;
        for _ in 0..=retries {
            if !has_reply {
                push(rt, sent, request);
                has_reply = receives_reply(request, sent, deliveries, &mut used);
            }
        }
        if !has_reply {
            return request;
        }
    }
    requests
}

/// Returns how many of `requests` requests get their replies, and how many datagrams are sent, with
/// the retries and deliveries of `drawn`.
fn counts_of(rt: &impl Abort, alloc: Global, requests: usize, drawn: &Drawn) -> RunCounts {
    let mut sent = Vec::new(alloc);
    let retries = drawn.asked.retries;
    let replied = replied_count(rt, &mut sent, requests, retries, &drawn.deliveries);
    RunCounts {
        replied,
        sends: sent.len(),
    }
}

/// Returns random numbers below 10, in increasing order.
fn draw_numbers(rt: &impl Abort, alloc: Global, random: &mut Random) -> Vec<u8> {
    let mut numbers = Vec::new(alloc);
    let odds = random.below(4);
    for number in 0..10 {
        if random.below(4) < odds {
            push(rt, &mut numbers, number);
        }
    }
    numbers
}

/// Appends the lines of a table, with the greatest name first: a row after the subtree of the root,
/// one for each number below the root, one for the root itself with the value `own` unless that is
/// `None`, and a row before the subtree. The numbers must increase and be below 10.
fn put_table(rt: &impl Abort, text: &mut Vec<u8>, numbers: &[u8], own: Option<u8>) {
    put(rt, text, b"1.3.6.1.4.1.32473.2|2|8\n");
    for number in numbers.iter().rev() {
        let digit = b'0'.saturating_add(*number);
        put(rt, text, b"1.3.6.1.4.1.32473.1.");
        put(rt, text, &[digit, b'|', b'2', b'|', digit, b'\n']);
    }
    if let Some(digit) = own {
        put(rt, text, b"1.3.6.1.4.1.32473.1|2|");
        put(rt, text, &[b'0'.saturating_add(digit), b'\n']);
    }
    put(rt, text, b"1.3.6.1.4.1.32473.0.1|2|9\n");
}

/// Returns the table that was drawn.
fn drawn_table(rt: &impl Abort, alloc: Global, drawn: &Drawn) -> Table {
    let mut text = Vec::new(alloc);
    put_table(rt, &mut text, &drawn.numbers, drawn.own);
    table_of(rt, alloc, &text)
}

/// Returns what a walk asks for, at random.
fn draw_asked(random: &mut Random) -> Asked {
    let mode = match random.below(3) {
        0 => Mode::Plain,
        1 => Mode::Include,
        _ => Mode::NoLast,
    };
    let repetitions = match random.small(6) {
        0 | 1 => None,
        n => Some(n),
    };
    let after = if random.below(3) == 0 {
        Some(random.small(10))
    } else {
        None
    };
    Asked {
        mode,
        repetitions,
        after,
        retries: random.small(4),
    }
}

/// Returns up to 40 random deliveries.
fn draw_deliveries(rt: &impl Abort, alloc: Global, random: &mut Random) -> Vec<Option<usize>> {
    let mut deliveries = Vec::new(alloc);
    for _ in 0..random.below(41) {
        let number = random.below(12) as usize;
        let is_lost = random.below(3) == 0;
        push(
            rt,
            &mut deliveries,
            if is_lost { None } else { Some(number) },
        );
    }
    deliveries
}

/// Returns the walk that is asked for.
fn core_of(rt: &impl Abort, asked: Asked) -> WalkCore
    ensures { IsFresh result }
{
    let method = match asked.repetitions {
        None => Method::Next,
        Some(repetitions) => Method::Bulk(i32::from(repetitions).max(1)),
    };
    match asked.after {
        None => walk_of(rt, ROOT, asked.mode, method, 1),
        Some(number) => {
            let mut after = name_of(rt, ROOT);
            after.push(u32::from(number)).expect(rt, "a name");
            resumed_walk(rt, &after, method)
        }
    }
}

/// What was drawn: a table (the numbers of its rows below the root, and the value of the root's own
/// row, if it has one), what a walk asks for, and deliveries.
#[derive(Drop)]
struct Drawn {
    numbers: Vec<u8>,
    own: Option<u8>,
    asked: Asked,
    deliveries: Vec<Option<usize>>,
}

/// Draws a table, a walk and a schedule at random.
fn draw(rt: &impl Abort, alloc: Global, random: &mut Random) -> Drawn {
    let numbers = draw_numbers(rt, alloc, random);
    let own = if random.below(2) == 0 { None } else { Some(7) };
    let asked = draw_asked(random);
    let deliveries = draw_deliveries(rt, alloc, random);
    Drawn {
        numbers,
        own,
        asked,
        deliveries,
    }
}

/// What a walk is to do: the number that `Digits` makes of its bindings, how many bindings it
/// returns, how many datagrams and requests it sends, and whether it is done.
#[derive(Clone, Copy)]
struct Wanted {
    number: u64,
    rows: usize,
    sends: usize,
    requests: usize,
    is_done: bool,
}

/// Returns what the walk that was drawn is to return, by a simple computation.
fn wanted_of(rt: &impl Abort, alloc: Global, drawn: &Drawn) -> Wanted {
    let mut whole = Whole {
        digits: Vec::new(alloc),
        rows_after: Vec::new(alloc),
    };
    whole.add_walk(rt, drawn.asked, &drawn.numbers, drawn.own);
    whole.wanted_after(counts_of(rt, alloc, whole.rows_after.len(), drawn))
}

/// Returns whether the walk over this table, with these deliveries, returns what is wanted.
fn returns_wanted(
    alloc: Global,
    table: &Table,
    core: WalkCore,
    drawn: &Drawn,
    wanted: Wanted,
) -> bool
    requires { IsFresh core }
{
    let mut link = Counted::new(MemoryLink::new(alloc, table, public(1472), &drawn.deliveries));
    let mut digits = Digits::new();
    let end = if wanted.is_done {
        WalkEnd::Done(wanted.rows as u64)
    } else {
        WalkEnd::NoResponse
    };
    walk_ends(
        &mut link,
        core,
        u32::from(drawn.asked.retries),
        &mut digits,
        &end,
    ) && digits.rows == wanted.rows
        && digits.number == wanted.number
        && link.sends == wanted.sends
        && link.requests == wanted.requests
}

/// Draws a table, a walk and a schedule at random, and asserts that the walk returns what is
/// wanted.
fn assert_schedule(rt: &impl Abort, alloc: Global, random: &mut Random) {
    let drawn = draw(rt, alloc, random);
    let wanted = wanted_of(rt, alloc, &drawn);
    let core = core_of(rt, drawn.asked);
    let table = drawn_table(rt, alloc, &drawn);
    assert!(rt; returns_wanted(alloc, &table, core, &drawn, wanted));
}

#[test]
fn walks_over_a_thousand_schedules_return_what_is_computed(rt: HostRuntime) {
    let mut random = Random { state: 20010101 };
    for _ in 0..1000 {
        assert_schedule(&rt, rt.alloc(), &mut random);
    }
}
