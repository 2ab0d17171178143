//! The bindings of the reply to a GetBulk (RFC 3416, section 4.2.3).
//!
//! A round is one repetition: one binding for each repeating name. The bindings are written to the
//! start of the output, as for other replies. They end before the first binding that has no room.
ghost use Rattle.std.specs.Prelude.{◌≡◌, ◌≢◌, ◌⊎◌, ◌≤◌, [], ◌∷◌, ◌++◌, true, false, take, drop};
ghost use Rattle.std.specs.{Prelude.map, Prelude.length, List.list_all};
ghost use Rattle.snmp_wire.specs.Parts.{parts_message};
ghost use Rattle.snmp_agent.specs.Reply.{joined, or_zero};
ghost use Rattle.snmp_agent.specs.private.Answering.{IsRoom, bulk_of, fill, held, rounds_from};
ghost use Rattle.snmp_agent.specs.private.Cursor.{bindings_in_round, is_over, next_at, passed};
ghost use Rattle.snmp_agent.specs.private.Cursor.{cursors_of};

use crate::answers::append_next;
use crate::cursor::Cursor;
use crate::room::ReplyBindings;
use crate::table::{Guesses, Table};
use arrayvec::ArrayVec;
use snmp_wire::{BindingRef, Bindings, MAX_DATAGRAM, MessageRef, Parts, head_size, message_sizes};

/// The greatest number of names whose positions are stored from one round to the next.
const MAX_CURSORS: usize = 64;

/// Returns the greatest number of octets that the bindings of a message with these parts can take
/// if the message has at most `max_size`. Returns 0 if it has more even without bindings.
#[tactic(auto, using(std::proofs::lemmas::Grind::common_steps))]
pub fn room_for_bindings(parts: &Parts<'_>, max_size: usize) -> usize
    requires community { length parts.now.community.now ≤ 255 }
    requires datagram { max_size ≤ 65507 }
    ensures { IsRoom (parts_message parts.now) max_size result }
{
    message_sizes();
    // No head of a message that fits is longer than this one, so the search begins at the result or
    // below it.
    let longest = head_size(parts, max_size as u64) as usize;
    let mut room = max_size.saturating_sub(longest);
    'octets: while head_size(parts, room as u64 + 1) as usize + room < max_size {
        room += 1;
    }
    room
}

/// Appends the bindings of the reply to a GetBulk, as many as fit.
pub fn append_bulk<'a>(
    table: &'a Table,
    request: &MessageRef<'a>,
    reply: ReplyBindings,
    out: &mut [u8; MAX_DATAGRAM],
    hint: &mut Guesses<'_>,
) -> ReplyBindings
    ensures { held result out.new ≡ fill (held reply out.old) (bulk_of table.now request.now) }
{
    let mut bindings = request.bindings();
    let count = or_zero(request.a());
    let reply = append_singles(table, count, &mut bindings, reply, out, hint);
    if reply.is_full() {
        return reply;
    }
    let repetitions = or_zero(request.b());
    append_repeaters(table, repetitions, bindings, reply, out, hint)
}

/// Returns `number`, or 0 if it is negative (RFC 3416, section 4.2.3).
fn or_zero(number: i32) -> usize
    ensures { result ≡ or_zero number }
{
    usize::try_from(number).unwrap_or(0)
}

/// Takes the first `count` bindings, or all if there are fewer, and appends what a GetNext of each
/// returns, until one has no room.
fn append_singles<'a>(
    table: &'a Table,
    count: usize,
    bindings: &mut Bindings<'a>,
    reply: ReplyBindings,
    out: &mut [u8; MAX_DATAGRAM],
    hint: &mut Guesses<'_>,
) -> ReplyBindings
    ensures filled { held result out.new
        ≡ fill (held reply out.old) (bindings_in_round table.now 0 (take count bindings.old)) }
    ensures left { result.left ≢ 0 → bindings.new ≡ drop count bindings.old }
{
    let mut reply = reply;
    'singles: for _ in 0..count {
        let Some(asked) = bindings.next_ref() else {
            return reply;
        };
        reply = append_next(table, &asked, reply, out, hint);
        if reply.is_full() {
            return reply;
        }
    }
    reply
}

/// Appends the rounds of `bindings`, the repeating ones: at most `repetitions` rounds.
fn append_repeaters<'a>(
    table: &'a Table,
    repetitions: usize,
    bindings: Bindings<'a>,
    reply: ReplyBindings,
    out: &mut [u8; MAX_DATAGRAM],
    hint: &mut Guesses<'_>,
) -> ReplyBindings
    ensures { held result out.new ≡ fill (held reply out.old)
        (joined (rounds_from table.now bindings.entry 0 repetitions)) }
{
    let mut others = bindings.remaining();
    match (others.next_ref(), others.next_ref()) {
        (Some(only), None) => append_column(table, repetitions, only, reply, out, hint),
        _ => append_columns(table, repetitions, bindings, reply, out, hint),
    }
}

/// Appends the rounds of a single binding, as a walk requests them. Each round begins at the row
/// that the previous one returned, so only the first may search. Records the position that it
/// reaches in `hint`, mostly the position of the last row returned. If the rows end, it may record
/// nothing.
fn append_column<'a>(
    table: &'a Table,
    repetitions: usize,
    asked: BindingRef<'a>,
    reply: ReplyBindings,
    out: &mut [u8; MAX_DATAGRAM],
    hint: &mut Guesses<'_>,
) -> ReplyBindings
    ensures { held result out.new ≡ fill (held reply out.old)
        (joined (rounds_from table.now (asked.entry ∷ []) 0 repetitions)) }
{
    let mut reply = reply;
    let mut cursor = Cursor::of_walk(table, asked.name(), hint);
    'rounds: for _ in 0..repetitions {
        let is_last = cursor.is_at_end();
        let left = cursor.remaining_counts();
        let total = reply.total;
        reply = cursor.append_next(reply, out);
        if reply.is_full() {
            hint.keep_last(if reply.total == total {
                left
            } else {
                cursor.remaining_counts()
            });
            return reply;
        }
        if is_last {
            return reply;
        }
    }
    hint.keep_last(cursor.remaining_counts());
    reply
}

/// Appends the rounds of any number of bindings. The positions of the first [`MAX_CURSORS`] are
/// stored from one round to the next.
fn append_columns<'a>(
    table: &'a Table,
    repetitions: usize,
    bindings: Bindings<'a>,
    reply: ReplyBindings,
    out: &mut [u8; MAX_DATAGRAM],
    hint: &mut Guesses<'_>,
) -> ReplyBindings
    ensures { held result out.new ≡ fill (held reply out.old)
        (joined (rounds_from table.now bindings.entry 0 repetitions)) }
{
    let mut others = bindings.remaining();
    let mut cursors = ArrayVec::new();
    push_cursors(table, &mut others, &mut cursors, hint);
    let cursors = cursors.as_mut_slice();
    append_rounds(table, repetitions, &bindings, cursors, others, reply, out)
}

/// Takes bindings and appends their positions to `cursors`, until there are [`MAX_CURSORS`] or no
/// binding is left.
fn push_cursors<'a>(
    table: &'a Table,
    bindings: &mut Bindings<'a>,
    cursors: &mut ArrayVec<Cursor<'a>, MAX_CURSORS>,
    hint: &mut Guesses<'_>,
)
    requires { cursors.old.items ≡ [] }
    ensures { cursors.new.items ++ cursors_of table.now 0 bindings.new
        ≡ cursors_of table.now 0 bindings.old }
{
    'names: while !cursors.is_full() {
        let Some(asked) = bindings.next_ref() else {
            return;
        };
        cursors.push(Cursor::new(table, asked.name(), hint));
    }
}

/// Appends the rounds of `bindings`. The first bindings have the positions `cursors`, which each
/// round updates, so their names aren't searched. The names of the remaining bindings, `others`,
/// are searched in each round.
fn append_rounds<'a>(
    table: &'a Table,
    repetitions: usize,
    bindings: &Bindings<'a>,
    cursors: &mut [Cursor<'a>],
    others: Bindings<'a>,
    reply: ReplyBindings,
    out: &mut [u8; MAX_DATAGRAM],
) -> ReplyBindings
    requires { cursors.old ++ cursors_of table.now 0 others ≡ cursors_of table.now 0 bindings.now }
    ensures { held result out.new ≡ fill (held reply out.old)
        (joined (rounds_from table.now bindings.now 0 repetitions)) }
{
    let mut reply = reply;
    'rounds: for round in 0..repetitions {
        let (end, is_over) = append_round(table, round, cursors, others.remaining(), reply, out);
        reply = end;
        if is_over {
            return reply;
        }
    }
    reply
}

/// Appends what a GetNext returns from each of `cursors`, and moves each past the row returned, if
/// any. Then appends, for each of `others`, what a GetNext returns from the position that its name
/// has after `round` rounds. Stops once no room is left: the other cursors aren't moved. Also
/// returns whether no round follows: no room is left, or no row was left at any position.
fn append_round<'a>(
    table: &'a Table,
    round: usize,
    cursors: &mut [Cursor<'a>],
    mut others: Bindings<'a>,
    reply: ReplyBindings,
    out: &mut [u8; MAX_DATAGRAM],
) -> (ReplyBindings, bool)
    ensures filled { held result.0 out.new ≡ fill (held reply out.old)
        (map next_at (cursors.old ++ cursors_of table.now round others.entry)) }
    ensures last { result.1 ≡ true → (result.0.left ≡ 0)
        ⊎ (list_all is_over (cursors.old ++ cursors_of table.now round others.entry) ≡ true) }
    ensures goes { result.1 ≡ false
        → list_all is_over (cursors.old ++ cursors_of table.now round others.entry) ≡ false }
    ensures moved { result.1 ≡ false → cursors.new ≡ map passed cursors.old }
{
    let mut reply = reply;
    let mut are_over = are_at_end(cursors);
    'cursors: for cursor in cursors.iter_mut() {
        reply = cursor.append_next(reply, out);
        if reply.is_full() {
            return (reply, true);
        }
    }
    'others: while let Some(asked) = others.next_ref() {
        let mut cursor = Cursor::after_rounds(table, asked.name(), round);
        let is_last = cursor.is_at_end();
        are_over = are_over && is_last;
        reply = cursor.append_next(reply, out);
        if reply.is_full() {
            return (reply, true);
        }
    }
    (reply, are_over)
}

/// Returns whether no row is left at any of `cursors`.
fn are_at_end(cursors: &[Cursor<'_>]) -> bool
    ensures { result ≡ list_all is_over cursors.now }
{
    'cursors: for cursor in cursors {
        if !cursor.is_at_end() {
            return false;
        }
    }
    true
}
