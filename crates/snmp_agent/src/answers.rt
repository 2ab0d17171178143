//! The bindings of the reply to a Get, a GetNext or a Set, one for each binding of the request.
//!
//! They are written to the start of the output, one after the other. Once all are written, they
//! are moved to make room for the head.
ghost use Rattle.std.specs.{Prelude.◌≡◌, Prelude.◌≤◌, Prelude.length, FinMap.get};
ghost use Rattle.snmp_agent.specs.private.Answering.{AreWritable, IsWritable, add};
ghost use Rattle.snmp_agent.specs.private.Answering.{answer_to, answers_to, fill, held};
ghost use Rattle.snmp_agent.specs.private.Cursor.{next_at, cursor_of};
ghost use Rattle.snmp_agent.specs.table.Listing.{got_at};

use crate::cursor::{Previous, append_end};
use crate::room::ReplyBindings;
use crate::table::{Guesses, Table};
use snmp_oid::order;
use snmp_wire::{Binding, BindingRef, Bindings, Kind, MAX_DATAGRAM};

/// Appends the bindings of the reply to a request, until one has no room.
pub fn append_answers<'a>(
    table: &'a Table,
    kind: Kind,
    mut bindings: Bindings<'a>,
    reply: ReplyBindings,
    out: &mut [u8; MAX_DATAGRAM],
    hint: &mut Guesses<'_>,
) -> ReplyBindings
    requires { AreWritable bindings }
    ensures { held result out.new
        ≡ fill (held reply out.old) (answers_to table.now kind bindings.entry) }
{
    let mut reply = reply;
    'bindings: while let Some(asked) = bindings.next_ref() {
        reply = append_answer(table, kind, &asked, reply, out, hint);
        if reply.is_full() {
            return reply;
        }
    }
    reply
}

/// Appends what the reply to a request of this kind has for one binding of the request: the result
/// of a Get or of a GetNext of its name, or for a Set the binding itself.
fn append_answer(
    table: &Table,
    kind: Kind,
    asked: &BindingRef<'_>,
    reply: ReplyBindings,
    out: &mut [u8; MAX_DATAGRAM],
    hint: &mut Guesses<'_>,
) -> ReplyBindings
    requires { IsWritable asked.now }
    ensures { held result out.new
        ≡ add (held reply out.old) (answer_to table.now kind asked.now) }
{
    order();
    match kind {
        Kind::GetRequest => append_get(table, asked, reply, out, hint),
        Kind::GetNextRequest => append_next(table, asked, reply, out, hint),
        _ => append_same(asked, reply, out),
    }
}

/// Appends what a Get of the name of `asked` returns, if there is room for it.
fn append_get(
    table: &Table,
    asked: &BindingRef<'_>,
    reply: ReplyBindings,
    out: &mut [u8; MAX_DATAGRAM],
    hint: &mut Guesses<'_>,
) -> ReplyBindings
    ensures { held result out.new ≡ add (held reply out.old) (got_at table.now asked.now.name) }
{
    match table.rows.find_near(&asked.name(), hint) {
        Some(row) => reply.append_row(out, row),
        None => append_exception(table, asked, reply, out),
    }
}

/// Appends the exception that a Get of the name of `asked` returns if no row has that name. Appends
/// it only if there is room for it.
/// `inline(never)`: its local `Binding`, of over a thousand octets, is zeroed when the function
/// begins; inlined, it would be zeroed for each name of a Get.
#[inline(never)]
#[tactic(auto, using(crate::proofs::Encodings::answer_value, crate::proofs::Each::same_get, crate::proofs::Each::is_got))]
fn append_exception(
    table: &Table,
    asked: &BindingRef<'_>,
    reply: ReplyBindings,
    out: &mut [u8; MAX_DATAGRAM],
) -> ReplyBindings
    requires { get table.now.rows asked.now.name ≡ None }
    ensures { held result out.new ≡ add (held reply out.old) (got_at table.now asked.now.name) }
{
    let mut binding = Binding::empty();
    let name = asked.name();
    // By its contract, this call shows that the name has an encoding.
    let _content = name.content();
    name.read_into(&mut binding.name);
    binding.value = table.exception(&binding.name);
    reply.append(out, &binding)
}

/// Appends what a GetNext of the name of `asked` returns, if there is room for it. If that is a
/// row, records its position in `hint`.
pub fn append_next(
    table: &Table,
    asked: &BindingRef<'_>,
    reply: ReplyBindings,
    out: &mut [u8; MAX_DATAGRAM],
    hint: &mut Guesses<'_>,
) -> ReplyBindings
    ensures { held result out.new
        ≡ add (held reply out.old) (next_at (cursor_of table.now 0 asked.now.name)) }
{
    let name = asked.name();
    let mut rows = table.rows.after_last(&name, hint);
    match rows.next_row() {
        Some(row) => {
            hint.keep_last(rows.remaining_counts());
            reply.append_row(out, row)
        }
        None => append_end(&Previous::Asked(name), reply, out),
    }
}

/// Appends a binding of a request unchanged. `inline(never)`: its local `Binding`, of over a
/// thousand octets, is zeroed when the function begins; inlined, it would be zeroed for each
/// binding of any request.
#[inline(never)]
fn append_same(
    asked: &BindingRef<'_>,
    reply: ReplyBindings,
    out: &mut [u8; MAX_DATAGRAM],
) -> ReplyBindings
    requires { IsWritable asked.now }
    ensures { held result out.new ≡ add (held reply out.old) asked.now }
{
    let mut binding = Binding::empty();
    asked.read_into(&mut binding);
    reply.append(out, &binding)
}
