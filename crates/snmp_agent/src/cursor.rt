//! The position of each repeating name of a GetBulk among the rows of a table.
ghost use Rattle.std.specs.Prelude.{◌≡◌};
ghost use Rattle.snmp_oid.specs.Identifier.{IsWire};
ghost use Rattle.snmp_wire.specs.Message.{end_of_mib_view};
ghost use Rattle.snmp_agent.specs.private.Answering.{add, held};
ghost use Rattle.snmp_agent.specs.private.Cursor.{name_of};

use crate::room::ReplyBindings;
use crate::table::{Guesses, Successors, Table};
use snmp_wire::{Binding, EncodedBinding, EncodedName, MAX_DATAGRAM, Oid, ValueRef};
use std::marker::Model;

/// The last row that a GetBulk returned for a repeating name.
#[derive(Drop)]
pub enum Previous<'a> {
    /// No name was requested: the default, for arrays of positions. The name of a position always
    /// has an encoding, so the default has the name 0.0.
    Nothing,
    /// No row yet. Holds the name in the request.
    Asked(EncodedName<'a>),
    /// This row.
    Row(&'a EncodedBinding),
}

impl Previous<'_> {
    /// Reads into `into` the name of the row, or the name in the request, or 0.0 if there is
    /// neither. The calls of `content` show, by its contract, that the name has an encoding.
    fn read_name(&self, into: &mut Oid)
        ensures name { into.new ≡ name_of self.now }
        ensures wire { IsWire into.new }
    {
        match self {
            Previous::Nothing => into.set_to_numbers(&[0, 0]),
            Previous::Asked(name) => {
                let _content = name.content();
                name.read_into(into);
            }
            Previous::Row(row) => {
                let name = row.name();
                let _content = name.content();
                name.read_into(into);
            }
        }
    }
}

/// The position of a repeating name of a GetBulk among the rows of the table.
#[derive(Drop)]
pub struct Cursor<'a> {
    /// The last row that was returned for the name.
    previous: Previous<'a>,
    /// The rows after the row that was returned last, or after the name in the request.
    rows: Successors<'a>,
}

impl<'a> Model for Cursor<'a> {
    ghost use Rattle.snmp_agent.specs.private.Cursor.{CursorView, name_of};

    ghost Value = { CursorView };

    ghost view = { λ p. record { name = name_of p.previous; rows = p.rows } };
}

impl<'a> Default for Cursor<'a> {
    ghost use Rattle.std.specs.Prelude.{◌≡◌, ◌∷◌, []};

    ghost is_default = { λ cursor. cursor.name ≡ 0 ∷ 0 ∷ [] };

    fn default() -> Cursor<'a> {
        Cursor {
            previous: Previous::Nothing,
            rows: Successors::default(),
        }
    }
}

impl<'a> Cursor<'a> {
    ghost use Rattle.std.specs.Prelude.{◌≡◌};
    ghost use Rattle.snmp_agent.specs.private.Answering.{add, held};
    ghost use Rattle.snmp_agent.specs.private.Cursor.{is_over, next_at, passed, cursor_of};

    /// Returns the position of a name of a request before the first round.
    pub fn new(table: &'a Table, name: EncodedName<'a>, hint: &mut Guesses<'_>) -> Cursor<'a>
        ensures { result ≡ cursor_of table.now 0 name.entry }
    {
        let rows = table.rows.after_near(&name, hint);
        Cursor {
            previous: Previous::Asked(name),
            rows,
        }
    }

    /// Does what [`Cursor::new`] does for the name that a walk requests: mostly the name of the
    /// last row returned.
    pub fn of_walk(table: &'a Table, name: EncodedName<'a>, hint: &mut Guesses<'_>) -> Cursor<'a>
        ensures { result ≡ cursor_of table.now 0 name.entry }
    {
        let rows = table.rows.after_last(&name, hint);
        Cursor {
            previous: Previous::Asked(name),
            rows,
        }
    }

    /// Returns the position of a name of a request after `rounds` rounds.
    pub fn after_rounds(table: &'a Table, name: EncodedName<'a>, rounds: usize) -> Cursor<'a>
        ensures { result ≡ cursor_of table.now rounds name.entry }
    {
        let mut rows = table.after(&name);
        match rows.skip_rows(rounds) {
            Some(row) => Cursor {
                previous: Previous::Row(row),
                rows,
            },
            None => Cursor {
                previous: Previous::Asked(name),
                rows,
            },
        }
    }

    /// Returns the number of rows left on the current page, and the number of pages after it.
    #[inline]
    pub fn remaining_counts(&self) -> (usize, usize) {
        self.rows.remaining_counts()
    }

    /// Returns whether no row is left. The name then gets `EndOfMibView`.
    #[inline]
    pub fn is_at_end(&self) -> bool
        ensures { result ≡ is_over self.now }
    {
        self.rows.is_empty()
    }

    /// Appends to `reply` the binding that a GetNext from this position returns, if it fits, and
    /// moves to that row in any case. If no row is left, the binding has `EndOfMibView` and the
    /// position stays.
    #[inline]
    pub fn append_next(
        &mut self,
        reply: ReplyBindings,
        out: &mut [u8; MAX_DATAGRAM],
    ) -> ReplyBindings
        ensures added { held result out.new ≡ add (held reply out.old) (next_at self.old) }
        ensures moved { self.new ≡ passed self.old }
    {
        match self.rows.next_row() {
            Some(row) => {
                self.previous = Previous::Row(row);
                reply.append_row(out, row)
            }
            None => append_end(&self.previous, reply, out),
        }
    }
}

/// Appends the name of the last row returned, or the name in the request if there is none, with
/// `EndOfMibView`. `inline(never)`: its local `Binding`, of over a thousand octets, is zeroed when
/// the function begins; inlined, it would be zeroed for each row that is appended.
#[inline(never)]
pub fn append_end(
    previous: &Previous<'_>,
    reply: ReplyBindings,
    out: &mut [u8; MAX_DATAGRAM],
) -> ReplyBindings
    ensures { held result out.new ≡ add (held reply out.old)
        (record { name = name_of previous.now; value = end_of_mib_view }) }
{
    let mut binding = Binding::empty();
    previous.read_name(&mut binding.name);
    binding.value = ValueRef::EndOfMibView;
    reply.append(out, &binding)
}
