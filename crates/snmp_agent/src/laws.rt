//! Laws of tables and of agents. Each is a function that does nothing; its caller's proof may use
//! its clauses.
ghost use Rattle.std.specs.Prelude.{◌≡◌, ◌≢◌, ◌≤◌, ◌↔◌, ℕ, List};
ghost use Rattle.snmp_wire.specs.Shortest.{IsShortestEncoding};
ghost use Rattle.snmp_agent.specs.Reply.{Agent, IsReply, IsDropped};
ghost use Rattle.snmp_agent.specs.table.Exact.{HasOne};
ghost use Rattle.snmp_agent.specs.table.Format.{IsMarked, Names, first_format};
ghost use Rattle.snmp_agent.specs.table.Stated.{AreTableBy, IsTableOf, IsFirstFault, IsTableIn};
ghost use Rattle.snmp_agent.specs.table.Stated.{IsFirstFaultIn};
ghost use Rattle.snmp_agent.specs.table.Table.{MibView, IsGet, IsMibView, IsNext, IsNextAfter};
ghost use Rattle.snmp_agent.specs.table.Table.{IsRow, with_row, without_row};
ghost use Rattle.snmp_wire.specs.Message.{Datum, VarBind};

use crate::config::DropReason;
use crate::table::TableError;
use snmp_oid::{names, order};
use snmp_wire::{
    element_sizes, encoding_is_of_type, message_sizes, one_shortest_encoding, one_spelling,
};

/// If each line is good, and no two are rows of the same name (`AreTableBy`), then the lines
/// define a table, and it is a MIB view.
pub fn table_of_lines()
    ensures { (names : Names) (lines : List (List ℕ)) → AreTableBy names lines
        → (view : MibView) × IsTableOf names lines view × IsMibView view }
{
    names();
}

/// Lines define at most one table.
pub fn one_table()
    ensures { (names : Names) (lines : List (List ℕ)) (v w : MibView) → IsTableOf names lines v
        → IsTableOf names lines w → v ≡ w }
{}

/// Lines that define a table have no fault: reading them fails only if memory runs out.
pub fn no_fault()
    ensures { (names : Names) (lines : List (List ℕ)) (view : MibView) (fault : TableError)
        → IsTableOf names lines view → IsFirstFault names lines fault → fault ≡ TableError.Memory }
{}

/// Lines have at most one first fault, apart from a lack of memory: the first faulty line, and
/// what is wrong with it.
pub fn one_fault()
    ensures { (names : Names) (lines : List (List ℕ)) (fault other : TableError)
        → IsFirstFault names lines fault → IsFirstFault names lines other
        → fault ≢ TableError.Memory → other ≢ TableError.Memory → fault ≡ other }
{}

/// If lines don't begin with the mark of the second format, `#snmptab 2`, then the first format
/// decides which table they define, if any, and what their first fault is. The names of the
/// second format make no difference.
pub fn unmarked_table()
    ensures table { (names : Names) (lines : List (List ℕ)) (view : MibView)
        → (IsMarked lines → ⊥) → (IsTableOf names lines view ↔ IsTableIn first_format lines view) }
    ensures fault { (names : Names) (lines : List (List ℕ)) (fault : TableError)
        → (IsMarked lines → ⊥)
        → (IsFirstFault names lines fault ↔ IsFirstFaultIn first_format lines fault) }
{}

/// A Get of a name has exactly one result, a GetNext of a name has exactly one, and a name has
/// exactly one in each round of a GetBulk (RFC 3416, sections 4.2.1 to 4.2.3).
pub fn one_answer()
    ensures get { (view : MibView) (o : List ℕ) → HasOne (IsGet view o) }
    ensures get_next { (view : MibView) (o : List ℕ) → HasOne (IsNext view o) }
    ensures get_bulk { (view : MibView) (rounds : ℕ) (o : List ℕ)
        → HasOne (IsNextAfter view rounds o) }
{
    order();
}

/// Changes of one row. A Get of a name that was put returns its value, no row has a name that was
/// removed, and Gets of other names are unchanged (RFC 3416, section 4.2.1). To put a row and then
/// remove it is to remove its name. A put and a removal of two different names may be exchanged.
pub fn changed_rows()
    ensures put { (view : MibView) (o : List ℕ) (v : Datum)
        → IsGet (with_row view o v) o (record { name = o; value = v }) }
    ensures put_elsewhere { (view : MibView) (o q : List ℕ) (v : Datum) (p : VarBind) → q ≢ o
        → IsGet (with_row view o v) q p ↔ IsGet view q p }
    ensures removed { (view : MibView) (o : List ℕ) (p : VarBind)
        → IsRow (without_row view o) p → p.name ≢ o }
    ensures removed_elsewhere { (view : MibView) (o q : List ℕ) (p : VarBind) → q ≢ o
        → IsGet (without_row view o) q p ↔ IsGet view q p }
    ensures put_and_removed { (view : MibView) (o : List ℕ) (v : Datum)
        → without_row (with_row view o v) o ≡ without_row view o }
    ensures two_names { (view : MibView) (o q : List ℕ) (v : Datum) → q ≢ o
        → without_row (with_row view o v) q ≡ with_row (without_row view q) o v }
{}

/// An agent has at most one reply to a datagram, and none to a datagram that it drops.
pub fn one_reply()
    ensures one { (agent : Agent) (datagram a b : List ℕ) → IsReply agent datagram a
        → IsReply agent datagram b → a ≡ b }
    ensures none { (agent : Agent) (datagram reply : List ℕ) (why : DropReason)
        → IsReply agent datagram reply → IsDropped agent datagram why → ⊥ }
{
    one_answer();
    one_spelling();
}

/// A reply is the shortest encoding of its Response: it is strict (unsigned numbers too are in
/// two's complement), and every other strict encoding is longer. The agent must serve a MIB view,
/// as a table is ([`Table::is_mib_view`](crate::Table::is_mib_view)), with messages of at most
/// 65535 octets; a configuration allows at most 65507.
pub fn shortest_reply()
    ensures shortest { (agent : Agent) (datagram octets : List ℕ) → IsMibView agent.view
        → agent.max_size ≤ 65535 → (reply : IsReply agent datagram octets)
        → IsShortestEncoding octets reply.response }
    ensures only { (agent : Agent) (datagram octets : List ℕ) → IsMibView agent.view
        → agent.max_size ≤ 65535 → (reply : IsReply agent datagram octets) (other : List ℕ)
        → IsShortestEncoding other reply.response → other ≡ octets }
{
    element_sizes();
    message_sizes();
    one_shortest_encoding();
    encoding_is_of_type();
}
