//! A sink of one's own that stores no rows: it counts the rows of each column of a table.
ghost use Rattle.std.specs.Prelude.{◌≡◌, ◌≤◌, ◌<◌, ◌^◌, ◌↔◌, ◌++◌, ◌∷◌, [], ℕ, List, length};
ghost use Rattle.std.specs.Prelude.{IfOk, IfErr, IfSome, IfNone, IsOk};
ghost use Rattle.snmp_oid.specs.Identifier.{IsBelow, IsWire, wire};
ghost use Rattle.snmp_wire.specs.Message.{VarBind};
ghost use Rattle.snmp_agent.specs.table.Table.{MibView};
ghost use Rattle.snmp_walk.specs.{Ordered.AreOrdered, RunResult.HasHappened};
ghost use Rattle.snmp_walk.specs.{RunResult.IsHonestFrom, WalkState.IsMethod};
ghost use Rattle.uses.specs.Columns.{AreCounted, AreCountsOf};

use snmp_walk::{
    Link, Method, Mode, Sink, SinkFault, StartError, WalkCore, WalkEnd, instances_below,
    names_below, parts_of_lists, run_walk,
};
use snmp_wire::{Binding, Oid};
use std::alloc::Global;
use std::collections::BTreeMap;

/// The number of instances of each column of a table. As a sink it counts rows, and stores none.
///
/// The identifier of a column is the identifier of the table's entry with a number appended
/// (RFC 2578, section 7.1.12). [`ColumnCounts::count`] takes this number: for `ifDescr`, 2.
#[derive(Drop)]
pub struct ColumnCounts {
    /// The identifier of the entry.
    entry: Oid,
    /// For each column with instances, how many were counted.
    counts: BTreeMap<u32, u64>,
}

impl ColumnCounts {
    ghost use Rattle.std.specs.Prelude.{◌≡◌, ℕ};
    ghost use Rattle.uses.specs.Columns.{count_of, entry_of};

    /// Returns counts for the table with this entry. All of them are 0. Takes memory from `alloc`
    /// only when the first instance of a column is counted.
    pub fn new(alloc: Global, entry: Oid) -> ColumnCounts
        ensures entry { entry_of result ≡ entry }
        ensures none { (number : ℕ) → count_of result number ≡ 0 }
    {
        ColumnCounts {
            entry,
            counts: BTreeMap::new(alloc),
        }
    }

    /// Returns how many instances were counted of the column with this number.
    pub fn count(&self, number: u32) -> u64
        ensures { result ≡ count_of self.now number }
    {
        self.counts.get(&number).copied().unwrap_or(0)
    }
}

impl Sink for ColumnCounts {
    ghost use Rattle.uses.specs.Columns.{CountsRow};

    // An instance of a column is counted. If its count can't be stored, it is refused, which ends
    // the walk. Any other row changes no count.
    ghost takes = { CountsRow };

    fn row(&mut self, binding: &Binding<'_>) -> Result<(), SinkFault> {
        names_below();
        let Some(number) = column_of(&self.entry, &binding.name) else {
            return Ok(());
        };
        let Some(count) = self.count(number).checked_add(1) else {
            return Err(SinkFault::Memory);
        };
        match self.counts.insert(number, count) {
            Ok(_) => Ok(()),
            Err(_) => Err(SinkFault::Memory),
        }
    }
}

/// Returns the number of the column that `name` is below, or `None` if it is below no column of
/// this entry.
fn column_of(entry: &Oid, name: &Oid) -> Option<u32>
    ensures some { IfSome result (λ number. IsBelow name.now (entry.now ++ number ∷ [])) }
    ensures none { IfNone result ((number : ℕ) → IsBelow name.now (entry.now ++ number ∷ []) → ⊥) }
{
    if !name.is_below(entry) {
        return None;
    }
    let (_, after) = name.as_slice().split_at(entry.len());
    match after {
        [number, _, ..] => Some(*number),
        _ => None,
    }
}

/// Counts the instances of each column of a table that the agent at the other end of a link has.
/// `entry` is the identifier of the table's entry, such as the identifier of `ifEntry`.
///
/// It sends the requests of a [`poll`](crate::poll) of `entry`, and ends as a poll does. What the
/// counts are depends on the link:
///
/// - `table`: over an honest link they count the instances below the entry in the agent's table,
///   or the first of them if the poll isn't done (`AreCounted`). This holds if the agent has one
///   table, and earlier requests over the link had lower ids.
/// - `happened`: over any link the same holds if all that arrived are replies of a lawful agent
///   (`AreLawful`) with one table to what was sent.
/// - `rising`: whatever arrives, no instance is counted twice.
pub fn count_columns<L: Link>(
    alloc: Global,
    link: &mut L,
    entry: Oid,
    method: Method,
    community: &[u8],
    retries: u32,
    first_id: u32,
) -> Result<(WalkEnd, ColumnCounts), StartError>
    requires method { IsMethod method }
    requires community { length community.now ≤ 255 }
    requires first_id { first_id < 2 ^ 31 }
    ensures table { IfOk result (λ counted. (view : MibView)
        → IsHonestFrom L.Link first_id link.old → (L.agents link.old).tables ≡ view ∷ []
        → AreCounted view entry counted.0 counted.1) }
    ensures happened { IfOk result (λ counted. HasHappened L.Link link.old link.new counted.0
        (λ agents why. (view : MibView) → agents.tables ≡ view ∷ []
        → AreCounted view entry why counted.1)) }
    ensures rising { IfOk result (λ counted. (rows : List VarBind) × AreOrdered rows
        × AreCountsOf entry rows counted.1) }
    ensures agents { L.agents link.new ≡ L.agents link.old }
    ensures variant { IsOk result ↔ IsWire (wire entry) }
    ensures unchanged_on_error { IfErr result (λ why. (why ≡ StartError.NotWire)
        × (link.new ≡ link.old)) }
{
    instances_below();
    names_below();
    parts_of_lists();
    let mut counts = ColumnCounts::new(alloc, entry.copy());
    match WalkCore::start(entry, Mode::NoLast, method, community, first_id) {
        Ok(core) => {
            let end = run_walk(link, core, retries, &mut counts);
            Ok((end, counts))
        }
        Err(fault) => Err(fault),
    }
}
