//! snmpd and a walk or a Get at the two ends of one network in memory, and what is printed.
//!
//! The walk runs first, over a network that records each datagram that is sent or arrives at one of
//! its ends ([`RecordedNetwork`]). There the agent of a table that the caller passes replies to it.
//! Then snmpd runs at the agent's end of this record: the same datagrams arrive in the same order,
//! and each reply that the agent sent must be sent again. So the two command lines are at the ends
//! of one run, although only one of them runs at a time.
ghost use Rattle.std.specs.Prelude.{◌≡◌, ℕ, List, [], IfSome};
ghost use Rattle.std.specs.Str.Lines.{lines};
ghost use Rattle.snmp_wire.specs.Message.{VarBind};
ghost use Rattle.snmp_words.specs.Words.{ServeWords, StateJob, Stated, WalkWords, snmpd, snmpwalk};
ghost use Rattle.snmp_words.specs.Words.{texts_at};
ghost use Rattle.snmp_tools.specs.BothEnds.{IsAskOfServer, IsWalkInNumbers};
ghost use Rattle.snmp_tools.specs.{Question.AskWords, TableWalk.HoldsTableFile, Usage.AreFaultless};
ghost use Rattle.snmp_tools_tests.specs.Printed.{Asks, PrintsRowsOf, PrintsWalk};

mod recorded;
mod replay;
#[cfg(test)]
mod tests;
mod walk;

pub use recorded::RecordedNetwork;
use replay::{ReplayDoor, ReplayLinks};
use snmp_io::memory::MemoryOutput;
use snmp_tools::{Files, Output, served_tables, served_walks_in_numbers, tool};
use std::alloc::Global;
pub use walk::WalkLinks;

/// Runs a command line that asks an agent, and then the command line of snmpd, at the two ends of
/// one network. Both read the same files. Returns the exit status of the first.
///
/// Returns `None` if snmpd doesn't end with status 0, has too few turns for the run, or doesn't
/// send each reply that the agent of `links` sent. If snmpd replies to a request to which that
/// agent sent nothing, the send fails, and the run continues. Each datagram that is sent or arrives
/// at the walk's end takes one turn of snmpd, and so does each request that arrives at its own end.
pub fn walk_and_serve<F: Files, O: Output, E: Output>(
    alloc: Global,
    links: WalkLinks<'_>,
    files: &F,
    asking: &[&str],
    serving: &[&str],
    out: &mut O,
    err: &mut E,
) -> Option<u8>
    // Nothing has happened on the network.
    requires new { links.network.run ≡ [] }
    // If a status is returned, what is printed is a prefix of the lines of the rows that are asked
    // for, in order, with -Cp followed by the line of their number. The rows are those of the table
    // that snmpd serves, whatever the network loses, repeats and delays. At status 0 all of this is
    // printed.
    ensures printed { IfSome result (λ status. (job : Stated) (words : AskWords)
        (served : ServeWords) (rows : List VarBind)
        (ask : IsAskOfServer words (F.text_at files.now) served (F.text_at files.now) rows)
        → AreFaultless (texts_at asking.now) → StateJob (texts_at asking.now) job → Asks job words
        → AreFaultless (texts_at serving.now) → StateJob (texts_at serving.now) (snmpd served)
        → PrintsRowsOf ask.mib ask.plan rows (O.stream out.old) (O.stream out.new) status) }
    // The same for `snmpwalk -On AGENT ROOT` with the root in numbers, and a table file without the
    // mark `#snmptab 2`, if neither command line has module files. The rows are those of the table
    // file below the root. If there are none, the binding that a Get of the root returns is
    // printed.
    ensures in_numbers { IfSome result (λ status. (words : WalkWords) (served : ServeWords)
        (root text : List ℕ) → IsWalkInNumbers words root → served.mibs ≡ []
        → HoldsTableFile (F.text_at files.now) served.table root text
        → AreFaultless (texts_at asking.now) → StateJob (texts_at asking.now) (snmpwalk words)
        → AreFaultless (texts_at serving.now) → StateJob (texts_at serving.now) (snmpd served)
        → PrintsWalk (lines text) root (O.stream out.old) (O.stream out.new) status) }
{
    served_tables::<WalkLinks<'_>, ReplayLinks<'_>, ReplayDoor<'_>>();
    served_walks_in_numbers();
    let mut links = links;
    let status = tool(alloc, asking, files, &mut links, out, err);
    let mut server_out = MemoryOutput::new(alloc);
    let mut server_err = MemoryOutput::new(alloc);
    let mut replay = ReplayLinks::new(links.network.entries());
    let server_status = tool(
        alloc,
        serving,
        files,
        &mut replay,
        &mut server_out,
        &mut server_err,
    );
    if server_status == 0 && replay.is_done {
        Some(status)
    } else {
        None
    }
}
