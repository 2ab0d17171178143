//! Laws about command lines and what is promised of them.
ghost use Rattle.std.specs.Prelude.{◌≡◌, ℕ, List, [], false, true};
ghost use Rattle.std.specs.Str.Lines.{lines};
ghost use Rattle.snmp_io.specs.{Files.Holdings, Output.Stream};
ghost use Rattle.snmp_words.specs.Command.{is_taken};
ghost use Rattle.snmp_words.specs.Words.{ServeWords, StateJob, WalkWords, snmpd, snmpwalk};
ghost use Rattle.snmp_wire.specs.Message.{VarBind};
ghost use Rattle.snmp_tools.specs.BothEnds.{IsAskInNumbers, IsAskOfServer, IsWalkInNumbers};
ghost use Rattle.snmp_tools.specs.BothEnds.{PrintsServed, ServesInTurn};
ghost use Rattle.snmp_tools.specs.{Done.IsAskDone, Done.IsServeRun, Headline.WritesRowsOf};
ghost use Rattle.snmp_tools.specs.{Question.AskWords, Question.of_walk, Seen.Seen};
ghost use Rattle.snmp_tools.specs.load.Loaded.{any_load};
ghost use Rattle.snmp_tools.specs.private.Planned.{numeric_walk};
ghost use Rattle.snmp_tools.specs.TableWalk.{HoldsTableFile, PrintsRows, table_walk};

use crate::load::one_list_of_modules;
use crate::table_names::names_are_meant;
use smi_show::{numbers_are_read, one_meaning};
use smi_tree::{bare_tree, one_tree};
use snmp_agent::{Endpoint, one_answer, one_table, table_of_lines, unmarked_table};
use snmp_net::Links;
use snmp_net::memory::{MemoryDoor, MemoryLinks};
use snmp_walk::{honest_networks, instances_below, short_rows_have_room};
use snmp_words::walks_are_taken;

/// The command line `snmpwalk -On table:PATH ROOT`, with ROOT in numbers, is accepted and asks for
/// that walk. If the file at PATH is known to hold a table in the first format, and ROOT can be
/// sent (`HoldsTableFile`), then what is promised of every walk over a table (`WritesRowsOf`) says
/// which rows this one prints (`PrintsRows`).
///
/// A law: the call does nothing, and its caller may use what it ensures.
#[inline]
pub(crate) fn table_walks()
    ensures taken { (path root : List ℕ) → is_taken (table_walk path root) ≡ true }
    ensures stated { (path root : List ℕ)
        → StateJob (table_walk path root) (snmpwalk (numeric_walk path root)) }
    ensures printed { (files : Holdings) (path root text : List ℕ)
        (before after err_before err_after : Stream) (status : ℕ)
        → HoldsTableFile files path root text
        → WritesRowsOf (of_walk false (numeric_walk path root)) files before after
        err_before err_after status
        → PrintsRows (lines text) root before after err_before err_after status }
{
    walks_are_taken();
    numbers_are_read();
    names_are_meant();
    bare_tree();
    table_of_lines();
    unmarked_table();
    instances_below();
    one_answer();
    short_rows_have_room();
}

/// If `snmpd` serves a table file to a walk or a Get, and the network between them neither invents
/// nor alters datagrams, then the walk or Get prints a prefix of the lines that answer its
/// question, and nothing else. At status 0 it prints all of them. This follows from what
/// [`tool`](crate::tool) promises of the two command lines.
///
/// The network may lose, repeat, delay and reorder datagrams, as UDP may (RFC 768), and other
/// clients may ask snmpd. `L` opens the link of the walk, and `M` opens the door (server socket)
/// of snmpd. `D` is the door's endpoint, which receives and sends. Nothing relates AGENT to
/// `--listen`, except that what happened at the two ends is one run of the network.
///
/// It is known what the files hold, and snmpd has ended: if it served, it has served all its
/// turns. Nothing is said of when the status is 0. The premise `ServesInTurn` holds of links in
/// memory ([`memory_serves_in_turn`]). Of the machine's own network it isn't known, since its
/// `serves` says nothing.
///
/// A law: the call does nothing, and its caller may use what it ensures.
pub fn served_tables<L: Links, M: Links, D: Endpoint>()
    ensures printed { (endpoint_at : M.Door → D) (words : AskWords)
        (before after : Seen L) (status : ℕ) (serving : ServeWords)
        (server_before server_after : Seen M) (server_status : ℕ) (rows : List VarBind)
        (ask : IsAskOfServer words before.files serving server_before.files rows)
        → ServesInTurn M.Links endpoint_at D.happens
        → IsAskDone L.Links L.Wire.Link any_load words before after status
        → IsServeRun M.Links any_load serving server_before server_after
        server_status
        → PrintsServed L.Links L.Wire.Link M.Links endpoint_at D.happens words before after
        status serving server_before server_after server_status rows ask }
{
    instances_below();
    one_answer();
    one_table();
    table_of_lines();
    one_list_of_modules();
    one_tree();
    one_meaning();
    honest_networks::<D>();
}

/// Links in memory serve an agent as `ServesInTurn` says: in each turn a datagram arrives and is
/// replied to or dropped, or none arrives, or a receive or send fails. Each door (server socket)
/// in memory is its own endpoint.
///
/// A law: the call does nothing, and its caller may use what it ensures.
pub fn memory_serves_in_turn()
    ensures { ServesInTurn ⟦<MemoryLinks<'static> as Links>⟧ (λ door. door)
        ⟦<MemoryDoor<'static> as Endpoint>⟧.happens }
{}

/// Let `snmpd` serve a table file to `snmpwalk -On AGENT ROOT`, both without module files, with
/// ROOT in numbers (`IsWalkInNumbers`). If the file is known to hold a table in the first format,
/// and ROOT can be sent (`HoldsTableFile`), the walk asks for the rows of the file below the root.
/// If there are none, it asks for what a Get of the root returns. [`served_tables`] says what it
/// prints of these rows: their lines in numbers.
///
/// A law: the call does nothing, and its caller may use what it ensures.
pub fn served_walks_in_numbers()
    ensures asked { (words : WalkWords) (files : Holdings) (serving : ServeWords)
        (server_files : Holdings) (line : List (List ℕ)) (root text : List ℕ)
        → IsWalkInNumbers words root → StateJob line (snmpd serving) → serving.mibs ≡ []
        → HoldsTableFile server_files serving.table root text
        → IsAskInNumbers words files serving server_files (lines text) root }
{
    numbers_are_read();
    names_are_meant();
    bare_tree();
    table_of_lines();
    unmarked_table();
    instances_below();
    one_answer();
}
