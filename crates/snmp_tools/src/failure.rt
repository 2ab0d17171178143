//! Why a job wasn't done, with its message on standard error and its exit status.
ghost use Rattle.std.specs.Prelude.{◌≡◌, ◌++◌, ◌∷◌, codes, OnOk, OnErr};
ghost use Rattle.std.specs.Fmt.{signed_decimal};
ghost use Rattle.snmp_oid.specs.Numeric.{numeric_text};
ghost use Rattle.snmp_io.specs.Draft.{Adds};
ghost use Rattle.snmp_tools.specs.FaultText.{end_message, error_status_text, name_fault};
ghost use Rattle.snmp_tools.specs.FaultText.{status_name};
ghost use Rattle.snmp_tools.specs.FaultText.{table_message, fault_of, fault_message, status_of};
ghost use Rattle.snmp_tools.specs.FaultText.{modules_fault};
ghost use Rattle.snmp_tools.specs.load.FaultText.{refusal_of};
ghost use Rattle.snmp_tools.specs.declared.failure.Failure.TheVariants.{Memory};

use crate::load::{FilesError, at_line, unreadable_text};
use smi_show::NameError;
use snmp_agent::TableError;
use snmp_io::Draft;
use snmp_oid::{LONGEST_TEXT, Oid, write_numeric};
use snmp_walk::{SinkFault, WalkEnd};
use std::alloc::AllocError;

/// Why a job wasn't done. Holds the arguments that its message repeats.
#[derive(Debug, Drop)]
pub enum Failure<'a> {
    /// The version of SNMP (`-v`) isn't 2c.
    Version(&'a str),
    /// This octet has no meaning in the letters of `-O`, `-T` or `-C`.
    Letter(u8),
    /// The community has more than 255 octets.
    Community,
    /// AGENT, or the argument of `--listen`, isn't a valid address.
    Agent(&'a str),
    /// The argument isn't a name, for this reason.
    Name(&'a str, NameError),
    /// The module files can't be loaded, for this reason.
    Modules(FilesError<'a>),
    /// The table file at this path can't be read.
    Unreadable(&'a str),
    /// The table file at this path has this fault, or memory ran out while it was read.
    Table(&'a str, TableError),
    /// The name can't be sent: it has no encoding, even padded with zeros to two numbers.
    NotWire(&'a str),
    /// The name of `--after` is neither the root nor below it.
    AfterOutsideRoot(&'a str),
    /// The walk or Get of this agent ended early, or no link to it could be opened, or no socket
    /// could be opened at this address of `--listen`. The end says why.
    Ended(&'a str, WalkEnd),
    /// The output failed.
    Output,
    /// Memory ran out.
    Memory,
}

impl Failure<'_> {
    /// Returns the exit status: 2 if the agent replied with an error status, otherwise 1.
    pub fn status(&self) -> u8
        ensures { result ≡ status_of (fault_of self.now) }
    {
        match self {
            Failure::Ended(_, WalkEnd::Fault(_, _)) => 2,
            _ => 1,
        }
    }

    /// Appends the message, without a newline. Fails if memory runs out, with `out` unchanged.
    pub fn message(&self, out: &mut Vec<u8>) -> Result<(), AllocError>
        ensures appended { OnOk result (
            out.new.items ≡ out.old.items ++ fault_message (fault_of self.now)) }
        ensures unchanged_on_error { OnErr result (out.new.items ≡ out.old.items) }
    {
        let mut draft = Draft::after(out);
        self.append_message(&mut draft);
        draft.finish(out)
    }

    fn append_message(&self, out: &mut Draft)
        ensures { Adds out.old (fault_message (fault_of self.now)) out.new }
    {
        match self {
            Failure::Version(word) => text_and_word(out, b"Unknown version: ", word),
            Failure::Letter(letter) => two_texts(out, b"Unknown letter: ", &[*letter]),
            Failure::Community => out.octets(b"Community too long."),
            Failure::Agent(word) => text_and_word(out, b"Bad agent address: ", word),
            Failure::Name(text, error) => text_and_word(out, name_fault(error), text),
            Failure::Modules(why) => why.message(out),
            Failure::Unreadable(path) => unreadable_text(path, out),
            Failure::Table(path, fault) => table_message(fault, path, out),
            Failure::NotWire(text) => text_and_word(out, b"Name cannot be sent: ", text),
            Failure::AfterOutsideRoot(text) => text_and_word(out, b"Not below the root: ", text),
            Failure::Ended(agent, end) => end_message(end, agent, out),
            Failure::Output => out.octets(b"The output failed."),
            Failure::Memory => out.octets(b"Out of memory."),
        }
    }
}

impl<'a> From<FilesError<'a>> for Failure<'a> {
    ghost from_gives = { λ why failure. fault_of failure ≡ modules_fault (refusal_of why) };

    fn from(why: FilesError<'a>) -> Self {
        match why {
            FilesError::Unreadable(_) | FilesError::Text(_, _) => Failure::Modules(why),
            FilesError::Memory => Failure::Memory,
        }
    }
}

impl From<AllocError> for Failure<'_> {
    ghost from_gives = { λ _ failure. failure ≡ Memory };

    fn from(_error: AllocError) -> Self {
        Failure::Memory
    }
}

fn two_texts(out: &mut Draft, first: &[u8], second: &[u8])
    ensures { Adds out.old (first.now ++ second.now) out.new }
{
    out.octets(first);
    out.octets(second);
}

fn text_and_word(out: &mut Draft, text: &[u8], word: &str)
    ensures { Adds out.old (text.now ++ word.now) out.new }
{
    two_texts(out, text, word.as_bytes());
}

/// Returns the start of the message about a name: what is wrong with it.
fn name_fault<'a>(error: &NameError) -> &'a [u8]
    ensures { result.now ≡ name_fault error.now }
{
    match error {
        NameError::Unknown => b"Unknown name: ",
        NameError::BadIndex => b"Bad index: ",
        NameError::BadNumber => b"Bad number: ",
        NameError::TooLong => b"Name too long: ",
    }
}

/// Appends the message about a fault of the table file at `path`, or that memory ran out.
fn table_message(fault: &TableError, path: &str, out: &mut Draft)
    ensures { Adds out.old (table_message path.now fault.now) out.new }
{
    match fault {
        TableError::BadLine { line } => at_line(path, *line, b"bad line", out),
        TableError::BadName { line } => at_line(path, *line, b"bad name", out),
        TableError::BadValue { line } => at_line(path, *line, b"bad value", out),
        TableError::Double { line } => at_line(path, *line, b"double name", out),
        TableError::Memory => out.octets(b"Out of memory."),
    }
}

/// Appends the message about a walk or a Get that ended early; nothing for one that is done.
fn end_message(end: &WalkEnd, agent: &str, out: &mut Draft)
    ensures { Adds out.old (end_message agent.now end.now) out.new }
{
    match end {
        WalkEnd::Done(_) => out.octets(b""),
        WalkEnd::Fault(status, index) => fault_message(out, status, index),
        WalkEnd::NoProgress { asked } => text_and_name(out, b"No progress after ", asked),
        WalkEnd::BadReply => agent_message(out, b"Bad reply from ", agent),
        WalkEnd::NotIncreasing { last, got } => falling_message(out, last, got),
        WalkEnd::TooManyRequests => out.octets(b"Too many requests."),
        WalkEnd::RequestTooLong => out.octets(b"Request too long."),
        WalkEnd::NoResponse => agent_message(out, b"Timeout: No Response from ", agent),
        WalkEnd::Link => out.octets(b"The link failed."),
        WalkEnd::Sink(SinkFault::Output) => out.octets(b"The output failed."),
        WalkEnd::Sink(SinkFault::Memory) => out.octets(b"Out of memory."),
    }
}

/// Appends the message that the name `got` isn't greater than `last`, the name before it.
fn falling_message(out: &mut Draft, last: &Oid, got: &Oid)
    ensures { Adds out.old (codes "Error: OID not increasing: " ++ numeric_text last.now
        ++ codes " >= " ++ numeric_text got.now) out.new }
{
    text_and_name(out, b"Error: OID not increasing: ", last);
    text_and_name(out, b" >= ", got);
}

/// Appends the message about an error status: its name and number, and the error index.
fn fault_message(out: &mut Draft, status: &i32, index: &i32)
    ensures { Adds out.old (error_status_text status.now index.now) out.new }
{
    two_texts(out, b"Error in packet: ", status_name(*status));
    text_and_integer(out, b" (", status);
    text_and_integer(out, b"), index ", index);
}

fn text_and_integer(out: &mut Draft, text: &[u8], n: &i32)
    ensures { Adds out.old (text.now ++ signed_decimal n.now) out.new }
{
    out.octets(text);
    out.integer(i64::from(*n));
}

/// Returns the name of an error status (RFC 3416, section 3), or `unknown` if it has none.
fn status_name<'a>(status: i32) -> &'a [u8]
    ensures { result.now ≡ status_name status }
{
    match status {
        0 => b"noError",
        1 => b"tooBig",
        2 => b"noSuchName",
        3 => b"badValue",
        4 => b"readOnly",
        5 => b"genErr",
        6 => b"noAccess",
        7 => b"wrongType",
        8 => b"wrongLength",
        9 => b"wrongEncoding",
        10 => b"wrongValue",
        11 => b"noCreation",
        12 => b"inconsistentValue",
        13 => b"resourceUnavailable",
        14 => b"commitFailed",
        15 => b"undoFailed",
        16 => b"authorizationError",
        17 => b"notWritable",
        18 => b"inconsistentName",
        _ => b"unknown",
    }
}

fn text_and_name(out: &mut Draft, text: &[u8], name: &Oid)
    ensures { Adds out.old (text.now ++ numeric_text name.now) out.new }
{
    let mut numbers = [0; LONGEST_TEXT];
    out.octets(text);
    match write_numeric(name, &mut numbers) {
        Some(len) => out.octets(&numbers[..len]),
        None => unreachable!(),
    }
}

/// Appends `text`, the argument `agent` and a full stop.
fn agent_message(out: &mut Draft, text: &[u8], agent: &str)
    ensures { Adds out.old (text.now ++ agent.now ++ codes ".") out.new }
{
    two_texts(out, text, agent.as_bytes());
    out.octets(b".");
}
