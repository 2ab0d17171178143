//! How a test runs the tools.

use snmp_io::memory::{MemoryFiles, MemoryOutput};
use snmp_net::Links;
use snmp_net::memory::MemoryLinks;
use snmp_tools::tool;
use std::alloc::{AllocError, Global};
use std::process::Abort;

/// A table of three instances.
pub const THREE: &[u8] =
    b"1.3.6.1.4.1.32473.1.10.0|2|3\n1.3.6.1.4.1.32473.1.2.0|4|wes\n1.3.6.1.4.1.32473.1.1.0|2|1\n";

/// The lines of a walk over `THREE`.
pub const THREE_LINES: &str = ".1.3.6.1.4.1.32473.1.1.0 = INTEGER: 1\n\
    .1.3.6.1.4.1.32473.1.2.0 = STRING: \"wes\"\n\
    .1.3.6.1.4.1.32473.1.10.0 = INTEGER: 3\n";

/// Files: paths with their contents.
pub type Held<'a> = &'a [(&'a str, &'a [u8])];

/// The file `t.tab`, with a table of three instances.
pub const OF_THREE: Held<'static> = &[("t.tab", THREE)];

/// A command line, what it must print on standard output and on standard error, and its status.
///
/// Its arguments are separated by single spaces. So one is empty between two spaces in a row, and
/// after a space at the end.
pub type Run<'a> = (&'a str, &'a str, &'a str, u8);

/// How many octets standard output and standard error accept.
pub type Room = (usize, usize);

/// Outputs that accept as much as memory holds.
pub const NO_LIMITS: Room = (usize::MAX, usize::MAX);

/// Runs a command line over files, links and outputs, and returns its status.
pub fn status_of<L: Links>(
    alloc: Global,
    line: &str,
    files: Held<'_>,
    links: &mut L,
    out: &mut MemoryOutput,
    err: &mut MemoryOutput,
) -> Result<u8, AllocError> {
    let words: Vec<&str> = line.split(' ').collect(alloc)?;
    let files = MemoryFiles { files };
    Ok(tool(alloc, &words, &files, links, out, err))
}

/// Returns whether an output that accepts `limit` octets has the first `limit` octets of the text,
/// or all of a shorter text.
fn has_taken(output: &MemoryOutput, limit: usize, text: &str) -> bool {
    let octets = output.octets();
    text.as_bytes().starts_with(octets) && octets.len() == limit.min(text.len())
}

/// Returns whether the run over files and links prints its texts, as far as the outputs accept
/// them, and has its status.
pub fn prints_over(
    alloc: Global,
    files: Held<'_>,
    links: &mut MemoryLinks<'_>,
    room: Room,
    run: Run<'_>,
) -> Result<bool, AllocError> {
    let (line, lines, messages, status) = run;
    let mut out = MemoryOutput::with_limit(alloc, room.0);
    let mut err = MemoryOutput::with_limit(alloc, room.1);
    let ended = status_of(alloc, line, files, links, &mut out, &mut err)?;
    Ok(ended == status && has_taken(&out, room.0, lines) && has_taken(&err, room.1, messages))
}

/// Returns whether the run over files, without an agent, prints its texts, as far as the outputs
/// accept them, and has its status.
pub fn prints(
    alloc: Global,
    files: Held<'_>,
    room: Room,
    run: Run<'_>,
) -> Result<bool, AllocError> {
    let mut links = MemoryLinks::new(alloc, &[], &[]);
    prints_over(alloc, files, &mut links, room, run)
}

/// Asserts that each of the runs over files and links, one after the other, prints its texts, as
/// far as the outputs accept them, and has its status.
pub fn assert_runs_over(
    rt: &impl Abort,
    alloc: Global,
    files: Held<'_>,
    links: &mut MemoryLinks<'_>,
    room: Room,
    runs: &[Run<'_>],
) {
    for run in runs {
        let ended = prints_over(alloc, files, links, room, *run);
        assert!(rt; matches!(ended, Ok(true)), "{}", run.0);
    }
}

/// Asserts that each of the runs over files, without an agent, prints its texts, as far as the
/// outputs accept them, and has its status.
pub fn assert_runs_within(
    rt: &impl Abort,
    alloc: Global,
    files: Held<'_>,
    room: Room,
    runs: &[Run<'_>],
) {
    for run in runs {
        assert!(rt;
            matches!(prints(alloc, files, room, *run), Ok(true)),
            "{}",
            run.0
        );
    }
}
