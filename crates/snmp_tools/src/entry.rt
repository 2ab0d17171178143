//! A whole command line: from its arguments to the exit status.
ghost use Rattle.std.specs.Prelude.{◌≡◌, ◌≢◌, ℕ, List, [], IfErr, IfOk};
ghost use Rattle.std.specs.Str.Lines.{lines};
ghost use Rattle.snmp_words.specs.{Command.faults_of, Words.job_words, Words.texts_at};
ghost use Rattle.snmp_tools.specs.{Done.AreWordsDone, Done.IsJobDone, Seen.seen};
ghost use Rattle.snmp_tools.specs.{load.Loaded.any_load, Usage.IsHelpOrMistake};
ghost use Rattle.snmp_tools.specs.{Usage.PrintsHelp, Usage.ShowsError};
ghost use Rattle.snmp_tools.specs.TableWalk.{HoldsTableFile, PrintsRows, table_walk};

use crate::job::run_job;
use crate::laws::table_walks;
use crate::messages::Messages;
use snmp_io::{Files, Output, write_all};
use snmp_net::Links;
use snmp_words::{Job, UsageError, one_job, read_words};
use std::alloc::Global;

/// Does what a command line asks for, and returns the exit status. `words` are its arguments; the
/// first is the program's name.
///
/// The status is 0 if all of it was done, 2 if an agent replied with an error status, and 1 in any
/// other case. A failure is reported on `err` as one message; for a mistake in the syntax of the
/// command line it may have several lines.
///
/// The clause `done` says what a job does, by the records that [`run_job`] lists, if the arguments
/// have no fault (`AreFaultless`). The clause `rows_printed` says in plain terms
/// (`specs/TableWalk.antt`) what one command line prints: `snmpwalk -On table:PATH ROOT`, if it is
/// known which table the file holds (`HoldsTableFile`). The clause `help_or_mistake` is about
/// arguments with mistakes, or that ask for help or the version: the error that is shown
/// (`ShowsError`) is one that [`read_words`] may return for them.
pub fn tool<F: Files, L: Links, O: Output, E: Output>(
    alloc: Global,
    words: &[&str],
    files: &F,
    links: &mut L,
    out: &mut O,
    err: &mut E,
) -> u8
    // If a table file is known (`HoldsTableFile`), a walk of it in numbers prints the lines of the
    // rows below the root or, if there are none, the line of what a Get of the root returns. It
    // prints all of this at status 0, and a prefix of it otherwise.
    ensures rows_printed { (path root text : List ℕ)
        → texts_at words.now ≡ table_walk path root
        → HoldsTableFile (F.text_at files.now) path root text
        → PrintsRows (lines text) root (O.stream out.old) (O.stream out.new)
        (E.stream err.old) (E.stream err.new) result }
    // If the arguments have no fault, the job that they ask for is done, or fails in a way that
    // `IsJobDone` lists.
    ensures done { AreWordsDone L.Links L.Wire.Link (texts_at words.now)
        (seen (F.text_at files.now) links.old (O.stream out.old) (E.stream err.old))
        (seen (F.text_at files.now) links.new (O.stream out.new) (E.stream err.new)) result }
    // If the arguments have faults, one of them is reported with status 1, or the help or version
    // that they ask for is printed. If memory runs out or the output fails, that is reported. The
    // network stays as it was.
    ensures help_or_mistake { faults_of (texts_at words.now) ≢ []
        → (links.new ≡ links.old) × IsHelpOrMistake (texts_at words.now)
        (O.stream out.old) (O.stream out.new) (E.stream err.old) (E.stream err.new) result }
{
    table_walks();
    one_job();
    do_words(alloc, read_words(alloc, words), files, links, out, err)
}

/// Does the job that was read, or shows the error if reading failed. Returns the exit status.
fn do_words<F: Files, L: Links, O: Output, E: Output>(
    alloc: Global,
    read: Result<Job<'_>, UsageError>,
    files: &F,
    links: &mut L,
    out: &mut O,
    err: &mut E,
) -> u8
    ensures done { IfOk read.entry (λ job.
        IsJobDone L.Links L.Wire.Link any_load (job_words job)
        (seen (F.text_at files.now) links.old (O.stream out.old) (E.stream err.old))
        (seen (F.text_at files.now) links.new (O.stream out.new) (E.stream err.new)) result) }
    ensures shown { IfErr read.entry (λ error. (links.new ≡ links.old) × ShowsError error
        (O.stream out.old) (O.stream out.new) (E.stream err.old) (E.stream err.new) result) }
{
    match read {
        Ok(job) => run_job(alloc, &job, files, links, out, err),
        Err(UsageError::Parse { text, help: true }) => print_help(&text, out, err),
        Err(UsageError::Parse { text, help: false }) => {
            err.tell(text.as_bytes());
            1
        }
        Err(UsageError::Memory) => {
            err.tell(b"Out of memory.\n");
            1
        }
    }
}

/// Prints `text`, the help or version that was asked for, and returns the exit status.
fn print_help<O: Output, E: Messages>(text: &str, out: &mut O, err: &mut E) -> u8
    ensures { PrintsHelp text.now (O.stream out.old) (O.stream out.new)
        (E.stream err.old) (E.stream err.new) result }
{
    match write_all(out, text.as_bytes()) {
        Ok(()) => 0,
        Err(_) => {
            err.tell(b"The output failed.\n");
            1
        }
    }
}
