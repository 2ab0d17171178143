//! A job: does it, and reports what failed.
ghost use Rattle.std.specs.Prelude.{◌≡◌, ◌++◌, codes, IfOk, OnErr};
ghost use Rattle.snmp_io.specs.Output.{IsWritten};
ghost use Rattle.snmp_words.specs.Words.{job_words};
ghost use Rattle.snmp_tools.specs.Done.{IsJobDone, IsJobOutcome};
ghost use Rattle.snmp_tools.specs.FaultText.{fault_of, fault_message, outcome_of};
ghost use Rattle.snmp_tools.specs.{AskResult.IsReported, Seen.seen, load.Loaded.any_load};

use crate::failure::Failure;
use crate::load::{ModuleLoader, one_list_of_modules};
use crate::messages::Messages;
use crate::plan::AskJob;
use crate::run::ask;
use crate::serve::serve_table;
use crate::translate::translate;
use smi_show::one_meaning;
use smi_tree::one_tree;
use snmp_agent::{no_fault, one_table};
use snmp_io::{Files, Output};
use snmp_net::Links;
use snmp_words::Job;
use std::alloc::{AllocError, Global};

/// Does a job, and returns the exit status: 0 if all of it was done, 2 if an agent replied with an
/// error status, and 1 in any other case.
///
/// The lines of a reply are written to `out` together, when it arrives. A failure is reported on
/// `err` as one message. If a write to `err` fails, nothing else changes.
///
/// What `done` promises is in the fields of three records (`specs/Done.antt`):
///
/// - snmpget, snmpwalk and snmpbulkwalk (`IsAskDone`): `outcome_reported` lists how the job can
///   end. It says at which step the job was refused, or how the agent was asked, and what the job
///   printed and reported. `rows_written` is about a table file whose text is known
///   (`specs/Headline.antt`). Whatever fails, only a prefix of the lines is written
///   (`prefix_written`). At status 0 all of them are (`all_written_at_status_0`). If the question
///   can be sent and there is room for it (`IsFeasible`), the status is 0, unless the output fails
///   or memory runs out (`ends_at_status_0`).
/// - snmptranslate (`IsTranslated`): `outcome` lists how the job can end, and `is_reported` says
///   what it reports. If the letters have a meaning and it is known which modules the files hold,
///   then only a prefix of the names' texts is printed, whatever fails (`prefix`), and at status 0
///   all of them are (`all_at_status_0`). The network stays as it was.
/// - snmpd (`IsServeRun`): `outcome` lists how the job can end, and `reported` says what it
///   reports.
pub fn run_job<F: Files, L: Links, O: Output, E: Output>(
    alloc: Global,
    job: &Job<'_>,
    files: &F,
    links: &mut L,
    out: &mut O,
    err: &mut E,
) -> u8
    ensures done { IsJobDone L.Links L.Wire.Link any_load (job_words job.now)
        (seen (F.text_at files.now) links.old (O.stream out.old) (E.stream err.old))
        (seen (F.text_at files.now) links.new (O.stream out.new) (E.stream err.new)) result }
{
    do_job(alloc, job, files, links, out, err)
}

/// Does a job, reports why if not all of it was done, and returns the exit status.
fn do_job<F: ModuleLoader<E>, L: Links, O: Output, E: Messages>(
    alloc: Global,
    job: &Job<'_>,
    files: &F,
    links: &mut L,
    out: &mut O,
    err: &mut E,
) -> u8
    ensures { IsJobDone L.Links L.Wire.Link (F.loads files.now) (job_words job.now)
        (seen (F.text_at files.now) links.old (O.stream out.old) (E.stream err.old))
        (seen (F.text_at files.now) links.new (O.stream out.new) (E.stream err.new)) result }
{
    one_table();
    no_fault();
    one_list_of_modules();
    one_tree();
    one_meaning();
    let done = try_job(alloc, job, files, links, out, err);
    report(alloc, done, err)
}

/// Does a job. Fails if not all of it was done; the error says why.
fn try_job<'a, F: ModuleLoader<E>, L: Links, O: Output, E: Messages>(
    alloc: Global,
    job: &Job<'a>,
    files: &F,
    links: &mut L,
    out: &mut O,
    err: &mut E,
) -> Result<(), Failure<'a>>
    ensures { IsJobOutcome L.Links L.Wire.Link (F.loads files.now) (job_words job.now)
        (seen (F.text_at files.now) links.old (O.stream out.old) (E.stream err.old))
        (seen (F.text_at files.now) links.new (O.stream out.new) (E.stream err.new))
        (outcome_of result) }
{
    match job {
        Job::Translate(words) => translate(alloc, words, files, out, err),
        Job::Get(get) => ask(alloc, AskJob::of_get(get), files, links, out, err),
        Job::Walk(walk) => ask(alloc, AskJob::of_walk(false, walk), files, links, out, err),
        Job::BulkWalk(walk) => ask(alloc, AskJob::of_walk(true, walk), files, links, out, err),
        Job::Serve(serve) => serve_table(alloc, serve, files, links, out, err),
    }
}

/// Reports on `err` why a job wasn't done, if it wasn't, and returns the exit status.
fn report<E: Messages>(alloc: Global, done: Result<(), Failure<'_>>, err: &mut E) -> u8
    ensures { IsReported (outcome_of done.entry) (E.stream err.old) (E.stream err.new) result }
{
    let Err(failure) = done else { return 0 };
    tell_line(message_line(alloc, &failure), err);
    failure.status()
}

/// Writes the line of a message to `err`, or `Out of memory.` if there was no memory for the line.
fn tell_line<E: Messages>(line: Result<Vec<u8>, AllocError>, err: &mut E)
    ensures whole { IfOk line (λ text. IsWritten (E.stream err.old) text.items (E.stream err.new)) }
    ensures no_memory { OnErr line (
        IsWritten (E.stream err.old) (codes "Out of memory.\n") (E.stream err.new)) }
{
    match line {
        Ok(text) => err.tell(&text),
        Err(_) => err.tell(b"Out of memory.\n"),
    }
}

/// Returns the message of `failure`, and a newline. Fails only if memory runs out.
fn message_line(alloc: Global, failure: &Failure<'_>) -> Result<Vec<u8>, AllocError>
    ensures { IfOk result (λ text.
        text.items ≡ fault_message (fault_of failure.now) ++ codes "\n") }
{
    let mut text = Vec::new(alloc);
    failure.message(&mut text)?;
    text.push(b'\n')?;
    Ok(text)
}
