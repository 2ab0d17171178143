//! Makes a job from what the parser read: the texts and numbers given to a command.
ghost use Rattle.std.specs.Prelude.{◌≡◌, ◌≤◌, IfOk, IfSome, IsSome, Some, option_map, string_bytes};
ghost use Rattle.clap.specs.{Walk.first_of, Walk.rows_of, Words.found_of, Words.subcommand_rows_of};
ghost use Rattle.snmp_words.specs.Words.{asking_of_rows, asking_words, get_of_rows, get_words};
ghost use Rattle.snmp_words.specs.Words.{job_words, joined_of, number_in, numbers_in};
ghost use Rattle.snmp_words.specs.Words.{serve_of_rows, serve_words, stated_in, texts_at, texts_of};
ghost use Rattle.snmp_words.specs.Words.{translate_of_rows, translate_words, walk_of_rows};
ghost use Rattle.snmp_words.specs.Words.{walk_words};

use crate::job::{Asking, GetJob, Job, ServeJob, TranslateJob, WalkJob};
use clap::ArgMatches;
use std::alloc::{AllocError, Global};

/// Returns the job of the subcommand that was given. The caller must pass matches that have one of
/// the five subcommands.
pub(crate) fn job_of<'a>(alloc: Global, matches: &ArgMatches<'a>) -> Result<Job<'a>, AllocError>
    requires { IsSome (stated_in (subcommand_rows_of matches.now)) }
    ensures { IfOk result
        (λ job. stated_in (subcommand_rows_of matches.now) ≡ Some (job_words job)) }
{
    let Some((command, given)) = matches.subcommand() else {
        unreachable!()
    };
    match command {
        "snmptranslate" => Ok(Job::Translate(translate_job(alloc, given)?)),
        "snmpget" => Ok(Job::Get(get_job(alloc, given)?)),
        "snmpwalk" => Ok(Job::Walk(walk_job(alloc, given)?)),
        "snmpbulkwalk" => Ok(Job::BulkWalk(walk_job(alloc, given)?)),
        "snmpd" => Ok(Job::Serve(serve_job(alloc, given)?)),
        _ => unreachable!(),
    }
}

/// Returns the job of snmptranslate.
fn translate_job<'a>(alloc: Global, given: &ArgMatches<'a>) -> Result<TranslateJob<'a>, AllocError>
    ensures { IfOk result (λ job.
        translate_words job ≡ translate_of_rows (rows_of (found_of given.now))) }
{
    Ok(TranslateJob {
        mibs: all_texts(alloc, given, "mib")?,
        letters: join_texts(alloc, given, "letters")?,
        details: first_text(given, "details").unwrap_or(""),
        names: all_texts(alloc, given, "names")?,
    })
}

/// Returns the job of snmpget.
fn get_job<'a>(alloc: Global, given: &ArgMatches<'a>) -> Result<GetJob<'a>, AllocError>
    ensures { let rows = rows_of (found_of given.now) in
        IfOk result (λ job. get_words job ≡ get_of_rows (numbers_in rows) rows) }
{
    let asking = asking_of(alloc, given)?;
    let names = all_texts(alloc, given, "names")?;
    Ok(GetJob { asking, names })
}

/// Returns the job of snmpwalk or snmpbulkwalk.
fn walk_job<'a>(alloc: Global, given: &ArgMatches<'a>) -> Result<WalkJob<'a>, AllocError>
    ensures { let rows = rows_of (found_of given.now) in
        IfOk result (λ job. walk_words job ≡ walk_of_rows (numbers_in rows) rows) }
{
    Ok(WalkJob {
        asking: asking_of(alloc, given)?,
        letters: join_texts(alloc, given, "walk")?,
        after: first_text(given, "after"),
        name: first_text(given, "name"),
    })
}

/// Returns the job of snmpd.
fn serve_job<'a>(alloc: Global, given: &ArgMatches<'a>) -> Result<ServeJob<'a>, AllocError>
    ensures { let rows = rows_of (found_of given.now) in
        IfOk result (λ job. serve_words job ≡ serve_of_rows (numbers_in rows) rows) }
{
    Ok(ServeJob {
        mibs: all_texts(alloc, given, "mib")?,
        table: first_text(given, "table").unwrap_or(""),
        community: first_text(given, "community").unwrap_or("public"),
        listen: first_text(given, "listen").unwrap_or("127.0.0.1:161"),
        max_size: number(given, "size", 1472, 1, 65507),
        turns: number(given, "turns", u64::MAX, 0, u64::MAX),
    })
}

/// Returns the options and arguments that say which agent to ask, and how.
fn asking_of<'a>(alloc: Global, given: &ArgMatches<'a>) -> Result<Asking<'a>, AllocError>
    ensures { let rows = rows_of (found_of given.now) in
        IfOk result (λ asking. asking_words asking ≡ asking_of_rows (numbers_in rows) rows) }
{
    Ok(Asking {
        mibs: all_texts(alloc, given, "mib")?,
        letters: join_texts(alloc, given, "letters")?,
        protocol: first_text(given, "protocol").unwrap_or("2c"),
        community: first_text(given, "community").unwrap_or("public"),
        retries: number(given, "retries", 5, 0, 1000),
        seconds: number(given, "seconds", 1, 1, 3600),
        max_size: number(given, "size", 1472, 1, 65507),
        agent: first_text(given, "agent").unwrap_or(""),
    })
}

/// Returns the first text given for the option or argument `id`, if there is one.
fn first_text<'a>(given: &ArgMatches<'a>, id: &str) -> Option<&'a str>
    ensures { option_map (λ text. text.now) result
        ≡ first_of id.now (rows_of (found_of given.now)) }
{
    given.get_str(id)
}

/// Returns the texts given for `id`, in order.
fn all_texts<'a>(
    alloc: Global,
    given: &ArgMatches<'a>,
    id: &str,
) -> Result<Vec<&'a str>, AllocError>
    ensures { IfOk result (λ all.
        texts_at all.items ≡ texts_of id.now (rows_of (found_of given.now))) }
{
    Vec::from_slice(alloc, given.get_strs(id).unwrap_or(&[]))
}

/// Returns the texts given for `id`, joined in order.
fn join_texts(alloc: Global, given: &ArgMatches<'_>, id: &str) -> Result<String, AllocError>
    ensures { IfOk result (λ text.
        string_bytes text ≡ joined_of id.now (rows_of (found_of given.now))) }
{
    given.get_strs(id).unwrap_or(&[]).join(alloc, "")
}

/// Returns the number that the first text given for `id` writes, if it is from `low` to `high`,
/// otherwise `default`.
fn number(given: &ArgMatches<'_>, id: &str, default: u64, low: u64, high: u64) -> u64
    requires from { low ≤ default }
    requires to { default ≤ high }
    ensures value { let rows = rows_of (found_of given.now) in
        result ≡ numbers_in rows id.now default low high }
    ensures from { low ≤ result }
    ensures to { result ≤ high }
{
    match given.get_str(id) {
        Some(text) => number_in(text, low, high).unwrap_or(default),
        None => default,
    }
}

/// Returns the number that `text` writes in decimal digits, perhaps after a `+`, if it is from
/// `low` to `high`.
fn number_in(text: &str, low: u64, high: u64) -> Option<u64>
    ensures value { result ≡ number_in low high text.now }
    ensures range { IfSome result (λ n. (low ≤ n) × (n ≤ high)) }
{
    match text.parse::<u64>() {
        Ok(n) if low <= n && n <= high => Some(n),
        _ => None,
    }
}
