//! The arguments of a command line, read by `clap` into the job that they ask for.
//!
//! Only the shape of the arguments and the ranges of numbers are checked here. Whether letters,
//! the agent and names have a meaning is checked when the job is done.
//!
//! # Examples
//!
//! The arguments of a walk:
//!
//! ```
//! let words = ["snmp", "snmpbulkwalk", "-Cr50", "192.0.2.1", "ifName"];
//! match read_words(alloc, &words)? {
//!     Job::BulkWalk(walk) => assert!(rt; walk.name == Some("ifName")),
//!     _ => assert!(rt; false),
//! }
//! ```
#![tactic(auto)]

mod command;
mod job;
mod jobs;
mod mistakes;
mod options;

ghost use Rattle.std.specs.Prelude.{◌≡◌, [], List, ℕ, true, IfErr, IfOk, OnOk};
ghost use Rattle.clap.specs.{Walk.Text, Walk.texts, Words.kind_of};
ghost use Rattle.snmp_words.specs.Command.{faults_of, is_taken};
ghost use Rattle.snmp_words.specs.Words.{HasFaultOf, IsForUser, IsErrorOf, StateJob, Stated};
ghost use Rattle.snmp_words.specs.Words.{job_words, snmpwalk, walk_line, words_of_walk};
ghost use Rattle.snmp_words.specs.declared.UsageError.TheVariants.{Memory};

use clap::error::ErrorKind;
use command::snmp_command;
pub use job::{Asking, GetJob, Job, ServeJob, TranslateJob, WalkJob};
use jobs::job_of;
use std::alloc::{AllocError, Global};
use thiserror::Error;

/// Why [`read_words`] returns no job.
#[derive(Debug, Drop, Error)]
pub enum UsageError {
    /// The parser refused the arguments, or they ask for help or the version. `text` is for the
    /// user and ends with a newline; `help` says whether they ask for help or the version.
    #[error("{text}")]
    Parse { text: String, help: bool },
    /// Memory ran out.
    #[error("Out of memory.")]
    Memory,
}

impl From<AllocError> for UsageError {
    ghost from_gives = { λ _ e. e ≡ Memory };

    fn from(_error: AllocError) -> UsageError {
        UsageError::Memory
    }
}

/// Returns the job that the arguments of a command line ask for. The first of `words` is the
/// program's name. The letters of an option can be in the same argument or in the next one: `-On`
/// or `-O n`. Arguments that fit the rules of their command, and don't ask for help or the version,
/// are refused only if memory runs out.
pub fn read_words<'a>(alloc: Global, words: &'a [&'a str]) -> Result<Job<'a>, UsageError>
    ensures job { IfOk result (λ job.
        StateJob (texts words.entry.now) (job_words job)) }
    ensures faultless { OnOk result (faults_of (texts words.entry.now) ≡ []) }
    ensures taken { IfErr result (λ e.
        is_taken (texts words.entry.now) ≡ true → e ≡ Memory) }
    ensures refused { IfErr result (λ e. HasFaultOf e (faults_of (texts words.entry.now))) }
    ensures text { IfErr result IsForUser }
{
    let command = snmp_command(alloc)?;
    match command.try_get_matches_from(words) {
        Ok(matches) => Ok(job_of(alloc, &matches)?),
        Err(error) => Err(usage_error(alloc, &error, words)),
    }
}

/// The arguments `snmp snmpwalk -On table:PATH .NUMBERS` are accepted for each `path` and
/// `numbers`, and ask for that walk.
///
/// A law: the call does nothing, and its caller may use what it ensures.
pub fn walks_are_taken()
    ensures joined { (path numbers : List ℕ) →
        is_taken (walk_line path numbers) ≡ true }
    ensures joined_job { (path numbers : List ℕ) →
        StateJob (walk_line path numbers) (snmpwalk (words_of_walk path numbers)) }
{}

/// Arguments ask for at most one job.
///
/// A law: the call does nothing, and its caller may use what it ensures.
#[inline]
pub fn one_job()
    ensures { (words : List Text) (job other : Stated)
        → StateJob words job → StateJob words other → job ≡ other }
{}

/// Arguments that the command takes, and arguments without a fault, ask for a job.
///
/// A law: the call does nothing, and its caller may use what it ensures.
#[inline]
pub fn faultless_words_state_a_job()
    ensures taken { (words : List Text) → is_taken words ≡ true
        → (job : Stated) × StateJob words job }
    ensures faultless { (words : List Text) → faults_of words ≡ []
        → (job : Stated) × StateJob words job }
{}

/// Returns the error for arguments that the parser refuses. It has the help or the version if they
/// ask for it, otherwise what is wrong with them. It is `Memory` if memory ran out.
fn usage_error(alloc: Global, error: &clap::Error, words: &[&str]) -> UsageError
    ensures memory { kind_of error.now ≡ ErrorKind.OutOfMemory → result ≡ Memory }
    ensures refusal { IsErrorOf result (kind_of error.now) }
    ensures text { IsForUser result }
{
    if matches!(error.kind(), ErrorKind::OutOfMemory) {
        return UsageError::Memory;
    }
    let help = !error.use_stderr();
    match mistakes::text_of(alloc, error, words) {
        Ok(text) => UsageError::Parse { text, help },
        Err(_) => UsageError::Memory,
    }
}
