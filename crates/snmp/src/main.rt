//! The program `snmp`: it passes the arguments, files, network and outputs of the machine to the
//! tools.
#![tactic(auto)]

ghost use Rattle.std.specs.Prelude.{◌≡◌, IfOk, map, string_bytes};
ghost use Rattle.snmp_tools.specs.{Done.AreWordsDone, Seen.seen};

use snmp_io::{Files, KeyedFiles, MachineFiles, MachineOutput, Output, write_all};
use snmp_net::MachineLinks;
use snmp_tools::{Links, tool};
use std::alloc::{AllocError, Global};
use std::env::Env;
use std::hash::RandomState;
use std::io::ErrorKind;
use std::net::Net;
use std::process::ExitCode;
use std::random::RandomSource;
use std::{env, io};

fn main(rt: HostRuntime) -> ExitCode {
    let mut out = MachineOutput::new(rt.stdout());
    let mut err = MachineOutput::new(rt.stderr());
    let status = match run(&rt, &mut out, &mut err) {
        Ok(status) => status,
        Err(error) => report_refusal(&mut err, &error),
    };
    ExitCode::from(status)
}

fn run<R, O, E>(rt: &R, out: &mut O, err: &mut E) -> io::Result<u8>
where
    R: Env + std::rt::Files + Net + RandomSource + AllocGlobal,
    O: Output,
    E: Output,
{
    let words: Vec<String> = env::args(rt)?.collect(rt.alloc())?;
    let files = KeyedFiles {
        files: MachineFiles { rt },
        key: RandomState::new(rt).ok(),
        ends_process: true,
    };
    let mut links = MachineLinks::new(rt);
    run_words(rt.alloc(), words.as_slice(), &files, &mut links, out, err)
}

// Passes all the arguments to the tools, in order, and returns the exit status.
fn run_words<F: Files, L: Links, O: Output, E: Output>(
    alloc: Global,
    words: &[String],
    files: &F,
    links: &mut L,
    out: &mut O,
    err: &mut E,
) -> io::Result<u8>
    ensures { IfOk result (λ status. AreWordsDone L.Links L.Wire.Link (map string_bytes words.now)
        (seen (F.text_at files.now) links.old (O.stream out.old) (E.stream err.old))
        (seen (F.text_at files.now) links.new (O.stream out.new) (E.stream err.new)) status) }
{
    let texts = texts_of(alloc, words)?;
    Ok(tool(alloc, texts.as_slice(), files, links, out, err))
}

// Returns the text of each argument, in order.
fn texts_of(alloc: Global, words: &[String]) -> Result<Vec<&str>, AllocError>
    ensures { IfOk result
        (λ texts. map (λ text. text.now) texts.items ≡ map string_bytes words.now) }
{
    words.iter().map(|word| word.as_str()).collect(alloc)
}

// Reports on `err` why the arguments couldn't be read, and returns the exit status.
fn report_refusal<E: Output>(err: &mut E, error: &io::Error) -> u8 {
    let text = match error.kind() {
        ErrorKind::OutOfMemory => "Out of memory.\n",
        _ => "error: invalid UTF-8 was detected in one or more arguments\n",
    };
    let _ = write_all(err, text.as_bytes());
    1
}
