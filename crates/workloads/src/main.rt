//! The program `workloads JOB SEED TURNS SIZE FILE`, for the benchmark `bench/run`: the jobs that
//! users of the tools wait for, over inputs that it makes from the seed, and the module texts of
//! the file.
//!
//! It prints a digest of all that the job wrote, which is the same at each run. `docs/PERF.md` says
//! what each job is.
#![tactic(auto)]

mod commands;
mod device;
mod digest;
mod draws;
mod jobs;
mod lines;
mod replies;
mod site;

use crate::digest::Digest;
use crate::draws::Draws;
use crate::jobs::Turn;
use snmp_io::{Files, MachineFiles};
use std::alloc::AllocError;
use std::env::Env;
use std::process::ExitCode;
use std::{env, rt};

fn main(rt: HostRuntime) -> ExitCode {
    match run(&rt) {
        Ok(sum) => match println!(rt; "{sum:016x}") {
            Ok(()) => ExitCode::from(0),
            Err(_) => ExitCode::from(2),
        },
        Err(status) => ExitCode::from(status),
    }
}

/// The digest of the job that the words name; 1 where they name none, and 2 without memory.
fn run<R: Env + rt::Files + AllocGlobal>(rt: &R) -> Result<u64, u8> {
    let Ok(words) = env::args(rt) else {
        return Err(2);
    };
    let Ok(words): Result<Vec<String>, _> = words.collect(rt.alloc()) else {
        return Err(2);
    };
    let [_, job, seed, turns, size, file] = words.as_slice() else {
        return Err(1);
    };
    let (Ok(seed), Ok(turns), Ok(size)) = (
        seed.as_str().parse::<u64>(),
        turns.as_str().parse::<u64>(),
        size.as_str().parse::<u64>(),
    ) else {
        return Err(1);
    };
    let files = MachineFiles { rt };
    let Ok(modules) = files.read(rt.alloc(), file.as_str()) else {
        return Err(1);
    };
    let mut digest = Digest::new();
    'turns: for number in 0..turns {
        let turn = Turn {
            alloc: rt.alloc(),
            modules: &modules,
            draws: Draws::new(seed).apart(number),
            number,
            size,
        };
        match turn_of(job.as_str(), &turn, &mut digest) {
            Ok(true) => {}
            Ok(false) => return Err(1),
            Err(_) => return Err(2),
        }
    }
    Ok(digest.sum())
}

/// One turn of the job of this name, or of all; whether there is such a job.
fn turn_of(job: &str, turn: &Turn<'_>, digest: &mut Digest) -> Result<bool, AllocError> {
    match job {
        "load" => jobs::load(turn, digest)?,
        "names" => jobs::names(turn, digest)?,
        "numbers" => jobs::numbers(turn, digest)?,
        "tables" => jobs::tables(turn, digest)?,
        "replies" => replies::replies(turn, digest)?,
        "translate" => jobs::translate(turn, digest)?,
        "all" => {
            jobs::load(turn, digest)?;
            jobs::names(turn, digest)?;
            jobs::numbers(turn, digest)?;
            jobs::tables(turn, digest)?;
            replies::replies(turn, digest)?;
            jobs::translate(turn, digest)?;
        }
        _ => return Ok(false),
    }
    Ok(true)
}
