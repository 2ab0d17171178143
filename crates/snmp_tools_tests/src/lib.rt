//! Tests that go through several crates: from arguments to lines, over files and outputs in memory.
//! Most are command lines with what they print, in the tables of `rows`. Others test outputs,
//! files, messages and module files by themselves.
//!
//! [`walk_and_serve`] runs snmpd and a command line that asks it at the two ends of one network.
//! Its contract says what the command line that asks prints.
#![tactic(auto)]

mod both_ends;
#[cfg(test)]
mod ends;
#[cfg(test)]
mod errors;
#[cfg(test)]
mod faults;
#[cfg(test)]
mod liars;
#[cfg(test)]
mod loading;
#[cfg(test)]
mod machine;
#[cfg(test)]
mod network;
#[cfg(test)]
mod opened;
#[cfg(test)]
mod opener;
#[cfg(test)]
mod own;
#[cfg(test)]
mod pages;
#[cfg(test)]
mod rows;
#[cfg(test)]
mod run;
#[cfg(test)]
mod serving;

pub use both_ends::{RecordedNetwork, WalkLinks, walk_and_serve};
