//! Tests of the network: the addresses of agents, walks over loopback, and links in memory. Other
//! tests are of the command line: what each command makes of its arguments, the ranges of numbers,
//! the help, and the messages for mistakes.
#![tactic(auto)]

#[cfg(test)]
mod commands;
#[cfg(test)]
mod help;
#[cfg(test)]
mod loopback;
#[cfg(test)]
mod memory;
#[cfg(test)]
mod mistakes;
#[cfg(test)]
mod numbers;
#[cfg(test)]
mod words;
