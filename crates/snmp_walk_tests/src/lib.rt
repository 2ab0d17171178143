//! Tests of walks and Gets: over links in memory with many deliveries and tables, over a network in
//! memory, over agents that send bad or unusual replies, and over links and into sinks that fail.
#![tactic(auto)]

#[cfg(test)]
mod faults;
#[cfg(test)]
mod gets;
#[cfg(test)]
mod liar;
#[cfg(test)]
mod loose;
#[cfg(test)]
mod memory;
#[cfg(test)]
mod networks;
#[cfg(test)]
mod pages;
#[cfg(test)]
mod requests;
#[cfg(test)]
mod runs;
#[cfg(test)]
mod schedules;
#[cfg(test)]
mod sinks;
#[cfg(test)]
mod strays;
#[cfg(test)]
mod tables;
#[cfg(test)]
mod walks;
