//! Tests of the table and the agent: rows, requests with their replies, and a server over loopback.
#![tactic(auto)]

#[cfg(test)]
mod agent;
#[cfg(test)]
mod bulk;
#[cfg(test)]
mod changes;
#[cfg(test)]
mod hints;
#[cfg(test)]
mod loopback;
#[cfg(test)]
mod orders;
#[cfg(test)]
mod pages;
#[cfg(test)]
mod table;
