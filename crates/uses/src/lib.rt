//! Callers of the libraries: what a program outside the toolkit writes, and what it can promise.
//!
//! Each module has one caller or a few, with a contract that rests on the public contracts of the
//! libraries only. The functions are proved, so these examples hold of the version that they come
//! with.
#![tactic(auto)]

mod changes;
mod collect;
#[cfg(test)]
mod column_tests;
mod columns;
mod direct;
mod listing;
mod polling;
#[cfg(test)]
mod polling_tests;
mod subtrees;
#[cfg(test)]
mod tests;
mod traps;

pub use changes::{ask, put_and_remove};
pub use collect::{Collected, Row};
pub use columns::{ColumnCounts, count_columns};
pub use direct::{Direct, poll_again};
pub use listing::{Column, columns_of};
pub use polling::{next_id, poll, poll_twice};
pub use subtrees::{Subtree, poll_each};
pub use traps::trap_oid;
