//! Tests of names over a small tree: names are read, refused at their first fault, and shown.

mod random;
#[cfg(test)]
mod tiny;

pub use random::random_oid;
#[cfg(test)]
pub use tiny::{COUNTED, IMPLIED, MAC, TRIPLE, sample};

#[cfg(test)]
mod tests;
