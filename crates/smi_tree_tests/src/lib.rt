//! Tests of the layers from modules to lines: chains, branches, meanings, types, nodes and indexes,
//! the tree of names that is made of them, the texts of values, and the names, lines and details
//! that are shown with a tree. They are a crate of their own, so that those layers are proved only
//! once.
#![tactic(auto)]

#[cfg(test)]
mod branches;
#[cfg(test)]
mod chains;
#[cfg(test)]
mod columns;
#[cfg(test)]
mod details;
#[cfg(test)]
mod hash;
#[cfg(test)]
mod hints;
#[cfg(test)]
mod letters;
#[cfg(test)]
mod lines;
#[cfg(test)]
mod meanings;
pub mod names;
#[cfg(test)]
mod nodes;
#[cfg(test)]
mod reading;
#[cfg(test)]
mod shown;
#[cfg(test)]
mod tree;
#[cfg(test)]
mod types;
#[cfg(test)]
mod values;
