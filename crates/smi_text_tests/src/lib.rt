//! Tests of how the text of modules is read, through the public functions of `smi_text`: its
//! tokens, its trees and its faults. They are a crate of their own, so that `smi_text` is proved
//! only once.
#![tactic(auto)]

#[cfg(test)]
mod faults;
#[cfg(test)]
mod lexemes;
#[cfg(test)]
mod reading;
#[cfg(test)]
mod tokens;
#[cfg(test)]
mod trees;
#[cfg(test)]
mod values;
#[cfg(test)]
mod words;
