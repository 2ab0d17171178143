//! Tests of identifiers and messages: how identifiers are ordered, as numbers and as encodings, how
//! they are written as text, and how recorded messages are read and written. They are a crate of
//! their own, so that `snmp_oid` and `snmp_wire` are proved only once.
#![tactic(auto)]

#[cfg(test)]
mod decoding;
#[cfg(test)]
mod encoding;
#[cfg(test)]
mod identifiers;
#[cfg(test)]
mod names;
#[cfg(test)]
mod recorded;
#[cfg(test)]
mod texts;
