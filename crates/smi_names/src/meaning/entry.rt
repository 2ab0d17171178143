//! The names of modules, each with what decides its meaning.

use smi_text::{Def, Import, Module};

/// What decides what a name means in a module (RFC 2578, section 3.2).
#[derive(Clone, Copy, Debug)]
pub enum Decider<'a> {
    /// The module's own definition.
    Definition(&'a Def),
    /// The first FROM clause that imports the name.
    Import(&'a Import),
    /// The list of roots. Holds the root's number, from 0 to 2.
    Root(u32),
}

/// A name that has a meaning in a module.
#[derive(Clone, Copy)]
pub struct Entry<'a> {
    /// The module.
    pub module: &'a Module,
    /// The octets of the name.
    pub name: &'a [u8],
    /// What decides its meaning.
    pub decider: Decider<'a>,
    /// The index of the module and, if a definition decides, the index of the definition in it.
    pub source: (usize, usize),
}
