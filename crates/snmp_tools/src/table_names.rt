//! Reads table files, with their names looked up in the tree of modules.
ghost use Rattle.std.specs.Prelude.{◌≡◌, ◌⊎◌, IfErr, IfOk};
ghost use Rattle.snmp_tools.specs.FaultText.{fault_of, out_of_memory};
ghost use Rattle.snmp_tools.specs.serve.TableFile.{AreNamesIn, HasTable, TableFails, names_in};
ghost use Rattle.snmp_agent.specs.table.Format.{IsLeadingName};
ghost use Rattle.smi_tree.specs.{Tree.Contents};

use crate::failure::Failure;
use smi_show::{meanings_are_computed, one_meaning, resolve_front_into};
use smi_tree::Tree;
use snmp_agent::{Resolver, Table};
use snmp_io::{FileFault, Files};
use snmp_oid::Oid;
use std::alloc::Global;

/// Returns the table that the file at `path` defines, with its names looked up in `tree`. Fails if
/// the file can't be read, at its first line with a fault, or if memory runs out.
pub(crate) fn table_at<'a, F: Files>(
    alloc: Global,
    tree: &Tree,
    files: &F,
    path: &'a str,
) -> Result<Table, Failure<'a>>
    ensures table { IfOk result
        (HasTable (F.text_at files.now) tree.now path.now) }
    ensures err { IfErr result (λ e. (fault_of e ≡ out_of_memory)
        ⊎ TableFails (F.text_at files.now) tree.now path.now (fault_of e)) }
{
    let text = match files.read(alloc, path) {
        Ok(text) => text,
        Err(FileFault::Unreadable) => return Err(Failure::Unreadable(path)),
        Err(FileFault::Memory) => return Err(Failure::Memory),
    };
    names_are_meant();
    match Table::read_with(alloc, &text, &TreeNames { tree }) {
        Ok(table) => Ok(table),
        Err(fault) => Err(Failure::Table(path, fault)),
    }
}

/// Looks up the names of a table file in a tree.
#[derive(Drop)]
struct TreeNames<'a> {
    tree: &'a Tree,
}

impl<'a> Resolver for TreeNames<'a> {
    ghost names = { λ n. names_in n.tree.now };

    fn leading_name(&self, text: &[u8]) -> Option<(Oid, usize)>
        ensures { IsLeadingName (names_in self.now.tree.now) text.now result }
    {
        names_are_meant();
        one_meaning();
        let mut oid = Oid::new();
        match resolve_front_into(self.tree, text, b'|', &mut oid) {
            Ok(size) => {
                // For the proof: the contract of `as_slice` says that `oid` is an identifier.
                let _ = oid.as_slice();
                Some((oid, size))
            }
            Err(_) => None,
        }
    }
}

/// Looking up a text of a table file finds an identifier if and only if the text means it as a
/// name (`TextMeans`).
///
/// A law: the call does nothing, and its caller may use what it ensures.
pub(crate) fn names_are_meant()
    ensures { (tree : Contents) → AreNamesIn tree (names_in tree) }
{
    meanings_are_computed();
    one_meaning();
}
