//! The nodes of definitions, in order of loading.

use crate::reading::{modules_of, names_of, oid};
use smi_names::{Gathered, Source, gather_nodes};
use smi_text::Module;
use snmp_oid::Oid;
use std::alloc::Global;
use std::process::Abort;
use std::test::Fail;

const MODULES: &[u8] = b"B DEFINITIONS ::= BEGIN IMPORTS a FROM A;
b OBJECT IDENTIFIER ::= { a 1 }
T ::= INTEGER
n NOTIFICATION-TYPE STATUS current DESCRIPTION \"d\" ::= { b 2 }
END
A DEFINITIONS ::= BEGIN IMPORTS n FROM B;
loop OBJECT IDENTIFIER ::= { loop 1 }
lost OBJECT IDENTIFIER ::= { nothing 1 }
a OBJECT IDENTIFIER ::= { iso 5 }
same OBJECT IDENTIFIER ::= { n }
END
";

/// For each node the index of its module, the index of its definition there, and its identifier.
/// The built-in roots come first, and have no module.
static NODES: [(Option<(usize, usize)>, &str); 7] = [
    (None, "0"),
    (None, "1"),
    (None, "2"),
    (Some((0, 0)), "1.5.1"),
    (Some((0, 2)), "1.5.1.2"),
    (Some((1, 2)), "1.5"),
    (Some((1, 3)), "1.5.1.2"),
];

#[test]
fn nodes_come_in_order_of_loading(rt: HostRuntime) -> Result<(), Fail> {
    let modules = modules_of(rt.alloc(), MODULES)?;
    assert_nodes(&rt, rt.alloc(), &modules)
}

fn assert_nodes(rt: &impl Abort, alloc: Global, modules: &[Module]) -> Result<(), Fail> {
    let names = names_of(alloc, modules)?;
    let gathered = gather_nodes(alloc, &names, modules)?;
    assert_gathered(rt, &gathered)
}

fn assert_gathered(rt: &impl Abort, gathered: &Gathered) -> Result<(), Fail> {
    assert!(rt; gathered.sources.len() == NODES.len() && gathered.oids.len() == NODES.len());
    for (k, (source, text)) in NODES.iter().enumerate() {
        assert!(rt; is_node(gathered, k, *source, &oid(text)?), "{text}");
    }
    Ok(())
}

/// Returns whether node `k` has this source and this identifier.
fn is_node(gathered: &Gathered, k: usize, source: Option<(usize, usize)>, oid: &Oid) -> bool {
    let found = match gathered.sources.get(k) {
        Some(Source::Definition(i, d)) => Some((*i, *d)),
        _ => None,
    };
    let stored = gathered.oids.get(k);
    found == source && matches!(stored, Some(stored) if stored.as_slice() == oid.as_slice())
}
