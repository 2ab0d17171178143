//! Checks of module texts and their trees.

use crate::Fault;
use crate::room::Room;
use smi_text::{Module, ParseError, parse_modules};
use smi_tree::Tree;
use std::alloc::Global;

/// Returns the modules of a text.
pub(crate) fn modules_of(alloc: Global, text: &[u8]) -> Result<Vec<Module>, Fault> {
    match parse_modules(alloc, text) {
        Ok(modules) => Ok(modules),
        Err(ParseError::Memory) => Err(Fault::Refused),
        Err(_) => Err(Fault::Wrong),
    }
}

/// Returns the tree of a text's modules.
pub fn tree_of(alloc: Global, text: &[u8]) -> Result<Tree, Fault> {
    let modules = modules_of(alloc, text)?;
    match Tree::load(alloc, modules) {
        Ok((tree, _)) => Ok(tree),
        Err(_) => Err(Fault::Refused),
    }
}

/// Checks `parse_modules`. Appends the names of a text's modules, each followed by its labels.
pub fn modules(alloc: Global, text: &[u8], room: &mut Room<'_>) -> Result<(), Fault> {
    let modules = modules_of(alloc, text)?;
    'modules: for module in &modules {
        room.append_line(module.name.as_bytes());
        'labels: for def in module.defs.as_slice() {
            room.append_line(def.label.as_bytes());
        }
    }
    Ok(())
}

/// Checks `Tree::load`. Appends the identifiers of the nodes.
pub fn tree(alloc: Global, text: &[u8], room: &mut Room<'_>) -> Result<(), Fault> {
    let tree = tree_of(alloc, text)?;
    'nodes: for id in 0..tree.len() {
        room.append_name(&tree.node(id).oid.to_oid());
    }
    Ok(())
}
