//! Checks of calls that don't allocate. Each call is between two marks, which are allocations of
//! `MARK` octets: `tests/heap.c` counts the allocations between them.
ghost use Rattle.std.specs.Prelude.{◌≡◌, All, true};
ghost use Rattle.snmp_oid.specs.Identifier.{IsWire, wire};

use crate::Fault;
use crate::agents::{reply, table_of};
use crate::modules::{modules_of, tree_of};
use crate::room::Room;
use crate::walks::{Rows, link_of, reserve, walk_over};
use smi_show::{Letters, resolve, resolve_front};
use smi_text::{LexError, Lexer};
use smi_tree::{NodeId, Tree};
use smi_value::Hint;
use snmp_oid::Oid;
use snmp_walk::{Link, Method, Sink, WalkEnd, run_get};
use std::alloc::Global;

/// The size of a mark. No other allocation has it.
const MARK: usize = 77_777;

/// Returns a mark, an allocation of `MARK` octets. The caller holds it until after the call, so
/// that the compiler doesn't remove it.
#[inline(never)]
pub(crate) fn mark(alloc: Global) -> Result<Vec<u8>, Fault> {
    match Vec::with_capacity(alloc, MARK) {
        Ok(marked) => Ok(marked),
        Err(_) => Err(Fault::Refused),
    }
}

/// Checks `answer` to a request. Appends the reply.
pub fn check_answer(
    alloc: Global,
    text: &[u8],
    request: &[u8],
    room: &mut Room<'_>,
) -> Result<(), Fault> {
    let table = table_of(alloc, text)?;
    let _begun = mark(alloc)?;
    reply(&table, request, room);
    let _ended = mark(alloc)?;
    Ok(())
}

/// Checks `Table::remove` of the rows 1.3.6.1.4.1.32473.1.1.0 to 1.299.0, but for 1.150.0: some
/// rows of a page, and all of another. Appends the reply to `request` after that.
pub fn check_remove(
    alloc: Global,
    text: &[u8],
    request: &[u8],
    room: &mut Room<'_>,
) -> Result<(), Fault> {
    let mut table = table_of(alloc, text)?;
    let _begun = mark(alloc)?;
    'rows: for number in 1..300 {
        if number != 150 && !table.remove(&instance(number)?) {
            return Err(Fault::Wrong);
        }
    }
    let _ended = mark(alloc)?;
    reply(&table, request, room);
    Ok(())
}

/// Checks `run_walk` over a link for which memory is reserved.
pub fn check_walk(
    alloc: Global,
    text: &[u8],
    root: &[u8],
    method: Method,
    room: &mut Room<'_>,
) -> Result<(), Fault> {
    let table = table_of(alloc, text)?;
    let mut link = link_of(alloc, &table);
    reserve(&mut link)?;
    let _begun = mark(alloc)?;
    let end = walk_over(&mut link, root, method, room)?;
    let _ended = mark(alloc)?;
    is_done(&end)
}

/// Checks `run_get` of 1.3.6.1.4.1.32473.1.4.0, 1.5.0 and 1.6.0 over a link for which memory is
/// reserved.
pub fn check_get(alloc: Global, text: &[u8], room: &mut Room<'_>) -> Result<(), Fault> {
    let table = table_of(alloc, text)?;
    let mut link = link_of(alloc, &table);
    reserve(&mut link)?;
    let _begun = mark(alloc)?;
    let names = [instance(4)?, instance(5)?, instance(6)?];
    let end = get_over(&mut link, &names, &mut Rows { room })?;
    let _ended = mark(alloc)?;
    is_done(&end)
}

/// Returns the name 1.3.6.1.4.1.32473.1.`number`.0.
fn instance(number: u32) -> Result<Oid, Fault> {
    match Oid::from_slice(&[1, 3, 6, 1, 4, 1, 32473, 1, number, 0]) {
        Ok(name) => Ok(name),
        Err(_) => Err(Fault::Wrong),
    }
}

/// Returns whether each name can be sent.
fn are_sendable(names: &[Oid]) -> bool
    ensures { result ≡ true → All (λ o. IsWire (wire o)) names.now }
{
    names.iter().all(|name| name.to_wire().is_ok())
}

/// Runs the Get of these names, and returns how it ends. Its bindings go to `sink`.
fn get_over<L: Link, S: Sink>(link: &mut L, names: &[Oid], sink: &mut S) -> Result<WalkEnd, Fault> {
    if are_sendable(names) {
        Ok(run_get(link, names, b"public", 1, 0, sink))
    } else {
        Err(Fault::Wrong)
    }
}

/// Checks that a walk or a Get is done. Memory was reserved for it, so each other end is wrong.
fn is_done(end: &WalkEnd) -> Result<(), Fault> {
    match end {
        WalkEnd::Done(_) => Ok(()),
        _ => Err(Fault::Wrong),
    }
}

/// Checks `Lexer`. Appends the tokens of a text, and its fault if it has one, with a newline after
/// each.
pub fn check_lexer(alloc: Global, text: &[u8], room: &mut Room<'_>) -> Result<(), Fault> {
    let _begun = mark(alloc)?;
    'tokens: for token in Lexer::new(text) {
        room.append_line(match token {
            Ok(token) => token.text,
            Err(LexError::BadByte { .. }) => b"a bad octet",
            Err(LexError::OpenString { .. }) => b"an open string",
        });
    }
    let _ended = mark(alloc)?;
    Ok(())
}

/// Checks `Module::define` and `Module::import` of a name, in each module of a text. Appends the
/// label of the definition if the module has one, and the module that the name is imported from if
/// it is imported.
pub fn check_find(
    alloc: Global,
    text: &[u8],
    name: &[u8],
    room: &mut Room<'_>,
) -> Result<(), Fault> {
    let modules = modules_of(alloc, text)?;
    let _begun = mark(alloc)?;
    'modules: for module in &modules {
        if let Some(def) = module.define(name) {
            room.append_line(def.label.as_bytes());
        }
        if let Some(import) = module.import(name) {
            room.append_line(import.source.as_bytes());
        }
    }
    let _ended = mark(alloc)?;
    Ok(())
}

/// Checks the look-ups in a loaded tree. Appends for each node the identifiers of the nodes that
/// are found by its label in its module, by its label in all modules, by its identifier, as its
/// first child, and by this child's label. Appends a line if the tree has the node's module, one if
/// `syntax_of` returns a syntax, and one if `index_of` returns an index.
pub fn check_look_ups(alloc: Global, text: &[u8], room: &mut Room<'_>) -> Result<(), Fault> {
    let tree = tree_of(alloc, text)?;
    let _begun = mark(alloc)?;
    'nodes: for id in 0..tree.len() {
        append_look_ups(&tree, id, room);
    }
    let _ended = mark(alloc)?;
    Ok(())
}

/// Appends what is looked up for a node.
fn append_look_ups(tree: &Tree, id: NodeId, room: &mut Room<'_>) {
    if id >= tree.len() {
        return;
    }
    let node = tree.node(id);
    if let Some(home) = node.home {
        append_node(tree, tree.find(home.name.as_bytes(), node.label), room);
        if tree.has_module(home.name.as_bytes()) {
            room.append_line(b"in a module");
        }
    }
    append_node(tree, tree.find_any(node.label), room);
    let oid = node.oid.to_oid();
    let (deepest, _rest) = tree.deepest(&oid);
    append_node(tree, deepest, room);
    let mut children = tree.children(&oid);
    if let Some(child) = children.next() {
        append_child(tree, &oid, child, room);
    }
    if tree.syntax_of(id).is_some() {
        room.append_line(b"with a syntax");
    }
    if tree.index_of(id).is_some() {
        room.append_line(b"with an index");
    }
}

/// Appends the identifier of the node that was found, if there is one.
fn append_node(tree: &Tree, found: Option<NodeId>, room: &mut Room<'_>) {
    if let Some(id) = found {
        if id < tree.len() {
            room.append_name(&tree.node(id).oid.to_oid());
        }
    }
}

/// Appends the identifier of a child, and the identifier of the child found for its label.
fn append_child(tree: &Tree, parent: &Oid, child: NodeId, room: &mut Room<'_>) {
    append_node(tree, Some(child), room);
    if child < tree.len() {
        append_node(tree, tree.child(parent, tree.node(child).label), room);
    }
}

/// Checks `resolve` of a name, with a loaded tree. Appends the identifier, or a line for a fault.
pub fn check_resolve(
    alloc: Global,
    text: &[u8],
    name: &[u8],
    room: &mut Room<'_>,
) -> Result<(), Fault> {
    let tree = tree_of(alloc, text)?;
    let _begun = mark(alloc)?;
    let meaning = resolve(&tree, name);
    let _ended = mark(alloc)?;
    match meaning {
        Ok(name) => room.append_name(&name),
        Err(_) => room.append_line(b"a fault"),
    }
    Ok(())
}

/// Checks `resolve_front` of a text that begins with a name, which a `|` may end. The names are
/// those of a loaded tree. Appends the identifier and the text after the name, or a line for a
/// fault.
pub fn check_resolve_front(
    alloc: Global,
    modules: &[u8],
    text: &[u8],
    room: &mut Room<'_>,
) -> Result<(), Fault> {
    let tree = tree_of(alloc, modules)?;
    let _begun = mark(alloc)?;
    let meaning = resolve_front(&tree, text, b'|');
    let _ended = mark(alloc)?;
    match meaning {
        Ok((name, size)) => {
            room.append_name(&name);
            room.append_line(text.get(size..).unwrap_or(&[]));
        }
        Err(_) => room.append_line(b"a fault"),
    }
    Ok(())
}

/// Checks `Letters::parse`. Appends a line if all octets of a text are letters of `-O`, otherwise
/// the first that isn't one.
pub fn check_letters(alloc: Global, text: &[u8], room: &mut Room<'_>) -> Result<(), Fault> {
    let _begun = mark(alloc)?;
    let letters = Letters::parse(text);
    let _ended = mark(alloc)?;
    match letters {
        Ok(_) => room.append_line(b"all"),
        Err(octet) => room.append_line(&[octet]),
    }
    Ok(())
}

/// Checks `Hint::parse`. Appends whether a text is a hint, and whether it is one of integers.
pub fn check_hint(alloc: Global, text: &[u8], room: &mut Room<'_>) -> Result<(), Fault> {
    let _begun = mark(alloc)?;
    let hint = Hint::parse(text);
    let _ended = mark(alloc)?;
    match hint {
        Some(hint) if hint.is_number() => room.append_line(b"of integers"),
        Some(_) => room.append_line(b"of octets"),
        None => room.append_line(b"no hint"),
    }
    Ok(())
}
