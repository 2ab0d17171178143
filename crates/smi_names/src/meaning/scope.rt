//! The names that have a meaning in a module.
ghost use Rattle.std.specs.Prelude.{◌≡◌, ℕ, List, [], ◌∷◌, ◌++◌, Some, None, option_map, OnOk};
ghost use Rattle.std.specs.Prelude.{IfOk, All, if◌then◌else◌};
ghost use Rattle.indexmap.specs.IndexMap.{hasher_of};
ghost use Rattle.smi_text.specs.trees.Lookup.{first_definition, first_import};
ghost use Rattle.smi_text.specs.trees.Lookup as lookup;
ghost use Rattle.smi_text.specs.trees.Mark.{same_text};
ghost use Rattle.smi_names.specs.meaning.Meaning.{defined, imported, root, decision};
ghost use Rattle.smi_names.specs.meaning.Meaning as meaning;
ghost use Rattle.smi_names.specs.declared.meaning.entry.Entry.{Entry};
ghost use Rattle.smi_names.specs.meaning.Scopes.{decision_of, decided_as, known, IsWithin};
ghost use Rattle.smi_names.specs.meaning.Scopes.{IsDefinedAt, IsDecided, IsEntryOf, KnowsMore};

use crate::hash::NameHash;
use crate::indices::{NameIndices, insert_if_absent};
use crate::meaning::entry::{Decider, Entry};
use crate::name::NameRef;
use indexmap::IndexMap;
use smi_text::{Import, Module};
use std::alloc::{AllocError, Global};

/// Appends `entry`, and enters its name with the entry's index into `scope`. Does nothing if
/// `scope` has the name.
fn enter<'a>(
    entries: &mut Vec<Entry<'a>>,
    scope: &mut NameIndices<'a>,
    entry: Entry<'a>,
) -> Result<(), AllocError>
    requires within { IsWithin entries.old.items scope.old }
    requires found { IsDefinedAt entry }
    ensures entered { OnOk result (KnowsMore entries.old.items scope.old entries.new.items
        scope.new entry.entry.«module».now entry.entry.source.0
        (λ x. if same_text entry.entry.name.now x then Some (decision_of entry.entry.decider)
        else None)) }
{
    let index = entries.len();
    let first = insert_if_absent(scope, NameRef::new(entry.name), index)?;
    if first < index {
        return Ok(());
    }
    entries.push(entry)?;
    Ok(())
}

/// Enters the labels of the definitions of `module`, except those that `scope` has.
fn enter_definitions<'a>(
    entries: &mut Vec<Entry<'a>>,
    scope: &mut NameIndices<'a>,
    module: &'a Module,
    index: usize,
) -> Result<(), AllocError>
    requires { IsWithin entries.old.items scope.old }
    ensures entered { OnOk result (KnowsMore entries.old.items scope.old entries.new.items
        scope.new «module».now index
        (λ x. option_map defined (first_definition x «module».now.defs))) }
{
    let defs = module.defs.as_slice();
    'defs: for (k, def) in defs.iter().enumerate() {
        let entry = Entry {
            module,
            name: def.label.as_bytes(),
            decider: Decider::Definition(def),
            source: (index, k),
        };
        enter(entries, scope, entry)?;
    }
    Ok(())
}

/// Enters the symbols of a FROM clause, except those that `scope` has.
fn enter_symbols<'a>(
    entries: &mut Vec<Entry<'a>>,
    scope: &mut NameIndices<'a>,
    module: &'a Module,
    index: usize,
    import: &'a Import,
) -> Result<(), AllocError>
    requires { IsWithin entries.old.items scope.old }
    ensures entered { OnOk result (KnowsMore entries.old.items scope.old entries.new.items
        scope.new «module».now index
        (λ x. option_map imported (first_import x (import.now ∷ [])))) }
{
    let symbols = import.symbols.as_slice();
    'symbols: for symbol in symbols {
        let entry = Entry {
            module,
            name: symbol.text.as_bytes(),
            decider: Decider::Import(import),
            source: (index, 0),
        };
        enter(entries, scope, entry)?;
    }
    Ok(())
}

/// Enters the symbols of the FROM clauses `imports`, except those that `scope` has.
fn enter_imports<'a>(
    entries: &mut Vec<Entry<'a>>,
    scope: &mut NameIndices<'a>,
    module: &'a Module,
    index: usize,
    imports: &'a [Import],
) -> Result<(), AllocError>
    requires { IsWithin entries.old.items scope.old }
    ensures entered { OnOk result (KnowsMore entries.old.items scope.old entries.new.items
        scope.new «module».now index
        (λ x. option_map imported (first_import x imports.now))) }
{
    'imports: for import in imports {
        enter_symbols(entries, scope, module, index, import)?;
    }
    Ok(())
}

/// Returns the label of the root with a number from 0 to 2; any greater number counts as 2 (RFC
/// 2578, section 3.5).
pub fn root_label(number: u32) -> &'static [u8]
    ensures { result.now ≡ meaning.root_label number }
{
    match number {
        0 => b"ccitt",
        1 => b"iso",
        _ => b"joint-iso-ccitt",
    }
}

/// Returns the number of the root with this label, if one has it (RFC 2578, section 3.5).
pub fn root_arc(label: &[u8]) -> Option<u32>
    ensures { result ≡ meaning.root_arc label.now }
{
    if root_label(0) == label {
        Some(0)
    } else if root_label(1) == label {
        Some(1)
    } else if root_label(2) == label {
        Some(2)
    } else {
        None
    }
}

/// Returns the entry of the root `number` in `module`, which has the index `index`.
fn root_entry<'a>(module: &'a Module, index: usize, number: u32) -> Entry<'a>
    ensures entry { (result.«module».now ≡ «module».now)
        × (result.name.now ≡ meaning.root_label number)
        × (decision_of result.decider ≡ root number) × (result.source.0 ≡ index) }
    ensures found { IsDefinedAt result }
{
    Entry {
        module,
        name: root_label(number),
        decider: Decider::Root(number),
        source: (index, 0),
    }
}

/// Enters the names of the roots (RFC 2578, section 3.5), except those that `scope` has.
fn enter_roots<'a>(
    entries: &mut Vec<Entry<'a>>,
    scope: &mut NameIndices<'a>,
    module: &'a Module,
    index: usize,
) -> Result<(), AllocError>
    requires { IsWithin entries.old.items scope.old }
    ensures entered { OnOk result (KnowsMore entries.old.items scope.old entries.new.items
        scope.new «module».now index
        (λ x. option_map root (meaning.root_arc x))) }
{
    enter(entries, scope, root_entry(module, index, 0))?;
    enter(entries, scope, root_entry(module, index, 1))?;
    enter(entries, scope, root_entry(module, index, 2))?;
    Ok(())
}

/// Returns the FROM clauses of a module, none if it has no IMPORTS.
pub fn import_clauses(module: &Module) -> &[Import]
    ensures { result.now ≡ lookup.import_clauses «module».now }
{
    match &module.imports {
        Some(imports) => imports.as_slice(),
        None => &[],
    }
}

/// Appends an entry for each name that has a meaning in `module`, and returns a map from these
/// names to the indices of their entries. `index` is the index of the module.
pub(crate) fn scope<'a>(
    alloc: Global,
    hash: NameHash,
    entries: &mut Vec<Entry<'a>>,
    module: &'a Module,
    index: usize,
) -> Result<NameIndices<'a>, AllocError>
    ensures decided { IfOk result (λ scope. (x : List ℕ)
        → known entries.new.items scope x ≡ decided_as «module».now x (decision «module».now x)) }
    ensures within { IfOk result (λ scope. IsWithin entries.new.items scope) }
    ensures grown { IfOk result (λ _. (added : List Entry)
        × (entries.new.items ≡ entries.old.items ++ added)
        × All (IsEntryOf «module».now index) added × All IsDecided added) }
    ensures hashed { IfOk result (λ scope. hasher_of scope ≡ hash) }
{
    let mut scope = IndexMap::with_capacity_and_hasher(alloc, module.defs.len(), hash)?;
    enter_definitions(entries, &mut scope, module, index)?;
    enter_imports(entries, &mut scope, module, index, import_clauses(module))?;
    enter_roots(entries, &mut scope, module, index)?;
    Ok(scope)
}
