//! The nodes of a tree, and the parts of a node that are read from its source.
ghost use Rattle.std.specs.{Prelude.◌≡◌, Option.option_copied};
ghost use Rattle.smi_tree.specs.Nodes.{is_named};
ghost use Rattle.smi_tree.specs.Indices.{home_from, label_from, definition_from};
ghost use Rattle.smi_names.specs.chains.Order.{option_at};

use smi_names::{Source, root_label};
use smi_text::{Def, Module};
use snmp_oid::StoredOid;

/// A node of a tree: a definition with an identifier, or a root.
#[derive(Clone, Copy, Debug)]
pub struct Node<'a> {
    /// The module that defines it; `None` for a root.
    pub home: Option<&'a Module>,
    /// Its label.
    pub label: &'a [u8],
    /// Its identifier.
    pub oid: &'a StoredOid,
    /// Its definition; `None` for a root.
    pub definition: Option<&'a Def>,
}

/// Returns the value at index `id` of `list`. Returns `None` past the end too.
pub(crate) fn copy_at<T: Copy>(list: &[Option<T>], id: usize) -> Option<T>
    ensures { result ≡ option_at list.now id }
{
    *list.get(id)?
}

/// Returns the module of a source, or `None` for a root or if `modules` doesn't have the module.
pub(crate) fn home(modules: &[Module], source: Source) -> Option<&Module>
    ensures { option_copied result ≡ home_from modules.now source }
{
    match source {
        Source::Root(_) => None,
        Source::Definition(id, _) => modules.get(id),
    }
}

/// Returns whether a source is in a module of this name.
pub(crate) fn is_in_module(modules: &[Module], source: Source, name: &[u8]) -> bool
    ensures { result ≡ is_named name.now (home_from modules.now source) }
{
    matches!(home(modules, source), Some(module) if module.name.as_bytes() == name)
}

/// Returns the definition of a source, or `None` for a root or if `modules` doesn't have the
/// definition.
pub(crate) fn definition(modules: &[Module], source: Source) -> Option<&Def>
    ensures { option_copied result ≡ definition_from modules.now source }
{
    match source {
        Source::Root(_) => None,
        Source::Definition(id, k) => modules.get(id)?.defs.as_slice().get(k),
    }
}

/// Returns the label of a source. It is empty if `modules` doesn't have the source's definition.
pub(crate) fn label(modules: &[Module], source: Source) -> &[u8]
    ensures { result.now ≡ label_from modules.now source }
{
    match source {
        Source::Root(number) => root_label(number),
        Source::Definition(_, _) => match definition(modules, source) {
            Some(def) => def.label.as_bytes(),
            None => b"",
        },
    }
}
