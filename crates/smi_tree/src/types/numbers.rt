//! Indexes of the long lists of named numbers or bits in modules.
ghost use Rattle.std.specs.Prelude.{◌≡◌, IfOk, OnOk, IfSome};
ghost use Rattle.smi_tree.specs.types.Numbers.{AreNumbersOf, AreNumbersOfAll, IsIndexIn};

use crate::syntax::names_in_definition;
use smi_text::{Def, Module};
use smi_value::NumberIndex;
use std::alloc::{AllocError, Global};
use std::collections::BTreeMap;

/// The indexes of the long lists of named numbers or bits in a module. The key is the index of the
/// definition that has the list.
pub(super) type ListIndexes = BTreeMap<usize, NumberIndex>;

/// Returns the index of the named numbers or bits in a definition, if they are a long list.
fn index_of(alloc: Global, def: &Def) -> Result<Option<NumberIndex>, AllocError>
    ensures { IfOk result (λ index. IfSome index (IsIndexIn def.now)) }
{
    match names_in_definition(def) {
        Some(names) if NumberIndex::is_useful(names) => Ok(Some(NumberIndex::new(alloc, names)?)),
        _ => Ok(None),
    }
}

/// Returns the indexes of the long lists of named numbers or bits in `defs`, the definitions of a
/// module.
fn indexes_of(alloc: Global, defs: &[Def]) -> Result<ListIndexes, AllocError>
    ensures { IfOk result (AreNumbersOf defs.now) }
{
    let mut numbers = BTreeMap::new(alloc);
    'defs: for (k, def) in defs.iter().enumerate() {
        if let Some(index) = index_of(alloc, def)? {
            numbers.insert(k, index)?;
        }
    }
    Ok(numbers)
}

/// Returns, for each module, the indexes of its long lists of named numbers or bits.
pub(super) fn number_indexes(
    alloc: Global,
    modules: &[Module],
) -> Result<Vec<ListIndexes>, AllocError>
    ensures { IfOk result (λ numbers. AreNumbersOfAll modules.now numbers.items) }
{
    let mut numbers = Vec::with_capacity(alloc, modules.len())?;
    'modules: for module in modules {
        numbers.push(indexes_of(alloc, module.defs.as_slice())?)?;
    }
    Ok(numbers)
}
