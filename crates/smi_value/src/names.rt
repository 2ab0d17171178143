//! The names of numbers or bits, and an index to find them by number.
ghost use Rattle.std.specs.Prelude.{◌≡◌, [], IfOk, IfSome, length, nat_lt, option_copied};
ghost use Rattle.std.specs.List.{find};
ghost use Rattle.smi_value.specs.Syntax.{IsIndexOf, is_number_of, name_of_number};

use crate::syntax::first_name;
use smi_text::{NamedNumber, number};
use std::alloc::{AllocError, Global};
use std::collections::BTreeMap;
use std::marker::Model;

/// The largest number of names that are searched without an index. A search takes some 30
/// instructions for each name up to the one that is found, so 250 on average among 16 names. A
/// look-up in an index takes 100 to 250 among 17 names, and 500 to 700 among 10,000.
const MOST_SEARCHED: usize = 16;

/// An index of a list of names: for each number that has a name, the position of its first name.
#[derive(Drop)]
pub struct NumberIndex {
    positions: BTreeMap<i128, usize>,
}

impl NumberIndex {
    /// Returns whether `names` has more than 16 names. An index then makes it faster to find one.
    pub fn is_useful(names: &[NamedNumber]) -> bool
        ensures { result ≡ nat_lt 16 (length names.now) }
    {
        names.len() > MOST_SEARCHED
    }

    /// Returns the index of a list of names. It has no name whose number is out of the range of
    /// [`number`].
    pub fn new(alloc: Global, names: &[NamedNumber]) -> Result<NumberIndex, AllocError>
        ensures { IfOk result (IsIndexOf names.now) }
    {
        let mut positions = BTreeMap::new(alloc);
        // From the last name to the first, so that the first name of a number replaces all later
        // ones.
        'names: for position in (0..names.len()).rev() {
            if let Some(n) = number(names[position].number.as_bytes()) {
                positions.insert(n, position)?;
            }
        }
        Ok(NumberIndex { positions })
    }

    /// Returns the first of `names` with the number `n`, if there is one. This must be the index
    /// of `names`.
    fn first_of<'a>(&self, names: &'a [NamedNumber], n: i128) -> Option<&'a NamedNumber>
        requires { IsIndexOf names.now self.now }
        ensures { option_copied result ≡ find (is_number_of n) names.now }
    {
        names.get(*self.positions.get(&n)?)
    }

    /// Returns what [`first_name`] returns. This must be the index of `names`.
    fn name_of<'a>(&self, names: &'a [NamedNumber], n: i128) -> Option<&'a [u8]>
        requires { IsIndexOf names.now self.now }
        ensures { option_copied result ≡ name_of_number names.now n }
    {
        Some(self.first_of(names, n)?.name.as_bytes())
    }
}

/// A list of names of numbers or bits, with its index, if it has one. It borrows both.
#[derive(Drop)]
pub(crate) struct NumberNames<'a> {
    list: &'a [NamedNumber],
    index: Option<&'a NumberIndex>,
}

impl<'a> Model for NumberNames<'a> {
    ghost use Rattle.std.specs.Prelude.{IfSome, List, option_copied};
    ghost use Rattle.smi_text.specs.declared.trees.tree.NamedNumber.{NamedNumber};
    ghost use Rattle.smi_value.specs.Syntax.{IsIndexOf};

    ghost Value = { List NamedNumber };

    ghost view = { λ s. s.list.now };

    ghost invariant = { λ s. IfSome (option_copied s.index) (IsIndexOf s.list.now) };
}

impl<'a> NumberNames<'a> {
    /// Returns no names.
    pub(crate) fn none() -> NumberNames<'a>
        ensures { result ≡ [] }
    {
        NumberNames {
            list: &[],
            index: None,
        }
    }

    /// Returns the names of a list. `index` is its index, if it has one.
    pub(crate) fn new(list: &'a [NamedNumber], index: Option<&'a NumberIndex>) -> NumberNames<'a>
        requires { IfSome (option_copied index) (IsIndexOf list.now) }
        ensures { result ≡ list.now }
    {
        NumberNames { list, index }
    }

    /// Returns the same names.
    pub(crate) fn copy(&self) -> NumberNames<'a>
        ensures { result ≡ self.now }
    {
        NumberNames::new(self.list, self.index)
    }

    /// Returns the name of the number `n`, if it has one: the first if it has several.
    #[inline]
    pub(crate) fn name_of(&self, n: i128) -> Option<&'a [u8]>
        ensures { option_copied result ≡ name_of_number self.now n }
    {
        match (self.list, self.index) {
            // Most objects have no named numbers.
            ([], _) => None,
            (list, None) => first_name(list, n),
            (list, Some(index)) => index.name_of(list, n),
        }
    }
}
