//! The instance part of a name: the values of a row's index, their encoding as numbers, and their
//! text.
//!
//! `crate::name` builds on this module; the tree of loaded modules has the parts of an index.
ghost use Rattle.std.specs.Prelude.{◌≡◌, ℕ, ◌↔◌, List, IsTrue};
ghost use Rattle.smi_show.specs.{index.Index.ReadValues};
ghost use Rattle.smi_tree.specs.declared.columns.index_part.IndexPart.{IndexPart};

mod part;
mod shown;

pub use part::{one_part_reading, read_part};
pub use shown::{index_text, is_quotable, numbers_text, pieces_represent_numbers};
use smi_tree::IndexPart;

/// Returns whether `numbers` consists of one encoded value for each of `parts`, one after the
/// other (RFC 2578, section 7.7). A value after IMPLIED takes all numbers that remain.
pub fn reads(parts: &[IndexPart], numbers: &[u32]) -> bool
    ensures { IsTrue result
        ↔ ((values : List (List ℕ)) × ReadValues parts.now numbers.now values) }
{
    let mut left = numbers;
    'parts: for part in parts {
        match read_part(*part, left) {
            Some((_, rest)) => left = rest,
            None => return false,
        }
    }
    left.is_empty()
}

/// For the same `parts`, a list of numbers encodes at most one list of values.
///
/// A law: the call does nothing, and its caller may use what it ensures.
#[tactic(auto, using(crate::proofs::IndexValues::one_reading_of_all))]
#[inline]
pub fn one_list()
    ensures { (parts : List IndexPart) (numbers : List ℕ) (values others : List (List ℕ))
        → ReadValues parts numbers values → ReadValues parts numbers others → values ≡ others }
{}
