//! The indexes of columns: how the numbers after a column's identifier encode values, by the INDEX
//! or AUGMENTS clause of its row.
//!
//! Depends on the nodes of modules and on the types of their objects. The tree of names stores the
//! index of each of its nodes.

mod index_part;
mod indexes;
mod objects;
mod part;
mod rows;

pub use index_part::{Extent, IndexPart};
pub use indexes::Indexes;
