//! What names mean in modules. A definition, an import or the list of roots decides what a name
//! means. A name can refer to another, which can refer to a third, and so on: this chain is
//! followed.
//!
//! Depends on parsed modules and on chains. The nodes are made from what is resolved here, and the
//! tree of names follows names to types and to definitions.

mod along;
mod base;
mod directory;
mod entries;
mod entry;
mod names;
mod parents;
mod scope;

pub use along::{Meaning, References};
pub use base::TypeBase;
pub use entries::Entries;
pub use entry::{Decider, Entry};
pub use names::Names;
pub use scope::{import_clauses, root_arc, root_label};
