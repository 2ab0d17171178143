//! Chains of names: a name can refer to another, which can refer to a third, and so on. The names
//! whose chains end are found without recursion, each after the name that it refers to, and are
//! resolved in this order.
//!
//! Depends only on object identifiers: here a name is represented by its index.

mod order;
mod shared;

pub use order::topological_order;
pub use shared::Resolution;
pub(crate) use shared::{CYCLE, Shared, UNRESOLVED, push_extended, reasons, resolve_through};
