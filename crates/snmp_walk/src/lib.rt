//! The walk, which finds the instances below a root by one request after the other (RFC 3416,
//! section 4.2), and the Get of several names.
//!
//! [`WalkCore`] says which request to send and reads the reply. [`run_walk`] and [`run_get`] send
//! requests and receive replies over a [`Link`], and pass the bindings that belong to the walk or
//! the Get to a [`Sink`].
//!
//! # Examples
//!
//! A subtree of the table of an agent in memory, walked by GetBulk. `Count` is a sink of the
//! caller's that counts rows.
//!
//! ```
//! let table = Table::read(alloc, b"1.3.6.1.2.1.1.3.0|67|42\n1.3.6.1.2.1.1.5.0|4|wes\n")?;
//! let config = Config {
//!     community: b"public",
//!     max_size: 1472,
//! };
//! let root = parse_numeric(b"1.3.6.1.2.1.1")?;
//! let start = WalkCore::start(root, Mode::Plain, Method::Bulk(10), b"public", 1);
//! let core = start.expect(rt, "a root that can be sent");
//! let mut link = MemoryLink::new(alloc, &table, config, &[]);
//! let mut sink = Count { rows: 0 };
//! assert!(rt; run_walk(&mut link, core, 5, &mut sink) == WalkEnd::Done(2));
//! assert!(rt; sink.rows == 2);
//! ```
#![tactic(auto)]

mod arena;
mod end;
mod get;
mod laws;
mod link;
mod loose;
mod memory;
mod memory_network;
mod mode;
mod network;
mod root;
mod rows;
mod run;
mod sink;
mod tries;
mod walk_core;

pub use end::{LinkFault, SinkFault, StartError, WalkEnd};
pub use get::run_get;
pub use link::Link;
pub use memory::MemoryLink;
pub use mode::{Method, Mode, Phase};
pub use rows::{Rows, Step};
pub use run::run_walk;
pub use sink::Sink;
pub use walk_core::WalkCore;

// Laws, which serve proofs only; and walks over a `Network` or a `LooseLink`, which only tests run.
pub use laws::{
    appended_bindings, honest_networks, instances_below, loose_replies, lower_ids, messages_mean,
    names_below, parts_of_lists, requests_are_short, rest_of_a_walk, short_rows_have_room,
};
pub use loose::{LooseLink, Way, walk_loose};
pub use memory_network::{Delivery, MemoryNetwork};
pub use network::{Network, NetworkLink, walk_served};
