//! A read-only agent: the replies to the requests of SNMPv2c, from octets to octets (RFC 3416,
//! section 4.2).
//!
//! The messages are those of `snmp_wire`. A table stores the value of each instance. A server, or a
//! link in memory of `snmp_walk`, passes the datagrams to the agent.
//!
//! # Examples
//!
//! A table is read, and its agent drops a datagram that isn't a message:
//!
//! ```
//! let table = Table::read(alloc, b"1.3.6.1.2.1.1.5.0|4|wes\n")?;
//! let config = Config {
//!     community: b"public",
//!     max_size: 1472,
//! };
//! let mut reply = [0; 65507];
//! let outcome = answer(&table, &config, b"no message", &mut reply);
//! assert!(rt; matches!(outcome, Outcome::Dropped(_)));
//! let name = parse_numeric(b"1.3.6.1.2.1.1.5.0")?;
//! assert!(rt; table.get(&name) == ValueRef::Octets(b"wes"));
//! assert!(rt; table.get(&parse_numeric(b"1.3.6.1.2.1.1.6.0")?) == ValueRef::NoSuchObject);
//! ```
#![tactic(auto)]

mod agent;
mod answers;
mod bulk;
mod config;
mod cursor;
mod endpoint;
mod laws;
mod room;
mod server;
mod table;

pub use agent::answer_near;
pub use config::{Config, DropReason, Outcome};
pub use endpoint::{Endpoint, EndpointFault};
pub use server::{Served, serve, serve_at};
pub use table::{Hint, NumericNames, Resolver, Table, TableError};

// The program `snmp` needs none of these when it runs: the reply to a single request, what a
// program needs that changes a table itself, and laws.
pub use agent::answer;
pub use laws::{
    changed_rows, no_fault, one_answer, one_fault, one_reply, one_table, shortest_reply,
    table_of_lines, unmarked_table,
};
pub use table::{PutError, Successors};
