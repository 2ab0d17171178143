//! The network: which agent an argument names, links to agents over UDP, and the sockets of
//! servers (RFC 3417, section 3).
//!
//! Built on `snmp_walk`, which defines what a link is, and on `snmp_agent`. The tools open their
//! links here.
//!
//! # Examples
//!
//! Arguments that name agents:
//!
//! ```
//! let word = AgentAddress::read("192.0.2.1:1161");
//! assert!(rt; matches!(word, Some(AgentAddress::Udp(at)) if at.port == 1161));
//! let word = AgentAddress::read("table:rows.tab");
//! assert!(rt; matches!(word, Some(AgentAddress::Table("rows.tab"))));
//! ```
//!
//! A walk over UDP. The caller opens its link through the network of `rt`; a receive over it waits
//! up to one second:
//!
//! ```
//! let mut link = UdpLink::open(&rt, "192.0.2.1", 161, 1)?;
//! assert!(rt; run_walk(&mut link, core, 5, &mut sink) == WalkEnd::Done(2));
//! ```
#![tactic(auto)]

mod address;
mod links;
mod machine;
mod udp;

pub use address::{AgentAddress, UdpAddress};
pub use links::Links;
pub use machine::MachineLinks;
pub use udp::UdpLink;

// Links in memory, for tests and measurements.
pub mod memory;
