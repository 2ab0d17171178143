//! The tools: each job from the arguments of its command line to the lines that it prints.
//!
//! Built on the command line (`snmp_words`), on outputs and files (`snmp_io`), on tables and walks
//! (`snmp_agent`, `snmp_walk`, `snmp_net`), and on names and values as text (`smi_show`). The
//! program `snmp` passes it the files, network and outputs of the machine.
//!
//! # Examples
//!
//! A command line over files, agents and outputs in memory:
//!
//! ```
//! let files = MemoryFiles {
//!     files: &[("rows.tab", b"1.3.6.1.2.1.1.5.0|4|wes\n")],
//! };
//! let mut links = MemoryLinks::new(alloc, &[], &[]);
//! let mut out = MemoryOutput::new(alloc);
//! let mut err = MemoryOutput::new(alloc);
//! let words = ["snmp", "snmpget", "-On", "table:rows.tab", ".1.3.6.1.2.1.1.5.0"];
//! assert!(rt; tool(alloc, &words, &files, &mut links, &mut out, &mut err) == 0);
//! assert_eq!(rt; out.octets(), b".1.3.6.1.2.1.1.5.0 = STRING: \"wes\"\n".as_slice());
//! ```
#![tactic(auto)]

mod entry;
mod failure;
mod job;
mod laws;
mod load;
mod messages;
mod names;
mod plan;
mod run;
mod serve;
mod table_names;
mod translate;

pub use entry::tool;
pub use job::run_job;
pub use snmp_io::{FileFault, Files, Output, OutputFault};
pub use snmp_net::Links;
pub use snmp_words::{
    Asking, GetJob, Job, ServeJob, TranslateJob, UsageError, WalkJob, read_words,
};

// For tests: why a job wasn't done, with the messages. For callers that load module files without a
// job: `load_tree` and its error.
pub use failure::Failure;
pub use load::{FilesError, load_tree};

// Laws: calls that do nothing, whose callers may use what they ensure.
pub use laws::{memory_serves_in_turn, served_tables, served_walks_in_numbers};
