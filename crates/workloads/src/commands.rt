//! Command lines over files, agents and outputs in memory.

use crate::digest::Digest;
use snmp_io::memory::{MemoryFiles, MemoryOutput};
use snmp_net::memory::{MemoryAgent, MemoryLinks};
use snmp_tools::tool;
use std::alloc::{AllocError, Global};

/// Files: paths with their texts.
pub type Held<'a> = &'a [(&'a str, &'a [u8])];

/// Runs a command line, whose words stand between spaces, over files and agents, and adds its
/// outputs and its status to the digest.
pub fn run(
    alloc: Global,
    line: &str,
    files: Held<'_>,
    agents: &[MemoryAgent<'_>],
    digest: &mut Digest,
) -> Result<(), AllocError> {
    let words: Vec<&str> = line.split(' ').collect(alloc)?;
    let files = MemoryFiles { files };
    let mut links = MemoryLinks::new(alloc, agents, &[]);
    let mut out = MemoryOutput::new(alloc);
    let mut err = MemoryOutput::new(alloc);
    let status = tool(alloc, &words, &files, &mut links, &mut out, &mut err);
    digest.add(out.octets());
    digest.add(err.octets());
    digest.add_number(u64::from(status));
    Ok(())
}
