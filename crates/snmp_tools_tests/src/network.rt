//! Walks and Gets over the network, here links in memory.

use crate::run::{NO_LIMITS, Run, THREE, THREE_LINES, assert_runs_over};
use snmp_agent::{Config, Table};
use snmp_net::memory::{MemoryAgent, MemoryLinks};
use std::alloc::Global;
use std::process::Abort;
use std::test::Fail;

/// Returns the agent that serves `table` at port 1161 of `device`, with community `secret`. Each
/// link to it has these deliveries.
fn device<'a>(table: &'a Table, deliveries: &'a [Option<usize>]) -> MemoryAgent<'a> {
    MemoryAgent {
        host: "device",
        port: 1161,
        table,
        config: Config {
            community: b"secret",
            max_size: 1472,
        },
        deliveries,
    }
}

/// Asserts the runs over links to the device, which have these deliveries.
fn assert_runs_at_device(
    rt: &impl Abort,
    alloc: Global,
    deliveries: &[Option<usize>],
    runs: &[Run<'_>],
) -> Result<(), Fail> {
    let table = Table::read(alloc, THREE)?;
    let agents = [device(&table, deliveries)];
    let mut links = MemoryLinks::new(alloc, &agents, &[]);
    assert_runs_over(rt, alloc, &[], &mut links, NO_LIMITS, runs);
    Ok(())
}

const SILENT: &str = "Timeout: No Response from device:1161.\n";

#[test]
fn late_replies_change_no_line(rt: HostRuntime) -> Result<(), Fail> {
    assert_runs_at_device(
        &rt,
        rt.alloc(),
        &[Some(1), Some(1), None, Some(2)],
        &[(
            "snmp snmpwalk -On -csecret device:1161 .1.3.6.1.4.1.32473.1",
            THREE_LINES,
            "",
            0,
        )],
    )
}

#[test]
fn a_walk_ends_if_no_reply_arrives(rt: HostRuntime) -> Result<(), Fail> {
    const FIRST_LINE: &str = ".1.3.6.1.4.1.32473.1.1.0 = INTEGER: 1\n";
    assert_runs_at_device(
        &rt,
        rt.alloc(),
        &[Some(1), None, None, None, None, None, None],
        &[
            (
                "snmp snmpwalk -On -r5 -csecret device:1161 .1.3.6.1.4.1.32473.1",
                FIRST_LINE,
                SILENT,
                1,
            ),
            (
                "snmp snmpwalk -On -r0 -csecret device:1161 .1.3.6.1.4.1.32473.1",
                FIRST_LINE,
                SILENT,
                1,
            ),
            (
                "snmp snmpwalk -On -r3 -csecret device:1161 .1.3.6.1.4.1.32473.1",
                FIRST_LINE,
                SILENT,
                1,
            ),
            (
                "snmp snmpwalk -On -r6 -csecret device:1161 .1.3.6.1.4.1.32473.1",
                THREE_LINES,
                "",
                0,
            ),
        ],
    )
}

#[test]
fn an_agent_that_is_not_reached_is_reported(rt: HostRuntime) -> Result<(), Fail> {
    assert_runs_at_device(
        &rt,
        rt.alloc(),
        &[],
        &[
            (
                "snmp snmpwalk -On -csecret device .1.3.6.1.4.1.32473.1",
                "",
                "The link failed.\n",
                1,
            ),
            (
                "snmp snmpwalk -On device:1161 .1.3.6.1.4.1.32473.1",
                "",
                SILENT,
                1,
            ),
        ],
    )
}

#[test]
fn a_get_is_sent_again_until_its_reply_arrives(rt: HostRuntime) -> Result<(), Fail> {
    const LINE: &str = ".1.3.6.1.4.1.32473.1.1.0 = INTEGER: 1\n";
    assert_runs_at_device(
        &rt,
        rt.alloc(),
        &[None, None, None, Some(1)],
        &[
            (
                "snmp snmpget -On -r3 -csecret device:1161 .1.3.6.1.4.1.32473.1.1.0",
                LINE,
                "",
                0,
            ),
            (
                "snmp snmpget -On -r3 -csecret udp:device:1161 .1.3.6.1.4.1.32473.1.1.0",
                LINE,
                "",
                0,
            ),
        ],
    )
}
