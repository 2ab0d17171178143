//! Walks and Gets of tables that snmpd serves, over networks that lose and repeat datagrams.

use super::{WalkLinks, walk_and_serve};
use crate::run::{OF_THREE, THREE, THREE_LINES};
use snmp_agent::{Config, Table};
use snmp_io::memory::{MemoryFiles, MemoryOutput};
use snmp_walk::Delivery;
use std::alloc::{AllocError, Global};
use std::process::Abort;
use std::test::Fail;

/// The command line of a walk or a Get, what it must print on standard output and on standard
/// error, and the status that is returned, if one is.
type Run<'a> = (&'a str, &'a str, &'a str, Option<u8>);

/// Returns whether the run prints its texts and its status is returned, over a network with these
/// deliveries, if `served` is the command line of snmpd at the other end.
fn prints<'a>(
    alloc: Global,
    deliveries: &'a [Delivery],
    table: &'a Table,
    served: &str,
    run: Run<'_>,
) -> Result<bool, AllocError> {
    let (line, lines, messages, status) = run;
    let config = Config {
        community: b"secret",
        max_size: 1472,
    };
    let links = WalkLinks::new(alloc, deliveries, table, config);
    let asking: Vec<&str> = line.split(' ').collect(alloc)?;
    let serving: Vec<&str> = served.split(' ').collect(alloc)?;
    let files = MemoryFiles { files: OF_THREE };
    let mut out = MemoryOutput::new(alloc);
    let mut err = MemoryOutput::new(alloc);
    let ended = walk_and_serve(alloc, links, &files, &asking, &serving, &mut out, &mut err);
    Ok(ended == status && out.octets() == lines.as_bytes() && err.octets() == messages.as_bytes())
}

/// The command line of snmpd, which serves the three rows for 100 turns.
const SERVED: &str = "snmp snmpd --table=t.tab -csecret --turns=100";

/// Asserts each of the runs, over networks with these deliveries, while snmpd serves the three
/// rows.
fn assert_prints(
    rt: &impl Abort,
    alloc: Global,
    deliveries: &[Delivery],
    runs: &[Run<'_>],
) -> Result<(), Fail> {
    let table = Table::read(alloc, THREE)?;
    for run in runs {
        let ended = prints(alloc, deliveries, &table, SERVED, *run);
        assert!(rt; matches!(ended, Ok(true)), "{}", run.0);
    }
    Ok(())
}

const WALK: &str = "snmp snmpwalk -On -csecret device .1.3.6.1.4.1.32473.1";

const BULK_WALK: &str = "snmp snmpbulkwalk -On -csecret device .1.3.6.1.4.1.32473.1";

const GET: &str = "snmp snmpget -On -csecret device .1.3.6.1.4.1.32473.1.10.0 \
.1.3.6.1.4.1.32473.1.1.0";

const GET_LINES: &str = ".1.3.6.1.4.1.32473.1.10.0 = INTEGER: 3\n\
.1.3.6.1.4.1.32473.1.1.0 = INTEGER: 1\n";

#[test]
fn the_rows_of_the_served_table_are_printed(rt: HostRuntime) -> Result<(), Fail> {
    assert_prints(
        &rt,
        rt.alloc(),
        &[],
        &[
            (WALK, THREE_LINES, "", Some(0)),
            (BULK_WALK, THREE_LINES, "", Some(0)),
            (GET, GET_LINES, "", Some(0)),
        ],
    )
}

/// The first datagram of the walk is lost, and the second arrives twice. Replies to the second
/// arrive three times, and the reply to the third is lost. The Get and the bulk walk end at the
/// first reply.
const LOSSES: &[Delivery] = &[
    Delivery::Nothing,
    Delivery::Request(2),
    Delivery::Request(2),
    Delivery::Reply(1),
    Delivery::Reply(2),
    Delivery::Request(3),
    Delivery::Reply(1),
    Delivery::Nothing,
];

#[test]
fn losses_and_repeats_change_no_line(rt: HostRuntime) -> Result<(), Fail> {
    assert_prints(
        &rt,
        rt.alloc(),
        LOSSES,
        &[
            (WALK, THREE_LINES, "", Some(0)),
            (BULK_WALK, THREE_LINES, "", Some(0)),
            (GET, GET_LINES, "", Some(0)),
        ],
    )
}

#[test]
fn requests_with_another_community_are_dropped(rt: HostRuntime) -> Result<(), Fail> {
    assert_prints(
        &rt,
        rt.alloc(),
        &[],
        &[(
            "snmp snmpwalk -On -r2 -cother device .1.3.6.1.4.1.32473.1",
            "",
            "Timeout: No Response from device.\n",
            Some(1),
        )],
    )
}

#[test]
fn a_run_that_snmpd_does_not_serve_has_no_status(rt: HostRuntime) -> Result<(), Fail> {
    let table = Table::read(rt.alloc(), THREE)?;
    let none = (WALK, THREE_LINES, "", None);
    for served in [
        // too few turns
        "snmp snmpd --table=t.tab -csecret --turns=11",
        // another community
        "snmp snmpd --table=t.tab -cother --turns=100",
        // no table
        "snmp snmpd --table=none.tab -csecret --turns=100",
    ] {
        let ended = prints(rt.alloc(), &[], &table, served, none);
        assert!(rt; matches!(ended, Ok(true)), "{served}");
    }
    let enough = "snmp snmpd --table=t.tab -csecret --turns=12";
    let all = (WALK, THREE_LINES, "", Some(0));
    assert!(rt; matches!(prints(rt.alloc(), &[], &table, enough, all), Ok(true)));
    Ok(())
}

/// A table whose only row has another value than the row of that name that snmpd serves.
const OTHER: &[u8] = b"1.3.6.1.4.1.32473.1.1.0|2|7\n";

#[test]
fn a_run_with_the_agent_of_another_table_has_no_status(rt: HostRuntime) -> Result<(), Fail> {
    let table = Table::read(rt.alloc(), OTHER)?;
    let line = ".1.3.6.1.4.1.32473.1.1.0 = INTEGER: 7\n";
    let ended = prints(rt.alloc(), &[], &table, SERVED, (WALK, line, "", None));
    assert!(rt; matches!(ended, Ok(true)));
    Ok(())
}
