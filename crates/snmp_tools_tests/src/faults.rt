//! Outputs that fail.

use crate::rows::{file_pairs, shared_files};
use crate::run::{Room, Run, assert_runs_within};
use std::alloc::{AllocError, Global};
use std::process::Abort;
use std::test::Fail;

/// The warnings about `tiny.txt`, a line each.
const WARNINGS: &str = "\
snmp: TINY-MIB imports absent from TINY-SMI, which has no absent
snmp: TINY-MIB imports from GONE-MIB, which is not loaded
snmp: TINY-MIB::loopA stands on a cycle
snmp: TINY-MIB::loopB stands on a cycle
";

/// Asserts the runs over the files of `rows/files.rt`, with outputs of each of these sizes.
fn assert_shared_runs(
    rt: &impl Abort,
    alloc: Global,
    rooms: &[Room],
    runs: &[Run<'_>],
) -> Result<(), AllocError> {
    let files = shared_files(rt, alloc)?;
    let files = file_pairs(alloc, files.as_slice())?;
    for room in rooms {
        assert_runs_within(rt, alloc, files.as_slice(), *room, runs);
    }
    Ok(())
}

#[test]
fn an_output_that_fails_ends_the_command(rt: HostRuntime) -> Result<(), Fail> {
    const FIRST_LINES: &str = ".1.3.6.1.4.1.32473.1.1.0 = INTEGER: 1\n.1";
    const FAILED: &str = "The output failed.\n";
    assert_shared_runs(
        &rt,
        rt.alloc(),
        &[(40, usize::MAX)],
        &[
            (
                "snmp snmpwalk -On table:three.tab .1.3.6.1.4.1.32473.1",
                FIRST_LINES,
                FAILED,
                1,
            ),
            (
                "snmp snmpget -On table:three.tab .1.3.6.1.4.1.32473.1.1.0 \
.1.3.6.1.4.1.32473.1.10.0",
                FIRST_LINES,
                FAILED,
                1,
            ),
        ],
    )?;
    assert_shared_runs(
        &rt,
        rt.alloc(),
        &[
            (0, usize::MAX),
            (3, usize::MAX),
            (6, usize::MAX),
            (9, usize::MAX),
        ],
        &[(
            "snmp snmptranslate iso.3 iso nosuch",
            "iso.3\niso\n",
            FAILED,
            1,
        )],
    )?;
    Ok(())
}

#[test]
fn an_error_output_that_fails_changes_nothing_else(rt: HostRuntime) -> Result<(), Fail> {
    assert_shared_runs(
        &rt,
        rt.alloc(),
        &[
            (usize::MAX, 0),
            (usize::MAX, 1),
            (usize::MAX, 64),
            (usize::MAX, 65),
            (usize::MAX, 66),
            (usize::MAX, 200),
        ],
        &[
            (
                "snmp snmpwalk --mib=tiny.txt -OS table:tiny.tab tiny",
                "TINY-MIB::tinyState.0 = INTEGER: up(1)\n\
TINY-MIB::tinyMac.\"wes\" = STRING: 0:16:3e:5a:78:8e\n\
TINY-MIB::tinyKeyUse.'wes' = Gauge32: 5 jobs\n",
                WARNINGS,
                0,
            ),
            (
                "snmp snmpget --mib=tiny.txt table:tiny.tab tinyState.0",
                "TINY-MIB::tinyState.0 = INTEGER: up(1)\n",
                WARNINGS,
                0,
            ),
            (
                "snmp snmptranslate --mib=tiny.txt tiny",
                "TINY-MIB::tiny\n",
                WARNINGS,
                0,
            ),
            (
                "snmp snmpd --mib=tiny.txt --table=tiny.tab --turns=0",
                "listening on 127.0.0.1:161\n0 replies, 0 dropped\n",
                WARNINGS,
                0,
            ),
        ],
    )?;
    Ok(())
}

#[test]
fn messages_that_cannot_be_written_change_nothing_else(rt: HostRuntime) -> Result<(), Fail> {
    assert_shared_runs(
        &rt,
        rt.alloc(),
        &[(usize::MAX, 0)],
        &[(
            "snmp snmpwalk -On table:three.tab mib",
            "",
            "Unknown name: mib\n",
            1,
        )],
    )?;
    assert_shared_runs(
        &rt,
        rt.alloc(),
        &[(usize::MAX, 0), (usize::MAX, 65), (usize::MAX, 200)],
        &[
            (
                "snmp snmpwalk --mib=tiny.txt -OS table:tiny.tab nowhere",
                "",
                WARNINGS,
                1,
            ),
            (
                "snmp snmpget --mib=tiny.txt --max-size=26 table:tiny.tab tinyState.0",
                "",
                WARNINGS,
                2,
            ),
            (
                "snmp snmpd --mib=tiny.txt --table=none.tab",
                "",
                WARNINGS,
                1,
            ),
        ],
    )?;
    Ok(())
}
