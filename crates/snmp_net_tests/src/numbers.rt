//! The ranges of numbers: at their limits and past them.

use crate::commands::{are_refused, assert_refused};
use snmp_words::{Job, read_words};
use std::alloc::Global;
use std::process::Abort;

/// Returns the retries, the seconds and the greatest message size of a walk with `option`, whose
/// value is `number`. Returns `None` if the arguments are refused.
fn walk_numbers(alloc: Global, option: &str, number: &str) -> Option<(u64, u64, u64)> {
    let words = ["snmp", "snmpwalk", option, number, "router"];
    let read = read_words(alloc, &words);
    let numbers = match &read {
        Ok(Job::Walk(walk)) => Some((
            walk.asking.retries,
            walk.asking.seconds,
            walk.asking.max_size,
        )),
        _ => None,
    };
    drop(read);
    numbers
}

/// Returns the greatest message size and the turns of an agent with `option`, whose value is
/// `number`. Returns `None` if the arguments are refused.
fn agent_numbers(alloc: Global, option: &str, number: &str) -> Option<(u64, u64)> {
    let words = ["snmp", "snmpd", "--table=t.tab", option, number];
    let read = read_words(alloc, &words);
    let numbers = match &read {
        Ok(Job::Serve(serve)) => Some((serve.max_size, serve.turns)),
        _ => None,
    };
    drop(read);
    numbers
}

/// Options with numbers, each with the retries, the seconds and the greatest message size that a
/// walk then has.
const WALK_NUMBERS: &[(&str, &str, (u64, u64, u64))] = &[
    ("-r", "0", (0, 1, 1472)),
    ("-r", "1000", (1000, 1, 1472)),
    ("-r", "007", (7, 1, 1472)),
    ("-r", "+3", (3, 1, 1472)),
    ("-t", "1", (5, 1, 1472)),
    ("-t", "3600", (5, 3600, 1472)),
    ("-t", "0002", (5, 2, 1472)),
    ("--max-size", "1", (5, 1, 1)),
    ("--max-size", "65507", (5, 1, 65507)),
    ("--max-size", "0484", (5, 1, 484)),
];

/// Returns whether a walk with this option is refused as a mistake.
fn is_refused(alloc: Global, option: &str, number: &str) -> bool {
    are_refused(alloc, &["snmp", "snmpwalk", option, number, "router"])
}

/// Returns whether a bulk walk with this option is refused as a mistake.
fn is_refused_in_bulk(alloc: Global, option: &str, number: &str) -> bool {
    are_refused(alloc, &["snmp", "snmpbulkwalk", option, number, "router"])
}

/// Options of walks with numbers past their limits.
const BAD_WALK_NUMBERS: &[(&str, &str)] = &[
    ("-r", "1001"),
    ("-r", "18446744073709551616"),
    ("-t", "0"),
    ("-t", "3601"),
    ("--max-size", "0"),
    ("--max-size", "65508"),
];

const NOT_NUMBERS: &[&str] = &["", "x", "1.5", "0x10", "-1", " 1"];

/// Asserts that a walk refuses `option` with each text of `NOT_NUMBERS`.
fn assert_only_numbers(rt: &impl Abort, alloc: Global, option: &str) {
    for text in NOT_NUMBERS {
        assert!(rt; is_refused(alloc, option, text), "{option} {text:?}");
    }
}

#[test]
fn numbers_of_walks_stay_within_their_ranges(rt: HostRuntime) {
    for (option, text, numbers) in WALK_NUMBERS {
        assert!(rt;
            walk_numbers(rt.alloc(), option, text) == Some(*numbers),
            "{option} {text}"
        );
    }
    for (option, text) in BAD_WALK_NUMBERS {
        assert!(rt; is_refused(rt.alloc(), option, text), "{option} {text}");
        assert!(rt;
            is_refused_in_bulk(rt.alloc(), option, text),
            "{option} {text}"
        );
    }
    assert_only_numbers(&rt, rt.alloc(), "-r");
    assert_only_numbers(&rt, rt.alloc(), "-t");
    assert_only_numbers(&rt, rt.alloc(), "--max-size");
}

/// Options with numbers, each with the greatest message size and the turns that an agent then has.
const AGENT_NUMBERS: &[(&str, &str, (u64, u64))] = &[
    ("--max-size", "1", (1, u64::MAX)),
    ("--max-size", "65507", (65507, u64::MAX)),
    ("--turns", "0", (1472, 0)),
    ("--turns", "1", (1472, 1)),
    ("--turns", "18446744073709551615", (1472, u64::MAX)),
];

/// Arguments of an agent with numbers past their limits, or with an empty text for a number.
const BAD_AGENT_NUMBERS: &[&[&str]] = &[
    &["snmp", "snmpd", "--table=t.tab", "--max-size", "0"],
    &["snmp", "snmpd", "--table=t.tab", "--max-size", "65508"],
    &[
        "snmp",
        "snmpd",
        "--table=t.tab",
        "--turns",
        "18446744073709551616",
    ],
    &["snmp", "snmpd", "--table=t.tab", "--turns", "-1"],
    &["snmp", "snmpd", "--table=t.tab", "--turns", ""],
];

#[test]
fn numbers_of_an_agent_stay_within_their_ranges(rt: HostRuntime) {
    for (option, text, numbers) in AGENT_NUMBERS {
        assert!(rt;
            agent_numbers(rt.alloc(), option, text) == Some(*numbers),
            "{option} {text}"
        );
    }
    assert_refused(&rt, rt.alloc(), BAD_AGENT_NUMBERS);
}
