//! What the commands make of options that are given, repeated or left out.

use snmp_words::{Job, UsageError, read_words};
use std::alloc::Global;
use std::process::Abort;

/// Returns whether `Debug` shows `job` as `text`.
fn is_shown_so(alloc: Global, job: &Job<'_>, text: &str) -> bool {
    match format!(in alloc; "{job:?}") {
        Ok(shown) => shown.as_str() == text,
        Err(_) => false,
    }
}

/// Returns whether `words` are read as the job that `Debug` shows as `job`.
// Here and in the other helpers, what was read is dropped by a call of `drop`. Otherwise the code
// that drops each kind of job would be inlined at the end of each helper.
fn are_read_as(alloc: Global, words: &[&str], job: &str) -> bool {
    let read = read_words(alloc, words);
    let is_same = match &read {
        Ok(found) => is_shown_so(alloc, found, job),
        Err(_) => false,
    };
    drop(read);
    is_same
}

/// Asserts that the arguments of each row are read as its job, as `Debug` shows it.
fn assert_read_as(rt: &impl Abort, alloc: Global, rows: &[(&[&str], &str)]) {
    for (words, job) in rows {
        assert!(rt; are_read_as(alloc, words, job), "{words:?}");
    }
}

/// Returns whether `words` are refused as a mistake, and not because they ask for help.
pub fn are_refused(alloc: Global, words: &[&str]) -> bool {
    let read = read_words(alloc, words);
    let refused = matches!(&read, Err(UsageError::Parse { help: false, .. }));
    drop(read);
    refused
}

/// Asserts that the arguments of each row are refused as a mistake.
pub fn assert_refused(rt: &impl Abort, alloc: Global, rows: &[&[&str]]) {
    for words in rows {
        assert!(rt; are_refused(alloc, words), "{words:?}");
    }
}

const DEFAULTS: &[(&[&str], &str)] = &[
    (
        &["snmp", "snmpwalk", "router"],
        "Walk(WalkJob { asking: Asking { mibs: [], letters: \"\", protocol: \"2c\", \
         community: \"public\", retries: 5, seconds: 1, max_size: 1472, agent: \"router\" }, \
         letters: \"\", after: None, name: None })",
    ),
    (
        &["snmp", "snmpbulkwalk", "router"],
        "BulkWalk(WalkJob { asking: Asking { mibs: [], letters: \"\", protocol: \"2c\", \
         community: \"public\", retries: 5, seconds: 1, max_size: 1472, agent: \"router\" }, \
         letters: \"\", after: None, name: None })",
    ),
    (
        &["snmp", "snmpd", "--table", "t.tab"],
        "Serve(ServeJob { mibs: [], table: \"t.tab\", community: \"public\", \
         listen: \"127.0.0.1:161\", max_size: 1472, turns: 18446744073709551615 })",
    ),
];

#[test]
fn options_that_are_left_out_have_defaults(rt: HostRuntime) {
    assert_read_as(&rt, rt.alloc(), DEFAULTS);
}

const DEFAULTS_BESIDE_NAMES: &[(&[&str], &str)] = &[
    (
        &["snmp", "snmptranslate", "iso.3"],
        "Translate(TranslateJob { mibs: [], letters: \"\", details: \"\", names: [\"iso.3\"] })",
    ),
    (
        &["snmp", "snmpget", "router", "sysUpTime.0"],
        "Get(GetJob { asking: Asking { mibs: [], letters: \"\", protocol: \"2c\", \
         community: \"public\", retries: 5, seconds: 1, max_size: 1472, agent: \"router\" }, \
         names: [\"sysUpTime.0\"] })",
    ),
];

#[test]
fn options_of_translations_and_gets_have_defaults(rt: HostRuntime) {
    assert_read_as(&rt, rt.alloc(), DEFAULTS_BESIDE_NAMES);
}

const GIVEN: &[(&[&str], &str)] = &[
    (
        &[
            "snmp",
            "snmpwalk",
            "-Oqv",
            "-v",
            "1",
            "-cprivate",
            "-r0",
            "-t",
            "3600",
            "--max-size=65507",
            "udp:router:1161",
        ],
        "Walk(WalkJob { asking: Asking { mibs: [], letters: \"qv\", protocol: \"1\", \
         community: \"private\", retries: 0, seconds: 3600, max_size: 65507, \
         agent: \"udp:router:1161\" }, letters: \"\", after: None, name: None })",
    ),
    (
        &[
            "snmp",
            "snmpwalk",
            "-Ci",
            "--after",
            "x",
            "table:t.tab",
            "y",
        ],
        "Walk(WalkJob { asking: Asking { mibs: [], letters: \"\", protocol: \"2c\", \
         community: \"public\", retries: 5, seconds: 1, max_size: 1472, \
         agent: \"table:t.tab\" }, letters: \"i\", after: Some(\"x\"), name: Some(\"y\") })",
    ),
    (
        &[
            "snmp",
            "snmpd",
            "--listen",
            "0.0.0.0:1161",
            "--table=t.tab",
            "--mib",
            "b.txt",
            "-c",
            "",
            "--mib=a.txt",
            "--max-size",
            "484",
            "--turns",
            "0",
        ],
        "Serve(ServeJob { mibs: [\"b.txt\", \"a.txt\"], table: \"t.tab\", community: \"\", \
         listen: \"0.0.0.0:1161\", max_size: 484, turns: 0 })",
    ),
];

#[test]
fn options_that_are_given_are_read(rt: HostRuntime) {
    assert_read_as(&rt, rt.alloc(), GIVEN);
}

const GIVEN_BESIDE_NAMES: &[(&[&str], &str)] = &[
    (
        &[
            "snmp",
            "snmptranslate",
            "--mib",
            "tiny.txt",
            "-OnU",
            "-Td",
            "iso.3",
            "nosuch",
            "TINY-MIB::tinyMac.\"wes\"",
        ],
        "Translate(TranslateJob { mibs: [\"tiny.txt\"], letters: \"nU\", details: \"d\", \
         names: [\"iso.3\", \"nosuch\", \"TINY-MIB::tinyMac.\\\"wes\\\"\"] })",
    ),
    (
        &[
            "snmp",
            "snmpget",
            "--mib=tiny.txt",
            "-Oqv",
            "-v",
            "1",
            "-cprivate",
            "-r0",
            "-t",
            "3600",
            "--max-size=65507",
            "udp:router:1161",
            ".1.0",
            ".2.0",
            ".1.0",
        ],
        "Get(GetJob { asking: Asking { mibs: [\"tiny.txt\"], letters: \"qv\", protocol: \"1\", \
         community: \"private\", retries: 0, seconds: 3600, max_size: 65507, \
         agent: \"udp:router:1161\" }, names: [\".1.0\", \".2.0\", \".1.0\"] })",
    ),
];

#[test]
fn options_of_translations_and_gets_are_read(rt: HostRuntime) {
    assert_read_as(&rt, rt.alloc(), GIVEN_BESIDE_NAMES);
}

const FILES_OF_MODULES: &[(&[&str], &str)] = &[
    (
        &[
            "snmp",
            "snmptranslate",
            "--mib=c.txt",
            "-Od",
            "--mib",
            "a.txt",
            "x",
            "--mib=b.txt",
            "-O",
            "b",
        ],
        "Translate(TranslateJob { mibs: [\"c.txt\", \"a.txt\", \"b.txt\"], letters: \"db\", \
         details: \"\", names: [\"x\"] })",
    ),
    (
        &[
            "snmp",
            "snmpget",
            "--mib",
            "b.txt",
            "router",
            "--mib",
            "a.txt",
            "x",
            "--mib=b.txt",
            "y",
        ],
        "Get(GetJob { asking: Asking { mibs: [\"b.txt\", \"a.txt\", \"b.txt\"], letters: \"\", \
         protocol: \"2c\", community: \"public\", retries: 5, seconds: 1, max_size: 1472, \
         agent: \"router\" }, names: [\"x\", \"y\"] })",
    ),
    (
        &[
            "snmp",
            "snmpwalk",
            "--mib=b.txt",
            "--mib=a.txt",
            "router",
            "x",
        ],
        "Walk(WalkJob { asking: Asking { mibs: [\"b.txt\", \"a.txt\"], letters: \"\", \
         protocol: \"2c\", community: \"public\", retries: 5, seconds: 1, max_size: 1472, \
         agent: \"router\" }, letters: \"\", after: None, name: Some(\"x\") })",
    ),
    (
        &["snmp", "snmpbulkwalk", "router", "--mib", "", "--mib=a.txt"],
        "BulkWalk(WalkJob { asking: Asking { mibs: [\"\", \"a.txt\"], letters: \"\", \
         protocol: \"2c\", community: \"public\", retries: 5, seconds: 1, max_size: 1472, \
         agent: \"router\" }, letters: \"\", after: None, name: None })",
    ),
];

#[test]
fn module_files_stay_in_order(rt: HostRuntime) {
    assert_read_as(&rt, rt.alloc(), FILES_OF_MODULES);
}

/// Options that are joined to their values, and the same options with the values as further
/// arguments.
const JOINED: &[(&[&str], &str)] = &[
    (
        &[
            "snmp",
            "snmpbulkwalk",
            "-v2c",
            "-cprivate",
            "-r1",
            "-t2",
            "-On",
            "-Cr50",
            "router",
            ".1",
        ],
        JOB_OF_JOINED,
    ),
    (
        &[
            "snmp",
            "snmpbulkwalk",
            "-v",
            "2c",
            "-c",
            "private",
            "-r",
            "1",
            "-t",
            "2",
            "-O",
            "n",
            "-C",
            "r50",
            "router",
            ".1",
        ],
        JOB_OF_JOINED,
    ),
];

const JOB_OF_JOINED: &str = "BulkWalk(WalkJob { asking: Asking { mibs: [], letters: \"n\", \
                         protocol: \"2c\", community: \"private\", retries: 1, seconds: 2, \
                         max_size: 1472, agent: \"router\" }, letters: \"r50\", after: None, \
                         name: Some(\".1\") })";

/// Several options in one argument, and long options joined to their values without an equals sign:
/// these are refused.
const NOT_JOINED: &[&[&str]] = &[
    &["snmp", "snmpwalk", "-r1t2", "router"],
    &["snmp", "snmpwalk", "--max-size484", "router"],
    &["snmp", "snmpwalk", "--mibx.txt", "router"],
];

#[test]
fn values_are_joined_to_their_option_or_follow_it(rt: HostRuntime) {
    assert_read_as(&rt, rt.alloc(), JOINED);
    assert_refused(&rt, rt.alloc(), NOT_JOINED);
}

const REPEATED: &[(&[&str], &str)] = &[(
    &[
        "snmp",
        "snmpbulkwalk",
        "-On",
        "-Cr25",
        "-O",
        "q",
        "router",
        "-C",
        "p",
        "-Os",
    ],
    "BulkWalk(WalkJob { asking: Asking { mibs: [], letters: \"nqs\", protocol: \"2c\", \
     community: \"public\", retries: 5, seconds: 1, max_size: 1472, agent: \"router\" }, \
     letters: \"r25p\", after: None, name: None })",
)];

#[test]
fn letters_of_repeated_options_are_joined_in_order(rt: HostRuntime) {
    assert_read_as(&rt, rt.alloc(), REPEATED);
}

/// Returns whether `option` is accepted once in the arguments of a walk, and refused twice.
fn is_single_in_walk(alloc: Global, option: &str) -> bool {
    !are_refused(alloc, &["snmp", "snmpwalk", option, "router"])
        && are_refused(alloc, &["snmp", "snmpwalk", option, option, "router"])
}

/// Returns whether `option` is accepted once in the arguments of a Get, and refused twice.
fn is_single_in_get(alloc: Global, option: &str) -> bool {
    !are_refused(alloc, &["snmp", "snmpget", option, "router", ".1"])
        && are_refused(alloc, &["snmp", "snmpget", option, option, "router", ".1"])
}

/// Returns whether `option` is accepted once in the arguments of snmpd, and refused twice.
fn is_single_in_serve(alloc: Global, option: &str) -> bool {
    !are_refused(alloc, &["snmp", "snmpd", "--table=t.tab", option])
        && are_refused(alloc, &["snmp", "snmpd", option, "--table=t.tab", option])
}

const OPTIONS_OF_WALKS: &[&str] = &[
    "-v2c",
    "-cpublic",
    "-r1",
    "-t1",
    "--max-size=1",
    "--after=.1",
];

const OPTIONS_OF_GETS: &[&str] = &["-v2c", "-cpublic", "-r1", "-t1", "--max-size=1"];

const OPTIONS_OF_AGENTS: &[&str] = &["-cpublic", "--listen=a:1", "--max-size=1", "--turns=1"];

#[test]
fn other_options_are_accepted_once(rt: HostRuntime) {
    for option in OPTIONS_OF_WALKS {
        assert!(rt; is_single_in_walk(rt.alloc(), option));
    }
    for option in OPTIONS_OF_GETS {
        assert!(rt; is_single_in_get(rt.alloc(), option));
    }
    assert!(rt; !are_refused(rt.alloc(), &["snmp", "snmptranslate", "-Td", "x"]));
    assert!(rt; are_refused(rt.alloc(), &["snmp", "snmptranslate", "-Td", "-Td", "x"]));
    for option in OPTIONS_OF_AGENTS {
        assert!(rt; is_single_in_serve(rt.alloc(), option));
    }
}

const WRONG: &[&[&str]] = &[
    &["snmp"],
    &["snmp", "snmpset", "router", ".1"],
    &["snmp", "help"],
    &["snmp", "-On", "snmpwalk", "router"],
    &["snmp", "snmptranslate"],
    &["snmp", "snmptranslate", "--mib", "x"],
    &["snmp", "snmptranslate", "x", "--mib"],
    &["snmp", "snmptranslate", "-T", "-On", "x"],
    &["snmp", "snmptranslate", "-cpublic", "x"],
    &["snmp", "snmptranslate", "-m", "ALL", "x"],
    &["snmp", "snmpget"],
    &["snmp", "snmpget", "router"],
    &["snmp", "snmpget", "-Td", "router", ".1"],
    &["snmp", "snmpget", "-Ci", "router", ".1"],
    &["snmp", "snmpget", "--after", ".1", "router", ".1"],
    &["snmp", "snmpwalk"],
    &["snmp", "snmpwalk", "router", ".1", ".2"],
    &["snmp", "snmpwalk", "-m", "ALL", "router"],
    &["snmp", "snmpwalk", "-Td", "router"],
    &["snmp", "snmpwalk", "router", "-O"],
    &["snmp", "snmpd"],
    &["snmp", "snmpd", "--table", "a.tab", "--table", "b.tab"],
    &["snmp", "snmpd", "t.tab"],
    &["snmp", "snmpd", "--table=t.tab", "-On"],
    &["snmp", "snmpd", "--table=t.tab", "--mib"],
];

#[test]
fn wrong_arguments_are_refused(rt: HostRuntime) {
    assert_refused(&rt, rt.alloc(), WRONG);
}

const AFTER_TWO_HYPHENS: &[(&[&str], &str)] = &[
    (
        &["snmp", "snmpwalk", "--", "router", "-x"],
        "Walk(WalkJob { asking: Asking { mibs: [], letters: \"\", protocol: \"2c\", \
         community: \"public\", retries: 5, seconds: 1, max_size: 1472, agent: \"router\" }, \
         letters: \"\", after: None, name: Some(\"-x\") })",
    ),
    (
        &["snmp", "snmptranslate", "x", "--", "-y", "--mib"],
        "Translate(TranslateJob { mibs: [], letters: \"\", details: \"\", \
         names: [\"x\", \"-y\", \"--mib\"] })",
    ),
];

const WITHOUT_TWO_HYPHENS: &[&[&str]] = &[
    &["snmp", "snmpwalk", "router", "-x"],
    &["snmp", "snmptranslate", "x", "-y"],
];

#[test]
fn after_two_hyphens_a_name_may_begin_with_one(rt: HostRuntime) {
    assert_read_as(&rt, rt.alloc(), AFTER_TWO_HYPHENS);
    assert_refused(&rt, rt.alloc(), WITHOUT_TWO_HYPHENS);
}
