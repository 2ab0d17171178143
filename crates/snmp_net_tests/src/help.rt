//! Help: the usage, the example and the statuses of each command, and the letters that it lists.

use snmp_words::{UsageError, read_words};
use std::alloc::Global;

/// Returns whether `text` ends with a newline, and has each of `lines` as a line, perhaps with
/// blanks around it.
fn has_lines(text: &str, lines: &[&str]) -> bool {
    let mut all = true;
    for line in lines {
        let found = text.lines().any(|one| one.trim() == *line);
        all = all && found;
    }
    all && text.ends_with('\n')
}

/// Returns whether `words` ask for help or for the version, and what is then said has these lines.
fn helps(alloc: Global, words: &[&str], lines: &[&str]) -> bool {
    let read = read_words(alloc, words);
    let helped = match &read {
        Err(UsageError::Parse { text, help: true }) => has_lines(text.as_str(), lines),
        _ => false,
    };
    drop(read);
    helped
}

const LETTERS_OF_NAMES: &[&str] = &[
    "n: names in numbers",
    "f: names with the labels from the root on",
    "s: names with their last label",
    "S: names with module and label; the default",
    "b: indexes in names as numbers",
];

const LETTERS_OF_VALUES: &[&str] = &[
    "q: a blank in place of the equals sign, and no types",
    "Q: no types",
    "v: values alone",
    "e: enumerations as numbers",
    "t: TimeTicks as a number",
    "U: no units",
    "x: strings without a display hint in hexadecimal",
    "a: strings without a display hint as text",
];

/// Each command with lines of its help, among them the usage, the example and the statuses.
const COMMANDS: &[(&str, &[&str])] = &[
    (
        "snmptranslate",
        &[
            "Usage: snmp snmptranslate [OPTIONS] <NAME>...",
            "snmp snmptranslate -On iso.3.6.1.2.1.1.5.0",
            "0  each name was printed",
            "1  a name without a meaning, or another fault, with a message on standard error",
        ],
    ),
    (
        "snmpget",
        &[
            "Usage: snmp snmpget [OPTIONS] <AGENT> <NAME>...",
            "echo '1.3.6.1.2.1.1.5.0|4|gate' | snmp snmpget \
             -On table:/dev/stdin .1.3.6.1.2.1.1.5.0",
            "0  each name has its line, also where there is no such instance",
            "1  no reply, or another fault, with a message on standard error",
            "2  the agent reports an error",
        ],
    ),
    (
        "snmpwalk",
        &[
            "Usage: snmp snmpwalk [OPTIONS] <AGENT> [NAME]",
            "echo '1.3.6.1.2.1.1.5.0|4|gate' | snmp snmpwalk -On table:/dev/stdin .1.3.6.1.2.1.1",
            "0  all below the name was printed",
            "1  no reply, or another fault, with a message on standard error",
            "2  the agent reports an error",
        ],
    ),
    (
        "snmpbulkwalk",
        &[
            "Usage: snmp snmpbulkwalk [OPTIONS] <AGENT> [NAME]",
            "echo '1.3.6.1.2.1.1.5.0|4|gate' | snmp snmpbulkwalk \
             -On -Cr25 -Cp table:/dev/stdin .1.3.6",
            "0  all below the name was printed",
            "1  no reply, or another fault, with a message on standard error",
            "2  the agent reports an error",
        ],
    ),
    (
        "snmpd",
        &[
            "Usage: snmp snmpd [OPTIONS] --table <FILE>",
            "echo '1.3.6.1.2.1.1.5.0|4|gate' | snmp snmpd \
             --table /dev/stdin --listen 127.0.0.1:1161 --turns 30",
            "0  all turns were served",
            "1  a file or the address was refused, or another fault, with a message on \
             standard error",
            "man snmp explains each message, man snmp-table the format of tables",
        ],
    ),
];

#[test]
fn each_command_has_help_and_an_example(rt: HostRuntime) {
    for (command, lines) in COMMANDS {
        assert!(rt; helps(rt.alloc(), &["snmp", command, "--help"], lines));
        assert!(rt; helps(rt.alloc(), &["snmp", command, "-h"], lines));
    }
}

/// Returns whether the help of `command` has one of these lines.
fn has_any(alloc: Global, command: &str, lines: &[&str]) -> bool {
    let mut any = false;
    for line in lines {
        any = any || helps(alloc, &["snmp", command, "--help"], &[*line]);
    }
    any
}

/// Returns whether the help of `command` has all of these lines.
fn has_all(alloc: Global, command: &str, lines: &[&str]) -> bool {
    helps(alloc, &["snmp", command, "--help"], lines)
}

const COMMANDS_WITH_AGENT: &[&str] = &["snmpget", "snmpwalk", "snmpbulkwalk"];

#[test]
fn help_lists_the_letters_that_act_in_a_command(rt: HostRuntime) {
    for command in COMMANDS_WITH_AGENT {
        assert!(rt; has_all(rt.alloc(), command, LETTERS_OF_NAMES));
        assert!(rt; has_all(rt.alloc(), command, LETTERS_OF_VALUES));
        assert!(rt; !has_any(rt.alloc(), command, &["d: details"]));
    }
    assert!(rt; has_all(rt.alloc(), "snmptranslate", LETTERS_OF_NAMES));
    assert!(rt; !has_any(rt.alloc(), "snmptranslate", LETTERS_OF_VALUES));
    assert!(rt; has_all(rt.alloc(), "snmptranslate", &["d: details"]));
}

const LETTERS_OF_BOTH_WALKS: &[&str] = &[
    "i: the root's own instance comes first",
    "p: the number of bindings is printed at the end, exceptions too",
];

const LETTERS_OF_SNMPWALK: &[&str] = &[
    "I: the root's own instance isn't printed in place of an empty walk",
];

const LETTERS_OF_SNMPBULKWALK: &[&str] = &[
    "rN: N instances a request, 1 to 2147483647; by default 10",
];

#[test]
fn help_lists_the_letters_of_a_walk(rt: HostRuntime) {
    assert!(rt; has_all(rt.alloc(), "snmpwalk", LETTERS_OF_BOTH_WALKS));
    assert!(rt; has_all(rt.alloc(), "snmpwalk", LETTERS_OF_SNMPWALK));
    assert!(rt; !has_any(rt.alloc(), "snmpwalk", LETTERS_OF_SNMPBULKWALK));
    assert!(rt; has_all(rt.alloc(), "snmpbulkwalk", LETTERS_OF_BOTH_WALKS));
    assert!(rt; has_all(rt.alloc(), "snmpbulkwalk", LETTERS_OF_SNMPBULKWALK));
    assert!(rt; !has_any(rt.alloc(), "snmpbulkwalk", LETTERS_OF_SNMPWALK));
    assert!(rt; !has_any(rt.alloc(), "snmpget", LETTERS_OF_BOTH_WALKS));
}

#[test]
fn help_names_the_manual_and_the_version(rt: HostRuntime) {
    const MANUAL: &[&str] = &["man snmp has a sample of each letter, and explains each message"];
    const VERSION: &[&str] = &[
        "-v <VERSION>             The version of SNMP: 2c alone, which is the default, and neither \
         1 nor 3",
    ];
    for command in COMMANDS_WITH_AGENT {
        assert!(rt; has_all(rt.alloc(), command, MANUAL));
        assert!(rt; has_all(rt.alloc(), command, VERSION));
    }
    assert!(rt; has_all(rt.alloc(), "snmptranslate", MANUAL));
}

const FORMS_OF_AGENTS: &[&str] = &[
    "host[:port] or udp:host[:port]: the agent at that UDP port, by default 161,",
    "such as 192.0.2.1 or router:1161",
    "table:FILE: an agent in memory that serves the table of a file",
];

#[test]
fn help_lists_the_forms_of_agents(rt: HostRuntime) {
    assert!(rt; helps(rt.alloc(), &["snmp", "snmpget", "--help"], FORMS_OF_AGENTS));
    assert!(rt; helps(rt.alloc(), &["snmp", "snmpwalk", "--help"], FORMS_OF_AGENTS));
    assert!(rt;
        helps(
            rt.alloc(),
            &["snmp", "snmpbulkwalk", "--help"],
            FORMS_OF_AGENTS
        )
    );
}

#[test]
fn the_program_has_help_and_a_version(rt: HostRuntime) {
    assert!(rt; helps(rt.alloc(), &["snmp", "--help"], &["Usage: snmp <COMMAND>"]));
    assert!(rt; helps(rt.alloc(), &["snmp", "--version"], &["snmp 0.7.0"]));
    assert!(rt; helps(rt.alloc(), &["snmp", "-V"], &["snmp 0.7.0"]));
    for (command, _) in COMMANDS {
        assert!(rt; helps(rt.alloc(), &["snmp", command, "--version"], &["snmp 0.7.0"]));
        assert!(rt; helps(rt.alloc(), &["snmp", command, "-V"], &["snmp 0.7.0"]));
    }
    assert!(rt; !helps(rt.alloc(), &["snmp"], &[]));
}
