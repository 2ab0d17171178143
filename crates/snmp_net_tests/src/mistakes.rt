//! The messages for mistakes in the arguments. Each is compared as a whole: the mistake, the tips
//! if there are any, and the help to read.

use snmp_words::{UsageError, read_words};
use std::alloc::Global;
use std::process::Abort;

/// Returns whether `words` are refused with the message `wanted`.
fn says(alloc: Global, words: &[&str], wanted: &str) -> bool {
    let read = read_words(alloc, words);
    let said = match &read {
        Err(UsageError::Parse { text, help: false }) => text.as_str() == wanted,
        _ => false,
    };
    drop(read);
    said
}

/// Asserts that the arguments of each row are refused with its message.
fn assert_said(rt: &impl Abort, alloc: Global, rows: &[(&[&str], &str)]) {
    for (words, text) in rows {
        assert!(rt; says(alloc, words, text), "{words:?}");
    }
}

const NET_SNMP_ARGUMENTS: &[(&[&str], &str)] = &[
    (
        &["snmp", "snmpwalk", "-m", "ALL", "router"],
        "error: unexpected argument '-m' found\n\n\
         \x20 tip: --mib FILE names a file of modules, and may be repeated\n\n\
         Usage: snmp snmpwalk [OPTIONS] <AGENT> [NAME]\n\n\
         For more information, try 'snmp snmpwalk --help'.\n",
    ),
    (
        &["snmp", "snmpwalk", "-mALL", "router"],
        "error: unexpected argument '-m' found\n\n\
         \x20 tip: --mib FILE names a file of modules, and may be repeated\n\n\
         Usage: snmp snmpwalk [OPTIONS] <AGENT> [NAME]\n\n\
         For more information, try 'snmp snmpwalk --help'.\n",
    ),
    (
        &["snmp", "snmpget", "-M", "dir", "router", ".1"],
        "error: unexpected argument '-M' found\n\n\
         \x20 tip: no folder is searched for modules: --mib FILE names each file\n\n\
         Usage: snmp snmpget [OPTIONS] <AGENT> <NAME>...\n\n\
         For more information, try 'snmp snmpget --help'.\n",
    ),
    (
        &["snmp", "snmptranslate", "-Pu", ".1"],
        "error: unexpected argument '-P' found\n\n\
         \x20 tip: files of modules (--mib FILE) are read in one way alone\n\n\
         Usage: snmp snmptranslate [OPTIONS] <NAME>...\n\n\
         For more information, try 'snmp snmptranslate --help'.\n",
    ),
    (
        &["snmp", "snmpbulkwalk", "-d", "router"],
        "error: unexpected argument '-d' found\n\n\
         \x20 tip: messages are shown by tcpdump -vv -s0 udp port 161\n\n\
         Usage: snmp snmpbulkwalk [OPTIONS] <AGENT> [NAME]\n\n\
         For more information, try 'snmp snmpbulkwalk --help'.\n",
    ),
    (
        &["snmp", "snmpwalk", "-u", "me", "router"],
        "error: unexpected argument '-u' found\n\n\
         \x20 tip: there is SNMPv2c alone: a community (-c), and neither users nor keys\n\n\
         Usage: snmp snmpwalk [OPTIONS] <AGENT> [NAME]\n\n\
         For more information, try 'snmp snmpwalk --help'.\n",
    ),
    (
        &["snmp", "snmpwalk", "-Td", "router"],
        "error: unexpected argument '-T' found\n\n\
         \x20 tip: snmptranslate -Td prints details\n\n\
         Usage: snmp snmpwalk [OPTIONS] <AGENT> [NAME]\n\n\
         For more information, try 'snmp snmpwalk --help'.\n",
    ),
    (
        &["snmp", "snmpd", "--table", "t.tab", "-f"],
        "error: unexpected argument '-f' found\n\n\
         \x20 tip: snmpd stays in the foreground without it\n\n\
         Usage: snmp snmpd [OPTIONS] --table <FILE>\n\n\
         For more information, try 'snmp snmpd --help'.\n",
    ),
    (
        &["snmp", "snmpd", "--table", "t.tab", "-u", "nobody"],
        "error: unexpected argument '-u' found\n\n\
         \x20 tip: snmpd runs as the user who starts it\n\n\
         Usage: snmp snmpd [OPTIONS] --table <FILE>\n\n\
         For more information, try 'snmp snmpd --help'.\n",
    ),
    (
        &["snmp", "snmpd", "--table", "t.tab", "udp:161"],
        "error: unexpected argument 'udp:161' found\n\n\
         \x20 tip: --table FILE says what is served, and --listen HOST:PORT where\n\n\
         Usage: snmp snmpd [OPTIONS] --table <FILE>\n\n\
         For more information, try 'snmp snmpd --help'.\n",
    ),
    (
        &["snmp", "snmpset"],
        "error: unrecognized subcommand 'snmpset'\n\n\
         \x20 tip: agents are read here and never written\n\nUsage: snmp <COMMAND>\n\n\
         For more information, try 'snmp --help'.\n",
    ),
    (
        &["snmp", "help"],
        "error: unrecognized subcommand 'help'\n\n\
         \x20 tip: snmp --help is on the commands, snmp COMMAND --help on one\n\n\
         Usage: snmp <COMMAND>\n\nFor more information, try 'snmp --help'.\n",
    ),
];

#[test]
fn arguments_of_net_snmp_get_a_tip(rt: HostRuntime) {
    assert_said(&rt, rt.alloc(), NET_SNMP_ARGUMENTS);
}

const OTHER_MISTAKES: &[(&[&str], &str)] = &[
    (
        &["snmp", "snmpwalk", "-q", "router"],
        "error: unexpected argument '-q' found\n\n\
         Usage: snmp snmpwalk [OPTIONS] <AGENT> [NAME]\n\n\
         For more information, try 'snmp snmpwalk --help'.\n",
    ),
    (
        &["snmp", "snmpwalk", "router", ".1", ".2"],
        "error: unexpected argument '.2' found\n\n\
         Usage: snmp snmpwalk [OPTIONS] <AGENT> [NAME]\n\n\
         For more information, try 'snmp snmpwalk --help'.\n",
    ),
    (
        &["snmp", "snmpwalk", "--mibs", "x", "router"],
        "error: unexpected argument '--mibs' found\n\n\
         \x20 tip: a similar argument exists: '--mib'\n\n\
         Usage: snmp snmpwalk --mib <FILE> <AGENT> [NAME]\n\n\
         For more information, try 'snmp snmpwalk --help'.\n",
    ),
    (
        &["snmp", "-On", "snmpwalk", "router"],
        "error: unexpected argument '-O' found\n\n\
         \x20 tip: the command comes first, as in snmp snmpwalk -On AGENT\n\n\
         Usage: snmp <COMMAND>\n\nFor more information, try 'snmp --help'.\n",
    ),
    (
        &["snmp", "walk"],
        "error: unrecognized subcommand 'walk'\n\nUsage: snmp <COMMAND>\n\n\
         For more information, try 'snmp --help'.\n",
    ),
    (
        &["snmp", "snmpwalk"],
        "error: the following required arguments were not provided:\n  <AGENT>\n\n\
         \x20 tip: AGENT is HOST or HOST:PORT, such as 192.0.2.1, or table:FILE\n\n\
         Usage: snmp snmpwalk <AGENT> [NAME]\n\n\
         For more information, try 'snmp snmpwalk --help'.\n",
    ),
    (
        &["snmp", "snmpget", "router"],
        "error: the following required arguments were not provided:\n  <NAME>...\n\n\
         Usage: snmp snmpget <AGENT> <NAME>...\n\n\
         For more information, try 'snmp snmpget --help'.\n",
    ),
    (
        &["snmp"],
        "error: 'snmp' requires a subcommand but one was not provided\n\
         \x20 [subcommands: snmptranslate, snmpget, snmpwalk, snmpbulkwalk, snmpd]\n\n\
         Usage: snmp <COMMAND>\n\nFor more information, try 'snmp --help'.\n",
    ),
];

#[test]
fn other_mistakes_name_the_argument_and_the_help(rt: HostRuntime) {
    assert_said(&rt, rt.alloc(), OTHER_MISTAKES);
}

const BAD_VALUES: &[(&[&str], &str)] = &[
    (
        &["snmp", "snmpwalk", "-r", "x", "router"],
        "error: invalid value 'x' for '-r <RETRIES>': invalid digit found in string\n\n\
         \x20 tip: RETRIES is a whole number from 0 to 1000\n\n\
         For more information, try 'snmp snmpwalk --help'.\n",
    ),
    (
        &["snmp", "snmpwalk", "-t", "0", "router"],
        "error: invalid value '0' for '-t <SECONDS>': 0 is not in 1..=3600\n\n\
         \x20 tip: SECONDS is a whole number from 1 to 3600\n\n\
         For more information, try 'snmp snmpwalk --help'.\n",
    ),
    (
        &["snmp", "snmpwalk", "--max-size", "65508", "router"],
        "error: invalid value '65508' for '--max-size <OCTETS>': 65508 is not in \
         1..=65507\n\n  tip: OCTETS is a whole number from 1 to 65507\n\n\
         For more information, try 'snmp snmpwalk --help'.\n",
    ),
    (
        &["snmp", "snmpwalk", "router", "-O"],
        "error: a value is required for '-O <LETTERS>' but none was supplied\n\n\
         \x20 tip: LETTERS are some of n, f, s, S, q, Q, v, e, t, b, U, x and a\n\n\
         For more information, try 'snmp snmpwalk --help'.\n",
    ),
    (
        &["snmp", "snmptranslate", "x", "-O"],
        "error: a value is required for '-O <LETTERS>' but none was supplied\n\n\
         \x20 tip: LETTERS are some of n, f, s, S and b\n\n\
         For more information, try 'snmp snmptranslate --help'.\n",
    ),
    (
        &["snmp", "snmptranslate", "x", "-T"],
        "error: a value is required for '-T <LETTERS>' but none was supplied\n\n\
         \x20 tip: LETTERS are d\n\n\
         For more information, try 'snmp snmptranslate --help'.\n",
    ),
    (
        &["snmp", "snmpwalk", "router", "-C"],
        "error: a value is required for '-C <LETTERS>' but none was supplied\n\n\
         \x20 tip: LETTERS are some of i, p and I\n\n\
         For more information, try 'snmp snmpwalk --help'.\n",
    ),
    (
        &["snmp", "snmpbulkwalk", "router", "-C"],
        "error: a value is required for '-C <LETTERS>' but none was supplied\n\n\
         \x20 tip: LETTERS are some of i, p and rN, such as r25\n\n\
         For more information, try 'snmp snmpbulkwalk --help'.\n",
    ),
    (
        &["snmp", "snmpget", "router", "-v"],
        "error: a value is required for '-v <VERSION>' but none was supplied\n\n\
         \x20 tip: VERSION is 2c, and neither 1 nor 3\n\n\
         For more information, try 'snmp snmpget --help'.\n",
    ),
    (
        &["snmp", "snmpd", "--listen"],
        "error: a value is required for '--listen <HOST:PORT>' but none was supplied\n\n\
         \x20 tip: HOST:PORT is an address of this machine, such as 127.0.0.1:1161\n\n\
         For more information, try 'snmp snmpd --help'.\n",
    ),
    (
        &["snmp", "snmpd", "--turns", "x"],
        "error: invalid value 'x' for '--turns <N>': invalid digit found in string\n\n\
         \x20 tip: N is a whole number from 0 to 18446744073709551615\n\n\
         For more information, try 'snmp snmpd --help'.\n",
    ),
];

#[test]
fn refused_values_get_a_tip_on_what_is_expected(rt: HostRuntime) {
    assert_said(&rt, rt.alloc(), BAD_VALUES);
}

const OTHER_VERSIONS: &[(&[&str], &str)] = &[
    (
        &["snmp", "snmpwalk", "-v1", "-m", "ALL", "router"],
        "error: unexpected argument '-m' found\n\n\
         \x20 tip: --mib FILE names a file of modules, and may be repeated\n\
         \x20 tip: 2c is the only version, and the default: leave -v out\n\n\
         Usage: snmp snmpwalk [OPTIONS] <AGENT> [NAME]\n\n\
         For more information, try 'snmp snmpwalk --help'.\n",
    ),
    (
        &["snmp", "snmpget", "-v", "3", "-q", "router", ".1"],
        "error: unexpected argument '-q' found\n\n\
         \x20 tip: 2c is the only version, and the default: leave -v out\n\n\
         Usage: snmp snmpget [OPTIONS] <AGENT> <NAME>...\n\n\
         For more information, try 'snmp snmpget --help'.\n",
    ),
    (
        &["snmp", "snmpwalk", "-v3", "-l", "authPriv", "router"],
        "error: unexpected argument '-l' found\n\n\
         \x20 tip: there is SNMPv2c alone: a community (-c), and neither users nor keys\n\n\
         Usage: snmp snmpwalk [OPTIONS] <AGENT> [NAME]\n\n\
         For more information, try 'snmp snmpwalk --help'.\n",
    ),
    (
        &["snmp", "snmpwalk", "-v", "2c", "-q", "router"],
        "error: unexpected argument '-q' found\n\n\
         Usage: snmp snmpwalk [OPTIONS] <AGENT> [NAME]\n\n\
         For more information, try 'snmp snmpwalk --help'.\n",
    ),
];

#[test]
fn a_mistake_beside_another_version_gets_a_tip_on_the_version(rt: HostRuntime) {
    assert_said(&rt, rt.alloc(), OTHER_VERSIONS);
}
