//! The options and positional arguments of the commands, each with its help.
ghost use Rattle.snmp_words.specs.Command.{IsArg};
ghost use Rattle.snmp_words.specs.Command.{after_rule, agent_rule, community_rule, details_rule};
ghost use Rattle.snmp_words.specs.Command.{letters_rule, listen_rule, mib_rule, name_rule};
ghost use Rattle.snmp_words.specs.Command.{names_rule, protocol_rule, retries_rule, seconds_rule};
ghost use Rattle.snmp_words.specs.Command.{size_rule, table_rule, turns_rule, walk_letters_rule};

use clap::{Arg, ArgAction, value_parser};
use std::alloc::Global;

/// The help on the letters of `-O` for the commands that print lines.
pub(crate) const LETTERS_OF_LINES: &str = "\
How names and values are shown; may be repeated
of n, f, s and S, of q and Q, and of x and a, the last one counts
n: names in numbers
f: names with the labels from the root on
s: names with their last label
S: names with module and label; the default
q: a blank in place of the equals sign, and no types
Q: no types
v: values alone
e: enumerations as numbers
t: TimeTicks as a number
b: indexes in names as numbers
U: no units
x: strings without a display hint in hexadecimal
a: strings without a display hint as text";

/// The help on the letters of `-O` that act on names.
pub(crate) const LETTERS_OF_NAMES: &str = "\
How names are shown; may be repeated
of n, f, s and S the last one counts
n: names in numbers
f: names with the labels from the root on
s: names with their last label
S: names with module and label; the default
b: indexes in names as numbers";

/// The help on the letters of `-C` of snmpwalk.
pub(crate) const WALK_LETTERS: &str = "\
What is walked; may be repeated
i: the root's own instance comes first
p: the number of bindings is printed at the end, exceptions too
I: the root's own instance isn't printed in place of an empty walk";

/// The help on the letters of `-C` of snmpbulkwalk.
pub(crate) const BULK_LETTERS: &str = "\
What is walked; may be repeated
i: the root's own instance comes first
p: the number of bindings is printed at the end, exceptions too
rN: N instances a request, 1 to 2147483647; by default 10";

const MIB_HELP: &str = "A file of modules, whose names can be given and are shown\n\
                        may be repeated; the files are loaded in order";

const DETAILS_HELP: &str = "What is shown in place of names\n\
                            d: details";

const SIZE_HELP: &str = "The greatest reply of an agent that serves a table, 1 to 65507 octets; \
                         by default 1472";

const TURNS_HELP: &str =
    "Ends after N turns: a request, or a second without one; by default it doesn't end";

const AGENT_HELP: &str = "The agent\n\
                          host[:port] or udp:host[:port]: the agent at that UDP port, by default \
                          161,\n\
                          such as 192.0.2.1 or router:1161\n\
                          table:FILE: an agent in memory that serves the table of a file";

/// Returns the option `--mib FILE`.
pub(crate) fn mib_option<'a>(alloc: Global) -> Arg<'a>
    ensures { IsArg result mib_rule }
{
    Arg::new(alloc, "mib")
        .long("mib")
        .value_name("FILE")
        .help(MIB_HELP)
        .action(ArgAction::Append)
}

/// Returns the option `-O LETTERS`; `letters` is the help on it.
pub(crate) fn letters_option<'a>(alloc: Global, letters: &'a str) -> Arg<'a>
    ensures { IsArg result letters_rule }
{
    Arg::new(alloc, "letters")
        .short('O')
        .value_name("LETTERS")
        .help(letters)
        .action(ArgAction::Append)
}

/// Returns the option `-T LETTERS`.
pub(crate) fn details_option<'a>(alloc: Global) -> Arg<'a>
    ensures { IsArg result details_rule }
{
    Arg::new(alloc, "details")
        .short('T')
        .value_name("LETTERS")
        .help(DETAILS_HELP)
}

/// Returns the option `-v VERSION`.
pub(crate) fn protocol_option<'a>(alloc: Global) -> Arg<'a>
    ensures { IsArg result protocol_rule }
{
    Arg::new(alloc, "protocol")
        .short('v')
        .value_name("VERSION")
        .help("The version of SNMP: 2c alone, which is the default, and neither 1 nor 3")
}

/// Returns the option `-c COMMUNITY`.
pub(crate) fn community_option<'a>(alloc: Global) -> Arg<'a>
    ensures { IsArg result community_rule }
{
    Arg::new(alloc, "community")
        .short('c')
        .value_name("COMMUNITY")
        .help("The community of the messages, of at most 255 octets; by default public")
}

/// Returns the option `-r RETRIES`.
pub(crate) fn retries_option<'a>(alloc: Global) -> Arg<'a>
    ensures { IsArg result retries_rule }
{
    Arg::new(alloc, "retries")
        .short('r')
        .value_name("RETRIES")
        .help("How often a request without a reply is sent again, 0 to 1000; by default 5")
        .value_parser(value_parser!(u64).range(0..=1000))
}

/// Returns the option `-t SECONDS`.
pub(crate) fn seconds_option<'a>(alloc: Global) -> Arg<'a>
    ensures { IsArg result seconds_rule }
{
    Arg::new(alloc, "seconds")
        .short('t')
        .value_name("SECONDS")
        .help("How many seconds to wait for each reply, 1 to 3600; by default 1")
        .value_parser(value_parser!(u64).range(1..=3600))
}

/// Returns the option `--max-size OCTETS`.
pub(crate) fn size_option<'a>(alloc: Global) -> Arg<'a>
    ensures { IsArg result size_rule }
{
    Arg::new(alloc, "size")
        .long("max-size")
        .value_name("OCTETS")
        .help(SIZE_HELP)
        .value_parser(value_parser!(u64).range(1..=65507))
}

/// Returns the option `-C LETTERS`; `letters` is the help on it.
pub(crate) fn walk_letters_option<'a>(alloc: Global, letters: &'a str) -> Arg<'a>
    ensures { IsArg result walk_letters_rule }
{
    Arg::new(alloc, "walk")
        .short('C')
        .value_name("LETTERS")
        .help(letters)
        .action(ArgAction::Append)
}

/// Returns the option `--after NAME`.
pub(crate) fn after_option<'a>(alloc: Global) -> Arg<'a>
    ensures { IsArg result after_rule }
{
    Arg::new(alloc, "after")
        .long("after")
        .value_name("NAME")
        .help("Goes on after this name, the last of a walk that broke off")
}

/// Returns the option `--table FILE`.
pub(crate) fn table_option<'a>(alloc: Global) -> Arg<'a>
    ensures { IsArg result table_rule }
{
    Arg::new(alloc, "table")
        .long("table")
        .value_name("FILE")
        .help("The file of the table that is served: OID|TAG|VALUE lines")
        .required(true)
}

/// Returns the option `--listen HOST:PORT`.
pub(crate) fn listen_option<'a>(alloc: Global) -> Arg<'a>
    ensures { IsArg result listen_rule }
{
    Arg::new(alloc, "listen")
        .long("listen")
        .value_name("HOST:PORT")
        .help("Where requests are received; by default 127.0.0.1:161")
}

/// Returns the option `--turns N`.
pub(crate) fn turns_option<'a>(alloc: Global) -> Arg<'a>
    ensures { IsArg result turns_rule }
{
    Arg::new(alloc, "turns")
        .long("turns")
        .value_name("N")
        .help(TURNS_HELP)
        .value_parser(value_parser!(u64))
}

/// Returns the positional argument `AGENT`.
pub(crate) fn agent_word<'a>(alloc: Global) -> Arg<'a>
    ensures { IsArg result agent_rule }
{
    Arg::new(alloc, "agent")
        .value_name("AGENT")
        .help(AGENT_HELP)
        .required(true)
}

/// Returns the positional argument `[NAME]`.
pub(crate) fn name_word<'a>(alloc: Global) -> Arg<'a>
    ensures { IsArg result name_rule }
{
    Arg::new(alloc, "name").value_name("NAME").help(
        "The name of the root, such as .1.3.6.1.2.1.2.2; by default 1.3.6.1.2.1",
    )
}

/// Returns the positional arguments `NAME..`.
pub(crate) fn names_word<'a>(alloc: Global) -> Arg<'a>
    ensures { IsArg result names_rule }
{
    Arg::new(alloc, "names")
        .value_name("NAME")
        .help("A name, such as .1.3.6.1.2.1.1.3.0 or SNMPv2-MIB::sysUpTime.0; may be repeated")
        .required(true)
        .action(ArgAction::Append)
}
