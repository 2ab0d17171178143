//! The text that is printed if the arguments ask for no job: the parser's text, with what to write
//! instead of an argument of Net-SNMP, what a value should be, and the help to read.
ghost use Rattle.std.specs.Prelude.{IfOk, false, string_bytes, true};
ghost use Rattle.clap.specs.Words.{kind_of};
ghost use Rattle.snmp_words.specs.Words.{IsTextFor, asks_help};

use crate::command::VERSION;
use clap::error::ErrorKind;
use std::alloc::{AllocError, Global};

// A list of tips. The first text of each is the command or the option that a mistake names, the
// second is the advice that is printed.
type Tips = &'static [(&'static str, &'static str)];

const NOT_HERE: &str =
    "there are snmptranslate, snmpget, snmpwalk, snmpbulkwalk and snmpd, and no more";

const COMMANDS: Tips = &[
    (
        "help",
        "snmp --help is on the commands, snmp COMMAND --help on one",
    ),
    ("snmpset", "agents are read here and never written"),
    ("snmpgetnext", "snmpwalk asks for the names that follow one"),
    (
        "snmpbulkget",
        "snmpbulkwalk asks for many instances at a time",
    ),
    (
        "snmptable",
        "snmpbulkwalk prints a table, column after column",
    ),
    ("snmptrap", NOT_HERE),
    ("snmptrapd", NOT_HERE),
    ("snmpinform", NOT_HERE),
    ("snmpstatus", NOT_HERE),
    ("snmpdelta", NOT_HERE),
    ("snmpdf", NOT_HERE),
];

const MODULES: &str = "--mib FILE names a file of modules, and may be repeated";

const FOLDERS: &str = "no folder is searched for modules: --mib FILE names each file";

const USERS: &str = "there is SNMPv2c alone: a community (-c), and neither users nor keys";

// The tip for a `-v` with another text than `2c`. It follows the tip on the mistake, if any.
const VERSIONS: &str = "2c is the only version, and the default: leave -v out";

const DUMPS: &str = "messages are shown by tcpdump -vv -s0 udp port 161";

const LOGS: &str = "messages are written to standard error, and nowhere else";

const OPTIONS: Tips = &[
    ("-m", MODULES),
    ("-M", FOLDERS),
    (
        "-P",
        "files of modules (--mib FILE) are read in one way alone",
    ),
    (
        "-I",
        "a name is numbers, a label, or MODULE::label, and is read in one way alone",
    ),
    ("-R", "a label is looked up in all modules"),
    ("-T", "snmptranslate -Td prints details"),
    ("-C", "snmpwalk and snmpbulkwalk take letters of -C"),
    ("-d", DUMPS),
    ("-D", DUMPS),
    ("-L", LOGS),
    ("-u", USERS),
    ("-l", USERS),
    ("-a", USERS),
    ("-A", USERS),
    ("-x", USERS),
    ("-X", USERS),
    ("-e", USERS),
    ("-E", USERS),
    ("-n", USERS),
    ("-Z", USERS),
];

const OPTIONS_OF_SNMPD: Tips = &[
    ("-f", "snmpd stays in the foreground without it"),
    (
        "-C",
        "--table FILE says what is served: no configuration is read",
    ),
    ("-m", MODULES),
    ("-M", FOLDERS),
    ("-p", "no PID file is written"),
    ("-u", "snmpd runs as the user who starts it"),
    ("-g", "snmpd runs as the user who starts it"),
    ("-d", DUMPS),
    ("-D", DUMPS),
    ("-L", LOGS),
];

const VALUES: Tips = &[
    ("--mib <FILE>", "FILE is a file of modules"),
    (
        "-O <LETTERS>",
        "LETTERS are some of n, f, s, S, q, Q, v, e, t, b, U, x and a",
    ),
    ("-T <LETTERS>", "LETTERS are d"),
    ("-v <VERSION>", "VERSION is 2c, and neither 1 nor 3"),
    (
        "-c <COMMUNITY>",
        "COMMUNITY is a text of at most 255 octets, such as public",
    ),
    ("-r <RETRIES>", "RETRIES is a whole number from 0 to 1000"),
    ("-t <SECONDS>", "SECONDS is a whole number from 1 to 3600"),
    (
        "--max-size <OCTETS>",
        "OCTETS is a whole number from 1 to 65507",
    ),
    ("--after <NAME>", "NAME is the last one that a walk printed"),
    ("--table <FILE>", "FILE is a table file"),
    (
        "--listen <HOST:PORT>",
        "HOST:PORT is an address of this machine, such as 127.0.0.1:1161",
    ),
    (
        "--turns <N>",
        "N is a whole number from 0 to 18446744073709551615",
    ),
];

const VALUES_OF_TRANSLATE: Tips = &[("-O <LETTERS>", "LETTERS are some of n, f, s, S and b")];

const VALUES_OF_WALK: Tips = &[("-C <LETTERS>", "LETTERS are some of i, p and I")];

const VALUES_OF_BULK_WALK: Tips = &[(
    "-C <LETTERS>",
    "LETTERS are some of i, p and rN, such as r25",
)];

/// Returns the text for the user about `error`, which the parser returned for `words`: the help or
/// the version if they ask for it, otherwise what is wrong with them.
pub(crate) fn text_of(
    alloc: Global,
    error: &clap::Error,
    words: &[&str],
) -> Result<String, AllocError>
    ensures { IfOk result (λ text.
        IsTextFor (asks_help (kind_of error.now)) (string_bytes text)) }
{
    match error.kind() {
        ErrorKind::DisplayHelp => with_newline(format!(in alloc; "{error}")?),
        ErrorKind::DisplayVersion => with_newline(format!(in alloc; "snmp {VERSION}")?),
        kind => {
            let text = format!(in alloc; "{error}")?;
            let version = tip_on_version(words);
            with_own_tips(alloc, text.as_str(), command_of(kind, words), version)
        }
    }
}

/// Returns `text` with a newline at its end, which is added if it has none.
fn with_newline(mut text: String) -> Result<String, AllocError>
    ensures { IfOk result (λ text. IsTextFor true (string_bytes text)) }
{
    if text.ends_with('\n') {
        text.pop();
    }
    text.push_str("\n")?;
    Ok(text)
}

/// Returns the argument after the program's name, which is the command. Returns `None` if there is
/// no such argument, if it begins with a hyphen, or if the parser refused it as a command.
fn command_of<'a>(kind: ErrorKind, words: &[&'a str]) -> Option<&'a str> {
    match words.get(1) {
        Some(word) if kind != ErrorKind::InvalidSubcommand && !word.starts_with('-') => Some(*word),
        _ => None,
    }
}

/// Returns the parser's text with a tip of this program instead of the parser's tips, and with
/// `version`, the tip on the version, if there is one ([`push_tips`]). If this program has no tip
/// on the mistake, the tip that [`tip_among_parsers`] returns is used, if any. The last line names
/// the help on `command`, or the program's help.
///
/// The parser's text has parts with an empty line between them: the mistake; tips, or none; the
/// usage, or none; and the help to read.
fn with_own_tips(
    alloc: Global,
    text: &str,
    command: Option<&str>,
    version: Option<&str>,
) -> Result<String, AllocError>
    ensures { IfOk result (λ text. IsTextFor false (string_bytes text)) }
{
    let (mistake, rest) = text.split_once("\n\n").unwrap_or((text, ""));
    let (tips, rest) = tips_before(rest);
    let usage = rest
        .strip_suffix("For more information, try '--help'.\n")
        .unwrap_or(rest);
    let mut explained = format!(in alloc; "{mistake}\n\n")?;
    let tip = tip_on(mistake, command).or(tip_among_parsers(tips));
    push_tips(&mut explained, tip, version)?;
    explained.push_str(usage)?;
    explained.push_str("For more information, try 'snmp ")?;
    if let Some(command) = command {
        write!(explained, "{command} ")?;
    }
    explained.push_str("--help'.\n")?;
    Ok(explained)
}

/// Appends `tip` and `version`, each if it isn't `None`, and an empty line unless both are `None`.
/// Leaves out `version` if `tip` is [`USERS`], which names the version already.
fn push_tips(
    text: &mut String,
    tip: Option<&str>,
    version: Option<&str>,
) -> Result<(), AllocError> {
    if let Some(tip) = tip {
        write!(text, "  tip: {tip}\n")?;
    }
    match version {
        Some(version) if tip != Some(USERS) => write!(text, "  tip: {version}\n")?,
        _ => {}
    }
    if tip.or(version).is_some() {
        text.push('\n')?;
    }
    Ok(())
}

/// Returns the tip on the version if an argument begins with `-v` and the text after the `-v` isn't
/// `2c`. If that argument ends after `-v`, the text is the next argument that isn't empty, if any.
/// For `-v=2c` the text is `=2c`, so the tip is returned too.
fn tip_on_version(words: &[&str]) -> Option<&'static str> {
    let mut is_next = false;
    for word in words {
        let version = if is_next {
            Some(*word)
        } else {
            word.strip_prefix("-v")
        };
        is_next = false;
        match version {
            Some("") => is_next = true,
            Some("2c") | None => {}
            Some(_) => return Some(VERSIONS),
        }
    }
    None
}

/// Returns the tips that `text` begins with, if any, and what follows them.
fn tips_before(text: &str) -> (&str, &str) {
    if text.starts_with("  tip: ") {
        text.split_once("\n\n").unwrap_or((text, ""))
    } else {
        ("", text)
    }
}

/// Returns the first of the parser's tips, without the label `tip: `. Returns `None` if there is no
/// tip, or if the first one begins with `to pass '`.
fn tip_among_parsers(tips: &str) -> Option<&str> {
    let (first, _) = tips.split_once('\n').unwrap_or((tips, ""));
    let tip = first.strip_prefix("  tip: ")?;
    (!tip.starts_with("to pass '")).then_some(tip)
}

/// Returns this program's tip on a mistake, if there is one. `mistake` is the parser's sentence.
fn tip_on(mistake: &str, command: Option<&str>) -> Option<&'static str> {
    if let Some(name) = between("error: unrecognized subcommand '", mistake, "'") {
        return tip_among(COMMANDS, name);
    }
    if let Some(word) = between("error: unexpected argument '", mistake, "' found") {
        return tip_on_word(word, command);
    }
    if mistake.starts_with("error: the following required") && mistake.contains("<AGENT>") {
        return Some("AGENT is HOST or HOST:PORT, such as 192.0.2.1, or table:FILE");
    }
    tip_on_value(option_of(mistake)?, command)
}

/// Returns the tip that says which values `option` of `command` takes, if there is one. The tips
/// for this command come before those for all commands.
fn tip_on_value(option: &str, command: Option<&str>) -> Option<&'static str> {
    let own = match command {
        Some("snmptranslate") => VALUES_OF_TRANSLATE,
        Some("snmpwalk") => VALUES_OF_WALK,
        Some("snmpbulkwalk") => VALUES_OF_BULK_WALK,
        _ => VALUES,
    };
    tip_among(own, option).or(tip_among(VALUES, option))
}

/// Returns the tip on `word`, an argument that `command` doesn't have, if there is one.
fn tip_on_word(word: &str, command: Option<&str>) -> Option<&'static str> {
    match command {
        None => Some("the command comes first, as in snmp snmpwalk -On AGENT"),
        Some("snmpd") if !word.starts_with('-') => Some(
            "--table FILE says what is served, and --listen HOST:PORT where",
        ),
        Some("snmpd") => tip_among(OPTIONS_OF_SNMPD, word),
        Some(_) => tip_among(OPTIONS, word),
    }
}

/// Returns the option whose value the mistake is about, if it is about one.
fn option_of(mistake: &str) -> Option<&str> {
    if let Some(rest) = mistake.strip_prefix("error: a value is required for '") {
        return Some(rest.split_once("' but")?.0);
    }
    let rest = mistake.strip_prefix("error: invalid value '")?;
    let (_, rest) = rest.rsplit_once("' for '")?;
    Some(rest.split_once("': ")?.0)
}

/// Returns what is between `before` and `after`, if `text` begins with `before` and what follows
/// ends with `after`.
fn between<'t>(before: &str, text: &'t str, after: &str) -> Option<&'t str> {
    text.strip_prefix(before)?.strip_suffix(after)
}

/// Returns the tip on `word`, if it has one in `tips`.
fn tip_among(tips: Tips, word: &str) -> Option<&'static str> {
    let (_, tip) = tips.iter().find(|tip| tip.0 == word)?;
    Some(*tip)
}
