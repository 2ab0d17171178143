//! The commands of the program, with the rules for their arguments and the help on them.
ghost use Rattle.std.specs.Prelude.{◌≡◌, true};
ghost use Rattle.clap.specs.{Simple.App, Simple.new_app, Simple.with_subcommand, Words.app_of};
ghost use Rattle.snmp_words.specs.Command.{IsMade, asking_rules, get_app, serve_app, snmp_app};
ghost use Rattle.snmp_words.specs.Command.{top_app, translate_app, walk_app, with_rules};

use crate::options::{self, BULK_LETTERS, WALK_LETTERS};
use clap::Command;
use std::alloc::{AllocError, Global};

/// The version of the program.
pub(crate) const VERSION: &str = "0.7.0";

// The descriptions of the two walks in their help, and the end of the help of each subcommand: an
// example, the exit statuses, and the manual pages to read.
const TRANSLATE_END: &str = "\
Example:
  snmp snmptranslate -On iso.3.6.1.2.1.1.5.0

Exit status:
  0  each name was printed
  1  a name without a meaning, or another fault, with a message on standard error

man snmp has a sample of each letter, and explains each message";

const GET_END: &str = "\
Example:
  echo '1.3.6.1.2.1.1.5.0|4|gate' | snmp snmpget -On table:/dev/stdin .1.3.6.1.2.1.1.5.0

Exit status:
  0  each name has its line, also where there is no such instance
  1  no reply, or another fault, with a message on standard error
  2  the agent reports an error

man snmp has a sample of each letter, and explains each message";

const WALK_ABOUT: &str =
    "Prints the instances below a name in their order, asking for one at a time";

const WALK_END: &str = "\
Example:
  echo '1.3.6.1.2.1.1.5.0|4|gate' | snmp snmpwalk -On table:/dev/stdin .1.3.6.1.2.1.1

Exit status:
  0  all below the name was printed
  1  no reply, or another fault, with a message on standard error
  2  the agent reports an error

man snmp has a sample of each letter, and explains each message";

const BULK_ABOUT: &str =
    "Prints the instances below a name in their order, asking for many at a time";

const BULK_END: &str = "\
Example:
  echo '1.3.6.1.2.1.1.5.0|4|gate' | snmp snmpbulkwalk -On -Cr25 -Cp table:/dev/stdin .1.3.6

Exit status:
  0  all below the name was printed
  1  no reply, or another fault, with a message on standard error
  2  the agent reports an error

man snmp has a sample of each letter, and explains each message";

const SERVE_END: &str = "\
Example, an agent for half a minute:
  echo '1.3.6.1.2.1.1.5.0|4|gate' | snmp snmpd --table /dev/stdin --listen 127.0.0.1:1161 --turns 30

Exit status:
  0  all turns were served
  1  a file or the address was refused, or another fault, with a message on standard error

man snmp explains each message, man snmp-table the format of tables";

// A command, or an error if memory ran out.
type Made<'a> = Result<Command<'a>, AllocError>;

/// Returns the command `snmp` with its subcommands.
pub(crate) fn snmp_command<'a>(alloc: Global) -> Made<'a>
    ensures { IsMade result snmp_app }
{
    let with_translate = with_command(Ok(top_command(alloc)), translate_command(alloc));
    let with_get = with_command(with_translate, get_command(alloc));
    let walk = walk_command(alloc, "snmpwalk", WALK_ABOUT, WALK_LETTERS, WALK_END);
    let with_walk = with_command(with_get, walk);
    let bulk_walk = walk_command(alloc, "snmpbulkwalk", BULK_ABOUT, BULK_LETTERS, BULK_END);
    let with_bulk_walk = with_command(with_walk, bulk_walk);
    with_command(with_bulk_walk, serve_command(alloc))
}

/// Returns `command` with one more subcommand.
fn with_command<'a>(command: Made<'a>, subcommand: Made<'a>) -> Made<'a>
    ensures { (app sub : App) → IsMade command.entry app → IsMade subcommand.entry sub
        → sub.top.is_plain ≡ true → IsMade result (with_subcommand app sub.top) }
{
    command?.subcommand(subcommand?)
}

/// Returns the program's own command, without subcommands.
fn top_command<'a>(alloc: Global) -> Command<'a>
    ensures { app_of result ≡ top_app }
{
    Command::new(alloc, "snmp")
        .about(
            "Translates names of managed objects, reads them from SNMP agents, and serves tables",
        )
        .after_help(
            "snmp COMMAND --help shows the words of a command, with an example; man snmp has more",
        )
        .version(VERSION)
        .propagate_version(true)
        .subcommand_required(true)
        .disable_help_subcommand(true)
}

/// Returns a command that has no arguments yet. Its help has the description `about`, and ends with
/// `end`.
fn new_command<'a>(alloc: Global, name: &'a str, about: &'a str, end: &'a str) -> Command<'a>
    ensures { app_of result ≡ new_app name.now }
{
    Command::new(alloc, name).about(about).after_help(end)
}

/// Returns the command snmptranslate.
fn translate_command<'a>(alloc: Global) -> Made<'a>
    ensures { IsMade result translate_app }
{
    let about = "Prints names of managed objects in another form, or details of them";
    new_command(alloc, "snmptranslate", about, TRANSLATE_END)
        .arg(options::mib_option(alloc))?
        .arg(options::letters_option(alloc, options::LETTERS_OF_NAMES))?
        .arg(options::details_option(alloc))?
        .arg(options::names_word(alloc))
}

/// Returns a command with the options for asking an agent and for showing its replies.
fn asking_command<'a>(alloc: Global, name: &'a str, about: &'a str, end: &'a str) -> Made<'a>
    ensures { IsMade result (with_rules (new_app name.now) asking_rules) }
{
    new_command(alloc, name, about, end)
        .arg(options::mib_option(alloc))?
        .arg(options::letters_option(alloc, options::LETTERS_OF_LINES))?
        .arg(options::protocol_option(alloc))?
        .arg(options::community_option(alloc))?
        .arg(options::retries_option(alloc))?
        .arg(options::seconds_option(alloc))?
        .arg(options::size_option(alloc))
}

/// Returns the command snmpget.
fn get_command<'a>(alloc: Global) -> Made<'a>
    ensures { IsMade result get_app }
{
    asking_command(
        alloc,
        "snmpget",
        "Prints the instances that names stand for",
        GET_END,
    )?
    .arg(options::agent_word(alloc))?
    .arg(options::names_word(alloc))
}

/// Returns the command snmpwalk or snmpbulkwalk; `letters` is the help on its letters of `-C`.
fn walk_command<'a>(
    alloc: Global,
    name: &'a str,
    about: &'a str,
    letters: &'a str,
    end: &'a str,
) -> Made<'a>
    ensures { IsMade result (walk_app name.now) }
{
    asking_command(alloc, name, about, end)?
        .arg(options::walk_letters_option(alloc, letters))?
        .arg(options::after_option(alloc))?
        .arg(options::agent_word(alloc))?
        .arg(options::name_word(alloc))
}

/// Returns the command snmpd.
fn serve_command<'a>(alloc: Global) -> Made<'a>
    ensures { IsMade result serve_app }
{
    new_command(alloc, "snmpd", "Serves a table as an agent", SERVE_END)
        .arg(options::mib_option(alloc))?
        .arg(options::table_option(alloc))?
        .arg(options::community_option(alloc))?
        .arg(options::listen_option(alloc))?
        .arg(options::size_option(alloc))?
        .arg(options::turns_option(alloc))
}
