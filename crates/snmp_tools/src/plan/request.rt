//! The arguments of a job that asks an agent.
ghost use Rattle.std.specs.Prelude.{◌≡◌};
ghost use Rattle.snmp_words.specs.Words.{get_words, walk_words};
ghost use Rattle.snmp_tools.specs.{private.Planned.ask_words, Question.of_get, Question.of_walk};

use snmp_words::{Asking, GetJob, WalkJob};

/// A job that asks an agent.
#[derive(Clone, Copy, Debug)]
pub(crate) struct AskJob<'j, 'a> {
    /// The agent to ask, the messages to ask it with, and how the replies are shown.
    pub(crate) asking: &'j Asking<'a>,
    /// What to ask for.
    pub(crate) request: Request<'j, 'a>,
}

/// What to ask an agent for. Each name is as it was passed.
#[derive(Clone, Copy, Debug)]
pub(crate) enum Request<'j, 'a> {
    /// The instances of these names.
    Get(&'j [&'a str]),
    /// The instances below a name.
    Walk {
        /// Whether to ask with GetBulk, for many instances at a time.
        bulk: bool,
        /// The letters of `-C`.
        letters: &'j str,
        /// The name after which the walk continues (`--after`), if one is given.
        after: Option<&'a str>,
        /// The name of the walk's root, if one is given.
        name: Option<&'a str>,
    },
}

impl<'j, 'a> AskJob<'j, 'a> {
    /// Returns the job of snmpget.
    pub(crate) fn of_get(get: &'j GetJob<'a>) -> AskJob<'j, 'a>
        ensures { ask_words result ≡ of_get (get_words get.now) }
    {
        AskJob {
            asking: &get.asking,
            request: Request::Get(&get.names),
        }
    }

    /// Returns the job of snmpbulkwalk if `bulk`, otherwise of snmpwalk.
    pub(crate) fn of_walk(bulk: bool, walk: &'j WalkJob<'a>) -> AskJob<'j, 'a>
        ensures { ask_words result ≡ of_walk bulk (walk_words walk.now) }
    {
        AskJob {
            asking: &walk.asking,
            request: Request::Walk {
                bulk,
                letters: &walk.letters,
                after: walk.after,
                name: walk.name,
            },
        }
    }
}
