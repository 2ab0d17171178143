//! The plan of a job that asks an agent. Its arguments are judged in order, up to the first that
//! is refused. If none is refused, its names are looked up.
ghost use Rattle.std.specs.Prelude.{◌≡◌, ◌≤◌, length, IfErr, IfOk};
ghost use Rattle.snmp_walk.specs.WalkState.{IsMethod};
ghost use Rattle.snmp_tools.specs.{Asking.HasAgent, Letters.IsMethod-prop, FaultText.fault_of};
ghost use Rattle.snmp_io.specs.Files.{Holdings};
ghost use Rattle.snmp_tools.specs.Question.{AskFor, HasChosen, IsEarlyRefusal, IsQuestionOf};
ghost use Rattle.snmp_tools.specs.Question.{counts_in};

mod choices;
mod judge;
mod request;

use crate::failure::Failure;
use crate::names::{name, optional_name, read_names};
pub(crate) use choices::Choices;
use judge::{read_agent, read_shown};
pub(crate) use request::{AskJob, Request};
use smi_show::Letters;
use smi_tree::Tree;
use snmp_net::AgentAddress;
use snmp_oid::Oid;
use snmp_walk::{Method, Mode};
use std::alloc::Global;

/// A question, the agent to ask, and how the answer is shown.
#[derive(Debug, Drop)]
pub(crate) struct Plan<'j, 'a> {
    /// The agent to ask, and how the answer is shown.
    pub(crate) orders: Orders<'a>,
    /// What is asked.
    pub(crate) question: Question<'j, 'a>,
}

impl<'j, 'a> Plan<'j, 'a> {
    ghost use Rattle.snmp_tools.specs.private.Planned.{AreOrdersOf, HasTextsOf, NamesFail};
    ghost use Rattle.snmp_tools.specs.private.Planned.{ask_words, plan_of};

    /// Returns the plan of `job`, with its names looked up in `tree`. `orders` must be what its
    /// arguments say. Fails if a name has no meaning, or if memory runs out.
    pub(crate) fn read(
        alloc: Global,
        job: AskJob<'j, 'a>,
        orders: Orders<'a>,
        tree: &Tree,
    ) -> Result<Plan<'j, 'a>, Failure<'a>>
        requires { AreOrdersOf (ask_words job) orders }
        ensures asked { IfOk result (λ plan. AskFor (ask_words job.entry) tree.now (plan_of plan)) }
        ensures only { IfOk result (λ plan.
            HasAgent (ask_words job.entry).asking.agent (plan_of plan).agent) }
        ensures texts { IfOk result (λ plan.
            HasTextsOf (ask_words job.entry).request plan.question) }
        ensures refused { IfErr result (λ e. NamesFail (ask_words job.entry).request
            tree.now (fault_of e)) }
    {
        let question = Question::read(alloc, job.request, orders.choices, tree)?;
        Ok(Plan { orders, question })
    }
}

/// What the judged arguments of a job say, before any file is read.
#[derive(Clone, Copy, Debug)]
pub(crate) struct Orders<'a> {
    /// How lines are shown.
    pub(crate) letters: Letters,
    /// What the letters of `-C` choose.
    pub(crate) choices: Choices,
    /// The community of requests, and of an agent in memory.
    pub(crate) community: &'a [u8],
    /// The greatest size of a message of an agent in memory, in octets.
    pub(crate) max_size: usize,
    /// The address of the agent.
    pub(crate) agent: AgentAddress<'a>,
    ghost short_community: { length community.now ≤ 255 },
    ghost some_size: { 1 ≤ max_size },
    ghost datagram_size: { max_size ≤ 65507 },
}

impl<'a> Orders<'a> {
    ghost use Rattle.snmp_tools.specs.private.Planned.{AreOrdersOf, ask_words};

    /// Judges the arguments of `job`: the version, the letters of `-O` and `-C`, the community and
    /// AGENT. Fails at the first that is refused.
    pub(crate) fn read(job: AskJob<'_, 'a>) -> Result<Orders<'a>, Failure<'a>>
        ensures orders { IfOk result (AreOrdersOf (ask_words job.entry)) }
        ensures refused { (files : Holdings)
            → IfErr result (λ e. IsEarlyRefusal (ask_words job.entry) files (fault_of e)) }
    {
        let letters = read_shown(job.asking)?;
        let choices = match Choices::of(job.request) {
            Ok(choices) => choices,
            Err(letter) => return Err(Failure::Letter(letter)),
        };
        let agent = read_agent(job.asking)?;
        Ok(Orders {
            letters,
            choices,
            community: job.asking.community.as_bytes(),
            max_size: job.asking.max_size as usize,
            agent,
        })
    }
}

/// A Get of names, or a walk.
#[derive(Debug, Drop)]
pub(crate) enum Question<'j, 'a> {
    /// A Get of these names.
    Get(Names<'j, 'a>),
    /// A walk.
    Walk(Walk<'a>),
}

impl<'j, 'a> Question<'j, 'a> {
    ghost use Rattle.snmp_tools.specs.private.Planned.{HasTextsOf, NamesFail, chosen, question_of};
    ghost use Rattle.snmp_tools.specs.private.Planned.{request_of};

    /// Returns whether the number of bindings is printed after their lines.
    pub(crate) fn counts(&self) -> bool
        ensures { result ≡ counts_in (question_of self.now) }
    {
        match self {
            Question::Get(_) => false,
            Question::Walk(walk) => walk.counts,
        }
    }

    // Returns what `request` asks an agent for, with its names looked up in `tree`. `choices` must
    // be what its letters of `-C` choose. Fails if a name has no meaning, or if memory runs out.
    fn read(
        alloc: Global,
        request: Request<'j, 'a>,
        choices: Choices,
        tree: &Tree,
    ) -> Result<Question<'j, 'a>, Failure<'a>>
        requires { HasChosen (request_of request) (chosen choices) }
        ensures stated { IfOk result (λ question. IsQuestionOf (request_of request.entry)
            (chosen choices) tree.now (question_of question)) }
        ensures texts { IfOk result (HasTextsOf (request_of request.entry)) }
        ensures refused { IfErr result (λ e. NamesFail (request_of request.entry)
            tree.now (fault_of e)) }
    {
        match request {
            Request::Get(texts) => Ok(Question::Get(Names {
                texts,
                oids: read_names(alloc, tree, texts)?,
            })),
            Request::Walk {
                bulk,
                after,
                name: root,
                ..
            } => {
                let (root_text, after_text) = (root.unwrap_or(MIB_2), after.unwrap_or(""));
                Ok(Question::Walk(Walk {
                    root_text,
                    root: name(tree, root_text)?,
                    after_text,
                    after: optional_name(tree, after)?,
                    mode: choices.mode(),
                    method: choices.method(bulk),
                    counts: choices.counts,
                }))
            }
        }
    }
}

/// The names of a Get.
#[derive(Debug, Drop)]
pub(crate) struct Names<'j, 'a> {
    /// The names as they were passed, in order.
    pub(crate) texts: &'j [&'a str],
    /// The identifiers: `oids[i]` is what `texts[i]` means.
    pub(crate) oids: Vec<Oid>,
    ghost one_each: { length oids.items ≡ length texts.now },
}

/// A walk.
#[derive(Debug, Drop)]
pub(crate) struct Walk<'a> {
    /// The root's name as it was passed, or `MIB_2`.
    pub(crate) root_text: &'a str,
    /// The root of the subtree.
    pub(crate) root: Oid,
    /// The name to continue after, as it was passed; empty if none was.
    pub(crate) after_text: &'a str,
    /// The name to continue after, if one was passed.
    pub(crate) after: Option<Oid>,
    /// What the walk returns besides the instances below the root, if it begins at the root.
    pub(crate) mode: Mode,
    /// The requests that it sends for instances: GetNext or GetBulk.
    pub(crate) method: Method,
    /// Whether the number of bindings is printed after their lines.
    pub(crate) counts: bool,
    ghost good_method: { IsMethod method } by { IsMethod-prop method },
}

/// The root of a walk if no name is given: `mib-2` (RFC 1213).
const MIB_2: &str = "1.3.6.1.2.1";
