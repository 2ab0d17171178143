//! A job that asks an agent: judges its arguments, loads its module files, looks up its names,
//! reaches the agent, and prints the lines of the answer.
ghost use Rattle.std.specs.Prelude.{◌≡◌};
ghost use Rattle.snmp_io.specs.{Files.MayHold, Output.Stream};
ghost use Rattle.snmp_tools.specs.{Answer.end_in_memory, FaultText.outcome_of, load.Loaded.IsMibOf};
ghost use Rattle.snmp_tools.specs.{Question.counts_in, Seen.seen};
ghost use Rattle.snmp_tools.specs.AskResult.{IsFinished, IsOutcome, IsOutcomeBy};
ghost use Rattle.snmp_tools.specs.private.Planned.{AreOrdersOf, ask_words, plan_of};

mod lines;
mod start;

use crate::failure::Failure;
use crate::load::{ModuleLoader, discard};
use crate::messages::Messages;
use crate::plan::{AskJob, Orders, Plan};
use crate::table_names::table_at;
pub(crate) use lines::print_text;
use lines::{print_count, print_lines};
use smi_tree::Tree;
use snmp_agent::{Config, one_answer};
use snmp_io::{Files, Output};
use snmp_net::{AgentAddress, Links};
use snmp_walk::{MemoryLink, SinkFault, WalkEnd, instances_below};
use std::alloc::Global;

/// Asks an agent and prints the lines of its answer. Before that, judges the arguments, loads the
/// modules and writes their warnings to `err`.
pub(crate) fn ask<'a, F: ModuleLoader<E>, L: Links, O: Output, E: Messages>(
    alloc: Global,
    job: AskJob<'_, 'a>,
    files: &F,
    links: &mut L,
    out: &mut O,
    err: &mut E,
) -> Result<(), Failure<'a>>
    ensures { IsOutcome L.Links L.Wire.Link (F.loads files.now) (ask_words job.entry)
        (seen (F.text_at files.now) links.old (O.stream out.old) (E.stream err.old))
        (seen (F.text_at files.now) links.new (O.stream out.new) (E.stream err.new))
        (outcome_of result) }
{
    let orders = Orders::read(job)?;
    let tree = files.load(alloc, &job.asking.mibs, err)?;
    let done = ask_by(alloc, job, orders, &tree, files, links, out);
    discard(files, tree);
    done
}

/// Asks an agent and prints the lines of its answer. Names and types are looked up in `tree`.
fn ask_by<'a, F: Files, L: Links, O: Output>(
    alloc: Global,
    job: AskJob<'_, 'a>,
    orders: Orders<'a>,
    tree: &Tree,
    files: &F,
    links: &mut L,
    out: &mut O,
) -> Result<(), Failure<'a>>
    requires orders { AreOrdersOf (ask_words job) orders }
    requires known { IsMibOf (MayHold (F.text_at files.now)) (ask_words job).asking tree.now }
    ensures { (err : Stream) → IsOutcomeBy L.Links L.Wire.Link (ask_words job.entry)
        tree.now (seen (F.text_at files.now) links.old (O.stream out.old) err)
        (seen (F.text_at files.now) links.new (O.stream out.new) err) (outcome_of result) }
{
    let asking = job.asking;
    let plan = Plan::read(alloc, job, orders, tree)?;
    let retries = asking.retries as u32;
    let mut text = Vec::new(alloc);
    match plan.orders.agent {
        AgentAddress::Table(path) => {
            let table = table_at(alloc, tree, files, path)?;
            let config = Config {
                community: plan.orders.community,
                max_size: plan.orders.max_size,
            };
            table.is_mib_view();
            one_answer();
            instances_below();
            let mut link = MemoryLink::new(alloc, &table, config, &[]);
            let end = print_lines(&mut link, &plan, retries, tree, &mut text, out)?;
            finish(end_in_memory(end), &plan, asking.agent, &mut text, out)
        }
        AgentAddress::Udp(at) => {
            let mut link = match links.open(at.host, at.port, asking.seconds) {
                Ok(link) => link,
                Err(_) => return Err(Failure::Ended(asking.agent, WalkEnd::Link)),
            };
            let printed = print_lines(&mut link, &plan, retries, tree, &mut text, out);
            links.close(link);
            let end = printed?;
            finish(end, &plan, asking.agent, &mut text, out)
        }
    }
}

/// Returns how a run over a link in memory ended. Such a link fails only if memory runs out, so
/// memory is the reason if the link failed.
fn end_in_memory(end: WalkEnd) -> WalkEnd
    ensures { result ≡ end_in_memory end }
{
    match end {
        WalkEnd::Link => WalkEnd::Sink(SinkFault::Memory),
        end => end,
    }
}

/// Prints the number of bindings after the lines of a run, if the run is done and the arguments
/// ask for the number. Fails if the run ended early, or if the number can't be printed.
fn finish<'a, O: Output>(
    end: WalkEnd,
    plan: &Plan<'_, 'a>,
    agent: &'a str,
    text: &mut Vec<u8>,
    out: &mut O,
) -> Result<(), Failure<'a>>
    ensures { IsFinished agent.now end (counts_in (plan_of plan.now).question)
        (O.stream out.old) (O.stream out.new) (outcome_of result) }
{
    let counts = plan.question.counts();
    match end {
        WalkEnd::Done(count) if counts => print_count(count, text, out),
        WalkEnd::Done(_) => Ok(()),
        end => Err(Failure::Ended(agent, end)),
    }
}
