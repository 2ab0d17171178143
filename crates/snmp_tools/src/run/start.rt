//! Asks the question of a plan, if its names can be sent.
ghost use Rattle.std.specs.Prelude.{◌≡◌, ◌≤◌, ◌+◌, IfErr, IfOk, OnErr, OnOk, length};
ghost use Rattle.snmp_oid.specs.Identifier.{IsWire, wire};
ghost use Rattle.snmp_walk.specs.{Facts.IsFresh, Ordered.IsUnsendable, RunResult.IsRun};
ghost use Rattle.snmp_tools.specs.Answer.{CanBeSent, IsAskedOver, first_of};
ghost use Rattle.snmp_tools.specs.{FaultText.fault_of, Question.subtree};
ghost use Rattle.snmp_tools.specs.private.Planned.{plan_of, question_of, walk_of};
ghost use Rattle.snmp_tools.specs.private.Start.{BeginFails, StartFails};

use crate::failure::Failure;
use crate::names::check_names;
use crate::plan::{Plan, Question, Walk};
use snmp_walk::{Link, Sink, StartError, WalkCore, WalkEnd, run_get, run_walk};

/// The id of the first request.
const FIRST_ID: u32 = 1;

/// Asks the question of `plan` over `link`, passes the bindings to `sink`, and returns how that
/// ended. A Get without names sends nothing.
///
/// Fails, before anything is sent, at the first name that can't be asked for: it can't be sent, or
/// it is the name of `--after` and is neither the root nor below it.
pub(crate) fn run_plan<'a, L: Link, S: Sink>(
    link: &mut L,
    plan: &Plan<'_, 'a>,
    retries: u32,
    sink: &mut S,
) -> Result<WalkEnd, Failure<'a>>
    ensures sendable { OnOk result (CanBeSent (question_of plan.now.question)) }
    ensures run { IfOk result (λ end. IsRun S.takes sink.old end sink.new (λ given refused.
        IsAskedOver L.Link link.old link.new (retries + 1) (plan_of plan.now)
        (question_of plan.now.question) given refused end)) }
    ensures refused { IfErr result (λ e. BeginFails plan.now.question (fault_of e)
        × (sink.new ≡ sink.old)) }
    // After an error, nothing was sent.
    ensures link_unchanged_on_error { OnErr result (link.new ≡ link.old) }
{
    let community = plan.orders.community;
    match &plan.question {
        Question::Get(names) => {
            check_names(names.texts, &names.oids)?;
            Ok(run_get(link, &names.oids, community, FIRST_ID, retries, sink))
        }
        Question::Walk(walk) => {
            let core = start(walk, community)?;
            Ok(run_walk(link, core, retries, sink))
        }
    }
}

/// Returns the state of `walk` before its first request. Fails as [`run_plan`] does.
fn start<'a>(walk: &Walk<'a>, community: &[u8]) -> Result<WalkCore, Failure<'a>>
    requires { length community.now ≤ 255 }
    ensures ok { IfOk result (λ core. core ≡ first_of community.now (walk_of walk.now)) }
    ensures fresh { IfOk result IsFresh }
    ensures sendable { OnOk result (CanBeSent (subtree (walk_of walk.now))) }
    ensures err { IfErr result (λ e. StartFails walk.now (fault_of e)) }
{
    let root = walk.root.copy();
    let Some(after) = &walk.after else {
        return WalkCore::start(root, walk.mode, walk.method, community, FIRST_ID).map_err(
            |_| Failure::NotWire(walk.root_text),
        );
    };
    match WalkCore::resume(root, after, walk.method, community, FIRST_ID) {
        Ok(core) => Ok(core),
        Err(StartError::AfterOutsideRoot) => Err(Failure::AfterOutsideRoot(walk.after_text)),
        Err(StartError::NotWire) => Err(Failure::NotWire(unsendable_text(walk))),
    }
}

/// Returns the argument of the root if the root can't be sent, otherwise the argument of the name
/// to continue after.
fn unsendable_text<'a>(walk: &Walk<'a>) -> &'a str
    ensures root { IsUnsendable walk.now.root → result ≡ walk.now.root_text }
    ensures after { IsWire (wire walk.now.root) → result ≡ walk.now.after_text }
{
    match walk.root.to_wire() {
        Ok(_) => walk.after_text,
        Err(_) => walk.root_text,
    }
}
