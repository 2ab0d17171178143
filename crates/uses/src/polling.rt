//! Polls of a subtree, over any link.
ghost use Rattle.std.specs.Prelude.{◌≡◌, ◌≤◌, ◌<◌, ◌+◌, ◌^◌, ◌↔◌, [], ◌∷◌};
ghost use Rattle.std.specs.Prelude.{IfOk, IfErr, IfSome, IfNone, IsOk, length};
ghost use Rattle.snmp_oid.specs.Identifier.{IsWire, wire};
ghost use Rattle.snmp_agent.specs.table.Table.{MibView};
ghost use Rattle.snmp_walk.specs.{Ordered.AreOrdered, RunResult.HasHappened};
ghost use Rattle.snmp_walk.specs.{RunResult.IsHonestFrom};
ghost use Rattle.snmp_walk.specs.WalkState.{IsMethod};
ghost use Rattle.uses.specs.Polled.{AreBeginningsPolled, IsPolled};

use crate::Collected;
use snmp_oid::strict_order;
use snmp_walk::{
    Link, Method, Mode, StartError, WalkCore, WalkEnd, appended_bindings, instances_below,
    lower_ids, parts_of_lists, run_walk,
};
use snmp_wire::Oid;

/// Collects the instances below `root` that the agent at the other end of a link has.
///
/// Each request has one name, the community, and an id: `first_id`, and then one more for each. It
/// is sent up to `retries + 1` times. The result says how the poll ended: `Done` if the subtree was
/// read to its end. It is the error `NotWire` if the root can't be sent; then nothing was sent.
///
/// What the rows are depends on the link:
///
/// - `table`: over an honest link, which delivers only its agent's replies to what was sent, they
///   are the instances below the root, or the first of them if the poll isn't done (`IsPolled`).
///   This holds if the agent has one table, and earlier requests over the link had lower ids. A new
///   `MemoryLink` is honest.
/// - `happened`: over any link the same holds if all that arrived are replies of a lawful agent
///   (`AreLawful`) with one table to what was sent, as over a network that alters nothing.
/// - `rising`: whatever arrives, the names increase, so that no instance is collected twice.
pub fn poll<L: Link>(
    link: &mut L,
    root: Oid,
    method: Method,
    community: &[u8],
    retries: u32,
    first_id: u32,
    rows: &mut Collected,
) -> Result<WalkEnd, StartError>
    requires method { IsMethod method }
    requires community { length community.now ≤ 255 }
    requires first_id { first_id < 2 ^ 31 }
    requires empty { rows.old ≡ [] }
    ensures table { IfOk result (λ end. (view : MibView) → IsHonestFrom L.Link first_id link.old
        → (L.agents link.old).tables ≡ view ∷ [] → IsPolled view root end rows.new) }
    ensures happened { IfOk result (λ end. HasHappened L.Link link.old link.new end
        (λ agents why. (view : MibView) → agents.tables ≡ view ∷ []
        → IsPolled view root why rows.new)) }
    ensures rising { AreOrdered rows.new }
    // There was at most one request for each row, and one more. So their ids are below
    // `first_id + length rows + 1`, and the next poll over the link may begin with this id.
    ensures next { IsHonestFrom L.Link first_id link.old
        → IsHonestFrom L.Link (first_id + length rows.new + 1) link.new }
    ensures agents { L.agents link.new ≡ L.agents link.old }
    ensures variant { IsOk result ↔ IsWire (wire root) }
    ensures unchanged_on_error { IfErr result (λ why. (why ≡ StartError.NotWire)
        × (rows.new ≡ []) × (link.new ≡ link.old)) }
{
    beginnings_are_polled();
    instances_below();
    parts_of_lists();
    appended_bindings();
    lower_ids();
    match WalkCore::start(root, Mode::NoLast, method, community, first_id) {
        Ok(core) => Ok(run_walk(link, core, retries, rows)),
        Err(fault) => Err(fault),
    }
}

/// Returns the id with which a poll may begin after one that began with `first_id` and collected
/// these rows, or `None` if that id is greater than 2147483647.
pub fn next_id(first_id: u32, rows: &Collected) -> Option<u32>
    ensures some { IfSome result (λ id. (id ≡ first_id + length rows.now + 1) × (id < 2 ^ 31)) }
    ensures none { IfNone result (2 ^ 31 ≤ first_id + length rows.now + 1) }
{
    let count = u32::try_from(rows.len()).ok()?;
    let last = first_id.checked_add(count)?;
    if last < 0x7fff_ffff {
        Some(last + 1)
    } else {
        None
    }
}

/// Collects the instances below two roots over one link, one after the other, with ids from 1 on.
///
/// The ids of the second poll are greater than the ids of the first, so that a late reply to the
/// first poll isn't taken for a reply to the second. If there is no greater id, the second poll
/// isn't begun, and its end is `TooManyRequests`. The only error is `NotWire`: a root can't be
/// sent. If it is the first root, the second poll isn't begun.
pub fn poll_twice<L: Link>(
    link: &mut L,
    roots: (Oid, Oid),
    method: Method,
    community: &[u8],
    retries: u32,
    rows: &mut Collected,
    more: &mut Collected,
) -> Result<(WalkEnd, WalkEnd), StartError>
    requires method { IsMethod method }
    requires community { length community.now ≤ 255 }
    requires empty { rows.old ≡ [] }
    requires empty_too { more.old ≡ [] }
    ensures first { IfOk result (λ ends. (view : MibView) → IsHonestFrom L.Link 1 link.old
        → (L.agents link.old).tables ≡ view ∷ [] → IsPolled view roots.0 ends.0 rows.new) }
    ensures second { IfOk result (λ ends. (view : MibView) → IsHonestFrom L.Link 1 link.old
        → (L.agents link.old).tables ≡ view ∷ [] → IsPolled view roots.1 ends.1 more.new) }
{
    let (root, other) = roots;
    let end = match poll(link, root, method, community, retries, 1, rows) {
        Ok(end) => end,
        Err(fault) => return Err(fault),
    };
    let Some(id) = next_id(1, rows) else {
        return Ok((end, WalkEnd::TooManyRequests));
    };
    match poll(link, other, method, community, retries, id, more) {
        Ok(last) => Ok((end, last)),
        Err(fault) => Err(fault),
    }
}

/// A law, as a call that does nothing. If some rows are the first of a table's rows below a root
/// (none, some or all), and are all of them if a poll is done, then they are what that poll
/// collects (`IsPolled`).
fn beginnings_are_polled()
    ensures { AreBeginningsPolled }
{
    instances_below();
    parts_of_lists();
    strict_order();
}
