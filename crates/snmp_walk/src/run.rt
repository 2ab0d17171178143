//! Runs a walk over a link, from its first request to its end.
ghost use Rattle.std.specs.Prelude.{◌≡◌, ◌+◌};
ghost use Rattle.snmp_walk.specs.{Facts.IsFresh, RunResult.IsRun, RunResult.IsWalkedOver};

use crate::laws::codec;
use crate::tries::{Course, exchange};
use crate::{Link, Sink, WalkCore, WalkEnd};
use snmp_wire::MAX_DATAGRAM;

/// Walks over a link with a core that has taken no reply yet. Each request is sent at most
/// `retries + 1` times, and each binding of the walk is passed to the sink as it arrives.
///
/// The clause `ran` says that the sink took bindings, perhaps none, and perhaps refused one more
/// (`IsRun`). What is known of these bindings and of the end are the fields of `IsWalkedOver`
/// (`specs/RunResult.antt`). Over any link:
///
/// - `part`: each name passed is the root or below it.
/// - `ends.rising`: the names increase, so that each is passed once.
/// - `ends.counted`: if the end is `Done(n)`, n bindings were passed.
/// - `ends.reason`: the end has its reason in what came of the last request. For example, the end
///   is `NoResponse` only if that request was sent `retries + 1` times, and the receives after
///   each send, at most 64, didn't return its reply.
/// - `moved`: the ids of the requests increase by one, and each request is passed to
///   [`Link::send`] 1 to `retries + 1` times. The link failed if and only if the end is `Link`.
/// - `moved.within`: there are at most 64 receives for each send, failed ones included.
/// - `few_of_rows`: there is at most one request for each row passed, one more, and a Get.
/// - `happened.replied`: if each message that arrived is a reply of one agent, whose table doesn't
///   change, as over a network that neither invents nor alters messages (`honest_networks`), the
///   bindings passed are a prefix of the walk over that table, and all of it if the walk is done.
/// - `happened.replied_or_failed`: the same if errors may have arrived too, such as genErr.
/// - `sends`: the datagrams passed to [`Link::send`] in these events are the requests of `moved`,
///   each as many times as `moved` says.
///
/// Over a link whose traffic lists what is sent (`Link::records`):
///
/// - `sent`: which requests were sent, and how many times.
/// - `moved.few`: there are at most 64 receives for each datagram sent.
/// - `later`: if the requests sent before have lower ids, a later walk over the link may begin
///   with the id after the last id of this one.
///
/// Over an honest link, one that delivers only replies of its agents, if the requests sent over it
/// before have lower ids:
///
/// - `judged.given`: the same as `happened.replied`. If the table changes during the walk and the
///   walk is done, each name of the walk that all the tables have is passed once
///   (`common_at_done`).
/// - `judged.done_unless_stopped`: without losses the walk is done unless the link or the sink
///   fails, if the walk has the agents' community, each binding fits into a message, and there are
///   enough ids.
/// - `ready`: a link that is ready for all sends doesn't fail.
// `inline(never)`: its buffers take 66 KB of stack. Inlined, a caller with several such calls
// would reserve that for each.
#[inline(never)]
pub fn run_walk<L: Link, S: Sink>(
    link: &mut L,
    core: WalkCore,
    retries: u32,
    sink: &mut S,
) -> WalkEnd
    requires { IsFresh core }
    ensures ran { IsRun S.takes sink.old result sink.new (λ rows refused.
        IsWalkedOver L.Link link.old link.new (retries + 1) core rows refused result) }
{
    codec();
    let mut core = core;
    // A request of a walk has at most 1,000 octets. A longer buffer would take longer to zero.
    let mut request = [0; 1024];
    let mut buffer = [0; MAX_DATAGRAM];
    let mut end = WalkEnd::NoResponse;
    'turns: loop {
        let length = core.request_in(&mut request[..]);
        match exchange(
            link,
            &mut core,
            retries,
            &request[..length],
            &mut buffer,
            sink,
            &mut end,
        ) {
            Ok(Some(Course::GoesOn)) => {}
            Ok(Some(Course::Ends)) => return end,
            Ok(None) => return WalkEnd::NoResponse,
            Err(_) => return WalkEnd::Link,
        }
    }
}
