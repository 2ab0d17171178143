//! Requests and the replies to them.
ghost use Rattle.std.specs.Prelude.{◌≡◌, ◌≢◌, ℕ, ◌≤◌, ◌<◌, List, [], length, take, IfOk, IfErr};
ghost use Rattle.std.specs.Prelude.{IsSome};
ghost use Rattle.snmp_wire.specs.declared.kind.Kind.TheVariants as kind;
ghost use Rattle.snmp_wire.specs.{Canon.canon_bindings, Message.Message, Parts.parts_message};
ghost use Rattle.snmp_agent.specs.Reply.{agent_of, IsReply, IsDropped, IsRequest, IsRefused};
ghost use Rattle.snmp_agent.specs.Reply.{IsServed, response, failed_index};
ghost use Rattle.snmp_agent.specs.private.Answering.{AreWritable, IsAnswered, IsWritten};
ghost use Rattle.snmp_agent.specs.private.Answering.{whole_index, whole_status};

use crate::answers::append_answers;
use crate::bulk::{append_bulk, room_for_bindings};
use crate::config::{Config, DropReason, Outcome};
use crate::laws::one_reply;
use crate::room::ReplyBindings;
use crate::table::{Guesses, Hint, Last, Table};
use snmp_oid::order;
use snmp_wire::{Kind, MAX_DATAGRAM, MessageRef, Parts, decode, message_sizes, pieces, seal};

/// The version of SNMPv2c (RFC 1901, section 3).
const VERSION: i32 = 1;

/// The error status noError (RFC 3416, section 3).
const NO_ERROR: i32 = 0;

/// The error status tooBig (RFC 3416, section 3).
const TOO_BIG: i32 = 1;

/// The error status notWritable (RFC 3416, section 3).
const NOT_WRITABLE: i32 = 17;

/// Writes the reply to a datagram to the start of `out`, and returns its length, or why there is
/// no reply (RFC 3416, sections 4.2.1, 4.2.2, 4.2.3 and 4.2.5).
///
/// The other octets of `out` are unspecified. Allocates nothing.
pub fn answer(
    table: &Table,
    config: &Config<'_>,
    request: &[u8],
    out: &mut [u8; MAX_DATAGRAM],
) -> Outcome
    // The Response to a GetBulk has as many of its bindings as fit. If the Response to another
    // request doesn't fit, the reply is the error tooBig, if that fits.
    ensures reply { (n : ℕ) → result ≡ Outcome.Reply n
        → IsReply (agent_of table.now config.now) request.now (take n out.new) }
    ensures length { (n : ℕ) → result ≡ Outcome.Reply n → n ≤ config.now.max_size }
    // If the datagram has a reply, that reply is the result.
    ensures replied { (octets : List ℕ)
        → IsReply (agent_of table.now config.now) request.now octets
        → (result ≡ Outcome.Reply (length octets)) × (take (length octets) out.new ≡ octets) }
    // The reason is the first that applies.
    ensures dropped { (why : DropReason) → result ≡ Outcome.Dropped why
        → IsDropped (agent_of table.now config.now) request.now why }
{
    let mut last = Last::default();
    let mut hint = Guesses::without_names(&mut last);
    answer_by(table, config, request, out, &mut hint)
}

/// Does what [`answer`] does, faster for a series of requests: a name whose position is in `hint`
/// is mostly found without a search. Records in `hint` positions of names that were searched, and
/// mostly also the position of the last row that a GetNext, or a GetBulk with one repeating name,
/// returned.
///
/// The reply doesn't depend on `hint`, which may even come from another table.
pub fn answer_near(
    table: &Table,
    config: &Config<'_>,
    request: &[u8],
    out: &mut [u8; MAX_DATAGRAM],
    hint: &mut Hint,
) -> Outcome
    ensures reply { (n : ℕ) → result ≡ Outcome.Reply n
        → IsReply (agent_of table.now config.now) request.now (take n out.new) }
    ensures length { (n : ℕ) → result ≡ Outcome.Reply n → n ≤ config.now.max_size }
    // If the datagram has a reply, that reply is the result.
    ensures replied { (octets : List ℕ)
        → IsReply (agent_of table.now config.now) request.now octets
        → (result ≡ Outcome.Reply (length octets)) × (take (length octets) out.new ≡ octets) }
    ensures dropped { (why : DropReason) → result ≡ Outcome.Dropped why
        → IsDropped (agent_of table.now config.now) request.now why }
{
    answer_by(table, config, request, out, &mut hint.lend())
}

/// Does what [`answer_near`] does, with a hint that is lent for the request.
fn answer_by(
    table: &Table,
    config: &Config<'_>,
    request: &[u8],
    out: &mut [u8; MAX_DATAGRAM],
    hint: &mut Guesses<'_>,
) -> Outcome
    ensures reply { (n : ℕ) → result ≡ Outcome.Reply n
        → IsReply (agent_of table.now config.now) request.now (take n out.new) }
    ensures length { (n : ℕ) → result ≡ Outcome.Reply n → n ≤ config.now.max_size }
    // If the datagram has a reply, that reply is the result.
    ensures replied { (octets : List ℕ)
        → IsReply (agent_of table.now config.now) request.now octets
        → (result ≡ Outcome.Reply (length octets)) × (take (length octets) out.new ≡ octets) }
    ensures dropped { (why : DropReason) → result ≡ Outcome.Dropped why
        → IsDropped (agent_of table.now config.now) request.now why }
{
    one_reply();
    match decode_request(config.community, request) {
        Ok(message) => match reply(table, config, &message, out, hint) {
            Some(size) => Outcome::Reply(size),
            None => Outcome::Dropped(DropReason::TooLong),
        },
        Err(why) => Outcome::Dropped(why),
    }
}

/// Returns the request that `octets` encode, or why the agent doesn't serve it.
fn decode_request<'a>(community: &[u8], octets: &'a [u8]) -> Result<MessageRef<'a>, DropReason>
    ensures found { IfOk result (IsRequest community.now octets.now) }
    ensures refused { IfErr result (IsRefused community.now octets.now) }
{
    let message = match decode(octets) {
        Ok(message) => message,
        Err(_) => return Err(DropReason::Undecodable),
    };
    if message.version() != VERSION {
        return Err(DropReason::Version);
    }
    if message.community() != community {
        return Err(DropReason::Community);
    }
    match message.kind() {
        Kind::GetRequest | Kind::GetNextRequest | Kind::GetBulkRequest | Kind::SetRequest => {
            Ok(message)
        }
        _ => Err(DropReason::Pdu),
    }
}

/// Writes the Response to a request to the start of `out`, and returns its length. Returns `None`
/// if it would have more than `max_size` octets even without bindings.
fn reply(
    table: &Table,
    config: &Config<'_>,
    request: &MessageRef<'_>,
    out: &mut [u8; MAX_DATAGRAM],
    hint: &mut Guesses<'_>,
) -> Option<usize>
    requires served { IsServed request.now.kind }
    requires community { length request.now.community ≤ 255 }
    requires writable { AreWritable request.now.bindings }
    ensures { IsAnswered table.now config.now.max_size request.now result out.new }
{
    match request.kind() {
        Kind::GetBulkRequest => bulk_reply(table, config, request, out, hint),
        _ => paired_reply(table, config, request, out, hint),
    }
}

/// Does what [`reply`] does for a GetBulk: the Response has as many bindings as fit.
fn bulk_reply<'a>(
    table: &'a Table,
    config: &Config<'_>,
    request: &MessageRef<'a>,
    out: &mut [u8; MAX_DATAGRAM],
    hint: &mut Guesses<'_>,
) -> Option<usize>
    requires bulk { request.now.kind ≡ kind.GetBulkRequest }
    requires community { length request.now.community ≤ 255 }
    ensures { IsAnswered table.now config.now.max_size request.now result out.new }
{
    order();
    table.is_mib_view();
    message_sizes();
    let parts = response(request, NO_ERROR, 0);
    let room = room_for_bindings(&parts, config.max_size);
    let bindings = append_bulk(table, request, ReplyBindings::new(room), out, hint);
    seal_reply(&parts, bindings.total, config, out)
}

/// Does what [`reply`] does for a Get, a GetNext or a Set: the Response has one binding for each
/// of the request's, or is the error tooBig if they don't fit.
fn paired_reply(
    table: &Table,
    config: &Config<'_>,
    request: &MessageRef<'_>,
    out: &mut [u8; MAX_DATAGRAM],
    hint: &mut Guesses<'_>,
) -> Option<usize>
    requires served { IsServed request.now.kind }
    requires other { request.now.kind ≢ kind.GetBulkRequest }
    requires community { length request.now.community ≤ 255 }
    requires writable { AreWritable request.now.bindings }
    ensures { IsAnswered table.now config.now.max_size request.now result out.new }
{
    order();
    message_sizes();
    let parts = whole_parts(request);
    let room = config.max_size;
    let bindings = append_answers(
        table,
        request.kind(),
        request.bindings(),
        ReplyBindings::new(room),
        out,
        hint,
    );
    // If a binding had no room, `left` is 0. Then `total` is `max_size`, so no head fits, and the
    // reply is the error tooBig if that fits (RFC 3416, section 4.2.1).
    let total = room - bindings.left;
    match seal_reply(&parts, total, config, out) {
        Some(size) => Some(size),
        None => seal_reply(&response(request, TOO_BIG, 0), 0, config, out),
    }
}

/// Returns the parts of the whole Response to a request, without its bindings.
fn whole_parts<'a>(request: &MessageRef<'a>) -> Parts<'a>
    ensures { parts_message result ≡ response request.now (whole_status request.now.kind)
        (whole_index request.now.kind request.now.bindings) [] }
{
    match request.kind() {
        Kind::SetRequest => response(request, NOT_WRITABLE, failed_index(request)),
        _ => response(request, NO_ERROR, 0),
    }
}

/// Returns the error-index of the reply to a Set: 1, its first binding, or 0 if it has none.
fn failed_index(request: &MessageRef<'_>) -> i32
    ensures { result ≡ failed_index request.now.bindings }
{
    match request.bindings().next() {
        Some(_) => 1,
        None => 0,
    }
}

/// Returns the parts of a Response to `request`, without bindings.
fn response<'a>(request: &MessageRef<'a>, status: i32, index: i32) -> Parts<'a>
    ensures { parts_message result ≡ response request.now status index [] }
{
    Parts {
        version: request.version(),
        community: request.community(),
        kind: Kind::Response,
        id: request.id(),
        a: status,
        b: index,
        bindings: &[],
    }
}

/// Completes a message whose bindings are the first `total` octets of `out`: moves them, writes
/// the head before them, and returns the length of the message. Returns `None` if that is above
/// `max_size`.
fn seal_reply(
    parts: &Parts<'_>,
    total: usize,
    config: &Config<'_>,
    out: &mut [u8; MAX_DATAGRAM],
) -> Option<usize>
    requires community { length parts.now.community.now ≤ 255 }
    requires within { total ≤ config.now.max_size }
    ensures written { (r : Message) → parts_message parts.now ≡ record r { bindings = [] }
        → take total out.old ≡ canon_bindings r.bindings
        → IsWritten config.now.max_size r result out.new }
    // The head takes octets too.
    ensures room { IsSome result → total < config.now.max_size }
{
    message_sizes();
    pieces();
    seal(parts, 0, total, &mut out[..config.max_size])
}
