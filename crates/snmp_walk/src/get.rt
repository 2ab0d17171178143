//! A Get over a link: one request for all its names (RFC 3416, section 4.2.1).
ghost use Rattle.std.specs.Prelude.{◌≡◌, ◌≤◌, ◌<◌, ◌^◌, ◌+◌, ◌++◌, ◌≢◌, replicate, ℕ, List, []};
ghost use Rattle.std.specs.Prelude.{All, length, take, IfSome, IfNone, IsSome, ◌↔◌, ◌&&◌, not};
ghost use Rattle.snmp_oid.specs.Identifier.{IsIdentifier, IsWire, wire};
ghost use Rattle.snmp_wire.specs.Canon.{canon, canon_binding, canon_bindings, IsEncodable};
ghost use Rattle.std.specs.{Bool.nat_eq, Cmp.Lexicographic.pointwise, List.AllByRecursion};
ghost use Rattle.snmp_wire.specs.{ber.Value.null_value, Message.Message, Message.VarBind};
ghost use Rattle.snmp_wire.specs.{Message.var_bind, Range.IsBindingInRange, Range.IsMessageInRange};
ghost use Rattle.snmp_walk.specs.{Names.is_end, private.ComputedStep.awaits, RunResult.IsGotOver};
ghost use Rattle.snmp_walk.specs.{RunResult.IsRun};
ghost use Rattle.snmp_walk.specs.Get.{asked_names, get_request, are_for as are_these, answers_of};

use crate::laws::codec;
use crate::tries::{Course, Judgement, Waiter, exchange, is_awaited};
use crate::{Link, Rows, Sink, WalkEnd};
use snmp_wire::{
    Binding, Bindings, Kind, MAX_DATAGRAM, MessageRef, Oid, Parts, ValueRef, encode_binding,
    pieces, seal,
};
use std::marker::Model;

/// Gets the instances of `names`: sends one Get of their wire forms, at most `retries + 1` times,
/// and passes the bindings of its reply to the sink in order (RFC 3416, section 4.2.1). The wire
/// form of a name is the name, padded with zeros to two numbers.
///
/// The caller must pass names whose wire forms have an encoding (X.690, 8.19.4), a community of at
/// most 255 octets and an id of at most 2147483647.
///
/// Without names, sends nothing and returns `Done(0)`. Returns `RequestTooLong`, and sends
/// nothing, if the request has more than 65507 octets.
///
/// The clause `ran` says that the sink took bindings, perhaps none, and perhaps refused one more
/// (`IsRun`). What is known of these bindings and of the end are the fields of `IsGotOver`
/// (`specs/RunResult.antt`). Over any link:
///
/// - `named`: the names passed are the first ones of those asked for, in order, and all of them if
///   the Get is done.
/// - `reason`: if the request was sent, the end has its reason in what came of it.
/// - `unasked`: without names, and if the request is too long, the link is unchanged.
/// - `moved`: the request is sent at most `retries + 1` times, and there are at most 64 receives
///   for each send. The link failed if and only if the end is `Link`.
/// - `happened.replied`: if each message that arrived is a reply of one agent, whose table doesn't
///   change, as over a network that neither invents nor alters messages (`honest_networks`), the
///   bindings passed are the first ones of what Gets of the names in that table return, and all of
///   them if the Get is done.
/// - `happened.replied_or_failed`: the same if errors may have arrived too, such as genErr.
/// - `sends`: the datagrams passed to [`Link::send`] in these events are the request, as many times
///   as `moved` says.
///
/// Over a link whose traffic lists what is sent (`Link::records`), `sent` says how many times the
/// request was sent, and `later` that a later run may begin with the id after this one. Over an
/// honest link, one that delivers only replies of its agents, `judged` says the same as
/// `happened.replied`, and when the Get is done. `later` and `judged` assume that the requests
/// sent over the link before have lower ids.
// `inline(never)`: its buffer takes 66 KB of stack. Inlined, a caller with several such calls
// would reserve that for each.
#[inline(never)]
pub fn run_get<L: Link, S: Sink>(
    link: &mut L,
    names: &[Oid],
    community: &[u8],
    id: u32,
    retries: u32,
    sink: &mut S,
) -> WalkEnd
    requires wire { All (λ o. IsWire (wire o)) names.now }
    requires community { length community.now ≤ 255 }
    requires id { id < 2 ^ 31 }
    ensures ran { IsRun S.takes sink.old result sink.new (λ given refused.
        IsGotOver L.Link link.old link.new (retries + 1) community.now id names.now given refused
        result) }
{
    codec();
    if names.is_empty() {
        return WalkEnd::Done(0);
    }
    let mut buffer = [0; MAX_DATAGRAM];
    let Some(size) = write_request(names, community, id, &mut buffer) else {
        return WalkEnd::RequestTooLong;
    };
    let mut get = Get {
        names,
        community,
        id,
    };
    // Nearly all requests are short, and zeroing a buffer for the longest takes long.
    if size <= 2048 {
        ask::<2048, L, S>(link, &mut get, retries, size, &mut buffer, sink)
    } else {
        ask::<MAX_DATAGRAM, L, S>(link, &mut get, retries, size, &mut buffer, sink)
    }
}

/// Runs a Get whose request is the first `size` octets of `buffer`, at most `N`. Its replies are
/// received into the same buffer.
// `inline(never)`: inlined, every Get would reserve the stack for the longest request.
#[inline(never)]
fn ask<const N: usize, L: Link, S: Sink>(
    link: &mut L,
    get: &mut Get<'_>,
    retries: u32,
    size: usize,
    buffer: &mut [u8; MAX_DATAGRAM],
    sink: &mut S,
) -> WalkEnd
    requires some { get.old.names ≢ [] }
    requires room { size ≤ N }
    requires datagram { N ≤ 65507 }
    requires request { take size buffer.old ≡ canon (get_request get.old.community get.old.id
        get.old.names) }
    requires range { IsMessageInRange (get_request get.old.community get.old.id get.old.names) }
    ensures { IsRun S.takes sink.old result sink.new (λ given refused.
        IsGotOver L.Link link.old link.new (retries + 1) get.old.community get.old.id
        get.old.names given refused result) }
{
    codec();
    let mut request = [0u8; N];
    request[..size].copy_from_slice(&buffer[..size]);
    let mut end = WalkEnd::NoResponse;
    match exchange(link, get, retries, &request[..size], buffer, sink, &mut end) {
        Ok(Some(Course::GoesOn)) => unreachable!(),
        Ok(Some(Course::Ends)) => end,
        Ok(None) => WalkEnd::NoResponse,
        Err(_) => WalkEnd::Link,
    }
}

/// A Get that waits for its reply.
#[derive(Drop)]
struct Get<'n> {
    names: &'n [Oid],
    community: &'n [u8],
    id: u32,
}

impl<'n> Model for Get<'n> {
    ghost use Rattle.std.specs.Prelude.{◌<◌, ◌^◌, All};
    ghost use Rattle.snmp_oid.specs.Identifier.{IsWire, wire};
    ghost use Rattle.snmp_walk.specs.Get.{WaitingGet};

    ghost Value = { WaitingGet };

    ghost view = { λ get. record {
      names = get.names.now;
      community = get.community.now;
      id = get.id;
    } };

    ghost invariant = { λ get. All (λ o. IsWire (wire o)) get.names.now × (get.id < 2 ^ 31) };
}

impl<'n> Waiter for Get<'n> {
    ghost use Rattle.std.specs.Prelude.{◌≡◌};
    ghost use Rattle.snmp_walk.specs.Get.{got_step};

    ghost community = { λ get. get.community };

    ghost id = { λ get. get.id };

    ghost reads = { λ old m step new. step ≡ got_step old.names m };

    fn awaits(&self, message: &MessageRef<'_>) -> bool {
        is_awaited(self.community, self.id, message)
    }

    fn read<'a>(&mut self, reply: &MessageRef<'a>, end: &mut WalkEnd) -> Judgement<'a> {
        let (rows, how) = match read_message(self.names, reply) {
            Ok(rows) => (rows, WalkEnd::Done(self.names.len() as u64)),
            Err(fault) => (Rows::read_rows(reply.bindings(), 0), fault),
        };
        *end = how;
        Judgement::Ends(rows)
    }
}

/// Returns the bindings of `message`, the reply to a Get of `names`. Fails with the end of the Get
/// if the reply has an error status or isn't for these names.
fn read_message<'a>(names: &[Oid], message: &MessageRef<'a>) -> Result<Rows<'a>, WalkEnd>
    requires { All (λ o. IsWire (wire o)) names.now }
    ensures { result ≡ answers_of names.now message.now }
{
    let status = message.a();
    if status != 0 {
        return Err(WalkEnd::Fault(status, message.b()));
    }
    if !are_for(names, message.bindings()) {
        return Err(WalkEnd::BadReply);
    }
    Ok(Rows::read_rows(message.bindings(), names.len()))
}

/// Writes the Get of `names` to the start of `out` and returns its length. Returns `None` if it
/// has more than 65507 octets.
fn write_request(
    names: &[Oid],
    community: &[u8],
    id: u32,
    out: &mut [u8; MAX_DATAGRAM],
) -> Option<usize>
    requires wire { All (λ o. IsWire (wire o)) names.now }
    requires community { length community.now ≤ 255 }
    requires id { id < 2 ^ 31 }
    ensures some { IfSome result (λ n. (n ≤ 65507)
        × (take n out.new ≡ canon (get_request community.now id names.now))) }
    ensures none { IfNone result (65507 < length (canon (get_request community.now id names.now))) }
    ensures range { IfSome result (λ _. IsMessageInRange (get_request community.now id names.now)) }
{
    pieces();
    let total = write_names(names, out)?;
    let parts = Parts {
        version: 1,
        community,
        kind: Kind::GetRequest,
        id: id as i32,
        a: 0,
        b: 0,
        bindings: &[],
    };
    seal(&parts, 0, total, &mut out[..])
}

/// Writes `binding` to `out` after its first `total` octets and returns the new total. Returns
/// `None` if it doesn't fit.
fn append(binding: &Binding<'_>, total: usize, out: &mut [u8]) -> Option<usize>
    requires encodable { IsEncodable (var_bind binding.now) }
    requires total { total ≤ length out.old }
    ensures written { IfSome result
        (λ n. (n ≡ total + length (canon_binding (var_bind binding.now)))
        × (take n out.new ≡ take total out.old ++ canon_binding (var_bind binding.now))
        × (n ≤ length out.old)) }
    ensures too_long { IfNone result (length out.old < total + length (canon_binding (var_bind
        binding.now))) }
{
    match encode_binding(binding, &mut out[total..]) {
        Some(size) => Some(total + size),
        None => None,
    }
}

/// Writes the bindings of a request for `names` to the start of `out` and returns their length.
/// Returns `None` if they have more than 65507 octets.
fn write_names(names: &[Oid], out: &mut [u8; MAX_DATAGRAM]) -> Option<usize>
    requires { All (λ o. IsWire (wire o)) names.now }
    ensures some { IfSome result (λ n. (n ≤ 65507)
        × (n ≡ length (canon_bindings (asked_names names.now)))
        × (take n out.new ≡ canon_bindings (asked_names names.now))) }
    ensures none { IfNone result (65507 < length (canon_bindings (asked_names names.now))) }
    ensures range { IfSome result (λ _. AllByRecursion IsBindingInRange (asked_names names.now)) }
{
    let mut total = 0;
    'names: for name in names {
        let binding = request_binding(name);
        total = match append(&binding, total, &mut out[..]) {
            Some(total) => total,
            None => return None,
        };
    }
    Some(total)
}

/// Returns the binding of a request for `name`: its wire form, with NULL.
fn request_binding<'a>(name: &Oid) -> Binding<'a>
    requires { IsWire (wire name.now) }
    ensures value { var_bind result ≡ record { name = wire name.now; value = null_value } }
    ensures range { IsBindingInRange (record { name = wire name.now; value = null_value }) }
{
    match name.to_wire() {
        Ok(sent) => {
            is_identifier(&sent);
            Binding {
                name: sent,
                value: ValueRef::Null,
            }
        }
        Err(_) => unreachable!(),
    }
}

/// An `Oid` has at most 128 numbers, each below 2^32.
///
/// A law: the call does nothing, and its caller may use what it ensures.
fn is_identifier(oid: &Oid)
    ensures { IsIdentifier oid.now }
{
    oid.as_slice();
}

/// Returns whether `bindings` have exactly the wire forms of `names`, in order, and none has
/// endOfMibView.
fn are_for(names: &[Oid], mut bindings: Bindings<'_>) -> bool
    requires { All (λ o. IsWire (wire o)) names.now }
    ensures { result ≡ are_these names.now bindings.entry }
{
    let mut binding = Binding::empty();
    'names: for name in names {
        if !bindings.read_next(&mut binding) || !is_for(name, &binding) {
            return false;
        }
    }
    !bindings.read_next(&mut binding)
}

/// Returns whether `binding` has the wire form of `name`, and not endOfMibView.
fn is_for(name: &Oid, binding: &Binding<'_>) -> bool
    requires { IsWire (wire name.now) }
    ensures { result ≡ (pointwise nat_eq (var_bind binding.now).name (wire name.now) && not (is_end
        (var_bind binding.now).value)) }
{
    match name.to_wire() {
        Ok(sent) => binding.name == sent && !matches!(binding.value, ValueRef::EndOfMibView),
        Err(_) => unreachable!(),
    }
}
