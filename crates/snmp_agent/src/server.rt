//! A server of a table: it receives datagrams and replies to them, one in each turn.
ghost use Rattle.std.specs.Prelude.{◌≡◌, ◌+◌, List, cond};
ghost use Rattle.snmp_agent.specs.Reply.{agent_of};
ghost use Rattle.snmp_agent.specs.Serving.{Event, InTurn, IsTurn, AreTurns, same_turn};
ghost use Rattle.snmp_io.specs.Count.{HasIncreasedBy};

use crate::agent::answer_near;
use crate::config::{Config, Outcome};
use crate::endpoint::{Endpoint, SocketEndpoint};
use crate::table::{Hint, Table};
use snmp_wire::MAX_DATAGRAM;
use std::net::UdpSocket;

/// The number of turns of a server, by how they ended.
#[derive(Clone, Copy, Debug, Default, PartialEq, Eq)]
pub struct Served {
    /// Turns that received a datagram and sent its reply.
    pub replies: u64,
    /// Turns that received a datagram that has no reply.
    pub dropped: u64,
    /// Turns that received no datagram in time.
    pub idle: u64,
    /// Turns that failed to receive or to send.
    pub faults: u64,
}

/// How one turn of a server ended.
#[derive(Clone, Copy, PartialEq, Eq)]
pub enum Turn {
    Replied,
    Dropped,
    Idle,
    Failed,
}

/// Serves a table over a UDP socket (RFC 3417, section 3) for `turns` turns. A turn receives one
/// datagram, or waits until the socket's time-out passes. The agent's reply, if there is one, goes
/// to the address that the datagram came from. A turn whose receive or send fails counts only under
/// `faults`, and the next turn follows.
///
/// A socket without a time-out waits for each datagram. Allocates nothing.
pub fn serve(socket: &UdpSocket, table: &Table, config: &Config<'_>, turns: u64) -> Served
    ensures { result.replies + result.dropped + result.idle + result.faults ≡ turns }
{
    serve_at(&mut SocketEndpoint::new(socket), table, config, turns)
}

/// Does what [`serve`] does at any endpoint, which receives the datagrams and sends the replies.
// `inline(never)`: its two buffers are on the stack. If it were inlined, a caller with several such
// calls would reserve room for the buffers of each.
#[inline(never)]
pub fn serve_at<E: Endpoint>(
    endpoint: &mut E,
    table: &Table,
    config: &Config<'_>,
    turns: u64,
) -> Served
    ensures adds_up { result.replies + result.dropped + result.idle + result.faults ≡ turns }
    // `events` happened at the endpoint in these turns. For each datagram that was received, the
    // agent's reply was sent to its peer, or the send of that reply failed, or the agent drops the
    // datagram.
    ensures turns { (events : List (Event E.Peer))
        × AreTurns (agent_of table.now config.now) turns result events
        × InTurn E.happens endpoint.old events endpoint.new }
    // The fault count increased by the number of turns that failed, up to its greatest value.
    ensures faults { HasIncreasedBy result.faults (E.fault_count endpoint.old)
        (E.fault_count endpoint.new) }
{
    let mut served = Served::default();
    let mut request = [0; MAX_DATAGRAM];
    let mut reply = [0; MAX_DATAGRAM];
    let mut hint = Hint::default();
    'turns: for _ in 0..turns {
        match serve_once(endpoint, table, config, &mut request, &mut reply, &mut hint) {
            Turn::Replied => served.replies += 1,
            Turn::Dropped => served.dropped += 1,
            Turn::Idle => served.idle += 1,
            Turn::Failed => served.faults += 1,
        }
    }
    served
}

/// Serves one turn: receives a datagram, if one comes in time, and sends its reply, if it has one.
fn serve_once<E: Endpoint>(
    endpoint: &mut E,
    table: &Table,
    config: &Config<'_>,
    request: &mut [u8; MAX_DATAGRAM],
    reply: &mut [u8; MAX_DATAGRAM],
    hint: &mut Hint,
) -> Turn
    ensures turn { (events : List (Event E.Peer))
        × IsTurn (agent_of table.now config.now) result events
        × InTurn E.happens endpoint.old events endpoint.new }
    ensures faults { HasIncreasedBy (cond (same_turn Turn.Failed result) 1 0)
        (E.fault_count endpoint.old) (E.fault_count endpoint.new) }
{
    let (size, peer) = match endpoint.receive(&mut request[..]) {
        Ok(Some((size, peer))) => (size, peer),
        Ok(None) => return Turn::Idle,
        Err(_) => return Turn::Failed,
    };
    match answer_near(table, config, &request[..size], reply, hint) {
        Outcome::Reply(length) => match endpoint.reply(&reply[..length], peer) {
            Ok(()) => Turn::Replied,
            Err(_) => Turn::Failed,
        },
        Outcome::Dropped(_) => Turn::Dropped,
    }
}
