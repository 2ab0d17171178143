//! A walk and the agent that replies to it, at the two ends of one network.
ghost use Rattle.std.specs.Prelude.{◌≡◌, ◌≤◌, ◌+◌, length, take, IsErr};
ghost use Rattle.std.specs.Prelude.{IfOk, IfSome, IfNone, OnOk, OnErr};
ghost use Rattle.snmp_io.specs.Count.{HasIncreased};
ghost use Rattle.snmp_walk.specs.{Facts.IsFresh, Link.AreLawful, RunResult.IsRun};
ghost use Rattle.snmp_walk.specs.Served.{IsWalkServed, agents_at};

use crate::run::run_walk;
use crate::{Link, LinkFault, Sink, WalkCore, WalkEnd};
use snmp_agent::{Config, Endpoint, Table, serve_at};

/// A network between a walk and an agent. The agent's end of it is an endpoint.
///
/// It may lose, repeat, delay and reorder datagrams, as UDP may (RFC 768). It neither invents nor
/// alters messages.
pub trait Network: Endpoint {
    ghost use Rattle.std.specs.Prelude.{◌≡◌, ◌≤◌, ◌++◌, ◌∷◌, [], ℕ, List, map, length};
    ghost use Rattle.std.specs.Prelude.{IfOk, IfSome, OnErr, OnOk};
    ghost use Rattle.snmp_io.specs.Count.{HasIncreased};
    ghost use Rattle.snmp_agent.specs.Event.{Event, InTurn};
    ghost use Rattle.snmp_agent.specs.{Reply.Agent, Serving.AreTurns};
    ghost use Rattle.snmp_agent.specs.declared.server.Served.{Served};
    ghost use Rattle.snmp_walk.specs.Network.{Happening, IsFaithful, RepliesTo, at_agents, at_walk};
    ghost use Rattle.snmp_walk.specs.Network.{event_of_got, event_of_send, requests_by};
    ghost use Rattle.snmp_walk.specs.Traffic.{latest};

    /// `carries old e new`: the event `e` can happen at one end in state `old` and leave the
    /// network in state `new`.
    ghost carries: { Self → Happening Self.Peer → Self → Type 0 };

    /// `is_new network`: nothing was sent yet, at either end.
    ghost is_new: { Self → Type 0 };

    /// The walk, as a peer of the agent.
    ghost walker: { Self → Self.Peer };

    /// The number of turns of the agent before the walk's next receive returns. In each turn, the
    /// agent receives once and may reply.
    ghost turn_count: { Self → ℕ };

    /// The datagrams that the walk sent.
    ghost sent: { Self → List (List ℕ) };

    /// `is_prompt network`: the network loses and delays nothing from now on. After the agent's
    /// turns, a receive of the walk returns the agent's reply to the datagram that the walk sent
    /// last, or nothing if there is none. It may also fail.
    ghost is_prompt: { Self → Type 0 };

    /// Returns the number of turns of the agent before the walk's next receive returns.
    fn turns(&self) -> u64
        ensures { result ≡ turn_count self.now };

    /// Sends a datagram of the walk to the agent. If this fails, the fault is counted.
    fn send(&mut self, datagram: &[u8]) -> Result<(), LinkFault>
        ensures carries { carries self.old (at_walk (event_of_send result datagram.now)) self.new }
        ensures count { OnOk result (Self.fault_count self.new ≡ Self.fault_count self.old) }
        ensures fault { OnErr result
            (HasIncreased (Self.fault_count self.old) (Self.fault_count self.new)) };

    /// Receives a datagram for the walk into the start of `buffer` and returns its length. Returns
    /// `None` if none arrives in time. Fails if the datagram is longer than the buffer. Each fault
    /// is counted.
    fn receive_reply(&mut self, buffer: &mut [u8]) -> Result<Option<usize>, LinkFault>
        ensures length { IfOk result (λ got. IfSome got (λ n. n ≤ length buffer.old)) }
        ensures carries { carries self.old (at_walk (event_of_got result buffer.new)) self.new }
        ensures count { OnOk result (Self.fault_count self.new ≡ Self.fault_count self.old) }
        ensures fault { OnErr result
            (HasIncreased (Self.fault_count self.old) (Self.fault_count self.new)) };

    /// What happens at the agent's endpoint happens on the network.
    ghost at_end: { (old new : Self) (e : Event Self.Peer) → Self.happens old e new
        → carries old (at_agents e) new };

    /// From a new network on, a message that arrives at the walk was passed to a send of the agent
    /// before. A datagram that arrives at the agent from the walk was passed to a send of the walk
    /// before. The send may have failed.
    ghost faithful: { (first last : Self) (run : List (Happening Self.Peer)) → is_new first
        → InTurn carries first run last → IsFaithful (walker first) run };

    /// Over a new network the walk has sent nothing.
    ghost starts: { (network : Self) → is_new network → sent network ≡ [] };

    /// A send that succeeds at the walk's end appends its datagram to `sent`. No other event
    /// changes `sent`.
    ghost sending: { (old new : Self) (e : Happening Self.Peer) → carries old e new
        → sent new ≡ sent old ++ requests_by e };

    /// A prompt network stays prompt, whatever happens.
    ghost still_prompt: { (old new : Self) (e : Happening Self.Peer) → is_prompt old
        → carries old e new → is_prompt new };

    /// Over a prompt network, after the agent's turns, a receive of the walk returns the agent's
    /// reply to the latest datagram of the walk, or nothing if there is none. It may also fail.
    ghost replying: { (old new : Self) (agent : Agent) (served : Served)
        (events : List (Event Self.Peer)) (e : Event (Unit {0})) → is_prompt old
        → AreTurns agent (turn_count old) served events
        → InTurn carries old (map at_agents events ++ at_walk e ∷ []) new
        → RepliesTo agent (latest (sent old)) e };
}

/// A link over a network to the agent that serves a table at its other end.
#[derive(Drop)]
pub struct NetworkLink<'a, N> {
    network: N,
    table: &'a Table,
    config: Config<'a>,
    faults: u64,
}

impl<'a, N: Network> NetworkLink<'a, N> {
    ghost use Rattle.std.specs.Prelude.{◌≡◌};
    ghost use Rattle.snmp_walk.specs.{Link.AreLawful, Served.agents_at};

    /// Returns a link over `network` to the agent of `table`.
    pub fn new(network: N, table: &'a Table, config: Config<'a>) -> NetworkLink<'a, N>
        ensures network { result.network ≡ network }
        ensures table { result.table.now ≡ table.now }
        ensures config { result.config ≡ config.entry }
        ensures no_fault { result.faults ≡ 0 }
        ensures lawful { AreLawful (agents_at result) }
    {
        table.is_mib_view();
        NetworkLink {
            network,
            table,
            config,
            faults: 0,
        }
    }
}

impl<'a, N: Network> Link for NetworkLink<'a, N> {
    ghost use Rattle.std.specs.Prelude.{◌≡◌, [], ◌∷◌};
    ghost use Rattle.snmp_agent.specs.Event.{came, sent, send_failed, silence, receive_failed};
    ghost use Rattle.snmp_walk.specs.Link.{AreLawful};
    ghost use Rattle.snmp_walk.specs.Network.{at_walk};
    ghost use Rattle.snmp_walk.specs.Served.{IsServedBy, SameAgent, agents_at};
    ghost use Rattle.snmp_walk.specs.Traffic.{Traffic};

    ghost records = { λ _. Unit {0} };

    ghost honest = { λ link. N.is_prompt link.network × AreLawful (agents_at link) };

    ghost agents = { agents_at };

    // Without deliveries ahead, a receive delivers the reply to the latest datagram, if it has
    // one, as over a prompt network.
    ghost traffic = { λ link. record { sent = N.sent link.network; ahead = [] } };

    ghost fault_count = { λ link. link.faults };

    ghost ready = { λ _ _ _. ⊥ };

    ghost delivers = { λ old d new. IsServedBy N.carries N.turn_count old (came tt d) new };

    ghost sends = { λ old d new. SameAgent old new
        × N.carries old.network (at_walk (sent tt d)) new.network };

    ghost send_fails = { λ old d new. SameAgent old new
        × N.carries old.network (at_walk (send_failed tt d)) new.network };

    ghost is_silent = { λ old new. IsServedBy N.carries N.turn_count old silence new };

    ghost receive_fails = { λ old new. IsServedBy N.carries N.turn_count old receive_failed new };

    ghost recording = { λ _ _. tt };

    ghost lawful = { λ link h. h.1 };

    fn send(&mut self, datagram: &[u8]) -> Result<(), LinkFault> {
        match self.network.send(datagram) {
            Ok(()) => Ok(()),
            Err(_) => {
                self.faults = self.faults.saturating_add(1);
                Err(LinkFault)
            }
        }
    }

    /// Lets the agent have its turns, and then receives for the walk.
    fn receive(&mut self, buffer: &mut [u8]) -> Result<Option<usize>, LinkFault> {
        let turns = self.network.turns();
        serve_at(&mut self.network, self.table, &self.config, turns);
        match self.network.receive_reply(buffer) {
            Ok(got) => Ok(got),
            Err(_) => {
                self.faults = self.faults.saturating_add(1);
                Err(LinkFault)
            }
        }
    }

    fn faults(&self) -> u64 {
        self.faults
    }
}

/// Walks over a network at whose other end an agent serves a table. The caller must pass a network
/// over which nothing was sent yet, and a core that has taken no reply yet.
///
/// What [`run_walk`] promises of any link holds of this one. For example, the walk ends with
/// `NoResponse` only after it sent one request `retries + 1` times, and the agent had its turns
/// after each send.
///
/// Whatever the network loses, repeats, delays and reorders, the bindings passed on are a prefix
/// of the walk over that table, and all of it if the walk is done. Over a network that loses and
/// delays nothing, the walk is done unless the network or the sink fails, if the walk has the
/// agent's community, each binding fits into a message, and there are enough ids.
pub fn walk_served<'a, N: Network + Drop, S: Sink>(
    link: &mut NetworkLink<'a, N>,
    core: WalkCore,
    retries: u32,
    sink: &mut S,
) -> WalkEnd
    requires fresh { IsFresh core }
    requires new { N.is_new link.old.network }
    ensures ran { IsRun S.takes sink.old result sink.new (λ rows refused. IsWalkServed
        ⟦<NetworkLink<'a, N> as Link>⟧ (agents_at link.old) (N.is_prompt link.old.network)
        link.old link.new (retries + 1) core rows refused result) }
{
    link.table.is_mib_view();
    run_walk(link, core, retries, sink)
}
