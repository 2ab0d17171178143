//! The trait [`Links`]: it opens links to agents, and doors, which are the sockets of servers.
ghost use Rattle.std.specs.Prelude.{◌≡◌, ◌<◌, ◌+◌, [], ℕ, List, IfOk, OnOk, OnErr};
ghost use Rattle.snmp_io.specs.Count.{HasIncreased};
ghost use Rattle.snmp_agent.specs.{Reply.Agent, Reply.agent_of, declared.server.Served.Served};

use snmp_agent::{Config, Served, Table};
use snmp_walk::{Link, LinkFault};

/// A network: it opens links to agents, and doors, which are the sockets of servers.
///
/// What a walk promises rests on the facts of its link. Of the machine's own links, only the
/// counts of faults are known.
pub trait Links {
    /// A link to an agent. Code for any `Links` can't drop it: the caller of `open` must pass it
    /// to `close`, so that `closes` says what its last state was.
    type Wire: Link;

    /// A door: a server's socket, or what replaces it in memory. A server receives requests from
    /// it and sends its replies through it.
    type Door: Drop;

    /// `opens old host port seconds wire new`: in state `old`, the link `wire` can be opened to
    /// this port of `host`, which leaves the network in state `new`. A receive over it waits up to
    /// `seconds` seconds.
    ghost opens: { Self → (host : List ℕ) → (port seconds : ℕ) → Self.Wire → Self → Type 0 };

    /// `closes old wire new`: in state `old`, the link `wire` can be closed, which leaves the
    /// network in state `new`.
    ghost closes: { Self → Self.Wire → Self → Type 0 };

    /// `binds old host port door new`: in state `old`, `door` can be opened at this port of
    /// `host`, which leaves the network in state `new`.
    ghost binds: { Self → (host : List ℕ) → (port : ℕ) → Self.Door → Self → Type 0 };

    /// `serves old door agent turns served new after`: in state `old`, serving `agent` at `door`
    /// for `turns` turns can return `served`, and leave the network in state `new` and the door in
    /// state `after`.
    ghost serves: { Self → Self.Door → Agent → (turns : ℕ) → Served → Self → Self.Door → Type 0 };

    /// `fails old new`: a call that fails can change the network's state from `old` to `new`.
    ghost fails: { Self → Self → Type 0 };

    /// The number of calls that failed, up to 18446744073709551615.
    ghost fault_count: { Self → ℕ };

    /// Opens a link to the agent at the UDP port `port` of `host`. A receive over it waits up to
    /// `seconds` seconds, which must be at least one. If this fails, the fault is counted.
    fn open(&mut self, host: &str, port: u16, seconds: u64) -> Result<Self::Wire, LinkFault>
        // The time limit of a receive is at least a second.
        requires { 0 < seconds }
        ensures opened { IfOk result (λ wire.
            opens self.old host.now port seconds wire self.new) }
        ensures fresh { IfOk result (λ wire. (Self.Wire.traffic wire).sent ≡ []) }
        ensures count { OnOk result (fault_count self.new ≡ fault_count self.old) }
        ensures failed { OnErr result (fails self.old self.new) }
        ensures fault { OnErr result (HasIncreased (fault_count self.old) (fault_count self.new)) };

    /// Closes a link.
    fn close(&mut self, wire: Self::Wire)
        ensures closed { closes self.old wire self.new }
        ensures count { fault_count self.new ≡ fault_count self.old };

    /// Opens a door at the UDP port `port` of `host`. If this fails, the fault is counted.
    fn bind(&mut self, host: &str, port: u16) -> Result<Self::Door, LinkFault>
        ensures bound { IfOk result (λ door. binds self.old host.now port door self.new) }
        ensures count { OnOk result (fault_count self.new ≡ fault_count self.old) }
        ensures failed { OnErr result (fails self.old self.new) }
        ensures fault { OnErr result (HasIncreased (fault_count self.old) (fault_count self.new)) };

    /// Serves `table` at `door` for `turns` turns, as [`snmp_agent::serve`] does. A turn waits at
    /// most one second for a request.
    fn serve(
        &mut self,
        door: &mut Self::Door,
        table: &Table,
        config: &Config<'_>,
        turns: u64,
    ) -> Served
        ensures adds_up { result.replies + result.dropped + result.idle + result.faults ≡ turns }
        ensures served { serves self.old door.old (agent_of table.now config.now) turns result
            self.new door.new }
        ensures count { fault_count self.new ≡ fault_count self.old };

    /// Returns how many calls failed; the count stays at 18446744073709551615 once it gets there.
    fn faults(&self) -> u64
        ensures { result ≡ fault_count self.now };
}
