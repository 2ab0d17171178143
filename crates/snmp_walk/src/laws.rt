//! Laws of walks: calls that do nothing, and whose contracts proofs use.
ghost use Rattle.std.specs.Prelude.{◌≡◌, ◌≤◌, ◌++◌, ◌∷◌, [], ◌↔◌, ◌⊎◌, ℕ, List, length, IsTrue};
ghost use Rattle.snmp_wire.specs.{Canon.canon, Spelling.Spells};
ghost use Rattle.snmp_oid.specs.Identifier.{IsWire, IsBelow, Precedes, wire};
ghost use Rattle.snmp_wire.specs.Message.{Message, VarBind};
ghost use Rattle.snmp_agent.specs.table.Table.{MibView, IsMibView, IsRow, IsGet};
ghost use Rattle.snmp_agent.specs.table.Listing.{variables};
ghost use Rattle.snmp_walk.specs.{declared.mode.Mode.Mode, declared.rows.Step.Step};
ghost use Rattle.snmp_walk.specs.Names.{is_below};
ghost use Rattle.snmp_walk.specs.{StepRules.Means};
ghost use Rattle.snmp_walk.specs.{Walk.rows_below, Walk.walk_of, Walk.rest_of, private.Codec.Codec};
ghost use Rattle.snmp_walk.specs.{Link.Agents, Link.OneOf, Ordered.AreOrdered, Ordered.IsResumable};
ghost use Rattle.snmp_walk.specs.Loose.{agent_at, agents_at, last_sent, ways_left};
ghost use Rattle.snmp_walk.specs.{Request.request_of, Room.HasRoomForEach, Room.IsShort};
ghost use Rattle.snmp_walk.specs.{Appends.Appends, RunResult.AreOfLowerIds, Sink.Took};
ghost use Rattle.snmp_walk.specs.declared.end.WalkEnd.{WalkEnd};
ghost use Rattle.snmp_walk.specs.{WalkState.IsWalkState, WalkState.WalkState};
ghost use Rattle.snmp_walk.specs.Network.{AreReplies, AreRepliesOrErrors, AreServed, Happening};
ghost use Rattle.snmp_walk.specs.Network.{IsFaithful, of_walk};
ghost use Rattle.snmp_walk.specs.{declared.loose.LooseLink.LooseLink, Tries.Happens, Tries.InTurn};
ghost use Rattle.snmp_agent.specs.Event.{Event};

use crate::{Link, LooseLink, Way};
use snmp_agent::{Endpoint, one_answer, shortest_reply};
use snmp_oid::order;
use snmp_wire::{
    element_sizes, encoding_is_of_type, encoding_is_strict, message_sizes, one_spelling, pieces,
    strict_is_read,
};

/// If the table is a MIB view (`IsMibView`), the rows that a walk returns below its root are the
/// table's rows below that root, in the order of their names. The rest of the walk after a name is
/// the rows among them that come after the name, in the same order.
///
/// A law: the call does nothing, and its caller may use what it ensures.
pub fn instances_below()
    ensures below { (view : MibView) (root : List ℕ) (p : VarBind) → IsMibView view
        → OneOf (rows_below root (variables view)) p ↔ (IsRow view p × IsBelow p.name root) }
    ensures ordered { (view : MibView) (root : List ℕ) → IsMibView view
        → AreOrdered (rows_below root (variables view)) }
    ensures left { (view : MibView) (root o : List ℕ) (p : VarBind) → IsMibView view
        → OneOf (rest_of root o (variables view)) p
        ↔ (IsRow view p × IsBelow p.name root × Precedes o p.name) }
    ensures left_ordered { (view : MibView) (root o : List ℕ) → IsMibView view
        → AreOrdered (rest_of root o (variables view)) }
    // After the root as it is sent, the rest of the walk is all rows below the root.
    ensures from_root { (view : MibView) (root : List ℕ) → IsMibView view
        → rest_of root (wire root) (variables view) ≡ rows_below root (variables view) }
{
    order();
}

/// The test by which a walk selects names is true if and only if the name is below the root.
///
/// A law: the call does nothing, and its caller may use what it ensures.
pub fn names_below()
    ensures { (name root : List ℕ) → IsTrue (is_below name root) ↔ IsBelow name root }
{}

/// After each binding `p` of a walk over a MIB view, the walk continues with the rows below the
/// root that come after the name of `p`. `got` is the result of a Get of the root.
///
/// A law: the call does nothing, and its caller may use what it ensures.
pub fn rest_of_a_walk()
    ensures rest { (view : MibView) (mode : Mode) (root : List ℕ) (got p : VarBind)
        (prefix more : List VarBind) → IsMibView view → IsGet view (wire root) got
        → walk_of mode root got (variables view) ≡ prefix ++ p ∷ more
        → more ≡ rest_of root p.name (variables view) }
    // This also holds of a walk that is resumed.
    ensures rest_again { (view : MibView) (root o : List ℕ) (p : VarBind)
        (prefix more : List VarBind) → IsMibView view
        → rest_of root o (variables view) ≡ prefix ++ p ∷ more
        → more ≡ rest_of root p.name (variables view) }
    // If the root can be sent, a walk can be resumed after the name of each of its bindings.
    ensures resumable { (view : MibView) (mode : Mode) (root : List ℕ) (got p : VarBind)
        → IsMibView view → IsGet view (wire root) got → IsWire (wire root)
        → OneOf (walk_of mode root got (variables view)) p → IsResumable root p.name }
{}

/// If no row of a MIB view has a string of more than 700 octets, each row fits into a message of
/// agents whose messages may have 1472 octets and whose community has at most 30. So does each
/// exception for the name that a walk of this community begins from, if the name has at most 128
/// numbers.
///
/// A law: the call does nothing, and its caller may use what it ensures.
pub fn short_rows_have_room()
    ensures { (agents : Agents) (view : MibView) (first : WalkState)
        → first.community ≡ agents.community → length agents.community ≤ 30
        → 1472 ≤ agents.max_size → length first.asked ≤ 128 → IsMibView view
        → ((p : VarBind) → IsRow view p → IsShort p.value) → HasRoomForEach agents view first }
{}

/// The encoding of a walk's request has at most 1,000 octets, and is decoded as that request.
///
/// A law: the call does nothing, and its caller may use what it ensures.
pub fn requests_are_short()
    ensures short { (w : WalkState) → IsWalkState w → length (canon (request_of w)) ≤ 1000 }
    ensures read { (w : WalkState) → IsWalkState w → Spells (request_of w) (canon (request_of w)) }
{
    codec();
}

/// A binding is in `xs ++ ys` if and only if it is in `xs` or in `ys`. If `xs ++ ys` is in order,
/// so are `xs` and `ys`, and the names of `xs` come before those of `ys`.
///
/// A law: the call does nothing, and its caller may use what it ensures.
pub fn parts_of_lists()
    ensures first { (xs ys : List VarBind) (p : VarBind) → OneOf xs p → OneOf (xs ++ ys) p }
    ensures second { (xs ys : List VarBind) (p : VarBind) → OneOf ys p → OneOf (xs ++ ys) p }
    ensures either { (xs ys : List VarBind) (p : VarBind) → OneOf (xs ++ ys) p
        → OneOf xs p ⊎ OneOf ys p }
    ensures ordered { (xs ys : List VarBind) → AreOrdered (xs ++ ys)
        → AreOrdered xs × AreOrdered ys }
    ensures across { (xs ys : List VarBind) (p q : VarBind) → AreOrdered (xs ++ ys) → OneOf xs p
        → OneOf ys q → Precedes p.name q.name }
{}

/// If a list is the sink of a run, it has after the run the bindings that it had before, and then
/// those that it took.
///
/// A law: the call does nothing, and its caller may use what it ensures.
pub fn appended_bindings()
    ensures { (old rows refused new : List VarBind) (end : WalkEnd)
        → Took Appends old rows refused end new → new ≡ old ++ rows }
{}

/// Requests with ids below `id` also have ids below `higher`, if that is at least `id`.
///
/// A law: the call does nothing, and its caller may use what it ensures.
pub fn lower_ids()
    ensures { (sent : List (List ℕ)) (id higher : ℕ) → id ≤ higher → AreOfLowerIds sent id
        → AreOfLowerIds sent higher }
{}

/// By the rules of `specs/StepRules.antt`, each message means exactly one thing to a walk.
///
/// A law: the call does nothing, and its caller may use what it ensures.
pub fn messages_mean()
    ensures found { (w : WalkState) (m : Message) → (given : Step) × (new : WalkState)
        × Means w m given new }
    ensures only { (w : WalkState) (m : Message) (given other : Step) (new after : WalkState)
        → Means w m given new → Means w m other after → (given ≡ other) × (new ≡ after) }
{
    order();
}

/// If a network neither invents nor alters messages, each message that arrives at a walk is a
/// reply of one of the agents at the other end, or another Response that one of them may send, to
/// a datagram that the walk had sent, or tried to send, before.
///
/// The network may lose, repeat, delay and reorder datagrams, as UDP may (RFC 768); other clients
/// may ask the agents; an agent may be started again, and its table may change. The contracts of
/// `run_walk` and `run_get` say what a walk and a Get return then.
///
/// A law: the call does nothing, and its caller may use what it ensures.
pub fn honest_networks<E: Endpoint>()
    ensures replies { (agents : Agents) (walker : E.Peer) (run : List (Happening E.Peer))
        → IsFaithful walker run → AreServed agents run → AreReplies agents (of_walk run) }
{}

/// If nothing was sent over a [`LooseLink`] yet, and its table is a MIB view, each message
/// received from then on is the agent's reply to a datagram that was passed to a send before it,
/// or another Response that RFC 3416 lets the agent send to that datagram, or has an error status.
///
/// A law: the call does nothing, and its caller may use what it ensures.
pub fn loose_replies()
    ensures errors { (link after : LooseLink) (events : List (Event (Unit {0})))
        → IsMibView (agent_at link).view → last_sent link ≡ []
        → InTurn (Happens ⟦<LooseLink<'static> as Link>⟧) link events after
        → AreRepliesOrErrors (agents_at link) events }
    // If no way left is `GenErr`, a message with an error status is such a reply or Response too.
    ensures replies { (link after : LooseLink) (events : List (Event (Unit {0})))
        → IsMibView (agent_at link).view → last_sent link ≡ []
        → (OneOf (ways_left link) Way.GenErr → ⊥)
        → InTurn (Happens ⟦<LooseLink<'static> as Link>⟧) link events after
        → AreReplies (agents_at link) events }
{
    codec();
    encoding_is_of_type();
}

/// The laws of the crates below about names, messages and their encodings, tables and replies.
///
/// A law: the call does nothing, and its caller may use what it ensures.
#[inline]
pub(crate) fn codec()
    ensures { Codec }
{
    one_spelling();
    strict_is_read();
    encoding_is_strict();
    pieces();
    message_sizes();
    element_sizes();
    shortest_reply();
    order();
    one_answer();
}
