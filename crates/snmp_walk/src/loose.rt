//! A walk over an agent in memory that replies in other ways than `snmp_agent`, as RFC 3416
//! allows.
//!
//! A walk must be right over each agent that conforms to the standard, such as one that replies
//! with an error, one that stops a GetBulk early, and one that encodes its replies in another form.
ghost use Rattle.std.specs.Prelude.{◌≡◌, ◌≤◌, ◌<◌, ◌<ℤ◌, ◌≤ℤ◌, ◌+◌, ◌↔◌, [], ◌∷◌, ℕ, List, length};
ghost use Rattle.std.specs.Prelude.{pos, max, take, IfSome, IfNone, IsTrue};
ghost use Rattle.snmp_wire.specs.declared.kind.Kind.TheVariants as kind;
ghost use Rattle.snmp_wire.specs.{ber.Length.IsElement, Spelling.sequence_tag, Message.var_bind};
ghost use Rattle.snmp_wire.specs.Canon.{IsEncodable, canon, canon_bindings};
ghost use Rattle.snmp_agent.specs.Reply.{Fits, IsReply, agent_of};
ghost use Rattle.snmp_walk.specs.Facts.{ReplyFacts, IsFresh};
ghost use Rattle.snmp_walk.specs.RunResult.{IsRun, IsWalkedOver, but_for_errors};
ghost use Rattle.snmp_walk.specs.Loose.{AsksForOne, IsLengthened, Replaces, agents_at, failed};
ghost use Rattle.snmp_walk.specs.Loose.{last_sent, ways_left, with_repetitions};
ghost use Rattle.snmp_walk.specs.Link.{OneOf};

use crate::laws::{codec, loose_replies};
use crate::run::run_walk;
use crate::{Link, LinkFault, Sink, WalkCore, WalkEnd};
use arrayvec::ArrayVec;
use snmp_agent::{Config, Outcome, Table, answer, one_reply};
use snmp_wire::{Binding, Kind, MAX_DATAGRAM, MessageRef, Parts, decode, encode, tag};

/// The error status genErr (RFC 3416, section 3).
const GENERAL_ERROR: i32 = 5;

/// The greatest length in octets of a datagram that a [`LooseLink`] sends. A request of a walk has
/// at most 1,000.
const MAX_REQUEST: usize = 1024;

/// How an agent replies to a request for one name, as a walk sends it. To other requests it
/// replies as [`answer`] does, in each way.
#[derive(Clone, Copy, Debug)]
pub enum Way {
    /// The agent sends the reply of [`answer`].
    Whole,
    /// The agent sends the error genErr, as if it couldn't read the variable (RFC 3416, sections
    /// 4.2.1 to 4.2.3), if that fits.
    GenErr,
    /// To a GetBulk for more than n repetitions, the agent sends its reply to n of them (RFC 3416,
    /// section 4.2.3). Holds n; 0 means 1.
    Fewer(u16),
    /// The agent sends its reply with the length of the message in five octets (X.690, 8.1.3.5),
    /// if there is room for four octets more.
    LongLength,
}

impl Way {
    ghost use Rattle.std.specs.Prelude.{◌≡◌, ◌≤◌, length, take, IfSome, IfNone};
    ghost use Rattle.snmp_agent.specs.{Reply.IsDropped, Reply.agent_of};
    ghost use Rattle.snmp_agent.specs.{declared.config.DropReason.DropReason};
    ghost use Rattle.snmp_walk.specs.Loose.{IsSentIn};

    /// Writes what the agent of `table` sends in reply to `datagram` to the start of `out`, and
    /// returns its length. Returns `None` if the agent drops the datagram.
    fn answer(
        self,
        table: &Table,
        config: &Config<'_>,
        datagram: &[u8],
        out: &mut [u8; MAX_DATAGRAM],
    ) -> Option<usize>
        ensures sent { IfSome result (λ n. IsSentIn (agent_of table.now config.now) self
            datagram.now (take n out.new)) }
        ensures dropped { IfNone result ((why : DropReason)
            × IsDropped (agent_of table.now config.now) datagram.now why) }
        ensures length { IfSome result (λ n. n ≤ 65507) }
        ensures room { length out.new ≡ 65507 }
    {
        codec();
        table.is_mib_view();
        let Ok(request) = decode(datagram) else {
            return None;
        };
        let Outcome::Reply(size) = answer(table, config, datagram, out) else {
            return None;
        };
        match self.replace(table, config, &request, size, out) {
            Some(other) => Some(other),
            None => Some(size),
        }
    }

    /// Writes what is sent in place of the agent's reply to `request` to the start of `out`, and
    /// returns its length. The reply is in the first `size` octets of `out`. Returns `None`, and
    /// leaves `out` unchanged, if nothing replaces the reply.
    fn replace(
        self,
        table: &Table,
        config: &Config<'_>,
        request: &MessageRef<'_>,
        size: usize,
        out: &mut [u8; MAX_DATAGRAM],
    ) -> Option<usize>
        requires community { length request.now.community ≤ 255 }
        requires size { size ≤ 65507 }
        requires reply { (content : List ℕ)
            × IsElement sequence_tag content (take size out.old) }
        ensures some { IfSome result (λ n. Replaces (agent_of table.now config.now) self
            request.now (take size out.old) (take n out.new)) }
        ensures none { IfNone result (((other : List ℕ) → Replaces
            (agent_of table.now config.now) self request.now (take size out.old) other → ⊥)
            × (out.new ≡ out.old)) }
        ensures length { IfSome result (λ n. n ≤ 65507) }
    {
        let asked = only_asked(request)?;
        match self {
            Way::Whole => None,
            Way::GenErr => fail(config, request, &asked, out),
            Way::Fewer(most) => repeat_less(table, config, request, &asked, most.max(1), out),
            Way::LongLength => lengthen(config, size, out),
        }
    }
}

/// Returns the binding of a request for one name, as a walk sends it, or `None` if `request` isn't
/// such a request.
fn only_asked<'a>(request: &MessageRef<'a>) -> Option<Binding<'a>>
    ensures one { IfSome result (λ asked. AsksForOne request.now) }
    ensures bindings { IfSome result (λ asked. request.now.bindings ≡ var_bind asked ∷ []) }
    ensures encodable { IfSome result (λ asked. IsEncodable (var_bind asked)) }
    ensures short { IfSome result (λ asked. length (canon_bindings request.now.bindings) ≤ 658) }
    ensures none { IfNone result (AsksForOne request.now → ⊥) }
{
    let mut bindings = request.bindings();
    let only = bindings.next_ref()?;
    if bindings.next_ref().is_some() || only.tag() != tag::NULL || !is_repeated(request) {
        return None;
    }
    let name = only.name();
    // The contract of this call says that the name has an encoding.
    let _content = name.content();
    let mut asked = Binding::empty();
    only.read_into(&mut asked);
    Some(asked)
}

/// Returns whether `request` has no non-repeaters and at least one repetition, if it is a GetBulk.
/// Returns true for any other request.
fn is_repeated(request: &MessageRef<'_>) -> bool
    ensures { IsTrue result ↔ (request.now.kind ≡ kind.GetBulkRequest
        → (request.now.a ≡ pos 0) × (pos 1 ≤ℤ request.now.b)) }
{
    match request.kind() {
        Kind::GetBulkRequest => request.a() == 0 && request.b() >= 1,
        _ => true,
    }
}

/// Writes the Response with genErr to `request`, whose one binding is `asked`, to the start of
/// `out`, and returns its length. Returns `None`, and leaves `out` unchanged, if the Response
/// doesn't fit.
fn fail(
    config: &Config<'_>,
    request: &MessageRef<'_>,
    asked: &Binding<'_>,
    out: &mut [u8; MAX_DATAGRAM],
) -> Option<usize>
    requires community { length request.now.community ≤ 255 }
    requires encodable { IsEncodable (var_bind asked.now) }
    requires bindings { request.now.bindings ≡ var_bind asked.now ∷ [] }
    requires short { length (canon_bindings request.now.bindings) ≤ 658 }
    ensures some { IfSome result (λ n. Fits config.now.max_size (failed request.now)
        × (take n out.new ≡ canon (failed request.now))) }
    ensures none { IfNone result ((Fits config.now.max_size (failed request.now) → ⊥)
        × (out.new ≡ out.old)) }
    ensures length { IfSome result (λ n. n ≤ 65507) }
{
    let parts = Parts {
        version: request.version(),
        community: request.community(),
        kind: Kind::Response,
        id: request.id(),
        a: GENERAL_ERROR,
        b: 1,
        bindings: std::slice::from_ref(asked),
    };
    encode(&parts, &mut out[..config.max_size])
}

/// Writes the agent's reply to a GetBulk, as if it asked for this number of repetitions, to the
/// start of `out`, and returns its length. Returns `None`, and leaves `out` unchanged, if
/// `request` isn't a GetBulk for more repetitions, or if the agent drops that GetBulk.
fn repeat_less(
    table: &Table,
    config: &Config<'_>,
    request: &MessageRef<'_>,
    asked: &Binding<'_>,
    repetitions: u16,
    out: &mut [u8; MAX_DATAGRAM],
) -> Option<usize>
    requires community { length request.now.community ≤ 255 }
    requires encodable { IsEncodable (var_bind asked.now) }
    requires bindings { request.now.bindings ≡ var_bind asked.now ∷ [] }
    requires short { length (canon_bindings request.now.bindings) ≤ 658 }
    ensures some { IfSome result (λ n. (request.now.kind ≡ kind.GetBulkRequest)
        × (pos repetitions <ℤ request.now.b) × IsReply (agent_of table.now config.now)
        (canon (with_repetitions repetitions request.now)) (take n out.new)) }
    ensures none { IfNone result ((request.now.kind ≡ kind.GetBulkRequest
        → pos repetitions <ℤ request.now.b → (other : List ℕ)
        → IsReply (agent_of table.now config.now)
        (canon (with_repetitions repetitions request.now)) other → ⊥) × (out.new ≡ out.old)) }
    ensures length { IfSome result (λ n. n ≤ 65507) }
{
    one_reply();
    if !is_for_more(request, repetitions) {
        return None;
    }
    let mut shorter = [0; MAX_REQUEST];
    let size = put_request(request, asked, repetitions, &mut shorter);
    let mut reply = [0; MAX_DATAGRAM];
    match answer(table, config, &shorter[..size], &mut reply) {
        Outcome::Reply(length) => {
            *out = reply;
            Some(length)
        }
        Outcome::Dropped(_) => None,
    }
}

/// Writes `request`, whose one binding is `asked`, with this number of repetitions to the start of
/// `out`, and returns its length.
#[tactic(auto, using(std::proofs::lemmas::Grind::common_steps, crate::proofs::RequestParts::message_bound))]
fn put_request(
    request: &MessageRef<'_>,
    asked: &Binding<'_>,
    repetitions: u16,
    out: &mut [u8; MAX_REQUEST],
) -> usize
    requires community { length request.now.community ≤ 255 }
    requires encodable { IsEncodable (var_bind asked.now) }
    requires bindings { request.now.bindings ≡ var_bind asked.now ∷ [] }
    requires short { length (canon_bindings request.now.bindings) ≤ 658 }
    ensures octets { take result out.new ≡ canon (with_repetitions repetitions request.now) }
    ensures bound { result ≤ 1024 }
{
    let parts = Parts {
        version: request.version(),
        community: request.community(),
        kind: request.kind(),
        id: request.id(),
        a: request.a(),
        b: i32::from(repetitions),
        bindings: std::slice::from_ref(asked),
    };
    match encode(&parts, out) {
        Some(size) => size,
        None => unreachable!(),
    }
}

/// Returns whether `request` is a GetBulk for more than `repetitions` repetitions.
fn is_for_more(request: &MessageRef<'_>, repetitions: u16) -> bool
    ensures { IsTrue result ↔ ((request.now.kind ≡ kind.GetBulkRequest)
        × (pos repetitions <ℤ request.now.b)) }
{
    match request.kind() {
        Kind::GetBulkRequest => i32::from(repetitions) < request.b(),
        _ => false,
    }
}

/// Writes the message in the first `size` octets of `out` again, with its length in five octets,
/// and returns how many octets it then has. Returns `None`, and leaves `out` unchanged, if there
/// is no room for four octets more.
fn lengthen(config: &Config<'_>, size: usize, out: &mut [u8; MAX_DATAGRAM]) -> Option<usize>
    requires size { size ≤ 65507 }
    requires reply { (content : List ℕ) × IsElement sequence_tag content (take size out.old) }
    ensures some { IfSome result (λ n. (size + 4 ≤ config.now.max_size)
        × IsLengthened (take size out.old) (take n out.new)) }
    ensures none { IfNone result ((config.now.max_size < size + 4) × (out.new ≡ out.old)) }
    ensures length { IfSome result (λ n. n ≤ 65507) }
{
    if config.max_size < size + 4 {
        return None;
    }
    let message = *out;
    let content = content_of(&message[..size]);
    let length = content.len();
    let high = (length / 256) as u8;
    let low = (length % 256) as u8;
    out[..6].copy_from_slice(&[tag::SEQUENCE, 0x84, 0, 0, high, low]);
    out[6..6 + length].copy_from_slice(content);
    Some(6 + length)
}

/// Returns the content of `octets`, which encode a SEQUENCE.
fn content_of(octets: &[u8]) -> &[u8]
    requires { (content : List ℕ) × IsElement sequence_tag content octets.now }
    ensures content { IsElement sequence_tag result.now octets.now }
    ensures shorter { length result.now + 2 ≤ length octets.now }
{
    // The first octet of a long length is 128 plus the number of the length octets after it.
    match octets[1] {
        long @ 128.. => &octets[usize::from(long) - 126..],
        _ => &octets[2..],
    }
}

/// A link to the agent of a table in memory, which replies in the ways of a list.
///
/// It stores only the datagram that was sent last, of at most 1,024 octets; a send of a longer one
/// fails. Each receive returns what the agent sends to that datagram in the next way of the list,
/// and after the last way the agent's own reply. If the agent drops the datagram, the receive
/// returns `None`. A receive into a buffer of fewer than 65507 octets fails and uses no way.
#[derive(Drop)]
pub struct LooseLink<'a> {
    table: &'a Table,
    config: Config<'a>,
    ways: &'a [Way],
    used: usize,
    request: ArrayVec<u8, MAX_REQUEST>,
    faults: u64,
}

impl<'a> LooseLink<'a> {
    ghost use Rattle.std.specs.Prelude.{◌≡◌, []};
    ghost use Rattle.snmp_agent.specs.Reply.{agent_of};
    ghost use Rattle.snmp_walk.specs.Loose.{IsNextWay, agent_at, last_sent, ways_left};

    /// Returns a link to the agent of `table`, before anything was sent.
    pub fn new(table: &'a Table, config: Config<'a>, ways: &'a [Way]) -> LooseLink<'a>
        ensures agent { agent_at result ≡ agent_of table.now config.entry }
        ensures nothing_sent { last_sent result ≡ [] }
        ensures ways { ways_left result ≡ ways.now }
        ensures no_fault { result.faults ≡ 0 }
    {
        LooseLink {
            table,
            config,
            ways,
            used: 0,
            request: ArrayVec::new(),
            faults: 0,
        }
    }

    /// Uses the next way and returns it. After the last way, returns `Whole`.
    fn next_way(&mut self) -> Way
        ensures next { IsNextWay (ways_left self.old) result (ways_left self.new) }
        ensures agent { agent_at self.new ≡ agent_at self.old }
        ensures last { last_sent self.new ≡ last_sent self.old }
        ensures count { self.new.faults ≡ self.old.faults }
    {
        match self.ways.get(self.used) {
            Some(way) => {
                self.used += 1;
                *way
            }
            None => Way::Whole,
        }
    }
}

impl<'a> Link for LooseLink<'a> {
    ghost use Rattle.std.specs.Prelude.{◌<◌, ◌≤◌, [], length};
    ghost use Rattle.snmp_walk.specs.Loose.{IsDroppedBy, IsSentBack, IsSentOver, IsUnchanged};
    ghost use Rattle.snmp_walk.specs.Loose.{agents_at};

    ghost records = { λ _. ⊥ };

    ghost honest = { λ _. ⊥ };

    ghost agents = { agents_at };

    ghost traffic = { λ _. record { sent = []; ahead = [] } };

    ghost fault_count = { λ link. link.faults };

    ghost ready = { λ _ _ octets. octets ≤ 1024 };

    ghost delivers = { IsSentBack };

    ghost sends = { IsSentOver };

    ghost send_fails = { λ old datagram new. IsUnchanged old new × (1024 < length datagram) };

    ghost is_silent = { IsDroppedBy };

    ghost receive_fails = { IsUnchanged };

    ghost refuses_short = { λ _. Unit {0} };

    ghost recording = { λ _ h. h };

    ghost lawful = { λ _ h. absurd h };

    fn send(&mut self, datagram: &[u8]) -> Result<(), LinkFault> {
        match ArrayVec::try_from(datagram) {
            Ok(request) => {
                self.request = request;
                Ok(())
            }
            Err(_) => {
                self.faults = self.faults.saturating_add(1);
                Err(LinkFault)
            }
        }
    }

    fn receive(&mut self, buffer: &mut [u8]) -> Result<Option<usize>, LinkFault> {
        let Some(out) = buffer.first_chunk_mut::<MAX_DATAGRAM>() else {
            self.faults = self.faults.saturating_add(1);
            return Err(LinkFault);
        };
        let way = self.next_way();
        Ok(way.answer(self.table, &self.config, self.request.as_slice(), out))
    }

    fn faults(&self) -> u64 {
        self.faults
    }
}

/// Walks over a link to an agent that also replies in other ways: by errors, with fewer
/// repetitions than asked for, and in another encoding. The caller must pass a link over which
/// nothing was sent yet, and a core that has taken no reply yet.
///
/// The bindings passed on are a prefix of the walk over the agent's table, and all of it if the
/// walk is done.
pub fn walk_loose<S: Sink>(
    link: &mut LooseLink<'_>,
    core: WalkCore,
    retries: u32,
    sink: &mut S,
) -> WalkEnd
    requires fresh { IsFresh core }
    requires nothing_sent { last_sent link.old ≡ [] }
    // `ReplyFacts` holds of the end with an error status replaced by a failure of the link
    // (`but_for_errors`). If `GenErr` isn't among the ways left, it also holds of the end itself.
    ensures { IsRun S.takes sink.old result sink.new (λ rows refused.
        IsWalkedOver ⟦<LooseLink<'static> as Link>⟧ link.old link.new (retries + 1) core rows
        refused result
        × ReplyFacts (agents_at link.old) (λ w. Unit {0}) core rows refused
        (but_for_errors result)
        × ((OneOf (ways_left link.old) Way.GenErr → ⊥)
        → ReplyFacts (agents_at link.old) (λ w. Unit {0}) core rows refused result)) }
{
    loose_replies();
    link.table.is_mib_view();
    run_walk(link, core, retries, sink)
}
