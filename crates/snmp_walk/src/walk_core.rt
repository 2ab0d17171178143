//! The core of a walk: which request to send, and what the reply means.
ghost use Rattle.std.specs.Prelude.{◌≡◌, ◌<◌, ◌≤◌, ℕ, length, All, IsOk, IfOk, IfErr, ◌↔◌, ◌^◌};
ghost use Rattle.std.specs.Prelude.{true, false, IsTrue, None, []};
ghost use Rattle.std.specs.{Bool.nat_eq, Cmp.Lexicographic.pointwise};
ghost use Rattle.snmp_oid.specs.Identifier.{IsIdentifier, IsWire, IsBelow, wire};
ghost use Rattle.snmp_walk.specs.Names.{is_below, comes_after, is_inside, is_missing, is_end};
ghost use Rattle.snmp_walk.specs.private.ReplyRows.{is_misplaced};
ghost use Rattle.snmp_walk.specs.Request.{first_phase as phase_at_first};

use crate::root::Root;
use crate::tries::{Judgement, Waiter, is_awaited};
use crate::{Method, Mode, Phase, Rows, StartError, Step, WalkEnd};
use arrayvec::ArrayVec;
use snmp_oid::order;
use snmp_wire::{
    BindingRef, Bindings, EncodedName, Kind, MAX_CONTENT, MAX_DATAGRAM, MessageRef, NameBuffer,
    Oid, OidError, Parts, asking_size, decode, encode_asking, encode_head, pieces, tag,
};
use std::cmp::Ordering;
use std::marker::Model;

/// The state of a walk. It sends and receives nothing itself: [`WalkCore::request`] writes what to
/// send, and [`WalkCore::take`] reads what was received.
#[derive(Drop)]
pub struct WalkCore {
    root: Root,
    mode: Mode,
    method: Method,
    community: ArrayVec<u8, 255>,
    phase: Phase,
    asked: NameBuffer,
    id: u32,
    count: u64,
}

impl Model for WalkCore {
    ghost use Rattle.snmp_walk.specs.WalkState.{WalkState, IsWalkState};

    ghost Value = { WalkState };

    ghost view = { λ w. record {
      root = w.root;
      mode = w.mode;
      method = w.method;
      community = w.community.items;
      phase = w.phase;
      asked = w.asked;
      id = w.id;
      count = w.count;
    } };

    ghost invariant = { λ w. IsWalkState (record {
      root = w.root;
      mode = w.mode;
      method = w.method;
      community = w.community.items;
      phase = w.phase;
      asked = w.asked;
      id = w.id;
      count = w.count;
    }) };
}

impl WalkCore {
    ghost use Rattle.std.specs.Prelude.{◌≡◌, ◌≢◌, ◌<◌, ◌≤◌, ◌⊎◌, ℕ, length, take, All, IsOk, IfOk};
    ghost use Rattle.std.specs.Prelude.{IfErr, ◌↔◌, ◌^◌, true, false, IsTrue, Err};
    ghost use Rattle.snmp_oid.specs.Identifier.{IsIdentifier, IsWire, IsBelow, wire};
    ghost use Rattle.snmp_wire.specs.Canon.{canon};
    ghost use Rattle.snmp_wire.specs.Message.{Message, VarBind};
    ghost use Rattle.snmp_wire.specs.Spelling.{Spells};
    ghost use Rattle.snmp_walk.specs.WalkState.{IsMethod, IsWalkState};
    ghost use Rattle.snmp_walk.specs.Facts.{IsFresh, walk_at};
    ghost use Rattle.snmp_walk.specs.Walk.{walk_of, rest_of};
    ghost use Rattle.snmp_agent.specs.table.Table.{MibView, IsMibView};
    ghost use Rattle.snmp_agent.specs.table.Listing.{variables};
    ghost use Rattle.snmp_walk.specs.Request.{start_state, resume_state, request_of, request_kind};
    ghost use Rattle.snmp_walk.specs.Request.{request_repetitions};
    ghost use Rattle.snmp_walk.specs.private.ComputedStep.{is_awaited, stops, goes_on, closes};
    ghost use Rattle.snmp_walk.specs.private.ComputedStep.{reads_next};
    ghost use Rattle.snmp_walk.specs.private.ComputedStep.{reads_first, reads_last, got, take_of};
    ghost use Rattle.snmp_walk.specs.StepRules.{MeansBy};
    ghost use Rattle.snmp_walk.specs.Request.{asked_for};
    ghost use Rattle.snmp_walk.specs.private.Course.{step_of};
    ghost use Rattle.std.specs.Option.{option_map};
    ghost use Rattle.snmp_walk.specs.private.ReplyRows.{AreRowsRead, after_of, ending_at};
    ghost use Rattle.snmp_walk.specs.private.ReplyRows.{reply_rows};
    ghost use Rattle.snmp_walk.specs.private.ReplyRows.{is_misplaced, name_or};
    ghost use Rattle.std.specs.Prelude.{IfSome, IfNone};
    ghost use Rattle.snmp_walk.specs.Trail.{last_name};
    ghost use Rattle.snmp_walk.specs.Ordered.{IsAtOrBelow, IsUnsendable};

    /// Returns a walk of the instances below `root`, before its first request. Its requests have
    /// this community, and ids from `first_id` on.
    ///
    /// The caller must pass a community of at most 255 octets and an id of at most 2147483647. A
    /// GetBulk must have at least one repetition.
    ///
    /// Fails with `NotWire` if `root`, padded with zeros to two numbers, has no encoding (X.690,
    /// 8.19.4).
    pub fn start(
        root: Oid,
        mode: Mode,
        method: Method,
        community: &[u8],
        first_id: u32,
    ) -> Result<WalkCore, StartError>
        requires method { IsMethod method }
        requires community { length community.now ≤ 255 }
        requires first_id { first_id < 2 ^ 31 }
        ensures ok { IfOk result (λ w. w ≡ start_state root mode method community.now first_id) }
        // It has taken no reply yet.
        ensures fresh { IfOk result IsFresh }
        // Over one table, it returns what `walk_of` says for the root.
        ensures walk { IfOk result (λ w. (view : MibView) (got : VarBind) → IsMibView view
            → walk_at w view got ≡ walk_of mode root got (variables view)) }
        ensures variant { IsOk result ↔ IsWire (wire root) }
        ensures err { IfErr result (λ e. e ≡ StartError.NotWire) }
    {
        let Ok(asked) = sendable(&root) else {
            return Err(StartError::NotWire);
        };
        let sent = NameBuffer::new(&asked.name());
        Ok(WalkCore {
            root: Root::new(root, sent),
            mode,
            method,
            community: copy_community(community),
            phase: first_phase(mode),
            asked,
            id: first_id,
            count: 0,
        })
    }

    /// Returns the rest of a walk of the instances below `root`: those that come after `after`,
    /// without the root's own instance. The caller has the same duties as for [`WalkCore::start`].
    ///
    /// Fails with `NotWire` if `root`, padded with zeros to two numbers, has no encoding;
    /// otherwise with `AfterOutsideRoot` if `after` is neither the root nor below it; otherwise
    /// with `NotWire` if `after`, padded alike, has no encoding.
    pub fn resume(
        root: Oid,
        after: &Oid,
        method: Method,
        community: &[u8],
        first_id: u32,
    ) -> Result<WalkCore, StartError>
        requires method { IsMethod method }
        requires community { length community.now ≤ 255 }
        requires first_id { first_id < 2 ^ 31 }
        ensures ok { IfOk result (λ w. w ≡ resume_state root after.now method community.now
            first_id) }
        ensures fresh { IfOk result IsFresh }
        // Over one table, it returns the rows below the root that come after `after`.
        ensures walk { IfOk result (λ w. (view : MibView) (got : VarBind)
            → walk_at w view got ≡ rest_of root (wire after.now) (variables view)) }
        ensures variant { IsOk result ↔ (IsWire (wire root)
            × IsAtOrBelow after.now root × IsWire (wire after.now)) }
        ensures not_wire { result ≡ Err StartError.NotWire → IsUnsendable root
            ⊎ (IsAtOrBelow after.now root × IsUnsendable after.now) }
        ensures outside { result ≡ Err StartError.AfterOutsideRoot → IsWire (wire root)
            × (IsAtOrBelow after.now root → ⊥) }
    {
        let Ok(sent) = sendable(&root) else {
            return Err(StartError::NotWire);
        };
        if *after != root && !after.is_below(&root) {
            return Err(StartError::AfterOutsideRoot);
        }
        let Ok(asked) = sendable(after) else {
            return Err(StartError::NotWire);
        };
        Ok(WalkCore {
            root: Root::new(root, sent),
            mode: Mode::NoLast,
            method,
            community: copy_community(community),
            phase: Phase::Rows,
            asked,
            id: first_id,
            count: 0,
        })
    }

    /// Writes the waiting request (RFC 3416, section 3) to the start of `out` and returns its
    /// length in octets. After the end of the walk, returns 0 and leaves `out` unchanged.
    pub fn request(&self, out: &mut [u8; MAX_DATAGRAM]) -> usize
        ensures waiting { self.now.phase ≢ Phase.Over
            → (result ≡ length (canon (request_of self.now)))
            × (take result out.new ≡ canon (request_of self.now)) }
        ensures over { self.now.phase ≡ Phase.Over → (result ≡ 0) × (out.new ≡ out.old) }
        ensures walker { IsWalkState self.now }
    {
        self.request_in(&mut out[..])
    }

    /// Does what [`WalkCore::request`] does, for a buffer of at least 1,000 octets. A request of a
    /// walk has no more, since it asks for one name.
    // `inline(never)`: inlined, the loop of `run_walk` would zero its own `WalkEnd`s, over 1,000
    // octets, before each request.
    #[inline(never)]
    pub(crate) fn request_in(&self, out: &mut [u8]) -> usize
        requires { 1000 ≤ length out.old }
        ensures waiting { self.now.phase ≢ Phase.Over
            → (result ≡ length (canon (request_of self.now)))
            × (take result out.new ≡ canon (request_of self.now)) }
        ensures over { self.now.phase ≡ Phase.Over → (result ≡ 0) × (out.new ≡ out.old) }
        ensures walker { IsWalkState self.now }
    {
        if let Phase::Over = self.phase {
            return 0;
        }
        pieces();
        let name = self.asked.name();
        let total = asking_size(&name);
        let parts = Parts {
            version: 1,
            community: self.community.as_slice(),
            kind: self.kind(),
            id: self.id as i32,
            a: 0,
            b: self.repetitions(),
            bindings: &[],
        };
        let Some(head) = encode_head(&parts, total, out) else {
            unreachable!()
        };
        match encode_asking(&name, &mut out[head..]) {
            Some(len) => head + len,
            None => unreachable!(),
        }
    }

    /// Reads a received datagram and returns what it means to the walk. Returns `Stray` and changes
    /// nothing if it isn't the reply to the waiting request, and always after the end of the walk.
    pub fn take<'a>(&mut self, datagram: &'a [u8]) -> Step<'a>
        ensures { MeansBy self.old datagram.now result self.new }
    {
        order();
        let Ok(message) = decode(datagram) else {
            return Step::Stray;
        };
        let mut end = WalkEnd::NoResponse;
        match self.take_message(&message, &mut end) {
            Judgement::Stray => Step::Stray,
            Judgement::GoesOn(rows) => Step::Rows(rows),
            Judgement::Ends(rows) => Step::Last(rows, end),
        }
    }

    /// Returns the kind of the waiting request.
    fn kind(&self) -> Kind
        ensures { result ≡ request_kind self.now.phase self.now.method }
    {
        match (self.phase, self.method) {
            (Phase::Rows, Method::Next) => Kind::GetNextRequest,
            (Phase::Rows, Method::Bulk(_)) => Kind::GetBulkRequest,
            _ => Kind::GetRequest,
        }
    }

    /// Returns the max-repetitions of the waiting request, or 0 if it isn't a GetBulk.
    fn repetitions(&self) -> i32
        ensures { result ≡ request_repetitions self.now.phase self.now.method }
    {
        match (self.phase, self.method) {
            (Phase::Rows, Method::Bulk(repetitions)) => repetitions,
            _ => 0,
        }
    }

    /// Returns whether `message` is the reply to the waiting request.
    fn is_awaiting(&self, message: &MessageRef<'_>) -> bool
        ensures { result ≡ is_awaited self.now message.now }
    {
        self.phase != Phase::Over && is_awaited(self.community.as_slice(), self.id, message)
    }

    /// Passes on `rows` and ends the walk. Stores `why` in `end`.
    fn stop<'a>(&mut self, rows: Rows<'a>, end: &mut WalkEnd, why: WalkEnd) -> Judgement<'a>
        ensures { (step_of result end.new, self.new) ≡ stops self.old rows.entry why }
    {
        self.phase = Phase::Over;
        *end = why;
        Judgement::Ends(rows)
    }

    /// Passes on `rows`, whose number is `count`. If an id is left, the next request, of phase
    /// `next`, becomes the waiting one. Its name is `last`, the name of the last row, or the same
    /// as before if `last` is `None`. Otherwise ends the walk with `TooManyRequests`.
    fn go_on<'a>(
        &mut self,
        next: Phase,
        rows: Rows<'a>,
        count: u32,
        last: Option<EncodedName<'a>>,
        end: &mut WalkEnd,
    ) -> Judgement<'a>
        requires count { count ≡ length rows }
        requires last { name_or self.old.asked last ≡ last_name self.old.asked rows }
        ensures { (step_of result end.new, self.new) ≡ goes_on self.old next rows.entry }
    {
        if self.id >= MAX_ID {
            return self.stop(rows, end, WalkEnd::TooManyRequests);
        }
        self.phase = next;
        if let Some(last) = last {
            self.asked.set_to(&last);
        }
        self.id += 1;
        self.count += u64::from(count);
        Judgement::GoesOn(rows)
    }

    /// Passes on `rows`, whose number is `count`. After them, no more instances are below the
    /// root. A plain walk that has passed on nothing, and has no rows now, continues with a Get of
    /// the root, or ends with `TooManyRequests` if no id is left. Any other walk is done.
    fn close<'a>(&mut self, rows: Rows<'a>, count: u32, end: &mut WalkEnd) -> Judgement<'a>
        requires count { count ≡ length rows }
        ensures { (step_of result end.new, self.new) ≡ closes self.old rows.entry }
    {
        let given = self.count + u64::from(count);
        if self.mode == Mode::Plain && given == 0 {
            return self.go_on(Phase::Last, rows, 0, None, end);
        }
        self.stop(rows, end, WalkEnd::Done(given))
    }

    /// Returns the number of rows at the start of `bindings`, and what follows them. Rows are
    /// instances below the root, each with a greater name than the one before it, the first with a
    /// greater name than the requested one. Sets `last` to the name of the last row, if there is
    /// one, and `read` to the name of the binding that ends the rows, if one does. Returns `None`
    /// if there are more bindings than were asked for, or noSuchObject or noSuchInstance among
    /// them.
    ///
    /// Reads no binding twice. The caller must pass `None` as `last`.
    fn read_rows<'a>(
        &self,
        mut bindings: Bindings<'a>,
        last: &mut Option<EncodedName<'a>>,
        read: &mut Option<EncodedName<'a>>,
    ) -> Option<RowsRead>
        requires none { last.old ≡ None }
        ensures none { IfNone result
            (is_misplaced (asked_for self.now.method) bindings.entry ≡ true) }
        ensures some { IfSome result
            (λ prefix. (is_misplaced (asked_for self.now.method) bindings.entry ≡ false)
            × AreRowsRead self.now.asked bindings.entry
            (reply_rows self.now.root self.now.asked bindings.entry)
            (name_or self.now.asked last.new) prefix.rows
            (after_of prefix.ending (name_or [] read.new))) }
    {
        let mut room = self.asked_for();
        let mut rows = 0;
        'bindings: while let Some(binding) = bindings.next_ref() {
            if room == 0 || lacks_value(&binding) {
                return None;
            }
            room -= 1;
            let ending = self.ending_at(last, &binding);
            if ending != Ending::GoesOn {
                *read = Some(binding.name());
                return if is_misplaced(room, bindings) {
                    None
                } else {
                    Some(RowsRead { rows, ending })
                };
            }
            rows += 1;
            *last = Some(binding.name());
        }
        Some(RowsRead {
            rows,
            ending: Ending::GoesOn,
        })
    }

    /// Returns how many bindings a request for the next instances asks for.
    fn asked_for(&self) -> u32
        ensures { result ≡ asked_for self.now.method }
    {
        match self.method {
            Method::Next => 1,
            Method::Bulk(repetitions) => repetitions.unsigned_abs(),
        }
    }

    /// Returns how `binding` continues or ends the rows read so far: `Leaves` if it has
    /// endOfMibView or its name isn't below the root, `Falls` if its name isn't greater than the
    /// previous one, otherwise `GoesOn`. The previous name is `last`, or the requested name if
    /// `last` is `None`.
    fn ending_at(&self, last: &Option<EncodedName<'_>>, binding: &BindingRef<'_>) -> Ending
        ensures { result ≡ ending_at self.now.root (name_or self.now.asked last.now) binding.now }
    {
        if !is_row(binding, &self.root) {
            return Ending::Leaves;
        }
        let name = binding.name();
        let rises = match last {
            Some(last) => comes_after(last, &name),
            None => comes_after(&self.asked.name(), &name),
        };
        if rises { Ending::GoesOn } else { Ending::Falls }
    }

    /// Returns whether the reply to a Get of the requested name has noSuchObject or
    /// noSuchInstance. Returns `None` if the reply isn't exactly one binding of that name, or has
    /// endOfMibView.
    fn root_is_missing(&self, mut bindings: Bindings<'_>) -> Option<bool>
        ensures { result ≡ option_map
            (λ b. is_missing b.value) (got self.now.asked bindings.entry) }
    {
        let binding = bindings.next_ref()?;
        if bindings.next_ref().is_some()
            || !are_same(&binding.name(), &self.asked.name())
            || binding.tag() == tag::END_OF_MIB_VIEW
        {
            return None;
        }
        Some(lacks_value(&binding))
    }

    /// Reads the reply to the Get of the root that begins a walk with [`Mode::Include`]. Passes on
    /// the root's own instance, if there is one.
    fn read_first<'a>(&mut self, message: &MessageRef<'a>, end: &mut WalkEnd) -> Judgement<'a>
        ensures { (step_of result end.new, self.new) ≡ reads_first self.old (got self.old.asked
            message.now.bindings) }
    {
        let bindings = message.bindings();
        match self.root_is_missing(message.bindings()) {
            None => self.stop(Rows::read_rows(bindings, 0), end, WalkEnd::BadReply),
            Some(lacks_value) => {
                let count = if lacks_value { 0 } else { 1 };
                let rows = Rows::read_rows(bindings, count as usize);
                self.go_on(Phase::Rows, rows, count, None, end)
            }
        }
    }

    /// Reads the reply to the Get of the root that ends a plain walk which has passed on nothing.
    /// Passes on its binding, with or without a value, unless the walk ends with `BadReply`.
    fn read_last<'a>(&mut self, message: &MessageRef<'a>, end: &mut WalkEnd) -> Judgement<'a>
        ensures { (step_of result end.new, self.new) ≡ reads_last self.old (got self.old.asked
            message.now.bindings) }
    {
        let bindings = message.bindings();
        if self.root_is_missing(message.bindings()).is_none() {
            return self.stop(Rows::read_rows(bindings, 0), end, WalkEnd::BadReply);
        }
        let given = self.count + 1;
        self.stop(Rows::read_rows(bindings, 1), end, WalkEnd::Done(given))
    }

    /// Reads the reply to a request for the next instances.
    fn read_next<'a>(&mut self, message: &MessageRef<'a>, end: &mut WalkEnd) -> Judgement<'a>
        ensures { (step_of result end.new, self.new) ≡ reads_next self.old message.now.bindings }
    {
        let mut last = None;
        let mut read = None;
        let Some(RowsRead { rows, ending }) = self.read_rows(
            message.bindings(),
            &mut last,
            &mut read,
        ) else {
            return self.refuse(message, end);
        };
        let given = Rows::read_rows(message.bindings(), rows as usize);
        match ending {
            Ending::GoesOn if rows == 0 => self.end_without_bindings(given, end),
            Ending::GoesOn => self.go_on(Phase::Rows, given, rows, last, end),
            Ending::Leaves => self.close(given, rows, end),
            Ending::Falls => self.end_not_increasing(given, &last, &read, end),
        }
    }

    /// Ends the walk with `BadReply` and passes on nothing.
    // `inline(never)`, here and on the next two: inlined, their `WalkEnd`s and `Oid`s would be
    // zeroed for every reply; only the last reply of a walk needs them.
    #[inline(never)]
    fn refuse<'a>(&mut self, message: &MessageRef<'a>, end: &mut WalkEnd) -> Judgement<'a>
        ensures { (step_of result end.new, self.new) ≡ stops self.old [] WalkEnd.BadReply }
    {
        self.stop(
            Rows::read_rows(message.bindings(), 0),
            end,
            WalkEnd::BadReply,
        )
    }

    /// Ends the walk with `NoProgress`: the reply has no bindings, so that `rows` is empty.
    #[inline(never)]
    fn end_without_bindings<'a>(&mut self, rows: Rows<'a>, end: &mut WalkEnd) -> Judgement<'a>
        ensures { (step_of result end.new, self.new)
            ≡ stops self.old rows.entry (WalkEnd.NoProgress self.old.asked) }
    {
        let asked = oid_of(&self.asked.name());
        self.stop(rows, end, WalkEnd::NoProgress { asked })
    }

    /// Passes on `rows` and ends the walk with `NotIncreasing`: the name `read`, which follows
    /// them, isn't greater than `last`, or than the requested name if `last` is `None`.
    #[inline(never)]
    fn end_not_increasing<'a>(
        &mut self,
        rows: Rows<'a>,
        last: &Option<EncodedName<'a>>,
        read: &Option<EncodedName<'a>>,
        end: &mut WalkEnd,
    ) -> Judgement<'a>
        ensures { (step_of result end.new, self.new) ≡ stops self.old rows.entry
            (WalkEnd.NotIncreasing (name_or self.old.asked last.now) (name_or [] read.now)) }
    {
        let last = match last {
            Some(last) => oid_of(last),
            None => oid_of(&self.asked.name()),
        };
        let got = match read {
            Some(read) => oid_of(read),
            None => Oid::new(),
        };
        self.stop(rows, end, WalkEnd::NotIncreasing { last, got })
    }

    /// Reads a message. Returns `Stray` and changes nothing if it isn't the reply to the waiting
    /// request. If it ends the walk, stores the reason in `end`.
    fn take_message<'a>(&mut self, message: &MessageRef<'a>, end: &mut WalkEnd) -> Judgement<'a>
        ensures { (step_of result end.new, self.new) ≡ take_of self.old message.now }
    {
        if !self.is_awaiting(message) {
            return Judgement::Stray;
        }
        let status = message.a();
        if status != 0 {
            let why = WalkEnd::Fault(status, message.b());
            return self.stop(Rows::read_rows(message.bindings(), 0), end, why);
        }
        match self.phase {
            Phase::First => self.read_first(message, end),
            Phase::Rows => self.read_next(message, end),
            Phase::Last => self.read_last(message, end),
            Phase::Over => Judgement::Stray,
        }
    }
}

impl Waiter for WalkCore {
    ghost use Rattle.std.specs.Prelude.{◌≡◌};
    ghost use Rattle.snmp_walk.specs.private.ComputedStep.{take_of};

    ghost community = { λ w. w.community };

    ghost id = { λ w. w.id };

    ghost reads = { λ old m step new. (step, new) ≡ take_of old m };

    fn awaits(&self, message: &MessageRef<'_>) -> bool {
        is_awaited(self.community.as_slice(), self.id, message)
    }

    fn read<'a>(&mut self, reply: &MessageRef<'a>, end: &mut WalkEnd) -> Judgement<'a> {
        self.take_message(reply, end)
    }
}

/// The rows at the start of a reply.
#[derive(Clone, Copy)]
struct RowsRead {
    /// The number of rows.
    rows: u32,
    /// What follows the rows.
    ending: Ending,
}

/// What follows the rows at the start of a reply.
#[derive(Clone, Copy, PartialEq, Eq)]
enum Ending {
    /// Nothing: so far every binding is a row.
    GoesOn,
    /// A binding that has endOfMibView, or whose name isn't below the root.
    Leaves,
    /// A binding below the root whose name isn't greater than the one before it.
    Falls,
}

/// The greatest request-id (RFC 3416, section 3).
const MAX_ID: u32 = 2147483647;

/// Returns `oid` as it is encoded, padded with zeros to two numbers. Fails if it has no encoding.
fn sendable(oid: &Oid) -> Result<NameBuffer, OidError>
    ensures ok { IfOk result (λ o. o ≡ wire oid.now) }
    ensures variant { IsOk result ↔ IsWire (wire oid.now) }
    ensures identifier { IfOk result IsIdentifier }
{
    let sent = oid.to_wire()?;
    let mut room = [0; MAX_CONTENT];
    let name = EncodedName::write(&sent, &mut room);
    Ok(NameBuffer::new(&name))
}

/// Returns the phase in which a walk of this mode begins.
fn first_phase(mode: Mode) -> Phase
    ensures { result ≡ phase_at_first mode }
{
    match mode {
        Mode::Include => Phase::First,
        Mode::Plain | Mode::NoLast => Phase::Rows,
    }
}

/// Returns a copy of `community` that needs no allocation.
fn copy_community(community: &[u8]) -> ArrayVec<u8, 255>
    requires { length community.now ≤ 255 }
    ensures value { result.items ≡ community.now }
    ensures octets { All (λ octet. octet < 256) community.now }
{
    match ArrayVec::try_from(community) {
        Ok(owned) => owned,
        Err(_) => unreachable!(),
    }
}

/// Returns the identifier that `name` encodes.
fn oid_of(name: &EncodedName<'_>) -> Oid
    ensures { result ≡ name.now }
{
    let mut oid = Oid::new();
    name.read_into(&mut oid);
    oid
}

/// Returns whether there are more than `room` bindings, or noSuchObject or noSuchInstance among
/// them.
fn is_misplaced(room: u32, mut bindings: Bindings<'_>) -> bool
    ensures { result ≡ is_misplaced room bindings.entry }
{
    let mut room = room;
    'bindings: while let Some(binding) = bindings.next_ref() {
        if room == 0 || lacks_value(&binding) {
            return true;
        }
        room -= 1;
    }
    false
}

/// Returns whether two names are equal.
fn are_same(name: &EncodedName<'_>, other: &EncodedName<'_>) -> bool
    ensures { result ≡ pointwise nat_eq name.now other.now }
{
    name.compare(other).is_eq()
}

/// Returns whether `name` comes after `before`.
fn comes_after(before: &EncodedName<'_>, name: &EncodedName<'_>) -> bool
    ensures { result ≡ comes_after before.now name.now }
{
    before.compare(name) == Ordering::Less
}

/// Returns whether the name of `binding` is below the root, and its value isn't endOfMibView.
fn is_row(binding: &BindingRef<'_>, root: &Root) -> bool
    ensures { result ≡ is_inside root.now binding.now }
{
    binding.tag() != tag::END_OF_MIB_VIEW && root.is_above(&binding.name())
}

/// Returns whether `binding` has noSuchObject or noSuchInstance in place of a value.
fn lacks_value(binding: &BindingRef<'_>) -> bool
    ensures { result ≡ is_missing binding.now.value }
{
    matches!(binding.tag(), tag::NO_SUCH_OBJECT | tag::NO_SUCH_INSTANCE)
}
