//! Walks and Gets over an agent that lies: the ids of its replies count up, as the ids of the
//! requests do, whatever else the replies contain.

use crate::runs::{ROOT, get_ends, name_of, names_of, walk_ends, walk_of};
use crate::sinks::Digits;
use snmp_walk::{Link, LinkFault, Method, Mode, WalkEnd};
use snmp_wire::Oid;
use std::process::Abort;

/// A reply with 1.3.6.1.4.1.32473.1.1.0, whose value is the integer 1.
pub(crate) const ROW: [u8; 44] = [
    0x30, 0x2A, 0x02, 0x01, 0x01, 0x04, 0x06, 0x70, 0x75, 0x62, 0x6C, 0x69, 0x63, 0xA2, 0x1D, 0x02,
    0x01, 0x01, 0x02, 0x01, 0x00, 0x02, 0x01, 0x00, 0x30, 0x12, 0x30, 0x10, 0x06, 0x0B, 0x2B, 0x06,
    0x01, 0x04, 0x01, 0x81, 0xFD, 0x59, 0x01, 0x01, 0x00, 0x02, 0x01, 0x01,
];

/// A reply with 1.3.6.1.4.1.32473.1.1.0 and 1.3.6.1.4.1.32473.1.2.0.
const TWO: &[u8] = &[
    0x30, 0x3C, 0x02, 0x01, 0x01, 0x04, 0x06, 0x70, 0x75, 0x62, 0x6C, 0x69, 0x63, 0xA2, 0x2F, 0x02,
    0x01, 0x01, 0x02, 0x01, 0x00, 0x02, 0x01, 0x00, 0x30, 0x24, 0x30, 0x10, 0x06, 0x0B, 0x2B, 0x06,
    0x01, 0x04, 0x01, 0x81, 0xFD, 0x59, 0x01, 0x01, 0x00, 0x02, 0x01, 0x01, 0x30, 0x10, 0x06, 0x0B,
    0x2B, 0x06, 0x01, 0x04, 0x01, 0x81, 0xFD, 0x59, 0x01, 0x02, 0x00, 0x02, 0x01, 0x01,
];

/// A reply with 1.3.6.1.4.1.32473.1.1.0 and noSuchInstance.
const MISSING: &[u8] = &[
    0x30, 0x29, 0x02, 0x01, 0x01, 0x04, 0x06, 0x70, 0x75, 0x62, 0x6C, 0x69, 0x63, 0xA2, 0x1C, 0x02,
    0x01, 0x01, 0x02, 0x01, 0x00, 0x02, 0x01, 0x00, 0x30, 0x11, 0x30, 0x0F, 0x06, 0x0B, 0x2B, 0x06,
    0x01, 0x04, 0x01, 0x81, 0xFD, 0x59, 0x01, 0x01, 0x00, 0x81, 0x00,
];

/// A reply with 1.3.6.1.4.1.32473.1.1.0 and endOfMibView.
const END: &[u8] = &[
    0x30, 0x29, 0x02, 0x01, 0x01, 0x04, 0x06, 0x70, 0x75, 0x62, 0x6C, 0x69, 0x63, 0xA2, 0x1C, 0x02,
    0x01, 0x01, 0x02, 0x01, 0x00, 0x02, 0x01, 0x00, 0x30, 0x11, 0x30, 0x0F, 0x06, 0x0B, 0x2B, 0x06,
    0x01, 0x04, 0x01, 0x81, 0xFD, 0x59, 0x01, 0x01, 0x00, 0x82, 0x00,
];

/// A reply without bindings.
const NONE: &[u8] = &[
    0x30, 0x18, 0x02, 0x01, 0x01, 0x04, 0x06, 0x70, 0x75, 0x62, 0x6C, 0x69, 0x63, 0xA2, 0x0B, 0x02,
    0x01, 0x01, 0x02, 0x01, 0x00, 0x02, 0x01, 0x00, 0x30, 0x00,
];

/// A reply with error-status 5, genErr, and error-index 1.
pub(crate) const GENERAL_ERROR: &[u8] = &[
    0x30, 0x18, 0x02, 0x01, 0x01, 0x04, 0x06, 0x70, 0x75, 0x62, 0x6C, 0x69, 0x63, 0xA2, 0x0B, 0x02,
    0x01, 0x01, 0x02, 0x01, 0x05, 0x02, 0x01, 0x01, 0x30, 0x00,
];

/// A reply with error-status 19, which the standard doesn't have, and error-index 0.
const UNKNOWN_ERROR: &[u8] = &[
    0x30, 0x18, 0x02, 0x01, 0x01, 0x04, 0x06, 0x70, 0x75, 0x62, 0x6C, 0x69, 0x63, 0xA2, 0x0B, 0x02,
    0x01, 0x01, 0x02, 0x01, 0x13, 0x02, 0x01, 0x00, 0x30, 0x00,
];

/// A reply with id 2147483645 and 1.3.6.1.4.1.32473.1.1.0.
const LATE: &[u8] = &[
    0x30, 0x2D, 0x02, 0x01, 0x01, 0x04, 0x06, 0x70, 0x75, 0x62, 0x6C, 0x69, 0x63, 0xA2, 0x20, 0x02,
    0x04, 0x7F, 0xFF, 0xFF, 0xFD, 0x02, 0x01, 0x00, 0x02, 0x01, 0x00, 0x30, 0x12, 0x30, 0x10, 0x06,
    0x0B, 0x2B, 0x06, 0x01, 0x04, 0x01, 0x81, 0xFD, 0x59, 0x01, 0x01, 0x00, 0x02, 0x01, 0x01,
];

/// A link to an agent that sends `reply` to each receive whose buffer is long enough. From one
/// reply to the next, the octet at offset `id_at`, the last of the id, is one higher modulo 256,
/// and so is the octet at offset `name_at` unless that is `None`. `sends` counts the sends.
#[derive(Drop)]
struct Liar<'a> {
    reply: &'a [u8],
    id_at: usize,
    name_at: Option<usize>,
    turn: u8,
    sends: usize,
}

impl<'a> Link for Liar<'a> {
    ghost use Rattle.std.specs.Prelude.{[]};
    ghost use Rattle.snmp_walk.specs.Link.{Agents};
    ghost use Rattle.snmp_walk.specs.Traffic.{Traffic};

    ghost records = { λ _. ⊥ };

    ghost honest = { λ _. ⊥ };

    ghost agents = { λ _. record { tables = []; community = []; max_size = 0 } };

    ghost traffic = { λ _. record { sent = []; ahead = [] } };

    ghost fault_count = { λ _. 0 };

    ghost ready = { λ _ _ _. ⊥ };

    ghost delivers = { λ _ _ _. Unit {0} };

    ghost recording = { λ _ h. h };

    ghost lawful = { λ _ h. absurd h };

    fn send(&mut self, _datagram: &[u8]) -> Result<(), LinkFault> {
        self.sends = self.sends.saturating_add(1);
        Ok(())
    }

    fn receive(&mut self, buffer: &mut [u8]) -> Result<Option<usize>, LinkFault> {
        let length = self.reply.len();
        if length > buffer.len() {
            return Ok(None);
        }
        buffer[..length].copy_from_slice(self.reply);
        if let Some(id) = buffer.get_mut(self.id_at) {
            *id = id.wrapping_add(self.turn);
        }
        if let Some(offset) = self.name_at {
            if let Some(number) = buffer.get_mut(offset) {
                *number = number.wrapping_add(self.turn);
            }
        }
        self.turn = self.turn.wrapping_add(1);
        Ok(Some(length))
    }

    fn faults(&self) -> u64 {
        0
    }
}

/// Asserts that the walk over this liar, with this first id, returns `rows` rows and ends with
/// `end` after `sends` sends.
fn assert_end(
    rt: &impl Abort,
    mut liar: Liar<'_>,
    first_id: u32,
    rows: usize,
    sends: usize,
    end: &WalkEnd,
) {
    let core = walk_of(rt, ROOT, Mode::Plain, Method::Next, first_id);
    let mut digits = Digits::new();
    assert!(rt; walk_ends(&mut liar, core, 2, &mut digits, end));
    assert!(rt; digits.rows == rows && liar.sends == sends);
}

/// Asserts that the Get of these names over this liar returns `rows` bindings and ends with `end`
/// after `sends` sends.
fn assert_get(
    rt: &impl Abort,
    mut liar: Liar<'_>,
    names: &[Oid],
    rows: usize,
    sends: usize,
    end: &WalkEnd,
) {
    let mut digits = Digits::new();
    assert!(rt; get_ends(&mut liar, names, 1, 2, &mut digits, end));
    assert!(rt; digits.rows == rows && liar.sends == sends);
}

/// Returns a liar whose first reply is `reply`, with an id of one octet at offset 17.
fn lying(reply: &[u8]) -> Liar<'_> {
    Liar {
        reply,
        id_at: 17,
        name_at: None,
        turn: 0,
        sends: 0,
    }
}

/// Returns a liar whose ids begin with 2147483645, and whose names increase.
fn late() -> Liar<'static> {
    Liar {
        reply: LATE,
        id_at: 20,
        name_at: Some(42),
        turn: 0,
        sends: 0,
    }
}

/// Returns the end of a walk whose first two replies have the name 1.3.6.1.4.1.32473.1.1.0.
fn not_increasing(rt: &impl Abort) -> WalkEnd {
    let last = name_of(rt, b"1.3.6.1.4.1.32473.1.1.0");
    let got = name_of(rt, b"1.3.6.1.4.1.32473.1.1.0");
    WalkEnd::NotIncreasing { last, got }
}

/// Returns the end of a walk below `ROOT` whose first GetNext gets a reply without bindings.
fn no_progress(rt: &impl Abort) -> WalkEnd {
    let asked = name_of(rt, ROOT);
    WalkEnd::NoProgress { asked }
}

/// Asserts that a repeated name ends a walk, and so does a reply without bindings.
fn assert_names_end(rt: &impl Abort) {
    assert_end(rt, lying(&ROW), 1, 1, 2, &not_increasing(rt));
    assert_end(rt, lying(NONE), 1, 0, 1, &no_progress(rt));
}

#[test]
fn bad_replies_end_the_walk(rt: HostRuntime) {
    assert_names_end(&rt);
    assert_end(&rt, lying(TWO), 1, 0, 1, &WalkEnd::BadReply);
    assert_end(&rt, lying(MISSING), 1, 0, 1, &WalkEnd::BadReply);
    assert_end(&rt, lying(GENERAL_ERROR), 1, 0, 1, &WalkEnd::Fault(5, 1));
    assert_end(&rt, lying(UNKNOWN_ERROR), 1, 0, 1, &WalkEnd::Fault(19, 0));
    assert_end(&rt, late(), 2147483645, 3, 3, &WalkEnd::TooManyRequests);
}

/// Asserts that a Get of the name in `ROW` is done if the reply is `ROW` or `MISSING`, and isn't
/// done if it is one of the others.
fn assert_replies_to_get(rt: &impl Abort, one: &[Oid]) {
    assert_get(rt, lying(&ROW), one, 1, 1, &WalkEnd::Done(1));
    assert_get(rt, lying(MISSING), one, 1, 1, &WalkEnd::Done(1));
    assert_get(rt, lying(TWO), one, 0, 1, &WalkEnd::BadReply);
    assert_get(rt, lying(END), one, 0, 1, &WalkEnd::BadReply);
    assert_get(rt, lying(NONE), one, 0, 1, &WalkEnd::BadReply);
    assert_get(rt, lying(GENERAL_ERROR), one, 0, 1, &WalkEnd::Fault(5, 1));
    assert_get(rt, lying(UNKNOWN_ERROR), one, 0, 1, &WalkEnd::Fault(19, 0));
    assert_get(rt, late(), one, 0, 3, &WalkEnd::NoResponse);
}

#[test]
fn bad_replies_end_the_get(rt: HostRuntime) {
    let one = [name_of(&rt, b"1.3.6.1.4.1.32473.1.1.0")];
    assert_replies_to_get(&rt, &one);
}

/// Asserts that a Get accepts a reply with its names in their order, and refuses one without the
/// second name, one in the other order, and one with another name.
fn assert_names_wanted(rt: &impl Abort, both: &[Oid], swapped: &[Oid], second: &[Oid]) {
    assert_get(rt, lying(TWO), both, 2, 1, &WalkEnd::Done(2));
    assert_get(rt, lying(&ROW), both, 0, 1, &WalkEnd::BadReply);
    assert_get(rt, lying(TWO), swapped, 0, 1, &WalkEnd::BadReply);
    assert_get(rt, lying(&ROW), second, 0, 1, &WalkEnd::BadReply);
}

#[test]
fn a_get_accepts_only_its_names_in_their_order(rt: HostRuntime) {
    let first: &[u8] = b"1.3.6.1.4.1.32473.1.1.0";
    let second: &[u8] = b"1.3.6.1.4.1.32473.1.2.0";
    let both = names_of(&rt, rt.alloc(), &[first, second]);
    let swapped = names_of(&rt, rt.alloc(), &[second, first]);
    assert_names_wanted(&rt, &both, &swapped, swapped.get(..1).unwrap_or(&[]));
}
