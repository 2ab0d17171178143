//! Messages and bindings are written as octets that were worked out by hand, and messages that were
//! read are written again.
ghost use Rattle.std.specs.Prelude.{IsTrue, All, ◌≡◌, ◌≤◌, length};
ghost use Rattle.snmp_wire.specs.Canon.{IsEncodable, canon_bindings};
ghost use Rattle.snmp_wire.specs.ber.Canon.{IsEncodableValue};
ghost use Rattle.snmp_wire.specs.ber.Value.{datum};
ghost use Rattle.snmp_wire.specs.Message.{var_bind, var_binds};

use crate::recorded::{REQUEST, RESPONSE};
use snmp_wire::{
    Binding, Kind, MessageRef, Oid, Parts, ValueRef, binding_size, decode, encode, encode_binding,
    seal, size,
};
use std::process::Abort;

/// Returns the parts of an SNMPv2c message with community `public`, id 1, and error-status or
/// non-repeaters 0. `b` is its error-index or max-repetitions.
fn message<'a>(kind: Kind, b: i32, bindings: &'a [Binding<'a>]) -> Parts<'a>
    ensures community { length result.community.now ≤ 65535 }
    ensures bindings { result.bindings.now ≡ bindings.now }
{
    Parts {
        version: 1,
        community: b"public",
        kind,
        id: 1,
        a: 0,
        b,
        bindings,
    }
}

/// sysName.0, 1.3.6.1.2.1.1.5.0.
const NAME: [u32; 9] = [1, 3, 6, 1, 2, 1, 1, 5, 0];

/// A GetBulkRequest of 1.3.6.1.4.1.32473.1 with max-repetitions 10.
const BULK: [u8; 41] = [
    0x30, 0x27, 0x02, 0x01, 0x01, 0x04, 0x06, 0x70, 0x75, 0x62, 0x6C, 0x69, 0x63, 0xA5, 0x1A, 0x02,
    0x01, 0x01, 0x02, 0x01, 0x00, 0x02, 0x01, 0x0A, 0x30, 0x0F, 0x30, 0x0D, 0x06, 0x09, 0x2B, 0x06,
    0x01, 0x04, 0x01, 0x81, 0xFD, 0x59, 0x01, 0x05, 0x00,
];

/// Returns whether `value` can be written: a string or an Opaque has at most 65535 octets, and an
/// identifier has an encoding. Each other value can be written.
fn is_encodable(value: &ValueRef<'_>) -> bool
    ensures { IsTrue result → IsEncodableValue (datum value.now) }
{
    match value {
        ValueRef::Octets(text) | ValueRef::Opaque(text) => text.len() <= 65535,
        ValueRef::ObjectId(name) => name.is_wire(),
        _ => true,
    }
}

/// Returns the binding of `name` and `value`, and asserts that it can be written.
fn binding<'a>(rt: &impl Abort, name: &[u32], value: ValueRef<'a>) -> Binding<'a>
    ensures { IsEncodable (var_bind result) }
{
    let name = Oid::from_slice(name).expect(rt, "at most 128 numbers");
    let binding = Binding { name, value };
    assert_encodable(rt, &binding);
    binding
}

/// Asserts that the name of `binding` has an encoding, and its value can be written.
fn assert_encodable(rt: &impl Abort, binding: &Binding<'_>)
    ensures { IsEncodable (var_bind binding.now) }
{
    assert!(rt; binding.name.is_wire());
    assert!(rt; is_encodable(&binding.value));
}

/// Returns the encoded length of `bindings`, which are one binding or none. They are short enough
/// for a message.
fn octets_of(bindings: &[Binding<'_>]) -> u64
    requires at_most_one { length bindings.now ≤ 1 }
    requires encodable { All (λ b. IsEncodable (var_bind b)) bindings.now }
    ensures { length (canon_bindings (var_binds bindings.now)) ≤ 4000000000 }
{
    match bindings {
        [] => 0,
        [binding, ..] => binding_size(binding),
    }
}

/// Asserts that the message with this one binding is written as `octets`, to a slice that just fits
/// and to a longer one, whose other octets stay as they were. Nothing is written to a slice that is
/// one octet too short.
fn assert_message(rt: &impl Abort, kind: Kind, b: i32, binding: Binding<'_>, octets: &[u8])
    requires { IsEncodable (var_bind binding) }
{
    let bindings = [binding];
    assert!(rt; octets_of(&bindings) < 512);
    assert_parts(rt, &message(kind, b, &bindings), octets);
}

/// Returns whether each octet of `out` is 0xEE, which the tests fill buffers with before a call.
fn is_untouched(out: &[u8]) -> bool {
    out.iter().all(|octet| *octet == 0xEE)
}

/// Calls [`encode`]. It has no `ensures`, since the tests compare what is returned and written.
fn put(parts: &Parts<'_>, out: &mut [u8]) -> Option<usize>
    requires community { length parts.now.community.now ≤ 65535 }
    requires bindings { All (λ b. IsEncodable (var_bind b)) parts.now.bindings.now }
    requires total { length (canon_bindings (var_binds parts.now.bindings.now)) ≤ 4000000000 }
{
    encode(parts, out)
}

/// Calls [`size`]. It has no `ensures`, since the tests compare what is returned.
fn size_of(parts: &Parts<'_>) -> u64
    requires community { length parts.now.community.now ≤ 65535 }
    requires bindings { All (λ b. IsEncodable (var_bind b)) parts.now.bindings.now }
    requires total { length (canon_bindings (var_binds parts.now.bindings.now)) ≤ 4000000000 }
{
    size(parts)
}

/// Calls [`encode_binding`]. It has no `ensures`, since the tests compare what is written.
fn put_binding(binding: &Binding<'_>, out: &mut [u8]) -> Option<usize>
    requires { IsEncodable (var_bind binding.now) }
{
    encode_binding(binding, out)
}

/// Calls [`binding_size`]. It has no `ensures`, since the tests compare what is returned.
fn size_of_binding(binding: &Binding<'_>) -> u64
    requires { IsEncodable (var_bind binding.now) }
{
    binding_size(binding)
}

/// Returns whether `out` begins with `octets`, and the rest is untouched.
fn holds_only(out: &[u8], octets: &[u8]) -> bool {
    if octets.len() > out.len() {
        return false;
    }
    let (start, rest) = out.split_at(octets.len());
    start == octets && is_untouched(rest)
}

/// Writes the message of these parts to the start of `out`, and returns whether it is `octets` and
/// the rest is untouched.
fn is_put(parts: &Parts<'_>, out: &mut [u8], octets: &[u8]) -> bool
    requires community { length parts.now.community.now ≤ 65535 }
    requires bindings { All (λ b. IsEncodable (var_bind b)) parts.now.bindings.now }
    requires total { length (canon_bindings (var_binds parts.now.bindings.now)) ≤ 4000000000 }
{
    put(parts, out) == Some(octets.len()) && holds_only(out, octets)
}

/// Returns whether [`encode`] fails for a slice of `room` octets, at most 512, and writes nothing.
fn is_not_put(parts: &Parts<'_>, room: usize) -> bool
    requires community { length parts.now.community.now ≤ 65535 }
    requires bindings { All (λ b. IsEncodable (var_bind b)) parts.now.bindings.now }
    requires total { length (canon_bindings (var_binds parts.now.bindings.now)) ≤ 4000000000 }
{
    let mut out = [0xEE; 512];
    put(parts, &mut out[..room.min(512)]).is_none() && is_untouched(&out)
}

/// Returns [`is_put`] for a slice of `room` octets, at most 512.
fn is_put_in(parts: &Parts<'_>, room: usize, octets: &[u8]) -> bool
    requires community { length parts.now.community.now ≤ 65535 }
    requires bindings { All (λ b. IsEncodable (var_bind b)) parts.now.bindings.now }
    requires total { length (canon_bindings (var_binds parts.now.bindings.now)) ≤ 4000000000 }
{
    let mut out = [0xEE; 512];
    is_put(parts, &mut out[..room.min(512)], octets)
}

/// Asserts that the message of these parts is written as `octets` to a slice that just fits and to
/// a longer one, and isn't written to one that is an octet too short.
fn assert_parts(rt: &impl Abort, parts: &Parts<'_>, octets: &[u8])
    requires community { length parts.now.community.now ≤ 65535 }
    requires bindings { All (λ b. IsEncodable (var_bind b)) parts.now.bindings.now }
    requires total { length (canon_bindings (var_binds parts.now.bindings.now)) ≤ 4000000000 }
{
    let len = octets.len();
    assert!(rt; 0 < len && len < 512);
    assert!(rt; size_of(parts) == len as u64);
    assert!(rt; is_not_put(parts, len - 1));
    assert!(rt; is_put_in(parts, len, octets));
    assert!(rt; is_put_in(parts, 512, octets));
}

#[test]
fn a_request_is_written(rt: HostRuntime) {
    let get = binding(&rt, &NAME, ValueRef::Null);
    assert_message(&rt, Kind::GetRequest, 0, get, &REQUEST);
}

#[test]
fn a_response_is_written(rt: HostRuntime) {
    let reply = binding(&rt, &NAME, ValueRef::Octets(b"wes"));
    assert_message(&rt, Kind::Response, 0, reply, &RESPONSE);
}

#[test]
fn a_bulk_request_is_written(rt: HostRuntime) {
    let get = binding(&rt, &[1, 3, 6, 1, 4, 1, 32473, 1], ValueRef::Null);
    assert_message(&rt, Kind::GetBulkRequest, 10, get, &BULK);
}

/// Asserts that a value is written as `octets`, in a binding with the name 1.3.
fn assert_value(rt: &impl Abort, value: ValueRef<'_>, octets: &[u8]) {
    assert_binding(rt, &binding(rt, &[1, 3], value), octets);
}

/// Returns whether [`encode_binding`] fails for a slice of `room` octets, at most 1024, and writes
/// nothing.
fn is_binding_not_put(binding: &Binding<'_>, room: usize) -> bool
    requires { IsEncodable (var_bind binding.now) }
{
    let mut out = [0xEE; 1024];
    put_binding(binding, &mut out[..room.min(1024)]).is_none() && is_untouched(&out)
}

/// Returns whether a binding with the name 1.3 is written, and `octets`, fewer than 100, are its
/// value.
fn is_binding_put(binding: &Binding<'_>, octets: &[u8]) -> bool
    requires { IsEncodable (var_bind binding.now) }
{
    let len = octets.len();
    if len >= 100 {
        return false;
    }
    let mut out = [0xEE; 1024];
    let head = [0x30, (len + 3) as u8, 0x06, 0x01, 0x2B];
    put_binding(binding, &mut out) == Some(len + 5)
        && out.starts_with(&head)
        && holds_only(&out[5..], octets)
}

/// Asserts that the value of this binding, whose name is 1.3, is written as `octets`.
fn assert_binding(rt: &impl Abort, binding: &Binding<'_>, octets: &[u8])
    requires { IsEncodable (var_bind binding.now) }
{
    let len = octets.len();
    assert!(rt; len < 100);
    assert!(rt; size_of_binding(binding) == (len + 5) as u64);
    assert!(rt; is_binding_not_put(binding, len + 4));
    assert!(rt; is_binding_put(binding, octets), "{octets:?}");
}

#[test]
fn whole_numbers_are_written_in_their_shortest_form(rt: HostRuntime) {
    assert_value(&rt, ValueRef::Counter32(200), &[0x41, 0x02, 0x00, 0xC8]);
    assert_value(
        &rt,
        ValueRef::Gauge32(4294967295),
        &[0x42, 0x05, 0x00, 0xFF, 0xFF, 0xFF, 0xFF],
    );
    assert_value(&rt, ValueRef::Integer(-129), &[0x02, 0x02, 0xFF, 0x7F]);
    assert_value(&rt, ValueRef::Integer(-128), &[0x02, 0x01, 0x80]);
    assert_value(&rt, ValueRef::Integer(-1), &[0x02, 0x01, 0xFF]);
    assert_value(&rt, ValueRef::Integer(128), &[0x02, 0x02, 0x00, 0x80]);
    assert_value(
        &rt,
        ValueRef::Integer(i32::MIN),
        &[0x02, 0x04, 0x80, 0x00, 0x00, 0x00],
    );
    assert_value(&rt, ValueRef::TimeTicks(0), &[0x43, 0x01, 0x00]);
    assert_value(
        &rt,
        ValueRef::Counter64(u64::MAX),
        &[
            0x46, 0x09, 0x00, 0xFF, 0xFF, 0xFF, 0xFF, 0xFF, 0xFF, 0xFF, 0xFF,
        ],
    );
    assert_value(
        &rt,
        ValueRef::Counter64(1 << 62),
        &[0x46, 0x08, 0x40, 0x00, 0x00, 0x00, 0x00, 0x00, 0x00, 0x00],
    );
}

#[test]
fn other_values_are_written(rt: HostRuntime) {
    assert_value(&rt, ValueRef::Octets(b""), &[0x04, 0x00]);
    assert_value(&rt, ValueRef::Null, &[0x05, 0x00]);
    assert_value(
        &rt,
        ValueRef::IpAddress([192, 0, 2, 255]),
        &[0x40, 0x04, 0xC0, 0x00, 0x02, 0xFF],
    );
    assert_value(
        &rt,
        ValueRef::Opaque(&[0x9F, 0x78]),
        &[0x44, 0x02, 0x9F, 0x78],
    );
    assert_value(&rt, ValueRef::NoSuchObject, &[0x80, 0x00]);
    assert_value(&rt, ValueRef::NoSuchInstance, &[0x81, 0x00]);
    assert_value(&rt, ValueRef::EndOfMibView, &[0x82, 0x00]);
    let name = Oid::from_slice(&[2, 4294967295, 0]).expect(&rt, "three numbers");
    assert_value(
        &rt,
        ValueRef::ObjectId(name),
        &[0x06, 0x06, 0x90, 0x80, 0x80, 0x80, 0x4F, 0x00],
    );
}

#[test]
fn the_longest_name_is_written(rt: HostRuntime) {
    let mut name = [4294967295; 128];
    name[0] = 1;
    name[1] = 3;
    name[2] = 6;
    let binding = binding(&rt, &name, ValueRef::Null);
    let mut out = [0xEE; 1024];
    assert!(rt; put_binding(&binding, &mut out) == Some(637));
    let start = [
        0x30, 0x82, 0x02, 0x79, 0x06, 0x82, 0x02, 0x73, 0x2B, 0x06, 0x8F, 0xFF, 0xFF, 0xFF, 0x7F,
    ];
    assert!(rt; out.starts_with(&start));
}

/// Returns the parts of a message with the head of `message` and these bindings.
fn parts_of<'a>(message: &MessageRef<'a>, bindings: &'a [Binding<'a>]) -> Parts<'a>
    ensures { result.bindings.now ≡ bindings.now }
{
    Parts {
        version: message.version(),
        community: message.community(),
        kind: message.kind(),
        id: message.id(),
        a: message.a(),
        b: message.b(),
        bindings,
    }
}

/// Writes a message with the head of `message` and at most one binding to the start of `out`, and
/// returns its length.
fn write_again<'a>(
    rt: &impl Abort,
    message: &MessageRef<'a>,
    bindings: &'a [Binding<'a>],
    out: &mut [u8],
) -> usize
    requires at_most_one { length bindings.now ≤ 1 }
    requires bindings { All (λ b. IsEncodable (var_bind b)) bindings.now }
{
    assert!(rt; octets_of(bindings) < 512);
    let parts = parts_of(message, bindings);
    assert!(rt; parts.community.len() <= 65535);
    let Some(len) = encode(&parts, out) else {
        panic!(rt; "there is room")
    };
    assert!(rt; size(&parts) == len as u64);
    len
}

/// Each octet of a request is replaced by each value. What is then read as a message is written,
/// and what was written is read, and written again as the same octets.
#[test]
fn what_is_read_is_written_and_read_again(rt: HostRuntime) {
    for at in 0..REQUEST.len() {
        for octet in 0..=255u8 {
            let mut datagram = REQUEST;
            datagram[at] = octet;
            if let Ok(message) = decode(&datagram) {
                assert_written(&rt, &message);
            }
        }
    }
}

/// Returns whether the heads of two messages are equal, apart from the communities.
fn have_same_head(again: &MessageRef<'_>, message: &MessageRef<'_>) -> bool {
    again.version() == message.version()
        && again.kind() == message.kind()
        && again.id() == message.id()
        && again.a() == message.a()
        && again.b() == message.b()
}

/// Returns whether a message with at most one binding is written as `octets`.
fn is_written_as(rt: &impl Abort, message: &MessageRef<'_>, octets: &[u8]) -> bool {
    let mut out = [0; 512];
    let len = write_all(rt, message, &mut out);
    out.get(..len) == Some(octets)
}

/// Returns whether `octets` encode a message with the head of `message`, apart from the community,
/// and that message is written as `octets` again.
fn is_read_again(rt: &impl Abort, octets: &[u8], message: &MessageRef<'_>) -> bool {
    match decode(octets) {
        Ok(again) => have_same_head(&again, message) && is_written_as(rt, &again, octets),
        Err(_) => false,
    }
}

/// Asserts that a message with at most one binding is written, and that what was written is read as
/// [`is_read_again`] says.
fn assert_written(rt: &impl Abort, message: &MessageRef<'_>) {
    let mut out = [0; 512];
    let len = write_all(rt, message, &mut out);
    assert!(rt; len <= out.len());
    assert!(rt; is_read_again(rt, &out[..len], message));
}

/// Writes a message with at most one binding to the start of `out`, and returns its length.
fn write_all(rt: &impl Abort, message: &MessageRef<'_>, out: &mut [u8]) -> usize {
    let mut bindings = message.bindings();
    let Some(binding) = bindings.next() else {
        return write_again(rt, message, &[], out);
    };
    assert!(rt; bindings.next().is_none());
    assert_encodable(rt, &binding);
    let one = [binding];
    write_again(rt, message, &one, out)
}

#[test]
fn seal_writes_the_head_before_bindings_already_written(rt: HostRuntime) {
    let parts = message(Kind::GetBulkRequest, 10, &[]);
    let mut out = [0; 60];
    out[20..37].copy_from_slice(&BULK[24..]);
    assert!(rt; seal(&parts, 22, 15, &mut out) == Some(41) && out.starts_with(&BULK));
    let mut short = [7; 40];
    assert!(rt; seal(&parts, 25, 15, &mut short).is_none() && short == [7; 40]);
}
