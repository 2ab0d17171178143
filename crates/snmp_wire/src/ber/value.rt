//! The value of a variable binding.
ghost use Rattle.std.specs.Prelude.{◌≡◌, true, ℕ, IsOk, IfOk, Ok, ◌+◌, ◌^◌, ◌<◌, ◌≤◌, length, pos};
ghost use Rattle.std.specs.Prelude.{[], ◌++◌};
ghost use Rattle.snmp_wire.specs.ber.Value.{datum, integer_value, ip_address, object_id};
ghost use Rattle.snmp_wire.specs.ber.Value.{octet_string};
ghost use Rattle.snmp_oid.specs.Identifier.{IsWire};
ghost use Rattle.snmp_wire.specs.ber.Decode as reading;
ghost use Rattle.snmp_wire.specs.ber.Decode.{AgreesBy, checked};
ghost use Rattle.snmp_wire.specs.ber.Canon.{IsEncodableValue, canon_content, canon_element};
ghost use Rattle.snmp_wire.specs.ber.Canon.{canon_number, canon_value};
ghost use Rattle.snmp_wire.specs.{ber.Number.AreOctets, ber.Range.IsInRange, ber.Writing.Writes};

use crate::ber::error::check_content;
use crate::ber::identifier::{check_identifier, identifier_of, identifier_size, put_identifier};
use crate::ber::length::{put_header, put_short_header};
use crate::ber::number::{
    has_width, integer_of, integer_size, put_four, put_integer, put_unsigned, unsigned_size,
    unsigned32, unsigned32_size, unsigned64,
};
use crate::ber::writing::{put_octet, put_text};
use crate::ber::{BerError, tag};
use snmp_oid::Oid;

/// A value, or an exception in place of one (RFC 3416, section 3). Its strings are borrowed, from
/// the encoding if it was decoded. Tags are in hexadecimal here.
#[derive(Debug, Drop, PartialEq)]
pub enum ValueRef<'a> {
    /// INTEGER, tag 02.
    Integer(i32),
    /// OCTET STRING, tag 04.
    Octets(&'a [u8]),
    /// NULL, tag 05: no value, as in a GetRequest.
    Null,
    /// OBJECT IDENTIFIER, tag 06.
    ObjectId(Oid),
    /// IpAddress, tag 40: the four octets of the address, in network byte order.
    IpAddress([u8; 4]),
    /// Counter32, tag 41.
    Counter32(u32),
    /// Gauge32 or Unsigned32, tag 42.
    Gauge32(u32),
    /// TimeTicks, tag 43: hundredths of a second.
    TimeTicks(u32),
    /// Opaque, tag 44.
    Opaque(&'a [u8]),
    /// Counter64, tag 46.
    Counter64(u64),
    /// The exception noSuchObject, tag 80: the agent has no such object.
    NoSuchObject,
    /// The exception noSuchInstance, tag 81: the object has no such instance.
    NoSuchInstance,
    /// The exception endOfMibView, tag 82: no instance comes after the name.
    EndOfMibView,
}

/// Checks that `content` is the content of a value with this tag.
#[tactic(auto, unfolding(crate::specs::ber::Decode::typed_value, crate::specs::ber::Decode::unsigned_of, crate::specs::ber::Decode::integer_of))]
// `inline(always)`: called for each binding that is checked.
#[inline(always)]
pub fn check_value(tag: u8, content: &[u8]) -> Result<(), BerError>
    // `Ok` if and only if a value has this tag and content: lemmas `value_gives` and
    // `value_again`.
    ensures { AgreesBy (λ u. u) result (checked (reading.typed_value tag content.now)) }
{
    match tag {
        tag::INTEGER => check_content(!content.is_empty() && content.len() < 5),
        tag::OCTET_STRING | tag::OPAQUE => Ok(()),
        tag::NULL | tag::NO_SUCH_OBJECT | tag::NO_SUCH_INSTANCE | tag::END_OF_MIB_VIEW => {
            check_content(content.is_empty())
        }
        tag::OBJECT_IDENTIFIER => check_object_id(content),
        tag::IP_ADDRESS => check_content(content.len() == 4),
        tag::COUNTER32 | tag::GAUGE32 | tag::TIME_TICKS => check_content(has_width(4, content)),
        tag::COUNTER64 => check_content(has_width(8, content)),
        _ => Err(BerError::Tag),
    }
}

/// Checks that the content of a value encodes an identifier. Few values are identifiers, so this
/// isn't inlined.
#[inline(never)]
fn check_object_id(content: &[u8]) -> Result<(), BerError>
    ensures { AgreesBy (λ u. u) result (checked (reading.identifier_of content.now)) }
{
    check_identifier(content)
}

/// Reads the value with this tag and content into `into`. The content must have been checked.
// `inline(always)`: called for each binding that is read. Over a value of the same type this is
// mostly a store or two.
#[inline(always)]
pub fn read_value<'a>(tag: u8, content: &'a [u8], into: &mut ValueRef<'a>)
    requires { IsOk (reading.typed_value tag content.now) }
    ensures { reading.typed_value tag content.now ≡ Ok (datum into.new) }
{
    if !set_if_same_type(tag, content, into) {
        replace_value(tag, content, into);
    }
}

/// Does what [`read_value`] does, over a value of any type. `inline(never)`: it writes all octets
/// of a [`ValueRef`], which most reads of a value avoid.
#[tactic(auto, unfolding(crate::specs::ber::Decode::typed_value, crate::specs::ber::Decode::unsigned_of))]
#[inline(never)]
fn replace_value<'a>(tag: u8, content: &'a [u8], into: &mut ValueRef<'a>)
    requires { IsOk (reading.typed_value tag content.now) }
    ensures { reading.typed_value tag content.now ≡ Ok (datum into.new) }
{
    match tag {
        tag::INTEGER => match integer_of(content) {
            Ok(number) => *into = ValueRef::Integer(number),
            Err(_) => unreachable!(),
        },
        tag::OCTET_STRING => *into = ValueRef::Octets(content),
        tag::NULL => *into = ValueRef::Null,
        tag::OBJECT_IDENTIFIER => set_object_id(content, into),
        tag::IP_ADDRESS => match content {
            [a, b, c, d] => *into = ValueRef::IpAddress([*a, *b, *c, *d]),
            _ => unreachable!(),
        },
        tag::COUNTER32 => *into = ValueRef::Counter32(unsigned32(content)),
        tag::GAUGE32 => *into = ValueRef::Gauge32(unsigned32(content)),
        tag::TIME_TICKS => *into = ValueRef::TimeTicks(unsigned32(content)),
        tag::OPAQUE => *into = ValueRef::Opaque(content),
        tag::COUNTER64 => *into = ValueRef::Counter64(unsigned64(content)),
        tag::NO_SUCH_OBJECT => *into = ValueRef::NoSuchObject,
        tag::NO_SUCH_INSTANCE => *into = ValueRef::NoSuchInstance,
        tag::END_OF_MIB_VIEW => *into = ValueRef::EndOfMibView,
        _ => unreachable!(),
    }
}

/// Sets `into` to the identifier with this content. `inline(never)`: its `Oid`, of over 500
/// octets, is zeroed when the function begins; inlined, it would be zeroed for the other types
/// too.
#[tactic(auto, unfolding(crate::specs::ber::Decode::typed_value))]
#[inline(never)]
fn set_object_id<'a>(content: &'a [u8], into: &mut ValueRef<'a>)
    requires { IsOk (reading.typed_value 6 content.now) }
    ensures { reading.typed_value 6 content.now ≡ Ok (datum into.new) }
{
    *into = ValueRef::ObjectId(identifier_of(content));
}

/// If `value` already has the type of this tag, as when a column is read, sets it to the value
/// with this content and returns `true`. Otherwise, and for the types without a case here, returns
/// `false`. Setting only the content saves writing all octets of a [`ValueRef`], over 500.
#[tactic(auto, unfolding(crate::specs::ber::Decode::typed_value, crate::specs::ber::Decode::unsigned_of))]
// `inline(always)`: its single caller calls it for each binding that is read.
#[inline(always)]
fn set_if_same_type<'a>(tag: u8, content: &'a [u8], value: &mut ValueRef<'a>) -> bool
    requires { IsOk (reading.typed_value tag content.now) }
    ensures { result ≡ true → reading.typed_value tag content.now ≡ Ok (datum value.new) }
{
    match value {
        ValueRef::Null => return tag == tag::NULL,
        ValueRef::Integer(number) => {
            if tag == tag::INTEGER {
                match integer_of(content) {
                    Ok(read) => *number = read,
                    Err(_) => unreachable!(),
                }
                return true;
            }
        }
        ValueRef::Octets(text) => {
            if tag == tag::OCTET_STRING {
                *text = content;
                return true;
            }
        }
        ValueRef::Counter32(number) => {
            if tag == tag::COUNTER32 {
                *number = unsigned32(content);
                return true;
            }
        }
        ValueRef::Gauge32(number) => {
            if tag == tag::GAUGE32 {
                *number = unsigned32(content);
                return true;
            }
        }
        ValueRef::TimeTicks(number) => {
            if tag == tag::TIME_TICKS {
                *number = unsigned32(content);
                return true;
            }
        }
        ValueRef::Counter64(number) => {
            if tag == tag::COUNTER64 {
                *number = unsigned64(content);
                return true;
            }
        }
        _ => {}
    }
    false
}

/// Returns the length, in octets, of the content of a value.
#[inline]
#[tactic(auto, unfolding(crate::specs::ber::Canon::canon_content))]
pub fn content_size(value: &ValueRef<'_>) -> u64
    requires { IsEncodableValue (datum value.now) }
    ensures value { result ≡ length (canon_content (datum value.now)) }
    ensures at_most_65535 { result ≤ 65535 }
    ensures range { IsInRange (datum value.now) }
{
    match value {
        ValueRef::Integer(number) => integer_size(*number) as u64,
        ValueRef::Octets(text) | ValueRef::Opaque(text) => string_size(text),
        ValueRef::ObjectId(name) => object_id_size(name),
        ValueRef::IpAddress(address) => address_size(*address),
        ValueRef::Counter32(number) | ValueRef::Gauge32(number) | ValueRef::TimeTicks(number) => {
            unsigned32_size(*number) as u64
        }
        ValueRef::Counter64(number) => unsigned_size(*number) as u64,
        ValueRef::Null
        | ValueRef::NoSuchObject
        | ValueRef::NoSuchInstance
        | ValueRef::EndOfMibView => 0,
    }
}

/// Returns the number of octets in a string. This is a function because a proof knows that the
/// items of a slice are octets if the slice is a parameter.
#[inline]
fn string_size(text: &[u8]) -> u64
    ensures value { result ≡ length text.now }
    ensures octets { AreOctets text.now }
{
    text.len() as u64
}

/// Returns the length, in octets, of the content of an identifier. Few values are identifiers, so
/// this isn't inlined.
#[inline(never)]
fn object_id_size(name: &Oid) -> u64
    requires { IsWire name.now }
    ensures value { result ≡ length (canon_content (object_id name.now)) }
    ensures at_most_640 { result ≤ 640 }
    ensures range { IsInRange (object_id name.now) }
{
    identifier_size(name)
}

/// Returns the number of octets in an address.
#[inline]
fn address_size(address: [u8; 4]) -> u64
    ensures value { result ≡ length address }
    ensures at_most_4 { result ≤ 4 }
    ensures range { IsInRange (ip_address address) }
{
    address.len() as u64
}

/// Writes a value, with its tag (RFC 3416, section 3) and its length, before `end`, and returns
/// its offset.
// `inline(always)`: called for each binding that is encoded from a name and a value.
#[inline(always)]
#[tactic(auto, unfolding(crate::specs::ber::Canon::canon_value, crate::specs::ber::Canon::canon_content))]
pub fn put_value(out: &mut [u8], end: usize, value: &ValueRef<'_>) -> usize
    requires encodable { IsEncodableValue (datum value.now) }
    requires room { length (canon_value (datum value.now)) ≤ end }
    requires within { end ≤ length out.old }
    // What is written of a value in range is a strict encoding, and no strict encoding is shorter:
    // lemmas `spells_value` and `value_least`.
    ensures { Writes out.old result end (canon_value (datum value.now)) out.new }
{
    match value {
        ValueRef::Integer(number) => put_integer_value(out, end, *number),
        ValueRef::Octets(text) => put_string(out, end, tag::OCTET_STRING, text),
        ValueRef::Null => put_empty(out, end, tag::NULL),
        ValueRef::ObjectId(name) => put_object_id(out, end, name),
        ValueRef::IpAddress(address) => put_string(out, end, tag::IP_ADDRESS, address),
        ValueRef::Counter32(number) => put_number(out, end, tag::COUNTER32, *number),
        ValueRef::Gauge32(number) => put_number(out, end, tag::GAUGE32, *number),
        ValueRef::TimeTicks(number) => put_number(out, end, tag::TIME_TICKS, *number),
        ValueRef::Opaque(text) => put_string(out, end, tag::OPAQUE, text),
        ValueRef::Counter64(number) => put_long_number(out, end, tag::COUNTER64, *number),
        ValueRef::NoSuchObject => put_empty(out, end, tag::NO_SUCH_OBJECT),
        ValueRef::NoSuchInstance => put_empty(out, end, tag::NO_SUCH_INSTANCE),
        ValueRef::EndOfMibView => put_empty(out, end, tag::END_OF_MIB_VIEW),
    }
}

/// Writes an element with empty content before `end`, and returns its offset.
#[inline]
fn put_empty(out: &mut [u8], end: usize, tag: u8) -> usize
    requires room { length (canon_element tag []) ≤ end }
    requires within { end ≤ length out.old }
    ensures { Writes out.old result end (canon_element tag []) out.new }
{
    put_short_header(out, end, tag, 0)
}

/// Writes a number of 32 bits before `end`, as an element with this tag, and returns its offset.
#[inline]
fn put_number(out: &mut [u8], end: usize, tag: u8, number: u32) -> usize
    requires room { length (canon_element tag (canon_number (pos number))) ≤ end }
    requires within { end ≤ length out.old }
    ensures { Writes out.old result end (canon_element tag (canon_number (pos number))) out.new }
{
    // Numbers from 2^23 on, as many counters are, have four octets, or five if the high bit is set
    // and needs a zero octet before it.
    if number < 1 << 23 {
        let start = put_unsigned(out, end, u64::from(number));
        return put_short_header(out, start, tag, (end - start) as u64);
    }
    let start = put_four(out, end, number);
    if number < 1 << 31 {
        put_short_header(out, start, tag, 4)
    } else {
        let start = put_octet(out, start, 0);
        put_short_header(out, start, tag, 5)
    }
}

/// Writes a number of 64 bits before `end`, as an element with this tag, and returns its offset.
#[inline(never)]
#[tactic(auto, using(crate::proofs::ElementRoom::number_short, crate::proofs::ElementLaws::header_fits))]
fn put_long_number(out: &mut [u8], end: usize, tag: u8, number: u64) -> usize
    requires room { length (canon_element tag (canon_number (pos number))) ≤ end }
    requires within { end ≤ length out.old }
    ensures { Writes out.old result end (canon_element tag (canon_number (pos number))) out.new }
{
    let start = put_unsigned(out, end, number);
    put_short_header(out, start, tag, (end - start) as u64)
}

/// Writes an INTEGER before `end`, and returns its offset.
#[inline]
#[tactic(auto, using(crate::proofs::ElementRoom::number_short, crate::proofs::ElementLaws::header_fits))]
fn put_integer_value(out: &mut [u8], end: usize, number: i32) -> usize
    requires room { length (canon_element 2 (canon_number number)) ≤ end }
    requires within { end ≤ length out.old }
    ensures { Writes out.old result end (canon_element 2 (canon_number number)) out.new }
{
    let start = put_integer(out, end, number);
    put_short_header(out, start, tag::INTEGER, (end - start) as u64)
}

/// Writes `text` before `end`, as an element with this tag, and returns its offset.
#[inline(never)]
fn put_string(out: &mut [u8], end: usize, tag: u8, text: &[u8]) -> usize
    requires room { length (canon_element tag text.now) ≤ end }
    requires within { end ≤ length out.old }
    ensures { Writes out.old result end (canon_element tag text.now) out.new }
{
    let start = put_text(out, end, text);
    put_header(out, start, tag, (end - start) as u64)
}

/// Writes an OBJECT IDENTIFIER before `end`, and returns its offset. Few values are identifiers,
/// so this isn't inlined.
#[inline(never)]
fn put_object_id(out: &mut [u8], end: usize, name: &Oid) -> usize
    requires encodable { IsWire name.now }
    requires room { length (canon_element 6 (canon_content (object_id name.now))) ≤ end }
    requires within { end ≤ length out.old }
    ensures { Writes out.old result end
        (canon_element 6 (canon_content (object_id name.now))) out.new }
{
    let start = put_identifier(out, end, name);
    put_header(out, start, tag::OBJECT_IDENTIFIER, (end - start) as u64)
}
