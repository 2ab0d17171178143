//! Values as a table's text represents them.
ghost use Rattle.std.specs.Prelude.{◌≡◌, ◌<◌, ◌≤◌, ◌^◌, IfOk, IfSome, IfNone, FitsSigned, length};
ghost use Rattle.std.specs.{Int.w32, Option.option_map};
ghost use Rattle.hex.specs.Hex.{decode_of};
ghost use Rattle.snmp_oid.specs.Identifier.{IsWire};
ghost use Rattle.snmp_wire.specs.Message.{datum, object_id};
ghost use Rattle.snmp_wire.specs.Message.Datum.{integer_value, counter32, gauge32, time_ticks};
ghost use Rattle.snmp_wire.specs.Message.Datum.{counter64, octet_string};
ghost use Rattle.snmp_agent.specs.table.Exact.{IsOnly, IsOnlyThere};
ghost use Rattle.snmp_agent.specs.private.table.Row.{datum_of, tag_text, TakesMemory};
ghost use Rattle.snmp_agent.specs.table.Table.{IsTableString};
ghost use Rattle.snmp_agent.specs.table.Format.{Format, IsNameIn};
ghost use Rattle.snmp_agent.specs.table.Text.{IsDecimal, IsSignedDecimal, IsAddressText};
ghost use Rattle.snmp_agent.specs.table.Text.{IsValueText};

use crate::table::format::LineFormat;
use hex::FromHexError;
use snmp_wire::{Oid, ValueRef, parse_numeric};
use std::alloc::{AllocError, Global};

/// The tag of a row: the type of its value, and how the text represents it.
#[derive(Clone, Copy)]
pub enum Tag {
    Integer,
    OctetString,
    HexOctetString,
    ObjectId,
    IpAddress,
    Counter32,
    Gauge32,
    TimeTicks,
    HexOpaque,
    Counter64,
}

impl Tag {
    ghost use Rattle.std.specs.Prelude.{◌≡◌, MatchOption};
    ghost use Rattle.snmp_agent.specs.table.Form.{IsTag};
    ghost use Rattle.snmp_agent.specs.private.table.Row.{tag_text};

    /// Returns the tag with this text, if there is one.
    pub fn from_text(text: &[u8]) -> Option<Tag>
        ensures { MatchOption result (IsTag text.now → ⊥) (λ tag. text.now ≡ tag_text tag) }
    {
        match text {
            b"2" => Some(Tag::Integer),
            b"4" => Some(Tag::OctetString),
            b"4x" => Some(Tag::HexOctetString),
            b"6" => Some(Tag::ObjectId),
            b"64" => Some(Tag::IpAddress),
            b"65" => Some(Tag::Counter32),
            b"66" => Some(Tag::Gauge32),
            b"67" => Some(Tag::TimeTicks),
            b"68x" => Some(Tag::HexOpaque),
            b"70" => Some(Tag::Counter64),
            _ => None,
        }
    }
}

/// A value that needs memory of its own when it is read.
#[derive(Drop)]
pub enum RowText {
    /// OCTET STRING.
    Octets(Vec<u8>),
    /// OBJECT IDENTIFIER, as its numbers.
    ObjectId(Vec<u32>),
    /// Opaque.
    Opaque(Vec<u8>),
}

impl RowText {
    ghost use Rattle.std.specs.Prelude.{◌≡◌};
    ghost use Rattle.snmp_wire.specs.Message.{datum};
    ghost use Rattle.snmp_agent.specs.private.table.Row.{datum_of, IsShort};

    /// Sets `into` to this value, from which it borrows the octets of a string.
    pub fn read_into<'a>(&'a self, into: &mut ValueRef<'a>)
        requires { IsShort self.now }
        ensures { datum into.new ≡ datum_of self.now }
    {
        match self {
            RowText::Octets(octets) => *into = ValueRef::Octets(octets.as_slice()),
            RowText::ObjectId(numbers) => set_to_identifier(into, numbers.as_slice()),
            RowText::Opaque(octets) => *into = ValueRef::Opaque(octets.as_slice()),
        }
    }
}

/// The greatest length of a string in a table, in octets.
pub const LONGEST_STRING: usize = 65535;

/// Reads the number or address that `text` represents, or `text` itself as octets, into `into`,
/// and returns whether it is a value of the tag's type. Returns `None` if values of the tag need
/// memory of their own.
pub fn read_plain<'a>(tag: Tag, text: &'a [u8], into: &mut ValueRef<'a>) -> Option<bool>
    ensures plain { IfSome result (λ found. (format : Format) → IsOnlyThere
        (IsValueText format (tag_text tag) text.now) found (datum into.new)) }
    ensures other { IfNone result (TakesMemory tag) }
{
    match tag {
        Tag::Integer => match parse_i32(text) {
            Some(number) => set_integer(into, number),
            None => return Some(false),
        },
        Tag::IpAddress => match address(text) {
            Some(octets) => *into = ValueRef::IpAddress(octets),
            None => return Some(false),
        },
        Tag::Counter32 => match parse_u32(text) {
            Some(number) => set_counter32(into, number),
            None => return Some(false),
        },
        Tag::Gauge32 => match parse_u32(text) {
            Some(number) => set_gauge32(into, number),
            None => return Some(false),
        },
        Tag::TimeTicks => match parse_u32(text) {
            Some(number) => set_time_ticks(into, number),
            None => return Some(false),
        },
        Tag::Counter64 => match decimal(text) {
            Some(number) => set_counter64(into, number),
            None => return Some(false),
        },
        Tag::OctetString if text.len() <= LONGEST_STRING => set_octets(into, text),
        Tag::OctetString => return Some(false),
        Tag::HexOctetString | Tag::ObjectId | Tag::HexOpaque => return None,
    }
    Some(true)
}

/// Sets `value` to an INTEGER. Here and in the next five functions, if the value has the type
/// already, only its content is set, which saves setting over 500 octets.
#[inline(always)]
fn set_integer(value: &mut ValueRef<'_>, number: i32)
    ensures { datum value.new ≡ integer_value number }
{
    match value {
        ValueRef::Integer(index) => *index = number,
        _ => *value = ValueRef::Integer(number),
    }
}

/// Sets `value` to a Counter32.
#[inline(always)]
fn set_counter32(value: &mut ValueRef<'_>, number: u32)
    ensures { datum value.new ≡ counter32 number }
{
    match value {
        ValueRef::Counter32(index) => *index = number,
        _ => *value = ValueRef::Counter32(number),
    }
}

/// Sets `value` to a Gauge32.
#[inline(always)]
fn set_gauge32(value: &mut ValueRef<'_>, number: u32)
    ensures { datum value.new ≡ gauge32 number }
{
    match value {
        ValueRef::Gauge32(index) => *index = number,
        _ => *value = ValueRef::Gauge32(number),
    }
}

/// Sets `value` to a TimeTicks.
#[inline(always)]
fn set_time_ticks(value: &mut ValueRef<'_>, number: u32)
    ensures { datum value.new ≡ time_ticks number }
{
    match value {
        ValueRef::TimeTicks(index) => *index = number,
        _ => *value = ValueRef::TimeTicks(number),
    }
}

/// Sets `value` to a Counter64.
#[inline(always)]
fn set_counter64(value: &mut ValueRef<'_>, number: u64)
    ensures { datum value.new ≡ counter64 number }
{
    match value {
        ValueRef::Counter64(index) => *index = number,
        _ => *value = ValueRef::Counter64(number),
    }
}

/// Sets `value` to an OCTET STRING.
#[inline(always)]
fn set_octets<'a>(value: &mut ValueRef<'a>, octets: &'a [u8])
    ensures { datum value.new ≡ octet_string octets.now }
{
    match value {
        ValueRef::Octets(index) => *index = octets,
        _ => *value = ValueRef::Octets(octets),
    }
}

/// Reads the octets or the identifier that `text` represents. Returns `None` if it isn't a value
/// of the tag's type. The caller must pass a tag whose values need memory of their own.
pub fn read_kept<F: LineFormat>(
    alloc: Global,
    format: &F,
    tag: Tag,
    text: &[u8],
) -> Result<Option<RowText>, AllocError>
    requires { TakesMemory tag }
    ensures { IfOk result (λ value. IsOnly
        (IsValueText (F.format format.now) (tag_text tag) text.now) (option_map datum_of value)) }
{
    match tag {
        Tag::HexOctetString => Ok(hexadecimal(alloc, text)?.map(RowText::Octets)),
        Tag::ObjectId => Ok(object_id(alloc, format, text)?.map(RowText::ObjectId)),
        Tag::HexOpaque => Ok(hexadecimal(alloc, text)?.map(RowText::Opaque)),
        _ => unreachable!(),
    }
}

/// Sets `into` to the identifier with these numbers.
// `inline(never)`: inlined, its `Oid` would be zeroed for values of other types too.
#[inline(never)]
fn set_to_identifier(into: &mut ValueRef<'_>, numbers: &[u32])
    requires { length numbers.now ≤ 128 }
    ensures { datum into.new ≡ object_id numbers.now }
{
    match Oid::from_slice(numbers) {
        Ok(oid) => *into = ValueRef::ObjectId(oid),
        Err(_) => unreachable!(),
    }
}

/// Reads a number of 64 bits in decimal digits, with or without leading zeros.
fn decimal(text: &[u8]) -> Option<u64>
    ensures { IsOnly (λ n. IsDecimal text.now n × (n < 2 ^ 64)) result }
{
    if text.is_empty() {
        return None;
    }
    let mut number: u64 = 0;
    'digits: for octet in text {
        if !octet.is_ascii_digit() {
            return None;
        }
        number = number
            .checked_mul(10)?
            .checked_add(u64::from(*octet - b'0'))?;
    }
    Some(number)
}

/// Reads a number of 32 bits in decimal digits.
fn parse_u32(text: &[u8]) -> Option<u32>
    ensures { IsOnly (λ n. IsDecimal text.now n × (n < 2 ^ 32)) result }
{
    u32::try_from(decimal(text)?).ok()
}

/// Reads a signed number of 32 bits in decimal digits, with or without a minus sign before them.
fn parse_i32(text: &[u8]) -> Option<i32>
    ensures { IsOnly (λ z. IsSignedDecimal text.now z × FitsSigned w32 z) result }
{
    match text {
        [b'-', digits @ ..] => 0_i32.checked_sub_unsigned(parse_u32(digits)?),
        _ => i32::try_from(decimal(text)?).ok(),
    }
}

/// Reads four numbers of 8 bits with a dot between each two.
#[tactic(auto, using(crate::proofs::Decimals::no_dot_first))]
fn address(text: &[u8]) -> Option<[u8; 4]>
    ensures { IsOnly (IsAddressText text.now) result }
{
    if let [b'.', ..] = text {
        return None;
    }
    match parse_numeric(text).ok()?.as_slice() {
        [a @ 0..=255, b @ 0..=255, c @ 0..=255, d @ 0..=255] => {
            Some([*a as u8, *b as u8, *c as u8, *d as u8])
        }
        _ => None,
    }
}

/// Reads an identifier that has an encoding, and returns its numbers.
// `inline(never)`: inlined, its `Oid` would be zeroed for values of other types too.
#[inline(never)]
#[tactic(auto, using(std::proofs::lemmas::Grind::common_steps))]
fn object_id<F: LineFormat>(
    alloc: Global,
    format: &F,
    text: &[u8],
) -> Result<Option<Vec<u32>>, AllocError>
    ensures { IfOk result (λ numbers. IsOnly (λ o. IsNameIn (F.format format.now) text.now o
        × IsWire o) (option_map (λ v. v.items) numbers)) }
{
    let mut oid = Oid::new();
    if !format.name(text, &mut oid) || !oid.is_wire() {
        return Ok(None);
    }
    Ok(Some(Vec::from_slice(alloc, oid.as_slice())?))
}

/// Reads the octets that pairs of hexadecimal digits encode. Returns `None` if `text` isn't such
/// pairs, or there are more than `LONGEST_STRING`.
fn hexadecimal(alloc: Global, text: &[u8]) -> Result<Option<Vec<u8>>, AllocError>
    ensures { IfOk result (λ octets. IsOnly (λ s. (decode_of text.now ≡ Ok s)
        × IsTableString s) (option_map (λ v. v.items) octets)) }
{
    if text.len() > 2 * LONGEST_STRING {
        return Ok(None);
    }
    match hex::decode(alloc, text) {
        Ok(octets) => Ok(Some(octets)),
        Err(FromHexError::OutOfMemory) => Err(AllocError),
        Err(_) => Ok(None),
    }
}
