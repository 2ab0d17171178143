//! A variable binding, and the list of the bindings of a message.
ghost use Rattle.std.specs.Prelude.{◌≡◌, ℕ, List, [], ◌∷◌, true, false, length, IsOk, Ok, ◌+◌, ◌^◌};
ghost use Rattle.std.specs.Prelude.{◌<◌, ◌≤◌, ◌↔◌, ◌++◌, drop, IfSome, IfNone, IsSome, ⊤};
ghost use Rattle.snmp_wire.specs.{Message.var_bind, ber.Decode.AgreesBy, ber.Decode.checked};
ghost use Rattle.snmp_wire.specs.{ber.Canon.canon_value, ber.Spelling.value_tag};
ghost use Rattle.snmp_wire.specs.ber.Writing.{Writes};
ghost use Rattle.snmp_wire.specs.ber.Value.{datum, null_value, object_id};
ghost use Rattle.snmp_wire.specs.Decode as reading;
ghost use Rattle.snmp_oid.specs.Identifier.{IsWire};
ghost use Rattle.snmp_wire.specs.{Canon.IsEncodable, Canon.canon_binding, Range.IsBindingInRange};

use crate::EncodedName;
use crate::ber::tag::{OBJECT_IDENTIFIER, SEQUENCE};
use crate::ber::{
    BerError, ValueRef, check_identifier, check_value, content_size, element_at, header_size,
    identifier_size, inner_at, push_identifier, put_header, put_identifier, put_short_header,
    put_value, read_value,
};
use snmp_oid::Oid;
use std::alloc::AllocError;
use std::marker::Model;

/// A variable binding (RFC 3416, section 3): the name of an instance, and its value.
#[derive(Debug, Drop, PartialEq)]
pub struct Binding<'a> {
    /// The name of the instance.
    pub name: Oid,
    /// The value, or an exception.
    pub value: ValueRef<'a>,
}

impl<'a> Binding<'a> {
    /// Returns the binding of the empty name and NULL, for [`Bindings::read_next`] to read into.
    #[inline]
    pub fn empty() -> Binding<'a>
        ensures { var_bind result ≡ record { name = []; value = null_value } }
    {
        Binding {
            name: Oid::new(),
            value: ValueRef::Null,
        }
    }
}

/// The bindings of a message that aren't read yet, in order. Their strings are borrowed from their
/// encoding.
#[derive(Debug, Drop)]
pub struct Bindings<'a> {
    rest: &'a [u8],
}

impl<'a> Model for Bindings<'a> {
    ghost use Rattle.std.specs.Prelude.{List, IsOk};
    ghost use Rattle.snmp_wire.specs.Message.{VarBind};
    ghost use Rattle.snmp_wire.specs.Decode as reading;

    ghost Value = { List VarBind };

    ghost view = { λ s. reading.bindings_in s.rest.now };

    ghost invariant = { λ s. IsOk (reading.bindings_of s.rest.now) };
}

impl<'a> Bindings<'a> {
    ghost use Rattle.std.specs.Prelude.{◌≡◌, [], ◌∷◌, true, false, IsOk, IfSome, IfNone};
    ghost use Rattle.snmp_wire.specs.Message.{var_bind};
    ghost use Rattle.snmp_wire.specs.Decode as reading;

    /// Returns the bindings that `octets` encode, one after the other. The octets must be known to
    /// be bindings.
    #[inline]
    pub(crate) fn new(octets: &'a [u8]) -> Bindings<'a>
        requires { IsOk (reading.bindings_of octets.now) }
        ensures { result ≡ reading.bindings_in octets.now }
    {
        Bindings { rest: octets }
    }

    /// Returns the remaining bindings as an iterator of their own.
    #[inline]
    pub fn remaining(&self) -> Bindings<'a>
        ensures { result ≡ self.now }
    {
        Bindings { rest: self.rest }
    }

    /// Reads the next binding into `into`, and returns whether there was one. If none is left,
    /// `into` is unchanged.
    ///
    /// This is [`Iterator::next`] for a caller that reads many bindings: a [`Binding`] has over a
    /// thousand octets, and here it isn't moved.
    pub fn read_next(&mut self, into: &mut Binding<'a>) -> bool
        // Bindings are read in order, and none is left out.
        ensures some { result ≡ true → self.old ≡ var_bind into.new ∷ self.new }
        ensures none { result ≡ false → (self.old ≡ []) × (self.new ≡ []) × (into.new ≡ into.old) }
    {
        if self.rest.is_empty() {
            return false;
        }
        // A binding with a length in the long form is read by another function, so that the fields
        // of all others stay in registers.
        let Some((fields, rest)) = short_fields_at(self.rest) else {
            self.rest = read_long(self.rest, into);
            return true;
        };
        self.rest = rest;
        read_binding(fields, into);
        true
    }

    /// Returns the next binding, without decoding its name or its value, or `None` if none is
    /// left.
    // `inline(always)`: agents and walks call it for each binding of a message.
    #[inline(always)]
    pub fn next_ref(&mut self) -> Option<BindingRef<'a>>
        ensures some { IfSome result (λ binding. self.old ≡ binding ∷ self.new) }
        ensures none { IfNone result ((self.old ≡ []) × (self.new ≡ [])) }
    {
        if self.rest.is_empty() {
            return None;
        }
        let (fields, rest) = fields_in(self.rest);
        self.rest = rest;
        Some(BindingRef { fields })
    }
}

impl<'a> Clone for Bindings<'a> {
    ghost is_clone = { λ bindings copy. copy ≡ bindings };

    // A clone allocates nothing.
    ghost is_infallible = { λ _. ⊤ };

    fn clone(&self) -> Result<Bindings<'a>, AllocError> {
        Ok(Bindings { rest: self.rest })
    }
}

impl<'a> Iterator for Bindings<'a> {
    ghost use Rattle.std.specs.Iterator.{YieldsFirstBy, item_count};
    ghost use Rattle.snmp_wire.specs.Message.{var_bind};

    type Item = Binding<'a>;

    ghost next_gives = { YieldsFirstBy var_bind (λ s. s) };

    ghost remaining = { item_count (λ s. s) };

    fn next(&mut self) -> Option<Binding<'a>> {
        let mut binding = Binding::empty();
        if self.read_next(&mut binding) {
            Some(binding)
        } else {
            None
        }
    }
}

/// A variable binding, borrowed from its encoding. Its name is compared as it is encoded, and only
/// [`BindingRef::read_into`] decodes its value.
#[derive(Drop)]
pub struct BindingRef<'a> {
    fields: Fields<'a>,
}

impl<'a> Model for BindingRef<'a> {
    ghost use Rattle.std.specs.Prelude.{IsOk};
    ghost use Rattle.snmp_wire.specs.Message.{VarBind};
    ghost use Rattle.snmp_wire.specs.Decode as reading;

    ghost Value = { VarBind };

    ghost view = { λ b. reading.binding_with (reading.fields b.fields) };

    ghost invariant = { λ b. IsOk (reading.binding_of (reading.fields b.fields)) };
}

impl<'a> BindingRef<'a> {
    /// Returns the name of the instance, as it is encoded.
    #[inline]
    pub fn name(&self) -> EncodedName<'a>
        ensures { result ≡ self.now.name }
    {
        EncodedName::of(self.fields.name)
    }

    /// Returns the tag of the value, or of the exception in place of one (RFC 3416, section 3).
    #[inline]
    pub fn tag(&self) -> u8
        ensures { result ≡ value_tag self.now.value }
    {
        self.fields.tag
    }

    /// Reads the binding into `into`.
    #[inline]
    pub fn read_into(&self, into: &mut Binding<'a>)
        ensures { var_bind into.new ≡ self.now }
    {
        read_binding(self.fields, into);
    }
}

/// The fields of an encoded binding, borrowed from the encoding.
#[derive(Clone, Copy)]
struct Fields<'a> {
    /// The content of the name.
    name: &'a [u8],
    /// The tag of the value.
    tag: u8,
    /// The content of the value.
    content: &'a [u8],
}

/// Checks that `octets` encode bindings, one after the other.
#[tactic(auto, using(crate::proofs::MessageLaws::checked_bindings))]
pub(crate) fn check_bindings(octets: &[u8]) -> Result<(), BerError>
    ensures { AgreesBy (λ u. u) result (checked (reading.bindings_of octets.now)) }
{
    let mut rest = octets;
    'bindings: while !rest.is_empty() {
        let (fields, after) = fields_at(rest)?;
        check_binding(fields)?;
        rest = after;
    }
    Ok(())
}

/// Returns the fields of the binding at the start of `octets`, and the octets after it.
/// Success says nothing of the contents of the name and the value.
// `inline(always)`: its single caller calls it for each binding that is checked.
#[inline(always)]
fn fields_at<'a>(octets: &'a [u8]) -> Result<(Fields<'a>, &'a [u8]), BerError>
    ensures { AgreesBy (λ x. (reading.fields x.0, x.1.now)) result (reading.fields_at octets.now) }
{
    match short_fields_at(octets) {
        Some(found) => Ok(found),
        None => any_fields_at(octets),
    }
}

/// Returns what [`fields_at`] returns if that succeeds and each of the three lengths has one
/// octet, as most do. Otherwise returns `None`.
// `inline(always)`: called for each binding that is checked or read. Inlined, its result stays in
// registers.
#[inline(always)]
fn short_fields_at<'a>(octets: &'a [u8]) -> Option<(Fields<'a>, &'a [u8])>
    ensures { IfSome result (λ x. reading.fields_at octets.now ≡ Ok (reading.fields x.0, x.1.now)) }
{
    match octets {
        [outer, size, inner, name_size, ..] => {
            if *outer != SEQUENCE || *inner != OBJECT_IDENTIFIER {
                return None;
            }
            let size = usize::from(*size);
            let name_size = usize::from(*name_size);
            let (_, elements) = octets.split_at(4);
            if size >= 0x80 || elements.len() + 2 < size || size < name_size + 4 {
                return None;
            }
            let (name, value) = elements.split_at(name_size);
            let value_size = usize::from(value[1]);
            if name_size + 4 + value_size != size {
                return None;
            }
            let tag = value[0];
            let (_, suffix) = value.split_at(2);
            let (content, rest) = suffix.split_at(value_size);
            Some((Fields { name, tag, content }, rest))
        }
        _ => None,
    }
}

/// Does what [`fields_at`] does, for lengths of any form.
#[tactic(auto, unfolding(crate::specs::Decode::fields_at))]
// `inline(always)`: called for each binding that has a length in the long form.
#[inline(always)]
fn any_fields_at<'a>(octets: &'a [u8]) -> Result<(Fields<'a>, &'a [u8]), BerError>
    ensures { AgreesBy (λ x. (reading.fields x.0, x.1.now)) result (reading.fields_at octets.now) }
{
    let (content, rest) = inner_at(SEQUENCE, octets)?;
    Ok((fields_of(content)?, rest))
}

/// Returns the fields of the binding with this content. Fails if octets are left over after the
/// value.
#[tactic(auto, unfolding(crate::specs::Decode::fields_of))]
// `inline(always)`: it has a single caller.
#[inline(always)]
fn fields_of<'a>(content: &'a [u8]) -> Result<Fields<'a>, BerError>
    ensures { AgreesBy reading.fields result (reading.fields_of content.now) }
{
    let (name, rest) = inner_at(OBJECT_IDENTIFIER, content)?;
    let (tag, content, rest) = element_at(rest)?;
    if !rest.is_empty() {
        return Err(left_over(tag, content));
    }
    Ok(Fields { name, tag, content })
}

/// Returns the fault of a binding with octets left over after its value, which has this tag and
/// content: the fault of the value, or [`BerError::Content`] if the value has none.
#[cold]
fn left_over(tag: u8, content: &[u8]) -> BerError
    ensures { result ≡ reading.left_over_after tag content.now }
{
    match check_value(tag, content) {
        Ok(()) => BerError::Content,
        Err(fault) => fault,
    }
}

/// Returns the fields of the first of the bindings that `octets` encode, and the octets after it.
/// The octets must be known to be bindings.
// `inline(always)`: its single caller is `next_ref`.
#[inline(always)]
fn fields_in<'a>(octets: &'a [u8]) -> (Fields<'a>, &'a [u8])
    requires some { 0 < length octets.now }
    requires bindings { IsOk (reading.bindings_of octets.now) }
    ensures { reading.fields_at octets.now ≡ Ok (reading.fields result.0, result.1.now) }
{
    match short_fields_at(octets) {
        Some(found) => found,
        None => long_fields_in(octets),
    }
}

/// Does what [`fields_in`] does, for lengths of any form.
#[cold]
fn long_fields_in<'a>(octets: &'a [u8]) -> (Fields<'a>, &'a [u8])
    requires some { 0 < length octets.now }
    requires bindings { IsOk (reading.bindings_of octets.now) }
    ensures { reading.fields_at octets.now ≡ Ok (reading.fields result.0, result.1.now) }
{
    match any_fields_at(octets) {
        Ok(found) => found,
        Err(_) => unreachable!(),
    }
}

/// Reads the first of the bindings that `octets` encode into `into`, and returns the octets after
/// it. The octets must be known to be bindings.
#[cold]
fn read_long<'a>(octets: &'a [u8], into: &mut Binding<'a>) -> &'a [u8]
    requires some { 0 < length octets.now }
    requires bindings { IsOk (reading.bindings_of octets.now) }
    ensures others { IsOk (reading.bindings_of result.now) }
    ensures read { reading.bindings_in octets.now
        ≡ var_bind into.new ∷ reading.bindings_in result.now }
{
    let (fields, rest) = long_fields_in(octets);
    read_binding(fields, into);
    rest
}

/// Reads the binding with these fields into `into`. The contents of the fields must have been
/// checked.
// `inline(always)`: called for each binding that is read.
#[inline(always)]
fn read_binding<'a>(fields: Fields<'a>, into: &mut Binding<'a>)
    requires { IsOk (reading.binding_of (reading.fields fields)) }
    ensures { reading.binding_of (reading.fields fields.entry) ≡ Ok (var_bind into.new) }
{
    read_value(fields.tag, fields.content, &mut into.value);
    into.name.clear();
    push_identifier(&mut into.name, fields.name);
}

/// Checks the contents of the name and the value.
#[tactic(auto, unfolding(crate::specs::Decode::binding_of))]
#[inline]
fn check_binding(fields: Fields<'_>) -> Result<(), BerError>
    ensures { AgreesBy (λ u. u) result
        (checked (reading.binding_of (reading.fields fields.entry))) }
{
    check_identifier(fields.name)?;
    check_value(fields.tag, fields.content)
}

/// Returns the length, in octets, of the shortest encoding of a binding.
///
/// Its name, and its value if that is an identifier, must have an encoding ([`Oid::is_wire`]), and
/// a string must have at most 65535 octets.
// `inline(always)`: called for each [`Binding`] that is encoded.
#[inline(always)]
pub fn binding_size(binding: &Binding<'_>) -> u64
    requires { IsEncodable (var_bind binding.now) }
    ensures value { result ≡ length (canon_binding (var_bind binding.now)) }
    ensures at_most_70000 { result ≤ 70000 }
    // The name and the value of a binding that can be written are within their ranges.
    ensures range { IsBindingInRange (var_bind binding.now) }
{
    pair_size(&binding.name, &binding.value)
}

/// Returns the length, in octets, of the shortest encoding of the binding of `name` and `value`.
// `inline(always)`: called for each binding that is encoded from a name and a value.
#[inline(always)]
pub(crate) fn pair_size(name: &Oid, value: &ValueRef<'_>) -> u64
    requires { IsEncodable (record { name = name.now; value = datum value.now }) }
    ensures value { result ≡ length (canon_binding (record {
      name = name.now;
      value = datum value.now;
    })) }
    ensures at_most_70000 { result ≤ 70000 }
    ensures range { IsBindingInRange (record { name = name.now; value = datum value.now }) }
{
    let name = identifier_size(name);
    let value = content_size(value);
    if name + value < 124 {
        // Short, as most bindings are: each of the three headers has two octets.
        return name + value + 6;
    }
    let content = header_size(name) + name + header_size(value) + value;
    header_size(content) + content
}

/// Writes the shortest encoding of a binding to the start of `out`, and returns its length. It
/// requires what [`binding_size`] requires.
///
/// Returns `None` if `out` is shorter than that; `out` is then unchanged.
pub fn encode_binding(binding: &Binding<'_>, out: &mut [u8]) -> Option<usize>
    requires { IsEncodable (var_bind binding.now) }
    // The octets of `out` after the binding are unchanged.
    ensures some { IfSome result (λ n.
        (n ≡ length (canon_binding (var_bind binding.now)))
        × (out.new ≡ canon_binding (var_bind binding.now) ++ drop n out.old)) }
    ensures variant { IsSome result
        ↔ (length (canon_binding (var_bind binding.now)) ≤ length out.old) }
    ensures unchanged { IfNone result (out.new ≡ out.old) }
    ensures range { IsBindingInRange (var_bind binding.now) }
{
    let size = binding_size(binding) as usize;
    if out.len() < size {
        return None;
    }
    put_binding(out, size, binding);
    Some(size)
}

/// Writes a binding before `end`, and returns its offset.
// `inline(always)`: called for each [`Binding`] that is encoded.
#[inline(always)]
pub(crate) fn put_binding(out: &mut [u8], end: usize, binding: &Binding<'_>) -> usize
    requires encodable { IsEncodable (var_bind binding.now) }
    requires room { length (canon_binding (var_bind binding.now)) ≤ end }
    requires within { end ≤ length out.old }
    ensures { Writes out.old result end (canon_binding (var_bind binding.now)) out.new }
{
    put_pair(out, end, &binding.name, &binding.value)
}

/// Writes the binding of `name` and `value` before `end`, and returns its offset.
// `inline(always)`: called for each binding that is encoded from a name and a value.
#[inline(always)]
pub(crate) fn put_pair(out: &mut [u8], end: usize, name: &Oid, value: &ValueRef<'_>) -> usize
    requires encodable { IsEncodable (record { name = name.now; value = datum value.now }) }
    requires room { length (canon_binding (record {
      name = name.now;
      value = datum value.now;
    })) ≤ end }
    requires within { end ≤ length out.old }
    ensures { Writes out.old result end
        (canon_binding (record { name = name.now; value = datum value.now })) out.new }
{
    let value = put_value(out, end, value);
    let content = put_identifier(out, value, name);
    if end - content < 126 {
        // Short, as most bindings are: each header has two octets.
        let name = put_short_header(out, content, OBJECT_IDENTIFIER, (value - content) as u64);
        return put_short_header(out, name, SEQUENCE, (end - name) as u64);
    }
    let name = put_header(out, content, OBJECT_IDENTIFIER, (value - content) as u64);
    put_header(out, name, SEQUENCE, (end - name) as u64)
}
