//! An object identifier of up to 128 numbers, which are stored in the value itself.
ghost use Rattle.std.specs.Prelude.{◌≡◌, ℕ, ◌+◌, ◌<◌, ◌≤◌, ◌↔◌, List, [], ◌∷◌, ◌++◌, length};
ghost use Rattle.std.specs.Prelude.{IsTrue, IsOk, IfOk, IfErr, OnOk, OnErr, Some, ⊤, refl, take};
ghost use Rattle.std.specs.Prelude.{true, get_or, ◌⊎◌};
ghost use Rattle.std.proofs.Common.{rules};
ghost use Rattle.std.specs.{Ordering.nat_cmp, Cmp.partial_equiv_from_equiv, Cmp.Rules.hashing};
ghost use Rattle.std.specs.{Bool.nat_eq, declared.cmp.Ordering.Ordering};
ghost use Rattle.std.specs.Hash as fed;
ghost use Rattle.std.specs.Cmp.Lexicographic.{pointwise, slice_cmp, nat_list_eq_equiv};
ghost use Rattle.std.specs.Cmp.Lexicographic.{nat_list_cmp_total, texts_ties, texts_po};
ghost use Rattle.snmp_oid.specs.Identifier.{IsBelow, IsIdentifier, IsWire, Precedes, rank, wire};

use arrayvec::ArrayVec;
use std::alloc::AllocError;
use std::cmp::Ordering;
use std::fmt;
use std::hash::{Hash, Hasher};
use std::marker::Model;
use thiserror::Error;

/// The most numbers that an identifier can hold (RFC 2578, section 3.5).
pub const MAX_LEN: usize = 128;

/// Why an identifier can't be made.
#[derive(Clone, Copy, Debug, PartialEq, Eq, Error)]
pub enum OidError {
    /// The identifier would have more than 128 numbers.
    #[error("an object identifier has at most 128 numbers")]
    TooLong,
    /// The identifier has no encoding in a message: X.690 (8.19.4) requires at least two numbers,
    /// the first from 0 to 2, and the second from 0 to 39 if the first is 0 or 1.
    #[error("the object identifier has no encoding")]
    NotWire,
}

/// An object identifier: 0 to 128 numbers of 32 bits (RFC 2578, section 3.5).
///
/// Identifiers compare by their numbers from the left, and a proper prefix comes first (RFC 3416,
/// section 4.2.2); [`order`] says this of `==` and `<`. [`Oid::copy`] copies one without
/// allocating.
#[derive(Drop)]
pub struct Oid {
    numbers: ArrayVec<u32, 128>,
}

impl Model for Oid {
    ghost Value = { List ℕ };

    ghost view = { λ o. o.numbers.items };
}

impl Oid {
    /// Returns the identifier without numbers.
    pub fn new() -> Oid
        ensures { result ≡ [] }
    {
        Oid {
            numbers: ArrayVec::new(),
        }
    }

    /// Returns the identifier of `numbers`. Fails with `TooLong` if there are more than 128.
    pub fn from_slice(numbers: &[u32]) -> Result<Oid, OidError>
        ensures ok { IfOk result (λ o. o ≡ numbers.now) }
        ensures variant { IsOk result ↔ (length numbers.now ≤ 128) }
        ensures err { IfErr result (λ e. e ≡ OidError.TooLong) }
    {
        let numbers = ArrayVec::try_from(numbers).map_err(|_| OidError::TooLong)?;
        Ok(Oid { numbers })
    }

    /// Returns a copy of the identifier. It allocates nothing and can't fail, so that a caller has
    /// no error to handle as after [`Clone::clone`].
    #[inline]
    pub fn copy(&self) -> Oid
        ensures { result ≡ self.now }
    {
        let mut copy = Oid::new();
        copy.set_to(self);
        copy
    }

    /// Sets the identifier to the numbers of `other`, in place.
    #[inline]
    pub fn set_to(&mut self, other: &Oid)
        ensures { self.new ≡ other.now }
    {
        self.set_to_numbers(other.as_slice());
    }

    /// Sets the identifier to `numbers`, in place. The caller must pass at most 128.
    #[inline]
    pub fn set_to_numbers(&mut self, numbers: &[u32])
        requires { length numbers.now ≤ 128 }
        ensures { self.new ≡ numbers.now }
    {
        // If the length stays the same, only the numbers change.
        if self.len() == numbers.len() {
            self.numbers.as_mut_slice().copy_from_slice(numbers);
            return;
        }
        self.clear();
        if self.extend_from_slice(numbers).is_err() {
            unreachable!()
        }
    }

    /// Appends `number`. Fails with `TooLong`, and leaves the identifier unchanged, if it has 128
    /// numbers already.
    #[inline]
    pub fn push(&mut self, number: u32) -> Result<(), OidError>
        ensures ok { OnOk result (self.new ≡ self.old ++ number ∷ []) }
        ensures variant { IsOk result ↔ (length self.old < 128) }
        ensures err { IfErr result (λ e. e ≡ OidError.TooLong) }
        ensures unchanged_on_error { OnErr result (self.new ≡ self.old) }
    {
        if self.numbers.is_full() {
            return Err(OidError::TooLong);
        }
        self.push_with_room(number);
        Ok(())
    }

    /// Appends `number` without a test. The identifier must have fewer than 128 numbers.
    #[inline]
    pub fn push_with_room(&mut self, number: u32)
        requires { length self.old < 128 }
        ensures { self.new ≡ self.old ++ number ∷ [] }
    {
        self.numbers.push(number);
    }

    /// Appends `numbers`. Fails with `TooLong`, and leaves the identifier unchanged, if it would
    /// have more than 128 numbers.
    #[inline]
    pub fn extend_from_slice(&mut self, numbers: &[u32]) -> Result<(), OidError>
        ensures ok { OnOk result (self.new ≡ self.old ++ numbers.now) }
        ensures variant { IsOk result ↔ (length self.old + length numbers.now ≤ 128) }
        ensures err { IfErr result (λ e. e ≡ OidError.TooLong) }
        ensures unchanged_on_error { OnErr result (self.new ≡ self.old) }
    {
        self.numbers
            .try_extend_from_slice(numbers)
            .map_err(|_| OidError::TooLong)
    }

    /// Removes all numbers.
    #[inline]
    pub fn clear(&mut self)
        ensures { self.new ≡ [] }
    {
        self.numbers.clear();
    }

    /// Returns the numbers, from the left.
    #[inline]
    pub fn as_slice(&self) -> &[u32]
        ensures value { result.now ≡ self.now }
        ensures at_most_128 { length self.now ≤ 128 }
        ensures is_identifier { IsIdentifier self.now }
    {
        let numbers = self.numbers.as_slice();
        numbers
    }

    /// Returns how many numbers the identifier has, 0 to 128.
    #[inline]
    pub fn len(&self) -> usize
        ensures value { result ≡ length self.now }
        ensures at_most_128 { length self.now ≤ 128 }
    {
        self.numbers.len()
    }

    /// Returns whether the identifier has no numbers.
    pub fn is_empty(&self) -> bool
        ensures { IsTrue result ↔ (self.now ≡ []) }
    {
        self.numbers.is_empty()
    }

    /// Returns whether the identifier begins with `root` and is longer.
    pub fn is_below(&self, root: &Oid) -> bool
        ensures { IsTrue result ↔ IsBelow self.now root.now }
    {
        self.is_below_numbers(root.as_slice())
    }

    /// Returns whether the identifier begins with the numbers `root` and is longer.
    #[tactic(auto, using(std::proofs::lemmas::Grind::common_steps, crate::proofs::Identifiers::prefixes))]
    pub fn is_below_numbers(&self, root: &[u32]) -> bool
        ensures { IsTrue result ↔ IsBelow self.now root.now }
    {
        self.len() > root.len() && compare_numbers(&self.as_slice()[..root.len()], root).is_eq()
    }

    /// Returns whether the identifier has an encoding (X.690, 8.19.4): at least two numbers, the
    /// first from 0 to 2, and the second below 40 if the first is 0 or 1.
    pub fn is_wire(&self) -> bool
        ensures { IsTrue result ↔ IsWire self.now }
    {
        match self.as_slice() {
            [first, second, ..] => *first <= 2 && (*first == 2 || *second < 40),
            _ => false,
        }
    }

    /// Returns the identifier, padded with zeros to two numbers if it has fewer. Fails with
    /// `NotWire` if the result would have no encoding.
    pub fn to_wire(&self) -> Result<Oid, OidError>
        ensures ok { IfOk result (λ o. o ≡ wire self.now) }
        ensures variant { IsOk result ↔ IsWire (wire self.now) }
        ensures err { IfErr result (λ e. e ≡ OidError.NotWire) }
    {
        let padded = self.pad_to_wire();
        if padded.is_wire() {
            Ok(padded)
        } else {
            Err(OidError::NotWire)
        }
    }

    /// Returns the identifier, padded with zeros to two numbers if it has fewer.
    fn pad_to_wire(&self) -> Oid
        ensures { result ≡ wire self.now }
    {
        let made = match self.as_slice() {
            [] => Oid::from_slice(&[0, 0]),
            [first] => Oid::from_slice(&[*first, 0]),
            numbers => Oid::from_slice(numbers),
        };
        match made {
            Ok(oid) => oid,
            Err(_) => unreachable!(),
        }
    }
}

/// `<`, `==` and `cmp` of identifiers follow the standard's order: a proper prefix comes first,
/// otherwise the identifier with the smaller number at the first difference (RFC 3416, section
/// 4.2.2). Two are equal if and only if they have the same numbers.
///
/// A law: the call does nothing, and its caller may use what it ensures.
#[inline]
#[tactic(auto, using(crate::proofs::Identifiers::ordered_less, crate::proofs::Identifiers::ordered_equal, crate::proofs::Identifiers::ordered_greater))]
pub fn order()
    ensures less { (o p : List ℕ) → (⟦<Oid as Ord>⟧.cmp o p ≡ Ordering.Less) ↔ Precedes o p }
    ensures equal { (o p : List ℕ) → (⟦<Oid as Ord>⟧.cmp o p ≡ Ordering.Equal) ↔ (o ≡ p) }
    ensures greater { (o p : List ℕ) → (⟦<Oid as Ord>⟧.cmp o p ≡ Ordering.Greater) ↔ Precedes p o }
    ensures equality { (o p : List ℕ) → IsTrue (⟦<Oid as PartialEq>⟧.eq o p) ↔ (o ≡ p) }
{}

/// Returns how identifiers of the numbers `o` and `p` compare ([`order`]). Tests without a loop
/// whether both begin with the same eight numbers, as most names of one table do.
#[inline]
#[tactic(auto, using(crate::proofs::Comparisons::first_decides, crate::proofs::Comparisons::one_more_alike, crate::proofs::Comparisons::longer_after))]
pub fn compare_numbers(o: &[u32], p: &[u32]) -> Ordering
    ensures { result ≡ slice_cmp nat_cmp o.now p.now }
{
    let both = o.len().min(p.len());
    let start = if begin_alike(o, p) { 8 } else { 0 };
    'numbers: for i in start..both {
        if o[i] != p[i] {
            return o[i].cmp(&p[i]);
        }
    }
    o.len().cmp(&p.len())
}

/// Returns whether `o` and `p` begin with the same eight numbers.
// `inline(always)`: a call would cost as much as the body.
#[inline(always)]
#[tactic(auto, using(crate::proofs::Comparisons::eight_alike))]
fn begin_alike(o: &[u32], p: &[u32]) -> bool
    ensures { result ≡ true → (8 ≤ length o.now) × (8 ≤ length p.now)
        × (take 8 o.now ≡ take 8 p.now) }
{
    if o.len() < 8 || p.len() < 8 {
        return false;
    }
    if are_same_four(o, p, 0) {
        return are_same_four(o, p, 4);
    }
    false
}

/// Returns whether `o` and `p` have the same four numbers from index `from` on.
// `inline(always)`: a call would cost as much as the body.
#[inline(always)]
fn are_same_four(o: &[u32], p: &[u32], from: usize) -> bool
    requires { (from + 4 ≤ length o.now) × (from + 4 ≤ length p.now) }
    ensures { result ≡ true
        → (get_or o.now from 0 ≡ get_or p.now from 0)
        × (get_or o.now (from + 1) 0 ≡ get_or p.now (from + 1) 0)
        × (get_or o.now (from + 2) 0 ≡ get_or p.now (from + 2) 0)
        × (get_or o.now (from + 3) 0 ≡ get_or p.now (from + 3) 0) }
{
    o[from] == p[from]
        && o[from + 1] == p[from + 1]
        && o[from + 2] == p[from + 2]
        && o[from + 3] == p[from + 3]
}

/// `Precedes` is a strict total order: no two identifiers precede each other; what precedes an
/// identifier precedes all that follow it; and of two that differ, one precedes the other.
///
/// A law: the call does nothing, and its caller may use what it ensures.
#[inline]
pub fn strict_order()
    ensures asymmetric { (o p : List ℕ) → Precedes o p → Precedes p o → ⊥ }
    ensures transitive { (o p q : List ℕ) → Precedes o p → Precedes p q → Precedes o q }
    ensures total { (o p : List ℕ) → Precedes o p ⊎ ((o ≡ p) ⊎ Precedes p o) }
{}

/// One identifier precedes another if and only if its rank is smaller. A rank is a number of 128
/// digits to the base 2^32 + 1.
///
/// A law: the call does nothing, and its caller may use what it ensures.
#[inline]
pub fn ranks()
    ensures { (o p : List ℕ) → IsIdentifier o → IsIdentifier p → Precedes o p ↔ (rank o < rank p) }
{}

impl Default for Oid {
    ghost is_default = { λ o. o ≡ [] };

    fn default() -> Oid {
        Oid::new()
    }
}

impl Clone for Oid {
    ghost is_clone = { λ oid copy. copy ≡ oid };

    // Nothing is allocated.
    ghost is_infallible = { λ _. ⊤ };

    fn clone(&self) -> Result<Oid, AllocError> {
        Ok(self.copy())
    }
}

impl PartialEq for Oid {
    ghost eq = { λ o p. pointwise nat_eq o p };

    ghost laws = { partial_equiv_from_equiv nat_list_eq_equiv };

    fn eq(&self, other: &Oid) -> bool {
        self.as_slice() == other.as_slice()
    }
}

impl Eq for Oid {
    ghost laws = { nat_list_eq_equiv };
}

impl PartialOrd for Oid {
    ghost partial_cmp = { λ o p. Some (slice_cmp nat_cmp o p) };

    ghost laws = { texts_po };

    fn partial_cmp(&self, other: &Oid) -> Option<Ordering> {
        Some(self.cmp(other))
    }
}

impl Ord for Oid {
    ghost cmp = { λ o p. slice_cmp nat_cmp o p };

    ghost total = { nat_list_cmp_total };

    ghost matches_partial_cmp = { λ o p. refl };

    ghost matches_eq = { texts_ties };

    fn cmp(&self, other: &Oid) -> Ordering {
        compare_numbers(self.as_slice(), other.as_slice())
    }
}

impl Hash for Oid {
    ghost hash_input = { λ o. fed.slice fed.u32 o };

    ghost respects_eq = { Prim.search (hashing, rules) };

    fn hash<H: Hasher>(&self, state: &mut H) {
        self.as_slice().hash(state);
    }
}

impl fmt::Debug for Oid {
    fn fmt<W: fmt::Write>(&self, f: &mut fmt::Formatter<W>) -> fmt::Result {
        f.debug_list().entries(self.as_slice()).finish()
    }
}
