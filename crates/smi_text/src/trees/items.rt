//! The lists and texts that a module tree owns. Contracts see them as lists.
ghost use Rattle.std.specs.Prelude.{◌≡◌, length, IfOk};

use arrayvec::ArrayVec;
use std::alloc::{AllocError, Global};
use std::marker::Model;

/// The octets of a text. Up to 24 octets are stored inline; most names and numbers have no more.
#[derive(Drop, Debug)]
enum Octets {
    /// Up to 24 octets, inline.
    Few(ArrayVec<u8, 24>),
    /// Any number of octets, on the heap.
    Many(Vec<u8>),
}

/// An owned text of the module: its octets, unchanged.
#[derive(Debug)]
pub struct Text {
    octets: Octets,
}

// Written by hand, so that an owner of texts drops each by a call. A derived `drop` is inlined
// wherever an owner's scope ends, with a branch for each variant.
impl Drop for Text {
    fn drop(self) {
        let Text { octets: _octets } = self;
    }
}

impl Model for Text {
    ghost use Rattle.std.specs.Prelude.{List, ℕ};

    ghost Value = { List ℕ };

    ghost use Rattle.smi_text.specs.trees.Octets.{octets_of};

    ghost view = { λ t. octets_of t.octets };
}

impl Text {
    /// Returns the text of `octets`, which are copied.
    pub fn from_slice(alloc: Global, octets: &[u8]) -> Result<Text, AllocError>
        ensures { IfOk result (λ text. text ≡ octets.now) }
    {
        let octets = match ArrayVec::try_from(octets) {
            Ok(few) => Octets::Few(few),
            Err(_) => Octets::Many(Vec::from_slice(alloc, octets)?),
        };
        Ok(Text { octets })
    }

    /// Returns the octets.
    pub fn as_bytes(&self) -> &[u8]
        ensures { result.now ≡ self.now }
    {
        match &self.octets {
            Octets::Few(few) => few.as_slice(),
            Octets::Many(many) => many.as_slice(),
        }
    }

    /// Returns the octets as a `Vec`: the one that stores them, or a copy if they are at most 24.
    pub fn into_vec(self, alloc: Global) -> Result<Vec<u8>, AllocError>
        ensures { IfOk result (λ octets. octets.items ≡ self) }
    {
        let Text { octets } = self;
        match octets {
            Octets::Few(few) => Vec::from_slice(alloc, few.as_slice()),
            Octets::Many(many) => Ok(many),
        }
    }
}

/// A list of parts of a module tree, in the order of the text.
#[derive(Debug)]
pub struct Items<T> {
    items: Vec<T>,
}

// Written by hand, for the same reason as the `drop` of `Text`.
impl<T: Drop> Drop for Items<T> {
    fn drop(self) {
        let Items { items: _items } = self;
    }
}

impl<T> Model for Items<T> {
    ghost use Rattle.std.specs.Prelude.{List};

    ghost Value = { List T };

    ghost view = { λ s. s.items.items };
}

impl<T> Items<T> {
    /// Returns the list of `items`.
    pub fn new(items: Vec<T>) -> Items<T>
        ensures { result ≡ items.items }
    {
        Items { items }
    }

    /// Returns the parts as a `Vec`, without allocating.
    pub fn into_vec(self) -> Vec<T>
        ensures { result.items ≡ self }
    {
        let Items { items } = self;
        items
    }

    /// Returns the parts as a slice.
    pub fn as_slice(&self) -> &[T]
        ensures { result.now ≡ self.now }
    {
        &self.items
    }

    /// Returns the number of parts.
    pub fn len(&self) -> usize
        ensures { result ≡ length self.now }
    {
        self.items.len()
    }
}
