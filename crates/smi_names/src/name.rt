//! Names as the keys of maps, borrowed and owned.
//!
//! A key passes its octets to the hasher in one write, so that they are hashed eight at a time. A
//! list of octets as a key would pass them one by one.
ghost use Rattle.std.specs.{Prelude.◌≡◌, Prelude.IfOk, Str.bytes_eq, Cmp.partial_equiv_from_equiv};
ghost use Rattle.std.specs.Cmp.Lexicographic.{bytes_decides, nat_list_eq_equiv};
ghost use Rattle.std.proofs.Common.{ap};
ghost use Rattle.smi_names.specs.Name.{name_writes};

use indexmap::Equivalent;
use smi_text::Text;
use std::alloc::{AllocError, Global};
use std::hash::{Hash, Hasher};
use std::marker::Model;

/// A name in modules, which borrows its octets. Names are equal if their octets are.
///
/// A map that has [`NameBuf`]s as keys can be searched by a `&NameRef`.
#[derive(Drop)]
pub struct NameRef<'a> {
    octets: &'a [u8],
}

impl<'a> Model for NameRef<'a> {
    ghost use Rattle.std.specs.Prelude.{List, ℕ};

    ghost Value = { List ℕ };

    ghost view = { λ n. n.octets.now };
}

impl<'a> NameRef<'a> {
    /// Returns the name of these octets.
    pub fn new(octets: &'a [u8]) -> NameRef<'a>
        ensures { result ≡ octets.now }
    {
        NameRef { octets }
    }

    /// Returns the octets.
    pub fn as_bytes(&self) -> &'a [u8]
        ensures { result.now ≡ self.now }
    {
        self.octets
    }
}

impl<'a> PartialEq for NameRef<'a> {
    ghost eq = { bytes_eq };

    ghost laws = { partial_equiv_from_equiv nat_list_eq_equiv };

    fn eq(&self, other: &NameRef<'a>) -> bool {
        self.as_bytes() == other.as_bytes()
    }
}

impl<'a> Eq for NameRef<'a> {
    ghost laws = { nat_list_eq_equiv };
}

impl<'a> Hash for NameRef<'a> {
    ghost hash_input = { name_writes };

    ghost respects_eq = { λ x y same. ap name_writes ((bytes_decides x y).0 same) };

    fn hash<H: Hasher>(&self, state: &mut H) {
        state.write(self.as_bytes());
    }
}

/// A name in modules, which owns its octets. Names are equal if their octets are.
#[derive(Drop)]
pub struct NameBuf {
    octets: Text,
}

impl Model for NameBuf {
    ghost use Rattle.std.specs.Prelude.{List, ℕ};

    ghost Value = { List ℕ };

    ghost view = { λ n. n.octets };
}

impl NameBuf {
    /// Returns the name of these octets, which are copied.
    pub fn new(alloc: Global, octets: &[u8]) -> Result<NameBuf, AllocError>
        ensures { IfOk result (λ name. name ≡ octets.now) }
    {
        let octets = Text::from_slice(alloc, octets)?;
        Ok(NameBuf { octets })
    }

    /// Returns the octets.
    pub fn as_bytes(&self) -> &[u8]
        ensures { result.now ≡ self.now }
    {
        self.octets.as_bytes()
    }
}

impl PartialEq for NameBuf {
    ghost eq = { bytes_eq };

    ghost laws = { partial_equiv_from_equiv nat_list_eq_equiv };

    fn eq(&self, other: &NameBuf) -> bool {
        self.as_bytes() == other.as_bytes()
    }
}

impl Eq for NameBuf {
    ghost laws = { nat_list_eq_equiv };
}

impl Hash for NameBuf {
    ghost hash_input = { name_writes };

    ghost respects_eq = { λ x y same. ap name_writes ((bytes_decides x y).0 same) };

    fn hash<H: Hasher>(&self, state: &mut H) {
        state.write(self.as_bytes());
    }
}

impl<'a> Equivalent<NameBuf> for &NameRef<'a> {
    ghost equivalent = { λ q. bytes_eq q.now };

    ghost respects_hash = { λ q k same. ap name_writes ((bytes_decides q.now k).0 same) };

    ghost respects_eq = { λ q x y. nat_list_eq_equiv.congr q.now x y };

    fn equivalent(&self, key: &NameBuf) -> bool {
        (*self).as_bytes() == key.as_bytes()
    }
}
