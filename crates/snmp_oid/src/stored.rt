//! An object identifier for lists of many identifiers.
ghost use Rattle.std.specs.Prelude.{◌≡◌, ◌+◌, ◌≤◌, ◌++◌, length, IfOk};
ghost use Rattle.snmp_oid.specs.Identifier.{IsIdentifier};

use crate::Oid;
use smallvec::SmallVec;
use std::alloc::{AllocError, Global};
use std::marker::Model;

/// An object identifier that takes little memory. Up to 14 numbers are stored in the value itself;
/// most identifiers in modules have no more. Others are on the heap. An [`Oid`] always takes memory
/// for 128.
#[derive(Debug, Drop)]
pub struct StoredOid {
    numbers: SmallVec<u32, 14>,
}

impl Model for StoredOid {
    ghost use Rattle.std.specs.Prelude.{◌≤◌, ℕ, List, length};

    ghost Value = { List ℕ };

    ghost view = { λ o. o.numbers.items };

    ghost invariant = { λ o. length o.numbers.items ≤ 128 };
}

impl StoredOid {
    /// Stores the numbers of `prefix` and then the numbers of `suffix`. The caller must pass at
    /// most 128 together. Fails if memory runs out.
    pub fn join(alloc: Global, prefix: &[u32], suffix: &[u32]) -> Result<StoredOid, AllocError>
        requires { length prefix.now + length suffix.now ≤ 128 }
        ensures { IfOk result (λ o. o ≡ prefix.now ++ suffix.now) }
    {
        let mut numbers = SmallVec::with_capacity(alloc, prefix.len() + suffix.len())?;
        numbers.extend_from_slice(prefix)?;
        numbers.extend_from_slice(suffix)?;
        Ok(StoredOid { numbers })
    }

    /// Stores a copy of the identifier. Fails if memory runs out.
    pub fn copy(&self, alloc: Global) -> Result<StoredOid, AllocError>
        ensures { IfOk result (λ o. o ≡ self.now) }
    {
        let numbers = SmallVec::from_slice(alloc, self.as_slice())?;
        Ok(StoredOid { numbers })
    }

    /// Returns the numbers, from the left.
    #[inline]
    pub fn as_slice(&self) -> &[u32]
        ensures value { result.now ≡ self.now }
        ensures at_most_128 { length self.now ≤ 128 }
        ensures is_identifier { IsIdentifier self.now }
    {
        let numbers = self.numbers.as_slice();
        numbers
    }

    /// Returns the identifier as an `Oid`. Allocates nothing.
    pub fn to_oid(&self) -> Oid
        ensures { result ≡ self.now }
    {
        let mut oid = Oid::new();
        oid.set_to_numbers(self.as_slice());
        oid
    }
}
