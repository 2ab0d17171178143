//! How names are hashed.
ghost use Rattle.std.specs.Prelude.{◌≡◌, MatchOption};
ghost use Rattle.smi_names.specs.Hash.{hasher_by};
ghost use Rattle.smi_names.specs.declared.hash.NameHash.TheVariants as by;

use std::hash::{BuildHasher, DefaultHasher, RandomState};

/// How the maps of names hash them: by SipHash-1-3, with a key from the system or with a fixed one.
///
/// Names come from files that others wrote. Someone who doesn't know the key can't choose names
/// that all have one hash.
#[derive(Clone, Copy, Debug)]
pub enum NameHash {
    /// With a key from the system.
    Keyed(RandomState),
    /// With the key 0: for a run that is to be repeated, or if the system provides no key.
    Fixed,
}

impl NameHash {
    /// Returns `Keyed` with this key, or `Fixed` if there is none.
    pub fn of_key(key: Option<RandomState>) -> NameHash
        ensures { MatchOption key (result ≡ by.Fixed) (λ key. result ≡ by.Keyed key) }
    {
        match key {
            Some(key) => NameHash::Keyed(key),
            None => NameHash::Fixed,
        }
    }
}

impl BuildHasher for NameHash {
    type Hasher = DefaultHasher;

    ghost build_hasher = { hasher_by };

    fn build_hasher(&self) -> DefaultHasher {
        match self {
            NameHash::Keyed(key) => key.build_hasher(),
            NameHash::Fixed => DefaultHasher::new(),
        }
    }
}
