//! How names are hashed: by a key, and without one by the fixed key 0.
//! The expected hashes follow the description of SipHash-1-3 by its authors.

use crate::reading::{TINY, modules_of};
use smi_names::NameHash;
use smi_tree::Tree;
use std::alloc::Global;
use std::hash::{BuildHasher, Hasher, RandomState};
use std::io;
use std::process::Abort;
use std::random::RandomSource;
use std::test::Fail;

/// A source of random octets, which are all 7.
#[derive(Drop)]
struct Sevens;

impl RandomSource for Sevens {
    fn fill_bytes(&self, octets: &mut [u8]) -> io::Result<()> {
        octets.fill(7);
        Ok(())
    }
}

/// Returns the hash by the key whose octets are all 7.
fn key_of_sevens() -> NameHash {
    NameHash::of_key(RandomState::new(&Sevens).ok())
}

/// Returns the hash of `name`.
fn hash_of(hash: NameHash, name: &str) -> u64 {
    let mut hasher = hash.build_hasher();
    hasher.write(name.as_bytes());
    hasher.finish()
}

/// Names with their hashes by the key whose octets are all 7, and by the key 0.
static HASHES: [(&str, u64, u64); 3] = [
    ("ifIndex", 495264352449682453, 12201732642264199691),
    ("sysDescr", 15659982987182337853, 10910878041153362845),
    ("abcdefghi", 11400740864904809028, 17913969820989044453),
];

#[test]
fn names_are_hashed_by_the_key(rt: HostRuntime) {
    for (name, keyed, _) in &HASHES {
        assert_eq!(rt; hash_of(key_of_sevens(), name), *keyed, "{name}");
    }
}

#[test]
fn without_a_key_names_are_hashed_by_the_fixed_key(rt: HostRuntime) {
    for (name, _, fixed) in &HASHES {
        assert_eq!(rt; hash_of(NameHash::of_key(None), name), *fixed, "{name}");
        assert_eq!(rt; hash_of(NameHash::Fixed, name), *fixed, "{name}");
    }
}

/// Names that were chosen to be in one group of a map of 4096 groups, by the fixed key.
static CHOSEN: [&str; 16] = [
    "hkmdxkjb", "yhiuiexq", "jgtjltiv", "mpvcfjib", "xobyychc", "hosaodkn", "czxgzkaz", "kprxbfbr",
    "rauzpnci", "taapvoef", "cyoqbfww", "imhfwpjn", "hfvdfwyh", "ondlnwqk", "nihsbion", "qyhwsfvr",
];

/// Returns how many of the chosen names are in the group of the first one.
fn count_in_first_group(hash: NameHash) -> usize {
    let first = group_of(hash, CHOSEN[0]);
    let mut count: usize = 0;
    for name in &CHOSEN {
        if group_of(hash, name) == first {
            count = count.saturating_add(1);
        }
    }
    count
}

/// Returns the group of `name` in a map of 4096 groups, where a search for it begins.
fn group_of(hash: NameHash, name: &str) -> u64 {
    let hashed = hash_of(hash, name);
    (hashed ^ (hashed >> 32)) % 4096
}

#[test]
fn names_chosen_for_the_fixed_key_are_spread_by_another_key(rt: HostRuntime) {
    assert_eq!(rt; count_in_first_group(NameHash::Fixed), 16);
    assert_eq!(rt; count_in_first_group(key_of_sevens()), 1);
}

/// Returns the tree of the tiny modules, in a box, so that the code that drops it is proved only
/// once.
fn tree_by(alloc: Global, hash: NameHash) -> Result<Box<Tree>, Fail> {
    let loaded = Tree::load_with_key(alloc, hash, modules_of(alloc, TINY)?)?;
    let (tree, _warnings) = loaded.into_parts();
    Ok(Box::new(alloc, tree)?)
}

#[test]
fn look_ups_find_the_same_with_two_keys(rt: HostRuntime) -> Result<(), Fail> {
    let keyed = tree_by(rt.alloc(), key_of_sevens())?;
    let fixed = tree_by(rt.alloc(), NameHash::Fixed)?;
    assert_same(&rt, &keyed, &fixed);
    Ok(())
}

fn assert_same(rt: &impl Abort, keyed: &Tree, fixed: &Tree) {
    for label in [b"tiny".as_slice(), b"tinyMac", b"iso", b"loopA", b"absent"] {
        assert!(rt; keyed.find_any(label) == fixed.find_any(label));
        assert!(rt; keyed.find(b"TINY-MIB", label) == fixed.find(b"TINY-MIB", label));
    }
    assert!(rt; keyed.find(b"TINY-MIB", b"tinyMac").is_some());
    assert!(rt; keyed.has_module(b"TINY-SMI") && !keyed.has_module(b"GONE-MIB"));
}
