//! A set of hashes of names.

use snmp_wire::EncodedName;
use std::alloc::{AllocError, Global};

/// The number of hashes that a bucket has room for. They are compared together, without a branch
/// for each.
const BUCKET: usize = 16;

/// The least number of buckets, if there are any.
const FEW_BUCKETS: usize = 32;

/// The greatest number of successive buckets that are searched for a hash.
const LOOKS: usize = 16;

/// An odd number. Each bit of its product with another number depends on the same bit of that
/// number, and most bits also on lower ones.
const FACTOR: u64 = 0x9E37_79B9_7F4A_7C15;

/// Hashes of names, which show that a name is new. Only speed depends on them.
///
/// They take little memory, since touching a page of memory takes as long as reading several rows.
#[derive(Drop)]
pub struct Hashes {
    /// The buckets; their number is a power of two, or 0. A bucket begins with the high halves of
    /// its hashes, where a high half of 0 is stored as 1. After them it has zeros. The low bits of
    /// a hash select its bucket. If that is full when the hash is inserted, a later bucket stores
    /// the hash, if one that is near enough has room.
    buckets: Vec<[u32; BUCKET]>,
    /// The number of hashes whose insertion was tried since the last `clear`.
    count: usize,
}

impl Hashes {
    /// Returns a set of no hashes, without room for any.
    pub fn new(alloc: Global) -> Hashes {
        Hashes {
            buckets: Vec::new(alloc),
            count: 0,
        }
    }

    /// Returns whether there is room for `more` hashes so that three eighths of the room stay
    /// free.
    #[inline]
    pub fn have_room(&self, more: usize) -> bool {
        let most = self.buckets.len().saturating_mul(BUCKET / 8 * 5);
        more <= most.saturating_sub(self.count)
    }

    /// Removes all hashes, and makes room for twice `count`. Returns whether there is memory for
    /// it.
    #[inline(never)]
    pub fn clear(&mut self, alloc: Global, count: usize) -> bool {
        let mut size = FEW_BUCKETS;
        for _ in 0..64 {
            if size.saturating_mul(BUCKET / 8 * 5) / 2 >= count {
                break;
            }
            size = size.saturating_mul(2);
        }
        self.count = 0;
        self.buckets = Vec::new(alloc);
        let Ok(buckets) = empty_buckets(alloc, size) else {
            return false;
        };
        self.buckets = buckets;
        true
    }

    /// Inserts the hash of a name, and returns whether it is new and was inserted. A hash that
    /// isn't new may be the hash of another name.
    #[inline]
    pub fn insert(&mut self, name: &EncodedName<'_>) -> bool {
        self.count = self.count.saturating_add(1);
        put_hash(self.buckets.as_mut_slice(), hash_of(name.content()))
    }
}

/// Returns `size` buckets without a hash.
fn empty_buckets(alloc: Global, size: usize) -> Result<Vec<[u32; BUCKET]>, AllocError> {
    vec![in alloc; [0; BUCKET]; size]
}

/// Inserts a new hash into the first bucket that isn't full, from its own on, up to `LOOKS`
/// buckets. Returns whether the hash is new and there is such a bucket.
#[inline]
fn put_hash(buckets: &mut [[u32; BUCKET]], hash: u64) -> bool {
    let last = buckets.len().wrapping_sub(1);
    let high = ((hash >> 32) as u32).max(1);
    let mut at = hash as usize & last;
    for _ in 0..LOOKS {
        let Some(bucket) = buckets.get_mut(at) else {
            return false;
        };
        let (is_there, used) = look_for(bucket, high);
        if is_there {
            return false;
        }
        if let Some(index) = bucket.get_mut(used) {
            *index = high;
            return true;
        }
        at = at.wrapping_add(1) & last;
    }
    false
}

/// Returns whether the high half of a hash is in a bucket, and the number of hashes in it.
#[inline(always)]
fn look_for(bucket: &[u32; BUCKET], high: u32) -> (bool, usize) {
    let mut is_there = false;
    let mut used: u32 = 0;
    for index in bucket {
        is_there |= *index == high;
        used = used.wrapping_add(u32::from(*index != 0));
    }
    (is_there, used as usize)
}

/// Returns the hash of the content of a name. Reads eight octets at a time, if there are eight or
/// more; the last eight may overlap those before them.
#[inline]
fn hash_of(content: &[u8]) -> u64 {
    let Some(last) = content.last_chunk::<8>() else {
        return hash_of_few(content);
    };
    let mut hash = content.len() as u64;
    let mut rest = content;
    'words: while rest.len() > 8 {
        let Some((word, after)) = rest.split_first_chunk::<8>() else {
            break;
        };
        hash = mix_bits(hash ^ u64::from_be_bytes(*word));
        rest = after;
    }
    // Mixed once more, so that the low bits, which select the bucket, depend on all octets.
    mix_bits(mix_bits(hash ^ u64::from_be_bytes(*last)))
}

/// Returns the hash of a content of fewer than eight octets.
#[inline(never)]
fn hash_of_few(content: &[u8]) -> u64 {
    let mut few = [0; 8];
    let size = content.len().min(8);
    few[..size].copy_from_slice(&content[..size]);
    mix_bits(mix_bits(content.len() as u64 ^ u64::from_be_bytes(few)))
}

/// Returns a number each of whose bits depends on many bits of `number`.
#[inline]
fn mix_bits(number: u64) -> u64 {
    let product = number.wrapping_mul(FACTOR);
    product ^ product >> 32
}
