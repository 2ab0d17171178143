//! Rows that are collected, with the keys that they are sorted by.
ghost use Rattle.std.specs.Prelude.{◌≡◌, ◌<◌, ◌≤◌, length, true, false};
ghost use Rattle.std.specs.List.Sorted.{IsPermutation};

use snmp_wire::EncodedBinding;
use std::cmp::Ordering;
use std::marker::Model;

/// The number of octets in a key.
const KEY_SIZE: usize = 16;

/// The least number of rows with the same key that get new keys.
const MANY_TIED: usize = 5;

/// The greatest number of new keys for each row, on average. After that, names are compared: keys
/// would tell them apart too slowly.
const MOST_KEYS: usize = 8;

/// The bit of each octet that says that its subidentifier continues.
const GOES_ON: u128 = 0x8080_8080_8080_8080_8080_8080_8080_8080;

/// A row that is collected. Only speed depends on its key.
#[derive(Drop)]
pub struct PendingRow {
    /// The sort key, which orders most rows without comparing their names.
    key: u128,
    row: EncodedBinding,
}

impl Model for PendingRow {
    ghost use Rattle.snmp_wire.specs.Message.{VarBind};

    ghost Value = { VarBind };

    ghost view = { λ late. late.row };
}

impl PendingRow {
    ghost use Rattle.std.specs.Prelude.{◌≡◌};

    /// Returns a row whose key isn't set yet.
    #[inline]
    pub fn new(row: EncodedBinding) -> PendingRow
        ensures { result ≡ row }
    {
        PendingRow { key: 0, row }
    }

    /// Returns the row.
    #[inline]
    pub fn row(&self) -> &EncodedBinding
        ensures { result.now ≡ self.now }
    {
        &self.row
    }

    /// Returns the row without its key.
    #[inline]
    pub fn into_row(self) -> EncodedBinding
        ensures { result ≡ self }
    {
        self.row
    }

    /// Sets the key of a row among rows whose names are the same in the first `alike` octets.
    #[inline]
    fn set_key(&mut self, alike: usize)
        ensures { self.new ≡ self.old }
    {
        self.key = sort_key(self.row.name().content(), alike);
    }

    /// Returns whether the row has this key.
    #[inline]
    fn has_key(&self, key: u128) -> bool {
        self.key == key
    }
}

/// Sorts rows by decreasing names. If many rows have the same key, they get new keys, from the
/// octets after those that their names share, unless too many keys were set already: comparing
/// names takes longer, as it reads two rows each time.
pub fn sort_decreasing(rows: &mut Vec<PendingRow>)
    ensures { IsPermutation rows.old.items rows.new.items }
{
    sort_rows(rows.as_mut_slice());
}

/// Sorts a slice of rows by decreasing names.
#[tactic(auto, using(crate::proofs::GatheredRows::sorting))]
fn sort_rows(rows: &mut [PendingRow])
    ensures { IsPermutation rows.old rows.new }
{
    sort_by_keys(rows);
    sort_ties(rows);
}

/// Sets the keys of rows, and sorts the rows only by decreasing keys.
fn sort_by_keys(rows: &mut [PendingRow])
    ensures { IsPermutation rows.old rows.new }
{
    let alike = octets_alike(rows);
    set_keys(rows, alike);
    // The sort calls itself at most 2 log2(n) deep for n rows: less than 100 for as many as memory
    // can hold.
    rows.sort_unstable_by(|late, other| other.key.cmp(&late.key));
}

/// Sorts each run of rows with the same key by decreasing names.
fn sort_ties(rows: &mut [PendingRow])
    ensures { IsPermutation rows.old rows.new }
{
    let mut at = 0;
    // The number of new keys that may still be set.
    let mut left = rows.len().saturating_mul(MOST_KEYS);
    'ties: while at < rows.len() {
        let end = tie_end(rows, at);
        let count = end - at;
        if sort_tie(&mut rows[at..end], count <= left) {
            at = end;
        } else {
            left -= count;
        }
    }
}

/// Returns the end of the run of rows with the same key that begins at index `at`.
#[inline]
fn tie_end(rows: &[PendingRow], at: usize) -> usize
    requires { at < length rows.now }
    ensures after { at < result }
    ensures within { result ≤ length rows.now }
{
    let first = &rows[at];
    let key = first.key;
    let mut end = at + 1;
    'tied: while end < rows.len() && rows[end].has_key(key) {
        end += 1;
    }
    end
}

/// Sorts rows with the same key: by new keys, if there are enough rows and they may get keys,
/// otherwise by decreasing names. Returns whether the rows are sure to be sorted by name. They
/// aren't if the new keys differ, since some of these may be the same again.
#[tactic(auto, using(crate::proofs::GatheredRows::sorting))]
fn sort_tie(rows: &mut [PendingRow], may_get_keys: bool) -> bool
    ensures sorted { IsPermutation rows.old rows.new }
    ensures keys { result ≡ false → may_get_keys ≡ true }
{
    if rows.len() < MANY_TIED || !may_get_keys {
        sort_by_names(rows);
        return true;
    }
    sort_by_keys(rows);
    if keys_differ(rows) {
        return false;
    }
    sort_by_names(rows);
    true
}

/// Returns whether the keys of rows that are sorted by them differ. They don't if no name has
/// octets after the shared ones.
fn keys_differ(rows: &[PendingRow]) -> bool {
    match (rows.first(), rows.last()) {
        (Some(first), Some(last)) => !first.has_key(last.key),
        _ => false,
    }
}

/// Sorts rows by decreasing names.
#[inline(never)]
fn sort_by_names(rows: &mut [PendingRow])
    ensures { IsPermutation rows.old rows.new }
{
    rows.sort_unstable_by(|late, other| other.row.name().compare(&late.row.name()));
}

/// Returns the number of leading octets that are the same in the names of all rows.
fn octets_alike(rows: &[PendingRow]) -> usize {
    let Some(first) = rows.first() else {
        return 0;
    };
    let mut alike = first.row.name().content();
    for late in rows {
        let content = late.row.name().content();
        if !content.starts_with(alike) {
            let same = alike
                .iter()
                .zip(content)
                .take_while(|pair| pair.0 == pair.1);
            let (prefix, _) = alike.split_at(same.count().min(alike.len()));
            alike = prefix;
        }
    }
    alike.len()
}

/// Sets the keys of rows whose names are the same in the first `alike` octets.
fn set_keys(rows: &mut [PendingRow], alike: usize)
    ensures { rows.new ≡ rows.old }
{
    'rows: for late in rows.iter_mut() {
        late.set_key(alike);
    }
}

/// Returns the key of a name among names that are the same in the first `alike` octets: the octets
/// after these, up to 16. Each subidentifier of three octets or more has its size before it.
#[inline]
fn sort_key(content: &[u8], alike: usize) -> u128 {
    let (_, octets) = content.split_at(alike.min(content.len()));
    let (prefix, _) = octets.split_at(octets.len().min(KEY_SIZE));
    let mut few = [0; KEY_SIZE];
    few[..prefix.len()].copy_from_slice(prefix);
    let key = u128::from_be_bytes(few);
    let goes_on = key & GOES_ON;
    // The last octet may begin a long subidentifier.
    if goes_on & (goes_on << 8 | 0x80) == 0 {
        return key;
    }
    long_key(octets)
}

/// Returns what [`sort_key`] returns if there may be a subidentifier of three octets or more. Of
/// two such subidentifiers, the longer one is greater, so the size comes first, as 0xff and then an
/// octet from 0x80 on. A subidentifier of two octets may begin with 0xff too, but its second octet
/// is below 0x80.
#[inline(never)]
fn long_key(octets: &[u8]) -> u128 {
    let mut key = [0; KEY_SIZE];
    let mut at = 0;
    let mut begins = true;
    'octets: for (index, octet) in octets.iter().enumerate() {
        if at == KEY_SIZE {
            break;
        }
        if begins {
            let (_, number) = octets.split_at(index);
            let before_last = number.iter().position(|octet| *octet < 0x80).unwrap_or(0);
            if before_last >= 2 {
                at = put_octet(&mut key, at, 0xff);
                at = put_octet(&mut key, at, 0x80 | before_last.min(0x7f) as u8);
            }
        }
        at = put_octet(&mut key, at, *octet);
        begins = *octet < 0x80;
    }
    u128::from_be_bytes(key)
}

/// Stores `octet` at index `at`, and returns the next index. If there is no room, returns `at`.
#[inline]
fn put_octet(key: &mut [u8; KEY_SIZE], at: usize, octet: u8) -> usize {
    let Some(index) = key.get_mut(at) else {
        return at;
    };
    *index = octet;
    at + 1
}
