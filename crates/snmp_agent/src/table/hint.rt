//! Where names are among the rows of a table, as guesses for later requests.

use crate::table::page::PAGE_ROWS;
use snmp_wire::EncodedName;
use std::fmt;

/// The number of pairs of names that a hint stores: one pair for each value of the high nine bits
/// of a hash.
const PAIRS: usize = 512;

// A number of rows of a page, as a hint stores it for a name, fits into 8 bits.
const _: () = prove!(PAGE_ROWS < 256);

/// Where the names of earlier requests are, as guesses for later ones. Later requests mostly ask
/// from the row that was returned last, or for the same names again.
#[derive(Clone, Copy)]
pub struct Hint {
    last: Last,
    /// Where names are, as one number for each name stored. Its high 16 bits are the index of the
    /// page plus one, or 0 if no name is stored or the index is too large. The next 8 bits are the
    /// number of rows of that page whose names aren't greater than the name. The low 8 bits are
    /// the low 8 bits of the name's hash. The first number of a pair is the newer one, and the low
    /// 8 bits of the two differ if both are for names.
    kept: [[u32; 2]; PAIRS],
}

/// The position recorded last, mostly the position of the row that was returned last.
#[derive(Clone, Copy)]
pub(crate) struct Last {
    /// The number of rows after the position on its page.
    rows: usize,
    /// The number of pages after that page.
    pages: usize,
}

// Shows the position recorded last, and no names.
impl fmt::Debug for Hint {
    fn fmt<W: fmt::Write>(&self, f: &mut fmt::Formatter<W>) -> fmt::Result {
        f.debug_struct("Hint")
            .field("rows", &self.last.rows)
            .field("pages", &self.last.pages)
            .finish()
    }
}

impl Default for Hint {
    ghost use Rattle.std.specs.Prelude.{⊤};

    ghost is_default = { λ _. ⊤ };

    fn default() -> Hint {
        Hint {
            last: Last::default(),
            kept: [[0; 2]; PAIRS],
        }
    }
}

impl Default for Last {
    ghost use Rattle.std.specs.Prelude.{⊤};

    ghost is_default = { λ _. ⊤ };

    // Refers to no row, since no table has `usize::MAX` pages.
    fn default() -> Last {
        Last {
            rows: 0,
            pages: usize::MAX,
        }
    }
}

impl Hint {
    /// Lends the hint to a request.
    #[inline]
    pub(crate) fn lend(&mut self) -> Guesses<'_> {
        let Hint { last, kept } = self;
        Guesses {
            last,
            kept: &mut kept[..],
        }
    }
}

/// A hint that is lent to a request.
#[derive(Drop)]
pub(crate) struct Guesses<'h> {
    last: &'h mut Last,
    /// The numbers that the [`Hint`] stores for names, or none if no other request follows.
    kept: &'h mut [[u32; 2]],
}

/// A guess of where a name is.
#[derive(Clone, Copy, Debug)]
pub(crate) struct Guess {
    /// The hash of the name, or 0 if the hint stores no names.
    hash: u32,
    /// The guessed index of its page, or `usize::MAX` for no guess.
    pub(crate) page: usize,
    /// The guessed number of rows of the page whose names aren't greater than the name.
    pub(crate) row: usize,
}

impl<'h> Guesses<'h> {
    /// Returns a hint for a request that no other follows. It stores no names, since that would
    /// only cost time.
    #[inline]
    pub(crate) fn without_names(last: &'h mut Last) -> Guesses<'h> {
        Guesses {
            last,
            kept: &mut [],
        }
    }

    /// Returns the position recorded last: the number of rows after it on its page, and the number
    /// of pages after that page.
    #[inline]
    pub(crate) fn last(&self) -> (usize, usize) {
        (self.last.rows, self.last.pages)
    }

    /// Records a position, mostly that of the row that was returned last: `left` has the number of
    /// rows after it on its page, and the number of pages after that page.
    #[inline]
    pub(crate) fn keep_last(&mut self, left: (usize, usize)) {
        self.last.rows = left.0;
        self.last.pages = left.1;
    }

    /// Returns a guess of where `name` is. It refers to no page if nothing is stored for the hash
    /// of the name.
    #[inline]
    pub(crate) fn guess(&self, name: &EncodedName<'_>) -> Guess {
        if self.kept.is_empty() {
            return Guess::of(0, 0);
        }
        let hash = hash_of(name.content());
        let Some(pair) = self.kept.get(pair_index(hash)) else {
            return Guess::of(hash, 0);
        };
        let [later, earlier] = *pair;
        let kept = if later % 256 == hash % 256 {
            later
        } else if earlier % 256 == hash % 256 {
            earlier
        } else {
            0
        };
        Guess::of(hash, kept)
    }

    /// Records where the name of `guess` is, if the hint stores names: the index of its page, and
    /// the number of rows of that page whose names aren't greater than the name.
    #[inline]
    pub(crate) fn keep(&mut self, guess: Guess, page: usize, row: usize) {
        let Some(pair) = self.kept.get_mut(pair_index(guess.hash)) else {
            return;
        };
        let later = pair[0];
        if later % 256 != guess.hash % 256 {
            pair[1] = later;
        }
        let page = u32::from(u16::try_from(page.wrapping_add(1)).unwrap_or(0));
        let row = u32::from(u8::try_from(row).unwrap_or(0));
        pair[0] = page << 16 | row << 8 | guess.hash % 256;
    }

    /// Records the position of a row under its name, if the hint stores names. So walks whose
    /// requests alternate mostly find their rows without a search.
    /// `inline(never)`: a single walk mostly doesn't call this.
    #[inline(never)]
    pub(crate) fn keep_passed(&mut self, name: &EncodedName<'_>, page: usize, row: usize) {
        if !self.kept.is_empty() {
            self.keep(Guess::of(hash_of(name.content()), 0), page, row);
        }
    }
}

impl Guess {
    /// Returns the guess for a hash, from the number that is stored for it, or 0 if none is.
    #[inline]
    fn of(hash: u32, kept: u32) -> Guess {
        Guess {
            hash,
            page: ((kept >> 16) as usize).wrapping_sub(1),
            row: (kept >> 8) as usize % 256,
        }
    }
}

/// Returns the index of the pair for the high bits of a hash.
#[inline]
fn pair_index(hash: u32) -> usize {
    (hash >> 8) as usize % PAIRS
}

/// Returns the hash of a name: a number below 131,072. It is computed from the last sixteen
/// octets, since rows mostly differ in these. It also depends on the second, third and fourth eight
/// octets, if these precede the last eight: they contain the column of a row with a long index. If
/// fewer than eight octets precede the last eight, their first four and last four are used, or none
/// if there are fewer than four; the same holds for a name of fewer than eight octets. Names with
/// the same hash cost comparisons, and no more.
#[inline]
fn hash_of(content: &[u8]) -> u32 {
    let (prefix, last) = last_word(content);
    let (_, before) = last_word(prefix);
    let mixed = mix(mix(middle_of(prefix), before), last);
    (mixed >> 47) as u32
}

/// Returns a number that depends on the second, third and fourth eight octets, as far as there are
/// eight of each. The first eight are the same in most names.
#[inline]
fn middle_of(octets: &[u8]) -> u64 {
    let [_, _, _, _, _, _, _, _, rest @ ..] = octets else {
        return 0;
    };
    let Some((second, rest)) = first_word(rest) else {
        return 0;
    };
    let Some((third, rest)) = first_word(rest) else {
        return mix(0, second);
    };
    match first_word(rest) {
        Some((fourth, _)) => mix(mix(mix(0, fourth), third), second),
        None => mix(mix(0, third), second),
    }
}

/// Returns `number` with `other` mixed in, so that the high bits of the result depend on most bits
/// of both.
#[inline]
fn mix(number: u64, other: u64) -> u64 {
    number
        .wrapping_add(other)
        .wrapping_mul(0x9e37_79b9_7f4a_7c15)
}

/// Returns the first eight octets as a number, and the octets after them, or `None` if there are
/// fewer than eight.
#[inline]
fn first_word(octets: &[u8]) -> Option<(u64, &[u8])> {
    match octets {
        [a, b, c, d, e, f, g, h, rest @ ..] => Some((
            u64::from_be_bytes([*a, *b, *c, *d, *e, *f, *g, *h]),
            rest,
        )),
        _ => None,
    }
}

/// Returns the octets before the last eight, and the last eight as a number. If there are fewer
/// than eight, returns no octets and the number of [`few_octets`].
#[inline]
fn last_word(octets: &[u8]) -> (&[u8], u64) {
    match octets {
        [prefix @ .., a, b, c, d, e, f, g, h] => (
            prefix,
            u64::from_be_bytes([*a, *b, *c, *d, *e, *f, *g, *h]),
        ),
        _ => (&[], few_octets(octets)),
    }
}

/// Returns the first four octets and the last four as one number, or 0 if there are fewer than
/// four.
#[inline]
fn few_octets(octets: &[u8]) -> u64 {
    let [a, b, c, d, ..] = octets else {
        return 0;
    };
    match octets {
        [.., e, f, g, h] => u64::from_be_bytes([*a, *b, *c, *d, *e, *f, *g, *h]),
        _ => 0,
    }
}
