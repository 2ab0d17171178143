//! The rows of a table, in pages, and the rows after a name.
ghost use Rattle.std.specs.Prelude.{◌≡◌, ◌≤◌, ◌++◌, ◌∷◌, [], ℕ, List, length, IfOk, IfErr, IfSome};
ghost use Rattle.std.specs.Prelude.{IsTrue, Some};
ghost use Rattle.std.specs.{Ordering.nat_cmp, Cmp.Lexicographic.slice_cmp, FinMap.find};
ghost use Rattle.std.specs.{FinMap.from_sorted, Option.option_map_or};
ghost use Rattle.snmp_wire.specs.Message.{Datum};
ghost use Rattle.snmp_agent.specs.table.Entries.{IsAfterAll, entry_of, last_name};
ghost use Rattle.snmp_agent.specs.table.Pages.{ArePages, IsPageOf, IsLongPage, IsPageWithRoom};
ghost use Rattle.snmp_agent.specs.table.Pages.{IsRowIn, IsWithoutRow, IsSplitAt, entries_in};
ghost use Rattle.snmp_agent.specs.table.Pages.{entries_of};
ghost use Rattle.snmp_agent.specs.private.table.BinarySearch.{SplitsAt};

use crate::table::hashes::Hashes;
use crate::table::hint::{Guess, Guesses};
use crate::table::page::{PAGE_ROWS, Page};
use crate::table::pending::{PendingRow, sort_decreasing};
use crate::table::search::{Placed, count_between, find_row, index_near, near, row_at};
use snmp_oid::order;
use snmp_wire::{Binding, EncodedBinding, EncodedName, Oid, ValueRef};
use std::alloc::{AllocError, Global};
use std::cmp::Ordering;
use std::marker::Model;
use std::mem;

/// Rows by increasing names, in pages of 1 to `PAGE_ROWS` rows, so that a change moves no more
/// rows than a page has.
#[derive(Drop)]
pub struct Pages {
    list: Vec<Page>,
    /// Counts that show whether the rows that were put among others came in some order.
    order: PutOrder,
}

/// Counts of the pages on which rows were put among others, for successive samples of 128 rows.
/// Only speed depends on these counts.
#[derive(Drop)]
struct PutOrder {
    /// The number of rows in the current sample.
    rows: u32,
    /// The pages of these rows: bit `i` for the pages whose index modulo 128 is `i`.
    pages: u128,
    /// The number of successive samples, up to the last whole one, whose rows came to many pages.
    scattered: u32,
}

/// The number of pages below which a page is split where a name belongs, even if few rows follow.
/// With more pages, this would make the list of pages long.
const FEW_PAGES: usize = 1024;

/// The index that stands for no guess of a page.
const NO_GUESS: usize = usize::MAX;

/// The number of rows in a sample.
const SAMPLE: u32 = 128;

/// If the rows of a sample came to this number of pages or more, they are taken to be in no order.
/// The rows of a conceptual table that is listed row by row mostly come to one page for each
/// column.
const MANY_PAGES: u32 = 68;

/// The least number of successive samples in no order after which all rows may be taken to be in no
/// order.
const MANY_SAMPLES: usize = 3;

/// All rows are taken to be in no order only if the number of successive samples in no order is at
/// least the number of pages divided by this number.
const PAGES_FOR_SAMPLE: usize = 32;

impl Model for Pages {
    ghost use Rattle.std.specs.Coded.{codes};
    ghost use Rattle.std.specs.Ordering.{nat_cmp};
    ghost use Rattle.std.specs.Cmp.Lexicographic.{slice_cmp};
    ghost use Rattle.std.specs.FinMap.{FinMap, code, from_sorted};
    ghost use Rattle.snmp_wire.specs.Message.{Datum};
    ghost use Rattle.snmp_agent.specs.table.Pages.{ArePages, entries_in};

    ghost Value = { FinMap (slice_cmp nat_cmp) Datum };

    ghost coded = { Prim.hlevel (codes, code) };

    ghost view = { λ p. from_sorted (entries_in p.list.items) };

    ghost invariant = { λ p. ArePages p.list.items };
}

impl Pages {
    ghost use Rattle.std.specs.Prelude.{◌≡◌, ◌++◌, ◌∷◌, [], List, ℕ, IfOk, IfErr, IfSome};
    ghost use Rattle.std.specs.Prelude.{IsTrue};
    ghost use Rattle.std.specs.List.Sorted.{IsPermutation};
    ghost use Rattle.std.specs.Option.{option_map};
    ghost use Rattle.std.specs.FinMap.{contains_key, entries, get, insert, remove as remove_key};
    ghost use Rattle.snmp_wire.specs.Message.{Datum};
    ghost use Rattle.snmp_agent.specs.table.Entries.{IsAfterAll, entry_of};
    ghost use Rattle.snmp_agent.specs.table.Pages.{IsSplitAt, entries_of};

    /// Returns an empty list of rows.
    pub fn new(alloc: Global) -> Pages
        ensures { entries result ≡ [] }
    {
        Pages {
            list: Vec::new(alloc),
            order: PutOrder {
                rows: 0,
                pages: 0,
                scattered: 0,
            },
        }
    }

    /// Returns the row of `name`, if there is one. If the hint has the position of that row,
    /// nothing is searched. Otherwise the position of the name is recorded in the hint, if the hint
    /// stores names and there are rows.
    pub fn find_near(
        &self,
        name: &EncodedName<'_>,
        hint: &mut Guesses<'_>,
    ) -> Option<&EncodedBinding>
        ensures value { option_map (λ row. row.now.value) result
            ≡ get self.now name.now }
        ensures name { IfSome result (λ row. row.now.name ≡ name.now) }
    {
        let guess = hint.guess(name);
        let pages = self.list.as_slice();
        if let Some(row) = row_guessed(pages, name, guess) {
            return Some(row);
        }
        let at = page_near(pages, name, guess.page);
        let page = pages.get(at)?;
        let rows = page.rows.as_slice();
        let index = index_near(rows, name, guess.row);
        hint.keep(guess, at, index);
        row_at(rows, name, index)
    }

    /// Returns the rows after `name`. If the row at the position that the hint recorded last has
    /// this name, as it mostly has in a walk, nothing is searched. Otherwise this does what
    /// [`Pages::after_near`] does.
    // `inline(always)`: called for each request of a walk.
    #[inline(always)]
    pub fn after_last(&self, name: &EncodedName<'_>, hint: &mut Guesses<'_>) -> Successors<'_>
        ensures { (prefix : List (List ℕ × Datum)) × IsSplitAt self.now name.now prefix result }
    {
        match self.after_row(name, hint) {
            Some(rows) => rows,
            None => self.after_near(name, hint),
        }
    }

    /// Returns the rows after `name` if the row at the position that the hint recorded last has
    /// this name. If that row has another name, its position is recorded under that name, if the
    /// hint stores names, since another walk may continue from there.
    #[inline(always)]
    fn after_row(&self, name: &EncodedName<'_>, hint: &mut Guesses<'_>) -> Option<Successors<'_>>
        ensures { IfSome result (λ rows. (prefix : List (List ℕ × Datum))
            × IsSplitAt self.now name.now prefix rows) }
    {
        let pages = self.list.as_slice();
        let left = hint.last();
        let page_end = pages.len().checked_sub(left.1)?;
        let (prefix, pages) = pages.split_at(page_end);
        let page = prefix.last()?;
        let rows = page.rows.as_slice();
        let row_end = rows.len().checked_sub(left.0)?;
        let (prefix, rows) = rows.split_at(row_end);
        let row = prefix.last()?;
        if row.name().compare(name).is_eq() {
            Some(Successors { rows, pages })
        } else {
            hint.keep_passed(&row.name(), page_end - 1, row_end);
            None
        }
    }

    /// Returns the rows after `name`. If [`rows_guessed`] finds them by the hint's guess, nothing
    /// is searched. Otherwise the position of the name is recorded in the hint, if the hint stores
    /// names and there are rows. `inline(never)`, so that the usual path of a walk stays short.
    #[inline(never)]
    pub fn after_near(&self, name: &EncodedName<'_>, hint: &mut Guesses<'_>) -> Successors<'_>
        ensures { (prefix : List (List ℕ × Datum)) × IsSplitAt self.now name.now prefix result }
    {
        let guess = hint.guess(name);
        let pages = self.list.as_slice();
        if let Some(rows) = rows_guessed(pages, name, guess) {
            return rows;
        }
        let at = page_near(pages, name, guess.page);
        let Some(page) = pages.get(at) else {
            return Successors {
                rows: &[],
                pages: &[],
            };
        };
        let (_, pages) = pages.split_at(at + 1);
        let rows = page.rows.as_slice();
        let index = index_near(rows, name, guess.row);
        hint.keep(guess, at, index);
        let (_, rows) = rows.split_at(index);
        Successors { rows, pages }
    }

    /// Inserts a row in the order of names, or replaces the row that has its name. Returns whether
    /// there was such a row.
    pub fn put(&mut self, alloc: Global, row: EncodedBinding) -> Result<bool, AllocError>
        ensures put { IfOk result (λ _. self.new ≡ insert self.old row.name row.value) }
        ensures replaced { IfOk result (λ replaced. replaced ≡ contains_key self.old row.name) }
        ensures unchanged_on_error { IfErr result (λ _. self.new ≡ self.old) }
    {
        let name = row.name();
        if ends_before(self.list.as_slice(), &name) {
            append(alloc, &mut self.list, row)?;
            return Ok(false);
        }
        let index = page_with_room(&mut self.list, &name)?;
        self.order.note(index);
        let replaced = self.list[index].put(row)?;
        Ok(replaced)
    }

    /// Returns whether the last rows that were inserted among others came to many pages, as rows
    /// in no order do: each step of the search for such a row waits for memory. Enough samples of
    /// rows, one after the other, must have come to many pages. The more pages there are, the more
    /// samples are needed, since collecting rows for one sort passes over all rows.
    #[inline]
    pub fn are_scattered(&self) -> bool {
        let samples = self.order.scattered as usize;
        samples >= MANY_SAMPLES && samples >= self.list.len() / PAGES_FOR_SAMPLE
    }

    /// Returns an upper bound of the number of rows.
    #[inline]
    pub fn most_rows(&self) -> usize {
        self.list.len().saturating_mul(PAGE_ROWS)
    }

    /// Returns the number of rows.
    pub fn count(&self) -> usize {
        let mut count: usize = 0;
        for page in self.list.iter() {
            count = count.saturating_add(page.rows.len());
        }
        count
    }

    /// Inserts into `hashes` the hashes of the names of the last `count` rows, or of all rows if
    /// there are fewer. Returns `false` at the first hash that isn't new or has no room.
    pub fn insert_last(&self, count: usize, hashes: &mut Hashes) -> bool {
        let mut left = count;
        for page in self.list.iter().rev() {
            for row in page.rows.iter().rev() {
                if left == 0 {
                    return true;
                }
                left -= 1;
                if !hashes.insert(&row.name()) {
                    return false;
                }
            }
        }
        true
    }

    /// Returns whether all rows come before `name`.
    #[tactic(auto, using(crate::proofs::GatheredRows::entries_are))]
    pub fn ends_before(&self, name: &EncodedName<'_>) -> bool
        ensures { IsTrue result → IsAfterAll name.now (entries self.now) }
    {
        ends_before(self.list.as_slice(), name)
    }

    /// Appends a row, which must come after all others.
    pub fn append(&mut self, alloc: Global, row: EncodedBinding) -> Result<(), AllocError>
        requires { IsAfterAll row.name (entries self.old) }
        ensures appended { IfOk result
            (λ _. entries self.new ≡ entries self.old ++ entry_of row ∷ []) }
        ensures unchanged_on_error { IfErr result (λ _. self.new ≡ self.old) }
    {
        append(alloc, &mut self.list, row)?;
        Ok(())
    }

    /// Sorts `rows`, inserts each in the order of names, and returns whether none has the name of
    /// another row. If one has, or memory runs out, some rows are lost.
    pub fn put_sorted(
        &mut self,
        alloc: Global,
        rows: &mut Vec<PendingRow>,
    ) -> Result<bool, AllocError>
        ensures { IfOk result (λ apart. IsTrue apart
            → IsPermutation (entries self.old ++ entries_of rows.old.items) (entries self.new)) }
    {
        sort_decreasing(rows);
        // A search for each of few rows takes less time than a pass over all rows.
        if rows.len() < self.most_rows() / 8 {
            self.put_all(alloc, rows)
        } else {
            self.merge(alloc, rows)
        }
    }

    /// Inserts each of `rows` in the order of names, from the last to the first, and returns
    /// whether none has the name of another row. If one has, or memory runs out, some rows are
    /// lost.
    #[tactic(auto, using(crate::proofs::GatheredRows::last_moves))]
    pub fn put_all(&mut self, alloc: Global, rows: &mut Vec<PendingRow>) -> Result<bool, AllocError>
        ensures { IfOk result (λ apart. IsTrue apart
            → IsPermutation (entries self.old ++ entries_of rows.old.items) (entries self.new)) }
    {
        'rows: while let Some(late) = rows.pop() {
            if self.put(alloc, late.into_row())? {
                return Ok(false);
            }
        }
        Ok(true)
    }

    /// Does what [`Pages::put_all`] does, by one pass over `rows` and the rows of all pages. This
    /// is faster for many rows if their names decrease.
    pub fn merge(&mut self, alloc: Global, rows: &mut Vec<PendingRow>) -> Result<bool, AllocError>
        ensures { IfOk result (λ apart. IsTrue apart
            → IsPermutation (entries self.old ++ entries_of rows.old.items) (entries self.new)) }
    {
        let pages = mem::replace(&mut self.list, Vec::new(alloc));
        for page in pages {
            if !self.merge_page(alloc, page, rows)? {
                return Ok(false);
            }
        }
        self.put_all(alloc, rows)
    }

    /// Inserts the rows of `page`, and before each of them the rows at the end of `others` that
    /// come before it. Returns whether none has the name of another row.
    fn merge_page(
        &mut self,
        alloc: Global,
        page: Page,
        others: &mut Vec<PendingRow>,
    ) -> Result<bool, AllocError>
        ensures { IfOk result (λ apart. IsTrue apart → IsPermutation
            (entries self.old ++ (entries_of others.old.items ++ entries_of page.rows.items))
            (entries self.new ++ entries_of others.new.items)) }
    {
        let Page { rows } = page;
        for row in rows {
            if !self.put_before(alloc, &row.name(), others)? || self.put(alloc, row)? {
                return Ok(false);
            }
        }
        Ok(true)
    }

    /// Takes rows from the end of `rows` while they come before `name`, and inserts them. Returns
    /// whether none has the name of another row.
    #[inline(always)]
    #[tactic(auto, using(crate::proofs::GatheredRows::last_moves))]
    fn put_before(
        &mut self,
        alloc: Global,
        name: &EncodedName<'_>,
        rows: &mut Vec<PendingRow>,
    ) -> Result<bool, AllocError>
        ensures { IfOk result (λ apart. IsTrue apart
            → IsPermutation (entries self.old ++ entries_of rows.old.items)
            (entries self.new ++ entries_of rows.new.items)) }
    {
        'rows: while let Some(late) = rows.last() {
            if !late.row().name().compare(name).is_lt() {
                break;
            }
            let Some(next) = rows.pop() else {
                break;
            };
            if self.put(alloc, next.into_row())? {
                return Ok(false);
            }
        }
        Ok(true)
    }

    /// Removes the row of `name`, and returns whether there was one.
    pub fn remove(&mut self, name: &EncodedName<'_>) -> bool
        ensures removed { self.new ≡ remove_key self.old name.now }
        ensures found { result ≡ contains_key self.old name.now }
    {
        let index = page_near(self.list.as_slice(), name, NO_GUESS);
        let Some(page) = self.list.as_slice().get(index) else {
            return false;
        };
        match find_row(page.rows.as_slice(), name) {
            Ok(row) => {
                remove_row(&mut self.list, index, row);
                true
            }
            Err(_) => false,
        }
    }
}

impl PutOrder {
    /// Records that a row is put on the page with the index `page`, whether it is new or replaces
    /// another.
    #[inline]
    fn note(&mut self, page: usize) {
        self.pages |= 1 << (page % 128);
        self.rows = self.rows.saturating_add(1);
        if self.rows >= SAMPLE {
            self.scattered = if self.pages.count_ones() >= MANY_PAGES {
                self.scattered.saturating_add(1)
            } else {
                0
            };
            self.rows = 0;
            self.pages = 0;
        }
    }
}

/// Returns the row that `guess` refers to if it has the name. Looks at no other row.
#[inline]
fn row_guessed<'a>(
    pages: &'a [Page],
    name: &EncodedName<'_>,
    guess: Guess,
) -> Option<&'a EncodedBinding>
    requires { ArePages pages.now }
    ensures value { IfSome result
        (λ row. find (slice_cmp nat_cmp) name.now (entries_in pages.now) ≡ Some row.now.value) }
    ensures name { IfSome result (λ row. row.now.name ≡ name.now) }
{
    let page = pages.get(guess.page)?;
    let before = guess.row.checked_sub(1)?;
    let row = page.rows.as_slice().get(before)?;
    if !row.name().compare(name).is_eq() {
        return None;
    }
    Some(row)
}

/// Returns the rows after `name` if the row before the guessed position has the name, or the name
/// is between that row and the next one on the page; otherwise returns `None`. Looks at no other
/// row.
#[inline]
fn rows_guessed<'a>(
    pages: &'a [Page],
    name: &EncodedName<'_>,
    guess: Guess,
) -> Option<Successors<'a>>
    requires { ArePages pages.now }
    ensures { IfSome result (λ rows. (prefix : List (List ℕ × Datum))
        × IsSplitAt (from_sorted (entries_in pages.now)) name.now prefix rows) }
{
    let page = pages.get(guess.page)?;
    let rows = page.rows.as_slice();
    if guess.row > rows.len() {
        return None;
    }
    let (prefix, rows) = rows.split_at(guess.row);
    if !splits_at(name, prefix, rows) {
        return None;
    }
    let (_, pages) = pages.split_at(guess.page + 1);
    Some(Successors { rows, pages })
}

/// Returns whether `prefix` ends with the row of `name`, or with a smaller name while `rows` begins
/// with a greater one.
#[inline]
fn splits_at(name: &EncodedName<'_>, prefix: &[EncodedBinding], rows: &[EncodedBinding]) -> bool
    ensures { IsTrue result → SplitsAt name.now prefix.now rows.now }
{
    let Some(row) = prefix.last() else {
        return false;
    };
    match row.name().compare(name) {
        Ordering::Equal => true,
        Ordering::Greater => false,
        Ordering::Less => match rows.first() {
            Some(next) => next.name().compare(name).is_gt(),
            None => false,
        },
    }
}

/// Returns the index of the only page that may have a row of `name`: the last page whose first name
/// isn't greater than `name`, or 0 if there is no such page. If the guess is right, nothing is
/// searched.
fn page_near(pages: &[Page], name: &EncodedName<'_>, guess: usize) -> usize
    requires { ArePages pages.now }
    ensures { IsPageOf name.now pages.now result }
{
    let (begun, end) = near(pages, name, guess);
    count_between(pages, name, begun, end).saturating_sub(1)
}

/// Returns whether all rows come before `name`.
// `inline(always)`: called for each row of a table that is read.
#[inline(always)]
#[tactic(auto, using(crate::proofs::Pages::after_all, crate::proofs::SortedEntries::less_from_test))]
fn ends_before(pages: &[Page], name: &EncodedName<'_>) -> bool
    requires { ArePages pages.now }
    ensures before { IsTrue result → IsAfterAll name.now (entries_in pages.now) }
    ensures some { (IsTrue result → ⊥) → 1 ≤ length pages.now }
{
    let Some(page) = pages.last() else {
        return true;
    };
    match page.rows.as_slice().last() {
        Some(row) => row.name().compare(name).is_lt(),
        None => unreachable!(),
    }
}

/// Appends a row, which must come after all others.
// `inline(always)`: called for each row of a table that is read in order.
#[inline(always)]
#[tactic(auto, using(crate::proofs::ChangedEntries::if_err, crate::proofs::Pages::same_rows, crate::proofs::Pages::appended, crate::proofs::Pages::appended_page))]
fn append(alloc: Global, pages: &mut Vec<Page>, row: EncodedBinding) -> Result<(), AllocError>
    ensures rows { IfOk result (λ _. entries_in pages.new.items
        ≡ entries_in pages.old.items ++ entry_of row ∷ []) }
    ensures unchanged_on_error { IfErr result (λ _. entries_in pages.new.items
        ≡ entries_in pages.old.items) }
{
    let count = pages.len();
    if count > 0 && pages[count - 1].rows.len() < PAGE_ROWS {
        pages[count - 1].push(row)?;
        return Ok(());
    }
    let page = Page::of_row(alloc, row)?;
    pages.push(page)?;
    Ok(())
}

/// Returns the index of the page where a row of `name` belongs. If the page is full, splits it
/// first.
fn page_with_room(pages: &mut Vec<Page>, name: &EncodedName<'_>) -> Result<usize, AllocError>
    requires rising { ArePages pages.old.items }
    requires some { 1 ≤ length pages.old.items }
    ensures rows { entries_in pages.new.items ≡ entries_in pages.old.items }
    ensures index { IfOk result (IsPageWithRoom name.now pages.new.items) }
{
    let index = page_near(pages.as_slice(), name, NO_GUESS);
    if pages[index].rows.len() < PAGE_ROWS {
        return Ok(index);
    }
    divide(pages, index, name)
}

/// Splits the page where a row of `name` belongs, and returns the index of the part where it
/// belongs.
fn divide(pages: &mut Vec<Page>, index: usize, name: &EncodedName<'_>) -> Result<usize, AllocError>
    requires rising { ArePages pages.old.items }
    requires index { IsPageOf name.now pages.old.items index }
    requires rows { IsLongPage pages.old.items index }
    ensures rows { entries_in pages.new.items ≡ entries_in pages.old.items }
    ensures index { IfOk result (IsPageWithRoom name.now pages.new.items) }
{
    pages.reserve(1)?;
    let at_name = pages.len() < FEW_PAGES;
    let back = pages[index].divide(name, at_name)?;
    let belongs = if back.is_up_to(name) {
        index + 1
    } else {
        index
    };
    match pages.insert(index + 1, back) {
        Ok(()) => Ok(belongs),
        Err(_) => unreachable!(),
    }
}

/// Removes a row from a page. If the page has no other row, removes the page, which frees its
/// memory.
fn remove_row(pages: &mut Vec<Page>, index: usize, row: usize)
    requires { IsRowIn pages.old.items index row }
    ensures { IsWithoutRow pages.old.items index row (entries_in pages.new.items) }
{
    if pages[index].rows.len() > 1 {
        pages[index].remove(row);
    } else {
        let _ = pages.remove(index);
    }
}

/// The rows after a name, as repeated GetNexts return them.
#[derive(Drop)]
pub struct Successors<'a> {
    /// The rows left on the current page.
    rows: &'a [EncodedBinding],
    /// The pages after that page.
    pages: &'a [Page],
}

impl<'a> Model for Successors<'a> {
    ghost use Rattle.std.specs.Prelude.{◌++◌, ℕ, List};
    ghost use Rattle.snmp_wire.specs.Message.{Datum};
    ghost use Rattle.snmp_agent.specs.table.Pages.{entries_of, entries_in};

    ghost Value = { List (List ℕ × Datum) };

    ghost view = { λ s. entries_of s.rows.now ++ entries_in s.pages.now };
}

impl<'a> Successors<'a> {
    ghost use Rattle.std.specs.Prelude.{◌≡◌, ◌↔◌, ◌∷◌, [], ℕ, List, take, drop, IfSome, IfNone};
    ghost use Rattle.std.specs.Prelude.{IsTrue};
    ghost use Rattle.snmp_wire.specs.Message.{var_bind};
    ghost use Rattle.std.specs.Option.{option_map_or};
    ghost use Rattle.snmp_agent.specs.table.Entries.{entry_of, last_name};
    ghost use Rattle.snmp_agent.specs.table.Pages.{AreAllAfter};
    ghost use Rattle.snmp_agent.specs.table.Table.{MibView, IsNext};

    /// Sets `binding`, whose name these rows follow, to the result of a GetNext of that name: the
    /// first of the rows, or the name itself with `EndOfMibView` if there is none (RFC 3416,
    /// section 4.2.2). Removes that row.
    pub fn advance(&mut self, binding: &mut Binding<'a>)
        ensures next { (view : MibView) → AreAllAfter view binding.old.name self.old
            → IsNext view binding.old.name (var_bind binding.new) }
        ensures after { (view : MibView) → AreAllAfter view binding.old.name self.old
            → AreAllAfter view binding.new.name self.new }
    {
        order();
        match self.next_row() {
            Some(row) => row.read_into(binding),
            None => binding.value = ValueRef::EndOfMibView,
        }
    }

    /// Removes the first row, and returns it.
    #[inline]
    pub(crate) fn next_row(&mut self) -> Option<&'a EncodedBinding>
        ensures some { IfSome result (λ row. self.old ≡ entry_of row.now ∷ self.new) }
        ensures none { IfNone result ((self.old ≡ []) × (self.new ≡ [])) }
    {
        if let Some((row, rows)) = self.rows.split_first() {
            self.rows = rows;
            return Some(row);
        }
        let (page, pages) = self.pages.split_first()?;
        let (row, rows) = page.rows.as_slice().split_first()?;
        self.rows = rows;
        self.pages = pages;
        Some(row)
    }

    /// Returns the number of rows left on the current page, and the number of pages after it.
    #[inline]
    pub(crate) fn remaining_counts(&self) -> (usize, usize) {
        (self.rows.len(), self.pages.len())
    }

    /// Returns whether no row is left.
    #[inline]
    pub(crate) fn is_empty(&self) -> bool
        ensures { IsTrue result ↔ (self.now ≡ []) }
    {
        self.rows.is_empty() && self.pages.is_empty()
    }

    /// Skips `count` rows, or all if there are fewer, and sets `name` to the name of the last one
    /// skipped, if any.
    pub fn skip(&mut self, count: usize, name: &mut Oid)
        ensures left { self.new ≡ drop count self.old }
        ensures name { name.new ≡ last_name name.old (take count self.old) }
    {
        if let Some(row) = self.skip_rows(count) {
            row.name().read_into(name);
        }
    }

    /// Skips `count` rows, or all if there are fewer, and returns the last one skipped, if any.
    pub(crate) fn skip_rows(&mut self, count: usize) -> Option<&'a EncodedBinding>
        ensures left { self.new ≡ drop count self.old }
        ensures last { (o : List ℕ) → option_map_or (λ row. row.now.name) result o
            ≡ last_name o (take count self.old) }
    {
        let mut left = count;
        let mut last = None;
        'pages: while left > self.rows.len() {
            left -= self.rows.len();
            last = last_of(self.rows, last);
            match self.pages.split_first() {
                Some((page, pages)) => {
                    self.rows = page.rows.as_slice();
                    self.pages = pages;
                }
                None => {
                    self.rows = &[];
                    left = 0;
                }
            }
        }
        let (passed, rows) = self.rows.split_at(left);
        self.rows = rows;
        last_of(passed, last)
    }
}

impl<'a> Default for Successors<'a> {
    ghost is_default = { λ rows. rows ≡ [] };

    fn default() -> Successors<'a> {
        Successors {
            rows: &[],
            pages: &[],
        }
    }
}

/// Returns the last of `rows`, or `before` if there is none.
#[inline]
#[tactic(auto, using(crate::proofs::NextEntries::last_rows))]
fn last_of<'a>(
    rows: &'a [EncodedBinding],
    before: Option<&'a EncodedBinding>,
) -> Option<&'a EncodedBinding>
    ensures { (o : List ℕ) → option_map_or (λ row. row.now.name) result o
        ≡ last_name (option_map_or (λ row. row.now.name) before.entry o) (entries_of rows.now) }
{
    rows.last().or(before)
}
