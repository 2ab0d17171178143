//! One page of the rows of a table.
ghost use Rattle.std.specs.Prelude.{◌≡◌, ◌≤◌, length, IfOk, IfErr};
ghost use Rattle.std.specs.List.{insert};
ghost use Rattle.snmp_agent.specs.declared.table.page.TheConstants.{PAGE_ROWS};

use crate::table::search::{Placed, find_row};
use snmp_wire::{EncodedBinding, EncodedName};
use std::alloc::{AllocError, Global};

/// The greatest number of rows on a page.
pub const PAGE_ROWS: usize = 128;

/// Rows that are stored together, so that a change moves no others.
#[derive(Drop)]
pub struct Page {
    /// The rows. There is at least one.
    pub rows: Vec<EncodedBinding>,
    ghost some: { 1 ≤ length rows.items },
    ghost most: { length rows.items ≤ PAGE_ROWS },
    ghost at_most_256: { length rows.items ≤ 256 },
}

impl Page {
    ghost use Rattle.std.specs.Prelude.{◌≡◌, ◌<◌, ◌++◌, ◌∷◌, [], length, IfOk, IfErr};
    ghost use Rattle.std.specs.Ordering.{nat_cmp};
    ghost use Rattle.std.specs.Cmp.Lexicographic.{slice_cmp};
    ghost use Rattle.std.specs.FinMap.Entries.{put};
    ghost use Rattle.std.specs.List.{remove as remove_at};
    ghost use Rattle.snmp_agent.specs.table.Pages.{IsIncreasing, entries_of, has_name};

    /// Returns a page of one row.
    pub fn of_row(alloc: Global, row: EncodedBinding) -> Result<Page, AllocError>
        ensures { IfOk result (λ page. page.rows.items ≡ row ∷ []) }
    {
        let mut rows = Vec::new(alloc);
        rows.push(row)?;
        Ok(Page { rows })
    }

    /// Appends a row.
    pub fn push(&mut self, row: EncodedBinding) -> Result<(), AllocError>
        requires { length self.old.rows.items < PAGE_ROWS }
        ensures pushed { IfOk result (λ _. self.new.rows.items ≡ self.old.rows.items ++ row ∷ []) }
        ensures unchanged_on_error { IfErr result (λ _. self.new.rows.items
            ≡ self.old.rows.items) }
    {
        self.rows.push(row)?;
        Ok(())
    }

    /// Inserts a row in the order of names, or replaces the row that has its name. Returns whether
    /// there was such a row.
    pub fn put(&mut self, row: EncodedBinding) -> Result<bool, AllocError>
        requires rising { IsIncreasing self.old.rows.items }
        requires room { length self.old.rows.items < PAGE_ROWS }
        ensures put { IfOk result (λ _. entries_of self.new.rows.items
            ≡ put (slice_cmp nat_cmp) row.name row.value (entries_of self.old.rows.items)) }
        ensures replaced { IfOk result (λ replaced. replaced
            ≡ has_name row.name (entries_of self.old.rows.items)) }
        ensures unchanged_on_error { IfErr result (λ _. self.new.rows.items
            ≡ self.old.rows.items) }
    {
        let found = find_row(self.rows.as_slice(), &row.name());
        match found {
            Ok(index) => {
                self.rows[index] = row;
                Ok(true)
            }
            Err(index) => {
                insert_row(&mut self.rows, index, row)?;
                Ok(false)
            }
        }
    }

    /// Splits the page to make room for a row of `name`, and returns its second part. This is half
    /// of the rows, rounded up, with two exceptions: if all rows come before `name`, it is only the
    /// last row; if no row comes before `name`, it is all rows but the first. So rows that arrive
    /// in increasing or decreasing order nearly fill their pages.
    ///
    /// With `at_name`, a second part of less than half may begin where `name` belongs. So columns
    /// that are listed row by row mostly fill their pages too.
    pub fn divide(&mut self, name: &EncodedName<'_>, at_name: bool) -> Result<Page, AllocError>
        requires { 1 < length self.old.rows.items }
        ensures parts { IfOk result (λ back. self.old.rows.items
            ≡ self.new.rows.items ++ back.rows.items) }
        ensures unchanged_on_error { IfErr result (λ _. self.new.rows.items
            ≡ self.old.rows.items) }
    {
        let count = self.rows.len();
        let half = count / 2;
        let belongs = self
            .rows
            .partition_point(|row| row.name().compare(name).is_lt());
        let index = match belongs {
            0 => 1,
            _ if belongs == count || at_name && belongs > half => belongs.min(count - 1),
            _ => half,
        };
        let rows = self.rows.split_off(index)?;
        Ok(Page { rows })
    }

    /// Removes the row at index `index`, which must not be the only one.
    pub fn remove(&mut self, index: usize)
        requires other { 1 < length self.old.rows.items }
        requires within { index < length self.old.rows.items }
        ensures { self.new.rows.items ≡ remove_at self.old.rows.items index }
    {
        let _ = self.rows.remove(index);
    }
}

impl Placed for Page {
    ghost use Rattle.std.specs.Prelude.{◌≡◌};
    ghost use Rattle.snmp_agent.specs.table.Pages.{begins_up_to};

    ghost up_to = { λ o page. begins_up_to o page.rows.items };

    // `inline(always)`: called for each step of a search for a page.
    #[inline(always)]
    fn is_up_to(&self, name: &EncodedName<'_>) -> bool
        ensures { result ≡ begins_up_to name.now self.now.rows.items }
    {
        match self.rows.as_slice().first() {
            Some(row) => row.is_up_to(name),
            None => true,
        }
    }
}

/// Inserts a row at index `index`.
fn insert_row(
    rows: &mut Vec<EncodedBinding>,
    index: usize,
    row: EncodedBinding,
) -> Result<(), AllocError>
    requires { index ≤ length rows.old.items }
    ensures inserted { IfOk result (λ _. rows.new.items ≡ insert rows.old.items index row) }
    ensures unchanged_on_error { IfErr result (λ _. rows.new.items ≡ rows.old.items) }
{
    let count = rows.len();
    // `push` would double the capacity, which may be more than a page needs.
    if count == rows.capacity() && count > PAGE_ROWS / 2 {
        rows.reserve_exact(PAGE_ROWS.saturating_sub(count))?;
    }
    rows.push(row)?;
    // Moves the rows after it at once; `Vec::insert` moves them one by one.
    rows[index..].rotate_right(1);
    Ok(())
}
