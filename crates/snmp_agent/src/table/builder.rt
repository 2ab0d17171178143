//! A table while it is read from text.
ghost use Rattle.std.specs.Prelude.{◌≡◌, true, false, [], List};

use crate::table::error::TableError;
use crate::table::format::LineFormat;
use crate::table::hashes::Hashes;
use crate::table::line::{Line, LineFault, read_line};
use crate::table::pages::Pages;
use crate::table::pending::PendingRow;
use crate::table::split::split_line;
use snmp_oid::names;
use snmp_wire::{Binding, EncodedBinding, EncodedName};
use std::alloc::{AllocError, Global};
use std::collections::BTreeSet;
use std::mem;

/// What the lines read so far contain.
///
/// Inserting a single row among many others takes long: each step of the search waits for memory,
/// and half a page of rows is moved. So if rows come in no order, they are collected. Each time
/// that there are as many as the pages have room for, they are sorted and inserted together.
///
/// While rows are collected, a name that occurs twice is found at its second line, by hashes of
/// the names. If the hash of a row's name isn't new, or can't be stored, the collected rows and
/// then this row are inserted, which shows whether the name is new. If it is, rows are inserted at
/// once from then on, so that names with equal hashes can't make this happen again and again.
#[derive(Drop)]
pub struct TableBuilder {
    /// The rows that were inserted.
    pub rows: Pages,
    /// The rows that are collected.
    late: Vec<PendingRow>,
    /// The object prefixes.
    pub objects: BTreeSet<Vec<u32>>,
    /// Whether each row is inserted at once.
    exact: bool,
    /// Whether rows are collected, apart from those that come after all inserted ones.
    gathers: bool,
    /// While rows are collected, the hashes of the names of all rows but the last `unhashed`
    /// inserted ones.
    hashes: Hashes,
    /// While rows are collected, the number of the last inserted rows whose names aren't hashed
    /// yet, or `usize::MAX` if no name is. A row after all others has a new name, which is hashed
    /// only when another row is collected.
    unhashed: usize,
    /// Whether no more rows are collected, since the hash of a name wasn't new or couldn't be
    /// stored.
    no_more: bool,
    ghost exactly: { exact ≡ true → gathers ≡ false },
    ghost at_once: { gathers ≡ false → late.items ≡ [] },
}

/// Why a reading stops.
#[derive(Clone, Copy, PartialEq, Eq)]
pub enum Halt {
    /// The last line read is the first faulty one. Holds its fault.
    Fault(TableError),
    /// Memory ran out in an exact reading.
    Memory,
    /// In a reading that isn't exact, memory ran out, or collected rows couldn't all be inserted.
    /// The caller must read the text again, exactly.
    Again,
}

impl TableBuilder {
    ghost use Rattle.std.specs.Prelude.{◌≡◌, ℕ, ◌++◌, ◌∷◌, [], List, true, false, IfOk, IfErr};
    ghost use Rattle.std.specs.Prelude.{IsTrue, MatchResult};
    ghost use Rattle.std.specs.List.Sorted.{IsPermutation};
    ghost use Rattle.std.specs.FinMap.{entries};
    ghost use Rattle.std.specs.Str.Lines.{lines};
    ghost use Rattle.snmp_agent.specs.table.Format.{Format};
    ghost use Rattle.snmp_agent.specs.table.Entries.{entry_of};
    ghost use Rattle.snmp_agent.specs.private.table.TableBuilder.{HoldsTable, IsDraft, IsFirstHalt};
    ghost use Rattle.snmp_agent.specs.private.table.TableBuilder.{IsFull, IsHalt, IsHaltAt, IsStop};
    ghost use Rattle.snmp_agent.specs.private.table.TableBuilder.{draft_entries, draft_objects};

    /// Returns the builder before the first line is read.
    fn new(alloc: Global, exact: bool) -> TableBuilder
        ensures draft { (format : Format) → IsDraft format [] result }
        ensures exact { result.exact ≡ exact }
    {
        TableBuilder {
            rows: Pages::new(alloc),
            late: Vec::new(alloc),
            objects: BTreeSet::new(alloc),
            exact,
            gathers: false,
            hashes: Hashes::new(alloc),
            unhashed: 0,
            no_more: false,
        }
    }

    /// Reads the table that a text of this format defines. An exact reading inserts each row at
    /// once, so that no collected rows take memory.
    pub fn read<F: LineFormat>(
        alloc: Global,
        text: &[u8],
        format: &F,
        exact: bool,
    ) -> Result<TableBuilder, Halt>
        ensures draft { IfOk result (λ draft. HoldsTable (F.format format.now) (lines text.now)
            (entries draft.rows) (draft_objects draft)) }
        ensures halt { IfErr result (IsFirstHalt (F.format format.now) (lines text.now) exact) }
    {
        let mut draft = TableBuilder::new(alloc, exact);
        let mut binding = Binding::empty();
        let mut rest = text;
        let mut number = 0;
        'lines: while !rest.is_empty() {
            let (line, after) = split_line(rest);
            number += 1;
            draft.add(alloc, format, line, number, &mut binding)?;
            if !draft.settle_in_time(alloc) {
                return Err(Halt::Again);
            }
            rest = after;
        }
        if draft.settle(alloc) {
            Ok(draft)
        } else {
            Err(Halt::Again)
        }
    }

    /// Reads the line of this number into `into`, and adds what it contains.
    #[tactic(auto, using(crate::proofs::DraftLines::full, crate::proofs::DraftLines::stopped))]
    fn add<'a, F: LineFormat>(
        &mut self,
        alloc: Global,
        format: &F,
        line: &'a [u8],
        number: usize,
        into: &mut Binding<'a>,
    ) -> Result<(), Halt>
        ensures draft { (before : List (List ℕ)) → IsDraft (F.format format.now) before self.old
            → MatchResult result
            (λ _. IsDraft (F.format format.now) (before ++ line.now ∷ []) self.new)
            (IsHalt (F.format format.now) before line.now number self.old.exact) }
        ensures exact { self.new.exact ≡ self.old.exact }
    {
        names();
        match read_line(alloc, format, line, into) {
            Ok(Line::Nothing) => Ok(()),
            Ok(Line::Object(object)) => match self.objects.insert(object) {
                Ok(_) => Ok(()),
                Err(_) => Err(self.full()),
            },
            Ok(Line::Instance(row)) => self.put(alloc, row, number),
            Err(LineFault::Line) => Err(self.stop(alloc, TableError::BadLine { line: number })),
            Err(LineFault::Name) => Err(self.stop(alloc, TableError::BadName { line: number })),
            Err(LineFault::Value) => Err(self.stop(alloc, TableError::BadValue { line: number })),
            Err(LineFault::Memory) => Err(self.full()),
        }
    }

    /// Returns why the reading stops if memory runs out.
    fn full(&self) -> Halt
        ensures { IsFull self.now.exact result }
    {
        if self.exact {
            Halt::Memory
        } else {
            Halt::Again
        }
    }

    /// Returns why the reading stops at a line with this fault. Inserts the collected rows first:
    /// the fault is the first one if no two rows before it have the same name.
    #[tactic(auto, using(crate::proofs::DraftLines::settled_distinct))]
    fn stop(&mut self, alloc: Global, fault: TableError) -> Halt
        ensures halt { IsStop (draft_entries self.old) self.old.exact fault result }
        ensures exact { self.new.exact ≡ self.old.exact }
    {
        if self.settle(alloc) {
            Halt::Fault(fault)
        } else {
            Halt::Again
        }
    }

    /// Inserts or collects the row on the line of this number.
    // `inline(always)`: called for each row of a table file; inlining saves one move of the row.
    #[inline(always)]
    fn put(&mut self, alloc: Global, row: EncodedBinding, number: usize) -> Result<(), Halt>
        ensures rows { IfOk result (λ _. IsPermutation (draft_entries self.old ++ entry_of row ∷ [])
            (draft_entries self.new)) }
        ensures halt { IfErr result
            (IsHaltAt row.name (draft_entries self.old) number self.old.exact) }
        ensures objects { self.new.objects ≡ self.old.objects }
        ensures exact { self.new.exact ≡ self.old.exact }
    {
        if self.gathers {
            return self.gather(alloc, row, number);
        }
        let Ok(is_there) = self.rows.put(alloc, row) else {
            return Err(self.full());
        };
        match is_there {
            false => Ok(()),
            true => Err(Halt::Fault(TableError::Double { line: number })),
        }
    }

    /// Appends a row if it comes after all inserted ones. Otherwise collects it if the hash of its
    /// name is new and was stored, and inserts it if not.
    #[inline(never)]
    #[tactic(auto, using(crate::proofs::GatheredRows::appended_moves))]
    fn gather(&mut self, alloc: Global, row: EncodedBinding, number: usize) -> Result<(), Halt>
        requires { self.old.gathers ≡ true }
        ensures rows { IfOk result (λ _. IsPermutation (draft_entries self.old ++ entry_of row ∷ [])
            (draft_entries self.new)) }
        ensures halt { IfErr result
            (IsHaltAt row.name (draft_entries self.old) number self.old.exact) }
        ensures objects { self.new.objects ≡ self.old.objects }
        ensures exact { self.new.exact ≡ self.old.exact }
    {
        if self.rows.ends_before(&row.name()) {
            self.unhashed = self.unhashed.saturating_add(1);
            return self.rows.append(alloc, row).map_err(|_| Halt::Again);
        }
        let name = row.name();
        let late = self.late.as_slice();
        let (unhashed, hashes) = (&mut self.unhashed, &mut self.hashes);
        if !is_new(alloc, &self.rows, late, unhashed, hashes, &name) {
            return self.put_known(alloc, row, number);
        }
        self.late
            .push(PendingRow::new(row))
            .map_err(|_| Halt::Again)
    }

    /// Inserts the collected rows, and then this one. No row is collected from then on.
    #[inline(never)]
    fn put_known(&mut self, alloc: Global, row: EncodedBinding, number: usize) -> Result<(), Halt>
        requires { self.old.gathers ≡ true }
        ensures rows { IfOk result (λ _. IsPermutation (draft_entries self.old ++ entry_of row ∷ [])
            (draft_entries self.new)) }
        ensures halt { IfErr result
            (IsHaltAt row.name (draft_entries self.old) number self.old.exact) }
        ensures objects { self.new.objects ≡ self.old.objects }
        ensures exact { self.new.exact ≡ self.old.exact }
    {
        if !self.settle(alloc) {
            return Err(Halt::Again);
        }
        // The list isn't used again, and its memory may be needed.
        self.late = Vec::new(alloc);
        self.gathers = false;
        self.no_more = true;
        match self.rows.put(alloc, row) {
            Ok(false) => Ok(()),
            Ok(true) => Err(Halt::Fault(TableError::Double { line: number })),
            Err(_) => Err(Halt::Again),
        }
    }

    /// Begins to collect rows if they come in no order and may be collected, and inserts the
    /// collected rows once there are as many as the pages have room for. Returns `false` if these
    /// couldn't all be inserted.
    #[inline(always)]
    fn settle_in_time(&mut self, alloc: Global) -> bool
        ensures moved { IsTrue result
            → IsPermutation (draft_entries self.old) (draft_entries self.new) }
        ensures exactly { result ≡ false → self.old.exact ≡ false }
        ensures objects { self.new.objects ≡ self.old.objects }
        ensures exact { self.new.exact ≡ self.old.exact }
    {
        if self.gathers {
            if self.late.len() < self.rows.most_rows() {
                return true;
            }
            return self.put_pending(alloc);
        }
        if self.exact || self.no_more || !self.rows.are_scattered() {
            return true;
        }
        self.gathers = true;
        self.unhashed = usize::MAX;
        true
    }

    /// Inserts the collected rows for the last time: the hashes are dropped. Returns whether all
    /// could be inserted, which they can't if a name occurs twice or memory runs out.
    fn settle(&mut self, alloc: Global) -> bool
        ensures moved { IsTrue result
            → IsPermutation (draft_entries self.old) (draft_entries self.new) }
        ensures none { IsTrue result → self.new.late.items ≡ [] }
        ensures exactly { result ≡ false → self.old.exact ≡ false }
        ensures objects { self.new.objects ≡ self.old.objects }
        ensures exact { self.new.exact ≡ self.old.exact }
    {
        // No more names are hashed, and the memory may be needed.
        self.hashes = Hashes::new(alloc);
        self.put_pending(alloc)
    }

    /// Inserts the collected rows; more can be collected afterwards. Returns whether all could be
    /// inserted, as [`TableBuilder::settle`] does.
    #[tactic(auto, using(std::proofs::lemmas::Grind::common_steps, crate::proofs::GatheredRows::settled_moves))]
    fn put_pending(&mut self, alloc: Global) -> bool
        ensures moved { IsTrue result
            → IsPermutation (draft_entries self.old) (draft_entries self.new) }
        ensures none { IsTrue result → self.new.late.items ≡ [] }
        ensures exactly { result ≡ false → self.old.exact ≡ false }
        ensures objects { self.new.objects ≡ self.old.objects }
        ensures exact { self.new.exact ≡ self.old.exact }
    {
        if self.late.is_empty() {
            return true;
        }
        let mut late = mem::replace(&mut self.late, Vec::new(alloc));
        let apart = self.rows.put_sorted(alloc, &mut late);
        // Rows that are collected later use the memory of the list again.
        late.clear();
        self.late = late;
        match apart {
            Ok(apart) => apart,
            Err(_) => false,
        }
    }
}

/// Hashes `name`, and the names of the inserted rows that aren't hashed yet. Returns whether each
/// hash is new and was stored.
fn is_new(
    alloc: Global,
    rows: &Pages,
    late: &[PendingRow],
    unhashed: &mut usize,
    hashes: &mut Hashes,
    name: &EncodedName<'_>,
) -> bool {
    let mut count = mem::replace(unhashed, 0);
    if !hashes.have_room(count.saturating_add(1)) {
        if !rehash(alloc, rows, late, hashes) {
            return false;
        }
        count = usize::MAX;
    }
    (count == 0 || rows.insert_last(count, hashes)) && hashes.insert(name)
}

/// Removes all hashes, makes room for more, and hashes the names of the collected rows. Returns
/// whether there is memory for it, and each hash is new and was stored.
#[inline(never)]
fn rehash(alloc: Global, rows: &Pages, late: &[PendingRow], hashes: &mut Hashes) -> bool {
    let count = rows.count().saturating_add(late.len());
    if !hashes.clear(alloc, count) {
        return false;
    }
    for late in late {
        if !hashes.insert(&late.row().name()) {
            return false;
        }
    }
    true
}
