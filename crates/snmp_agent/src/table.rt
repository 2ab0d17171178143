//! The table of an agent: the instances that it serves. It can be read from a text file.
//!
//! The agent computes its replies from the table.
ghost use Rattle.std.specs.Prelude.{◌↔◌, map, IsTrue};
ghost use Rattle.snmp_agent.specs.table.Entries.{HasBeginning};

mod builder;
mod error;
mod format;
mod hashes;
mod hint;
mod instance;
mod line;
mod page;
mod pages;
mod pending;
mod search;
mod split;
mod value;

use crate::table::builder::{Halt, TableBuilder};
use crate::table::format::{FirstFormat, LineFormat, SecondFormat, is_marked};
use crate::table::instance::{is_instance_name, is_instance_value};
use crate::table::pages::Pages;
pub use error::{PutError, TableError};
pub use format::{NumericNames, Resolver};
pub use hint::Hint;
pub(crate) use hint::{Guesses, Last};
pub use pages::Successors;
use snmp_oid::order;
use snmp_wire::{Binding, EncodedBinding, EncodedName, MAX_CONTENT, Oid, ValueRef};
use std::alloc::Global;
use std::collections::BTreeSet;
use std::marker::Model;

/// The instances and the object prefixes that an agent serves.
pub struct Table {
    alloc: Global,
    /// The rows. Replies search these directly, with a hint.
    pub(crate) rows: Pages,
    objects: BTreeSet<Vec<u32>>,
}

impl Model for Table {
    ghost use Rattle.std.specs.Prelude.{map};
    ghost use Rattle.std.specs.Coded.{codes};
    ghost use Rattle.std.specs.FinMap.{code};
    ghost use Rattle.snmp_agent.specs.table.Table.{MibView};

    ghost Value = { MibView };

    ghost coded = { Prim.hlevel (codes, code) };

    ghost use Rattle.snmp_agent.specs.table.Entries.{view_of};
    ghost use Rattle.snmp_agent.specs.table.Table.{IsMibView};

    ghost view = { λ t. view_of t.rows (map (λ o. o.items) t.objects.keys) };

    // Every table is a MIB view.
    ghost invariant = { λ t. IsMibView (view_of t.rows (map (λ o. o.items) t.objects.keys)) };
}

impl Drop for Table {
    // Written out, so that it is proved only here. A derived drop would be proved again in each
    // crate that uses this one, with the drops of all types in a table.
    fn drop(self) {
        let Table {
            alloc: _alloc,
            rows: _rows,
            objects: _objects,
        } = self;
    }
}

impl Table {
    ghost use Rattle.std.specs.Prelude.{◌≡◌, IfOk, IfErr, None};
    ghost use Rattle.std.specs.{Str.Lines.lines, FinMap.get};
    ghost use Rattle.snmp_wire.specs.Message.{datum};
    ghost use Rattle.snmp_agent.specs.table.Format.{numeric_names};
    ghost use Rattle.snmp_agent.specs.table.Pages.{AreAllAfter};
    ghost use Rattle.snmp_agent.specs.table.Stated.{IsTableOf, IsFirstFault};
    ghost use Rattle.snmp_agent.specs.table.Stated.{IsTableIn, IsFirstFaultIn};
    ghost use Rattle.snmp_agent.specs.table.Table.{IsAnswerValue, IsGet, IsMibView};

    /// Reads the table that `text` defines (`docs/REFERENCE.md`), with numeric names. If a line is
    /// faulty, returns the fault of the first such line. If there isn't enough memory, returns
    /// `Memory` instead of any other result.
    ///
    /// A line ends with LF, with CR LF or at the end of the text. A CR that isn't followed by LF
    /// belongs to its line.
    pub fn read(alloc: Global, text: &[u8]) -> Result<Table, TableError>
        ensures table { IfOk result (IsTableOf numeric_names (lines text.now)) }
        ensures view { IfOk result IsMibView }
        ensures fault { IfErr result (IsFirstFault numeric_names (lines text.now)) }
    {
        Table::read_with(alloc, text, &NumericNames)
    }

    /// Reads the table that `text` defines, as [`Table::read`] does. If the text has the second
    /// format, which begins with the line `#snmptab 2`, its names are read by `names`.
    pub fn read_with<R: Resolver>(
        alloc: Global,
        text: &[u8],
        names: &R,
    ) -> Result<Table, TableError>
        ensures table { IfOk result (IsTableOf (R.names names.now) (lines text.now)) }
        ensures view { IfOk result IsMibView }
        ensures fault { IfErr result (IsFirstFault (R.names names.now) (lines text.now)) }
    {
        if is_marked(text) {
            Table::read_in(alloc, text, &SecondFormat { names })
        } else {
            Table::read_in(alloc, text, &FirstFormat)
        }
    }

    /// Reads the table that a text of this format defines.
    fn read_in<F: LineFormat>(alloc: Global, text: &[u8], format: &F) -> Result<Table, TableError>
        ensures table { IfOk result (IsTableIn (F.format format.now) (lines text.now)) }
        ensures view { IfOk result IsMibView }
        ensures fault { IfErr result (IsFirstFaultIn (F.format format.now) (lines text.now)) }
    {
        let read = match TableBuilder::read(alloc, text, format, false) {
            // Memory ran out, or collected rows couldn't all be inserted. An exact reading
            // collects no rows.
            Err(Halt::Again) => TableBuilder::read(alloc, text, format, true),
            read => read,
        };
        match read {
            Ok(draft) => Ok(Table {
                alloc,
                rows: draft.rows,
                objects: draft.objects,
            }),
            Err(Halt::Fault(fault)) => Err(fault),
            Err(Halt::Memory) => Err(TableError::Memory),
            Err(Halt::Again) => unreachable!(),
        }
    }

    /// A law: what a table serves is a MIB view. Does nothing when it runs.
    pub fn is_mib_view(&self)
        ensures { IsMibView self.now }
    {
        let _ = &self.rows;
    }

    /// Returns the exception that a Get of `name` yields (see [`Table::get`]). The table must have
    /// no instance of this name.
    #[tactic(auto, using(crate::proofs::RowSearch::get_no_instance, crate::proofs::RowSearch::get_no_object))]
    pub(crate) fn exception(&self, name: &Oid) -> ValueRef<'_>
        requires { get self.now.rows name.now ≡ None }
        ensures answer { IsGet self.now name.now
            (record { name = name.now; value = datum result }) }
        ensures value { IsAnswerValue (datum result) }
    {
        if has_beginning(&self.objects, name.as_slice()) {
            ValueRef::NoSuchInstance
        } else {
            ValueRef::NoSuchObject
        }
    }

    /// Returns the rows after `name`, in order.
    pub fn after(&self, name: &EncodedName<'_>) -> Successors<'_>
        ensures { AreAllAfter self.now name.now result }
    {
        let mut last = Last::default();
        self.rows
            .after_near(name, &mut Guesses::without_names(&mut last))
    }
}

// Calls for single variables, for a program that changes a table itself; `snmp` doesn't.
impl Table {
    ghost use Rattle.std.specs.Prelude.{◌≡◌, IfOk, IfErr};
    ghost use Rattle.std.specs.{Option.option_map, FinMap.contains_key, FinMap.get};
    ghost use Rattle.snmp_oid.specs.Identifier.{IsWire};
    ghost use Rattle.snmp_wire.specs.Message.{datum, var_bind};
    ghost use Rattle.snmp_agent.specs.table.Table.{IsAnswerValue, IsGet, IsInstanceName};
    ghost use Rattle.snmp_agent.specs.table.Table.{IsInstanceValue, IsNextAfter, IsPutError};
    ghost use Rattle.snmp_agent.specs.table.Table.{with_row, without_row};

    /// Returns the value that a Get of `name` yields: the value of its instance. Without an
    /// instance, this is `NoSuchInstance` if an object prefix equals or begins `name`, otherwise
    /// `NoSuchObject` (RFC 3416, section 4.2.1).
    pub fn get(&self, name: &Oid) -> ValueRef<'_>
        ensures answer { IsGet self.now name.now
            (record { name = name.now; value = datum result }) }
        ensures value { IsAnswerValue (datum result) }
    {
        self.is_mib_view();
        match self.row_of(name) {
            Some(row) => row.value(),
            None => self.exception(name),
        }
    }

    /// Returns the row of `name`, if there is one. No row has a name without an encoding.
    #[tactic(auto, using(crate::proofs::ChangedEntries::unnamed))]
    fn row_of(&self, name: &Oid) -> Option<&EncodedBinding>
        ensures { option_map (λ row. row.now.value) result ≡ get self.now.rows name.now }
    {
        self.is_mib_view();
        if !name.is_wire() {
            return None;
        }
        let mut content = [0; MAX_CONTENT];
        let mut last = Last::default();
        self.rows.find_near(
            &EncodedName::write(name, &mut content),
            &mut Guesses::without_names(&mut last),
        )
    }

    /// Sets the value of the instance `name`, and returns whether the instance existed before.
    /// Other rows are unchanged; after an error, the whole table is unchanged. No message changes
    /// a table, since agents are read-only.
    pub fn put(&mut self, name: &Oid, value: ValueRef<'_>) -> Result<bool, PutError>
        ensures put { IfOk result (λ _. self.new ≡ with_row self.old name.now (datum value.entry)) }
        ensures replaced { IfOk result
            (λ replaced. replaced ≡ contains_key self.old.rows name.now) }
        ensures variable { IfOk result (λ _. IsInstanceName name.now
            × IsInstanceValue (datum value.entry)) }
        ensures error { IfErr result (IsPutError name.now (datum value.entry)) }
        ensures unchanged_on_error { IfErr result (λ _. self.new ≡ self.old) }
    {
        if !is_instance_name(name) {
            return Err(PutError::BadName);
        }
        if !is_instance_value(&value) {
            return Err(PutError::BadValue);
        }
        let Ok(row) = EncodedBinding::new(self.alloc, name, &value) else {
            return Err(PutError::Memory);
        };
        self.rows.put(self.alloc, row).map_err(|_| PutError::Memory)
    }

    /// Removes the instance `name`, and returns whether it existed. Other rows are unchanged.
    ///
    /// Allocates nothing. The memory of a page is freed when its last row is removed.
    pub fn remove(&mut self, name: &Oid) -> bool
        ensures removed { self.new ≡ without_row self.old name.now }
        ensures found { result ≡ contains_key self.old.rows name.now }
    {
        self.is_mib_view();
        if !name.is_wire() {
            return false;
        }
        let mut content = [0; MAX_CONTENT];
        self.rows.remove(&EncodedName::write(name, &mut content))
    }

    /// Sets `into` to the result of the last of `rounds + 1` GetNexts. The first is of `name`, and
    /// each other is of the name that the previous one returned, as in the rounds of a GetBulk
    /// (RFC 3416, section 4.2.3).
    pub fn read_next_after<'a>(
        &'a self,
        name: &EncodedName<'_>,
        rounds: usize,
        into: &mut Binding<'a>,
    )
        ensures answer { IsNextAfter self.now rounds name.now (var_bind into.new) }
        ensures name { IsWire into.new.name }
        ensures value { IsAnswerValue (datum into.new.value) }
    {
        order();
        self.is_mib_view();
        let _content = name.content();
        let mut rows = self.after(name);
        name.read_into(&mut into.name);
        rows.skip(rounds, &mut into.name);
        rows.advance(into);
    }
}

/// Returns whether one of the object prefixes equals or begins `name`.
fn has_beginning(objects: &BTreeSet<Vec<u32>>, name: &[u32]) -> bool
    ensures { IsTrue result ↔ HasBeginning (map
        (λ object. object.items) objects.now.keys) name.now }
{
    'ends: for end in 0..=name.len() {
        if objects.contains(&name[..end]) {
            return true;
        }
    }
    false
}
