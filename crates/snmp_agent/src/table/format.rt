//! The two formats of a table's text, and the reader of names for the second.
ghost use Rattle.std.specs.Prelude.{◌≡◌, ◌++◌, ◌∷◌, ◌↔◌, IsTrue, MatchOption, codes};
ghost use Rattle.std.specs.Str.Lines.{lines};
ghost use Rattle.snmp_agent.specs.table.Exact.{IsOnlyThere};
ghost use Rattle.snmp_agent.specs.table.Format.{EndsAtBar, Format, HasNoEnd, IsLeadingName};
ghost use Rattle.snmp_agent.specs.table.Format.{IsMarked};
ghost use Rattle.snmp_agent.specs.table.Format.{IsName, IsNameIn, Names, bar, numeric_names};
ghost use Rattle.snmp_agent.specs.table.Format.{first_format, second_format};

use crate::table::split::{split_line, split_once};
use snmp_io::{split_unquoted, unquoted_prefix};
use snmp_wire::{Oid, read_numeric};

/// A reader of the names in a table file of the second format (`docs/REFERENCE.md`).
pub trait Resolver {
    /// The texts that are names, with their identifiers.
    ghost names: { Self → Names };

    /// Reads the name that `text` has before the first `|` outside quotes, or all of `text` if it
    /// has no such bar. Returns its identifier and its length in octets, or `None` if that isn't a
    /// name.
    fn leading_name(&self, text: &[u8]) -> Option<(Oid, usize)>
        ensures { IsLeadingName (names self.now) text.now result };
}

/// A reader of only numeric names.
#[derive(Clone, Copy, Debug)]
pub struct NumericNames;

impl Resolver for NumericNames {
    ghost use Rattle.snmp_agent.specs.table.Format.{IsLeadingName, numeric_names};

    ghost names = { λ _. numeric_names };

    fn leading_name(&self, text: &[u8]) -> Option<(Oid, usize)>
        ensures { IsLeadingName numeric_names text.now result }
    {
        let prefix = unquoted_prefix(text, b'|');
        let mut oid = Oid::new();
        if numeric_name(prefix, &mut oid) {
            Some((oid, prefix.len()))
        } else {
            None
        }
    }
}

/// A format of a table's lines.
pub trait LineFormat {
    ghost format: { Self → Format };

    /// Reads the identifier that `text` names into `into`, and returns whether it names one.
    fn name(&self, text: &[u8], into: &mut Oid) -> bool
        ensures { IsOnlyThere (IsNameIn (format self.now) text.now) result into.new };

    /// Returns the text of a row's name, and the text after the bar that ends it. Returns `None`
    /// if no bar ends a name.
    fn split_name<'b>(&self, line: &'b [u8]) -> Option<(&'b [u8], &'b [u8])>
        ensures { MatchOption result (HasNoEnd (format self.now) line.now)
            (λ parts. (line.now ≡ parts.0.now ++ bar ∷ parts.1.now)
            × EndsAtBar (format self.now) parts.0.now) };
}

/// The first format: numeric names, which end at the first bar.
#[derive(Clone, Copy)]
pub struct FirstFormat;

impl LineFormat for FirstFormat {
    ghost use Rattle.std.specs.Prelude.{◌≡◌, ◌++◌, ◌∷◌, MatchOption};
    ghost use Rattle.snmp_agent.specs.table.Exact.{IsOnlyThere};
    ghost use Rattle.snmp_agent.specs.table.Format.{EndsAtBar, HasNoEnd, IsNameIn, bar};
    ghost use Rattle.snmp_agent.specs.table.Format.{first_format};

    ghost format = { λ _. first_format };

    fn name(&self, text: &[u8], into: &mut Oid) -> bool
        ensures { IsOnlyThere (IsNameIn first_format text.now) result into.new }
    {
        numeric_name(text, into)
    }

    fn split_name<'b>(&self, line: &'b [u8]) -> Option<(&'b [u8], &'b [u8])>
        ensures { MatchOption result (HasNoEnd first_format line.now)
            (λ parts. (line.now ≡ parts.0.now ++ bar ∷ parts.1.now)
            × EndsAtBar first_format parts.0.now) }
    {
        split_once(line, b'|')
    }
}

/// The second format: the names of a resolver, which end at the first bar outside quotes.
#[derive(Drop)]
pub struct SecondFormat<'a, R: Resolver> {
    /// The reader of the names.
    pub names: &'a R,
}

impl<'a, R: Resolver> LineFormat for SecondFormat<'a, R> {
    ghost use Rattle.std.specs.Prelude.{◌≡◌, ◌++◌, ◌∷◌, MatchOption};
    ghost use Rattle.snmp_agent.specs.table.Exact.{IsOnlyThere};
    ghost use Rattle.snmp_agent.specs.table.Format.{EndsAtBar, HasNoEnd, IsNameIn, bar};
    ghost use Rattle.snmp_agent.specs.table.Format.{second_format};

    ghost format = { λ f. second_format (R.names f.names.now) };

    fn name(&self, text: &[u8], into: &mut Oid) -> bool
        ensures { IsOnlyThere (IsNameIn (second_format (R.names self.now.names.now)) text.now)
            result into.new }
    {
        match self.names.leading_name(text) {
            Some((oid, size)) if size == text.len() => {
                into.set_to(&oid);
                true
            }
            _ => false,
        }
    }

    #[tactic(auto, using(crate::proofs::Formats::match_weaker, crate::proofs::Formats::no_end_second))]
    fn split_name<'b>(&self, line: &'b [u8]) -> Option<(&'b [u8], &'b [u8])>
        ensures { MatchOption result
            (HasNoEnd (second_format (R.names self.now.names.now)) line.now)
            (λ parts. (line.now ≡ parts.0.now ++ bar ∷ parts.1.now)
            × EndsAtBar (second_format (R.names self.now.names.now)) parts.0.now) }
    {
        split_unquoted(line, b'|')
    }
}

/// Reads the identifier of a numeric name into `into`, and returns whether `text` is such a name.
fn numeric_name(text: &[u8], into: &mut Oid) -> bool
    ensures { IsOnlyThere (IsName text.now) result into.new }
{
    read_numeric(text, into).is_ok()
}

/// Returns whether the first line says that `text` has the second format.
#[tactic(auto, using(crate::proofs::Formats::marked_by_first))]
pub fn is_marked(text: &[u8]) -> bool
    ensures { IsTrue result ↔ IsMarked (lines text.now) }
{
    if text.is_empty() {
        return false;
    }
    let (line, _) = split_line(text);
    is_mark(line)
}

/// Returns whether a line is the mark of the second format.
fn is_mark(line: &[u8]) -> bool
    ensures { IsTrue result ↔ line.now ≡ codes "#snmptab 2" }
{
    line == b"#snmptab 2".as_slice()
}
