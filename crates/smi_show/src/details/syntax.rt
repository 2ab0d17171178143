//! A type as text: its tokens, with a blank between them.
ghost use Rattle.std.specs.Prelude.{◌≡◌, [], ◌∷◌, ◌++◌, codes, take, List};
ghost use Rattle.std.specs.List.{flat_map};
ghost use Rattle.snmp_io.specs.Draft.{Adds};
ghost use Rattle.smi_show.specs.details.Syntax.{base_text, more_numbers, more_ranges};
ghost use Rattle.smi_show.specs.details.Syntax.{named_number_text, numbers_text, range_text};
ghost use Rattle.smi_show.specs.details.Syntax.{ranges_text, refinement_text, syntax_text};
ghost use Rattle.smi_show.specs.private.Tokens.{AreTokensOf, joined_by_blanks};
ghost use Rattle.smi_text.specs.lexer.Token.{Lexeme};

use smi_text::{Base, NamedNumber, Range, Refinement, Syntax};
use snmp_io::Draft;

/// Appends the tokens of a type, with a blank between each two. An empty list, which no module
/// text has, leaves two blanks between its brackets.
#[tactic(auto, using(crate::proofs::TokenTexts::own_tokens))]
pub fn syntax_text(syntax: &Syntax, draft: &mut Draft)
    ensures added { Adds draft.old (syntax_text syntax.now) draft.new }
    // If `tokens` spell the type in a module text, the text appended is these tokens, with a blank
    // between each two.
    ensures own_tokens { (tokens : List Lexeme) → AreTokensOf syntax.now tokens
        → syntax_text syntax.now ≡ joined_by_blanks tokens }
{
    match syntax {
        Syntax::SequenceOf(row) => sequence_text(row.as_bytes(), draft),
        Syntax::Simple(simple) => {
            base_text(&simple.base, draft);
            if let Some(refinement) = &simple.refinement {
                refinement_text(refinement, draft);
            }
        }
    }
}

/// Appends the tokens of a table's type.
fn sequence_text(row: &[u8], draft: &mut Draft)
    ensures { Adds draft.old (codes "SEQUENCE OF " ++ row.now) draft.new }
{
    draft.octets(b"SEQUENCE OF ");
    draft.octets(row);
}

/// Appends the tokens of a base type.
fn base_text(base: &Base, draft: &mut Draft)
    ensures { Adds draft.old (base_text base.now) draft.new }
{
    match base {
        Base::Integer => draft.octets(b"INTEGER"),
        Base::OctetString => draft.octets(b"OCTET STRING"),
        Base::ObjectIdentifier => draft.octets(b"OBJECT IDENTIFIER"),
        Base::Bits => draft.octets(b"BITS"),
        Base::Named(name) => draft.octets(name.as_bytes()),
    }
}

/// Appends the refinement of a type, with a blank before each token.
fn refinement_text(refinement: &Refinement, draft: &mut Draft)
    ensures { Adds draft.old (refinement_text refinement.now) draft.new }
{
    match refinement {
        Refinement::Numbers(numbers) => {
            draft.octets(b" {");
            numbers_text(numbers.as_slice(), draft);
            draft.octets(b" }");
        }
        Refinement::Values(ranges) => {
            draft.octets(b" (");
            ranges_text(ranges.as_slice(), draft);
            draft.octets(b" )");
        }
        Refinement::Size(ranges) => {
            draft.octets(b" ( SIZE (");
            ranges_text(ranges.as_slice(), draft);
            draft.octets(b" ) )");
        }
    }
}

/// Appends named numbers with commas between them, or a blank if there are none.
fn numbers_text(numbers: &[NamedNumber], draft: &mut Draft)
    ensures { Adds draft.old (numbers_text numbers.now) draft.new }
{
    match numbers {
        [] => draft.octets(b" "),
        [first, rest @ ..] => {
            named_number_text(first, draft);
            more_numbers(rest, draft);
        }
    }
}

/// Appends further named numbers, each after a comma.
fn more_numbers(numbers: &[NamedNumber], draft: &mut Draft)
    ensures { Adds draft.old (flat_map more_numbers numbers.now) draft.new }
{
    'numbers: for number in numbers {
        draft.octets(b" ,");
        named_number_text(number, draft);
    }
}

/// Appends a name and its number in parentheses.
fn named_number_text(number: &NamedNumber, draft: &mut Draft)
    ensures { Adds draft.old (named_number_text number.now) draft.new }
{
    draft.octets(b" ");
    draft.octets(number.name.as_bytes());
    draft.octets(b" ( ");
    draft.octets(number.number.as_bytes());
    draft.octets(b" )");
}

/// Appends ranges with bars between them, or a blank if there are none.
fn ranges_text(ranges: &[Range], draft: &mut Draft)
    ensures { Adds draft.old (ranges_text ranges.now) draft.new }
{
    match ranges {
        [] => draft.octets(b" "),
        [first, rest @ ..] => {
            range_text(first, draft);
            more_ranges(rest, draft);
        }
    }
}

/// Appends further ranges, each after a bar.
fn more_ranges(ranges: &[Range], draft: &mut Draft)
    ensures { Adds draft.old (flat_map more_ranges ranges.now) draft.new }
{
    'each: for range in ranges {
        draft.octets(b" |");
        range_text(range, draft);
    }
}

/// Appends a range, or its one value.
fn range_text(range: &Range, draft: &mut Draft)
    ensures { Adds draft.old (range_text range.now) draft.new }
{
    draft.octets(b" ");
    draft.octets(range.low.text.as_bytes());
    if let Some(high) = &range.high {
        draft.octets(b" .. ");
        draft.octets(high.text.as_bytes());
    }
}
