//! Reads one part of a name by itself.
ghost use Rattle.std.specs.Prelude.{◌≡◌, ℕ, option_map};
ghost use Rattle.std.specs.{Option.option_copied, List.list_all};
ghost use Rattle.smi_show.specs.{index.Pieces.is_quotable, private.name.Part.outcome_in};
ghost use Rattle.smi_show.specs.name.Word.{quoted_in, word_of};

use crate::index::is_quotable;
use crate::name::NameError;
use snmp_oid::parse_number;

/// A part of a name, as it is read without a tree.
#[derive(Clone, Copy)]
pub enum Part<'a> {
    /// A number, or a text in quotes.
    Piece(Piece<'a>),
    /// A label.
    Label(&'a [u8]),
}

/// A part that stands for numbers of the identifier.
#[derive(Clone, Copy)]
pub enum Piece<'a> {
    /// A number.
    Number(u32),
    /// A text in double quotes: its length, then its octets.
    Counted(&'a [u8]),
    /// A text in single quotes: only its octets.
    Plain(&'a [u8]),
}

/// Reads a part: a number, a text in quotes, or a label. Fails if it is empty or `''`, or begins
/// with a digit or a quote and is neither a number nor a text in quotes.
#[tactic(auto, using(crate::proofs::Numerals::numeral_read))]
pub fn read_part(part: &[u8]) -> Result<Part<'_>, NameError>
    ensures { outcome_in result ≡ word_of part.now }
{
    match part {
        [] => Err(NameError::BadNumber),
        [b'0'..=b'9', ..] => match parse_number(part) {
            Some(number) => Ok(Part::Piece(Piece::Number(number))),
            None => Err(NameError::BadNumber),
        },
        [b'"', rest @ ..] => match unquote(b'"', rest) {
            Some(octets) => Ok(Part::Piece(Piece::Counted(octets))),
            None => Err(NameError::BadIndex),
        },
        [b'\'', rest @ ..] => match unquote(b'\'', rest) {
            Some(octets) if !octets.is_empty() => Ok(Part::Piece(Piece::Plain(octets))),
            _ => Err(NameError::BadIndex),
        },
        _ => Ok(Part::Label(part)),
    }
}

/// Returns `rest` without its last octet, if the last octet is `quote` and each octet before it may
/// appear between quotes.
fn unquote(quote: u8, rest: &[u8]) -> Option<&[u8]>
    ensures { option_map (λ octets. octets.now) result ≡ quoted_in quote rest.now }
{
    match rest {
        [octets @ .., last] if *last == quote && are_quotable(octets) => Some(octets),
        _ => None,
    }
}

/// Returns whether each octet may appear between quotes.
fn are_quotable(octets: &[u8]) -> bool
    ensures { result ≡ list_all is_quotable octets.now }
{
    octets.iter().all(|octet| is_quotable(u32::from(*octet)))
}
