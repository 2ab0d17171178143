//! Why module files can't be loaded.
ghost use Rattle.std.specs.Prelude.{◌≡◌, ◌++◌, codes, decimal};
ghost use Rattle.snmp_io.specs.Draft.{Adds};
ghost use Rattle.snmp_tools.specs.load.FaultText.{at_line, fault_text, refusal_of, refusal_text};
ghost use Rattle.snmp_tools.specs.declared.load.error.FilesError.TheVariants.{Memory};

use smi_text::{LexError, ParseError};
use snmp_io::Draft;
use std::alloc::AllocError;
use thiserror::Error;

/// Why module files can't be loaded: a file can't be read or has a fault, or memory ran out.
#[derive(Clone, Copy, Debug, Error)]
pub enum FilesError<'a> {
    /// The file at this path can't be read.
    #[error("{0}: cannot be read")]
    Unreadable(&'a str),
    /// The file at this path has this fault, and is refused as a whole.
    #[error("{0}: {1}")]
    Text(&'a str, ParseError),
    /// Memory ran out.
    #[error("Out of memory.")]
    Memory,
}

impl From<AllocError> for FilesError<'_> {
    ghost from_gives = { λ _ e. e ≡ Memory };

    fn from(_error: AllocError) -> Self {
        FilesError::Memory
    }
}

impl FilesError<'_> {
    /// Appends the message: the path, the number of the line if there is one, and what is wrong;
    /// or `Out of memory.`
    pub fn message(&self, draft: &mut Draft)
        ensures { Adds draft.old (refusal_text (refusal_of self.now)) draft.new }
    {
        match self {
            FilesError::Unreadable(path) => unreadable_text(path, draft),
            FilesError::Text(path, fault) => fault_text(path, fault, draft),
            FilesError::Memory => draft.octets(b"Out of memory."),
        }
    }
}

/// Appends the message that the file at `path` can't be read.
pub(crate) fn unreadable_text(path: &str, draft: &mut Draft)
    ensures { Adds draft.old (path.now ++ codes ": cannot be read") draft.new }
{
    draft.octets(path.as_bytes());
    draft.octets(b": cannot be read");
}

// Appends the message about a fault of the file at `path`, or that memory ran out.
fn fault_text(path: &str, fault: &ParseError, out: &mut Draft)
    ensures { Adds out.old (fault_text path.now fault.now) out.new }
{
    match fault {
        ParseError::Lex(LexError::BadByte { line }) => at_line(path, *line, b"bad character", out),
        ParseError::Lex(LexError::OpenString { line }) => at_line(path, *line, b"open string", out),
        ParseError::Syntax { line } => at_line(path, *line, b"syntax", out),
        ParseError::DoubleName { line } => at_line(path, *line, b"double name", out),
        ParseError::Memory => out.octets(b"Out of memory."),
    }
}

/// Appends the message that `what` is wrong in line `line` of the file at `path`.
pub(crate) fn at_line(path: &str, line: usize, what: &[u8], draft: &mut Draft)
    ensures { Adds draft.old (at_line path.now line what.now) draft.new }
{
    draft.octets(path.as_bytes());
    draft.octets(b":");
    draft.number(line as u64);
    draft.octets(b": ");
    draft.octets(what);
}
