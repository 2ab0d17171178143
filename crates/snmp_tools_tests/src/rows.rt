//! Command lines and what they print, as a person at a terminal sees them: the tables in `rows/`.
//! Here `tool` runs them over files and outputs in memory. `tests/program.py` reads the same tables
//! and runs them on the built program.
//!
//! A table consists of blocks, with an empty line between two. A block that begins with `@` is a
//! file: its path, and then its lines. Any other block has command lines and what they print:
//!
//! ```text
//! @ one.tab
//! 1.3.6.1.2.1.1.5.0|4|wes
//!
//! # A comment.
//! $ snmp snmpget -On table:one.tab .1.3.6.1.2.1.1.5.0
//! $ snmp snmpwalk -On table:one.tab .1
//! .1.3.6.1.2.1.1.5.0 = STRING: "wes"
//! $ snmp snmpget table:one.tab nosuch
//! 1! Unknown name: nosuch
//! ```
//!
//! - Each line after `$` is a command line. Command lines that follow one another print the same.
//! - A line after `!` is printed on standard error. The status is the greatest of the numbers
//!   before these `!`, or 0 if there are none.
//! - Any other line is printed on standard output. If the text of an output ends in `...`, it is
//!   only the beginning.
//! - A line that ends in a backslash continues in the next line. At the end of a file it means that
//!   no newline ends the file.
//! - The arguments of a command line are separated by single blanks. Between two `"` or two `'`, a
//!   blank or the other quote is part of the argument.
//! - `{3*TEXT}` stands for a text three times, `{xFF}` for an octet, and `{PATH}` for a file
//!   without its last newline.
//!
//! A file can be read by the command lines after it in its table, until another file has its path.
//! The files of `rows/files.rt` can be read by all. `{port}` is a UDP port. `tests/program.py`
//! takes one that no program uses.

mod arguments;
mod files;
mod gets;
mod indexes;
mod mistakes;
mod modules;
mod shown;
mod tables;
mod translate;
mod walks;

use snmp_io::memory::{MemoryFiles, MemoryOutput};
use snmp_net::memory::MemoryLinks;
use snmp_tools::tool;
use std::alloc::{AllocError, Global};
use std::mem;
use std::process::Abort;

/// A file: its path and its content.
#[derive(Drop)]
pub struct File {
    path: String,
    content: Vec<u8>,
}

/// What a command line must print, and its status.
#[derive(Drop)]
struct Outcome {
    output: Vec<u8>,
    messages: Vec<u8>,
    status: u8,
}

/// Asserts that each command line of a table prints what the table says.
pub fn assert_rows(rt: &impl Abort, alloc: Global, table: &str) -> Result<(), AllocError> {
    let mut files = shared_files(rt, alloc)?;
    assert_blocks(rt, alloc, table, &mut files)
}

/// Returns the files of `rows/files.rt`, which the command lines of all tables can read.
pub fn shared_files(rt: &impl Abort, alloc: Global) -> Result<Vec<File>, AllocError> {
    let mut files = Vec::new(alloc);
    assert_blocks(rt, alloc, files::FILES, &mut files)?;
    Ok(files)
}

/// Returns the files as `MemoryFiles` has them. The last of several with one path counts.
pub fn file_pairs<'a>(
    alloc: Global,
    files: &'a [File],
) -> Result<Vec<(&'a str, &'a [u8])>, AllocError> {
    files
        .iter()
        .rev()
        .map(|file| (file.path.as_str(), file.content.as_slice()))
        .collect(alloc)
}

/// Adds the files of a table to `files`, and asserts its command lines.
fn assert_blocks(
    rt: &impl Abort,
    alloc: Global,
    table: &str,
    files: &mut Vec<File>,
) -> Result<(), AllocError> {
    for block in table.split("\n\n") {
        let block = join_lines(alloc, block.trim_matches('\n'))?;
        match block.as_str().strip_prefix("@ ") {
            Some(text) => {
                let file = file_of(alloc, files.as_slice(), text)?;
                files.push(file)?;
            }
            None => assert_block(rt, alloc, block.as_str(), files.as_slice())?,
        }
    }
    Ok(())
}

/// Returns a block with each line that ends in a backslash joined with the next one.
fn join_lines(alloc: Global, block: &str) -> Result<String, AllocError> {
    let mut text = String::new(alloc);
    for piece in block.split("\\\n") {
        text.push_str(piece)?;
    }
    Ok(text)
}

/// Returns the file of a block.
fn file_of(alloc: Global, files: &[File], block: &str) -> Result<File, AllocError> {
    let (path, lines) = block.split_once('\n').unwrap_or((block, "\\"));
    let mut content = Vec::new(alloc);
    match lines.strip_suffix('\\') {
        Some(lines) => append_text(&mut content, files, lines)?,
        None => append_line(&mut content, files, lines)?,
    }
    let path = String::from_str(alloc, path)?;
    Ok(File { path, content })
}

/// Asserts the command lines of a block.
fn assert_block(
    rt: &impl Abort,
    alloc: Global,
    block: &str,
    files: &[File],
) -> Result<(), AllocError> {
    let mut commands = Vec::new(alloc);
    let mut outcome = Outcome::silent(alloc);
    for line in block.split('\n') {
        if let Some(command) = line.strip_prefix("$ ") {
            if !outcome.is_silent() {
                assert_commands(rt, alloc, commands.as_slice(), &outcome, files)?;
                commands.clear();
                outcome = Outcome::silent(alloc);
            }
            commands.push(command)?;
        } else if !line.starts_with("# ") {
            outcome.add(files, line)?;
        }
    }
    assert_commands(rt, alloc, commands.as_slice(), &outcome, files)
}

impl Outcome {
    /// Returns the outcome of a command line that prints nothing.
    fn silent(alloc: Global) -> Outcome {
        Outcome {
            output: Vec::new(alloc),
            messages: Vec::new(alloc),
            status: 0,
        }
    }

    /// Returns whether nothing is printed.
    fn is_silent(&self) -> bool {
        self.output.is_empty() && self.messages.is_empty()
    }

    /// Adds a line of a table: one of standard output, or, after `!` or a status and `!`, one of
    /// standard error.
    fn add(&mut self, files: &[File], line: &str) -> Result<(), AllocError> {
        if let Some((status, message)) = line.split_once('!')
            && let Some(status) = status_of(status)
        {
            self.status = self.status.max(status);
            let message = message.strip_prefix(' ').unwrap_or(message);
            return append_line(&mut self.messages, files, message);
        }
        append_line(&mut self.output, files, line)
    }
}

/// Returns the status before the `!` of a message: 0 if nothing is before it, and `None` if
/// what is before it isn't a number from 0 to 255.
fn status_of(number: &str) -> Option<u8> {
    if number.is_empty() {
        return Some(0);
    }
    number.parse::<u8>().ok()
}

/// Asserts that each of the command lines has the outcome.
fn assert_commands(
    rt: &impl Abort,
    alloc: Global,
    commands: &[&str],
    outcome: &Outcome,
    files: &[File],
) -> Result<(), AllocError> {
    for command in commands {
        let mut line = Vec::new(alloc);
        append_text(&mut line, files, command)?;
        let line = str::from_utf8(line.as_slice()).expect(rt, command);
        let words = words_of(alloc, line)?;
        assert_outcome(rt, alloc, line, words.as_slice(), outcome, files)?;
    }
    Ok(())
}

/// Returns the words of a command line.
fn words_of(alloc: Global, line: &str) -> Result<Vec<String>, AllocError> {
    let mut words = Vec::new(alloc);
    let mut word = String::new(alloc);
    let mut quote = None;
    for c in line.chars() {
        match (quote, c) {
            (Some(open), _) if open == c => quote = None,
            (None, '"' | '\'') => quote = Some(c),
            (None, ' ') => words.push(mem::replace(&mut word, String::new(alloc)))?,
            _ => word.push(c)?,
        }
    }
    words.push(word)?;
    Ok(words)
}

/// Asserts that these words have the outcome.
fn assert_outcome(
    rt: &impl Abort,
    alloc: Global,
    line: &str,
    words: &[String],
    outcome: &Outcome,
    files: &[File],
) -> Result<(), AllocError> {
    let words: Vec<&str> = words.iter().map(|word| word.as_str()).collect(alloc)?;
    let held = file_pairs(alloc, files)?;
    let held = MemoryFiles {
        files: held.as_slice(),
    };
    let mut links = MemoryLinks::new(alloc, &[], &[]);
    let mut out = MemoryOutput::new(alloc);
    let mut err = MemoryOutput::new(alloc);
    let status = tool(
        alloc,
        words.as_slice(),
        &held,
        &mut links,
        &mut out,
        &mut err,
    );
    let holds = status == outcome.status
        && is_as_said(out.octets(), outcome.output.as_slice())
        && is_as_said(err.octets(), outcome.messages.as_slice());
    let printed = str::from_utf8(out.octets()).unwrap_or("..");
    let said = str::from_utf8(err.octets()).unwrap_or("..");
    assert!(rt;
        holds,
        "{line}: status {status}, and prints\n{printed}{said}"
    );
    Ok(())
}

/// Returns whether an output has this text or, if the text ends in `...`, begins with the text
/// before the dots.
fn is_as_said(octets: &[u8], text: &[u8]) -> bool {
    match text.strip_suffix(b"...\n") {
        Some(beginning) => octets.starts_with(beginning),
        None => octets == text,
    }
}

/// Appends a line of a table and a newline.
fn append_line(to: &mut Vec<u8>, files: &[File], line: &str) -> Result<(), AllocError> {
    append_text(to, files, line)?;
    to.push(b'\n')?;
    Ok(())
}

/// Appends a text of a table, with what each of its `{..}` stands for.
fn append_text(to: &mut Vec<u8>, files: &[File], text: &str) -> Result<(), AllocError> {
    let mut is_first = true;
    for piece in text.split('{') {
        if is_first {
            is_first = false;
            to.extend_from_slice(piece.as_bytes())?;
        } else {
            append_piece(to, files, piece)?;
        }
    }
    Ok(())
}

/// Appends the text that is `{` and then `piece`. If it begins with a `{..}` that stands for
/// something, appends that in place of the `{..}`.
fn append_piece(to: &mut Vec<u8>, files: &[File], piece: &str) -> Result<(), AllocError> {
    if let Some((inner, after)) = piece.split_once('}')
        && append_braced(to, files, inner)?
    {
        return to.extend_from_slice(after.as_bytes());
    }
    to.push(b'{')?;
    to.extend_from_slice(piece.as_bytes())
}

/// Appends what `{inner}` stands for. Returns whether it stands for something.
fn append_braced(to: &mut Vec<u8>, files: &[File], inner: &str) -> Result<bool, AllocError> {
    if let Some((count, text)) = inner.split_once('*')
        && let Ok(count) = count.parse::<u16>()
    {
        for _ in 0..count {
            to.extend_from_slice(text.as_bytes())?;
        }
        return Ok(true);
    }
    if let Some(digits) = inner.strip_prefix('x')
        && let Ok(octet) = u8::from_str_radix(digits, 16)
    {
        to.push(octet)?;
        return Ok(true);
    }
    for file in files.iter().rev() {
        if file.path.as_str() == inner {
            let content = file.content.as_slice();
            to.extend_from_slice(content.strip_suffix(b"\n").unwrap_or(content))?;
            return Ok(true);
        }
    }
    Ok(false)
}
