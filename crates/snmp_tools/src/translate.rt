//! The job of snmptranslate: prints names as the letters of `-O` say, or their details, by the
//! modules of its module files.
//!
//! It uses the parsed command line, the tree that is loaded from module files, and the texts of
//! names and details. The module `job` calls it, and reports what failed.
ghost use Rattle.snmp_words.specs.Words.{translate_words, texts_at};
ghost use Rattle.snmp_tools.specs.{FaultText.outcome_of};
ghost use Rattle.snmp_tools.specs.{translate.TranslateResult.IsTranslateOutcome};
ghost use Rattle.snmp_tools.specs.{FaultText.fault_of, FaultText.no_output};
ghost use Rattle.snmp_tools.specs.{translate.Text.IsShown, translate.Text.IsTextOf};
ghost use Rattle.snmp_tools.specs.{translate.Refusal.TranslationFails};
ghost use Rattle.std.specs.Prelude.{◌≡◌, ◌++◌, ◌<◌, ℕ, List, [], length};
ghost use Rattle.std.specs.Prelude.{IfErr, IfOk, OnErr, OnOk, None, Some};
ghost use Rattle.snmp_tools.specs.translate.TranslateResult.{HasNoText, IsPrinting};
ghost use Rattle.snmp_io.specs.{Files.Holdings, Output.FailsWithin, Output.stream_after};
ghost use Rattle.smi_value.specs.Letters.{has_letter};
ghost use Rattle.snmp_tools.specs.translate.Style.{IsStyleOf, first_other_of_t};

use crate::failure::Failure;
use crate::load::{ModuleLoader, discard};
use crate::messages::Messages;
use crate::names::read_name;
use smi_show::{detail, name_text};
use smi_tree::Tree;
use smi_value::Letters;
use snmp_io::{Output, write_all};
use snmp_oid::Oid;
use snmp_words::TranslateJob;
use std::alloc::{AllocError, Global};

/// Prints the names of `job` in order, by the modules of its module files: of each name the text
/// that the letters of `-O` ask for and a newline, or with `-Td` its details. Fails at the first
/// name that has no meaning, after printing the names before it, and if the output fails or memory
/// runs out.
///
/// Before anything is printed, the letters are judged, and then the module files. Warnings about
/// the modules go to `err`. If a write to `err` fails, nothing else changes.
pub(crate) fn translate<'a, F: ModuleLoader<E>, O: Output, E: Messages>(
    alloc: Global,
    job: &TranslateJob<'a>,
    files: &F,
    out: &mut O,
    err: &mut E,
) -> Result<(), Failure<'a>>
    ensures { IsTranslateOutcome (F.loads files.now) (translate_words job.now) (F.text_at files.now)
        (O.stream out.old) (O.stream out.new) (E.stream err.old) (E.stream err.new)
        (outcome_of result) }
{
    let style = Style::read(job)?;
    let tree = files.load(alloc, &job.mibs, err)?;
    let done = print_names(alloc, &tree, style, &job.names, out);
    discard(files, tree);
    done
}

/// How each name is printed.
#[derive(Clone, Copy, Debug)]
pub(crate) struct Style {
    /// What the letters of `-O` say.
    pub(crate) letters: Letters,
    /// Whether the details of the name are printed.
    pub(crate) details: bool,
}

impl Style {
    /// Returns what the letters of `-O` and `-T` say. Fails at the first octet without a meaning.
    pub(crate) fn read<'a>(job: &TranslateJob<'a>) -> Result<Style, Failure<'a>>
        ensures style { IfOk result (IsStyleOf (translate_words job.now)) }
        ensures refused { (files : Holdings) → IfErr result (λ e.
            TranslationFails (translate_words job.now) files (fault_of e)) }
    {
        let letters = match Letters::parse(job.letters.as_bytes()) {
            Ok(letters) => letters,
            Err(letter) => return Err(Failure::Letter(letter)),
        };
        match asks_details(job.details.as_bytes()) {
            Ok(details) => Ok(Style { letters, details }),
            Err(letter) => Err(Failure::Letter(letter)),
        }
    }
}

// Returns whether the letters of `-T` ask for details. The error is the first octet other than
// `d`, their only letter.
fn asks_details(text: &[u8]) -> Result<bool, u8>
    ensures asked { IfOk result (λ details. details ≡ has_letter 100 text.now) }
    ensures all_are_letters { OnOk result (first_other_of_t text.now ≡ None) }
    ensures first_other { IfErr result (λ octet. first_other_of_t text.now ≡ Some octet) }
{
    'octets: for octet in text {
        if *octet != b'd' {
            return Err(*octet);
        }
    }
    Ok(text.contains(&b'd'))
}

/// Prints names in order, and stops at the first that has no meaning. Stops too if the output
/// fails or memory runs out.
///
/// The lines are written together, once there are `ENOUGH_WAITING` octets of them: a write for
/// each name would take more time than everything else that is done for the name. Before the call
/// returns, it writes the lines that wait, unless a write failed.
pub(crate) fn print_names<'a, O: Output>(
    alloc: Global,
    tree: &Tree,
    style: Style,
    names: &[&'a str],
    out: &mut O,
) -> Result<(), Failure<'a>>
    ensures { IsPrinting tree.now style (texts_at names.now) (O.stream out.old) (O.stream out.new)
        (outcome_of result) }
{
    // One identifier for all names: to move it takes as long as to read a name.
    let mut oid = Oid::new();
    let mut lines = Vec::new(alloc);
    'names: for name in names {
        if let Err(failure) = append_name(tree, style, name, &mut oid, &mut lines) {
            write_waiting(&mut lines, out)?;
            return Err(failure);
        }
        if lines.len() >= ENOUGH_WAITING {
            write_waiting(&mut lines, out)?;
        }
    }
    write_waiting(&mut lines, out)
}

/// The number of octets at which the waiting lines are written.
const ENOUGH_WAITING: usize = 60_000;

/// Appends what is printed of `name`. Stores the identifier that it means in `oid`.
fn append_name<'a>(
    tree: &Tree,
    style: Style,
    name: &'a str,
    oid: &mut Oid,
    lines: &mut Vec<u8>,
) -> Result<(), Failure<'a>>
    ensures appended { OnOk result ((text : List ℕ) × IsTextOf tree.now style name.entry.now text
        × (lines.new.items ≡ lines.old.items ++ text)) }
    ensures refused { IfErr result (λ e. HasNoText tree.now name.entry.now (fault_of e)) }
    ensures unchanged_on_error { OnErr result (lines.new.items ≡ lines.old.items) }
{
    read_name(tree, name, oid)?;
    append_shown(tree, style, oid, lines)?;
    Ok(())
}

/// Appends what is printed of an identifier: its name and a newline, or its details.
fn append_shown(tree: &Tree, style: Style, oid: &Oid, lines: &mut Vec<u8>) -> Result<(), AllocError>
    ensures appended { OnOk result ((text : List ℕ) × IsShown tree.now style oid.now text
        × (lines.new.items ≡ lines.old.items ++ text)) }
    ensures unchanged_on_error { OnErr result (lines.new.items ≡ lines.old.items) }
{
    if style.details {
        return detail(tree, &style.letters, oid, lines);
    }
    let before = lines.len();
    name_text(tree, &style.letters, oid, lines)?;
    if let Err(error) = lines.push(b'\n') {
        lines.truncate(before);
        return Err(error.into());
    }
    Ok(())
}

/// Writes the waiting lines, if there are any, and then empties their buffer. Fails if the output
/// fails.
fn write_waiting<'a, O: Output>(lines: &mut Vec<u8>, out: &mut O) -> Result<(), Failure<'a>>
    ensures written { OnOk result ((O.stream out.new
        ≡ stream_after (O.stream out.old) lines.old.items)
        × (lines.new.items ≡ [])) }
    ensures refused { IfErr result (λ e. (fault_of e ≡ no_output) × (0 < length lines.old.items)
        × FailsWithin (O.stream out.old) lines.old.items (O.stream out.new)) }
{
    if !lines.is_empty() {
        write_all(out, lines.as_slice()).map_err(|_| Failure::Output)?;
        lines.clear();
    }
    Ok(())
}
