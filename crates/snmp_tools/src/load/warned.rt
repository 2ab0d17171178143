//! Warnings about loaded modules, as lines of text.
ghost use Rattle.std.specs.Prelude.{◌≡◌, ◌++◌, IfOk, codes};
ghost use Rattle.snmp_io.specs.Draft.{Adds};
ghost use Rattle.snmp_tools.specs.load.Warned.{symbol, warning_line, warning_lines};
ghost use Rattle.snmp_tools.specs.load.Warned.{warning_text};

use smi_names::Warning;
use smi_text::Text;
use snmp_io::Draft;
use std::alloc::{AllocError, Global};

/// Returns the lines of `warnings`, in order.
pub(crate) fn warning_lines(alloc: Global, warnings: &[Warning]) -> Result<Vec<u8>, AllocError>
    ensures { IfOk result (λ text. text.items ≡ warning_lines warnings.now) }
{
    let mut lines = Vec::new(alloc);
    let mut draft = Draft::after(&mut lines);
    add_lines(warnings, &mut draft);
    draft.finish(&mut lines)?;
    Ok(lines)
}

fn add_lines(warnings: &[Warning], draft: &mut Draft)
    ensures { Adds draft.old (warning_lines warnings.now) draft.new }
{
    'warnings: for warning in warnings {
        warning_line(warning, draft);
    }
}

fn warning_line(warning: &Warning, draft: &mut Draft)
    ensures { Adds draft.old (warning_line warning.now) draft.new }
{
    draft.octets(b"snmp: ");
    warning_text(warning, draft);
    draft.octets(b"\n");
}

// Appends what a warning says.
fn warning_text(warning: &Warning, draft: &mut Draft)
    ensures { Adds draft.old (warning_text warning.now) draft.new }
{
    match warning {
        Warning::DoubleModule(home) => double_module(home.as_bytes(), draft),
        Warning::MissingModule(home, from) => {
            missing_module(home.as_bytes(), from.as_bytes(), draft);
        }
        Warning::MissingImport(home, name, from) => missing_import(home, name, from, draft),
        Warning::Cycle(home, label) => of_symbol(home, label, b" stands on a cycle", draft),
        Warning::Unresolved(home, label) => of_symbol(home, label, b" is unresolved", draft),
        Warning::TooLong(home, label) => of_symbol(home, label, b" is too long", draft),
    }
}

// Appends that there are two modules with the name `home`.
fn double_module(home: &[u8], draft: &mut Draft)
    ensures { Adds draft.old (home.now ++ codes " is loaded twice") draft.new }
{
    draft.octets(home);
    draft.octets(b" is loaded twice");
}

// Appends that the module `home` imports from the module `from`, which isn't loaded.
fn missing_module(home: &[u8], from: &[u8], draft: &mut Draft)
    ensures { Adds draft.old (home.now ++ codes " imports from " ++ from.now
        ++ codes ", which is not loaded") draft.new }
{
    draft.octets(home);
    draft.octets(b" imports from ");
    draft.octets(from);
    draft.octets(b", which is not loaded");
}

// Appends that the module `home` imports `name` from the module `from`, which doesn't have it.
fn missing_import(home: &Text, name: &Text, from: &Text, draft: &mut Draft)
    ensures { Adds draft.old (home.now ++ codes " imports " ++ name.now ++ codes " from "
        ++ from.now ++ codes ", which has no " ++ name.now) draft.new }
{
    draft.octets(home.as_bytes());
    draft.octets(b" imports ");
    draft.octets(name.as_bytes());
    draft.octets(b" from ");
    draft.octets(from.as_bytes());
    draft.octets(b", which has no ");
    draft.octets(name.as_bytes());
}

// Appends a definition, as its module and label, and `what` is wrong with it.
fn of_symbol(home: &Text, label: &Text, what: &[u8], draft: &mut Draft)
    ensures { Adds draft.old (symbol home.now label.now ++ what.now) draft.new }
{
    draft.octets(home.as_bytes());
    draft.octets(b"::");
    draft.octets(label.as_bytes());
    draft.octets(what);
}
