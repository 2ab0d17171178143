//! Checks of calls that append a text, here to `before: `.

use crate::Fault;
use crate::modules::tree_of;
use crate::room::Room;
use smi_show::{Letters, LineWriter, detail, line, name_text, value_text};
use smi_tree::Tree;
use smi_value::{Hint, HintValue, write_hint};
use snmp_oid::{Oid, parse_numeric};
use snmp_wire::{ValueRef, decode};
use std::alloc::{AllocError, Global};

const BEFORE: &[u8] = b"before: ";

/// Appends the text to `room` if the call succeeded. If memory was refused, the text must be
/// unchanged.
fn append_result(
    ended: Result<(), AllocError>,
    text: &[u8],
    room: &mut Room<'_>,
) -> Result<(), Fault> {
    if ended.is_ok() {
        room.append(text);
        Ok(())
    } else if text == BEFORE {
        Err(Fault::Refused)
    } else {
        Err(Fault::Wrong)
    }
}

/// Checks `write_hint` for `octets`, or for the number -1234567 if the hint is one of integers.
pub fn hint(alloc: Global, hint: &[u8], octets: &[u8], room: &mut Room<'_>) -> Result<(), Fault> {
    let Ok(mut text) = Vec::from_slice(alloc, BEFORE) else {
        return Err(Fault::Refused);
    };
    let Some(hint) = Hint::parse(hint) else {
        return Err(Fault::Wrong);
    };
    let ended = if hint.is_number() {
        write_hint(&hint, HintValue::Number(-1234567), &mut text)
    } else {
        write_hint(&hint, HintValue::Octets(octets), &mut text)
    };
    append_result(ended, text.as_slice(), room)
}

/// Checks `LineWriter::line` for each binding of the message `datagram`, with the tree of the
/// module text `modules`. If memory is refused for a line, the same writer writes it once more.
pub fn lines(
    alloc: Global,
    modules: &[u8],
    datagram: &[u8],
    room: &mut Room<'_>,
) -> Result<(), Fault> {
    let tree = tree_of(alloc, modules)?;
    let Ok(message) = decode(datagram) else {
        return Err(Fault::Wrong);
    };
    let Ok(mut text) = Vec::from_slice(alloc, BEFORE) else {
        return Err(Fault::Refused);
    };
    room.append(BEFORE);
    let letters = Letters::new();
    let mut writer = LineWriter::new(&tree);
    'bindings: for binding in message.bindings() {
        let (name, value) = (&binding.name, &binding.value);
        if writer.line(&letters, name, value, &mut text).is_err() {
            if text.as_slice() != room.octets() {
                return Err(Fault::Wrong);
            }
            if writer.line(&letters, name, value, &mut text).is_err() {
                return Err(Fault::Again);
            }
        }
        let new = text.get(room.octets().len()..).unwrap_or(&[]);
        room.append(new);
    }
    Ok(())
}

/// Checks `detail`, or as `check` says, `name_text`, `value_text` or `line`, with the tree of the
/// module text `modules`. The call is for the instance with the name `name`, whose value has six
/// octets.
pub fn check_text(
    alloc: Global,
    check: &str,
    modules: &[u8],
    name: &[u8],
    room: &mut Room<'_>,
) -> Result<(), Fault> {
    let tree = tree_of(alloc, modules)?;
    let Ok(name) = parse_numeric(name) else {
        return Err(Fault::Wrong);
    };
    let Ok(mut text) = Vec::from_slice(alloc, BEFORE) else {
        return Err(Fault::Refused);
    };
    let ended = append(&tree, check, &name, &mut text);
    append_result(ended, text.as_slice(), room)
}

fn append(tree: &Tree, check: &str, name: &Oid, text: &mut Vec<u8>) -> Result<(), AllocError> {
    let letters = Letters::new();
    let value = ValueRef::Octets(b"\x00\x16\x3e\x5a\x78\x8e");
    match check {
        "name" => name_text(tree, &letters, name, text),
        "value" => value_text(tree, &letters, name, &value, text),
        "line" => line(tree, &letters, name, &value, text),
        _ => detail(tree, &letters, name, text),
    }
}
