//! The lines of a table's text.
ghost use Rattle.std.specs.Prelude.{◌≡◌, ◌≢◌, ◌++◌, ℕ, List, codes, IfOk, IfErr};
ghost use Rattle.snmp_wire.specs.{Message.object_id, Range.IsInRange};
ghost use Rattle.snmp_agent.specs.private.table.Row.{datum_of, tag_text, IsShort};
ghost use Rattle.snmp_agent.specs.{table.Form.States, table.Text.IsBlank};
ghost use Rattle.snmp_agent.specs.private.table.Line.{IsForm, IsObjectRead, IsInstanceRead};
ghost use Rattle.snmp_agent.specs.private.table.Line.{IsLineFault, statement_of};

use crate::table::format::LineFormat;
use crate::table::instance::is_instance_name;
use crate::table::split::split_near;
use crate::table::value::{RowText, Tag, read_kept, read_plain};
use snmp_wire::{Binding, EncodedBinding, Oid, ValueRef};
use std::alloc::{AllocError, Global};

/// What a line contains.
#[derive(Drop)]
pub enum Line {
    /// Nothing: the line is empty or a comment.
    Nothing,
    /// An object prefix, as its numbers.
    Object(Vec<u32>),
    /// An instance with its value.
    Instance(EncodedBinding),
}

/// Why a line of a table file wasn't accepted.
#[derive(Clone, Copy, PartialEq, Eq)]
pub enum LineFault {
    /// The line has none of the forms of a line.
    Line,
    /// The name of the line isn't a name of the format, or not one that an object prefix or an
    /// instance may have.
    Name,
    /// The text after the tag isn't a value of the tag's type.
    Value,
    /// Memory ran out.
    Memory,
}

impl From<AllocError> for LineFault {
    ghost use Rattle.std.specs.Prelude.{◌≡◌};
    ghost use Rattle.snmp_agent.specs.declared.table.line.LineFault.{LineFault};
    ghost use Rattle.snmp_agent.specs.declared.table.line.LineFault.TheVariants.{Memory};

    ghost from_gives = { λ _ fault. fault ≡ Memory };

    fn from(_: AllocError) -> LineFault {
        LineFault::Memory
    }
}

/// The form of a line, with its parts.
#[derive(Clone, Copy)]
enum Form<'a> {
    Blank,
    Object {
        text: &'a [u8],
    },
    Row {
        name: &'a [u8],
        tag: Tag,
        text: &'a [u8],
    },
}

/// Reads what a line contains. Its name, and a value that needs no memory of its own, are read
/// into `into`, so that no binding is moved or zeroed: that would take as long as reading it.
pub fn read_line<'a, F: LineFormat>(
    alloc: Global,
    format: &F,
    line: &'a [u8],
    into: &mut Binding<'a>,
) -> Result<Line, LineFault>
    ensures states { IfOk result
        (λ stated. States (F.format format.now) line.now (statement_of stated)) }
    ensures fault { IfErr result (IsLineFault (F.format format.now) line.now) }
{
    match form_of(format, line) {
        None => Err(LineFault::Line),
        Some(Form::Blank) => Ok(Line::Nothing),
        Some(Form::Object { text }) => object(alloc, format, text, into),
        Some(Form::Row { name, tag, text }) => instance(alloc, format, name, tag, text, into),
    }
}

/// Returns the form of `line`, or `None` if it has none.
fn form_of<'a, F: LineFormat>(format: &F, line: &'a [u8]) -> Option<Form<'a>>
    ensures { IsForm (F.format format.now) line.now result }
{
    match line {
        [] | [b'#', ..] => return Some(Form::Blank),
        _ => {}
    }
    match line.strip_prefix(b"object ") {
        Some(text) => Some(Form::Object { text }),
        None => row_form(format, line),
    }
}

/// Returns the name, the tag and the text on a row's line, which has a bar between each two.
/// Returns `None` if one of the bars is missing or the tag is unknown.
fn row_form<'a, F: LineFormat>(format: &F, line: &'a [u8]) -> Option<Form<'a>>
    requires not_blank { IsBlank line.now → ⊥ }
    requires no_object { (text : List ℕ) → line.now ≢ codes "object " ++ text }
    ensures { IsForm (F.format format.now) line.now result }
{
    let (name, after) = format.split_name(line)?;
    let (tag, text) = split_near(after, b'|')?;
    Some(Form::Row {
        name,
        tag: Tag::from_text(tag)?,
        text,
    })
}

/// Reads the object prefix that `text` names.
fn object<F: LineFormat>(
    alloc: Global,
    format: &F,
    text: &[u8],
    into: &mut Binding<'_>,
) -> Result<Line, LineFault>
    ensures { IsObjectRead (F.format format.now) text.now result }
{
    if !format.name(text, &mut into.name) || into.name.is_empty() {
        return Err(LineFault::Name);
    }
    Ok(Line::Object(Vec::from_slice(alloc, into.name.as_slice())?))
}

/// Reads the instance with the name `text` and with the value `value_text` of this tag.
fn instance<'a, F: LineFormat>(
    alloc: Global,
    format: &F,
    text: &[u8],
    tag: Tag,
    value_text: &'a [u8],
    into: &mut Binding<'a>,
) -> Result<Line, LineFault>
    ensures { IsInstanceRead (F.format format.now) text.now (tag_text tag) value_text.now result }
{
    if !format.name(text, &mut into.name) || !is_instance_name(&into.name) {
        return Err(LineFault::Name);
    }
    match read_plain(tag, value_text, &mut into.value) {
        Some(true) => {
            let row = EncodedBinding::new(alloc, &into.name, &into.value)?;
            Ok(Line::Instance(row))
        }
        Some(false) => Err(LineFault::Value),
        None => {
            let Some(stated) = read_kept(alloc, format, tag, value_text)? else {
                return Err(LineFault::Value);
            };
            let row = encoded_text(alloc, &into.name, &stated)?;
            Ok(Line::Instance(row))
        }
    }
}

/// Returns the row with the name `name` and the value of `stated`.
// `inline(never)`: inlined, its `ValueRef` would be zeroed for all other rows too.
#[inline(never)]
fn encoded_text(alloc: Global, name: &Oid, stated: &RowText) -> Result<EncodedBinding, AllocError>
    requires name { IsInRange (object_id name.now) }
    requires value { IsInRange (datum_of stated.now) }
    requires short { IsShort stated.now }
    ensures { IfOk result (λ row. row ≡ record { name = name.now; value = datum_of stated.now }) }
{
    let mut value = ValueRef::Null;
    stated.read_into(&mut value);
    EncodedBinding::new(alloc, name, &value)
}
