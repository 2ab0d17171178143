//! The clauses of a definition, each beginning on a line of its own.
ghost use Rattle.std.specs.Prelude.{◌≡◌, [], ◌++◌, codes};
ghost use Rattle.snmp_io.specs.Draft.{Adds};
ghost use Rattle.smi_show.specs.details.Definition.{clause_text, definition_text, object_type_text};
ghost use Rattle.smi_show.specs.details.Definition.{status_text, units_clause};
ghost use Rattle.smi_show.specs.details.Syntax.{syntax_text};

use crate::details::syntax_text;
use smi_text::{DefKind, ObjectType, Status, Text};
use snmp_io::Draft;

/// Appends SYNTAX, UNITS, MAX-ACCESS, STATUS and DESCRIPTION, as far as a definition has them (RFC
/// 2578, sections 5 to 8; RFC 2580, sections 3 and 4). Each begins on a line of its own. Appends
/// nothing for a type, or for a definition whose clauses are stored as tokens.
pub fn definition_text(kind: &DefKind, draft: &mut Draft)
    ensures { Adds draft.old (definition_text kind.now) draft.new }
{
    match kind {
        DefKind::ModuleIdentity(d) => clause_text(b"DESCRIPTION", &d.description, draft),
        DefKind::ObjectIdentity(d) => status_text(&d.status, draft),
        DefKind::ObjectType(d) => object_type_text(d, draft),
        DefKind::NotificationType(d) => status_text(&d.status, draft),
        DefKind::ObjectGroup(d) => status_text(&d.status, draft),
        DefKind::NotificationGroup(d) => status_text(&d.status, draft),
        _ => {}
    }
}

/// Appends the clauses of an OBJECT-TYPE.
fn object_type_text(d: &ObjectType, draft: &mut Draft)
    ensures { Adds draft.old (object_type_text d.now) draft.new }
{
    draft.octets(b"  SYNTAX\t");
    syntax_text(&d.syntax, draft);
    draft.octets(b"\n");
    if let Some(units) = &d.units {
        clause_text(b"UNITS", units, draft);
    }
    clause_text(b"MAX-ACCESS", &d.max_access, draft);
    status_text(&d.status, draft);
}

/// Appends STATUS and DESCRIPTION.
fn status_text(status: &Status, draft: &mut Draft)
    ensures { Adds draft.old (status_text status.now) draft.new }
{
    clause_text(b"STATUS", &status.status, draft);
    clause_text(b"DESCRIPTION", &status.description, draft);
}

/// Appends a clause: two blanks, `word`, a tab, `text` and a newline.
fn clause_text(word: &[u8], text: &Text, draft: &mut Draft)
    ensures { Adds draft.old (clause_text word.now text.now) draft.new }
{
    draft.octets(b"  ");
    draft.octets(word);
    draft.octets(b"\t");
    draft.octets(text.as_bytes());
    draft.octets(b"\n");
}
