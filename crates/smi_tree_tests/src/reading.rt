//! Helpers of the tests: two modules, identifiers from texts, and what names resolve to.

ghost use Rattle.std.specs.Prelude.{◌≡◌, IfOk};

use smi_names::{NameHash, Names, Resolution};
use smi_text::{Module, parse_modules};
use snmp_oid::{Oid, parse_numeric};
use std::alloc::Global;
use std::test::Fail;

/// Two modules with an object, two tables, and names that are missing or refer back to themselves.
pub(crate) const TINY: &[u8] = b"TINY-SMI DEFINITIONS ::= BEGIN
enterprises OBJECT IDENTIFIER ::= { private 1 }
private     OBJECT IDENTIFIER ::= { internet 4 }
internet    OBJECT IDENTIFIER ::= { iso org(3) dod(6) 1 }
END
TINY-MIB DEFINITIONS ::= BEGIN
IMPORTS enterprises, absent FROM TINY-SMI
        other FROM GONE-MIB;
-----------------------------------------
tiny OBJECT IDENTIFIER ::= { enterprises 32473 }
Mac ::= TEXTUAL-CONVENTION DISPLAY-HINT \"1x:\" STATUS current
  DESCRIPTION \"An address.\" SYNTAX OCTET STRING (SIZE (6))
tinyState OBJECT-TYPE SYNTAX INTEGER { up(1), down(2) } MAX-ACCESS read-only
  STATUS current DESCRIPTION \"State.\" ::= { tiny 1 }
tinyTable OBJECT-TYPE SYNTAX SEQUENCE OF TinyEntry MAX-ACCESS not-accessible
  STATUS current DESCRIPTION \"Table.\" ::= { tiny 2 }
tinyEntry OBJECT-TYPE SYNTAX TinyEntry MAX-ACCESS not-accessible
  STATUS current DESCRIPTION \"Row.\" INDEX { tinyName } ::= { tinyTable 1 }
TinyEntry ::= SEQUENCE { tinyName OCTET STRING, tinyMac Mac }
tinyName OBJECT-TYPE SYNTAX OCTET STRING (SIZE (0..32)) MAX-ACCESS not-accessible
  STATUS current DESCRIPTION \"Name.\" ::= { tinyEntry 1 }
tinyMac OBJECT-TYPE SYNTAX Mac MAX-ACCESS read-only
  STATUS current DESCRIPTION \"Address.\" ::= { tinyEntry 2 }
tinyKeyTable OBJECT IDENTIFIER ::= { tiny 3 }
tinyKeyEntry OBJECT-TYPE SYNTAX TinyKeyEntry MAX-ACCESS not-accessible
  STATUS current DESCRIPTION \"Key row.\" INDEX { IMPLIED tinyName } ::= { tinyKeyTable 1 }
TinyKeyEntry ::= SEQUENCE { tinyKeyUse Gauge32 }
tinyKeyUse OBJECT-TYPE SYNTAX Gauge32 UNITS \"jobs\" MAX-ACCESS read-only
  STATUS current DESCRIPTION \"Use.\" ::= { tinyKeyEntry 1 }
loopA OBJECT IDENTIFIER ::= { loopB 1 }
loopB OBJECT IDENTIFIER ::= { loopA 1 }
END
";

/// Returns the identifier of a text such as `1.3.6`.
pub(crate) fn oid(text: &str) -> Result<Oid, Fail> {
    Ok(parse_numeric(text.as_bytes()).ok().ok_or("no identifier")?)
}

/// Returns the modules of a text.
pub(crate) fn modules_of(alloc: Global, text: &[u8]) -> Result<Vec<Module>, Fail> {
    Ok(parse_modules(alloc, text)?)
}

/// Returns the names of `modules`, in a box, so that the code that drops them is proved only once.
pub(crate) fn names_of<'a>(alloc: Global, modules: &'a [Module]) -> Result<Box<Names<'a>>, Fail>
    ensures { IfOk result (λ names. names.value.modules ≡ modules.now) }
{
    let names = Names::new(alloc, NameHash::Fixed, modules)?;
    Ok(Box::new(alloc, names)?)
}

/// Returns whether a name resolves to this identifier, or to none for this reason.
pub(crate) fn resolves_to(resolution: Option<&Resolution>, expected: &str) -> bool {
    match resolution {
        None => expected == "no meaning",
        Some(Resolution::Cycle) => expected == "cycle",
        Some(Resolution::Unresolved) => expected == "unresolved",
        Some(Resolution::TooLong) => expected == "too long",
        Some(Resolution::Numbers(found)) => match parse_numeric(expected.as_bytes()) {
            Ok(wanted) => found.as_slice() == wanted.as_slice(),
            Err(_) => false,
        },
    }
}
