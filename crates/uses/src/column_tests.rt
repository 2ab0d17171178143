//! Tests of the functions that count the rows of a table by column, and that list its columns.

use crate::polling_tests::{name, public};
use crate::{Column, columns_of, count_columns};
use smi_text::parse_modules;
use smi_tree::Tree;
use snmp_agent::Table;
use snmp_oid::Oid;
use snmp_walk::{MemoryLink, Method, WalkEnd};

/// An interface table (RFC 2863) of two interfaces, of which one has no ifSpeed, and an object
/// before and after it.
const INTERFACES: &[u8] = b"1.3.6.1.2.1.2.1.0|2|2\n1.3.6.1.2.1.2.2.1.1.1|2|1\n\
    1.3.6.1.2.1.2.2.1.1.2|2|2\n1.3.6.1.2.1.2.2.1.2.1|4|lo\n1.3.6.1.2.1.2.2.1.2.2|4|eth0\n\
    1.3.6.1.2.1.2.2.1.5.2|66|1000000000\n1.3.6.1.2.1.3.0|2|7\n";

#[test]
fn rows_are_counted_by_column(rt: HostRuntime) {
    let alloc = rt.alloc();
    let table = Table::read(alloc, INTERFACES).expect(&rt, "a table");
    // The first reply is lost.
    let mut link = MemoryLink::new(alloc, &table, public(), &[None]);
    let entry = name(&rt, b"1.3.6.1.2.1.2.2.1");
    let counted = count_columns(alloc, &mut link, entry, Method::Bulk(2), b"public", 1, 1);
    let (end, counts) = counted.expect(&rt, "an entry that can be sent");
    assert!(&rt; end == WalkEnd::Done(5));
    assert!(&rt; counts.count(1) == 2);
    assert!(&rt; counts.count(2) == 2);
    assert!(&rt; counts.count(3) == 0);
    assert!(&rt; counts.count(5) == 1);
}

/// A table with three columns, and a node below its entry that isn't a column.
const PORTS: &[u8] = b"PORT-MIB DEFINITIONS ::= BEGIN
ports OBJECT IDENTIFIER ::= { iso 5 }
portTable OBJECT-TYPE SYNTAX SEQUENCE OF PortEntry MAX-ACCESS not-accessible
    STATUS current DESCRIPTION \"Ports.\" ::= { ports 1 }
portEntry OBJECT-TYPE SYNTAX PortEntry MAX-ACCESS not-accessible
    STATUS current DESCRIPTION \"A port.\" INDEX { portIndex } ::= { portTable 1 }
PortEntry ::= SEQUENCE { portIndex INTEGER, portName OCTET STRING, portSpeed INTEGER }
portSpeed OBJECT-TYPE SYNTAX INTEGER MAX-ACCESS read-only
    STATUS current DESCRIPTION \"Its speed.\" ::= { portEntry 10 }
portNotes OBJECT IDENTIFIER ::= { portEntry 3 }
portName OBJECT-TYPE SYNTAX OCTET STRING MAX-ACCESS read-only
    STATUS current DESCRIPTION \"Its name.\" ::= { portEntry 2 }
portIndex OBJECT-TYPE SYNTAX INTEGER MAX-ACCESS read-only
    STATUS current DESCRIPTION \"Its number.\" ::= { portEntry 1 }
END
";

/// Returns whether the column has this label and this identifier.
fn is(column: &Column<'_>, label: &[u8], oid: &Oid) -> bool {
    column.label == label && column.oid.to_oid() == *oid
}

#[test]
fn columns_are_listed_by_number(rt: HostRuntime) {
    let alloc = rt.alloc();
    let modules = parse_modules(alloc, PORTS).expect(&rt, "a module");
    let (tree, warnings) = Tree::load(alloc, modules).expect(&rt, "memory");
    assert!(&rt; warnings.is_empty());
    let entry = tree.find(b"PORT-MIB", b"portEntry").expect(&rt, "a node");
    assert!(&rt; entry < tree.len());
    let columns = columns_of(alloc, &tree, entry).expect(&rt, "memory");
    assert!(&rt; columns.len() == 3);
    assert!(&rt; is(&columns[0], b"portIndex", &name(&rt, b"1.5.1.1.1")));
    assert!(&rt; is(&columns[1], b"portName", &name(&rt, b"1.5.1.1.2")));
    assert!(&rt; is(&columns[2], b"portSpeed", &name(&rt, b"1.5.1.1.10")));
}
