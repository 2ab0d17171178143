//! Module files: faults, imports and warnings.

use crate::rows::assert_rows;
use std::test::Fail;

const ROWS: &str = r#"
$ snmp snmpwalk --mib tiny.txt --mib no.txt table:tiny.tab tiny
1! no.txt: cannot be read

@ m.txt
M DEFINITIONS ::= BEGIN
a OBJECT IDENTIFIER ::= { iso 1 } ?
END

$ snmp snmptranslate --mib m.txt iso
$ snmp snmpbulkwalk --mib=tiny.txt --mib=m.txt --mib=no.txt table:tiny.tab tiny
1! m.txt:2: bad character

@ m.txt
M DEFINITIONS ::= BEGIN
{0*}
a OBJECT IDENTIFIER ::= { iso 1 } @
END

$ snmp snmptranslate --mib m.txt iso
$ snmp snmpbulkwalk --mib=tiny.txt --mib=m.txt --mib=no.txt table:tiny.tab tiny
1! m.txt:3: bad character

@ m.txt
M DEFINITIONS ::= BEGIN
a OBJECT-TYPE SYNTAX INTEGER UNITS "b
END

$ snmp snmptranslate --mib m.txt iso
$ snmp snmpbulkwalk --mib=tiny.txt --mib=m.txt --mib=no.txt table:tiny.tab tiny
1! m.txt:2: open string

@ m.txt
M DEFINITIONS ::= BEGIN
a OBJECT IDENTIFIER ::= { iso iso 1
END

$ snmp snmptranslate --mib m.txt iso
$ snmp snmpbulkwalk --mib=tiny.txt --mib=m.txt --mib=no.txt table:tiny.tab tiny
1! m.txt:2: syntax

@ m.txt
M DEFINITIONS ::= BEGIN
a OBJECT IDENTIFIER ::= { iso 1 }
::= END
END

$ snmp snmptranslate --mib m.txt iso
$ snmp snmpbulkwalk --mib=tiny.txt --mib=m.txt --mib=no.txt table:tiny.tab tiny
1! m.txt:3: syntax

@ m.txt
M DEFINITIONS ::= BEGIN
a OBJECT IDENTIFIER ::= { iso 1 }
{0*}
::= END
END

$ snmp snmptranslate --mib m.txt iso
$ snmp snmpbulkwalk --mib=tiny.txt --mib=m.txt --mib=no.txt table:tiny.tab tiny
1! m.txt:4: syntax

@ m.txt
M DEFINITIONS ::= BEGIN
a OBJECT IDENTIFIER ::= { iso 1 } a OBJECT IDENTIFIER ::= { iso 2 }
END

$ snmp snmptranslate --mib m.txt iso
$ snmp snmpbulkwalk --mib=tiny.txt --mib=m.txt --mib=no.txt table:tiny.tab tiny
1! m.txt:2: double name

@ m.txt
M DEFINITIONS ::= BEGIN
a OBJECT IDENTIFIER ::= { iso 1 }
a OBJECT IDENTIFIER ::= { iso 2 }
END

$ snmp snmptranslate --mib m.txt iso
$ snmp snmpbulkwalk --mib=tiny.txt --mib=m.txt --mib=no.txt table:tiny.tab tiny
1! m.txt:3: double name

@ m.txt
M DEFINITIONS ::= BEGIN
a OBJECT IDENTIFIER ::= { b 1 } c OBJECT IDENTIFIER ::= { iso{128* 1} }
END

$ snmp snmptranslate --mib m.txt iso
iso
! snmp: M::a is unresolved
! snmp: M::c is too long
$ snmp snmptranslate --mib m.txt --mib tiny.txt iso
iso
! snmp: M::a is unresolved
! snmp: M::c is too long
! {warnings}
$ snmp snmptranslate --mib across.txt --mib well.txt -On ACROSS-MIB::across
.1.7.2

# If a module defines and imports a name, the name refers to the definition there. If the module
# only imports the name, the name refers to the first such import. In the arguments, a name without
# a module is a root or, if no root has that name, the first definition that was loaded.

@ m.txt
A DEFINITIONS ::= BEGIN IMPORTS x FROM B x FROM C;
x OBJECT IDENTIFIER ::= { iso 5 }
a OBJECT IDENTIFIER ::= { x 1 }
END
B DEFINITIONS ::= BEGIN x OBJECT IDENTIFIER ::= { iso 6 } END
C DEFINITIONS ::= BEGIN x OBJECT IDENTIFIER ::= { iso 7 } END
D DEFINITIONS ::= BEGIN IMPORTS x FROM C x FROM B; d OBJECT IDENTIFIER ::= { x 1 } END

$ snmp snmptranslate --mib m.txt -On A::a A::x B::x C::x D::d x iso
.1.5.1
.1.5
.1.6
.1.7
.1.7.1
.1.5
.1
$ snmp snmptranslate --mib m.txt D::x
1! Unknown name: D::x

# Imports in a ring; and a module that imports from itself.

@ m.txt
A DEFINITIONS ::= BEGIN IMPORTS x FROM B;
y OBJECT IDENTIFIER ::= { x 1 }
END
B DEFINITIONS ::= BEGIN IMPORTS x FROM A; END

$ snmp snmptranslate --mib m.txt iso
iso
! snmp: A::y stands on a cycle

@ m.txt
A DEFINITIONS ::= BEGIN IMPORTS x FROM B;
y OBJECT IDENTIFIER ::= { x 1 }
END
B DEFINITIONS ::= BEGIN IMPORTS x FROM A; END
S DEFINITIONS ::= BEGIN IMPORTS itself, OBJECT-TYPE, Counter32, iso FROM S;
z OBJECT IDENTIFIER ::= { itself 1 }
END

$ snmp snmptranslate --mib m.txt A::y
! snmp: A::y stands on a cycle
! snmp: S::z stands on a cycle
1! Unknown name: A::y
$ snmp snmptranslate --mib m.txt S::z
! snmp: A::y stands on a cycle
! snmp: S::z stands on a cycle
1! Unknown name: S::z
$ snmp snmptranslate --mib m.txt y
! snmp: A::y stands on a cycle
! snmp: S::z stands on a cycle
1! Unknown name: y
$ snmp snmptranslate --mib m.txt z
! snmp: A::y stands on a cycle
! snmp: S::z stands on a cycle
1! Unknown name: z

# An import has a warning if the other module neither defines nor imports the name, also the name
# of a root. Names of macros and base types have none. Each FROM clause has one warning if its
# module isn't loaded.

@ m.txt
A DEFINITIONS ::= BEGIN IMPORTS gone, iso, gone, MODULE-IDENTITY, Gauge32 FROM B
b FROM NONE c FROM NONE; END
B DEFINITIONS ::= BEGIN END

$ snmp snmptranslate --mib m.txt iso
iso
! snmp: A imports gone from B, which has no gone
! snmp: A imports iso from B, which has no iso
! snmp: A imports gone from B, which has no gone
! snmp: A imports from NONE, which is not loaded
! snmp: A imports from NONE, which is not loaded

# An object whose type is in a ring has no syntax, and the program prints no warning about it.

@ t.tab
.1.9.0|2|5

@ m.txt
M DEFINITIONS ::= BEGIN
A ::= B B ::= A
    a OBJECT-TYPE SYNTAX A UNITS "m" MAX-ACCESS read-only STATUS current DESCRIPTION "" ::= \
{ iso 9 }
END

$ snmp snmpwalk --mib m.txt table:t.tab a
M::a.0 = INTEGER: 5
$ snmp snmptranslate --mib tiny.txt --mib tiny.txt iso
iso
! {warnings}
! snmp: TINY-SMI is loaded twice
! snmp: TINY-MIB is loaded twice
"#;

#[test]
fn modules_are_loaded(rt: HostRuntime) -> Result<(), Fail> {
    assert_rows(&rt, rt.alloc(), ROWS)?;
    Ok(())
}
