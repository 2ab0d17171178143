//! Names and values, as they are shown with module files and without.

use crate::rows::assert_rows;
use std::test::Fail;

const ROWS: &str = r#"
$ snmp snmpwalk --mib tiny.txt table:tiny.tab tiny
$ snmp snmpbulkwalk --mib=tiny.txt table:tiny.tab TINY-MIB::tiny
{tiny}
! {warnings}
$ snmp snmpwalk --mib tiny.txt --after tinyState.0 table:tiny.tab tiny
TINY-MIB::tinyMac."wes" = STRING: 0:16:3e:5a:78:8e
TINY-MIB::tinyKeyUse.'wes' = Gauge32: 5 jobs
! {warnings}
$ snmp snmpwalk --mib tiny.txt -Oqs table:tiny.tab tiny
$ snmp snmpwalk --mib=tiny.txt -Oqs table:tiny.tab tiny
tinyState.0 up
tinyMac."wes" 0:16:3e:5a:78:8e
tinyKeyUse.'wes' 5 jobs
! {warnings}
$ snmp snmpwalk --mib tiny.txt -Oqv table:tiny.tab tiny
$ snmp snmpwalk --mib=tiny.txt -Oqv table:tiny.tab tiny
up
0:16:3e:5a:78:8e
5 jobs
! {warnings}
$ snmp snmpwalk --mib=tiny.txt -OneU table:tiny.tab tiny
.1.3.6.1.4.1.32473.1.0 = INTEGER: 1
.1.3.6.1.4.1.32473.2.1.2.3.119.101.115 = STRING: 0:16:3e:5a:78:8e
.1.3.6.1.4.1.32473.3.1.1.119.101.115 = Gauge32: 5
! {warnings}
$ snmp snmpwalk --mib=tiny.txt -OS table:tiny.tab "TINY-MIB::tinyKeyUse.'wes'"
$ snmp snmpwalk --mib=tiny.txt -OS table:tiny.tab tinyKeyTable
$ snmp snmpwalk --mib=tiny.txt -OS table:tiny.tab .iso.3.6.internet.private.enterprises.tiny.3
$ snmp snmpwalk --mib=tiny.txt -OS table:tiny.tab 1.3.6.1.4.1.32473.3
$ snmp snmpwalk --mib=tiny.txt '--after=TINY-MIB::tinyMac."wes"' table:tiny.tab tiny
TINY-MIB::tinyKeyUse.'wes' = Gauge32: 5 jobs
! {warnings}
$ snmp snmpget --mib=tiny.txt -Oqv table:tiny.tab tinyState.0 'TINY-MIB::tinyMac."wes"'
up
0:16:3e:5a:78:8e
! {warnings}
$ snmp snmpget --mib tiny.txt -OQ table:tiny.tab tinyState.0
$ snmp snmpget --mib tiny.txt -OqQ table:tiny.tab tinyState.0
TINY-MIB::tinyState.0 = up
! {warnings}
$ snmp snmpget --mib tiny.txt -OQq table:tiny.tab tinyState.0
TINY-MIB::tinyState.0 up
! {warnings}
$ snmp snmpget --mib tiny.txt -Oe table:tiny.tab tinyState.0
TINY-MIB::tinyState.0 = INTEGER: 1
! {warnings}
$ snmp snmpget --mib tiny.txt -Oeq table:tiny.tab tinyState.0
TINY-MIB::tinyState.0 1
! {warnings}
$ snmp snmpget --mib tiny.txt -Ob table:tiny.tab 'tinyMac."wes"'
TINY-MIB::tinyMac.3.119.101.115 = STRING: 0:16:3e:5a:78:8e
! {warnings}
$ snmp snmpget --mib tiny.txt -OU table:tiny.tab "tinyKeyUse.'wes'"
TINY-MIB::tinyKeyUse.'wes' = Gauge32: 5
! {warnings}
$ snmp snmpget --mib tiny.txt -Oqv table:tiny.tab "tinyKeyUse.'wes'"
5 jobs
! {warnings}
$ snmp snmpget --mib tiny.txt -Of table:tiny.tab tinyState.0
.iso.3.6.internet.private.enterprises.tiny.tinyState.0 = INTEGER: up(1)
! {warnings}
$ snmp snmpget --mib tiny.txt -OnSs table:tiny.tab tinyState.0
tinyState.0 = INTEGER: up(1)
! {warnings}
$ snmp snmpget --mib tiny.txt -Osn table:tiny.tab tinyState.0
.1.3.6.1.4.1.32473.1.0 = INTEGER: up(1)
! {warnings}

# A file whose names are below names of another file, which is loaded before it, and then after
# it.

@ t.tab
.1.3.6.1.4.1.32473.9.1|2|7

@ more.txt
MORE-MIB DEFINITIONS ::= BEGIN
IMPORTS tiny FROM TINY-MIB;
more OBJECT IDENTIFIER ::= { tiny 9 }
END

$ snmp snmpbulkwalk --mib=tiny.txt --mib=more.txt table:t.tab more
$ snmp snmpbulkwalk --mib=more.txt --mib=tiny.txt table:t.tab more
MORE-MIB::more.1 = INTEGER: 7
! {warnings}
$ snmp snmpwalk --mib=tiny.txt --mib=more.txt --mib=more.txt table:t.tab tiny
MORE-MIB::more.1 = INTEGER: 7
! {warnings}
! snmp: MORE-MIB is loaded twice

@ t.tab
.1.3.6.1.4.1.32473.1.0|4|up

$ snmp snmpwalk --mib tiny.txt table:t.tab tiny
TINY-MIB::tinyState.0 = STRING: "up"
! {warnings}

@ t.tab
.1.3.6.1.4.1.32473.1.0|4x|07C8051A0D1E0F002D0400
.1.3.6.1.4.1.32473.2.0|4x|7F00000100A1
.1.3.6.1.4.1.32473.3.0|2|5
.1.3.6.1.4.1.32473.3.1|2|-5
.1.3.6.1.4.1.32473.4.0|4|a

@ hints.txt
HINT-MIB DEFINITIONS ::= BEGIN
Date ::= TEXTUAL-CONVENTION DISPLAY-HINT "2d-1d-1d,1d:1d:1d.1d,1a1d:1d" STATUS current
  DESCRIPTION "" SYNTAX OCTET STRING
Place ::= TEXTUAL-CONVENTION DISPLAY-HINT "1d.1d.1d.1d/2d" STATUS current DESCRIPTION "" SYNTAX \
OCTET STRING
Part ::= TEXTUAL-CONVENTION DISPLAY-HINT "d-2" STATUS current DESCRIPTION "" SYNTAX INTEGER
None ::= TEXTUAL-CONVENTION DISPLAY-HINT "0a" STATUS current DESCRIPTION "" SYNTAX OCTET STRING
date OBJECT-TYPE SYNTAX Date MAX-ACCESS read-only STATUS current DESCRIPTION "" ::= \
{ iso 3 6 1 4 1 32473 1 }
place OBJECT-TYPE SYNTAX Place MAX-ACCESS read-only STATUS current DESCRIPTION "" ::= \
{ iso 3 6 1 4 1 32473 2 }
part OBJECT-TYPE SYNTAX Part MAX-ACCESS read-only STATUS current DESCRIPTION "" ::= \
{ iso 3 6 1 4 1 32473 3 }
none OBJECT-TYPE SYNTAX None MAX-ACCESS read-only STATUS current DESCRIPTION "" ::= \
{ iso 3 6 1 4 1 32473 4 }
END

$ snmp snmpwalk --mib hints.txt -Os table:t.tab .1.3.6.1.4.1.32473
date.0 = STRING: 1992-5-26,13:30:15.0,-4:0
place.0 = STRING: 127.0.0.1/161
part.0 = INTEGER: 0.05
part.1 = INTEGER: -0.05
none.0 = STRING: "a"

# Values that no module file describes.

@ t.tab
.1.3.6.1.4.1.32473.1.0|67|14096763
.1.3.6.1.4.1.32473.2.0|4x|41FF
.1.3.6.1.4.1.32473.3.0|70|18446744073709551615
.1.3.6.1.4.1.32473.4.0|64|192.0.2.1

$ snmp snmpget -Onv table:t.tab .1.3.6.1.4.1.32473.1.0
Timeticks: (14096763) 1 day, 15:09:27.63
$ snmp snmpget -Onvq table:t.tab .1.3.6.1.4.1.32473.1.0
1:15:09:27.63
$ snmp snmpget -Onvt table:t.tab .1.3.6.1.4.1.32473.1.0
14096763
$ snmp snmpget -Onv table:t.tab .1.3.6.1.4.1.32473.2.0
Hex-STRING: 41 FF{x20}
$ snmp snmpget -Onvxa table:t.tab .1.3.6.1.4.1.32473.2.0
STRING: "A."
$ snmp snmpget -Onvax table:t.tab .1.3.6.1.4.1.32473.2.0
Hex-STRING: 41 FF{x20}
$ snmp snmpget -Onv table:t.tab .1.3.6.1.4.1.32473.3.0
Counter64: 18446744073709551615
$ snmp snmpget -Onv table:t.tab .1.3.6.1.4.1.32473.4.0
IpAddress: 192.0.2.1
$ snmp snmpget -Onvq table:t.tab .1.3.6.1.4.1.32473.4.0
192.0.2.1

@ t.tab
.1.3.6.1.4.1.32473.5.1|67|14096763
.1.3.6.1.4.1.32473.5.2|4x|0016FF
.1.3.6.1.4.1.32473.5.3|6|1.3.6.1
.1.3.6.1.4.1.32473.5.4|65|7
.1.3.6.1.4.1.32473.5.5|4|w

$ snmp snmpwalk -O v table:t.tab 1.3.6.1.4.1.32473.5
Timeticks: (14096763) 1 day, 15:09:27.63
Hex-STRING: 00 16 FF{x20}
OID: iso.3.6.1
Counter32: 7
STRING: "w"
$ snmp snmpwalk -O vqn table:t.tab 1.3.6.1.4.1.32473.5
1:15:09:27.63
00 16 FF{x20}
.1.3.6.1
7
"w"
$ snmp snmpwalk -O vtaf table:t.tab 1.3.6.1.4.1.32473.5
14096763
STRING: "..."
OID: .iso.3.6.1
Counter32: 7
STRING: "w"
$ snmp snmpwalk -O taxvebU table:t.tab 1.3.6.1.4.1.32473.5
14096763
Hex-STRING: 00 16 FF{x20}
OID: iso.3.6.1
Counter32: 7
Hex-STRING: 77{x20}
"#;

#[test]
fn names_and_values_are_shown(rt: HostRuntime) -> Result<(), Fail> {
    assert_rows(&rt, rt.alloc(), ROWS)?;
    Ok(())
}
