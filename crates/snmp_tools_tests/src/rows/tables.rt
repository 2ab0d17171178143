//! Table files: faults, and names that the loaded modules define.

use crate::rows::assert_rows;
use std::test::Fail;

const ROWS: &str = r#"
$ snmp snmpwalk -On table:no.tab .1
1! no.tab: cannot be read
$ snmp snmpwalk -On table:three.tab/ .1
1! three.tab/: cannot be read
$ snmp snmpwalk -On table:. .1
1! .: cannot be read
$ snmp snmpwalk -On table:/dev/zero .1
1! /dev/zero: cannot be read
$ snmp snmpwalk -On table:program.txt .1
1! program.txt:1: bad line

@ t.tab
.1.3.6.1.4.1.32473.0.0|2|1
.1.3.6.1.4.1.32473.1.0|5|

$ snmp snmpwalk -On table:t.tab .1
$ snmp snmpd --table t.tab --listen 127.0.0.1:{port} --turns 0
1! t.tab:2: bad line

@ t.tab
.1.3.6.1.4.1.32473.0.0|2|1
objects

$ snmp snmpwalk -On table:t.tab .1
$ snmp snmpd --table t.tab --listen 127.0.0.1:{port} --turns 0
1! t.tab:2: bad line

@ t.tab
.1.3.6.1.4.1.32473.0.0|2|1
1.3|2|1

$ snmp snmpwalk -On table:t.tab .1
$ snmp snmpd --table t.tab --listen 127.0.0.1:{port} --turns 0
1! t.tab:2: bad name

@ t.tab
.1.3.6.1.4.1.32473.0.0|2|1
.1.3.6{125*.4294967295}.1|2|1

$ snmp snmpwalk -On table:t.tab .1
$ snmp snmpd --table t.tab --listen 127.0.0.1:{port} --turns 0
1! t.tab:2: bad name

@ t.tab
.1.3.6.1.4.1.32473.0.0|2|1
3.3.6|2|1

$ snmp snmpwalk -On table:t.tab .1
$ snmp snmpd --table t.tab --listen 127.0.0.1:{port} --turns 0
1! t.tab:2: bad name

@ t.tab
.1.3.6.1.4.1.32473.0.0|2|1
object .

$ snmp snmpwalk -On table:t.tab .1
$ snmp snmpd --table t.tab --listen 127.0.0.1:{port} --turns 0
1! t.tab:2: bad name

@ t.tab
.1.3.6.1.4.1.32473.0.0|2|1
.1.3.6.1.4.1.32473.1.0|4x|0

$ snmp snmpwalk -On table:t.tab .1
$ snmp snmpd --table t.tab --listen 127.0.0.1:{port} --turns 0
1! t.tab:2: bad value

@ t.tab
.1.3.6.1.4.1.32473.0.0|2|1
.1.3.6.1.4.1.32473.1.0|2|2147483648

$ snmp snmpwalk -On table:t.tab .1
$ snmp snmpd --table t.tab --listen 127.0.0.1:{port} --turns 0
1! t.tab:2: bad value

@ t.tab
.1.3.6.1.4.1.32473.0.0|2|1
.1.3.6.1.4.1.32473.1.0|2|

$ snmp snmpwalk -On table:t.tab .1
$ snmp snmpd --table t.tab --listen 127.0.0.1:{port} --turns 0
1! t.tab:2: bad value

@ t.tab
.1.3.6.1.4.1.32473.0.0|2|1
.1.3.6.1.4.1.32473.0.0|2|x
1.3|2|1

$ snmp snmpwalk -On table:t.tab .1
$ snmp snmpd --table t.tab --listen 127.0.0.1:{port} --turns 0
1! t.tab:2: bad value

@ t.tab
.1.3.6.1.4.1.32473.0.0|2|1
1.3.6.1.4.1.32473.0.0|2|1
.1.3.6.1.4.1.32473.1.0|5|

$ snmp snmpwalk -On table:t.tab .1
$ snmp snmpd --table t.tab --listen 127.0.0.1:{port} --turns 0
1! t.tab:2: double name

@ t.tab
.1.3.6.1.4.1.32473.0.0|2|1
.1.3.6.01.4.1.32473.0.0|2|2

$ snmp snmpwalk -On table:t.tab .1
$ snmp snmpd --table t.tab --listen 127.0.0.1:{port} --turns 0
1! t.tab:2: double name

@ t.tab
{0*}
# two lines
1.3.6.1|2

$ snmp snmpwalk -On table:t.tab .1
1! t.tab:3: bad line

@ t.tab
1.3.6.1|2|1{x0D}
1.3.6.2|2|2147483648{x0D}

$ snmp snmpwalk -On table:t.tab .1
1! t.tab:2: bad value

@ t.tab
1.3.6.1.2.0|4|a|b{x0D}
{x0D}
#{x0D}
1.3.6.1.1.0|2|-5\

$ snmp snmpwalk -On table:t.tab .1.3
.1.3.6.1.1.0 = INTEGER: -5
.1.3.6.1.2.0 = STRING: "a|b"
$ snmp snmpwalk --mib tiny.txt table:two.tab tiny
$ snmp snmpbulkwalk --mib tiny.txt table:two.tab tiny
$ snmp snmpget --mib tiny.txt table:two.tab tinyState.0 'tinyMac."a|b"' tiny.9.0
TINY-MIB::tinyState.0 = INTEGER: up(1)
TINY-MIB::tinyMac."a|b" = STRING: 0:16:3e:5a:78:8e
TINY-MIB::tiny.9.0 = OID: TINY-MIB::tinyMac
! {warnings}
$ snmp snmpwalk table:two.tab .1.3.6.1.4.1.32473
$ snmp snmpwalk -On table:two.tab .1.3.6.1.4.1.32473
$ snmp snmpd --table two.tab --listen 127.0.0.1:{port} --turns 0
1! two.tab:2: bad name
$ snmp snmpd --mib tiny.txt --table two.tab --listen 127.0.0.1:{port} --turns 0
listening on 127.0.0.1:{port}
0 replies, 0 dropped
! {warnings}

# The same table without its first line.

@ two.tab
object TINY-MIB::tinyState
TINY-MIB::tinyState.0|2|1
tinyMac."a|b"|4x|00163E5A788E
.1.3.6.1.4.1.32473.9.0|6|TINY-MIB::tinyMac

$ snmp snmpwalk table:two.tab .1.3.6.1.4.1.32473
$ snmp snmpwalk -On table:two.tab .1.3.6.1.4.1.32473
1! two.tab:1: bad name
$ snmp snmpwalk --mib tiny.txt table:two.tab tiny
! {warnings}
1! two.tab:1: bad name

@ t.tab
#snmptab 2{x0D}
tinyState.0|2|1{x0D}

$ snmp snmpwalk --mib tiny.txt table:t.tab tiny
TINY-MIB::tinyState.0 = INTEGER: up(1)
! {warnings}

@ t.tab
#snmptab 2{x0D}
tinyKeyUse.'a|b'|66|5{x0D}
.1.3.6.1.4.1.32473.3.1.1.99|66|6{x0D}

$ snmp snmpwalk --mib tiny.txt table:t.tab tiny
TINY-MIB::tinyKeyUse.'a|b' = Gauge32: 5 jobs
TINY-MIB::tinyKeyUse.'c' = Gauge32: 6 jobs
! {warnings}

@ t.tab
#snmptab 2
iso.3.6|2|5

$ snmp snmpget -On table:t.tab .1.3.6
.1.3.6 = INTEGER: 5

@ t.tab
#snmptab 2{x20}
tinyState.0|2|1

$ snmp snmpwalk --mib tiny.txt table:t.tab tiny
$ snmp snmpget --mib tiny.txt table:t.tab tinyState.0
$ snmp snmpd --mib tiny.txt --table t.tab --listen 127.0.0.1:{port} --turns 0
! {warnings}
1! t.tab:2: bad name

@ t.tab
{0*}
#snmptab 2
tinyState.0|2|1

$ snmp snmpwalk --mib tiny.txt table:t.tab tiny
$ snmp snmpget --mib tiny.txt table:t.tab tinyState.0
$ snmp snmpd --mib tiny.txt --table t.tab --listen 127.0.0.1:{port} --turns 0
! {warnings}
1! t.tab:3: bad name

@ t.tab
#snmptab 3
tinyState.0|2|1

$ snmp snmpwalk --mib tiny.txt table:t.tab tiny
$ snmp snmpget --mib tiny.txt table:t.tab tinyState.0
$ snmp snmpd --mib tiny.txt --table t.tab --listen 127.0.0.1:{port} --turns 0
! {warnings}
1! t.tab:2: bad name

@ t.tab
#snmptab 2
tinyMac."a|2|1

$ snmp snmpwalk --mib tiny.txt table:t.tab tiny
$ snmp snmpget --mib tiny.txt table:t.tab tinyState.0
$ snmp snmpd --mib tiny.txt --table t.tab --listen 127.0.0.1:{port} --turns 0
! {warnings}
1! t.tab:2: bad line

@ t.tab
#snmptab 2
tinyKeyUse.'a|66|5

$ snmp snmpwalk --mib tiny.txt table:t.tab tiny
$ snmp snmpget --mib tiny.txt table:t.tab tinyState.0
$ snmp snmpd --mib tiny.txt --table t.tab --listen 127.0.0.1:{port} --turns 0
! {warnings}
1! t.tab:2: bad line

@ t.tab
#snmptab 2
object tinyMac|

$ snmp snmpwalk --mib tiny.txt table:t.tab tiny
$ snmp snmpget --mib tiny.txt table:t.tab tinyState.0
$ snmp snmpd --mib tiny.txt --table t.tab --listen 127.0.0.1:{port} --turns 0
! {warnings}
1! t.tab:2: bad name

@ t.tab
#snmptab 2
tinyGone.0|2|1

$ snmp snmpwalk --mib tiny.txt table:t.tab tiny
$ snmp snmpget --mib tiny.txt table:t.tab tinyState.0
$ snmp snmpd --mib tiny.txt --table t.tab --listen 127.0.0.1:{port} --turns 0
! {warnings}
1! t.tab:2: bad name

@ t.tab
#snmptab 2
tinyState.0|6|tinyGone

$ snmp snmpwalk --mib tiny.txt table:t.tab tiny
$ snmp snmpget --mib tiny.txt table:t.tab tinyState.0
$ snmp snmpd --mib tiny.txt --table t.tab --listen 127.0.0.1:{port} --turns 0
! {warnings}
1! t.tab:2: bad value

@ t.tab
#snmptab 2
tinyState.0|6|tiny|1

$ snmp snmpwalk --mib tiny.txt table:t.tab tiny
$ snmp snmpget --mib tiny.txt table:t.tab tinyState.0
$ snmp snmpd --mib tiny.txt --table t.tab --listen 127.0.0.1:{port} --turns 0
! {warnings}
1! t.tab:2: bad value

@ t.tab
#snmptab 2
tinyState.0|2|1
TINY-MIB::tinyState.0|2|2

$ snmp snmpwalk --mib tiny.txt table:t.tab tiny
$ snmp snmpget --mib tiny.txt table:t.tab tinyState.0
$ snmp snmpd --mib tiny.txt --table t.tab --listen 127.0.0.1:{port} --turns 0
! {warnings}
1! t.tab:3: double name

@ t.tab
#snmptab 2
tinyMac."a"|4|1
.1.3.6.1.4.1.32473.2.1.2.1.97|4|2

$ snmp snmpwalk --mib tiny.txt table:t.tab tiny
$ snmp snmpget --mib tiny.txt table:t.tab tinyState.0
$ snmp snmpd --mib tiny.txt --table t.tab --listen 127.0.0.1:{port} --turns 0
! {warnings}
1! t.tab:3: double name

# Names as a label, as a module and a label, as labels from the root on, and in numbers. Some have
# bars within quotes.

@ named.txt
NAMED-MIB DEFINITIONS ::= BEGIN
named OBJECT IDENTIFIER ::= { iso 7 }
namedTable OBJECT-TYPE SYNTAX SEQUENCE OF NamedEntry MAX-ACCESS not-accessible
  STATUS current DESCRIPTION "Table." ::= { named 2 }
namedEntry OBJECT-TYPE SYNTAX NamedEntry MAX-ACCESS not-accessible
  STATUS current DESCRIPTION "Row." INDEX { namedKey } ::= { namedTable 1 }
NamedEntry ::= SEQUENCE { namedKey OCTET STRING, namedValue INTEGER }
namedKey OBJECT-TYPE SYNTAX OCTET STRING (SIZE (0..32)) MAX-ACCESS not-accessible
  STATUS current DESCRIPTION "Key." ::= { namedEntry 1 }
namedValue OBJECT-TYPE SYNTAX INTEGER MAX-ACCESS read-only
  STATUS current DESCRIPTION "Value." ::= { namedEntry 2 }
END

@ named.tab
#snmptab 2
object NAMED-MIB::namedValue
.iso.7.3.'x|y'.0|4|t|u
namedValue."a|b"|2|1
NAMED-MIB::named.9.0|6|namedTable
.1.7.9.1|6|.iso.7

$ snmp snmpwalk --mib=named.txt table:named.tab named
NAMED-MIB::namedValue."a|b" = INTEGER: 1
NAMED-MIB::named.3.120.124.121.0 = STRING: "t|u"
NAMED-MIB::named.9.0 = OID: NAMED-MIB::namedTable
NAMED-MIB::named.9.1 = OID: NAMED-MIB::named
$ snmp snmpbulkwalk -On --mib=named.txt table:named.tab .1.7
.1.7.2.1.2.3.97.124.98 = INTEGER: 1
.1.7.3.120.124.121.0 = STRING: "t|u"
.1.7.9.0 = OID: .1.7.2
.1.7.9.1 = OID: .1.7
$ snmp snmpget --mib=named.txt table:named.tab 'namedValue."c"' named.5.0
NAMED-MIB::namedValue."c" = No Such Instance currently exists at this OID
NAMED-MIB::named.5.0 = No Such Object available on this agent at this OID
$ snmp snmpd --mib=named.txt --table=named.tab --listen=127.0.0.1:{port} --turns=0
listening on 127.0.0.1:{port}
0 replies, 0 dropped
$ snmp snmpwalk table:named.tab .1
1! named.tab:2: bad name

@ module.tab
#snmptab 2
GONE-MIB::named.0|2|1

$ snmp snmpwalk --mib=named.txt table:module.tab named
1! module.tab:2: bad name

@ root.tab
#snmptab 2
.named.1.0|2|1

$ snmp snmpwalk --mib=named.txt table:root.tab named
1! root.tab:2: bad name

@ child.tab
#snmptab 2
named.namedValue.0|2|1

$ snmp snmpwalk --mib=named.txt table:child.tab named
1! child.tab:2: bad name
"#;

#[test]
fn tables_are_read(rt: HostRuntime) -> Result<(), Fail> {
    assert_rows(&rt, rt.alloc(), ROWS)?;
    Ok(())
}
