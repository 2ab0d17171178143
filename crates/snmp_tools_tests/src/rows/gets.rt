//! Gets of names, over table files.

use crate::rows::assert_rows;
use std::test::Fail;

const ROWS: &str = r#"
$ snmp snmpget -On table:three.tab .1.3.6.1.4.1.32473.1.10.0 .1.3.6.1.4.1.32473.1.3.0
.1.3.6.1.4.1.32473.1.10.0 = INTEGER: 3
.1.3.6.1.4.1.32473.1.3.0 = No Such Object available on this agent at this OID

@ object.tab
object 1.3.6.1.4.1.32473.1
1.3.6.1.4.1.32473.1.10.0|2|3

$ snmp snmpget -On table:object.tab .1.3.6.1.4.1.32473.1.10.0 .1.3.6.1.4.1.32473.1.3.0
.1.3.6.1.4.1.32473.1.10.0 = INTEGER: 3
.1.3.6.1.4.1.32473.1.3.0 = No Such Instance currently exists at this OID
$ snmp snmpget -On table:three.tab .1.3.6.1.4.1.32473.1.10.0 .1.3.6.1.4.1.32473.1.3.0 \
.1.3.6.1.4.1.32473.1.1.0
.1.3.6.1.4.1.32473.1.10.0 = INTEGER: 3
.1.3.6.1.4.1.32473.1.3.0 = No Such Object available on this agent at this OID
.1.3.6.1.4.1.32473.1.1.0 = INTEGER: 1
$ snmp snmpget -On table:three.tab .1.3.6.1.4.1.32473.1.1.0 .1.3.6.1.4.1.32473.1.1.0
.1.3.6.1.4.1.32473.1.1.0 = INTEGER: 1
.1.3.6.1.4.1.32473.1.1.0 = INTEGER: 1
$ snmp snmpget -On table:three.tab .1.3.6.1.4.1.32473.1.10.0 .1.3.6.1.4.1.32473.1.1.0 \
.1.3.6.1.4.1.32473.1.10.0
.1.3.6.1.4.1.32473.1.10.0 = INTEGER: 3
.1.3.6.1.4.1.32473.1.1.0 = INTEGER: 1
.1.3.6.1.4.1.32473.1.10.0 = INTEGER: 3
$ snmp snmpget -On table:three.tab .1
$ snmp snmpget -On table:empty.tab .1
.1.0 = No Such Object available on this agent at this OID
$ snmp snmpget -Oqv table:three.tab iso.3.6.1.4.1.32473.1.1.0 .iso.3.6.1.4.1.32473.1.2.0 \
.1.3.6.1.4.1.32473.1.10.0
1
"wes"
3
$ snmp snmpget -Oq table:three.tab iso.3.6.1.4.1.32473.1.1.0 .iso.3.6.1.4.1.32473.1.2.0 \
.1.3.6.1.4.1.32473.1.10.0
iso.3.6.1.4.1.32473.1.1.0 1
iso.3.6.1.4.1.32473.1.2.0 "wes"
iso.3.6.1.4.1.32473.1.10.0 3
$ snmp snmpget -On table:tiny.tab .1.3.6.1.4.1.32473.1.0.5 .1.3.6.1.4.1.32473.2
.1.3.6.1.4.1.32473.1.0.5 = No Such Instance currently exists at this OID
.1.3.6.1.4.1.32473.2 = No Such Object available on this agent at this OID
$ snmp snmpget --mib tiny.txt table:tiny.tab tinyState.0
TINY-MIB::tinyState.0 = INTEGER: up(1)
! {warnings}
$ snmp snmpget --mib=tiny.txt table:tiny.tab 'TINY-MIB::tinyMac."wes"' tinyState.0 tinyState.1
TINY-MIB::tinyMac."wes" = STRING: 0:16:3e:5a:78:8e
TINY-MIB::tinyState.0 = INTEGER: up(1)
TINY-MIB::tinyState.1 = No Such Instance currently exists at this OID
! {warnings}

# Message sizes without room for a binding, and without room for a reply.
$ snmp snmpget --max-size=26 table:three.tab .1.3.6.1.2.1.1.5.0
2! Error in packet: tooBig (1), index 0
$ snmp snmpget --max-size=25 -r2 table:three.tab .1.3.6.1.2.1.1.5.0
1! Timeout: No Response from table:three.tab.
"#;

#[test]
fn gets_have_their_lines(rt: HostRuntime) -> Result<(), Fail> {
    assert_rows(&rt, rt.alloc(), ROWS)?;
    Ok(())
}
