//! Walks over table files.

use crate::rows::assert_rows;
use std::test::Fail;

const ROWS: &str = r#"
$ snmp snmpwalk -On table:three.tab .1.3.6.1.4.1.32473.1
$ snmp snmpbulkwalk -On table:three.tab .1.3.6.1.4.1.32473.1
$ snmp snmpwalk -On table:three.tab 1.3.6.1.4.1.32473.1
$ snmp snmpwalk -O n table:three.tab .1
{three}
$ snmp snmpwalk -On --after .1.3.6.1.4.1.32473.1.1.0 table:three.tab .1.3.6.1.4.1.32473.1
$ snmp snmpbulkwalk -On --after .1.3.6.1.4.1.32473.1.1.0 table:three.tab .1.3.6.1.4.1.32473.1
$ snmp snmpwalk -On --after=.1.3.6.1.4.1.32473.1.1.0 table:three.tab .1.3.6.1.4.1.32473.1
$ snmp snmpbulkwalk -On --after=.1.3.6.1.4.1.32473.1.1.0 table:three.tab .1.3.6.1.4.1.32473.1
.1.3.6.1.4.1.32473.1.2.0 = STRING: "wes"
.1.3.6.1.4.1.32473.1.10.0 = INTEGER: 3
$ snmp snmpwalk -On --after .1.3.6.1.4.1.32473.1 table:three.tab .1.3.6.1.4.1.32473.1
$ snmp snmpbulkwalk -On --after .1.3.6.1.4.1.32473.1 table:three.tab .1.3.6.1.4.1.32473.1
{three}
$ snmp snmpwalk -On --after .1.3.6.1.4.1.32473.1.10.0 table:three.tab .1.3.6.1.4.1.32473.1
$ snmp snmpbulkwalk -On --after .1.3.6.1.4.1.32473.1.10.0 table:three.tab .1.3.6.1.4.1.32473.1

$ snmp snmpwalk -On -Cp table:three.tab .1.3.6.1.4.1.32473.1
$ snmp snmpbulkwalk -On -Cp table:three.tab .1.3.6.1.4.1.32473.1
{three}
Variables found: 3
$ snmp snmpwalk -On -Cp --after .1.3.6.1.4.1.32473.1.2.0 table:three.tab .1.3.6.1.4.1.32473.1
$ snmp snmpbulkwalk -On -Cp --after .1.3.6.1.4.1.32473.1.2.0 table:three.tab .1.3.6.1.4.1.32473.1
.1.3.6.1.4.1.32473.1.10.0 = INTEGER: 3
Variables found: 1
$ snmp snmpwalk -Oqs table:three.tab iso.3.6.1.4.1.32473.1.10
$ snmp snmpbulkwalk -Oqs table:three.tab iso.3.6.1.4.1.32473.1.10
$ snmp snmpwalk -O q -O s table:three.tab iso.3.6.1.4.1.32473.1.10
$ snmp snmpbulkwalk -O q -O s table:three.tab iso.3.6.1.4.1.32473.1.10
iso.3.6.1.4.1.32473.1.10.0 3
$ snmp snmpbulkwalk -On -Cr2p table:three.tab .1.3.6.1.4.1.32473.1
{three}
Variables found: 3

@ t.tab
1.3.6.1.9.1|2|1
1.3.6.1.10.1|2|2
1.3.6.1.10|2|3
1.3.6.1.11.0|2|4
1.3.6.1.100.0|2|5

$ snmp snmpwalk -On table:t.tab .1.3.6.1.10
.1.3.6.1.10.1 = INTEGER: 2
$ snmp snmpwalk -On table:t.tab .
.1.3.6.1.9.1 = INTEGER: 1
.1.3.6.1.10 = INTEGER: 3
.1.3.6.1.10.1 = INTEGER: 2
.1.3.6.1.11.0 = INTEGER: 4
.1.3.6.1.100.0 = INTEGER: 5

# Without module files, only the roots have names.
$ snmp snmpwalk -O S table:three.tab iso
$ snmp snmpwalk -O S table:three.tab .iso.3.6.1.4.1.32473
$ snmp snmpwalk -O s table:three.tab iso
$ snmp snmpwalk -O s table:three.tab .iso.3.6.1.4.1.32473
$ snmp snmpwalk -O nS table:three.tab iso
$ snmp snmpwalk -O nS table:three.tab .iso.3.6.1.4.1.32473
$ snmp snmpwalk -O fs table:three.tab iso
$ snmp snmpwalk -O fs table:three.tab .iso.3.6.1.4.1.32473
iso.3.6.1.4.1.32473.1.1.0 = INTEGER: 1
iso.3.6.1.4.1.32473.1.2.0 = STRING: "wes"
iso.3.6.1.4.1.32473.1.10.0 = INTEGER: 3
$ snmp snmpwalk -O f table:three.tab iso.3.6.1.4.1.32473.1.10.0
.iso.3.6.1.4.1.32473.1.10.0 = INTEGER: 3
$ snmp snmpwalk -O Sn table:three.tab iso.3.6.1.4.1.32473.1.10.0
.1.3.6.1.4.1.32473.1.10.0 = INTEGER: 3
$ snmp snmpwalk -O q table:three.tab iso.3.6.1.4.1.32473.1.10.0
iso.3.6.1.4.1.32473.1.10.0 3
$ snmp snmpwalk -O Q table:three.tab iso.3.6.1.4.1.32473.1.10.0
iso.3.6.1.4.1.32473.1.10.0 = 3
$ snmp snmpwalk -O v table:three.tab iso.3.6.1.4.1.32473.1.10.0
INTEGER: 3
$ snmp snmpwalk -O qv table:three.tab iso.3.6.1.4.1.32473.1.10.0
3
$ snmp snmpwalk -O S table:/dev/null .1
iso.0 = No Such Object available on this agent at this OID

# The modes of a walk: with nothing below the root; with only the root; with the root and rows
# below it.
$ snmp snmpwalk table:empty.tab .1
$ snmp snmpbulkwalk table:empty.tab .1
iso.0 = No Such Object available on this agent at this OID
$ snmp snmpwalk -On table:/dev/null .1
$ snmp snmpwalk -On table:empty.tab .1
$ snmp snmpbulkwalk -On table:/dev/null .1
.1.0 = No Such Object available on this agent at this OID
$ snmp snmpwalk -On -Cp table:/dev/null .
$ snmp snmpbulkwalk -On -Cp table:/dev/null .
.0.0 = No Such Object available on this agent at this OID
Variables found: 1
$ snmp snmpwalk -Oq table:/dev/null .1
$ snmp snmpbulkwalk -Oq table:/dev/null .1
iso.0 No Such Object available on this agent at this OID
$ snmp snmpwalk -Ov table:/dev/null .1
$ snmp snmpbulkwalk -Ov table:/dev/null .1
No Such Object available on this agent at this OID
$ snmp snmpwalk table:/dev/null
$ snmp snmpbulkwalk table:/dev/null
iso.3.6.1.2.1 = No Such Object available on this agent at this OID
$ snmp snmpwalk -On table:three.tab
$ snmp snmpbulkwalk -On table:three.tab
.1.3.6.1.2.1 = No Such Object available on this agent at this OID
$ snmp snmpwalk -Ci table:/dev/null .1
$ snmp snmpbulkwalk -Ci table:/dev/null .1

$ snmp snmpwalk -On table:three.tab .1.3.6.1.4.1.32473.1.1.0
$ snmp snmpbulkwalk -On table:three.tab .1.3.6.1.4.1.32473.1.1.0
$ snmp snmpwalk -On -Ci table:three.tab .1.3.6.1.4.1.32473.1.1.0
$ snmp snmpbulkwalk -On -Ci table:three.tab .1.3.6.1.4.1.32473.1.1.0
.1.3.6.1.4.1.32473.1.1.0 = INTEGER: 1
$ snmp snmpwalk -On table:nested.tab .1.3.6.1.4.1.32473.9
$ snmp snmpbulkwalk -On table:nested.tab .1.3.6.1.4.1.32473.9
.1.3.6.1.4.1.32473.9.1 = INTEGER: 8
$ snmp snmpwalk -On -Ci table:nested.tab .1.3.6.1.4.1.32473.9
$ snmp snmpbulkwalk -On -Ci table:nested.tab .1.3.6.1.4.1.32473.9
.1.3.6.1.4.1.32473.9 = INTEGER: 7
.1.3.6.1.4.1.32473.9.1 = INTEGER: 8
$ snmp snmpwalk -On -Ci -Cp table:nested.tab .1.3.6.1.4.1.32473.9
$ snmp snmpbulkwalk -On -Ci -Cp table:nested.tab .1.3.6.1.4.1.32473.9
.1.3.6.1.4.1.32473.9 = INTEGER: 7
.1.3.6.1.4.1.32473.9.1 = INTEGER: 8
Variables found: 2
$ snmp snmpwalk -On -Ci --after .1.3.6.1.4.1.32473.9 table:nested.tab .1.3.6.1.4.1.32473.9
$ snmp snmpbulkwalk -On -Ci --after .1.3.6.1.4.1.32473.9 table:nested.tab .1.3.6.1.4.1.32473.9
.1.3.6.1.4.1.32473.9.1 = INTEGER: 8
$ snmp snmpwalk -CI table:/dev/null .1
$ snmp snmpwalk -CI table:empty.tab .1

$ snmp snmpwalk -CIp table:/dev/null .1
Variables found: 0
$ snmp snmpwalk -On -CI table:three.tab .1.3.6.1.4.1.32473.1.1.0

$ snmp snmpwalk -On -CiI table:three.tab .1.3.6.1.4.1.32473.1.1.0
.1.3.6.1.4.1.32473.1.1.0 = INTEGER: 1
$ snmp snmpwalk -On -CIi table:nested.tab .1.3.6.1.4.1.32473.9
.1.3.6.1.4.1.32473.9 = INTEGER: 7
.1.3.6.1.4.1.32473.9.1 = INTEGER: 8
$ snmp snmpwalk -On -CI table:nested.tab .1.3.6.1.4.1.32473.9
.1.3.6.1.4.1.32473.9.1 = INTEGER: 8

@ object.tab
object 1.3.6.1

$ snmp snmpwalk -On table:object.tab .1.3.6.1.4
.1.3.6.1.4 = No Such Instance currently exists at this OID
$ snmp snmpwalk -On table:six.tab .1.3.6.1.4.1.32473.1.7.0
.1.3.6.1.4.1.32473.1.7.0 = No Such Instance currently exists at this OID

# Message sizes and max-repetitions.
$ snmp snmpbulkwalk -On -Cr1 --max-size 134 table:six.tab .1.3.6.1.4.1.32473.1
$ snmp snmpbulkwalk -On -Cr2 --max-size 134 table:six.tab .1.3.6.1.4.1.32473.1
$ snmp snmpbulkwalk -On -Cr6 --max-size 134 table:six.tab .1.3.6.1.4.1.32473.1
$ snmp snmpbulkwalk -On -Cr7 --max-size 134 table:six.tab .1.3.6.1.4.1.32473.1
$ snmp snmpbulkwalk -On -Cr007 --max-size 134 table:six.tab .1.3.6.1.4.1.32473.1
$ snmp snmpbulkwalk -On -Cr10 --max-size 134 table:six.tab .1.3.6.1.4.1.32473.1
$ snmp snmpbulkwalk -On -Cr2147483647 --max-size 134 table:six.tab .1.3.6.1.4.1.32473.1
$ snmp snmpbulkwalk -On -Cr2 -Cr9 --max-size 65507 table:six.tab .1.3.6.1.4.1.32473.1
$ snmp snmpwalk -On -cprivate table:six.tab .1.3.6.1.4.1.32473.1
{six}

@ t.tab
.1.3.6.1.4.1.32473.1.0|2|1
.1.3.6.1.4.1.32473.1.1|4|{200*0}

$ snmp snmpwalk -On --max-size 134 table:t.tab .1.3.6.1.4.1.32473.1
.1.3.6.1.4.1.32473.1.0 = INTEGER: 1
2! Error in packet: tooBig (1), index 0
$ snmp snmpbulkwalk -On --max-size 134 table:t.tab .1.3.6.1.4.1.32473.1
$ snmp snmpbulkwalk -On -Cp --max-size 134 table:t.tab .1.3.6.1.4.1.32473.1
.1.3.6.1.4.1.32473.1.0 = INTEGER: 1
1! No progress after .1.3.6.1.4.1.32473.1.0

@ t.tab
.1.3.6.1.4.1.32473.1.1|4|{1500*0}

$ snmp snmpwalk -On table:t.tab .1.3.6.1.4.1.32473.1
$ snmp snmpget -On table:t.tab .1.3.6.1.4.1.32473.1.1
$ snmp snmpget -On table:t.tab .1.3.6.1.4.1.32473.1.2 .1.3.6.1.4.1.32473.1.1
2! Error in packet: tooBig (1), index 0
$ snmp snmpbulkwalk -On table:t.tab .1.3.6.1.4.1.32473.1
1! No progress after .1.3.6.1.4.1.32473.1
$ snmp snmpwalk --max-size 1 table:three.tab .1
1! Timeout: No Response from table:three.tab.
"#;

#[test]
fn walks_have_their_lines(rt: HostRuntime) -> Result<(), Fail> {
    assert_rows(&rt, rt.alloc(), ROWS)?;
    Ok(())
}
