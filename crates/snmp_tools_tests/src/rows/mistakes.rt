//! Command lines with several mistakes, and names that are refused.

use crate::rows::assert_rows;
use std::test::Fail;

const ROWS: &str = r#"
# If several arguments are wrong, the message is about the first of these: the version, -O, -C,
# the community, AGENT, the module files in order, NAME, --after, the table file or the link, a
# root that can't be sent, an --after that is neither the root nor below it, an --after that can't
# be sent.
$ snmp snmpwalk -v 1 -Oz -Cy -c {256*0} --mib no.txt --mib program.txt --after b udp: a
$ snmp snmpbulkwalk -v 1 -Oz -Cy -c {256*0} --mib no.txt --mib program.txt --after b udp: a
1! Unknown version: 1
$ snmp snmpwalk -Oz -Cy -c {256*0} --mib no.txt --mib program.txt --after b udp: a
$ snmp snmpbulkwalk -Oz -Cy -c {256*0} --mib no.txt --mib program.txt --after b udp: a
1! Unknown letter: z
$ snmp snmpwalk -Cy -c {256*0} --mib no.txt --mib program.txt --after b udp: a
$ snmp snmpbulkwalk -Cy -c {256*0} --mib no.txt --mib program.txt --after b udp: a
1! Unknown letter: y
$ snmp snmpwalk --mib tiny.txt -Oz table:no.tab nowhere
$ snmp snmpbulkwalk --mib tiny.txt -Oz table:no.tab nowhere
1! Unknown letter: z
$ snmp snmpwalk -c {256*0} --mib no.txt --mib program.txt --after b udp: a
$ snmp snmpbulkwalk -c {256*0} --mib no.txt --mib program.txt --after b udp: a
1! Community too long.
$ snmp snmpwalk --mib no.txt --mib program.txt --after b udp: a
$ snmp snmpbulkwalk --mib no.txt --mib program.txt --after b udp: a
1! Bad agent address: udp:
$ snmp snmpwalk --mib no.txt --mib program.txt --after b table:no.tab a
$ snmp snmpbulkwalk --mib no.txt --mib program.txt --after b table:no.tab a
1! no.txt: cannot be read
$ snmp snmpwalk --mib program.txt --mib no.txt --after b table:no.tab a
$ snmp snmpbulkwalk --mib program.txt --mib no.txt --after b table:no.tab a
1! program.txt:1: syntax
$ snmp snmpwalk --after b table:no.tab a
$ snmp snmpbulkwalk --after b table:no.tab a
1! Unknown name: a
$ snmp snmpwalk --after b table:no.tab .3
$ snmp snmpbulkwalk --after b table:no.tab .3
$ snmp snmpwalk --after b a..b:1 .3
$ snmp snmpbulkwalk --after b a..b:1 .3
1! Unknown name: b
$ snmp snmpwalk --after .2 table:no.tab .3
$ snmp snmpbulkwalk --after .2 table:no.tab .3
1! no.tab: cannot be read
$ snmp snmpwalk --after .2 a..b:1 .3
$ snmp snmpbulkwalk --after .2 a..b:1 .3
1! The link failed.
$ snmp snmpwalk --after .2 table:three.tab .3
$ snmp snmpbulkwalk --after .2 table:three.tab .3
$ snmp snmpwalk --after .3.1 table:three.tab .3
$ snmp snmpbulkwalk --after .3.1 table:three.tab .3
1! Name cannot be sent: .3
$ snmp snmpwalk --after .2 table:three.tab .1
$ snmp snmpbulkwalk --after .2 table:three.tab .1
1! Not below the root: .2
$ snmp snmpwalk --after .3 table:three.tab .1
$ snmp snmpbulkwalk --after .3 table:three.tab .1
1! Not below the root: .3
$ snmp snmpwalk -On --after .1.3.6.1.2.1 table:three.tab .1.3.6.1.4.1.32473.1
$ snmp snmpwalk -On --after=.1.3.6.1.2.1 table:three.tab .1.3.6.1.4.1.32473.1
$ snmp snmpbulkwalk -On --after=.1.3.6.1.2.1 table:three.tab .1.3.6.1.4.1.32473.1
1! Not below the root: .1.3.6.1.2.1
$ snmp snmpwalk --after .1.40 table:three.tab .1
$ snmp snmpbulkwalk --after .1.40 table:three.tab .1
1! Name cannot be sent: .1.40
$ snmp snmpget -v 1 -Oz -c {256*0} --mib no.txt udp: a b
1! Unknown version: 1
$ snmp snmpget -Oz -c {256*0} --mib no.txt udp: a b
1! Unknown letter: z
$ snmp snmpget -c {256*0} --mib no.txt udp: a b
1! Community too long.
$ snmp snmpget --mib no.txt udp: a b
1! Bad agent address: udp:
$ snmp snmpget --mib no.txt table:no.tab .3 a b
1! no.txt: cannot be read
$ snmp snmpget table:no.tab .3 a b
1! Unknown name: a
$ snmp snmpget --mib=tiny.txt -Oz table:no.tab loopA .3
1! Unknown letter: z
$ snmp snmpget --mib=program.txt -Oqv table:no.tab loopA .3
1! program.txt:1: syntax
$ snmp snmpget -On table:three.tab .1.3.6.1.4.1.32473.1.1.0 nosuch 1..3
1! Unknown name: nosuch
$ snmp snmpget -On table:three.tab .1.3.6.1.4.1.32473.1.1.0 1..3 nosuch
1! Bad number: 1..3
$ snmp snmpget -On table:three.tab .3 .1.3.6.1.4.1.32473.1.1.0 nosuch
1! Unknown name: nosuch
$ snmp snmpget table:no.tab .3
1! no.tab: cannot be read
$ snmp snmpget a..b .3
1! The link failed.
$ snmp snmpget -On table:three.tab .1.3.6.1.4.1.32473.1.1.0 .3 .1.40
1! Name cannot be sent: .3
$ snmp snmpget -On table:three.tab .1.40 .1.3.6.1.4.1.32473.1.1.0 .3
1! Name cannot be sent: .1.40
$ snmp snmptranslate -Oz -Ty --mib no.txt a
1! Unknown letter: z
$ snmp snmptranslate -Ty --mib no.txt a
1! Unknown letter: y
$ snmp snmptranslate --mib no.txt a
1! no.txt: cannot be read

@ bad.txt
BAD-MIB
!\

$ snmp snmptranslate --mib tiny.txt --mib bad.txt --mib no.txt -On -Td nosuch
1! bad.txt:2: bad character
$ snmp snmptranslate --mib tiny.txt --mib no.txt --mib bad.txt -On -Td nosuch
1! no.txt: cannot be read
$ snmp snmpd -c {256*0} --listen udp: --table no.tab
1! Community too long.
$ snmp snmpd --listen udp: --table no.tab
1! Bad agent address: udp:
$ snmp snmpd -c {255*0} --listen nowhere --table no.tab
1! Bad agent address: nowhere
$ snmp snmpd --mib no.txt --listen udp: --table no.tab
1! Bad agent address: udp:
$ snmp snmpd --mib tiny.txt --mib no.txt --listen a..b:1 --table no.tab
1! no.txt: cannot be read
$ snmp snmpd --listen a..b:1 --table no.tab
1! no.tab: cannot be read

@ t.tab
object 1
x

$ snmp snmpd --listen a..b:1 --table t.tab
1! t.tab:2: bad line
$ snmp snmpwalk --mib=tiny.txt -On table:no.tab nowhere
! {warnings}
1! Unknown name: nowhere
$ snmp snmpwalk --mib=tiny.txt --after=loopA table:no.tab tiny
! {warnings}
1! Unknown name: loopA
$ snmp snmpwalk --mib=tiny.txt -On table:no.tab tiny
! {warnings}
1! no.tab: cannot be read
$ snmp snmpwalk --mib=tiny.txt -On table:program.txt tiny
! {warnings}
1! program.txt:1: bad line
$ snmp snmpwalk --mib=tiny.txt -On table:tiny.tab .3
! {warnings}
1! Name cannot be sent: .3
$ snmp snmpwalk --mib=tiny.txt -On a..b tiny
! {warnings}
1! The link failed.
$ snmp snmpget --mib=tiny.txt -Oqv table:no.tab tinyState.0 loopA
! {warnings}
1! Unknown name: loopA
$ snmp snmpget --mib=tiny.txt -Oqv table:no.tab tinyState.0 .3
! {warnings}
1! no.tab: cannot be read
$ snmp snmpget --mib=tiny.txt -Oqv table:tiny.tab tinyState.0 .3
! {warnings}
1! Name cannot be sent: .3
$ snmp snmptranslate --mib tiny.txt -On -Td nosuch
! {warnings}
1! Unknown name: nosuch
$ snmp snmpd --mib tiny.txt --listen a..b:1 --table no.tab
! {warnings}
1! no.tab: cannot be read

# Names that are refused, and a name of 128 numbers.
$ snmp snmpwalk -On table:three.tab mib-2
1! Unknown name: mib-2
$ snmp snmpwalk -On table:three.tab ''
1! Unknown name:{x20}
$ snmp snmpwalk table:three.tab .1.4294967296
1! Bad number: .1.4294967296
$ snmp snmpget table:three.tab .1..3
1! Bad number: .1..3
$ snmp snmptranslate 'iso."a'
1! Bad index: iso."a
$ snmp snmpwalk -On table:three.tab 1..3
1! Bad number: 1..3
$ snmp snmpwalk -On table:three.tab .1.
1! Bad number: .1.
$ snmp snmpwalk -On table:three.tab 4294967296
1! Bad number: 4294967296
$ snmp snmpwalk -On table:three.tab iso.4294967296
1! Bad number: iso.4294967296
$ snmp snmpwalk -On table:three.tab 1.2a
1! Bad number: 1.2a
$ snmp snmpwalk -On table:three.tab ..1
1! Bad number: ..1
$ snmp snmpwalk -On table:three.tab -- iso.org
1! Unknown name: iso.org
$ snmp snmpwalk -On table:three.tab -- .1.iso
1! Unknown name: .1.iso
$ snmp snmpwalk -On table:three.tab -- NO-MIB::1.3
1! Unknown name: NO-MIB::1.3
$ snmp snmpwalk -On table:three.tab -- ::iso
1! Unknown name: ::iso
$ snmp snmpwalk -On table:three.tab -- -1
1! Unknown name: -1
$ snmp snmpwalk -On table:three.tab "1.3.''"
1! Bad index: 1.3.''
$ snmp snmpwalk -On table:three.tab "1.3.'abc"
1! Bad index: 1.3.'abc
$ snmp snmpwalk -On table:three.tab '1.3."a"b'
1! Bad index: 1.3."a"b
$ snmp snmpwalk -On table:three.tab "'abc::x"
1! Bad index: 'abc::x
$ snmp snmpwalk -On table:three.tab .3
1! Name cannot be sent: .3
$ snmp snmpwalk -On table:three.tab .1.40
1! Name cannot be sent: .1.40
$ snmp snmpwalk -On table:three.tab .0.40.1
1! Name cannot be sent: .0.40.1
$ snmp snmpwalk -On table:three.tab .4294967295.1
1! Name cannot be sent: .4294967295.1
$ snmp snmptranslate {129*.1}
1! Name too long: {129*.1}
$ snmp snmpwalk -On table:three.tab 1{128*.1}
1! Name too long: 1{128*.1}
$ snmp snmptranslate -On 0{127*.0}
{128*.0}
$ snmp snmptranslate 0{128*.0}
1! Name too long: 0{128*.0}
$ snmp snmptranslate NO-MIB::iso
1! Unknown name: NO-MIB::iso
$ snmp snmpwalk --mib tiny.txt table:tiny.tab tinyer
$ snmp snmptranslate --mib tiny.txt -Td tinyer
! {warnings}
1! Unknown name: tinyer
$ snmp snmptranslate .1.3 x .1.3.6
iso.3
1! Unknown name: x
$ snmp snmptranslate --mib tiny.txt iso.3 ''
iso.3
! {warnings}
1! Unknown name:{x20}
$ snmp snmptranslate --mib tiny.txt iso.3 'tinyMac."wes'
iso.3
! {warnings}
1! Bad index: tinyMac."wes
$ snmp snmptranslate --mib tiny.txt iso.3 NO-MIB::iso
iso.3
! {warnings}
1! Unknown name: NO-MIB::iso
$ snmp snmptranslate --mib tiny.txt iso.3 TINY-SMI::tiny
iso.3
! {warnings}
1! Unknown name: TINY-SMI::tiny
$ snmp snmptranslate --mib tiny.txt iso.3 .tiny
iso.3
! {warnings}
1! Unknown name: .tiny
$ snmp snmptranslate --mib tiny.txt iso.3 tiny.tinyMac
iso.3
! {warnings}
1! Unknown name: tiny.tinyMac
$ snmp snmptranslate --mib tiny.txt iso.3 GONE-MIB::other
iso.3
! {warnings}
1! Unknown name: GONE-MIB::other
$ snmp snmptranslate --mib tiny.txt iso.3 iso..3
iso.3
! {warnings}
1! Bad number: iso..3
$ snmp snmptranslate --mib tiny.txt iso.3 iso.4294967296
iso.3
! {warnings}
1! Bad number: iso.4294967296

# A name of 128 numbers, 125 of them with five octets each, is read and walked.

@ t.tab
.1.3.6{125*.4294967295}|2|1

$ snmp snmpwalk -On table:t.tab .1
.1.3.6{125*.4294967295} = INTEGER: 1
"#;

#[test]
fn mistakes_are_reported(rt: HostRuntime) -> Result<(), Fail> {
    assert_rows(&rt, rt.alloc(), ROWS)?;
    Ok(())
}
