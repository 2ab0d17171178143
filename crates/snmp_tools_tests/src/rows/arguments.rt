//! Arguments: their help, those that are refused, and numbers at the ends of their ranges.

use crate::rows::assert_rows;
use std::test::Fail;

const ROWS: &str = r#"
# The version, and the beginning of each help.
$ snmp --version
snmp 0.7.0
$ snmp -h
Translates names of managed objects, reads them from SNMP agents...
$ snmp snmptranslate --help
Prints names of managed objects in another form, or details of them
{0*}
Usage: snmp snmptranslate...
$ snmp snmpget --help
Prints the instances that names stand for
{0*}
Usage: snmp snmpget...
$ snmp snmpwalk --help
Prints the instances below a name in their order, asking for one at a time
{0*}
Usage: snmp snmpwalk...
$ snmp snmpbulkwalk --help
Prints the instances below a name in their order, asking for many at a time
{0*}
Usage: snmp snmpbulkwalk...
$ snmp snmpd --help
Serves a table as an agent
{0*}
Usage: snmp snmpd...

# Arguments that the program refuses.
$ snmp
1! error: 'snmp' requires a subcommand but one was not provided...
$ snmp walk
1! error: unrecognized subcommand 'walk'...
$ snmp help
1! error: unrecognized subcommand 'help'...
$ snmp -x
1! error: unexpected argument '-x' found...
$ snmp snmpwalk --nix table:three.tab
1! error: unexpected argument '--nix' found...
$ snmp snmpwalk -T d table:three.tab
1! error: unexpected argument '-T' found...
$ snmp snmpd -r 1 --table three.tab
1! error: unexpected argument '-r' found...
$ snmp snmpwalk table:three.tab .1 b
1! error: unexpected argument 'b' found...
$ snmp snmpwalk -c a -c a table:three.tab
1! error: the argument '-c <COMMUNITY>' cannot be used multiple times...
$ snmp snmpd --turns 1 --turns 1 --table three.tab
1! error: the argument '--turns <N>' cannot be used multiple times...
$ snmp snmpwalk table:three.tab -r
1! error: a value is required for '-r <RETRIES>' but none was supplied...
$ snmp snmpwalk
$ snmp snmpwalk -On
! error: the following required arguments were not provided:
1!   <AGENT>...
$ snmp snmpget -On table:three.tab
$ snmp snmptranslate
! error: the following required arguments were not provided:
1!   <NAME>......
$ snmp snmpd --turns 0
! error: the following required arguments were not provided:
1!   --table <FILE>...

# Arguments of Net-SNMP: some options are accepted with their values joined, and the messages about
# others have a tip.
$ snmp snmpbulkwalk -v2c -cpublic -r1 -t2 -On -Cr50 table:three.tab .1.3.6.1.4.1.32473.1
$ snmp snmpwalk table:three.tab .1.3.6.1.4.1.32473.1 -v2c -cpublic -r1 -t2 -On
{three}
$ snmp snmpget -v2c -cpublic -r1 -t2 -On table:three.tab .1.3.6.1.4.1.32473.1.1.0
.1.3.6.1.4.1.32473.1.1.0 = INTEGER: 1
$ snmp snmpwalk -m ALL table:three.tab
$ snmp snmptranslate -mALL .1.3
! error: unexpected argument '-m' found
!
1!   tip: --mib FILE names a file of modules, and may be repeated...
$ snmp snmpbulkwalk -M dir table:three.tab
! error: unexpected argument '-M' found
!
1!   tip: no folder is searched for modules: --mib FILE names each file...
$ snmp snmpget -Pu table:three.tab .1.3
! error: unexpected argument '-P' found
!
1!   tip: files of modules (--mib FILE) are read in one way alone...
$ snmp snmpwalk -d table:three.tab
! error: unexpected argument '-d' found
!
1!   tip: messages are shown by tcpdump -vv -s0 udp port 161...
$ snmp snmpget -u me table:three.tab .1.3
! error: unexpected argument '-u' found
!
1!   tip: there is SNMPv2c alone: a community (-c), and neither users nor keys...
$ snmp snmpset
! error: unrecognized subcommand 'snmpset'
!
1!   tip: agents are read here and never written...

# Numbers and communities at the ends of their ranges and beyond, and what isn't a number.
$ snmp snmpwalk -r 0 -On table:three.tab .1.3.6.1.4.1.32473.1.1.0
$ snmp snmpwalk -r 1000 -On table:three.tab .1.3.6.1.4.1.32473.1.1.0
$ snmp snmpwalk -t 1 -On table:three.tab .1.3.6.1.4.1.32473.1.1.0
$ snmp snmpwalk -t 3600 -On table:three.tab .1.3.6.1.4.1.32473.1.1.0
$ snmp snmpwalk --max-size 65507 -On table:three.tab .1.3.6.1.4.1.32473.1.1.0
$ snmp snmpwalk -v 2c -On table:three.tab .1.3.6.1.4.1.32473.1.1.0
$ snmp snmpwalk -r 0001 -On table:three.tab .1.3.6.1.4.1.32473.1.1.0
.1.3.6.1.4.1.32473.1.1.0 = INTEGER: 1
$ snmp snmpwalk -r 1001 table:three.tab
1! error: invalid value '1001' for '-r ...
$ snmp snmpwalk -r 18446744073709551616 table:three.tab
1! error: invalid value '18446744073709551616' for '-r ...
$ snmp snmpwalk -r x table:three.tab
1! error: invalid value 'x' for '-r ...
$ snmp snmpwalk -t 0 table:three.tab
1! error: invalid value '0' for '-t ...
$ snmp snmpwalk -t 3601 table:three.tab
1! error: invalid value '3601' for '-t ...
$ snmp snmpwalk -t 1.5 table:three.tab
1! error: invalid value '1.5' for '-t ...
$ snmp snmpwalk --max-size 0 table:three.tab
1! error: invalid value '0' for '--max-size ...
$ snmp snmpwalk --max-size 65508 table:three.tab
1! error: invalid value '65508' for '--max-size ...
$ snmp snmpd --table three.tab --max-size 0
1! error: invalid value '0' for '--max-size <OCTETS>'...
$ snmp snmpd --table three.tab --max-size 65508
1! error: invalid value '65508' for '--max-size <OCTETS>'...
$ snmp snmpd --table three.tab --turns 18446744073709551616
1! error: invalid value '18446744073709551616' for '--turns <N>'...
$ snmp snmpd --table three.tab --listen 127.0.0.1:{port} --turns 0 --max-size 65507
listening on 127.0.0.1:{port}
0 replies, 0 dropped
$ snmp snmpbulkwalk -On -Cr1 table:three.tab .1.3.6.1.4.1.32473.1
$ snmp snmpbulkwalk -On -Cr0001 table:three.tab .1.3.6.1.4.1.32473.1
$ snmp snmpbulkwalk -On -Cr2147483647 table:three.tab .1.3.6.1.4.1.32473.1
{three}
$ snmp snmpbulkwalk -On -Cr0 table:three.tab .1.3.6.1.4.1.32473.1
$ snmp snmpbulkwalk -On -Cr2147483648 table:three.tab .1.3.6.1.4.1.32473.1
$ snmp snmpbulkwalk -On -Cr table:three.tab .1.3.6.1.4.1.32473.1
$ snmp snmpbulkwalk -On -Crx table:three.tab .1.3.6.1.4.1.32473.1
$ snmp snmpbulkwalk -On -Cr-1 table:three.tab .1.3.6.1.4.1.32473.1
1! Unknown letter: r
$ snmp snmpwalk -c {255*0} -On table:three.tab .1.3.6.1.4.1.32473.1.1.0
$ snmp snmpwalk -c '' -On table:three.tab .1.3.6.1.4.1.32473.1.1.0
.1.3.6.1.4.1.32473.1.1.0 = INTEGER: 1
$ snmp snmpwalk -c {256*0} table:three.tab
$ snmp snmpwalk -c é{254*0} table:three.tab
$ snmp snmpget -c {256*0} table:three.tab .1.3
$ snmp snmpd -c {256*0} --table three.tab --turns 0
1! Community too long.
$ snmp snmpd -c {255*0} --table three.tab --listen 127.0.0.1:{port} --turns 0
listening on 127.0.0.1:{port}
0 replies, 0 dropped

# Letters that an option doesn't have.
$ snmp snmpwalk -Oz table:three.tab .1
$ snmp snmpwalk -O n -O nz table:three.tab .1
1! Unknown letter: z
$ snmp snmpwalk -O nX table:three.tab .1
1! Unknown letter: X
$ snmp snmpwalk -O n4q table:three.tab .1
$ snmp snmpwalk -On4 table:three.tab .1
1! Unknown letter: 4
$ snmp snmpwalk -O - table:three.tab .1
1! Unknown letter: -
$ snmp snmpwalk -O C table:three.tab .1
1! Unknown letter: C
$ snmp snmptranslate -Oz .1
1! Unknown letter: z
$ snmp snmptranslate -Tx .1
$ snmp snmptranslate -Tdx .1
1! Unknown letter: x
$ snmp snmptranslate -TC iso
$ snmp snmptranslate -TdC iso
$ snmp snmptranslate -TCdx iso
1! Unknown letter: C
$ snmp snmpwalk -Cr5 table:three.tab .1
1! Unknown letter: r
$ snmp snmpbulkwalk -CI table:three.tab .1
1! Unknown letter: I
$ snmp snmpwalk -Ci5 table:three.tab .1
$ snmp snmpbulkwalk -On -Ci5 table:three.tab .1.3.6.1.4.1.32473.1
1! Unknown letter: 5
$ snmp snmpbulkwalk -On -C7 table:three.tab .1.3.6.1.4.1.32473.1
1! Unknown letter: 7
$ snmp snmpwalk -Cé table:three.tab .1
1! Unknown letter: {xC3}

# Addresses that are refused, and one that isn't reached.
$ snmp snmpwalk -On '' .1
1! Bad agent address:{x20}
$ snmp snmpwalk -On : .1
1! Bad agent address: :
$ snmp snmpwalk -On h: .1
1! Bad agent address: h:
$ snmp snmpwalk -On h:0 .1
1! Bad agent address: h:0
$ snmp snmpwalk -On h:65536 .1
1! Bad agent address: h:65536
$ snmp snmpwalk -On h:1:2 .1
1! Bad agent address: h:1:2
$ snmp snmpwalk -On a:b:1 .1
1! Bad agent address: a:b:1
$ snmp snmpwalk -On h:+1 .1
1! Bad agent address: h:+1
$ snmp snmpwalk -On udp:h:+1 .1
1! Bad agent address: udp:h:+1
$ snmp snmpwalk -On h:x .1
1! Bad agent address: h:x
$ snmp snmpwalk -On :1 .1
1! Bad agent address: :1
$ snmp snmpwalk -On udp: .1
1! Bad agent address: udp:
$ snmp snmpwalk -On udp::1 .1
1! Bad agent address: udp::1
$ snmp snmpwalk -On table: .1
1! Bad agent address: table:
$ snmp snmpd --table three.tab --listen '' --turns 0
1! Bad agent address:{x20}
$ snmp snmpd --table three.tab --listen 161 --turns 0
1! Bad agent address: 161
$ snmp snmpd --table three.tab --listen 127.0.0.1 --turns 0
1! Bad agent address: 127.0.0.1
$ snmp snmpd --table three.tab --listen 127.0.0.1: --turns 0
1! Bad agent address: 127.0.0.1:
$ snmp snmpd --table three.tab --listen 127.0.0.1:0 --turns 0
1! Bad agent address: 127.0.0.1:0
$ snmp snmpd --table three.tab --listen 127.0.0.1:65536 --turns 0
1! Bad agent address: 127.0.0.1:65536
$ snmp snmpd --table three.tab --listen :161 --turns 0
1! Bad agent address: :161
$ snmp snmpd --table three.tab --listen udp:161 --turns 0
1! Bad agent address: udp:161
$ snmp snmpd --table three.tab --listen table:161 --turns 0
1! Bad agent address: table:161
$ snmp snmpd --table three.tab --listen udp:127.0.0.1:161 --turns 0
1! Bad agent address: udp:127.0.0.1:161
$ snmp snmpd --table three.tab --listen h:+1 --turns 0
1! Bad agent address: h:+1
$ snmp snmpd --table three.tab --listen h:1:2 --turns 0
1! Bad agent address: h:1:2
$ snmp snmpd --table three.tab --listen table:t.tab --turns 0
1! Bad agent address: table:t.tab
$ snmp snmpwalk a..b .1.3
1! The link failed.
"#;

#[test]
fn arguments_are_judged(rt: HostRuntime) -> Result<(), Fail> {
    assert_rows(&rt, rt.alloc(), ROWS)?;
    Ok(())
}
