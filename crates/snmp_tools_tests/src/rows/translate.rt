//! Translations of names.

use crate::rows::assert_rows;
use std::test::Fail;

const ROWS: &str = r#"
$ snmp snmptranslate -On .1.3.6 iso
.1.3.6
.1
$ snmp snmptranslate -Of .1.3.6
.iso.3.6
$ snmp snmptranslate 1.3.6.1
iso.3.6.1
$ snmp snmptranslate .
.
$ snmp snmptranslate iso.3 . ccitt .1.3 joint-iso-ccitt.1 3.1
iso.3
.
ccitt
iso.3
joint-iso-ccitt.1
.3.1
$ snmp snmptranslate iso.3 nosuch iso
iso.3
1! Unknown name: nosuch
$ snmp snmptranslate --mib tiny.txt -On 'TINY-MIB::tinyMac."wes"'
.1.3.6.1.4.1.32473.2.1.2.3.119.101.115
! {warnings}
$ snmp snmptranslate --mib tiny.txt -OSn 'TINY-MIB::tinyMac."wes"' tinyState.0
.1.3.6.1.4.1.32473.2.1.2.3.119.101.115
.1.3.6.1.4.1.32473.1.0
! {warnings}
$ snmp snmptranslate --mib tiny.txt -On TINY-MIB::tinyState.0 \
iso.3.6.internet.private.enterprises.tiny.tinyState.0 .iso.3 tiny.tinyTable.tinyEntry.tinyMac
.1.3.6.1.4.1.32473.1.0
.1.3.6.1.4.1.32473.1.0
.1.3
.1.3.6.1.4.1.32473.2.1.2
! {warnings}
$ snmp snmptranslate --mib tiny.txt -OnS .1.3.6.1.4.1.32473.2.1.2.3.119.101.115 tinyState.0
TINY-MIB::tinyMac."wes"
TINY-MIB::tinyState.0
! {warnings}
$ snmp snmptranslate --mib tiny.txt -On "TINY-MIB::tinyKeyUse.'wes'"
.1.3.6.1.4.1.32473.3.1.1.119.101.115
! {warnings}
$ snmp snmptranslate --mib tiny.txt 1.3.6.1.4.1.32473.2.1.2.3.119.101.115 \
1.3.6.1.4.1.32473.3.1.1.119.101.115 1.3.6.1.4.1.32473.2.1.2.2.119.0
TINY-MIB::tinyMac."wes"
TINY-MIB::tinyKeyUse.'wes'
TINY-MIB::tinyMac.2.119.0
! {warnings}
$ snmp snmptranslate --mib tiny.txt -Osb 1.3.6.1.4.1.32473.2.1.2.3.119.101.115 \
1.3.6.1.4.1.32473.3.1.1.119.101.115 1.3.6.1.4.1.32473.2.1.2.2.119.0
tinyMac.3.119.101.115
tinyKeyUse.119.101.115
tinyMac.2.119.0
! {warnings}
$ snmp snmptranslate --mib tiny.txt -Of .1.3.6.1.4.1.32473.1.0 tinyState.0
$ snmp snmptranslate --mib tiny.txt -Onf .1.3.6.1.4.1.32473.1.0 tinyState.0
.iso.3.6.internet.private.enterprises.tiny.tinyState.0
.iso.3.6.internet.private.enterprises.tiny.tinyState.0
! {warnings}
$ snmp snmptranslate --mib tiny.txt -Os .1.3.6.1.4.1.32473.1.0 tinyState.0
tinyState.0
tinyState.0
! {warnings}
$ snmp snmptranslate --mib tiny.txt -OS .1.3.6.1.4.1.32473.1.0 tinyState.0
$ snmp snmptranslate --mib tiny.txt -OnS .1.3.6.1.4.1.32473.1.0 tinyState.0
$ snmp snmptranslate --mib tiny.txt -OqQvetbUxa .1.3.6.1.4.1.32473.1.0 tinyState.0
TINY-MIB::tinyState.0
TINY-MIB::tinyState.0
! {warnings}
$ snmp snmptranslate --mib tiny.txt -Td TINY-MIB::tinyState
TINY-MIB::tinyState
tinyState OBJECT-TYPE
  -- FROM{x09}TINY-MIB
  SYNTAX{x09}INTEGER { up ( 1 ) , down ( 2 ) }
  MAX-ACCESS{x09}read-only
  STATUS{x09}current
  DESCRIPTION{x09}"State."
::= { iso(1) 3 6 internet(1) private(4) enterprises(1) tiny(32473) 1 }
! {warnings}
$ snmp snmptranslate --mib tiny.txt -On -Td "tinyKeyUse.'w'"
.1.3.6.1.4.1.32473.3.1.1.119
tinyKeyUse OBJECT-TYPE
  -- FROM{x09}TINY-MIB
  SYNTAX{x09}Gauge32
  UNITS{x09}"jobs"
  MAX-ACCESS{x09}read-only
  STATUS{x09}current
  DESCRIPTION{x09}"Use."
::= { iso(1) 3 6 internet(1) private(4) enterprises(1) tiny(32473) tinyKeyTable(3) \
tinyKeyEntry(1) tinyKeyUse(1) 119 }
! {warnings}
$ snmp snmptranslate --mib tiny.txt -Of -Td iso . tiny 3.1
.iso
iso OBJECT IDENTIFIER
::= { 1 }
.
::= { }
.iso.3.6.internet.private.enterprises.tiny
tiny OBJECT IDENTIFIER
  -- FROM{x09}TINY-MIB
::= { iso(1) 3 6 internet(1) private(4) enterprises(1) 32473 }
.3.1
::= { 3 1 }
! {warnings}
$ snmp snmptranslate -Tdd iso
iso
iso OBJECT IDENTIFIER
::= { 1 }
"#;

#[test]
fn names_are_translated(rt: HostRuntime) -> Result<(), Fail> {
    assert_rows(&rt, rt.alloc(), ROWS)?;
    Ok(())
}
