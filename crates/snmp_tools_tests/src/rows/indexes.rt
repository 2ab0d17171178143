//! The indexes and syntaxes of objects in module files.

use crate::rows::assert_rows;
use std::test::Fail;

const ROWS: &str = r#"
@ row
MAX-ACCESS not-accessible STATUS current DESCRIPTION ""

@ column
MAX-ACCESS read-only STATUS current DESCRIPTION ""

# A SIZE that is a number; one that is a range whose ends are equal; one that is a literal.

@ sizes.txt
M DEFINITIONS ::= BEGIN
row OBJECT-TYPE SYNTAX Row {row} INDEX { fixed, ranged, literal } ::= { iso 1 }
fixed OBJECT-TYPE SYNTAX OCTET STRING (SIZE (2)) {column} ::= { row 1 }
ranged OBJECT-TYPE SYNTAX OCTET STRING (SIZE (2..2)) {column} ::= { row 2 }
literal OBJECT-TYPE SYNTAX OCTET STRING (SIZE ('02'H)) {column} ::= { row 3 }
END

$ snmp snmptranslate --mib sizes.txt .1.1.1.97.98.2.99.100.101.102 .1.1.1.97.98.99.100.101.102
M::fixed.'ab'."cd".'ef'
M::fixed.97.98.99.100.101.102
$ snmp snmptranslate --mib sizes.txt -On M::fixed."'"ab"'".'"'cd'"'."'"ef"'"
.1.1.1.97.98.2.99.100.101.102

# Indexes that consist of a string and one more part, of many syntaxes. Numbers that aren't such an
# index are shown as numbers.

@ indexes.txt
M DEFINITIONS ::= BEGIN
Mac ::= OCTET STRING (SIZE (6))
key OBJECT-TYPE SYNTAX OCTET STRING {column} ::= { iso 3 }
integerRow OBJECT-TYPE SYNTAX R {row} INDEX { key, integer } ::= { iso 4 }
integer OBJECT-TYPE SYNTAX INTEGER {column} ::= { integerRow 1 }
stateRow OBJECT-TYPE SYNTAX R {row} INDEX { key, state } ::= { iso 5 }
state OBJECT-TYPE SYNTAX INTEGER { up(1) } {column} ::= { stateRow 1 }
counterRow OBJECT-TYPE SYNTAX R {row} INDEX { key, counter } ::= { iso 6 }
counter OBJECT-TYPE SYNTAX Counter32 {column} ::= { counterRow 1 }
gaugeRow OBJECT-TYPE SYNTAX R {row} INDEX { key, gauge } ::= { iso 7 }
gauge OBJECT-TYPE SYNTAX Gauge32 {column} ::= { gaugeRow 1 }
unsignedRow OBJECT-TYPE SYNTAX R {row} INDEX { key, unsigned } ::= { iso 8 }
unsigned OBJECT-TYPE SYNTAX Unsigned32 {column} ::= { unsignedRow 1 }
ticksRow OBJECT-TYPE SYNTAX R {row} INDEX { key, ticks } ::= { iso 9 }
ticks OBJECT-TYPE SYNTAX TimeTicks {column} ::= { ticksRow 1 }
lastIntegerRow OBJECT-TYPE SYNTAX R {row} INDEX { key, IMPLIED lastInteger } ::= { iso 10 }
lastInteger OBJECT-TYPE SYNTAX Integer32 (0..9) {column} ::= { lastIntegerRow 1 }
counter64Row OBJECT-TYPE SYNTAX R {row} INDEX { key, counter64 } ::= { iso 11 }
counter64 OBJECT-TYPE SYNTAX Counter64 {column} ::= { counter64Row 1 }
missingRow OBJECT-TYPE SYNTAX R {row} INDEX { key, missing } ::= { iso 12 }
missing OBJECT-TYPE SYNTAX Missing {column} ::= { missingRow 1 }
addressRow OBJECT-TYPE SYNTAX R {row} INDEX { key, address } ::= { iso 13 }
address OBJECT-TYPE SYNTAX IpAddress {column} ::= { addressRow 1 }
identifierRow OBJECT-TYPE SYNTAX R {row} INDEX { key, identifier } ::= { iso 14 }
identifier OBJECT-TYPE SYNTAX OBJECT IDENTIFIER {column} ::= { identifierRow 1 }
lastIdentifierRow OBJECT-TYPE SYNTAX R {row} INDEX { key, IMPLIED lastIdentifier } ::= { iso 15 }
lastIdentifier OBJECT-TYPE SYNTAX OBJECT IDENTIFIER {column} ::= { lastIdentifierRow 1 }
stringRow OBJECT-TYPE SYNTAX R {row} INDEX { key, string } ::= { iso 16 }
string OBJECT-TYPE SYNTAX OCTET STRING {column} ::= { stringRow 1 }
string6to6Row OBJECT-TYPE SYNTAX R {row} INDEX { key, string6to6 } ::= { iso 17 }
string6to6 OBJECT-TYPE SYNTAX OCTET STRING (SIZE (6..6)) {column} ::= { string6to6Row 1 }
stringTo32Row OBJECT-TYPE SYNTAX R {row} INDEX { key, stringTo32 } ::= { iso 18 }
stringTo32 OBJECT-TYPE SYNTAX OCTET STRING (SIZE (0..32)) {column} ::= { stringTo32Row 1 }
stringOf6Or8Row OBJECT-TYPE SYNTAX R {row} INDEX { key, stringOf6Or8 } ::= { iso 19 }
stringOf6Or8 OBJECT-TYPE SYNTAX OCTET STRING (SIZE (6 | 8)) {column} ::= { stringOf6Or8Row 1 }
lastStringRow OBJECT-TYPE SYNTAX R {row} INDEX { key, IMPLIED lastString } ::= { iso 20 }
lastString OBJECT-TYPE SYNTAX OCTET STRING {column} ::= { lastStringRow 1 }
lastString6to6Row OBJECT-TYPE SYNTAX R {row} INDEX { key, IMPLIED lastString6to6 } ::= { iso 21 }
lastString6to6 OBJECT-TYPE SYNTAX OCTET STRING (SIZE (6..6)) {column} ::= { lastString6to6Row 1 }
lastStringTo32Row OBJECT-TYPE SYNTAX R {row} INDEX { key, IMPLIED lastStringTo32 } ::= { iso 22 }
lastStringTo32 OBJECT-TYPE SYNTAX OCTET STRING (SIZE (1..32)) {column} ::= { lastStringTo32Row 1 }
fixedRow OBJECT-TYPE SYNTAX R {row} INDEX { key, fixed } ::= { iso 23 }
fixed OBJECT-TYPE SYNTAX OCTET STRING (SIZE (6)) {column} ::= { fixedRow 1 }
fixedHexRow OBJECT-TYPE SYNTAX R {row} INDEX { key, fixedHex } ::= { iso 24 }
fixedHex OBJECT-TYPE SYNTAX OCTET STRING (SIZE ('06'H)) {column} ::= { fixedHexRow 1 }
macRow OBJECT-TYPE SYNTAX R {row} INDEX { key, mac } ::= { iso 25 }
mac OBJECT-TYPE SYNTAX Mac {column} ::= { macRow 1 }
lastFixedRow OBJECT-TYPE SYNTAX R {row} INDEX { key, IMPLIED lastFixed } ::= { iso 26 }
lastFixed OBJECT-TYPE SYNTAX OCTET STRING (SIZE (6)) {column} ::= { lastFixedRow 1 }
negativeRow OBJECT-TYPE SYNTAX R {row} INDEX { key, negative } ::= { iso 27 }
negative OBJECT-TYPE SYNTAX OCTET STRING (SIZE (-5)) {column} ::= { negativeRow 1 }
lastNegativeRow OBJECT-TYPE SYNTAX R {row} INDEX { key, IMPLIED lastNegative } ::= { iso 28 }
lastNegative OBJECT-TYPE SYNTAX OCTET STRING (SIZE (-5)) {column} ::= { lastNegativeRow 1 }
macUpTo6Row OBJECT-TYPE SYNTAX R {row} INDEX { key, macUpTo6 } ::= { iso 29 }
macUpTo6 OBJECT-TYPE SYNTAX Mac (SIZE (0..6)) {column} ::= { macUpTo6Row 1 }
opaqueRow OBJECT-TYPE SYNTAX R {row} INDEX { key, opaque } ::= { iso 30 }
opaque OBJECT-TYPE SYNTAX Opaque {column} ::= { opaqueRow 1 }
bitsRow OBJECT-TYPE SYNTAX R {row} INDEX { key, bits } ::= { iso 31 }
bits OBJECT-TYPE SYNTAX BITS { a(0) } {column} ::= { bitsRow 1 }
opaqueOf4Row OBJECT-TYPE SYNTAX R {row} INDEX { key, opaqueOf4 } ::= { iso 32 }
opaqueOf4 OBJECT-TYPE SYNTAX Opaque (SIZE (4)) {column} ::= { opaqueOf4Row 1 }
lastBitsRow OBJECT-TYPE SYNTAX R {row} INDEX { key, IMPLIED lastBits } ::= { iso 33 }
lastBits OBJECT-TYPE SYNTAX BITS { a(0) } {column} ::= { lastBitsRow 1 }
END

$ snmp snmptranslate --mib indexes.txt .1.4.1.2.97.98.5 .1.4.1.2.97.98.5.6 .1.4.1.2.97.98.1.99
M::integer."ab".5
M::integer.2.97.98.5.6
M::integer.2.97.98.1.99
$ snmp snmptranslate --mib indexes.txt .1.5.1.2.97.98.5 .1.5.1.2.97.98.5.6 .1.5.1.2.97.98.1.99
M::state."ab".5
M::state.2.97.98.5.6
M::state.2.97.98.1.99
$ snmp snmptranslate --mib indexes.txt .1.6.1.2.97.98.5 .1.6.1.2.97.98.5.6 .1.6.1.2.97.98.1.99
M::counter."ab".5
M::counter.2.97.98.5.6
M::counter.2.97.98.1.99
$ snmp snmptranslate --mib indexes.txt .1.7.1.2.97.98.5 .1.7.1.2.97.98.5.6 .1.7.1.2.97.98.1.99
M::gauge."ab".5
M::gauge.2.97.98.5.6
M::gauge.2.97.98.1.99
$ snmp snmptranslate --mib indexes.txt .1.8.1.2.97.98.5 .1.8.1.2.97.98.5.6 .1.8.1.2.97.98.1.99
M::unsigned."ab".5
M::unsigned.2.97.98.5.6
M::unsigned.2.97.98.1.99
$ snmp snmptranslate --mib indexes.txt .1.9.1.2.97.98.5 .1.9.1.2.97.98.5.6 .1.9.1.2.97.98.1.99
M::ticks."ab".5
M::ticks.2.97.98.5.6
M::ticks.2.97.98.1.99
$ snmp snmptranslate --mib indexes.txt .1.10.1.2.97.98.5 .1.10.1.2.97.98.5.6
M::lastInteger."ab".5
M::lastInteger.2.97.98.5.6
$ snmp snmptranslate --mib indexes.txt .1.11.1.2.97.98.5 .1.11.1.2.97.98.1.99
M::counter64.2.97.98.5
M::counter64.2.97.98.1.99
$ snmp snmptranslate --mib indexes.txt .1.12.1.2.97.98.5 .1.12.1.2.97.98.1.99
M::missing.2.97.98.5
M::missing.2.97.98.1.99
$ snmp snmptranslate --mib indexes.txt .1.13.1.2.97.98.192.0.2.1 .1.13.1.2.97.98.192.0.2 \
.1.13.1.2.97.98.192.0.2.1.1 .1.13.1.2.97.98.192.0.2.256
M::address."ab".192.0.2.1
M::address.2.97.98.192.0.2
M::address.2.97.98.192.0.2.1.1
M::address.2.97.98.192.0.2.256
$ snmp snmptranslate --mib indexes.txt .1.14.1.2.97.98.2.1.256 .1.14.1.2.97.98.5.3 \
.1.14.1.2.97.98.1.1.3
M::identifier."ab".2.1.256
M::identifier.2.97.98.5.3
M::identifier.2.97.98.1.1.3
$ snmp snmptranslate --mib indexes.txt .1.15.1.2.97.98.5.256
M::lastIdentifier."ab".5.256
$ snmp snmptranslate --mib indexes.txt .1.16.1.2.97.98.6.99.100.101.102.103.104 \
.1.16.1.2.97.98.99.100.101.102.103.104 .1.16.1.2.97.98.6.99.100
M::string."ab"."cdefgh"
M::string.2.97.98.99.100.101.102.103.104
M::string.2.97.98.6.99.100
$ snmp snmptranslate --mib indexes.txt .1.17.1.2.97.98.6.99.100.101.102.103.104 \
.1.17.1.2.97.98.99.100.101.102.103.104 .1.17.1.2.97.98.6.99.100
M::string6to6."ab"."cdefgh"
M::string6to6.2.97.98.99.100.101.102.103.104
M::string6to6.2.97.98.6.99.100
$ snmp snmptranslate --mib indexes.txt .1.18.1.2.97.98.6.99.100.101.102.103.104 \
.1.18.1.2.97.98.99.100.101.102.103.104 .1.18.1.2.97.98.6.99.100
M::stringTo32."ab"."cdefgh"
M::stringTo32.2.97.98.99.100.101.102.103.104
M::stringTo32.2.97.98.6.99.100
$ snmp snmptranslate --mib indexes.txt .1.19.1.2.97.98.6.99.100.101.102.103.104 \
.1.19.1.2.97.98.99.100.101.102.103.104 .1.19.1.2.97.98.6.99.100
M::stringOf6Or8."ab"."cdefgh"
M::stringOf6Or8.2.97.98.99.100.101.102.103.104
M::stringOf6Or8.2.97.98.6.99.100
$ snmp snmptranslate --mib indexes.txt .1.20.1.2.97.98.99.100 \
.1.20.1.2.97.98.99.100.101.102.103.104
M::lastString."ab".'cd'
M::lastString."ab".'cdefgh'
$ snmp snmptranslate --mib indexes.txt .1.21.1.2.97.98.99.100 \
.1.21.1.2.97.98.99.100.101.102.103.104
M::lastString6to6."ab".'cd'
M::lastString6to6."ab".'cdefgh'
$ snmp snmptranslate --mib indexes.txt .1.22.1.2.97.98.99.100 \
.1.22.1.2.97.98.99.100.101.102.103.104
M::lastStringTo32."ab".'cd'
M::lastStringTo32."ab".'cdefgh'
$ snmp snmptranslate --mib indexes.txt .1.23.1.2.97.98.99.100.101.102.103.104 \
.1.23.1.2.97.98.99.100 .1.23.1.2.97.98.6.99.100.101.102.103.104
M::fixed."ab".'cdefgh'
M::fixed.2.97.98.99.100
M::fixed.2.97.98.6.99.100.101.102.103.104
$ snmp snmptranslate --mib indexes.txt .1.24.1.2.97.98.99.100.101.102.103.104 \
.1.24.1.2.97.98.99.100 .1.24.1.2.97.98.6.99.100.101.102.103.104
M::fixedHex."ab".'cdefgh'
M::fixedHex.2.97.98.99.100
M::fixedHex.2.97.98.6.99.100.101.102.103.104
$ snmp snmptranslate --mib indexes.txt .1.25.1.2.97.98.99.100.101.102.103.104 \
.1.25.1.2.97.98.99.100 .1.25.1.2.97.98.6.99.100.101.102.103.104
M::mac."ab".'cdefgh'
M::mac.2.97.98.99.100
M::mac.2.97.98.6.99.100.101.102.103.104
$ snmp snmptranslate --mib indexes.txt .1.26.1.2.97.98.99.100.101.102.103.104 \
.1.26.1.2.97.98.99.100 .1.26.1.2.97.98.6.99.100.101.102.103.104
M::lastFixed."ab".'cdefgh'
M::lastFixed.2.97.98.99.100
M::lastFixed.2.97.98.6.99.100.101.102.103.104
# A SIZE below zero fits no string.
$ snmp snmptranslate --mib indexes.txt .1.27.1.2.97.98.5.97.98.99.100.101 .1.27.1.2.97.98.97.98
M::negative.2.97.98.5.97.98.99.100.101
M::negative.2.97.98.97.98
$ snmp snmptranslate --mib indexes.txt .1.28.1.2.97.98.5.97.98.99.100.101 .1.28.1.2.97.98.97.98
M::lastNegative.2.97.98.5.97.98.99.100.101
M::lastNegative.2.97.98.97.98
$ snmp snmptranslate --mib indexes.txt .1.29.1.2.97.98.6.99.100.101.102.103.104 \
.1.29.1.2.97.98.2.99.100 .1.29.1.2.97.98.99.100.101.102.103.104
M::macUpTo6."ab"."cdefgh"
M::macUpTo6."ab"."cd"
M::macUpTo6.2.97.98.99.100.101.102.103.104
$ snmp snmptranslate --mib indexes.txt .1.30.1.2.97.98.2.99.100 .1.30.1.2.97.98.99.100 \
.1.30.1.2.97.98.1.256
M::opaque."ab".2.99.100
M::opaque.2.97.98.99.100
M::opaque.2.97.98.1.256
$ snmp snmptranslate --mib indexes.txt .1.31.1.2.97.98.2.99.100 .1.31.1.2.97.98.99.100 \
.1.31.1.2.97.98.1.256
M::bits."ab".2.99.100
M::bits.2.97.98.99.100
M::bits.2.97.98.1.256
$ snmp snmptranslate --mib indexes.txt .1.32.1.2.97.98.99.100.101.102 .1.32.1.2.97.98.99.100.101 \
.1.32.1.2.97.98.4.99.100.101.102 .1.32.1.2.97.98.99.100.101.256
M::opaqueOf4."ab".99.100.101.102
M::opaqueOf4.2.97.98.99.100.101
M::opaqueOf4.2.97.98.4.99.100.101.102
M::opaqueOf4.2.97.98.99.100.101.256
$ snmp snmptranslate --mib indexes.txt .1.33.1.2.97.98.99.100 .1.33.1.2.97.98.99.256
M::lastBits."ab".99.100
M::lastBits.2.97.98.99.256

# Rows that augment others: if the other row is in another module, the names of its index are
# looked up there. Nodes below a row that aren't columns, and indexes whose objects don't exist. Of
# rows with the same identifier, the first counts.

@ augments.txt
M DEFINITIONS ::= BEGIN IMPORTS key FROM N farRow FROM P absentRow FROM N;
rowA OBJECT-TYPE SYNTAX R {row} INDEX { key, local, IMPLIED nameA } ::= { iso 1 }
nameA OBJECT-TYPE SYNTAX OCTET STRING {column} ::= { rowA 1 }
local OBJECT-TYPE SYNTAX OCTET STRING (SIZE (6)) {column} ::= { rowA 2 }
belowA OBJECT IDENTIFIER ::= { rowA 3 }
deepA OBJECT-TYPE SYNTAX INTEGER {column} ::= { rowA 2 1 }
rowB OBJECT-TYPE SYNTAX R {row} AUGMENTS { rowA } ::= { iso 2 }
colB OBJECT-TYPE SYNTAX INTEGER {column} ::= { rowB 1 }
rowC OBJECT-TYPE SYNTAX R {row} AUGMENTS { rowB } ::= { iso 3 }
colC OBJECT-TYPE SYNTAX INTEGER {column} ::= { rowC 1 }
rowD OBJECT-TYPE SYNTAX R {row} AUGMENTS { farRow } ::= { iso 4 }
colD OBJECT-TYPE SYNTAX INTEGER {column} ::= { rowD 1 }
rowE OBJECT-TYPE SYNTAX R {row} AUGMENTS { absentRow } ::= { iso 5 }
colE OBJECT-TYPE SYNTAX INTEGER {column} ::= { rowE 1 }
rowF OBJECT-TYPE SYNTAX R {row} INDEX { nameA, gone } ::= { iso 6 }
colF OBJECT-TYPE SYNTAX INTEGER {column} ::= { rowF 1 }
rowG OBJECT-TYPE SYNTAX R {row} INDEX { ringed } ::= { iso 7 }
ringed OBJECT-TYPE SYNTAX OCTET STRING {column} ::= { ringed 1 }
colG OBJECT-TYPE SYNTAX INTEGER {column} ::= { rowG 1 }
rowH OBJECT-TYPE SYNTAX R {row} INDEX { nameA, belowA } ::= { iso 8 }
colH OBJECT-TYPE SYNTAX INTEGER {column} ::= { rowH 1 }
first OBJECT-TYPE SYNTAX R {row} INDEX { local } ::= { iso 9 }
second OBJECT-TYPE SYNTAX R {row} INDEX { nameA } ::= { iso 9 }
col9 OBJECT-TYPE SYNTAX INTEGER {column} ::= { second 1 }
plain OBJECT-TYPE SYNTAX R {row} ::= { iso 10 }
later OBJECT-TYPE SYNTAX R {row} INDEX { nameA } ::= { iso 10 }
col10 OBJECT-TYPE SYNTAX INTEGER {column} ::= { later 1 }
self OBJECT-TYPE SYNTAX R {row} AUGMENTS { self } ::= { iso 11 }
col11 OBJECT-TYPE SYNTAX INTEGER {column} ::= { self 1 }
END
N DEFINITIONS ::= BEGIN IMPORTS key FROM P; END
P DEFINITIONS ::= BEGIN
farRow OBJECT-TYPE SYNTAX R {row} INDEX { local, key } ::= { iso 12 }
local OBJECT-TYPE SYNTAX OCTET STRING (SIZE (2)) {column} ::= { farRow 1 }
key OBJECT-TYPE SYNTAX INTEGER {column} ::= { farRow 2 }
END

$ snmp snmptranslate --mib augments.txt .1.1.1.7.97.98.99.100.101.102.120.121 \
.1.1.3.7.97.98.99.100.101.102.120.121 .1.1.2.1.7.97.98.99.100.101.102.120.121 \
.1.2.1.7.97.98.99.100.101.102.120.121 .1.3.1.7.97.98.99.100.101.102.120.121 .1.4.1.97.98.7 \
.1.4.1.97.98.99.100.101.102.7 .1.12.2.97.98.7 .1.5.1.2.97.98 .1.6.1.2.97.98.7 .1.7.1.2.97.98 \
.1.8.1.2.97.98.7 .1.9.1.97.98.99.100.101.102 .1.9.1.2.97.98 .1.10.1.2.97.98 .1.11.1.2.97.98
M::nameA.7.'abcdef'.'xy'
M::belowA.7.97.98.99.100.101.102.120.121
M::deepA.7.97.98.99.100.101.102.120.121
M::colB.7.'abcdef'.'xy'
M::colC.7.97.98.99.100.101.102.120.121
M::colD.'ab'.7
M::colD.97.98.99.100.101.102.7
P::key.'ab'.7
M::colE.2.97.98
M::colF.2.97.98.7
M::colG.2.97.98
M::colH.2.97.98.7
M::col9.'abcdef'
M::col9.2.97.98
M::col10.2.97.98
M::col11.2.97.98
! snmp: M imports absentRow from N, which has no absentRow
! snmp: M::ringed stands on a cycle

# Objects that are their own indexes. Along a chain of types, also through two imports, the hint,
# the SIZE and the names nearest to the object count. An object's type is looked up first in the
# object's own module.

@ types.txt
M DEFINITIONS ::= BEGIN IMPORTS Far FROM N Gone FROM GONE Absent FROM N Ring FROM N;
Plain ::= INTEGER
Near ::= TEXTUAL-CONVENTION DISPLAY-HINT "1x:" STATUS current DESCRIPTION "" SYNTAX Far
NearSize ::= TEXTUAL-CONVENTION STATUS current DESCRIPTION "" SYNTAX Far (SIZE (4))
On ::= Near
Up ::= INTEGER { up(1), down(2) }
Other ::= TEXTUAL-CONVENTION DISPLAY-HINT "d-2" STATUS current DESCRIPTION "" SYNTAX Up \
{ left(1) }
Flags ::= BITS { a(0), b(1) }
A ::= B
B ::= A
Self ::= Self
Row ::= SEQUENCE { x INTEGER, y INTEGER }
Choice ::= CHOICE { a b }
Rows ::= TEXTUAL-CONVENTION DISPLAY-HINT "d" STATUS current DESCRIPTION "" SYNTAX SEQUENCE OF Row
OnRow ::= Row
Lost ::= Missing
farRow OBJECT-TYPE SYNTAX R {row} INDEX { far } ::= { iso 4 }
far OBJECT-TYPE SYNTAX Far UNITS "m" {column} ::= { farRow 1 }
nearRow OBJECT-TYPE SYNTAX R {row} INDEX { near } ::= { iso 5 }
near OBJECT-TYPE SYNTAX Near UNITS "m" {column} ::= { nearRow 1 }
onRow OBJECT-TYPE SYNTAX R {row} INDEX { on } ::= { iso 6 }
on OBJECT-TYPE SYNTAX On UNITS "m" {column} ::= { onRow 1 }
nearSizeRow OBJECT-TYPE SYNTAX R {row} INDEX { nearSize } ::= { iso 7 }
nearSize OBJECT-TYPE SYNTAX NearSize UNITS "m" {column} ::= { nearSizeRow 1 }
upRow OBJECT-TYPE SYNTAX R {row} INDEX { up } ::= { iso 8 }
up OBJECT-TYPE SYNTAX Up UNITS "m" {column} ::= { upRow 1 }
upOwnRow OBJECT-TYPE SYNTAX R {row} INDEX { upOwn } ::= { iso 9 }
upOwn OBJECT-TYPE SYNTAX Up { own(1) } UNITS "m" {column} ::= { upOwnRow 1 }
otherRow OBJECT-TYPE SYNTAX R {row} INDEX { other } ::= { iso 10 }
other OBJECT-TYPE SYNTAX Other UNITS "m" {column} ::= { otherRow 1 }
otherRangeRow OBJECT-TYPE SYNTAX R {row} INDEX { otherRange } ::= { iso 11 }
otherRange OBJECT-TYPE SYNTAX Other (1..2) UNITS "m" {column} ::= { otherRangeRow 1 }
flagsRow OBJECT-TYPE SYNTAX R {row} INDEX { flags } ::= { iso 12 }
flags OBJECT-TYPE SYNTAX Flags UNITS "m" {column} ::= { flagsRow 1 }
flagsCRow OBJECT-TYPE SYNTAX R {row} INDEX { flagsC } ::= { iso 13 }
flagsC OBJECT-TYPE SYNTAX Flags { c(0) } UNITS "m" {column} ::= { flagsCRow 1 }
plainRow OBJECT-TYPE SYNTAX R {row} INDEX { plain } ::= { iso 14 }
plain OBJECT-TYPE SYNTAX Plain UNITS "m" {column} ::= { plainRow 1 }
ringARow OBJECT-TYPE SYNTAX R {row} INDEX { ringA } ::= { iso 15 }
ringA OBJECT-TYPE SYNTAX A UNITS "m" {column} ::= { ringARow 1 }
ringBRow OBJECT-TYPE SYNTAX R {row} INDEX { ringB } ::= { iso 16 }
ringB OBJECT-TYPE SYNTAX B UNITS "m" {column} ::= { ringBRow 1 }
ringSelfRow OBJECT-TYPE SYNTAX R {row} INDEX { ringSelf } ::= { iso 17 }
ringSelf OBJECT-TYPE SYNTAX Self UNITS "m" {column} ::= { ringSelfRow 1 }
ringOfImportsRow OBJECT-TYPE SYNTAX R {row} INDEX { ringOfImports } ::= { iso 18 }
ringOfImports OBJECT-TYPE SYNTAX Ring UNITS "m" {column} ::= { ringOfImportsRow 1 }
goneRow OBJECT-TYPE SYNTAX R {row} INDEX { gone } ::= { iso 19 }
gone OBJECT-TYPE SYNTAX Gone UNITS "m" {column} ::= { goneRow 1 }
absentRow OBJECT-TYPE SYNTAX R {row} INDEX { absent } ::= { iso 20 }
absent OBJECT-TYPE SYNTAX Absent UNITS "m" {column} ::= { absentRow 1 }
lostRow OBJECT-TYPE SYNTAX R {row} INDEX { lost } ::= { iso 21 }
lost OBJECT-TYPE SYNTAX Lost UNITS "m" {column} ::= { lostRow 1 }
missingRow OBJECT-TYPE SYNTAX R {row} INDEX { missing } ::= { iso 22 }
missing OBJECT-TYPE SYNTAX Missing UNITS "m" {column} ::= { missingRow 1 }
sequenceRow OBJECT-TYPE SYNTAX R {row} INDEX { sequence } ::= { iso 23 }
sequence OBJECT-TYPE SYNTAX SEQUENCE OF Row UNITS "m" {column} ::= { sequenceRow 1 }
ofRowRow OBJECT-TYPE SYNTAX R {row} INDEX { ofRow } ::= { iso 24 }
ofRow OBJECT-TYPE SYNTAX Row UNITS "m" {column} ::= { ofRowRow 1 }
toRowRow OBJECT-TYPE SYNTAX R {row} INDEX { toRow } ::= { iso 25 }
toRow OBJECT-TYPE SYNTAX OnRow UNITS "m" {column} ::= { toRowRow 1 }
rowsRow OBJECT-TYPE SYNTAX R {row} INDEX { rows } ::= { iso 26 }
rows OBJECT-TYPE SYNTAX Rows UNITS "m" {column} ::= { rowsRow 1 }
choiceRow OBJECT-TYPE SYNTAX R {row} INDEX { choice } ::= { iso 27 }
choice OBJECT-TYPE SYNTAX Choice UNITS "m" {column} ::= { choiceRow 1 }
END
N DEFINITIONS ::= BEGIN IMPORTS Far FROM P Ring FROM P;
Plain ::= OCTET STRING
END
P DEFINITIONS ::= BEGIN IMPORTS Ring FROM N;
Far ::= TEXTUAL-CONVENTION DISPLAY-HINT "255a" STATUS current DESCRIPTION "" SYNTAX Deep (SIZE \
(6))
Deep ::= OCTET STRING (SIZE (0..255))
END

@ types.tab
.1.4.1.97.98.99.100.101.102|4|abc
.1.5.1.97.98.99.100.101.102|4|abc
.1.6.1.97.98.99.100.101.102|4|abc
.1.7.1.97.98.99.100|4|abc
.1.8.1.5|2|1
.1.9.1.5|2|1
.1.10.1.5|2|1
.1.10.1.6|2|7
.1.11.1.5|2|1
.1.11.1.6|2|7
.1.12.1.1.65|4x|80
.1.13.1.1.65|4x|80
.1.14.1.5|2|5
.1.15.1.5|2|5
.1.15.1.2.97.98|4x|80
.1.16.1.5|2|5
.1.16.1.2.97.98|4x|80
.1.17.1.5|2|5
.1.17.1.2.97.98|4x|80
.1.18.1.5|2|5
.1.18.1.2.97.98|4x|80
.1.19.1.5|2|5
.1.19.1.2.97.98|4x|80
.1.20.1.5|2|5
.1.20.1.2.97.98|4x|80
.1.21.1.5|2|5
.1.21.1.2.97.98|4x|80
.1.22.1.5|2|5
.1.22.1.2.97.98|4x|80
.1.23.1.5|2|5
.1.23.1.2.97.98|4x|80
.1.24.1.5|2|5
.1.24.1.2.97.98|4x|80
.1.25.1.5|2|5
.1.25.1.2.97.98|4x|80
.1.26.1.5|2|5
.1.26.1.2.97.98|4x|80
.1.27.1.5|2|5
.1.27.1.2.97.98|4x|80

@ imports
snmp: M imports from GONE, which is not loaded
snmp: M imports Absent from N, which has no Absent

$ snmp snmpwalk --mib types.txt table:types.tab far
M::far.'abcdef' = STRING: abc
! {imports}
$ snmp snmpwalk --mib types.txt table:types.tab near
M::near.'abcdef' = STRING: 61:62:63
! {imports}
$ snmp snmpwalk --mib types.txt table:types.tab on
M::on.'abcdef' = STRING: 61:62:63
! {imports}
$ snmp snmpwalk --mib types.txt table:types.tab nearSize
M::nearSize.'abcd' = STRING: abc
! {imports}
$ snmp snmpwalk --mib types.txt table:types.tab up
M::up.5 = INTEGER: up(1)
! {imports}
$ snmp snmpwalk --mib types.txt table:types.tab upOwn
M::upOwn.5 = INTEGER: own(1)
! {imports}
$ snmp snmpwalk --mib types.txt table:types.tab other
M::other.5 = INTEGER: left(1)
M::other.6 = INTEGER: 0.07 m
! {imports}
$ snmp snmpwalk --mib types.txt table:types.tab otherRange
M::otherRange.5 = INTEGER: left(1)
M::otherRange.6 = INTEGER: 0.07 m
! {imports}
$ snmp snmpwalk --mib types.txt table:types.tab flags
M::flags.1.65 = BITS: 80 a(0){x20}
! {imports}
$ snmp snmpwalk --mib types.txt table:types.tab flagsC
M::flagsC.1.65 = BITS: 80 c(0){x20}
! {imports}
$ snmp snmpwalk --mib types.txt table:types.tab plain
M::plain.5 = INTEGER: 5 m
! {imports}

# An object has no syntax if its type is in a ring of definitions or of imports, has no
# definition, or isn't a type of values.
$ snmp snmpwalk --mib types.txt table:types.tab ringA
M::ringA.2.97.98 = Hex-STRING: 80{x20}
M::ringA.5 = INTEGER: 5
! {imports}
$ snmp snmpwalk --mib types.txt table:types.tab ringB
M::ringB.2.97.98 = Hex-STRING: 80{x20}
M::ringB.5 = INTEGER: 5
! {imports}
$ snmp snmpwalk --mib types.txt table:types.tab ringSelf
M::ringSelf.2.97.98 = Hex-STRING: 80{x20}
M::ringSelf.5 = INTEGER: 5
! {imports}
$ snmp snmpwalk --mib types.txt table:types.tab ringOfImports
M::ringOfImports.2.97.98 = Hex-STRING: 80{x20}
M::ringOfImports.5 = INTEGER: 5
! {imports}
$ snmp snmpwalk --mib types.txt table:types.tab gone
M::gone.2.97.98 = Hex-STRING: 80{x20}
M::gone.5 = INTEGER: 5
! {imports}
$ snmp snmpwalk --mib types.txt table:types.tab absent
M::absent.2.97.98 = Hex-STRING: 80{x20}
M::absent.5 = INTEGER: 5
! {imports}
$ snmp snmpwalk --mib types.txt table:types.tab lost
M::lost.2.97.98 = Hex-STRING: 80{x20}
M::lost.5 = INTEGER: 5
! {imports}
$ snmp snmpwalk --mib types.txt table:types.tab missing
M::missing.2.97.98 = Hex-STRING: 80{x20}
M::missing.5 = INTEGER: 5
! {imports}
$ snmp snmpwalk --mib types.txt table:types.tab sequence
M::sequence.2.97.98 = Hex-STRING: 80{x20}
M::sequence.5 = INTEGER: 5
! {imports}
$ snmp snmpwalk --mib types.txt table:types.tab ofRow
M::ofRow.2.97.98 = Hex-STRING: 80{x20}
M::ofRow.5 = INTEGER: 5
! {imports}
$ snmp snmpwalk --mib types.txt table:types.tab toRow
M::toRow.2.97.98 = Hex-STRING: 80{x20}
M::toRow.5 = INTEGER: 5
! {imports}
$ snmp snmpwalk --mib types.txt table:types.tab rows
M::rows.2.97.98 = Hex-STRING: 80{x20}
M::rows.5 = INTEGER: 5
! {imports}
$ snmp snmpwalk --mib types.txt table:types.tab choice
M::choice.2.97.98 = Hex-STRING: 80{x20}
M::choice.5 = INTEGER: 5
! {imports}
"#;

#[test]
fn indexes_and_syntaxes_are_resolved(rt: HostRuntime) -> Result<(), Fail> {
    assert_rows(&rt, rt.alloc(), ROWS)?;
    Ok(())
}
