//! The files that the command lines of all tables in `rows/` can read, and texts that these print.

pub const FILES: &str = r#"
@ three.tab
1.3.6.1.4.1.32473.1.10.0|2|3
1.3.6.1.4.1.32473.1.2.0|4|wes
1.3.6.1.4.1.32473.1.1.0|2|1

@ tiny.txt
TINY-SMI DEFINITIONS ::= BEGIN
enterprises OBJECT IDENTIFIER ::= { private 1 }
private     OBJECT IDENTIFIER ::= { internet 4 }
internet    OBJECT IDENTIFIER ::= { iso org(3) dod(6) 1 }
END
TINY-MIB DEFINITIONS ::= BEGIN
IMPORTS enterprises, absent FROM TINY-SMI
        other FROM GONE-MIB;
-----------------------------------------
tiny OBJECT IDENTIFIER ::= { enterprises 32473 }
Mac ::= TEXTUAL-CONVENTION DISPLAY-HINT "1x:" STATUS current
  DESCRIPTION "An address." SYNTAX OCTET STRING (SIZE (6))
tinyState OBJECT-TYPE SYNTAX INTEGER { up(1), down(2) } MAX-ACCESS read-only
  STATUS current DESCRIPTION "State." ::= { tiny 1 }
tinyTable OBJECT-TYPE SYNTAX SEQUENCE OF TinyEntry MAX-ACCESS not-accessible
  STATUS current DESCRIPTION "Table." ::= { tiny 2 }
tinyEntry OBJECT-TYPE SYNTAX TinyEntry MAX-ACCESS not-accessible
  STATUS current DESCRIPTION "Row." INDEX { tinyName } ::= { tinyTable 1 }
TinyEntry ::= SEQUENCE { tinyName OCTET STRING, tinyMac Mac }
tinyName OBJECT-TYPE SYNTAX OCTET STRING (SIZE (0..32)) MAX-ACCESS not-accessible
  STATUS current DESCRIPTION "Name." ::= { tinyEntry 1 }
tinyMac OBJECT-TYPE SYNTAX Mac MAX-ACCESS read-only
  STATUS current DESCRIPTION "Address." ::= { tinyEntry 2 }
tinyKeyTable OBJECT IDENTIFIER ::= { tiny 3 }
tinyKeyEntry OBJECT-TYPE SYNTAX TinyKeyEntry MAX-ACCESS not-accessible
  STATUS current DESCRIPTION "Key row." INDEX { IMPLIED tinyName } ::= { tinyKeyTable 1 }
TinyKeyEntry ::= SEQUENCE { tinyKeyUse Gauge32 }
tinyKeyUse OBJECT-TYPE SYNTAX Gauge32 UNITS "jobs" MAX-ACCESS read-only
  STATUS current DESCRIPTION "Use." ::= { tinyKeyEntry 1 }
loopA OBJECT IDENTIFIER ::= { loopB 1 }
loopB OBJECT IDENTIFIER ::= { loopA 1 }
END

@ across.txt
ACROSS-MIB DEFINITIONS ::= BEGIN
IMPORTS well FROM WELL-MIB;
across OBJECT IDENTIFIER ::= { well 2 }
END

@ well.txt
WELL-MIB DEFINITIONS ::= BEGIN
well OBJECT IDENTIFIER ::= { iso 7 }
END

@ tiny.tab
object 1.3.6.1.4.1.32473.1
1.3.6.1.4.1.32473.1.0|2|1
1.3.6.1.4.1.32473.2.1.2.3.119.101.115|4x|00163E5A788E
1.3.6.1.4.1.32473.3.1.1.119.101.115|66|5

@ two.tab
#snmptab 2
object TINY-MIB::tinyState
TINY-MIB::tinyState.0|2|1
tinyMac."a|b"|4x|00163E5A788E
.1.3.6.1.4.1.32473.9.0|6|TINY-MIB::tinyMac

@ program.txt
no table

@ empty.tab
# A table of no rows.

@ nested.tab
# An instance whose name begins that of another.
1.3.6.1.4.1.32473.9|2|7
1.3.6.1.4.1.32473.9.1|2|8

@ six.tab
# Six instances of one object, of which each binding has 18 octets in a message.
object 1.3.6.1.4.1.32473.1
1.3.6.1.4.1.32473.1.1.0|2|1
1.3.6.1.4.1.32473.1.2.0|2|2
1.3.6.1.4.1.32473.1.3.0|2|3
1.3.6.1.4.1.32473.1.4.0|2|4
1.3.6.1.4.1.32473.1.5.0|2|5
1.3.6.1.4.1.32473.1.6.0|2|6

@ /dev/null

# What walks over `three.tab` and `six.tab` print, and over `tiny.tab` with `tiny.txt`.

@ three
.1.3.6.1.4.1.32473.1.1.0 = INTEGER: 1
.1.3.6.1.4.1.32473.1.2.0 = STRING: "wes"
.1.3.6.1.4.1.32473.1.10.0 = INTEGER: 3

@ six
.1.3.6.1.4.1.32473.1.1.0 = INTEGER: 1
.1.3.6.1.4.1.32473.1.2.0 = INTEGER: 2
.1.3.6.1.4.1.32473.1.3.0 = INTEGER: 3
.1.3.6.1.4.1.32473.1.4.0 = INTEGER: 4
.1.3.6.1.4.1.32473.1.5.0 = INTEGER: 5
.1.3.6.1.4.1.32473.1.6.0 = INTEGER: 6

@ tiny
TINY-MIB::tinyState.0 = INTEGER: up(1)
TINY-MIB::tinyMac."wes" = STRING: 0:16:3e:5a:78:8e
TINY-MIB::tinyKeyUse.'wes' = Gauge32: 5 jobs

# The warnings about `tiny.txt`.

@ warnings
snmp: TINY-MIB imports absent from TINY-SMI, which has no absent
snmp: TINY-MIB imports from GONE-MIB, which is not loaded
snmp: TINY-MIB::loopA stands on a cycle
snmp: TINY-MIB::loopB stands on a cycle

# A UDP port. `tests/program.py` takes one that no program uses.

@ port
16161
"#;
