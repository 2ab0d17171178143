//! Texts of modules, as a vendor publishes them: each imports from those before it, and has textual
//! conventions, tables, scalars, notifications and groups with long descriptions.

use crate::draws::Draws;
use itoa::Buffer;
use std::alloc::{AllocError, Global};

/// The text of the modules of a site.
#[derive(Drop)]
pub struct Site {
    draws: Draws,
    text: String,
}

const NOUNS: [&str; 16] = [
    "Router", "Port", "Session", "Queue", "Sensor", "Fan", "Tunnel", "Policy", "Vlan", "Radio",
    "Peer", "Alarm", "Route", "Buffer", "Cluster", "License",
];

const FACTS: [&str; 16] = [
    "InOctets",
    "OutOctets",
    "State",
    "Descr",
    "LastChange",
    "Errors",
    "Discards",
    "Address",
    "Owner",
    "Speed",
    "Temperature",
    "Threshold",
    "Mode",
    "Priority",
    "Limit",
    "Version",
];

const PROSE: [&str; 24] = [
    "the",
    "number",
    "of",
    "octets",
    "received",
    "on",
    "this",
    "interface,",
    "including",
    "framing",
    "characters,",
    "which",
    "were",
    "discarded",
    "because",
    "an",
    "error",
    "was",
    "detected",
    "by",
    "agent",
    "while",
    "entry",
    "active.",
];

const SYNTAXES: [&str; 12] = [
    "Counter32",
    "Counter64",
    "Gauge32",
    "Integer32 (0..2147483647)",
    "TimeTicks",
    "DisplayString (SIZE (0..64))",
    "PhysAddress",
    "TruthValue",
    "INTEGER { unknown(1), up(2), down(3), testing(4), dormant(5) }",
    "BITS { hardware(0), software(1), configuration(2), environment(3) }",
    "OBJECT IDENTIFIER",
    "DateAndTime",
];

/// How many tables a module has, and how many columns each of them.
const TABLES: u64 = 3;

const COLUMNS: u64 = 10;

/// The text of this many modules; without the last END where it is to have a fault.
pub fn site_text(
    alloc: Global,
    draws: Draws,
    modules: u64,
    faulty: bool,
) -> Result<String, AllocError> {
    let mut site = Site {
        draws,
        text: String::new(alloc),
    };
    'modules: for module in 0..modules {
        site.module(module)?;
        if !faulty || module.wrapping_add(1) < modules {
            site.add("END\n\n")?;
        }
    }
    let Site { draws: _, text } = site;
    Ok(text)
}

impl Site {
    fn add(&mut self, text: &str) -> Result<(), AllocError> {
        self.text.push_str(text)
    }

    fn number(&mut self, number: u64) -> Result<(), AllocError> {
        let mut buffer = Buffer::new();
        self.text.push_str(buffer.format(number))
    }

    /// A text, a number and a text.
    fn numbered(&mut self, before: &str, number: u64, after: &str) -> Result<(), AllocError> {
        self.add(before)?;
        self.number(number)?;
        self.add(after)
    }

    fn module(&mut self, module: u64) -> Result<(), AllocError> {
        self.head(module)?;
        self.types(module)?;
        'tables: for table in 0..TABLES {
            self.table(module, table)?;
        }
        'scalars: for scalar in 0..4 {
            self.scalar(module, scalar)?;
        }
        self.groups(module)
    }

    fn head(&mut self, module: u64) -> Result<(), AllocError> {
        self.numbered("ACME-", module, "-MIB DEFINITIONS ::= BEGIN\n\nIMPORTS\n")?;
        self.add(
            "    MODULE-IDENTITY, OBJECT-TYPE, NOTIFICATION-TYPE, Counter32, Counter64,\n    \
             Gauge32, Integer32, TimeTicks, enterprises\n        FROM SNMPv2-SMI\n    \
             TEXTUAL-CONVENTION, DisplayString, PhysAddress, TruthValue, DateAndTime\n        \
             FROM SNMPv2-TC\n    \
             MODULE-COMPLIANCE, OBJECT-GROUP, NOTIFICATION-GROUP\n        FROM SNMPv2-CONF\n    \
             SnmpAdminString\n        FROM SNMP-FRAMEWORK-MIB\n    \
             ifIndex, InterfaceIndex\n        FROM IF-MIB",
        )?;
        'others: for _ in 0..module.min(4) {
            let other = self.draws.below(module);
            self.numbered("\n    AcmeName", other, ", ")?;
            self.numbered("acme", other, "")?;
            self.numbered("\n        FROM ACME-", other, "-MIB")?;
        }
        self.add(";\n\n")?;
        self.numbered("acme", module, " MODULE-IDENTITY\n")?;
        self.add(
            "    LAST-UPDATED \"202603120000Z\"\n    ORGANIZATION \"Acme Networks\"\n    \
             CONTACT-INFO\n            \"Acme Networks, Technical Support\n             \
             mailto: support@example.com\"\n",
        )?;
        self.description(50)?;
        self.add("    REVISION     \"202603120000Z\"\n")?;
        self.description(20)?;
        self.numbered("    ::= { enterprises 32473 ", module, " }\n\n")?;
        self.numbered("acme", module, "Objects OBJECT IDENTIFIER ::= { ")?;
        self.numbered("acme", module, " 1 }\n\n")
    }

    /// Three textual conventions, each of the one before it.
    fn types(&mut self, module: u64) -> Result<(), AllocError> {
        self.add("-- Textual conventions\n\n")?;
        self.convention("AcmeName", module, 16)?;
        self.add("    SYNTAX      OCTET STRING (SIZE (0..255))\n\n")?;
        self.convention("AcmeLabel", module, 12)?;
        self.numbered("    SYNTAX      AcmeName", module, " (SIZE (0..64))\n\n")?;
        self.convention("AcmeTitle", module, 12)?;
        self.numbered("    SYNTAX      AcmeLabel", module, " (SIZE (0..32))\n\n")
    }

    fn convention(&mut self, name: &str, module: u64, words: u64) -> Result<(), AllocError> {
        self.numbered(name, module, " ::= TEXTUAL-CONVENTION\n")?;
        self.add("    DISPLAY-HINT \"255a\"\n    STATUS      current\n")?;
        self.description(words)
    }

    /// The name of the table of this number.
    fn table_name(&mut self, start: &str, module: u64, table: u64) -> Result<(), AllocError> {
        self.numbered(start, module, "")?;
        let place = module.wrapping_add(table) % 16;
        let noun = NOUNS.get(place as usize).copied().unwrap_or("");
        self.numbered(noun, table, "")
    }

    /// A table, its entry and its columns.
    fn table(&mut self, module: u64, table: u64) -> Result<(), AllocError> {
        self.add("-- ------------------------------------------------------------\n")?;
        self.add("-- A table, with an entry for each of its kind\n\n")?;
        self.table_name("acme", module, table)?;
        self.add("Table OBJECT-TYPE\n    SYNTAX      SEQUENCE OF ")?;
        self.table_name("Acme", module, table)?;
        self.add("Entry\n    MAX-ACCESS  not-accessible\n    STATUS      current\n")?;
        self.description(14)?;
        self.numbered("    ::= { acme", module, "Objects ")?;
        self.numbered("", table.wrapping_add(1), " }\n\n")?;
        self.table_name("acme", module, table)?;
        self.add("Entry OBJECT-TYPE\n    SYNTAX      ")?;
        self.table_name("Acme", module, table)?;
        self.add("Entry\n    MAX-ACCESS  not-accessible\n    STATUS      current\n")?;
        self.description(24)?;
        self.add("    INDEX       { ifIndex, ")?;
        self.column_name(module, table, 0)?;
        self.add(" }\n    ::= { ")?;
        self.table_name("acme", module, table)?;
        self.add("Table 1 }\n\n")?;
        self.sequence(module, table)?;
        'columns: for column in 0..COLUMNS {
            self.column(module, table, column)?;
        }
        Ok(())
    }

    fn column_name(&mut self, module: u64, table: u64, column: u64) -> Result<(), AllocError> {
        self.table_name("acme", module, table)?;
        let fact = FACTS.get(column as usize % 16).copied().unwrap_or("");
        self.add(fact)
    }

    /// The type of an entry.
    fn sequence(&mut self, module: u64, table: u64) -> Result<(), AllocError> {
        self.table_name("Acme", module, table)?;
        self.add("Entry ::= SEQUENCE {")?;
        'columns: for column in 0..COLUMNS {
            self.add(if column == 0 { "\n    " } else { ",\n    " })?;
            self.column_name(module, table, column)?;
            self.add("    Integer32")?;
        }
        self.add("\n}\n\n")
    }

    fn column(&mut self, module: u64, table: u64, column: u64) -> Result<(), AllocError> {
        self.column_name(module, table, column)?;
        let words = self.draws.below(40).wrapping_add(20);
        self.object(module, column == 0, words)?;
        self.add("    ::= { ")?;
        self.table_name("acme", module, table)?;
        self.numbered("Entry ", column.wrapping_add(1), " }\n\n")
    }

    fn scalar(&mut self, module: u64, scalar: u64) -> Result<(), AllocError> {
        self.numbered("acme", module, "Scalar")?;
        self.number(scalar)?;
        self.object(module, false, 60)?;
        self.numbered("    ::= { acme", module, "Objects ")?;
        self.numbered("", scalar.wrapping_add(20), " }\n\n")
    }

    /// An object, behind its name and before its identifier.
    fn object(&mut self, module: u64, is_index: bool, words: u64) -> Result<(), AllocError> {
        self.add(" OBJECT-TYPE\n    SYNTAX      ")?;
        if is_index {
            self.numbered("AcmeTitle", module, "")?;
            self.add("\n    MAX-ACCESS  not-accessible\n")?;
        } else {
            let syntax = self.draws.word(&SYNTAXES);
            self.add(syntax)?;
            self.add("\n    MAX-ACCESS  read-only\n")?;
        }
        self.add("    STATUS      current\n")?;
        self.description(words)
    }

    /// A notification, a group of the scalars, and what claims to comply.
    fn groups(&mut self, module: u64) -> Result<(), AllocError> {
        self.numbered(
            "acme",
            module,
            "Changed NOTIFICATION-TYPE\n    OBJECTS     { acme",
        )?;
        self.numbered("", module, "Scalar0 }\n    STATUS      current\n")?;
        self.description(30)?;
        self.numbered("    ::= { acme", module, " 0 1 }\n\n")?;
        self.numbered("acme", module, "Group OBJECT-GROUP\n    OBJECTS     {")?;
        'scalars: for scalar in 0..4 {
            self.add(if scalar == 0 {
                "\n        "
            } else {
                ",\n        "
            })?;
            self.numbered("acme", module, "Scalar")?;
            self.number(scalar)?;
        }
        self.add("\n    }\n    STATUS      current\n")?;
        self.description(12)?;
        self.numbered("    ::= { acme", module, " 2 1 }\n\n")?;
        self.numbered(
            "acme",
            module,
            "Compliance MODULE-COMPLIANCE\n    STATUS      current\n",
        )?;
        self.description(12)?;
        self.numbered(
            "    MODULE\n        MANDATORY-GROUPS { acme",
            module,
            "Group }\n",
        )?;
        self.numbered("    ::= { acme", module, " 2 2 }\n\n")
    }

    /// A description of so many words, in lines of some 60 octets.
    fn description(&mut self, words: u64) -> Result<(), AllocError> {
        self.add("    DESCRIPTION\n            \"The")?;
        'words: for place in 0..words {
            self.add(if place % 10 == 9 {
                "\n             "
            } else {
                " "
            })?;
            let word = self.draws.word(&PROSE);
            self.add(word)?;
        }
        self.add("\"\n")
    }
}
