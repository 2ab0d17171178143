//! Walks over an agent that lies, and over an agent whose table changes: what they print.
ghost use Rattle.std.specs.Prelude.{◌≡◌, ◌<◌, All, length, true};

use crate::opener::{Opened, Opener};
use crate::run::status_of;
use snmp_agent::{Config, Table};
use snmp_io::memory::MemoryOutput;
use snmp_net::Links;
use snmp_walk::{Link, LinkFault, MemoryLink};
use std::alloc::{AllocError, Global};
use std::process::Abort;
use std::test::Fail;

/// A link to an agent that sends one reply again and again. Each time its id, in the octet at
/// offset 17, is one higher modulo 256.
#[derive(Drop)]
struct Lying<'a> {
    reply: &'a [u8],
    turn: u8,
}

impl<'a> Link for Lying<'a> {
    ghost use Rattle.std.specs.Prelude.{[]};
    ghost use Rattle.snmp_walk.specs.Link.{Agents};
    ghost use Rattle.snmp_walk.specs.Traffic.{Traffic};

    ghost records = { λ _. ⊥ };

    ghost honest = { λ _. ⊥ };

    ghost agents = { λ _. record { tables = []; community = []; max_size = 0 } };

    ghost traffic = { λ _. record { sent = []; ahead = [] } };

    ghost fault_count = { λ _. 0 };

    ghost ready = { λ _ _ _. ⊥ };

    ghost delivers = { λ _ _ _. Unit {0} };

    ghost recording = { λ _ h. h };

    ghost lawful = { λ _ h. absurd h };

    fn send(&mut self, _datagram: &[u8]) -> Result<(), LinkFault> {
        Ok(())
    }

    fn receive(&mut self, buffer: &mut [u8]) -> Result<Option<usize>, LinkFault> {
        let length = self.reply.len();
        if length > buffer.len() {
            return Ok(None);
        }
        buffer[..length].copy_from_slice(self.reply);
        if let Some(id) = buffer.get_mut(17) {
            *id = id.wrapping_add(self.turn);
        }
        self.turn = self.turn.wrapping_add(1);
        Ok(Some(length))
    }

    fn faults(&self) -> u64 {
        0
    }
}

/// Opens links to an agent that lies.
#[derive(Drop)]
struct Lies<'a> {
    reply: &'a [u8],
}

impl<'a> Opener for Lies<'a> {
    type Wire = Lying<'a>;

    fn open_link(&mut self) -> Result<Lying<'a>, LinkFault> {
        Ok(Lying {
            reply: self.reply,
            turn: 0,
        })
    }
}

/// Opens links to an agent whose table changes: its tables, and the index of the table that replies
/// to each datagram. Opening fails if there are no tables, or an index is too large.
#[derive(Drop)]
struct Changing<'a> {
    alloc: Global,
    tables: &'a [Table],
    uses: &'a [usize],
}

impl<'a> Opener for Changing<'a> {
    type Wire = MemoryLink<'a>;

    fn open_link(&mut self) -> Result<MemoryLink<'a>, LinkFault> {
        let config = Config {
            community: b"public",
            max_size: 1472,
        };
        if self.tables.is_empty() || !are_indices(self.uses, self.tables) {
            return Err(LinkFault);
        }
        Ok(MemoryLink::changing(self.alloc, self.tables, config, self.uses, &[]))
    }
}

/// Returns whether each of `uses` is the index of a table.
fn are_indices(uses: &[usize], tables: &[Table]) -> bool
    ensures { result ≡ true → All (λ index. index < length tables.now) uses.now }
{
    let count = tables.len();
    uses.iter().all(|index| *index < count)
}

/// Returns whether a command line over these links prints the texts, and has the status.
fn prints_over<L: Links>(
    alloc: Global,
    links: &mut L,
    line: &str,
    expected: (&str, &str, u8),
) -> Result<bool, AllocError> {
    let mut out = MemoryOutput::new(alloc);
    let mut err = MemoryOutput::new(alloc);
    let status = status_of(alloc, line, &[], links, &mut out, &mut err)?;
    Ok(
        status == expected.2
            && out.octets() == expected.0.as_bytes()
            && err.octets() == expected.1.as_bytes(),
    )
}

/// A reply with id 1: 1.3.6.1.4.1.32473.1.1.0 has the integer 1.
const ROW: &[u8] = b"\x30\x2a\x02\x01\x01\x04\x06public\xa2\x1d\x02\x01\x01\x02\x01\x00\x02\x01\x00\
\x30\x12\x30\x10\x06\x0b\x2b\x06\x01\x04\x01\x81\xfd\x59\x01\x01\x00\x02\x01\x01";

/// A reply with id 1: 1.3.6.1.4.1.32473.1.1.0 and 1.3.6.1.4.1.32473.1.2.0 have the integer 1.
const TWO: &[u8] = b"\x30\x3c\x02\x01\x01\x04\x06public\xa2\x2f\x02\x01\x01\x02\x01\x00\x02\x01\x00\
\x30\x24\x30\x10\x06\x0b\x2b\x06\x01\x04\x01\x81\xfd\x59\x01\x01\x00\x02\x01\x01\
\x30\x10\x06\x0b\x2b\x06\x01\x04\x01\x81\xfd\x59\x01\x02\x00\x02\x01\x01";

/// A reply with id 1: 1.3.6.1.4.1.32473.1.1.0 has noSuchInstance.
const MISSING: &[u8] = b"\x30\x29\x02\x01\x01\x04\x06public\xa2\x1c\x02\x01\x01\x02\x01\x00\
\x02\x01\x00\x30\x11\x30\x0f\x06\x0b\x2b\x06\x01\x04\x01\x81\xfd\x59\x01\x01\x00\x81\x00";

/// A reply with id 1 and without bindings.
const NONE: &[u8] = b"\x30\x18\x02\x01\x01\x04\x06public\xa2\x0b\x02\x01\x01\x02\x01\x00\
\x02\x01\x00\x30\x00";

/// A reply with id 1, error-status 5 (genErr) and error-index 1.
const GENERAL_ERROR: &[u8] = b"\x30\x18\x02\x01\x01\x04\x06public\xa2\x0b\x02\x01\x01\x02\x01\x05\
\x02\x01\x01\x30\x00";

/// A reply with id 1, error-status 19, which the standard doesn't have, and error-index 0.
const UNKNOWN_ERROR: &[u8] = b"\x30\x18\x02\x01\x01\x04\x06public\xa2\x0b\x02\x01\x01\x02\x01\x13\
\x02\x01\x00\x30\x00";

/// Replies, what a walk from 1.3.6.1.4.1.32473.1 prints over each, and its status.
const LIES: [(&[u8], (&str, &str, u8)); 6] = [
    (
        ROW,
        (
            ".1.3.6.1.4.1.32473.1.1.0 = INTEGER: 1\n",
            "Error: OID not increasing: .1.3.6.1.4.1.32473.1.1.0 >= .1.3.6.1.4.1.32473.1.1.0\n",
            1,
        ),
    ),
    (TWO, ("", "Bad reply from device.\n", 1)),
    (MISSING, ("", "Bad reply from device.\n", 1)),
    (NONE, ("", "No progress after .1.3.6.1.4.1.32473.1\n", 1)),
    (
        GENERAL_ERROR,
        ("", "Error in packet: genErr (5), index 1\n", 2),
    ),
    (
        UNKNOWN_ERROR,
        ("", "Error in packet: unknown (19), index 0\n", 2),
    ),
];

#[test]
fn bad_replies_are_reported(rt: HostRuntime) -> Result<(), Fail> {
    for (reply, expected) in LIES {
        let mut links = Opened::new(Lies { reply });
        let line = "snmp snmpwalk -On device .1.3.6.1.4.1.32473.1";
        let printed = prints_over(rt.alloc(), &mut links, line, expected)?;
        assert!(rt; printed, "{}", expected.1);
    }
    Ok(())
}

/// Asserts what a walk from 1.3.6.1.4.1.32473.8 prints if these tables reply.
fn assert_changing(
    rt: &impl Abort,
    alloc: Global,
    tables: &[Table],
    uses: &[usize],
    lines: &str,
) -> Result<(), AllocError> {
    let mut links = Opened::new(Changing {
        alloc,
        tables,
        uses,
    });
    let line = "snmp snmpwalk -On device .1.3.6.1.4.1.32473.8";
    let printed = prints_over(alloc, &mut links, line, (lines, "", 0))?;
    assert!(rt; printed, "{lines}");
    Ok(())
}

#[test]
fn rows_of_tables_that_change_are_printed(rt: HostRuntime) -> Result<(), Fail> {
    let first =
        b"1.3.6.1.4.1.32473.8.1|2|1\n1.3.6.1.4.1.32473.8.2|2|2\n1.3.6.1.4.1.32473.8.4|2|4\n";
    let second = b"1.3.6.1.4.1.32473.8.0|2|9\n1.3.6.1.4.1.32473.8.2|2|2\n\
1.3.6.1.4.1.32473.8.3|2|3\n1.3.6.1.4.1.32473.8.4|2|4\n";
    let tables = [
        Table::read(rt.alloc(), first)?,
        Table::read(rt.alloc(), second)?,
    ];
    assert_changing(
        &rt,
        rt.alloc(),
        &tables,
        &[0, 1],
        ".1.3.6.1.4.1.32473.8.1 = INTEGER: 1\n.1.3.6.1.4.1.32473.8.2 = INTEGER: 2\n\
.1.3.6.1.4.1.32473.8.3 = INTEGER: 3\n.1.3.6.1.4.1.32473.8.4 = INTEGER: 4\n",
    )?;
    Ok(())
}

#[test]
fn a_table_that_empties_ends_the_lines(rt: HostRuntime) -> Result<(), Fail> {
    let tables = [
        Table::read(rt.alloc(), b"1.3.6.1.4.1.32473.8.1|2|1\n")?,
        Table::read(rt.alloc(), b"")?,
    ];
    let row = ".1.3.6.1.4.1.32473.8.1 = INTEGER: 1\n";
    let none = ".1.3.6.1.4.1.32473.8 = No Such Object available on this agent at this OID\n";
    assert_changing(&rt, rt.alloc(), &tables, &[0, 1], row)?;
    assert_changing(&rt, rt.alloc(), &tables, &[1, 0], none)?;
    Ok(())
}
