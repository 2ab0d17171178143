//! The links that the tools open, and all that they send over each.
ghost use Rattle.std.specs.Prelude.{None, refl};

use crate::opener::{Opened, Opener};
use crate::run::{OF_THREE, THREE, THREE_LINES};
use snmp_agent::{Config, Table};
use snmp_io::memory::{MemoryFiles, MemoryOutput};
use snmp_io::{Output, OutputFault};
use snmp_tools::tool;
use snmp_walk::{Link, LinkFault, MemoryLink};
use std::alloc::{AllocError, Global};
use std::cell::Cell;
use std::process::Abort;
use std::test::Fail;

/// A link in memory that accepts only the expected datagrams, in their order. `sent` counts the
/// attempts to send these, and is `usize::MAX` after an attempt to send another one.
#[derive(Drop)]
struct Expecting<'a> {
    link: MemoryLink<'a>,
    expected: &'a [&'a [u8]],
    sent: &'a Cell<usize>,
    fault_count: u64,
}

impl<'a> Link for Expecting<'a> {
    ghost use Rattle.std.specs.Prelude.{[]};
    ghost use Rattle.snmp_walk.specs.Link.{Agents};
    ghost use Rattle.snmp_walk.specs.Traffic.{Traffic};

    ghost records = { λ _. ⊥ };

    ghost honest = { λ _. ⊥ };

    ghost agents = { λ _. record { tables = []; community = []; max_size = 0 } };

    ghost traffic = { λ _. record { sent = []; ahead = [] } };

    ghost fault_count = { λ link. link.fault_count };

    ghost ready = { λ _ _ _. ⊥ };

    ghost delivers = { λ _ _ _. Unit {0} };

    ghost recording = { λ _ h. h };

    ghost lawful = { λ _ h. absurd h };

    fn send(&mut self, datagram: &[u8]) -> Result<(), LinkFault> {
        let sent = self.sent.get();
        let is_next = matches!(self.expected.get(sent), Some(next) if *next == datagram);
        self.sent.set(if is_next {
            sent.saturating_add(1)
        } else {
            usize::MAX
        });
        if is_next && self.link.send(datagram).is_ok() {
            return Ok(());
        }
        self.fault_count = self.fault_count.saturating_add(1);
        Err(LinkFault)
    }

    fn receive(&mut self, buffer: &mut [u8]) -> Result<Option<usize>, LinkFault> {
        if let Ok(got) = self.link.receive(buffer) {
            return Ok(got);
        }
        self.fault_count = self.fault_count.saturating_add(1);
        Err(LinkFault)
    }

    fn faults(&self) -> u64 {
        self.fault_count
    }
}

/// Opens links to an agent in memory, which together accept only these datagrams, in their order.
#[derive(Drop)]
struct Expected<'a> {
    alloc: Global,
    table: &'a Table,
    expected: &'a [&'a [u8]],
    sent: &'a Cell<usize>,
    deliveries: &'a [Option<usize>],
}

impl<'a> Opener for Expected<'a> {
    type Wire = Expecting<'a>;

    fn open_link(&mut self) -> Result<Expecting<'a>, LinkFault> {
        let config = Config {
            community: b"secret",
            max_size: 1472,
        };
        Ok(Expecting {
            link: MemoryLink::new(self.alloc, self.table, config, self.deliveries),
            expected: self.expected,
            sent: self.sent,
            fault_count: 0,
        })
    }
}

/// A command line, what it prints on standard output and on standard error, its status, how many
/// links it opens, and the datagrams that it sends.
type Asking<'a> = ((&'a str, &'a str, &'a str, u8), u64, &'a [&'a [u8]]);

/// Returns whether the command line prints its texts, has its status, opens `opened` links, and
/// sends exactly the expected datagrams.
fn asks(
    alloc: Global,
    table: &Table,
    deliveries: &[Option<usize>],
    asking: Asking<'_>,
) -> Result<bool, AllocError> {
    let ((line, lines, messages, status), opened, expected) = asking;
    let words: Vec<&str> = line.split(' ').collect(alloc)?;
    let files = MemoryFiles { files: OF_THREE };
    let sent = Cell::new(0);
    let mut links = Opened::new(Expected {
        alloc,
        table,
        expected,
        sent: &sent,
        deliveries,
    });
    let mut out = MemoryOutput::new(alloc);
    let mut err = MemoryOutput::new(alloc);
    let ended = tool(alloc, &words, &files, &mut links, &mut out, &mut err);
    Ok(
        ended == status
            && out.octets() == lines.as_bytes()
            && err.octets() == messages.as_bytes()
            && links.asked == opened
            && sent.get() == expected.len(),
    )
}

/// Asserts of each of the command lines that it prints its texts, has its status, opens its number
/// of links, and sends exactly its datagrams.
fn assert_asks(
    rt: &impl Abort,
    alloc: Global,
    deliveries: &[Option<usize>],
    lines: &[Asking<'_>],
) -> Result<(), Fail> {
    let table = Table::read(alloc, THREE)?;
    for asking in lines {
        let asks = asks(alloc, &table, deliveries, *asking);
        assert!(rt; matches!(asks, Ok(true)), "{}", asking.0.0);
    }
    Ok(())
}

/// The GetNextRequest of 1.3.6.1.4.1.32473.1, with community `secret` and id 1.
const FROM_ROOT: &[u8] = &[
    0x30, 0x27, 0x02, 0x01, 0x01, 0x04, 0x06, 0x73, 0x65, 0x63, 0x72, 0x65, 0x74, 0xA1, 0x1A, 0x02,
    0x01, 0x01, 0x02, 0x01, 0x00, 0x02, 0x01, 0x00, 0x30, 0x0F, 0x30, 0x0D, 0x06, 0x09, 0x2B, 0x06,
    0x01, 0x04, 0x01, 0x81, 0xFD, 0x59, 0x01, 0x05, 0x00,
];

/// The GetNextRequest of the first row, with id 2.
const FROM_FIRST: &[u8] = &[
    0x30, 0x29, 0x02, 0x01, 0x01, 0x04, 0x06, 0x73, 0x65, 0x63, 0x72, 0x65, 0x74, 0xA1, 0x1C, 0x02,
    0x01, 0x02, 0x02, 0x01, 0x00, 0x02, 0x01, 0x00, 0x30, 0x11, 0x30, 0x0F, 0x06, 0x0B, 0x2B, 0x06,
    0x01, 0x04, 0x01, 0x81, 0xFD, 0x59, 0x01, 0x01, 0x00, 0x05, 0x00,
];

/// The GetNextRequest of the second row, with id 3.
const FROM_SECOND: &[u8] = &[
    0x30, 0x29, 0x02, 0x01, 0x01, 0x04, 0x06, 0x73, 0x65, 0x63, 0x72, 0x65, 0x74, 0xA1, 0x1C, 0x02,
    0x01, 0x03, 0x02, 0x01, 0x00, 0x02, 0x01, 0x00, 0x30, 0x11, 0x30, 0x0F, 0x06, 0x0B, 0x2B, 0x06,
    0x01, 0x04, 0x01, 0x81, 0xFD, 0x59, 0x01, 0x02, 0x00, 0x05, 0x00,
];

/// The GetNextRequest of the last row, with id 4.
const FROM_LAST: &[u8] = &[
    0x30, 0x29, 0x02, 0x01, 0x01, 0x04, 0x06, 0x73, 0x65, 0x63, 0x72, 0x65, 0x74, 0xA1, 0x1C, 0x02,
    0x01, 0x04, 0x02, 0x01, 0x00, 0x02, 0x01, 0x00, 0x30, 0x11, 0x30, 0x0F, 0x06, 0x0B, 0x2B, 0x06,
    0x01, 0x04, 0x01, 0x81, 0xFD, 0x59, 0x01, 0x0A, 0x00, 0x05, 0x00,
];

/// The GetBulkRequest from 1.3.6.1.4.1.32473.1 with max-repetitions 10.
const BULK: &[u8] = &[
    0x30, 0x27, 0x02, 0x01, 0x01, 0x04, 0x06, 0x73, 0x65, 0x63, 0x72, 0x65, 0x74, 0xA5, 0x1A, 0x02,
    0x01, 0x01, 0x02, 0x01, 0x00, 0x02, 0x01, 0x0A, 0x30, 0x0F, 0x30, 0x0D, 0x06, 0x09, 0x2B, 0x06,
    0x01, 0x04, 0x01, 0x81, 0xFD, 0x59, 0x01, 0x05, 0x00,
];

/// The GetRequest of the last row and the first.
const GET: &[u8] = &[
    0x30, 0x3A, 0x02, 0x01, 0x01, 0x04, 0x06, 0x73, 0x65, 0x63, 0x72, 0x65, 0x74, 0xA0, 0x2D, 0x02,
    0x01, 0x01, 0x02, 0x01, 0x00, 0x02, 0x01, 0x00, 0x30, 0x22, 0x30, 0x0F, 0x06, 0x0B, 0x2B, 0x06,
    0x01, 0x04, 0x01, 0x81, 0xFD, 0x59, 0x01, 0x0A, 0x00, 0x05, 0x00, 0x30, 0x0F, 0x06, 0x0B, 0x2B,
    0x06, 0x01, 0x04, 0x01, 0x81, 0xFD, 0x59, 0x01, 0x01, 0x00, 0x05, 0x00,
];

const WALK: &str = "snmp snmpwalk -On -csecret device .1.3.6.1.4.1.32473.1";

const BULK_WALK: &str = "snmp snmpbulkwalk -On -csecret device .1.3.6.1.4.1.32473.1";

const TWO: &str = "snmp snmpget -On -csecret device .1.3.6.1.4.1.32473.1.10.0 \
.1.3.6.1.4.1.32473.1.1.0";

const TWO_LINES: &str = ".1.3.6.1.4.1.32473.1.10.0 = INTEGER: 3\n\
.1.3.6.1.4.1.32473.1.1.0 = INTEGER: 1\n";

const SILENT: &str = "Timeout: No Response from device.\n";

#[test]
fn one_link_is_opened_and_only_the_expected_requests_are_sent(rt: HostRuntime) -> Result<(), Fail> {
    assert_asks(
        &rt,
        rt.alloc(),
        &[],
        &[
            (
                (WALK, THREE_LINES, "", 0),
                1,
                &[FROM_ROOT, FROM_FIRST, FROM_SECOND, FROM_LAST],
            ),
            ((BULK_WALK, THREE_LINES, "", 0), 1, &[BULK]),
            ((TWO, TWO_LINES, "", 0), 1, &[GET]),
        ],
    )
}

/// Nothing arrives until the sixth datagram was sent. Then its reply arrives.
const AT_SIXTH: &[Option<usize>] = &[None, None, None, None, None, Some(6)];

#[test]
fn a_request_is_sent_again_over_the_same_link(rt: HostRuntime) -> Result<(), Fail> {
    assert_asks(
        &rt,
        rt.alloc(),
        AT_SIXTH,
        &[
            ((BULK_WALK, THREE_LINES, "", 0), 1, &[BULK; 6]),
            ((TWO, TWO_LINES, "", 0), 1, &[GET; 6]),
        ],
    )
}

#[test]
fn a_request_is_sent_six_times_at_most(rt: HostRuntime) -> Result<(), Fail> {
    assert_asks(
        &rt,
        rt.alloc(),
        &[None; 6],
        &[
            ((BULK_WALK, "", SILENT, 1), 1, &[BULK; 6]),
            ((TWO, "", SILENT, 1), 1, &[GET; 6]),
        ],
    )
}

/// Command lines that send nothing.
const NOTHING_SENT: &[Asking<'static>] = &[
    (
        (
            "snmp snmpwalk -On table:t.tab .1.3.6.1.4.1.32473.1",
            THREE_LINES,
            "",
            0,
        ),
        0,
        &[],
    ),
    (("snmp snmptranslate -On iso", ".1\n", "", 0), 0, &[]),
    (
        ("snmp snmpwalk device x", "", "Unknown name: x\n", 1),
        0,
        &[],
    ),
    (
        (
            "snmp snmpwalk device .3",
            "",
            "Name cannot be sent: .3\n",
            1,
        ),
        1,
        &[],
    ),
    (
        (
            "snmp snmpwalk --after .1.50 device .1",
            "",
            "Name cannot be sent: .1.50\n",
            1,
        ),
        1,
        &[],
    ),
    (
        (
            "snmp snmpwalk --after .1.3.7 device .1.3.6",
            "",
            "Not below the root: .1.3.7\n",
            1,
        ),
        1,
        &[],
    ),
    (
        (
            "snmp snmpget device .1.3.6 .3",
            "",
            "Name cannot be sent: .3\n",
            1,
        ),
        1,
        &[],
    ),
];

#[test]
fn without_an_agent_or_a_valid_start_nothing_is_sent(rt: HostRuntime) -> Result<(), Fail> {
    assert_asks(&rt, rt.alloc(), &[], NOTHING_SENT)
}

/// An output that records at each of its first four writes how many datagrams were sent before it.
#[derive(Drop)]
struct Noting<'a> {
    sent: &'a Cell<usize>,
    notes: [usize; 4],
    writes: usize,
}

impl Output for Noting<'_> {
    ghost stream = { λ _. record { taken = None; faults = 0 } };

    ghost after = { λ noting _. noting };

    fn write(&mut self, piece: &[u8]) -> Result<usize, OutputFault> {
        if let Some(note) = self.notes.get_mut(self.writes) {
            *note = self.sent.get();
            self.writes += 1;
        }
        Ok(piece.len())
    }

    fn faults(&self) -> u64 {
        0
    }

    ghost after_takes = { λ _ _. refl };
}

/// Asserts that the status is 0, and how many datagrams were sent before each of the first four
/// writes to standard output. For a write that doesn't happen, the number is 0.
fn assert_notes(
    rt: &impl Abort,
    alloc: Global,
    line: &str,
    expected: &[&[u8]],
    notes: [usize; 4],
) -> Result<(), Fail> {
    let table = Table::read(alloc, THREE)?;
    let words: Vec<&str> = line.split(' ').collect(alloc)?;
    let sent = Cell::new(0);
    let mut links = Opened::new(Expected {
        alloc,
        table: &table,
        expected,
        sent: &sent,
        deliveries: &[],
    });
    let mut out = Noting {
        sent: &sent,
        notes: [0; 4],
        writes: 0,
    };
    let mut err = MemoryOutput::new(alloc);
    let files = MemoryFiles { files: OF_THREE };
    let status = tool(alloc, &words, &files, &mut links, &mut out, &mut err);
    assert!(rt; status == 0 && out.notes == notes);
    Ok(())
}

#[test]
fn lines_are_written_before_the_next_request_is_sent(rt: HostRuntime) -> Result<(), Fail> {
    let requests: &[&[u8]] = &[FROM_ROOT, FROM_FIRST, FROM_SECOND, FROM_LAST];
    assert_notes(&rt, rt.alloc(), WALK, requests, [1, 2, 3, 0])?;
    assert_notes(&rt, rt.alloc(), BULK_WALK, &[BULK], [1, 0, 0, 0])
}
