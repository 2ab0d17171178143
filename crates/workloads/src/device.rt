//! Tables of devices, as a recorder of a walk would write them: interfaces, learned stations,
//! neighbours, connections, processes and hardware parts.

use crate::draws::Draws;
use itoa::Buffer;
use std::alloc::{AllocError, Global};

/// What the values of a column are.
#[derive(Clone, Copy)]
pub enum Kind {
    /// The number of the row.
    Row,
    /// One of the first numbers that a list of names has.
    Choice(u64),
    Counter,
    Big,
    Gauge,
    Ticks,
    /// A text of a few words.
    Words,
    /// The address of a medium.
    Address,
    /// The address that the row is named by.
    Station,
    Identifier,
    Date,
    Internet,
}

/// What names the rows of a table.
#[derive(Clone, Copy)]
pub enum Index {
    Number,
    Address,
    Neighbour,
    Connection,
    Internet,
}

/// A column: its number, its label and its values.
#[derive(Clone, Copy)]
pub struct Column(pub u64, pub &'static str, pub Kind);

/// A table of the device.
#[derive(Clone, Copy)]
pub struct Part {
    /// The identifier of its entry.
    pub entry: &'static str,
    pub module: &'static str,
    pub index: Index,
    /// How many rows there are for each hundred of the device.
    pub share: u64,
    pub columns: &'static [Column],
}

const INTERFACES: [Column; 22] = [
    Column(1, "ifIndex", Kind::Row),
    Column(2, "ifDescr", Kind::Words),
    Column(3, "ifType", Kind::Choice(6)),
    Column(4, "ifMtu", Kind::Choice(9000)),
    Column(5, "ifSpeed", Kind::Gauge),
    Column(6, "ifPhysAddress", Kind::Address),
    Column(7, "ifAdminStatus", Kind::Choice(3)),
    Column(8, "ifOperStatus", Kind::Choice(7)),
    Column(9, "ifLastChange", Kind::Ticks),
    Column(10, "ifInOctets", Kind::Counter),
    Column(11, "ifInUcastPkts", Kind::Counter),
    Column(12, "ifInNUcastPkts", Kind::Counter),
    Column(13, "ifInDiscards", Kind::Counter),
    Column(14, "ifInErrors", Kind::Counter),
    Column(15, "ifInUnknownProtos", Kind::Counter),
    Column(16, "ifOutOctets", Kind::Counter),
    Column(17, "ifOutUcastPkts", Kind::Counter),
    Column(18, "ifOutNUcastPkts", Kind::Counter),
    Column(19, "ifOutDiscards", Kind::Counter),
    Column(20, "ifOutErrors", Kind::Counter),
    Column(21, "ifOutQLen", Kind::Gauge),
    Column(22, "ifSpecific", Kind::Identifier),
];

const ADDRESSES: [Column; 4] = [
    Column(1, "ipAdEntAddr", Kind::Internet),
    Column(2, "ipAdEntIfIndex", Kind::Row),
    Column(3, "ipAdEntNetMask", Kind::Internet),
    Column(4, "ipAdEntBcastAddr", Kind::Choice(2)),
];

const NEIGHBOURS: [Column; 5] = [
    Column(4, "ipNetToPhysicalPhysAddress", Kind::Address),
    Column(5, "ipNetToPhysicalLastUpdated", Kind::Ticks),
    Column(6, "ipNetToPhysicalType", Kind::Choice(5)),
    Column(7, "ipNetToPhysicalState", Kind::Choice(7)),
    Column(8, "ipNetToPhysicalRowStatus", Kind::Choice(3)),
];

const CONNECTIONS: [Column; 2] = [
    Column(7, "tcpConnectionState", Kind::Choice(12)),
    Column(8, "tcpConnectionProcess", Kind::Gauge),
];

const STATIONS: [Column; 3] = [
    Column(1, "dot1dTpFdbAddress", Kind::Station),
    Column(2, "dot1dTpFdbPort", Kind::Choice(512)),
    Column(3, "dot1dTpFdbStatus", Kind::Choice(5)),
];

const PROCESSES: [Column; 7] = [
    Column(1, "hrSWRunIndex", Kind::Row),
    Column(2, "hrSWRunName", Kind::Words),
    Column(3, "hrSWRunID", Kind::Identifier),
    Column(4, "hrSWRunPath", Kind::Words),
    Column(5, "hrSWRunParameters", Kind::Words),
    Column(6, "hrSWRunType", Kind::Choice(4)),
    Column(7, "hrSWRunStatus", Kind::Choice(4)),
];

const MORE_INTERFACES: [Column; 19] = [
    Column(1, "ifName", Kind::Words),
    Column(2, "ifInMulticastPkts", Kind::Counter),
    Column(3, "ifInBroadcastPkts", Kind::Counter),
    Column(4, "ifOutMulticastPkts", Kind::Counter),
    Column(5, "ifOutBroadcastPkts", Kind::Counter),
    Column(6, "ifHCInOctets", Kind::Big),
    Column(7, "ifHCInUcastPkts", Kind::Big),
    Column(8, "ifHCInMulticastPkts", Kind::Big),
    Column(9, "ifHCInBroadcastPkts", Kind::Big),
    Column(10, "ifHCOutOctets", Kind::Big),
    Column(11, "ifHCOutUcastPkts", Kind::Big),
    Column(12, "ifHCOutMulticastPkts", Kind::Big),
    Column(13, "ifHCOutBroadcastPkts", Kind::Big),
    Column(14, "ifLinkUpDownTrapEnable", Kind::Choice(2)),
    Column(15, "ifHighSpeed", Kind::Gauge),
    Column(16, "ifPromiscuousMode", Kind::Choice(2)),
    Column(17, "ifConnectorPresent", Kind::Choice(2)),
    Column(18, "ifAlias", Kind::Words),
    Column(19, "ifCounterDiscontinuityTime", Kind::Ticks),
];

const PARTS: [Column; 17] = [
    Column(2, "entPhysicalDescr", Kind::Words),
    Column(3, "entPhysicalVendorType", Kind::Identifier),
    Column(4, "entPhysicalContainedIn", Kind::Choice(16)),
    Column(5, "entPhysicalClass", Kind::Choice(12)),
    Column(6, "entPhysicalParentRelPos", Kind::Choice(8)),
    Column(7, "entPhysicalName", Kind::Words),
    Column(8, "entPhysicalHardwareRev", Kind::Words),
    Column(9, "entPhysicalFirmwareRev", Kind::Words),
    Column(10, "entPhysicalSoftwareRev", Kind::Words),
    Column(11, "entPhysicalSerialNum", Kind::Words),
    Column(12, "entPhysicalMfgName", Kind::Words),
    Column(13, "entPhysicalModelName", Kind::Words),
    Column(14, "entPhysicalAlias", Kind::Words),
    Column(15, "entPhysicalAssetID", Kind::Words),
    Column(16, "entPhysicalIsFRU", Kind::Choice(2)),
    Column(17, "entPhysicalMfgDate", Kind::Date),
    Column(18, "entPhysicalUris", Kind::Words),
];

const PART_COUNT: usize = 8;

const ALL: [Part; PART_COUNT] = [
    Part {
        entry: "1.3.6.1.2.1.2.2.1",
        module: "IF-MIB",
        index: Index::Number,
        share: 100,
        columns: &INTERFACES,
    },
    Part {
        entry: "1.3.6.1.2.1.4.20.1",
        module: "IP-MIB",
        index: Index::Internet,
        share: 50,
        columns: &ADDRESSES,
    },
    Part {
        entry: "1.3.6.1.2.1.4.35.1",
        module: "IP-MIB",
        index: Index::Neighbour,
        share: 200,
        columns: &NEIGHBOURS,
    },
    Part {
        entry: "1.3.6.1.2.1.6.19.1",
        module: "TCP-MIB",
        index: Index::Connection,
        share: 100,
        columns: &CONNECTIONS,
    },
    Part {
        entry: "1.3.6.1.2.1.17.4.3.1",
        module: "BRIDGE-MIB",
        index: Index::Address,
        share: 1000,
        columns: &STATIONS,
    },
    Part {
        entry: "1.3.6.1.2.1.25.4.2.1",
        module: "HOST-RESOURCES-MIB",
        index: Index::Number,
        share: 100,
        columns: &PROCESSES,
    },
    Part {
        entry: "1.3.6.1.2.1.31.1.1.1",
        module: "IF-MIB",
        index: Index::Number,
        share: 100,
        columns: &MORE_INTERFACES,
    },
    Part {
        entry: "1.3.6.1.2.1.47.1.1.1.1",
        module: "ENTITY-MIB",
        index: Index::Number,
        share: 50,
        columns: &PARTS,
    },
];

/// The tables of the device, in the order of their names.
pub fn parts() -> [Part; PART_COUNT] {
    ALL
}

/// How the names of rows are written.
#[derive(Clone, Copy)]
pub enum Spelling {
    Numbers,
    Labels,
}

/// The lines of a device's table file, in the order of their names: some 100 for each interface.
#[derive(Drop)]
pub struct Device {
    draws: Draws,
    keys: Draws,
    spelling: Spelling,
    text: String,
}

const WORDS: [&str; 16] = [
    "GigabitEthernet0/",
    "port",
    "module",
    "fan",
    "power supply",
    "\"uplink\"",
    "/usr/sbin/daemon",
    "--config /etc/agent.conf",
    "rack",
    "slot",
    "rev B",
    "to core",
    "spare",
    "10GBASE-LR",
    "customer",
    "sensor",
];

/// The text of the table of a device of so many interfaces.
pub fn device_text(
    alloc: Global,
    draws: Draws,
    interfaces: u64,
    spelling: Spelling,
) -> Result<String, AllocError> {
    let mut device = Device {
        draws,
        keys: draws.apart(1),
        spelling,
        text: String::new(alloc),
    };
    if let Spelling::Labels = spelling {
        device.text.push_str("#snmptab 2\n")?;
    }
    let parts = parts();
    'parts: for part in &parts {
        let rows = interfaces.saturating_mul(part.share) / 100;
        'columns: for column in part.columns {
            device.column(part, *column, rows)?;
        }
    }
    let Device {
        draws: _,
        keys: _,
        spelling: _,
        text,
    } = device;
    Ok(text)
}

impl Device {
    /// The rows of a column. Those of each column of a table have the same keys.
    fn column(&mut self, part: &Part, column: Column, rows: u64) -> Result<(), AllocError> {
        let mut keys = self.keys;
        let mut key = keys.below(1 << 20);
        'rows: for row in 0..rows {
            key = key.wrapping_add(keys.below(1 << 10)).wrapping_add(1);
            match self.spelling {
                Spelling::Numbers => {
                    self.text.push_str(part.entry)?;
                    self.number('.', column.0)?;
                }
                Spelling::Labels => {
                    self.text.push_str(part.module)?;
                    self.text.push_str("::")?;
                    self.text.push_str(column.1)?;
                }
            }
            self.instance(part.index, row, key)?;
            self.value(column.2, row, key)?;
            self.text.push('\n')?;
        }
        Ok(())
    }

    /// A number behind a sign.
    fn number(&mut self, sign: char, number: u64) -> Result<(), AllocError> {
        let mut buffer = Buffer::new();
        self.text.push(sign)?;
        self.text.push_str(buffer.format(number))
    }

    /// The octets of a number, each behind a sign.
    fn octets(&mut self, sign: char, number: u64, count: u64) -> Result<(), AllocError> {
        'octets: for octet in 0..count {
            self.number(sign, number_at(number, count.wrapping_sub(octet)))?;
        }
        Ok(())
    }

    fn instance(&mut self, index: Index, row: u64, key: u64) -> Result<(), AllocError> {
        match index {
            Index::Number => self.number('.', row.wrapping_add(1)),
            Index::Address => self.octets('.', station(key), 6),
            Index::Internet => self.octets('.', internet(key), 4),
            Index::Neighbour => {
                self.number('.', row / 16 + 1)?;
                if row % 16 < 12 {
                    self.text.push_str(".1.4")?;
                    self.octets('.', internet(key), 4)
                } else {
                    self.text.push_str(".2.16.254.128.0.0.0.0.0.0.2.22.62")?;
                    self.octets('.', key, 5)
                }
            }
            Index::Connection => {
                self.text.push_str(".1.4.10.0.0.1")?;
                self.number('.', row.wrapping_add(1024) % 65536)?;
                self.text.push_str(".1.4")?;
                self.octets('.', internet(key), 4)?;
                self.number('.', key % 65536)
            }
        }
    }

    fn value(&mut self, kind: Kind, row: u64, key: u64) -> Result<(), AllocError> {
        let drawn = self.draws.next();
        match kind {
            Kind::Row => self.tagged("|2", row.wrapping_add(1)),
            Kind::Choice(count) => self.tagged("|2", drawn % count.max(1) + 1),
            Kind::Counter => self.tagged("|65", drawn >> (32 + drawn % 32)),
            Kind::Gauge => self.tagged("|66", drawn >> (32 + drawn % 32)),
            Kind::Ticks => self.tagged("|67", drawn >> (32 + drawn % 16)),
            Kind::Big => self.tagged("|70", drawn >> (drawn % 48)),
            Kind::Words => self.words(drawn),
            Kind::Address => self.hex(0x163e, drawn >> 40),
            Kind::Station => self.hex(station(key) >> 24, station(key)),
            Kind::Identifier => {
                self.text.push_str("|6|1.3.6.1.4.1")?;
                self.number('.', drawn % 65536)?;
                self.number('.', drawn >> 60)
            }
            Kind::Date => {
                self.text.push_str("|4x|07E")?;
                self.hex_digits(drawn % 8 + 1, 1)?;
                self.text.push_str("0B1A")?;
                self.hex_digits(drawn >> 32, 6)?;
                self.text.push_str("00")
            }
            Kind::Internet => {
                self.text.push_str("|64|10")?;
                self.octets('.', drawn, 3)
            }
        }
    }

    fn tagged(&mut self, tag: &str, number: u64) -> Result<(), AllocError> {
        self.text.push_str(tag)?;
        self.number('|', number)
    }

    /// A text of one to four words, and a number.
    fn words(&mut self, drawn: u64) -> Result<(), AllocError> {
        self.text.push_str("|4|")?;
        'words: for _ in 0..drawn % 4 {
            let word = self.draws.word(&WORDS);
            self.text.push_str(word)?;
            self.text.push(' ')?;
        }
        self.number('#', drawn >> 54)
    }

    /// The six octets of two numbers, the lower half of each.
    fn hex(&mut self, high: u64, low: u64) -> Result<(), AllocError> {
        self.text.push_str("|4x|")?;
        self.hex_digits(high, 6)?;
        self.hex_digits(low, 6)
    }

    /// The last digits of a number.
    fn hex_digits(&mut self, number: u64, count: u64) -> Result<(), AllocError> {
        'digits: for digit in 0..count {
            let digit = number_of_digit(number, count.wrapping_sub(digit));
            self.text.push(digit)?;
        }
        Ok(())
    }
}

/// The octet that is the given number of places from the end, counted from 1.
fn number_at(number: u64, place: u64) -> u64 {
    (number >> (place.wrapping_sub(1) % 8 * 8)) % 256
}

/// The hexadecimal digit that is the given number of places from the end, counted from 1.
fn number_of_digit(number: u64, place: u64) -> char {
    let digit = (number >> (place.wrapping_sub(1) % 16 * 4)) % 16;
    let at = digit as usize;
    b"0123456789ABCDEF"
        .get(at)
        .map_or('0', |octet| char::from(*octet))
}

/// The address of a station, by its key.
fn station(key: u64) -> u64 {
    (key.wrapping_mul(1021) % (1 << 40)) + 0x0016_0000_0000_u64 * 16
}

/// An address of four octets in 10.0.0.0/8, by its key.
fn internet(key: u64) -> u64 {
    key % (1 << 24) + 0x0a00_0000
}
