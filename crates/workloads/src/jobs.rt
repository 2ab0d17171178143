//! The jobs, each over inputs of its own for each turn.

use crate::commands::run;
use crate::device::{Spelling, device_text, parts};
use crate::digest::Digest;
use crate::draws::Draws;
use crate::lines::{Lines, append_names};
use crate::site::site_text;
use itoa::Buffer;
use snmp_agent::{Config, Table};
use snmp_net::memory::MemoryAgent;
use std::alloc::{AllocError, Global};

/// What each turn of a job has.
#[derive(Drop)]
pub struct Turn<'a> {
    pub alloc: Global,
    /// The text of modules that the site loads beside its own.
    pub modules: &'a [u8],
    pub draws: Draws,
    /// The number of the turn.
    pub number: u64,
    /// How large its inputs are: so many interfaces, where there is a device.
    pub size: u64,
}

const CONFIG: Config<'static> = Config {
    community: b"public",
    max_size: 1472,
};

/// Commands with names start: the modules of a site are loaded, and three names are shown with
/// their details. The last module of every eighth site has a fault.
pub fn load(turn: &Turn<'_>, digest: &mut Digest) -> Result<(), AllocError> {
    let modules = match turn.number % 4 {
        0 => turn.size / 4,
        1 => turn.size / 2,
        2 => turn.size,
        _ => turn.size.saturating_mul(4),
    };
    let text = site_text(turn.alloc, turn.draws, modules, turn.number % 8 == 7)?;
    load_both(turn.alloc, turn.modules, text.as_bytes(), digest)
}

/// Loads two texts of modules, and shows three names.
fn load_both<'a>(
    alloc: Global,
    modules: &'a [u8],
    site: &'a [u8],
    digest: &mut Digest,
) -> Result<(), AllocError> {
    let files: [(&str, &[u8]); 2] = [("modules.txt", modules), ("site.txt", site)];
    run(
        alloc,
        "snmp snmptranslate -Td --mib modules.txt --mib site.txt acme0Scalar1.0 \
         ACME-1-MIB::acme1Group .1.3.6.1.4.1.32473.1.1.21.0",
        &files,
        &[],
        digest,
    )
}

/// A device is walked by names: three walks of all of it by GetBulk, and every fourth one with full
/// names too.
pub fn names(turn: &Turn<'_>, digest: &mut Digest) -> Result<(), AllocError> {
    let text = device_text(turn.alloc, turn.draws, turn.size, Spelling::Numbers)?;
    let Ok(table) = Table::read(turn.alloc, text.as_bytes()) else {
        return Err(AllocError);
    };
    'walks: for line in [
        "snmp snmpbulkwalk --mib modules.txt -Cr10 -OS device mib-2",
        "snmp snmpbulkwalk --mib modules.txt -Cr25 -Os device mib-2",
        "snmp snmpbulkwalk --mib modules.txt -Cr50 -OSQ device mib-2",
    ] {
        walk(turn.alloc, turn.modules, &table, line, digest)?;
    }
    if turn.number % 4 == 3 {
        let line = "snmp snmpbulkwalk --mib modules.txt -Cr25 -Of device mib-2";
        walk(turn.alloc, turn.modules, &table, line, digest)?;
    }
    Ok(())
}

/// Runs a command line that asks the agent over a table, which is reached at `device`.
fn walk<'a>(
    alloc: Global,
    modules: &'a [u8],
    table: &'a Table,
    line: &str,
    digest: &mut Digest,
) -> Result<(), AllocError> {
    let files: [(&str, &[u8]); 1] = [("modules.txt", modules)];
    let agents = [MemoryAgent {
        host: "device",
        port: 161,
        table,
        config: CONFIG,
        deliveries: &[],
    }];
    run(alloc, line, &files, &agents, digest)
}

/// A device is walked in numbers, a column at a time: by GetNext, and by GetBulk of 50.
pub fn numbers(turn: &Turn<'_>, digest: &mut Digest) -> Result<(), AllocError> {
    let text = device_text(turn.alloc, turn.draws, turn.size, Spelling::Numbers)?;
    let Ok(table) = Table::read(turn.alloc, text.as_bytes()) else {
        return Err(AllocError);
    };
    let parts = parts();
    'parts: for part in &parts {
        'columns: for column in part.columns {
            'ways: for start in [
                "snmp snmpwalk -On device ",
                "snmp snmpbulkwalk -On -Cr50 device ",
            ] {
                let mut line = String::from_str(turn.alloc, start)?;
                line.push_str(part.entry)?;
                line.push('.')?;
                let mut buffer = Buffer::new();
                line.push_str(buffer.format(column.0))?;
                walk(turn.alloc, turn.modules, &table, line.as_str(), digest)?;
            }
        }
    }
    Ok(())
}

/// Table files are read: a device in order, in no order, by names in order, and names of some 107
/// numbers. Of each two instances are asked for.
pub fn tables(turn: &Turn<'_>, digest: &mut Digest) -> Result<(), AllocError> {
    let alloc = turn.alloc;
    let mut draws = turn.draws.apart(5);
    let ordered = device_text(alloc, turn.draws, turn.size, Spelling::Numbers)?;
    read(turn, ordered.as_str(), "-On", &mut draws, digest)?;
    let lines = Lines::of(alloc, ordered.as_str())?;
    let shuffled = lines.shuffled(alloc, turn.draws.apart(2))?;
    read(turn, shuffled.as_str(), "-On", &mut draws, digest)?;
    let named = device_text(alloc, turn.draws.apart(3), turn.size / 4, Spelling::Labels)?;
    read(
        turn,
        named.as_str(),
        "--mib modules.txt",
        &mut draws,
        digest,
    )?;
    let long = long_names(alloc, turn.draws.apart(4), turn.size.saturating_mul(10))?;
    read(turn, long.as_str(), "-On", &mut draws, digest)
}

/// Asks for two of the instances that the text of a table states.
fn read(
    turn: &Turn<'_>,
    text: &str,
    options: &str,
    draws: &mut Draws,
    digest: &mut Digest,
) -> Result<(), AllocError> {
    let lines = Lines::of(turn.alloc, text)?;
    let mut line = String::from_str(turn.alloc, "snmp snmpget ")?;
    line.push_str(options)?;
    line.push_str(" table:rows.tab")?;
    'names: for _ in 0..2 {
        line.push(' ')?;
        line.push_str(lines.name(draws.next()))?;
    }
    read_both(
        turn.alloc,
        turn.modules,
        text.as_bytes(),
        line.as_str(),
        digest,
    )
}

/// Runs a command line over the text of modules and that of a table.
fn read_both<'a>(
    alloc: Global,
    modules: &'a [u8],
    table: &'a [u8],
    line: &str,
    digest: &mut Digest,
) -> Result<(), AllocError> {
    let files: [(&str, &[u8]); 2] = [("modules.txt", modules), ("rows.tab", table)];
    run(alloc, line, &files, &[], digest)
}

/// The text of a table whose names have some 107 numbers.
fn long_names(alloc: Global, draws: Draws, rows: u64) -> Result<String, AllocError> {
    let mut draws = draws;
    let mut text = String::new(alloc);
    let mut buffer = Buffer::new();
    'rows: for row in 0..rows {
        text.push_str("1.3.6.1.4.1.32473.9")?;
        let shared = draws.below(1 << 40);
        'numbers: for place in 0..98_u64 {
            text.push('.')?;
            text.push_str(buffer.format((shared >> (place % 40)) % 300))?;
        }
        text.push('.')?;
        text.push_str(buffer.format(row))?;
        text.push_str("|4|a text\n")?;
    }
    Ok(text)
}

/// Names are translated: those of a device from numbers and from labels, and some with details.
pub fn translate(turn: &Turn<'_>, digest: &mut Digest) -> Result<(), AllocError> {
    let numeric = device_text(turn.alloc, turn.draws, turn.size, Spelling::Numbers)?;
    let labels = device_text(turn.alloc, turn.draws, turn.size, Spelling::Labels)?;
    translate_names(turn, numeric.as_str(), "-OS", 1, digest)?;
    translate_names(turn, labels.as_str(), "-On", 1, digest)?;
    translate_names(turn, numeric.as_str(), "-Td", 8, digest)
}

/// Translates the names of each `step`th line of a table.
fn translate_names(
    turn: &Turn<'_>,
    text: &str,
    option: &str,
    step: usize,
    digest: &mut Digest,
) -> Result<(), AllocError> {
    let mut line = String::from_str(turn.alloc, "snmp snmptranslate --mib modules.txt ")?;
    line.push_str(option)?;
    append_names(text, step, &mut line)?;
    let files: [(&str, &[u8]); 1] = [("modules.txt", turn.modules)];
    run(turn.alloc, line.as_str(), &files, &[], digest)
}
