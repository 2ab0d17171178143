//! Walks over tables of 127 to 513 rows, which are stored in pages of up to 128 each. All that is
//! printed is compared.

use crate::run::{NO_LIMITS, prints};
use std::alloc::{AllocError, Global};

/// Returns the text of `count` rows, whose numbers begin with 0 and increase by `step` modulo
/// `count`, and the lines of a walk over them if no number occurs twice.
fn rows_of(alloc: Global, count: u32, step: u32) -> Result<(String, String), AllocError> {
    let mut text = String::new(alloc);
    let mut lines = String::new(alloc);
    for index in 0..count {
        let number = index.wrapping_mul(step) % count.max(1);
        write!(text, "1.3.6.1.4.1.32473.1.{number}.0|65|{number}\n")?;
        write!(
            lines,
            ".1.3.6.1.4.1.32473.1.{index}.0 = Counter32: {index}\n"
        )?;
    }
    Ok((text, lines))
}

/// Returns whether the command line `words` prints the lines of such rows, all of them and nothing
/// else, and ends with status 0.
fn is_printed(alloc: Global, words: &str, count: u32, step: u32) -> Result<bool, AllocError> {
    let (text, lines) = rows_of(alloc, count, step)?;
    let files = [("pages.tab", text.as_bytes())];
    prints(alloc, &files, NO_LIMITS, (words, &lines, "", 0))
}

#[test]
fn lines_of_several_pages_are_in_order(rt: HostRuntime) {
    // A step without a common factor with a count reaches each number once.
    for &count in &[127, 128, 129, 257, 513] {
        for &step in &[1, 101] {
            for &words in &[
                "snmp snmpwalk -On table:pages.tab .1.3.6.1.4.1.32473",
                "snmp snmpbulkwalk -On -Cr50 --max-size=65507 table:pages.tab .1.3.6.1.4.1.32473.1",
            ] {
                let printed = is_printed(rt.alloc(), words, count, step);
                assert!(rt;
                    matches!(printed, Ok(true)),
                    "{count} rows by {step}: {words}"
                );
            }
        }
    }
}
