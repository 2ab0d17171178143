//! The lines of a table's text.

use crate::draws::Draws;
use std::alloc::{AllocError, Global};

/// The lines of a text.
#[derive(Drop)]
pub struct Lines<'a> {
    lines: Vec<&'a str>,
}

impl<'a> Lines<'a> {
    /// The lines of this text.
    pub fn of(alloc: Global, text: &'a str) -> Result<Lines<'a>, AllocError> {
        let lines = text.lines().collect(alloc)?;
        Ok(Lines { lines })
    }

    /// The name at the head of a line that a drawn number tells.
    pub fn name(&self, drawn: u64) -> &'a str {
        let count = self.lines.len().max(1);
        let at = (drawn >> 1) as usize % count;
        name_of(self.lines.get(at).copied().unwrap_or(""))
    }

    /// The text of the lines in a drawn order.
    pub fn shuffled(&self, alloc: Global, draws: Draws) -> Result<String, AllocError> {
        let mut draws = draws;
        let mut lines = self.lines.clone()?;
        swap_all(&mut lines, &mut draws);
        let mut text = String::new(alloc);
        'lines: for line in &lines {
            text.push_str(line)?;
            text.push('\n')?;
        }
        Ok(text)
    }
}

/// Swaps each line with a drawn one.
fn swap_all(lines: &mut [&str], draws: &mut Draws) {
    let count = lines.len();
    'swaps: for at in 0..count {
        let other = draws.next() as usize % count;
        lines.swap(at, other);
    }
}

/// What stands before the first bar.
fn name_of(line: &str) -> &str {
    line.split('|').next().unwrap_or("")
}

/// Appends the names of each `step`th line but comments, with a space before each.
pub fn append_names(text: &str, step: usize, line: &mut String) -> Result<(), AllocError> {
    'lines: for (place, row) in text.lines().enumerate() {
        if place % step.max(1) == 0 && !row.starts_with('#') {
            line.push(' ')?;
            line.push_str(name_of(row))?;
        }
    }
    Ok(())
}
