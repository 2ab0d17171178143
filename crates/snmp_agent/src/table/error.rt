//! Why a text doesn't define a table, and why a variable isn't put.

use thiserror::Error;

/// Why no table is read from a text: what is wrong with its first faulty line, or memory ran out.
#[derive(Clone, Copy, Debug, PartialEq, Eq, Error)]
pub enum TableError {
    /// The line isn't empty, isn't a comment, doesn't begin with `object `, and has no known tag
    /// between its first two bars. In the second format, bars within quotes don't count.
    #[error("line {line}: bad line")]
    BadLine {
        /// The number of the line, from 1.
        line: usize,
    },
    /// The name of the line isn't a name of the format, or not one that an object prefix or an
    /// instance may have.
    #[error("line {line}: bad name")]
    BadName {
        /// The number of the line, from 1.
        line: usize,
    },
    /// The text after the tag isn't a value of the tag's type.
    #[error("line {line}: bad value")]
    BadValue {
        /// The number of the line, from 1.
        line: usize,
    },
    /// An earlier line has an instance of the same name.
    #[error("line {line}: double name")]
    Double {
        /// The number of the line, from 1.
        line: usize,
    },
    /// Memory ran out.
    #[error("out of memory")]
    Memory,
}

/// Why [`Table::put`](crate::table::Table::put) refuses a variable: the first reason that applies.
#[derive(Clone, Copy, Debug, PartialEq, Eq, Error)]
pub enum PutError {
    /// The name has fewer than three numbers, or no encoding.
    #[error("bad name")]
    BadName,
    /// The value is NULL or an exception, an identifier that has no encoding, or a string of more
    /// than 65535 octets.
    #[error("bad value")]
    BadValue,
    /// Memory ran out.
    #[error("out of memory")]
    Memory,
}
