//! The tree of a small module: a column, and the objects that may be the INDEX of its rows.
use smi_text::parse_modules;
use smi_tree::Tree;
use std::alloc::Global;
use std::test::Fail;

/// The text of the module before the INDEX of its rows.
const BEFORE: &[u8] = b"TINY-MIB DEFINITIONS ::= BEGIN
tinyEntry OBJECT-TYPE SYNTAX TinyEntry MAX-ACCESS not-accessible
  STATUS current DESCRIPTION \"Row.\" INDEX { ";

/// The text between the INDEX of the rows and the definition of `tinyMac`.
const BETWEEN: &[u8] = b" } ::= { iso 3 6 }
tinyText OBJECT-TYPE SYNTAX OCTET STRING MAX-ACCESS not-accessible
  STATUS current DESCRIPTION \"Text.\" ::= { tinyEntry 3 }
tinyPair OBJECT-TYPE SYNTAX OCTET STRING (SIZE (2)) MAX-ACCESS not-accessible
  STATUS current DESCRIPTION \"Two octets.\" ::= { tinyEntry 4 }
tinyNumber OBJECT-TYPE SYNTAX INTEGER MAX-ACCESS not-accessible
  STATUS current DESCRIPTION \"Number.\" ::= { tinyEntry 5 }
tinyAddress OBJECT-TYPE SYNTAX IpAddress MAX-ACCESS not-accessible
  STATUS current DESCRIPTION \"Address.\" ::= { tinyEntry 6 }
Mac ::= TEXTUAL-CONVENTION DISPLAY-HINT \"1x:\" STATUS current
  DESCRIPTION \"An address.\" SYNTAX OCTET STRING (SIZE (6))
tinyMac ";

/// The text after the clauses of `tinyMac`.
const AFTER: &[u8] = b" ::= { tinyEntry 2 }
END
";

/// An INDEX of one string, whose length comes before it.
pub const COUNTED: &str = "tinyText";

/// An INDEX of one string, without its length.
pub const IMPLIED: &str = "IMPLIED tinyText";

/// An INDEX of a number, two octets and an address.
pub const TRIPLE: &str = "tinyNumber, tinyPair, tinyAddress";

/// An object of type `Mac`.
pub const MAC: &str =
    "OBJECT-TYPE SYNTAX Mac MAX-ACCESS read-only STATUS current DESCRIPTION \"Address.\"";

/// Returns the tree of a module whose rows have this INDEX, and whose column `tinyMac`, 1.3.6.2, is
/// defined by `clauses`. It is in a box, so that the code that drops it is proved only once.
pub fn sample(alloc: Global, index: &str, clauses: &str) -> Result<Box<Tree>, Fail> {
    let mut text = Vec::from_slice(alloc, BEFORE)?;
    text.extend_from_slice(index.as_bytes())?;
    text.extend_from_slice(BETWEEN)?;
    text.extend_from_slice(clauses.as_bytes())?;
    text.extend_from_slice(AFTER)?;
    let modules = parse_modules(alloc, &text)?;
    let (tree, _warnings) = Tree::load(alloc, modules)?;
    Ok(Box::new(alloc, tree)?)
}
