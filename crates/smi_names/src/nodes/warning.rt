//! Warnings about modules, imports and definitions.

use smi_text::Text;

/// A warning: a module is left out, an import isn't found, or a definition has no identifier.
#[derive(Debug, Drop)]
pub enum Warning {
    /// A module of this name is left out, since an earlier one has the name.
    DoubleModule(Text),
    /// A module imports from another, which isn't loaded (RFC 2578, section 3.2). Holds both names.
    MissingModule(Text, Text),
    /// A module imports a symbol that the module after FROM neither defines nor imports. Holds the
    /// module, the symbol and the module after FROM.
    MissingImport(Text, Text, Text),
    /// The chain of parents of a definition has no end. Holds the module and label of the
    /// definition.
    Cycle(Text, Text),
    /// The chain of parents of a definition ends at a name that isn't defined, or whose definition
    /// yields no identifier. Holds the module and label of the definition.
    Unresolved(Text, Text),
    /// A definition's identifier would have more than 128 numbers (RFC 2578, section 3.5). Holds
    /// its module and label.
    TooLong(Text, Text),
}
