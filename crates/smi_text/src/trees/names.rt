//! Names of modules, definitions and types.
ghost use Rattle.std.specs.Prelude.{◌≡◌, true, List, ℕ};
ghost use Rattle.smi_text.specs.trees.Word.{is_word};

use crate::trees::items::Text;

/// A name: a letter, and then letters, digits, `_`, and hyphens that each have a letter, a digit
/// or `_` after them (RFC 2578, section 3.1).
#[derive(Debug, Drop)]
pub struct Name {
    /// Its octets.
    pub octets: Text,
    pub ghost lexical: { is_word octets ≡ true },
}

impl Name {
    /// Returns the octets of the name.
    pub fn as_bytes(&self) -> &[u8]
        ensures octets { result.now ≡ self.now.octets }
        ensures word { is_word result.now ≡ true }
    {
        self.octets.as_bytes()
    }
}
