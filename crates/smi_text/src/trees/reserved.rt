//! The reserved words: the words of the grammar. A name can't be one of them, unless it names a
//! macro.
#![tactic(auto, unfolding(crate::specs::trees::Reserved::is_reserved, crate::specs::trees::Number::is_macro))]

ghost use Rattle.std.specs.Prelude.{◌≡◌, get_or, map};
ghost use Rattle.std.specs.{Char.is_ascii_uppercase, List.list_any};
ghost use Rattle.smi_text.specs.trees.Mark.{same_text};
ghost use Rattle.smi_text.specs.trees.Reserved as words;
ghost use Rattle.smi_text.specs.trees.Number as number;

/// The words that name a macro, which can be defined and imported (RFC 2578, section 3).
const MACROS: [&[u8]; 9] = [
    b"MODULE-IDENTITY",
    b"OBJECT-IDENTITY",
    b"OBJECT-TYPE",
    b"NOTIFICATION-TYPE",
    b"TEXTUAL-CONVENTION",
    b"OBJECT-GROUP",
    b"NOTIFICATION-GROUP",
    b"MODULE-COMPLIANCE",
    b"AGENT-CAPABILITIES",
];

/// The words of the grammar, the names of macros among them.
const RESERVED: [&[u8]; 44] = [
    b"DEFINITIONS",
    b"BEGIN",
    b"END",
    b"IMPORTS",
    b"FROM",
    b"OBJECT",
    b"IDENTIFIER",
    b"MODULE-IDENTITY",
    b"LAST-UPDATED",
    b"ORGANIZATION",
    b"CONTACT-INFO",
    b"DESCRIPTION",
    b"REVISION",
    b"OBJECT-IDENTITY",
    b"OBJECT-TYPE",
    b"SYNTAX",
    b"UNITS",
    b"MAX-ACCESS",
    b"DEFVAL",
    b"NOTIFICATION-TYPE",
    b"OBJECTS",
    b"OBJECT-GROUP",
    b"NOTIFICATION-GROUP",
    b"NOTIFICATIONS",
    b"MODULE-COMPLIANCE",
    b"AGENT-CAPABILITIES",
    b"TEXTUAL-CONVENTION",
    b"DISPLAY-HINT",
    b"APPLICATION",
    b"IMPLICIT",
    b"SEQUENCE",
    b"CHOICE",
    b"MACRO",
    b"STATUS",
    b"REFERENCE",
    b"INDEX",
    b"IMPLIED",
    b"AUGMENTS",
    b"OF",
    b"INTEGER",
    b"OCTET",
    b"STRING",
    b"BITS",
    b"SIZE",
];

/// Returns whether `text` is one of `words`.
#[tactic(auto, using(crate::proofs::Words::is_one_of_drop, crate::proofs::Words::is_one_of_none))]
fn is_among(words: &[&[u8]], text: &[u8]) -> bool
    ensures { result ≡ list_any (same_text text.now) (map (λ word. word.now) words.now) }
{
    for word in words {
        if text == *word {
            return true;
        }
    }
    false
}

/// Returns whether the second octet is an upper-case letter.
fn has_upper_second(text: &[u8]) -> bool
    ensures { result ≡ is_ascii_uppercase (get_or text.now 1 0) }
{
    text.len() > 1 && text[1].is_ascii_uppercase()
}

/// Returns whether a word is reserved.
pub fn is_reserved(text: &[u8]) -> bool
    ensures { result ≡ words.is_reserved text.now }
{
    // Each reserved word has an upper-case second letter, and most names don't.
    if !has_upper_second(text) {
        return false;
    }
    is_among(&RESERVED, text)
}

/// Returns whether a word names a macro.
pub fn is_macro(text: &[u8]) -> bool
    ensures { result ≡ number.is_macro text.now }
{
    is_among(&MACROS, text)
}
