//! Display hints, which say how the values of a textual convention are shown (RFC 2579, section
//! 3.1). A hint is read once, and can then be applied to any number of values.
ghost use Rattle.std.specs.Prelude.{◌≡◌, ◌≤◌, ◌↔◌, ◌⊎◌, List, ℕ, IsSome, IfSome, IsTrue, false};
ghost use Rattle.snmp_io.specs.Draft.{Adds};

mod number;
mod octets;
mod spec;
mod write;

use crate::hint::number::{NumberForm, append_number, number_form};
use crate::hint::octets::append_octets;
use crate::hint::spec::{Spec, octet_hint};
pub(crate) use octets::append_marked_decimal;
use snmp_io::Draft;
use std::marker::Model;
pub use write::{one_text, write_hint};

/// A value that a display hint shows.
#[derive(Clone, Copy, Debug)]
pub enum HintValue<'a> {
    /// A number, for a hint of integers.
    Number(i64),
    /// Octets, for a hint of octets.
    Octets(&'a [u8]),
}

/// A display hint (RFC 2579, section 3.1), which borrows its text.
///
/// A hint of integers is `d`, `d-n` with `n` from 0 to 20, `x`, `o` or `b`. A hint of octets has
/// one or more specs. A spec has an optional `*`, a length of 0 to 65535 (0 to 8 for `x`, `d` and
/// `o`), a format `x`, `d`, `o`, `a` or `t`, and perhaps a separator. With both a `*` and a
/// separator it may have a terminator. The last spec is repeated while octets remain, so without a
/// `*` its length isn't 0.
#[derive(Drop)]
pub struct Hint<'a> {
    text: &'a [u8],
    form: HintForm<'a>,
}

/// The kind of a hint, and what was read of it.
#[derive(Clone, Copy, Debug)]
enum HintForm<'a> {
    /// A hint of integers.
    Number(NumberForm),
    /// A hint of octets: its first spec, and the text after that spec.
    Octets(Spec, &'a [u8]),
}

impl<'a> Model for Hint<'a> {
    ghost use Rattle.std.specs.Prelude.{List, ℕ};
    ghost use Rattle.smi_value.specs.hint.Form.{IsFormOf};

    ghost Value = { List ℕ };

    ghost view = { λ h. h.text.now };

    ghost invariant = { λ h. IsFormOf h.text.now h.form };
}

impl<'a> Hint<'a> {
    ghost use Rattle.smi_value.specs.hint.Hint.{IsOfNumbers, IsOfOctets, IsHintFor, Shows};

    /// Reads a hint. Returns `None` if `text` isn't one.
    pub fn parse(text: &'a [u8]) -> Option<Hint<'a>>
        ensures found { IfSome result (λ hint. hint ≡ text.now) }
        ensures some_of_hints { IsSome result ↔ (IsOfNumbers text.now ⊎ IsOfOctets text.now) }
    {
        if let Some(form) = number_form(text) {
            let form = HintForm::Number(form);
            return Some(Hint { text, form });
        }
        match octet_hint(text) {
            Some((first, ahead)) => {
                let form = HintForm::Octets(first, ahead);
                Some(Hint { text, form })
            }
            None => None,
        }
    }

    /// Returns whether this is a hint of integers. If it isn't, it is a hint of octets.
    pub fn is_number(&self) -> bool
        ensures true_of_numbers { IsTrue result ↔ IsOfNumbers self.now }
        ensures false_of_octets { (result ≡ false) ↔ IsOfOctets self.now }
    {
        match self.form {
            HintForm::Number(_) => true,
            HintForm::Octets(_, _) => false,
        }
    }

    /// Appends `value` as the hint shows it. `value` must be a number if this is a hint of
    /// integers, and octets if this is a hint of octets.
    pub fn append(&self, value: HintValue<'_>, draft: &mut Draft)
        requires { IsHintFor self.now value }
        ensures { (text : List ℕ) × Shows self.now value.entry text
            × Adds draft.old text draft.new }
    {
        match value {
            HintValue::Number(n) => match self.form {
                HintForm::Number(form) => append_number(draft, form, n),
                HintForm::Octets(_, _) => unreachable!(),
            },
            HintValue::Octets(octets) => match self.form {
                HintForm::Number(_) => unreachable!(),
                HintForm::Octets(first, ahead) => {
                    append_octets(draft, self.text, first, ahead, octets)
                }
            },
        }
    }
}
