//! Appends values to a `Vec<u8>` as display hints show them.
ghost use Rattle.std.specs.Prelude.{◌≡◌, List, ℕ, ◌++◌, OnOk, OnErr};
ghost use Rattle.smi_value.specs.hint.Hint.{IsHintFor, Shows};
ghost use Rattle.smi_value.specs.declared.hint.HintValue.{HintValue};

use crate::hint::{Hint, HintValue};
use snmp_io::Draft;
use std::alloc::AllocError;

/// Appends `value` to `out` as `hint` shows it. Fails if memory runs out; `out` is then unchanged.
///
/// The value must be a number for a hint of integers, and octets for a hint of octets.
pub fn write_hint(
    hint: &Hint<'_>,
    value: HintValue<'_>,
    out: &mut Vec<u8>,
) -> Result<(), AllocError>
    requires { IsHintFor hint.now value }
    ensures ok { OnOk result ((text : List ℕ) × Shows hint.now value.entry text
        × (out.new.items ≡ out.old.items ++ text)) }
    ensures unchanged_on_error { OnErr result (out.new.items ≡ out.old.items) }
{
    let mut draft = Draft::after(out);
    hint.append(value, &mut draft);
    draft.finish(out)
}

/// A hint shows a value as only one text.
///
/// A law: the call does nothing, and its caller may use what it ensures.
pub fn one_text()
    ensures { (hint : List ℕ) (value : HintValue) (first second : List ℕ)
        → Shows hint value first → Shows hint value second → first ≡ second }
{}
