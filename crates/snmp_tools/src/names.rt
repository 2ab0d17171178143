//! Names in arguments: each is looked up, and it is checked that each name of a Get can be sent.
ghost use Rattle.std.specs.Prelude.{◌≡◌, ◌⊎◌, List, ℕ, All, IfErr, IfOk, Ok, OnOk, Some, length};
ghost use Rattle.std.specs.Prelude.{option_map};
ghost use Rattle.smi_show.specs.name.Meant.{TextMeans};
ghost use Rattle.snmp_oid.specs.Identifier.{IsWire, wire};
ghost use Rattle.snmp_words.specs.Words.{texts_at};
ghost use Rattle.snmp_tools.specs.{Asking.IsOptionalName, Asking.NameFails, FaultText.fault_of};
ghost use Rattle.snmp_tools.specs.{FaultText.out_of_memory};
ghost use Rattle.snmp_tools.specs.Question.{AreNames, HasMeaning, HasSendable, HasUnsendable};
ghost use Rattle.snmp_io.specs.Steps.{IsFirstToFail};
ghost use Rattle.smi_tree.specs.{Tree.Contents};

use crate::failure::Failure;
use smi_show::{resolve, resolve_into};
use smi_tree::Tree;
use snmp_oid::Oid;
use std::alloc::Global;

/// Returns the identifier that the name `text` means.
pub(crate) fn name<'a>(tree: &Tree, text: &'a str) -> Result<Oid, Failure<'a>>
    ensures ok { IfOk result (λ o. TextMeans tree.now text.entry.now (Ok o)) }
    ensures err { IfErr result (λ e. NameFails tree.now text.entry.now (fault_of e)) }
{
    match resolve(tree, text.as_bytes()) {
        Ok(name) => Ok(name),
        Err(error) => Err(Failure::Name(text, error)),
    }
}

/// Reads the identifier that the name `text` means into `oid`. After an error, `oid` may have any
/// numbers.
pub(crate) fn read_name<'a>(tree: &Tree, text: &'a str, oid: &mut Oid) -> Result<(), Failure<'a>>
    ensures ok { OnOk result (TextMeans tree.now text.entry.now (Ok oid.new)) }
    ensures err { IfErr result (λ e. NameFails tree.now text.entry.now (fault_of e)) }
{
    match resolve_into(tree, text.as_bytes(), oid) {
        Ok(()) => Ok(()),
        Err(error) => Err(Failure::Name(text, error)),
    }
}

/// Returns the identifier that the name `text` means, or `None` if `text` is `None`.
pub(crate) fn optional_name<'a>(
    tree: &Tree,
    text: Option<&'a str>,
) -> Result<Option<Oid>, Failure<'a>>
    ensures ok { IfOk result (IsOptionalName tree.now (option_map (λ t. t.now) text.entry)) }
    ensures err { IfErr result (λ e.
        (t : List ℕ) × (option_map (λ t. t.now) text.entry ≡ Some t)
        × NameFails tree.now t (fault_of e)) }
{
    match text {
        None => Ok(None),
        Some(text) => Ok(Some(name(tree, text)?)),
    }
}

/// Returns the identifiers that the names `texts` mean, in order. Fails at the first that means
/// none, or if memory runs out.
pub(crate) fn read_names<'a>(
    alloc: Global,
    tree: &Tree,
    texts: &[&'a str],
) -> Result<Vec<Oid>, Failure<'a>>
    ensures named { IfOk result (λ names. AreNames tree.now (texts_at texts.now) names.items) }
    ensures err { IfErr result (λ e. (fault_of e ≡ out_of_memory)
        ⊎ IsFirstToFail (texts_at texts.now) (HasMeaning tree.now) (NameFails tree.now)
        (fault_of e)) }
{
    let mut names = Vec::new(alloc);
    'texts: for text in texts {
        names.push(name(tree, text)?).map_err(|_| Failure::Memory)?;
    }
    Ok(names)
}

/// Checks that each name has an encoding, perhaps padded with zeros to two numbers. `texts[i]` is
/// the argument that `names[i]` came from; the error holds the argument of the first name that
/// has none.
pub(crate) fn check_names<'a>(texts: &[&'a str], names: &[Oid]) -> Result<(), Failure<'a>>
    requires { length names.now ≡ length texts.now }
    ensures sendable { OnOk result (All (λ o. IsWire (wire o)) names.now) }
    ensures err { (mib : Contents) → AreNames mib (texts_at texts.now) names.now
        → IfErr result (λ e. IsFirstToFail (texts_at texts.now) (HasSendable mib)
        (HasUnsendable mib) (fault_of e)) }
{
    'names: for (index, name) in names.iter().enumerate() {
        let Ok(_) = name.to_wire() else {
            return Err(Failure::NotWire(texts[index]));
        };
    }
    Ok(())
}
