//! What names resolve to. If the identifier value of a definition begins with a name without a
//! number, then the definition's identifier, if it has one, is the identifier of that name
//! followed by the numbers of the other parts.
ghost use Rattle.std.specs.Prelude.{◌≡◌, ℕ, List, IfOk, is_some, option_map};
ghost use Rattle.smi_names.specs.chains.Resolution.{far_at, resolution_by, resolutions_at};
ghost use Rattle.smi_names.specs.chains.Resolution.{AreWithin};
ghost use Rattle.smi_names.specs.chains.Resolution.{HasReasons, GrowsTo};
ghost use Rattle.smi_names.specs.meaning.Meaning.{arcs as arcs_of, origin_of_parts};

use crate::chains::{Resolution, UNRESOLVED, push_extended, resolve_through};
use crate::meaning::along::References;
use smi_text::{Def, Name, Part};
use std::alloc::{AllocError, Global};

/// For its identifier, a definition refers to the name at the start of its identifier value, if
/// the name has no number and each part after it has one (RFC 2578, section 7.10).
pub(crate) struct Parents;

impl References for Parents {
    ghost use Rattle.smi_names.specs.meaning.Parents.{parent_of};

    ghost refers_to = { parent_of };

    fn reference(def: &Def) -> Option<&Name> {
        let [Part::Name(name), rest @ ..] = def.identifier()?.as_slice() else {
            return None;
        };
        if are_numbered(rest) { Some(name) } else { None }
    }
}

/// Returns whether each part has a number.
fn are_numbered(parts: &[Part]) -> bool
    ensures { result ≡ is_some (arcs_of parts.now) }
{
    parts.iter().all(|part| part.number().is_some())
}

/// Returns the numbers of the parts, if each has one.
#[tactic(auto, using(crate::proofs::FirstPosition::arcs_none, crate::proofs::FirstPosition::arcs_push, std::proofs::lemmas::List::take_more, std::proofs::lemmas::Grind::common_steps))]
fn arcs(alloc: Global, parts: &[Part]) -> Result<Option<Vec<u32>>, AllocError>
    ensures { IfOk result (λ numbers. option_map (λ v. v.items) numbers ≡ arcs_of parts.now) }
{
    let mut numbers = Vec::new(alloc);
    'parts: for part in parts {
        match part.number() {
            Some(number) => numbers.push(number)?,
            None => return Ok(None),
        }
    }
    Ok(Some(numbers))
}

/// Returns the index in `list` of what a name with the identifier value `parts` resolves to; a new
/// identifier is appended. If `parts` is a name without a number, followed by parts with numbers,
/// then `to` is the index of that name, past the end if the name has no meaning, and `indices[to]`
/// is the index in `list` of what the name resolves to. No `Vec` is made for the usual value, a
/// name and one number.
pub(crate) fn by_parts(
    alloc: Global,
    list: &mut Vec<Resolution>,
    indices: &[usize],
    to: Option<usize>,
    parts: &[Part],
) -> Result<usize, AllocError>
    requires reasons { HasReasons list.old.items }
    requires within { AreWithin list.old.items indices.now }
    ensures grown { IfOk result (λ at. (home : List ℕ) → GrowsTo list.old.items list.new.items at
        (resolution_by (origin_of_parts home parts.now)
        (far_at (resolutions_at list.old.items indices.now) to))) }
{
    match parts {
        [] => Ok(UNRESOLVED),
        [Part::Name(_), part] => match part.number() {
            Some(number) => resolve_through(alloc, list, indices, to, &[number]),
            None => Ok(UNRESOLVED),
        },
        [Part::Name(_), rest @ ..] => match arcs(alloc, rest)? {
            Some(numbers) => resolve_through(alloc, list, indices, to, &numbers),
            None => Ok(UNRESOLVED),
        },
        _ => match arcs(alloc, parts)? {
            Some(numbers) => push_extended(alloc, list, &numbers),
            None => Ok(UNRESOLVED),
        },
    }
}
