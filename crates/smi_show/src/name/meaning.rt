//! Reads the identifier that a name means, part by part from the left.
ghost use Rattle.std.specs.Prelude.{◌≡◌, ◌<◌, ℕ, Bool, List, [], Ok, Err, IfErr, IfOk, IfSome, ◌≤◌};
ghost use Rattle.std.specs.Prelude.{MatchResult, OnOk, length, option_map, true};
ghost use Rattle.std.specs.Option.{option_copied};
ghost use Rattle.snmp_oid.specs.{Identifier.IsIdentifier, Numeric.IsNumericName};
ghost use Rattle.smi_value.specs.declared.letters.NameForm.{NameForm};
ghost use Rattle.smi_show.specs.name.Cutting.{name_parts, module_after};
ghost use Rattle.smi_show.specs.private.name.Left.{parts_left};
ghost use Rattle.smi_show.specs.name.Meaning.{further_meaning, meaning, meaning_in, or_unknown};
ghost use Rattle.smi_show.specs.name.Meaning.{part_meaning, plain_meaning, scoped_meaning};
ghost use Rattle.smi_show.specs.name.Meant.{PrefixMeans, TextMeans, found_in};
ghost use Rattle.smi_show.specs.{name.Name.IsName, name.Name.ReadsBack, private.name.Part.scope_in};
ghost use Rattle.smi_show.specs.private.name.NameResult.{meant_with, read_to};
ghost use Rattle.smi_tree.specs.Naming.{oid_of_child};

use crate::name::NameError;
use crate::name::cut::{cut_module, cut_part};
use crate::name::part::{Part, read_part};
use crate::name::piece::{push_number, push_piece};
use smi_tree::Tree;
use snmp_io::unquoted_prefix;
use snmp_oid::{Oid, StoredOid, leading_number, names, read_numeric};

/// Returns the identifier that a name means, or the first fault from the left. Doesn't allocate.
///
/// The name is `.`, or parts with dots between them, after `MODULE::`, a dot or neither. A number
/// stands for itself, `"text"` for its length and octets, `'text'` for its octets only. A label as
/// the first part is looked up in the module, among the roots after a leading dot, or in the whole
/// tree; a label as a later part among the children of the identifier that the parts before it
/// mean. What [`crate::name::name_text`] shows by module and label, or in numbers, is read back.
pub fn resolve(tree: &Tree, text: &[u8]) -> Result<Oid, NameError>
    ensures stated { TextMeans tree.now text.now result }
    // A name shown by module and label, or in numbers, means the identifier that it is the name of.
    ensures reads_back { (form : NameForm) (numeric_index : Bool) (o : List ℕ)
        → ReadsBack form → IsIdentifier o
        → IsName tree.now form numeric_index o text.now → result ≡ Ok o }
{
    tree.is_sound();
    names();
    meaning_of(tree, text)
}

/// Returns the identifier that a prefix of `text` means, and the length of this prefix. The prefix
/// ends before the first `stop` outside quotes; without one, it is all of `text`. Fails as
/// [`resolve`] does. Doesn't allocate.
pub fn resolve_front(tree: &Tree, text: &[u8], stop: u8) -> Result<(Oid, usize), NameError>
    ensures { PrefixMeans tree.now stop text.now result }
{
    let mut oid = Oid::new();
    let size = resolve_front_into(tree, text, stop, &mut oid)?;
    Ok((oid, size))
}

/// Does what [`resolve`] does, but stores the identifier in `oid`: moving an identifier takes as
/// long as reading one. After a fault `oid` may have any numbers.
pub fn resolve_into(tree: &Tree, text: &[u8], oid: &mut Oid) -> Result<(), NameError>
    ensures found { OnOk result (TextMeans tree.now text.now (Ok oid.new)) }
    ensures fault { IfErr result (λ why. TextMeans tree.now text.now (Err why)) }
{
    read_meaning(tree, text, oid)
}

/// Does what [`resolve_front`] does, but stores the identifier in `oid` and returns only the length
/// of the prefix. After a fault `oid` may have any numbers.
pub fn resolve_front_into(
    tree: &Tree,
    text: &[u8],
    stop: u8,
    oid: &mut Oid,
) -> Result<usize, NameError>
    ensures { MatchResult result
        (λ size. PrefixMeans tree.now stop text.now (Ok (oid.new, size)))
        (λ why. PrefixMeans tree.now stop text.now (Err why)) }
{
    let prefix = unquoted_prefix(text, stop);
    resolve_into(tree, prefix, oid)?;
    Ok(prefix.len())
}

/// Does what [`resolve`] does. Its contract has the function `meaning` in place of the relation
/// `TextMeans`.
fn meaning_of(tree: &Tree, text: &[u8]) -> Result<Oid, NameError>
    ensures { result ≡ meaning tree.now text.now }
{
    let mut oid = Oid::new();
    read_meaning(tree, text, &mut oid)?;
    Ok(oid)
}

/// Reads the identifier that `text` means into `oid`.
#[tactic(auto, using(crate::proofs::NumericNames::numeric_meaning))]
fn read_meaning(tree: &Tree, text: &[u8], oid: &mut Oid) -> Result<(), NameError>
    ensures { read_to result oid.new ≡ meaning tree.now text.now }
{
    if numbers_alone(text, oid) {
        return Ok(());
    }
    named_meaning(tree, text, oid)
}

/// Reads `text` into `oid` in one pass, if it begins with a dot or a digit and [`read_numeric`]
/// accepts it as an identifier in numbers. Returns whether it did. If not, `oid` may have any
/// numbers.
fn numbers_alone(text: &[u8], oid: &mut Oid) -> bool
    ensures { result ≡ true → IsNumericName text.now oid.new × (length oid.new ≤ 128) }
{
    match text {
        [b'.' | b'0'..=b'9', ..] => read_numeric(text, oid).is_ok(),
        _ => false,
    }
}

/// Reads the identifier that `text` means into `oid`, part by part, whatever parts it has.
fn named_meaning(tree: &Tree, text: &[u8], oid: &mut Oid) -> Result<(), NameError>
    ensures { read_to result oid.new ≡ meaning tree.now text.now }
{
    match text {
        [] => Err(NameError::Unknown),
        [b'.'] => {
            oid.clear();
            Ok(())
        }
        _ => scoped_meaning(tree, text, oid),
    }
}

/// Reads the identifier that `text` means into `oid`, if `text` is neither empty nor `.`. A module
/// may precede the parts.
fn scoped_meaning(tree: &Tree, text: &[u8], oid: &mut Oid) -> Result<(), NameError>
    ensures { read_to result oid.new
        ≡ scoped_meaning tree.now text.now (module_after None text.now) }
{
    match cut_module(text) {
        Some((home, rest)) => {
            if tree.has_module(home) {
                parts_meaning(tree, Scope::Module(home), rest, oid)
            } else {
                Err(NameError::Unknown)
            }
        }
        None => plain_meaning(tree, text, oid),
    }
}

/// Reads the identifier that `text`, a name without a module, means into `oid`.
fn plain_meaning(tree: &Tree, text: &[u8], oid: &mut Oid) -> Result<(), NameError>
    ensures { read_to result oid.new ≡ plain_meaning tree.now text.now }
{
    match text {
        [b'.', rest @ ..] => parts_meaning(tree, Scope::Root, rest, oid),
        _ => parts_meaning(tree, Scope::Anywhere, text, oid),
    }
}

/// Where the label of a name's first part is looked up.
#[derive(Clone, Copy)]
enum Scope<'a> {
    /// In the module before `::`.
    Module(&'a [u8]),
    /// In the whole tree, the roots before all others.
    Anywhere,
    /// Among the roots, after a leading dot.
    Root,
}

/// Reads the identifier that the parts in `text` mean into `oid`. A label as the first part is
/// looked up in `scope`.
fn parts_meaning(tree: &Tree, scope: Scope<'_>, text: &[u8], oid: &mut Oid) -> Result<(), NameError>
    ensures { let parts = name_parts text.now in
        read_to result oid.new
        ≡ meaning_in tree.now (scope_in scope.entry) parts }
{
    let left = first_meaning(tree, scope, text, oid)?;
    further_meaning(tree, left, oid)
}

/// Reads `parts`, if there are any. In the name they follow the parts that mean the identifier in
/// `oid`. Sets `oid` to the identifier that all of these parts mean.
fn further_meaning(tree: &Tree, parts: Option<&[u8]>, oid: &mut Oid) -> Result<(), NameError>
    ensures { let left = parts_left (option_map (λ rest. rest.now) parts.entry) in
        read_to result oid.new ≡ further_meaning tree.now oid.old left }
{
    let mut left = parts;
    'parts: while let Some(here) = left {
        left = next_meaning(tree, here, oid)?;
    }
    Ok(())
}

/// Reads the identifier that the first part of a name means into `oid`. Returns the text after the
/// dot that follows the part, if there is one.
fn first_meaning<'b>(
    tree: &Tree,
    scope: Scope<'_>,
    text: &'b [u8],
    oid: &mut Oid,
) -> Result<Option<&'b [u8]>, NameError>
    ensures { let parts = name_parts text.now in
        meant_with tree.now result oid.new
        ≡ meaning_in tree.now (scope_in scope.entry) parts }
{
    let (part, rest) = cut_part(text);
    head_meaning(tree, scope, part, oid)?;
    Ok(rest)
}

/// Reads the first part of `text`. In the name it follows the parts that mean the identifier in
/// `oid`. Sets `oid` to the identifier with this part, and returns the text after the dot that
/// follows the part, if there is one.
fn next_meaning<'b>(
    tree: &Tree,
    text: &'b [u8],
    oid: &mut Oid,
) -> Result<Option<&'b [u8]>, NameError>
    ensures meant { let parts = name_parts text.now in
        meant_with tree.now result oid.new
        ≡ further_meaning tree.now oid.old parts }
    ensures shorter { IfOk result (λ left.
        IfSome left (λ rest. length rest.now < length text.now)) }
{
    // Most further parts are numbers of a few digits.
    if let Some((number, rest)) = leading_number(text) {
        return match push_number(oid, number) {
            Ok(()) => Ok(rest),
            Err(fault) => Err(fault),
        };
    }
    let (part, rest) = cut_part(text);
    part_meaning(tree, part, oid)?;
    Ok(rest)
}

/// Sets `oid` to the identifier that `part`, the first part of a name, means. A label is looked up
/// in `scope`.
fn head_meaning(tree: &Tree, scope: Scope<'_>, part: &[u8], oid: &mut Oid) -> Result<(), NameError>
    ensures { let look_up = found_in tree.now (scope_in scope.entry) in
        read_to result oid.new ≡ part_meaning look_up [] part.now }
{
    match read_part(part)? {
        Part::Piece(piece) => {
            oid.clear();
            push_piece(oid, piece)
        }
        Part::Label(label) => copy_if_known(oid_of_label(tree, scope, label), oid),
    }
}

/// Returns the identifier of the node with the label `label` in `scope`, if there is one.
fn oid_of_label<'t>(tree: &'t Tree, scope: Scope<'_>, label: &[u8]) -> Option<&'t StoredOid>
    ensures { option_copied result
        ≡ found_in tree.now (scope_in scope.entry) label.now }
{
    match scope {
        Scope::Module(home) => tree.in_module(home, label),
        Scope::Anywhere => tree.anywhere(label),
        Scope::Root => tree.among_roots(label),
    }
}

/// Reads `part`, a later part of a name, which follows the parts that mean the identifier in
/// `oid`. Sets `oid` to the identifier with this part.
fn part_meaning(tree: &Tree, part: &[u8], oid: &mut Oid) -> Result<(), NameError>
    ensures { let look_up = oid_of_child tree.now oid.old in
        read_to result oid.new ≡ part_meaning look_up oid.old part.now }
{
    match read_part(part)? {
        Part::Piece(piece) => push_piece(oid, piece),
        Part::Label(label) => copy_if_known(tree.child_oid(oid, label), oid),
    }
}

/// Copies `found` to `oid`, or fails with `Unknown` if it is `None`.
fn copy_if_known(found: Option<&StoredOid>, oid: &mut Oid) -> Result<(), NameError>
    ensures { read_to result oid.new ≡ or_unknown (option_copied found.entry) }
{
    oid.set_to_numbers(found.ok_or(NameError::Unknown)?.as_slice());
    Ok(())
}
