//! What names resolve to. An imported name shares the resolution of the name that it imports.
ghost use Rattle.std.specs.Prelude.{◌≡◌, ◌<◌, ◌∷◌, [], length, option_map, IfOk};
ghost use Rattle.std.specs.List.{slice_get};
ghost use Rattle.smi_names.specs.chains.Resolution.{extend_identifier, extend_resolution_by};
ghost use Rattle.smi_names.specs.chains.Resolution.{far_at, resolution_at};
ghost use Rattle.smi_names.specs.chains.Resolution.{resolutions_at, AreWithin, HasReasons, GrowsTo};

use snmp_oid::{MAX_LEN, StoredOid};
use std::alloc::{AllocError, Global};

/// What a name resolves to: its identifier, or the reason why it has none.
#[derive(Debug, Drop)]
pub enum Resolution {
    /// The name's identifier, of at most 128 numbers.
    Numbers(StoredOid),
    /// The name's chain, from name to name, has no end.
    Cycle,
    /// The name's chain ends at a name that isn't defined, or whose definition yields no
    /// identifier.
    Unresolved,
    /// The name's identifier would have more than 128 numbers (RFC 2578, section 3.5).
    TooLong,
}

/// The index of `Unresolved` in the list of a `Shared`.
pub(crate) const UNRESOLVED: usize = 0;

/// The index of `Cycle` in the list of a `Shared`.
pub(crate) const CYCLE: usize = 1;

/// The index of `TooLong` in the list of a `Shared`.
const TOO_LONG: usize = 2;

/// What names resolve to, by the index of the name. An imported name shares the resolution of the
/// name that it imports, and all names without an identifier share three, one for each reason.
#[derive(Drop)]
pub(crate) struct Shared {
    /// The resolutions.
    pub(crate) list: Vec<Resolution>,
    /// For each name, the index of its resolution in `list`.
    pub(crate) indices: Vec<usize>,
}

impl Shared {
    /// Returns what the name at `index` resolves to, or `None` if no name has that index.
    pub(crate) fn get(&self, index: usize) -> Option<&Resolution>
        requires { AreWithin self.now.list.items self.now.indices.items }
        ensures { slice_get (resolutions_at self.now.list.items self.now.indices.items) index
            ≡ option_map (λ r. r.now) result }
    {
        let at = self.indices.get(index)?;
        Some(&self.list[*at])
    }
}

/// Returns a list of the three reasons for having no identifier, with room for `more` resolutions.
pub(crate) fn reasons(alloc: Global, more: usize) -> Result<Vec<Resolution>, AllocError>
    ensures { IfOk result (λ list. list.items
        ≡ Resolution.Unresolved ∷ Resolution.Cycle ∷ Resolution.TooLong ∷ []) }
{
    let mut list = Vec::with_capacity(alloc, more.saturating_add(3))?;
    list.push(Resolution::Unresolved)?;
    list.push(Resolution::Cycle)?;
    list.push(Resolution::TooLong)?;
    Ok(list)
}

/// Resolves a name that refers to another: its identifier is the other's, followed by `numbers`.
/// For an import these are empty. Returns the index of its resolution in `list`. `to` is the index
/// of the other name, and `indices[to]` is the index of the other's resolution. The two names
/// share that resolution if it isn't an identifier or `numbers` is empty. Otherwise the new
/// identifier is appended to `list`, unless it is too long: then the result is the index of
/// `TooLong`. Returns the index of `Unresolved` if `to` is `None` or past the end of `indices`.
pub(crate) fn resolve_through(
    alloc: Global,
    list: &mut Vec<Resolution>,
    indices: &[usize],
    to: Option<usize>,
    numbers: &[u32],
) -> Result<usize, AllocError>
    requires reasons { HasReasons list.old.items }
    requires within { AreWithin list.old.items indices.now }
    ensures grown { IfOk result (λ at. GrowsTo list.old.items list.new.items at
        (extend_resolution_by (far_at (resolutions_at list.old.items indices.now) to) numbers.now)) }
{
    let Some(index) = to else {
        return Ok(UNRESOLVED);
    };
    match indices.get(index) {
        Some(at) => extend_resolution(alloc, list, *at, numbers),
        None => Ok(UNRESOLVED),
    }
}

/// Appends the identifier at index `at` of `list`, followed by `numbers`, to `list`, and returns
/// the index of what was appended. Returns `at` and appends nothing if the resolution there isn't
/// an identifier or `numbers` is empty. If the new identifier would be too long, appends nothing
/// and returns the index of `TooLong`.
fn extend_resolution(
    alloc: Global,
    list: &mut Vec<Resolution>,
    at: usize,
    numbers: &[u32],
) -> Result<usize, AllocError>
    requires reasons { HasReasons list.old.items }
    requires inside { at < length list.old.items }
    ensures grown { IfOk result (λ to. GrowsTo list.old.items list.new.items to
        (extend_resolution_by (resolution_at list.old.items at) numbers.now)) }
{
    let Resolution::Numbers(oid) = &list[at] else {
        return Ok(at);
    };
    let prefix = oid.as_slice();
    // Without more numbers, as for an import, the identifier is the same.
    if numbers.is_empty() {
        return Ok(at);
    }
    if numbers.len() > MAX_LEN - prefix.len() {
        return Ok(TOO_LONG);
    }
    let longer = StoredOid::join(alloc, prefix, numbers)?;
    push(list, longer)
}

/// Appends the identifier `numbers` to `list`, and returns its index. If it would be too long,
/// appends nothing and returns the index of `TooLong`.
pub(crate) fn push_extended(
    alloc: Global,
    list: &mut Vec<Resolution>,
    numbers: &[u32],
) -> Result<usize, AllocError>
    requires reasons { HasReasons list.old.items }
    ensures grown { IfOk result (λ to. GrowsTo list.old.items list.new.items to
        (extend_identifier [] numbers.now)) }
{
    if numbers.len() > MAX_LEN {
        return Ok(TOO_LONG);
    }
    let oid = StoredOid::join(alloc, numbers, &[])?;
    push(list, oid)
}

/// Appends an identifier to the list, and returns its index.
fn push(list: &mut Vec<Resolution>, oid: StoredOid) -> Result<usize, AllocError>
    ensures grown { IfOk result (λ to. GrowsTo list.old.items list.new.items to
        (Resolution.Numbers oid)) }
{
    let at = list.len();
    list.push(Resolution::Numbers(oid))?;
    Ok(at)
}
