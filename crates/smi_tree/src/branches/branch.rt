//! The branches of a list of identifiers: for each prefix of an identifier, the numbers that
//! follow it, in order, and the index of the prefix itself, if it is in the list.
//!
//! From the branch of a prefix, a number reaches the branch of the prefix with that number added.
ghost use Rattle.std.specs.Prelude.{◌≡◌, ◌<◌, ◌≤◌, ◌+◌, ℕ, List, [], ◌∷◌, ◌++◌, length, take, IfOk};
ghost use Rattle.std.specs.Prelude.{Some, None, option_copied};
ghost use Rattle.smi_tree.specs.branches.Branches.{follower, GrowsBranch, AreBranchesOf, IsWay};
ghost use Rattle.smi_tree.specs.branches.FirstIndex.{oid_at};

use snmp_oid::StoredOid;
use std::alloc::{AllocError, Global};
use std::collections::BTreeMap;

/// What follows a prefix of an identifier, and the index of the prefix.
#[derive(Drop)]
pub(crate) struct Branch {
    /// For each number that follows, the index of the branch of the prefix with this number
    /// appended.
    pub(crate) after: BTreeMap<u32, usize>,
    /// The first index of the prefix in the list of identifiers, if it is in the list.
    pub(crate) node_id: Option<usize>,
}

/// Returns the index of the branch that `number` reaches from the branch `at`, if there is one.
pub(crate) fn next(branches: &[Branch], at: usize, number: u32) -> Option<usize>
    ensures { result ≡ follower branches.now at number }
{
    let branch = branches.get(at)?;
    branch.after.get(&number).copied()
}

/// Returns the index of the branch that `number` reaches from the branch `at`. Adds the branch if
/// there is none.
fn grow(
    alloc: Global,
    branches: &mut Vec<Branch>,
    at: usize,
    number: u32,
) -> Result<usize, AllocError>
    requires { at < length branches.old.items }
    ensures grows { IfOk result (GrowsBranch branches.old.items branches.new.items at number) }
{
    if let Some(id) = next(branches, at, number) {
        return Ok(id);
    }
    let id = branches.len();
    branches.push(Branch {
        after: BTreeMap::new(alloc),
        node_id: None,
    })?;
    let branch = &mut branches[at];
    branch.after.insert(number, id)?;
    Ok(id)
}

/// Returns a list of only the first branch. It belongs to the empty prefix, and no number follows.
pub(crate) fn first(alloc: Global) -> Result<Vec<Branch>, AllocError>
    ensures { IfOk result (λ branches. AreBranchesOf [] branches.items) }
{
    let mut branches = Vec::new(alloc);
    branches.push(Branch {
        after: BTreeMap::new(alloc),
        node_id: None,
    })?;
    Ok(branches)
}

/// The branches of the identifier that was added last: at index `n`, from 0 to the identifier's
/// length, the index of the branch of its first `n` numbers. An identifier has at most 128
/// numbers.
pub(crate) type Way = [usize; 129];

/// Returns the length of the longest common prefix of `a` and `b`.
fn common_prefix_len(a: &[u32], b: &[u32]) -> usize
    ensures within { result ≤ length a.now }
    ensures too { result ≤ length b.now }
    ensures same { take result a.now ≡ take result b.now }
{
    let mut count = 0;
    'numbers: while count < a.len() && count < b.len() && a[count] == b[count] {
        count += 1;
    }
    count
}

/// Adds the branches of the identifier at index `id` to `branches`, which has the branches of the
/// identifiers before it, and stores `id` at the last of them if no index is stored there.
///
/// `last` is the identifier that was added last, or empty, and `way` has its branches. Successive
/// identifiers mostly share a prefix, so only the numbers after this prefix are followed. If the
/// call succeeds, `way` then has the branches of the new identifier.
pub(crate) fn add(
    alloc: Global,
    branches: &mut Vec<Branch>,
    oids: &[StoredOid],
    id: usize,
    last: &[u32],
    way: &mut Way,
) -> Result<(), AllocError>
    requires within { id < length oids.now }
    requires before { AreBranchesOf (take id oids.now) branches.old.items }
    requires on_way { IsWay branches.old.items last.now way.old }
    ensures added { IfOk result
        (λ _. AreBranchesOf (take (id + 1) oids.now) branches.new.items) }
    ensures on_way { IfOk result (λ _. IsWay branches.new.items (oid_at oids.now id) way.new) }
{
    let numbers = oids[id].as_slice();
    let from = common_prefix_len(last, numbers);
    let mut at = way[from];
    'numbers: for i in from..numbers.len() {
        at = grow(alloc, branches, at, numbers[i])?;
        way[i + 1] = at;
    }
    let branch = &mut branches[at];
    if branch.node_id.is_none() {
        branch.node_id = Some(id);
    }
    Ok(())
}
