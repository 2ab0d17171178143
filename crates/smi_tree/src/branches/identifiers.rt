//! A list of object identifiers, with the branches of their prefixes.
ghost use Rattle.std.specs.Prelude.{◌≡◌, ◌<◌, ◌≤◌, ℕ, List, [], ◌∷◌, ◌++◌, length, IfOk};
ghost use Rattle.std.specs.Prelude.{MatchOption, IfSome, Some};
ghost use Rattle.std.specs.{Ordering.nat_cmp, BTreeMap.get};
ghost use Rattle.std.specs.Iterator.{YieldsFirst, item_count};
ghost use Rattle.smi_tree.specs.branches.FirstIndex.{first_index, oid_at, IsDeepestAt};
ghost use Rattle.smi_tree.specs.branches.FirstIndex.{HasNoBeginning};
ghost use Rattle.smi_tree.specs.branches.FirstIndex.{AreChildren, HasNoneBelow};
ghost use Rattle.smi_tree.specs.branches.Branches.{AreBranchesOf, IsUnderWay, branch_of};
ghost use Rattle.smi_tree.specs.branches.Branches.{id_at, deeper_of};
ghost use Rattle.smi_tree.specs.branches.Children.{IsLowerChild, ids_left};

use crate::branches::branch::{Branch, add, first, next};
use snmp_oid::{Oid, StoredOid};
use std::alloc::{AllocError, Global};
use std::collections::BTreeMap;
use std::collections::btree_map::Iter;
use std::marker::Model;

/// A list of object identifiers, which are found number by number. Each is known by its index in
/// the list.
///
/// If an identifier occurs more than once, its first index represents it.
#[derive(Drop)]
pub struct Identifiers {
    oids: Vec<StoredOid>,
    branches: Vec<Branch>,
    /// An empty map, for numbers with which no identifier begins.
    nothing: BTreeMap<u32, usize>,
}

impl Model for Identifiers {
    ghost use Rattle.std.specs.Prelude.{List, [], ◌≡◌, ℕ};
    ghost use Rattle.smi_tree.specs.branches.Branches.{AreBranchesOf};

    ghost Value = { List (List ℕ) };

    ghost view = { λ s. s.oids.items };

    ghost invariant = { λ s.
        AreBranchesOf s.oids.items s.branches.items × (s.nothing.entries ≡ []) };
}

/// The longest prefix of an identifier that is in a list.
#[derive(Clone, Copy, Debug)]
pub struct Deepest {
    /// The first index of the prefix in the list.
    pub id: usize,
    /// The number of numbers in the prefix.
    pub depth: usize,
    /// The index of the branch of the prefix.
    branch: usize,
}

impl Identifiers {
    /// Returns the list of these identifiers, ready to be searched.
    pub fn new(alloc: Global, oids: Vec<StoredOid>) -> Result<Identifiers, AllocError>
        ensures { IfOk result (λ identifiers. identifiers ≡ oids.items) }
    {
        let mut branches = first(alloc)?;
        let mut last: &[u32] = &[];
        let mut way = [0; 129];
        'indices: for id in 0..oids.len() {
            add(alloc, &mut branches, &oids, id, last, &mut way)?;
            last = oids[id].as_slice();
        }
        Ok(Identifiers {
            oids,
            branches,
            nothing: BTreeMap::new(alloc),
        })
    }

    /// Returns the number of identifiers.
    pub fn len(&self) -> usize
        ensures { result ≡ length self.now }
    {
        self.oids.len()
    }

    /// Returns the identifier at index `id`, which must be below `len()`.
    pub fn get(&self, id: usize) -> &StoredOid
        requires { id < length self.now }
        ensures { result.now ≡ oid_at self.now id }
    {
        &self.oids[id]
    }

    /// Returns the first index of `oid`, if it is in the list.
    pub fn find(&self, oid: &Oid) -> Option<usize>
        ensures { result ≡ first_index self.now oid.now }
    {
        self.find_numbers(oid.as_slice())
    }

    /// Returns the first index of the identifier with these numbers, if it is in the list.
    #[tactic(auto, using(crate::proofs::BranchLists::index_off))]
    pub(crate) fn find_numbers(&self, numbers: &[u32]) -> Option<usize>
        ensures { result ≡ first_index self.now numbers.now }
    {
        let at = branch_of(&self.branches, numbers)?;
        id_at(&self.branches, at)
    }

    /// Returns the longest prefix of `oid` that is in the list, if any is. `oid` itself counts as
    /// a prefix. `near` is a guess of the branch to begin with: the branch of the prefix that was
    /// found last, or 0 at first. If a prefix is found now, `near` is set to its branch. The
    /// result doesn't depend on `near`.
    pub fn deepest_near(&self, oid: &Oid, near: &mut usize) -> Option<Deepest>
        ensures { MatchOption result
            (HasNoBeginning self.now oid.now)
            (λ deepest. IsDeepestAt self.now oid.now deepest.id deepest.depth) }
    {
        let found = match deepest_at(&self.oids, &self.branches, oid, *near) {
            Some(known) => deepest_from(
                &self.oids,
                &self.branches,
                oid,
                known.depth,
                known.branch,
                Some(known),
            ),
            None => deepest_of_all(&self.oids, &self.branches, oid),
        };
        if let Some(deepest) = found {
            *near = deepest.branch;
        }
        found
    }

    /// Returns the identifier at index `id` if none in the list is below it. `near` is the
    /// value that `deepest_near` left when it found `id`; with any other, returns `None`.
    pub fn last_on_way(&self, id: usize, near: usize) -> Option<&StoredOid>
        ensures at { IfSome result (λ o. o.now ≡ oid_at self.now id) }
        ensures last { IfSome result (λ o. HasNoneBelow self.now o.now) }
    {
        let branch = self.branches.get(near)?;
        match branch.node_id {
            Some(node_id) if node_id == id && branch.after.is_empty() => self.oids.get(id),
            _ => None,
        }
    }

    /// Returns an iterator over the identifiers that have `oid` as a prefix and are one number
    /// longer, in increasing order of that number. It returns the first index of each.
    pub fn children(&self, oid: &Oid) -> Children<'_>
        ensures { AreChildren self.now oid.now (ids_left result) }
    {
        let after = after(&self.branches, &self.nothing, oid.as_slice());
        Children {
            branches: &self.branches,
            left: after.iter(),
        }
    }

    /// Returns the lower, by the last number, of two children of `oid`: `child`, and the
    /// identifier at index `id`, which counts only if it is a child of `oid` and `id` is its first
    /// index. Returns `None` if there is neither. A child is represented by its last number and
    /// its first index.
    pub(crate) fn lower_child(
        &self,
        oid: &Oid,
        child: Option<(u32, usize)>,
        id: usize,
    ) -> Option<(u32, usize)>
        requires { id < length self.now }
        ensures { IsLowerChild self.now oid.now child id result }
    {
        let numbers = self.get(id).as_slice();
        let Some((number, prefix)) = numbers.split_last() else {
            return child;
        };
        if prefix != oid.as_slice() || self.find_numbers(numbers) != Some(id) {
            return child;
        }
        match child {
            Some(lower) if lower.0 <= *number => child,
            _ => Some((*number, id)),
        }
    }
}

/// Returns the index of the branch that `numbers` reach from the first branch, if there is one.
#[tactic(auto, using(crate::proofs::BranchLists::branch_more, crate::proofs::BranchLists::branch_off))]
fn branch_of(branches: &[Branch], numbers: &[u32]) -> Option<usize>
    ensures { result ≡ branch_of branches.now numbers.now }
{
    let mut at = 0;
    'numbers: for number in numbers {
        at = next(branches, at, *number)?;
    }
    Some(at)
}

/// Returns the index that is stored at the branch `at`, if there is one.
fn id_at(branches: &[Branch], at: usize) -> Option<usize>
    ensures { result ≡ id_at branches.now at }
{
    branches.get(at)?.node_id
}

/// Returns the prefix of the branch `at`, which has `depth` numbers, if it is in the list;
/// otherwise `deepest`, the longest one found before.
fn deeper(branches: &[Branch], at: usize, depth: usize, deepest: Option<Deepest>) -> Option<Deepest>
    ensures { result ≡ deeper_of (id_at branches.now at) at depth deepest }
{
    match id_at(branches, at) {
        Some(id) => Some(Deepest {
            id,
            depth,
            branch: at,
        }),
        None => deepest,
    }
}

/// Returns the prefix of the branch `at`, if it is in the list and `oid` is below it.
fn deepest_at(oids: &[StoredOid], branches: &[Branch], oid: &Oid, at: usize) -> Option<Deepest>
    requires { AreBranchesOf oids.now branches.now }
    ensures { IfSome result (λ d.
        IsUnderWay oids.now branches.now oid.now d.depth d.branch (Some d)) }
{
    let id = id_at(branches, at)?;
    let known = oids.get(id)?;
    let numbers = known.as_slice();
    if !oid.is_below_numbers(numbers) {
        return None;
    }
    Some(Deepest {
        id,
        depth: numbers.len(),
        branch: at,
    })
}

/// Returns the longest prefix of `oid` that is in the list, if any is. Searches from the first
/// branch.
fn deepest_of_all(oids: &[StoredOid], branches: &[Branch], oid: &Oid) -> Option<Deepest>
    requires { AreBranchesOf oids.now branches.now }
    ensures { MatchOption result
        (HasNoBeginning oids.now oid.now)
        (λ deepest. IsDeepestAt oids.now oid.now deepest.id deepest.depth) }
{
    deepest_from(oids, branches, oid, 0, 0, deeper(branches, 0, 0, None))
}

/// Returns the longest prefix of `oid` that is in the list, if any is. Searches from `branch`,
/// which the first `depth` numbers of `oid` reach. `before` is the longest prefix of at most
/// `depth` numbers that is in the list.
fn deepest_from(
    oids: &[StoredOid],
    branches: &[Branch],
    oid: &Oid,
    depth: usize,
    branch: usize,
    before: Option<Deepest>,
) -> Option<Deepest>
    requires branches { AreBranchesOf oids.now branches.now }
    requires way { IsUnderWay oids.now branches.now oid.now depth branch before }
    ensures { MatchOption result
        (HasNoBeginning oids.now oid.now)
        (λ deepest. IsDeepestAt oids.now oid.now deepest.id deepest.depth) }
{
    let numbers = oid.as_slice();
    let mut at = branch;
    let mut deepest = before;
    'numbers: for i in depth..numbers.len() {
        let Some(longer) = next(branches, at, numbers[i]) else {
            break;
        };
        at = longer;
        deepest = deeper(branches, at, i + 1, deepest);
    }
    deepest
}

/// Returns the numbers that follow `numbers` in identifiers, each with the index of the branch
/// that is reached by `numbers` and then this number.
#[tactic(auto, using(std::proofs::lemmas::Option::slice_get_read, std::proofs::lemmas::Option::slice_get_past, crate::proofs::BranchWalks::walk_push))]
fn after<'a>(
    branches: &'a [Branch],
    nothing: &'a BTreeMap<u32, usize>,
    numbers: &[u32],
) -> &'a BTreeMap<u32, usize>
    requires { nothing.now.entries ≡ [] }
    ensures { (n : ℕ) → get nat_cmp result.now n ≡ branch_of branches.now (numbers.now ++ n ∷ []) }
{
    let Some(at) = branch_of(branches, numbers) else {
        return nothing;
    };
    match branches.get(at) {
        Some(branch) => &branch.after,
        None => nothing,
    }
}

/// An iterator over the identifiers that have a certain identifier as a prefix and are one number
/// longer, in increasing order of that number. It returns the first index of each.
#[derive(Drop)]
pub struct Children<'a> {
    branches: &'a [Branch],
    left: Iter<'a, u32, usize>,
}

impl Iterator for Children<'_> {
    type Item = usize;

    ghost next_gives = { YieldsFirst ids_left };

    ghost remaining = { item_count ids_left };

    fn next(&mut self) -> Option<usize> {
        'left: while let Some((_number, at)) = self.left.next() {
            if let Some(id) = id_at(self.branches, *at) {
                return Some(id);
            }
        }
        None
    }
}
