//! The indices whose chains end, in an order: each comes after the index that it refers to, unless
//! it refers past the end of the list.
ghost use Rattle.std.specs.Prelude.{◌≡◌, ◌≢◌, ◌⊎◌, ℕ, ◌<◌, ◌↔◌, List, [], ◌∷◌, length, All};
ghost use Rattle.std.specs.Prelude.{Contains, Option, IfOk, IsTrue, Some, true, false, vec_len};
ghost use Rattle.smi_names.specs.chains.Chain.{HasEnd};
ghost use Rattle.smi_names.specs.chains.Order.{next_at, ComeAfterNext};
ghost use Rattle.smi_names.specs.private.Search.{Keeps, Follows, mark_at};

use std::alloc::{AllocError, Global};

/// The state of an index in the search.
#[derive(Clone, Copy, Debug)]
enum Mark {
    /// Not reached yet.
    New,
    /// Reached by `Search::climb`, but not part of the order.
    Met,
    /// Part of the order.
    Settled,
}

/// The search for the indices whose chains end.
#[derive(Drop)]
struct Search {
    /// The state of each index.
    marks: Vec<Mark>,
    /// The indices found so far whose chains end, each after the one that it refers to, if that
    /// isn't past the end.
    order: Vec<usize>,
    /// The indices of the chain that is being followed, from its start on, as far as they were
    /// new.
    path: Vec<usize>,
}

/// Returns the indices whose chains end, each after the index that it refers to, if that isn't
/// past the end of `next`. Index `i` refers to `next[i]`, or to nothing if this is `None`. A chain
/// ends at an index that refers to nothing or past the end of `next`. Follows the reference of
/// each index at most once, without recursion.
pub fn topological_order(alloc: Global, next: &[Option<usize>]) -> Result<Vec<usize>, AllocError>
    ensures within { IfOk result (λ order. All (λ p. p < length next.now) order.items) }
    ensures only_ended { IfOk result (λ order. All (HasEnd (next_at next.now)) order.items) }
    ensures each_ended { IfOk result (λ order. (p : ℕ) → p < length next.now
        → HasEnd (next_at next.now) p → Contains order.items p) }
    ensures after_next { IfOk result (λ order. ComeAfterNext next.now order.items) }
{
    let mut search = Search {
        marks: vec![in alloc; Mark::New; next.len()]?,
        order: Vec::with_capacity(alloc, next.len())?,
        path: Vec::new(alloc),
    };
    'starts: for start in 0..next.len() {
        search.visit(next, start)?;
    }
    Ok(search.order)
}

impl Search {
    /// Follows the chain from `start` as long as its indices are new, marks them as met and
    /// appends them to the path. Returns the first index of the chain that isn't new, perhaps one
    /// past the end of `next`, or `None` if a new index refers to nothing.
    fn climb(&mut self, next: &[Option<usize>], start: usize) -> Result<Option<usize>, AllocError>
        requires kept { Keeps next.now self.old.marks.items self.old.order.items
            self.old.path.items }
        requires at_start { self.old.path.items ≡ [] }
        requires inside { start < length next.now }
        ensures kept { IfOk result (λ _.
            Keeps next.now self.new.marks.items self.new.order.items self.new.path.items) }
        ensures refers_to { IfOk result (λ to. Follows next.now self.new.path.items
            (Some start) to) }
        ensures stopped { IfOk result (λ to. (p : ℕ) → to ≡ Some p → p < length next.now
            → mark_at self.new.marks.items p ≢ Mark.New) }
        ensures reached { IfOk result (λ _. mark_at self.new.marks.items start ≢ Mark.New) }
        ensures reached_before { IfOk result (λ _. (p : ℕ)
            → mark_at self.old.marks.items p ≢ Mark.New
            → mark_at self.new.marks.items p ≢ Mark.New) }
    {
        let mut to = Some(start);
        'up: while let Some(at) = to {
            if !self.is_new(at) {
                break;
            }
            self.path.push(at)?;
            self.marks[at] = Mark::Met;
            to = next[at];
        }
        Ok(to)
    }

    /// Adds `index`, which refers to nothing, to the order unless the order has it already.
    fn settle(&mut self, next: &[Option<usize>], index: usize) -> Result<(), AllocError>
        requires kept { Keeps next.now self.old.marks.items self.old.order.items
            self.old.path.items }
        requires at_start { self.old.path.items ≡ [] }
        requires inside { index < length next.now }
        requires last { next_at next.now index ≡ None }
        ensures kept { IfOk result (λ _.
            Keeps next.now self.new.marks.items self.new.order.items self.new.path.items) }
        ensures at_end { IfOk result (λ _. self.new.path.items ≡ []) }
        ensures reached { IfOk result (λ _. mark_at self.new.marks.items index ≢ Mark.New) }
        ensures reached_before { IfOk result (λ _. (p : ℕ)
            → mark_at self.old.marks.items p ≢ Mark.New
            → mark_at self.new.marks.items p ≢ Mark.New) }
    {
        if self.is_new(index) {
            self.order.push(index)?;
            self.marks[index] = Mark::Settled;
        }
        Ok(())
    }

    /// Returns whether `index` is within the list and marked as new.
    fn is_new(&self, index: usize) -> bool
        ensures new { IsTrue result
            ↔ ((index < vec_len self.now.marks) × (mark_at self.now.marks.items index ≡ Mark.New)) }
    {
        matches!(self.marks.get(index), Some(Mark::New))
    }

    /// Returns whether the chain that `climb` followed has an end, if `climb` returned `to`. The
    /// chain has no end if `to` is marked as met: then `to` is on the path, which enters a ring,
    /// or on an earlier path that entered one.
    fn has_ended(&self, to: Option<usize>) -> bool
        ensures met { result ≡ false → (p : ℕ) × (to ≡ Some p)
            × (mark_at self.now.marks.items p ≡ Mark.Met) }
        ensures other { result ≡ true → (p : ℕ) → to ≡ Some p
            → mark_at self.now.marks.items p ≢ Mark.Met }
    {
        match to {
            None => true,
            Some(at) => !matches!(self.marks.get(at), Some(Mark::Met)),
        }
    }

    /// Follows the chain from `start`. If it ends, adds its new indices to the order, the last one
    /// first.
    fn visit(&mut self, next: &[Option<usize>], start: usize) -> Result<(), AllocError>
        requires kept { Keeps next.now self.old.marks.items self.old.order.items
            self.old.path.items }
        requires at_start { self.old.path.items ≡ [] }
        requires inside { start < length next.now }
        ensures kept { IfOk result (λ _.
            Keeps next.now self.new.marks.items self.new.order.items self.new.path.items) }
        ensures at_end { IfOk result (λ _. self.new.path.items ≡ []) }
        ensures reached { IfOk result (λ _. mark_at self.new.marks.items start ≢ Mark.New) }
        ensures reached_before { IfOk result (λ _. (p : ℕ)
            → mark_at self.old.marks.items p ≢ Mark.New
            → mark_at self.new.marks.items p ≢ Mark.New) }
    {
        // An index that refers to nothing needs no path: it is added to the order at once, unless
        // the order has it.
        if next[start].is_none() {
            return self.settle(next, start);
        }
        let to = self.climb(next, start)?;
        if !self.has_ended(to) {
            self.path.clear();
            return Ok(());
        }
        'down: while let Some(index) = self.path.pop() {
            self.order.push(index)?;
            self.marks[index] = Mark::Settled;
        }
        Ok(())
    }
}
