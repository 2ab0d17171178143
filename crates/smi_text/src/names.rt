//! The names that a module has defined so far.

ghost use Rattle.std.specs.Prelude.{◌≡◌, ℕ, List, ◌||◌, not, IfOk, IfErr};
ghost use Rattle.smi_text.specs.{trees.Mark.same_text, private.Names.has, private.Names.last_eight};

use crate::error::Stop;
use std::collections::BTreeSet;

/// The last eight octets of a name as one number, or 0 if the name is shorter, and then the name.
/// Most names of a module begin alike and end differently, so the numbers tell most of them apart
/// without a look at the other octets.
pub(crate) type Key<'a> = (u64, &'a [u8]);

/// Returns the last eight octets of `name` as one number, or 0 if `name` is shorter.
#[tactic(auto, unfolding(crate::specs::private::Names::last_eight))]
fn last_eight(name: &[u8]) -> u64
    ensures { result ≡ last_eight name.now }
{
    if name.len() < 8 {
        return 0;
    }
    let at = name.len() - 8;
    u64::from_le_bytes([
        name[at],
        name[at + 1],
        name[at + 2],
        name[at + 3],
        name[at + 4],
        name[at + 5],
        name[at + 6],
        name[at + 7],
    ])
}

/// Adds `name` to `names`, and returns whether it is new. Fails only if memory runs out.
pub(crate) fn add<'a>(names: &mut BTreeSet<Key<'a>>, name: &'a [u8]) -> Result<bool, Stop>
    ensures new { IfOk result (λ new. new ≡ not (has names.old name.now)) }
    ensures added { IfOk result (λ _. (x : List ℕ)
        → has names.new x ≡ (same_text name.now x || has names.old x)) }
    ensures err { IfErr result (λ e. e ≡ Stop.Memory) }
{
    match names.insert((last_eight(name), name)) {
        Ok(is_new) => Ok(is_new),
        Err(_) => Err(Stop::Memory),
    }
}
