//! Polls of several subtrees of one agent over one link, such as a UDP socket.
ghost use Rattle.std.specs.Prelude.{◌≤◌, IfOk, length};
ghost use Rattle.uses.specs.Polled.{ArePolledInTurn};

use crate::{Collected, next_id, poll};
use snmp_walk::{Link, Method, StartError, WalkEnd};
use snmp_wire::Oid;
use std::alloc::{AllocError, Global};

/// What a poll of one subtree collected, and how it ended.
#[derive(Drop)]
pub struct Subtree {
    /// The root of the subtree.
    pub root: Oid,
    /// How the poll ended, or why it didn't begin.
    pub end: Result<WalkEnd, StartError>,
    /// The rows that the poll collected.
    pub rows: Collected,
}

/// Collects the instances below each of the roots, one subtree after the other over one link.
///
/// A poll that fails doesn't stop those after it: each subtree says how its poll ended. The call
/// fails if memory for the list of subtrees runs out; then no further poll is begun. Ids continue
/// from poll to poll; if no greater id is left, the next poll begins with 1 again.
///
/// The link may be a socket: then nothing is promised about what arrives. If all that arrived in a
/// poll are replies of a lawful agent (`AreLawful`) with one table to what the poll sent, the rows
/// are instances of that table below the root (`ArePolledInTurn`). A caller opens a socket through
/// the network of `rt`:
///
/// ```
/// let mut link = UdpLink::open(&rt, "192.0.2.1", 161, 1)?;
/// let subtrees = poll_each(rt.alloc(), &mut link, b"public", &roots)?;
/// ```
pub fn poll_each<L: Link>(
    alloc: Global,
    link: &mut L,
    community: &[u8],
    roots: &[Oid],
) -> Result<Vec<Subtree>, AllocError>
    requires { length community.now ≤ 255 }
    ensures { IfOk result (λ subtrees.
        ArePolledInTurn L.Link link.old roots.now subtrees.items link.new) }
{
    let mut subtrees = Vec::new(alloc);
    let mut id = 1;
    'roots: for root in roots {
        let mut rows = Collected::new(alloc);
        let end = poll(
            link,
            root.copy(),
            Method::Bulk(10),
            community,
            5,
            id,
            &mut rows,
        );
        id = next_id(id, &rows).unwrap_or(1);
        subtrees.push(Subtree {
            root: root.copy(),
            end,
            rows,
        })?;
    }
    Ok(subtrees)
}
