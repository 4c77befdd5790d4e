//! Whether entries have the order, the parity and the limits.

ghost use Rattle.std.specs.Prelude.{◌↔◌, IsTrue, MatchOption, map};
ghost use Rattle.vnode_model.specs.Limits.{KindFits, AccessFits, IsFitVnode, IsFit, AreFit, AreVolume, BreakAt, number_of, data_len};
ghost use Rattle.vnode_model.specs.Follows.{NumberMayFollow, MayFollow};
ghost use Rattle.vnode_model.specs.declared.increments.Entry.TheVariants.{Whole};

use crate::increments::Entry;
use crate::limits::{ALL_DATA, MOST_DATA, MOST_VNODES};
use crate::vnodes::{Vnode, VnodeKind, comes_after};

fn kind_fits(kind: VnodeKind, number: u32) -> bool
    ensures { IsTrue result ↔ KindFits kind number }
{
    match kind {
        VnodeKind::Directory => number % 2 == 1,
        VnodeKind::File | VnodeKind::Symlink => number % 2 == 0,
    }
}

fn access_fits(kind: VnodeKind, access: &[u8; 192]) -> bool
    ensures { IsTrue result ↔ AccessFits kind access.now }
{
    match kind {
        VnodeKind::Directory => true,
        VnodeKind::File | VnodeKind::Symlink => *access == [0; 192],
    }
}

fn is_fit_vnode(vnode: &Vnode) -> bool
    ensures { IsTrue result ↔ IsFitVnode vnode.now }
{
    kind_fits(vnode.kind, vnode.number)
        && access_fits(vnode.kind, &vnode.access)
        && vnode.body.len() <= MOST_DATA
}

fn is_fit(entry: &Entry) -> bool
    ensures { IsTrue result ↔ IsFit entry.now }
{
    match entry {
        Entry::Whole(vnode) => is_fit_vnode(vnode),
        Entry::Kept { .. } => true,
    }
}

impl Entry {
    ghost use Rattle.std.specs.Prelude.{◌≡◌};

    /// The vnode's number.
    pub fn number(&self) -> u32
        ensures { result ≡ number_of self.now }
    {
        match self {
            Entry::Whole(vnode) => vnode.number,
            Entry::Kept { number, .. } => *number,
        }
    }

    /// How many bytes of data the entry has.
    pub fn data_len(&self) -> usize
        ensures { result ≡ data_len self.now }
    {
        match self {
            Entry::Whole(vnode) => vnode.body.len(),
            Entry::Kept { .. } => 0,
        }
    }
}

/// Whether a number may follow so many others, the last of which is this one (0 stands for none).
fn number_may_follow(count: usize, last: u32, number: u32) -> bool
    ensures { IsTrue result ↔ NumberMayFollow count last number }
{
    count < MOST_VNODES && comes_after(last, number)
}

/// Whether a vnode may follow so many others, the last of which has this number, where there is room for so much data.
fn vnode_may_follow(count: usize, last: u32, room: usize, vnode: &Vnode) -> bool
    ensures { IsTrue result ↔ MayFollow count last room (Whole vnode.now) }
{
    number_may_follow(count, last, vnode.number) && is_fit_vnode(vnode) && vnode.body.len() <= room
}

/// The same of an entry.
fn may_follow(count: usize, last: u32, room: usize, entry: &Entry) -> bool
    ensures { IsTrue result ↔ MayFollow count last room entry.now }
{
    match entry {
        Entry::Whole(vnode) => vnode_may_follow(count, last, room, vnode),
        Entry::Kept { number, .. } => number_may_follow(count, last, *number),
    }
}

/// Where entries first break the order, the parity or the limits; `None` where they keep them.
pub fn fault_in(entries: &[Entry]) -> Option<usize>
    ensures { MatchOption result (AreFit entries.now) (λ at. BreakAt entries.now at) }
{
    let mut last = 0;
    let mut room = ALL_DATA;
    for (at, entry) in entries.iter().enumerate() {
        if !may_follow(at, last, room, entry) {
            return Some(at);
        }
        last = entry.number();
        room -= entry.data_len();
    }
    None
}

/// Where vnodes, each of which stands whole, first break them; `None` where they keep them.
pub fn fault_in_vnodes(vnodes: &[Vnode]) -> Option<usize>
    ensures { MatchOption result (AreVolume vnodes.now) (λ at. BreakAt (map Whole vnodes.now) at) }
{
    let mut last = 0;
    let mut room = ALL_DATA;
    for (at, vnode) in vnodes.iter().enumerate() {
        if !vnode_may_follow(at, last, room, vnode) {
            return Some(at);
        }
        last = vnode.number;
        room -= vnode.body.len();
    }
    None
}
