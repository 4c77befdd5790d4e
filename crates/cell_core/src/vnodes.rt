//! What a file server makes of vnodes. The rules are this project's own.

ghost use Rattle.std.specs.Prelude.{◌≡◌, ◌≤◌};
ghost use Rattle.vnode_model.specs.Limits.{AreVolume, all_data};
ghost use Rattle.vnode_model.specs.Increments.{data_of};
ghost use Rattle.cell_core.specs.Vnodes.{first_directory, kind_of_number, made_vnode, rewritten_vnode, kib_of};

use std::alloc::Global;
use vnode_model::{Body, Vnode, VnodeKind};

/// The directory that a new volume has: vnode 1 with mode 0755 and one link.
pub(crate) fn first_directory(alloc: Global, now: u32) -> Vnode
    ensures { result ≡ first_directory now }
{
    Vnode {
        number: 1,
        uniq: 1,
        kind: VnodeKind::Directory,
        links: 1,
        data_version: 0,
        modified: now,
        author: 0,
        owner: 0,
        group: 0,
        mode: 0o755,
        parent: 0,
        server_modified: now,
        access: [0; 192],
        body: Body::new(alloc),
    }
}

/// The kind that a number is made as.
fn kind_of_number(number: u32) -> VnodeKind
    ensures { result ≡ kind_of_number number }
{
    if number % 2 == 1 {
        VnodeKind::Directory
    } else {
        VnodeKind::File
    }
}

/// A vnode that is made with its data: mode 0644, one link, in the first directory.
pub(crate) fn made_vnode(number: u32, uniq: u32, body: Body, now: u32) -> Vnode
    ensures { result ≡ made_vnode number uniq body now }
{
    Vnode {
        number,
        uniq,
        kind: kind_of_number(number),
        links: 1,
        data_version: 1,
        modified: now,
        author: 0,
        owner: 0,
        group: 0,
        mode: 0o644,
        parent: 1,
        server_modified: now,
        access: [0; 192],
        body,
    }
}

/// Replaces a vnode's data.
pub(crate) fn rewrite(vnode: &mut Vnode, body: Body, now: u32)
    ensures { vnode.new ≡ rewritten_vnode body now vnode.old }
{
    vnode.body = body;
    vnode.data_version = vnode.data_version.wrapping_add(1);
    vnode.modified = now;
    vnode.server_modified = now;
}

/// The bytes of all vnodes' data.
pub(crate) fn data_of(vnodes: &[Vnode]) -> usize
    requires { AreVolume vnodes.now }
    ensures value { result ≡ data_of vnodes.now }
    ensures small { result ≤ all_data }
{
    vnodes.iter().map(|vnode| vnode.body.len()).sum()
}

/// The bytes of one KiB.
const KIB: usize = 1024;

/// What the vnodes use of a disk: each one's data in KiB, rounded up.
pub(crate) fn kib_of(vnodes: &[Vnode]) -> u32
    requires { AreVolume vnodes.now }
    ensures { result ≡ kib_of vnodes.now }
{
    let mut kib = 0;
    for vnode in vnodes {
        kib += vnode.body.len().div_ceil(KIB) as u32;
    }
    kib
}
