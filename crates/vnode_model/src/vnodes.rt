//! Vnodes.

ghost use Rattle.std.specs.Prelude.{◌≡◌, ◌↔◌, IsTrue};
ghost use Rattle.vnode_model.specs.Limits.{StandsBefore, ComesAfter};

use crate::bodies::Body;
use std::alloc::AllocError;

/// What a vnode is.
#[derive(Clone, Copy, Debug, PartialEq, Eq)]
pub enum VnodeKind {
    File,
    Directory,
    Symlink,
}

impl VnodeKind {
    ghost use Rattle.vnode_model.specs.Increments.{is_directory};

    /// Whether it is a directory.
    pub fn is_directory(self) -> bool
        ensures { result ≡ is_directory self }
    {
        match self {
            VnodeKind::Directory => true,
            VnodeKind::File | VnodeKind::Symlink => false,
        }
    }
}

/// A vnode: a file, a directory or a symbolic link of a volume, with its data.
#[derive(Debug, Drop)]
pub struct Vnode {
    pub number: u32,
    /// Tells this vnode from an earlier one of its number.
    pub uniq: u32,
    pub kind: VnodeKind,
    pub links: u16,
    pub data_version: u32,
    /// When the data was last changed, in seconds since 1970.
    pub modified: u32,
    pub author: u32,
    pub owner: u32,
    pub group: u32,
    pub mode: u16,
    /// The number of the directory that it stands in.
    pub parent: u32,
    /// When the server last changed it, in seconds since 1970.
    pub server_modified: u32,
    /// A directory's access list, as the server keeps it.
    pub access: [u8; 192],
    /// The data.
    pub body: Body,
}

impl Clone for Vnode {
    ghost is_clone = { λ a b. b ≡ a };

    fn clone(&self) -> Result<Vnode, AllocError> {
        Ok(Vnode {
            body: self.body.copy()?,
            ..*self
        })
    }
}

/// Whether a vnode of the first number may stand before one of the second: directories, which have odd numbers, come
/// first, each class in ascending order.
pub fn stands_before(first: u32, second: u32) -> bool
    ensures { IsTrue result ↔ StandsBefore first second }
{
    let classes = (first % 2 == 1, second % 2 == 1);
    match classes {
        (true, false) => true,
        (false, true) => false,
        (true, true) | (false, false) => first < second,
    }
}

/// Whether a vnode of a number may come behind the last one, of which 0 stands for none: its number is 1 or more, and the
/// last one stands before it.
pub fn comes_after(last: u32, number: u32) -> bool
    ensures { IsTrue result ↔ ComesAfter last number }
{
    number >= 1 && (last == 0 || stands_before(last, number))
}
