//! Which file a file is.

ghost use Rattle.std.specs.Prelude.{◌↔◌, IsTrue};
ghost use Rattle.host_edge.specs.Nodes.{IsSame};

/// Which file a file is, whatever its names: the device that it is on, and its inode there.
#[derive(Clone, Copy, Debug)]
pub struct Node {
    pub device: u64,
    pub inode: u64,
}

impl Node {
    /// Whether it is the same file.
    pub fn is_same(self, other: Node) -> bool
        ensures { IsTrue result ↔ IsSame self other }
    {
        self.device == other.device && self.inode == other.inode
    }
}
