//! An open file, as a folder's files are used.

ghost use Rattle.std.specs.Prelude.{◌≡◌, ℕ, ℤ, List, Option, IfOk, OnOk, IfSome, IsTrue};
ghost use Rattle.host_edge.specs.declared.node.Node.{Node};

use crate::calls::again;
use crate::node::Node;
use std::fs::{self, File, Metadata, OpenFile};
use std::io;
use std::os::fd::AsRawFd;
use std::os::unix::fs::{FileExt, MetadataExt};
use std::rt::Files;

/// An open file. Its members say which calls went well: a promise that such a call did is a promise that it was made. Of a
/// file of the system nothing more is known.
pub trait DiskFile {
    /// The file's number, where it is known.
    ghost number: { Self → Option ℤ };

    /// It was told to be this file.
    ghost is_node: { Self → Node → Type 0 };

    /// This path was told to lead to it.
    ghost is_under: { Self → List ℕ → Type 0 };

    /// The length was told to be this.
    ghost measured: { Self → ℕ → Type 0 };

    /// A read of these bytes at this offset went well.
    ghost gave: { Self → ℕ → List ℕ → Type 0 };

    /// A write of these bytes at this offset went well.
    ghost took: { Self → ℕ → List ℕ → Type 0 };

    /// A wait until the file is on the disk went well.
    ghost settled: { Self → Type 0 };

    /// The file was given to this program alone.
    ghost locked: { Self → Type 0 };

    /// The number that the system has for the file.
    fn number(&self) -> i32
        ensures { IfSome (number self.now) (λ number. result ≡ number) };

    /// Which file it is; none where it is no regular file.
    fn node(&self) -> io::Result<Option<Node>>
        ensures { IfOk result (λ told. IfSome told (λ node. is_node self.now node)) };

    /// Whether a path leads to it.
    fn is_under<R: Files>(&self, rt: &R, path: &str) -> io::Result<bool>
        ensures { IfOk result (λ is. IsTrue is → is_under self.now path.now) };

    /// The length in bytes.
    fn length(&self) -> io::Result<u64>
        ensures { IfOk result (λ length. measured self.now length) };

    /// Fills `into` with the bytes from an offset on.
    fn read_all_at(&self, into: &mut [u8], at: u64) -> io::Result<()>
        ensures { OnOk result (gave self.now at into.new) };

    /// Writes all of `from` at an offset.
    fn write_whole_at(&self, from: &[u8], at: u64) -> io::Result<()>
        ensures { OnOk result (took self.now at from.now) };

    /// Waits until the file is on the disk.
    fn settle(&self) -> io::Result<()>
        ensures { OnOk result (settled self.now) };

    /// Takes the file for this program, until it is dropped. A file that another program has is refused.
    fn take_lock(&self) -> io::Result<()>
        ensures { OnOk result (locked self.now) };
}

/// Which file the system says that it is.
fn node_of(data: &Metadata) -> Node {
    Node {
        device: data.dev(),
        inode: data.ino(),
    }
}

impl DiskFile for File {
    ghost use Rattle.std.specs.Prelude.{Some};
    ghost use Rattle.std.specs.Fd.{file_raw_fd};

    ghost number = { λ file. Some (file_raw_fd file) };

    ghost is_node = { λ file node. Unit {0} };

    ghost is_under = { λ file path. Unit {0} };

    ghost measured = { λ file length. Unit {0} };

    ghost gave = { λ file at bytes. Unit {0} };

    ghost took = { λ file at bytes. Unit {0} };

    ghost settled = { λ file. Unit {0} };

    ghost locked = { λ file. Unit {0} };

    fn number(&self) -> i32 {
        self.as_raw_fd()
    }

    fn node(&self) -> io::Result<Option<Node>> {
        let data = again(|| self.metadata())?;
        if data.is_file() {
            Ok(Some(node_of(&data)))
        } else {
            Ok(None)
        }
    }

    fn is_under<R: Files>(&self, rt: &R, path: &str) -> io::Result<bool> {
        let named = again(|| fs::metadata(rt, path))?;
        let own = again(|| self.metadata())?;
        Ok(node_of(&named).is_same(node_of(&own)))
    }

    fn length(&self) -> io::Result<u64> {
        Ok(again(|| self.metadata())?.len())
    }

    fn read_all_at(&self, into: &mut [u8], at: u64) -> io::Result<()> {
        self.read_exact_at(into, at)
    }

    fn write_whole_at(&self, from: &[u8], at: u64) -> io::Result<()> {
        self.write_all_at(from, at)
    }

    fn settle(&self) -> io::Result<()> {
        self.sync_all()
    }

    fn take_lock(&self) -> io::Result<()> {
        self.try_lock()?;
        Ok(())
    }
}
