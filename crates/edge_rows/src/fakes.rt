//! A file system of which some calls are refused, and an output.

ghost use Rattle.std.specs.Prelude.{◌≡◌};

use bk_text::Bytes;
use host_edge::{DiskFile, Node};
use std::alloc::Allocator;
use std::fs::{Metadata, OpenFile, OpenOptions};
use std::io::{self, ErrorKind, Read, Seek, SeekFrom, Write};
use std::rt::Files;

/// Files of no bytes, each under this number. Opening this path is refused so, and a slot's file is absent but for `slot7`.
#[derive(Clone, Copy)]
pub struct Folder {
    pub refused: &'static str,
    pub kind: ErrorKind,
    pub number: i32,
    /// Whether calls on opened files are refused.
    pub broken: bool,
    /// The inode of `slot7`, where it is a regular file; that of `journal` is 1.
    pub inode: Option<u64>,
    /// Whether the paths lead to other files by and by.
    pub moved: bool,
}

/// A folder of which nothing is refused.
pub const WHOLE: Folder = Folder {
    refused: "",
    kind: ErrorKind::Other,
    number: 3,
    broken: false,
    inode: Some(2),
    moved: false,
};

#[derive(Drop)]
pub struct File {
    number: i32,
    broken: bool,
    inode: Option<u64>,
    moved: bool,
}

impl File {
    fn answer(&self) -> io::Result<()> {
        if self.broken {
            Err(io::Error::from(ErrorKind::Other))
        } else {
            Ok(())
        }
    }
}

impl Read for File {
    fn read(&mut self, _into: &mut [u8]) -> io::Result<usize> {
        Ok(0)
    }
}

impl Write for File {
    fn write(&mut self, from: &[u8]) -> io::Result<usize> {
        Ok(from.len())
    }

    fn flush(&mut self) -> io::Result<()> {
        Ok(())
    }
}

impl Seek for File {
    fn seek(&mut self, _to: SeekFrom) -> io::Result<u64> {
        Ok(0)
    }
}

impl OpenFile for File {
    fn metadata(&self) -> io::Result<Metadata> {
        Ok(Metadata::of_file(0))
    }

    fn set_len(&self, _size: u64) -> io::Result<()> {
        self.answer()
    }

    fn sync_all(&self) -> io::Result<()> {
        Ok(())
    }

    fn sync_data(&self) -> io::Result<()> {
        self.answer()
    }
}

impl DiskFile for File {
    ghost use Rattle.std.specs.Prelude.{None};

    ghost number = { λ file. None };

    ghost is_node = { λ file node. Unit {0} };

    ghost is_under = { λ file path. Unit {0} };

    ghost measured = { λ file length. Unit {0} };

    ghost gave = { λ file at bytes. Unit {0} };

    ghost took = { λ file at bytes. Unit {0} };

    ghost settled = { λ file. Unit {0} };

    ghost locked = { λ file. Unit {0} };

    fn number(&self) -> i32 {
        self.number
    }

    fn node(&self) -> io::Result<Option<Node>> {
        Ok(self.inode.map(|inode| Node { device: 0, inode }))
    }

    fn is_under<R: Files>(&self, _rt: &R, _path: &str) -> io::Result<bool> {
        Ok(!self.moved)
    }

    fn length(&self) -> io::Result<u64> {
        Ok(0)
    }

    fn read_all_at(&self, _into: &mut [u8], _at: u64) -> io::Result<()> {
        self.answer()
    }

    fn write_whole_at(&self, _from: &[u8], _at: u64) -> io::Result<()> {
        self.answer()
    }

    fn settle(&self) -> io::Result<()> {
        Ok(())
    }

    fn take_lock(&self) -> io::Result<()> {
        self.answer()
    }
}

impl Files for Folder {
    type File = File;

    type Dir = File;

    fn open_file(&self, _how: &OpenOptions, path: &str) -> io::Result<File> {
        if path == self.refused {
            return Err(io::Error::from(self.kind));
        }
        if path.starts_with("media/slot") && path != "media/slot7" {
            return Err(io::Error::from(ErrorKind::NotFound));
        }
        Ok(File {
            number: self.number,
            broken: self.broken,
            inode: if path == "media/slot7" {
                self.inode
            } else {
                Some(1)
            },
            moved: self.moved,
        })
    }

    fn open_dir(&self, _path: &str) -> io::Result<File> {
        Err(io::Error::from(ErrorKind::Other))
    }

    fn metadata(&self, _path: &str) -> io::Result<Metadata> {
        Ok(Metadata::of_file(0))
    }

    fn symlink_metadata(&self, _path: &str) -> io::Result<Metadata> {
        Ok(Metadata::of_file(0))
    }

    fn copy(&self, _from: &str, _to: &str) -> io::Result<u64> {
        Ok(0)
    }

    fn rename(&self, _from: &str, _to: &str) -> io::Result<()> {
        Ok(())
    }

    fn remove_file(&self, _path: &str) -> io::Result<()> {
        Ok(())
    }

    fn create_dir(&self, _path: &str) -> io::Result<()> {
        Err(io::Error::from(ErrorKind::AlreadyExists))
    }

    fn create_dir_with_mode(&self, path: &str, _mode: u32) -> io::Result<()> {
        self.create_dir(path)
    }

    fn remove_dir(&self, _path: &str) -> io::Result<()> {
        Ok(())
    }

    fn remove_dir_all<B: Allocator>(&self, _alloc: B, _path: &str) -> io::Result<()> {
        Ok(())
    }
}

/// An output that takes at most seven bytes a call, and so many in all; then it takes nothing, or refuses.
#[derive(Drop)]
pub struct Output {
    pub taken: Bytes,
    pub room: usize,
    pub refuses: bool,
}

impl Write for Output {
    fn write(&mut self, from: &[u8]) -> io::Result<usize> {
        let count = from.len().min(7).min(self.room);
        if count == 0 && self.refuses {
            return Err(io::Error::from(ErrorKind::Other));
        }
        if self.taken.extend_from_slice(&from[..count]).is_err() {
            return Err(io::Error::from(ErrorKind::Other));
        }
        self.room -= count;
        Ok(count)
    }

    fn flush(&mut self) -> io::Result<()> {
        Ok(())
    }
}
