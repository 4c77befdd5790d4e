//! A disk in memory whose files keep what is written to them, and of which some calls are refused.

ghost use Rattle.std.specs.Prelude.{◌≤◌, length, IfOk};

use bk_text::Bytes;
use host_edge::{DiskFile, Node};
use std::alloc::{AllocError, Allocator, Global};
use std::cell::RefCell;
use std::fs::{Metadata, OpenFile, OpenOptions};
use std::io::{self, ErrorKind, Read, Seek, SeekFrom, Write};
use std::rt::Files;

/// What is on a disk. Of the slots the first alone has a file, which is empty.
#[derive(Clone, Copy)]
pub struct Disk {
    /// What `tapeconfig` has.
    pub config: &'static [u8],
    /// What `media/journal` has.
    pub journal: &'static [u8],
    /// Opening this path is refused so. Where it isn't found it can be made.
    pub shut: &'static str,
    pub kind: ErrorKind,
    /// Reads and writes of this path are refused, and taking it for one program, so too.
    pub broken: &'static str,
    pub alloc: Global,
}

#[derive(Drop)]
pub struct Kept {
    held: RefCell<Bytes>,
    at: usize,
    refused: Option<ErrorKind>,
    inode: u64,
    alloc: Global,
}

/// Bytes with others in place of those from an offset on.
fn written(alloc: Global, held: &[u8], at: usize, from: &[u8]) -> Result<Bytes, AllocError> {
    let behind = at.saturating_add(from.len());
    let mut bytes = Bytes::from_slice(alloc, held.get(..at).unwrap_or(held))?;
    bytes.extend_from_slice(from)?;
    bytes.extend_from_slice(held.get(behind..).unwrap_or_default())?;
    Ok(bytes)
}

/// Fills a buffer with as many of these bytes as it takes, and says how many.
fn give(bytes: &[u8], into: &mut [u8]) -> usize
    ensures { result ≤ length into.new }
{
    let count = bytes.len().min(into.len());
    into[..count].copy_from_slice(&bytes[..count]);
    count
}

impl Kept {
    fn answer(&self) -> io::Result<()> {
        match self.refused {
            None => Ok(()),
            Some(kind) => Err(io::Error::from(kind)),
        }
    }

    /// A copy of all bytes.
    fn copied(&self) -> io::Result<Bytes> {
        match self.held.try_borrow() {
            Ok(held) => Ok(Bytes::from_slice(self.alloc, held.as_slice())?),
            Err(_) => Err(io::Error::from(ErrorKind::Other)),
        }
    }
}

impl Read for Kept {
    fn read(&mut self, into: &mut [u8]) -> io::Result<usize> {
        let held = self.copied()?;
        let count = give(held.as_slice().get(self.at..).unwrap_or_default(), into);
        self.at = self.at.saturating_add(count);
        Ok(count)
    }
}

impl Write for Kept {
    fn write(&mut self, _from: &[u8]) -> io::Result<usize> {
        Err(io::Error::from(ErrorKind::Unsupported))
    }

    fn flush(&mut self) -> io::Result<()> {
        Ok(())
    }
}

impl Seek for Kept {
    fn seek(&mut self, _to: SeekFrom) -> io::Result<u64> {
        Err(io::Error::from(ErrorKind::Unsupported))
    }
}

impl OpenFile for Kept {
    fn metadata(&self) -> io::Result<Metadata> {
        Ok(Metadata::of_file(self.copied()?.len() as u64))
    }

    fn set_len(&self, _size: u64) -> io::Result<()> {
        Err(io::Error::from(ErrorKind::Unsupported))
    }

    fn sync_all(&self) -> io::Result<()> {
        Ok(())
    }

    fn sync_data(&self) -> io::Result<()> {
        Ok(())
    }
}

impl DiskFile for Kept {
    ghost use Rattle.std.specs.Prelude.{None};

    ghost number = { λ file. None };

    ghost is_node = { λ file node. Unit {0} };

    ghost is_under = { λ file path. Unit {0} };

    ghost measured = { λ file length. Unit {0} };

    ghost gave = { λ file at bytes. Unit {0} };

    ghost took = { λ file at bytes. Unit {0} };

    ghost settled = { λ file. Unit {0} };

    ghost locked = { λ file. Unit {0} };

    fn number(&self) -> i32 {
        3
    }

    fn node(&self) -> io::Result<Option<Node>> {
        Ok(Some(Node {
            device: 0,
            inode: self.inode,
        }))
    }

    fn is_under<R: Files>(&self, _rt: &R, _path: &str) -> io::Result<bool> {
        Ok(true)
    }

    fn length(&self) -> io::Result<u64> {
        Ok(self.copied()?.len() as u64)
    }

    fn read_all_at(&self, into: &mut [u8], at: u64) -> io::Result<()> {
        self.answer()?;
        let held = self.copied()?;
        let rest = held.as_slice().get(at as usize..).unwrap_or_default();
        if give(rest, into) < into.len() {
            return Err(io::Error::from(ErrorKind::UnexpectedEof));
        }
        Ok(())
    }

    fn write_whole_at(&self, from: &[u8], at: u64) -> io::Result<()> {
        self.answer()?;
        let held = self.copied()?;
        let bytes = written(self.alloc, held.as_slice(), at as usize, from)?;
        match self.held.try_replace(bytes) {
            Ok(_) => Ok(()),
            Err(_) => Err(io::Error::from(ErrorKind::Other)),
        }
    }

    fn settle(&self) -> io::Result<()> {
        Ok(())
    }

    fn take_lock(&self) -> io::Result<()> {
        self.answer()
    }
}

impl Disk {
    /// What a path has.
    fn text_of(&self, path: &str) -> &'static [u8] {
        match path {
            "media/journal" => self.journal,
            "tapeconfig" => self.config,
            _ => b"",
        }
    }
}

impl Files for Disk {
    type File = Kept;

    type Dir = Kept;

    fn open_file(&self, how: &OpenOptions, path: &str) -> io::Result<Kept> {
        let is_made = how.asks_create() && self.kind == ErrorKind::NotFound;
        if path == self.shut && !is_made {
            return Err(io::Error::from(self.kind));
        }
        if path.starts_with("media/slot") && path != "media/slot0" {
            return Err(io::Error::from(ErrorKind::NotFound));
        }
        let held = Bytes::from_slice(self.alloc, self.text_of(path))?;
        let refused = if path == self.broken {
            Some(self.kind)
        } else {
            None
        };
        Ok(Kept {
            held: RefCell::new(held),
            at: 0,
            refused,
            inode: if path == "media/journal" { 1 } else { 2 },
            alloc: self.alloc,
        })
    }

    fn open_dir(&self, _path: &str) -> io::Result<Kept> {
        Err(io::Error::from(ErrorKind::Unsupported))
    }

    fn metadata(&self, _path: &str) -> io::Result<Metadata> {
        Err(io::Error::from(ErrorKind::Unsupported))
    }

    fn symlink_metadata(&self, _path: &str) -> io::Result<Metadata> {
        Err(io::Error::from(ErrorKind::Unsupported))
    }

    fn copy(&self, _from: &str, _to: &str) -> io::Result<u64> {
        Err(io::Error::from(ErrorKind::Unsupported))
    }

    fn rename(&self, _from: &str, _to: &str) -> io::Result<()> {
        Err(io::Error::from(ErrorKind::Unsupported))
    }

    fn remove_file(&self, _path: &str) -> io::Result<()> {
        Err(io::Error::from(ErrorKind::Unsupported))
    }

    fn create_dir(&self, _path: &str) -> io::Result<()> {
        Err(io::Error::from(ErrorKind::AlreadyExists))
    }

    fn create_dir_with_mode(&self, path: &str, _mode: u32) -> io::Result<()> {
        self.create_dir(path)
    }

    fn remove_dir(&self, _path: &str) -> io::Result<()> {
        Err(io::Error::from(ErrorKind::Unsupported))
    }

    fn remove_dir_all<B: Allocator>(&self, _alloc: B, _path: &str) -> io::Result<()> {
        Err(io::Error::from(ErrorKind::Unsupported))
    }
}
