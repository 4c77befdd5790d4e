//! All that the whole program runs in, over fakes: its words, its input, what it opens and what it prints to.

ghost use Rattle.std.specs.Prelude.{◌≤◌, length, IfOk};

use crate::cells::NamedCell;
use crate::disk::{Disk, Kept};
use crate::fakes::Output;
use cell_core::CellMem;
use host_edge::{DirMedia, Doors, EdgeFault, FolderLock, lock_folder, read_config};
use std::alloc::Global;
use std::cell::{Cell, RefCell};
use std::env::{Env, FillError};
use std::io::{self, ErrorKind, IsTerminal, Read, Write};

/// What comes behind the bytes of an input.
#[derive(Clone, Copy, PartialEq, Eq)]
pub enum Behind {
    /// Its end.
    End,
    /// A read that is refused.
    Refusal,
    /// Blanks without end.
    Blanks,
}

/// The words of a program behind its name.
#[derive(Drop)]
pub struct Words {
    pub words: &'static [&'static [u8]],
}

/// Copies a text to the front of a buffer.
fn fill(text: &[u8], into: &mut [u8]) -> Result<usize, FillError>
    ensures { IfOk result (λ n. n ≤ length into.new) }
{
    if text.len() > into.len() {
        return Err(FillError::TooLong);
    }
    into[..text.len()].copy_from_slice(text);
    Ok(text.len())
}

impl Env for Words {
    fn arg(&self, i: usize, into: &mut [u8]) -> Result<usize, FillError> {
        if i == 0 {
            return fill(b"afsbackup", into);
        }
        match self.words.get(i - 1) {
            Some(word) => fill(word, into),
            None => Err(FillError::NotPresent),
        }
    }

    fn var(&self, _name: &str, _into: &mut [u8]) -> Result<usize, FillError> {
        Err(FillError::NotPresent)
    }

    fn var_at(&self, _i: usize, _into: &mut [u8]) -> Result<usize, FillError> {
        Err(FillError::NotPresent)
    }
}

/// An input of bytes, and what comes behind them. Every second read of the bytes is interrupted.
#[derive(Drop)]
pub struct Input {
    pub bytes: &'static [u8],
    pub at: usize,
    pub behind: Behind,
    pub interrupted: bool,
    pub is_terminal: bool,
}

impl IsTerminal for Input {
    fn is_terminal(&self) -> bool {
        self.is_terminal
    }
}

impl Read for Input {
    fn read(&mut self, into: &mut [u8]) -> io::Result<usize> {
        let rest = self.bytes.get(self.at..).unwrap_or_default();
        self.interrupted = !self.interrupted && !rest.is_empty();
        if self.interrupted {
            return Err(io::Error::from(ErrorKind::Interrupted));
        }
        if rest.is_empty() && self.behind == Behind::Refusal {
            return Err(io::Error::from(ErrorKind::TimedOut));
        }
        if rest.is_empty() && self.behind == Behind::Blanks {
            into.fill(b' ');
            return Ok(into.len());
        }
        let count = rest.len().min(into.len());
        into[..count].copy_from_slice(&rest[..count]);
        self.at = self.at.saturating_add(count);
        Ok(count)
    }
}

/// The lock of the media's folder, which says when it is given back.
pub struct Lock<'a> {
    lock: FolderLock<Kept>,
    given_back: &'a Cell<bool>,
}

impl Drop for Lock<'_> {
    fn drop(self) {
        self.given_back.set(true);
        let Lock {
            lock: _lock,
            given_back: _,
        } = self;
    }
}

/// An output that is looked at when the program has ended. It refuses all where the lock was given back before.
#[derive(Drop)]
pub struct Shared<'a> {
    pub output: &'a RefCell<Output>,
    pub given_back: &'a Cell<bool>,
}

impl Write for Shared<'_> {
    fn write(&mut self, from: &[u8]) -> io::Result<usize> {
        if self.given_back.get() {
            return Err(io::Error::from(ErrorKind::Other));
        }
        match self.output.try_borrow_mut() {
            Ok(mut output) => output.write(from),
            Err(_) => Err(io::Error::from(ErrorKind::Other)),
        }
    }

    fn flush(&mut self) -> io::Result<()> {
        Ok(())
    }
}

/// What the program opens on a disk, and the output that its media tell to.
#[derive(Drop)]
pub struct DiskDoors<'a> {
    pub disk: Disk,
    pub cell_fails: bool,
    pub output: &'a RefCell<Output>,
    pub given_back: &'a Cell<bool>,
}

impl<'a> Doors for DiskDoors<'a> {
    type Lock = Lock<'a>;

    type Media = DirMedia<(Disk, Global), Kept, Shared<'a>>;

    type Cell = NamedCell;

    ghost lock_answers = { λ doors answer. Unit {0} };

    ghost media_answers = { λ doors answer. Unit {0} };

    ghost cell_answers = { λ doors answer. Unit {0} };

    ghost config_answers = { λ doors answer. Unit {0} };

    fn lock(&self) -> Result<Lock<'a>, EdgeFault> {
        let lock = lock_folder(&(self.disk, self.disk.alloc), "media")?;
        Ok(Lock {
            lock,
            given_back: self.given_back,
        })
    }

    fn media(&self) -> Result<DirMedia<(Disk, Global), Kept, Shared<'a>>, EdgeFault> {
        let output = Shared {
            output: self.output,
            given_back: self.given_back,
        };
        DirMedia::open(&(self.disk, self.disk.alloc), "media", output)
    }

    fn cell(&self) -> Result<NamedCell, EdgeFault> {
        let alloc = self.disk.alloc;
        if self.disk.shut == "cell" {
            return Err(EdgeFault::Unreadable {
                path: String::from_str(alloc, "cell")?,
                cause: io::Error::from(self.disk.kind),
            });
        }
        let mut cell = CellMem::new(alloc);
        if self.cell_fails {
            cell.fail_at(0)?;
        }
        Ok(NamedCell { cell })
    }

    fn config(&self) -> Result<Vec<u8>, EdgeFault> {
        read_config(&(self.disk, self.disk.alloc), "tapeconfig")
    }
}
