//! Media over others, of which a read gives one byte as another one.

ghost use Rattle.std.specs.Prelude.{◌≡◌, ◌+◌, ◌<◌, ◌^◌, length, IsTrue};

use crash_moments::raised;
use media_core::{Failed, Media};

/// A byte that is read as another one, once so many lines were told.
#[derive(Clone, Copy)]
pub struct Turn {
    pub lines: u64,
    pub file: u32,
    pub at: u64,
    pub byte: u8,
}

/// Media over others. They tell no content, ask for the length of a file before each read and write of it, and refuse what doesn't
/// fit.
#[derive(Drop)]
pub struct Turning<M: Drop> {
    inner: M,
    turn: Turn,
    lines: u64,
    faults: u64,
    tell_faults: u64,
}

impl<M: Media + Drop> Turning<M> {
    /// These media with such a byte.
    pub fn new(inner: M, turn: Turn) -> Turning<M> {
        Turning {
            inner,
            turn,
            lines: 0,
            faults: 0,
            tell_faults: 0,
        }
    }

    /// The media below.
    pub fn into_inner(self) -> M {
        let Turning { inner, .. } = self;
        inner
    }
}

/// Reads of a file that has so much.
pub fn read_within<M: Media>(inner: &mut M, f: u32, at: u64, into: &mut [u8]) -> Result<(), Failed>
    requires { IsTrue (M.present inner.old f) }
    ensures length { length into.new ≡ length into.old }
    ensures count { M.count inner.new ≡ M.count inner.old }
    ensures present { M.present inner.new ≡ M.present inner.old }
{
    let length = inner.len(f)?;
    if at > length || into.len() as u64 > length - at {
        return Err(Failed);
    }
    inner.read(f, at, into)
}

/// Writes to a file that is as long as that.
pub fn write_within<M: Media>(inner: &mut M, f: u32, at: u64, from: &[u8]) -> Result<(), Failed>
    requires here { IsTrue (M.present inner.old f) }
    requires small { at + length from.now < 2 ^ 62 }
    ensures count { M.count inner.new ≡ M.count inner.old }
    ensures present { M.present inner.new ≡ M.present inner.old }
{
    let length = inner.len(f)?;
    if at > length {
        return Err(Failed);
    }
    inner.write(f, at, from)
}

/// Gives the byte of a turn where it stands in what was read of its file.
fn turn_byte(turn: Turn, f: u32, at: u64, into: &mut [u8])
    ensures { length into.new ≡ length into.old }
{
    if f != turn.file || at > turn.at {
        return;
    }
    let place = turn.at - at;
    if place < into.len() as u64 {
        into[place as usize] = turn.byte;
    }
}

/// How many line feeds there are.
fn lines_in(piece: &[u8]) -> u64 {
    let mut count: u64 = 0;
    for byte in piece {
        if *byte == b'\n' {
            count = count.saturating_add(1);
        }
    }
    count
}

impl<M: Media + Drop> Media for Turning<M> {
    ghost use Rattle.crash_moments.specs.Moments.{silent};
    ghost use Rattle.media_core.specs.Media.{nothing};

    ghost tells = { ⊥ };

    ghost seen = { λ s. nothing };

    ghost time = { silent };

    ghost count = { λ s. M.count s.inner };

    ghost present = { λ s. M.present s.inner };

    ghost faults = { λ s. s.faults };

    ghost tell_faults = { λ s. s.tell_faults };

    ghost some_files = { λ s. M.some_files s.inner };

    ghost few_files = { λ s. M.few_files s.inner };

    ghost journal_here = { λ s. M.journal_here s.inner };

    ghost here_below = { λ s f here. M.here_below s.inner f here };

    ghost seen_may_be_left = { λ s told. absurd told };

    ghost told_left = { λ s c told. absurd told };

    fn count(&self) -> u32 {
        self.inner.count()
    }

    fn here(&self, f: u32) -> bool {
        self.inner.here(f)
    }

    fn len(&mut self, f: u32) -> Result<u64, Failed> {
        let length = self.inner.len(f);
        if length.is_err() {
            self.faults = raised(self.faults);
        }
        length
    }

    fn read(&mut self, f: u32, at: u64, into: &mut [u8]) -> Result<(), Failed> {
        let done = read_within(&mut self.inner, f, at, into);
        if done.is_err() {
            self.faults = raised(self.faults);
            return done;
        }
        if self.lines >= self.turn.lines {
            turn_byte(self.turn, f, at, into);
        }
        done
    }

    fn write(&mut self, f: u32, at: u64, from: &[u8]) -> Result<(), Failed> {
        let done = write_within(&mut self.inner, f, at, from);
        if done.is_err() {
            self.faults = raised(self.faults);
        }
        done
    }

    fn sync(&mut self, f: u32) -> Result<(), Failed> {
        let done = self.inner.sync(f);
        if done.is_err() {
            self.faults = raised(self.faults);
        }
        done
    }

    fn tell(&mut self, piece: &[u8]) -> Result<usize, Failed> {
        let taken = self.inner.tell(piece);
        match &taken {
            Err(_) => self.tell_faults = raised(self.tell_faults),
            Ok(count) => {
                let told = &piece[..*count];
                self.lines = self.lines.saturating_add(lines_in(told));
            }
        }
        taken
    }
}
