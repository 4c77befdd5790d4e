//! Bytes that wait to be written to a file: small writes behind one another become one call of the system.

ghost use Rattle.std.specs.Prelude.{◌≡◌, ◌↔◌, ◌≤◌, ◌+◌, ◌⊎◌, [], IfOk, OnOk, OnErr, IfSome, IsTrue, Option as Maybe, length, vec_len, vec_capacity};
ghost use Rattle.std.specs.Option.{option_copied};
ghost use Rattle.host_edge.specs.Waits.{IsFor, GoOn, NoneFor, HasJoined, HasPassed, IsKept, IsAsLong};

use crate::disk_file::DiskFile;
use crate::slots::{changed, note_length, same_length};
use std::alloc::{AllocError, Global};
use std::io;

/// How many bytes may wait: those of sixteen whole records of a tape.
const ROOM: usize = 16 * 16_385;

/// Bytes that wait to be written to a file of a number, from an offset on. There are none where nothing waits.
#[derive(Debug, Drop)]
pub struct Waiting {
    pub file: u32,
    pub at: u64,
    pub bytes: Vec<u8>,
}

impl Waiting {
    /// Nothing waits. All the memory is taken here.
    pub(crate) fn new(alloc: Global) -> Result<Waiting, AllocError>
        ensures { IfOk result (λ waiting. waiting.bytes.items ≡ []) }
    {
        Ok(Waiting {
            file: 0,
            at: 0,
            bytes: Vec::with_capacity(alloc, ROOM)?,
        })
    }

    /// Whether bytes wait for a file.
    pub(crate) fn is_for(&self, f: u32) -> bool
        ensures { IsTrue result ↔ IsFor f self.now }
    {
        self.file == f && !self.bytes.is_empty()
    }

    /// Whether bytes of a file may wait behind those that do, and there is room for them.
    pub(crate) fn takes(&self, f: u32, at: u64, count: usize) -> bool
        ensures room { IsTrue result → vec_len self.now.bytes + count ≤ vec_capacity self.now.bytes }
        ensures behind { IsTrue result → GoOn f at self.now }
    {
        if count > self.bytes.capacity() - self.bytes.len() {
            return false;
        }
        self.bytes.is_empty()
            || (self.file == f && self.at.checked_add(self.bytes.len() as u64) == Some(at))
    }

    /// Lets bytes of a file wait behind those that do.
    pub(crate) fn join(&mut self, f: u32, at: u64, from: &[u8])
        requires room { vec_len self.old.bytes + length from.now ≤ vec_capacity self.old.bytes }
        requires behind { GoOn f at self.old }
        ensures { HasJoined f at from.now self.old self.new }
    {
        if self.bytes.is_empty() {
            self.file = f;
            self.at = at;
        }
        match self.bytes.extend_from_slice(from) {
            Ok(()) => {}
            Err(_) => unreachable!(),
        }
    }

    /// Nothing waits any more.
    pub(crate) fn clear(&mut self)
        ensures { self.new.bytes.items ≡ [] }
    {
        self.bytes.clear();
    }

    /// Writes what waits for a file, so that nothing waits for it any more. Where that is refused all waits still.
    pub(crate) fn give<F: DiskFile + Drop>(
        &mut self,
        f: u32,
        file: Option<&F>,
        lengths: &mut Vec<u64>,
    ) -> io::Result<()>
        ensures none { OnOk result (NoneFor f self.new) }
        ensures kept { (it : Maybe F) → option_copied file.entry ≡ it → IsKept F.took it f self.old self.new }
        ensures long { (it : Maybe F) → option_copied file.entry ≡ it → OnOk result (IfSome it (IsAsLong F.measured lengths.old.items f) ⊎ (lengths.new ≡ lengths.old)) }
    {
        if !self.is_for(f) {
            return Ok(());
        }
        write_whole(f, file, lengths, self.at, self.bytes.as_slice())?;
        self.clear();
        Ok(())
    }

    /// Hands bytes to a file, behind what waited for it.
    fn pass<F: DiskFile + Drop>(
        &mut self,
        f: u32,
        at: u64,
        from: &[u8],
        file: Option<&F>,
        lengths: &mut Vec<u64>,
    ) -> io::Result<()>
        ensures long { (it : Maybe F) → option_copied file.entry ≡ it → OnOk result (IfSome it (IsAsLong F.measured lengths.old.items f)) }
        ensures passed { (it : Maybe F) → option_copied file.entry ≡ it → OnOk result (HasPassed F.took it f at from.now self.old self.new) }
        ensures kept { (it : Maybe F) → option_copied file.entry ≡ it → OnErr result (IsKept F.took it f self.old self.new) }
    {
        self.give(f, file, lengths)?;
        write_whole(f, file, lengths, at, from)
    }

    /// Takes bytes of a file: they wait, or the file takes them.
    pub(crate) fn take<F: DiskFile + Drop>(
        &mut self,
        f: u32,
        at: u64,
        from: &[u8],
        file: Option<&F>,
        lengths: &mut Vec<u64>,
    ) -> io::Result<()>
        ensures long { (it : Maybe F) → option_copied file.entry ≡ it → OnOk result (HasJoined f at from.now self.old self.new ⊎ IfSome it (IsAsLong F.measured lengths.old.items f)) }
        ensures taken { (it : Maybe F) → option_copied file.entry ≡ it → OnOk result (HasJoined f at from.now self.old self.new ⊎ HasPassed F.took it f at from.now self.old self.new) }
        ensures kept { (it : Maybe F) → option_copied file.entry ≡ it → OnErr result (IsKept F.took it f self.old self.new) }
    {
        if self.takes(f, at, from.len()) {
            self.join(f, at, from);
            return Ok(());
        }
        self.pass(f, at, from, file, lengths)?;
        Ok(())
    }
}

/// Writes bytes to a file that is here and has the length that it was left with, and notes how far it was written.
fn write_whole<F: DiskFile + Drop>(
    f: u32,
    file: Option<&F>,
    lengths: &mut Vec<u64>,
    at: u64,
    from: &[u8],
) -> io::Result<()>
    ensures took { OnOk result (IfSome (option_copied file.entry) (λ it. F.took it at from.now)) }
    ensures long { OnOk result (IfSome (option_copied file.entry) (IsAsLong F.measured lengths.old.items f)) }
{
    let Some(file) = file else {
        return Err(changed());
    };
    same_length(file, lengths.as_slice(), f)?;
    file.write_whole_at(from, at)?;
    note_length(lengths, f, at.saturating_add(from.len() as u64));
    Ok(())
}
