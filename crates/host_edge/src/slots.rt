//! The files `journal` and `slot0` to `slot255` of a folder, and what is known of them.

ghost use Rattle.std.specs.Prelude.{◌≡◌, ◌≢◌, ◌++◌, codes, length, is_some, slice_get, IfOk, Err, Some};
ghost use Rattle.std.specs.String.{string_bytes};
ghost use Rattle.std.specs.Option.{option_copied};
ghost use Rattle.std.specs.Fmt.{decimal};
ghost use Rattle.host_edge.specs.Slots.{slot_at, file_among, path_of};
ghost use Rattle.host_edge.specs.Streams.{IsAboveStreams};
ghost use Rattle.host_edge.specs.declared.fault.EdgeFault.TheVariants.{TooMany};

use crate::disk_file::DiskFile;
use crate::fault::{EdgeFault, at_path};
use crate::files::{open_file, path_in};
use crate::lists::add;
use std::alloc::{AllocError, Global};
use std::io::{self, ErrorKind};
use std::rt::Files;

/// How many slots there are, and how many files.
const SLOTS: usize = 256;

pub(crate) const FILES: u32 = 257;

/// A journal.
#[derive(Drop)]
pub(crate) struct Journal<F: Drop> {
    pub file: F,
    /// Whether it was made here.
    pub is_made: bool,
}

/// The journal at a path, which is made where it is absent.
fn journal_at<F: DiskFile + Drop, R: Files<File = F>>(rt: &R, path: &str) -> io::Result<Journal<F>>
    ensures { IfOk result (λ journal. IsAboveStreams (F.number journal.file)) }
{
    match open_file(rt, path, false) {
        Ok(file) => Ok(Journal {
            file,
            is_made: false,
        }),
        Err(cause) if cause.kind() == ErrorKind::NotFound => Ok(Journal {
            file: open_file(rt, path, true)?,
            is_made: true,
        }),
        Err(cause) => Err(cause),
    }
}

/// The journal, which is made where it is absent.
pub(crate) fn open_journal<F: DiskFile + Drop, R: Files<File = F>>(
    rt: &R,
    alloc: Global,
    folder: &str,
) -> Result<Journal<F>, EdgeFault>
    ensures above { IfOk result (λ journal. IsAboveStreams (F.number journal.file)) }
    ensures few { result ≢ Err TooMany }
{
    let path = path_in(alloc, folder, "journal")?;
    at_path(alloc, path.as_str(), journal_at(rt, path.as_str()))
}

/// The path of a slot's file.
fn slot_path(alloc: Global, folder: &str, slot: usize) -> Result<String, AllocError>
    ensures { IfOk result (λ path. string_bytes path ≡ folder.now ++ (codes "/slot" ++ decimal slot)) }
{
    format!(in alloc; "{folder}/slot{slot}")
}

/// The path of the file of a number.
pub(crate) fn path_of(alloc: Global, folder: &str, f: u32) -> Result<String, AllocError>
    ensures { IfOk result (λ path. string_bytes path ≡ path_of folder.now f) }
{
    if f == 0 {
        format!(in alloc; "{folder}/journal")
    } else {
        slot_path(alloc, folder, f as usize - 1)
    }
}

/// A file, or none where it is absent.
fn if_there<F: Drop>(answer: io::Result<F>) -> io::Result<Option<F>> {
    match answer {
        Ok(file) => Ok(Some(file)),
        Err(error) if error.kind() == ErrorKind::NotFound => Ok(None),
        Err(error) => Err(error),
    }
}

/// A slot's file, where it is there.
fn open_slot<F: DiskFile + Drop, R: Files<File = F>>(
    rt: &R,
    alloc: Global,
    folder: &str,
    slot: usize,
) -> Result<Option<F>, EdgeFault>
    ensures { result ≢ Err TooMany }
{
    let path = slot_path(alloc, folder, slot)?;
    let answer = if_there(open_file(rt, path.as_str(), false));
    at_path(alloc, path.as_str(), answer)
}

/// The file of each slot that has one.
pub(crate) fn open_slots<F: DiskFile + Drop, R: Files<File = F>>(
    rt: &R,
    alloc: Global,
    folder: &str,
) -> Result<Vec<Option<F>>, EdgeFault>
    ensures all { IfOk result (λ slots. length slots.items ≡ 256) }
    ensures few { result ≢ Err TooMany }
{
    let mut slots = Vec::new(alloc);
    for slot in 0..SLOTS {
        add(&mut slots, open_slot(rt, alloc, folder, slot)?)?;
    }
    Ok(slots)
}

/// The length of each file; 0 where a slot has none.
pub(crate) fn lengths_of<F: DiskFile + Drop>(
    alloc: Global,
    journal: &F,
    slots: &[Option<F>],
) -> io::Result<Vec<u64>> {
    let mut lengths = Vec::new(alloc);
    lengths.push(journal.length()?)?;
    for slot in slots {
        match slot {
            Some(file) => lengths.push(file.length()?)?,
            None => lengths.push(0)?,
        }
    }
    Ok(lengths)
}

/// A file isn't as it was left.
pub fn changed() -> io::Error {
    io::Error::new(
        ErrorKind::InvalidData,
        "it was changed, and not by this program",
    )
}

/// The file of a slot, where it has one.
pub(crate) fn slot_at<F: Drop>(slots: &[Option<F>], slot: usize) -> Option<&F>
    ensures value { option_copied result ≡ slot_at slots.now slot }
    ensures variant { is_some result ≡ is_some (slot_at slots.now slot) }
{
    match slots.get(slot) {
        Some(file) => file.as_ref(),
        None => None,
    }
}

/// The file of a number, where it is here.
pub(crate) fn file_among<'a, F: Drop>(
    journal: &'a F,
    slots: &'a [Option<F>],
    f: u32,
) -> Option<&'a F>
    ensures { option_copied result ≡ file_among journal.now slots.now f }
{
    if f == 0 {
        return Some(journal);
    }
    slot_at(slots, f as usize - 1)
}

/// The length of a file, which is the one that it was left with.
pub(crate) fn same_length<F: DiskFile + Drop>(file: &F, lengths: &[u64], f: u32) -> io::Result<u64>
    ensures measured { IfOk result (λ length. F.measured file.now length) }
    ensures left { IfOk result (λ length. slice_get lengths.now f ≡ Some length) }
{
    let length = file.length()?;
    match lengths.get(f as usize) {
        Some(left) if *left == length => Ok(length),
        _ => Err(changed()),
    }
}

/// Notes how far a file was written.
pub(crate) fn note_length(lengths: &mut Vec<u64>, f: u32, end: u64) {
    if let Some(length) = lengths.get_mut(f as usize) {
        *length = (*length).max(end);
    }
}
