//! One program at a time in a folder, and no file in the place of a closed standard stream.

ghost use Rattle.std.specs.Prelude.{◌≢◌, Err, IfOk};
ghost use Rattle.host_edge.specs.Locks.{handle_of};
ghost use Rattle.host_edge.specs.Streams.{IsAboveStreams};
ghost use Rattle.host_edge.specs.declared.fault.EdgeFault.TheVariants.{TooMany};

use crate::disk_file::DiskFile;
use crate::fault::{EdgeFault, fault_at};
use crate::files::{LAST_STREAM, make_folder};
use crate::lists::add;
use std::alloc::Global;
use std::fs;
use std::io::{self, ErrorKind};
use std::rt::Files;

/// A folder that this program has, until this is dropped. The lock is advisory: programs that don't ask for it are not kept
/// out. Where a standard stream was closed at the start, a handle of the folder stands in its place: it can be neither read
/// nor written, so that a call on the stream is refused, and no file that is opened later gets its number.
#[derive(Drop)]
pub struct FolderLock<F: Drop> {
    in_place_of_streams: Vec<F>,
    handle: F,
}

/// How many handles there can be before one is above the standard streams.
const MOST_HANDLES: usize = 4;

/// Opens a folder until a handle of it is above the standard streams, and keeps those that aren't.
fn hold_streams<F: DiskFile + Drop, R: Files<File = F>>(
    rt: &R,
    alloc: Global,
    folder: &str,
) -> io::Result<FolderLock<F>>
    ensures { IfOk result (λ lock. IsAboveStreams (F.number (handle_of lock))) }
{
    let mut held = Vec::new(alloc);
    for _ in 0..MOST_HANDLES {
        let handle = fs::open(rt, folder)?;
        if handle.number() > LAST_STREAM {
            return Ok(FolderLock {
                in_place_of_streams: held,
                handle,
            });
        }
        add(&mut held, handle)?;
    }
    Err(io::Error::from(ErrorKind::InvalidInput))
}

/// Why a folder was not given: it is said in words where another program has it.
fn of_lock(cause: io::Error) -> io::Error {
    if cause.kind() == ErrorKind::WouldBlock {
        io::Error::new(
            ErrorKind::WouldBlock,
            "another afsbackup runs in this folder",
        )
    } else {
        cause
    }
}

/// Makes a folder where it is absent, and takes it.
fn take_folder<F: DiskFile + Drop, R: Files<File = F>>(
    rt: &R,
    alloc: Global,
    folder: &str,
) -> io::Result<FolderLock<F>>
    ensures above { IfOk result (λ lock. IsAboveStreams (F.number (handle_of lock))) }
    ensures locked { IfOk result (λ lock. F.locked (handle_of lock)) }
{
    make_folder(rt, folder)?;
    let lock = hold_streams(rt, alloc, folder)?;
    match lock.handle.take_lock() {
        Ok(()) => Ok(lock),
        Err(cause) => Err(of_lock(cause)),
    }
}

/// Takes a folder for this program. The folder is made where it is absent; the one that it stands in is there. It is refused
/// where another program has it. It is to be the first that a program opens.
pub fn lock_folder<F: DiskFile + Drop, R: Files<File = F> + AllocGlobal>(
    rt: &R,
    folder: &str,
) -> Result<FolderLock<F>, EdgeFault>
    ensures above { IfOk result (λ lock. IsAboveStreams (F.number (handle_of lock))) }
    ensures locked { IfOk result (λ lock. F.locked (handle_of lock)) }
    ensures few { result ≢ Err TooMany }
{
    match take_folder(rt, rt.alloc(), folder) {
        Ok(lock) => Ok(lock),
        Err(cause) => Err(fault_at(rt.alloc(), folder, cause)),
    }
}
