//! Opening files and making folders, so that their names last.

ghost use Rattle.std.specs.Prelude.{◌≡◌, ◌++◌, IfOk, codes};
ghost use Rattle.std.specs.String.{string_bytes};
ghost use Rattle.host_edge.specs.Streams.{IsAboveStreams};

use crate::calls::again;
use crate::disk_file::DiskFile;
use std::alloc::{AllocError, Global};
use std::fs::{self, DirBuilder, OpenFile, OpenOptions};
use std::io::{self, ErrorKind};
use std::os::unix::fs::{DirBuilderExt, OpenOptionsExt};
use std::rt::Files;

/// The descriptor of standard error, the last of the standard streams.
pub(crate) const LAST_STREAM: i32 = 2;

/// The rights of a file and of a folder that are made: for their owner alone.
const FILE_RIGHTS: u32 = 0o600;

const FOLDER_RIGHTS: u32 = 0o700;

/// The path of a name in a folder.
pub fn path_in(alloc: Global, folder: &str, name: &str) -> Result<String, AllocError>
    ensures { IfOk result (λ path. string_bytes path ≡ folder.now ++ codes "/" ++ name.now) }
{
    let mut path = String::from_str(alloc, folder)?;
    path.push('/')?;
    path.push_str(name)?;
    Ok(path)
}

/// The folder that a path stands in.
fn folder_of(path: &str) -> &str {
    match path.rsplit_once('/') {
        Some((folder, _)) => folder,
        None => ".",
    }
}

/// A file, unless it has the number of a standard stream: replies would go into it, or it would be read as the script.
fn above_streams<F: DiskFile + Drop>(file: F) -> io::Result<F>
    ensures { IfOk result (λ file. IsAboveStreams (F.number file)) }
{
    if file.number() <= LAST_STREAM {
        return Err(io::Error::from(ErrorKind::InvalidInput));
    }
    Ok(file)
}

/// The refusal of what is no regular file.
pub fn not_regular() -> io::Error {
    io::Error::new(ErrorKind::InvalidInput, "not a regular file")
}

/// A file, unless it is no regular one.
fn regular<F: DiskFile + Drop>(file: F) -> io::Result<F>
    ensures { IfOk result (λ it. it ≡ file) }
{
    if file.node()?.is_some() {
        Ok(file)
    } else {
        Err(not_regular())
    }
}

/// Opens a regular file for reading and writing, and waits until what an earlier program wrote to it is on the disk. It never has the
/// number of a standard stream. One that is made is its owner's alone.
pub fn open_file<F: DiskFile + Drop, R: Files<File = F>>(
    rt: &R,
    path: &str,
    create: bool,
) -> io::Result<F>
    ensures above { IfOk result (λ file. IsAboveStreams (F.number file)) }
    ensures settled { IfOk result (λ file. F.settled file) }
{
    let file = OpenOptions::new()
        .read(true)
        .write(true)
        .create(create)
        .mode(FILE_RIGHTS)
        .open(rt, path)?;
    let file = regular(above_streams(file)?)?;
    file.settle()?;
    Ok(file)
}

/// Removes a file that may be gone already.
pub fn remove_file<R: Files>(rt: &R, path: &str) -> io::Result<()> {
    match again(|| fs::remove_file(rt, path)) {
        Err(cause) if cause.kind() != ErrorKind::NotFound => Err(cause),
        _ => Ok(()),
    }
}

/// Makes a file, which is its owner's alone. What has its name goes before, and no link is followed.
pub fn make_new<R: Files>(rt: &R, path: &str) -> io::Result<R::File> {
    remove_file(rt, path)?;
    OpenOptions::new()
        .write(true)
        .create_new(true)
        .mode(FILE_RIGHTS)
        .open(rt, path)
}

/// Waits until the names in a folder are on the disk.
pub fn sync_folder<R: Files>(rt: &R, path: &str) -> io::Result<()> {
    let folder = fs::open(rt, path)?;
    folder.sync_all()
}

/// Makes a folder, which is its owner's alone.
fn make_dir<R: Files>(rt: &R, path: &str) -> io::Result<()> {
    let mut builder = DirBuilder::new();
    builder.mode(FOLDER_RIGHTS);
    again(|| builder.create(rt, path))
}

/// Makes a folder where it is absent, and waits until its name is on the disk. The folder that it stands in is there.
pub fn make_folder<R: Files>(rt: &R, path: &str) -> io::Result<()> {
    match make_dir(rt, path) {
        Err(cause) if cause.kind() != ErrorKind::AlreadyExists => Err(cause),
        _ => sync_folder(rt, folder_of(path)),
    }
}
