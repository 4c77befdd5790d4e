// Bytes of files that are kept in memory.
ghost use Rattle.std.specs.Prelude.{◌≡◌, ◌+◌, ◌<◌, ◌≤◌, ◌==◌, ℕ, List, [], length, take, drop, OnOk, OnErr, IfOk, vec_len, if◌then◌else◌};
ghost use Rattle.media_core.specs.Media.{written};
ghost use Rattle.media_core.specs.Events.{file_bytes};

use std::alloc::{AllocError, Global};

/// Writes into one file. On an error all files stay.
pub fn overwrite_in(
    files: &mut Vec<Vec<u8>>,
    f: usize,
    at: usize,
    bytes: &[u8],
) -> Result<(), AllocError>
    requires here { f < vec_len files.old }
    requires within { at ≤ length (file_bytes files.old.items f) }
    ensures count { vec_len files.new ≡ vec_len files.old }
    ensures ok { OnOk result ((k : ℕ) → file_bytes files.new.items k ≡ (if k == f then written at bytes.now (file_bytes files.old.items k) else file_bytes files.old.items k)) }
    ensures err { OnErr result ((k : ℕ) → file_bytes files.new.items k ≡ file_bytes files.old.items k) }
{
    overwrite(&mut files[f], at, bytes)?;
    Ok(())
}

/// Copies a part of one file.
pub fn copy_part(files: &Vec<Vec<u8>>, f: usize, at: usize, into: &mut [u8])
    requires here { f < vec_len files.now }
    requires within { at + length into.old ≤ length (file_bytes files.now.items f) }
    ensures { into.new ≡ take (length into.old) (drop at (file_bytes files.now.items f)) }
{
    copy_front(&files[f], at, into);
}

/// Writes over what is there and past the end. On an error the file stays.
fn overwrite(file: &mut Vec<u8>, at: usize, bytes: &[u8]) -> Result<(), AllocError>
    requires { at ≤ vec_len file.old }
    ensures ok { OnOk result (file.new.items ≡ written at bytes.now file.old.items) }
    ensures err { OnErr result (file.new.items ≡ file.old.items) }
{
    let over = bytes.len().min(file.len() - at);
    file.extend_from_slice(&bytes[over..])?;
    file[at..at + over].copy_from_slice(&bytes[..over]);
    Ok(())
}

/// Copies a part of a file.
fn copy_front(file: &Vec<u8>, at: usize, into: &mut [u8])
    requires { at + length into.old ≤ vec_len file.now }
    ensures { into.new ≡ take (length into.old) (drop at file.now.items) }
{
    let rest = &file[at..];
    into.copy_from_slice(&rest[..into.len()]);
}

/// Files without bytes.
pub fn empty_files(alloc: Global, count: u32) -> Result<Vec<Vec<u8>>, AllocError>
    ensures count { IfOk result (λ files. vec_len files ≡ count) }
    ensures empty { IfOk result (λ files. (k : ℕ) → file_bytes files.items k ≡ []) }
{
    let mut files = Vec::new(alloc);
    for index in 0..count {
        files.push(Vec::new(alloc))?;
    }
    Ok(files)
}

/// Makes room for a file. Those that are added are empty.
pub fn make_room(alloc: Global, files: &mut Vec<Vec<u8>>, f: usize) -> Result<(), AllocError>
    ensures room { OnOk result (f < vec_len files.new) }
    ensures same { OnOk result ((k : ℕ) → file_bytes files.new.items k ≡ file_bytes files.old.items k) }
{
    while files.len() <= f {
        files.push(Vec::new(alloc))?;
    }
    Ok(())
}

/// A copy of files.
pub fn copy_files(alloc: Global, files: &[Vec<u8>]) -> Result<Vec<Vec<u8>>, AllocError>
    ensures count { IfOk result (λ copy. vec_len copy ≡ length files.now) }
    ensures same { IfOk result (λ copy. (k : ℕ) → file_bytes copy.items k ≡ file_bytes files.now k) }
{
    let mut copy = Vec::new(alloc);
    for file in files {
        copy.push(file.to_vec(alloc)?)?;
    }
    Ok(copy)
}

/// A copy of one file, empty where it isn't.
pub fn copy_of(alloc: Global, files: &[Vec<u8>], f: usize) -> Result<Vec<u8>, AllocError>
    ensures { IfOk result (λ copy. copy.items ≡ file_bytes files.now f) }
{
    match files.get(f) {
        Some(file) => {
            let copy = file.to_vec(alloc)?;
            Ok(copy)
        }
        None => Ok(Vec::new(alloc)),
    }
}

/// Gives files a count: those past it go, and those that are added are empty.
pub fn with_count(
    alloc: Global,
    mut files: Vec<Vec<u8>>,
    count: usize,
) -> Result<Vec<Vec<u8>>, AllocError>
    ensures count { IfOk result (λ made. vec_len made ≡ count) }
    ensures same { IfOk result (λ made. (k : ℕ) → k < count → file_bytes made.items k ≡ file_bytes files.items k) }
{
    files.truncate(count);
    while files.len() < count {
        files.push(Vec::new(alloc))?;
    }
    Ok(files)
}
