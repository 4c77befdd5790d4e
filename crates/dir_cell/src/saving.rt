//! Writing an image: beside its place, and then moved there.

ghost use Rattle.std.specs.Prelude.{◌≡◌, ◌↔◌, Err, IsTrue, IfOk, IsSome, OnOk};
ghost use Rattle.cell_core.specs.Answers.{OnlyFromOutside};
ghost use Rattle.dir_cell.specs.Dots.{IsDots, LeadsOut};
ghost use Rattle.dir_cell.specs.Catalogs.{IsKnownOf};

use crate::judging::room;
use crate::known::Known;
use crate::listed::known_of;
use crate::outside::{Refusal, outside};
use bk_text::{Host, Part};
use cell_core::CellFault;
use dump_stream::Writer;
use host_edge::{add, again, make_folder, make_new, path_in, remove_file, sync_folder};
use std::alloc::{AllocError, Global};
use std::fs::{self, OpenFile};
use std::io::{self, ErrorKind, Write};
use std::rt::Files;
use vnode_model::Volume;

/// An image that is written beside its place, and all that moving it there needs.
#[derive(Drop)]
pub(crate) struct Fresh {
    /// What is known of it once it is there.
    pub known: Known,
    /// The folder of its partition.
    folder: String,
    /// Where it is written, and its place.
    beside: String,
    target: String,
}

/// Whether a text names a folder itself or the one above.
pub(crate) fn is_dots(text: &[u8]) -> bool
    ensures { IsTrue result ↔ IsDots text.now }
{
    text == b".".as_slice() || text == b"..".as_slice()
}

/// Whether one of a server, a partition and a volume's name would lead out of its folder.
pub(crate) fn leads_out(server: &Host, partition: &Part, name: &[u8]) -> bool
    ensures { IsTrue result ↔ LeadsOut server.now partition.now name.now }
{
    is_dots(server.bytes()) || is_dots(partition.bytes()) || is_dots(name)
}

/// The text of a name. One that would lead out of the folder is refused.
fn text_of(bytes: &[u8]) -> io::Result<&str>
    ensures text { IfOk result (λ text. text.now ≡ bytes.now) }
    ensures inside { OnOk result (IsDots bytes.now → ⊥) }
{
    if is_dots(bytes) {
        return Err(io::Error::from(ErrorKind::InvalidFilename));
    }
    match std::str::from_utf8(bytes) {
        Ok(text) => Ok(text),
        Err(_) => Err(io::Error::from(ErrorKind::InvalidFilename)),
    }
}

/// Makes the folders of a partition where they are absent.
fn make_folders<R: Files>(
    rt: &R,
    alloc: Global,
    root: &str,
    server: &Host,
    partition: &Part,
) -> io::Result<String> {
    let server = path_in(alloc, root, text_of(server.bytes())?)?;
    let partition = path_in(alloc, server.as_str(), text_of(partition.bytes())?)?;
    make_folder(rt, server.as_str())?;
    make_folder(rt, partition.as_str())?;
    Ok(partition)
}

/// The path of an image in its partition's folder.
fn image_path(alloc: Global, folder: &str, name: &[u8]) -> io::Result<String> {
    let mut path = path_in(alloc, folder, text_of(name)?)?;
    path.push_str(".vol")?;
    Ok(path)
}

/// What an administrator is shown of the place of an image, also where there can't be one.
fn shown_path(
    alloc: Global,
    root: &str,
    server: &Host,
    partition: &Part,
    name: &[u8],
) -> Result<String, AllocError> {
    let mut path = String::from_str(alloc, root)?;
    for word in [server.bytes(), partition.bytes(), name] {
        path.push('/')?;
        path.push_str(std::str::from_utf8(word).unwrap_or("?"))?;
    }
    path.push_str(".vol")?;
    Ok(path)
}

/// Writes a volume's whole stream to a file that is made, which is on the disk then. What has its name goes before.
fn write_stream<R: Files>(rt: &R, alloc: Global, path: &str, volume: Volume) -> io::Result<()> {
    let mut buffer = room(alloc)?;
    let until = volume.header().fields().updated;
    let mut writer = Writer::new(volume, 0, until);
    let mut file = make_new(rt, path)?;
    for _ in 0..u64::MAX {
        let count = writer.next(&mut buffer);
        file.write_all(&buffer[..count])?;
        if count < buffer.len() {
            break;
        }
    }
    file.sync_all()
}

/// A list of one path.
fn only(alloc: Global, path: &str) -> Result<Vec<String>, AllocError> {
    let mut paths = Vec::new(alloc);
    add(&mut paths, String::from_str(alloc, path)?)?;
    Ok(paths)
}

/// Writes a volume's image to a file of this name beside its place.
fn write_to_file<R: Files>(
    rt: &R,
    alloc: Global,
    root: &str,
    server: &Host,
    partition: &Part,
    volume: Volume,
    beside: &str,
) -> io::Result<Fresh>
    ensures { IfOk result (λ fresh. IsKnownOf server.now partition.now volume fresh.known) }
{
    let folder = make_folders(rt, alloc, root, server, partition)?;
    let target = image_path(
        alloc,
        folder.as_str(),
        volume.header().fields().name.bytes(),
    )?;
    let beside = path_in(alloc, folder.as_str(), beside)?;
    let known = known_of(server, partition, &volume, only(alloc, target.as_str())?)?;
    write_stream(rt, alloc, beside.as_str(), volume)?;
    Ok(Fresh {
        known,
        folder,
        beside,
        target,
    })
}

/// Writes a volume's image beside its place, under a name that is no image's.
pub(crate) fn write_beside<R: Files>(
    rt: &R,
    alloc: Global,
    root: &str,
    server: &Host,
    partition: &Part,
    volume: Volume,
    beside: &str,
    last: &mut Option<Refusal>,
) -> Result<Fresh, CellFault>
    ensures known { IfOk result (λ fresh. IsKnownOf server.now partition.now volume fresh.known) }
    ensures errors { OnlyFromOutside result }
    ensures refused { result ≡ Err CellFault.Failed → IsSome last.new }
{
    let name = volume.header().fields().name.bytes();
    let path = shown_path(alloc, root, server, partition, name)?;
    let answer = write_to_file(rt, alloc, root, server, partition, volume, beside);
    outside(alloc, last, path.as_str(), answer)
}

/// The folder that a path stands in.
fn folder_of(path: &str) -> &str {
    match path.rsplit_once('/') {
        Some((folder, _)) => folder,
        None => ".",
    }
}

/// Removes the image at a path, but for one that stays, and waits until that lasts.
fn remove_image<R: Files>(rt: &R, path: &str, but: &str) -> io::Result<()> {
    if path != but {
        remove_file(rt, path)?;
    }
    sync_folder(rt, folder_of(path))
}

/// Removes the images at these paths, but for one, and waits until that lasts.
pub(crate) fn remove_images<R: Files + AllocGlobal>(
    rt: &R,
    paths: &[String],
    but: &str,
    last: &mut Option<Refusal>,
) -> Result<(), CellFault>
    ensures errors { OnlyFromOutside result }
    ensures refused { result ≡ Err CellFault.Failed → IsSome last.new }
{
    for path in paths {
        let answer = remove_image(rt, path.as_str(), but);
        outside(rt.alloc(), last, path.as_str(), answer)?;
    }
    Ok(())
}

/// Gives a file another path.
fn rename<R: Files>(rt: &R, from: &str, to: &str) -> io::Result<()> {
    again(|| fs::rename(rt, from, to))
}

/// Moves an image to its new place, and waits until that lasts in both folders: its new name is there first, so that at no moment
/// it is without one.
fn move_image<R: Files>(rt: &R, from: &str, to: &str) -> io::Result<()> {
    rename(rt, from, to)?;
    sync_folder(rt, folder_of(to))?;
    sync_folder(rt, folder_of(from))
}

/// Moves the first image of a name to its new place, where that is another one.
fn move_old<R: Files>(rt: &R, old: &[String], target: &str) -> io::Result<()> {
    match old.first() {
        Some(first) if first.as_str() != target => move_image(rt, first.as_str(), target),
        _ => Ok(()),
    }
}

/// Moves a written image to its place. The first image of its name moves there before, and that lasts before the written one
/// comes: else a power cut could leave both.
fn move_both<R: Files>(rt: &R, fresh: &Fresh, old: &[String]) -> io::Result<()> {
    let target = fresh.target.as_str();
    move_old(rt, old, target)?;
    rename(rt, fresh.beside.as_str(), target)?;
    sync_folder(rt, fresh.folder.as_str())
}

/// Moves a written image to its place, for those at `old`. The first of them moves there before, so that at no moment there
/// are two images of the name where there was one, and at no moment none.
pub(crate) fn move_in<R: Files + AllocGlobal>(
    rt: &R,
    fresh: &Fresh,
    old: &[String],
    last: &mut Option<Refusal>,
) -> Result<(), CellFault>
    ensures errors { OnlyFromOutside result }
    ensures refused { result ≡ Err CellFault.Failed → IsSome last.new }
{
    let target = fresh.target.as_str();
    outside(rt.alloc(), last, target, move_both(rt, fresh, old))?;
    remove_images(rt, old, target, last)
}
