//! The images that a folder has.

ghost use Rattle.std.specs.Prelude.{◌≡◌, ◌≤◌, OnOk, IfOk};
ghost use Rattle.dir_cell.specs.Catalogs.{IsCatalog};

use crate::judging::read_image;
use crate::known::Known;
use crate::listed::known_of;
use crate::merging::take_in;
use crate::saving::is_dots;
use bk_text::{Host, Name, Part, TextFault};
use cell_core::{Image, Standing};
use host_edge::{EdgeFault, add, again, at_path, not_regular, path_in};
use std::alloc::{AllocError, Global};
use std::cmp::Ordering;
use std::fs::{self, Metadata, ReadDir};
use std::io::{self, ErrorKind};
use std::rt::Files;

/// The most images that a folder may have.
const MOST: usize = 65_536;

/// A file that is an image's.
#[derive(Drop)]
struct Found {
    name: Name,
    server: Host,
    partition: Part,
    path: String,
}

/// What a text says, unless it isn't of its form.
fn formed<T: Drop>(answer: Result<T, TextFault>) -> Result<Option<T>, AllocError> {
    match answer {
        Ok(text) => Ok(Some(text)),
        Err(TextFault::Memory) => Err(AllocError),
        Err(TextFault::BadText { .. }) => Ok(None),
    }
}

/// The server of a folder's name, where it is one.
fn server_of(alloc: Global, folder: &str) -> Result<Option<Host>, AllocError> {
    if is_dots(folder.as_bytes()) {
        return Ok(None);
    }
    formed(Host::parse(alloc, folder.as_bytes()))
}

/// The partition of a folder's name, where it is one.
fn partition_of(alloc: Global, folder: &str) -> Result<Option<Part>, AllocError> {
    if is_dots(folder.as_bytes()) {
        return Ok(None);
    }
    formed(Part::parse(alloc, folder.as_bytes()))
}

/// The volume's name of a file's name, where it is an image's.
fn image_name(alloc: Global, file: &str) -> Result<Option<Name>, AllocError> {
    match file.strip_suffix(".vol") {
        Some(name) if !is_dots(name.as_bytes()) => formed(Name::parse(alloc, name.as_bytes())),
        _ => Ok(None),
    }
}

/// Opens a folder for its names, again where a signal interrupts that.
fn open_names<R: Files + AllocGlobal + Clone + Drop>(rt: &R, path: &str) -> io::Result<ReadDir<R>> {
    for _ in 0..u64::MAX {
        match fs::read_dir(rt, path) {
            Ok(entries) => return Ok(entries),
            Err(cause) => {
                if cause.kind() != ErrorKind::Interrupted {
                    return Err(cause);
                }
            }
        }
    }
    Err(io::Error::from(ErrorKind::Interrupted))
}

/// The names in a folder that are text.
fn names_in<R: Files + AllocGlobal + Clone + Drop>(rt: &R, path: &str) -> io::Result<Vec<String>> {
    let mut names = Vec::new(rt.alloc());
    for entry in open_names(rt, path)? {
        match entry {
            Ok(entry) => add(&mut names, String::from_str(rt.alloc(), entry.file_name())?)?,
            Err(error) if error.kind() == ErrorKind::InvalidFilename => {}
            Err(error) => return Err(error),
        }
    }
    Ok(names)
}

/// What the system says of a path; nothing where it is gone.
fn look<R: Files>(rt: &R, path: &str) -> io::Result<Option<Metadata>> {
    match again(|| fs::metadata(rt, path)) {
        Ok(data) => Ok(Some(data)),
        Err(error) if error.kind() == ErrorKind::NotFound => Ok(None),
        Err(error) => Err(error),
    }
}

/// Whether a path is a folder; not where it is gone.
fn is_folder<R: Files>(rt: &R, path: &str) -> io::Result<bool> {
    match look(rt, path)? {
        Some(data) => Ok(data.is_dir()),
        None => Ok(false),
    }
}

/// Whether a path is a file; not where it is gone. What is there and no regular file is refused.
fn is_file<R: Files>(rt: &R, path: &str) -> io::Result<bool> {
    match look(rt, path)? {
        Some(data) if data.is_file() => Ok(true),
        Some(_) => Err(not_regular()),
        None => Ok(false),
    }
}

/// Adds a file of a partition's folder, where it is an image.
fn find_file<R: Files + AllocGlobal + Clone + Drop>(
    rt: &R,
    folder: &str,
    file: &str,
    server: &Host,
    partition: &Part,
    found: &mut Vec<Found>,
) -> Result<(), EdgeFault> {
    let alloc = rt.alloc();
    let Some(name) = image_name(alloc, file)? else {
        return Ok(());
    };
    let path = path_in(alloc, folder, file)?;
    if !at_path(alloc, path.as_str(), is_file(rt, path.as_str()))? {
        return Ok(());
    }
    if found.len() >= MOST {
        return Err(EdgeFault::TooMany);
    }
    add(
        found,
        Found {
            name,
            server: server.clone()?,
            partition: partition.clone()?,
            path,
        },
    )?;
    Ok(())
}

/// Adds the images of one partition.
fn find_in_partition<R: Files + AllocGlobal + Clone + Drop>(
    rt: &R,
    path: &str,
    server: &Host,
    partition: &Part,
    found: &mut Vec<Found>,
) -> Result<(), EdgeFault> {
    for file in at_path(rt.alloc(), path, names_in(rt, path))? {
        find_file(rt, path, file.as_str(), server, partition, found)?;
    }
    Ok(())
}

/// Adds the images of a folder in a server's folder, where it is a partition's.
fn find_inner<R: Files + AllocGlobal + Clone + Drop>(
    rt: &R,
    above: &str,
    folder: &str,
    server: &Host,
    found: &mut Vec<Found>,
) -> Result<(), EdgeFault> {
    let alloc = rt.alloc();
    let Some(partition) = partition_of(alloc, folder)? else {
        return Ok(());
    };
    let path = path_in(alloc, above, folder)?;
    if !at_path(alloc, path.as_str(), is_folder(rt, path.as_str()))? {
        return Ok(());
    }
    find_in_partition(rt, path.as_str(), server, &partition, found)
}

/// Adds the images of a folder, where it is a server's.
fn find_outer<R: Files + AllocGlobal + Clone + Drop>(
    rt: &R,
    above: &str,
    folder: &str,
    found: &mut Vec<Found>,
) -> Result<(), EdgeFault> {
    let alloc = rt.alloc();
    let Some(server) = server_of(alloc, folder)? else {
        return Ok(());
    };
    let path = path_in(alloc, above, folder)?;
    if !at_path(alloc, path.as_str(), is_folder(rt, path.as_str()))? {
        return Ok(());
    }
    for inner in at_path(alloc, path.as_str(), names_in(rt, path.as_str()))? {
        find_inner(rt, path.as_str(), inner.as_str(), &server, found)?;
    }
    Ok(())
}

/// The order of images: by their names, and those of a name by their paths, each in ascending byte order.
fn order_of(one: &Found, other: &Found) -> Ordering {
    match one.name.bytes().cmp(other.name.bytes()) {
        Ordering::Equal => one.path.as_bytes().cmp(other.path.as_bytes()),
        order => order,
    }
}

/// The files of a folder's images, in their order.
fn find_images<R: Files + AllocGlobal + Clone + Drop>(
    rt: &R,
    root: &str,
) -> Result<Vec<Found>, EdgeFault> {
    let mut found = Vec::new(rt.alloc());
    for folder in at_path(rt.alloc(), root, names_in(rt, root))? {
        find_outer(rt, root, folder.as_str(), &mut found)?;
    }
    found.sort_unstable_by(|one, other| order_of(one, other));
    Ok(found)
}

/// What is known of an image at a server and partition.
fn known_image(
    alloc: Global,
    name: Name,
    server: &Host,
    partition: &Part,
    image: &Image,
    path: String,
) -> Result<Known, AllocError> {
    let mut paths = Vec::new(alloc);
    add(&mut paths, path)?;
    match image {
        Image::Good(volume) => known_of(server, partition, volume, paths),
        Image::Bad { at } => Ok(Known {
            name,
            server: server.clone()?,
            partition: partition.clone()?,
            standing: Standing::Bad { at: *at },
            created: 0,
            latest: 0,
            paths,
        }),
    }
}

/// Takes in an image.
fn list_found<R: Files + AllocGlobal + Clone + Drop>(
    rt: &R,
    found: Found,
    images: &mut Vec<Known>,
) -> Result<(), EdgeFault>
    requires { IsCatalog images.old.items }
    ensures { OnOk result (IsCatalog images.new.items) }
{
    let alloc = rt.alloc();
    let Found {
        name,
        server,
        partition,
        path,
    } = found;
    let answer = read_image(rt, alloc, path.as_str(), &name);
    let image = at_path(alloc, path.as_str(), answer)?;
    let known = known_image(alloc, name, &server, &partition, &image, path)?;
    take_in(images, known)
}

/// All images of a folder. They are taken in the order of their names, so that each comes to the end of the list.
pub(crate) fn list_images<R: Files + AllocGlobal + Clone + Drop>(
    rt: &R,
    root: &str,
) -> Result<Vec<Known>, EdgeFault>
    ensures { IfOk result (λ images. IsCatalog images.items) }
{
    let mut images = Vec::new(rt.alloc());
    for found in find_images(rt, root)? {
        list_found(rt, found, &mut images)?;
    }
    Ok(images)
}
