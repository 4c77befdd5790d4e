//! Several images of one name: the first of them, in ascending byte order of their paths, stands for all as one bad entry.

ghost use Rattle.std.specs.Prelude.{◌≡◌, IfOk, OnOk};
ghost use Rattle.dir_cell.specs.Catalogs.{IsCatalog, IsBad};

use crate::catalog::{add_known, taken_out};
use crate::known::Known;
use cell_core::{Standing, is_full};
use host_edge::EdgeFault;
use std::alloc::AllocError;
use std::cmp::Ordering;

/// The standing of one of several: a volume's would be one of its own, so that its first wrong byte is told as 0.
fn spoilt(standing: Standing) -> Standing
    ensures { IsBad result }
{
    match standing {
        Standing::Volume { .. } => Standing::Bad { at: 0 },
        Standing::Bad { at } => Standing::Bad { at },
    }
}

/// Whether the first of these paths stands before the first of those.
fn stand_before(paths: &[String], others: &[String]) -> bool {
    match (paths.first(), others.first()) {
        (Some(path), Some(other)) => path.as_bytes().cmp(other.as_bytes()) == Ordering::Less,
        _ => false,
    }
}

/// Paths with more behind them.
fn joined(mut first: Vec<String>, rest: Vec<String>) -> Result<Vec<String>, AllocError> {
    for path in rest {
        first.push(path)?;
    }
    Ok(first)
}

/// What is known of the images of a name of which the first image is that of the first.
fn spoilt_known(first: Known, others: Vec<String>) -> Result<Known, AllocError>
    ensures name { IfOk result (λ known. known.name ≡ first.name) }
    ensures bad { IfOk result (λ known. IsBad known.standing) }
{
    let Known {
        name,
        server,
        partition,
        standing,
        created: _,
        latest: _,
        paths,
    } = first;
    Ok(Known {
        name,
        server,
        partition,
        standing: spoilt(standing),
        created: 0,
        latest: 0,
        paths: joined(paths, others)?,
    })
}

/// What is known of two images of a name, or of one more.
fn merged(old: Known, new: Known) -> Result<Known, AllocError>
    ensures { IfOk result (λ known. IsBad known.standing) }
{
    if stand_before(new.paths.as_slice(), old.paths.as_slice()) {
        let Known { paths, .. } = old;
        spoilt_known(new, paths)
    } else {
        let Known { paths, .. } = new;
        spoilt_known(old, paths)
    }
}

/// Takes in one more image.
pub(crate) fn take_in(images: &mut Vec<Known>, known: Known) -> Result<(), EdgeFault>
    requires { IsCatalog images.old.items }
    ensures { OnOk result (IsCatalog images.new.items) }
{
    match taken_out(images, known.name.bytes()) {
        Some(old) => {
            let merged = merged(old, known)?;
            add_known(images, merged)?;
            Ok(())
        }
        None => {
            if is_full(images.as_slice()) {
                return Err(EdgeFault::TooMany);
            }
            add_known(images, known)?;
            Ok(())
        }
    }
}
