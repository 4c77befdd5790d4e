//! What is told of a cell's volumes, and clones of them.

ghost use Rattle.std.specs.Prelude.{◌≡◌, ◌<◌, Some, IfOk, IsTrue, length, slice_get};
ghost use Rattle.cell_core.specs.Cells.{IsCell, birth_of_image, birth_of, stored_as, born};
ghost use Rattle.cell_core.specs.Calls.{state_of, entry_of_stored, entry_at, clone_time, is_good, clone_at};

use crate::listed::place_of;
use crate::stored::{Image, Stored, Taken};
use std::alloc::AllocError;
use vnode_model::{EntryState, VolEntry, Volume};

/// What is told of an image.
fn state_of(image: &Image) -> EntryState
    ensures { result ≡ state_of image.now }
{
    match image {
        Image::Good(volume) => EntryState::Good {
            id: volume.header().fields().id,
            kind: volume.header().fields().kind,
            latest: volume.latest(),
        },
        Image::Bad { at } => EntryState::Bad { at: *at },
    }
}

/// What is told of what stands under a name.
fn entry_of(stored: &Stored) -> Result<VolEntry, AllocError>
    ensures { IfOk result (λ entry. entry ≡ entry_of_stored stored.now) }
{
    Ok(VolEntry {
        name: stored.name.clone()?,
        server: stored.server.clone()?,
        partition: stored.partition.clone()?,
        state: state_of(&stored.image),
    })
}

/// What is told of one of the list.
pub(crate) fn entry_at(cell: &[Stored], i: usize) -> Result<VolEntry, AllocError>
    requires { i < length cell.now }
    ensures { IfOk result (λ entry. entry_at cell.now i ≡ Some entry) }
{
    entry_of(&cell[i])
}

/// The creation date of a read/write volume; else 4,294,967,295.
fn birth_of_image(image: &Image) -> u32
    ensures { result ≡ birth_of_image image.now }
{
    match image {
        Image::Good(volume) => {
            if volume.header().fields().kind == 0 {
                volume.header().fields().created
            } else {
                u32::MAX
            }
        }
        Image::Bad { .. } => u32::MAX,
    }
}

/// The creation date of the read/write volume of a name, or 4,294,967,295 where there is none.
fn birth_of(cell: &[Stored], name: &[u8]) -> u32
    requires { IsCell cell.now }
    ensures { result ≡ birth_of (stored_as name.now cell.now) }
{
    match place_of(cell, name) {
        Ok(at) => birth_of_image(&cell[at].image),
        Err(_) => u32::MAX,
    }
}

/// When a volume was born.
fn born(cell: &[Stored], volume: &Volume) -> u32
    requires { IsCell cell.now }
    ensures { result ≡ born cell.now volume.now }
{
    if volume.header().fields().kind == 0 {
        volume.header().fields().created
    } else {
        birth_of(cell, volume.header().fields().name.base())
    }
}

/// A volume's clone time.
fn clone_time(volume: &Volume, now: u32) -> u32
    ensures { result ≡ clone_time volume.now now }
{
    if volume.header().fields().kind == 0 {
        now
    } else {
        volume.header().fields().created
    }
}

/// A clone of one of the list, which isn't a bad image.
pub(crate) fn take_at(cell: &[Stored], i: usize, now: u32) -> Result<Taken, AllocError>
    requires cell { IsCell cell.now }
    requires within { i < length cell.now }
    requires good { IsTrue (is_good (slice_get cell.now i)) }
    ensures { IfOk result (λ clone. clone_at cell.now i now ≡ Some clone) }
{
    match &cell[i].image {
        Image::Good(volume) => Ok(Taken {
            time: clone_time(volume, now),
            born: born(cell, volume),
            volume: volume.clone()?,
        }),
        Image::Bad { .. } => unreachable!(),
    }
}
