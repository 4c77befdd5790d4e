//! What the calls make of a cell's list.

ghost use Rattle.std.specs.Prelude.{◌≡◌, ℕ, List};
ghost use Rattle.cell_core.specs.declared.stored.Stored.{Stored};
ghost use Rattle.cell_core.specs.Places.{FoundAt, FreeAt};
ghost use Rattle.cell_core.specs.Listings.{name_order};
ghost use Rattle.cell_core.specs.Cells.{IsCell, IsImageOf, name_of};
ghost use Rattle.cell_core.specs.Calls.{after_put, after_create, stored_after, after_change};
ghost use Rattle.cell_core.specs.Changing.{outcome_of, Settles, SettlesNew};

use crate::changes::{Change, change_volume};
use crate::fault::CellFault;
use crate::listed::{new_id, place_of};
use crate::stored::{Image, Stored};
use crate::storing::{store_new, store_over, stored_volume};
use crate::volumes::new_volume;
use bk_text::{Host, Name, Part};
use std::alloc::Global;
use std::mem;
use vnode_model::Volume;

/// Stores a volume in place of what has its name.
fn put_over(
    cell: &mut Vec<Stored>,
    at: usize,
    server: &Host,
    partition: &Part,
    volume: Volume,
) -> Result<(), CellFault>
    requires cell { IsCell cell.old.items }
    requires found { FoundAt name_order name_of volume.header.name cell.old.items at }
    ensures answer { Settles (after_put cell.old.items server.now partition.now volume) cell.old.items result cell.new.items }
    ensures cell { IsCell cell.new.items }
{
    match &cell[at].image {
        Image::Bad { at } => Err(CellFault::BadImage { at: *at }),
        Image::Good(_) => {
            let stored = stored_volume(server, partition, volume)?;
            store_over(cell, at, stored);
            Ok(())
        }
    }
}

/// Stores a volume under a name that isn't there.
fn put_new(
    cell: &mut Vec<Stored>,
    at: usize,
    server: &Host,
    partition: &Part,
    volume: Volume,
) -> Result<(), CellFault>
    requires cell { IsCell cell.old.items }
    requires free { FreeAt name_order name_of volume.header.name cell.old.items at }
    ensures answer { Settles (after_put cell.old.items server.now partition.now volume) cell.old.items result cell.new.items }
    ensures cell { IsCell cell.new.items }
{
    if new_id(cell).is_none() {
        return Err(CellFault::TooLarge);
    }
    let stored = stored_volume(server, partition, volume)?;
    store_new(cell, at, stored)?;
    Ok(())
}

/// Stores a volume under its name.
pub(crate) fn put_in(
    cell: &mut Vec<Stored>,
    server: &Host,
    partition: &Part,
    volume: Volume,
) -> Result<(), CellFault>
    requires { IsCell cell.old.items }
    ensures answer { Settles (after_put cell.old.items server.now partition.now volume) cell.old.items result cell.new.items }
    ensures cell { IsCell cell.new.items }
{
    match place_of(cell, volume.header().fields().name.bytes()) {
        Ok(at) => put_over(cell, at, server, partition, volume),
        Err(at) => put_new(cell, at, server, partition, volume),
    }
}

/// Makes a volume of a name that isn't there.
fn create_new(
    cell: &mut Vec<Stored>,
    at: usize,
    server: &Host,
    partition: &Part,
    name: &Name,
    now: u32,
) -> Result<u32, CellFault>
    requires cell { IsCell cell.old.items }
    requires free { FreeAt name_order name_of name.now cell.old.items at }
    ensures answer { SettlesNew (after_create cell.old.items server.now partition.now name.now now) cell.old.items result cell.new.items }
    ensures cell { IsCell cell.new.items }
{
    match new_id(cell) {
        None => Err(CellFault::TooLarge),
        Some(id) => {
            let volume = new_volume(*cell.allocator(), id, name, now)?;
            let stored = stored_volume(server, partition, volume)?;
            store_new(cell, at, stored)?;
            Ok(id)
        }
    }
}

/// Makes a read/write volume.
pub(crate) fn create_in(
    cell: &mut Vec<Stored>,
    server: &Host,
    partition: &Part,
    name: &Name,
    now: u32,
) -> Result<u32, CellFault>
    requires { IsCell cell.old.items }
    ensures answer { SettlesNew (after_create cell.old.items server.now partition.now name.now now) cell.old.items result cell.new.items }
    ensures cell { IsCell cell.new.items }
{
    match place_of(cell, name.bytes()) {
        Ok(_) => Err(CellFault::VolumeExists),
        Err(at) => create_new(cell, at, server, partition, name, now),
    }
}

/// Changes a read/write volume; its image stays where that is refused.
fn change_image(
    alloc: Global,
    image: &mut Image,
    change: Change<'_>,
    now: u32,
) -> Result<(), CellFault>
    ensures answer { (s : Stored) → s.image ≡ image.old → Settles (stored_after s (outcome_of change.entry now)) s result (record s { image = image.new }) }
    ensures form { (name : List ℕ) → IsImageOf name image.old → IsImageOf name image.new }
{
    match mem::replace(image, Image::Bad { at: 0 }) {
        Image::Good(volume) => {
            if volume.header().fields().kind == 0 {
                let (volume, answer) = change_volume(alloc, volume, change, now);
                *image = Image::Good(volume);
                answer
            } else {
                *image = Image::Good(volume);
                Err(CellFault::NoVolume)
            }
        }
        Image::Bad { at } => {
            *image = Image::Bad { at };
            Err(CellFault::BadImage { at })
        }
    }
}

/// Changes the read/write volume of a name.
pub(crate) fn change_in(
    cell: &mut Vec<Stored>,
    name: &[u8],
    change: Change<'_>,
    now: u32,
) -> Result<(), CellFault>
    requires { IsCell cell.old.items }
    ensures answer { Settles (after_change cell.old.items name.now (outcome_of change.entry now)) cell.old.items result cell.new.items }
    ensures cell { IsCell cell.new.items }
{
    let alloc = *cell.allocator();
    match place_of(cell, name) {
        Ok(at) => change_image(alloc, &mut cell[at].image, change, now),
        Err(_) => Err(CellFault::NoVolume),
    }
}
