//! Backup volumes, and removal.

ghost use Rattle.std.specs.Prelude.{◌≡◌, ◌≤◌, ℕ, List, Some, false, IfOk, length};
ghost use Rattle.cell_core.specs.declared.stored.Stored.{Stored};
ghost use Rattle.cell_core.specs.Places.{FoundAt};
ghost use Rattle.cell_core.specs.Volumes.{backup_name};
ghost use Rattle.cell_core.specs.Listings.{name_order, is_not_read_write};
ghost use Rattle.cell_core.specs.Cells.{IsCell, IsImageOf, name_of, standing_of, stored_as, with_stored};
ghost use Rattle.cell_core.specs.Calls.{backup_id, after_backup, after_remove};
ghost use Rattle.cell_core.specs.Changing.{Settles, Gives};
ghost use Rattle.cell_core.specs.Backups.{copy_of, stored_with_date};

use crate::fault::CellFault;
use crate::listed::{Listed, backup_id, place_of};
use crate::stored::{Image, Stored};
use crate::storing::{remove_backup, remove_named, store, stored_volume};
use crate::volumes::{backup_copy, backup_name, with_backup_date};
use bk_text::Name;
use std::alloc::{AllocError, Global};
use std::mem;

/// The most bytes of a name.
const MOST_NAME: usize = 31;

/// The id of a backup volume of this name, where there can be one.
fn id_of_backup(cell: &[Stored], name: &[u8]) -> Option<u32>
    requires { IsCell cell.now }
    ensures { result ≡ backup_id cell.now name.now }
{
    if name.len() > MOST_NAME {
        return None;
    }
    backup_id(cell, name)
}

/// The name of a volume's backup volume.
fn named_backup(alloc: Global, name: &Name) -> Result<Name, AllocError>
    requires { length (backup_name name.now) ≤ 31 }
    ensures { IfOk result (λ backup. backup ≡ backup_name name.now) }
{
    let text = backup_name(alloc, name.bytes())?;
    Name::from_bytes(alloc, text.as_slice())
}

/// The backup volume of what is stored, at its server and partition.
fn copy_of(alloc: Global, stored: &Stored, id: u32, now: u32) -> Result<Stored, CellFault>
    requires short { length (backup_name stored.now.name) ≤ 31 }
    requires image { IsImageOf stored.now.name stored.now.image }
    ensures answer { Gives (copy_of stored.now id now) result }
    ensures form { IfOk result (λ copy. IsImageOf copy.name copy.image) }
{
    match &stored.image {
        Image::Bad { at } => Err(CellFault::BadImage { at: *at }),
        Image::Good(volume) => {
            let name = named_backup(alloc, &stored.name)?;
            let copy = backup_copy(volume, id, name, now)?;
            Ok(stored_volume(&stored.server, &stored.partition, copy)?)
        }
    }
}

/// Puts the backup date on a good image.
fn stamp_image(image: &mut Image, now: u32)
    ensures value { (s : Stored) → s.image ≡ image.old → stored_with_date s now ≡ record s { image = image.new } }
    ensures form { (name : List ℕ) → IsImageOf name image.old → IsImageOf name image.new }
{
    match mem::replace(image, Image::Bad { at: 0 }) {
        Image::Good(volume) => *image = Image::Good(with_backup_date(volume, now)),
        Image::Bad { at } => *image = Image::Bad { at },
    }
}

/// Puts the backup date on what stands under a name.
fn stamp_in(cell: &mut Vec<Stored>, name: &[u8], now: u32)
    requires { IsCell cell.old.items }
    ensures dated { (s : Stored) → stored_as name.now cell.old.items ≡ Some s → cell.new.items ≡ with_stored (stored_with_date s now) cell.old.items }
    ensures cell { IsCell cell.new.items }
{
    match place_of(cell, name) {
        Ok(at) => stamp_image(&mut cell[at].image, now),
        Err(_) => {}
    }
}

/// Stores the copy of what stands at a place as its backup volume, and puts the backup date on it.
fn back_up_as(
    cell: &mut Vec<Stored>,
    at: usize,
    name: &[u8],
    id: u32,
    now: u32,
) -> Result<(), CellFault>
    requires cell { IsCell cell.old.items }
    requires found { FoundAt name_order name_of name.now cell.old.items at }
    requires short { length (backup_name name.now) ≤ 31 }
    requires source { (s : Stored) → stored_as name.now cell.old.items ≡ Some s → is_not_read_write (standing_of s) ≡ false }
    requires id { backup_id cell.old.items (backup_name name.now) ≡ Some id }
    ensures answer { Settles (after_backup cell.old.items name.now now) cell.old.items result cell.new.items }
    ensures cell { IsCell cell.new.items }
{
    let copy = copy_of(*cell.allocator(), &cell[at], id, now)?;
    store(cell, copy)?;
    stamp_in(cell, name, now);
    Ok(())
}

/// Backs up what stands at a place.
fn backup_at(cell: &mut Vec<Stored>, at: usize, name: &[u8], now: u32) -> Result<(), CellFault>
    requires cell { IsCell cell.old.items }
    requires found { FoundAt name_order name_of name.now cell.old.items at }
    ensures answer { Settles (after_backup cell.old.items name.now now) cell.old.items result cell.new.items }
    ensures cell { IsCell cell.new.items }
{
    if cell[at].standing().is_not_read_write() {
        return Err(CellFault::NoVolume);
    }
    let backup = backup_name(*cell.allocator(), name)?;
    match id_of_backup(cell, backup.as_slice()) {
        None => Err(CellFault::TooLarge),
        Some(id) => back_up_as(cell, at, name, id, now),
    }
}

/// Backs up the read/write volume of a name.
pub(crate) fn backup_in(cell: &mut Vec<Stored>, name: &[u8], now: u32) -> Result<(), CellFault>
    requires { IsCell cell.old.items }
    ensures answer { Settles (after_backup cell.old.items name.now now) cell.old.items result cell.new.items }
    ensures cell { IsCell cell.new.items }
{
    match place_of(cell, name) {
        Ok(at) => backup_at(cell, at, name, now),
        Err(_) => Err(CellFault::NoVolume),
    }
}

/// Removes what stands under a name, and the backup volume of a read/write volume.
pub(crate) fn remove_in(cell: &mut Vec<Stored>, name: &[u8]) -> Result<(), CellFault>
    requires { IsCell cell.old.items }
    ensures answer { Settles (after_remove cell.old.items name.now) cell.old.items result cell.new.items }
    ensures cell { IsCell cell.new.items }
{
    match place_of(cell, name) {
        Err(_) => Err(CellFault::NoVolume),
        Ok(at) => {
            if cell[at].standing().has_kind(0) {
                let backup = backup_name(*cell.allocator(), name)?;
                remove_named(cell, name);
                remove_backup(cell, backup.as_slice());
                Ok(())
            } else {
                remove_named(cell, name);
                Ok(())
            }
        }
    }
}
