//! Backup volumes in a folder of images.

ghost use Rattle.std.specs.Prelude.{◌≡◌, ◌≢◌, ◌≤◌, length, Some, Err, IfOk, IsSome, OnOk, OnErr};
ghost use Rattle.cell_core.specs.Answers.{OnlyFromOutside};
ghost use Rattle.cell_core.specs.Volumes.{backup_name};
ghost use Rattle.cell_core.specs.declared.standing.Standing.TheVariants.{Volume};
ghost use Rattle.dir_cell.specs.Catalogs.{IsCatalog};
ghost use Rattle.dir_cell.specs.Calls.{IsCopyKnown, KeepsCopy};
ghost use Rattle.dir_cell.specs.Refusals.{backup_refusal, id_for_backup, IsDue};

use crate::catalog::{keep, known_as};
use crate::changing::{FRESH, paths_of};
use crate::folder::Folder;
use crate::known::Known;
use crate::looking::volume_of;
use crate::outside::Refusal;
use crate::saving::{Fresh, move_in, write_beside};
use bk_text::Name;
use cell_core::{CellFault, Standing, backup_copy, backup_id, backup_name, with_backup_date};
use std::alloc::{AllocError, Global};
use std::rt::Files;

/// The name under which a backup volume's image is written beside its place; it is no image's.
const FRESH_COPY: &str = "-copy";

/// The most bytes of a name.
const MOST_NAME: usize = 31;

/// The id of a backup volume of this name, where there can be one.
fn id_for_backup(catalog: &[Known], name: &[u8]) -> Option<u32>
    requires { IsCatalog catalog.now }
    ensures { result ≡ id_for_backup name.now catalog.now }
{
    if name.len() > MOST_NAME {
        return None;
    }
    backup_id(catalog, name)
}

/// The name of a volume's backup volume.
fn named_backup(alloc: Global, name: &Name) -> Result<Name, AllocError>
    requires { length (backup_name name.now) ≤ 31 }
    ensures { IfOk result (λ backup. backup ≡ backup_name name.now) }
{
    let text = backup_name(alloc, name.bytes())?;
    Name::from_bytes(alloc, text.as_slice())
}

/// The volumes of a backup, written beside their places.
#[derive(Drop)]
struct Backup {
    copy: Fresh,
    /// The volume with its backup date.
    dated: Fresh,
}

/// Writes the copy of a volume and the volume with its backup date beside their places.
fn write_both<R: Files + AllocGlobal>(
    rt: &R,
    root: &str,
    known: &Known,
    id: u32,
    now: u32,
    last: &mut Option<Refusal>,
) -> Result<Backup, CellFault>
    requires { length (backup_name known.now.name) ≤ 31 }
    ensures copy { IfOk result (λ backup. (backup.copy.known.name ≡ backup_name known.now.name) × (backup.copy.known.standing ≡ Volume id 2)) }
    ensures errors { OnlyFromOutside result }
    ensures refused { result ≡ Err CellFault.Failed → IsSome last.new }
{
    let alloc = rt.alloc();
    let (server, partition) = (&known.server, &known.partition);
    let name = named_backup(alloc, &known.name)?;
    let volume = volume_of(rt, known, last)?;
    let copy = backup_copy(&volume, id, name, now)?;
    let copy = write_beside(rt, alloc, root, server, partition, copy, FRESH_COPY, last)?;
    let dated = with_backup_date(volume, now);
    let dated = write_beside(rt, alloc, root, server, partition, dated, FRESH, last)?;
    Ok(Backup { copy, dated })
}

/// What is known of a volume that can be backed up, and the id of its backup volume.
fn known_to_back_up<'a>(
    alloc: Global,
    images: &'a [Known],
    name: &Name,
) -> Result<(&'a Known, u32), CellFault>
    requires { IsCatalog images.now }
    ensures due { IsDue (backup_refusal name.now images.now) result }
    ensures id { IfOk result (λ found. id_for_backup (backup_name name.now) images.now ≡ Some found.1) }
    ensures named { IfOk result (λ found. found.0.now.name ≡ name.now) }
    ensures short { OnOk result (length (backup_name name.now) ≤ 31) }
    ensures never { result ≢ Err CellFault.Failed }
{
    let text = backup_name(alloc, name.bytes())?;
    let free = id_for_backup(images, text.as_slice());
    match known_as(images, name.bytes()) {
        None => Err(CellFault::NoVolume),
        Some(known) => match known.standing {
            Standing::Volume { kind, .. } if kind != 0 => Err(CellFault::NoVolume),
            Standing::Volume { .. } => match free {
                Some(id) => Ok((known, id)),
                None => Err(CellFault::TooLarge),
            },
            Standing::Bad { at } => match free {
                Some(_) => Err(CellFault::BadImage { at }),
                None => Err(CellFault::TooLarge),
            },
        },
    }
}

impl<R: Files + AllocGlobal + Clone + Drop> Folder<R> {
    /// Puts the images of a backup in their places, and says what is known of the copy.
    fn back_up(&self, name: &Name, now: u32, last: &mut Option<Refusal>) -> Result<Known, CellFault>
        ensures due { IsDue (backup_refusal name.now self.now.images.items) result }
        ensures copy { IfOk result (λ copy. IsCopyKnown name.now (id_for_backup (backup_name name.now) self.now.images.items) copy) }
        ensures refused { result ≡ Err CellFault.Failed → IsSome last.new }
    {
        let images = self.images.as_slice();
        let (known, id) = known_to_back_up(self.rt.alloc(), images, name)?;
        let root = self.root.as_str();
        let Backup { copy, dated } = write_both(&self.rt, root, known, id, now, last)?;
        let old = paths_of(known_as(images, copy.known.name.bytes()));
        move_in(&self.rt, &copy, old, last)?;
        move_in(&self.rt, &dated, known.paths.as_slice(), last)?;
        Ok(copy.known)
    }

    /// Makes the backup volume of a read/write volume, or replaces what has its name, and puts the backup date on the volume.
    pub(crate) fn backup(
        &mut self,
        name: &Name,
        now: u32,
        last: &mut Option<Refusal>,
    ) -> Result<(), CellFault>
        ensures due { IsDue (backup_refusal name.now self.old.images.items) result }
        ensures kept { OnOk result (KeepsCopy name.now (id_for_backup (backup_name name.now) self.old.images.items) self.old.images.items self.new.images.items) }
        ensures stays { OnErr result (self.new.images.items ≡ self.old.images.items) }
        ensures refused { result ≡ Err CellFault.Failed → IsSome last.new }
    {
        self.images.reserve(1)?;
        let copy = self.back_up(name, now, last)?;
        keep(&mut self.images, copy);
        Ok(())
    }
}
