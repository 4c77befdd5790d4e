//! The calls that change a folder of images.

ghost use Rattle.std.specs.Prelude.{◌≡◌, ◌≢◌, Some, Err, IfOk, IsSome, OnOk, OnErr};
ghost use Rattle.cell_core.specs.Answers.{OnlyFromOutside};
ghost use Rattle.cell_core.specs.Listings.{new_id};
ghost use Rattle.cell_core.specs.Volumes.{new_volume};
ghost use Rattle.dir_cell.specs.Catalogs.{standing_of, known_as, HasPlace, IsCatalog};
ghost use Rattle.dir_cell.specs.Calls.{Keeps, KeepsNamed};
ghost use Rattle.dir_cell.specs.Dots.{LeadsOut};
ghost use Rattle.dir_cell.specs.Refusals.{put_refusal, create_refusal, change_refusal, IsDue, IsDueToChange};

use crate::catalog::{keep, known_as};
use crate::folder::Folder;
use crate::known::Known;
use crate::looking::volume_of;
use crate::outside::Refusal;
use crate::saving::{leads_out, move_in, write_beside};
use bk_text::{Host, Name, Part};
use cell_core::{CellFault, Change, Standing, change_volume, new_id, new_volume};
use std::rt::Files;
use vnode_model::Volume;

/// The name under which an image is written beside its place; it is no image's.
pub(crate) const FRESH: &str = "-new";

/// Where the images of a name are.
pub(crate) fn paths_of(known: Option<&Known>) -> &[String] {
    match known {
        Some(known) => known.paths.as_slice(),
        None => &[],
    }
}

/// What is known of the read/write volume of a name.
fn known_to_change<'a>(images: &'a [Known], name: &[u8]) -> Result<&'a Known, CellFault>
    requires { IsCatalog images.now }
    ensures due { IsDue (change_refusal name.now images.now) result }
    ensures known { IfOk result (λ known. known_as name.now images.now ≡ Some known.now) }
    ensures named { IfOk result (λ known. known.now.name ≡ name.now) }
    ensures never { result ≢ Err CellFault.Failed }
{
    match known_as(images, name) {
        None => Err(CellFault::NoVolume),
        Some(known) => match known.standing {
            Standing::Bad { at } => Err(CellFault::BadImage { at }),
            Standing::Volume { kind, .. } => {
                if kind == 0 {
                    Ok(known)
                } else {
                    Err(CellFault::NoVolume)
                }
            }
        },
    }
}

impl<R: Files + AllocGlobal + Clone + Drop> Folder<R> {
    /// Writes a volume's image, puts it in place of what has its name, and keeps what is known of it.
    fn save(
        &mut self,
        server: &Host,
        partition: &Part,
        volume: Volume,
        last: &mut Option<Refusal>,
    ) -> Result<(), CellFault>
        requires { HasPlace volume.header.name self.old.images.items }
        ensures kept { OnOk result (Keeps server.now partition.now volume self.old.images.items self.new.images.items) }
        ensures stays { OnErr result (self.new.images.items ≡ self.old.images.items) }
        ensures errors { OnlyFromOutside result }
        ensures refused { result ≡ Err CellFault.Failed → IsSome last.new }
    {
        self.images.reserve(1)?;
        let (rt, alloc, root) = (&self.rt, self.rt.alloc(), self.root.as_str());
        let fresh = write_beside(rt, alloc, root, server, partition, volume, FRESH, last)?;
        let old = paths_of(known_as(self.images.as_slice(), fresh.known.name.bytes()));
        move_in(&self.rt, &fresh, old, last)?;
        keep(&mut self.images, fresh.known);
        Ok(())
    }

    /// Why a volume is not to be put.
    fn may_put(&self, name: &[u8]) -> Result<(), CellFault>
        ensures due { IsDue (put_refusal name.now self.now.images.items) result }
        ensures place { OnOk result (HasPlace name.now self.now.images.items) }
        ensures named { result ≢ Err CellFault.Failed }
        ensures memory { result ≢ Err CellFault.Memory }
    {
        match known_as(self.images.as_slice(), name) {
            Some(known) => match known.standing {
                Standing::Bad { at } => Err(CellFault::BadImage { at }),
                Standing::Volume { .. } => Ok(()),
            },
            None => match new_id(self.images.as_slice()) {
                Some(_) => Ok(()),
                None => Err(CellFault::TooLarge),
            },
        }
    }

    /// Stores a volume under its name. `TooLarge` where its place would be out of the folder.
    pub(crate) fn put(
        &mut self,
        server: &Host,
        partition: &Part,
        volume: Volume,
        last: &mut Option<Refusal>,
    ) -> Result<(), CellFault>
        ensures outside { LeadsOut server.now partition.now volume.header.name → result ≡ Err CellFault.TooLarge }
        ensures due { (LeadsOut server.now partition.now volume.header.name → ⊥) → IsDue (put_refusal volume.header.name self.old.images.items) result }
        ensures kept { OnOk result (Keeps server.now partition.now volume self.old.images.items self.new.images.items) }
        ensures stays { OnErr result (self.new.images.items ≡ self.old.images.items) }
        ensures refused { result ≡ Err CellFault.Failed → IsSome last.new }
    {
        if leads_out(server, partition, volume.header().fields().name.bytes()) {
            return Err(CellFault::TooLarge);
        }
        self.may_put(volume.header().fields().name.bytes())?;
        self.save(server, partition, volume, last)
    }

    /// The id of a new volume.
    fn id_to_create(&self, name: &[u8]) -> Result<u32, CellFault>
        ensures due { IsDue (create_refusal name.now self.now.images.items) result }
        ensures id { IfOk result (λ id. new_id standing_of self.now.images.items ≡ Some id) }
        ensures place { OnOk result (HasPlace name.now self.now.images.items) }
        ensures never { result ≢ Err CellFault.Failed }
    {
        if known_as(self.images.as_slice(), name).is_some() {
            return Err(CellFault::VolumeExists);
        }
        match new_id(self.images.as_slice()) {
            Some(id) => Ok(id),
            None => Err(CellFault::TooLarge),
        }
    }

    /// Makes a read/write volume. `TooLarge` where its place would be out of the folder.
    pub(crate) fn create(
        &mut self,
        server: &Host,
        partition: &Part,
        name: &Name,
        now: u32,
        last: &mut Option<Refusal>,
    ) -> Result<u32, CellFault>
        ensures outside { LeadsOut server.now partition.now name.now → result ≡ Err CellFault.TooLarge }
        ensures due { (LeadsOut server.now partition.now name.now → ⊥) → IsDue (create_refusal name.now self.old.images.items) result }
        ensures id { IfOk result (λ id. new_id standing_of self.old.images.items ≡ Some id) }
        ensures kept { IfOk result (λ id. Keeps server.now partition.now (new_volume id name.now now) self.old.images.items self.new.images.items) }
        ensures stays { OnErr result (self.new.images.items ≡ self.old.images.items) }
        ensures refused { result ≡ Err CellFault.Failed → IsSome last.new }
    {
        if leads_out(server, partition, name.bytes()) {
            return Err(CellFault::TooLarge);
        }
        let id = self.id_to_create(name.bytes())?;
        let volume = new_volume(self.rt.alloc(), id, name, now)?;
        self.save(server, partition, volume, last)?;
        Ok(id)
    }

    /// The read/write volume of a name after a change, with its server and partition.
    fn changed(
        &self,
        name: &Name,
        change: Change<'_>,
        now: u32,
        last: &mut Option<Refusal>,
    ) -> Result<(Host, Part, Volume), CellFault>
        ensures due { IsDueToChange (change_refusal name.now self.now.images.items) result }
        ensures named { IfOk result (λ changed. changed.2.header.name ≡ name.now) }
        ensures place { OnOk result (HasPlace name.now self.now.images.items) }
        ensures refused { result ≡ Err CellFault.Failed → IsSome last.new }
    {
        let known = known_to_change(self.images.as_slice(), name.bytes())?;
        let volume = volume_of(&self.rt, known, last)?;
        let (volume, answer) = change_volume(self.rt.alloc(), volume, change, now);
        answer?;
        Ok((known.server.clone()?, known.partition.clone()?, volume))
    }

    /// Changes the vnodes of a read/write volume.
    pub(crate) fn change(
        &mut self,
        name: &Name,
        change: Change<'_>,
        now: u32,
        last: &mut Option<Refusal>,
    ) -> Result<(), CellFault>
        ensures due { IsDueToChange (change_refusal name.now self.old.images.items) result }
        ensures kept { OnOk result (KeepsNamed name.now self.old.images.items self.new.images.items) }
        ensures stays { OnErr result (self.new.images.items ≡ self.old.images.items) }
        ensures refused { result ≡ Err CellFault.Failed → IsSome last.new }
    {
        let (server, partition, volume) = self.changed(name, change, now, last)?;
        self.save(&server, &partition, volume, last)
    }
}
