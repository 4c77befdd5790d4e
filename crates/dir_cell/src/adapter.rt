//! Images in a folder as a cell.

ghost use Rattle.std.specs.Prelude.{◌≡◌, ◌<◌, IfOk, OnOk, OnErr, IfSome, IsSome, Some, Err, slice_get};
ghost use Rattle.crash_moments.specs.Moments.{HasCauseAt};
ghost use Rattle.cell_core.specs.Answers.{OnlyFromOutside};
ghost use Rattle.cell_core.specs.Listings.{new_id};
ghost use Rattle.cell_core.specs.Volumes.{new_volume, backup_name};
ghost use Rattle.dir_cell.specs.Catalogs.{standing_of, entry_of};
ghost use Rattle.dir_cell.specs.Dots.{LeadsOut};
ghost use Rattle.dir_cell.specs.Calls.{IsClone, Keeps, KeepsNamed, KeepsCopy, after_removal};
ghost use Rattle.dir_cell.specs.Refusals.{put_refusal, create_refusal, change_refusal, backup_refusal, remove_refusal, id_for_backup, IsDue, IsDueToChange};

use crate::folder::Folder;
use crate::listing::list_images;
use crate::outside::{Refusal, counted};
use bk_text::{Host, Name, Part};
use cell_core::{Cell, CellFault, Change, Taken};
use host_edge::{EdgeFault, Explains, at_path, make_folder};
use std::io::{self, Write};
use std::rt::Files;
use vnode_model::{VolEntry, Volume};

/// The images `server/partition/name.vol` of a folder. What each is was judged at the opening. An image that isn't as the
/// opening or this program left it is a fault. For a server, partition or volume `.` or `..` there is no place: `TooLarge`. The refusal
/// is the last one.
#[derive(Drop)]
pub struct DirCell<R: Drop> {
    folder: Folder<R>,
    faults: u64,
    refused: Option<Refusal>,
}

impl<R: Files + AllocGlobal + Clone + Drop> DirCell<R> {
    ghost use Rattle.dir_cell.specs.Shown.{faults_of};

    /// Opens a folder, which is made where it is absent; the folder that it stands in is there. `TooMany` comes where it has
    /// more than 65,536 images. An image's name that is no regular file's is refused.
    pub fn open(rt: &R, root: &str) -> Result<Self, EdgeFault>
        ensures { IfOk result (λ cell. faults_of cell ≡ 0) }
    {
        at_path(rt.alloc(), root, make_folder(rt, root))?;
        let images = list_images(rt, root)?;
        Ok(DirCell {
            folder: Folder {
                rt: rt.clone()?,
                root: String::from_str(rt.alloc(), root)?,
                images,
            },
            faults: 0,
            refused: None,
        })
    }
}

impl<R: Files + AllocGlobal + Clone + Drop> Cell for DirCell<R> {
    ghost use Rattle.std.specs.Prelude.{[]};
    ghost use Rattle.dir_cell.specs.Shown.{catalog_of, faults_of, refused_of, size_of};

    ghost tells = { ⊥ };

    ghost list = { λ c. [] };

    ghost size = { size_of };

    ghost faults = { faults_of };

    ghost is_cell = { λ c told. absurd told };

    ghost sized = { λ c told. absurd told };

    ghost few = { λ c. c.folder.catalog.few };

    fn count(&self) -> u32 {
        self.folder.count()
    }

    fn entry(&mut self, i: u32) -> Result<VolEntry, CellFault>
        requires { i < size_of self.old }
        ensures entry { IfOk result (λ entry. IfSome (slice_get (catalog_of self.old) i) (λ known. entry ≡ entry_of known)) }
        ensures errors { OnlyFromOutside result }
        ensures stays { catalog_of self.new ≡ catalog_of self.old }
        ensures size { size_of self.new ≡ size_of self.old }
        ensures cause { HasCauseAt CellFault.Failed (faults_of self.old) (faults_of self.new) result }
        ensures refused { result ≡ Err CellFault.Failed → IsSome (refused_of self.new) }
    {
        let answer = self.folder.entry(i as usize);
        counted(&mut self.faults, answer)
    }

    fn take(&mut self, i: u32, now: u32) -> Result<Taken, CellFault>
        requires { i < size_of self.old }
        ensures clone { IfOk result (λ taken. IfSome (slice_get (catalog_of self.old) i) (λ known. IsClone (catalog_of self.old) known now taken)) }
        ensures errors { OnlyFromOutside result }
        ensures stays { catalog_of self.new ≡ catalog_of self.old }
        ensures size { size_of self.new ≡ size_of self.old }
        ensures cause { HasCauseAt CellFault.Failed (faults_of self.old) (faults_of self.new) result }
        ensures refused { result ≡ Err CellFault.Failed → IsSome (refused_of self.new) }
    {
        let answer = self.folder.take(i as usize, now, &mut self.refused);
        counted(&mut self.faults, answer)
    }

    fn put(&mut self, server: &Host, partition: &Part, volume: Volume) -> Result<(), CellFault>
        ensures outside { LeadsOut server.now partition.now volume.header.name → result ≡ Err CellFault.TooLarge }
        ensures due { (LeadsOut server.now partition.now volume.header.name → ⊥) → IsDue (put_refusal volume.header.name (catalog_of self.old)) result }
        ensures kept { OnOk result (Keeps server.now partition.now volume (catalog_of self.old) (catalog_of self.new)) }
        ensures stays { OnErr result (catalog_of self.new ≡ catalog_of self.old) }
        ensures cause { HasCauseAt CellFault.Failed (faults_of self.old) (faults_of self.new) result }
        ensures refused { result ≡ Err CellFault.Failed → IsSome (refused_of self.new) }
    {
        let answer = self
            .folder
            .put(server, partition, volume, &mut self.refused);
        counted(&mut self.faults, answer)
    }

    fn create(
        &mut self,
        server: &Host,
        partition: &Part,
        name: &Name,
        now: u32,
    ) -> Result<u32, CellFault>
        ensures outside { LeadsOut server.now partition.now name.now → result ≡ Err CellFault.TooLarge }
        ensures due { (LeadsOut server.now partition.now name.now → ⊥) → IsDue (create_refusal name.now (catalog_of self.old)) result }
        ensures id { IfOk result (λ id. new_id standing_of (catalog_of self.old) ≡ Some id) }
        ensures kept { IfOk result (λ id. Keeps server.now partition.now (new_volume id name.now now) (catalog_of self.old) (catalog_of self.new)) }
        ensures stays { OnErr result (catalog_of self.new ≡ catalog_of self.old) }
        ensures cause { HasCauseAt CellFault.Failed (faults_of self.old) (faults_of self.new) result }
        ensures refused { result ≡ Err CellFault.Failed → IsSome (refused_of self.new) }
    {
        let answer = self
            .folder
            .create(server, partition, name, now, &mut self.refused);
        counted(&mut self.faults, answer)
    }

    fn write(&mut self, name: &Name, number: u32, body: &[u8], now: u32) -> Result<(), CellFault>
        ensures due { IsDueToChange (change_refusal name.now (catalog_of self.old)) result }
        ensures kept { OnOk result (KeepsNamed name.now (catalog_of self.old) (catalog_of self.new)) }
        ensures stays { OnErr result (catalog_of self.new ≡ catalog_of self.old) }
        ensures cause { HasCauseAt CellFault.Failed (faults_of self.old) (faults_of self.new) result }
        ensures refused { result ≡ Err CellFault.Failed → IsSome (refused_of self.new) }
    {
        let answer = self.folder.change(
            name,
            Change::Write { number, body },
            now,
            &mut self.refused,
        );
        counted(&mut self.faults, answer)
    }

    fn remove_vnode(&mut self, name: &Name, number: u32, now: u32) -> Result<(), CellFault>
        ensures due { IsDueToChange (change_refusal name.now (catalog_of self.old)) result }
        ensures kept { OnOk result (KeepsNamed name.now (catalog_of self.old) (catalog_of self.new)) }
        ensures stays { OnErr result (catalog_of self.new ≡ catalog_of self.old) }
        ensures cause { HasCauseAt CellFault.Failed (faults_of self.old) (faults_of self.new) result }
        ensures refused { result ≡ Err CellFault.Failed → IsSome (refused_of self.new) }
    {
        let answer = self
            .folder
            .change(name, Change::Remove { number }, now, &mut self.refused);
        counted(&mut self.faults, answer)
    }

    fn backup(&mut self, name: &Name, now: u32) -> Result<(), CellFault>
        ensures due { IsDue (backup_refusal name.now (catalog_of self.old)) result }
        ensures kept { OnOk result (KeepsCopy name.now (id_for_backup (backup_name name.now) (catalog_of self.old)) (catalog_of self.old) (catalog_of self.new)) }
        ensures stays { OnErr result (catalog_of self.new ≡ catalog_of self.old) }
        ensures cause { HasCauseAt CellFault.Failed (faults_of self.old) (faults_of self.new) result }
        ensures refused { result ≡ Err CellFault.Failed → IsSome (refused_of self.new) }
    {
        let answer = self.folder.backup(name, now, &mut self.refused);
        counted(&mut self.faults, answer)
    }

    fn remove(&mut self, name: &Name) -> Result<(), CellFault>
        ensures due { IsDue (remove_refusal name.now (catalog_of self.old)) result }
        ensures removed { OnOk result (catalog_of self.new ≡ after_removal name.now (catalog_of self.old)) }
        ensures stays { OnErr result (catalog_of self.new ≡ catalog_of self.old) }
        ensures cause { HasCauseAt CellFault.Failed (faults_of self.old) (faults_of self.new) result }
        ensures refused { result ≡ Err CellFault.Failed → IsSome (refused_of self.new) }
    {
        let answer = self.folder.remove(name, &mut self.refused);
        counted(&mut self.faults, answer)
    }

    fn listed_is_allowed(&self) {}
}

impl<R: Drop> Explains for DirCell<R> {
    fn explain_fault<E: Write>(&self, errors: &mut E) -> io::Result<()> {
        match &self.refused {
            None => Ok(()),
            Some(refusal) => {
                let path = match &refusal.path {
                    Some(path) => path.as_str(),
                    None => self.folder.root.as_str(),
                };
                writeln!(errors, "{path}: {}", refusal.cause)
            }
        }
    }
}
