//! Removal from a folder of images.

ghost use Rattle.std.specs.Prelude.{◌≡◌, Err, IsSome, OnOk, OnErr};
ghost use Rattle.cell_core.specs.Answers.{OnlyFromOutside};
ghost use Rattle.dir_cell.specs.Catalogs.{IsCatalog, known_as};
ghost use Rattle.dir_cell.specs.Calls.{after_removal, is_of_kind};
ghost use Rattle.dir_cell.specs.Refusals.{remove_refusal, IsDue};

use crate::catalog::{forget, known_as};
use crate::changing::paths_of;
use crate::folder::Folder;
use crate::known::Known;
use crate::outside::Refusal;
use crate::saving::remove_images;
use bk_text::Name;
use cell_core::{CellFault, backup_name};
use std::rt::Files;

/// Whether what is known under a name is a volume of this type.
fn is_of_kind(catalog: &[Known], kind: u8, name: &[u8]) -> bool
    requires { IsCatalog catalog.now }
    ensures { result ≡ is_of_kind kind (known_as name.now catalog.now) }
{
    match known_as(catalog, name) {
        Some(known) => known.standing.has_kind(kind),
        None => false,
    }
}

impl<R: Files + AllocGlobal + Clone + Drop> Folder<R> {
    /// Removes the images of a name.
    fn remove_files(&self, name: &[u8], last: &mut Option<Refusal>) -> Result<(), CellFault>
        ensures errors { OnlyFromOutside result }
        ensures refused { result ≡ Err CellFault.Failed → IsSome last.new }
    {
        let known = known_as(self.images.as_slice(), name);
        remove_images(&self.rt, paths_of(known), "", last)
    }

    /// Removes the images of a name, and with a read/write volume its backup volume.
    pub(crate) fn remove(
        &mut self,
        name: &Name,
        last: &mut Option<Refusal>,
    ) -> Result<(), CellFault>
        ensures due { IsDue (remove_refusal name.now self.old.images.items) result }
        ensures removed { OnOk result (self.new.images.items ≡ after_removal name.now self.old.images.items) }
        ensures stays { OnErr result (self.new.images.items ≡ self.old.images.items) }
        ensures refused { result ≡ Err CellFault.Failed → IsSome last.new }
    {
        let backup = backup_name(self.rt.alloc(), name.bytes())?;
        let images = self.images.as_slice();
        if known_as(images, name.bytes()).is_none() {
            return Err(CellFault::NoVolume);
        }
        let both = is_of_kind(images, 0, name.bytes()) && is_of_kind(images, 2, backup.as_slice());
        if both {
            self.remove_files(backup.as_slice(), last)?;
        }
        self.remove_files(name.bytes(), last)?;
        if both {
            forget(&mut self.images, backup.as_slice());
        }
        forget(&mut self.images, name.bytes());
        Ok(())
    }
}
