//! What is told of a folder's images, and volumes that are read from it.

ghost use Rattle.std.specs.Prelude.{◌≡◌, ◌≢◌, ◌<◌, length, Err, IfOk, IsTrue, IfSome, IsSome, slice_get};
ghost use Rattle.cell_core.specs.Answers.{OnlyFromOutside};
ghost use Rattle.dir_cell.specs.Catalogs.{entry_of, IsCatalog};
ghost use Rattle.dir_cell.specs.Calls.{IsAsKnown, IsClone};

use crate::catalog::birth_of;
use crate::folder::Folder;
use crate::judging::read_image;
use crate::known::Known;
use crate::outside::{Refusal, outside};
use bk_text::{Host, Part};
use cell_core::{CellFault, Image, Standing, Taken};
use host_edge::changed;
use std::io;
use std::rt::Files;
use vnode_model::{VolEntry, Volume};

/// Whether a volume is what is known of it.
fn is_as_known(known: &Known, volume: &Volume) -> bool
    ensures { IsTrue result → volume.now.header.name ≡ known.now.name → IsAsKnown known.now volume.now }
{
    let fields = volume.header().fields();
    known.standing.id() == fields.id
        && known.standing.has_kind(fields.kind)
        && known.created == fields.created
        && known.latest == volume.latest()
}

/// The volume of an image, which is as it was left.
fn read_volume<R: Files + AllocGlobal>(rt: &R, known: &Known) -> io::Result<Volume>
    ensures { IfOk result (λ volume. IsAsKnown known.now volume) }
{
    let Some(path) = known.paths.first() else {
        return Err(changed());
    };
    match read_image(rt, rt.alloc(), path.as_str(), &known.name)? {
        Image::Good(volume) => {
            if is_as_known(known, &volume) {
                Ok(volume)
            } else {
                Err(changed())
            }
        }
        Image::Bad { .. } => Err(changed()),
    }
}

/// The path of an image.
fn path_of(known: &Known) -> &str {
    match known.paths.first() {
        Some(path) => path.as_str(),
        None => "",
    }
}

/// The volume of an image.
pub(crate) fn volume_of<R: Files + AllocGlobal>(
    rt: &R,
    known: &Known,
    last: &mut Option<Refusal>,
) -> Result<Volume, CellFault>
    ensures volume { IfOk result (λ volume. IsAsKnown known.now volume) }
    ensures errors { OnlyFromOutside result }
    ensures refused { result ≡ Err CellFault.Failed → IsSome last.new }
{
    outside(rt.alloc(), last, path_of(known), read_volume(rt, known))
}

impl<R: Files + AllocGlobal + Clone + Drop> Folder<R> {
    /// How many names have images.
    pub(crate) fn count(&self) -> u32
        ensures { result ≡ length self.now.images.items }
    {
        self.images.len() as u32
    }

    /// What is told of an image.
    pub(crate) fn entry(&self, i: usize) -> Result<VolEntry, CellFault>
        requires { i < length self.now.images.items }
        ensures entry { IfOk result (λ entry. IfSome (slice_get self.now.images.items i) (λ known. entry ≡ entry_of known)) }
        ensures errors { OnlyFromOutside result }
        ensures never { result ≢ Err CellFault.Failed }
    {
        Ok(self.images[i].entry()?)
    }

    /// A clone of an image's volume.
    pub(crate) fn take(
        &self,
        i: usize,
        now: u32,
        last: &mut Option<Refusal>,
    ) -> Result<Taken, CellFault>
        requires { i < length self.now.images.items }
        ensures clone { IfOk result (λ taken. IfSome (slice_get self.now.images.items i) (λ known. IsClone self.now.images.items known now taken)) }
        ensures errors { OnlyFromOutside result }
        ensures refused { result ≡ Err CellFault.Failed → IsSome last.new }
    {
        let known = &self.images[i];
        let volume = volume_of(&self.rt, known, last)?;
        if known.standing.has_kind(0) {
            return Ok(Taken {
                time: now,
                born: known.created,
                volume,
            });
        }
        Ok(Taken {
            time: known.created,
            born: birth_of(self.images.as_slice(), known.name.base()),
            volume,
        })
    }
}
