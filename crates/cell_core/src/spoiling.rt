//! Bad images in a cell's list.

ghost use Rattle.std.specs.Prelude.{◌≡◌};
ghost use Rattle.cell_core.specs.declared.stored.Image.TheVariants.{Bad};
ghost use Rattle.cell_core.specs.Cells.{IsCell};
ghost use Rattle.cell_core.specs.Spoiling.{spoilt};

use crate::listed::place_of;
use crate::stored::{Image, Stored};

/// Puts a bad image in place of an image.
fn spoil_image(image: &mut Image, at: u64)
    ensures { image.new ≡ Bad at }
{
    *image = Image::Bad { at };
}

/// Puts a bad image in place of what stands under a name.
pub(crate) fn spoil_in(cell: &mut Vec<Stored>, name: &[u8], at: u64)
    requires { IsCell cell.old.items }
    ensures list { cell.new.items ≡ spoilt name.now at cell.old.items }
    ensures cell { IsCell cell.new.items }
{
    match place_of(cell, name) {
        Ok(i) => spoil_image(&mut cell[i].image, at),
        Err(_) => {}
    }
}
