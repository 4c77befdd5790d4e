//! What stands in a cell is such as the types allow it: laws that take it by reference, since there is nothing to find out.

ghost use Rattle.std.specs.Prelude.{All};
ghost use Rattle.cell_core.specs.Forms.{IsVolumeForm, IsImageForm, IsStoredForm};

use crate::stored::{Image, Stored};
use dump_stream::volume_is_allowed;
use vnode_model::Volume;

fn volume_is_formed(volume: &Volume)
    ensures { IsVolumeForm volume.now }
{
    volume_is_allowed(volume, 0, 0);
    let _vnodes = volume.vnodes();
}

fn image_is_formed(image: &Image)
    ensures { IsImageForm image.now }
{
    match image {
        Image::Good(volume) => volume_is_formed(volume),
        Image::Bad { .. } => {}
    }
}

fn stored_is_formed(stored: &Stored)
    ensures { IsStoredForm stored.now }
{
    let _name = stored.name.bytes();
    let _server = stored.server.bytes();
    let _partition = stored.partition.bytes();
    image_is_formed(&stored.image);
}

/// So it is of each in a list.
pub(crate) fn all_are_formed(cell: &[Stored])
    ensures { All IsStoredForm cell.now }
{
    for stored in cell {
        stored_is_formed(stored);
    }
}
