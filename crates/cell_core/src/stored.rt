//! What stands in a cell.

ghost use Rattle.std.specs.Prelude.{◌≡◌};

use crate::listed::Listed;
use crate::standing::Standing;
use bk_text::{Host, Name, Part};
use vnode_model::Volume;

/// What stands in a cell under a name, and where.
#[derive(Debug, Drop)]
pub struct Stored {
    /// The name, which is that of a good image's volume.
    pub name: Name,
    pub server: Host,
    pub partition: Part,
    pub image: Image,
}

/// What stands there.
#[derive(Debug, Drop)]
pub enum Image {
    /// A volume.
    Good(Volume),
    /// Something that isn't one; `at` is the place of the first wrong byte.
    Bad { at: u64 },
}

/// A volume as it was cloned. Times are seconds since 1970.
#[derive(Debug, Drop)]
pub struct Taken {
    /// The clone time: of a read/write volume the time of the call, of any other one its creation date.
    pub time: u32,
    /// The creation date of a read/write volume; of any other one that of the read/write volume of its base name, or
    /// 4,294,967,295 where there is none.
    pub born: u32,
    pub volume: Volume,
}

impl Listed for Stored {
    ghost use Rattle.cell_core.specs.Cells.{name_of, standing_of};

    ghost name_of = { name_of };

    ghost standing_of = { standing_of };

    fn name(&self) -> &[u8]
        ensures { result.now ≡ name_of self.now }
    {
        self.name.bytes()
    }

    fn standing(&self) -> Standing
        ensures { result ≡ standing_of self.now }
    {
        match &self.image {
            Image::Good(volume) => Standing::Volume {
                id: volume.header().fields().id,
                kind: volume.header().fields().kind,
            },
            Image::Bad { at } => Standing::Bad { at: *at },
        }
    }
}
