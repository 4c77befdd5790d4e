//! What is known of the image of a name.

ghost use Rattle.std.specs.Prelude.{◌≡◌, ◌≤◌, length, IfOk};
ghost use Rattle.dir_cell.specs.Catalogs.{name_of, standing_of, entry_of, IsKnownOf};

use bk_text::{Host, Name, Part};
use cell_core::{Listed, Standing};
use std::alloc::AllocError;
use vnode_model::{EntryState, VolEntry, Volume};

/// What is known of the image of a name.
#[derive(Debug, Drop)]
pub(crate) struct Known {
    pub name: Name,
    pub server: Host,
    pub partition: Part,
    pub standing: Standing,
    /// The creation date of a volume, and its `latest`; else 0.
    pub created: u32,
    pub latest: u32,
    /// Where images of the name are, in ascending byte order. The first one stands for all.
    pub paths: Vec<String>,
}
