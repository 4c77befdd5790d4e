//! What a list asks of what is known of an image.

ghost use Rattle.std.specs.Prelude.{◌≡◌, IfOk};
ghost use Rattle.dir_cell.specs.Catalogs.{name_of, standing_of, entry_of, state_of, IsKnownOf};

use crate::known::Known;
use bk_text::{Host, Part};
use cell_core::{Listed, Standing};
use std::alloc::AllocError;
use vnode_model::{EntryState, VolEntry, Volume};

impl Listed for Known {
    ghost use Rattle.dir_cell.specs.Catalogs.{name_of, standing_of};

    ghost name_of = { name_of };

    ghost standing_of = { standing_of };

    fn name(&self) -> &[u8]
        ensures { result.now ≡ name_of self.now }
    {
        self.name.bytes()
    }

    fn standing(&self) -> Standing
        ensures { result ≡ standing_of self.now }
    {
        self.standing
    }
}

/// What is told of a standing.
fn state_of(standing: Standing, latest: u32) -> EntryState
    ensures { result ≡ state_of standing latest }
{
    match standing {
        Standing::Volume { id, kind } => EntryState::Good { id, kind, latest },
        Standing::Bad { at } => EntryState::Bad { at },
    }
}

impl Known {
    /// What is told of it.
    pub(crate) fn entry(&self) -> Result<VolEntry, AllocError>
        ensures { IfOk result (λ entry. entry ≡ entry_of self.now) }
    {
        Ok(VolEntry {
            name: self.name.clone()?,
            server: self.server.clone()?,
            partition: self.partition.clone()?,
            state: state_of(self.standing, self.latest),
        })
    }
}

/// What is known of a volume at a server and partition, whose image is at a path.
pub(crate) fn known_of(
    server: &Host,
    partition: &Part,
    volume: &Volume,
    paths: Vec<String>,
) -> Result<Known, AllocError>
    ensures { IfOk result (λ known. IsKnownOf server.now partition.now volume.now known) }
{
    let fields = volume.header().fields();
    Ok(Known {
        name: fields.name.clone()?,
        server: server.clone()?,
        partition: partition.clone()?,
        standing: Standing::Volume {
            id: fields.id,
            kind: fields.kind,
        },
        created: fields.created,
        latest: volume.latest(),
        paths,
    })
}
