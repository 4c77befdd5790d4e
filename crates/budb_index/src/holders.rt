//! The dumps that have a volume, by the chain of the volume's name.

ghost use Rattle.std.specs.Prelude.{◌≡◌, ◌+◌, ◌*◌, ◌≤◌, ◌++◌, length, None, IfOk, OnOk};
ghost use Rattle.budb_links.specs.Linked.{listed};
ghost use Rattle.budb_index.specs.Kept.{KeepsIndex};
ghost use Rattle.budb_index.specs.Holders.{holders};
ghost use Rattle.budb_index.specs.Walks.{frags_named, unless_last};

use crate::index::Index;
use crate::walks::{first_of_volume, next_of_volume};
use bk_text::List;
use budb_links::{Links, Steps};
use std::alloc::{AllocError, Global};
use std::sync::ledger::Ledger;

/// Puts an id behind others, where it isn't the last one that was met.
fn push_unless_last(ids: &mut List<u32>, last: Option<u32>, id: u32) -> Result<(), AllocError>
    ensures { OnOk result (ids.new ≡ ids.old ++ unless_last last id) }
{
    match last {
        None => ids.push(id),
        Some(other) => { if other == id { Ok(()) } else { ids.push(id) } }
    }
}

/// The ids of the records whose fragments a walk by a volume's name meets.
pub(crate) fn met<L: Ledger>(
    alloc: Global,
    links: &Links,
    name: &[u8],
    steps: &mut Steps<L>,
) -> Result<List<u32>, AllocError>
    requires keeps { KeepsIndex (listed links.now) }
    ensures ids { IfOk result (λ ids. ids ≡ holders (listed links.now) name.now) }
    ensures cost { steps.new ≤ steps.old + 2 * length (frags_named name.now (listed links.now)) + 1 }
{
    let mut ids = List::new(alloc);
    let mut last = None;
    let mut at = first_of_volume(links, name, steps);
    while let Some(frag) = next_of_volume(links, name, &mut at, steps) {
        push_unless_last(&mut ids, last, frag.id)?;
        last = Some(frag.id);
    }
    Ok(ids)
}

impl Index {
    /// The ids of the listed dumps that have a volume of exactly this name, in the order of recording.
    pub fn holders<L: Ledger>(
        &self,
        alloc: Global,
        name: &[u8],
        steps: &mut Steps<L>,
    ) -> Result<List<u32>, AllocError>
        ensures ids { IfOk result (λ ids. ids ≡ holders self.now.listed name.now) }
        ensures cost { steps.new ≤ steps.old + 2 * length (frags_named name.now self.now.listed) + 1 }
    {
        met(alloc, self.links(), name, steps)
    }
}
