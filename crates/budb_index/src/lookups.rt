//! The greatest id of a volume set at a level, and the parent of a dump, by the chain of the set.

ghost use Rattle.std.specs.Prelude.{◌≡◌, ◌+◌, ◌*◌, ◌≤◌, if◌then◌else◌, length, Some, IfOk};
ghost use Rattle.bk_text.specs.Blanks.{is_same_text};
ghost use Rattle.budb_links.specs.Linked.{listed};
ghost use Rattle.budb_fold.specs.Lookups.{greatest_at, parent_of};
ghost use Rattle.budb_index.specs.Walks.{dumps_of_set, greater};

use crate::index::Index;
use crate::walks::{first_of_set, next_of_set};
use bk_text::{LevelPath, SetName};
use budb_changes::DumpRecord;
use budb_links::{Links, Steps};
use dump_levels::Levels;
use std::alloc::{AllocError, Global};
use std::sync::ledger::Ledger;

/// The greater one of an id and another, where there is another.
fn greater_of(id: u32, other: Option<u32>) -> Option<u32>
    ensures { result ≡ greater (Some id) other }
{
    Some(id.max(other.unwrap_or(0)))
}

/// The greatest id so far with a dump more, which counts where it is of the level.
fn greatest_with(dump: &DumpRecord, level: &LevelPath, greatest: Option<u32>) -> Option<u32>
    ensures { result ≡ (if is_same_text dump.now.level level.now then greater (Some dump.now.id) greatest else greatest) }
{
    if dump.fields().level.bytes() == level.bytes() {
        greater_of(dump.fields().id, greatest)
    } else {
        greatest
    }
}

/// The greatest id of the records of a set at a level. The key is the set's name.
fn greatest_in<L: Ledger>(
    links: &Links,
    key: &[u8],
    level: &LevelPath,
    steps: &mut Steps<L>,
) -> Option<u32>
    ensures greatest { result ≡ greatest_at (listed links.now) key.now level.now }
    ensures cost { steps.new ≤ steps.old + 2 * length (dumps_of_set key.now (listed links.now)) + 1 }
{
    let mut greatest = None;
    let mut at = first_of_set(links, key, steps);
    while let Some(dump) = next_of_set(links, key, &mut at, steps) {
        greatest = greatest_with(dump, level, greatest);
    }
    greatest
}

impl Index {
    /// The greatest id of the listed dumps of a set at exactly this level; `None` where there is none. It takes no memory.
    pub fn latest_for_set<L: Ledger>(
        &self,
        set: &SetName,
        level: &LevelPath,
        steps: &mut Steps<L>,
    ) -> Option<u32>
        ensures greatest { result ≡ greatest_at self.now.listed set.now level.now }
        ensures cost { steps.new ≤ steps.old + 2 * length (dumps_of_set set.now self.now.listed) + 1 }
    {
        greatest_in(self.links(), set.bytes(), level, steps)
    }

    /// The parent of a dump of a set at a level: of the listed dumps of the same set the one with the greatest id at the
    /// closest level above; where there is none, the next level above is asked. 0 where there is none at all.
    pub fn parent_of<L: Ledger>(
        &self,
        alloc: Global,
        set: &SetName,
        level: &LevelPath,
        steps: &mut Steps<L>,
    ) -> Result<u32, AllocError>
        ensures { IfOk result (λ id. id ≡ parent_of self.now.listed set.now level.now) }
    {
        let levels = Levels::new(alloc).ancestors(level)?;
        for upper in levels.as_slice() {
            if let Some(id) = self.latest_for_set(set, upper, steps) {
                return Ok(id);
            }
        }
        Ok(0)
    }
}
