//! The parent of a dump, the latest dump of a volume and its chain.

ghost use Rattle.std.specs.Prelude.{◌≡◌, IfOk};
ghost use Rattle.budb_fold.specs.Lookups.{parent_of, latest};
ghost use Rattle.budb_fold.specs.Chains.{Chains};

use crate::database::Budb;
use bk_text::{LevelPath, List, SetName};
use budb_fold::{ChainFault, VolumeDump};
use budb_index::{chain_of, latest_of, parent_of};
use std::alloc::AllocError;

impl Budb {
    /// The parent of a dump of a set at a level: of the listed dumps of the same set the one with the greatest id at the closest
    /// level above; where there is none, the next level above is asked. 0 where there is none at all (volume set hierarchy of the
    /// AFS Administration Guide).
    pub fn parent_of(&self, set: &SetName, level: &LevelPath) -> Result<u32, AllocError>
        ensures { IfOk result (λ id. id ≡ parent_of self.now.database.listed set.now level.now) }
    {
        parent_of(self.database().sets.allocator(), self.index(), set, level)
    }

    /// The latest dump of a volume: of the listed pairs of a dump and a volume whose name fits, and whose clone time, in seconds
    /// since 1970, is below the bound where there is one, the one with the greatest clone time. Ties go by the greater id, then
    /// by the name itself before its backup volume's. A base name fits itself and the name of its backup volume; a name that
    /// ends in `.backup` fits itself alone. `None` only where there is no such pair.
    pub fn latest(
        &self,
        name: &[u8],
        before: Option<u32>,
    ) -> Result<Option<VolumeDump<'_>>, AllocError>
        ensures { IfOk result (λ one. one ≡ latest self.now.database.listed name.now before) }
    {
        latest_of(self.database().sets.allocator(), self.index(), name, before)
    }

    /// The chain of a listed dump for a volume of this name: the dump alone where its from time is 0, else its parent's chain
    /// and then the dump. `Missing` tells the first id, going upwards, that isn't listed or whose record doesn't hold the name.
    pub fn chain_of(&self, id: u32, name: &[u8]) -> Result<List<u32>, ChainFault>
        ensures { Chains self.now.database.listed id name.now result }
    {
        chain_of(self.database().sets.allocator(), self.index(), id, name)
    }
}
