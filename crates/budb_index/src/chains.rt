//! The chain of a dump for a volume, each dump found by its id.

ghost use Rattle.std.specs.Prelude.{◌≡◌, reverse};
ghost use Rattle.budb_fold.specs.Chains.{Chains};

use crate::index::Index;
use bk_text::List;
use budb_fold::{ChainFault, volume_of};
use budb_links::Steps;
use std::alloc::Global;
use std::sync::ledger::Ledger;

/// These ids in the other order.
fn reversed(ids: List<u32>) -> List<u32>
    ensures { result ≡ reverse ids }
{
    let mut items = ids.into_vec();
    items.reverse();
    List::from_vec(items)
}

impl Index {
    /// The chain of a dump for a volume of this name: the dump alone where its from time is 0, else its parent's chain and then
    /// the dump. `Missing` tells the first id, going upwards, that isn't listed or whose record doesn't hold the name. Each
    /// parent should lie below its dump, as in each database of a log; else `Missing` may tell the id to which so many steps
    /// have led.
    pub fn chain_of<L: Ledger>(
        &self,
        alloc: Global,
        id: u32,
        name: &[u8],
        steps: &mut Steps<L>,
    ) -> Result<List<u32>, ChainFault>
        ensures { Chains self.now.listed id name.now result }
    {
        let mut upwards = List::new(alloc);
        let mut next = id;
        for _step in 0..u64::from(id) + 1 {
            let dump = self
                .find(next, steps)
                .ok_or(ChainFault::Missing { id: next })?;
            let volume = volume_of(dump, name).ok_or(ChainFault::Missing { id: next })?;
            upwards.push(next)?;
            if volume.fields().from == 0 {
                return Ok(reversed(upwards));
            }
            next = dump.fields().parent;
        }
        Err(ChainFault::Missing { id: next })
    }
}
