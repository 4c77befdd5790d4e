//! The chain of a dump for a volume: the dumps that together give the volume, the whole one first.

ghost use Rattle.std.specs.Prelude.{◌≡◌, reverse};
ghost use Rattle.budb_fold.specs.Chains.{Chains};

use crate::fault::ChainFault;
use crate::lookups::{record_of, volume_of};
use bk_text::List;
use budb_changes::DumpRecord;
use std::alloc::Global;

/// These ids in the other order.
fn reversed(ids: List<u32>) -> List<u32>
    ensures { result ≡ reverse ids }
{
    let mut items = ids.into_vec();
    items.reverse();
    List::from_vec(items)
}

/// The chain of a dump for a volume of this name: the dump alone where its from time is 0, else its parent's chain and then
/// the dump. `Missing` tells the first id, going upwards, that isn't among the records or whose record doesn't hold the name.
/// Each parent should lie below its dump, as in each database of a log; else `Missing` may tell the id to which so many
/// steps have led. The search is plain and slow: it goes over the records at each step.
pub fn chain_of(
    alloc: Global,
    records: &[DumpRecord],
    id: u32,
    name: &[u8],
) -> Result<List<u32>, ChainFault>
    ensures { Chains records.now id name.now result }
{
    let mut upwards = List::new(alloc);
    let mut next = id;
    for _step in 0..u64::from(id) + 1 {
        let dump = record_of(records, next).ok_or(ChainFault::Missing { id: next })?;
        let volume = volume_of(dump, name).ok_or(ChainFault::Missing { id: next })?;
        upwards.push(next)?;
        if volume.fields().from == 0 {
            return Ok(reversed(upwards));
        }
        next = dump.fields().parent;
    }
    Err(ChainFault::Missing { id: next })
}
