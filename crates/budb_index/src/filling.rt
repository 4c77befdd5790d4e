//! An index of given records.

ghost use Rattle.std.specs.Prelude.{◌≡◌, ◌+◌, ◌*◌, ◌≤◌, [], nat_eq, map, length, IfOk, OnOk};
ghost use Rattle.std.specs.List.{IsDistinct};
ghost use Rattle.budb_links.specs.Frags.{frags_of};

use crate::index::Index;
use budb_changes::DumpRecord;
use budb_links::{Steps, frag_count};
use std::alloc::{AllocError, Global};
use std::sync::ledger::Ledger;

/// The sum of two counts. One that can't be counted is as memory that is refused.
pub(crate) fn sum_of(count: usize, more: usize) -> Result<usize, AllocError>
    ensures { IfOk result (λ sum. sum ≡ count + more) }
{
    count.checked_add(more).ok_or(AllocError)
}

/// How many fragments these records have. More than can be counted are as memory that is refused.
pub(crate) fn frags_in(listed: &[DumpRecord]) -> Result<usize, AllocError>
    ensures { IfOk result (λ count. count ≡ length (frags_of listed.now)) }
{
    let mut count = 0;
    for dump in listed {
        count = sum_of(count, frag_count(dump))?;
    }
    Ok(count)
}

impl Index {
    /// The index of copies of these records, in their order.
    pub fn of<L: Ledger>(
        alloc: Global,
        listed: &[DumpRecord],
        steps: &mut Steps<L>,
    ) -> Result<Index, AllocError>
        requires once { IsDistinct nat_eq (map (λ dump. dump.id) listed.now) }
        ensures listed { IfOk result (λ index. index.listed ≡ listed.now) }
        ensures cost { OnOk result (steps.new ≤ steps.old + 4 * length (frags_of listed.now) + 10 * length listed.now) }
    {
        let mut index = Index::new(alloc);
        index.fill(listed, steps)?;
        Ok(index)
    }

    /// Puts copies of these records into an index without any.
    fn fill<L: Ledger>(
        &mut self,
        listed: &[DumpRecord],
        steps: &mut Steps<L>,
    ) -> Result<(), AllocError>
        requires empty { self.old.listed ≡ [] }
        requires once { IsDistinct nat_eq (map (λ dump. dump.id) listed.now) }
        ensures listed { OnOk result (self.new.listed ≡ listed.now) }
        ensures cost { OnOk result (steps.new ≤ steps.old + 4 * length (frags_of listed.now) + 10 * length listed.now) }
    {
        self.reserve(listed.len(), frags_in(listed)?)?;
        for dump in listed {
            self.insert(dump.clone()?, steps);
        }
        Ok(())
    }
}
