//! Calls of an index whose steps nobody counts.

ghost use Rattle.std.specs.Prelude.{◌≡◌, ◌<◌, nat_eq, map, [], ◌∷◌, IfOk, OnOk, OnErr};
ghost use Rattle.std.specs.Option.{option_copied};
ghost use Rattle.std.specs.List.{IsDistinct};
ghost use Rattle.budb_fold.specs.Lookups.{record_of, greatest_at, parent_of, latest};
ghost use Rattle.budb_fold.specs.Chains.{Chains};
ghost use Rattle.budb_index.specs.Holders.{holders};
ghost use Rattle.budb_index.specs.Relistings.{relistings_of, relisted_from, lists, HasRoom};

use crate::index::Index;
use crate::relistings::Relisting;
use bk_text::{LevelPath, List, SetName};
use budb_changes::{Change, DumpRecord};
use budb_fold::{ChainFault, VolumeDump};
use budb_links::Steps;
use std::alloc::{AllocError, Global};
use std::marker::Brand;
use std::sync::ledger::{Blank, Ledger};

/// `Index::of` over a count of its own.
fn of_counted<L: Ledger>(
    alloc: Global,
    listed: &[DumpRecord],
    blank: Blank,
) -> Result<Index, AllocError>
    requires name { blank.name ≡ L.name }
    requires parts { blank.parts ≡ L.parts }
    requires one { 0 < blank.parts }
    requires once { IsDistinct nat_eq (map (λ dump. dump.id) listed.now) }
    ensures { IfOk result (λ index. index.listed ≡ listed.now) }
{
    let mut steps = Steps::<L>::new(blank);
    Index::of(alloc, listed, &mut steps)
}

/// The index of copies of these records, in their order.
pub fn index_of(alloc: Global, listed: &[DumpRecord]) -> Result<Index, AllocError>
    requires { IsDistinct nat_eq (map (λ dump. dump.id) listed.now) }
    ensures { IfOk result (λ index. index.listed ≡ listed.now) }
{
    of_counted::<Brand>(alloc, listed, Blank::new(1))
}

/// `Index::find` over a count of its own.
fn find_counted<L: Ledger>(index: &Index, id: u32, blank: Blank) -> Option<&DumpRecord>
    requires name { blank.name ≡ L.name }
    requires parts { blank.parts ≡ L.parts }
    requires one { 0 < blank.parts }
    ensures { option_copied result ≡ record_of index.now.listed id }
{
    let mut steps = Steps::<L>::new(blank);
    index.find(id, &mut steps)
}

/// The listed dump of an id; `None` where there is none.
pub fn find(index: &Index, id: u32) -> Option<&DumpRecord>
    ensures { option_copied result ≡ record_of index.now.listed id }
{
    find_counted::<Brand>(index, id, Blank::new(1))
}

/// `Index::latest_for_set` over a count of its own.
fn greatest_counted<L: Ledger>(
    index: &Index,
    set: &SetName,
    level: &LevelPath,
    blank: Blank,
) -> Option<u32>
    requires name { blank.name ≡ L.name }
    requires parts { blank.parts ≡ L.parts }
    requires one { 0 < blank.parts }
    ensures { result ≡ greatest_at index.now.listed set.now level.now }
{
    let mut steps = Steps::<L>::new(blank);
    index.latest_for_set(set, level, &mut steps)
}

/// The greatest id of the listed dumps of a set at exactly this level; `None` where there is none. It takes no memory.
pub fn latest_for_set(index: &Index, set: &SetName, level: &LevelPath) -> Option<u32>
    ensures { result ≡ greatest_at index.now.listed set.now level.now }
{
    greatest_counted::<Brand>(index, set, level, Blank::new(1))
}

/// `Index::holders` over a count of its own.
fn holders_counted<L: Ledger>(
    alloc: Global,
    index: &Index,
    name: &[u8],
    blank: Blank,
) -> Result<List<u32>, AllocError>
    requires name { blank.name ≡ L.name }
    requires parts { blank.parts ≡ L.parts }
    requires one { 0 < blank.parts }
    ensures { IfOk result (λ ids. ids ≡ holders index.now.listed name.now) }
{
    let mut steps = Steps::<L>::new(blank);
    index.holders(alloc, name, &mut steps)
}

/// The ids of the listed dumps that have a volume of exactly this name, in the order of recording.
pub fn holders_of(alloc: Global, index: &Index, name: &[u8]) -> Result<List<u32>, AllocError>
    ensures { IfOk result (λ ids. ids ≡ holders index.now.listed name.now) }
{
    holders_counted::<Brand>(alloc, index, name, Blank::new(1))
}

/// `Index::parent_of` over a count of its own.
fn parent_counted<L: Ledger>(
    alloc: Global,
    index: &Index,
    set: &SetName,
    level: &LevelPath,
    blank: Blank,
) -> Result<u32, AllocError>
    requires name { blank.name ≡ L.name }
    requires parts { blank.parts ≡ L.parts }
    requires one { 0 < blank.parts }
    ensures { IfOk result (λ id. id ≡ parent_of index.now.listed set.now level.now) }
{
    let mut steps = Steps::<L>::new(blank);
    index.parent_of(alloc, set, level, &mut steps)
}

/// The parent of a dump of a set at a level: of the listed dumps of the same set the one with the greatest id at the closest
/// level above; where there is none, the next level above is asked. 0 where there is none at all.
pub fn parent_of(
    alloc: Global,
    index: &Index,
    set: &SetName,
    level: &LevelPath,
) -> Result<u32, AllocError>
    ensures { IfOk result (λ id. id ≡ parent_of index.now.listed set.now level.now) }
{
    parent_counted::<Brand>(alloc, index, set, level, Blank::new(1))
}

/// `Index::latest` over a count of its own.
fn latest_counted<'a, L: Ledger>(
    alloc: Global,
    index: &'a Index,
    name: &[u8],
    before: Option<u32>,
    blank: Blank,
) -> Result<Option<VolumeDump<'a>>, AllocError>
    requires name { blank.name ≡ L.name }
    requires parts { blank.parts ≡ L.parts }
    requires one { 0 < blank.parts }
    ensures { IfOk result (λ one. one ≡ latest index.now.listed name.now before) }
{
    let mut steps = Steps::<L>::new(blank);
    index.latest(alloc, name, before, &mut steps)
}

/// The latest dump of a volume: of the listed pairs of a dump and a volume whose name fits, and whose clone time, in seconds
/// since 1970, is below the bound where there is one, the one with the greatest clone time. Ties go by the greater id, then by
/// the name itself before its backup volume's. `None` only where there is no such pair.
pub fn latest_of<'a>(
    alloc: Global,
    index: &'a Index,
    name: &[u8],
    before: Option<u32>,
) -> Result<Option<VolumeDump<'a>>, AllocError>
    ensures { IfOk result (λ one. one ≡ latest index.now.listed name.now before) }
{
    latest_counted::<Brand>(alloc, index, name, before, Blank::new(1))
}

/// `Index::chain_of` over a count of its own.
fn chain_counted<L: Ledger>(
    alloc: Global,
    index: &Index,
    id: u32,
    name: &[u8],
    blank: Blank,
) -> Result<List<u32>, ChainFault>
    requires name { blank.name ≡ L.name }
    requires parts { blank.parts ≡ L.parts }
    requires one { 0 < blank.parts }
    ensures { Chains index.now.listed id name.now result }
{
    let mut steps = Steps::<L>::new(blank);
    index.chain_of(alloc, id, name, &mut steps)
}

/// The chain of a dump for a volume of this name: the dump alone where its from time is 0, else its parent's chain and then the
/// dump. `Missing` tells the first id, going upwards, that isn't listed or whose record doesn't hold the name. Each parent
/// should lie below its dump, as in each database of a log; else `Missing` may tell the id to which so many steps have led.
pub fn chain_of(alloc: Global, index: &Index, id: u32, name: &[u8]) -> Result<List<u32>, ChainFault>
    ensures { Chains index.now.listed id name.now result }
{
    chain_counted::<Brand>(alloc, index, id, name, Blank::new(1))
}

/// `Index::take` over a count of its own.
fn take_counted<L: Ledger>(
    index: &mut Index,
    change: &Change,
    blank: Blank,
) -> Result<bool, AllocError>
    requires name { blank.name ≡ L.name }
    requires parts { blank.parts ≡ L.parts }
    requires one { 0 < blank.parts }
    ensures lists { IfOk result (λ is. is ≡ lists change.now index.old.listed) }
    ensures listed { OnOk result (index.new.listed ≡ relisted_from (relistings_of (change.now ∷ [])) index.old.listed) }
    ensures err { OnErr result (index.new ≡ index.old) }
{
    let mut steps = Steps::<L>::new(blank);
    index.take(change, &mut steps)
}

/// Has an index follow one change, and tells whether it lists a record: one that fits. Records are looked for by their ids.
pub fn take(index: &mut Index, change: &Change) -> Result<bool, AllocError>
    ensures lists { IfOk result (λ is. is ≡ lists change.now index.old.listed) }
    ensures listed { OnOk result (index.new.listed ≡ relisted_from (relistings_of (change.now ∷ [])) index.old.listed) }
    ensures err { OnErr result (index.new ≡ index.old) }
{
    take_counted::<Brand>(index, change, Blank::new(1))
}

/// `Index::follow` over a count of its own.
fn follow_counted<L: Ledger>(index: &mut Index, coming: List<Relisting>, blank: Blank)
    requires name { blank.name ≡ L.name }
    requires parts { blank.parts ≡ L.parts }
    requires one { 0 < blank.parts }
    requires room { HasRoom index.old coming }
    ensures { index.new.listed ≡ relisted_from coming index.old.listed }
{
    let mut steps = Steps::<L>::new(blank);
    index.follow(coming, &mut steps);
}

/// Makes relistings one after the other. It takes no memory.
pub fn follow(index: &mut Index, coming: List<Relisting>)
    requires { HasRoom index.old coming }
    ensures { index.new.listed ≡ relisted_from coming index.old.listed }
{
    follow_counted::<Brand>(index, coming, Blank::new(1));
}
