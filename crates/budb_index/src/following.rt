//! An index that follows its database: all memory is taken before, so that no change is refused.

ghost use Rattle.std.specs.Prelude.{◌≡◌, ◌+◌, ◌*◌, ◌<◌, ◌≤◌, not, if◌then◌else◌, ◌++◌, [], ◌∷◌, ℕ, length, None, IfOk, OnOk, OnErr};
ghost use Rattle.std.specs.List.{list_all};
ghost use Rattle.budb_links.specs.Frags.{dump_frags};
ghost use Rattle.budb_fold.specs.Database.{has_dump, is_whole, fits_record};
ghost use Rattle.budb_index.specs.Relistings.{relistings_of, relisted, relisted_from, records_in, records_of, fragments_in, fragments_of, HasRoom};

use crate::filling::sum_of;
use crate::index::Index;
use crate::relistings::{Relisting, relistings_of};
use bk_text::List;
use budb_changes::{Change, DumpRecord, VolRecord};
use budb_links::{Steps, frag_count};
use std::alloc::{AllocError, Global};
use std::sync::ledger::Ledger;

/// How many records a relisting may list.
fn records_of(one: &Relisting) -> usize
    ensures is { result ≡ records_of one.now }
    ensures most { result ≤ 1 }
{
    match one {
        Relisting::Put(_) => 1,
        Relisting::DropSet { .. } | Relisting::DropDump { .. } => 0,
    }
}

/// How many fragments it may list.
fn fragments_of(one: &Relisting) -> usize
    ensures { result ≡ fragments_of one.now }
{
    match one {
        Relisting::Put(dump) => frag_count(dump),
        Relisting::DropSet { .. } | Relisting::DropDump { .. } => 0,
    }
}

/// How many records these may list.
fn records_in(coming: &[Relisting]) -> usize
    ensures { result ≡ records_in coming.now }
{
    let mut count = 0;
    for one in coming {
        count += records_of(one);
    }
    count
}

/// How many fragments these may list. More than can be counted are as memory that is refused.
fn fragments_in(coming: &[Relisting]) -> Result<usize, AllocError>
    ensures { IfOk result (λ count. count ≡ fragments_in coming.now) }
{
    let mut count = 0;
    for one in coming {
        count = sum_of(count, fragments_of(one))?;
    }
    Ok(count)
}

/// Whether a volume was dumped whole.
fn is_full(volume: &VolRecord) -> bool
    ensures { result ≡ is_whole volume.now }
{
    volume.fields().from == 0
}

/// Whether all volumes were dumped whole.
fn are_full(volumes: &[VolRecord]) -> bool
    ensures { result ≡ list_all is_whole volumes.now }
{
    volumes.iter().all(is_full)
}

impl Index {
    /// Whether the dump of an id is listed.
    fn is_listed<L: Ledger>(&self, id: u32, steps: &mut Steps<L>) -> bool
        ensures { result ≡ has_dump self.now.listed id }
    {
        self.find(id, steps).is_some()
    }

    /// Whether a record fits: its id isn't 0 and isn't listed, its parent is below it, and without a parent it has whole
    /// volumes alone.
    pub(crate) fn fits<L: Ledger>(&self, dump: &DumpRecord, steps: &mut Steps<L>) -> bool
        ensures { result ≡ fits_record dump.now self.now.listed }
    {
        let fields = dump.fields();
        fields.id != 0
            && !self.is_listed(fields.id, steps)
            && fields.parent < fields.id
            && (fields.parent != 0 || are_full(fields.volumes.as_slice()))
    }

    /// Lists a record, last, where it fits. It takes no memory.
    pub(crate) fn put<L: Ledger>(&mut self, dump: DumpRecord, steps: &mut Steps<L>)
        requires room { 0 < self.old.spare_records }
        requires frag_room { length (dump_frags dump) ≤ self.old.spare_frags }
        ensures listed { self.new.listed ≡ (if fits_record dump self.old.listed then self.old.listed ++ dump ∷ [] else self.old.listed) }
        ensures records { self.old.spare_records ≤ self.new.spare_records + 1 }
        ensures frags { self.old.spare_frags ≤ self.new.spare_frags + length (dump_frags dump) }
    {
        if self.fits(&dump, steps) {
            self.insert(dump, steps);
        }
    }

    /// Makes one relisting. It takes no memory.
    fn relist<L: Ledger>(&mut self, one: Relisting, steps: &mut Steps<L>)
        requires { HasRoom self.old (one ∷ []) }
        ensures listed { self.new.listed ≡ relisted one self.old.listed }
        ensures records { self.old.spare_records ≤ self.new.spare_records + records_of one }
        ensures frags { self.old.spare_frags ≤ self.new.spare_frags + fragments_of one }
    {
        match one {
            Relisting::Put(dump) => self.put(dump, steps),
            Relisting::DropSet { initial } => self.drop_set(initial, steps),
            Relisting::DropDump { id } => self.drop_dump(id, steps),
        }
    }

    /// Takes the memory that following these changes needs: makes room, and copies their records. The listed dumps stay.
    pub fn prepare(
        &mut self,
        alloc: Global,
        changes: &[Change],
    ) -> Result<List<Relisting>, AllocError>
        ensures listed { self.new.listed ≡ self.old.listed }
        ensures coming { IfOk result (λ coming. coming ≡ relistings_of changes.now) }
        ensures room { IfOk result (λ coming. HasRoom self.new coming) }
        ensures err { OnErr result (self.new ≡ self.old) }
    {
        let coming = relistings_of(alloc, changes)?;
        let frags = fragments_in(coming.as_slice())?;
        self.reserve(records_in(coming.as_slice()), frags)?;
        Ok(coming)
    }

    /// Makes relistings one after the other. It takes no memory. What no relisting touches isn't looked at, but for one look-up
    /// by the id for each record that is listed.
    pub fn follow<L: Ledger>(&mut self, coming: List<Relisting>, steps: &mut Steps<L>)
        requires { HasRoom self.old coming }
        ensures listed { self.new.listed ≡ relisted_from coming self.old.listed }
    {
        for one in coming.into_vec() {
            self.relist(one, steps);
        }
    }
}
