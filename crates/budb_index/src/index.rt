//! The listed dumps, linked for look-ups.

ghost use Rattle.std.specs.Prelude.{◌≡◌, ◌+◌, ◌*◌, ◌^◌, ◌<◌, ◌≤◌, [], ◌∷◌, ◌++◌, ℕ, length, true, Some, None, OnOk, OnErr};
ghost use Rattle.std.specs.Option.{option_copied};
ghost use Rattle.std.specs.List.{AllByRecursion};
ghost use Rattle.budb_links.specs.Entries.{of_bucket};
ghost use Rattle.budb_links.specs.Frags.{dump_frags, count_frags};
ghost use Rattle.budb_fold.specs.Database.{is_dump, is_initial, without};
ghost use Rattle.budb_links.specs.Linked.{listed};
ghost use Rattle.budb_fold.specs.Lookups.{record_of};
ghost use Rattle.budb_index.specs.Kept.{HasFrags, KeepsIndex, IsOfInitial};

use budb_changes::DumpRecord;
use budb_links::{Links, Steps, frag_count};
use std::alloc::{AllocError, Global};
use std::marker::Model;
use std::sync::ledger::Ledger;

/// The listed dumps, linked for look-ups. Contracts see them in the order of recording, and how many more records and
/// fragments have room. Each id is listed once.
#[derive(Drop)]
pub struct Index {
    links: Links,
}

impl Model for Index {
    ghost use Rattle.budb_links.specs.Linked.{listed};
    ghost use Rattle.budb_index.specs.Indexed.{Indexed, indexed};
    ghost use Rattle.budb_index.specs.Kept.{KeepsIndex};

    ghost Value = { Indexed };

    ghost view = { λ a. indexed a.links };

    ghost invariant = { λ a. KeepsIndex (listed a.links) };
}

/// Each volume of a record has a fragment.
fn have_frags(dump: &DumpRecord)
    ensures { HasFrags dump.now }
{
    for volume in dump.fields().volumes.as_slice() {
        let _fields = volume.fields();
    }
}

/// The initial id of a record.
fn initial_of(dump: &DumpRecord) -> u32
    ensures is { result ≡ dump.now.initial }
    ensures small { result < 2 ^ 32 }
{
    dump.fields().initial
}

impl Index {
    /// No dump. It takes no memory.
    pub fn new(alloc: Global) -> Index
        ensures listed { result.listed ≡ [] }
    {
        Index {
            links: Links::new(alloc),
        }
    }

    /// Makes room for so many more records and so many more fragments. Where memory is refused nothing has changed.
    pub(crate) fn reserve(&mut self, records: usize, frags: usize) -> Result<(), AllocError>
        ensures listed { self.new.listed ≡ self.old.listed }
        ensures records { OnOk result (records ≤ self.new.spare_records) }
        ensures frags { OnOk result (frags ≤ self.new.spare_frags) }
        ensures err { OnErr result (self.new ≡ self.old) }
    {
        self.links.reserve(records, frags)
    }

    /// Puts a record behind all others. It takes no memory.
    pub(crate) fn insert<L: Ledger>(&mut self, dump: DumpRecord, steps: &mut Steps<L>)
        requires room { 0 < self.old.spare_records }
        requires frag_room { length (dump_frags dump) ≤ self.old.spare_frags }
        requires fresh { record_of self.old.listed dump.id ≡ None }
        ensures listed { self.new.listed ≡ self.old.listed ++ dump ∷ [] }
        ensures records { self.new.spare_records + 1 ≡ self.old.spare_records }
        ensures frags { self.new.spare_frags + length (dump_frags dump) ≡ self.old.spare_frags }
        ensures cost { steps.new ≤ steps.old + 4 * length (dump_frags dump) + 10 }
    {
        have_frags(&dump);
        self.links.insert(dump, steps);
    }

    /// Takes the record of an id out; `None` where there is none. It takes no memory.
    pub(crate) fn unlink<L: Ledger>(&mut self, id: u32, steps: &mut Steps<L>) -> Option<DumpRecord>
        ensures record { result ≡ record_of self.old.listed id }
        ensures listed { self.new.listed ≡ without (is_dump id) self.old.listed }
        ensures records { self.old.spare_records ≤ self.new.spare_records }
        ensures frags { self.old.spare_frags ≤ self.new.spare_frags }
        ensures cost { steps.new ≤ steps.old + of_bucket id self.old.listed + 4 * count_frags result + 11 }
    {
        self.links.unlink(id, steps)
    }

    /// The id of the first listed dump of an initial id; `None` where there is none.
    pub(crate) fn first_of_initial<L: Ledger>(
        &self,
        initial: u32,
        steps: &mut Steps<L>,
    ) -> Option<u32>
        ensures some { (id : ℕ) → result ≡ Some id → IsOfInitial initial id self.now.listed }
        ensures none { result ≡ None → without (is_initial initial) self.now.listed ≡ self.now.listed }
        ensures cost { steps.new ≤ steps.old + 2 }
    {
        let key = initial.to_be_bytes();
        let place = self.links.walk_initial(key.as_slice(), None, steps)?;
        let dump = self.links.record_at(place, steps)?;
        if initial_of(dump) == initial {
            Some(dump.fields().id)
        } else {
            None
        }
    }

    /// The records and their chains.
    pub(crate) fn links(&self) -> &Links
        ensures listed { listed result.now ≡ self.now.listed }
        ensures keeps { KeepsIndex self.now.listed }
    {
        &self.links
    }

    /// The listed dump of an id; `None` where there is none.
    pub fn find<L: Ledger>(&self, id: u32, steps: &mut Steps<L>) -> Option<&DumpRecord>
        ensures record { option_copied result ≡ record_of self.now.listed id }
        ensures cost { steps.new ≤ steps.old + of_bucket id self.now.listed + 1 }
    {
        self.links.find(id, steps)
    }
}
