//! The records of dumps: each at the place of its id, in the chain of all of them in the order of recording, and in those
//! of its volume set and of its initial id.

ghost use Rattle.std.specs.Prelude.{◌≡◌, ◌≢◌, ℕ, ◌+◌, ◌^◌, ◌<◌, ◌≤◌, [], ◌∷◌, ◌++◌, length, slice_get, Some, None, OnOk, OnErr, IsOk, is_some, if◌then◌else◌};
ghost use Rattle.std.specs.Option.{option_copied};
ghost use Rattle.budb_links.specs.Entries.{entry_at, dumps_of, places_of, record_of, record_at, without_id, of_set, of_initial};
ghost use Rattle.budb_links.specs.Keyed.{Differ};

use crate::arena::Arena;
use crate::ids::{Ids, widen};
use crate::keys::{IDS, Keys, NAMES, unlink_keys};
use crate::shelf::Shelf;
use crate::steps::Steps;
use budb_changes::DumpRecord;
use std::alloc::{AllocError, Global};
use std::marker::Model;
use std::sync::ledger::Ledger;

/// The family of the one chain of all records.
const ALL: usize = 0;

/// Records of dumps in their chains. Contracts see the records in the order of recording, each with its place, and how
/// many more have room.
#[derive(Drop)]
pub(crate) struct Records {
    arena: Arena,
    shelf: Shelf,
    ids: Ids,
    keys: Keys,
}

impl Model for Records {
    ghost use Rattle.std.specs.Prelude.{length};
    ghost use Rattle.budb_links.specs.Entries.{Recorded};

    ghost Value = { Recorded };

    ghost use Rattle.budb_links.specs.Chained.{chain_of};
    ghost use Rattle.budb_links.specs.Stored.{Stores, NumbersIds, entries_of};
    ghost use Rattle.budb_links.specs.Keyed.{StoresKeys, filed_records};

    ghost view = { λ a. record { entries = entries_of a.shelf (chain_of a.arena 0 0); spare_records = length a.ids.spare } };

    ghost invariant = { λ a. Stores a.arena a.shelf a.ids.spare (entries_of a.shelf (chain_of a.arena 0 0)) × NumbersIds a.ids (length a.shelf) (entries_of a.shelf (chain_of a.arena 0 0)) × StoresKeys a.keys (length a.shelf) (filed_records (entries_of a.shelf (chain_of a.arena 0 0))) };
}

/// The id of a record.
fn id_of(dump: &DumpRecord) -> u32
    ensures is { result ≡ dump.now.id }
    ensures small { result < 2 ^ 32 }
{
    dump.fields().id
}

impl Records {
    /// No record, and no room. It takes no memory.
    pub fn new(alloc: Global) -> Records
        ensures entries { result.entries ≡ [] }
        ensures spare { result.spare_records ≡ 0 }
    {
        Records {
            arena: Arena::new(alloc),
            shelf: Shelf::new(alloc),
            ids: Ids::new(alloc),
            keys: Keys::new(alloc),
        }
    }

    /// Makes room for so many more records. Where memory is refused nothing has changed.
    pub fn reserve(&mut self, records: usize) -> Result<(), AllocError>
        ensures entries { self.new.entries ≡ self.old.entries }
        ensures ok { OnOk result (records ≤ self.new.spare_records) }
        ensures kept { self.old.spare_records ≤ self.new.spare_records }
        ensures err { OnErr result (self.new ≡ self.old) }
        ensures enough { records ≤ self.old.spare_records → IsOk result }
    {
        let spare = self.ids.free();
        if records <= spare {
            return Ok(());
        }
        let count = records - spare;
        let first = self.shelf.places();
        let total = first.checked_add(count).ok_or(AllocError)?;
        self.arena.reserve(1, total)?;
        self.keys.reserve(total)?;
        widen(&mut self.shelf, &mut self.ids, count)
    }

    /// How many more records have room.
    pub fn spare_records(&self) -> usize
        ensures { result ≡ self.now.spare_records }
    {
        self.ids.free()
    }

    /// Puts a record behind all others. It takes no memory.
    pub fn insert<L: Ledger>(&mut self, dump: DumpRecord, steps: &mut Steps<L>)
        requires room { 0 < self.old.spare_records }
        requires fresh { record_of dump.id (dumps_of self.old.entries) ≡ None }
        ensures entries { (place : ℕ) × (self.new.entries ≡ self.old.entries ++ entry_at place dump ∷ []) }
        ensures spare { self.new.spare_records + 1 ≡ self.old.spare_records }
        ensures cost { steps.new ≤ steps.old + 10 }
    {
        let id = id_of(&dump);
        let place = self.ids.enter(id);
        self.arena.push(ALL, 0, place, id, steps);
        let fields = dump.fields();
        self.keys
            .link(place, id, fields.set.bytes(), fields.initial, steps);
        self.shelf.put(place, dump, steps);
    }

    /// Takes the record of an id out; `None` where there is none. It takes no memory.
    pub fn unlink<L: Ledger>(&mut self, id: u32, steps: &mut Steps<L>) -> Option<DumpRecord>
        ensures record { result ≡ record_of id (dumps_of self.old.entries) }
        ensures entries { self.new.entries ≡ without_id id self.old.entries }
        ensures spare { self.new.spare_records ≡ (if is_some result then self.old.spare_records + 1 else self.old.spare_records) }
        ensures cost { steps.new ≤ steps.old + 9 }
    {
        match self.ids.find(id) {
            None => None,
            Some(place) => {
                let row = self.arena.look(place, steps);
                self.arena.cut(ALL, place, row[ALL], steps);
                self.ids.leave(id);
                let taken = self.shelf.take(place, steps);
                unlink_keys(&mut self.keys, place, &taken, steps);
                taken
            }
        }
    }

    /// The record of an id; `None` where there is none.
    pub fn find<L: Ledger>(&self, id: u32, steps: &mut Steps<L>) -> Option<&DumpRecord>
        ensures record { option_copied result ≡ record_of id (dumps_of self.now.entries) }
        ensures cost { steps.new ≤ steps.old + 1 }
    {
        match self.ids.find(id) {
            None => None,
            Some(place) => self.shelf.get(place, steps),
        }
    }

    /// The first place in the chain of all records, or the one behind a place in it.
    pub fn walk_all<L: Ledger>(&self, at: Option<usize>, steps: &mut Steps<L>) -> Option<usize>
        ensures first { at ≡ None → result ≡ slice_get (places_of self.now.entries) 0 }
        ensures behind { (index place : ℕ) → at ≡ Some place → slice_get (places_of self.now.entries) index ≡ Some place → result ≡ slice_get (places_of self.now.entries) (index + 1) }
        ensures cost { steps.new ≤ steps.old + 1 }
    {
        match at {
            None => self.arena.first(ALL, 0),
            Some(place) => self.arena.after(ALL, place, steps),
        }
    }

    /// The first place in the chain of the records of a volume set, or the one behind a place in it. The key is the set's
    /// name.
    pub fn walk_set<L: Ledger>(
        &self,
        key: &[u8],
        at: Option<usize>,
        steps: &mut Steps<L>,
    ) -> Option<usize>
        ensures first { at ≡ None → result ≡ slice_get (places_of (of_set key.now self.now.entries)) 0 }
        ensures behind { (index place : ℕ) → at ≡ Some place → slice_get (places_of (of_set key.now self.now.entries)) index ≡ Some place → result ≡ slice_get (places_of (of_set key.now self.now.entries)) (index + 1) }
        ensures cost { steps.new ≤ steps.old + 1 }
    {
        match at {
            None => self.keys.first_of_name(key),
            Some(place) => self.keys.after(NAMES, place, steps),
        }
    }

    /// The first place in the chain of the records of an initial id, or the one behind a place in it. The key is the id in
    /// four bytes, the highest first.
    pub fn walk_initial<L: Ledger>(
        &self,
        key: &[u8],
        at: Option<usize>,
        steps: &mut Steps<L>,
    ) -> Option<usize>
        ensures first { at ≡ None → result ≡ slice_get (places_of (of_initial key.now self.now.entries)) 0 }
        ensures behind { (index place : ℕ) → at ≡ Some place → slice_get (places_of (of_initial key.now self.now.entries)) index ≡ Some place → result ≡ slice_get (places_of (of_initial key.now self.now.entries)) (index + 1) }
        ensures cost { steps.new ≤ steps.old + 1 }
    {
        match at {
            None => self.keys.first_of_id(key),
            Some(place) => self.keys.after(IDS, place, steps),
        }
    }

    /// The record at a place; `None` where none stands there. No two records have a place.
    pub fn record_at<L: Ledger>(&self, at: usize, steps: &mut Steps<L>) -> Option<&DumpRecord>
        ensures record { option_copied result ≡ record_at at self.now.entries }
        ensures apart { Differ (places_of self.now.entries) }
        ensures cost { steps.new ≤ steps.old + 1 }
    {
        self.shelf.get(at, steps)
    }
}
