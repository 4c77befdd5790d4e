//! The records of dumps, linked by index: each at the place of its id, all of them in the order of recording, those of each
//! volume set and of each initial id, and the fragments of each dump and of the volumes of each name.

ghost use Rattle.std.specs.Prelude.{◌≡◌, ℕ, ◌+◌, ◌*◌, ◌<◌, ◌≤◌, List, [], ◌∷◌, ◌++◌, length, slice_get, Some, None, OnOk, OnErr, IsOk, is_some, if◌then◌else◌};
ghost use Rattle.std.specs.Option.{option_copied};
ghost use Rattle.budb_links.specs.Entries.{entry_at, dumps_of, places_of, record_of, record_at, without_id, of_bucket, of_set, of_initial};
ghost use Rattle.budb_links.specs.Frags.{Placed, dump_frags, frags_of, count_frags, fragments, frag_places, of_dump, of_volume, without_dump, frag_at};
ghost use Rattle.budb_links.specs.Linked.{listed, places};
ghost use Rattle.budb_links.specs.Keyed.{Differ};

use crate::frags::{FragPlace, Frags};
use crate::records::Records;
use crate::steps::Steps;
use crate::volumes::{link_dump, unlink_taken};
use budb_changes::DumpRecord;
use std::alloc::{AllocError, Global};
use std::marker::Model;
use std::sync::ledger::Ledger;

/// Records of dumps, linked by index. Contracts see the records and their fragments in the order of recording, each with
/// its place, and how many more of both have room.
#[derive(Drop)]
pub struct Links {
    records: Records,
    frags: Frags,
}

impl Model for Links {
    ghost use Rattle.std.specs.Prelude.{length};
    ghost use Rattle.budb_links.specs.Linked.{Linked};

    ghost Value = { Linked };

    ghost use Rattle.budb_links.specs.Filing.{frags_in, KeepsFrags};

    ghost view = { λ a. record { entries = a.records.entries; frags = frags_in a.frags.keys a.records.entries; spare_records = a.records.spare_records; spare_frags = length a.frags.free.items } };

    ghost invariant = { λ a. KeepsFrags a.frags a.records.entries };
}

impl Links {
    /// No record, and no room. It takes no memory.
    pub fn new(alloc: Global) -> Links
        ensures entries { result.entries ≡ [] }
        ensures frags { result.frags ≡ [] }
        ensures spare { result.spare_records ≡ 0 }
        ensures spare_frags { result.spare_frags ≡ 0 }
    {
        Links {
            records: Records::new(alloc),
            frags: Frags::new(alloc),
        }
    }

    /// Makes room for so many more records and so many more fragments. Where memory is refused nothing has changed.
    pub fn reserve(&mut self, records: usize, frags: usize) -> Result<(), AllocError>
        ensures entries { self.new.entries ≡ self.old.entries }
        ensures frags { self.new.frags ≡ self.old.frags }
        ensures ok { OnOk result (records ≤ self.new.spare_records) }
        ensures ok_frags { OnOk result (frags ≤ self.new.spare_frags) }
        ensures kept { self.old.spare_records ≤ self.new.spare_records }
        ensures kept_frags { self.old.spare_frags ≤ self.new.spare_frags }
        ensures err { OnErr result (self.new ≡ self.old) }
        ensures enough { records ≤ self.old.spare_records → frags ≤ self.old.spare_frags → IsOk result }
    {
        self.frags.prepare(frags)?;
        self.records.reserve(records)?;
        self.frags.widen(frags);
        Ok(())
    }

    /// How many more records have room.
    pub fn spare_records(&self) -> usize
        ensures { result ≡ self.now.spare_records }
    {
        self.records.spare_records()
    }

    /// How many more fragments have room.
    pub fn spare_frags(&self) -> usize
        ensures { result ≡ self.now.spare_frags }
    {
        self.frags.spare()
    }

    /// Puts a record behind all others, and its fragments behind all others. It takes no memory.
    pub fn insert<L: Ledger>(&mut self, dump: DumpRecord, steps: &mut Steps<L>)
        requires room { 0 < self.old.spare_records }
        requires frag_room { length (dump_frags dump) ≤ self.old.spare_frags }
        requires fresh { record_of dump.id (listed self.old) ≡ None }
        ensures entries { (place : ℕ) × (self.new.entries ≡ self.old.entries ++ entry_at place dump ∷ []) }
        ensures frags { (more : List Placed) × (fragments more ≡ dump_frags dump) × (self.new.frags ≡ self.old.frags ++ more) }
        ensures spare { self.new.spare_records + 1 ≡ self.old.spare_records }
        ensures spare_frags { self.new.spare_frags + length (dump_frags dump) ≡ self.old.spare_frags }
        ensures cost { steps.new ≤ steps.old + 4 * length (dump_frags dump) + 10 }
    {
        let fields = dump.fields();
        link_dump(&mut self.frags, fields.id, fields, steps);
        self.records.insert(dump, steps);
    }

    /// Takes the record of an id out, and its fragments; `None` where there is none. It takes no memory.
    pub fn unlink<L: Ledger>(&mut self, id: u32, steps: &mut Steps<L>) -> Option<DumpRecord>
        ensures record { result ≡ record_of id (listed self.old) }
        ensures entries { self.new.entries ≡ without_id id self.old.entries }
        ensures frags { self.new.frags ≡ without_dump id self.old.frags }
        ensures spare { self.new.spare_records ≡ (if is_some result then self.old.spare_records + 1 else self.old.spare_records) }
        ensures spare_frags { self.new.spare_frags ≡ self.old.spare_frags + count_frags result }
        ensures cost { steps.new ≤ steps.old + of_bucket id (listed self.old) + 4 * count_frags result + 11 }
    {
        let taken = self.records.unlink(id, steps);
        unlink_taken(&mut self.frags, &taken, steps);
        taken
    }

    /// The record of an id; `None` where there is none.
    pub fn find<L: Ledger>(&self, id: u32, steps: &mut Steps<L>) -> Option<&DumpRecord>
        ensures record { option_copied result ≡ record_of id (listed self.now) }
        ensures cost { steps.new ≤ steps.old + of_bucket id (listed self.now) + 1 }
    {
        self.records.find(id, steps)
    }

    /// The first place in the chain of all records, or the one behind a place in it.
    pub fn walk_all<L: Ledger>(&self, at: Option<usize>, steps: &mut Steps<L>) -> Option<usize>
        ensures first { at ≡ None → result ≡ slice_get (places self.now) 0 }
        ensures behind { (index place : ℕ) → at ≡ Some place → slice_get (places self.now) index ≡ Some place → result ≡ slice_get (places self.now) (index + 1) }
        ensures cost { steps.new ≤ steps.old + 1 }
    {
        self.records.walk_all(at, steps)
    }

    /// The first place in the chain of the records of a volume set, or the one behind a place in it. The key is the set's
    /// name.
    pub fn walk_set<L: Ledger>(
        &self,
        key: &[u8],
        at: Option<usize>,
        steps: &mut Steps<L>,
    ) -> Option<usize>
        ensures first { at ≡ None → result ≡ slice_get (places_of (of_set key.now self.now.entries)) 0 }
        ensures behind { (index place : ℕ) → at ≡ Some place → slice_get (places_of (of_set key.now self.now.entries)) index ≡ Some place → result ≡ slice_get (places_of (of_set key.now self.now.entries)) (index + 1) }
        ensures cost { steps.new ≤ steps.old + 1 }
    {
        self.records.walk_set(key, at, steps)
    }

    /// The first place in the chain of the records of an initial id, or the one behind a place in it. The key is the id in
    /// four bytes, the highest first.
    pub fn walk_initial<L: Ledger>(
        &self,
        key: &[u8],
        at: Option<usize>,
        steps: &mut Steps<L>,
    ) -> Option<usize>
        ensures first { at ≡ None → result ≡ slice_get (places_of (of_initial key.now self.now.entries)) 0 }
        ensures behind { (index place : ℕ) → at ≡ Some place → slice_get (places_of (of_initial key.now self.now.entries)) index ≡ Some place → result ≡ slice_get (places_of (of_initial key.now self.now.entries)) (index + 1) }
        ensures cost { steps.new ≤ steps.old + 1 }
    {
        self.records.walk_initial(key, at, steps)
    }

    /// The record at a place; `None` where none stands there. No two records have a place.
    pub fn record_at<L: Ledger>(&self, at: usize, steps: &mut Steps<L>) -> Option<&DumpRecord>
        ensures record { option_copied result ≡ record_at at self.now.entries }
        ensures apart { Differ (places self.now) }
        ensures cost { steps.new ≤ steps.old + 1 }
    {
        self.records.record_at(at, steps)
    }

    /// The first place in the chain of the fragments of a dump, or the one behind a place in it. The key is the dump's id in
    /// four bytes, the highest first.
    pub fn walk_dump<L: Ledger>(
        &self,
        key: &[u8],
        at: Option<usize>,
        steps: &mut Steps<L>,
    ) -> Option<usize>
        ensures first { at ≡ None → result ≡ slice_get (frag_places (of_dump key.now self.now.frags)) 0 }
        ensures behind { (index place : ℕ) → at ≡ Some place → slice_get (frag_places (of_dump key.now self.now.frags)) index ≡ Some place → result ≡ slice_get (frag_places (of_dump key.now self.now.frags)) (index + 1) }
        ensures whole { fragments self.now.frags ≡ frags_of (listed self.now) }
        ensures cost { steps.new ≤ steps.old + 1 }
    {
        match at {
            None => self.frags.first_of_dump(key),
            Some(place) => self.frags.after_in_dump(place, steps),
        }
    }

    /// The first place in the chain of the fragments of the volumes of a name, or the one behind a place in it. The key is
    /// the name.
    pub fn walk_volume<L: Ledger>(
        &self,
        key: &[u8],
        at: Option<usize>,
        steps: &mut Steps<L>,
    ) -> Option<usize>
        ensures first { at ≡ None → result ≡ slice_get (frag_places (of_volume key.now self.now.frags)) 0 }
        ensures behind { (index place : ℕ) → at ≡ Some place → slice_get (frag_places (of_volume key.now self.now.frags)) index ≡ Some place → result ≡ slice_get (frag_places (of_volume key.now self.now.frags)) (index + 1) }
        ensures whole { fragments self.now.frags ≡ frags_of (listed self.now) }
        ensures cost { steps.new ≤ steps.old + 1 }
    {
        match at {
            None => self.frags.first_of_volume(key),
            Some(place) => self.frags.after_in_volume(place, steps),
        }
    }

    /// Which fragment stands at a place; `None` where none does. No two fragments have a place.
    pub fn frag_at<L: Ledger>(&self, at: usize, steps: &mut Steps<L>) -> Option<FragPlace>
        ensures frag { result ≡ frag_at at self.now.frags }
        ensures apart { Differ (frag_places self.now.frags) }
        ensures whole { fragments self.now.frags ≡ frags_of (listed self.now) }
        ensures cost { steps.new ≤ steps.old + 1 }
    {
        steps.tick();
        self.frags.mark(at)
    }
}
