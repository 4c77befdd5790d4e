//! The volume sets, in the order in which they were added.

ghost use Rattle.std.specs.Prelude.{◌≡◌, ◌<◌, ◌≤◌, ◌++◌, [], ◌∷◌, length, map, false, ◌&&◌, nat_lt, nat_le, slice_index_or, MatchOption, None, Some, OnOk, OnErr};
ghost use Rattle.bk_text.specs.Changes.{Changes, ChangesUnless};
ghost use Rattle.volume_sets.specs.Expansions.{Expands};
ghost use Rattle.volume_sets.specs.Sets.{set_of, has_set, without_set, entries_at, entries_of, NamesOnce, after_add, after_remove, after_add_entry, after_remove_entry};
ghost use Rattle.volume_sets.specs.declared.sets.SetsFault.TheVariants.{Memory};

use crate::expanding::places_in;
use crate::patterns::Pattern;
use bk_text::{Host, List, Part, SetName};
use indexmap::IndexMap;
use std::alloc::{AllocError, Global};
use std::marker::Model;
use thiserror::Error;
use vnode_model::VolEntry;

/// Which volumes a set has: those at this server and in this partition, or at any, whose names match a pattern.
#[derive(Debug, Drop)]
pub struct SetEntry {
    /// The server, or any.
    pub server: Option<Host>,
    /// The partition, or any.
    pub partition: Option<Part>,
    /// The pattern for the whole name of the volume.
    pub pattern: Pattern,
}

impl Clone for SetEntry {
    ghost is_clone = { λ a b. b ≡ a };

    fn clone(&self) -> Result<SetEntry, AllocError> {
        Ok(SetEntry {
            server: self.server.clone()?,
            partition: self.partition.clone()?,
            pattern: self.pattern.clone()?,
        })
    }
}

/// A volume set: it has the volumes that some entry has.
#[derive(Debug, Drop)]
pub struct VolumeSet {
    /// Its name.
    pub name: SetName,
    /// Its entries, in the order in which they were added.
    pub entries: List<SetEntry>,
}

/// Why a call on the volume sets was refused.
#[derive(Clone, Copy, Debug, PartialEq, Eq, Drop, Error)]
pub enum SetsFault {
    /// There is a set of this name.
    #[error("the volume set exists")]
    SetExists,
    /// There is no set of this name.
    #[error("there is no such volume set")]
    NoSuchSet,
    /// The set has no entry of this number; entries have the numbers from 1 on.
    #[error("the volume set has no such entry")]
    NoSuchEntry,
    /// Memory was refused.
    #[error("memory was refused")]
    Memory,
}

impl From<AllocError> for SetsFault {
    ghost from_gives = { λ _ e. e ≡ Memory };

    fn from(_e: AllocError) -> SetsFault {
        SetsFault::Memory
    }
}

/// The sets by their names, in the order in which they were added.
type ByName = IndexMap<SetName, List<SetEntry>>;

/// Whether there is a set of this name.
#[tactic(auto, using(crate::proofs::SetRows::rows_back))]
fn has_name(sets: &ByName, name: &SetName) -> bool
    ensures { result ≡ has_set name.now (map set_of sets.now.entries) }
{
    sets.contains_key(name)
}

/// Puts a set without entries behind those that are there, where there is none of its name.
fn put_last(sets: &mut ByName, name: SetName, entries: List<SetEntry>) -> Result<(), AllocError>
    requires { has_set name (map set_of sets.old.entries) ≡ false }
    ensures ok { OnOk result (map set_of sets.new.entries ≡ map set_of sets.old.entries ++ record { name = name; entries = entries } ∷ []) }
    ensures err { OnErr result (map set_of sets.new.entries ≡ map set_of sets.old.entries) }
{
    sets.insert(name, entries)?;
    Ok(())
}

/// Takes a set out, where there is one of this name, and tells whether there was; those behind it close up.
#[tactic(auto, using(crate::proofs::SetRows::rows_back))]
fn take_set(sets: &mut ByName, name: &SetName) -> bool
    ensures was { result ≡ has_set name.now (map set_of sets.old.entries) }
    ensures taken { map set_of sets.new.entries ≡ without_set name.now (map set_of sets.old.entries) }
    ensures same { result ≡ false → map set_of sets.new.entries ≡ map set_of sets.old.entries }
{
    match sets.shift_remove(name) {
        None => false,
        Some(_) => true,
    }
}

/// Whether one of so many has this number; they count from 1.
fn is_among(number: u32, count: usize) -> bool
    ensures { result ≡ (nat_lt 0 number && nat_le number count) }
{
    0 < number && number as usize <= count
}

/// The volume sets of a cell, each name once, in the order in which they were added.
#[derive(Debug, Drop)]
pub struct Sets {
    sets: ByName,
}

impl Model for Sets {
    ghost use Rattle.std.specs.Prelude.{List, map};
    ghost use Rattle.volume_sets.specs.declared.sets.VolumeSet.{VolumeSet};
    ghost use Rattle.volume_sets.specs.Sets.{set_of};

    ghost Value = { List VolumeSet };

    ghost view = { λ a. map set_of a.sets.entries };
}

impl Clone for Sets {
    ghost is_clone = { λ a b. b ≡ a };

    fn clone(&self) -> Result<Sets, AllocError> {
        Ok(Sets {
            sets: self.sets.clone()?,
        })
    }
}

impl Sets {
    /// No sets. It takes no memory.
    pub fn new(alloc: Global) -> Sets
        ensures { result ≡ [] }
    {
        Sets {
            sets: IndexMap::new(alloc),
        }
    }

    /// Adds a set without entries behind those that are there. `SetExists` where there is one of this name.
    pub fn add(&mut self, name: SetName) -> Result<(), SetsFault>
        ensures { ChangesUnless SetsFault.Memory (after_add name self.old) self.old result self.new }
    {
        if has_name(&self.sets, &name) {
            return Err(SetsFault::SetExists);
        }
        let entries = List::new(*self.sets.allocator());
        put_last(&mut self.sets, name, entries)?;
        Ok(())
    }

    /// Removes a set; those behind it close up. `NoSuchSet` where there is none of this name. It takes no memory.
    pub fn remove(&mut self, name: &SetName) -> Result<(), SetsFault>
        ensures { Changes (after_remove name.now self.old) self.old result self.new }
    {
        if !take_set(&mut self.sets, name) {
            return Err(SetsFault::NoSuchSet);
        }
        Ok(())
    }

    /// Adds an entry behind those that a set has. `NoSuchSet` where there is none of this name.
    #[tactic(auto, using(crate::proofs::SetRows::rows_back, std::proofs::lemmas::Map::Steps::set_value_same))]
    pub fn add_entry(&mut self, name: &SetName, entry: SetEntry) -> Result<(), SetsFault>
        ensures { ChangesUnless SetsFault.Memory (after_add_entry name.now entry self.old) self.old result self.new }
    {
        let Some(entries) = self.sets.get_mut(name) else {
            return Err(SetsFault::NoSuchSet);
        };
        entries.push(entry)?;
        Ok(())
    }

    /// Removes the entry of this number, counted from 1; those behind it close up. `NoSuchSet` where there is none of
    /// this name, then `NoSuchEntry` where the number is 0 or past the last. It takes no memory.
    #[tactic(auto, using(crate::proofs::SetRows::rows_back, std::proofs::lemmas::Map::Steps::set_value_same))]
    pub fn remove_entry(&mut self, name: &SetName, number: u32) -> Result<(), SetsFault>
        ensures { Changes (after_remove_entry name.now number self.old) self.old result self.new }
    {
        let Some(entries) = self.sets.get_mut(name) else {
            return Err(SetsFault::NoSuchSet);
        };
        if !is_among(number, entries.len()) {
            return Err(SetsFault::NoSuchEntry);
        }
        let _entry = entries.remove(number as usize - 1);
        Ok(())
    }

    /// The places in a cell's list of the volumes that a set has, ascending: a volume is among them where its server,
    /// partition and name suit some one entry, also where a bad image stands there. `NoSuchSet` where there is none of
    /// this name. A cell has at most 65,536 volumes, which is this project's own choice.
    #[tactic(auto, using(crate::proofs::SetRows::rows_back))]
    pub fn expand(&self, name: &SetName, cell: &[VolEntry]) -> Result<List<u32>, SetsFault>
        requires { length cell.now ≤ 65536 }
        ensures { Expands self.now name.now cell.now result }
    {
        let Some(entries) = self.sets.get(name) else {
            return Err(SetsFault::NoSuchSet);
        };
        let places = places_in(*self.sets.allocator(), entries.as_slice(), cell)?;
        Ok(places)
    }

    /// What gives the memory of the sets.
    pub fn allocator(&self) -> Global {
        *self.sets.allocator()
    }

    /// The number of sets.
    pub fn len(&self) -> usize
        ensures { result ≡ length self.now }
    {
        self.sets.len()
    }

    /// The entries of the set of a name, in the order in which they were added; `None` where there is none of this name.
    #[tactic(auto, using(crate::proofs::SetRows::rows_back))]
    pub fn entries_of(&self, name: &SetName) -> Option<&[SetEntry]>
        ensures once { NamesOnce self.now }
        ensures entries { MatchOption result (entries_of name.now self.now ≡ None) (λ entries. entries_of name.now self.now ≡ Some entries.now) }
    {
        let _count = self.sets.len();
        let Some(entries) = self.sets.get(name) else {
            return None;
        };
        Some(entries.as_slice())
    }

    /// The name of the set at a place.
    pub fn name_at(&self, i: usize) -> &SetName
        requires { i < length self.now }
        ensures { (d : VolumeSet) → result.now ≡ (slice_index_or self.now i d).name }
    {
        self.sets.get_index(i).unwrap().0
    }

    /// The entries of the set at a place, in the order in which they were added.
    #[tactic(auto, using(crate::proofs::SetRows::entries_there))]
    pub fn entries_at(&self, i: usize) -> &[SetEntry]
        requires { i < length self.now }
        ensures { result.now ≡ entries_at i self.now }
    {
        self.sets[i].as_slice()
    }
}
