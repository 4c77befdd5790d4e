//! The fragments of the volumes of records: each at a place, in the chain of its dump and in that of its volume's name.

ghost use Rattle.std.specs.Prelude.{◌≡◌, ℕ, ◌+◌, ◌*◌, ◌<◌, ◌≤◌, ◌^◌, List, [], ◌∷◌, ◌++◌, length, Some, None, OnOk, IsOk};
ghost use Rattle.std.specs.Int.{w32, to_be_bytes};
ghost use Rattle.budb_links.specs.Stands.{first_place, Among, Distinct, place_behind};
ghost use Rattle.budb_links.specs.Chained.{chain_of};
ghost use Rattle.budb_links.specs.Stored.{slot_at};
ghost use Rattle.budb_links.specs.Keyed.{chain_in};
ghost use Rattle.budb_links.specs.Frags.{Placed, placed_at, fragment_of};
ghost use Rattle.budb_links.specs.Filing.{Files, HasNamed, without_frag, IsPrepared};

use crate::keys::{IDS, Keys, NAMES};
use crate::shelf::add_blanks;
use crate::spare::add_free;
use crate::steps::Steps;
use std::alloc::{AllocError, Global};
use std::sync::ledger::Ledger;

/// Which fragment stands at a place.
#[derive(Clone, Copy, Debug, PartialEq, Eq)]
pub struct FragPlace {
    /// The id of its dump.
    pub id: u32,
    /// The index of its volume in the dump's record.
    pub volume: u32,
    /// Its own index in the volume.
    pub frag: u32,
}

/// Fragments at places. A mark says which one stands at a place. It belongs to the place's row of links, and is looked at
/// with it in one step.
#[derive(Drop)]
pub(crate) struct Frags {
    keys: Keys,
    marks: Vec<Option<FragPlace>>,
    free: Vec<usize>,
}

impl Frags {
    /// No fragment, and no room. It takes no memory.
    pub fn new(alloc: Global) -> Frags
        ensures files { Files result [] }
        ensures free { result.free.items ≡ [] }
    {
        Frags {
            keys: Keys::new(alloc),
            marks: Vec::new(alloc),
            free: Vec::new(alloc),
        }
    }

    /// How many more fragments have room.
    pub fn spare(&self) -> usize
        ensures { result ≡ length self.now.free.items }
    {
        self.free.len()
    }

    /// Takes the memory for room for so many more fragments. The room itself stays.
    pub fn prepare(&mut self, count: usize) -> Result<(), AllocError>
        requires files { (ps : List Placed) × Files self.old ps }
        ensures files { (ps : List Placed) → Files self.old ps → Files self.new ps }
        ensures chains { (family : ℕ) (key : List ℕ) → chain_in self.new.keys family key ≡ chain_in self.old.keys family key }
        ensures free { self.new.free.items ≡ self.old.free.items }
        ensures prepared { OnOk result (IsPrepared self.new count) }
        ensures enough { count ≤ length self.old.free.items → IsOk result }
    {
        let spare = self.free.len();
        if count <= spare {
            return Ok(());
        }
        let more = count - spare;
        let total = self.marks.len().checked_add(more).ok_or(AllocError)?;
        self.keys.reserve(total)?;
        self.free.reserve(total)?;
        self.marks.reserve(more)
    }

    /// Makes places where room is wanted for so many more fragments.
    pub fn widen(&mut self, count: usize)
        requires files { (ps : List Placed) × Files self.old ps }
        requires prepared { IsPrepared self.old count }
        ensures files { (ps : List Placed) → Files self.old ps → Files self.new ps }
        ensures keys { self.new.keys ≡ self.old.keys }
        ensures room { count ≤ length self.new.free.items }
        ensures kept { length self.old.free.items ≤ length self.new.free.items }
    {
        let spare = self.free.len();
        if spare < count {
            let first = self.marks.len();
            add_blanks(&mut self.marks, count - spare);
            add_free(&mut self.free, first, count - spare);
        }
    }

    /// Puts a fragment of a volume of a name at the end of its chains.
    pub fn link<L: Ledger>(&mut self, which: FragPlace, name: &[u8], steps: &mut Steps<L>)
        requires files { (ps : List Placed) × Files self.old ps }
        requires room { 0 < length self.old.free.items }
        requires short { length name.now ≤ 32 }
        requires small { which.id < 2 ^ 32 }
        ensures files { (ps : List Placed) → Files self.old ps → (place : ℕ) × Files self.new (ps ++ placed_at place (fragment_of which name.now) ∷ []) }
        ensures spare { length self.new.free.items + 1 ≡ length self.old.free.items }
        ensures cost { steps.new ≤ steps.old + 4 }
    {
        let place = self.free.take_last();
        self.marks[place] = Some(which);
        self.keys.link(place, which.id, name, which.id, steps);
    }

    /// Takes the fragment at a place out, which is the first of its dump. The dump's id and the volume's name are its own.
    pub fn unlink<L: Ledger>(&mut self, place: usize, id: u32, name: &[u8], steps: &mut Steps<L>)
        requires files { (ps : List Placed) × Files self.old ps × HasNamed place id name.now ps }
        requires first { first_place (chain_in self.old.keys 1 (to_be_bytes w32 id)) None ≡ Some place }
        ensures files { (ps : List Placed) → Files self.old ps → Files self.new (without_frag place ps) }
        ensures spare { length self.new.free.items ≡ length self.old.free.items + 1 }
        ensures places { length self.new.marks.items ≡ length self.old.marks.items }
        ensures cost { steps.new ≤ steps.old + 4 }
    {
        self.keys.unlink(place, name, id, steps);
        self.marks[place] = None;
        self.free.push_reserved(place);
    }

    /// The first place of the chain of a dump, by its id in four bytes.
    pub fn first_of_dump(&self, key: &[u8]) -> Option<usize>
        ensures { result ≡ first_place (chain_in self.now.keys 1 key.now) None }
    {
        self.keys.first_of_id(key)
    }

    /// The first place of the chain of a volume's name.
    pub fn first_of_volume(&self, name: &[u8]) -> Option<usize>
        ensures { result ≡ first_place (chain_in self.now.keys 0 name.now) None }
    {
        self.keys.first_of_name(name)
    }

    /// The place behind a place in the chain of its dump.
    pub fn after_in_dump<L: Ledger>(&self, place: usize, steps: &mut Steps<L>) -> Option<usize>
        ensures behind { (head : ℕ) → Among place (chain_of self.now.keys.arena 1 head) → result ≡ place_behind place (chain_of self.now.keys.arena 1 head) }
        ensures distinct { (head : ℕ) → Distinct (chain_of self.now.keys.arena 1 head) }
        ensures cost { steps.new ≤ steps.old + 1 }
    {
        self.keys.after(IDS, place, steps)
    }

    /// The place behind a place in the chain of its volume's name.
    pub fn after_in_volume<L: Ledger>(&self, place: usize, steps: &mut Steps<L>) -> Option<usize>
        ensures behind { (head : ℕ) → Among place (chain_of self.now.keys.arena 0 head) → result ≡ place_behind place (chain_of self.now.keys.arena 0 head) }
        ensures distinct { (head : ℕ) → Distinct (chain_of self.now.keys.arena 0 head) }
        ensures cost { steps.new ≤ steps.old + 1 }
    {
        self.keys.after(NAMES, place, steps)
    }

    /// Which fragment stands at a place; `None` where none does.
    pub fn mark(&self, place: usize) -> Option<FragPlace>
        ensures { result ≡ slot_at self.now.marks.items place }
    {
        if place < self.marks.len() {
            self.marks[place]
        } else {
            None
        }
    }
}
