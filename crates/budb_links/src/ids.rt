//! The places of ids: each listed id has one, and the others are free.

ghost use Rattle.std.specs.Prelude.{◌≡◌, ℕ, ◌+◌, ◌<◌, ◌≤◌, ◌^◌, List, [], ◌∷◌, ◌++◌, length, replicate, Some, None, OnOk, OnErr, if◌then◌else◌};
ghost use Rattle.std.specs.Int.{w32, to_be_bytes};
ghost use Rattle.bk_text.specs.Blanks.{is_same_text};
ghost use Rattle.budb_links.specs.Keys.{numbers_in, number_of, given_back};
ghost use Rattle.budb_links.specs.Stored.{numbers_from};

use crate::numbers::Numbers;
use crate::shelf::Shelf;
use std::alloc::{AllocError, Global};
use std::marker::Model;

/// The places of ids. Contracts see the ids in their four bytes, each with its place, and the places that no id has.
#[derive(Drop)]
pub(crate) struct Ids {
    places: Numbers,
}

impl Model for Ids {
    ghost use Rattle.budb_links.specs.Keys.{Numbering};

    ghost Value = { Numbering };

    ghost view = { λ a. a.places };
}

impl Ids {
    /// No id and no place. It takes no memory.
    pub fn new(alloc: Global) -> Ids
        ensures used { result.used ≡ [] }
        ensures spare { result.spare ≡ [] }
    {
        Ids {
            places: Numbers::new(alloc),
        }
    }

    /// How many places no id has.
    pub fn free(&self) -> usize
        ensures { result ≡ length self.now.spare }
    {
        self.places.spare()
    }

    /// The place of an id.
    pub fn find(&self, id: u32) -> Option<usize>
        ensures place { result ≡ number_of (to_be_bytes w32 id) self.now.used }
        ensures small { id < 2 ^ 32 }
    {
        let key = id.to_be_bytes();
        self.places.find(key.as_slice())
    }

    /// Gives a free place to an id that has none.
    pub fn enter(&mut self, id: u32) -> usize
        requires absent { number_of (to_be_bytes w32 id) self.old.used ≡ None }
        requires spare { 0 < length self.old.spare }
        ensures used { (other : List ℕ) → number_of other self.new.used ≡ (if is_same_text (to_be_bytes w32 id) other then Some result else number_of other self.old.used) }
        ensures spare { self.old.spare ≡ self.new.spare ++ result ∷ [] }
        ensures count { numbers_in self.new ≡ numbers_in self.old }
    {
        let key = id.to_be_bytes();
        self.places.enter(key.as_slice())
    }

    /// Takes the place of an id back, where it has one.
    pub fn leave(&mut self, id: u32)
        ensures used { (other : List ℕ) → number_of other self.new.used ≡ (if is_same_text (to_be_bytes w32 id) other then None else number_of other self.old.used) }
        ensures spare { self.new.spare ≡ given_back self.old.spare (number_of (to_be_bytes w32 id) self.old.used) }
        ensures count { numbers_in self.new ≡ numbers_in self.old }
    {
        let key = id.to_be_bytes();
        self.places.leave(key.as_slice());
    }

    /// Makes places, so that there are at least so many. Where memory is refused there are no new ones.
    pub fn reserve(&mut self, total: usize) -> Result<(), AllocError>
        requires { numbers_in self.old ≤ total }
        ensures used { self.new.used ≡ self.old.used }
        ensures spare { (more : ℕ) × (self.new.spare ≡ self.old.spare ++ numbers_from (numbers_in self.old) more) }
        ensures ok { OnOk result (numbers_in self.new ≡ total) }
        ensures err { OnErr result (self.new.spare ≡ self.old.spare) }
    {
        self.places.reserve(total)
    }
}

/// Makes so many new places, on the shelf and for ids. Where memory is refused there is none.
pub(crate) fn widen(shelf: &mut Shelf, ids: &mut Ids, count: usize) -> Result<(), AllocError>
    requires places { numbers_in ids.old ≡ length shelf.old }
    ensures used { ids.new.used ≡ ids.old.used }
    ensures slots { OnOk result (shelf.new ≡ shelf.old ++ replicate count None) }
    ensures spare { OnOk result (ids.new.spare ≡ ids.old.spare ++ numbers_from (length shelf.old) count) }
    ensures total { OnOk result (numbers_in ids.new ≡ length shelf.new) }
    ensures err { OnErr result (shelf.new ≡ shelf.old) }
    ensures err_ids { OnErr result (ids.new.spare ≡ ids.old.spare) }
{
    let first = shelf.places();
    let total = first.checked_add(count).ok_or(AllocError)?;
    shelf.grow(count)?;
    let made = ids.reserve(total);
    if made.is_err() {
        shelf.shorten(first);
    }
    made
}
