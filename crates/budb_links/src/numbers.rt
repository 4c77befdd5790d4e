//! Numbers of keys, such as those of the chains of names. No step is counted here: no link is reached.

ghost use Rattle.std.specs.Prelude.{◌≡◌, ◌⊎◌, ℕ, ◌+◌, ◌<◌, ◌≤◌, ◌^◌, List, [], ◌∷◌, ◌++◌, length, Some, None, OnOk, OnErr, MatchResult, if◌then◌else◌, vec_len, vec_capacity};
ghost use Rattle.bk_text.specs.Blanks.{is_same_text};
ghost use Rattle.budb_links.specs.Keys.{numbered, numbers_in, number_of, Ascending, IsKeyAt, IsNewAt, given_back};
ghost use Rattle.budb_links.specs.Stored.{numbers_from};

use crate::spare::add_free;
use arrayvec::ArrayVec;
use std::alloc::{AllocError, Global};
use std::marker::Model;

/// How many bytes a key has at most.
const KEY_BYTES: usize = 32;

/// A key and its number.
#[derive(Drop)]
struct Slot {
    key: ArrayVec<u8, KEY_BYTES>,
    number: usize,
}

impl Model for Slot {
    ghost use Rattle.budb_links.specs.Keys.{Numbered, numbered};

    ghost Value = { Numbered };

    ghost view = { λ a. numbered a.key.items a.number };
}

/// Numbers of keys. Contracts see the keys in ascending byte order, each with its number, and the numbers that no key has.
#[derive(Drop)]
pub(crate) struct Numbers {
    slots: Vec<Slot>,
    spare: Vec<usize>,
}

impl Model for Numbers {
    ghost use Rattle.std.specs.Prelude.{◌+◌, ◌≤◌, length, vec_capacity};
    ghost use Rattle.budb_links.specs.Keys.{Numbering, Ascending};

    ghost Value = { Numbering };

    ghost view = { λ a. record { used = a.slots.items; spare = a.spare.items } };

    ghost invariant = { λ a. Ascending a.slots.items × (length a.slots.items + length a.spare.items ≤ vec_capacity a.slots) × (length a.slots.items + length a.spare.items ≤ vec_capacity a.spare) };
}

impl Slot {
    /// A key and its number.
    fn new(key: &[u8], number: usize) -> Slot
        requires { length key.now ≤ 32 }
        ensures { result ≡ numbered key.now number }
    {
        let mut bytes = ArrayVec::new();
        let _fits = bytes.try_extend_from_slice(key).is_ok();
        Slot { key: bytes, number }
    }

    /// The key.
    fn key(&self) -> &[u8]
        ensures { result.now ≡ self.now.key }
    {
        self.key.as_slice()
    }

    /// The number.
    fn number(&self) -> usize
        ensures { result ≡ self.now.number }
    {
        self.number
    }
}

impl Numbers {
    /// No key and no number. It takes no memory.
    pub fn new(alloc: Global) -> Numbers
        ensures used { result.used ≡ [] }
        ensures spare { result.spare ≡ [] }
    {
        Numbers {
            slots: Vec::new(alloc),
            spare: Vec::new(alloc),
        }
    }

    /// How many numbers no key has.
    pub fn spare(&self) -> usize
        ensures { result ≡ length self.now.spare }
    {
        self.spare.len()
    }

    /// Where a key stands, or where it would stand.
    fn place(&self, key: &[u8]) -> Result<usize, usize>
        ensures { MatchResult result (IsKeyAt key.now self.now.used) (IsNewAt key.now self.now.used) }
    {
        self.slots.binary_search_by(|slot| slot.key().cmp(key))
    }

    /// The number of a key.
    pub fn find(&self, key: &[u8]) -> Option<usize>
        ensures { result ≡ number_of key.now self.now.used }
    {
        match self.place(key) {
            Ok(at) => Some(self.slots[at].number()),
            Err(_) => None,
        }
    }

    /// Gives a spare number to a key that has none.
    pub fn enter(&mut self, key: &[u8]) -> usize
        requires absent { number_of key.now self.old.used ≡ None }
        requires spare { 0 < length self.old.spare }
        requires short { length key.now ≤ 32 }
        ensures used { (other : List ℕ) → number_of other self.new.used ≡ (if is_same_text key.now other then Some result else number_of other self.old.used) }
        ensures spare { self.old.spare ≡ self.new.spare ++ result ∷ [] }
        ensures count { length self.new.used ≡ length self.old.used + 1 }
        ensures ascending { Ascending self.new.used }
    {
        match self.place(key) {
            Ok(at) => self.slots[at].number(),
            Err(at) => {
                let number = self.spare.take_last();
                let _fits = self.slots.insert(at, Slot::new(key, number)).is_ok();
                number
            }
        }
    }

    /// Takes the number of a key back, where it has one.
    pub fn leave(&mut self, key: &[u8])
        ensures used { (other : List ℕ) → number_of other self.new.used ≡ (if is_same_text key.now other then None else number_of other self.old.used) }
        ensures spare { self.new.spare ≡ given_back self.old.spare (number_of key.now self.old.used) }
        ensures count { numbers_in self.new ≡ numbers_in self.old }
        ensures ascending { Ascending self.new.used }
    {
        if let Ok(at) = self.place(key) {
            let slot = self.slots.remove(at);
            self.spare.push_reserved(slot.number());
        }
    }

    /// Makes numbers, so that there are at least so many. Where memory is refused there are no new ones.
    pub fn reserve(&mut self, total: usize) -> Result<(), AllocError>
        ensures used { self.new.used ≡ self.old.used }
        ensures spare { (more : ℕ) × (self.new.spare ≡ self.old.spare ++ numbers_from (numbers_in self.old) more) }
        ensures most { (numbers_in self.new ≡ numbers_in self.old) ⊎ (numbers_in self.new ≤ total) }
        ensures ok { OnOk result (total ≤ numbers_in self.new) }
        ensures err { OnErr result (self.new.spare ≡ self.old.spare) }
    {
        let used = self.slots.len();
        let have = used + self.spare.len();
        if have < total {
            self.slots.reserve(total - used)?;
            self.spare.reserve(total)?;
            add_free(&mut self.spare, have, total - have);
        }
        Ok(())
    }
}
