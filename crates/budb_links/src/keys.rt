//! Places linked by keys: each stands in the chain of a name and in the chain of an id.

ghost use Rattle.std.specs.Prelude.{◌≡◌, ◌≢◌, ℕ, ◌+◌, ◌<◌, ◌≤◌, List, [], ◌∷◌, ◌++◌, length, Some, None, OnOk, IsSome, if◌then◌else◌};
ghost use Rattle.std.specs.Int.{w32, to_be_bytes};
ghost use Rattle.bk_text.specs.Blanks.{is_same_text};

use crate::arena::{Arena, Link};
use crate::numbers::Numbers;
use crate::steps::Steps;
use budb_changes::DumpRecord;
use std::alloc::{AllocError, Global};
use std::sync::ledger::Ledger;

/// The family of the chains by name.
pub(crate) const NAMES: usize = 0;

/// The family of the chains by id.
pub(crate) const IDS: usize = 1;

/// Places linked by a name and by an id. The key of an id is its four bytes.
#[derive(Drop)]
pub(crate) struct Keys {
    arena: Arena,
    names: Numbers,
    ids: Numbers,
}

ghost use Rattle.budb_links.specs.declared.arena.TheConstants.{FAMILIES};
ghost use Rattle.budb_links.specs.Stands.{first_place, Apart, Among, Distinct, place_behind, without_place};
ghost use Rattle.budb_links.specs.Chained.{chain_of, stand_at, links_of, link_at};
ghost use Rattle.budb_links.specs.Keys.{numbers_in, number_of};
ghost use Rattle.budb_links.specs.Keyed.{chain_by, KeepsKeys, KeepsBoth, Gives, chain_in, key_in, numbering};
ghost use Rattle.budb_changes.specs.declared.records.DumpRecordFields.{DumpRecordFields};

/// The number of a key; a spare one where it had none.
fn number_for(numbers: &mut Numbers, key: &[u8]) -> usize
    requires room { number_of key.now numbers.old.used ≡ None → 0 < length numbers.old.spare }
    requires short { length key.now ≤ 32 }
    ensures { Gives key.now result numbers.old numbers.new }
{
    match numbers.find(key) {
        Some(number) => number,
        None => numbers.enter(key),
    }
}

/// Puts a place at the end of the chain of a key.
fn link_in<L: Ledger>(
    arena: &mut Arena,
    numbers: &mut Numbers,
    family: usize,
    key: &[u8],
    place: usize,
    id: u32,
    steps: &mut Steps<L>,
)
    requires family_in { family < FAMILIES }
    requires keeps { KeepsKeys family arena.old numbers.old }
    requires room { number_of key.now numbers.old.used ≡ None → 0 < length numbers.old.spare }
    requires short { length key.now ≤ 32 }
    requires place_in { place < length arena.old.rows }
    requires fresh { (head : ℕ) → Apart place (chain_of arena.old family head) }
    requires few { (head : ℕ) → length (chain_of arena.old family head) < length arena.old.rows }
    ensures keeps { KeepsKeys family arena.new numbers.new }
    ensures chains { (other : List ℕ) → chain_by arena.new numbers.new family other ≡ (if is_same_text key.now other then chain_by arena.old numbers.old family other ++ stand_at place id ∷ [] else chain_by arena.old numbers.old family other) }
    ensures families { (other number : ℕ) → other ≢ family → chain_of arena.new other number ≡ chain_of arena.old other number }
    ensures count { numbers_in numbers.new ≡ numbers_in numbers.old }
    ensures places { length arena.new.rows ≡ length arena.old.rows }
    ensures heads { length arena.new.ends ≡ length arena.old.ends }
    ensures cost { steps.new ≤ steps.old + 2 }
{
    let head = number_for(numbers, key);
    arena.push(family, head, place, id, steps);
}

/// Takes a place out of the chain of a key, by the link that it has there.
fn unlink_from<L: Ledger>(
    arena: &mut Arena,
    numbers: &mut Numbers,
    family: usize,
    key: &[u8],
    place: usize,
    link: Link,
    steps: &mut Steps<L>,
)
    requires family_in { family < FAMILIES }
    requires keeps { KeepsKeys family arena.old numbers.old }
    requires number { number_of key.now numbers.old.used ≡ Some link.head }
    requires stands { Among place (chain_of arena.old family link.head) }
    requires link { link ≡ link_at (links_of family arena.old.rows) place }
    requires head { (other : ℕ) → Among place (chain_of arena.old family other) → link.head ≡ other }
    ensures keeps { KeepsKeys family arena.new numbers.new }
    ensures chains { (other : List ℕ) → chain_by arena.new numbers.new family other ≡ without_place place (chain_by arena.old numbers.old family other) }
    ensures families { (other number : ℕ) → other ≢ family → chain_of arena.new other number ≡ chain_of arena.old other number }
    ensures links { (other : ℕ) → other ≢ family → links_of other arena.new.rows ≡ links_of other arena.old.rows }
    ensures count { numbers_in numbers.new ≡ numbers_in numbers.old }
    ensures places { length arena.new.rows ≡ length arena.old.rows }
    ensures heads { length arena.new.ends ≡ length arena.old.ends }
    ensures cost { steps.new ≤ steps.old + 2 }
    ensures begins { link.before ≡ None → steps.new ≤ steps.old + 1 }
{
    arena.cut(family, place, link, steps);
    if arena.first(family, link.head).is_none() {
        numbers.leave(key);
    }
}

/// The first place of the chain of a key.
fn first_of(arena: &Arena, numbers: &Numbers, family: usize, key: &[u8]) -> Option<usize>
    requires { family < FAMILIES }
    ensures { result ≡ first_place (chain_by arena.now numbers.now family key.now) None }
{
    match numbers.find(key) {
        Some(head) => arena.first(family, head),
        None => None,
    }
}

/// Takes the place of a record that was taken out of the chains of its keys.
pub(crate) fn unlink_keys<L: Ledger>(
    keys: &mut Keys,
    place: usize,
    taken: &Option<DumpRecord>,
    steps: &mut Steps<L>,
)
    requires there { IsSome taken.now }
    requires keeps { KeepsBoth keys.old }
    requires place_in { place < length keys.old.arena.rows }
    requires stands { (family : ℕ) (dump : DumpRecordFields) → family < 2 → taken.now ≡ Some dump → Among place (chain_in keys.old family (key_in family dump.set dump.initial)) }
    ensures keeps { KeepsBoth keys.new }
    ensures chains { (family : ℕ) (key : List ℕ) → family < 2 → chain_in keys.new family key ≡ without_place place (chain_in keys.old family key) }
    ensures rows { length keys.new.arena.rows ≡ length keys.old.arena.rows }
    ensures room { (family : ℕ) → numbers_in (numbering keys.new family) ≡ numbers_in (numbering keys.old family) }
    ensures cost { steps.new ≤ steps.old + 5 }
{
    if let Some(dump) = taken {
        let fields = dump.fields();
        keys.unlink(place, fields.set.bytes(), fields.initial, steps);
    }
}

impl Keys {
    /// No place, and no room. It takes no memory.
    pub fn new(alloc: Global) -> Keys
        ensures keeps { KeepsBoth result }
        ensures chains { (family : ℕ) (key : List ℕ) → chain_in result family key ≡ [] }
    {
        Keys {
            arena: Arena::new(alloc),
            names: Numbers::new(alloc),
            ids: Numbers::new(alloc),
        }
    }

    /// Makes room for so many places. All chains stay.
    pub fn reserve(&mut self, places: usize) -> Result<(), AllocError>
        requires keeps { KeepsBoth self.old }
        ensures keeps { KeepsBoth self.new }
        ensures chains { (family : ℕ) (key : List ℕ) → chain_in self.new family key ≡ chain_in self.old family key }
        ensures rows { OnOk result (places ≤ length self.new.arena.rows) }
        ensures room { (family : ℕ) → OnOk result (places ≤ numbers_in (numbering self.new family)) }
        ensures kept_rows { length self.old.arena.rows ≤ length self.new.arena.rows }
        ensures kept_room { (family : ℕ) → numbers_in (numbering self.old family) ≤ numbers_in (numbering self.new family) }
    {
        self.arena.reserve(places, places)?;
        self.names.reserve(places)?;
        self.ids.reserve(places)
    }

    /// Puts a place at the end of the chain of a name and at that of an id.
    pub fn link<L: Ledger>(
        &mut self,
        place: usize,
        id: u32,
        name: &[u8],
        key_id: u32,
        steps: &mut Steps<L>,
    )
        requires keeps { KeepsBoth self.old }
        requires room { (family : ℕ) → family < 2 → number_of (key_in family name.now key_id) (numbering self.old family).used ≡ None → 0 < length (numbering self.old family).spare }
        requires short { length name.now ≤ 32 }
        requires place_in { place < length self.old.arena.rows }
        requires fresh { (family head : ℕ) → family < 2 → Apart place (chain_of self.old.arena family head) }
        requires few { (family head : ℕ) → family < 2 → length (chain_of self.old.arena family head) < length self.old.arena.rows }
        ensures keeps { KeepsBoth self.new }
        ensures chains { (family : ℕ) (key : List ℕ) → family < 2 → chain_in self.new family key ≡ (if is_same_text (key_in family name.now key_id) key then chain_in self.old family key ++ stand_at place id ∷ [] else chain_in self.old family key) }
        ensures rows { length self.new.arena.rows ≡ length self.old.arena.rows }
        ensures room { (family : ℕ) → numbers_in (numbering self.new family) ≡ numbers_in (numbering self.old family) }
        ensures cost { steps.new ≤ steps.old + 4 }
    {
        link_in(
            &mut self.arena,
            &mut self.names,
            NAMES,
            name,
            place,
            id,
            steps,
        );
        let bytes = key_id.to_be_bytes();
        link_in(
            &mut self.arena,
            &mut self.ids,
            IDS,
            bytes.as_slice(),
            place,
            id,
            steps,
        );
    }

    /// Takes a place out of the chain of its name and out of that of its id.
    pub fn unlink<L: Ledger>(
        &mut self,
        place: usize,
        name: &[u8],
        key_id: u32,
        steps: &mut Steps<L>,
    )
        requires keeps { KeepsBoth self.old }
        requires place_in { place < length self.old.arena.rows }
        requires stands { (family : ℕ) → family < 2 → Among place (chain_in self.old family (key_in family name.now key_id)) }
        ensures keeps { KeepsBoth self.new }
        ensures chains { (family : ℕ) (key : List ℕ) → family < 2 → chain_in self.new family key ≡ without_place place (chain_in self.old family key) }
        ensures rows { length self.new.arena.rows ≡ length self.old.arena.rows }
        ensures room { (family : ℕ) → numbers_in (numbering self.new family) ≡ numbers_in (numbering self.old family) }
        ensures cost { steps.new ≤ steps.old + 5 }
        ensures begins { first_place (chain_in self.old 1 (to_be_bytes w32 key_id)) None ≡ Some place → steps.new ≤ steps.old + 4 }
    {
        let row = self.arena.look(place, steps);
        unlink_from(
            &mut self.arena,
            &mut self.names,
            NAMES,
            name,
            place,
            row[NAMES],
            steps,
        );
        let bytes = key_id.to_be_bytes();
        unlink_from(
            &mut self.arena,
            &mut self.ids,
            IDS,
            bytes.as_slice(),
            place,
            row[IDS],
            steps,
        );
    }

    /// The first place of the chain of a name.
    pub fn first_of_name(&self, name: &[u8]) -> Option<usize>
        ensures { result ≡ first_place (chain_in self.now 0 name.now) None }
    {
        first_of(&self.arena, &self.names, NAMES, name)
    }

    /// The first place of the chain of an id, by its four bytes.
    pub fn first_of_id(&self, id: &[u8]) -> Option<usize>
        ensures { result ≡ first_place (chain_in self.now 1 id.now) None }
    {
        first_of(&self.arena, &self.ids, IDS, id)
    }

    /// The place behind a place of a chain.
    pub fn after<L: Ledger>(
        &self,
        family: usize,
        place: usize,
        steps: &mut Steps<L>,
    ) -> Option<usize>
        requires { family < FAMILIES }
        ensures behind { (head : ℕ) → Among place (chain_of self.now.arena family head) → result ≡ place_behind place (chain_of self.now.arena family head) }
        ensures distinct { (head : ℕ) → Distinct (chain_of self.now.arena family head) }
        ensures cost { steps.new ≤ steps.old + 1 }
    {
        self.arena.after(family, place, steps)
    }
}
