//! The arena of links: families of chains of places, each link with the places before and behind its own. Links are
//! reached through it alone, and it counts a step for each row of links that is looked at.

ghost use Rattle.std.specs.Prelude.{◌≡◌, ◌≢◌, ◌⊎◌, ℕ, ◌+◌, ◌<◌, ◌≤◌, ◌==◌, [], ◌∷◌, ◌++◌, length, replicate, slice_index_or, Some, None, IfSome, OnOk, if◌then◌else◌};
ghost use Rattle.std.specs.List.{AllByRecursion};

use crate::steps::Steps;
use std::alloc::{AllocError, Global};
use std::marker::Model;
use std::sync::ledger::Ledger;

/// How many families of chains there are.
pub(crate) const FAMILIES: usize = 2;

/// The links of a place, one for each family.
pub(crate) type Row = [Link; FAMILIES];

/// The link of a place in a family.
#[derive(Clone, Copy, Debug)]
pub(crate) struct Link {
    /// The number of its chain.
    pub head: usize,
    /// The id of the record.
    pub id: u32,
    /// The place before it in its chain.
    pub before: Option<usize>,
    /// The place behind it in its chain.
    pub after: Option<usize>,
}

/// The ends of a chain.
#[derive(Clone, Copy, Debug)]
struct Ends {
    first: Option<usize>,
    last: Option<usize>,
}

/// Families of chains of places. A chain has a number in its family. No place is in two chains of a family, nor twice in
/// one.
#[derive(Drop)]
pub(crate) struct Arena {
    rows: Vec<Row>,
    ends: Vec<[Ends; FAMILIES]>,
}

impl Model for Arena {
    ghost use Rattle.budb_links.specs.Chained.{Woven, KeepsFamilies};
    ghost use Rattle.budb_links.specs.declared.arena.TheConstants.{FAMILIES};

    ghost Value = { Woven };

    ghost view = { λ a. record { rows = a.rows.items; ends = a.ends.items } };

    ghost invariant = { λ a. KeepsFamilies FAMILIES a.rows.items a.ends.items };
}

impl Link {
    const NONE: Link = Link {
        head: 0,
        id: 0,
        before: None,
        after: None,
    };
}

impl Ends {
    const NONE: Ends = Ends {
        first: None,
        last: None,
    };
}

ghost use Rattle.budb_links.specs.declared.arena.Link.{Link};
ghost use Rattle.budb_links.specs.Stands.{first_place, Apart, Among, Distinct, place_behind, without_place};
ghost use Rattle.budb_links.specs.Chained.{chain_of, stand_at, no_link, links_of, link_at, with_link, with_after, with_before, with_first, with_last};

/// Makes a vector at least so long, with a blank value at each new place.
fn grow<T: Copy>(items: &mut Vec<T>, count: usize, blank: T) -> Result<(), AllocError>
    ensures grown { (extra : ℕ) × (items.new.items ≡ items.old.items ++ replicate extra blank) }
    ensures long { OnOk result (count ≤ length items.new.items) }
{
    if items.len() < count {
        items.resize(count, blank)?;
    }
    Ok(())
}

/// Writes the link of a place.
fn put<L: Ledger>(
    rows: &mut Vec<Row>,
    family: usize,
    place: usize,
    link: Link,
    steps: &mut Steps<L>,
)
    requires family_in { family < FAMILIES }
    requires place_in { place < length rows.old.items }
    requires wide { AllByRecursion (λ row. length row ≡ FAMILIES) rows.old.items }
    ensures wide { AllByRecursion (λ row. length row ≡ FAMILIES) rows.new.items }
    ensures long { length rows.new.items ≡ length rows.old.items }
    ensures links { links_of family rows.new.items ≡ with_link (links_of family rows.old.items) place link }
    ensures others { (other : ℕ) → other ≢ family → links_of other rows.new.items ≡ links_of other rows.old.items }
    ensures cost { steps.new ≡ steps.old + 1 }
{
    steps.tick();
    rows[place][family] = link;
}

/// Has another place follow a place; where there is none, the chain begins with it.
fn set_after<L: Ledger>(
    rows: &mut Vec<Row>,
    family: usize,
    ends: Ends,
    place: Option<usize>,
    after: Option<usize>,
    steps: &mut Steps<L>,
) -> Ends
    requires family_in { family < FAMILIES }
    requires place_in { IfSome place (λ p. p < length rows.old.items) }
    requires wide { AllByRecursion (λ row. length row ≡ FAMILIES) rows.old.items }
    ensures wide { AllByRecursion (λ row. length row ≡ FAMILIES) rows.new.items }
    ensures long { length rows.new.items ≡ length rows.old.items }
    ensures links { links_of family rows.new.items ≡ with_after (links_of family rows.old.items) place after }
    ensures others { (other : ℕ) → other ≢ family → links_of other rows.new.items ≡ links_of other rows.old.items }
    ensures ends { result ≡ with_first ends place after }
    ensures cost { steps.new ≤ steps.old + 1 }
    ensures begins { place ≡ None → steps.new ≡ steps.old }
{
    match place {
        None => Ends {
            first: after,
            last: ends.last,
        },
        Some(place) => {
            steps.tick();
            rows[place][family].after = after;
            ends
        }
    }
}

/// Has a place follow another place; where there is none, the chain ends with it.
fn set_before<L: Ledger>(
    rows: &mut Vec<Row>,
    family: usize,
    ends: Ends,
    place: Option<usize>,
    before: Option<usize>,
    steps: &mut Steps<L>,
) -> Ends
    requires family_in { family < FAMILIES }
    requires place_in { IfSome place (λ p. p < length rows.old.items) }
    requires wide { AllByRecursion (λ row. length row ≡ FAMILIES) rows.old.items }
    ensures wide { AllByRecursion (λ row. length row ≡ FAMILIES) rows.new.items }
    ensures long { length rows.new.items ≡ length rows.old.items }
    ensures links { links_of family rows.new.items ≡ with_before (links_of family rows.old.items) place before }
    ensures others { (other : ℕ) → other ≢ family → links_of other rows.new.items ≡ links_of other rows.old.items }
    ensures ends { result ≡ with_last ends place before }
    ensures cost { steps.new ≤ steps.old + 1 }
{
    match place {
        None => Ends {
            first: ends.first,
            last: before,
        },
        Some(place) => {
            steps.tick();
            rows[place][family].before = before;
            ends
        }
    }
}

impl Arena {
    /// No chain, and no room. It takes no memory.
    pub fn new(alloc: Global) -> Arena
        ensures rows { result.rows ≡ [] }
        ensures ends { result.ends ≡ [] }
    {
        Arena {
            rows: Vec::new(alloc),
            ends: Vec::new(alloc),
        }
    }

    /// Makes room for so many places, and for chains below a number. All chains stay.
    pub fn reserve(&mut self, heads: usize, places: usize) -> Result<(), AllocError>
        ensures chains { (family head : ℕ) → chain_of self.new family head ≡ chain_of self.old family head }
        ensures places { OnOk result (places ≤ length self.new.rows) }
        ensures heads { OnOk result (heads ≤ length self.new.ends) }
        ensures kept_places { length self.old.rows ≤ length self.new.rows }
        ensures kept_heads { length self.old.ends ≤ length self.new.ends }
    {
        grow(&mut self.rows, places, [Link::NONE; FAMILIES])?;
        grow(&mut self.ends, heads, [Ends::NONE; FAMILIES])
    }

    /// The first place of a chain.
    pub fn first(&self, family: usize, head: usize) -> Option<usize>
        requires { family < FAMILIES }
        ensures { result ≡ first_place (chain_of self.now family head) None }
    {
        match self.ends.get(head) {
            Some(row) => row[family].first,
            None => None,
        }
    }

    /// The place behind a place of a chain.
    pub fn after<L: Ledger>(
        &self,
        family: usize,
        place: usize,
        steps: &mut Steps<L>,
    ) -> Option<usize>
        requires { family < FAMILIES }
        ensures behind { (head : ℕ) → Among place (chain_of self.now family head) → result ≡ place_behind place (chain_of self.now family head) }
        ensures distinct { (head : ℕ) → Distinct (chain_of self.now family head) }
        ensures cost { steps.new ≤ steps.old + 1 }
    {
        if place < self.rows.len() {
            steps.tick();
            self.rows[place][family].after
        } else {
            None
        }
    }

    /// The links of a place.
    pub fn look<L: Ledger>(&self, place: usize, steps: &mut Steps<L>) -> Row
        requires { place < length self.now.rows }
        ensures links { (family : ℕ) → slice_index_or result family no_link ≡ link_at (links_of family self.now.rows) place }
        ensures heads { (family head : ℕ) → Among place (chain_of self.now family head) → (slice_index_or result family no_link).head ≡ head }
        ensures begins { (family head : ℕ) → first_place (chain_of self.now family head) None ≡ Some place → (slice_index_or result family no_link).before ≡ None }
        ensures cost { steps.new ≡ steps.old + 1 }
    {
        steps.tick();
        self.rows[place]
    }

    /// Puts a place at the end of a chain.
    pub fn push<L: Ledger>(
        &mut self,
        family: usize,
        head: usize,
        place: usize,
        id: u32,
        steps: &mut Steps<L>,
    )
        requires family_in { family < FAMILIES }
        requires head_in { head < length self.old.ends }
        requires place_in { place < length self.old.rows }
        requires fresh { (other : ℕ) → Apart place (chain_of self.old family other) }
        requires few { length (chain_of self.old family head) < length self.old.rows }
        ensures chain { chain_of self.new family head ≡ chain_of self.old family head ++ stand_at place id ∷ [] }
        ensures others { (other : ℕ) → other ≢ head → chain_of self.new family other ≡ chain_of self.old family other }
        ensures families { (other number : ℕ) → other ≢ family → chain_of self.new other number ≡ chain_of self.old other number }
        ensures places { length self.new.rows ≡ length self.old.rows }
        ensures heads { length self.new.ends ≡ length self.old.ends }
        ensures cost { steps.new ≤ steps.old + 2 }
    {
        let ends = self.ends[head][family];
        let link = Link {
            head,
            id,
            before: ends.last,
            after: None,
        };
        put(&mut self.rows, family, place, link, steps);
        let ends = set_after(&mut self.rows, family, ends, ends.last, Some(place), steps);
        self.ends[head][family] = Ends {
            first: ends.first,
            last: Some(place),
        };
    }

    /// Takes a place out of its chain in a family, by the link that it has there.
    pub fn cut<L: Ledger>(&mut self, family: usize, place: usize, link: Link, steps: &mut Steps<L>)
        requires family_in { family < FAMILIES }
        requires stands { Among place (chain_of self.old family link.head) }
        requires link { link ≡ link_at (links_of family self.old.rows) place }
        ensures chains { (head : ℕ) → chain_of self.new family head ≡ without_place place (chain_of self.old family head) }
        ensures families { (other number : ℕ) → other ≢ family → chain_of self.new other number ≡ chain_of self.old other number }
        ensures links { (other : ℕ) → other ≢ family → links_of other self.new.rows ≡ links_of other self.old.rows }
        ensures places { length self.new.rows ≡ length self.old.rows }
        ensures heads { length self.new.ends ≡ length self.old.ends }
        ensures cost { steps.new ≤ steps.old + 2 }
        ensures begins { link.before ≡ None → steps.new ≤ steps.old + 1 }
    {
        let ends = self.ends[link.head][family];
        let begun = set_after(&mut self.rows, family, ends, link.before, link.after, steps);
        let ended = set_before(
            &mut self.rows,
            family,
            begun,
            link.after,
            link.before,
            steps,
        );
        self.ends[link.head][family] = ended;
    }
}
