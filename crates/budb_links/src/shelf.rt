//! The records at their places. Records are reached through it alone, and it counts a step for each that is looked at.

ghost use Rattle.std.specs.Prelude.{◌≡◌, ◌+◌, ◌<◌, ◌≤◌, [], ◌++◌, length, take, replicate, slice_set, Some, None, OnOk, OnErr, vec_len, vec_capacity};
ghost use Rattle.std.specs.Option.{option_copied};
ghost use Rattle.budb_links.specs.Stored.{slot_at};

use crate::steps::Steps;
use budb_changes::DumpRecord;
use std::alloc::{AllocError, Global};
use std::marker::Model;
use std::sync::ledger::Ledger;

/// A record or nothing at each place.
#[derive(Drop)]
pub(crate) struct Shelf {
    slots: Vec<Option<DumpRecord>>,
}

impl Model for Shelf {
    ghost use Rattle.std.specs.Prelude.{List, Option};
    ghost use Rattle.budb_changes.specs.declared.records.DumpRecordFields.{DumpRecordFields};

    ghost Value = { List (Option DumpRecordFields) };

    ghost view = { λ a. a.slots.items };
}

/// Puts so many empty slots at the end.
pub(crate) fn add_blanks<T: Drop>(slots: &mut Vec<Option<T>>, count: usize)
    requires { vec_len slots.old + count ≤ vec_capacity slots.old }
    ensures { slots.new.items ≡ slots.old.items ++ replicate count None }
{
    for _more in 0..count {
        slots.push_reserved(None);
    }
}

impl Shelf {
    /// No place. It takes no memory.
    pub fn new(alloc: Global) -> Shelf
        ensures { result ≡ [] }
    {
        Shelf {
            slots: Vec::new(alloc),
        }
    }

    /// How many places there are.
    pub fn places(&self) -> usize
        ensures { result ≡ length self.now }
    {
        self.slots.len()
    }

    /// Makes so many new places. Where memory is refused there is none.
    pub fn grow(&mut self, count: usize) -> Result<(), AllocError>
        ensures ok { OnOk result (self.new ≡ self.old ++ replicate count None) }
        ensures err { OnErr result (self.new ≡ self.old) }
    {
        self.slots.reserve(count)?;
        add_blanks(&mut self.slots, count);
        Ok(())
    }

    /// Takes all places away but so many first ones.
    pub fn shorten(&mut self, places: usize)
        ensures { self.new ≡ take places self.old }
    {
        self.slots.truncate(places);
    }

    /// The record at a place.
    pub fn get<L: Ledger>(&self, place: usize, steps: &mut Steps<L>) -> Option<&DumpRecord>
        ensures value { option_copied result ≡ slot_at self.now place }
        ensures cost { steps.new ≡ steps.old + 1 }
    {
        steps.tick();
        if place < self.slots.len() {
            self.slots[place].as_ref()
        } else {
            None
        }
    }

    /// Puts a record at a place.
    pub fn put<L: Ledger>(&mut self, place: usize, dump: DumpRecord, steps: &mut Steps<L>)
        requires { place < length self.old }
        ensures slots { self.new ≡ slice_set self.old place (Some dump) }
        ensures cost { steps.new ≡ steps.old + 1 }
    {
        steps.tick();
        self.slots[place] = Some(dump);
    }

    /// Takes the record at a place.
    pub fn take<L: Ledger>(&mut self, place: usize, steps: &mut Steps<L>) -> Option<DumpRecord>
        requires { place < length self.old }
        ensures value { result ≡ slot_at self.old place }
        ensures slots { self.new ≡ slice_set self.old place None }
        ensures cost { steps.new ≡ steps.old + 1 }
    {
        steps.tick();
        self.slots[place].take()
    }
}
