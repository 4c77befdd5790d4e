//! A plain model of the database: lists that are searched from their front, over the small numbers of the steps.

use crate::steps::{Dump, Entry, Step};
use crate::words::{NO_PATTERN, UPPERS};
use std::alloc::{AllocError, Global};

/// A set, and its entries in the order of adding.
#[derive(Drop)]
pub struct PlainSet {
    pub set: u32,
    pub entries: Vec<Entry>,
}

/// A level, and its expiration.
#[derive(Clone, Copy)]
pub struct PlainLevel {
    pub level: u32,
    pub expiry: u32,
}

/// A port, and the host there.
#[derive(Clone, Copy)]
pub struct PlainHost {
    pub port: u16,
    pub host: u32,
}

/// What the steps made so far.
#[derive(Drop)]
pub struct Plain {
    pub sets: Vec<PlainSet>,
    pub levels: Vec<PlainLevel>,
    pub hosts: Vec<PlainHost>,
    pub greatest: u32,
    pub dumps: Vec<Dump>,
}

/// Whether a level is another one or lies below it.
fn is_within(level: u32, other: u32) -> bool {
    let mut at = level;
    for _ in 0..3 {
        if at == other {
            return true;
        }
        match UPPERS.get(at as usize) {
            Some(Some(upper)) => at = *upper,
            _ => return false,
        }
    }
    false
}

impl Plain {
    /// Does a step, and tells whether it fits.
    pub fn take_step(&mut self, alloc: Global, step: &Step) -> Result<bool, AllocError> {
        match step {
            Step::AddSet { set } => return self.add_set(alloc, *set),
            Step::DelSet { set } => {
                let (count, gone) = (self.sets.len(), *set);
                self.sets.retain(|other| other.set != gone);
                return Ok(self.sets.len() < count);
            }
            Step::AddEntry { set, entry } => return self.add_entry(*set, *entry),
            Step::DelEntry { set, number } => return Ok(self.del_entry(*set, *number)),
            Step::AddLevel { level, expiry } => return self.add_level(*level, *expiry),
            Step::SetExpiry { level, expiry } => return Ok(self.set_expiry(*level, *expiry)),
            Step::DelLevel { level } => {
                let (count, gone) = (self.levels.len(), *level);
                self.levels.retain(|other| !is_within(other.level, gone));
                return Ok(self.levels.len() < count);
            }
            Step::AddHost { host, port } => return self.add_host(*host, *port),
            Step::List { dump, .. } => return self.list(*dump),
            Step::DelHost { port } => {
                let gone = *port;
                self.hosts.retain(|other| other.port != gone);
            }
            Step::Begin { id } => self.greatest = self.greatest.max(*id),
            Step::Take { initial } => {
                let gone = *initial;
                self.dumps.retain(|dump| dump.initial != gone);
            }
            Step::Forget { id } => {
                let gone = *id;
                self.dumps.retain(|dump| dump.id != gone);
            }
        }
        Ok(true)
    }

    fn add_set(&mut self, alloc: Global, set: u32) -> Result<bool, AllocError> {
        if self.sets.iter().any(|other| other.set == set) {
            return Ok(false);
        }
        let entries = Vec::new(alloc);
        self.sets.push(PlainSet { set, entries })?;
        Ok(true)
    }

    fn add_entry(&mut self, set: u32, entry: Entry) -> Result<bool, AllocError> {
        for other in self.sets.iter_mut() {
            if other.set == set && entry.pattern != NO_PATTERN {
                other.entries.push(entry)?;
                return Ok(true);
            }
        }
        Ok(false)
    }

    fn del_entry(&mut self, set: u32, number: u32) -> bool {
        let number = number as usize;
        for other in self.sets.iter_mut() {
            if other.set == set && 0 < number && number <= other.entries.len() {
                let _entry = other.entries.remove(number - 1);
                return true;
            }
        }
        false
    }

    fn add_level(&mut self, level: u32, expiry: u32) -> Result<bool, AllocError> {
        let is_under = match UPPERS.get(level as usize) {
            Some(Some(upper)) => self.levels.iter().any(|other| other.level == *upper),
            _ => true,
        };
        if !is_under || self.levels.iter().any(|other| other.level == level) {
            return Ok(false);
        }
        self.levels.push(PlainLevel { level, expiry })?;
        Ok(true)
    }

    fn set_expiry(&mut self, level: u32, expiry: u32) -> bool {
        for other in self.levels.iter_mut() {
            if other.level == level {
                other.expiry = expiry;
                return true;
            }
        }
        false
    }

    fn add_host(&mut self, host: u32, port: u16) -> Result<bool, AllocError> {
        if self.hosts.iter().any(|other| other.port == port) {
            return Ok(false);
        }
        self.hosts.push(PlainHost { port, host })?;
        Ok(true)
    }

    fn list(&mut self, dump: Dump) -> Result<bool, AllocError> {
        let is_listed = self.dumps.iter().any(|other| other.id == dump.id);
        if is_listed || dump.id <= dump.parent {
            return Ok(false);
        }
        let is_part = (0 < dump.volumes && dump.froms[0] != 0)
            || (1 < dump.volumes && dump.froms[1] != 0);
        if dump.parent == 0 && is_part {
            return Ok(false);
        }
        self.dumps.push(dump)?;
        self.greatest = self.greatest.max(dump.id);
        Ok(true)
    }
}
