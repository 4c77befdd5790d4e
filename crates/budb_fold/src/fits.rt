//! Whether a change fits a database.

ghost use Rattle.std.specs.Prelude.{◌≡◌, ◌&&◌, not, IfOk};
ghost use Rattle.volume_sets.specs.Testing.{is_pattern};
ghost use Rattle.dump_levels.specs.Elements.{path_above};
ghost use Rattle.dump_levels.specs.Trees.{has_level, has_upper};
ghost use Rattle.volume_sets.specs.Sets.{has_set};
ghost use Rattle.budb_fold.specs.Database.{fits};

use crate::database::Database;
use crate::fitting::{any_at_port, may_be_listed};
use bk_text::{LevelPath, SetName};
use budb_changes::{Change, PatternBytes};
use dump_levels::Levels;
use std::alloc::AllocError;
use volume_sets::{Pattern, Sets};

/// Whether there is a set of this name.
fn is_set(sets: &Sets, set: &SetName) -> bool
    ensures { result ≡ has_set set.now sets.now }
{
    sets.entries_of(set).is_some()
}

/// Whether an entry of a set may go.
fn has_entry(db: &Database, set: &SetName, number: u32) -> bool
    ensures { result ≡ fits (Change.DelEntry set.now number) db.now }
{
    match db.sets.entries_of(set) {
        None => false,
        Some(entries) => 0 < number && number as usize <= entries.len(),
    }
}

/// Whether a set may get an entry of this pattern.
fn takes_pattern(sets: &Sets, set: &SetName, pattern: &PatternBytes) -> bool
    ensures { result ≡ (is_pattern pattern.now && has_set set.now sets.now) }
{
    Pattern::is_pattern(pattern.bytes()) && is_set(sets, set)
}

/// Whether a level may be added.
fn takes_level(levels: &Levels, level: &LevelPath) -> Result<bool, AllocError>
    ensures { IfOk result (λ is. is ≡ (not (has_level levels.now level.now) && has_upper levels.now (path_above level.now))) }
{
    if levels.has(level) {
        return Ok(false);
    }
    levels.has_above(level)
}

impl Database {
    /// Whether a change fits: `make` would make it, and a change that doesn't fit changes nothing at all.
    pub fn fits(&self, change: &Change) -> Result<bool, AllocError>
        ensures { IfOk result (λ is. is ≡ fits change.now self.now) }
    {
        Ok(match change {
            Change::AddSet { set } => !is_set(&self.sets, set),
            Change::DelSet { set } => is_set(&self.sets, set),
            Change::AddEntry { set, pattern, .. } => takes_pattern(&self.sets, set, pattern),
            Change::DelEntry { set, number } => has_entry(self, set, *number),
            Change::AddLevel { level, .. } => takes_level(&self.levels, level)?,
            Change::SetExpiry { level, .. } | Change::DelLevel { level } => self.levels.has(level),
            Change::AddHost { port, .. } => !any_at_port(self.hosts.as_slice(), *port),
            Change::Done1(dump) | Change::Found1(dump) => {
                may_be_listed(dump.as_record().fields(), self.listed.as_slice())
            }
            Change::Done(dump) | Change::Found(dump) => {
                may_be_listed(dump.fields(), self.listed.as_slice())
            }
            Change::DelHost { .. }
            | Change::Begin { .. }
            | Change::Take { .. }
            | Change::Forget { .. } => true,
        })
    }
}
