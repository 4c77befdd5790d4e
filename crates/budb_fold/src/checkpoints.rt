//! The changes that a checkpoint writes in place of a log.

ghost use Rattle.std.specs.Prelude.{◌≡◌, ◌++◌, [], ◌∷◌, map, IfOk, OnOk};
ghost use Rattle.std.specs.List.{flat_map};
ghost use Rattle.budb_fold.specs.Checkpoints.{entry_change, set_changes, level_change, host_change, begin_changes, checkpoint};

use crate::database::{Database, HostPort};
use bk_text::{List, SetName};
use budb_changes::{Change, DumpRecord, PatternBytes};
use dump_levels::Level;
use std::alloc::{AllocError, Global};
use volume_sets::{SetEntry, Sets};

/// Puts an entry of a set behind the changes.
#[tactic(auto, using(crate::proofs::PatternForms::pattern_bytes))]
fn push_entry(
    alloc: Global,
    changes: &mut List<Change>,
    set: &SetName,
    entry: &SetEntry,
) -> Result<(), AllocError>
    ensures { OnOk result (changes.new ≡ changes.old ++ entry_change set.now entry.now ∷ []) }
{
    let pattern = PatternBytes::from_bytes(alloc, entry.pattern.bytes())?;
    changes.push(Change::AddEntry {
        set: set.clone()?,
        server: entry.server.clone()?,
        partition: entry.partition.clone()?,
        pattern,
    })
}

/// Puts the entries of a set behind the changes, in order.
fn push_entries(
    alloc: Global,
    changes: &mut List<Change>,
    set: &SetName,
    entries: &[SetEntry],
) -> Result<(), AllocError>
    ensures { OnOk result (changes.new ≡ changes.old ++ map (entry_change set.now) entries.now) }
{
    for entry in entries {
        push_entry(alloc, changes, set, entry)?;
    }
    Ok(())
}

/// Puts a set behind the changes, and then its entries in order.
fn push_set(
    alloc: Global,
    changes: &mut List<Change>,
    set: &SetName,
    entries: &[SetEntry],
) -> Result<(), AllocError>
    ensures { OnOk result (changes.new ≡ changes.old ++ set_changes (record { name = set.now; entries = entries.now })) }
{
    changes.push(Change::AddSet { set: set.clone()? })?;
    push_entries(alloc, changes, set, entries)
}

/// Puts the sets behind the changes, in order.
fn push_sets(alloc: Global, changes: &mut List<Change>, sets: &Sets) -> Result<(), AllocError>
    ensures { OnOk result (changes.new ≡ changes.old ++ flat_map set_changes sets.now) }
{
    for at in 0..sets.len() {
        push_set(alloc, changes, sets.name_at(at), sets.entries_at(at))?;
    }
    Ok(())
}

/// Puts a level behind the changes.
fn push_level(changes: &mut List<Change>, level: &Level) -> Result<(), AllocError>
    ensures { OnOk result (changes.new ≡ changes.old ++ level_change level.now ∷ []) }
{
    changes.push(Change::AddLevel {
        level: level.path.clone()?,
        expiry: level.expiry,
    })
}

/// Puts the levels behind the changes, in order.
fn push_levels(changes: &mut List<Change>, levels: &[Level]) -> Result<(), AllocError>
    ensures { OnOk result (changes.new ≡ changes.old ++ map level_change levels.now) }
{
    for level in levels {
        push_level(changes, level)?;
    }
    Ok(())
}

/// Puts a tape host behind the changes.
fn push_host(changes: &mut List<Change>, host: &HostPort) -> Result<(), AllocError>
    ensures { OnOk result (changes.new ≡ changes.old ++ host_change host.now ∷ []) }
{
    changes.push(Change::AddHost {
        host: host.host.clone()?,
        port: host.port,
    })
}

/// Puts the tape hosts behind the changes, in order.
fn push_hosts(changes: &mut List<Change>, hosts: &[HostPort]) -> Result<(), AllocError>
    ensures { OnOk result (changes.new ≡ changes.old ++ map host_change hosts.now) }
{
    for host in hosts {
        push_host(changes, host)?;
    }
    Ok(())
}

/// Puts the greatest id behind the changes, where one was begun or recorded.
fn push_begin(changes: &mut List<Change>, greatest: u32) -> Result<(), AllocError>
    ensures { OnOk result (changes.new ≡ changes.old ++ begin_changes greatest) }
{
    if greatest == 0 {
        return Ok(());
    }
    changes.push(Change::Begin { id: greatest })
}

/// Puts a listed dump behind the changes.
fn push_found(changes: &mut List<Change>, dump: &DumpRecord) -> Result<(), AllocError>
    ensures { OnOk result (changes.new ≡ changes.old ++ Change.Found dump.now ∷ []) }
{
    changes.push(Change::Found(dump.clone()?))
}

/// Puts the listed dumps behind the changes, in order.
fn push_dumps(changes: &mut List<Change>, listed: &[DumpRecord]) -> Result<(), AllocError>
    ensures { OnOk result (changes.new ≡ changes.old ++ map Change.Found listed.now) }
{
    for dump in listed {
        push_found(changes, dump)?;
    }
    Ok(())
}

/// The changes that a checkpoint writes in place of a log: each set with its entries, each level, each tape host, the
/// greatest id that was begun or recorded where it isn't 0, and each listed dump as found, each in order. Their fold is this
/// database again, where it is that of a log.
pub fn checkpoint(alloc: Global, db: &Database) -> Result<List<Change>, AllocError>
    ensures { IfOk result (λ changes. changes ≡ checkpoint db.now) }
{
    let mut changes = List::new(alloc);
    push_sets(alloc, &mut changes, &db.sets)?;
    push_levels(&mut changes, db.levels.list())?;
    push_hosts(&mut changes, db.hosts.as_slice())?;
    push_begin(&mut changes, db.greatest)?;
    push_dumps(&mut changes, db.listed.as_slice())?;
    Ok(changes)
}
