//! The changes.

ghost use Rattle.std.specs.Prelude.{◌≡◌, IfOk};

use crate::pattern_bytes::PatternBytes;
use crate::plain_record::PlainRecord;
use crate::records::DumpRecord;
use bk_text::{Expiry, Host, LevelPath, Part, SetName};
use std::alloc::AllocError;

/// A change of the Backup Database. What it does to the database, and that a change that doesn't fit does nothing, is the
/// fold of the definitions.
#[derive(Debug, Drop)]
pub enum Change {
    /// A new volume set without entries, behind all others.
    AddSet {
        set: SetName,
    },
    /// The set goes.
    DelSet {
        set: SetName,
    },
    /// A new entry of a set, behind its others. No server or partition stands for any.
    AddEntry {
        set: SetName,
        server: Option<Host>,
        partition: Option<Part>,
        pattern: PatternBytes,
    },
    /// An entry of a set goes, by its number from 1 on; later entries close up.
    DelEntry {
        set: SetName,
        number: u32,
    },
    /// A new dump level, behind all others.
    AddLevel {
        level: LevelPath,
        expiry: Expiry,
    },
    /// A level gets another expiration.
    SetExpiry {
        level: LevelPath,
        expiry: Expiry,
    },
    /// A level goes, with all below it.
    DelLevel {
        level: LevelPath,
    },
    /// A new tape host at a port offset, behind all others.
    AddHost {
        host: Host,
        port: u16,
    },
    /// The tape host of a port offset goes.
    DelHost {
        port: u16,
    },
    /// A dump of this id was begun.
    Begin {
        id: u32,
    },
    /// A tape of this initial dump was taken: all listed dumps of that initial id are forgotten.
    Take {
        initial: u32,
    },
    /// A dump is done and listed, in the form of version 1. It is read, and no longer written by the program.
    Done1(PlainRecord),
    /// A listed dump is forgotten.
    Forget {
        id: u32,
    },
    /// A dump was found on tapes and is listed, in the form of version 1, as `Done1`.
    Found1(PlainRecord),
    /// A dump is done and listed.
    Done(DumpRecord),
    /// A dump was found on tapes and is listed.
    Found(DumpRecord),
}

impl Clone for Change {
    ghost is_clone = { λ a b. b ≡ a };

    fn clone(&self) -> Result<Change, AllocError> {
        match self {
            Change::AddSet { set } => copy_set(set),
            Change::DelSet { set } => copy_gone_set(set),
            Change::AddEntry {
                set,
                server,
                partition,
                pattern,
            } => copy_entry(set, server, partition, pattern),
            Change::DelEntry { set, number } => copy_gone_entry(set, *number),
            Change::AddLevel { level, expiry } => copy_level(level, *expiry),
            Change::SetExpiry { level, expiry } => copy_expiry(level, *expiry),
            Change::DelLevel { level } => copy_gone_level(level),
            Change::AddHost { host, port } => copy_host(host, *port),
            Change::DelHost { port } => Ok(Change::DelHost { port: *port }),
            Change::Begin { id } => Ok(Change::Begin { id: *id }),
            Change::Take { initial } => Ok(Change::Take { initial: *initial }),
            Change::Done1(dump) => copy_done_1(dump),
            Change::Forget { id } => Ok(Change::Forget { id: *id }),
            Change::Found1(dump) => copy_found_1(dump),
            Change::Done(dump) => copy_done(dump),
            Change::Found(dump) => copy_found(dump),
        }
    }
}

fn copy_set(set: &SetName) -> Result<Change, AllocError>
    ensures { IfOk result (λ copy. copy ≡ Change.AddSet set.now) }
{
    Ok(Change::AddSet { set: set.clone()? })
}

fn copy_gone_set(set: &SetName) -> Result<Change, AllocError>
    ensures { IfOk result (λ copy. copy ≡ Change.DelSet set.now) }
{
    Ok(Change::DelSet { set: set.clone()? })
}

fn copy_entry(
    set: &SetName,
    server: &Option<Host>,
    partition: &Option<Part>,
    pattern: &PatternBytes,
) -> Result<Change, AllocError>
    ensures { IfOk result (λ copy. copy ≡ Change.AddEntry set.now server.now partition.now pattern.now) }
{
    Ok(Change::AddEntry {
        set: set.clone()?,
        server: server.clone()?,
        partition: partition.clone()?,
        pattern: pattern.clone()?,
    })
}

fn copy_gone_entry(set: &SetName, number: u32) -> Result<Change, AllocError>
    ensures { IfOk result (λ copy. copy ≡ Change.DelEntry set.now number) }
{
    Ok(Change::DelEntry {
        set: set.clone()?,
        number,
    })
}

fn copy_level(level: &LevelPath, expiry: Expiry) -> Result<Change, AllocError>
    ensures { IfOk result (λ copy. copy ≡ Change.AddLevel level.now expiry) }
{
    Ok(Change::AddLevel {
        level: level.clone()?,
        expiry,
    })
}

fn copy_expiry(level: &LevelPath, expiry: Expiry) -> Result<Change, AllocError>
    ensures { IfOk result (λ copy. copy ≡ Change.SetExpiry level.now expiry) }
{
    Ok(Change::SetExpiry {
        level: level.clone()?,
        expiry,
    })
}

fn copy_gone_level(level: &LevelPath) -> Result<Change, AllocError>
    ensures { IfOk result (λ copy. copy ≡ Change.DelLevel level.now) }
{
    Ok(Change::DelLevel {
        level: level.clone()?,
    })
}

fn copy_host(host: &Host, port: u16) -> Result<Change, AllocError>
    ensures { IfOk result (λ copy. copy ≡ Change.AddHost host.now port) }
{
    Ok(Change::AddHost {
        host: host.clone()?,
        port,
    })
}

fn copy_done_1(dump: &PlainRecord) -> Result<Change, AllocError>
    ensures { IfOk result (λ copy. copy ≡ Change.Done1 dump.now) }
{
    Ok(Change::Done1(dump.clone()?))
}

fn copy_found_1(dump: &PlainRecord) -> Result<Change, AllocError>
    ensures { IfOk result (λ copy. copy ≡ Change.Found1 dump.now) }
{
    Ok(Change::Found1(dump.clone()?))
}

fn copy_done(dump: &DumpRecord) -> Result<Change, AllocError>
    ensures { IfOk result (λ copy. copy ≡ Change.Done dump.now) }
{
    Ok(Change::Done(dump.clone()?))
}

fn copy_found(dump: &DumpRecord) -> Result<Change, AllocError>
    ensures { IfOk result (λ copy. copy ≡ Change.Found dump.now) }
{
    Ok(Change::Found(dump.clone()?))
}
