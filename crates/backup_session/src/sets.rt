//! What commands on the volume sets decide.

ghost use Rattle.std.specs.Prelude.{◌≡◌, [], ◌∷◌, ◌&&◌, length, nat_lt, nat_le, IfOk, if◌then◌else◌};
ghost use Rattle.volume_sets.specs.Sets.{has_set, entries_of};
ghost use Rattle.budb_changes.specs.declared.change.Change.TheVariants as changes;
ghost use Rattle.backup_replies.specs.declared.refusals.Refusal.TheVariants as refusals;
ghost use Rattle.backup_replies.specs.Texts.{refused_word, ok_line};
ghost use Rattle.backup_session.specs.Verdicts.{entry_goes, one_set, told_sets};

use crate::verdict::{Verdict, makes, refuses_number, refuses_word};
use backup_replies::{Refusal, set_reply, sets_lines};
use bk_text::{Host, Part, SetName};
use budb_journal::{Change, PatternBytes};
use std::alloc::{AllocError, Global};
use volume_sets::{Pattern, SetEntry, Sets};

/// Whether there is a set of this name.
fn has_set(sets: &Sets, name: &SetName) -> bool
    ensures { result ≡ has_set name.now sets.now }
{
    sets.entries_of(name).is_some()
}

/// `addvolset`.
pub(crate) fn add_set(alloc: Global, sets: &Sets, name: &SetName) -> Result<Verdict, AllocError>
    ensures { IfOk result (λ v. v ≡ (if has_set name.now sets.now then Verdict.Refuses (refused_word refusals.SetExists name.now) else Verdict.Makes (changes.AddSet name.now ∷ []) ok_line)) }
{
    if has_set(sets, name) {
        return refuses_word(alloc, Refusal::SetExists, name.bytes());
    }
    let set = name.clone()?;
    makes(alloc, Change::AddSet { set })
}

/// `delvolset`.
pub(crate) fn drop_set(alloc: Global, sets: &Sets, name: &SetName) -> Result<Verdict, AllocError>
    ensures { IfOk result (λ v. v ≡ (if has_set name.now sets.now then Verdict.Makes (changes.DelSet name.now ∷ []) ok_line else Verdict.Refuses (refused_word refusals.NoSuchSet name.now))) }
{
    if !has_set(sets, name) {
        return refuses_word(alloc, Refusal::NoSuchSet, name.bytes());
    }
    let set = name.clone()?;
    makes(alloc, Change::DelSet { set })
}

/// The bytes of a pattern.
#[tactic(auto, using(crate::proofs::Patterns::pattern_bytes))]
fn bytes_of(alloc: Global, pattern: &Pattern) -> Result<PatternBytes, AllocError>
    ensures { IfOk result (λ bytes. bytes ≡ pattern.now) }
{
    PatternBytes::from_bytes(alloc, pattern.bytes())
}

/// The change that puts an entry into a set.
fn entry_change(
    alloc: Global,
    name: &SetName,
    server: &Option<Host>,
    partition: &Option<Part>,
    pattern: &Pattern,
) -> Result<Change, AllocError>
    ensures { IfOk result (λ change. change ≡ changes.AddEntry name.now server.now partition.now pattern.now) }
{
    Ok(Change::AddEntry {
        set: name.clone()?,
        server: server.clone()?,
        partition: partition.clone()?,
        pattern: bytes_of(alloc, pattern)?,
    })
}

/// `addvolentry`.
pub(crate) fn add_entry(
    alloc: Global,
    sets: &Sets,
    name: &SetName,
    server: &Option<Host>,
    partition: &Option<Part>,
    pattern: &Pattern,
) -> Result<Verdict, AllocError>
    ensures { IfOk result (λ v. v ≡ (if has_set name.now sets.now then Verdict.Makes (changes.AddEntry name.now server.now partition.now pattern.now ∷ []) ok_line else Verdict.Refuses (refused_word refusals.NoSuchSet name.now))) }
{
    if !has_set(sets, name) {
        return refuses_word(alloc, Refusal::NoSuchSet, name.bytes());
    }
    let change = entry_change(alloc, name, server, partition, pattern)?;
    makes(alloc, change)
}

/// Whether a set has an entry of this number; entries have the numbers from 1 on.
fn is_entry(number: u32, entries: &[SetEntry]) -> bool
    ensures { result ≡ (nat_lt 0 number && nat_le number (length entries.now)) }
{
    0 < number && number as usize <= entries.len()
}

/// `delvolentry`.
pub(crate) fn drop_entry(
    alloc: Global,
    sets: &Sets,
    name: &SetName,
    number: u32,
) -> Result<Verdict, AllocError>
    ensures { IfOk result (λ v. v ≡ entry_goes name.now number (entries_of name.now sets.now)) }
{
    let Some(entries) = sets.entries_of(name) else {
        return refuses_word(alloc, Refusal::NoSuchSet, name.bytes());
    };
    if !is_entry(number, entries) {
        return refuses_number(alloc, Refusal::NoSuchEntry, number as u64);
    }
    let set = name.clone()?;
    makes(alloc, Change::DelEntry { set, number })
}

/// `listvolsets` of one set.
fn show_set(alloc: Global, sets: &Sets, name: &SetName) -> Result<Verdict, AllocError>
    ensures { IfOk result (λ v. v ≡ one_set name.now (entries_of name.now sets.now)) }
{
    let Some(entries) = sets.entries_of(name) else {
        return refuses_word(alloc, Refusal::NoSuchSet, name.bytes());
    };
    Ok(Verdict::Shows(set_reply(alloc, name, entries)?))
}

/// `listvolsets`.
pub(crate) fn show_sets(
    alloc: Global,
    sets: &Sets,
    name: &Option<SetName>,
) -> Result<Verdict, AllocError>
    ensures { IfOk result (λ v. v ≡ told_sets sets.now name.now) }
{
    match name {
        None => Ok(Verdict::Shows(sets_lines(alloc, sets)?)),
        Some(name) => show_set(alloc, sets, name),
    }
}
