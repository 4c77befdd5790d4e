//! What a dump is refused by once its volume set, its level and its port are there.

ghost use Rattle.std.specs.Prelude.{◌≡◌, None, slice_get, IfOk};
ghost use Rattle.dump_commands.specs.Refusals.{fault_line, fault_text, is_early, early_by, late_by, none_of, bad_by, bad_or, first_bad, or_else, trial_refusal, refusal_by};

use backup_replies::{Refusal, refused_alone, refused_at, refused_number, refused_word};
use bk_text::{Bytes, SetName};
use dump_job::{DumpOrder, JobFault};
use std::alloc::{AllocError, Global};
use vnode_model::{EntryState, VolEntry};

/// The line of a refusal of a tape, an id or a commit; nothing for what stops a session.
pub fn fault_line(
    alloc: Global,
    set: &SetName,
    offset: u16,
    fault: &JobFault,
) -> Result<Bytes, AllocError>
    ensures { IfOk result (λ text. text ≡ fault_line set.now offset fault.now) }
{
    match fault {
        JobFault::NothingToAppend => refused_word(alloc, Refusal::NothingToAppend, set.bytes()),
        JobFault::NoTape { name } => refused_word(alloc, Refusal::NoTape, name.bytes()),
        JobFault::CapacityTooSmall => {
            refused_number(alloc, Refusal::CapacityTooSmall, offset as u64)
        }
        JobFault::IdsSpent => refused_alone(alloc, Refusal::IdsSpent),
        JobFault::LogFull { length } => refused_number(alloc, Refusal::LogFull, *length),
        JobFault::Failed => Ok(Bytes::new(alloc)),
        JobFault::Memory => Ok(Bytes::new(alloc)),
    }
}

fn fault_text(alloc: Global, order: &DumpOrder, fault: &JobFault) -> Result<Bytes, AllocError>
    ensures { IfOk result (λ text. text ≡ fault_text order.now fault.now) }
{
    fault_line(alloc, &order.set, order.port.fields().offset, fault)
}

/// Whether a refusal is answered before it is asked whether the set has volumes.
fn is_early(fault: &JobFault) -> bool
    ensures { result ≡ is_early fault.now }
{
    match fault {
        JobFault::NothingToAppend => true,
        JobFault::NoTape { .. } => true,
        JobFault::CapacityTooSmall => true,
        JobFault::IdsSpent => false,
        JobFault::LogFull { .. } => false,
        JobFault::Failed => false,
        JobFault::Memory => false,
    }
}

/// The refusal of a tape that is answered first, where this is one.
fn early_by(
    alloc: Global,
    order: &DumpOrder,
    fault: &Option<JobFault>,
) -> Result<Option<Bytes>, AllocError>
    ensures { IfOk result (λ text. text ≡ early_by order.now fault.now) }
{
    match fault {
        None => Ok(None),
        Some(fault) => {
            if is_early(fault) {
                Ok(Some(fault_text(alloc, order, fault)?))
            } else {
                Ok(None)
            }
        }
    }
}

/// The refusal of an id or a commit, where this is one.
fn late_by(
    alloc: Global,
    order: &DumpOrder,
    fault: &Option<JobFault>,
) -> Result<Option<Bytes>, AllocError>
    ensures { IfOk result (λ text. text ≡ late_by order.now fault.now) }
{
    match fault {
        None => Ok(None),
        Some(fault) => {
            if is_early(fault) {
                Ok(None)
            } else {
                Ok(Some(fault_text(alloc, order, fault)?))
            }
        }
    }
}

/// The refusal of a set that has no volumes.
fn none_of(alloc: Global, order: &DumpOrder) -> Result<Option<Bytes>, AllocError>
    ensures { IfOk result (λ text. text ≡ none_of order.now) }
{
    if order.volumes.is_empty() {
        Ok(Some(refused_word(alloc, Refusal::NoVolumes, order.set.bytes())?))
    } else {
        Ok(None)
    }
}

/// The refusal of a bad image; none where a volume stands there.
fn bad_at(alloc: Global, entry: &VolEntry) -> Result<Option<Bytes>, AllocError>
    ensures { IfOk result (λ text. text ≡ bad_by entry.now.name entry.now.state None) }
{
    match entry.state {
        EntryState::Good { .. } => Ok(None),
        EntryState::Bad { at } => Ok(Some(refused_at(
            alloc,
            Refusal::BadImage,
            entry.name.bytes(),
            at,
        )?)),
    }
}

/// The refusal of a bad image at a place.
fn bad_in(alloc: Global, cell: &[VolEntry], place: u32) -> Result<Option<Bytes>, AllocError>
    ensures { IfOk result (λ text. text ≡ bad_or (slice_get cell.now place) None) }
{
    match cell.get(place as usize) {
        None => Ok(None),
        Some(entry) => bad_at(alloc, entry),
    }
}

/// The refusal of the first bad image at these places.
fn first_bad(alloc: Global, cell: &[VolEntry], places: &[u32]) -> Result<Option<Bytes>, AllocError>
    ensures { IfOk result (λ text. text ≡ first_bad cell.now places.now) }
{
    for place in places {
        let text = bad_in(alloc, cell, *place)?;
        if text.is_some() {
            return Ok(text);
        }
    }
    Ok(None)
}

/// What a trial is refused by: a set without volumes, then a bad image.
pub(crate) fn trial_refusal(
    alloc: Global,
    cell: &[VolEntry],
    order: &DumpOrder,
) -> Result<Option<Bytes>, AllocError>
    ensures { IfOk result (λ text. text ≡ trial_refusal cell.now order.now) }
{
    if let Some(text) = none_of(alloc, order)? {
        return Ok(Some(text));
    }
    first_bad(alloc, cell, order.volumes.as_slice())
}

/// What a dump is refused by, where the search for its first tape answered so: a tape, then a set without volumes, then an id or
/// a commit, then a bad image.
pub(crate) fn refusal_by(
    alloc: Global,
    cell: &[VolEntry],
    order: &DumpOrder,
    fault: &Option<JobFault>,
) -> Result<Option<Bytes>, AllocError>
    ensures { IfOk result (λ text. text ≡ refusal_by cell.now order.now fault.now) }
{
    if let Some(text) = early_by(alloc, order, fault)? {
        return Ok(Some(text));
    }
    if let Some(text) = none_of(alloc, order)? {
        return Ok(Some(text));
    }
    if let Some(text) = late_by(alloc, order, fault)? {
        return Ok(Some(text));
    }
    first_bad(alloc, cell, order.volumes.as_slice())
}
