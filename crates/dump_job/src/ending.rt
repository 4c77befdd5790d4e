//! The end of a part.

ghost use Rattle.std.specs.Prelude.{◌≡◌, ◌+◌, ◌≤◌, true, false, Ok, IfOk, IfSome, All, length, map};
ghost use Rattle.tape_writer.specs.Room.{HasRoom};
ghost use Rattle.dump_job.specs.Reels.{records_on, with_more, counts_on, IsOn, Puts};
ghost use Rattle.dump_job.specs.Ending.{part_end, part_end_items, closed_part, place_of_part, all_parts, done_record};
ghost use Rattle.dump_job.specs.Cloning.{volumes_done};
ghost use Rattle.budb_changes.specs.Dumps.{IsNamed};

use crate::cloning::record_with;
use crate::dump_names::DumpNames;
use crate::fields::{Filled, JobFields};
use crate::puts::put_last;
use crate::volumes::count_on;
use bk_text::List;
use budb_journal::{DumpRecord, DumpRecordFields, TapePart, VolRecord};
use plant_core::{Failed, Plant};
use std::alloc::{AllocError, Global};
use tape_frames::{DumpEnd, DumpEndFields};

/// The end of the part in hand.
fn part_end(job: &JobFields, more: u32) -> DumpEnd
    requires { more ≤ 1 }
    ensures { result ≡ part_end more job.now }
{
    let head = job.head.fields();
    DumpEnd::new(DumpEndFields {
        dump: head.id,
        tape: head.tape,
        more,
    })
}

/// Puts the end of the part in hand and a filemark, for which there is room. It takes no memory.
pub(crate) fn end_part<P: Plant>(
    job: &mut JobFields,
    plant: &mut P,
    more: u32,
) -> Result<bool, Failed>
    requires fit { IsOn P.Plant job.old.reel.slot (records_on job.old.reel) plant.old }
    requires marks { job.old.reel.marks ≤ job.old.reel.blocks }
    requires room { HasRoom 1 1 (counts_on job.old.port job.old.reel) }
    requires more { more ≤ 1 }
    ensures moved { result ≡ Ok true → job.new ≡ record job.old { reel = with_more 1 1 job.old.reel } }
    ensures same { result ≡ Ok false → job.new ≡ job.old }
    ensures room { result ≡ Ok true → HasRoom 0 0 (counts_on job.new.port job.new.reel) }
    ensures fit { result ≡ Ok true → IsOn P.Plant job.new.reel.slot (records_on job.new.reel) plant.new }
    ensures plant { Puts P.Plant job.old.reel.slot (part_end_items more job.old) result plant.old plant.new }
{
    let end = part_end(job, more);
    put_last(plant, &job.port, &mut job.reel, &end)
}

/// The part in hand as the dump's record has it, once its end is put.
pub(crate) fn closed_part(job: &JobFields) -> Result<TapePart, AllocError>
    requires marks { job.now.reel.marks ≤ job.now.reel.blocks }
    requires room { HasRoom 1 1 (counts_on job.now.port job.now.reel) }
    ensures { IfOk result (λ part. part ≡ closed_part job.now) }
{
    let _limits = job.port.fields();
    let head = job.head.fields();
    let count = count_on(&job.port, &job.reel);
    Ok(TapePart {
        tape: head.tape,
        first: job.first,
        end: count + 2,
        marks: job.reel.marks + 1,
        uses: head.uses,
        permanent: head.permanent.copy()?,
    })
}

/// The places of the parts that are ended.
fn filled_parts(alloc: Global, filled: &[Filled]) -> Result<List<TapePart>, AllocError>
    ensures { IfOk result (λ parts. parts ≡ map place_of_part filled.now) }
{
    let mut parts = List::new(alloc);
    for one in filled {
        parts.push(one.part.clone()?)?;
    }
    Ok(parts)
}

/// The places of all parts, that in hand as the last.
fn all_parts(alloc: Global, job: &JobFields) -> Result<List<TapePart>, AllocError>
    requires marks { job.now.reel.marks ≤ job.now.reel.blocks }
    requires room { HasRoom 1 1 (counts_on job.now.port job.now.reel) }
    ensures { IfOk result (λ parts. parts ≡ all_parts job.now) }
{
    let mut parts = filled_parts(alloc, job.filled.as_slice())?;
    parts.push(closed_part(job)?)?;
    Ok(parts)
}

/// The records of the volumes, that of the one in hand as the last.
fn all_volumes(job: &JobFields) -> Result<List<VolRecord>, AllocError>
    requires { IfSome job.now.hand (λ h. length h.frags ≤ 65534) }
    ensures { IfOk result (λ volumes. volumes ≡ volumes_done job.now) }
{
    let mut volumes = job.volumes.clone()?;
    match &job.hand {
        None => Ok(volumes),
        Some(hand) => {
            volumes.push(record_with(hand, job.head.fields().tape)?)?;
            Ok(volumes)
        }
    }
}

/// The record of the dump, once the part in hand is its last one.
pub(crate) fn dump_record(alloc: Global, job: &JobFields) -> Result<DumpRecord, AllocError>
    requires marks { job.now.reel.marks ≤ job.now.reel.blocks }
    requires room { HasRoom 1 1 (counts_on job.now.port job.now.reel) }
    requires frags { IfSome job.now.hand (λ h. length h.frags ≤ 65534) }
    requires parts { length (all_parts job.now) ≤ 65535 }
    requires named { All IsNamed (all_parts job.now) }
    requires volumes { length (volumes_done job.now) ≤ 4294967295 }
    ensures { IfOk result (λ dump. dump ≡ done_record job.now) }
{
    let head = job.head.fields();
    let names = DumpNames::of(&head.set, &head.level, &head.base, &head.cell)?;
    let tapes = all_parts(alloc, job)?;
    let volumes = all_volumes(job)?;
    let (set, level, base, cell) = names.into_parts();
    Ok(DumpRecord::new(DumpRecordFields {
        id: head.id,
        initial: head.initial,
        parent: head.parent,
        expires: head.expires,
        set,
        level,
        base,
        tapes,
        volumes,
        cell,
    }))
}
