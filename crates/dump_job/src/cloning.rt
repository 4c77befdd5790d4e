//! The clone step. It makes no call on the plant.

ghost use Rattle.std.specs.Prelude.{◌≡◌, ◌<◌, ◌≤◌, ℕ, Some, IfOk, OnOk, OnErr, IfSome, IsTrue, All, length, slice_get};
ghost use Rattle.crash_moments.specs.Moments.{HasCauseAt};
ghost use Rattle.cell_core.specs.Calls.{entry_at, clone_at, is_good};
ghost use Rattle.budb_fold.specs.Lookups.{from_of};
ghost use Rattle.dump_job.specs.Cloning.{record_with, volumes_done, first_hand, cloned, Clones};

use crate::fields::{Hand, JobFields, Phase};
use bk_text::List;
use budb_journal::{DumpRecord, Frag, VolRecord, VolRecordFields, from_of};
use cell_core::{Cell, CellFault, Taken};
use dump_stream::Writer;
use std::alloc::{AllocError, Global};
use tape_frames::{VolHead, VolHeadFields};
use vnode_model::VolEntry;

/// Why no volume was cloned.
#[derive(Clone, Copy, Debug, PartialEq, Eq, Drop)]
pub(crate) enum CloneFault {
    /// The call of the cell failed.
    Failed,
    /// Memory was refused.
    Memory,
}

/// A volume of the cell: what its list says of it, and its clone.
#[derive(Drop)]
pub(crate) struct Looked {
    pub(crate) entry: VolEntry,
    pub(crate) clone: Taken,
}

/// The record of the volume in hand, whose last fragment stands on the tape of this number.
pub(crate) fn record_with(hand: &Hand, tape: u32) -> Result<VolRecord, AllocError>
    requires { length hand.now.frags ≤ 65534 }
    ensures { IfOk result (λ one. one ≡ record_with tape hand.now) }
{
    let head = hand.head.fields();
    let mut frags = hand.frags.copy()?;
    frags.push(Frag { tape, at: hand.at })?;
    Ok(VolRecord::new(VolRecordFields {
        name: head.name.clone()?,
        id: head.volume,
        server: head.server.clone()?,
        partition: head.partition.clone()?,
        clone: head.clone,
        from: head.from,
        frags,
    }))
}

/// How many volumes are done, the one in hand counted in.
fn count_done(job: &JobFields) -> usize
    requires { length (volumes_done job.now) < length job.now.places }
    ensures { result ≡ length (volumes_done job.now) }
{
    let _places = job.places.len();
    match &job.hand {
        None => job.volumes.len(),
        Some(_) => job.volumes.len() + 1,
    }
}

/// The time from which on the changes of a volume are dumped.
fn from_time(parent: &Option<DumpRecord>, name: &[u8], born: u32) -> u32
    ensures { result ≡ from_of parent.now name.now born }
{
    match parent {
        None => 0,
        Some(parent) => from_of(Some(parent), name, born),
    }
}

/// The next volume as it comes into hand. It takes no memory.
fn first_hand(alloc: Global, job: &JobFields, index: u32, looked: Looked) -> Hand
    requires { index ≡ length (volumes_done job.now) }
    ensures is { result ≡ first_hand job.now looked.entry looked.clone }
    ensures short { length result.stream < 1073741824 }
{
    let Looked { entry, clone } = looked;
    let Taken { time, born, volume } = clone;
    let from = from_time(&job.parent, entry.name.bytes(), born);
    let head = VolHead::new(VolHeadFields {
        dump: job.head.fields().id,
        index,
        fragment: 1,
        volume: volume.header().fields().id,
        clone: time,
        from,
        name: entry.name,
        server: entry.server,
        partition: entry.partition,
    });
    let stream = Writer::new(volume, from, time);
    Hand {
        head,
        stream,
        frags: List::new(alloc),
        at: 0,
        bytes: 0,
    }
}

/// Looks at a volume of the cell, and clones it.
fn look<C: Cell>(cell: &mut C, place: u32, time: u32) -> Result<Looked, CloneFault>
    requires within { place < C.size cell.old }
    requires good { C.tells → IsTrue (is_good (slice_get (C.list cell.old) place)) }
    ensures entry { C.tells → IfOk result (λ looked. entry_at (C.list cell.old) place ≡ Some looked.entry) }
    ensures clone { C.tells → IfOk result (λ looked. clone_at (C.list cell.old) place time ≡ Some looked.clone) }
    ensures list { C.tells → C.list cell.new ≡ C.list cell.old }
    ensures size { C.size cell.new ≡ C.size cell.old }
    ensures cause { HasCauseAt CloneFault.Failed (C.faults cell.old) (C.faults cell.new) result }
{
    let entry = match cell.entry(place) {
        Ok(entry) => entry,
        Err(CellFault::Memory) => return Err(CloneFault::Memory),
        Err(_) => return Err(CloneFault::Failed),
    };
    match cell.take(place, time) {
        Ok(clone) => Ok(Looked { entry, clone }),
        Err(CellFault::Memory) => Err(CloneFault::Memory),
        Err(_) => Err(CloneFault::Failed),
    }
}

/// Puts the volume in hand, where there is one, to those that are done.
fn put_by(job: &mut JobFields) -> Result<(), AllocError>
    requires { IfSome job.old.hand (λ h. length h.frags ≤ 65534) }
    ensures ok { OnOk result (job.new ≡ record job.old { volumes = volumes_done job.old }) }
    ensures err { OnErr result (job.new ≡ job.old) }
{
    match &job.hand {
        None => Ok(()),
        Some(hand) => {
            let one = record_with(hand, job.head.fields().tape)?;
            job.volumes.push(one)
        }
    }
}

/// Clones the next volume. Where it is refused, nothing has changed.
pub(crate) fn clone_step<C: Cell>(
    job: &mut JobFields,
    alloc: Global,
    cell: &mut C,
) -> Result<(), CloneFault>
    requires next { length (volumes_done job.old) < length job.old.places }
    requires few { length job.old.places ≤ 4294967295 }
    requires frags { IfSome job.old.hand (λ h. length h.frags ≤ 65534) }
    requires within { All (λ place. place < C.size cell.old) job.old.places }
    requires good { C.tells → All (λ place. IsTrue (is_good (slice_get (C.list cell.old) place))) job.old.places }
    ensures cloned { OnOk result (Clones C.tells (C.list cell.old) job.old job.new) }
    ensures short { OnOk result (IfSome job.new.hand (λ h. length h.stream < 1073741824)) }
    ensures err { OnErr result (job.new ≡ job.old) }
    ensures list { C.tells → C.list cell.new ≡ C.list cell.old }
    ensures size { C.size cell.new ≡ C.size cell.old }
    ensures cause { HasCauseAt CloneFault.Failed (C.faults cell.old) (C.faults cell.new) result }
{
    let index = count_done(job);
    let place = job.places.as_slice()[index];
    let looked = look(cell, place, job.time)?;
    let hand = first_hand(alloc, job, index as u32, looked);
    match put_by(job) {
        Ok(()) => {}
        Err(_) => return Err(CloneFault::Memory),
    }
    job.hand = Some(hand);
    job.phase = Phase::Head;
    Ok(())
}
