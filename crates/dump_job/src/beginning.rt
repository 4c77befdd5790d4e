//! A dump is begun: it has a tape, and its begin is committed.

ghost use Rattle.std.specs.Prelude.{◌≡◌, ◌⊎◌, ◌+◌, ◌≤◌, ◌++◌, [], ◌∷◌, ℕ, Bool, List as AnyList, length, Some, None, IfOk, IfErr, OnOk, OnErr};
ghost use Rattle.bk_text.specs.Alphabets.{IsHost};
ghost use Rattle.byte_formats.specs.Forms.{IsMaybe};
ghost use Rattle.crash_moments.specs.Moments.{HasCauseAt};
ghost use Rattle.plant_core.specs.Effects.{commits};
ghost use Rattle.plant_effects.specs.Runs.{state_of, Done, Leaves, StaysQuiet};
ghost use Rattle.tape_frames.specs.Layouts.{IsDumpHead};
ghost use Rattle.budb_changes.specs.declared.change.Change.{Change as AnyChange};
ghost use Rattle.budb_changes.specs.Bytes.{encoded};
ghost use Rattle.budb_changes.specs.Forms.{AreChanges};
ghost use Rattle.budb_fold.specs.Database.{after_from};
ghost use Rattle.budb_fold.specs.Lookups.{record_of};
ghost use Rattle.budb.specs.Kept.{Keeps};
ghost use Rattle.tape_scan.specs.Slots.{Slot};
ghost use Rattle.tape_scan.specs.Looking.{HasSlots, Loads};
ghost use Rattle.tape_choice.specs.Append.{AreWhole};
ghost use Rattle.dump_job.specs.Faults.{UnlessFailed, LeavesBehindLoads};
ghost use Rattle.tape_writer.specs.Room.{HasRoom};
ghost use Rattle.dump_job.specs.Beginning.{id_of, first_tape, begin_changes, begin_effects, fresh, first_head, begun_job, IsReady, IsBegun, Refuses};

use crate::changes::with_change;
use crate::checking::{new_id, passed_tape};
use crate::dump_names::DumpNames;
use crate::fault::JobFault;
use crate::fields::{JobFields, Phase};
use crate::first_tapes::FirstTape;
use crate::order::DumpOrder;
use bk_text::List;
use budb::{Budb, CommitFault};
use budb_journal::{Change, DumpRecord, record_of};
use plant_core::Plant;
use std::alloc::{AllocError, Global};
use tape_frames::{DumpHead, DumpHeadFields};

/// The changes that begin a dump: its id is begun, and the dump set of the tape that it takes is forgotten.
fn begin_changes(alloc: Global, id: u32, take: Option<u32>) -> Result<List<Change>, AllocError>
    ensures { IfOk result (λ changes. changes ≡ begin_changes id take) }
{
    let changes = with_change(List::new(alloc), Change::Begin { id })?;
    match take {
        None => Ok(changes),
        Some(initial) => with_change(changes, Change::Take { initial }),
    }
}

/// The head of the first part of a dump.
fn first_head(order: &DumpOrder, id: u32, tape: &FirstTape) -> Result<DumpHead, AllocError>
    requires form { IsDumpHead (first_head order.now id tape.now) }
    requires few { length order.now.volumes ≤ 4294967295 }
    ensures { IfOk result (λ head. head ≡ first_head order.now id tape.now) }
{
    let names = DumpNames::of(&order.set, &order.level, &tape.base, &order.cell)?;
    let permanent = tape.permanent.copy()?;
    let (set, level, base, cell) = names.into_parts();
    Ok(DumpHead::new(DumpHeadFields {
        id,
        initial: tape.initial,
        parent: order.parent,
        expires: order.expires,
        tape: tape.tape,
        part: 1,
        volumes: order.volumes.len() as u32,
        set,
        level,
        base,
        cell,
        permanent,
        uses: tape.uses,
    }))
}

/// The listed dump of an id, once more.
fn parent_record(listed: &[DumpRecord], parent: u32) -> Result<Option<DumpRecord>, AllocError>
    ensures { IfOk result (λ dump. dump ≡ record_of listed.now parent) }
{
    match record_of(listed, parent) {
        None => Ok(None),
        Some(dump) => Ok(Some(dump.clone()?)),
    }
}

/// The record of a dump's parent, and its first head twice.
fn heads(
    listed: &[DumpRecord],
    order: &DumpOrder,
    id: u32,
    tape: &FirstTape,
) -> Result<(Option<DumpRecord>, DumpHead, DumpHead), AllocError>
    requires form { IsDumpHead (first_head order.now id tape.now) }
    requires few { length order.now.volumes ≤ 4294967295 }
    ensures parent { IfOk result (λ heads. heads.0 ≡ record_of listed.now order.now.parent) }
    ensures head { IfOk result (λ heads. heads.1 ≡ first_head order.now id tape.now) }
    ensures spare { IfOk result (λ heads. heads.2 ≡ first_head order.now id tape.now) }
{
    let head = first_head(order, id, tape)?;
    let spare = first_head(order, id, tape)?;
    let parent = parent_record(listed, order.parent)?;
    Ok((parent, head, spare))
}

/// What a dump has when it is begun, with its head twice.
fn with_heads(
    alloc: Global,
    order: DumpOrder,
    tape: FirstTape,
    heads: (Option<DumpRecord>, DumpHead, DumpHead),
) -> JobFields
    ensures { result ≡ record { port = order.port; time = order.time; places = order.volumes; parent = heads.0; head = heads.1; spare = Some heads.2; label = tape.label; reel = tape.reel; first = 0; filled = []; hand = None; volumes = []; phase = Phase.Tape } }
{
    let (port, volumes, time) = order.into_parts();
    let (label, reel) = tape.into_parts();
    let (parent, head, spare) = heads;
    JobFields {
        port,
        time,
        places: volumes,
        parent,
        head,
        spare: Some(spare),
        label,
        reel,
        first: 0,
        filled: List::new(alloc),
        hand: None,
        volumes: List::new(alloc),
        phase: Phase::Tape,
    }
}

/// What a dump has when it is begun.
fn begun_job(
    alloc: Global,
    listed: &[DumpRecord],
    order: DumpOrder,
    id: u32,
    tape: FirstTape,
) -> Result<JobFields, AllocError>
    requires form { IsDumpHead (first_head order id tape) }
    requires few { length order.volumes ≤ 4294967295 }
    ensures { IfOk result (λ job. job ≡ begun_job order listed.now id tape) }
{
    let heads = heads(listed, &order, id, &tape)?;
    Ok(with_heads(alloc, order, tape, heads))
}

/// Commits changes for which the log has room. Memory is refused before anything is written.
fn commit_begin<P: Plant>(
    budb: &mut Budb,
    plant: &mut P,
    changes: &[Change],
) -> Result<(), JobFault>
    requires sound { P.sound plant.old }
    requires nothing { budb.old.prepared ≡ None }
    requires room { (P.view plant.old).log_size + length (encoded changes.now) ≤ 268435456 }
    ensures nothing { budb.new.prepared ≡ None }
    ensures form { OnOk result (AreChanges changes.now) }
    ensures made { OnOk result (budb.new.database ≡ after_from changes.now budb.old.database) }
    ensures same { OnErr result (budb.new ≡ budb.old) }
    ensures keeps { P.tells → (log : AnyList AnyChange) → Keeps log (state_of P.Plant plant.old).log budb.old → OnOk result (Keeps (log ++ changes.now) (state_of P.Plant plant.new).log budb.new) }
    ensures only { IfErr result (λ fault. (fault ≡ JobFault.Failed) ⊎ (fault ≡ JobFault.Memory)) }
    ensures memory_same { result ≡ Err JobFault.Memory → plant.new ≡ plant.old }
    ensures done { OnOk result (Done P.Plant (commits (encoded changes.now) ∷ []) plant.old plant.new) }
    ensures leaves { Leaves P.Plant (commits (encoded changes.now) ∷ []) plant.old plant.new }
    ensures size { OnOk result ((P.view plant.new).log_size ≡ (P.view plant.old).log_size + length (encoded changes.now)) }
    ensures stays { StaysQuiet P.Plant plant.old plant.new }
    ensures cause { HasCauseAt JobFault.Failed (P.view plant.old).faults (P.view plant.new).faults result }
{
    match budb.commit(plant, changes) {
        Ok(()) => Ok(()),
        Err(CommitFault::LogFull { length }) => Err(JobFault::LogFull { length }),
        Err(CommitFault::Failed) => Err(JobFault::Failed),
        Err(CommitFault::Memory) => Err(JobFault::Memory),
    }
}

/// Begins a dump of at least one volume: finds the tape on which it begins, which isn't cut yet, and commits its begin, and
/// with it that the dump set of a tape that it takes is forgotten, as one effect. It is refused as `check_order` says, and then
/// nothing is changed but the loaded tape. Memory is refused before anything is written.
pub(crate) fn begin_job<P: Plant>(
    alloc: Global,
    budb: &mut Budb,
    plant: &mut P,
    order: DumpOrder,
) -> Result<JobFields, JobFault>
    requires sound { P.sound plant.old }
    requires nothing { budb.old.prepared ≡ None }
    requires some { 1 ≤ length order.volumes }
    requires few { length order.volumes ≤ 4294967295 }
    requires cell { IsMaybe IsHost order.cell }
    ensures begun { IfOk result (IsBegun P.Plant order budb.old budb.new plant.old plant.new) }
    ensures ready { IfOk result (λ job. IsReady P.Plant job plant.new) }
    ensures fresh { OnOk result (HasRoom 6 3 (fresh order.port)) }
    ensures refused { P.tells → (slots : AnyList Slot) (whole : ℕ → Bool) → HasSlots P.Plant slots plant.old → AreWhole P.Plant whole plant.old → Refuses (first_tape budb.old.database slots whole order (P.view plant.old).log_size) result }
    ensures nothing { budb.new.prepared ≡ None }
    ensures same { OnErr result (budb.new ≡ budb.old) }
    ensures loads { OnErr result (UnlessFailed result (Loads P.Plant plant.old plant.new)) }
    ensures log_size { OnErr result (UnlessFailed result ((P.view plant.new).log_size ≡ (P.view plant.old).log_size)) }
    ensures leaves { P.tells → (slots : AnyList Slot) (whole : ℕ → Bool) → HasSlots P.Plant slots plant.old → AreWhole P.Plant whole plant.old → LeavesBehindLoads P.Plant (begin_effects (id_of order budb.old.database) (first_tape budb.old.database slots whole order (P.view plant.old).log_size)) plant.old plant.new }
    ensures stays { StaysQuiet P.Plant plant.old plant.new }
    ensures cause { HasCauseAt JobFault.Failed (P.view plant.old).faults (P.view plant.new).faults result }
{
    let tape = passed_tape(alloc, budb, plant, &order)?;
    let id = new_id(order.time, budb.greatest_begun());
    let changes = begin_changes(alloc, id, tape.take)?;
    let listed = budb.database().listed.as_slice();
    let job = begun_job(alloc, listed, order, id, tape)?;
    let committed = commit_begin(budb, plant, changes.as_slice());
    drop(changes);
    committed?;
    Ok(job)
}
