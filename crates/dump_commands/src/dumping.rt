//! What a dump is made of: the search for its first tape, its begin, all its steps, and its trial.

ghost use Rattle.std.specs.Prelude.{◌≡◌, ◌≢◌, ◌<◌, ◌≤◌, ℕ, Bool, List as AnyList, None, Some, Ok, Err, length, map, All, IfOk, OnOk, OnErr, IsOk};
ghost use Rattle.bk_text.specs.Alphabets.{IsHost};
ghost use Rattle.byte_formats.specs.Forms.{IsMaybe};
ghost use Rattle.crash_moments.specs.Moments.{HasCauseAt};
ghost use Rattle.plant_effects.specs.Runs.{Leaves, StaysQuiet};
ghost use Rattle.cell_core.specs.Calls.{entry_of_stored};
ghost use Rattle.tape_scan.specs.Slots.{Slot};
ghost use Rattle.tape_scan.specs.Looking.{HasSlots, Loads, LeavesLoads};
ghost use Rattle.tape_choice.specs.Append.{AreWhole};
ghost use Rattle.dump_job.specs.declared.first_tapes.FirstTape.{FirstTape};
ghost use Rattle.dump_job.specs.Beginning.{id_of, first_tape, begin_effects, IsBegun};
ghost use Rattle.dump_job.specs.Faults.{LeavesBehindLoads};
ghost use Rattle.dump_job.specs.Jobs.{FitsJob, HasPlaces};
ghost use Rattle.dump_courses.specs.Ahead.{LeftAhead};
ghost use Rattle.dump_courses.specs.Scenes.{Scene, database_in};
ghost use Rattle.dump_courses.specs.Courses.{Point, course};
ghost use Rattle.dump_courses.specs.Running.{IsAtPoint};
ghost use Rattle.dump_commands.specs.Refusals.{passed_on, fault_of};
ghost use Rattle.dump_commands.specs.Answers.{trial_answer, IsFinished};

use crate::refusals::trial_refusal;
use crate::told::{Dumped, end_line};
use crate::trials::trial_text;
use bk_text::{Bytes, SetName};
use budb::Budb;
use budb_journal::DumpRecord;
use cell_core::Cell;
use dump_courses::{DumpStop, run_steps};
use dump_job::{DumpOrder, Job, JobFault, Phase};
use plant_core::Plant;
use std::alloc::Global;
use vnode_model::VolEntry;

/// A fault that is told as a refusal, or else the stop that it is.
fn pass_on(fault: JobFault) -> Result<JobFault, DumpStop>
    ensures { result ≡ passed_on fault }
{
    match fault {
        JobFault::NothingToAppend => Ok(JobFault::NothingToAppend),
        JobFault::NoTape { name } => Ok(JobFault::NoTape { name }),
        JobFault::CapacityTooSmall => Ok(JobFault::CapacityTooSmall),
        JobFault::IdsSpent => Ok(JobFault::IdsSpent),
        JobFault::LogFull { length } => Ok(JobFault::LogFull { length }),
        JobFault::Failed => Err(DumpStop::Plant),
        JobFault::Memory => Err(DumpStop::Memory),
    }
}

/// What the search for the first tape of an order is refused by. Tapes are loaded, and nothing else is done.
pub(crate) fn checked<P: Plant>(
    alloc: Global,
    budb: &Budb,
    plant: &mut P,
    order: &DumpOrder,
) -> Result<Option<JobFault>, DumpStop>
    requires { P.sound plant.old }
    ensures told { P.tells → (slots : AnyList Slot) (whole : ℕ → Bool) → HasSlots P.Plant slots plant.old → AreWhole P.Plant whole plant.old → IfOk result (λ fault. fault ≡ fault_of (first_tape budb.now.database slots whole order.now (P.view plant.old).log_size)) }
    ensures loads { OnOk result (Loads P.Plant plant.old plant.new) }
    ensures stopped { OnErr result (result ≢ Err DumpStop.Plant → Loads P.Plant plant.old plant.new) }
    ensures leaves { LeavesLoads P.Plant plant.old plant.new }
    ensures stays { StaysQuiet P.Plant plant.old plant.new }
    ensures cause { HasCauseAt DumpStop.Plant (P.view plant.old).faults (P.view plant.new).faults result }
    ensures never { result ≢ Err DumpStop.Cell }
{
    match Job::check(alloc, budb, plant, order) {
        Ok(()) => Ok(None),
        Err(fault) => match pass_on(fault) {
            Ok(refusal) => Ok(Some(refusal)),
            Err(stop) => Err(stop),
        },
    }
}

/// Begins a dump of at least one volume, or tells what it is refused by.
pub(crate) fn begin<P: Plant>(
    alloc: Global,
    budb: &mut Budb,
    plant: &mut P,
    order: DumpOrder,
) -> Result<Result<Job, JobFault>, DumpStop>
    requires sound { P.sound plant.old }
    requires nothing { budb.old.prepared ≡ None }
    requires some { 1 ≤ length order.volumes }
    requires few { length order.volumes ≤ 4294967295 }
    requires cell { IsMaybe IsHost order.cell }
    ensures begun { IfOk result (λ begun. IfOk begun (IsBegun P.Plant order budb.old budb.new plant.old plant.new)) }
    ensures fit { IfOk result (λ begun. IfOk begun (λ job. FitsJob P.Plant job plant.new)) }
    ensures refused { IfOk result (λ begun. OnErr begun (Loads P.Plant plant.old plant.new)) }
    ensures never { P.tells → (slots : AnyList Slot) (whole : ℕ → Bool) (t : FirstTape) → HasSlots P.Plant slots plant.old → AreWhole P.Plant whole plant.old → first_tape budb.old.database slots whole order (P.view plant.old).log_size ≡ Ok t → IfOk result IsOk }
    ensures nothing { budb.new.prepared ≡ None }
    ensures leaves { P.tells → (slots : AnyList Slot) (whole : ℕ → Bool) → HasSlots P.Plant slots plant.old → AreWhole P.Plant whole plant.old → LeavesBehindLoads P.Plant (begin_effects (id_of order budb.old.database) (first_tape budb.old.database slots whole order (P.view plant.old).log_size)) plant.old plant.new }
    ensures stopped { OnErr result (result ≢ Err DumpStop.Plant → Loads P.Plant plant.old plant.new) }
    ensures sound { OnOk result (P.sound plant.new) }
    ensures stays { StaysQuiet P.Plant plant.old plant.new }
    ensures cause { HasCauseAt DumpStop.Plant (P.view plant.old).faults (P.view plant.new).faults result }
    ensures never_cell { result ≢ Err DumpStop.Cell }
{
    match Job::begin(alloc, budb, plant, order) {
        Ok(job) => Ok(Ok(job)),
        Err(fault) => match pass_on(fault) {
            Ok(refusal) => Ok(Err(refusal)),
            Err(stop) => Err(stop),
        },
    }
}

/// Goes all steps of a dump that was begun, and tells how it ended.
pub(crate) fn finish<P: Plant, C: Cell>(
    alloc: Global,
    budb: &mut Budb,
    plant: &mut P,
    cell: &mut C,
    set: &SetName,
    offset: u16,
    job: &mut Job,
) -> Result<Bytes, DumpStop>
    requires going { job.old.phase ≢ Phase.Over }
    requires fit { FitsJob P.Plant job.old plant.old }
    requires nothing { budb.old.prepared ≡ None }
    requires places { HasPlaces C.Cell job.old.places cell.old }
    ensures fit { OnOk result (P.sound plant.new) }
    ensures unfailed { result ≢ Err DumpStop.Plant → P.sound plant.new }
    ensures nothing { budb.new.prepared ≡ None }
    ensures finished { P.tells → C.tells → (s : Scene) (p : Point) → IsAtPoint P.Plant C.Cell s p budb.old plant.old cell.old job.old → IfOk result (λ text. IsFinished P.Plant s p set.now offset text budb.new plant.old plant.new) }
    ensures leaves { P.tells → C.tells → (s : Scene) (p : Point) → IsAtPoint P.Plant C.Cell s p budb.old plant.old cell.old job.old → Leaves P.Plant (course s p).effects plant.old plant.new }
    ensures stopped { P.tells → C.tells → (s : Scene) (p : Point) → IsAtPoint P.Plant C.Cell s p budb.old plant.old cell.old job.old → OnErr result (result ≢ Err DumpStop.Plant → LeftAhead P.Plant (course s p).effects plant.old plant.new) }
    ensures list { C.tells → C.list cell.new ≡ C.list cell.old }
    ensures size { C.size cell.new ≡ C.size cell.old }
    ensures stays { StaysQuiet P.Plant plant.old plant.new }
    ensures plant_cause { HasCauseAt DumpStop.Plant (P.view plant.old).faults (P.view plant.new).faults result }
    ensures cell_cause { HasCauseAt DumpStop.Cell (C.faults cell.old) (C.faults cell.new) result }
{
    let end = run_steps(job, budb, plant, cell)?;
    let text = end_line(alloc, budb, set, offset, &end)?;
    Ok(text)
}

/// Tells what would be dumped, or what it is refused by. Nothing is changed.
pub(crate) fn try_out<C: Cell>(
    alloc: Global,
    cell: &mut C,
    listed: &[DumpRecord],
    entries: &[VolEntry],
    order: &DumpOrder,
) -> Result<Dumped, DumpStop>
    requires count { length entries.now ≡ C.size cell.old }
    requires within { All (λ place. place < length entries.now) order.now.volumes }
    requires entries { C.tells → entries.now ≡ map entry_of_stored (C.list cell.old) }
    ensures told { C.tells → (s : Scene) → C.list cell.old ≡ s.cell → listed.now ≡ (database_in s).listed → order.now.time ≡ s.time → IfOk result (λ told. (told.text ≡ (trial_answer s order.now).reply) × (told.time ≡ s.time)) }
    ensures list { C.tells → C.list cell.new ≡ C.list cell.old }
    ensures cause { HasCauseAt DumpStop.Cell (C.faults cell.old) (C.faults cell.new) result }
    ensures never { result ≢ Err DumpStop.Plant }
{
    match trial_refusal(alloc, entries, order)? {
        Some(text) => Ok(Dumped {
            text,
            time: order.time,
        }),
        None => {
            let text = trial_text(alloc, cell, listed, entries, order)?;
            Ok(Dumped {
                text,
                time: order.time,
            })
        }
    }
}
