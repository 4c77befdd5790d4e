//! A dump that isn't tried out: it is refused, or begun and brought to its end.

ghost use Rattle.std.specs.Prelude.{◌≡◌, ◌≢◌, ◌<◌, ◌≤◌, None, Ok, Err, length, map, All, IfOk, OnOk, OnErr, max};
ghost use Rattle.bk_text.specs.Alphabets.{IsHost};
ghost use Rattle.byte_formats.specs.Forms.{IsMaybe};
ghost use Rattle.crash_moments.specs.Moments.{HasCauseAt};
ghost use Rattle.plant_effects.specs.Runs.{Leaves, StaysQuiet};
ghost use Rattle.cell_core.specs.Calls.{entry_of_stored};
ghost use Rattle.dump_job.specs.declared.first_tapes.FirstTape.{FirstTape};
ghost use Rattle.dump_job.specs.Jobs.{FitsJob, HasPlaces};
ghost use Rattle.dump_courses.specs.Ahead.{LeftAhead};
ghost use Rattle.dump_courses.specs.Scenes.{Scene, IsScene};
ghost use Rattle.dump_courses.specs.Courses.{Point, course};
ghost use Rattle.dump_courses.specs.Running.{IsAtPoint};
ghost use Rattle.dump_commands.specs.Refusals.{fault_line};
ghost use Rattle.dump_commands.specs.Answers.{tape_for, begun, real_answer, IsAnswered, IsFinished};

use crate::dumping::{begin, checked, finish};
use crate::refusals::{fault_line, refusal_by};
use crate::told::Dumped;
use bk_text::SetName;
use budb::Budb;
use cell_core::Cell;
use dump_courses::DumpStop;
use dump_job::{DumpOrder, Job, JobFault, Phase};
use plant_core::Plant;
use std::alloc::Global;
use tape_answers::the_slots_are_read;
use vnode_model::VolEntry;

/// Tells what a dump is refused by.
fn refuse(
    alloc: Global,
    set: &SetName,
    offset: u16,
    time: u32,
    fault: &JobFault,
) -> Result<Dumped, DumpStop>
    ensures text { IfOk result (λ told. told.text ≡ fault_line set.now offset fault.now) }
    ensures time { IfOk result (λ told. told.time ≡ time) }
    ensures plant { result ≢ Err DumpStop.Plant }
    ensures cell { result ≢ Err DumpStop.Cell }
{
    let text = fault_line(alloc, set, offset, fault)?;
    Ok(Dumped { text, time })
}

/// Goes all steps of a dump that was begun, and tells how it ended. The session's time takes in its id.
fn run<P: Plant, C: Cell>(
    alloc: Global,
    budb: &mut Budb,
    plant: &mut P,
    cell: &mut C,
    set: &SetName,
    offset: u16,
    time: u32,
    job: &mut Job,
) -> Result<Dumped, DumpStop>
    requires going { job.old.phase ≢ Phase.Over }
    requires fit { FitsJob P.Plant job.old plant.old }
    requires nothing { budb.old.prepared ≡ None }
    requires places { HasPlaces C.Cell job.old.places cell.old }
    ensures sound { OnOk result (P.sound plant.new) }
    ensures unfailed { result ≢ Err DumpStop.Plant → P.sound plant.new }
    ensures nothing { budb.new.prepared ≡ None }
    ensures finished { P.tells → C.tells → (s : Scene) (p : Point) → IsAtPoint P.Plant C.Cell s p budb.old plant.old cell.old job.old → IfOk result (λ told. IsFinished P.Plant s p set.now offset told.text budb.new plant.old plant.new) }
    ensures time { IfOk result (λ told. told.time ≡ max time job.old.head.id) }
    ensures leaves { P.tells → C.tells → (s : Scene) (p : Point) → IsAtPoint P.Plant C.Cell s p budb.old plant.old cell.old job.old → Leaves P.Plant (course s p).effects plant.old plant.new }
    ensures stopped { P.tells → C.tells → (s : Scene) (p : Point) → IsAtPoint P.Plant C.Cell s p budb.old plant.old cell.old job.old → OnErr result (result ≢ Err DumpStop.Plant → LeftAhead P.Plant (course s p).effects plant.old plant.new) }
    ensures list { C.tells → C.list cell.new ≡ C.list cell.old }
    ensures size { C.size cell.new ≡ C.size cell.old }
    ensures stays { StaysQuiet P.Plant plant.old plant.new }
    ensures plant_cause { HasCauseAt DumpStop.Plant (P.view plant.old).faults (P.view plant.new).faults result }
    ensures cell_cause { HasCauseAt DumpStop.Cell (C.faults cell.old) (C.faults cell.new) result }
{
    let time = time.max(job.id());
    let text = finish(alloc, budb, plant, cell, set, offset, job)?;
    Ok(Dumped { text, time })
}

/// Makes a dump that nothing refuses: begins it, goes its steps, and tells how it ended.
fn make<P: Plant, C: Cell>(
    alloc: Global,
    budb: &mut Budb,
    plant: &mut P,
    cell: &mut C,
    set: &SetName,
    order: DumpOrder,
) -> Result<Dumped, DumpStop>
    requires sound { P.sound plant.old }
    requires nothing { budb.old.prepared ≡ None }
    requires set { set.now ≡ order.set }
    requires some { 1 ≤ length order.volumes }
    requires few { length order.volumes ≤ 4294967295 }
    requires cell { IsMaybe IsHost order.cell }
    requires places { HasPlaces C.Cell order.volumes cell.old }
    ensures sound { OnOk result (P.sound plant.new) }
    ensures unfailed { result ≢ Err DumpStop.Plant → P.sound plant.new }
    ensures nothing { budb.new.prepared ≡ None }
    ensures answered { P.tells → C.tells → (s : Scene) (t : FirstTape) → IsScene P.Plant C.Cell s budb.old plant.old cell.old → order.time ≡ s.time → tape_for s order ≡ Ok t → IfOk result (IsAnswered P.Plant s (begun s order t) budb.new plant.old plant.new) }
    ensures leaves { P.tells → C.tells → (s : Scene) (t : FirstTape) → IsScene P.Plant C.Cell s budb.old plant.old cell.old → tape_for s order ≡ Ok t → Leaves P.Plant (begun s order t).effects plant.old plant.new }
    ensures stopped { P.tells → C.tells → (s : Scene) (t : FirstTape) → IsScene P.Plant C.Cell s budb.old plant.old cell.old → tape_for s order ≡ Ok t → OnErr result (result ≢ Err DumpStop.Plant → LeftAhead P.Plant (begun s order t).effects plant.old plant.new) }
    ensures list { C.tells → C.list cell.new ≡ C.list cell.old }
    ensures stays { StaysQuiet P.Plant plant.old plant.new }
    ensures plant_cause { HasCauseAt DumpStop.Plant (P.view plant.old).faults (P.view plant.new).faults result }
    ensures cell_cause { HasCauseAt DumpStop.Cell (C.faults cell.old) (C.faults cell.new) result }
{
    the_slots_are_read();
    let offset = order.port.fields().offset;
    let time = order.time;
    match begin(alloc, budb, plant, order)? {
        Ok(mut job) => run(alloc, budb, plant, cell, set, offset, time, &mut job),
        Err(fault) => refuse(alloc, set, offset, time, &fault),
    }
}

/// Makes a dump, or tells what it is refused by.
pub(crate) fn make_or_refuse<P: Plant, C: Cell>(
    alloc: Global,
    budb: &mut Budb,
    plant: &mut P,
    cell: &mut C,
    entries: &[VolEntry],
    set: &SetName,
    order: DumpOrder,
) -> Result<Dumped, DumpStop>
    requires sound { P.sound plant.old }
    requires nothing { budb.old.prepared ≡ None }
    requires set { set.now ≡ order.set }
    requires few { length order.volumes ≤ 65536 }
    requires cell { IsMaybe IsHost order.cell }
    requires count { length entries.now ≡ C.size cell.old }
    requires within { All (λ place. place < length entries.now) order.volumes }
    requires entries { C.tells → entries.now ≡ map entry_of_stored (C.list cell.old) }
    ensures sound { OnOk result (P.sound plant.new) }
    ensures unfailed { result ≢ Err DumpStop.Plant → P.sound plant.new }
    ensures nothing { budb.new.prepared ≡ None }
    ensures answered { P.tells → C.tells → (s : Scene) → IsScene P.Plant C.Cell s budb.old plant.old cell.old → order.time ≡ s.time → IfOk result (IsAnswered P.Plant s (real_answer s order) budb.new plant.old plant.new) }
    ensures leaves { P.tells → C.tells → (s : Scene) → IsScene P.Plant C.Cell s budb.old plant.old cell.old → Leaves P.Plant (real_answer s order).effects plant.old plant.new }
    ensures stopped { P.tells → C.tells → (s : Scene) → IsScene P.Plant C.Cell s budb.old plant.old cell.old → OnErr result (result ≢ Err DumpStop.Plant → LeftAhead P.Plant (real_answer s order).effects plant.old plant.new) }
    ensures list { C.tells → C.list cell.new ≡ C.list cell.old }
    ensures stays { StaysQuiet P.Plant plant.old plant.new }
    ensures plant_cause { HasCauseAt DumpStop.Plant (P.view plant.old).faults (P.view plant.new).faults result }
    ensures cell_cause { HasCauseAt DumpStop.Cell (C.faults cell.old) (C.faults cell.new) result }
{
    the_slots_are_read();
    let fault = checked(alloc, budb, plant, &order)?;
    let refusal = refusal_by(alloc, entries, &order, &fault);
    drop(fault);
    match refusal? {
        Some(text) => Ok(Dumped {
            text,
            time: order.time,
        }),
        None => make(alloc, budb, plant, cell, set, order),
    }
}
