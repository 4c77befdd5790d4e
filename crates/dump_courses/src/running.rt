//! The steps of a dump, one after the other.

ghost use Rattle.std.specs.Prelude.{◌≡◌, ◌≢◌, ◌<◌, None, Ok, Err, IfOk, OnOk, OnErr};
ghost use Rattle.crash_moments.specs.Moments.{HasCauseAt};
ghost use Rattle.plant_effects.specs.Runs.{Leaves, StaysQuiet};
ghost use Rattle.tape_scan.specs.Looking.{Loads};
ghost use Rattle.dump_job.specs.Jobs.{FitsJob, HasPlaces};
ghost use Rattle.dump_job.specs.Left.{left_of};
ghost use Rattle.dump_courses.specs.Scenes.{Scene};
ghost use Rattle.dump_courses.specs.Courses.{Point, next_event, course};
ghost use Rattle.dump_courses.specs.Ahead.{DoneAhead, LeftAhead};
ghost use Rattle.dump_courses.specs.Running.{IsAtPoint, Moves, IsEnded};

use crate::stop::DumpStop;
use budb::Budb;
use cell_core::Cell;
use dump_job::{Job, JobFault, Phase, StepAnswer};
use plant_core::Plant;
use tape_answers::the_slots_are_read;

/// How a dump that was begun ended.
#[derive(Debug, Drop)]
pub enum End {
    /// It is done, and listed under this id.
    Made(u32),
    /// It was refused.
    Refused(JobFault),
}

/// Goes on by one step, and tells how the dump ended, where that was the last one.
fn go_on<P: Plant, C: Cell>(
    job: &mut Job,
    budb: &mut Budb,
    plant: &mut P,
    cell: &mut C,
) -> Result<Option<End>, DumpStop>
    requires going { job.old.phase ≢ Phase.Over }
    requires fit { FitsJob P.Plant job.old plant.old }
    requires nothing { budb.old.prepared ≡ None }
    requires places { HasPlaces C.Cell job.old.places cell.old }
    ensures going { result ≡ Ok None → job.new.phase ≢ Phase.Over }
    ensures less { result ≡ Ok None → left_of job.new < left_of job.old }
    ensures fit { OnOk result (FitsJob P.Plant job.new plant.new) }
    ensures nothing { budb.new.prepared ≡ None }
    ensures places { OnOk result (job.new.places ≡ job.old.places) }
    ensures moves { P.tells → C.tells → (s : Scene) (p : Point) → IsAtPoint P.Plant C.Cell s p budb.old plant.old cell.old job.old → IfOk result (λ end. Moves P.Plant C.Cell s p (next_event s p) end budb.new plant.new cell.new job.new) }
    ensures done { P.tells → C.tells → (s : Scene) (p : Point) → IsAtPoint P.Plant C.Cell s p budb.old plant.old cell.old job.old → OnOk result (DoneAhead P.Plant (next_event s p).effects plant.old plant.new) }
    ensures leaves { P.tells → C.tells → (s : Scene) (p : Point) → IsAtPoint P.Plant C.Cell s p budb.old plant.old cell.old job.old → Leaves P.Plant (next_event s p).effects plant.old plant.new }
    ensures stopped { OnErr result (result ≢ Err DumpStop.Plant → Loads P.Plant plant.old plant.new) }
    ensures list { C.tells → C.list cell.new ≡ C.list cell.old }
    ensures size { C.size cell.new ≡ C.size cell.old }
    ensures stays { StaysQuiet P.Plant plant.old plant.new }
    ensures plant_cause { HasCauseAt DumpStop.Plant (P.view plant.old).faults (P.view plant.new).faults result }
    ensures cell_cause { HasCauseAt DumpStop.Cell (C.faults cell.old) (C.faults cell.new) result }
{
    the_slots_are_read();
    match job.step(budb, plant, cell) {
        StepAnswer::More => Ok(None),
        StepAnswer::Done(id) => Ok(Some(End::Made(id))),
        StepAnswer::Refused(fault) => Ok(Some(End::Refused(fault))),
        StepAnswer::PlantFailed => Err(DumpStop::Plant),
        StepAnswer::CellFailed => Err(DumpStop::Cell),
        StepAnswer::Memory => Err(DumpStop::Memory),
    }
}

/// Makes all steps of a dump, which are the events of its course. A stop that isn't the plant's leaves a sound plant, with the first so
/// many effects of the course.
pub fn run_steps<P: Plant, C: Cell>(
    job: &mut Job,
    budb: &mut Budb,
    plant: &mut P,
    cell: &mut C,
) -> Result<End, DumpStop>
    requires going { job.old.phase ≢ Phase.Over }
    requires fit { FitsJob P.Plant job.old plant.old }
    requires nothing { budb.old.prepared ≡ None }
    requires places { HasPlaces C.Cell job.old.places cell.old }
    ensures fit { OnOk result (FitsJob P.Plant job.new plant.new) }
    ensures unfailed { result ≢ Err DumpStop.Plant → P.sound plant.new }
    ensures nothing { budb.new.prepared ≡ None }
    ensures ended { P.tells → C.tells → (s : Scene) (p : Point) → IsAtPoint P.Plant C.Cell s p budb.old plant.old cell.old job.old → IfOk result (λ end. IsEnded P.Plant s p end budb.new plant.old plant.new) }
    ensures leaves { P.tells → C.tells → (s : Scene) (p : Point) → IsAtPoint P.Plant C.Cell s p budb.old plant.old cell.old job.old → Leaves P.Plant (course s p).effects plant.old plant.new }
    ensures stopped { P.tells → C.tells → (s : Scene) (p : Point) → IsAtPoint P.Plant C.Cell s p budb.old plant.old cell.old job.old → OnErr result (result ≢ Err DumpStop.Plant → LeftAhead P.Plant (course s p).effects plant.old plant.new) }
    ensures list { C.tells → C.list cell.new ≡ C.list cell.old }
    ensures size { C.size cell.new ≡ C.size cell.old }
    ensures stays { StaysQuiet P.Plant plant.old plant.new }
    ensures plant_cause { HasCauseAt DumpStop.Plant (P.view plant.old).faults (P.view plant.new).faults result }
    ensures cell_cause { HasCauseAt DumpStop.Cell (C.faults cell.old) (C.faults cell.new) result }
{
    'steps: loop {
        match go_on(job, budb, plant, cell) {
            Ok(None) => {}
            Ok(Some(end)) => return Ok(end),
            Err(stop) => return Err(stop),
        }
    }
}
