//! Playing several volumes together.

ghost use Rattle.std.specs.Prelude.{◌≡◌, ◌≢◌, ◌≤◌, ◌+◌, ℕ, Option as AnyOption, List as AnyList, Err, IfOk, All};
ghost use Rattle.crash_moments.specs.Moments.{HasCauseAt};
ghost use Rattle.plant_effects.specs.Runs.{StaysQuiet};
ghost use Rattle.tape_scan.specs.Slots.{Slot};
ghost use Rattle.tape_scan.specs.Looking.{HasSlots, Loads, LeavesLoads, LooksAt};
ghost use Rattle.mount_plan.specs.Courses.{AreCourses};
ghost use Rattle.mount_plan.specs.Outcomes.{AnswersNames, IsPlayed};
ghost use Rattle.mount_plan.specs.Passes.{most_loads};

use crate::course::Course;
use crate::courses::courses_of;
use crate::fault::{MountFault, Played};
use crate::meeting::meet_all;
use crate::outcomes::answers_of;
use crate::plan::{MountNeed, MountPlan};
use bk_text::List;
use budb::Budb;
use plant_core::Plant;
use restore_chain::LookFault;
use std::alloc::Global;

/// What is answered where tapes weren't looked at.
fn fault_of(fault: LookFault) -> MountFault
    ensures failed { fault ≡ LookFault.Failed → result ≡ MountFault.Failed }
    ensures only { result ≡ MountFault.Failed → fault ≡ LookFault.Failed }
{
    match fault {
        LookFault::Failed => MountFault::Failed,
        LookFault::Memory => MountFault::Memory,
    }
}

/// Plays courses of which nothing was played.
fn play_courses<P: Plant>(
    alloc: Global,
    plant: &mut P,
    budb: &Budb,
    needs: &[MountNeed],
    courses: Vec<Course>,
) -> Result<List<Played>, LookFault>
    requires sound { P.sound plant.old }
    ensures answers { P.tells → (slots : AnyList Slot) (before : AnyOption ℕ) (names : AnyList (AnyList ℕ)) → HasSlots P.Plant slots plant.old → AreCourses slots budb.now.database.listed before names courses.items → IfOk result (AnswersNames slots budb.now.database.listed before names) }
    ensures only { IfOk result (All IsPlayed) }
    ensures looks { LooksAt P.Plant LookFault.Failed plant.old plant.new result }
    ensures loads { P.tells → (slots : AnyList Slot) → HasSlots P.Plant slots plant.old → (P.view plant.new).loads ≤ (P.view plant.old).loads + most_loads slots budb.now.database.listed needs.now }
{
    let mut courses = courses;
    match meet_all(alloc, plant, budb, needs, courses.as_mut_slice()) {
        Err(fault) => Err(fault),
        Ok(()) => answers_of(alloc, courses),
    }
}

/// The volumes of a plan.
fn play_names<P: Plant>(
    alloc: Global,
    plan: &MountPlan,
    budb: &Budb,
    before: Option<u32>,
    plant: &mut P,
) -> Result<List<Played>, LookFault>
    requires { P.sound plant.old }
    ensures answers { P.tells → (slots : AnyList Slot) → HasSlots P.Plant slots plant.old → IfOk result (AnswersNames slots budb.now.database.listed before plan.now.names) }
    ensures only { IfOk result (All IsPlayed) }
    ensures looks { LooksAt P.Plant LookFault.Failed plant.old plant.new result }
    ensures loads { P.tells → (slots : AnyList Slot) → HasSlots P.Plant slots plant.old → (P.view plant.new).loads ≤ (P.view plant.old).loads + most_loads slots budb.now.database.listed plan.now.needs }
{
    match courses_of(alloc, budb, plan.names.as_slice(), before) {
        Err(_) => Err(LookFault::Memory),
        Ok(courses) => play_courses(alloc, plant, budb, plan.needs.as_slice(), courses),
    }
}

/// Plays the volumes of a plan together: for each name, in order, what `plan` and then `play` give for it alone on the same tapes, its
/// volume or why it isn't restored. Each tape is found once for each dump on it, and what all the names have on it is read while it lies
/// loaded: the loads are at most one for each need, and one for each slot here that has the need's label and doesn't hold its tape. Nothing
/// is written. The plan is one that `MountPlan::new` made of this database and this bound.
///
/// # Errors
///
/// `Failed` where a call of the plant was refused, and `Memory`.
pub fn play_all<P: Plant>(
    alloc: Global,
    plan: &MountPlan,
    budb: &Budb,
    before: Option<u32>,
    plant: &mut P,
) -> Result<List<Played>, MountFault>
    requires { P.sound plant.old }
    ensures answers { P.tells → (slots : AnyList Slot) → HasSlots P.Plant slots plant.old → IfOk result (AnswersNames slots budb.now.database.listed before plan.now.names) }
    ensures only { IfOk result (All IsPlayed) }
    ensures loads { P.tells → (slots : AnyList Slot) → HasSlots P.Plant slots plant.old → (P.view plant.new).loads ≤ (P.view plant.old).loads + most_loads slots budb.now.database.listed plan.now.needs }
    ensures done { result ≢ Err MountFault.Failed → Loads P.Plant plant.old plant.new }
    ensures leaves { LeavesLoads P.Plant plant.old plant.new }
    ensures stays { StaysQuiet P.Plant plant.old plant.new }
    ensures cause { HasCauseAt MountFault.Failed (P.view plant.old).faults (P.view plant.new).faults result }
{
    match play_names(alloc, plan, budb, before, plant) {
        Ok(played) => Ok(played),
        Err(fault) => Err(fault_of(fault)),
    }
}
