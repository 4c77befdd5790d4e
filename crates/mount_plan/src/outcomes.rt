//! What is answered for each name in the end.

ghost use Rattle.std.specs.Prelude.{◌≡◌, ◌≢◌, ◌≤◌, IsTrue, is_none, length, List as AnyList, None, Err, IfOk, All};
ghost use Rattle.mount_plan.specs.Courses.{IsOutcome, AreOutcomes};
ghost use Rattle.mount_plan.specs.Outcomes.{IsPlayed};
ghost use Rattle.mount_plan.specs.declared.course.Course.TheVariants as course_forms;

use crate::course::{Course, Going, Missed};
use crate::fault::Played;
use bk_text::List;
use restore_chain::{LookFault, RestoreFault};
use std::alloc::Global;

/// Whether nothing more is to be played of a chain: a tape of it is missing, or all of its dumps were passed.
fn is_over(going: &Going) -> bool
    ensures { IsTrue result → going.now.missing ≡ None → length going.now.dumps ≤ going.now.played }
{
    going.missing.is_some() || going.dumps.len() <= going.played
}

/// What is answered for a chain that is over.
fn answer_over(going: Going) -> Result<Played, LookFault>
    requires { going.missing ≡ None → length going.dumps ≤ going.played }
    ensures is { IfOk result (IsOutcome (course_forms.Going going)) }
    ensures only { IfOk result IsPlayed }
    ensures never { result ≢ Err LookFault.Failed }
{
    let Going {
        name,
        dumps,
        played,
        volume,
        fault,
        missing,
        kept,
    } = going;
    match missing {
        Some(Missed { name, initial }) => {
            Ok(Played::Refused(RestoreFault::MissingTape { name, initial }))
        }
        None => match fault {
            Some(told) => Ok(Played::Refused(told.into_fault())),
            None => match volume {
                Some(volume) => Ok(Played::Volume(volume)),
                None => Err(LookFault::Memory),
            },
        },
    }
}

/// What is answered for a chain.
fn outcome_of(going: Going) -> Result<Played, LookFault>
    ensures is { IfOk result (IsOutcome (course_forms.Going going)) }
    ensures only { IfOk result IsPlayed }
    ensures never { result ≢ Err LookFault.Failed }
{
    // The needs of a plan that was made of the same database leave no chain before its end.
    if !is_over(&going) {
        return Err(LookFault::Memory);
    }
    answer_over(going)
}

/// What is answered for a name.
fn outcome(course: Course) -> Result<Played, LookFault>
    ensures is { IfOk result (IsOutcome course) }
    ensures only { IfOk result IsPlayed }
    ensures never { result ≢ Err LookFault.Failed }
{
    match course {
        Course::NoDump => Ok(Played::Refused(RestoreFault::NoDump)),
        Course::MissingDump(id) => Ok(Played::Refused(RestoreFault::MissingDump { id })),
        Course::Going(going) => outcome_of(going),
    }
}

/// What is answered for names, in order.
pub(crate) fn answers_of(alloc: Global, courses: Vec<Course>) -> Result<List<Played>, LookFault>
    ensures are { IfOk result (AreOutcomes courses.items) }
    ensures only { IfOk result (All IsPlayed) }
    ensures never { result ≢ Err LookFault.Failed }
{
    let mut all = List::new(alloc);
    for course in courses {
        match outcome(course) {
            Err(fault) => return Err(fault),
            Ok(played) => match all.push(played) {
                Ok(()) => {}
                Err(_) => return Err(LookFault::Memory),
            },
        }
    }
    Ok(all)
}
