//! The courses of names before anything was played.

ghost use Rattle.std.specs.Prelude.{◌≡◌, [], Some, None, List as AnyList, IfOk};
ghost use Rattle.tape_scan.specs.Slots.{Slot};
ghost use Rattle.mount_plan.specs.Courses.{IsCourseFor, IsCourse, AreCourses};

use crate::course::{Course, Going};
use bk_text::{List, Name};
use budb::Budb;
use budb_fold::{ChainFault, VolumeDump};
use std::alloc::{AllocError, Global};

/// A chain of which nothing was played.
fn begin(alloc: Global, name: Name, dumps: List<u32>) -> Going
    ensures name { result.name ≡ name }
    ensures dumps { result.dumps ≡ dumps }
    ensures played { result.played ≡ 0 }
    ensures volume { result.volume ≡ None }
    ensures fault { result.fault ≡ None }
    ensures missing { result.missing ≡ None }
    ensures kept { result.kept.items ≡ [] }
{
    Going {
        name,
        dumps,
        played: 0,
        volume: None,
        fault: None,
        missing: None,
        kept: Vec::new(alloc),
    }
}

/// The course of a volume's dump.
fn course_of_one(alloc: Global, budb: &Budb, one: &VolumeDump<'_>) -> Result<Course, AllocError>
    ensures { (slots : AnyList Slot) → IfOk result (IsCourseFor slots budb.now.database.listed (Some one.now)) }
{
    let name = &one.volume.fields().name;
    match budb.chain_of(one.dump.fields().id, name.bytes()) {
        Err(ChainFault::Missing { id }) => Ok(Course::MissingDump(id)),
        Err(ChainFault::Memory) => Err(AllocError),
        Ok(dumps) => match name.clone() {
            Err(_) => Err(AllocError),
            Ok(kept) => Ok(Course::Going(begin(alloc, kept, dumps))),
        },
    }
}

/// The course of a name.
fn course_of(
    alloc: Global,
    budb: &Budb,
    name: &Name,
    before: Option<u32>,
) -> Result<Course, AllocError>
    ensures { (slots : AnyList Slot) → IfOk result (IsCourse slots budb.now.database.listed before name.now) }
{
    match budb.latest(name.bytes(), before) {
        Err(_) => Err(AllocError),
        Ok(None) => Ok(Course::NoDump),
        Ok(Some(one)) => course_of_one(alloc, budb, &one),
    }
}

/// The courses of names, in order.
pub(crate) fn courses_of(
    alloc: Global,
    budb: &Budb,
    names: &[Name],
    before: Option<u32>,
) -> Result<Vec<Course>, AllocError>
    ensures { (slots : AnyList Slot) → IfOk result (λ courses. AreCourses slots budb.now.database.listed before names.now courses.items) }
{
    let mut courses = Vec::new(alloc);
    for name in names {
        match course_of(alloc, budb, name, before) {
            Err(fault) => return Err(fault),
            Ok(course) => match courses.push(course) {
                Ok(()) => {}
                Err(_) => return Err(AllocError),
            },
        }
    }
    Ok(courses)
}
