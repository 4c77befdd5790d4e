//! One pass over needs: each tape is found once, and what the chains have on it is read while it lies loaded.

ghost use Rattle.std.specs.Prelude.{◌≡◌, ◌≢◌, ◌≤◌, ◌+◌, ◌<◌, ℕ, Option as AnyOption, Some, None, List as AnyList, length, get_or, Err, OnOk, IsSome, IsTrue};
ghost use Rattle.plant_effects.specs.Runs.{loaded_of};
ghost use Rattle.budb_changes.specs.declared.records.DumpRecordFields.{DumpRecordFields as AnyDump};
ghost use Rattle.budb_fold.specs.Lookups.{VolumeDump, record_of};
ghost use Rattle.tape_scan.specs.Slots.{Slot};
ghost use Rattle.tape_scan.specs.Looking.{HasSlots, LooksAt};
ghost use Rattle.restore_chain.specs.Keeping.{OnlyReads};
ghost use Rattle.mount_plan.specs.Courses.{IsHeldSo, reading_of, Awaits, IsGoing, IsCourse, AreCourses};
ghost use Rattle.mount_plan.specs.Passes.{loads_of, most_loads};

use crate::course::{Course, Going};
use crate::next::end_dump;
use crate::plan::MountNeed;
use budb::Budb;
use budb_changes::DumpRecord;
use plant_core::Plant;
use restore_chain::{LookFault, Reading, holder_of, keep_tape};
use std::alloc::Global;

/// Whether a chain waits for a dump.
fn awaits(going: &Going, id: u32) -> bool
    ensures missing { IsTrue result → going.now.missing ≡ None }
    ensures within { IsTrue result → going.now.played < length going.now.dumps }
    ensures next { IsTrue result → get_or going.now.dumps going.now.played 0 ≡ id }
{
    if going.missing.is_some() {
        return false;
    }
    match going.dumps.as_slice().get(going.played) {
        None => false,
        Some(next) => *next == id,
    }
}

/// What is done with the fragments on a tape that a slot here holds or none does.
fn reading_for(going: &Going, held: bool) -> Reading
    ensures { result ≡ reading_of held going.now.fault }
{
    if !held {
        return Reading::Missing;
    }
    if going.fault.is_some() {
        return Reading::Held;
    }
    Reading::Loaded
}

/// Keeps what the next dump of a chain has on a tape.
fn keep_next<P: Plant>(
    alloc: Global,
    plant: &mut P,
    dump: &DumpRecord,
    tape: u32,
    held: bool,
    going: &mut Going,
) -> Result<(), LookFault>
    requires sound { P.sound plant.old }
    requires loaded { IsTrue held → IsSome (loaded_of P.Plant plant.old) }
    ensures keeps { P.tells → (slots : AnyList Slot) (listed : AnyList AnyDump) (one : VolumeDump) (id : ℕ) → HasSlots P.Plant slots plant.old → IsHeldSo P.Plant slots dump.now tape plant.old held → record_of listed id ≡ Some dump.now → going.old.missing ≡ None → going.old.played < length going.old.dumps → get_or going.old.dumps going.old.played 0 ≡ id → IsGoing slots listed one going.old → OnOk result (Awaits slots listed one dump.now id going.new) }
    ensures reads { OnlyReads P.Plant LookFault.Failed plant.old plant.new result }
{
    let reading = reading_for(going, held);
    keep_tape(
        alloc,
        plant,
        dump,
        going.name.bytes(),
        tape,
        reading,
        &mut going.kept,
    )
}

/// Takes what a chain has on a tape of a dump, where it waits for that dump.
fn meet_going<P: Plant>(
    alloc: Global,
    plant: &mut P,
    dump: &DumpRecord,
    id: u32,
    tape: u32,
    held: bool,
    going: &mut Going,
) -> Result<(), LookFault>
    requires sound { P.sound plant.old }
    requires loaded { IsTrue held → IsSome (loaded_of P.Plant plant.old) }
    ensures goes { P.tells → (slots : AnyList Slot) (listed : AnyList AnyDump) (one : VolumeDump) → HasSlots P.Plant slots plant.old → IsHeldSo P.Plant slots dump.now tape plant.old held → record_of listed id ≡ Some dump.now → IsGoing slots listed one going.old → OnOk result (IsGoing slots listed one going.new) }
    ensures reads { OnlyReads P.Plant LookFault.Failed plant.old plant.new result }
{
    if !awaits(going, id) {
        return Ok(());
    }
    match keep_next(alloc, plant, dump, tape, held, going) {
        Err(fault) => Err(fault),
        Ok(()) => end_dump(alloc, dump, going),
    }
}

/// Takes what a name has on a tape of a dump.
fn meet_one<P: Plant>(
    alloc: Global,
    plant: &mut P,
    dump: &DumpRecord,
    id: u32,
    tape: u32,
    held: bool,
    course: &mut Course,
) -> Result<(), LookFault>
    requires sound { P.sound plant.old }
    requires loaded { IsTrue held → IsSome (loaded_of P.Plant plant.old) }
    ensures goes { P.tells → (slots : AnyList Slot) (listed : AnyList AnyDump) (before : AnyOption ℕ) (name : AnyList ℕ) → HasSlots P.Plant slots plant.old → IsHeldSo P.Plant slots dump.now tape plant.old held → record_of listed id ≡ Some dump.now → IsCourse slots listed before name course.old → OnOk result (IsCourse slots listed before name course.new) }
    ensures reads { OnlyReads P.Plant LookFault.Failed plant.old plant.new result }
{
    match course {
        Course::Going(going) => meet_going(alloc, plant, dump, id, tape, held, going),
        Course::NoDump => Ok(()),
        Course::MissingDump(_) => Ok(()),
    }
}

/// Takes what each name has on a tape of a dump.
fn meet_each<P: Plant>(
    alloc: Global,
    plant: &mut P,
    dump: &DumpRecord,
    id: u32,
    tape: u32,
    held: bool,
    courses: &mut [Course],
) -> Result<(), LookFault>
    requires sound { P.sound plant.old }
    requires loaded { IsTrue held → IsSome (loaded_of P.Plant plant.old) }
    ensures goes { P.tells → (slots : AnyList Slot) (listed : AnyList AnyDump) (before : AnyOption ℕ) (names : AnyList (AnyList ℕ)) → HasSlots P.Plant slots plant.old → IsHeldSo P.Plant slots dump.now tape plant.old held → record_of listed id ≡ Some dump.now → AreCourses slots listed before names courses.old → OnOk result (AreCourses slots listed before names courses.new) }
    ensures reads { OnlyReads P.Plant LookFault.Failed plant.old plant.new result }
{
    for course in courses.iter_mut() {
        match meet_one(alloc, plant, dump, id, tape, held, course) {
            Ok(()) => {}
            Err(fault) => return Err(fault),
        }
    }
    Ok(())
}

/// Finds the tape of a need, and takes what each name has on it.
fn meet_need<P: Plant>(
    alloc: Global,
    plant: &mut P,
    budb: &Budb,
    need: &MountNeed,
    courses: &mut [Course],
) -> Result<(), LookFault>
    requires sound { P.sound plant.old }
    ensures goes { P.tells → (slots : AnyList Slot) (before : AnyOption ℕ) (names : AnyList (AnyList ℕ)) → HasSlots P.Plant slots plant.old → AreCourses slots budb.now.database.listed before names courses.old → OnOk result (AreCourses slots budb.now.database.listed before names courses.new) }
    ensures looks { LooksAt P.Plant LookFault.Failed plant.old plant.new result }
    ensures loads { P.tells → (slots : AnyList Slot) → HasSlots P.Plant slots plant.old → (P.view plant.new).loads ≤ (P.view plant.old).loads + loads_of slots budb.now.database.listed need.now }
{
    match budb.record(need.dump) {
        None => Ok(()),
        Some(dump) => match holder_of(alloc, plant, dump, need.tape) {
            Err(fault) => Err(fault),
            Ok(found) => meet_each(
                alloc,
                plant,
                dump,
                need.dump,
                need.tape,
                found.is_some(),
                courses,
            ),
        },
    }
}

/// Finds the tapes of needs, one after the other, and takes what each name has on them.
pub(crate) fn meet_all<P: Plant>(
    alloc: Global,
    plant: &mut P,
    budb: &Budb,
    needs: &[MountNeed],
    courses: &mut [Course],
) -> Result<(), LookFault>
    requires sound { P.sound plant.old }
    ensures goes { P.tells → (slots : AnyList Slot) (before : AnyOption ℕ) (names : AnyList (AnyList ℕ)) → HasSlots P.Plant slots plant.old → AreCourses slots budb.now.database.listed before names courses.old → OnOk result (AreCourses slots budb.now.database.listed before names courses.new) }
    ensures looks { LooksAt P.Plant LookFault.Failed plant.old plant.new result }
    ensures loads { P.tells → (slots : AnyList Slot) → HasSlots P.Plant slots plant.old → (P.view plant.new).loads ≤ (P.view plant.old).loads + most_loads slots budb.now.database.listed needs.now }
{
    for need in needs {
        match meet_need(alloc, plant, budb, need, courses) {
            Ok(()) => {}
            Err(fault) => return Err(fault),
        }
    }
    Ok(())
}
