//! The commands: a restore of a volume, of the volumes of a partition, and of those of a volume set.
//!
//! What is replied, and which lists the cell has on the way, is one look-up for each volume in any archive that stands on the plant.
//! Whatever stands there, tapes are loaded and nothing is written, and the cell is changed by whole volumes alone. (The rules are this
//! project's own.)

ghost use Rattle.std.specs.Prelude.{◌≡◌, ◌≢◌, ◌≤◌, ◌+◌, false, Err, List as AnyList, IfOk};
ghost use Rattle.crash_moments.specs.Moments.{HasCauseAt};
ghost use Rattle.plant_effects.specs.Runs.{StaysQuiet};
ghost use Rattle.budb_fold.specs.Chains.{HaveParentsBelow};
ghost use Rattle.tape_scan.specs.Slots.{Slot};
ghost use Rattle.tape_scan.specs.Looking.{HasSlots, Loads, LeavesLoads, LooksAt};
ghost use Rattle.volume_sets.specs.Sets.{entries_of};
ghost use Rattle.archive_model.specs.Archives.{Archive};
ghost use Rattle.restore_commands.specs.Choices.{disk_choices, set_choices};
ghost use Rattle.restore_commands.specs.Answers.{all_answer, one_answer, disk_answer, set_answer};
ghost use Rattle.restore_commands.specs.Batches.{batch_loads, entries_loads};
ghost use Rattle.restore_commands.specs.Leaving.{IsArchiveOf, IsAnswer, OnTheWay, MayPut, MayPutEach, MayPutNamed};

use crate::choosing::{disk_choices, set_choices};
use crate::manner::Manner;
use crate::restoring::{restore_all, restore_one};
use crate::stops::RestoreStop;
use backup_replies::{Refusal, refused_word};
use backup_words::{Disk, Wanted};
use bk_text::{Bytes, SetName};
use budb::Budb;
use cell_core::Cell;
use plant_core::Plant;
use std::alloc::Global;
use volume_sets::SetEntry;

/// Restores one volume as it was before a time. The reply is its line and `ok`, or the line of its refusal; of a trial also the tapes
/// that it would need, and the cell stays.
pub fn restore_volume<P: Plant, C: Cell>(
    alloc: Global,
    budb: &Budb,
    plant: &mut P,
    cell: &mut C,
    wanted: &Wanted,
    manner: &Manner<'_>,
) -> Result<Bytes, RestoreStop>
    requires { P.sound plant.old }
    ensures answer { P.tells → C.tells → (a : Archive) → IsArchiveOf P.Plant budb.now.database.listed a plant.old → IfOk result (λ reply. IsAnswer (one_answer a (C.list cell.old) manner.now wanted.now) reply (C.list cell.old) (C.list cell.new)) }
    ensures left { P.tells → C.tells → (a : Archive) → IsArchiveOf P.Plant budb.now.database.listed a plant.old → OnTheWay (C.list cell.old) (one_answer a (C.list cell.old) manner.now wanted.now).cells (C.list cell.new) }
    ensures may { C.tells → MayPut manner.now wanted.now (C.list cell.old) (C.list cell.new) }
    ensures done { result ≢ Err RestoreStop.Plant → Loads P.Plant plant.old plant.new }
    ensures leaves { LeavesLoads P.Plant plant.old plant.new }
    ensures stays { StaysQuiet P.Plant plant.old plant.new }
    ensures cause { HasCauseAt RestoreStop.Plant (P.view plant.old).faults (P.view plant.new).faults result }
    ensures cell_cause { HasCauseAt RestoreStop.Cell (C.faults cell.old) (C.faults cell.new) result }
{
    match restore_one(alloc, budb, plant, cell, wanted, manner) {
        Ok(told) => match told.reply(alloc) {
            Ok(reply) => Ok(reply),
            Err(_) => Err(RestoreStop::Memory),
        },
        Err(stop) => Err(stop),
    }
}

/// Restores the volumes of a partition, each as its latest dump has it: the base names whose latest dump names that server and that
/// partition, in ascending byte order. The reply has the lines of each, its refusal among them, and then `ok`. Sixteen at a time are
/// played together, and put when all of them were played: where the plant fails none of these is put. Of a trial each is played alone.
pub fn restore_disk<P: Plant, C: Cell>(
    alloc: Global,
    budb: &Budb,
    plant: &mut P,
    cell: &mut C,
    disk: &Disk,
    manner: &Manner<'_>,
) -> Result<Bytes, RestoreStop>
    requires { P.sound plant.old }
    ensures answer { P.tells → C.tells → (a : Archive) → IsArchiveOf P.Plant budb.now.database.listed a plant.old → IfOk result (λ reply. IsAnswer (disk_answer a (C.list cell.old) manner.now disk.now) reply (C.list cell.old) (C.list cell.new)) }
    ensures left { P.tells → C.tells → (a : Archive) → IsArchiveOf P.Plant budb.now.database.listed a plant.old → OnTheWay (C.list cell.old) (disk_answer a (C.list cell.old) manner.now disk.now).cells (C.list cell.new) }
    ensures may { C.tells → MayPutEach manner.now (disk_choices budb.now.database.listed disk.now) (C.list cell.old) (C.list cell.new) }
    ensures loads { P.tells → manner.now.is_trial ≡ false → HaveParentsBelow budb.now.database.listed → (slots : AnyList Slot) → HasSlots P.Plant slots plant.old → (P.view plant.new).loads ≤ (P.view plant.old).loads + batch_loads slots budb.now.database.listed (disk_choices budb.now.database.listed disk.now) }
    ensures done { result ≢ Err RestoreStop.Plant → Loads P.Plant plant.old plant.new }
    ensures leaves { LeavesLoads P.Plant plant.old plant.new }
    ensures stays { StaysQuiet P.Plant plant.old plant.new }
    ensures cause { HasCauseAt RestoreStop.Plant (P.view plant.old).faults (P.view plant.new).faults result }
    ensures cell_cause { HasCauseAt RestoreStop.Cell (C.faults cell.old) (C.faults cell.new) result }
{
    match disk_choices(alloc, budb, disk) {
        Ok(choices) => restore_all(alloc, budb, plant, cell, choices.as_slice(), manner),
        Err(_) => Err(RestoreStop::Memory),
    }
}

/// Restores the volumes that some of these entries have.
fn restore_entries<P: Plant, C: Cell>(
    alloc: Global,
    budb: &Budb,
    plant: &mut P,
    cell: &mut C,
    entries: &[SetEntry],
    manner: &Manner<'_>,
) -> Result<Bytes, RestoreStop>
    requires { P.sound plant.old }
    ensures answer { P.tells → C.tells → (a : Archive) → IsArchiveOf P.Plant budb.now.database.listed a plant.old → IfOk result (λ reply. IsAnswer (all_answer a (C.list cell.old) manner.now (set_choices budb.now.database.listed entries.now)) reply (C.list cell.old) (C.list cell.new)) }
    ensures left { P.tells → C.tells → (a : Archive) → IsArchiveOf P.Plant budb.now.database.listed a plant.old → OnTheWay (C.list cell.old) (all_answer a (C.list cell.old) manner.now (set_choices budb.now.database.listed entries.now)).cells (C.list cell.new) }
    ensures may { C.tells → MayPutEach manner.now (set_choices budb.now.database.listed entries.now) (C.list cell.old) (C.list cell.new) }
    ensures loads { P.tells → manner.now.is_trial ≡ false → HaveParentsBelow budb.now.database.listed → (slots : AnyList Slot) → HasSlots P.Plant slots plant.old → (P.view plant.new).loads ≤ (P.view plant.old).loads + batch_loads slots budb.now.database.listed (set_choices budb.now.database.listed entries.now) }
    ensures looks { LooksAt P.Plant RestoreStop.Plant plant.old plant.new result }
    ensures cause { HasCauseAt RestoreStop.Cell (C.faults cell.old) (C.faults cell.new) result }
{
    match set_choices(alloc, budb, entries) {
        Ok(choices) => restore_all(alloc, budb, plant, cell, choices.as_slice(), manner),
        Err(_) => Err(RestoreStop::Memory),
    }
}

/// Restores the volumes of a volume set, each as its latest dump has it: the base names whose latest dump's server, partition and volume
/// name an entry has, in ascending byte order, each to the place where it lay. The reply has the lines of each, its refusal among
/// them, and then `ok`; where there is no such set it is that refusal. They are played together as those of a partition are.
pub fn restore_set<P: Plant, C: Cell>(
    alloc: Global,
    budb: &Budb,
    plant: &mut P,
    cell: &mut C,
    name: &SetName,
    manner: &Manner<'_>,
) -> Result<Bytes, RestoreStop>
    requires { P.sound plant.old }
    ensures answer { P.tells → C.tells → (a : Archive) → IsArchiveOf P.Plant budb.now.database.listed a plant.old → IfOk result (λ reply. IsAnswer (set_answer a budb.now.database.sets (C.list cell.old) manner.now name.now) reply (C.list cell.old) (C.list cell.new)) }
    ensures left { P.tells → C.tells → (a : Archive) → IsArchiveOf P.Plant budb.now.database.listed a plant.old → OnTheWay (C.list cell.old) (set_answer a budb.now.database.sets (C.list cell.old) manner.now name.now).cells (C.list cell.new) }
    ensures may { C.tells → MayPutNamed manner.now budb.now.database.listed (entries_of name.now budb.now.database.sets) (C.list cell.old) (C.list cell.new) }
    ensures loads { P.tells → manner.now.is_trial ≡ false → HaveParentsBelow budb.now.database.listed → (slots : AnyList Slot) → HasSlots P.Plant slots plant.old → (P.view plant.new).loads ≤ (P.view plant.old).loads + entries_loads slots budb.now.database.listed (entries_of name.now budb.now.database.sets) }
    ensures done { result ≢ Err RestoreStop.Plant → Loads P.Plant plant.old plant.new }
    ensures leaves { LeavesLoads P.Plant plant.old plant.new }
    ensures stays { StaysQuiet P.Plant plant.old plant.new }
    ensures cause { HasCauseAt RestoreStop.Plant (P.view plant.old).faults (P.view plant.new).faults result }
    ensures cell_cause { HasCauseAt RestoreStop.Cell (C.faults cell.old) (C.faults cell.new) result }
{
    match budb.database().sets.entries_of(name) {
        Some(entries) => restore_entries(alloc, budb, plant, cell, entries, manner),
        None => match refused_word(alloc, Refusal::NoSuchSet, name.bytes()) {
            Ok(line) => Ok(line),
            Err(_) => Err(RestoreStop::Memory),
        },
    }
}
