//! Reading a saved database back.

ghost use Rattle.std.specs.Prelude.{◌≡◌, ◌≢◌, ◌+◌, ◌/◌, ◌<◌, ◌≤◌, ◌++◌, false, [], ◌∷◌, ℕ, List as AnyList, length, Some, None, Err, IfOk, IfErr, OnOk, OnErr, IsTrue};
ghost use Rattle.crash_moments.specs.Moments.{HasCauseAt};
ghost use Rattle.plant_core.specs.Records.{Record};
ghost use Rattle.plant_core.specs.Effects.{commits, putting_away};
ghost use Rattle.plant_effects.specs.Runs.{state_of, loaded_of, Done, Leaves, SameNumbers, StaysQuiet};
ghost use Rattle.budb_changes.specs.declared.change.Change.{Change as AnyChange};
ghost use Rattle.budb_changes.specs.Bytes.{encoded};
ghost use Rattle.budb_changes.specs.Forms.{AreChanges};
ghost use Rattle.budb_fold.specs.Database.{after, after_from};
ghost use Rattle.budb.specs.Kept.{Keeps};
ghost use Rattle.tape_scan.specs.Slots.{Slot};
ghost use Rattle.tape_scan.specs.Looking.{HasSlots, Loads, LooksAt};
ghost use Rattle.budb_save.specs.declared.choosing.Picked.{Picked as AnyPicked};
ghost use Rattle.budb_save.specs.Saves.{HasSave};
ghost use Rattle.budb_save.specs.Back.{IsUnused, IsBack};
ghost use Rattle.budb_save.specs.Reading.{IsLabelled};
ghost use Rattle.budb_save.specs.Saving.{saved_bytes, load_pick};
ghost use Rattle.budb_save.specs.Loading.{ReadsChanges, ReadsPicked, RefusesBack, LoadsBack, LeavesBack, FindsChanges, CommitsBack, load_answer, load_effects, DoneAway, LeavesAway, UnlessLoadStopped};

use crate::choosing::{Wish, choose_save};
use crate::fault::{LoadFault, Stopped};
use crate::reading::{SaveRead, read_save};
use bk_text::List;
use budb::{Budb, CommitFault};
use budb_changes::{Change, ChangeFault, decode};
use budb_journal::Database;
use plant_core::Plant;
use plant_effects::load_tape;
use std::alloc::Global;
use tape_choice::ChoiceFault;
use tape_config::Port;

/// Whether a database has no set, no level and no listed dump.
fn is_unused(database: &Database) -> bool
    ensures yes { IsTrue result → IsUnused database.now }
    ensures no { result ≡ false → IsUnused database.now → ⊥ }
{
    let sets = database.sets.len();
    let levels = database.levels.list().len();
    let most = sets.max(levels).max(database.listed.len());
    most == 0
}

/// The record of a byte that is bad, of so many: its data block, behind the label, the mark and the head; the last one where no byte is.
fn place_of(at: u64, count: u64, last: u32) -> u32
    ensures within { at < count → 3 + at / 16352 ≤ 4294967295 → result ≡ 3 + at / 16352 }
    ensures behind { count ≤ at → result ≡ last }
{
    if at < count {
        let place = (3 + at / 16_352).min(4_294_967_295);
        place as u32
    } else {
        last
    }
}

/// The changes whose bytes were saved on the tape of a slot, the last record of which is given.
fn changes_in(alloc: Global, bytes: &[u8], slot: u32, last: u32) -> Result<List<Change>, LoadFault>
    ensures read { (tape : AnyList Record) → HasSave tape bytes.now → length tape ≤ 4294967295 → last + 1 ≡ length tape → ReadsChanges tape slot result }
    ensures form { IfOk result AreChanges }
    ensures well { result ≢ Err LoadFault.Failed }
    ensures unused { result ≢ Err LoadFault.InUse }
{
    match decode(alloc, bytes) {
        Ok(changes) => Ok(changes),
        Err(ChangeFault::BadChange { at }) => Err(LoadFault::BadSave {
            slot,
            place: place_of(at, bytes.len() as u64, last),
        }),
        Err(ChangeFault::Memory) => Err(LoadFault::Memory),
    }
}

/// The changes that are saved on the loaded tape, which has the label of a save.
fn read_changes<P: Plant>(
    alloc: Global,
    plant: &mut P,
    slot: u32,
) -> Result<List<Change>, LoadFault>
    requires sound { P.sound plant.old }
    requires loaded { loaded_of P.Plant plant.old ≡ Some slot }
    ensures read { P.tells → (permanent : AnyList ℕ) → IsLabelled permanent ((state_of P.Plant plant.old).tape slot) → ReadsChanges ((state_of P.Plant plant.old).tape slot) slot result }
    ensures form { IfOk result AreChanges }
    ensures unused { result ≢ Err LoadFault.InUse }
    ensures done { result ≢ Err LoadFault.Failed → Done P.Plant [] plant.old plant.new }
    ensures leaves { Leaves P.Plant [] plant.old plant.new }
    ensures numbers { result ≢ Err LoadFault.Failed → SameNumbers P.Plant plant.old plant.new }
    ensures stays { StaysQuiet P.Plant plant.old plant.new }
    ensures loads { (P.view plant.new).loads ≡ (P.view plant.old).loads }
    ensures cause { HasCauseAt LoadFault.Failed (P.view plant.old).faults (P.view plant.new).faults result }
{
    let records = plant.tape_len();
    let last = records.saturating_sub(1);
    match read_save(alloc, plant) {
        Ok(SaveRead::Whole(bytes)) => changes_in(alloc, bytes.as_slice(), slot, last),
        Ok(SaveRead::Wrong(place)) => Err(LoadFault::BadSave { slot, place }),
        Ok(SaveRead::Wanting) => Err(LoadFault::BadSave { slot, place: last }),
        Err(Stopped::Failed) => Err(LoadFault::Failed),
        Err(Stopped::Memory) => Err(LoadFault::Memory),
    }
}

/// The changes that are saved on the tape in a slot that is here, which has the label of a save. The tape is loaded.
fn load_changes<P: Plant>(
    alloc: Global,
    plant: &mut P,
    slot: u32,
) -> Result<List<Change>, LoadFault>
    requires sound { P.sound plant.old }
    requires here { IsTrue ((P.view plant.old).present slot) }
    ensures read { P.tells → (permanent : AnyList ℕ) → IsLabelled permanent ((state_of P.Plant plant.old).tape slot) → ReadsChanges ((state_of P.Plant plant.old).tape slot) slot result }
    ensures form { IfOk result AreChanges }
    ensures unused { result ≢ Err LoadFault.InUse }
    ensures done { result ≢ Err LoadFault.Failed → Done P.Plant (putting_away (loaded_of P.Plant plant.old) slot) plant.old plant.new }
    ensures leaves { Leaves P.Plant (putting_away (loaded_of P.Plant plant.old) slot) plant.old plant.new }
    ensures log_size { result ≢ Err LoadFault.Failed → (P.view plant.new).log_size ≡ (P.view plant.old).log_size }
    ensures stays { StaysQuiet P.Plant plant.old plant.new }
    ensures loads { (P.view plant.new).loads ≤ (P.view plant.old).loads + 1 }
    ensures cause { HasCauseAt LoadFault.Failed (P.view plant.old).faults (P.view plant.new).faults result }
{
    match load_tape(plant, slot) {
        Ok(()) => read_changes(alloc, plant, slot),
        Err(_) => Err(LoadFault::Failed),
    }
}

/// The changes that are saved on the least of the coordinator's slots that has a save.
fn find_changes<P: Plant>(
    alloc: Global,
    plant: &mut P,
    port: &Port,
) -> Result<List<Change>, LoadFault>
    requires { P.sound plant.old }
    ensures read { P.tells → (slots : AnyList Slot) → HasSlots P.Plant slots plant.old → ReadsPicked (state_of P.Plant plant.old).tape (load_pick port.now slots) result }
    ensures found { IfOk result (FindsChanges P.Plant port.now plant.old plant.new) }
    ensures unused { result ≢ Err LoadFault.InUse }
    ensures looks { LooksAt P.Plant LoadFault.Failed plant.old plant.new result }
    ensures loads { (P.view plant.new).loads ≤ (P.view plant.old).loads + 1 }
{
    match choose_save(alloc, plant, Wish::Reading, port) {
        Ok(Some(picked)) => load_changes(alloc, plant, picked.slot),
        Ok(None) => Err(LoadFault::NoSave),
        Err(ChoiceFault::Failed) => Err(LoadFault::Failed),
        Err(ChoiceFault::Memory) => Err(LoadFault::Memory),
    }
}

/// How many dumps are listed.
fn count_listed(database: &Database) -> u32
    requires { length database.now.listed ≤ 4294967295 }
    ensures { result ≡ length database.now.listed }
{
    database.listed.len() as u32
}

/// Makes changes one commit on a database without listed dumps, and counts the dumps that are listed.
fn commit_back<P: Plant>(
    budb: &mut Budb,
    plant: &mut P,
    changes: &[Change],
) -> Result<u32, LoadFault>
    requires sound { P.sound plant.old }
    requires nothing { budb.old.prepared ≡ None }
    requires none { budb.old.database.listed ≡ [] }
    ensures nothing { budb.new.prepared ≡ None }
    ensures made { OnOk result (budb.new.database ≡ after_from changes.now budb.old.database) }
    ensures count { IfOk result (λ count. count ≡ length budb.new.database.listed) }
    ensures same { OnErr result (budb.new ≡ budb.old) }
    ensures refused { IfErr result (CommitsBack (P.view plant.old).log_size changes.now) }
    ensures plant_same { OnErr result (result ≢ Err LoadFault.Failed → plant.new ≡ plant.old) }
    ensures over_same { 268435456 < (P.view plant.old).log_size + length (encoded changes.now) → plant.new ≡ plant.old }
    ensures keeps { P.tells → (log : AnyList AnyChange) → Keeps log (state_of P.Plant plant.old).log budb.old → OnOk result (Keeps (log ++ changes.now) (state_of P.Plant plant.new).log budb.new) }
    ensures done { OnOk result (Done P.Plant (commits (encoded changes.now) ∷ []) plant.old plant.new) }
    ensures leaves { Leaves P.Plant (commits (encoded changes.now) ∷ []) plant.old plant.new }
    ensures size { OnOk result ((P.view plant.new).log_size ≡ (P.view plant.old).log_size + length (encoded changes.now)) }
    ensures within { OnOk result ((P.view plant.new).log_size ≤ 268435456) }
    ensures stays { StaysQuiet P.Plant plant.old plant.new }
    ensures loads { OnOk result ((P.view plant.new).loads ≡ (P.view plant.old).loads) }
    ensures cause { HasCauseAt LoadFault.Failed (P.view plant.old).faults (P.view plant.new).faults result }
{
    match budb.commit(plant, changes) {
        Ok(()) => Ok(count_listed(budb.database())),
        Err(CommitFault::LogFull { length }) => Err(LoadFault::LogFull { length }),
        Err(CommitFault::Failed) => Err(LoadFault::Failed),
        Err(CommitFault::Memory) => Err(LoadFault::Memory),
    }
}

/// Reads the saved database back from the least of the coordinator's slots that is here and whose tape has the label of a save: the saved
/// changes become one commit behind the log, byte by byte, those that don't fit as well. Hosts that are there stay. It is for a database
/// that has no volume set, no dump level and no listed dump, as after a loss of the journal. What it gives is the number of dumps that
/// are listed. Each refusal leaves database and log as they were; a crash that the plant survives leaves the old log, or that with all
/// saved changes behind it.
pub fn load_back<P: Plant>(
    alloc: Global,
    budb: &mut Budb,
    plant: &mut P,
    port: &Port,
) -> Result<u32, LoadFault>
    requires sound { P.sound plant.old }
    requires nothing { budb.old.prepared ≡ None }
    ensures nothing { budb.new.prepared ≡ None }
    ensures in_use { (IsUnused budb.old.database → ⊥) → result ≡ Err LoadFault.InUse }
    ensures used_same { result ≡ Err LoadFault.InUse → plant.new ≡ plant.old }
    ensures refused { P.tells → (slots : AnyList Slot) → HasSlots P.Plant slots plant.old → IfErr result (RefusesBack budb.old.database (P.view plant.old).log_size (state_of P.Plant plant.old).tape (load_pick port.now slots)) }
    ensures back { IfOk result (LoadsBack P.Plant port.now plant.old plant.new budb.old budb.new) }
    ensures saved { P.tells → (slots : AnyList Slot) → HasSlots P.Plant slots plant.old → (p : AnyPicked) → load_pick port.now slots ≡ Some p → (log : AnyList AnyChange) → AreChanges log → HasSave ((state_of P.Plant plant.old).tape p.slot) (saved_bytes (after log)) → OnOk result (IsBack (after log) budb.old.database budb.new.database) }
    ensures same { OnErr result (budb.new ≡ budb.old) }
    ensures looked { OnErr result (result ≢ Err LoadFault.Failed → Loads P.Plant plant.old plant.new) }
    ensures leaves { LeavesBack P.Plant port.now plant.old plant.new }
    ensures answer { P.tells → (slots : AnyList Slot) → HasSlots P.Plant slots plant.old → UnlessLoadStopped result (result ≡ load_answer budb.old.database (P.view plant.old).log_size (state_of P.Plant plant.old).tape (load_pick port.now slots)) }
    ensures done { P.tells → (slots : AnyList Slot) → HasSlots P.Plant slots plant.old → UnlessLoadStopped result (DoneAway P.Plant (load_effects budb.old.database (P.view plant.old).log_size (state_of P.Plant plant.old).tape (load_pick port.now slots)) plant.old plant.new) }
    ensures away { P.tells → (slots : AnyList Slot) → HasSlots P.Plant slots plant.old → LeavesAway P.Plant (load_effects budb.old.database (P.view plant.old).log_size (state_of P.Plant plant.old).tape (load_pick port.now slots)) plant.old plant.new }
    ensures stays { StaysQuiet P.Plant plant.old plant.new }
    ensures loads { result ≢ Err LoadFault.Failed → (P.view plant.new).loads ≤ (P.view plant.old).loads + 1 }
    ensures cause { HasCauseAt LoadFault.Failed (P.view plant.old).faults (P.view plant.new).faults result }
{
    if !is_unused(budb.database()) {
        return Err(LoadFault::InUse);
    }
    match find_changes(alloc, plant, port) {
        Ok(changes) => commit_back(budb, plant, changes.as_slice()),
        Err(fault) => Err(fault),
    }
}
