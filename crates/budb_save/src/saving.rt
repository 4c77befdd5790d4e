//! Saving the database on the tape that is chosen.

ghost use Rattle.std.specs.Prelude.{◌≡◌, ◌+◌, ◌≤◌, false, List as AnyList, length, IfOk, OnOk, IsTrue, Err};
ghost use Rattle.bk_text.specs.Alphabets.{IsTapeName};
ghost use Rattle.byte_formats.specs.Forms.{IsMaybe};
ghost use Rattle.crash_moments.specs.Moments.{HasCauseAt};
ghost use Rattle.plant_effects.specs.Runs.{state_of, loaded_of, Done, Leaves, StaysQuiet};
ghost use Rattle.budb_changes.specs.Forms.{AreChanges};
ghost use Rattle.budb_fold.specs.Checkpoints.{checkpoint};
ghost use Rattle.tape_scan.specs.Slots.{Slot};
ghost use Rattle.tape_scan.specs.Looking.{HasSlots};
ghost use Rattle.tape_choice.specs.Choice.{permanent_in};
ghost use Rattle.budb_save.specs.Saves.{HasSave, save_label};
ghost use Rattle.budb_save.specs.Faults.{UnlessStopped, WhereRefused};
ghost use Rattle.budb_save.specs.Saving.{saved_bytes, save_pick, is_too_big, saved_in, save_answer, putting_on, effects_in, save_effects, Untouched};

use crate::choosing::{NAME, Picked, Wish, choose_save};
use crate::fault::{SaveFault, Stopped};
use crate::writing::write_save;
use bk_text::{Bytes, Out};
use budb::Budb;
use budb_changes::put_changes;
use budb_journal::{Database, checkpoint};
use plant_core::Plant;
use std::alloc::{AllocError, Global};
use tape_choice::ChoiceFault;
use tape_config::Port;
use tape_frames::{Label, LabelFields};

/// The most bytes of a tape's capacity.
const MOST: u64 = 4_000_000_000;

/// What was saved.
#[derive(Clone, Copy, Debug, PartialEq, Eq)]
pub struct Saved {
    /// How many bytes the changes have.
    pub bytes: u64,
    /// The slot of the tape.
    pub slot: u32,
}

/// The bytes of the changes that a checkpoint of a database writes.
fn saved_bytes(alloc: Global, database: &Database) -> Result<Bytes, AllocError>
    ensures bytes { IfOk result (λ bytes. bytes ≡ saved_bytes database.now) }
    ensures form { OnOk result (AreChanges (checkpoint database.now)) }
{
    let changes = checkpoint(alloc, database)?;
    let mut out = Out::new(alloc);
    put_changes(&mut out, changes.as_slice())?;
    Ok(out.into_bytes())
}

/// Whether a save of so many bytes passes the capacity of a port's tapes.
fn is_too_big(port: &Port, count: usize) -> bool
    ensures is { result ≡ is_too_big port.now count }
    ensures few { result ≡ false → count ≤ 4000000000 }
{
    let fields = port.fields();
    let count = (count as u64).min(MOST + 1);
    let pieces = (count + 16_351) / 16_352;
    fields.capacity < (pieces + 2) * 16_384 + 2 * fields.filemark
}

/// The permanent name of a tape by its label. It takes no memory.
fn permanent_in(alloc: Global, label: Option<Label>) -> Bytes
    ensures is { result ≡ permanent_in label }
    ensures form { IsMaybe IsTapeName result }
{
    match label {
        None => Bytes::new(alloc),
        Some(label) => label.into_fields().permanent,
    }
}

/// The label of a tape that is saved on, which keeps its permanent name.
fn new_label(alloc: Global, old: Option<Label>) -> Result<Label, AllocError>
    ensures label { IfOk result (λ label. label ≡ save_label (permanent_in old)) }
    ensures form { OnOk result (IsMaybe IsTapeName (permanent_in old)) }
{
    let afs = Bytes::from_slice(alloc, NAME.as_slice())?;
    let permanent = permanent_in(alloc, old);
    Ok(Label::new(LabelFields {
        initial: 0,
        tape: 0,
        afs,
        permanent,
    }))
}

/// Saves bytes on the tape that was picked.
fn put_on<P: Plant>(
    alloc: Global,
    plant: &mut P,
    picked: Picked,
    bytes: &[u8],
) -> Result<(), Stopped>
    requires sound { P.sound plant.old }
    requires here { IsTrue ((P.view plant.old).present picked.slot) }
    requires few { length bytes.now ≤ 4000000000 }
    ensures has { P.tells → OnOk result (HasSave ((state_of P.Plant plant.new).tape picked.slot) bytes.now) }
    ensures same { result ≡ Err Stopped.Memory → plant.new ≡ plant.old }
    ensures done { OnOk result (Done P.Plant (putting_on picked (loaded_of P.Plant plant.old) bytes.now) plant.old plant.new) }
    ensures leaves { Leaves P.Plant (putting_on picked (loaded_of P.Plant plant.old) bytes.now) plant.old plant.new }
    ensures log_size { OnOk result ((P.view plant.new).log_size ≡ (P.view plant.old).log_size) }
    ensures stays { StaysQuiet P.Plant plant.old plant.new }
    ensures loads { (P.view plant.new).loads ≤ (P.view plant.old).loads + 1 }
    ensures cause { HasCauseAt Stopped.Failed (P.view plant.old).faults (P.view plant.new).faults result }
{
    let Picked { slot, label } = picked;
    let label = match new_label(alloc, label) {
        Ok(label) => label,
        Err(_) => return Err(Stopped::Memory),
    };
    match write_save(plant, slot, &label, bytes) {
        Ok(()) => Ok(()),
        Err(_) => Err(Stopped::Failed),
    }
}

/// Saves a database on the tape that was picked, where its capacity isn't passed.
fn save_on<P: Plant>(
    alloc: Global,
    database: &Database,
    plant: &mut P,
    port: &Port,
    picked: Picked,
) -> Result<Saved, SaveFault>
    requires sound { P.sound plant.old }
    requires here { IsTrue ((P.view plant.old).present picked.slot) }
    ensures answer { UnlessStopped result (result ≡ saved_in port.now picked.slot (length (saved_bytes database.now))) }
    ensures form { OnOk result (AreChanges (checkpoint database.now)) }
    ensures has { P.tells → IfOk result (λ saved. HasSave ((state_of P.Plant plant.new).tape saved.slot) (saved_bytes database.now)) }
    ensures done { UnlessStopped result (Done P.Plant (effects_in port.now picked (loaded_of P.Plant plant.old) (saved_bytes database.now)) plant.old plant.new) }
    ensures same { WhereRefused result (plant.new ≡ plant.old) }
    ensures leaves { Leaves P.Plant (effects_in port.now picked (loaded_of P.Plant plant.old) (saved_bytes database.now)) plant.old plant.new }
    ensures log_size { OnOk result ((P.view plant.new).log_size ≡ (P.view plant.old).log_size) }
    ensures stays { StaysQuiet P.Plant plant.old plant.new }
    ensures loads { (P.view plant.new).loads ≤ (P.view plant.old).loads + 1 }
    ensures cause { HasCauseAt SaveFault.Failed (P.view plant.old).faults (P.view plant.new).faults result }
{
    let bytes = match saved_bytes(alloc, database) {
        Ok(bytes) => bytes,
        Err(_) => return Err(SaveFault::Memory),
    };
    let count = bytes.len();
    if is_too_big(port, count) {
        return Err(SaveFault::TooBig);
    }
    let slot = picked.slot;
    match put_on(alloc, plant, picked, bytes.as_slice()) {
        Ok(()) => Ok(Saved {
            bytes: count as u64,
            slot,
        }),
        Err(Stopped::Failed) => Err(SaveFault::Failed),
        Err(Stopped::Memory) => Err(SaveFault::Memory),
    }
}

/// Saves the database on a tape of its own: the changes of a checkpoint, on the least of the coordinator's slots that is here and whose
/// tape has no records, or a label with the initial id 0 and no AFS name or that of saves. The tape is cut to nothing first, and keeps
/// its permanent name. The log stays. A crash that the plant survives leaves the old tape or a front of the new one. Memory is refused
/// before anything is written. (The format and the choice are this project's own.)
pub fn save<P: Plant>(
    alloc: Global,
    budb: &Budb,
    plant: &mut P,
    port: &Port,
) -> Result<Saved, SaveFault>
    requires { P.sound plant.old }
    ensures answer { P.tells → (slots : AnyList Slot) → HasSlots P.Plant slots plant.old → UnlessStopped result (result ≡ save_answer port.now (save_pick port.now slots) (length (saved_bytes budb.now.database))) }
    ensures form { OnOk result (AreChanges (checkpoint budb.now.database)) }
    ensures has { P.tells → IfOk result (λ saved. HasSave ((state_of P.Plant plant.new).tape saved.slot) (saved_bytes budb.now.database)) }
    ensures done { P.tells → (slots : AnyList Slot) → HasSlots P.Plant slots plant.old → UnlessStopped result (Done P.Plant (save_effects port.now (save_pick port.now slots) (loaded_of P.Plant plant.old) (saved_bytes budb.now.database)) plant.old plant.new) }
    ensures sound { OnOk result (P.sound plant.new) }
    ensures log_size { OnOk result ((P.view plant.new).log_size ≡ (P.view plant.old).log_size) }
    ensures refused { WhereRefused result (Untouched P.Plant plant.old plant.new) }
    ensures leaves { P.tells → (slots : AnyList Slot) → HasSlots P.Plant slots plant.old → Leaves P.Plant (save_effects port.now (save_pick port.now slots) (loaded_of P.Plant plant.old) (saved_bytes budb.now.database)) plant.old plant.new }
    ensures stays { StaysQuiet P.Plant plant.old plant.new }
    ensures loads { (P.view plant.new).loads ≤ (P.view plant.old).loads + 1 }
    ensures cause { HasCauseAt SaveFault.Failed (P.view plant.old).faults (P.view plant.new).faults result }
{
    match choose_save(alloc, plant, Wish::Saving, port) {
        Ok(Some(picked)) => save_on(alloc, budb.database(), plant, port, picked),
        Ok(None) => Err(SaveFault::NoTape),
        Err(ChoiceFault::Failed) => Err(SaveFault::Failed),
        Err(ChoiceFault::Memory) => Err(SaveFault::Memory),
    }
}
