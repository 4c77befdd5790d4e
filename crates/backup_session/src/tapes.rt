//! Where a tape is, and writing its label.

ghost use Rattle.std.specs.Prelude.{◌≡◌, ◌≢◌, ◌&&◌, [], ◌∷◌, ◌++◌, ℕ, nat_le, Some, Ok, Err, IfOk, OnOk, OnErr, IsTrue, IsSome};
ghost use Rattle.crash_moments.specs.Moments.{HasCauseAt};
ghost use Rattle.plant_core.specs.Effects.{puts, settles, cuts};
ghost use Rattle.plant_core.specs.Records.{block_with, mark};
ghost use Rattle.plant_effects.specs.Runs.{state_of, loaded_of, OnLoaded, Done, Leaves, SameNumbers, StaysQuiet};
ghost use Rattle.tape_frames.specs.declared.frame.Frame.TheVariants.{Label as LabelFrame};
ghost use Rattle.tape_frames.specs.Frames.{spelling};
ghost use Rattle.backup_replies.specs.Labels.{label_lines};
ghost use Rattle.dump_courses.specs.Ahead.{DoneAhead};
ghost use Rattle.backup_session.specs.Labels.{label_of};
ghost use Rattle.backup_session.specs.Tapes.{slot_in, slot_at, slot_of, label_reply, IsBlank, putting_label};

use crate::hosts::any_at_port;
use crate::labels::label_of;
use crate::reply::Reply;
use crate::stops::Stop;
use backup_replies::{Refusal, label_lines, refused_number, refused_word};
use bk_text::Bytes;
use budb_journal::HostPort;
use plant_core::Plant;
use plant_effects::{cut_to, load_tape, put_block, put_mark};
use std::alloc::{AllocError, Global};
use tape_config::{Config, Port};
use tape_frames::Label;

/// Whether a coordinator has a slot.
fn has_slot(port: &Port, slot: u32) -> bool
    ensures { result ≡ (nat_le port.now.first slot && nat_le slot port.now.last) }
{
    let fields = port.fields();
    fields.first <= slot && slot <= fields.last
}

/// A slot of a coordinator, where it is one and a tape is in it.
fn slot_in<P: Plant>(
    alloc: Global,
    plant: &P,
    port: &Port,
    slot: u32,
) -> Result<Result<u32, Bytes>, AllocError>
    requires { P.sound plant.now }
    ensures is { IfOk result (λ found. found ≡ slot_in (P.view plant.now).present port.now slot) }
    ensures here { IfOk result (λ found. IfOk found (λ k. IsTrue ((P.view plant.now).present k))) }
{
    if !has_slot(port, slot) {
        return Ok(Err(refused_word(alloc, Refusal::BadValue, b"-slot")?));
    }
    if !plant.here(slot) {
        return Ok(Err(refused_number(alloc, Refusal::SlotEmpty, slot as u64)?));
    }
    Ok(Ok(slot))
}

/// The slot that a command names, by default the coordinator's first, or the reply that refuses it.
pub(crate) fn slot_of<P: Plant>(
    alloc: Global,
    plant: &P,
    config: &Config,
    hosts: &[HostPort],
    offset: u16,
    slot: Option<u32>,
) -> Result<Result<u32, Bytes>, AllocError>
    requires { P.sound plant.now }
    ensures is { IfOk result (λ found. found ≡ slot_of (record { config = config.now; slots = (P.view plant.now).slots; present = (P.view plant.now).present }) hosts.now offset slot) }
    ensures here { IfOk result (λ found. IfOk found (λ k. IsTrue ((P.view plant.now).present k))) }
{
    if !any_at_port(hosts, offset) {
        return Ok(Err(refused_number(alloc, Refusal::NoSuchPort, offset as u64)?));
    }
    match config.port(offset) {
        None => Ok(Err(refused_number(alloc, Refusal::NoSuchPort, offset as u64)?)),
        Some(port) => slot_in(alloc, plant, &port, slot.unwrap_or(port.fields().first)),
    }
}

/// The reply of a label that is read.
fn label_reply(alloc: Global, slot: u32, label: &Option<Label>) -> Result<Bytes, AllocError>
    ensures { IfOk result (λ text. text ≡ label_reply slot label.now) }
{
    match label {
        None => refused_number(alloc, Refusal::NoLabel, slot as u64),
        Some(label) => {
            let a = label.fields();
            label_lines(
                alloc,
                a.afs.as_slice(),
                a.permanent.as_slice(),
                a.initial,
                a.tape,
                slot,
            )
        }
    }
}

/// Reads the label of the tape in a slot that is here. The loaded tape stays.
pub(crate) fn read_label<P: Plant>(alloc: Global, plant: &mut P, slot: u32) -> Result<Reply, Stop>
    requires sound { P.sound plant.old }
    requires here { IsTrue ((P.view plant.old).present slot) }
    ensures text { P.tells → IfOk result (λ reply. reply.text ≡ label_reply slot (label_of ((state_of P.Plant plant.old).tape slot))) }
    ensures done { OnOk result (Done P.Plant [] plant.old plant.new) }
    ensures stopped { OnErr result (result ≢ Err Stop.Plant → Done P.Plant [] plant.old plant.new) }
    ensures leaves { Leaves P.Plant [] plant.old plant.new }
    ensures numbers { OnOk result (SameNumbers P.Plant plant.old plant.new) }
    ensures stays { StaysQuiet P.Plant plant.old plant.new }
    ensures cause { HasCauseAt Stop.Plant (P.view plant.old).faults (P.view plant.new).faults result }
    ensures never { result ≢ Err Stop.Cell }
{
    let label = label_of(alloc, plant, slot)?;
    Ok(Reply::new(label_reply(alloc, slot, &label)?))
}

/// Puts a label and a mark on the loaded tape, which has no records.
fn put_label<P: Plant>(plant: &mut P, label: &Label) -> Result<(), Stop>
    requires sound { P.sound plant.old }
    requires loaded { IsSome (loaded_of P.Plant plant.old) }
    requires blank { OnLoaded P.Plant IsBlank plant.old }
    ensures done { (k : ℕ) → loaded_of P.Plant plant.old ≡ Some k → OnOk result (Done P.Plant (puts k (block_with (spelling (LabelFrame label.now))) ∷ (puts k mark ∷ settles k ∷ [])) plant.old plant.new) }
    ensures leaves { (k : ℕ) → loaded_of P.Plant plant.old ≡ Some k → Leaves P.Plant (puts k (block_with (spelling (LabelFrame label.now))) ∷ (puts k mark ∷ settles k ∷ [])) plant.old plant.new }
    ensures failed { OnErr result (result ≡ Err Stop.Plant) }
    ensures loaded { OnOk result (loaded_of P.Plant plant.new ≡ loaded_of P.Plant plant.old) }
    ensures stays { StaysQuiet P.Plant plant.old plant.new }
    ensures cause { HasCauseAt Stop.Plant (P.view plant.old).faults (P.view plant.new).faults result }
    ensures never { result ≢ Err Stop.Cell }
{
    let mut block = [0; 16384];
    label.encode(&mut block);
    put_block(plant, &block)?;
    put_mark(plant)?;
    Ok(())
}

/// Cuts the loaded tape to nothing, and puts a label and a mark.
fn cut_and_put<P: Plant>(plant: &mut P, label: &Label) -> Result<(), Stop>
    requires sound { P.sound plant.old }
    requires loaded { IsSome (loaded_of P.Plant plant.old) }
    ensures done { (k : ℕ) → loaded_of P.Plant plant.old ≡ Some k → OnOk result (Done P.Plant (putting_label k label.now) plant.old plant.new) }
    ensures leaves { (k : ℕ) → loaded_of P.Plant plant.old ≡ Some k → Leaves P.Plant (putting_label k label.now) plant.old plant.new }
    ensures failed { OnErr result (result ≡ Err Stop.Plant) }
    ensures loaded { OnOk result (loaded_of P.Plant plant.new ≡ loaded_of P.Plant plant.old) }
    ensures stays { StaysQuiet P.Plant plant.old plant.new }
    ensures cause { HasCauseAt Stop.Plant (P.view plant.old).faults (P.view plant.new).faults result }
    ensures never { result ≢ Err Stop.Cell }
{
    cut_to(plant, 0)?;
    put_label(plant, label)
}

/// Labels the tape in a slot that is here. What was put on a tape that is put away is settled.
pub(crate) fn write_label<P: Plant>(plant: &mut P, slot: u32, label: &Label) -> Result<(), Stop>
    requires sound { P.sound plant.old }
    requires here { IsTrue ((P.view plant.old).present slot) }
    ensures sound { OnOk result (P.sound plant.new) }
    ensures done { OnOk result (DoneAhead P.Plant (putting_label slot label.now) plant.old plant.new) }
    ensures leaves { Leaves P.Plant (putting_label slot label.now) plant.old plant.new }
    ensures failed { OnErr result (result ≡ Err Stop.Plant) }
    ensures stays { StaysQuiet P.Plant plant.old plant.new }
    ensures cause { HasCauseAt Stop.Plant (P.view plant.old).faults (P.view plant.new).faults result }
    ensures never { result ≢ Err Stop.Cell }
{
    load_tape(plant, slot)?;
    cut_and_put(plant, label)
}
