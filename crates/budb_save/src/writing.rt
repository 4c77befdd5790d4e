//! Putting a save on a tape.

ghost use Rattle.std.specs.Prelude.{◌≡◌, ◌+◌, ◌≤◌, [], ◌∷◌, ◌++◌, ℕ, Some, length, map, OnOk, IsSome, IsTrue};
ghost use Rattle.crash_moments.specs.Moments.{HasCause};
ghost use Rattle.plant_core.specs.Effects.{putting_away};
ghost use Rattle.plant_effects.specs.Runs.{loaded_of, OnLoaded, TakesMore, Done, Leaves, StaysQuiet};
ghost use Rattle.budb_save.specs.Saves.{pieces_of};
ghost use Rattle.budb_save.specs.Writing.{putting_front, putting_piece, putting_pieces, putting_save, HasRoomFor, IsBlank, HasFront};

use crate::blocks::{write_data, write_head};
use plant_core::{Failed, Plant};
use plant_effects::{cut_to, load_tape, put_block, put_mark};
use tape_frames::Label;

/// The most bytes of a piece.
const ROOM: usize = 16_352;

/// Puts a piece on the loaded tape.
fn put_piece<P: Plant>(plant: &mut P, piece: &[u8]) -> Result<(), Failed>
    requires sound { P.sound plant.old }
    requires loaded { IsSome (loaded_of P.Plant plant.old) }
    requires takes { OnLoaded P.Plant TakesMore plant.old }
    requires few { length piece.now ≤ 16352 }
    ensures sound { OnOk result (P.sound plant.new) }
    ensures done { (k : ℕ) → loaded_of P.Plant plant.old ≡ Some k → OnOk result (Done P.Plant (putting_piece k piece.now ∷ []) plant.old plant.new) }
    ensures leaves { (k : ℕ) → loaded_of P.Plant plant.old ≡ Some k → Leaves P.Plant (putting_piece k piece.now ∷ []) plant.old plant.new }
    ensures loaded { OnOk result (loaded_of P.Plant plant.new ≡ loaded_of P.Plant plant.old) }
    ensures log_size { OnOk result ((P.view plant.new).log_size ≡ (P.view plant.old).log_size) }
    ensures stays { StaysQuiet P.Plant plant.old plant.new }
    ensures loads { (P.view plant.new).loads ≡ (P.view plant.old).loads }
    ensures cause { HasCause (P.view plant.old).faults (P.view plant.new).faults result }
{
    let mut block = [0; 16384];
    write_data(piece, &mut block);
    put_block(plant, &block)?;
    Ok(())
}

/// Puts the pieces of bytes on the loaded tape, one behind another.
fn put_pieces<P: Plant>(plant: &mut P, bytes: &[u8]) -> Result<(), Failed>
    requires sound { P.sound plant.old }
    requires loaded { IsSome (loaded_of P.Plant plant.old) }
    requires room { OnLoaded P.Plant (HasRoomFor (length bytes.now)) plant.old }
    ensures sound { OnOk result (P.sound plant.new) }
    ensures done { (k : ℕ) → loaded_of P.Plant plant.old ≡ Some k → OnOk result (Done P.Plant (map (putting_piece k) (pieces_of bytes.now)) plant.old plant.new) }
    ensures leaves { (k : ℕ) → loaded_of P.Plant plant.old ≡ Some k → Leaves P.Plant (map (putting_piece k) (pieces_of bytes.now)) plant.old plant.new }
    ensures loaded { OnOk result (loaded_of P.Plant plant.new ≡ loaded_of P.Plant plant.old) }
    ensures takes { OnOk result (OnLoaded P.Plant TakesMore plant.new) }
    ensures log_size { OnOk result ((P.view plant.new).log_size ≡ (P.view plant.old).log_size) }
    ensures stays { StaysQuiet P.Plant plant.old plant.new }
    ensures loads { (P.view plant.new).loads ≡ (P.view plant.old).loads }
    ensures cause { HasCause (P.view plant.old).faults (P.view plant.new).faults result }
{
    let mut rest = bytes;
    while !rest.is_empty() {
        let count = rest.len().min(ROOM);
        put_piece(plant, &rest[..count])?;
        rest = &rest[count..];
    }
    Ok(())
}

/// Puts a label, a mark and a head on the loaded tape, which has no records.
fn put_front<P: Plant>(plant: &mut P, label: &Label, count: u64) -> Result<(), Failed>
    requires sound { P.sound plant.old }
    requires loaded { IsSome (loaded_of P.Plant plant.old) }
    requires blank { OnLoaded P.Plant IsBlank plant.old }
    ensures sound { OnOk result (P.sound plant.new) }
    ensures done { (k : ℕ) → loaded_of P.Plant plant.old ≡ Some k → OnOk result (Done P.Plant (putting_front k label.now count) plant.old plant.new) }
    ensures leaves { (k : ℕ) → loaded_of P.Plant plant.old ≡ Some k → Leaves P.Plant (putting_front k label.now count) plant.old plant.new }
    ensures loaded { OnOk result (loaded_of P.Plant plant.new ≡ loaded_of P.Plant plant.old) }
    ensures room { OnOk result (OnLoaded P.Plant HasFront plant.new) }
    ensures log_size { OnOk result ((P.view plant.new).log_size ≡ (P.view plant.old).log_size) }
    ensures stays { StaysQuiet P.Plant plant.old plant.new }
    ensures loads { (P.view plant.new).loads ≡ (P.view plant.old).loads }
    ensures cause { HasCause (P.view plant.old).faults (P.view plant.new).faults result }
{
    let mut block = [0; 16384];
    label.encode(&mut block);
    put_block(plant, &block)?;
    put_mark(plant)?;
    write_head(count, &mut block);
    put_block(plant, &block)?;
    Ok(())
}

/// Puts a save on the loaded tape, which has no records.
fn put_save<P: Plant>(plant: &mut P, label: &Label, bytes: &[u8]) -> Result<(), Failed>
    requires sound { P.sound plant.old }
    requires loaded { IsSome (loaded_of P.Plant plant.old) }
    requires blank { OnLoaded P.Plant IsBlank plant.old }
    requires few { length bytes.now ≤ 4000000000 }
    ensures done { (k : ℕ) → loaded_of P.Plant plant.old ≡ Some k → OnOk result (Done P.Plant (putting_front k label.now (length bytes.now) ++ putting_pieces k bytes.now) plant.old plant.new) }
    ensures leaves { (k : ℕ) → loaded_of P.Plant plant.old ≡ Some k → Leaves P.Plant (putting_front k label.now (length bytes.now) ++ putting_pieces k bytes.now) plant.old plant.new }
    ensures log_size { OnOk result ((P.view plant.new).log_size ≡ (P.view plant.old).log_size) }
    ensures stays { StaysQuiet P.Plant plant.old plant.new }
    ensures loads { (P.view plant.new).loads ≡ (P.view plant.old).loads }
    ensures cause { HasCause (P.view plant.old).faults (P.view plant.new).faults result }
{
    put_front(plant, label, bytes.len() as u64)?;
    put_pieces(plant, bytes)?;
    put_mark(plant)?;
    Ok(())
}

/// Cuts the loaded tape to nothing, and puts a save.
fn cut_and_save<P: Plant>(plant: &mut P, label: &Label, bytes: &[u8]) -> Result<(), Failed>
    requires sound { P.sound plant.old }
    requires loaded { IsSome (loaded_of P.Plant plant.old) }
    requires few { length bytes.now ≤ 4000000000 }
    ensures done { (k : ℕ) → loaded_of P.Plant plant.old ≡ Some k → OnOk result (Done P.Plant (putting_save k label.now bytes.now) plant.old plant.new) }
    ensures leaves { (k : ℕ) → loaded_of P.Plant plant.old ≡ Some k → Leaves P.Plant (putting_save k label.now bytes.now) plant.old plant.new }
    ensures log_size { OnOk result ((P.view plant.new).log_size ≡ (P.view plant.old).log_size) }
    ensures stays { StaysQuiet P.Plant plant.old plant.new }
    ensures loads { (P.view plant.new).loads ≡ (P.view plant.old).loads }
    ensures cause { HasCause (P.view plant.old).faults (P.view plant.new).faults result }
{
    cut_to(plant, 0)?;
    put_save(plant, label, bytes)
}

/// Saves bytes on the tape in a slot that is here, under a label. The tape that was loaded is put away. It takes no memory.
pub(crate) fn write_save<P: Plant>(
    plant: &mut P,
    slot: u32,
    label: &Label,
    bytes: &[u8],
) -> Result<(), Failed>
    requires sound { P.sound plant.old }
    requires here { IsTrue ((P.view plant.old).present slot) }
    requires few { length bytes.now ≤ 4000000000 }
    ensures done { OnOk result (Done P.Plant (putting_away (loaded_of P.Plant plant.old) slot ++ putting_save slot label.now bytes.now) plant.old plant.new) }
    ensures leaves { Leaves P.Plant (putting_away (loaded_of P.Plant plant.old) slot ++ putting_save slot label.now bytes.now) plant.old plant.new }
    ensures log_size { OnOk result ((P.view plant.new).log_size ≡ (P.view plant.old).log_size) }
    ensures stays { StaysQuiet P.Plant plant.old plant.new }
    ensures loads { (P.view plant.new).loads ≤ (P.view plant.old).loads + 1 }
    ensures cause { HasCause (P.view plant.old).faults (P.view plant.new).faults result }
{
    load_tape(plant, slot)?;
    cut_and_save(plant, label, bytes)
}
