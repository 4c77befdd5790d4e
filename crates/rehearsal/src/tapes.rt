//! What stands on the tapes of a rehearsal.

ghost use Rattle.std.specs.Prelude.{◌≡◌, ◌+◌, ◌-◌, ◌<◌, ◌≤◌, ◌^◌, ℕ, [], Some, IfOk, OnOk, IsSome};
ghost use Rattle.std.specs.List.{count_by};
ghost use Rattle.plant_core.specs.Crashes.{Alike, IsSettled};
ghost use Rattle.plant_effects.specs.Runs.{state_of, loaded_of, Done, StaysQuiet};
ghost use Rattle.plant_media.specs.Stock.{stock_of};
ghost use Rattle.rehearsal.specs.Counts.{is_block, is_mark, on_tapes, one_of};

use media_core::Media;
use plant_core::{Failed, Kind, Plant};
use plant_effects::{get_record, load_tape};
use plant_media::MediaPlant;
use std::alloc::AllocError;

/// How many blocks and filemarks there are.
#[derive(Clone, Copy, Debug, PartialEq, Eq, Drop)]
pub struct Records {
    pub blocks: u64,
    pub marks: u64,
}

impl Records {
    /// With those of another tape.
    fn with(self, other: Records) -> Records
        requires blocks { self.blocks + other.blocks < 2 ^ 64 }
        requires marks { self.marks + other.marks < 2 ^ 64 }
        ensures blocks { result.blocks ≡ self.blocks + other.blocks }
        ensures marks { result.marks ≡ self.marks + other.marks }
    {
        Records {
            blocks: self.blocks + other.blocks,
            marks: self.marks + other.marks,
        }
    }
}

/// A record of a kind, as a count.
fn one_of(kind: Kind) -> Records
    ensures is { result ≡ one_of kind }
    ensures few { (result.blocks ≤ 1) × (result.marks ≤ 1) }
{
    match kind {
        Kind::Block => Records {
            blocks: 1,
            marks: 0,
        },
        Kind::Mark => Records {
            blocks: 0,
            marks: 1,
        },
        Kind::Bad => Records {
            blocks: 0,
            marks: 0,
        },
    }
}

/// Counts the records of the loaded tape.
fn count_loaded<P: Plant>(plant: &mut P) -> Result<Records, Failed>
    requires sound { P.sound plant.old }
    requires loaded { IsSome (loaded_of P.Plant plant.old) }
    ensures blocks { P.tells → (k : ℕ) → loaded_of P.Plant plant.old ≡ Some k → IfOk result (λ records. records.blocks ≡ count_by is_block ((state_of P.Plant plant.old).tape k)) }
    ensures marks { P.tells → (k : ℕ) → loaded_of P.Plant plant.old ≡ Some k → IfOk result (λ records. records.marks ≡ count_by is_mark ((state_of P.Plant plant.old).tape k)) }
    ensures few { IfOk result (λ records. (records.blocks < 2 ^ 32) × (records.marks < 2 ^ 32)) }
    ensures done { OnOk result (Done P.Plant [] plant.old plant.new) }
    ensures stays { StaysQuiet P.Plant plant.old plant.new }
{
    let mut block = [0; 16384];
    let mut records = Records {
        blocks: 0,
        marks: 0,
    };
    for place in 0..plant.tape_len() {
        let kind = get_record(plant, place, &mut block)?;
        records = records.with(one_of(kind));
    }
    Ok(records)
}

/// Counts the records of the tape in a slot.
fn count_in<P: Plant>(plant: &mut P, slot: u32) -> Result<Records, Failed>
    requires sound { P.sound plant.old }
    ensures sound { OnOk result (P.sound plant.new) }
    ensures blocks { P.tells → IsSettled (state_of P.Plant plant.old) → IfOk result (λ records. records.blocks ≡ count_by is_block ((state_of P.Plant plant.old).tape slot)) }
    ensures marks { P.tells → IsSettled (state_of P.Plant plant.old) → IfOk result (λ records. records.marks ≡ count_by is_mark ((state_of P.Plant plant.old).tape slot)) }
    ensures few { IfOk result (λ records. (records.blocks < 2 ^ 32) × (records.marks < 2 ^ 32)) }
    ensures same { P.tells → IsSettled (state_of P.Plant plant.old) → OnOk result (Alike (state_of P.Plant plant.old) (state_of P.Plant plant.new)) }
    ensures stays { StaysQuiet P.Plant plant.old plant.new }
{
    if !plant.here(slot) {
        return Err(Failed);
    }
    load_tape(plant, slot)?;
    let records = count_loaded(plant)?;
    Ok(records)
}

/// Counts the records of the tapes in the four slots.
fn count_all<P: Plant>(plant: &mut P) -> Result<Records, Failed>
    requires sound { P.sound plant.old }
    ensures sound { OnOk result (P.sound plant.new) }
    ensures blocks { P.tells → IsSettled (state_of P.Plant plant.old) → IfOk result (λ records. records.blocks ≡ on_tapes is_block (state_of P.Plant plant.old).tape) }
    ensures marks { P.tells → IsSettled (state_of P.Plant plant.old) → IfOk result (λ records. records.marks ≡ on_tapes is_mark (state_of P.Plant plant.old).tape) }
    ensures same { P.tells → IsSettled (state_of P.Plant plant.old) → OnOk result (Alike (state_of P.Plant plant.old) (state_of P.Plant plant.new)) }
    ensures stays { StaysQuiet P.Plant plant.old plant.new }
{
    let first = count_in(plant, 0)?;
    let second = count_in(plant, 1)?;
    let third = count_in(plant, 2)?;
    let fourth = count_in(plant, 3)?;
    let two = first.with(second);
    let three = two.with(third);
    Ok(three.with(fourth))
}

/// Counts the records on the tapes of media, which are handed back with as many slots, and the same tapes here.
pub fn count_records<M: Media + Drop>(media: M) -> Result<(Records, M), AllocError>
    ensures blocks { M.tells → IfOk result (λ counted. counted.0.blocks ≡ on_tapes is_block (stock_of (M.seen media)).tape) }
    ensures marks { M.tells → IfOk result (λ counted. counted.0.marks ≡ on_tapes is_mark (stock_of (M.seen media)).tape) }
    ensures same { M.tells → IfOk result (λ counted. stock_of (M.seen counted.1) ≡ stock_of (M.seen media)) }
    ensures slots { IfOk result (λ counted. M.count counted.1 - 1 ≡ M.count media - 1) }
    ensures present { IfOk result (λ counted. (k : ℕ) → M.present counted.1 (k + 1) ≡ M.present media (k + 1)) }
{
    let Ok(mut plant) = MediaPlant::open(media) else {
        return Err(AllocError);
    };
    let Ok(records) = count_all(&mut plant) else {
        return Err(AllocError);
    };
    Ok((records, plant.into_media()))
}
