//! The journal's log of a plant: changes appended by one commit, and read again.

ghost use Rattle.std.specs.Prelude.{◌≡◌, ◌≢◌, ◌⊎◌, ◌+◌, ◌<◌, [], ◌∷◌, length, Err, IfOk, OnOk, OnErr};
ghost use Rattle.crash_moments.specs.Moments.{HasCauseAt};
ghost use Rattle.plant_core.specs.Effects.{commits};
ghost use Rattle.plant_effects.specs.Runs.{state_of, Done, Leaves, OnlyLooks, SameTape, SameNumbers, StaysQuiet};
ghost use Rattle.budb_changes.specs.Bytes.{encoded};
ghost use Rattle.budb_changes.specs.Forms.{AreChanges};
ghost use Rattle.budb_journal.specs.Replays.{Replays, UnlessFailed};

use crate::fault::{AppendFault, ReplayFault};
use bk_text::{List, Out};
use budb_changes::{Change, ChangeFault, decode, put_changes};
use plant_core::{Plant, PutFault};
use plant_effects::{append_whole, read_log};
use std::alloc::Global;

/// Appends changes to the log of a plant, as one effect: a crash that the plant survives leaves the old log, or the old log with
/// all of them behind it. `LogFull` where the log would have more than 268,435,456 bytes. Where it would, and after `Memory`,
/// the plant is as it was. Bytes that were encoded before are appended by `plant_effects::append_whole`, without memory.
pub fn append<P: Plant>(alloc: Global, plant: &mut P, changes: &[Change]) -> Result<(), AppendFault>
    requires { P.sound plant.old }
    ensures form { OnOk result (AreChanges changes.now) }
    ensures error_form { OnErr result (result ≢ Err AppendFault.Memory → AreChanges changes.now) }
    ensures full { result ≡ Err AppendFault.LogFull → 268435456 < (P.view plant.old).log_size + length (encoded changes.now) }
    ensures only_full { 268435456 < (P.view plant.old).log_size + length (encoded changes.now) → (result ≡ Err AppendFault.LogFull) ⊎ (result ≡ Err AppendFault.Memory) }
    ensures over_same { 268435456 < (P.view plant.old).log_size + length (encoded changes.now) → plant.new ≡ plant.old }
    ensures memory_same { result ≡ Err AppendFault.Memory → plant.new ≡ plant.old }
    ensures done { OnOk result (Done P.Plant (commits (encoded changes.now) ∷ []) plant.old plant.new) }
    ensures leaves { Leaves P.Plant (commits (encoded changes.now) ∷ []) plant.old plant.new }
    ensures size { OnOk result ((P.view plant.new).log_size ≡ (P.view plant.old).log_size + length (encoded changes.now)) }
    ensures tape { OnOk result (SameTape P.Plant plant.old plant.new) }
    ensures stays { StaysQuiet P.Plant plant.old plant.new }
    ensures cause { HasCauseAt AppendFault.Failed (P.view plant.old).faults (P.view plant.new).faults result }
{
    let mut out = Out::new(alloc);
    match put_changes(&mut out, changes) {
        Ok(()) => {}
        Err(_) => return Err(AppendFault::Memory),
    }
    match append_whole(plant, out.as_slice()) {
        Ok(()) => Ok(()),
        Err(PutFault::LogFull) => Err(AppendFault::LogFull),
        Err(PutFault::Failed) => Err(AppendFault::Failed),
    }
}

/// All bytes of a log, in a vector of its length.
fn log_bytes<P: Plant>(alloc: Global, plant: &mut P) -> Result<Vec<u8>, ReplayFault>
    requires { P.sound plant.old }
    ensures bytes { P.tells → IfOk result (λ bytes. bytes.items ≡ (state_of P.Plant plant.old).log) }
    ensures refused { OnErr result ((result ≡ Err ReplayFault.Memory) ⊎ (result ≡ Err ReplayFault.Failed)) }
    ensures memory_same { result ≡ Err ReplayFault.Memory → plant.new ≡ plant.old }
    ensures done { OnOk result (Done P.Plant [] plant.old plant.new) }
    ensures leaves { Leaves P.Plant [] plant.old plant.new }
    ensures looks { OnlyLooks P.Plant plant.old plant.new }
    ensures numbers { OnOk result (SameNumbers P.Plant plant.old plant.new) }
    ensures stays { StaysQuiet P.Plant plant.old plant.new }
    ensures cause { HasCauseAt ReplayFault.Failed (P.view plant.old).faults (P.view plant.new).faults result }
{
    let mut bytes = match Vec::from_elem(alloc, 0u8, plant.log_len() as usize) {
        Ok(bytes) => bytes,
        Err(_) => return Err(ReplayFault::Memory),
    };
    match read_log(plant, 0, bytes.as_mut_slice()) {
        Ok(()) => Ok(bytes),
        Err(_) => Err(ReplayFault::Failed),
    }
}

/// The changes of a plant's log. It is read only: whatever the answer is but `Failed`, log, tapes, the loaded tape and what
/// was told are as they were, and at each answer what lies beneath the plant.
pub fn replay<P: Plant>(alloc: Global, plant: &mut P) -> Result<List<Change>, ReplayFault>
    requires { P.sound plant.old }
    ensures changes { P.tells → Replays (state_of P.Plant plant.old).log result }
    ensures done { UnlessFailed result (Done P.Plant [] plant.old plant.new) }
    ensures leaves { Leaves P.Plant [] plant.old plant.new }
    ensures looks { OnlyLooks P.Plant plant.old plant.new }
    ensures numbers { UnlessFailed result (SameNumbers P.Plant plant.old plant.new) }
    ensures stays { StaysQuiet P.Plant plant.old plant.new }
    ensures cause { HasCauseAt ReplayFault.Failed (P.view plant.old).faults (P.view plant.new).faults result }
{
    let bytes = match log_bytes(alloc, plant) {
        Ok(bytes) => bytes,
        Err(fault) => return Err(fault),
    };
    match decode(alloc, bytes.as_slice()) {
        Ok(changes) => Ok(changes),
        Err(ChangeFault::BadChange { at }) => Err(ReplayFault::BadChange { at }),
        Err(ChangeFault::Memory) => Err(ReplayFault::Memory),
    }
}
