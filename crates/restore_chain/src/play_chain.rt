//! Playing a chain of dumps, the whole one first.

ghost use Rattle.std.specs.Prelude.{◌≡◌, ◌≢◌, ◌<◌, List as AnyList, Err, length};
ghost use Rattle.crash_moments.specs.Moments.{HasCauseAt};
ghost use Rattle.plant_effects.specs.Runs.{StaysQuiet};
ghost use Rattle.tape_scan.specs.Slots.{Slot};
ghost use Rattle.archive_model.specs.Plays.{Plays};
ghost use Rattle.tape_scan.specs.Looking.{HasSlots, Loads, LeavesLoads, LooksAt};
ghost use Rattle.restore_chain.specs.Restoring.{Tells, IsPlayAnswer, IsChained, IsPlanOf, PlaysPlan, AreDumped, AreReady};

use crate::chain_plan::{ChainPlan, TapeNeed};
use crate::fault::RestoreFault;
use crate::play_dump::{needs_behind, play_listed};
use budb::Budb;
use plant_core::Plant;
use std::alloc::Global;
use vnode_model::Volume;

/// Plays the listed dumps of these ids one after the other, each over the volume that those before made.
fn play_chain<P: Plant>(
    alloc: Global,
    plant: &mut P,
    budb: &Budb,
    ids: &[u32],
    name: &[u8],
    tapes: &[TapeNeed],
) -> Result<Volume, RestoreFault>
    requires { P.sound plant.old }
    ensures plays { P.tells → (slots : AnyList Slot) → HasSlots P.Plant slots plant.old → 0 < length ids.now → AreReady slots budb.now.database.listed name.now ids.now tapes.now → Tells (Plays slots budb.now.database.listed ids.now name.now) result }
    ensures only { 0 < length ids.now → AreDumped budb.now.database.listed name.now ids.now → IsPlayAnswer result }
    ensures looks { LooksAt P.Plant RestoreFault.Failed plant.old plant.new result }
{
    let mut base = None;
    let mut rest = tapes;
    for id in ids {
        match play_listed(alloc, plant, budb, *id, name, rest, base) {
            Err(fault) => return Err(fault),
            Ok(volume) => {
                base = Some(volume);
                rest = needs_behind(budb, *id, name, rest);
            }
        }
    }
    match base {
        Some(volume) => Ok(volume),
        None => Err(RestoreFault::NoDump),
    }
}

/// The volume that a plan's dumps give, played one after the other from the tapes in the slots that the plan names, whatever
/// stands on them. The plan is one that `plan` gave for this database and these tapes. The first dump that has a fault is told:
/// the first record that isn't what the database calls for, else the record at which a volume's data stops being a stream, else
/// the first vnode that the dump keeps and the volume so far lacks, else that the volume would be too large (this project's
/// rules). Tapes are loaded, and nothing is written. Of a plan that `plan` gave for this database nothing else is told, whatever
/// the tapes are. Under another plan a dump that isn't listed may be told missing.
pub fn play<P: Plant>(
    alloc: Global,
    plan: &ChainPlan,
    budb: &Budb,
    plant: &mut P,
) -> Result<Volume, RestoreFault>
    requires { P.sound plant.old }
    ensures played { P.tells → (slots : AnyList Slot) → HasSlots P.Plant slots plant.old → IsPlanOf slots budb.now.database.listed plan.now → PlaysPlan slots budb.now.database.listed plan.now result }
    ensures only { IsChained budb.now.database.listed plan.now → IsPlayAnswer result }
    ensures done { result ≢ Err RestoreFault.Failed → Loads P.Plant plant.old plant.new }
    ensures leaves { LeavesLoads P.Plant plant.old plant.new }
    ensures stays { StaysQuiet P.Plant plant.old plant.new }
    ensures cause { HasCauseAt RestoreFault.Failed (P.view plant.old).faults (P.view plant.new).faults result }
{
    let ids = plan.dumps.as_slice();
    play_chain(
        alloc,
        plant,
        budb,
        ids,
        plan.name.bytes(),
        plan.tapes.as_slice(),
    )
}
