//! The plan of a restore.

ghost use Rattle.std.specs.Prelude.{◌≡◌, ◌≢◌, List as AnyList, Err, IfOk};
ghost use Rattle.crash_moments.specs.Moments.{HasCauseAt};
ghost use Rattle.plant_effects.specs.Runs.{StaysQuiet};
ghost use Rattle.tape_scan.specs.Slots.{Slot};
ghost use Rattle.tape_scan.specs.Looking.{HasSlots, Loads, LeavesLoads, LooksAt};
ghost use Rattle.tape_frames.specs.TapeNames.{numbered};
ghost use Rattle.restore_chain.specs.Planning.{located, LocatesNext, Locates, answered, AnswersChain, PlansOne, Plans, IsPlanAnswer, restore_fault};
ghost use Rattle.restore_chain.specs.Restoring.{IsChained};

use crate::chain_plan::{ChainPlan, TapeNeed};
use crate::fault::{LookFault, RestoreFault};
use crate::holders::holder_of;
use crate::needs::{Need, needs_of_chain};
use bk_text::{List, Name, TapeName};
use budb::Budb;
use budb_fold::{ChainFault, VolumeDump};
use plant_core::Plant;
use std::alloc::Global;

/// The tapes of a chain, or the first one that no slot here holds.
#[derive(Drop)]
pub(crate) enum Found {
    /// All tapes, in playing order.
    All(List<TapeNeed>),
    /// A tape's name, and the id of the first dump of its dump set.
    Missing { name: TapeName, initial: u32 },
}

/// The tape of a need, with the least slot here that holds it.
fn locate<P: Plant>(
    alloc: Global,
    plant: &mut P,
    need: &Need<'_>,
) -> Result<Option<TapeNeed>, LookFault>
    requires { P.sound plant.old }
    ensures located { P.tells → (slots : AnyList Slot) → HasSlots P.Plant slots plant.old → IfOk result (λ tape. tape ≡ located slots need.now) }
    ensures looks { LooksAt P.Plant LookFault.Failed plant.old plant.new result }
{
    match holder_of(alloc, plant, need.dump, need.tape) {
        Ok(None) => Ok(None),
        Ok(Some(slot)) => match need.name(alloc) {
            Ok(name) => Ok(Some(TapeNeed {
                name,
                initial: need.dump.fields().initial,
                tape: need.tape,
                slot,
            })),
            Err(_) => Err(LookFault::Memory),
        },
        Err(fault) => Err(fault),
    }
}

/// Puts the tape of a need behind those that are there, and says whether a slot here holds it.
fn locate_next<P: Plant>(
    alloc: Global,
    plant: &mut P,
    need: &Need<'_>,
    tapes: &mut List<TapeNeed>,
) -> Result<bool, LookFault>
    requires { P.sound plant.old }
    ensures located { P.tells → (slots : AnyList Slot) → HasSlots P.Plant slots plant.old → IfOk result (λ here. LocatesNext slots need.now here tapes.old tapes.new) }
    ensures looks { LooksAt P.Plant LookFault.Failed plant.old plant.new result }
{
    match locate(alloc, plant, need) {
        Ok(Some(tape)) => match tapes.push(tape) {
            Ok(()) => Ok(true),
            Err(_) => Err(LookFault::Memory),
        },
        Ok(None) => Ok(false),
        Err(fault) => Err(fault),
    }
}

/// That the tape of a need is missing.
fn missing(alloc: Global, need: &Need<'_>) -> Result<Found, LookFault>
    ensures is { IfOk result (λ found. found ≡ Found.Missing (numbered need.now.dump.base need.now.tape) need.now.dump.initial) }
    ensures never { result ≢ Err LookFault.Failed }
{
    match need.name(alloc) {
        Ok(name) => Ok(Found::Missing {
            name,
            initial: need.dump.fields().initial,
        }),
        Err(_) => Err(LookFault::Memory),
    }
}

/// The tapes of needs, in order, up to the first one that no slot here holds.
fn locate_all<P: Plant>(
    alloc: Global,
    plant: &mut P,
    needs: &[Need<'_>],
) -> Result<Found, LookFault>
    requires { P.sound plant.old }
    ensures found { P.tells → (slots : AnyList Slot) → HasSlots P.Plant slots plant.old → IfOk result (Locates slots needs.now) }
    ensures looks { LooksAt P.Plant LookFault.Failed plant.old plant.new result }
{
    let mut tapes = List::new(alloc);
    for need in needs {
        match locate_next(alloc, plant, need, &mut tapes) {
            Ok(true) => {}
            Ok(false) => return missing(alloc, need),
            Err(fault) => return Err(fault),
        }
    }
    Ok(Found::All(tapes))
}

/// What a plan of a chain answers that has these tapes.
fn answer_of(found: Found, name: Name, dumps: List<u32>) -> Result<ChainPlan, RestoreFault>
    ensures { result ≡ answered found name dumps }
{
    match found {
        Found::All(tapes) => Ok(ChainPlan { name, dumps, tapes }),
        Found::Missing { name, initial } => Err(RestoreFault::MissingTape { name, initial }),
    }
}

/// What a restore answers where tapes weren't looked at.
pub(crate) fn fault_of(fault: LookFault) -> RestoreFault
    ensures { result ≡ restore_fault fault }
{
    match fault {
        LookFault::Failed => RestoreFault::Failed,
        LookFault::Memory => RestoreFault::Memory,
    }
}

/// The plan of a chain.
fn plan_chain<P: Plant>(
    alloc: Global,
    plant: &mut P,
    budb: &Budb,
    name: &Name,
    dumps: List<u32>,
) -> Result<ChainPlan, RestoreFault>
    requires { P.sound plant.old }
    ensures planned { P.tells → (slots : AnyList Slot) → HasSlots P.Plant slots plant.old → AnswersChain slots budb.now.database.listed name.now dumps result }
    ensures kept { IfOk result (λ plan. (plan.name ≡ name.now) × (plan.dumps ≡ dumps)) }
    ensures only { IsPlanAnswer result }
    ensures looks { LooksAt P.Plant RestoreFault.Failed plant.old plant.new result }
{
    let Ok(needs) = needs_of_chain(alloc, budb, dumps.as_slice(), name.bytes()) else {
        return Err(RestoreFault::Memory);
    };
    let Ok(kept) = name.clone() else {
        return Err(RestoreFault::Memory);
    };
    match locate_all(alloc, plant, needs.as_slice()) {
        Ok(found) => answer_of(found, kept, dumps),
        Err(fault) => Err(fault_of(fault)),
    }
}

/// The plan of a volume's dump.
fn plan_one<P: Plant>(
    alloc: Global,
    plant: &mut P,
    budb: &Budb,
    one: &VolumeDump<'_>,
) -> Result<ChainPlan, RestoreFault>
    requires { P.sound plant.old }
    ensures planned { P.tells → (slots : AnyList Slot) → HasSlots P.Plant slots plant.old → PlansOne slots budb.now.database.listed one.now result }
    ensures chained { IfOk result (IsChained budb.now.database.listed) }
    ensures only { IsPlanAnswer result }
    ensures looks { LooksAt P.Plant RestoreFault.Failed plant.old plant.new result }
{
    let name = &one.volume.fields().name;
    match budb.chain_of(one.dump.fields().id, name.bytes()) {
        Ok(dumps) => plan_chain(alloc, plant, budb, name, dumps),
        Err(ChainFault::Missing { id }) => Err(RestoreFault::MissingDump { id }),
        Err(ChainFault::Memory) => Err(RestoreFault::Memory),
    }
}

/// What a restore of a volume needs: the chain of its latest listed dump, with a clone time before the bound where there is
/// one, in seconds since 1970, and the tapes that the chain is played from, in playing order. It is refused where there is no
/// dump, else at the first dump of the chain, going upwards, that isn't listed or whose record doesn't hold the name, else at
/// the first tape that no slot here holds. Tapes are loaded, and nothing is written (this project's rules).
pub fn plan<P: Plant>(
    alloc: Global,
    budb: &Budb,
    plant: &mut P,
    name: &Name,
    before: Option<u32>,
) -> Result<ChainPlan, RestoreFault>
    requires { P.sound plant.old }
    ensures planned { P.tells → (slots : AnyList Slot) → HasSlots P.Plant slots plant.old → Plans slots budb.now.database.listed name.now before result }
    ensures chained { IfOk result (IsChained budb.now.database.listed) }
    ensures only { IsPlanAnswer result }
    ensures done { result ≢ Err RestoreFault.Failed → Loads P.Plant plant.old plant.new }
    ensures leaves { LeavesLoads P.Plant plant.old plant.new }
    ensures stays { StaysQuiet P.Plant plant.old plant.new }
    ensures cause { HasCauseAt RestoreFault.Failed (P.view plant.old).faults (P.view plant.new).faults result }
{
    match budb.latest(name.bytes(), before) {
        Ok(Some(one)) => plan_one(alloc, plant, budb, &one),
        Ok(None) => Err(RestoreFault::NoDump),
        Err(_) => Err(RestoreFault::Memory),
    }
}
