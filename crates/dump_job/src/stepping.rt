//! The step of each phase, with what it answers.

ghost use Rattle.std.specs.Prelude.{◌≡◌, ◌≢◌, ◌≤◌, List as AnyList, None, IsTrue};
ghost use Rattle.budb.specs.Views.{BudbView};
ghost use Rattle.tape_scan.specs.Slots.{Slot};
ghost use Rattle.tape_scan.specs.Looking.{HasSlots};
ghost use Rattle.tape_writer.specs.Room.{HasRoom};
ghost use Rattle.dump_job.specs.Reels.{counts_on, has_room};
ghost use Rattle.dump_job.specs.Taping.{uses_for};
ghost use Rattle.dump_job.specs.Volumes.{head_items, headed, piece_items, pieced, end_items, volume_ended, volume_cut};
ghost use Rattle.dump_job.specs.Events.{Around, items_at, tape_event, putting, hand_event, head_event, piece_event, part_end_event, dump_end_event, event};
ghost use Rattle.dump_job.specs.Jobs.{IsAtHead, FitsJob, HasPlaces};
ghost use Rattle.dump_job.specs.Elsewhere.{LeavesOthers};
ghost use Rattle.dump_job.specs.Stepping.{IsTold, IsPlantAround, IsAround, Does, TakesMemory, Steps, put_answer, clone_answer, pass_answer, done_answer};

use crate::answer::StepAnswer;
use crate::cloning::{CloneFault, clone_step};
use crate::closing::dump_end_step;
use crate::fault::JobFault;
use crate::fields::{JobFields, Phase};
use crate::part_ends::part_end_step;
use crate::taping::tape_step;
use crate::volumes::{cut_step, head_step, piece_step, volume_end_step};
use budb::{Budb, CommitFault};
use cell_core::Cell;
use plant_core::{Failed, Plant};
use std::alloc::Global;
use tape_writer::Writer;

/// What is answered where something was to be put on the tape in hand.
fn put_answer(there: Result<bool, Failed>) -> StepAnswer
    ensures is { result ≡ put_answer there }
    ensures never { result ≢ StepAnswer.CellFailed }
{
    match there {
        Ok(true) => StepAnswer::More,
        Ok(false) => StepAnswer::Memory,
        Err(_) => StepAnswer::PlantFailed,
    }
}

/// What is answered where a volume was to be cloned.
fn clone_answer(cloned: Result<(), CloneFault>) -> StepAnswer
    ensures { result ≡ clone_answer cloned }
{
    match cloned {
        Ok(()) => StepAnswer::More,
        Err(CloneFault::Failed) => StepAnswer::CellFailed,
        Err(CloneFault::Memory) => StepAnswer::Memory,
    }
}

/// What is answered where the dump was to go on on another tape.
fn pass_answer(passed: Result<bool, JobFault>) -> StepAnswer
    ensures is { result ≡ pass_answer passed }
    ensures never { result ≢ StepAnswer.CellFailed }
{
    match passed {
        Ok(true) => StepAnswer::More,
        Ok(false) => StepAnswer::Memory,
        Err(JobFault::NoTape { name }) => StepAnswer::Refused(JobFault::NoTape { name }),
        Err(JobFault::LogFull { length }) => StepAnswer::Refused(JobFault::LogFull { length }),
        Err(JobFault::Failed) => StepAnswer::PlantFailed,
        Err(JobFault::Memory) => StepAnswer::Memory,
        Err(JobFault::NothingToAppend) => StepAnswer::Memory,
        Err(JobFault::CapacityTooSmall) => StepAnswer::Memory,
        Err(JobFault::IdsSpent) => StepAnswer::Memory,
    }
}

/// What is answered where the dump was to be ended.
fn done_answer(id: u32, done: Result<bool, CommitFault>) -> StepAnswer
    ensures is { result ≡ done_answer id done }
    ensures never { result ≢ StepAnswer.CellFailed }
{
    match done {
        Ok(true) => StepAnswer::Done(id),
        Ok(false) => StepAnswer::Memory,
        Err(CommitFault::LogFull { length }) => StepAnswer::Refused(JobFault::LogFull { length }),
        Err(CommitFault::Failed) => StepAnswer::PlantFailed,
        Err(CommitFault::Memory) => StepAnswer::Memory,
    }
}

/// Whether so many blocks, and two filemarks, stay within the capacity of the tape in hand.
fn has_room(job: &JobFields, blocks: u64) -> bool
    requires marks { job.now.reel.marks ≤ job.now.reel.blocks }
    requires blocks { blocks ≤ 6 }
    ensures is { result ≡ has_room blocks 2 (counts_on job.now.port job.now.reel) }
    ensures room { IsTrue result → HasRoom blocks 2 (counts_on job.now.port job.now.reel) }
{
    Writer::new(&job.port, job.reel.blocks, job.reel.marks).has_room(blocks, 2)
}

/// The tape step.
pub(crate) fn tape_turn<P: Plant>(job: &mut JobFields, plant: &mut P) -> StepAnswer
    requires at { job.old.phase ≡ Phase.Tape }
    requires fit { FitsJob P.Plant job.old plant.old }
    ensures does { (around : Around) (budb : BudbView) → IsPlantAround P.Plant around budb plant.old → Does P.Plant (tape_event (uses_for job.old (items_at around.slots job.old.reel.slot)) job.old) result budb budb plant.old plant.new job.new }
    ensures steps { (budb : BudbView) → budb.prepared ≡ None → Steps P.Plant result budb budb plant.old plant.new job.old job.new }
    ensures never { result ≢ StepAnswer.CellFailed }
{
    put_answer(tape_step(job, plant))
}

/// The step of a head for which there is room.
fn head_put_turn<P: Plant>(job: &mut JobFields, plant: &mut P) -> StepAnswer
    requires at { job.old.phase ≡ Phase.Head }
    requires fit { FitsJob P.Plant job.old plant.old }
    requires room { HasRoom 4 2 (counts_on job.old.port job.old.reel) }
    ensures does { (around : Around) (budb : BudbView) → IsPlantAround P.Plant around budb plant.old → Does P.Plant (hand_event (λ h. putting (head_items h) job.old (headed h job.old)) job.old.hand job.old) result budb budb plant.old plant.new job.new }
    ensures steps { (budb : BudbView) → budb.prepared ≡ None → Steps P.Plant result budb budb plant.old plant.new job.old job.new }
    ensures never { result ≢ StepAnswer.CellFailed }
{
    put_answer(head_step(job, plant))
}

/// The step of a piece for which there is room.
fn piece_put_turn<P: Plant>(job: &mut JobFields, plant: &mut P) -> StepAnswer
    requires at { job.old.phase ≡ Phase.Piece }
    requires fit { FitsJob P.Plant job.old plant.old }
    requires room { HasRoom 3 2 (counts_on job.old.port job.old.reel) }
    ensures does { (around : Around) (budb : BudbView) → IsPlantAround P.Plant around budb plant.old → Does P.Plant (hand_event (λ h. putting (piece_items h) job.old (pieced h job.old)) job.old.hand job.old) result budb budb plant.old plant.new job.new }
    ensures steps { (budb : BudbView) → budb.prepared ≡ None → Steps P.Plant result budb budb plant.old plant.new job.old job.new }
    ensures never { result ≢ StepAnswer.CellFailed }
{
    put_answer(piece_step(job, plant))
}

/// The step of a piece for which there is no room.
fn cut_turn<P: Plant>(job: &mut JobFields, plant: &mut P) -> StepAnswer
    requires at { job.old.phase ≡ Phase.Piece }
    requires fit { FitsJob P.Plant job.old plant.old }
    ensures does { (around : Around) (budb : BudbView) → IsPlantAround P.Plant around budb plant.old → Does P.Plant (hand_event (λ h. putting (end_items 0 h) job.old (volume_cut job.old)) job.old.hand job.old) result budb budb plant.old plant.new job.new }
    ensures steps { (budb : BudbView) → budb.prepared ≡ None → Steps P.Plant result budb budb plant.old plant.new job.old job.new }
    ensures never { result ≢ StepAnswer.CellFailed }
{
    put_answer(cut_step(job, plant))
}

/// The piece step.
pub(crate) fn piece_turn<P: Plant>(job: &mut JobFields, plant: &mut P) -> StepAnswer
    requires at { job.old.phase ≡ Phase.Piece }
    requires fit { FitsJob P.Plant job.old plant.old }
    ensures does { (around : Around) (budb : BudbView) → IsPlantAround P.Plant around budb plant.old → Does P.Plant (hand_event (λ h. piece_event h job.old) job.old.hand job.old) result budb budb plant.old plant.new job.new }
    ensures steps { (budb : BudbView) → budb.prepared ≡ None → Steps P.Plant result budb budb plant.old plant.new job.old job.new }
    ensures never { result ≢ StepAnswer.CellFailed }
{
    if has_room(job, 3) {
        piece_put_turn(job, plant)
    } else {
        cut_turn(job, plant)
    }
}

/// The volume end step.
pub(crate) fn volume_end_turn<P: Plant>(job: &mut JobFields, plant: &mut P) -> StepAnswer
    requires at { job.old.phase ≡ Phase.VolumeEnd }
    requires fit { FitsJob P.Plant job.old plant.old }
    ensures does { (around : Around) (budb : BudbView) → IsPlantAround P.Plant around budb plant.old → Does P.Plant (hand_event (λ h. putting (end_items 1 h) job.old (volume_ended h job.old)) job.old.hand job.old) result budb budb plant.old plant.new job.new }
    ensures steps { (budb : BudbView) → budb.prepared ≡ None → Steps P.Plant result budb budb plant.old plant.new job.old job.new }
    ensures never { result ≢ StepAnswer.CellFailed }
{
    put_answer(volume_end_step(job, plant))
}

/// The part end step, behind a fragment that was cut, or where there is no room for a head.
pub(crate) fn part_end_turn<P: Plant>(
    job: &mut JobFields,
    alloc: Global,
    budb: &mut Budb,
    plant: &mut P,
    cut: bool,
) -> StepAnswer
    requires at { IsAtHead job.old }
    requires taking { TakesMemory job.old.phase job.old }
    requires fit { FitsJob P.Plant job.old plant.old }
    requires nothing { budb.old.prepared ≡ None }
    ensures does { (around : Around) → IsPlantAround P.Plant around budb.old plant.old → Does P.Plant (part_end_event cut around job.old) result budb.old budb.new plant.old plant.new job.new }
    ensures steps { Steps P.Plant result budb.old budb.new plant.old plant.new job.old job.new }
    ensures never { result ≢ StepAnswer.CellFailed }
{
    let _head = job.head.fields();
    pass_answer(part_end_step(job, alloc, budb, plant, cut))
}

/// The head step.
pub(crate) fn head_turn<P: Plant>(
    job: &mut JobFields,
    alloc: Global,
    budb: &mut Budb,
    plant: &mut P,
) -> StepAnswer
    requires at { job.old.phase ≡ Phase.Head }
    requires fit { FitsJob P.Plant job.old plant.old }
    requires nothing { budb.old.prepared ≡ None }
    ensures does { (around : Around) → IsPlantAround P.Plant around budb.old plant.old → Does P.Plant (hand_event (λ h. head_event around h job.old) job.old.hand job.old) result budb.old budb.new plant.old plant.new job.new }
    ensures steps { Steps P.Plant result budb.old budb.new plant.old plant.new job.old job.new }
    ensures never { result ≢ StepAnswer.CellFailed }
{
    if has_room(job, 4) {
        head_put_turn(job, plant)
    } else {
        part_end_turn(job, alloc, budb, plant, false)
    }
}

/// The dump end step.
pub(crate) fn dump_end_turn<P: Plant>(
    job: &mut JobFields,
    alloc: Global,
    budb: &mut Budb,
    plant: &mut P,
) -> StepAnswer
    requires at { job.old.phase ≡ Phase.DumpEnd }
    requires fit { FitsJob P.Plant job.old plant.old }
    requires nothing { budb.old.prepared ≡ None }
    ensures does { (around : Around) → IsPlantAround P.Plant around budb.old plant.old → Does P.Plant (dump_end_event around.log_size job.old) result budb.old budb.new plant.old plant.new job.new }
    ensures steps { Steps P.Plant result budb.old budb.new plant.old plant.new job.old job.new }
    ensures never { result ≢ StepAnswer.CellFailed }
{
    let id = job.head.fields().id;
    done_answer(id, dump_end_step(job, alloc, budb, plant))
}

/// The next step.
pub(crate) fn step_fields<P: Plant, C: Cell>(
    job: &mut JobFields,
    alloc: Global,
    budb: &mut Budb,
    plant: &mut P,
    cell: &mut C,
) -> StepAnswer
    requires going { job.old.phase ≢ Phase.Over }
    requires fit { FitsJob P.Plant job.old plant.old }
    requires nothing { budb.old.prepared ≡ None }
    requires places { HasPlaces C.Cell job.old.places cell.old }
    ensures does { (around : Around) → IsAround P.Plant C.Cell around budb.old plant.old cell.old → Does P.Plant (event around job.old) result budb.old budb.new plant.old plant.new job.new }
    ensures elsewhere { P.tells → (slots : AnyList Slot) → HasSlots P.Plant slots plant.old → result ≢ StepAnswer.PlantFailed → LeavesOthers P.Plant plant.old plant.new job.old job.new }
    ensures steps { Steps P.Plant result budb.old budb.new plant.old plant.new job.old job.new }
    ensures cell { IsTold StepAnswer.CellFailed (C.faults cell.old) (C.faults cell.new) result }
    ensures list { C.tells → C.list cell.new ≡ C.list cell.old }
    ensures size { C.size cell.new ≡ C.size cell.old }
{
    match job.phase {
        Phase::Tape => tape_turn(job, plant),
        Phase::Clone => clone_answer(clone_step(job, alloc, cell)),
        Phase::Head => head_turn(job, alloc, budb, plant),
        Phase::Piece => piece_turn(job, plant),
        Phase::VolumeEnd => volume_end_turn(job, plant),
        Phase::PartEnd => part_end_turn(job, alloc, budb, plant, true),
        Phase::DumpEnd => dump_end_turn(job, alloc, budb, plant),
        Phase::Over => StepAnswer::Memory,
    }
}
