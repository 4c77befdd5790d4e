//! The lines of restores and of their refusals.

ghost use Rattle.std.specs.Prelude.{◌≡◌, ◌≢◌, ◌++◌, ◌<◌, ◌^◌, length, Err, IfOk, OnOk};
ghost use Rattle.std.specs.List.{flat_map};
ghost use Rattle.backup_replies.specs.Restores.{restored_line};
ghost use Rattle.restore_commands.specs.Steps.{last_id, tape_line, planned_lines, fault_line, told_by};
ghost use Rattle.restore_commands.specs.Answers.{target_refusal};

use crate::stops::RestoreStop;
use crate::told::Told;
use backup_replies::{
    Refusal, put_need, put_restored, put_would_restore, refused_at, refused_number, refused_word,
};
use bk_text::{Bytes, Name, Out};
use cell_core::CellFault;
use restore_chain::{ChainPlan, RestoreFault, TapeNeed};
use std::alloc::{AllocError, Global};

/// The dump that a chain ends with; 0 where there is none.
fn last_id(dumps: &[u32]) -> u32
    ensures { result ≡ last_id dumps.now }
{
    match dumps.last() {
        Some(id) => *id,
        None => 0,
    }
}

/// How many dumps a chain has. More than a line may tell have no room in memory.
fn count_of(dumps: &[u32]) -> Result<u32, AllocError>
    ensures { IfOk result (λ count. count ≡ length dumps.now) }
{
    if dumps.len() > 4_294_967_295 {
        return Err(AllocError);
    }
    Ok(dumps.len() as u32)
}

/// Puts the line of a tape that is needed behind a text.
fn put_tape(lines: &mut Out, need: &TapeNeed) -> Result<(), AllocError>
    ensures { OnOk result (lines.new ≡ lines.old ++ tape_line need.now) }
{
    put_need(lines, need.name.bytes(), need.initial)
}

/// Puts the lines of all tapes that are needed behind a text.
fn put_tapes(lines: &mut Out, needs: &[TapeNeed]) -> Result<(), AllocError>
    ensures { OnOk result (lines.new ≡ lines.old ++ flat_map tape_line needs.now) }
{
    for need in needs {
        put_tape(lines, need)?;
    }
    Ok(())
}

/// What is told of a volume that is restored from a dump along its chain.
pub(crate) fn restored_line(
    alloc: Global,
    target: &[u8],
    id: u32,
    chain: &[u32],
) -> Result<Bytes, AllocError>
    ensures { IfOk result (λ line. line ≡ restored_line target.now id (length chain.now)) }
{
    let count = count_of(chain)?;
    let mut line = Out::new(alloc);
    put_restored(&mut line, target, id, count)?;
    Ok(line.into_bytes())
}

/// What is told of a volume that is restored by a plan under a name, or would be.
pub(crate) fn planned_lines(
    alloc: Global,
    plan: &ChainPlan,
    target: &[u8],
    is_trial: bool,
) -> Result<Bytes, AllocError>
    ensures { IfOk result (λ lines. lines ≡ planned_lines is_trial target.now plan.now) }
{
    let id = last_id(plan.dumps.as_slice());
    let count = count_of(plan.dumps.as_slice())?;
    let mut lines = Out::new(alloc);
    if is_trial {
        put_would_restore(&mut lines, target, id, count)?;
        put_tapes(&mut lines, plan.tapes.as_slice())?;
    } else {
        put_restored(&mut lines, target, id, count)?;
    }
    Ok(lines.into_bytes())
}

/// The line of a refusal by the archive, of a volume that was to get a name.
fn fault_line(
    alloc: Global,
    fault: RestoreFault,
    name: &Name,
    target: &[u8],
) -> Result<Bytes, RestoreStop>
    ensures text { IfOk result (λ line. line ≡ fault_line name.now target.now fault) }
    ensures failed { fault ≡ RestoreFault.Failed → result ≡ Err RestoreStop.Plant }
    ensures memory { fault ≡ RestoreFault.Memory → result ≡ Err RestoreStop.Memory }
    ensures only_failed { result ≡ Err RestoreStop.Plant → fault ≡ RestoreFault.Failed }
    ensures never { result ≢ Err RestoreStop.Cell }
{
    let line = match fault {
        RestoreFault::Failed => return Err(RestoreStop::Plant),
        RestoreFault::Memory => return Err(RestoreStop::Memory),
        RestoreFault::NoDump => refused_word(alloc, Refusal::NoDump, name.bytes()),
        RestoreFault::MissingDump { id } => refused_number(alloc, Refusal::MissingDump, id as u64),
        RestoreFault::MissingTape { name, initial } => {
            refused_at(alloc, Refusal::MissingTape, name.bytes(), initial as u64)
        }
        RestoreFault::BaseLacks { number } => {
            refused_at(alloc, Refusal::BaseLacks, name.bytes(), number as u64)
        }
        RestoreFault::BadOnTape { tape, place } => {
            refused_at(alloc, Refusal::BadOnTape, tape.bytes(), place as u64)
        }
        RestoreFault::TooLarge => refused_word(alloc, Refusal::TooLarge, target),
    };
    match line {
        Ok(line) => Ok(line),
        Err(_) => Err(RestoreStop::Memory),
    }
}

/// What is told of a volume that the archive refuses.
pub(crate) fn refuse(
    alloc: Global,
    fault: RestoreFault,
    name: &Name,
    target: &[u8],
) -> Result<Told, RestoreStop>
    ensures text { IfOk result (λ told. told ≡ Told.Refused (fault_line name.now target.now fault)) }
    ensures failed { fault ≡ RestoreFault.Failed → result ≡ Err RestoreStop.Plant }
    ensures memory { fault ≡ RestoreFault.Memory → result ≡ Err RestoreStop.Memory }
    ensures only_failed { result ≡ Err RestoreStop.Plant → fault ≡ RestoreFault.Failed }
    ensures never { result ≢ Err RestoreStop.Cell }
{
    match fault_line(alloc, fault, name, target) {
        Ok(line) => Ok(Told::Refused(line)),
        Err(stop) => Err(stop),
    }
}

/// The line of a refusal by the cell, of the name that a volume was to get.
fn target_line(alloc: Global, fault: CellFault, target: &[u8]) -> Result<Bytes, RestoreStop>
    ensures text { IfOk result (λ line. line ≡ target_refusal target.now fault) }
    ensures failed { fault ≡ CellFault.Failed → result ≡ Err RestoreStop.Cell }
    ensures memory { fault ≡ CellFault.Memory → result ≡ Err RestoreStop.Memory }
    ensures only_failed { result ≡ Err RestoreStop.Cell → fault ≡ CellFault.Failed }
    ensures never { result ≢ Err RestoreStop.Plant }
{
    let line = match fault {
        CellFault::Failed => return Err(RestoreStop::Cell),
        CellFault::Memory => return Err(RestoreStop::Memory),
        CellFault::TooLarge => refused_word(alloc, Refusal::TooLarge, target),
        CellFault::BadImage { at } => refused_at(alloc, Refusal::BadImage, target, at),
        CellFault::NoVolume => Ok(Bytes::new(alloc)),
        CellFault::VolumeExists => Ok(Bytes::new(alloc)),
        CellFault::NoVnode => Ok(Bytes::new(alloc)),
    };
    match line {
        Ok(line) => Ok(line),
        Err(_) => Err(RestoreStop::Memory),
    }
}

/// What is told of a volume that the cell was asked to take, with the lines of one that it takes.
pub(crate) fn told_of(
    alloc: Global,
    answer: Result<(), CellFault>,
    lines: Bytes,
    target: &[u8],
) -> Result<Told, RestoreStop>
    ensures text { IfOk result (λ told. told ≡ told_by target.now lines answer) }
    ensures failed { answer ≡ Err CellFault.Failed → result ≡ Err RestoreStop.Cell }
    ensures memory { answer ≡ Err CellFault.Memory → result ≡ Err RestoreStop.Memory }
    ensures only_failed { result ≡ Err RestoreStop.Cell → answer ≡ Err CellFault.Failed }
    ensures never { result ≢ Err RestoreStop.Plant }
{
    match answer {
        Ok(()) => Ok(Told::Restored(lines)),
        Err(fault) => match target_line(alloc, fault, target) {
            Ok(line) => Ok(Told::Refused(line)),
            Err(stop) => Err(stop),
        },
    }
}
