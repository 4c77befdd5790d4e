//! Sessions over media and a cell.

ghost use Rattle.std.specs.Prelude.{◌≡◌, OnOk, IfOk};
ghost use Rattle.backup_session.specs.Worlds.{World, at_moment};
ghost use Rattle.backup_session.specs.Machine.{turn};
ghost use Rattle.backup_session.specs.Held.{HeldFor};
ghost use Rattle.backup_session.specs.Opening.{no_groups, first_time};
ghost use Rattle.rehearsal.specs.Playing.{Stage, then_turn, given, played, FindsHeld, AllFindHeld, Reached, StandsOn};
ghost use Rattle.rehearsal.specs.Sessions.{settings, start, Begins, Stands, HasFiles};

use crate::batch::Batch;
use backup_session::Session;
use backup_words::Command;
use bk_text::{Bytes, Out};
use cell_core::Cell;
use media_core::Media;
use plant_core::Plant;
use plant_effects::tell_whole;
use plant_media::MediaPlant;
use std::alloc::{AllocError, Global};
use tape_config::Config;

/// Gives a command at a moment of the clock, tells its reply to the plant, and keeps it.
fn give<P: Plant, C: Cell>(
    session: &mut Session,
    alloc: Global,
    plant: &mut P,
    cell: &mut C,
    now: u64,
    command: &Command,
    told: &mut Out,
) -> Result<(), AllocError>
    requires { P.sound plant.old }
    ensures sound { OnOk result (P.sound plant.new) }
    ensures given { P.tells → C.tells → (s : Stage) → Reached P.Plant C.Cell s plant.old cell.old session.old told.old → HeldFor (at_moment s.world now) command.now
        → OnOk result (Reached P.Plant C.Cell (then_turn s (turn s.world now command.now)) plant.new cell.new session.new told.new) }
{
    let Ok(reply) = session.exec(alloc, plant, cell, now, command) else {
        return Err(AllocError);
    };
    match tell_whole(plant, reply.text()) {
        Ok(()) => {
            told.piece(reply.text())?;
            Ok(())
        }
        Err(_) => Err(AllocError),
    }
}

/// Gives commands one after the other, all at one moment.
fn give_all<P: Plant, C: Cell>(
    session: &mut Session,
    alloc: Global,
    plant: &mut P,
    cell: &mut C,
    now: u64,
    commands: &[Command],
    told: &mut Out,
) -> Result<(), AllocError>
    requires { P.sound plant.old }
    ensures sound { OnOk result (P.sound plant.new) }
    ensures given { P.tells → C.tells → (s : Stage) → Reached P.Plant C.Cell s plant.old cell.old session.old told.old → FindsHeld s now commands.now
        → OnOk result (Reached P.Plant C.Cell (given s now commands.now) plant.new cell.new session.new told.new) }
{
    for command in commands {
        give(session, alloc, plant, cell, now, command, told)?;
    }
    Ok(())
}

/// Gives all commands of batches.
fn play<P: Plant, C: Cell>(
    session: &mut Session,
    alloc: Global,
    plant: &mut P,
    cell: &mut C,
    batches: &[Batch],
    told: &mut Out,
) -> Result<(), AllocError>
    requires { P.sound plant.old }
    ensures sound { OnOk result (P.sound plant.new) }
    ensures played { P.tells → C.tells → (s : Stage) → Reached P.Plant C.Cell s plant.old cell.old session.old told.old → AllFindHeld s batches.now
        → OnOk result (Reached P.Plant C.Cell (played s batches.now) plant.new cell.new session.new told.new) }
{
    for batch in batches {
        give_all(
            session,
            alloc,
            plant,
            cell,
            batch.now,
            batch.commands.as_slice(),
            told,
        )?;
    }
    Ok(())
}

/// Opens a session over a plant and a cell, and gives it batches of commands. It hands back what is told.
fn play_on<P: Plant, C: Cell>(
    alloc: Global,
    config: Config,
    plant: &mut P,
    cell: &mut C,
    batches: &[Batch],
) -> Result<Bytes, AllocError>
    requires { P.sound plant.old }
    ensures sound { OnOk result (P.sound plant.new) }
    ensures told { P.tells → C.tells → (w : World) → StandsOn P.Plant C.Cell w plant.old cell.old → config ≡ w.setting.config → w.time ≡ first_time w.log w.cell → w.groups ≡ no_groups → AllFindHeld (start w) batches.now
        → IfOk result (λ told. told ≡ (played (start w) batches.now).told) }
    ensures stands { P.tells → C.tells → (w : World) → StandsOn P.Plant C.Cell w plant.old cell.old → config ≡ w.setting.config → w.time ≡ first_time w.log w.cell → w.groups ≡ no_groups → AllFindHeld (start w) batches.now
        → OnOk result (StandsOn P.Plant C.Cell (played (start w) batches.now).world plant.new cell.new) }
{
    let Ok(mut session) = Session::open(alloc, config, plant, cell) else {
        return Err(AllocError);
    };
    let mut told = Out::new(alloc);
    let played = play(&mut session, alloc, plant, cell, batches, &mut told);
    drop(session);
    played?;
    Ok(told.into_bytes())
}

/// One port with four slots.
fn config(alloc: Global) -> Result<Config, AllocError>
    ensures { IfOk result (λ config. config ≡ settings) }
{
    match Config::parse(alloc, b"slots:0-3 0") {
        Ok(config) => Ok(config),
        Err(_) => Err(AllocError),
    }
}

/// Runs a session over media, which are handed back, and a cell. It hands back what is told.
pub fn run_session<M: Media + Drop, C: Cell>(
    alloc: Global,
    media: M,
    cell: &mut C,
    batches: &[Batch],
) -> Result<(Bytes, M), AllocError>
    ensures told { M.tells → C.tells → (w : World) → Begins w → Stands w (M.seen media) (C.list cell.old) → HasFiles w (M.count media) (M.present media) → AllFindHeld (start w) batches.now
        → IfOk result (λ left. left.0 ≡ (played (start w) batches.now).told) }
    ensures stands { M.tells → C.tells → (w : World) → Begins w → Stands w (M.seen media) (C.list cell.old) → HasFiles w (M.count media) (M.present media) → AllFindHeld (start w) batches.now
        → IfOk result (λ left. Stands (played (start w) batches.now).world (M.seen left.1) (C.list cell.new)) }
    ensures files { M.tells → C.tells → (w : World) → Begins w → Stands w (M.seen media) (C.list cell.old) → HasFiles w (M.count media) (M.present media) → AllFindHeld (start w) batches.now
        → IfOk result (λ left. HasFiles (played (start w) batches.now).world (M.count left.1) (M.present left.1)) }
{
    let config = config(alloc)?;
    let Ok(mut plant) = MediaPlant::open(media) else {
        return Err(AllocError);
    };
    let told = play_on(alloc, config, &mut plant, cell, batches)?;
    Ok((told, plant.into_media()))
}
