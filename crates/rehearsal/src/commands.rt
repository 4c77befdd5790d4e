//! The commands of a rehearsal.

ghost use Rattle.std.specs.Prelude.{◌≡◌, ◌≤◌, ◌+◌, ◌*◌, ◌++◌, ◌∷◌, [], if◌then◌else◌, map, true, OnOk, IfOk};
ghost use Rattle.std.specs.List.{flat_map};
ghost use Rattle.rehearsal.specs.Names.{volumes as volumes_to, full_level, first_level, second_level, third_level};
ghost use Rattle.rehearsal.specs.Commands.{adding_set, adding_entry, adding_levels, adding, creating, writing, making, is_changed, changing, dumping, wanted, restoring};
ghost use Rattle.rehearsal.specs.Commands.{hosting, scanning};

use crate::names;
use backup_words::{
    CellCommand, Command, DatabaseCommand, DumpCommand, RestoreCommand, RestoredVolumes,
    TapeCommand, Wanted,
};
use bk_text::{Expiry, LevelPath, List};
use std::alloc::{AllocError, Global};

/// Adds the tape host.
pub fn add_host(alloc: Global) -> Result<Command, AllocError>
    ensures { IfOk result (λ command. command ≡ hosting) }
{
    Ok(Command::Database(DatabaseCommand::Addhost {
        tapehost: names::host(alloc, b"th")?,
        portoffset: 0,
    }))
}

/// Puts the level of a path behind levels.
fn put_level(alloc: Global, levels: &mut List<LevelPath>, path: &[u8]) -> Result<(), AllocError>
    ensures { OnOk result (levels.new ≡ levels.old ++ path.now ∷ []) }
{
    levels.push(names::level(alloc, path)?)?;
    Ok(())
}

/// The four levels.
fn levels(alloc: Global) -> Result<List<LevelPath>, AllocError>
    ensures { IfOk result (λ levels. levels ≡ full_level ∷ (first_level ∷ (second_level ∷ (third_level ∷ [])))) }
{
    let mut levels = List::new(alloc);
    put_level(alloc, &mut levels, b"/full")?;
    put_level(alloc, &mut levels, b"/full/r1")?;
    put_level(alloc, &mut levels, b"/full/r1/r2")?;
    put_level(alloc, &mut levels, b"/full/r1/r2/r3")?;
    Ok(levels)
}

/// Adds the volume set.
fn add_set(alloc: Global) -> Result<Command, AllocError>
    ensures { IfOk result (λ command. command ≡ adding_set) }
{
    Ok(Command::Database(DatabaseCommand::Addvolset {
        name: names::set(alloc, b"reh")?,
    }))
}

/// Adds the set's entry, which takes all volumes.
fn add_entry(alloc: Global) -> Result<Command, AllocError>
    ensures { IfOk result (λ command. command ≡ adding_entry) }
{
    Ok(Command::Database(DatabaseCommand::Addvolentry {
        name: names::set(alloc, b"reh")?,
        server: None,
        partition: None,
        volumes: names::pattern(alloc, b"reh\\..*")?,
    }))
}

/// Adds the levels.
fn add_levels(alloc: Global) -> Result<Command, AllocError>
    ensures { IfOk result (λ command. command ≡ adding_levels) }
{
    Ok(Command::Database(DatabaseCommand::Adddump {
        dump: levels(alloc)?,
        expires: Expiry::Unset,
    }))
}

/// Adds a tape host, the volume set and the levels.
fn adding(alloc: Global) -> Result<List<Command>, AllocError>
    ensures { IfOk result (λ commands. commands ≡ adding) }
{
    let mut commands = List::new(alloc);
    commands.push(add_host(alloc)?)?;
    commands.push(add_set(alloc)?)?;
    commands.push(add_entry(alloc)?)?;
    commands.push(add_levels(alloc)?)?;
    Ok(commands)
}

/// Writes vnode 2 of a volume.
fn writing(alloc: Global, volume: u32, size: u32) -> Result<Command, AllocError>
    ensures { IfOk result (λ command. command ≡ writing volume size) }
{
    Ok(Command::Cell(CellCommand::VosWrite {
        volume: names::volume_name(alloc, volume)?,
        vnode: 2,
        text: None,
        size: Some(size),
    }))
}

/// Creates a volume.
fn creating(alloc: Global, volume: u32) -> Result<Command, AllocError>
    ensures { IfOk result (λ command. command ≡ creating volume) }
{
    Ok(Command::Cell(CellCommand::VosCreate {
        server: names::host(alloc, b"fs1")?,
        partition: names::partition(alloc)?,
        name: names::volume_name(alloc, volume)?,
    }))
}

/// Adds all that is dumped, and creates and writes the volumes.
pub fn making(alloc: Global, volumes: u32) -> Result<List<Command>, AllocError>
    requires { volumes ≤ 200 }
    ensures { IfOk result (λ commands. commands ≡ adding ++ flat_map making (volumes_to volumes)) }
{
    let mut commands = adding(alloc)?;
    for volume in 1..volumes + 1 {
        commands.push(creating(alloc, volume)?)?;
        commands.push(writing(alloc, volume, 1000 * volume)?)?;
    }
    Ok(commands)
}

/// Writes a volume that is changed in a round, behind these commands.
fn put_change(
    alloc: Global,
    commands: &mut List<Command>,
    volume: u32,
    round: u32,
) -> Result<(), AllocError>
    requires few { volume ≤ 200 }
    requires round { round ≤ 3 }
    ensures { OnOk result (commands.new ≡ commands.old ++ (if is_changed round volume then writing volume (1000 * volume + round) ∷ [] else [])) }
{
    if volume % 3 == round % 3 {
        commands.push(writing(alloc, volume, 1000 * volume + round)?)?;
    }
    Ok(())
}

/// Writes each third volume, in a round.
pub fn changing(alloc: Global, volumes: u32, round: u32) -> Result<List<Command>, AllocError>
    requires few { volumes ≤ 200 }
    requires round { round ≤ 3 }
    ensures { IfOk result (λ commands. commands ≡ changing volumes round) }
{
    let mut commands = List::new(alloc);
    for volume in 1..volumes + 1 {
        put_change(alloc, &mut commands, volume, round)?;
    }
    Ok(commands)
}

/// Dumps the set at a level.
pub fn dumping(alloc: Global, level: &[u8]) -> Result<List<Command>, AllocError>
    ensures { IfOk result (λ commands. commands ≡ dumping level.now ∷ []) }
{
    let mut commands = List::new(alloc);
    commands.push(Command::Dump(DumpCommand {
        set: names::set(alloc, b"reh")?,
        level: names::level(alloc, level)?,
        offset: 0,
        append: false,
        trial: false,
    }))?;
    Ok(commands)
}

/// The volume that is restored, as it is now.
fn wanted(alloc: Global, volume: u32) -> Result<Wanted, AllocError>
    ensures { IfOk result (λ found. found ≡ wanted volume) }
{
    Ok(Wanted {
        name: names::volume_name(alloc, volume)?,
        before: None,
        server: names::host(alloc, b"fs1")?,
        partition: names::partition(alloc)?,
    })
}

/// Restores a volume beside itself.
fn restoring(alloc: Global, volume: u32) -> Result<Command, AllocError>
    ensures { IfOk result (λ command. command ≡ restoring volume) }
{
    Ok(Command::Restore(RestoreCommand {
        volumes: RestoredVolumes::One(wanted(alloc, volume)?),
        extension: Some(names::extension(alloc)?),
        trial: false,
    }))
}

/// Scans the tapes, adds what is found, and restores each volume, behind these commands.
pub fn scanning(alloc: Global, commands: &mut List<Command>, volumes: u32) -> Result<(), AllocError>
    requires { volumes ≤ 200 }
    ensures { OnOk result (commands.new ≡ commands.old ++ scanning ∷ map restoring (volumes_to volumes)) }
{
    commands.push(Command::Tape(TapeCommand::Scantape {
        dbadd: true,
        portoffset: 0,
    }))?;
    for volume in 1..volumes + 1 {
        commands.push(restoring(alloc, volume)?)?;
    }
    Ok(())
}
