// Sessions over a plant and a cell in memory.
ghost use Rattle.std.specs.Prelude.{OnOk};

use backup_replies::has_refusal;
use backup_session::Session;
use backup_words::Command;
use bk_text::{Bytes, Out};
use cell_core::CellMem;
use plant_core::Plant;
use std::alloc::Global;
use std::test::Fail;
use tape_config::Config;

/// The slots 1 to 7 are those of port 0, and slot 0 is that of port 1.
const SLOTS: &[u8] = b"slots:1-7 0\nslots:0-0 1\n";

/// Gives a command to a session, and adds what is told.
fn give<P: Plant>(
    alloc: Global,
    session: &mut Session,
    plant: &mut P,
    cell: &mut CellMem,
    now: u64,
    command: &Command,
    told: &mut Out,
) -> Result<(), Fail>
    requires { P.sound plant.old }
    ensures { OnOk result (P.sound plant.new) }
{
    let Ok(reply) = session.exec(alloc, plant, cell, now, command) else {
        return Err("a session stops".into());
    };
    told.piece(reply.text())?;
    Ok(())
}

/// Gives a line to a session, and adds what is told.
fn give_line<P: Plant>(
    alloc: Global,
    session: &mut Session,
    plant: &mut P,
    cell: &mut CellMem,
    now: u64,
    line: &str,
    told: &mut Out,
) -> Result<(), Fail>
    requires { P.sound plant.old }
    ensures { OnOk result (P.sound plant.new) }
{
    match Command::parse(alloc, line.as_bytes()) {
        Ok(command) => give(alloc, session, plant, cell, now, &command, told),
        Err(_) => Err("a line is no command".into()),
    }
}

/// Gives lines to a session, one after the other, and adds what is told.
fn give_all<P: Plant>(
    alloc: Global,
    session: &mut Session,
    plant: &mut P,
    cell: &mut CellMem,
    now: u64,
    lines: &str,
    told: &mut Out,
) -> Result<(), Fail>
    requires { P.sound plant.old }
    ensures { OnOk result (P.sound plant.new) }
{
    for line in lines.lines() {
        give_line(alloc, session, plant, cell, now, line, told)?;
    }
    Ok(())
}

/// The session of a plant and a cell.
fn opened<P: Plant>(alloc: Global, plant: &mut P, cell: &mut CellMem) -> Result<Session, Fail>
    requires { P.sound plant.old }
    ensures { OnOk result (P.sound plant.new) }
{
    let Ok(config) = Config::parse(alloc, SLOTS) else {
        return Err("the slots are read".into());
    };
    match Session::open(alloc, config, plant, cell) {
        Ok(session) => Ok(session),
        Err(_) => Err("a session opens".into()),
    }
}

/// Gives lines to a session of their own at a moment, and hands back what is told.
pub fn run<P: Plant>(
    alloc: Global,
    plant: &mut P,
    cell: &mut CellMem,
    now: u64,
    lines: &str,
) -> Result<Bytes, Fail>
    requires { P.sound plant.old }
    ensures { OnOk result (P.sound plant.new) }
{
    let mut session = opened(alloc, plant, cell)?;
    let mut told = Out::new(alloc);
    let given = give_all(alloc, &mut session, plant, cell, now, lines, &mut told);
    drop(session);
    given?;
    Ok(told.into_bytes())
}

/// Gives lines of which none is refused.
pub fn prepare<P: Plant>(
    alloc: Global,
    plant: &mut P,
    cell: &mut CellMem,
    now: u64,
    lines: &str,
) -> Result<(), Fail>
    requires { P.sound plant.old }
    ensures { OnOk result (P.sound plant.new) }
{
    let told = run(alloc, plant, cell, now, lines)?;
    if has_refusal(told.as_slice()) {
        return Err("a line is refused".into());
    }
    Ok(())
}

/// Makes the tape of a slot blank, so that what was on it is gone.
pub fn blank<P: Plant>(plant: &mut P, slot: u32) -> Result<(), Fail>
    requires { P.sound plant.old }
    ensures { OnOk result (P.sound plant.new) }
{
    if !plant.here(slot) {
        return Err("a slot is there".into());
    }
    if plant.load(slot).is_err() {
        return Err("a tape is loaded".into());
    }
    match plant.tape_cut(0) {
        Ok(()) => Ok(()),
        Err(_) => Err("a tape is cut".into()),
    }
}

/// Makes the journal empty.
pub fn lose_journal<P: Plant>(plant: &mut P) -> Result<(), Fail>
    requires { P.sound plant.old }
    ensures { OnOk result (P.sound plant.new) }
{
    match plant.log_replace(b"") {
        Ok(()) => Ok(()),
        Err(_) => Err("a journal is emptied".into()),
    }
}
