//! Scanning a coordinator's tapes, and what is told of them.

ghost use Rattle.std.specs.Prelude.{◌≡◌, ◌≢◌, [], ◌∷◌, ◌++◌, ◌≤◌, ℕ, List as AnyList, length, All, Ok, Err, IfOk, OnOk, OnErr, IsTrue};
ghost use Rattle.std.specs.List.{filter, flat_map, list_all};
ghost use Rattle.crash_moments.specs.Moments.{HasCauseAt};
ghost use Rattle.plant_effects.specs.Runs.{state_of, StaysQuiet};
ghost use Rattle.plant_core.specs.Records.{Record};
ghost use Rattle.tape_scan.specs.Looking.{Loads, LeavesLoads};
ghost use Rattle.tape_answers.specs.Scanning.{sections_of};
ghost use Rattle.tape_answers.specs.Assembling.{found_in};
ghost use Rattle.budb_fold.specs.Database.{is_whole};
ghost use Rattle.backup_replies.specs.Scans.{found_line};
ghost use Rattle.backup_session.specs.Scanning.{port_of, slots_here, scans_of, stopped_line, left_line, has_wrong_parent};

use crate::hosts::any_at_port;
use crate::stops::Stop;
use backup_replies::{Refusal, put_found, put_refused_numbers, refused_number};
use bk_text::{Bytes, List, Out};
use budb_journal::{DumpRecord, HostPort, VolRecord};
use plant_core::Plant;
use std::alloc::{AllocError, Global};
use tape_answers::{a_scan_tells, the_slots_are_scanned, the_tapes_are_assembled};
use tape_config::{Config, Port};
use tape_scan::{Found, PartId, ScanFault, Sections, assemble, scan_tape};

/// The port that a command names, or the reply that refuses it.
pub(crate) fn port_of(
    alloc: Global,
    config: &Config,
    hosts: &[HostPort],
    offset: u16,
) -> Result<Result<Port, Bytes>, AllocError>
    ensures { IfOk result (λ found. found ≡ port_of config.now hosts.now offset) }
{
    if !any_at_port(hosts, offset) {
        return Ok(Err(refused_number(alloc, Refusal::NoSuchPort, offset as u64)?));
    }
    match config.port(offset) {
        None => Ok(Err(refused_number(alloc, Refusal::NoSuchPort, offset as u64)?)),
        Some(port) => Ok(Ok(port)),
    }
}

/// Puts a slot that is here at the end of some.
fn push_here<P: Plant>(slots: &mut List<u32>, plant: &P, slot: u32) -> Result<(), AllocError>
    requires { P.sound plant.now }
    ensures { OnOk result (slots.new ≡ slots.old ++ filter (P.view plant.now).present (slot ∷ [])) }
{
    if plant.here(slot) {
        slots.push(slot)?;
    }
    Ok(())
}

/// The slots of a coordinator that are here, in ascending order.
pub(crate) fn slots_here<P: Plant>(
    alloc: Global,
    plant: &P,
    port: &Port,
) -> Result<List<u32>, AllocError>
    requires { P.sound plant.now }
    ensures slots { IfOk result (λ slots. slots ≡ slots_here (P.view plant.now).present port.now) }
    ensures few { IfOk result (λ slots. length slots ≤ 65535) }
    ensures here { IfOk result (λ slots. All (λ k. IsTrue ((P.view plant.now).present k)) slots) }
{
    let fields = port.fields();
    let mut slots = List::new(alloc);
    for slot in fields.first..fields.last + 1 {
        push_here(&mut slots, plant, slot)?;
    }
    Ok(slots)
}

/// Scans the tape in a slot that is here.
fn scan_slot<P: Plant>(alloc: Global, plant: &mut P, slot: u32) -> Result<Sections, Stop>
    requires sound { P.sound plant.old }
    requires here { IsTrue ((P.view plant.old).present slot) }
    ensures sections { P.tells → IfOk result (λ sections. sections ≡ sections_of slot ((state_of P.Plant plant.old).tape slot)) }
    ensures loads { OnOk result (Loads P.Plant plant.old plant.new) }
    ensures stopped { OnErr result (result ≢ Err Stop.Plant → Loads P.Plant plant.old plant.new) }
    ensures leaves { LeavesLoads P.Plant plant.old plant.new }
    ensures stays { StaysQuiet P.Plant plant.old plant.new }
    ensures cause { HasCauseAt Stop.Plant (P.view plant.old).faults (P.view plant.new).faults result }
    ensures never { result ≢ Err Stop.Cell }
{
    a_scan_tells();
    match scan_tape(alloc, plant, slot) {
        Ok(sections) => Ok(sections),
        Err(ScanFault::Failed) => Err(Stop::Plant),
        Err(ScanFault::Memory) => Err(Stop::Memory),
    }
}

/// Scans the tapes in slots that are here, one after the other.
pub(crate) fn scan_slots<P: Plant>(
    alloc: Global,
    plant: &mut P,
    slots: &[u32],
) -> Result<List<Sections>, Stop>
    requires sound { P.sound plant.old }
    requires here { All (λ k. IsTrue ((P.view plant.old).present k)) slots.now }
    ensures tapes { P.tells → IfOk result (λ tapes. tapes ≡ scans_of (state_of P.Plant plant.old).tape slots.now) }
    ensures count { IfOk result (λ tapes. length tapes ≡ length slots.now) }
    ensures loads { OnOk result (Loads P.Plant plant.old plant.new) }
    ensures stopped { OnErr result (result ≢ Err Stop.Plant → Loads P.Plant plant.old plant.new) }
    ensures leaves { LeavesLoads P.Plant plant.old plant.new }
    ensures stays { StaysQuiet P.Plant plant.old plant.new }
    ensures cause { HasCauseAt Stop.Plant (P.view plant.old).faults (P.view plant.new).faults result }
    ensures never { result ≢ Err Stop.Cell }
{
    let mut tapes = List::new(alloc);
    for i in 0..slots.len() {
        let sections = scan_slot(alloc, plant, slots[i])?;
        tapes.push(sections)?;
    }
    Ok(tapes)
}

/// What is found over tapes, by what scans tell of them.
pub(crate) fn found_in(alloc: Global, tapes: &[Sections]) -> Result<Found, AllocError>
    requires few { length tapes.now ≤ 65535 }
    ensures { (tape : ℕ → AnyList Record) (slots : AnyList ℕ) → tapes.now ≡ scans_of tape slots → IfOk result (λ found. found ≡ found_in tapes.now) }
{
    the_slots_are_scanned();
    the_tapes_are_assembled();
    assemble(alloc, tapes)
}

/// Puts a line for each tape whose scan stops behind a text.
pub(crate) fn put_stops(lines: &mut Out, tapes: &[Sections]) -> Result<(), AllocError>
    ensures { OnOk result (lines.new ≡ lines.old ++ flat_map stopped_line tapes.now) }
{
    for tape in tapes {
        put_stop(lines, tape)?;
    }
    Ok(())
}

fn put_stop(lines: &mut Out, tape: &Sections) -> Result<(), AllocError>
    ensures { OnOk result (lines.new ≡ lines.old ++ stopped_line tape.now) }
{
    match tape.stop {
        None => Ok(()),
        Some(place) => {
            put_refused_numbers(lines, Refusal::BadTape, tape.slot as u64, place as u64)
        }
    }
}

fn put_part(lines: &mut Out, part: &PartId) -> Result<(), AllocError>
    ensures { OnOk result (lines.new ≡ lines.old ++ left_line part.now) }
{
    put_refused_numbers(lines, Refusal::PartOfDump, part.id as u64, part.tape as u64)
}

/// Puts a line for each part that is left over behind a text.
pub(crate) fn put_parts(lines: &mut Out, parts: &[PartId]) -> Result<(), AllocError>
    ensures { OnOk result (lines.new ≡ lines.old ++ flat_map left_line parts.now) }
{
    for part in parts {
        put_part(lines, part)?;
    }
    Ok(())
}

/// Puts a line for each dump that was found behind a text.
pub(crate) fn put_dumps(lines: &mut Out, dumps: &[DumpRecord]) -> Result<(), AllocError>
    ensures { OnOk result (lines.new ≡ lines.old ++ flat_map found_line dumps.now) }
{
    for dump in dumps {
        put_found(lines, dump)?;
    }
    Ok(())
}

/// Whether a volume was dumped whole.
fn is_whole(volume: &VolRecord) -> bool
    ensures { result ≡ is_whole volume.now }
{
    volume.fields().from == 0
}

/// Whether all volumes were dumped whole.
fn are_whole(volumes: &[VolRecord]) -> bool
    ensures { result ≡ list_all is_whole volumes.now }
{
    for volume in volumes {
        if !is_whole(volume) {
            return false;
        }
    }
    true
}

/// Whether a dump's parent isn't below it, or it has none and some volume wasn't dumped whole.
pub(crate) fn has_wrong_parent(dump: &DumpRecord) -> bool
    ensures { result ≡ has_wrong_parent dump.now }
{
    let fields = dump.fields();
    fields.id <= fields.parent || (fields.parent == 0 && !are_whole(fields.volumes.as_slice()))
}
