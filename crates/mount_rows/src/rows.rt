// Rows with their loads.
ghost use Rattle.std.specs.Prelude.{OnOk};

use crate::running::{blank, lose_journal, prepare, run};
use crate::scripts::{
    DISK, FIVE_DUMPS, FIVE_SETS, HOSTS, LEVELS, SET, SETS, making, restored, restored_but_one,
    restored_by_digit,
};
use cell_core::CellMem;
use plant_core::{MemPlant, Plant};
use std::alloc::Global;
use std::test::Fail;

/// By how much the count of loads rises with a restore, which is to tell these lines.
fn loads_of(
    alloc: Global,
    plant: &mut MemPlant,
    cell: &mut CellMem,
    line: &str,
    wanted: &str,
) -> Result<Option<u64>, Fail>
    requires { ⟦<MemPlant as Plant>⟧.sound plant.old }
{
    let before = plant.loads();
    let told = run(alloc, plant, cell, 9000, line)?;
    if told.as_slice() != wanted.as_bytes() {
        return Err("other lines are told".into());
    }
    Ok(plant.loads().checked_sub(before))
}

/// Makes the sets, and the volumes v101 to the one of the last number.
fn make<P: Plant>(
    alloc: Global,
    plant: &mut P,
    cell: &mut CellMem,
    sets: &str,
    last: u32,
) -> Result<(), Fail>
    requires { P.sound plant.old }
    ensures { OnOk result (P.sound plant.new) }
{
    prepare(alloc, plant, cell, 1000, HOSTS)?;
    prepare(alloc, plant, cell, 1000, sets)?;
    let volumes = making(alloc, last)?;
    prepare(alloc, plant, cell, 1000, volumes.as_str())
}

/// Dumps the set `v` at the first so many levels, each time onto a tape of its own.
fn dump_at<P: Plant>(
    alloc: Global,
    plant: &mut P,
    cell: &mut CellMem,
    count: usize,
) -> Result<(), Fail>
    requires { P.sound plant.old }
    ensures { OnOk result (P.sound plant.new) }
{
    for step in LEVELS.iter().take(count) {
        let (now, level) = *step;
        let line = format!(in alloc; "dump -volumeset v -dump {level}")?;
        prepare(alloc, plant, cell, now, line.as_str())?;
    }
    Ok(())
}

/// The loads of a restore along chains of so many dumps.
fn over_chains(
    alloc: Global,
    plant: &mut MemPlant,
    last: u32,
    count: usize,
    line: &str,
    back: &str,
) -> Result<Option<u64>, Fail>
    requires { ⟦<MemPlant as Plant>⟧.sound plant.old }
{
    let mut cell = CellMem::new(alloc);
    make(alloc, plant, &mut cell, SETS, last)?;
    dump_at(alloc, plant, &mut cell, count)?;
    let wanted = restored(alloc, last, back)?;
    loads_of(alloc, plant, &mut cell, line, wanted.as_str())
}

// Each batch of sixteen needs each tape once. One volume after the other would load all tapes again for each volume.
#[test]
fn each_batch_loads_each_tape_once(rt: HostRuntime) -> Result<(), Fail> {
    let two = ".r from 3000 chain 2";
    for (last, count, line, back, loads) in [
        (102, 2, DISK, two, 2),
        (116, 2, DISK, two, 2),
        (117, 2, DISK, two, 4),
        (133, 2, DISK, two, 6),
        (140, 2, SET, two, 6),
        (140, 7, SET, ".r from 8000 chain 7", 21),
        // the tape is loaded still
        (117, 1, DISK, ".r from 2000 chain 1", 0),
    ] {
        let mut plant = MemPlant::new(rt.alloc(), 8)?;
        let found = over_chains(rt.alloc(), &mut plant, last, count, line, back)?;
        assert_eq!(rt; found, Some(loads), "v{last} along {count}");
    }
    Ok(())
}

/// The loads of a restore of forty volumes in turn on five tapes.
fn over_five_tapes(alloc: Global, plant: &mut MemPlant) -> Result<Option<u64>, Fail>
    requires { ⟦<MemPlant as Plant>⟧.sound plant.old }
{
    let mut cell = CellMem::new(alloc);
    make(alloc, plant, &mut cell, FIVE_SETS, 140)?;
    prepare(alloc, plant, &mut cell, 2000, FIVE_DUMPS)?;
    let wanted = restored_by_digit(alloc, 140)?;
    loads_of(alloc, plant, &mut cell, DISK, wanted.as_str())
}

// Three batches, of 16, 16 and 8 volumes, of which each has volumes on all five tapes. One volume after the other would load forty times.
#[test]
fn forty_volumes_in_turn_on_five_tapes(rt: HostRuntime) -> Result<(), Fail> {
    let mut plant = MemPlant::new(rt.alloc(), 8)?;
    let loads = over_five_tapes(rt.alloc(), &mut plant)?;
    assert_eq!(rt; loads, Some(15));
    Ok(())
}

/// The loads of a restore from a tape of which slot 0 has a copy that was made before its last dump.
fn beside_a_copy(alloc: Global, plant: &mut MemPlant, last: u32) -> Result<Option<u64>, Fail>
    requires { ⟦<MemPlant as Plant>⟧.sound plant.old }
{
    let mut cell = CellMem::new(alloc);
    make(alloc, plant, &mut cell, SETS, last)?;
    prepare(
        alloc,
        plant,
        &mut cell,
        2000,
        "dump -volumeset v -dump /full -portoffset 1",
    )?;
    lose_journal(plant)?;
    prepare(alloc, plant, &mut cell, 2000, HOSTS)?;
    prepare(alloc, plant, &mut cell, 2000, SETS)?;
    prepare(
        alloc,
        plant,
        &mut cell,
        2000,
        "dump -volumeset v -dump /full",
    )?;
    prepare(
        alloc,
        plant,
        &mut cell,
        3000,
        "dump -volumeset v -dump /full -append",
    )?;
    let wanted = restored(alloc, last, ".r from 3000 chain 1")?;
    loads_of(alloc, plant, &mut cell, DISK, wanted.as_str())
}

// The copy has the tape's label and not the dump, so each batch may load it once more.
#[test]
fn a_copy_of_a_tape_is_loaded_once_more(rt: HostRuntime) -> Result<(), Fail> {
    for (last, loads) in [(116, 2), (117, 4)] {
        let mut plant = MemPlant::new(rt.alloc(), 8)?;
        let found = beside_a_copy(rt.alloc(), &mut plant, last)?;
        assert_eq!(rt; found, Some(loads), "v{last}");
    }
    Ok(())
}

/// The loads of a restore of sixteen volumes, of which the tape of one is gone.
fn without_a_tape(alloc: Global, plant: &mut MemPlant) -> Result<Option<u64>, Fail>
    requires { ⟦<MemPlant as Plant>⟧.sound plant.old }
{
    let mut cell = CellMem::new(alloc);
    make(alloc, plant, &mut cell, SETS, 115)?;
    prepare(
        alloc,
        plant,
        &mut cell,
        1000,
        "vos create -server fs1 -partition vicepa -name v108x",
    )?;
    dump_at(alloc, plant, &mut cell, 2)?;
    prepare(
        alloc,
        plant,
        &mut cell,
        4000,
        "dump -volumeset w -dump /full",
    )?;
    blank(plant, 3)?;
    let wanted = restored_but_one(alloc)?;
    loads_of(alloc, plant, &mut cell, DISK, wanted.as_str())
}

// The others' two tapes are loaded once each, and none for the volume whose tape is gone.
#[test]
fn one_volume_of_a_batch_without_its_tape(rt: HostRuntime) -> Result<(), Fail> {
    let mut plant = MemPlant::new(rt.alloc(), 8)?;
    let loads = without_a_tape(rt.alloc(), &mut plant)?;
    assert_eq!(rt; loads, Some(2));
    Ok(())
}
