//! A volume's stream that is dumped to blank tapes by the writer of tapes.

ghost use Rattle.std.specs.Prelude.{◌≡◌, ◌+◌, OnOk, IsSome};
ghost use Rattle.plant_effects.specs.Runs.{loaded_of};
ghost use Rattle.tape_writer.specs.Room.{HasRoom};
ghost use Rattle.tape_writer.specs.Puts.{IsCounted, records_of};

use crate::frames::{dump_end, dump_head, label, piece, volume_head};
use crate::print::{print_found, print_line, print_sections};
use crate::scans::{assembled, scan_first};
use crate::world::Common;
use plant_core::{MemPlant, Plant};
use plant_effects::{is_whole, load_tape};
use std::alloc::Global;
use tape_config::{Config, Port};
use tape_frames::{DumpEnd, DumpHead, Label, VolEnd, VolEndFields, VolHead};
use tape_writer::{WriteFault, Writer};

/// How many tapes there are.
const TAPES: u32 = 4;

/// The bytes that a full piece has.
const ROOM: u32 = 16352;

/// The first port of a configuration of one line.
fn port_in(alloc: Global, line: &str) -> anyhow::Result<Port> {
    let text = format!(in alloc; "{line}\n")?;
    let Ok(config) = Config::parse(alloc, text.as_bytes()) else {
        anyhow::bail!("{line} is no configuration");
    };
    match config.port(0) {
        Some(port) => Ok(port),
        None => anyhow::bail!("the configuration has no port"),
    }
}

/// Loads a blank tape.
fn blank<P: Plant>(plant: &mut P, slot: u32) -> anyhow::Result<()>
    requires { P.sound plant.old }
    ensures { OnOk result (IsCounted P.Plant 0 plant.new) }
{
    if !plant.here(slot) {
        anyhow::bail!("slot {slot} isn't here");
    }
    load_tape(plant, slot)?;
    if !is_whole(plant)? || plant.tape_len() != 0 {
        anyhow::bail!("the tape isn't blank");
    }
    Ok(())
}

/// What stands in front of a part's pieces.
#[derive(Drop)]
struct Front {
    label: Label,
    head: DumpHead,
    volume: VolHead,
}

/// The front of the part of this number on the tape of the same number, where each part begins with a fragment.
fn front_of(alloc: Global, common: &Common, number: u32) -> anyhow::Result<Front> {
    Ok(Front {
        label: label(alloc, common, common.initial, number, "")?,
        head: dump_head(alloc, common, number, number)?,
        volume: volume_head(alloc, common, 0, number, "")?,
    })
}

/// Puts what stands in front of the pieces.
fn begins<P: Plant>(writer: &mut Writer, plant: &mut P, front: &Front) -> Result<(), WriteFault>
    requires { IsCounted P.Plant (records_of writer.old) plant.old }
    ensures counted { OnOk result (IsCounted P.Plant (records_of writer.new) plant.new) }
    ensures room { OnOk result (HasRoom 2 2 writer.new) }
{
    writer.begin_tape(plant, Some(&front.label), &front.head)?;
    writer.begin_volume(plant, &front.volume)?;
    Ok(())
}

/// Puts the next piece, where some bytes are left and there is room, and says how many bytes were put.
fn takes<P: Plant>(
    alloc: Global,
    writer: &mut Writer,
    plant: &mut P,
    common: &Common,
    left: u32,
) -> anyhow::Result<u32>
    requires counted { IsCounted P.Plant (records_of writer.old) plant.old }
    requires room { HasRoom 2 2 writer.old }
    ensures counted { OnOk result (IsCounted P.Plant (records_of writer.new) plant.new) }
    ensures room { OnOk result (HasRoom 2 2 writer.new) }
{
    let used = if left < ROOM { left } else { ROOM };
    if used == 0 {
        return Ok(0);
    }
    match writer.data(plant, &piece(alloc, common, 0, used)?) {
        Ok(()) => Ok(used),
        Err(WriteFault::TapeFull) => Ok(0),
        Err(fault) => Err(fault.into()),
    }
}

/// Puts up to four pieces, as long as there is room, and says how many bytes were put.
fn pieces<P: Plant>(
    alloc: Global,
    writer: &mut Writer,
    plant: &mut P,
    common: &Common,
    left: u32,
) -> anyhow::Result<u32>
    requires counted { IsCounted P.Plant (records_of writer.old) plant.old }
    requires room { HasRoom 2 2 writer.old }
    ensures counted { OnOk result (IsCounted P.Plant (records_of writer.new) plant.new) }
    ensures room { OnOk result (HasRoom 2 2 writer.new) }
{
    let one = takes(alloc, writer, plant, common, left)?;
    let two = takes(alloc, writer, plant, common, left.saturating_sub(one))?;
    let sum = one.saturating_add(two);
    let three = takes(alloc, writer, plant, common, left.saturating_sub(sum))?;
    let sum = sum.saturating_add(three);
    let four = takes(alloc, writer, plant, common, left.saturating_sub(sum))?;
    Ok(sum.saturating_add(four))
}

/// Puts what stands behind the pieces.
fn ends<P: Plant>(
    writer: &mut Writer,
    plant: &mut P,
    end: &VolEnd,
    done: &DumpEnd,
) -> Result<(), WriteFault>
    requires counted { IsCounted P.Plant (records_of writer.old) plant.old }
    requires room { HasRoom 2 2 writer.old }
    ensures { OnOk result (IsCounted P.Plant (records_of writer.new) plant.new) }
{
    writer.end_volume(plant, end)?;
    writer.end_dump(plant, done)?;
    Ok(())
}

/// The end of the fragment of a number with so many bytes.
fn end_of(common: &Common, number: u32, bytes: u32, is_last: bool) -> VolEnd {
    VolEnd::new(VolEndFields {
        dump: common.id,
        index: 0,
        fragment: number,
        last: if is_last { 1 } else { 0 },
        bytes,
    })
}

/// Puts the part of a number on the tape in its slot, and says how many bytes of the stream it has; none where the tape is too
/// small.
fn part<P: Plant>(
    alloc: Global,
    plant: &mut P,
    port: &Port,
    common: &Common,
    slot: u32,
    left: u32,
) -> anyhow::Result<u32>
    requires { P.sound plant.old }
    ensures { OnOk result (P.sound plant.new) }
{
    blank(plant, slot)?;
    let number = slot.saturating_add(1);
    let front = front_of(alloc, common, number)?;
    let mut writer = Writer::new(port, 0, 0);
    match begins(&mut writer, plant, &front) {
        Ok(()) => {}
        Err(WriteFault::TapeFull) => anyhow::bail!("the tape is full"),
        Err(fault) => return Err(fault.into()),
    }
    let bytes = pieces(alloc, &mut writer, plant, common, left)?;
    let is_last = bytes == left;
    let end = end_of(common, number, bytes, is_last);
    let done = dump_end(common, number, if is_last { 0 } else { 1 })?;
    ends(&mut writer, plant, &end, &done)?;
    Ok(bytes)
}

/// Dumps a stream of so many bytes to the tapes one after the other, and says on how many it lies.
fn dump<P: Plant>(
    alloc: Global,
    plant: &mut P,
    port: &Port,
    common: &Common,
    bytes: u32,
) -> anyhow::Result<u32>
    requires { P.sound plant.old }
    ensures { OnOk result (P.sound plant.new) }
{
    let mut left = bytes;
    for slot in 0..TAPES {
        if left == 0 {
            return Ok(slot);
        }
        let put = part(alloc, plant, port, common, slot, left)?;
        left = left.saturating_sub(put);
    }
    Ok(TAPES)
}

/// Whether a part of one piece has room on a blank tape of a port.
fn has_room(port: &Port) -> bool {
    Writer::new(port, 0, 0).has_room(6, 3)
}

/// Blocks and filemarks.
#[derive(Clone, Copy)]
pub struct Taken {
    pub blocks: u32,
    pub marks: u32,
}

/// Prints whether so much more has room behind what stands on a tape of a port: `room` or `full`. It is a part, or what one must have:
/// at most 6 blocks and 3 filemarks.
pub fn room(
    alloc: Global,
    line: &str,
    taken: Taken,
    more: Taken,
    printed: &mut Vec<u8>,
) -> anyhow::Result<()> {
    let port = port_in(alloc, line)?;
    if taken.marks > taken.blocks || more.blocks > 6 || more.marks > 3 {
        anyhow::bail!("no tape has that");
    }
    let writer = Writer::new(&port, taken.blocks, taken.marks);
    let has_room = writer.has_room(u64::from(more.blocks), u64::from(more.marks));
    print_line(printed, if has_room { "room" } else { "full" })
}

/// Dumps a volume whose stream has so many bytes to blank tapes of a port, and prints what scans tell of them and what is found;
/// `full` where a tape has no room for any part.
pub fn fill(
    alloc: Global,
    common: &Common,
    line: &str,
    bytes: u32,
    printed: &mut Vec<u8>,
) -> anyhow::Result<()> {
    let port = port_in(alloc, line)?;
    if !has_room(&port) {
        return print_line(printed, "full");
    }
    let mut plant = MemPlant::new(alloc, TAPES)?;
    let count = dump(alloc, &mut plant, &port, common, bytes)?;
    let scans = scan_first(alloc, &mut plant, count)?;
    for scan in scans.iter() {
        print_sections(alloc, printed, scan)?;
    }
    print_found(alloc, printed, &assembled(alloc, scans.as_slice())?)
}
