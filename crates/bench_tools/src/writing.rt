//! A tape with one dump of one volume.

ghost use Rattle.std.specs.Prelude.{◌≡◌, OnOk};
ghost use Rattle.tape_writer.specs.Room.{HasRoom};
ghost use Rattle.tape_writer.specs.Puts.{IsCounted, records_of};

use plant_core::{Block, Plant};
use plant_effects::{is_whole, load_tape};
use std::alloc::Global;
use tape_config::{Config, Port};
use tape_frames::{Data, DumpEnd, DumpHead, Frame, Label, VolEnd, VolEndFields, VolHead, decode};
use tape_writer::{WriteFault, Writer};

/// How many pieces the volume has, each in a block of 16 KiB.
const PIECES: u32 = 16_384;

/// How many bytes these have.
const BYTES: u32 = PIECES * 16_352;

/// How many records the tape has: the pieces, five other blocks and three filemarks.
pub const RECORDS: u32 = PIECES + 8;

const LABEL: &[u8] = b"AFST\x01\x01\0\0\0\0\x07\xd0\0\0\0\x01\x0cusers.full.1\0";

const HEAD: &[u8] =
    b"AFST\x02\x02\0\0\0\0\x07\xd0\0\0\x07\xd0\0\0\0\0\0\0\0\0\0\0\0\x01\0\0\0\x01\0\0\0\x01\x05users\0\x05/full\x0ausers.full\0\0\0\0\0\x01";

const VOLUME: &[u8] =
    b"AFST\x01\x03\0\0\0\0\x07\xd0\0\0\0\0\0\0\0\x01\x20\0\0\0\0\0\x07\xd0\0\0\0\0\x02v1\x03fs1\x06vicepa";

const FULL: &[u8] = b"AFST\x01\x04\0\0\0\0\x07\xd0\0\0\0\0\0\0\x3f\xe0";

const DONE: &[u8] = b"AFST\x01\x06\0\0\0\0\x07\xd0\0\0\0\x01\0\0\0\0";

/// These bytes, and zeros to the end.
fn block_of(front: &[u8]) -> Block {
    let mut block = [0; 16384];
    for (at, byte) in front.iter().enumerate() {
        if at < block.len() {
            block[at] = *byte;
        }
    }
    block
}

fn frame(alloc: Global, block: &Block) -> anyhow::Result<Frame> {
    match decode(alloc, block) {
        Ok(frame) => Ok(frame),
        Err(_) => anyhow::bail!("it is no frame"),
    }
}

fn label(alloc: Global) -> anyhow::Result<Label> {
    match frame(alloc, &block_of(LABEL))? {
        Frame::Label(label) => Ok(label),
        _other => anyhow::bail!("it is no label"),
    }
}

fn dump_head(alloc: Global) -> anyhow::Result<DumpHead> {
    match frame(alloc, &block_of(HEAD))? {
        Frame::DumpHead(head) => Ok(head),
        _other => anyhow::bail!("it is no head of a dump"),
    }
}

fn volume_head(alloc: Global) -> anyhow::Result<VolHead> {
    match frame(alloc, &block_of(VOLUME))? {
        Frame::VolHead(head) => Ok(head),
        _other => anyhow::bail!("it is no head of a volume"),
    }
}

/// A full piece whose bytes aren't all the same.
fn piece(alloc: Global) -> anyhow::Result<Data> {
    let mut block = block_of(FULL);
    for at in 32..16384usize {
        block[at] = (at % 251) as u8;
    }
    match frame(alloc, &block)? {
        Frame::Data(piece) => Ok(piece),
        _other => anyhow::bail!("it is no piece"),
    }
}

fn dump_end(alloc: Global) -> anyhow::Result<DumpEnd> {
    match frame(alloc, &block_of(DONE))? {
        Frame::DumpEnd(end) => Ok(end),
        _other => anyhow::bail!("it is no end of a part"),
    }
}

fn volume_end() -> VolEnd {
    VolEnd::new(VolEndFields {
        dump: 2000,
        index: 0,
        fragment: 1,
        last: 1,
        bytes: BYTES,
    })
}

/// A port whose tapes take 1 GB.
fn port(alloc: Global) -> anyhow::Result<Port> {
    let Ok(config) = Config::parse(alloc, b"1g 0 slots:0-0 0\n") else {
        anyhow::bail!("it is no configuration");
    };
    match config.port(0) {
        Some(port) => Ok(port),
        None => anyhow::bail!("it has no port"),
    }
}

/// Loads the blank tape in slot 0.
fn blank<P: Plant>(plant: &mut P) -> anyhow::Result<()>
    requires { P.sound plant.old }
    ensures { OnOk result (IsCounted P.Plant 0 plant.new) }
{
    if !plant.here(0) {
        anyhow::bail!("slot 0 isn't here");
    }
    load_tape(plant, 0)?;
    if !is_whole(plant)? || plant.tape_len() != 0 {
        anyhow::bail!("the tape isn't blank");
    }
    Ok(())
}

/// Puts the pieces.
fn pieces<P: Plant>(writer: &mut Writer, plant: &mut P, piece: &Data) -> anyhow::Result<()>
    requires counted { IsCounted P.Plant (records_of writer.old) plant.old }
    requires room { HasRoom 2 2 writer.old }
    ensures counted { OnOk result (IsCounted P.Plant (records_of writer.new) plant.new) }
    ensures room { OnOk result (HasRoom 2 2 writer.new) }
{
    for number in 0..PIECES {
        writer.data(plant, piece)?;
    }
    Ok(())
}

/// The frames in front of the pieces.
#[derive(Drop)]
struct Front {
    label: Label,
    head: DumpHead,
    volume: VolHead,
}

fn make_front(alloc: Global) -> anyhow::Result<Front> {
    Ok(Front {
        label: label(alloc)?,
        head: dump_head(alloc)?,
        volume: volume_head(alloc)?,
    })
}

/// Puts what stands in front of the pieces.
fn begins<P: Plant>(writer: &mut Writer, plant: &mut P, front: &Front) -> Result<(), WriteFault>
    requires { IsCounted P.Plant (records_of writer.old) plant.old }
    ensures counted { OnOk result (IsCounted P.Plant (records_of writer.new) plant.new) }
    ensures room { OnOk result (HasRoom 2 2 writer.new) }
{
    writer.begin_tape(plant, Some(&front.label), &front.head)?;
    writer.begin_volume(plant, &front.volume)?;
    Ok(())
}

/// Puts what stands behind the pieces.
fn ends<P: Plant>(writer: &mut Writer, plant: &mut P, done: &DumpEnd) -> Result<(), WriteFault>
    requires counted { IsCounted P.Plant (records_of writer.old) plant.old }
    requires room { HasRoom 2 2 writer.old }
    ensures { OnOk result (IsCounted P.Plant (records_of writer.new) plant.new) }
{
    writer.end_volume(plant, &volume_end())?;
    writer.end_dump(plant, done)?;
    Ok(())
}

/// Writes the tape, which is blank before.
pub fn write_tape<P: Plant>(alloc: Global, plant: &mut P) -> anyhow::Result<()>
    requires { P.sound plant.old }
    ensures { OnOk result (P.sound plant.new) }
{
    blank(plant)?;
    let front = make_front(alloc)?;
    let mut writer = Writer::new(&port(alloc)?, 0, 0);
    begins(&mut writer, plant, &front)?;
    pieces(&mut writer, plant, &piece(alloc)?)?;
    ends(&mut writer, plant, &dump_end(alloc)?)?;
    Ok(())
}
