//! A restore from a tape of which one byte was changed, for many places of a record in turn.

use crate::files::{byte_at, set_byte};
use crate::lines::print_line;
use crate::script::Script;
use crate::volumes::volume_stream;
use crate::world::{World, told_since};
use cell_core::CellMem;
use std::alloc::Global;

/// The length of the front of a log's file.
const FRONT: u64 = 8192;

/// The length of a record on a tape.
const RECORD: u64 = 16_385;

/// The places of a record whose byte is changed in turn by these bits: so many from the first on, each so far behind the one before.
#[derive(Drop)]
pub struct Places {
    pub slot: u32,
    pub record: u32,
    pub first: u32,
    pub count: u32,
    pub step: u32,
    pub bits: u8,
}

impl Places {
    /// The place of a number in the file.
    fn at(&self, i: u32) -> u64 {
        let front = u64::from(self.record).saturating_mul(RECORD);
        let place = self.first.saturating_add(i.saturating_mul(self.step));
        FRONT.saturating_add(front).saturating_add(u64::from(place))
    }
}

/// What a restore into an empty cell leaves there.
#[derive(Clone, Copy, PartialEq)]
enum Left {
    Nothing,
    TheVolume,
    AnotherVolume,
}

impl Left {
    /// The words for it.
    fn words(self) -> &'static str {
        match self {
            Left::Nothing => "no volume",
            Left::TheVolume => "the volume",
            Left::AnotherVolume => "another volume",
        }
    }
}

/// An answer of the restore, and how often it came.
#[derive(Drop)]
struct Answer {
    told: Vec<u8>,
    left: Left,
    count: u64,
}

/// What the restore of a script tells, and the stream of the volume that it leaves in an empty cell; an empty one where it leaves none.
fn restored(
    alloc: Global,
    world: &mut World,
    script: &Script,
) -> anyhow::Result<(Vec<u8>, Vec<u8>)> {
    let mut cell = CellMem::new(alloc);
    let before = world.media.told().len();
    world.run_on(alloc, &mut cell, script)?;
    let told = told_since(alloc, &world.media, before)?;
    let stream = match world.seen.first() {
        Some(name) => volume_stream(alloc, &mut cell, name.as_str())?,
        None => anyhow::bail!("no volume is seen"),
    };
    Ok((told, stream))
}

/// What the stream says that was left, where this is that of the unchanged tape.
fn left_of(stream: &[u8], whole: &[u8]) -> Left {
    if stream.is_empty() {
        return Left::Nothing;
    }
    if stream == whole {
        Left::TheVolume
    } else {
        Left::AnotherVolume
    }
}

/// Counts an answer.
fn count(answers: &mut Vec<Answer>, told: Vec<u8>, left: Left) -> anyhow::Result<()> {
    for answer in answers.iter_mut() {
        if answer.left == left && answer.told == told {
            answer.count = answer.count.saturating_add(1);
            return Ok(());
        }
    }
    answers.push(Answer {
        told,
        left,
        count: 1,
    })?;
    Ok(())
}

/// Restores with the byte at a place of a file changed, and changes it back.
fn try_place(
    alloc: Global,
    world: &mut World,
    script: &Script,
    file: u32,
    at: u64,
    bits: u8,
) -> anyhow::Result<(Vec<u8>, Vec<u8>)> {
    let byte = byte_at(&mut world.media, file, at)?;
    set_byte(&mut world.media, file, at, byte ^ bits)?;
    let answer = restored(alloc, world, script);
    set_byte(&mut world.media, file, at, byte)?;
    answer
}

/// Tries each place.
fn try_places(
    alloc: Global,
    world: &mut World,
    script: &Script,
    places: &Places,
) -> anyhow::Result<Vec<Answer>> {
    let (_, whole) = restored(alloc, world, script)?;
    let mut answers = Vec::new(alloc);
    let file = places.slot.saturating_add(1);
    for i in 0..places.count {
        let at = places.at(i);
        let (told, stream) = try_place(alloc, world, script, file, at, places.bits)?;
        let left = left_of(stream.as_slice(), whole.as_slice());
        count(&mut answers, told, left)?;
    }
    Ok(answers)
}

/// Prints an answer: how often it came, its first line, and what is left.
fn print_answer(alloc: Global, answer: &Answer, printed: &mut Vec<u8>) -> anyhow::Result<()> {
    let count = answer.count;
    let words = answer.left.words();
    let front = format!(in alloc; "{count}: ")?;
    printed.extend_from_slice(front.as_bytes())?;
    if let Some(line) = answer.told.split(|byte| *byte == b'\n').next() {
        printed.extend_from_slice(line)?;
    }
    let back = format!(in alloc; ", {words}")?;
    print_line(printed, back.as_str())
}

/// Restores by a script for each of some places, and prints the answers in the order in which they came first.
pub fn sweep(
    alloc: Global,
    world: &mut World,
    script: &Script,
    places: &Places,
    printed: &mut Vec<u8>,
) -> anyhow::Result<()> {
    let answers = try_places(alloc, world, script, places)?;
    for answer in answers.iter() {
        print_answer(alloc, answer, printed)?;
    }
    Ok(())
}
