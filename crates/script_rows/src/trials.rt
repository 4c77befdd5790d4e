//! A script of which a call fails or is the last one, judged by what a later service finds.

use crate::files::{blank, move_tape};
use crate::report::{Report, look};
use crate::script::Script;
use crate::world::{Part, World, told_since};
use backup_top::Status;
use cell_core::CellMem;
use media_core::{MemMedia, Pick};
use std::alloc::Global;

/// What becomes of a call.
#[derive(Clone, Copy, PartialEq)]
pub enum Mishap {
    /// A call of the media fails, and changes nothing.
    MediaFails,
    /// The machine stops in a call of the media.
    MediaStops,
    /// A call of the cell fails, and changes nothing.
    CellFails,
    /// A read of the source fails.
    ReadFails,
}

impl Mishap {
    /// Whether it befalls a call of the media.
    pub fn is_of_media(self) -> bool {
        matches!(self, Mishap::MediaFails | Mishap::MediaStops)
    }

    /// Whether a run that met the mishap ends with this status.
    fn ends_with(self, status: &Status) -> bool {
        match self {
            Mishap::MediaFails | Mishap::MediaStops => {
                matches!(status, Status::MediaFault | Status::OutputFault)
            }
            Mishap::CellFails => matches!(status, Status::CellFault),
            Mishap::ReadFails => matches!(status, Status::ReadFault),
        }
    }
}

/// What a script tells to its end, and after each front of its lines how much of it was told, and what is found.
#[derive(Drop)]
pub struct Wanted {
    told: Vec<u8>,
    lengths: Vec<usize>,
    reports: Vec<Report>,
    insides: Vec<Vec<Report>>,
}

/// Runs a part of what was before on media and a cell, and moves its tape.
fn run_part(
    alloc: Global,
    world: &World,
    part: &Part,
    media: MemMedia,
    cell: &mut CellMem,
) -> anyhow::Result<MemMedia> {
    let (_, mut media) = world.order.run(alloc, media, cell, &part.script)?;
    move_tape(&mut media, part.slot, part.is_lost)?;
    if part.is_lost {
        media.empty_journal();
    }
    Ok(media)
}

/// Media and a cell as a row's script finds them: blank and empty, but for what was before.
fn found_by(alloc: Global, world: &World) -> anyhow::Result<(MemMedia, CellMem)> {
    let mut media = blank(alloc)?;
    let mut cell = CellMem::new(alloc);
    for part in world.before.iter() {
        media = run_part(alloc, world, part, media, &mut cell)?;
    }
    Ok((media.reopen(Pick::New)?, cell))
}

/// Runs a script, and looks at what it leaves.
fn left_by(alloc: Global, world: &World, script: &Script) -> anyhow::Result<(Vec<u8>, Report)> {
    let (media, mut cell) = found_by(alloc, world)?;
    let before = media.told().len();
    let (_, media) = world.order.run(alloc, media, &mut cell, script)?;
    let told = told_since(alloc, &media, before)?;
    let report = look(alloc, world, media, &mut cell)?;
    Ok((told, report))
}

/// What a stop inside the line after so many may leave beside what is found before and behind it.
fn insides(alloc: Global, world: &World, count: usize) -> anyhow::Result<Vec<Report>> {
    let mut reports = Vec::new(alloc);
    for script in world.script.insides(alloc, count)?.iter() {
        let (_, report) = left_by(alloc, world, script)?;
        reports.push(report)?;
    }
    Ok(reports)
}

impl Wanted {
    /// Runs each front of a row's script.
    pub fn new(alloc: Global, world: &World) -> anyhow::Result<Wanted> {
        let mut wanted = Wanted {
            told: Vec::new(alloc),
            lengths: Vec::new(alloc),
            reports: Vec::new(alloc),
            insides: Vec::new(alloc),
        };
        for count in 0..world.script.count().saturating_add(1) {
            let (told, report) = left_by(alloc, world, &world.script.front(alloc, count)?)?;
            wanted.lengths.push(told.len())?;
            wanted.told = told;
            wanted.reports.push(report)?;
            wanted.insides.push(insides(alloc, world, count)?)?;
        }
        Ok(wanted)
    }

    /// Whether this report is that of just so many lines.
    fn is_after(&self, count: usize, report: &Report) -> bool {
        match self.reports.get(count) {
            Some(after) => after.is_like(report),
            None => false,
        }
    }

    /// Whether scans find what they do after just so many lines.
    fn scans_after(&self, count: usize, report: &Report) -> bool {
        match self.reports.get(count) {
            Some(after) => after.found == report.found,
            None => false,
        }
    }

    /// What a stop inside the line after so many may leave, as far as the row says it.
    fn said_inside(&self, count: usize) -> &[Report] {
        match self.insides.get(count) {
            Some(reports) => reports.as_slice(),
            None => &[],
        }
    }

    /// Whether the row says that a stop inside the line after so many may leave this report.
    fn is_said(&self, count: usize, report: &Report) -> bool {
        for inside in self.said_inside(count) {
            if inside.is_like(report) {
                return true;
            }
        }
        false
    }

    /// Whether scans find what they do where a stop inside the line after so many leaves what the row says.
    fn scans_as_said(&self, count: usize, report: &Report) -> bool {
        for inside in self.said_inside(count) {
            if inside.found == report.found {
                return true;
            }
        }
        false
    }

    /// Whether a stop inside the line after so many may leave this report, since the line makes a label.
    fn is_inside(&self, world: &World, count: usize, report: &Report) -> bool {
        match self.reports.get(count) {
            Some(before) => {
                world.script.line(count).starts_with(b"labeltape") && report.is_cut_from(before)
            }
            None => false,
        }
    }

    /// Whether the report is one of those that a stop after so many lines, or inside the next one, may leave.
    fn is_found(&self, world: &World, count: usize, report: &Report) -> bool {
        self.is_said(count, report)
            || self.is_after(count, report)
            || self.is_after(count.saturating_add(1), report)
            || self.is_inside(world, count, report)
    }

    /// Whether scans find what they do after so many lines, after one more, or inside that one.
    fn is_scanned(&self, count: usize, report: &Report) -> bool {
        self.scans_as_said(count, report)
            || self.scans_after(count, report)
            || self.scans_after(count.saturating_add(1), report)
    }

    /// How many whole replies stand in what was told, which is a front of the whole.
    fn replies_in(&self, told: &[u8]) -> usize {
        let mut count: usize = 0;
        for length in self.lengths.iter() {
            if *length <= told.len() {
                count = count.saturating_add(1);
            }
        }
        count.saturating_sub(1)
    }

    /// Whether what was told is a front of the whole, all that was acknowledged is there, and nothing but perhaps one line more.
    fn is_kept(&self, world: &World, told: &[u8], report: &Report) -> bool {
        let acknowledged = self.replies_in(told);
        self.told.as_slice().starts_with(told)
            && self.is_found(world, acknowledged, report)
            && self.is_scanned(acknowledged, report)
    }
}

/// How a run with a mishap ended.
#[derive(Clone, Copy)]
pub struct Trial {
    /// The mishap didn't come to pass: the script was run to its end.
    pub is_whole: bool,
    /// What it left is as promised.
    pub is_kept: bool,
    /// How many dumps are listed.
    pub listed: u64,
    /// How many of them are listed again once the journal is lost and the tapes are scanned.
    pub again: u64,
}

/// Media and a cell as a row's script finds them, of which a call has this mishap, and the read of the source that has it.
fn world_with(
    alloc: Global,
    world: &World,
    mishap: Mishap,
    call: u64,
) -> anyhow::Result<(MemMedia, CellMem, Option<u64>)> {
    let (mut media, mut cell) = found_by(alloc, world)?;
    match mishap {
        Mishap::MediaFails => media.fail_at(call)?,
        Mishap::MediaStops => media.stop_at(call),
        Mishap::CellFails => cell.fail_at(call)?,
        Mishap::ReadFails => return Ok((media, cell, Some(call))),
    }
    Ok((media, cell, None))
}

/// Runs a row's script with a mishap, opens what this pick leaves, and looks at it. Where the mishap didn't come to pass, it is met by
/// no look.
pub fn try_call(
    alloc: Global,
    world: &World,
    wanted: &Wanted,
    mishap: Mishap,
    call: u64,
    pick: Pick,
) -> anyhow::Result<Trial> {
    let (media, mut cell, read) = world_with(alloc, world, mishap, call)?;
    let before = media.told().len();
    let (status, media) = world
        .order
        .run_failing(alloc, media, &mut cell, &world.script, read)?;
    let told = told_since(alloc, &media, before)?;
    let is_whole = matches!(status, Status::Done | Status::SomeRefused);
    if is_whole && mishap == Mishap::CellFails {
        return Ok(Trial {
            is_whole,
            is_kept: told == wanted.told,
            listed: 0,
            again: 0,
        });
    }
    let report = look(alloc, world, media.reopen(pick)?, &mut cell)?;
    let is_kept = wanted.is_kept(world, told.as_slice(), &report);
    Ok(Trial {
        is_whole,
        is_kept: (is_whole || mishap.ends_with(&status)) && is_kept,
        listed: report.listed(),
        again: report.listed_again(),
    })
}
