//! What a service that is started later shows of media.

use crate::order::Order;
use crate::script::Script;
use crate::volumes::print_volume;
use crate::world::{World, told_since};
use cell_core::CellMem;
use media_core::MemMedia;
use std::alloc::{AllocError, Global};

/// The reply of `readlabel` to a tape that was cut and has no label yet.
const NO_LABEL: &[u8] = b"refused 43 NoLabel 0\n";

/// What is told of the journal and of the tape in slot 0, each by a run of its own, and what volumes hold then; and what is found by
/// scans of the tapes once the journal is lost, but for parts that no dump goes on with.
#[derive(Drop)]
pub struct Report {
    pub journal: Vec<u8>,
    pub tape: Vec<u8>,
    pub volumes: Vec<u8>,
    pub found: Vec<u8>,
}

/// Whether a line of a list of dumps stands in what was told.
fn has_line(told: &[u8], line: &[u8]) -> bool {
    told.split(|byte| *byte == b'\n').any(|other| other == line)
}

impl Report {
    /// Whether the journal, the tape in slot 0 and the volumes are the same.
    pub fn is_like(&self, other: &Report) -> bool {
        self.journal == other.journal && self.tape == other.tape && self.volumes == other.volumes
    }

    /// Whether this is what a stop inside a `labeltape` may leave, where the report before it was another.
    pub fn is_cut_from(&self, before: &Report) -> bool {
        self.journal == before.journal
            && self.tape.as_slice() == NO_LABEL
            && self.volumes == before.volumes
    }

    /// How many dumps are listed.
    pub fn listed(&self) -> u64 {
        let mut count: u64 = 0;
        for line in self.journal.split(|byte| *byte == b'\n') {
            if line.starts_with(b"dump ") {
                count = count.saturating_add(1);
            }
        }
        count
    }

    /// How many of them are listed again once the journal is lost and the tapes are scanned.
    pub fn listed_again(&self) -> u64 {
        let mut count: u64 = 0;
        for line in self.journal.split(|byte| *byte == b'\n') {
            if line.starts_with(b"dump ") && has_line(self.found.as_slice(), line) {
                count = count.saturating_add(1);
            }
        }
        count
    }
}

/// What a run over media tells, and the media.
fn told_by(
    alloc: Global,
    order: &Order,
    media: MemMedia,
    cell: &mut CellMem,
    looks: &Script,
) -> Result<(Vec<u8>, MemMedia), AllocError> {
    let before = media.told().len();
    let (_, media) = order.run(alloc, media, cell, looks)?;
    let told = told_since(alloc, &media, before)?;
    Ok((told, media))
}

/// What the volumes of these names hold.
fn shown(alloc: Global, names: &[String], cell: &mut CellMem) -> anyhow::Result<Vec<u8>> {
    let mut printed = Vec::new(alloc);
    for name in names {
        print_volume(alloc, cell, name.as_str(), &mut printed)?;
    }
    Ok(printed)
}

/// What was told, but for the records at which scans stop and the parts that no dump goes on with.
fn without_parts(alloc: Global, told: &[u8]) -> Result<Vec<u8>, AllocError> {
    let mut rest = Vec::new(alloc);
    for line in told.split(|byte| *byte == b'\n') {
        if !line.starts_with(b"refused 70 ") && !line.starts_with(b"refused 71 ") {
            rest.extend_from_slice(line)?;
            rest.push(b'\n')?;
        }
    }
    Ok(rest)
}

/// What scans find once the journal is lost, and what volumes hold then that are restored from it.
fn scanned(
    alloc: Global,
    world: &World,
    media: MemMedia,
    cell: &mut CellMem,
) -> anyhow::Result<Vec<u8>> {
    if world.scan_looks.count() == 0 {
        return Ok(Vec::new(alloc));
    }
    let mut media = media;
    media.empty_journal();
    let (told, _) = told_by(alloc, &world.order, media, cell, &world.scan_looks)?;
    let mut found = without_parts(alloc, told.as_slice())?;
    found.extend_from_slice(shown(alloc, world.found.as_slice(), cell)?.as_slice())?;
    Ok(found)
}

/// Looks at media by the looks of a row.
pub fn look(
    alloc: Global,
    world: &World,
    media: MemMedia,
    cell: &mut CellMem,
) -> anyhow::Result<Report> {
    let (journal, media) = told_by(alloc, &world.order, media, cell, &world.journal_looks)?;
    let (tape, media) = told_by(alloc, &world.order, media, cell, &world.tape_looks)?;
    let volumes = shown(alloc, world.seen.as_slice(), cell)?;
    let found = scanned(alloc, world, media, cell)?;
    Ok(Report {
        journal,
        tape,
        volumes,
        found,
    })
}
