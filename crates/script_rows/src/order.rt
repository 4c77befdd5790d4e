//! Runs of the service.

use crate::script::Script;
use backup_top::{Status, run};
use cell_core::CellMem;
use media_core::{ClockMem, Media, SourceMem};
use std::alloc::{AllocError, Global};

/// The moment of a clock that no line is answered by.
const NEVER_ASKED: u64 = 1000;

/// What a run is started with: the words after the program's name, the bytes of the configuration, and the read of the source
/// that fails, if one does.
#[derive(Drop)]
pub struct Order {
    pub words: Vec<String>,
    pub config: Vec<u8>,
    pub failing_read: Option<u64>,
}

impl Order {
    /// Runs a script over media and a cell.
    pub fn run<M: Media + Drop>(
        &self,
        alloc: Global,
        media: M,
        cell: &mut CellMem,
        script: &Script,
    ) -> Result<(Status, M), AllocError> {
        self.run_failing(alloc, media, cell, script, self.failing_read)
    }

    /// The same, where this read of the source fails.
    pub fn run_failing<M: Media + Drop>(
        &self,
        alloc: Global,
        media: M,
        cell: &mut CellMem,
        script: &Script,
        failing_read: Option<u64>,
    ) -> Result<(Status, M), AllocError> {
        let mut clock = clock_of(alloc, script.moments.as_slice())?;
        let mut source = SourceMem::new(alloc, script.lines.as_slice())?;
        if let Some(read) = failing_read {
            source.fail_at(read)?;
        }
        Ok(run(
            alloc,
            &self.words,
            self.config.as_slice(),
            media,
            cell,
            &mut clock,
            &mut source,
        ))
    }
}

/// A clock of these moments.
fn clock_of(alloc: Global, moments: &[u64]) -> Result<ClockMem, AllocError> {
    if moments.is_empty() {
        return ClockMem::new(alloc, &[NEVER_ASKED]);
    }
    ClockMem::new(alloc, moments)
}
