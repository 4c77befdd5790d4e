//! What a row works on.

use crate::files::{blank, taken};
use crate::order::Order;
use crate::script::Script;
use crate::turning::{Turn, Turning};
use backup_top::Status;
use bk_text::{Host, Name, Part as Partition};
use cell_core::{Cell, CellMem};
use media_core::MemMedia;
use std::alloc::{AllocError, Global};
use std::mem;

/// The configuration where a row gives none.
const FOUR_SLOTS: &[u8] = b"slots:0-3 0\n";

/// The length of a block.
const BLOCK: usize = 16_384;

/// A script that goes before another one, whose tape is then taken out with the journal lost, or put back.
#[derive(Drop)]
pub struct Part {
    pub script: Script,
    pub slot: u32,
    pub is_lost: bool,
}

/// Media, a cell, and what is run over them.
#[derive(Drop)]
pub struct World {
    pub media: MemMedia,
    pub cell: CellMem,
    pub order: Order,
    pub is_configured: bool,
    /// Records that stand on no tape yet, as the bytes of a tape's log.
    pub records: Vec<u8>,
    /// What goes before a script that is stopped or failed in.
    pub before: Vec<Part>,
    pub script: Script,
    pub journal_looks: Script,
    pub tape_looks: Script,
    /// What is asked once the journal is lost.
    pub scan_looks: Script,
    /// The volumes that are shown behind the looks.
    pub seen: Vec<String>,
    /// The volumes that are shown once the journal is lost and the tapes are scanned.
    pub found: Vec<String>,
}

impl World {
    /// Blank media, an empty cell, and an empty script.
    pub fn new(alloc: Global) -> Result<World, AllocError> {
        let mut words = Vec::new(alloc);
        words.push(String::from_str(alloc, "run")?)?;
        Ok(World {
            media: blank(alloc)?,
            cell: CellMem::new(alloc),
            order: Order {
                words,
                config: Vec::from_slice(alloc, FOUR_SLOTS)?,
                failing_read: None,
            },
            is_configured: false,
            records: Vec::new(alloc),
            before: Vec::new(alloc),
            script: Script::new(alloc),
            journal_looks: Script::new(alloc),
            tape_looks: Script::new(alloc),
            scan_looks: Script::new(alloc),
            seen: Vec::new(alloc),
            found: Vec::new(alloc),
        })
    }

    /// Has the script go before a new one, behind which the tape of a slot is taken out with the journal lost, or put back.
    pub fn go_before(&mut self, alloc: Global, slot: u32, is_lost: bool) -> Result<(), AllocError> {
        let script = mem::replace(&mut self.script, Script::new(alloc));
        self.before.push(Part {
            script,
            slot,
            is_lost,
        })?;
        Ok(())
    }

    /// Adds a line to the configuration.
    pub fn configure(&mut self, line: &str) -> Result<(), AllocError> {
        if !self.is_configured {
            self.order.config.clear();
            self.is_configured = true;
        }
        self.order.config.extend_from_slice(line.as_bytes())?;
        self.order.config.push(b'\n')?;
        Ok(())
    }

    /// Adds a record to those that stand on no tape yet: a block that begins with these bytes (kind 0), or a mark (kind 1).
    pub fn add_record(&mut self, kind: u8, front: &[u8]) -> anyhow::Result<()> {
        if front.len() > BLOCK {
            anyhow::bail!("a block is too long");
        }
        self.records.push(kind)?;
        self.records.extend_from_slice(front)?;
        for _ in front.len()..BLOCK {
            self.records.push(0)?;
        }
        Ok(())
    }

    /// Starts the service by other words.
    pub fn say(&mut self, alloc: Global, words: &str) -> Result<(), AllocError> {
        self.order.words.clear();
        for word in words.split_whitespace() {
            self.order.words.push(String::from_str(alloc, word)?)?;
        }
        Ok(())
    }

    /// Runs the script, and begins a new one. The answer is the status and what was told.
    pub fn run(&mut self, alloc: Global) -> anyhow::Result<(Status, Vec<u8>)> {
        let before = self.media.told().len();
        let media = taken(alloc, &mut self.media)?;
        let (status, media) = self.order.run(alloc, media, &mut self.cell, &self.script)?;
        self.media = media;
        self.script = Script::new(alloc);
        let told = told_since(alloc, &self.media, before)?;
        Ok((status, told))
    }

    /// Runs a script over the media and another cell.
    pub fn run_on(
        &mut self,
        alloc: Global,
        cell: &mut CellMem,
        script: &Script,
    ) -> anyhow::Result<()> {
        let media = taken(alloc, &mut self.media)?;
        let (_, media) = self.order.run(alloc, media, cell, script)?;
        self.media = media;
        Ok(())
    }

    /// Runs the script over media with such a byte, and begins a new one. The answer is the status and what was told.
    pub fn run_turning(&mut self, alloc: Global, turn: Turn) -> anyhow::Result<(Status, Vec<u8>)> {
        let before = self.media.told().len();
        let media = Turning::new(taken(alloc, &mut self.media)?, turn);
        let (status, media) = self.order.run(alloc, media, &mut self.cell, &self.script)?;
        self.media = media.into_inner();
        self.script = Script::new(alloc);
        let told = told_since(alloc, &self.media, before)?;
        Ok((status, told))
    }

    /// Gives the media so many slots, all blank.
    pub fn resize(&mut self, alloc: Global, slots: u32) -> anyhow::Result<()> {
        if slots > 255 {
            anyhow::bail!("{slots} slots are too many");
        }
        self.media = MemMedia::new(alloc, slots + 1)?;
        Ok(())
    }

    /// Makes a volume, by one call of the cell.
    pub fn create(&mut self, alloc: Global, name: &str) -> anyhow::Result<()> {
        let (Ok(server), Ok(partition), Ok(name)) = (
            Host::parse(alloc, b"fs1"),
            Partition::parse(alloc, b"vicepa"),
            Name::parse(alloc, name.as_bytes()),
        ) else {
            anyhow::bail!("a volume's name is bad");
        };
        if self.cell.create(&server, &partition, &name, 1000).is_err() {
            anyhow::bail!("a volume wasn't made");
        }
        Ok(())
    }

    /// Makes the image of a volume a bad one.
    pub fn spoil(&mut self, alloc: Global, name: &str, at: u64) -> anyhow::Result<()> {
        let Ok(name) = Name::parse(alloc, name.as_bytes()) else {
            anyhow::bail!("a volume's name is bad");
        };
        self.cell.spoil(&name, at);
        Ok(())
    }
}

/// What media were told from a place on.
pub fn told_since(alloc: Global, media: &MemMedia, before: usize) -> Result<Vec<u8>, AllocError> {
    let told = media.told();
    if before > told.len() {
        return Ok(Vec::new(alloc));
    }
    Vec::from_slice(alloc, &told[before..])
}
