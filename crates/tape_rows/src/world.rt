//! What a row works on.

use crate::records::Record;
use std::alloc::{AllocError, Global};

/// How many tapes there are.
pub const TAPES: usize = 4;

/// What the frames of a dump have in common.
#[derive(Drop)]
pub struct Common {
    pub id: u32,
    pub initial: u32,
    pub parent: u32,
    pub expires: u32,
    pub volumes: u32,
    pub uses: u32,
    pub set: String,
    pub level: String,
    pub base: String,
    pub cell: String,
    pub permanent: String,
}

/// Tapes by their records, the one that records are put on, and the dump whose frames are put.
#[derive(Drop)]
pub struct World {
    pub tapes: Vec<Vec<Record>>,
    pub tape: usize,
    pub common: Common,
}

impl Common {
    /// A full dump of one volume.
    fn new(alloc: Global) -> Result<Common, AllocError> {
        Ok(Common {
            id: 2000,
            initial: 2000,
            parent: 0,
            expires: 0,
            volumes: 1,
            uses: 1,
            set: String::from_str(alloc, "users")?,
            level: String::from_str(alloc, "/full")?,
            base: String::from_str(alloc, "users.full")?,
            cell: String::from_str(alloc, "")?,
            permanent: String::from_str(alloc, "")?,
        })
    }
}

impl World {
    /// Blank tapes.
    pub fn new(alloc: Global) -> Result<World, AllocError> {
        let mut tapes = Vec::new(alloc);
        for _ in 0..TAPES {
            tapes.push(Vec::new(alloc))?;
        }
        Ok(World {
            tapes,
            tape: 0,
            common: Common::new(alloc)?,
        })
    }

    /// The records of a tape; none where there is no such tape.
    pub fn records(&self, tape: usize) -> &[Record] {
        match self.tapes.get(tape) {
            Some(records) => records.as_slice(),
            None => &[],
        }
    }

    /// Puts a record at the end of the tape.
    pub fn put(&mut self, record: Record) -> anyhow::Result<()> {
        let Some(records) = self.tapes.get_mut(self.tape) else {
            anyhow::bail!("there is no such tape");
        };
        records.push(record)?;
        Ok(())
    }

    /// Makes these the records of the tape.
    pub fn set(&mut self, records: Vec<Record>) -> anyhow::Result<()> {
        let Some(old) = self.tapes.get_mut(self.tape) else {
            anyhow::bail!("there is no such tape");
        };
        *old = records;
        Ok(())
    }
}
