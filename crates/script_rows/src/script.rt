//! Scripts with their moments.

use std::alloc::{AllocError, Global};

/// The first lines of most rows: a tape host, a volume set, levels and a volume.
const PREAMBLE: [&str; 5] = [
    "addhost -tapehost th -portoffset 0",
    "addvolset -name users",
    "addvolentry -name users -server .* -partition .* -volumes user\\..*",
    "adddump -dump /full /full/mon /full/mon/tue",
    "vos create -server fs1 -partition vicepa -name user.a",
];

/// The moment at which they run.
const FIRST: u64 = 1000;

/// What a stop inside a line may leave: what other lines in its place would, which are parted by `;`.
#[derive(Drop)]
pub struct Inside {
    /// The number of the line inside which the stop is.
    pub number: usize,
    pub moment: u64,
    pub line: Vec<u8>,
}

/// The lines of a script, and the clock's moments while it runs: one for each line that has a reply.
#[derive(Drop)]
pub struct Script {
    pub lines: Vec<u8>,
    pub moments: Vec<u64>,
    pub insides: Vec<Inside>,
}

impl Script {
    pub fn new(alloc: Global) -> Script {
        Script {
            lines: Vec::new(alloc),
            moments: Vec::new(alloc),
            insides: Vec::new(alloc),
        }
    }

    /// Adds a line that has no reply.
    pub fn add_silent(&mut self, line: &str) -> Result<(), AllocError> {
        self.lines.extend_from_slice(line.as_bytes())?;
        self.lines.push(b'\n')?;
        Ok(())
    }

    /// Adds a line that is answered at this moment.
    pub fn add(&mut self, moment: u64, line: &str) -> Result<(), AllocError> {
        self.moments.push(moment)?;
        self.add_silent(line)
    }

    /// Adds what a stop inside the line before may leave.
    pub fn add_inside(&mut self, alloc: Global, moment: u64, line: &str) -> Result<(), AllocError> {
        let number = self.count().saturating_sub(1);
        let line = Vec::from_slice(alloc, line.as_bytes())?;
        let inside = Inside {
            number,
            moment,
            line,
        };
        self.insides.push(inside)?;
        Ok(())
    }

    /// The lines before one, and behind them those that stand in its place.
    fn with_inside(&self, alloc: Global, inside: &Inside) -> Result<Script, AllocError> {
        let mut front = self.front(alloc, inside.number)?;
        for line in inside.line.split(|byte| *byte == b';') {
            front.moments.push(inside.moment)?;
            front.lines.extend_from_slice(line)?;
            front.lines.push(b'\n')?;
        }
        Ok(front)
    }

    /// The first so many lines, and behind them what a stop inside the next one may leave, each way of it.
    pub fn insides(&self, alloc: Global, count: usize) -> Result<Vec<Script>, AllocError> {
        let mut fronts = Vec::new(alloc);
        for inside in self.insides.iter() {
            if inside.number == count {
                fronts.push(self.with_inside(alloc, inside)?)?;
            }
        }
        Ok(fronts)
    }

    /// Adds the first so many lines of the preamble.
    pub fn add_preamble(&mut self, count: usize) -> Result<(), AllocError> {
        for line in PREAMBLE.iter().take(count) {
            self.add(FIRST, line)?;
        }
        Ok(())
    }

    /// Adds a line of so many bytes `x`.
    pub fn add_long(&mut self, count: u32) -> Result<(), AllocError> {
        self.moments.push(FIRST)?;
        for _ in 0..count {
            self.lines.push(b'x')?;
        }
        self.lines.push(b'\n')?;
        Ok(())
    }

    /// Adds bytes as they are.
    pub fn add_bytes(&mut self, bytes: &[u8]) -> Result<(), AllocError> {
        self.lines.extend_from_slice(bytes)
    }

    /// Takes the last line feed away.
    pub fn leave_unended(&mut self) {
        let _ = self.lines.pop();
    }

    /// How many lines have a reply.
    pub fn count(&self) -> usize {
        self.moments.len()
    }

    /// The first so many lines; each of them has a reply.
    pub fn front(&self, alloc: Global, count: usize) -> Result<Script, AllocError> {
        let mut front = Script::new(alloc);
        for line in self.lines.split(|byte| *byte == b'\n').take(count) {
            front.lines.extend_from_slice(line)?;
            front.lines.push(b'\n')?;
        }
        for moment in self.moments.iter().take(count) {
            front.moments.push(*moment)?;
        }
        Ok(front)
    }

    /// The line of a number, with no line feed; empty where there is none.
    pub fn line(&self, number: usize) -> &[u8] {
        match self.lines.split(|byte| *byte == b'\n').nth(number) {
            Some(line) => line,
            None => b"",
        }
    }
}
