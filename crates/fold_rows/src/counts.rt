//! What was counted, and its lines.

use crate::plain::Plain;
use std::alloc::Global;

/// How many changes of a kind fitted, and how many did not.
#[derive(Clone, Copy)]
pub struct Tally {
    pub fitting: u32,
    pub others: u32,
}

/// What was counted over some lists.
#[derive(Drop)]
pub struct Counts {
    /// By the number of the kind.
    pub kinds: [Tally; 17],
    pub bytes: u64,
    /// What the databases had in the end.
    pub sets: u64,
    pub entries: u64,
    pub levels: u64,
    pub hosts: u64,
    pub dumps: u64,
    pub greatest: u64,
    /// Fronts of lists that end with a change, and those that end within one.
    pub whole_fronts: u32,
    pub torn_fronts: u32,
    /// Lists in which the byte of a change's kind was none.
    pub bad_kinds: u32,
    pub differences: u32,
}

impl Counts {
    /// Nothing was counted.
    pub fn new() -> Counts {
        Counts {
            kinds: [Tally {
                fitting: 0,
                others: 0,
            }; 17],
            bytes: 0,
            sets: 0,
            entries: 0,
            levels: 0,
            hosts: 0,
            dumps: 0,
            greatest: 0,
            whole_fronts: 0,
            torn_fronts: 0,
            bad_kinds: 0,
            differences: 0,
        }
    }

    /// Counts a change.
    pub fn change(&mut self, kind: u8, fits: bool) {
        let at = kind as usize;
        if at < 17 {
            if fits {
                self.kinds[at].fitting = self.kinds[at].fitting.saturating_add(1);
            } else {
                self.kinds[at].others = self.kinds[at].others.saturating_add(1);
            }
        }
    }

    /// Counts a difference, where there is one.
    pub fn want(&mut self, is_so: bool) {
        if !is_so {
            self.differences = self.differences.saturating_add(1);
        }
    }

    /// Counts the bytes of a list, and what its database has in the end.
    pub fn database(&mut self, bytes: u64, plain: &Plain) {
        self.bytes = self.bytes.saturating_add(bytes);
        self.sets = self.sets.saturating_add(plain.sets.len() as u64);
        for set in plain.sets.iter() {
            self.entries = self.entries.saturating_add(set.entries.len() as u64);
        }
        self.levels = self.levels.saturating_add(plain.levels.len() as u64);
        self.hosts = self.hosts.saturating_add(plain.hosts.len() as u64);
        self.dumps = self.dumps.saturating_add(plain.dumps.len() as u64);
        self.greatest = self.greatest.saturating_add(u64::from(plain.greatest));
    }
}

/// The names of the kinds.
const KINDS: [&str; 17] = [
    "",
    "AddSet",
    "DelSet",
    "AddEntry",
    "DelEntry",
    "AddLevel",
    "SetExpiry",
    "DelLevel",
    "AddHost",
    "DelHost",
    "Begin",
    "Take",
    "Done1",
    "Forget",
    "Found1",
    "Done",
    "Found",
];

/// Prints what was counted over the lists of a seed.
pub fn print_counts(
    alloc: Global,
    seed: u32,
    lists: u32,
    counts: &Counts,
    printed: &mut Vec<u8>,
) -> anyhow::Result<()> {
    let line = format!(in alloc; "seed {seed}: {lists} lists of {} bytes\n", counts.bytes)?;
    printed.extend_from_slice(line.as_bytes())?;
    for (word, tally) in KINDS.iter().zip(counts.kinds.iter()).skip(1) {
        let line = format!(in alloc; "{word}: {} fit, {} do not\n", tally.fitting, tally.others)?;
        printed.extend_from_slice(line.as_bytes())?;
    }
    let line = format!(in alloc;
        "left: sets {}, entries {}, levels {}, hosts {}, dumps {}, greatest ids {}\n",
        counts.sets, counts.entries, counts.levels, counts.hosts, counts.dumps, counts.greatest
    )?;
    printed.extend_from_slice(line.as_bytes())?;
    let line = format!(in alloc;
        "fronts: whole {}, torn {}; bad kinds {}\n",
        counts.whole_fronts, counts.torn_fronts, counts.bad_kinds
    )?;
    printed.extend_from_slice(line.as_bytes())?;
    let line = format!(in alloc; "differences {}\n", counts.differences)?;
    printed.extend_from_slice(line.as_bytes())?;
    Ok(())
}
