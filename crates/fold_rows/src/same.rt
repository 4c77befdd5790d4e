//! Whether a database is what the plain model says.

use crate::plain::{Plain, PlainLevel, PlainSet};
use crate::steps::{Dump, Entry};
use crate::words::{EXPIRIES, HOSTS, LEVELS, PARTS, PATTERNS, SETS, word};
use budb_changes::DumpRecord;
use budb_fold::Database;
use dump_levels::Level;
use volume_sets::{SetEntry, Sets};

fn same_entry(entry: &SetEntry, plain: &Entry) -> bool {
    let server = match &entry.server {
        Some(server) => server.bytes(),
        None => &[],
    };
    let part = match &entry.partition {
        Some(part) => part.bytes(),
        None => &[],
    };
    server == word(&HOSTS, plain.server).as_bytes()
        && part == word(&PARTS, plain.part).as_bytes()
        && entry.pattern.bytes() == word(&PATTERNS, plain.pattern).as_bytes()
}

fn same_sets(sets: &Sets, plain: &[PlainSet]) -> bool {
    for at in 0..sets.len() {
        let Some(set) = plain.get(at) else {
            return false;
        };
        let entries = sets.entries_at(at);
        let facts = [
            sets.name_at(at).bytes() == word(&SETS, set.set).as_bytes(),
            entries.len() == set.entries.len(),
            entries
                .iter()
                .zip(set.entries.iter())
                .all(|(entry, plain)| same_entry(entry, plain)),
        ];
        let is_same = facts.iter().all(|is_so| *is_so);
        if !is_same {
            return false;
        }
    }
    sets.len() == plain.len()
}

fn same_dump(record: &DumpRecord, dump: &Dump) -> bool {
    let fields = record.fields();
    let volumes = fields.volumes.as_slice();
    let facts = [
        fields.id == dump.id,
        fields.initial == dump.initial,
        fields.parent == dump.parent,
        fields.set.bytes() == word(&SETS, dump.set).as_bytes(),
        fields.level.bytes() == word(&LEVELS, dump.level).as_bytes(),
        volumes.len() == dump.volumes as usize,
        volumes
            .iter()
            .zip(dump.froms.iter())
            .all(|(volume, from)| volume.fields().from == *from),
    ];
    facts.iter().all(|is_so| *is_so)
}

fn same_level(level: &Level, plain: &PlainLevel) -> bool {
    level.path.bytes() == word(&LEVELS, plain.level).as_bytes()
        && Some(&level.expiry) == EXPIRIES.get(plain.expiry as usize)
}

/// Whether a database is what the plain model says.
pub fn is_same(database: &Database, plain: &Plain) -> bool {
    let levels = database.levels.list();
    let hosts = database.hosts.as_slice();
    let listed = database.listed.as_slice();
    let facts = [
        same_sets(&database.sets, plain.sets.as_slice()),
        levels.len() == plain.levels.len(),
        levels
            .iter()
            .zip(plain.levels.iter())
            .all(|(level, plain)| same_level(level, plain)),
        hosts.len() == plain.hosts.len(),
        hosts.iter().zip(plain.hosts.iter()).all(|(host, plain)| {
            host.host.bytes() == word(&HOSTS, plain.host).as_bytes() && host.port == plain.port
        }),
        database.greatest == plain.greatest,
        listed.len() == plain.dumps.len(),
        listed
            .iter()
            .zip(plain.dumps.iter())
            .all(|(record, dump)| same_dump(record, dump)),
    ];
    facts.iter().all(|is_so| *is_so)
}
