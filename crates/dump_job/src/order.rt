//! What a dump is asked to do.

ghost use Rattle.std.specs.Prelude.{◌≡◌};

use bk_text::{Bytes, LevelPath, List, SetName};
use tape_config::Port;

/// What a dump is asked to do.
pub struct DumpOrder {
    /// The volume set.
    pub set: SetName,
    /// The level.
    pub level: LevelPath,
    /// When the dump expires, in seconds since 1970; 0 where it has no expiration, 4,294,967,295 where it never does.
    pub expires: u32,
    /// The id of the dump that it is taken since, as `parent_of` finds it; 0 for a full dump.
    pub parent: u32,
    /// The port whose slots it fills.
    pub port: Port,
    /// Whether it is appended to the dumps of its volume set.
    pub append: bool,
    /// The places of its volumes in the cell's list, in ascending order of their names.
    pub volumes: List<u32>,
    /// The time of the command, in seconds since 1970.
    pub time: u32,
    /// The name of the cell, a `Host`; empty where the configuration names none.
    pub cell: Bytes,
}

/// It is written out, so that who lets an order go calls it: derived, it would be proved once more at each such place.
impl Drop for DumpOrder {
    fn drop(self) {
        let DumpOrder {
            set,
            level,
            expires,
            parent,
            port,
            append,
            volumes,
            time,
            cell,
        } = self;
    }
}

impl DumpOrder {
    /// The port, the volumes and the time.
    pub(crate) fn into_parts(self) -> (Port, List<u32>, u32)
        ensures port { result.0 ≡ self.port }
        ensures volumes { result.1 ≡ self.volumes }
        ensures time { result.2 ≡ self.time }
    {
        let DumpOrder {
            set,
            level,
            expires,
            parent,
            port,
            append,
            volumes,
            time,
            cell,
        } = self;
        (port, volumes, time)
    }
}
