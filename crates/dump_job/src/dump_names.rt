//! The names that the heads and the record of a dump have.

ghost use Rattle.std.specs.Prelude.{◌≡◌, IfOk};

use bk_text::{Bytes, LevelPath, SetName, TapeName};
use std::alloc::AllocError;

/// The names that the heads and the record of a dump have.
pub(crate) struct DumpNames {
    /// The volume set.
    pub(crate) set: SetName,
    /// The level.
    pub(crate) level: LevelPath,
    /// What the names of its tapes begin with.
    pub(crate) base: TapeName,
    /// The cell, empty where it has no name.
    pub(crate) cell: Bytes,
}

/// It is written out, so that each function that lets them go calls it.
impl Drop for DumpNames {
    fn drop(self) {
        let DumpNames {
            set,
            level,
            base,
            cell,
        } = self;
    }
}

impl DumpNames {
    /// These names once more.
    pub(crate) fn of(
        set: &SetName,
        level: &LevelPath,
        base: &TapeName,
        cell: &Bytes,
    ) -> Result<DumpNames, AllocError>
        ensures { IfOk result (λ names. names ≡ record { set = set.now; level = level.now; base = base.now; cell = cell.now }) }
    {
        Ok(DumpNames {
            set: set.clone()?,
            level: level.clone()?,
            base: base.clone()?,
            cell: cell.copy()?,
        })
    }

    /// The volume set, the level, what the names of tapes begin with, and the cell.
    pub(crate) fn into_parts(self) -> (SetName, LevelPath, TapeName, Bytes)
        ensures set { result.0 ≡ self.set }
        ensures level { result.1 ≡ self.level }
        ensures base { result.2 ≡ self.base }
        ensures cell { result.3 ≡ self.cell }
    {
        let DumpNames {
            set,
            level,
            base,
            cell,
        } = self;
        (set, level, base, cell)
    }
}
