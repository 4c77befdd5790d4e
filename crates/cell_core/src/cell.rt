//! A cell: volumes in the order of their names, clones of them, and file servers that stamp each change.

ghost use Rattle.std.specs.Prelude.{◌≡◌, ℕ, ◌<◌, ◌≤◌, List, length, Some, IfOk, OnOk, IsTrue, slice_get, All};
ghost use Rattle.cell_core.specs.declared.stored.Stored.{Stored};
ghost use Rattle.cell_core.specs.Cells.{IsCell};
ghost use Rattle.cell_core.specs.Forms.{IsStoredForm};
ghost use Rattle.cell_core.specs.Calls.{entry_at, clone_at, is_good, after_create, after_put, after_write, after_remove_vnode, after_backup, after_remove};
ghost use Rattle.crash_moments.specs.Moments.{HasCauseAt};
ghost use Rattle.cell_core.specs.Answers.{Changes, Creates, OnlyFromOutside};
ghost use Rattle.cell_core.specs.Listings.{most_volumes};

use crate::fault::CellFault;
use crate::stored::Taken;
use bk_text::{Host, Name, Part};
use vnode_model::{VolEntry, Volume};

/// A list of volumes in ascending byte order of their names, each name once, at most 65,536. Times are seconds since 1970.
/// The limits, the ids and the rules of what a call leaves are this project's own.
///
/// The clauses on contents hold where the type tells contents. A call that is refused, that fails or that has no memory
/// leaves the list as it was.
pub trait Cell {
    /// Whether contents are told: always in memory, never for an adapter over the outside.
    ghost tells: { Type 0 };

    /// The list.
    ghost list: { Self → List Stored };

    /// How many volumes there are.
    ghost size: { Self → ℕ };

    /// How often a call was refused by the outside. It ends at 2^64 - 1.
    ghost faults: { Self → ℕ };

    /// The number of volumes, at most 65,536.
    fn count(&self) -> u32
        ensures { result ≡ size self.now };

    /// What the list says of a volume.
    fn entry(&mut self, i: u32) -> Result<VolEntry, CellFault>
        requires { i < size self.old }
        ensures entry { tells → IfOk result (λ entry. entry_at (list self.old) i ≡ Some entry) }
        ensures errors { OnlyFromOutside result }
        ensures list { tells → list self.new ≡ list self.old }
        ensures size { size self.new ≡ size self.old }
        ensures cause { HasCauseAt CellFault.Failed (faults self.old) (faults self.new) result };

    /// Clones a volume; its entry isn't bad. The list stays.
    fn take(&mut self, i: u32, now: u32) -> Result<Taken, CellFault>
        requires within { i < size self.old }
        requires good { tells → IsTrue (is_good (slice_get (list self.old) i)) }
        ensures clone { tells → IfOk result (λ clone. clone_at (list self.old) i now ≡ Some clone) }
        ensures errors { OnlyFromOutside result }
        ensures list { tells → list self.new ≡ list self.old }
        ensures size { size self.new ≡ size self.old }
        ensures cause { HasCauseAt CellFault.Failed (faults self.old) (faults self.new) result };

    /// Stores a volume under its name, in place of one that is there. `TooLarge` where the name is new and no volume or no
    /// id is free, `BadImage` where what is there is no volume.
    fn put(&mut self, server: &Host, partition: &Part, volume: Volume) -> Result<(), CellFault>
        ensures answer { tells → Changes (after_put (list self.old) server.now partition.now volume) (list self.old) result (list self.new) }
        ensures cause { HasCauseAt CellFault.Failed (faults self.old) (faults self.new) result };

    /// Makes a read/write volume with one empty directory, and says its id. `VolumeExists` where the name is there, and
    /// `TooLarge` where no volume or no id is free.
    fn create(
        &mut self,
        server: &Host,
        partition: &Part,
        name: &Name,
        now: u32,
    ) -> Result<u32, CellFault>
        ensures answer { tells → Creates (after_create (list self.old) server.now partition.now name.now now) (list self.old) result (list self.new) }
        ensures cause { HasCauseAt CellFault.Failed (faults self.old) (faults self.new) result };

    /// Replaces the data of a vnode, which is made where it isn't there: an odd number as a directory, an even one as a file.
    /// `NoVolume` where the name is neither a read/write volume's nor a bad image's, `BadImage` where it is a bad image's,
    /// and `TooLarge` where a limit of volumes would be passed, the number is 0, or a new vnode finds the uniquifiers spent.
    fn write(&mut self, name: &Name, number: u32, body: &[u8], now: u32) -> Result<(), CellFault>
        ensures answer { tells → Changes (after_write (list self.old) name.now number body.now now) (list self.old) result (list self.new) }
        ensures cause { HasCauseAt CellFault.Failed (faults self.old) (faults self.new) result };

    /// Takes a vnode away. `NoVolume` and `BadImage` as in `write`; `NoVnode` where the number isn't there.
    fn remove_vnode(&mut self, name: &Name, number: u32, now: u32) -> Result<(), CellFault>
        ensures answer { tells → Changes (after_remove_vnode (list self.old) name.now number now) (list self.old) result (list self.new) }
        ensures cause { HasCauseAt CellFault.Failed (faults self.old) (faults self.new) result };

    /// Makes the backup volume of a read/write volume, or replaces what has its name. `NoVolume` and `BadImage` as in `write`.
    /// `TooLarge` where that name is over 31 bytes, where it is new and no volume is free, and where it is new or a bad
    /// image's and no id is free.
    fn backup(&mut self, name: &Name, now: u32) -> Result<(), CellFault>
        ensures answer { tells → Changes (after_backup (list self.old) name.now now) (list self.old) result (list self.new) }
        ensures cause { HasCauseAt CellFault.Failed (faults self.old) (faults self.new) result };

    /// Removes a volume or a bad image, and with a read/write volume its backup volume. `NoVolume` where the name isn't
    /// there.
    fn remove(&mut self, name: &Name) -> Result<(), CellFault>
        ensures answer { tells → Changes (after_remove (list self.old) name.now) (list self.old) result (list self.new) }
        ensures cause { HasCauseAt CellFault.Failed (faults self.old) (faults self.new) result };

    /// What the list has is such as the types allow it. It is a law that takes the cell by reference: there is nothing to find out.
    fn listed_is_allowed(&self)
        ensures { tells → All IsStoredForm (list self.now) };

    /// The list is a cell's.
    ghost is_cell: { (s : Self) → tells → IsCell (list s) };

    /// The number of volumes is that of the list.
    ghost sized: { (s : Self) → tells → size s ≡ length (list s) };

    /// There are at most 65,536 volumes.
    ghost few: { (s : Self) → size s ≤ most_volumes };
}
