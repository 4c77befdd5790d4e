//! What holds of a cell's list after each call, whichever cell made it.

ghost use Rattle.std.specs.Prelude.{◌≡◌, ◌↔◌, ◌⊎◌, ℕ, ◌+◌, ◌*◌, ◌^◌, ◌<◌, ◌≤◌, List, ◌∷◌, Contains, Option, Some, Result, Ok};
ghost use Rattle.vnode_model.specs.declared.volumes.VolumeFields.{VolumeFields};
ghost use Rattle.std.specs.declared.cmp.Ordering.TheVariants.{Less, Equal};
ghost use Rattle.vnode_model.specs.Limits.{AreVolume, StandsBefore};
ghost use Rattle.cell_core.specs.declared.fault.CellFault.{CellFault};
ghost use Rattle.cell_core.specs.declared.stored.Stored.{Stored};
ghost use Rattle.cell_core.specs.declared.stored.Image.TheVariants.{Good};
ghost use Rattle.cell_core.specs.declared.stored.Taken.{Taken};
ghost use Rattle.cell_core.specs.Vnodes.{number_order};
ghost use Rattle.cell_core.specs.Volumes.{backup_name};
ghost use Rattle.cell_core.specs.Cells.{IsCell, free_id_in};
ghost use Rattle.cell_core.specs.Calls.{Creation, after_create, after_put, after_write, after_remove_vnode, after_backup, after_remove, clone_at};
ghost use Rattle.cell_core.specs.Answers.{Changes, Creates};
ghost use Rattle.cell_core.specs.Fairness.{Dumped, dumped_from, IsFairTo, Fair, NoneIsMadeAfter, IsNoSourceUnder, NoSourceHasBackupName};

/// A vnode is looked up by the order in which a volume's vnodes stand.
pub fn vnodes_are_looked_up_in_their_order()
    ensures before { (m n : ℕ) → (number_order m n ≡ Less ↔ StandsBefore m n) }
    ensures same { (m n : ℕ) → (number_order m n ≡ Equal ↔ m ≡ n) }
{}

/// A call leaves the list as it was, or what its function makes of it.
pub fn a_call_leaves_its_list()
    ensures changes { (due : Result (List Stored) CellFault) (old : List Stored) (result : Result (Unit {0}) CellFault) (new : List Stored) → Changes due old result new → (new ≡ old) ⊎ (due ≡ Ok new) }
    ensures creates { (due : Result Creation CellFault) (old : List Stored) (result : Result ℕ CellFault) (new : List Stored) → Creates due old result new → (new ≡ old) ⊎ ((id : ℕ) × (due ≡ Ok (record { id = id; list = new }))) }
{}

/// A new volume's id is the least of 536,870,912, 536,870,915 and so on that is greater than every volume's.
pub fn a_new_id_is_the_least_above_all()
    ensures given { (cell : List Stored) (server partition name : List ℕ) (now : ℕ) (made : Creation) → after_create cell server partition name now ≡ Ok made → free_id_in cell ≡ Some made.id }
    ensures above { (cell : List Stored) (id : ℕ) (s : Stored) (volume : VolumeFields) → free_id_in cell ≡ Some id → Contains cell s → s.image ≡ Good volume → volume.header.id < id }
    ensures row { (cell : List Stored) (id : ℕ) → free_id_in cell ≡ Some id → (j : ℕ) × (id ≡ 536870912 + 3 * j) }
    ensures least { (cell : List Stored) (id j : ℕ) → free_id_in cell ≡ Some id → ((s : Stored) (volume : VolumeFields) → Contains cell s → s.image ≡ Good volume → volume.header.id < 536870912 + 3 * j) → id ≤ 536870912 + 3 * j }
    ensures fits { (cell : List Stored) (id : ℕ) → free_id_in cell ≡ Some id → id < 2 ^ 32 }
{}

/// Time that goes on keeps a cell fair.
pub fn time_keeps_a_cell_fair()
    ensures { (cell : List Stored) (dumped : List Dumped) (time now : ℕ) → Fair cell dumped time → time ≤ now → Fair cell dumped now }
{}

/// A cell is fair to fewer dumps too.
pub fn fewer_dumps_keep_a_cell_fair()
    ensures { (cell : List Stored) (dumped fewer : List Dumped) (now : ℕ) → Fair cell dumped now → ((d : Dumped) → Contains fewer d → Contains dumped d) → Fair cell fewer now }
{}

/// A dump of a clone leaves a fair cell fair to that dump too.
pub fn a_dump_keeps_a_cell_fair()
    ensures { (cell : List Stored) (dumped : List Dumped) (now i : ℕ) (clone : Taken) → IsCell cell → Fair cell dumped now → NoneIsMadeAfter now cell → NoSourceHasBackupName cell → clone_at cell i now ≡ Some clone → Fair cell (dumped_from clone ∷ dumped) now }
{}

/// A clone is fair to what was dumped under its name, which has a volume's vnodes: what the law of increments asks.
pub fn a_clone_is_fair_to_its_dumps()
    ensures fair { (cell : List Stored) (dumped : List Dumped) (time i now : ℕ) (clone : Taken) (d : Dumped) (old : VolumeFields) → IsCell cell → Fair cell dumped time → clone_at cell i now ≡ Some clone → Contains dumped d → d.name ≡ clone.volume.header.name → d.volume ≡ Some old → IsFairTo clone.born clone.volume d.time old }
    ensures volume { (cell : List Stored) (dumped : List Dumped) (time : ℕ) (d : Dumped) (old : VolumeFields) → Fair cell dumped time → Contains dumped d → d.volume ≡ Some old → AreVolume old.vnodes }
{}

/// What `create` keeps at its time.
pub fn a_new_volume_keeps_a_cell_fair()
    ensures fair { (cell : List Stored) (dumped : List Dumped) (time now : ℕ) (server partition name : List ℕ) (made : Creation) → after_create cell server partition name now ≡ Ok made → Fair cell dumped time → time ≤ now → NoneIsMadeAfter now cell → Fair made.list dumped now }
    ensures made { (cell : List Stored) (time now : ℕ) (server partition name : List ℕ) (made : Creation) → after_create cell server partition name now ≡ Ok made → NoneIsMadeAfter time cell → now ≤ time → NoneIsMadeAfter time made.list }
    ensures named { (cell : List Stored) (now : ℕ) (server partition name : List ℕ) (made : Creation) → after_create cell server partition name now ≡ Ok made → NoSourceHasBackupName cell → ((base : List ℕ) → name ≡ backup_name base → ⊥) → NoSourceHasBackupName made.list }
{}

/// What `put` keeps of a read/write volume that is made now, at its creation date.
pub fn a_put_volume_keeps_a_cell_fair()
    ensures fair { (cell : List Stored) (dumped : List Dumped) (time : ℕ) (server partition : List ℕ) (volume : VolumeFields) (new : List Stored) → after_put cell server partition volume ≡ Ok new → Fair cell dumped time → time ≤ volume.header.created → volume.header.kind ≡ 0 → NoneIsMadeAfter volume.header.created cell → Fair new dumped volume.header.created }
    ensures made { (cell : List Stored) (time : ℕ) (server partition : List ℕ) (volume : VolumeFields) (new : List Stored) → after_put cell server partition volume ≡ Ok new → NoneIsMadeAfter time cell → volume.header.created ≤ time → NoneIsMadeAfter time new }
    ensures named { (cell : List Stored) (server partition : List ℕ) (volume : VolumeFields) (new : List Stored) → after_put cell server partition volume ≡ Ok new → NoSourceHasBackupName cell → IsNoSourceUnder volume.header.name (Good volume) → NoSourceHasBackupName new }
{}

/// What `write` keeps at its time.
pub fn written_data_keeps_a_cell_fair()
    ensures fair { (cell : List Stored) (dumped : List Dumped) (time now number : ℕ) (name body : List ℕ) (new : List Stored) → after_write cell name number body now ≡ Ok new → Fair cell dumped time → time ≤ now → Fair new dumped now }
    ensures made { (cell : List Stored) (time now number : ℕ) (name body : List ℕ) (new : List Stored) → after_write cell name number body now ≡ Ok new → NoneIsMadeAfter time cell → NoneIsMadeAfter time new }
    ensures named { (cell : List Stored) (now number : ℕ) (name body : List ℕ) (new : List Stored) → after_write cell name number body now ≡ Ok new → NoSourceHasBackupName cell → NoSourceHasBackupName new }
{}

/// What `remove_vnode` keeps at its time.
pub fn a_removed_vnode_keeps_a_cell_fair()
    ensures fair { (cell : List Stored) (dumped : List Dumped) (time now number : ℕ) (name : List ℕ) (new : List Stored) → after_remove_vnode cell name number now ≡ Ok new → Fair cell dumped time → time ≤ now → Fair new dumped now }
    ensures made { (cell : List Stored) (time now number : ℕ) (name : List ℕ) (new : List Stored) → after_remove_vnode cell name number now ≡ Ok new → NoneIsMadeAfter time cell → NoneIsMadeAfter time new }
    ensures named { (cell : List Stored) (now number : ℕ) (name : List ℕ) (new : List Stored) → after_remove_vnode cell name number now ≡ Ok new → NoSourceHasBackupName cell → NoSourceHasBackupName new }
{}

/// What `backup` keeps at its time.
pub fn a_backup_volume_keeps_a_cell_fair()
    ensures fair { (cell : List Stored) (dumped : List Dumped) (time now : ℕ) (name : List ℕ) (new : List Stored) → after_backup cell name now ≡ Ok new → IsCell cell → Fair cell dumped time → time ≤ now → now < 2 ^ 32 → Fair new dumped now }
    ensures made { (cell : List Stored) (time now : ℕ) (name : List ℕ) (new : List Stored) → after_backup cell name now ≡ Ok new → NoneIsMadeAfter time cell → now ≤ time → NoneIsMadeAfter time new }
    ensures named { (cell : List Stored) (now : ℕ) (name : List ℕ) (new : List Stored) → after_backup cell name now ≡ Ok new → NoSourceHasBackupName cell → NoSourceHasBackupName new }
{}

/// What `remove` keeps.
pub fn a_removed_volume_keeps_a_cell_fair()
    ensures fair { (cell : List Stored) (dumped : List Dumped) (now : ℕ) (name : List ℕ) (new : List Stored) → after_remove cell name ≡ Ok new → Fair cell dumped now → now < 2 ^ 32 → Fair new dumped now }
    ensures made { (cell : List Stored) (time : ℕ) (name : List ℕ) (new : List Stored) → after_remove cell name ≡ Ok new → NoneIsMadeAfter time cell → NoneIsMadeAfter time new }
    ensures named { (cell : List Stored) (name : List ℕ) (new : List Stored) → after_remove cell name ≡ Ok new → NoSourceHasBackupName cell → NoSourceHasBackupName new }
{}
