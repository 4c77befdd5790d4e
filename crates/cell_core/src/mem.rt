//! A cell in memory.

ghost use Rattle.std.specs.Prelude.{refl, ◌≡◌, ◌≢◌, ◌↔◌, ◌<◌, ◌≤◌, [], ℕ, List, length, false, Some, Err, IfOk, OnOk, OnErr, IsTrue, slice_get, All};
ghost use Rattle.crash_moments.specs.Moments.{HasCauseAt, Rose};
ghost use Rattle.media_core.specs.Plan.{counted, is_planned, more_where, GainsCall, SamePlan, IsUnplanned};
ghost use Rattle.cell_core.specs.declared.stored.Stored.{Stored};
ghost use Rattle.cell_core.specs.Cells.{IsCell};
ghost use Rattle.cell_core.specs.Forms.{IsStoredForm};
ghost use Rattle.cell_core.specs.Props.{cell_prop};
ghost use Rattle.cell_core.specs.Spoiling.{spoilt};
ghost use Rattle.cell_core.specs.Calls.{entry_at, clone_at, is_good, after_create, after_put, after_write, after_remove_vnode, after_backup, after_remove};
ghost use Rattle.cell_core.specs.Answers.{Changes, Creates, OnlyFromOutside};

use crate::answering::{backup, change, create, put, remove, remove_vnode};
use crate::cell::Cell;
use crate::changes::Change;
use crate::fault::CellFault;
use crate::forms::all_are_formed;
use crate::looking::{entry_at, take_at};
use crate::spoiling::spoil_in;
use crate::stored::{Stored, Taken};
use bk_text::{Host, Name, Part};
use crash_moments::raised;
use media_core::{Memory, Plan, Turn};
use std::alloc::Global;
use vnode_model::{VolEntry, Volume};

/// A cell in memory. It has no bad images but those that `spoil` made. A call fails exactly where `fail_at` names it, and then changes nothing but the
/// count of faults, which rises there alone; calls are numbered from 0, and `count`, which can't fail, isn't numbered.
#[derive(Drop)]
pub struct CellMem {
    volumes: Vec<Stored>,
    plan: Plan,
    faults: u64,
    ghost is_cell: { IsCell volumes.items } by { cell_prop volumes.items },
}

/// Whether the call that begins fails by the plan. It is counted, and so is its fault.
fn fails(plan: &mut Plan, faults: &mut u64) -> bool
    ensures answer { result ≡ is_planned plan.old }
    ensures plan { plan.new ≡ counted plan.old }
    ensures later { faults.old ≤ faults.new }
    ensures risen { IsTrue result → Rose faults.old faults.new }
    ensures faults { faults.new ≡ more_where (is_planned plan.old) faults.old }
{
    if plan.next() == Turn::Goes {
        return false;
    }
    *faults = raised(*faults);
    true
}

impl Cell for CellMem {
    ghost use Rattle.cell_core.specs.Mem.{cell_list, cell_size, cell_plan, cell_faults};

    ghost tells = { Unit {0} };

    ghost list = { cell_list };

    ghost size = { cell_size };

    ghost faults = { cell_faults };

    ghost is_cell = { λ s told. s.is_cell };

    ghost sized = { λ s told. refl };

    ghost few = { λ s. s.is_cell.few };

    fn count(&self) -> u32
        ensures { result ≡ cell_size self.now }
    {
        self.volumes.len() as u32
    }

    fn entry(&mut self, i: u32) -> Result<VolEntry, CellFault>
        requires { i < cell_size self.old }
        ensures entry { IfOk result (λ entry. entry_at (cell_list self.old) i ≡ Some entry) }
        ensures errors { OnlyFromOutside result }
        ensures list { cell_list self.new ≡ cell_list self.old }
        ensures size { cell_size self.new ≡ cell_size self.old }
        ensures cause { HasCauseAt CellFault.Failed (cell_faults self.old) (cell_faults self.new) result }
        ensures plan { cell_plan self.new ≡ counted (cell_plan self.old) }
        ensures faults { cell_faults self.new ≡ more_where (is_planned (cell_plan self.old)) (cell_faults self.old) }
        ensures named { (result ≡ Err CellFault.Failed) ↔ IsTrue (is_planned (cell_plan self.old)) }
    {
        if fails(&mut self.plan, &mut self.faults) {
            return Err(CellFault::Failed);
        }
        Ok(entry_at(self.volumes.as_slice(), i as usize)?)
    }

    fn take(&mut self, i: u32, now: u32) -> Result<Taken, CellFault>
        requires within { i < cell_size self.old }
        requires good { IsTrue (is_good (slice_get (cell_list self.old) i)) }
        ensures clone { IfOk result (λ clone. clone_at (cell_list self.old) i now ≡ Some clone) }
        ensures errors { OnlyFromOutside result }
        ensures list { cell_list self.new ≡ cell_list self.old }
        ensures size { cell_size self.new ≡ cell_size self.old }
        ensures cause { HasCauseAt CellFault.Failed (cell_faults self.old) (cell_faults self.new) result }
        ensures plan { cell_plan self.new ≡ counted (cell_plan self.old) }
        ensures faults { cell_faults self.new ≡ more_where (is_planned (cell_plan self.old)) (cell_faults self.old) }
        ensures named { (result ≡ Err CellFault.Failed) ↔ IsTrue (is_planned (cell_plan self.old)) }
    {
        if fails(&mut self.plan, &mut self.faults) {
            return Err(CellFault::Failed);
        }
        Ok(take_at(self.volumes.as_slice(), i as usize, now)?)
    }

    fn put(&mut self, server: &Host, partition: &Part, volume: Volume) -> Result<(), CellFault>
        ensures answer { Changes (after_put (cell_list self.old) server.now partition.now volume) (cell_list self.old) result (cell_list self.new) }
        ensures cause { HasCauseAt CellFault.Failed (cell_faults self.old) (cell_faults self.new) result }
        ensures plan { cell_plan self.new ≡ counted (cell_plan self.old) }
        ensures faults { cell_faults self.new ≡ more_where (is_planned (cell_plan self.old)) (cell_faults self.old) }
        ensures named { (result ≡ Err CellFault.Failed) ↔ IsTrue (is_planned (cell_plan self.old)) }
    {
        if fails(&mut self.plan, &mut self.faults) {
            return Err(CellFault::Failed);
        }
        put(&mut self.volumes, server, partition, volume)
    }

    fn create(
        &mut self,
        server: &Host,
        partition: &Part,
        name: &Name,
        now: u32,
    ) -> Result<u32, CellFault>
        ensures answer { Creates (after_create (cell_list self.old) server.now partition.now name.now now) (cell_list self.old) result (cell_list self.new) }
        ensures cause { HasCauseAt CellFault.Failed (cell_faults self.old) (cell_faults self.new) result }
        ensures plan { cell_plan self.new ≡ counted (cell_plan self.old) }
        ensures faults { cell_faults self.new ≡ more_where (is_planned (cell_plan self.old)) (cell_faults self.old) }
        ensures named { (result ≡ Err CellFault.Failed) ↔ IsTrue (is_planned (cell_plan self.old)) }
    {
        if fails(&mut self.plan, &mut self.faults) {
            return Err(CellFault::Failed);
        }
        create(&mut self.volumes, server, partition, name, now)
    }

    fn write(&mut self, name: &Name, number: u32, body: &[u8], now: u32) -> Result<(), CellFault>
        ensures answer { Changes (after_write (cell_list self.old) name.now number body.now now) (cell_list self.old) result (cell_list self.new) }
        ensures cause { HasCauseAt CellFault.Failed (cell_faults self.old) (cell_faults self.new) result }
        ensures plan { cell_plan self.new ≡ counted (cell_plan self.old) }
        ensures faults { cell_faults self.new ≡ more_where (is_planned (cell_plan self.old)) (cell_faults self.old) }
        ensures named { (result ≡ Err CellFault.Failed) ↔ IsTrue (is_planned (cell_plan self.old)) }
    {
        if fails(&mut self.plan, &mut self.faults) {
            return Err(CellFault::Failed);
        }
        change(
            &mut self.volumes,
            name.bytes(),
            Change::Write { number, body },
            now,
        )
    }

    fn remove_vnode(&mut self, name: &Name, number: u32, now: u32) -> Result<(), CellFault>
        ensures answer { Changes (after_remove_vnode (cell_list self.old) name.now number now) (cell_list self.old) result (cell_list self.new) }
        ensures cause { HasCauseAt CellFault.Failed (cell_faults self.old) (cell_faults self.new) result }
        ensures plan { cell_plan self.new ≡ counted (cell_plan self.old) }
        ensures faults { cell_faults self.new ≡ more_where (is_planned (cell_plan self.old)) (cell_faults self.old) }
        ensures named { (result ≡ Err CellFault.Failed) ↔ IsTrue (is_planned (cell_plan self.old)) }
    {
        if fails(&mut self.plan, &mut self.faults) {
            return Err(CellFault::Failed);
        }
        remove_vnode(&mut self.volumes, name.bytes(), number, now)
    }

    fn backup(&mut self, name: &Name, now: u32) -> Result<(), CellFault>
        ensures answer { Changes (after_backup (cell_list self.old) name.now now) (cell_list self.old) result (cell_list self.new) }
        ensures cause { HasCauseAt CellFault.Failed (cell_faults self.old) (cell_faults self.new) result }
        ensures plan { cell_plan self.new ≡ counted (cell_plan self.old) }
        ensures faults { cell_faults self.new ≡ more_where (is_planned (cell_plan self.old)) (cell_faults self.old) }
        ensures named { (result ≡ Err CellFault.Failed) ↔ IsTrue (is_planned (cell_plan self.old)) }
    {
        if fails(&mut self.plan, &mut self.faults) {
            return Err(CellFault::Failed);
        }
        backup(&mut self.volumes, name.bytes(), now)
    }

    fn remove(&mut self, name: &Name) -> Result<(), CellFault>
        ensures answer { Changes (after_remove (cell_list self.old) name.now) (cell_list self.old) result (cell_list self.new) }
        ensures cause { HasCauseAt CellFault.Failed (cell_faults self.old) (cell_faults self.new) result }
        ensures plan { cell_plan self.new ≡ counted (cell_plan self.old) }
        ensures faults { cell_faults self.new ≡ more_where (is_planned (cell_plan self.old)) (cell_faults self.old) }
        ensures named { (result ≡ Err CellFault.Failed) ↔ IsTrue (is_planned (cell_plan self.old)) }
    {
        if fails(&mut self.plan, &mut self.faults) {
            return Err(CellFault::Failed);
        }
        remove(&mut self.volumes, name.bytes())
    }

    fn listed_is_allowed(&self)
        ensures { All IsStoredForm (cell_list self.now) }
    {
        all_are_formed(self.volumes.as_slice());
    }
}

impl CellMem {
    ghost use Rattle.cell_core.specs.Mem.{cell_list, cell_size, cell_plan, cell_faults};

    /// An empty cell, of which no call fails. It takes no memory.
    pub fn new(alloc: Global) -> CellMem
        ensures list { cell_list result ≡ [] }
        ensures calls { (cell_plan result).calls ≡ 0 }
        ensures unplanned { IsUnplanned (cell_plan result) }
        ensures faults { cell_faults result ≡ 0 }
    {
        CellMem {
            volumes: Vec::new(alloc),
            plan: Plan::new(alloc),
            faults: 0,
        }
    }

    /// Makes the call of that number fail and change nothing. On an error all stays.
    pub fn fail_at(&mut self, call: u64) -> Result<(), Memory>
        ensures ok { OnOk result (GainsCall (cell_plan self.old) (cell_plan self.new) call) }
        ensures err { OnErr result (SamePlan (cell_plan self.old) (cell_plan self.new)) }
        ensures list { cell_list self.new ≡ cell_list self.old }
        ensures faults { cell_faults self.new ≡ cell_faults self.old }
    {
        self.plan.fail_at(call)
    }

    /// Puts a bad image in place of what stands under a name, for tests of what a bad image answers. It is no call of the
    /// cell, and isn't numbered. Where nothing stands under the name all stays.
    pub fn spoil(&mut self, name: &Name, at: u64)
        ensures list { cell_list self.new ≡ spoilt name.now at (cell_list self.old) }
        ensures plan { cell_plan self.new ≡ cell_plan self.old }
        ensures faults { cell_faults self.new ≡ cell_faults self.old }
    {
        spoil_in(&mut self.volumes, name.bytes(), at);
    }
}
