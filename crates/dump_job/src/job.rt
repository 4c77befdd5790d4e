//! A dump: it is checked and begun, it goes on step by step, and where it is given up its tape is settled.

ghost use Rattle.std.specs.Prelude.{◌≡◌, ◌≢◌, ◌≤◌, ◌^◌, ℕ, Bool, List as AnyList, None, IfOk, OnOk, OnErr, MatchOption, length};
ghost use Rattle.bk_text.specs.Alphabets.{IsHost};
ghost use Rattle.byte_formats.specs.Forms.{IsMaybe};
ghost use Rattle.crash_moments.specs.Moments.{HasCause, HasCauseAt};
ghost use Rattle.plant_effects.specs.Runs.{Done, Leaves, StaysQuiet};
ghost use Rattle.tape_scan.specs.Slots.{Slot};
ghost use Rattle.tape_scan.specs.Looking.{HasSlots, Loads};
ghost use Rattle.tape_choice.specs.Append.{AreWhole};
ghost use Rattle.dump_job.specs.Faults.{UnlessFailed, LeavesBehindLoads, Searches};
ghost use Rattle.dump_job.specs.Beginning.{id_of, first_tape, begin_effects, IsBegun, Checks, Refuses};
ghost use Rattle.dump_job.specs.Settling.{last_cut, settling_last};
ghost use Rattle.dump_job.specs.Cloning.{volumes_done};
ghost use Rattle.dump_job.specs.Ending.{all_parts};
ghost use Rattle.dump_job.specs.Events.{Around, event};
ghost use Rattle.dump_job.specs.Jobs.{FitsJob, HasPlaces};
ghost use Rattle.dump_job.specs.Elsewhere.{LeavesOthers, LeavesTapes};
ghost use Rattle.dump_job.specs.Stepping.{IsTold, IsAround, Does, Steps};

use crate::answer::StepAnswer;
use crate::beginning::begin_job;
use crate::checking::check_order;
use crate::fault::JobFault;
use crate::fields::{JobFields, Phase};
use crate::order::DumpOrder;
use crate::settling::settle_job;
use crate::stepping::step_fields;
use budb::Budb;
use cell_core::Cell;
use plant_core::{Failed, Plant};
use std::alloc::Global;
use std::marker::Model;
use tape_frames::DumpHeadFields;

/// A dump between two steps. Contracts see what it has in hand. It fits the plant and the database that it was begun on.
pub struct Job {
    fields: JobFields,
    alloc: Global,
}

/// It is written out, as that of what it has in hand is.
impl Drop for Job {
    fn drop(self) {
        let Job { fields, alloc } = self;
    }
}

impl Model for Job {
    ghost use Rattle.dump_job.specs.declared.fields.JobFields.{JobFields};

    ghost Value = { JobFields };

    ghost view = { λ a. a.fields };
}

impl Job {
    /// Gives the refusal that `begin` would give, also for an order without volumes: `NothingToAppend` of a dump that is
    /// appended where no listed dump has its volume set; else `NoTape` where no slot has a tape to take, or the tape to append
    /// to, which is told by its name; else `CapacityTooSmall`, also of a dump that is appended; else `IdsSpent`; else `LogFull`.
    /// Tapes may be loaded; no record and no log is changed.
    pub fn check<P: Plant>(
        alloc: Global,
        budb: &Budb,
        plant: &mut P,
        order: &DumpOrder,
    ) -> Result<(), JobFault>
        requires { P.sound plant.old }
        ensures told { P.tells → (slots : AnyList Slot) (whole : ℕ → Bool) → HasSlots P.Plant slots plant.old → AreWhole P.Plant whole plant.old → Checks (first_tape budb.now.database slots whole order.now (P.view plant.old).log_size) result }
        ensures plant { Searches P.Plant result plant.old plant.new }
    {
        check_order(alloc, budb, plant, order)
    }

    /// Begins a dump of at least one volume: finds the tape on which it begins, which isn't cut yet, and commits its begin, and
    /// with it that the dump set of a tape that it takes is forgotten, as one effect. It is refused as `check` says, and then
    /// nothing is changed but the loaded tape. Memory is refused before anything is written.
    pub fn begin<P: Plant>(
        alloc: Global,
        budb: &mut Budb,
        plant: &mut P,
        order: DumpOrder,
    ) -> Result<Job, JobFault>
        requires sound { P.sound plant.old }
        requires nothing { budb.old.prepared ≡ None }
        requires some { 1 ≤ length order.volumes }
        requires few { length order.volumes ≤ 4294967295 }
        requires cell { IsMaybe IsHost order.cell }
        ensures begun { IfOk result (IsBegun P.Plant order budb.old budb.new plant.old plant.new) }
        ensures fit { IfOk result (λ job. FitsJob P.Plant job plant.new) }
        ensures refused { P.tells → (slots : AnyList Slot) (whole : ℕ → Bool) → HasSlots P.Plant slots plant.old → AreWhole P.Plant whole plant.old → Refuses (first_tape budb.old.database slots whole order (P.view plant.old).log_size) result }
        ensures nothing { budb.new.prepared ≡ None }
        ensures same { OnErr result (budb.new ≡ budb.old) }
        ensures loads { OnErr result (UnlessFailed result (Loads P.Plant plant.old plant.new)) }
        ensures leaves { P.tells → (slots : AnyList Slot) (whole : ℕ → Bool) → HasSlots P.Plant slots plant.old → AreWhole P.Plant whole plant.old → LeavesBehindLoads P.Plant (begin_effects (id_of order budb.old.database) (first_tape budb.old.database slots whole order (P.view plant.old).log_size)) plant.old plant.new }
        ensures stays { StaysQuiet P.Plant plant.old plant.new }
        ensures cause { HasCauseAt JobFault.Failed (P.view plant.old).faults (P.view plant.new).faults result }
    {
        match begin_job(alloc, budb, plant, order) {
            Ok(fields) => Ok(Job { fields, alloc }),
            Err(fault) => Err(fault),
        }
    }

    /// The dump's id, by which it is listed once it is done.
    pub fn id(&self) -> u32
        ensures { result ≡ self.now.head.id }
    {
        self.fields.head.fields().id
    }

    /// The head of the part in hand, or of the last one, which has the dump's volume set, its level and its parent.
    pub fn head(&self) -> &DumpHeadFields
        ensures { result.now ≡ self.now.head }
    {
        self.fields.head.fields()
    }

    /// How many volumes its record has, that in hand among them; none where that is more than 64 bits hold.
    pub fn volume_count(&self) -> Option<u64>
        ensures { MatchOption result (2 ^ 64 ≤ length (volumes_done self.now)) (λ count. count ≡ length (volumes_done self.now)) }
    {
        let ended = self.fields.volumes.len() as u64;
        match &self.fields.hand {
            None => Some(ended),
            Some(_) => ended.checked_add(1),
        }
    }

    /// How many tapes its record has, that in hand among them; none where that is more than 64 bits hold.
    pub fn tape_count(&self) -> Option<u64>
        ensures { MatchOption result (2 ^ 64 ≤ length (all_parts self.now)) (λ count. count ≡ length (all_parts self.now)) }
    {
        let ended = self.fields.filled.len() as u64;
        ended.checked_add(1)
    }

    /// Goes on by one step, which is the next one that `event` says. A step on a tape that isn't loaded loads it first. No step
    /// follows `Done` and `Refused`. At `Memory` and `CellFailed` no step was made, and the dump, the database and what stands
    /// on tapes are as they were.
    pub fn step<P: Plant, C: Cell>(
        &mut self,
        budb: &mut Budb,
        plant: &mut P,
        cell: &mut C,
    ) -> StepAnswer
        requires going { self.old.phase ≢ Phase.Over }
        requires fit { FitsJob P.Plant self.old plant.old }
        requires nothing { budb.old.prepared ≡ None }
        requires places { HasPlaces C.Cell self.old.places cell.old }
        ensures does { (around : Around) → IsAround P.Plant C.Cell around budb.old plant.old cell.old → Does P.Plant (event around self.old) result budb.old budb.new plant.old plant.new self.new }
        ensures elsewhere { P.tells → (slots : AnyList Slot) → HasSlots P.Plant slots plant.old → result ≢ StepAnswer.PlantFailed → LeavesOthers P.Plant plant.old plant.new self.old self.new }
        ensures steps { Steps P.Plant result budb.old budb.new plant.old plant.new self.old self.new }
        ensures nothing { budb.new.prepared ≡ None }
        ensures cell { IsTold StepAnswer.CellFailed (C.faults cell.old) (C.faults cell.new) result }
        ensures list { C.tells → C.list cell.new ≡ C.list cell.old }
        ensures size { C.size cell.new ≡ C.size cell.old }
    {
        step_fields(&mut self.fields, self.alloc, budb, plant, cell)
    }

    /// Settles the tape that the dump cut last, whose records stay, as those of all other tapes do: it is loaded and cut at its
    /// own length. Where it has cut none no call is made. The dump stays as it is, on its port. It takes no memory.
    pub fn settle<P: Plant>(&self, plant: &mut P) -> Result<(), Failed>
        requires { FitsJob P.Plant self.now plant.old }
        ensures nothing { last_cut self.now ≡ None → plant.new ≡ plant.old }
        ensures done { OnOk result (Done P.Plant (settling_last P.Plant (last_cut self.now) plant.old) plant.old plant.new) }
        ensures elsewhere { P.tells → OnOk result (LeavesTapes P.Plant plant.old plant.new) }
        ensures leaves { Leaves P.Plant (settling_last P.Plant (last_cut self.now) plant.old) plant.old plant.new }
        ensures stays { StaysQuiet P.Plant plant.old plant.new }
        ensures cause { HasCause (P.view plant.old).faults (P.view plant.new).faults result }
    {
        settle_job(&self.fields, plant)
    }
}
