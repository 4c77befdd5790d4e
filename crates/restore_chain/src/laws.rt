//! What plans are to archives, as contracts of functions without a body.

ghost use Rattle.std.specs.Prelude.{◌≡◌, ◌≢◌, ℕ, List as AnyList, Option as AnyOption, Result as AnyResult, map, Some, None, Ok, Err};
ghost use Rattle.plant_core.specs.Crashes.{State};
ghost use Rattle.plant_core.specs.Effects.{come, settles};
ghost use Rattle.plant_core.specs.Stock.{Stock};
ghost use Rattle.vnode_model.specs.declared.volumes.VolumeFields.{VolumeFields as AnyVolume};
ghost use Rattle.budb_changes.specs.declared.records.DumpRecordFields.{DumpRecordFields as AnyDump};
ghost use Rattle.budb_fold.specs.Lookups.{VolumeDump, latest};
ghost use Rattle.budb_fold.specs.Chains.{HaveParentsBelow};
ghost use Rattle.tape_scan.specs.Slots.{Slot};
ghost use Rattle.archive_model.specs.Plays.{records_of};
ghost use Rattle.archive_model.specs.Archives.{Archive, Refusal, Holds, listed_of, LooksUp};
ghost use Rattle.archive_model.specs.Clones.{Cloned, AreWritten, last_of};
ghost use Rattle.restore_chain.specs.declared.chain_plan.ChainPlan.{ChainPlan as AnyPlan};
ghost use Rattle.restore_chain.specs.declared.fault.RestoreFault.{RestoreFault as AnyFault};
ghost use Rattle.restore_chain.specs.declared.fault.RestoreFault.TheVariants as faults;
ghost use Rattle.restore_chain.specs.Planning.{Plans, IsDecided, refusal_of, LeadsTo};
ghost use Rattle.restore_chain.specs.Answers.{looked_up};
ghost use Rattle.restore_chain.specs.Restoring.{IsPlanOf, PlaysPlan, RestoresFrom};

/// A plan is refused as the look-up of its archive is, whatever archive has that log and those slots: where no dump is listed,
/// where a dump of the chain is missing, and where a tape is.
pub fn a_refused_plan_is_a_refused_look_up()
    ensures { (a : Archive) (name : AnyList ℕ) (before : AnyOption ℕ) (fault : AnyFault) (refusal : Refusal)
        → refusal_of fault ≡ Some refusal → Plans a.slots (listed_of a) name before (Err fault) → LooksUp a name before (Err refusal) }
{}

/// Where there is a plan the look-up gives the contents of the latest dump, whatever they are.
pub fn a_plan_leads_to_the_contents()
    ensures { (a : Archive) (name : AnyList ℕ) (before : AnyOption ℕ) (plan : AnyPlan) → Plans a.slots (listed_of a) name before (Ok plan) → LeadsTo a name before plan }
{}

/// Where each parent lies below its dump, as in the database of every log, a plan has one answer, unless the outside refuses or
/// memory runs out: so each answer comes exactly where its cause stands.
pub fn a_plan_has_one_answer()
    ensures { (slots : AnyList Slot) (listed : AnyList AnyDump) (name : AnyList ℕ) (before : AnyOption ℕ) (x y : AnyResult AnyPlan AnyFault)
        → HaveParentsBelow listed → IsDecided x → IsDecided y → Plans slots listed name before x → Plans slots listed name before y → x ≡ y }
{}

/// A tape that is put away keeps its records, and the log and what was told stand: so what a plan does changes nothing of what
/// is read.
pub fn what_is_put_away_is_read_as_before()
    ensures tapes { (away : AnyList ℕ) (s : State) → (come (map settles away) s).tape ≡ s.tape }
    ensures log { (away : AnyList ℕ) (s : State) → (come (map settles away) s).log ≡ s.log }
    ensures told { (away : AnyList ℕ) (s : State) → (come (map settles away) s).told ≡ s.told }
{}

/// Where each parent lies below its dump, as in the database of every log, a look-up answers what is computed, and nothing else.
pub fn a_look_up_is_computed()
    ensures is { (a : Archive) (name : AnyList ℕ) (before : AnyOption ℕ) → HaveParentsBelow (listed_of a) → LooksUp a name before (looked_up a name before) }
    ensures only { (a : Archive) (name : AnyList ℕ) (before : AnyOption ℕ) (outcome : AnyResult AnyVolume Refusal) → HaveParentsBelow (listed_of a) → LooksUp a name before outcome → outcome ≡ looked_up a name before }
{}

/// What `plan` gives may be played.
pub fn a_plan_may_be_played()
    ensures { (slots : AnyList Slot) (listed : AnyList AnyDump) (name : AnyList ℕ) (before : AnyOption ℕ) (plan : AnyPlan) → Plans slots listed name before (Ok plan) → IsPlanOf slots listed plan }
{}

/// A play of a plan has one answer, unless the outside refuses or memory runs out: so each answer comes exactly where its cause
/// stands.
pub fn a_played_plan_has_one_answer()
    ensures { (slots : AnyList Slot) (listed : AnyList AnyDump) (plan : AnyPlan) (x y : AnyResult AnyVolume AnyFault)
        → x ≢ Err faults.Failed → x ≢ Err faults.Memory → y ≢ Err faults.Failed → y ≢ Err faults.Memory
        → PlaysPlan slots listed plan x → PlaysPlan slots listed plan y → x ≡ y }
{}

/// In an archive that is held a restore is one look-up: what playing the plan of a name before a time answers is what the look-up
/// gives, contents or refusal.
pub fn what_is_planned_and_played_is_looked_up()
    ensures { (stock : Stock) (a : Archive) (records : AnyList AnyDump) → Holds stock a records
        → (name : AnyList ℕ) (before : AnyOption ℕ) (plan : AnyPlan) (result : AnyResult AnyVolume AnyFault)
        → Plans a.slots (listed_of a) name before (Ok plan) → PlaysPlan a.slots (listed_of a) plan result → RestoresFrom a name before result }
{}

/// Dumps that were written of clones, each over dumps that were, play to the last clone: no play of them has a fault.
pub fn what_was_written_is_restored()
    ensures { (slots : AnyList Slot) (listed : AnyList AnyDump) (plan : AnyPlan) (clones : AnyList Cloned) (last : AnyVolume) (result : AnyResult AnyVolume AnyFault)
        → AreWritten slots plan.name None (records_of listed plan.dumps) clones → last_of None clones ≡ Some last
        → PlaysPlan slots listed plan result → result ≢ Err faults.Failed → result ≢ Err faults.Memory → result ≡ Ok last }
{}

/// In an archive that is held a dump has its clone back, where that is its contents: a plan that `plan` gave of a name before a time,
/// whose latest dump it is, is played to the clone. No play of it has a fault.
pub fn a_dump_with_its_clone_is_played()
    ensures { (stock : Stock) (a : Archive) (records : AnyList AnyDump) → Holds stock a records
        → (name : AnyList ℕ) (before : AnyOption ℕ) (one : VolumeDump) (clone : AnyVolume)
        → latest (listed_of a) name before ≡ Some one → a.contents one.dump.id one.volume.name ≡ Ok clone
        → (plan : AnyPlan) (result : AnyResult AnyVolume AnyFault)
        → Plans a.slots (listed_of a) name before (Ok plan) → PlaysPlan a.slots (listed_of a) plan result
        → result ≢ Err faults.Failed → result ≢ Err faults.Memory → result ≡ Ok clone }
{}
