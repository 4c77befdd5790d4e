//! The end of a part with what is committed behind it, and the dump end step.

ghost use Rattle.std.specs.Prelude.{◌≡◌, ◌≢◌, ◌≤◌, [], ◌∷◌, false, Ok, Some, None, Err, IfOk, IfSome, IsSome, All, length};
ghost use Rattle.budb.specs.Views.{prepared_of};
ghost use Rattle.budb_changes.specs.Dumps.{IsNamed};
ghost use Rattle.tape_writer.specs.Room.{HasRoom};
ghost use Rattle.dump_job.specs.Reels.{records_on, with_more, counts_on, IsOn};
ghost use Rattle.dump_job.specs.Ending.{part_end_items, all_parts};
ghost use Rattle.dump_job.specs.Cloning.{volumes_done};
ghost use Rattle.dump_job.specs.Closing.{done_changes, HasEnded, Commits, Closes, Makes, dump_ended};

use crate::changes::with_change;
use crate::ending::{dump_record, end_part};
use crate::fields::{JobFields, Phase};
use bk_text::List;
use budb::{Budb, CommitFault, PreparedFault};
use budb_journal::Change;
use plant_core::Plant;
use std::alloc::{AllocError, Global};

/// Commits the changes that are prepared. It takes no memory.
fn commit_rest<P: Plant>(budb: &mut Budb, plant: &mut P) -> Result<bool, CommitFault>
    requires sound { P.sound plant.old }
    requires prepared { IsSome budb.old.prepared }
    requires some { prepared_of budb.old ≢ [] }
    ensures plant { Commits P.Plant (prepared_of budb.old) result plant.old plant.new }
    ensures database { Makes P.Plant (prepared_of budb.old) result budb.old budb.new plant.old plant.new }
{
    match budb.commit_prepared(plant) {
        Ok(()) => Ok(true),
        Err(PreparedFault::LogFull { length }) => Err(CommitFault::LogFull { length }),
        Err(PreparedFault::Failed) => Err(CommitFault::Failed),
    }
}

/// Puts the end of the part in hand and a filemark, and commits behind them the changes that are prepared. It takes no memory.
fn end_and_commit<P: Plant>(
    job: &mut JobFields,
    budb: &mut Budb,
    plant: &mut P,
    more: u32,
) -> Result<bool, CommitFault>
    requires fit { IsOn P.Plant job.old.reel.slot (records_on job.old.reel) plant.old }
    requires marks { job.old.reel.marks ≤ job.old.reel.blocks }
    requires room { HasRoom 1 1 (counts_on job.old.port job.old.reel) }
    requires more { more ≤ 1 }
    requires prepared { IsSome budb.old.prepared }
    requires some { prepared_of budb.old ≢ [] }
    ensures moved { HasEnded result → job.new ≡ record job.old { reel = with_more 1 1 job.old.reel } }
    ensures same { result ≡ Ok false → job.new ≡ job.old }
    ensures never { result ≢ Err CommitFault.Memory }
    ensures fit { HasEnded result → IsOn P.Plant job.old.reel.slot (records_on (with_more 1 1 job.old.reel)) plant.new }
    ensures plant { Closes P.Plant job.old.reel.slot (part_end_items more job.old) (prepared_of budb.old) result plant.old plant.new }
    ensures database { Makes P.Plant (prepared_of budb.old) result budb.old budb.new plant.old plant.new }
{
    match end_part(job, plant, more) {
        Ok(true) => commit_rest(budb, plant),
        Ok(false) => {
            budb.unprepare();
            Ok(false)
        }
        Err(_) => {
            budb.unprepare();
            Err(CommitFault::Failed)
        }
    }
}

/// Puts the end of the part in hand and a filemark. Nothing is committed.
fn end_alone<P: Plant>(job: &mut JobFields, plant: &mut P, more: u32) -> Result<bool, CommitFault>
    requires fit { IsOn P.Plant job.old.reel.slot (records_on job.old.reel) plant.old }
    requires marks { job.old.reel.marks ≤ job.old.reel.blocks }
    requires room { HasRoom 1 1 (counts_on job.old.port job.old.reel) }
    requires more { more ≤ 1 }
    ensures moved { HasEnded result → job.new ≡ record job.old { reel = with_more 1 1 job.old.reel } }
    ensures same { result ≡ Ok false → job.new ≡ job.old }
    ensures never { result ≢ Err CommitFault.Memory }
    ensures fit { HasEnded result → IsOn P.Plant job.old.reel.slot (records_on (with_more 1 1 job.old.reel)) plant.new }
    ensures plant { Closes P.Plant job.old.reel.slot (part_end_items more job.old) [] result plant.old plant.new }
{
    match end_part(job, plant, more) {
        Ok(there) => Ok(there),
        Err(_) => Err(CommitFault::Failed),
    }
}

/// Puts the end of the part in hand and a filemark, and commits changes behind them, where there are some. Memory is refused
/// before anything is put, and then nothing is changed.
pub(crate) fn close<P: Plant>(
    job: &mut JobFields,
    budb: &mut Budb,
    plant: &mut P,
    more: u32,
    changes: &[Change],
) -> Result<bool, CommitFault>
    requires fit { IsOn P.Plant job.old.reel.slot (records_on job.old.reel) plant.old }
    requires marks { job.old.reel.marks ≤ job.old.reel.blocks }
    requires room { HasRoom 1 1 (counts_on job.old.port job.old.reel) }
    requires more { more ≤ 1 }
    requires nothing { budb.old.prepared ≡ None }
    ensures moved { HasEnded result → job.new ≡ record job.old { reel = with_more 1 1 job.old.reel } }
    ensures same { result ≡ Ok false → job.new ≡ job.old }
    ensures memory_job { result ≡ Err CommitFault.Memory → job.new ≡ job.old }
    ensures fit { HasEnded result → IsOn P.Plant job.old.reel.slot (records_on (with_more 1 1 job.old.reel)) plant.new }
    ensures plant { Closes P.Plant job.old.reel.slot (part_end_items more job.old) changes.now result plant.old plant.new }
    ensures database { Makes P.Plant changes.now result budb.old budb.new plant.old plant.new }
{
    if changes.is_empty() {
        return end_alone(job, plant, more);
    }
    match budb.prepare(changes) {
        Ok(()) => end_and_commit(job, budb, plant, more),
        Err(_) => Err(CommitFault::Memory),
    }
}

/// The change that lists the dump, once the part in hand is its last one.
fn done_changes(alloc: Global, job: &JobFields) -> Result<List<Change>, AllocError>
    requires marks { job.now.reel.marks ≤ job.now.reel.blocks }
    requires room { HasRoom 1 1 (counts_on job.now.port job.now.reel) }
    requires frags { IfSome job.now.hand (λ h. length h.frags ≤ 65534) }
    requires parts { length (all_parts job.now) ≤ 65535 }
    requires named { All IsNamed (all_parts job.now) }
    requires volumes { length (volumes_done job.now) ≤ 4294967295 }
    ensures { IfOk result (λ changes. changes ≡ done_changes job.now) }
{
    let dump = dump_record(alloc, job)?;
    with_change(List::new(alloc), Change::Done(dump))
}

/// No step is left of a dump whose last part was ended.
fn pass_over(job: &mut JobFields, ended: &Result<bool, CommitFault>)
    ensures over { HasEnded ended.now → job.new ≡ record job.old { phase = Phase.Over } }
    ensures same { ended.now ≡ Ok false → job.new ≡ job.old }
    ensures memory { ended.now ≡ Err CommitFault.Memory → job.new ≡ job.old }
{
    match ended {
        Ok(true) => job.phase = Phase::Over,
        Ok(false) => {}
        Err(CommitFault::LogFull { .. }) => job.phase = Phase::Over,
        Err(CommitFault::Failed) => {}
        Err(CommitFault::Memory) => {}
    }
}

/// Ends the dump: its record is prepared, its last part is ended, and then its record is committed, by which it is listed.
/// Where the log would be too long the dump stands whole on its tapes and isn't listed. Memory is refused before anything is
/// put, and then nothing is changed.
pub(crate) fn dump_end_step<P: Plant>(
    job: &mut JobFields,
    alloc: Global,
    budb: &mut Budb,
    plant: &mut P,
) -> Result<bool, CommitFault>
    requires fit { IsOn P.Plant job.old.reel.slot (records_on job.old.reel) plant.old }
    requires marks { job.old.reel.marks ≤ job.old.reel.blocks }
    requires room { HasRoom 1 1 (counts_on job.old.port job.old.reel) }
    requires frags { IfSome job.old.hand (λ h. length h.frags ≤ 65534) }
    requires parts { length (all_parts job.old) ≤ 65535 }
    requires named { All IsNamed (all_parts job.old) }
    requires volumes { length (volumes_done job.old) ≤ 4294967295 }
    requires nothing { budb.old.prepared ≡ None }
    ensures moved { HasEnded result → job.new ≡ dump_ended job.old }
    ensures same { result ≡ Ok false → job.new ≡ job.old }
    ensures memory { result ≡ Err CommitFault.Memory → job.new ≡ job.old }
    ensures fit { HasEnded result → IsOn P.Plant job.old.reel.slot (records_on (with_more 1 1 job.old.reel)) plant.new }
    ensures plant { Closes P.Plant job.old.reel.slot (part_end_items 0 job.old) (done_changes job.old) result plant.old plant.new }
    ensures database { Makes P.Plant (done_changes job.old) result budb.old budb.new plant.old plant.new }
{
    let changes = match done_changes(alloc, job) {
        Ok(changes) => changes,
        Err(_) => return Err(CommitFault::Memory),
    };
    let ended = close(job, budb, plant, 0, changes.as_slice());
    pass_over(job, &ended);
    ended
}
