//! The database: what the changes of a plant's log make, and the changes that are prepared.

ghost use Rattle.std.specs.Prelude.{◌≡◌, ◌≢◌, ◌⊎◌, ◌+◌, ◌<◌, ◌++◌, [], ◌∷◌, ℕ, List as AnyList, length, map, Some, None, is_some, IsSome, Err, IfOk, OnOk, OnErr};
ghost use Rattle.std.specs.Option.{option_copied};
ghost use Rattle.crash_moments.specs.Moments.{HasCauseAt};
ghost use Rattle.plant_core.specs.Effects.{commits};
ghost use Rattle.plant_effects.specs.Runs.{state_of, Done, Leaves, OnlyLooks, SameTape, SameNumbers, StaysQuiet};
ghost use Rattle.budb_changes.specs.declared.change.Change.{Change as AnyChange};
ghost use Rattle.budb_changes.specs.Bytes.{encoded};
ghost use Rattle.budb_changes.specs.Forms.{AreChanges};
ghost use Rattle.budb_fold.specs.Database.{after, after_from};
ghost use Rattle.budb_fold.specs.Lookups.{record_of};
ghost use Rattle.budb.specs.Views.{prepared_of};
ghost use Rattle.budb.specs.Kept.{Keeps, Opens, UnlessFailed};

use crate::appending::append_bytes;
use crate::copies::{Behind, copy_of};
use crate::fault::{BudbFault, CommitFault, PreparedFault};
use crate::folding::fold_indexed;
use crate::prepared::{Prepared, move_in, take_ready};
use bk_text::List;
use budb_index::{Index, find};
use budb_journal::{Change, Database, DumpRecord, HostPort, ReplayFault, replay};
use dump_levels::Levels;
use plant_core::Plant;
use std::alloc::{AllocError, Global};
use std::marker::Model;
use volume_sets::Sets;

/// The Backup Database of a plant's log. Contracts see it as the database that the log's changes make, and the changes that
/// are prepared, where some are.
pub struct Budb {
    database: Database,
    index: Index,
    prepared: Option<Prepared>,
    behind: Option<Behind>,
}

/// It is written out, so that who lets a database go calls it: derived, it would be proved once more at each such place.
impl Drop for Budb {
    fn drop(self) {
        let Budb {
            database,
            index,
            prepared,
            behind,
        } = self;
    }
}

impl Model for Budb {
    ghost use Rattle.std.specs.Prelude.{IfSome};
    ghost use Rattle.budb.specs.Views.{BudbView, changes_of, IsKept};

    ghost Value = { BudbView };

    ghost view = { λ a. record { database = a.database; prepared = changes_of a.prepared } };

    ghost invariant = { λ a. IsKept a.database a.index a.prepared a.behind };
}

impl Budb {
    /// The database that changes make, with nothing prepared.
    fn of_changes(alloc: Global, changes: List<Change>) -> Result<Budb, AllocError>
        ensures { IfOk result (λ budb. budb ≡ record { database = after changes; prepared = None }) }
    {
        let (database, index) = fold_indexed(alloc, changes)?;
        Ok(Budb {
            database,
            index,
            prepared: None,
            behind: None,
        })
    }

    /// Opens the database of a plant's log. Nothing is written, and nothing is prepared.
    pub fn open<P: Plant>(alloc: Global, plant: &mut P) -> Result<Budb, BudbFault>
        requires { P.sound plant.old }
        ensures opened { P.tells → Opens (state_of P.Plant plant.old).log result }
        ensures nothing { IfOk result (λ budb. budb.prepared ≡ None) }
        ensures done { UnlessFailed result (Done P.Plant [] plant.old plant.new) }
        ensures leaves { Leaves P.Plant [] plant.old plant.new }
        ensures looks { OnlyLooks P.Plant plant.old plant.new }
        ensures numbers { UnlessFailed result (SameNumbers P.Plant plant.old plant.new) }
        ensures stays { StaysQuiet P.Plant plant.old plant.new }
        ensures cause { HasCauseAt BudbFault.Failed (P.view plant.old).faults (P.view plant.new).faults result }
    {
        match replay(alloc, plant) {
            Ok(changes) => match Budb::of_changes(alloc, changes) {
                Ok(budb) => Ok(budb),
                Err(_) => Err(BudbFault::Memory),
            },
            Err(ReplayFault::BadChange { at }) => Err(BudbFault::BadLog { at }),
            Err(ReplayFault::Failed) => Err(BudbFault::Failed),
            Err(ReplayFault::Memory) => Err(BudbFault::Memory),
        }
    }

    /// Whether changes are prepared, be it none of them.
    pub fn is_prepared(&self) -> bool
        ensures { result ≡ is_some self.now.prepared }
    {
        self.prepared.is_some()
    }

    /// Prepares changes: takes all the memory that a commit of them needs. Log and database stay. An empty list counts as
    /// prepared too. Where memory is refused all is as it was.
    pub fn prepare(&mut self, changes: &[Change]) -> Result<(), AllocError>
        requires { self.old.prepared ≡ None }
        ensures prepared { OnOk result (self.new.prepared ≡ Some changes.now) }
        ensures form { OnOk result (AreChanges changes.now) }
        ensures database { self.new.database ≡ self.old.database }
        ensures err { OnErr result (self.new ≡ self.old) }
    {
        let alloc = self.database.sets.allocator();
        let coming = self.index.prepare(alloc, changes)?;
        let copy = copy_of(&self.database, &mut self.behind)?;
        let prepared = Prepared::new(copy, changes, coming)?;
        self.prepared = Some(prepared);
        Ok(())
    }

    /// Drops the changes that are prepared, where some are. Log and database stay. It takes no memory.
    pub fn unprepare(&mut self)
        ensures nothing { self.new.prepared ≡ None }
        ensures database { self.new.database ≡ self.old.database }
    {
        self.prepared = None;
    }

    /// Commits the prepared changes as one effect: a crash that the plant survives leaves the old log, or the old log with
    /// all of them behind it. It takes no memory. Whatever it answers, nothing is prepared afterwards.
    pub fn commit_prepared<P: Plant>(&mut self, plant: &mut P) -> Result<(), PreparedFault>
        requires sound { P.sound plant.old }
        requires prepared { IsSome self.old.prepared }
        ensures nothing { self.new.prepared ≡ None }
        ensures form { AreChanges (prepared_of self.old) }
        ensures made { OnOk result (self.new.database ≡ after_from (prepared_of self.old) self.old.database) }
        ensures same { OnErr result (self.new.database ≡ self.old.database) }
        ensures keeps { P.tells → (log : AnyList AnyChange) → Keeps log (state_of P.Plant plant.old).log self.old → OnOk result (Keeps (log ++ prepared_of self.old) (state_of P.Plant plant.new).log self.new) }
        ensures full { (n : ℕ) → result ≡ Err (PreparedFault.LogFull n) → (268435456 < n) × (n ≡ (P.view plant.old).log_size + length (encoded (prepared_of self.old))) }
        ensures only_full { 268435456 < (P.view plant.old).log_size + length (encoded (prepared_of self.old)) → result ≡ Err (PreparedFault.LogFull ((P.view plant.old).log_size + length (encoded (prepared_of self.old)))) }
        ensures over_same { 268435456 < (P.view plant.old).log_size + length (encoded (prepared_of self.old)) → plant.new ≡ plant.old }
        ensures done { OnOk result (Done P.Plant (commits (encoded (prepared_of self.old)) ∷ []) plant.old plant.new) }
        ensures leaves { Leaves P.Plant (commits (encoded (prepared_of self.old)) ∷ []) plant.old plant.new }
        ensures size { OnOk result ((P.view plant.new).log_size ≡ (P.view plant.old).log_size + length (encoded (prepared_of self.old))) }
        ensures tape { OnOk result (SameTape P.Plant plant.old plant.new) }
        ensures stays { StaysQuiet P.Plant plant.old plant.new }
        ensures cause { HasCauseAt PreparedFault.Failed (P.view plant.old).faults (P.view plant.new).faults result }
    {
        let prepared = take_ready(&self.database, &self.index, &mut self.prepared);
        append_bytes(plant, prepared.bytes.as_slice())?;
        move_in(
            &mut self.database,
            &mut self.index,
            &mut self.behind,
            prepared,
        );
        Ok(())
    }

    /// Prepares changes and commits them. Memory is refused before anything is written.
    pub fn commit<P: Plant>(&mut self, plant: &mut P, changes: &[Change]) -> Result<(), CommitFault>
        requires sound { P.sound plant.old }
        requires nothing { self.old.prepared ≡ None }
        ensures nothing { self.new.prepared ≡ None }
        ensures form { OnOk result (AreChanges changes.now) }
        ensures error_form { OnErr result (result ≢ Err CommitFault.Memory → AreChanges changes.now) }
        ensures made { OnOk result (self.new.database ≡ after_from changes.now self.old.database) }
        ensures same { OnErr result (self.new ≡ self.old) }
        ensures keeps { P.tells → (log : AnyList AnyChange) → Keeps log (state_of P.Plant plant.old).log self.old → OnOk result (Keeps (log ++ changes.now) (state_of P.Plant plant.new).log self.new) }
        ensures full { (n : ℕ) → result ≡ Err (CommitFault.LogFull n) → (268435456 < n) × (n ≡ (P.view plant.old).log_size + length (encoded changes.now)) }
        ensures only_full { 268435456 < (P.view plant.old).log_size + length (encoded changes.now) → (result ≡ Err (CommitFault.LogFull ((P.view plant.old).log_size + length (encoded changes.now)))) ⊎ (result ≡ Err CommitFault.Memory) }
        ensures over_same { 268435456 < (P.view plant.old).log_size + length (encoded changes.now) → plant.new ≡ plant.old }
        ensures memory_same { result ≡ Err CommitFault.Memory → plant.new ≡ plant.old }
        ensures done { OnOk result (Done P.Plant (commits (encoded changes.now) ∷ []) plant.old plant.new) }
        ensures leaves { Leaves P.Plant (commits (encoded changes.now) ∷ []) plant.old plant.new }
        ensures size { OnOk result ((P.view plant.new).log_size ≡ (P.view plant.old).log_size + length (encoded changes.now)) }
        ensures tape { OnOk result (SameTape P.Plant plant.old plant.new) }
        ensures stays { StaysQuiet P.Plant plant.old plant.new }
        ensures cause { HasCauseAt CommitFault.Failed (P.view plant.old).faults (P.view plant.new).faults result }
    {
        match self.prepare(changes) {
            Ok(()) => {}
            Err(_) => return Err(CommitFault::Memory),
        }
        match self.commit_prepared(plant) {
            Ok(()) => Ok(()),
            Err(PreparedFault::LogFull { length }) => Err(CommitFault::LogFull { length }),
            Err(PreparedFault::Failed) => Err(CommitFault::Failed),
        }
    }

    /// What the changes of the log make.
    pub fn database(&self) -> &Database
        ensures { result.now ≡ self.now.database }
    {
        &self.database
    }

    /// The index of the listed dumps.
    pub(crate) fn index(&self) -> &Index
        ensures { result.now.listed ≡ self.now.database.listed }
    {
        &self.index
    }

    /// The listed dump of this id.
    pub fn record(&self, id: u32) -> Option<&DumpRecord>
        ensures { option_copied result ≡ record_of self.now.database.listed id }
    {
        find(&self.index, id)
    }

    /// The ids of the listed dumps, in the order of recording.
    pub fn ids(&self) -> Result<List<u32>, AllocError>
        ensures { IfOk result (λ ids. ids ≡ map (λ dump. dump.id) self.now.database.listed) }
    {
        let listed = self.database.listed.as_slice();
        let mut ids = List::new(self.database.sets.allocator());
        for dump in listed {
            ids.push(dump.fields().id)?;
        }
        Ok(ids)
    }

    /// The greatest id that was begun or recorded; 0 where none was.
    pub fn greatest_begun(&self) -> u32
        ensures { result ≡ self.now.database.greatest }
    {
        self.database.greatest
    }

    /// The volume sets, in the order of adding.
    pub fn sets(&self) -> &Sets
        ensures { result.now ≡ self.now.database.sets }
    {
        &self.database.sets
    }

    /// The dump levels, in the order of adding.
    pub fn levels(&self) -> &Levels
        ensures { result.now ≡ self.now.database.levels }
    {
        &self.database.levels
    }

    /// The tape hosts, in the order of adding.
    pub fn hosts(&self) -> &[HostPort]
        ensures { result.now ≡ self.now.database.hosts }
    {
        self.database.hosts.as_slice()
    }
}
