// Files and an output in memory.
ghost use Rattle.std.specs.Prelude.{◌≡◌, ◌+◌, ◌<◌, ◌≤◌, ◌^◌, [], ◌∷◌, ℕ, List, length, take, drop, IfOk, OnOk, OnErr, IsTrue, ◌++◌, vec_len, true, false, not, min, ◌-◌, ◌≢◌};
ghost use Rattle.crash_moments.specs.Moments.{Leads, HasCause};
ghost use Rattle.crash_moments.specs.Telling.{ToldPart, in_progress};
ghost use Rattle.media_core.specs.Media.{Image, Holds, Torn, AtFile, Same, Tells, nothing};
ghost use Rattle.media_core.specs.Presence.{is_here};
ghost use Rattle.media_core.specs.Still.{IsStill};
ghost use Rattle.media_core.specs.Reads.{last_told};
ghost use Rattle.media_core.specs.Events.{file_bytes, blank, after, ToldLeft, seen_after, IsLeft, LeftAfter, PickedAfter, Gains, TellsMore};
ghost use Rattle.media_core.specs.Emptied.{NoJournal};
ghost use Rattle.media_core.specs.Plan.{GainsCall, SamePlan, IsUnplanned, one_more, stopped_at};

use crate::bytes::{copy_files, copy_part, empty_files};
use crate::event::{Event, empty_first, empty_in_all, keep_sync, keep_tell, keep_write};
use crate::failures::Failures;
use crate::media::{Failed, Media, Memory};
use crate::plan::Turn;
use crate::replay::{Pick, picked_files};
use std::alloc::Global;

/// Files and an output in memory. What was asked of it is kept, so that each image that a crash may leave is told.
///
/// The calls of `len`, `read`, `write`, `sync` and `tell` are numbered from 0. One of them answers `Failed` exactly where
/// `fail_at` or `stop_at` names it or a growth was refused to it.
#[derive(Drop)]
pub struct MemMedia {
    alloc: Global,
    files: Vec<Vec<u8>>,
    away: Vec<bool>,
    told: Vec<u8>,
    past: Vec<Event>,
    failures: Failures,
    ghost files_kept: { (k : ℕ) → file_bytes files.items k ≡ (seen_after past.items).file k },
    ghost told_kept: { told.items ≡ (seen_after past.items).told },
    ghost same_count: { vec_len away ≡ vec_len files },
    ghost some_files: { 1 ≤ length away.items },
    ghost few_files: { length away.items ≤ 65536 },
    ghost journal: { is_here away.items 0 ≡ true },
    ghost reads_left: { (k : ℕ) → LeftAfter past.items k ((seen_after past.items).file k) },
    ghost told_last: { (seen_after past.items).told ≡ last_told (after past.items blank).told_first (after past.items blank).pieces },
    ghost fronts: { (c : List ℕ) → ToldLeft (after past.items blank) c → c ≡ take (length c) (seen_after past.items).told },
    ghost absent: { (k : ℕ) (c : List ℕ) → length away.items ≤ k → LeftAfter past.items k c → c ≡ [] },
}

impl Media for MemMedia {
    ghost use Rattle.media_core.specs.Presence.{here_below};
    ghost use Rattle.media_core.specs.Reads.{told_is_left};
    ghost use Rattle.media_core.specs.Files.{seen_of, events_of, moments_of, count_of, present_of, faults_of, tell_faults_of, FailsAsPlanned, IsCounted, IsAsked};

    ghost tells = { Unit {0} };

    ghost seen = { seen_of };

    ghost time = { moments_of };

    ghost count = { count_of };

    ghost present = { present_of };

    ghost faults = { faults_of };

    ghost tell_faults = { tell_faults_of };

    ghost some_files = { λ m. m.some_files };

    ghost few_files = { λ m. m.few_files };

    ghost journal_here = { λ m. m.journal };

    ghost here_below = { λ m f. here_below m.away.items f };

    ghost seen_may_be_left = { λ m told. record { files = m.reads_left; told = told_is_left (after m.past.items blank).told_first (after m.past.items blank).pieces (seen_of m).told m.told_last } };

    ghost told_left = { λ m c told left. (length c.told, m.fronts c.told left.told) };

    fn count(&self) -> u32 {
        self.away.len() as u32
    }

    fn here(&self, f: u32) -> bool {
        match self.away.get(f as usize) {
            Some(away) => !*away,
            None => false,
        }
    }

    fn len(&mut self, f: u32) -> Result<u64, Failed>
        requires { IsTrue (present_of self.old f) }
        ensures length { IfOk result (λ n. n ≡ length ((seen_of self.old).file f)) }
        ensures seen { seen_of self.new ≡ seen_of self.old }
        ensures crash { Leads moments_of self.old self.new Same }
        ensures count { count_of self.new ≡ count_of self.old }
        ensures present { present_of self.new ≡ present_of self.old }
        ensures cause { HasCause (faults_of self.old) (faults_of self.new) result }
        ensures tell_faults { tell_faults_of self.new ≡ tell_faults_of self.old }
        ensures asked { events_of self.new ≡ events_of self.old }
        ensures once { OnErr result (faults_of self.new ≡ one_more (faults_of self.old)) }
        ensures counted { FailsAsPlanned self.old self.new result }
    {
        if self.failures.begin() != Turn::Goes {
            return Err(Failed);
        }
        Ok(self.files[f as usize].len() as u64)
    }

    fn read(&mut self, f: u32, at: u64, into: &mut [u8]) -> Result<(), Failed>
        requires here { IsTrue (present_of self.old f) }
        requires within { at + length into.old ≤ length ((seen_of self.old).file f) }
        ensures bytes { OnOk result (into.new ≡ take (length into.old) (drop at ((seen_of self.old).file f))) }
        ensures seen { seen_of self.new ≡ seen_of self.old }
        ensures crash { Leads moments_of self.old self.new Same }
        ensures count { count_of self.new ≡ count_of self.old }
        ensures present { present_of self.new ≡ present_of self.old }
        ensures cause { HasCause (faults_of self.old) (faults_of self.new) result }
        ensures tell_faults { tell_faults_of self.new ≡ tell_faults_of self.old }
        ensures asked { events_of self.new ≡ events_of self.old }
        ensures once { OnErr result (faults_of self.new ≡ one_more (faults_of self.old)) }
        ensures counted { FailsAsPlanned self.old self.new result }
    {
        if self.failures.begin() != Turn::Goes {
            return Err(Failed);
        }
        copy_part(&self.files, f as usize, at as usize, into);
        Ok(())
    }

    fn write(&mut self, f: u32, at: u64, from: &[u8]) -> Result<(), Failed>
        requires here { IsTrue (present_of self.old f) }
        requires at { at ≤ length ((seen_of self.old).file f) }
        requires small { at + length from.now < 2 ^ 62 }
        ensures written { OnOk result (AtFile f (Holds at from.now) (seen_of self.old) (seen_of self.new)) }
        ensures told { (seen_of self.new).told ≡ (seen_of self.old).told }
        ensures crash { Leads moments_of self.old self.new (AtFile f (Torn at (length from.now))) }
        ensures count { count_of self.new ≡ count_of self.old }
        ensures present { present_of self.new ≡ present_of self.old }
        ensures cause { HasCause (faults_of self.old) (faults_of self.new) result }
        ensures tell_faults { tell_faults_of self.new ≡ tell_faults_of self.old }
        ensures asked { IsAsked (Gains (events_of self.old) (events_of self.new) f at from.now) self.old self.new result }
        ensures once { OnErr result (faults_of self.new ≡ one_more (faults_of self.old)) }
        ensures counted { IsCounted self.old self.new result }
    {
        let turn = self.failures.begin();
        if turn == Turn::Fails {
            return Err(Failed);
        }
        match keep_write(self.alloc, &mut self.files, &mut self.past, f, at, from) {
            Ok(()) => {
                if turn == Turn::Stops {
                    return Err(Failed);
                }
                Ok(())
            }
            Err(_) => {
                self.failures.refuse(turn);
                Err(Failed)
            }
        }
    }

    fn sync(&mut self, f: u32) -> Result<(), Failed>
        requires { IsTrue (present_of self.old f) }
        ensures durable { OnOk result (IsStill moments_of seen_of f self.new) }
        ensures seen { seen_of self.new ≡ seen_of self.old }
        ensures crash { Leads moments_of self.old self.new Same }
        ensures count { count_of self.new ≡ count_of self.old }
        ensures present { present_of self.new ≡ present_of self.old }
        ensures cause { HasCause (faults_of self.old) (faults_of self.new) result }
        ensures tell_faults { tell_faults_of self.new ≡ tell_faults_of self.old }
        ensures asked { OnOk result (events_of self.new ≡ events_of self.old ++ Event.Sync f ∷ []) }
        ensures kept { OnErr result (events_of self.new ≡ events_of self.old) }
        ensures once { OnErr result (faults_of self.new ≡ one_more (faults_of self.old)) }
        ensures counted { IsCounted self.old self.new result }
    {
        if self.failures.begin() != Turn::Goes {
            return Err(Failed);
        }
        match keep_sync(&mut self.past, f) {
            Ok(()) => Ok(()),
            Err(_) => {
                self.failures.refuse(Turn::Goes);
                Err(Failed)
            }
        }
    }

    fn tell(&mut self, piece: &[u8]) -> Result<usize, Failed>
        ensures front { IfOk result (λ n. n ≤ length piece.now) }
        ensures some { IfOk result (λ n. n ≡ 0 → length piece.now ≡ 0) }
        ensures told { IfOk result (λ n. (seen_of self.new).told ≡ (seen_of self.old).told ++ take n piece.now) }
        ensures part { OnErr result (ToldPart piece.now (seen_of self.old).told (seen_of self.new).told) }
        ensures files { (seen_of self.new).file ≡ (seen_of self.old).file }
        ensures crash { Leads moments_of self.old self.new (Tells (seen_of self.old).told (in_progress result piece.now)) }
        ensures count { count_of self.new ≡ count_of self.old }
        ensures present { present_of self.new ≡ present_of self.old }
        ensures cause { HasCause (tell_faults_of self.old) (tell_faults_of self.new) result }
        ensures faults { faults_of self.new ≡ faults_of self.old }
        ensures all { IfOk result (λ n. n ≡ length piece.now) }
        ensures asked { IsAsked (TellsMore (events_of self.old) (events_of self.new) piece.now) self.old self.new result }
        ensures once { OnErr result (tell_faults_of self.new ≡ one_more (tell_faults_of self.old)) }
        ensures counted { IsCounted self.old self.new result }
    {
        let turn = self.failures.begin_tell();
        if turn == Turn::Fails {
            return Err(Failed);
        }
        match keep_tell(self.alloc, &mut self.told, &mut self.past, piece) {
            Ok(()) => {
                if turn == Turn::Stops {
                    return Err(Failed);
                }
                Ok(piece.len())
            }
            Err(_) => {
                self.failures.refuse_tell(turn);
                Err(Failed)
            }
        }
    }
}

impl MemMedia {
    ghost use Rattle.media_core.specs.Files.{seen_of, events_of, moments_of, count_of, present_of, faults_of, tell_faults_of, wants_of, plan_of, IsFresh, IsNew, SameButPlan, SameButPresence};

    /// Empty files, all of them here, and nothing told. The number of files is 1 to 65,536.
    pub fn new(alloc: Global, files: u32) -> Result<MemMedia, Memory>
        requires some { 1 ≤ files }
        requires few { files ≤ 65536 }
        ensures count { IfOk result (λ m. count_of m ≡ files) }
        ensures present { IfOk result (λ m. (k : ℕ) → k < files → IsTrue (present_of m k)) }
        ensures seen { IfOk result (λ m. seen_of m ≡ nothing) }
        ensures fresh { IfOk result IsFresh }
        ensures is_new { IfOk result IsNew }
    {
        let away = vec![in alloc; false; files as usize]?;
        Ok(MemMedia {
            alloc,
            files: empty_files(alloc, files)?,
            away,
            told: Vec::new(alloc),
            past: Vec::new(alloc),
            failures: Failures::new(alloc),
        })
    }

    /// Makes the call of that number fail and change nothing. On an error all stays.
    pub fn fail_at(&mut self, call: u64) -> Result<(), Memory>
        ensures ok { OnOk result (GainsCall (plan_of self.old) (plan_of self.new) call) }
        ensures err { OnErr result (SamePlan (plan_of self.old) (plan_of self.new)) }
        ensures rest { SameButPlan self.old self.new }
    {
        self.failures.fail_at(call)?;
        Ok(())
    }

    /// Makes that call and all later ones fail. A `write` or `tell` that is so stopped is in progress: a crash may leave any of
    /// the one, and any front of the other.
    pub fn stop_at(&mut self, call: u64)
        ensures plan { plan_of self.new ≡ stopped_at (plan_of self.old) call }
        ensures rest { SameButPlan self.old self.new }
    {
        self.failures.stop_at(call);
    }

    /// How many growths were refused. Where no failure was planned, the faults of its calls are these alone.
    pub fn wants(&self) -> u64
        ensures wants { result ≡ wants_of self.now }
        ensures alone { IsUnplanned (plan_of self.now) → result ≡ min (faults_of self.now + tell_faults_of self.now) (2 ^ 64 - 1) }
    {
        self.failures.wants()
    }

    /// The output: the bytes that were told, with the piece of a `tell` that was stopped.
    pub fn told(&self) -> &[u8]
        ensures { result.now ≡ (seen_of self.now).told }
    {
        &self.told
    }

    /// Takes a tape's file out.
    pub fn take_out(&mut self, f: u32)
        requires tape { 1 ≤ f }
        requires below { f < count_of self.old }
        ensures away { present_of self.new f ≡ false }
        ensures others { (k : ℕ) → k ≢ f → present_of self.new k ≡ present_of self.old k }
        ensures rest { SameButPresence self.old self.new }
    {
        self.set_away(f, true);
    }

    /// Puts a tape's file back, with the bytes that it had.
    pub fn put_back(&mut self, f: u32)
        requires tape { 1 ≤ f }
        requires below { f < count_of self.old }
        ensures here { present_of self.new f ≡ true }
        ensures others { (k : ℕ) → k ≢ f → present_of self.new k ≡ present_of self.old k }
        ensures rest { SameButPresence self.old self.new }
    {
        self.set_away(f, false);
    }

    /// Changes whether a tape's file is away.
    fn set_away(&mut self, f: u32, away: bool)
        requires tape { 1 ≤ f }
        requires below { f < count_of self.old }
        ensures set { present_of self.new f ≡ not away }
        ensures others { (k : ℕ) → k ≢ f → present_of self.new k ≡ present_of self.old k }
        ensures rest { SameButPresence self.old self.new }
    {
        self.away[f as usize] = away;
    }

    /// Makes file 0 empty, on the disk too.
    pub fn empty_journal(&mut self)
        ensures emptied { NoJournal (events_of self.old) (events_of self.new) }
        ensures count { count_of self.new ≡ count_of self.old }
        ensures present { present_of self.new ≡ present_of self.old }
        ensures plan { plan_of self.new ≡ plan_of self.old }
        ensures faults { faults_of self.new ≡ faults_of self.old }
        ensures tell_faults { tell_faults_of self.new ≡ tell_faults_of self.old }
        ensures wants { wants_of self.new ≡ wants_of self.old }
    {
        empty_first(&mut self.files);
        empty_in_all(&mut self.past);
    }

    /// Files and an output as they are found at a start, all of it on the disk.
    fn opened(
        alloc: Global,
        files: Vec<Vec<u8>>,
        away: Vec<bool>,
        told: Vec<u8>,
    ) -> Result<MemMedia, Memory>
        requires same_count { vec_len away ≡ vec_len files }
        requires some_files { 1 ≤ length away.items }
        requires few_files { length away.items ≤ 65536 }
        requires journal { is_here away.items 0 ≡ true }
        ensures files { IfOk result (λ m. (k : ℕ) → (seen_of m).file k ≡ file_bytes files.items k) }
        ensures told { IfOk result (λ m. (seen_of m).told ≡ told.items) }
        ensures fresh { IfOk result IsFresh }
        ensures away { IfOk result (λ m. m.away ≡ away) }
        ensures is_new { IfOk result IsNew }
    {
        let copy = copy_files(alloc, &files)?;
        let told_copy = told.to_vec(alloc)?;
        let mut past = Vec::new(alloc);
        past.push(Event::Opened(copy, told_copy))?;
        Ok(MemMedia {
            alloc,
            files,
            away,
            told,
            past,
            failures: Failures::new(alloc),
        })
    }

    /// The files after a crash, as the pick makes them: one of the images that it may have left. What was told is kept.
    /// Nothing is planned any more, and its counts begin at 0.
    pub fn reopen(self, pick: Pick) -> Result<MemMedia, Memory>
        ensures left { IfOk result (λ m. IsLeft (events_of self) (seen_of m)) }
        ensures picked { IfOk result (λ m. (k : ℕ) → PickedAfter pick (events_of self) k ((seen_of m).file k)) }
        ensures told { IfOk result (λ m. (seen_of m).told ≡ (seen_of self).told) }
        ensures fresh { IfOk result IsFresh }
        ensures count { IfOk result (λ m. count_of m ≡ count_of self) }
        ensures present { IfOk result (λ m. (k : ℕ) → present_of m k ≡ present_of self k) }
        ensures is_new { IfOk result IsNew }
    {
        let files = picked_files(self.alloc, &self.past, pick, self.away.len())?;
        let MemMedia {
            alloc,
            away,
            told,
            ..
        } = self;
        let media = MemMedia::opened(alloc, files, away, told)?;
        Ok(media)
    }
}
