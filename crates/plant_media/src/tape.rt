// The loaded tape: the log of its file, cut into records.
ghost use Rattle.std.specs.Prelude.{◌≡◌, ◌+◌, ◌*◌, ◌/◌, ◌^◌, ◌<◌, ◌≤◌, ◌++◌, [], ◌∷◌, List, ℕ, length, take, OnOk, IfOk, IsTrue, Bool, true, false};
ghost use Rattle.crash_moments.specs.Moments.{Leads, HasCause};
ghost use Rattle.media_core.specs.Media.{Image, AtFile, Same};
ghost use Rattle.crash_log.specs.Log.{HasLog, Any};
ghost use Rattle.crash_log.specs.Fit.{IsStill};
ghost use Rattle.plant_core.specs.Records.{NoBad, ShowsAt, ShowsFirst, block_with, mark};
ghost use Rattle.plant_media.specs.Records.{record_of, count_of};
ghost use Rattle.plant_media.specs.Stock.{tape_of, SameTape, TapeOr};
ghost use Rattle.crash_log.specs.CrashLog.{file_of, limit_of, length_of, settled_of, damaged_of, log_bytes, settled_log, FitsIts, Survives, IsNow};

use crash_log::{CrashLog, PutFault};
use media_core::{Failed, Media};
use plant_core::{Block, Kind};

/// The slot of the loaded tape, its log, how many records it has with those that were put, and how many of them are
/// settled.
#[derive(Drop)]
pub struct Tape {
    pub slot: u32,
    pub log: CrashLog,
    pub records: u32,
    pub settled: u32,
}

/// How many records so many bytes have.
fn record_count(bytes: u64) -> u32
    requires { bytes ≤ 2 ^ 38 }
    ensures { result ≡ count_of bytes }
{
    ((bytes + 16384) / 16385) as u32
}

/// Puts bytes for which a log has room.
fn append<M: Media>(log: &mut CrashLog, media: &mut M, bytes: &[u8]) -> Result<(), Failed>
    requires here { IsTrue (M.present media.old (file_of log.old)) }
    requires room { length_of log.old + length bytes.now ≤ limit_of log.old }
    requires fits { M.tells → FitsIts M.seen log.old media.old }
    ensures log { OnOk result (IsNow log.old (length_of log.old + length bytes.now) (settled_of log.old) log.new) }
    ensures fits { M.tells → OnOk result (FitsIts M.seen log.new media.new) }
    ensures survives { M.tells → Survives M.time M.seen log.old media.old → OnOk result (Survives M.time M.seen log.new media.new) }
    ensures bytes { M.tells → OnOk result (log_bytes log.new ((M.seen media.new).file (file_of log.old)) ≡ log_bytes log.old ((M.seen media.old).file (file_of log.old)) ++ bytes.now) }
    ensures settled { M.tells → OnOk result (settled_log log.new ((M.seen media.new).file (file_of log.old)) ≡ settled_log log.old ((M.seen media.old).file (file_of log.old))) }
    ensures frame { M.tells → OnOk result (AtFile (file_of log.old) Any (M.seen media.old) (M.seen media.new)) }
    ensures told { M.tells → (M.seen media.new).told ≡ (M.seen media.old).told }
    ensures crash { M.tells → Survives M.time M.seen log.old media.old → Leads M.time media.old media.new (AtFile (file_of log.old) (HasLog (settled_log log.old ((M.seen media.old).file (file_of log.old))))) }
    ensures count { M.count media.new ≡ M.count media.old }
    ensures present { M.present media.new ≡ M.present media.old }
    ensures cause { HasCause (M.faults media.old) (M.faults media.new) result }
    ensures tell_faults { M.tell_faults media.new ≡ M.tell_faults media.old }
{
    match log.put(media, bytes) {
        Ok(()) => Ok(()),
        Err(PutFault::Failed) => Err(Failed),
        Err(PutFault::LogFull) => unreachable!(),
    }
}

impl Tape {
    ghost use Rattle.plant_media.specs.Loaded.{tape_in, TapeFits, TapeSurvives};

    /// The tape of a slot that is here. Its file is only read.
    pub fn open<M: Media>(media: &mut M, slot: u32) -> Result<Tape, Failed>
        requires slot { slot < 65535 }
        requires here { IsTrue (M.present media.old (slot + 1)) }
        ensures fits { IfOk result (λ tape. TapeFits M.tells M.seen M.present tape media.new) }
        ensures survives { M.tells → IsStill M.time M.seen (slot + 1) media.old → IfOk result (λ tape. TapeSurvives M.tells M.time M.seen M.present tape media.new) }
        ensures slot { IfOk result (λ tape. tape.slot ≡ slot) }
        ensures settled { IfOk result (λ tape. tape.settled ≡ tape.records) }
        ensures tape { M.tells → IfOk result (λ tape. tape_in tape (M.seen media.old) ≡ tape_of ((M.seen media.old).file (slot + 1))) }
        ensures seen { M.tells → M.seen media.new ≡ M.seen media.old }
        ensures crash { M.tells → Leads M.time media.old media.new Same }
        ensures count { M.count media.new ≡ M.count media.old }
        ensures present { M.present media.new ≡ M.present media.old }
        ensures cause { HasCause (M.faults media.old) (M.faults media.new) result }
        ensures tell_faults { M.tell_faults media.new ≡ M.tell_faults media.old }
    {
        let log = CrashLog::open(media, slot + 1, 1 << 34)?;
        let records = if log.damaged() {
            1
        } else {
            record_count(log.len())
        };
        Ok(Tape {
            slot,
            log,
            records,
            settled: records,
        })
    }

    /// Shows a record: its kind, and its bytes in `into` where it is a block.
    pub fn get<M: Media>(&self, media: &mut M, i: u32, into: &mut Block) -> Result<Kind, Failed>
        requires fits { TapeFits M.tells M.seen M.present self.now media.old }
        requires within { i < self.now.records }
        ensures found { M.tells → IfOk result (λ kind. ShowsAt (tape_in self.now (M.seen media.old)) i kind into.new) }
        ensures seen { M.tells → M.seen media.new ≡ M.seen media.old }
        ensures crash { M.tells → Leads M.time media.old media.new Same }
        ensures count { M.count media.new ≡ M.count media.old }
        ensures present { M.present media.new ≡ M.present media.old }
        ensures cause { HasCause (M.faults media.old) (M.faults media.new) result }
        ensures tell_faults { M.tell_faults media.new ≡ M.tell_faults media.old }
    {
        let at = 16385 * u64::from(i);
        if self.log.damaged() || self.log.len() < at + 16385 {
            return Ok(Kind::Bad);
        }
        let mut first = [0; 1];
        self.log.read(media, at, &mut first)?;
        match first[0] {
            0 => {
                self.log.read(media, at + 1, into)?;
                Ok(Kind::Block)
            }
            1 => Ok(Kind::Mark),
            _ => Ok(Kind::Bad),
        }
    }

    /// Shows the first record, if there is one.
    pub fn first<M: Media>(&self, media: &mut M, into: &mut Block) -> Result<Option<Kind>, Failed>
        requires fits { TapeFits M.tells M.seen M.present self.now media.old }
        ensures first { M.tells → IfOk result (λ shown. ShowsFirst (tape_in self.now (M.seen media.old)) shown into.new) }
        ensures seen { M.tells → M.seen media.new ≡ M.seen media.old }
        ensures crash { M.tells → Leads M.time media.old media.new Same }
        ensures count { M.count media.new ≡ M.count media.old }
        ensures present { M.present media.new ≡ M.present media.old }
        ensures cause { HasCause (M.faults media.old) (M.faults media.new) result }
        ensures tell_faults { M.tell_faults media.new ≡ M.tell_faults media.old }
    {
        if self.records == 0 {
            return Ok(None);
        }
        match self.get(media, 0, into) {
            Ok(kind) => Ok(Some(kind)),
            Err(error) => Err(error),
        }
    }

    /// Puts a record: a first byte and 16,384 others.
    fn put_record<M: Media>(&mut self, media: &mut M, first: u8, rest: &Block) -> Result<(), Failed>
        requires fits { TapeFits M.tells M.seen M.present self.old media.old }
        requires room { self.old.records < 524288 }
        requires whole { M.tells → NoBad (tape_in self.old (M.seen media.old)) }
        ensures fits { OnOk result (TapeFits M.tells M.seen M.present self.new media.new) }
        ensures survives { M.tells → TapeSurvives M.tells M.time M.seen M.present self.old media.old → OnOk result (TapeSurvives M.tells M.time M.seen M.present self.new media.new) }
        ensures slot { OnOk result (self.new.slot ≡ self.old.slot) }
        ensures records { OnOk result (self.new.records ≡ self.old.records + 1) }
        ensures settled { OnOk result (self.new.settled ≡ self.old.settled) }
        ensures whole { OnOk result (damaged_of self.new.log ≡ false) }
        ensures tape { M.tells → OnOk result (tape_in self.new (M.seen media.new) ≡ tape_in self.old (M.seen media.old) ++ record_of (first ∷ rest.now) ∷ []) }
        ensures frame { M.tells → OnOk result (AtFile (self.old.slot + 1) Any (M.seen media.old) (M.seen media.new)) }
        ensures told { M.tells → (M.seen media.new).told ≡ (M.seen media.old).told }
        ensures crash { M.tells → TapeSurvives M.tells M.time M.seen M.present self.old media.old → Leads M.time media.old media.new (AtFile (self.old.slot + 1) SameTape) }
        ensures count { M.count media.new ≡ M.count media.old }
        ensures present { M.present media.new ≡ M.present media.old }
        ensures cause { HasCause (M.faults media.old) (M.faults media.new) result }
        ensures tell_faults { M.tell_faults media.new ≡ M.tell_faults media.old }
    {
        append(&mut self.log, media, &[first])?;
        append(&mut self.log, media, rest)?;
        self.records += 1;
        Ok(())
    }

    /// Puts a block.
    pub fn put<M: Media>(&mut self, media: &mut M, block: &Block) -> Result<(), Failed>
        requires fits { TapeFits M.tells M.seen M.present self.old media.old }
        requires room { self.old.records < 524288 }
        requires whole { M.tells → NoBad (tape_in self.old (M.seen media.old)) }
        ensures fits { OnOk result (TapeFits M.tells M.seen M.present self.new media.new) }
        ensures survives { M.tells → TapeSurvives M.tells M.time M.seen M.present self.old media.old → OnOk result (TapeSurvives M.tells M.time M.seen M.present self.new media.new) }
        ensures slot { OnOk result (self.new.slot ≡ self.old.slot) }
        ensures records { OnOk result (self.new.records ≡ self.old.records + 1) }
        ensures settled { OnOk result (self.new.settled ≡ self.old.settled) }
        ensures tape { M.tells → OnOk result (tape_in self.new (M.seen media.new) ≡ tape_in self.old (M.seen media.old) ++ block_with block.now ∷ []) }
        ensures frame { M.tells → OnOk result (AtFile (self.old.slot + 1) Any (M.seen media.old) (M.seen media.new)) }
        ensures told { M.tells → (M.seen media.new).told ≡ (M.seen media.old).told }
        ensures crash { M.tells → TapeSurvives M.tells M.time M.seen M.present self.old media.old → Leads M.time media.old media.new (AtFile (self.old.slot + 1) SameTape) }
        ensures count { M.count media.new ≡ M.count media.old }
        ensures present { M.present media.new ≡ M.present media.old }
        ensures cause { HasCause (M.faults media.old) (M.faults media.new) result }
        ensures tell_faults { M.tell_faults media.new ≡ M.tell_faults media.old }
    {
        self.put_record(media, 0, block)?;
        Ok(())
    }

    /// Settles what was put.
    fn commit<M: Media>(&mut self, media: &mut M) -> Result<(), Failed>
        requires fits { TapeFits M.tells M.seen M.present self.old media.old }
        requires whole { M.tells → damaged_of self.old.log ≡ false }
        ensures fits { OnOk result (TapeFits M.tells M.seen M.present self.new media.new) }
        ensures survives { M.tells → OnOk result (TapeSurvives M.tells M.time M.seen M.present self.new media.new) }
        ensures slot { OnOk result (self.new.slot ≡ self.old.slot) }
        ensures records { OnOk result (self.new.records ≡ self.old.records) }
        ensures settled { OnOk result (self.new.settled ≡ self.old.records) }
        ensures tape { M.tells → OnOk result (tape_in self.new (M.seen media.new) ≡ tape_in self.old (M.seen media.old)) }
        ensures frame { M.tells → OnOk result (AtFile (self.old.slot + 1) Any (M.seen media.old) (M.seen media.new)) }
        ensures told { M.tells → (M.seen media.new).told ≡ (M.seen media.old).told }
        ensures crash { M.tells → TapeSurvives M.tells M.time M.seen M.present self.old media.old → Leads M.time media.old media.new (AtFile (self.old.slot + 1) (TapeOr (tape_in self.old (M.seen media.old)))) }
        ensures count { M.count media.new ≡ M.count media.old }
        ensures present { M.present media.new ≡ M.present media.old }
        ensures cause { HasCause (M.faults media.old) (M.faults media.new) result }
        ensures tell_faults { M.tell_faults media.new ≡ M.tell_faults media.old }
    {
        self.log.commit(media)?;
        self.settled = self.records;
        Ok(())
    }

    /// Settles what was put, where something was.
    pub fn settle<M: Media>(&mut self, media: &mut M) -> Result<(), Failed>
        requires fits { TapeFits M.tells M.seen M.present self.old media.old }
        ensures fits { OnOk result (TapeFits M.tells M.seen M.present self.new media.new) }
        ensures survives { M.tells → TapeSurvives M.tells M.time M.seen M.present self.old media.old → OnOk result (TapeSurvives M.tells M.time M.seen M.present self.new media.new) }
        ensures slot { OnOk result (self.new.slot ≡ self.old.slot) }
        ensures records { OnOk result (self.new.records ≡ self.old.records) }
        ensures settled { OnOk result (self.new.settled ≡ self.old.records) }
        ensures tape { M.tells → OnOk result (tape_in self.new (M.seen media.new) ≡ tape_in self.old (M.seen media.old)) }
        ensures frame { M.tells → OnOk result (AtFile (self.old.slot + 1) Any (M.seen media.old) (M.seen media.new)) }
        ensures told { M.tells → (M.seen media.new).told ≡ (M.seen media.old).told }
        ensures crash { M.tells → TapeSurvives M.tells M.time M.seen M.present self.old media.old → Leads M.time media.old media.new (AtFile (self.old.slot + 1) (TapeOr (tape_in self.old (M.seen media.old)))) }
        ensures count { M.count media.new ≡ M.count media.old }
        ensures present { M.present media.new ≡ M.present media.old }
        ensures cause { HasCause (M.faults media.old) (M.faults media.new) result }
        ensures tell_faults { M.tell_faults media.new ≡ M.tell_faults media.old }
    {
        if self.settled < self.records {
            self.commit(media)?;
        }
        Ok(())
    }

    /// Puts a mark, and settles all.
    pub fn mark<M: Media>(&mut self, media: &mut M) -> Result<(), Failed>
        requires fits { TapeFits M.tells M.seen M.present self.old media.old }
        requires room { self.old.records < 524288 }
        requires whole { M.tells → NoBad (tape_in self.old (M.seen media.old)) }
        ensures fits { OnOk result (TapeFits M.tells M.seen M.present self.new media.new) }
        ensures survives { M.tells → OnOk result (TapeSurvives M.tells M.time M.seen M.present self.new media.new) }
        ensures slot { OnOk result (self.new.slot ≡ self.old.slot) }
        ensures records { OnOk result (self.new.records ≡ self.old.records + 1) }
        ensures settled { OnOk result (self.new.settled ≡ self.new.records) }
        ensures tape { M.tells → OnOk result (tape_in self.new (M.seen media.new) ≡ tape_in self.old (M.seen media.old) ++ mark ∷ []) }
        ensures frame { M.tells → OnOk result (AtFile (self.old.slot + 1) Any (M.seen media.old) (M.seen media.new)) }
        ensures told { M.tells → (M.seen media.new).told ≡ (M.seen media.old).told }
        ensures crash { M.tells → TapeSurvives M.tells M.time M.seen M.present self.old media.old → Leads M.time media.old media.new (AtFile (self.old.slot + 1) (TapeOr (tape_in self.old (M.seen media.old) ++ mark ∷ []))) }
        ensures count { M.count media.new ≡ M.count media.old }
        ensures present { M.present media.new ≡ M.present media.old }
        ensures cause { HasCause (M.faults media.old) (M.faults media.new) result }
        ensures tell_faults { M.tell_faults media.new ≡ M.tell_faults media.old }
    {
        let zeros = [0; 16384];
        self.put_record(media, 1, &zeros)?;
        self.commit(media)?;
        Ok(())
    }

    /// Keeps the first records, settled. Where one is bad, none is kept.
    pub fn cut<M: Media>(&mut self, media: &mut M, n: u32) -> Result<(), Failed>
        requires fits { TapeFits M.tells M.seen M.present self.old media.old }
        requires within { n ≤ self.old.records }
        requires whole { M.tells → 0 < n → NoBad (tape_in self.old (M.seen media.old)) }
        ensures fits { OnOk result (TapeFits M.tells M.seen M.present self.new media.new) }
        ensures survives { M.tells → OnOk result (TapeSurvives M.tells M.time M.seen M.present self.new media.new) }
        ensures slot { OnOk result (self.new.slot ≡ self.old.slot) }
        ensures records { OnOk result (self.new.records ≡ n) }
        ensures settled { OnOk result (self.new.settled ≡ n) }
        ensures tape { M.tells → OnOk result (tape_in self.new (M.seen media.new) ≡ take n (tape_in self.old (M.seen media.old))) }
        ensures frame { M.tells → OnOk result (AtFile (self.old.slot + 1) Any (M.seen media.old) (M.seen media.new)) }
        ensures told { M.tells → (M.seen media.new).told ≡ (M.seen media.old).told }
        ensures crash { M.tells → TapeSurvives M.tells M.time M.seen M.present self.old media.old → Leads M.time media.old media.new (AtFile (self.old.slot + 1) (TapeOr (take n (tape_in self.old (M.seen media.old))))) }
        ensures count { M.count media.new ≡ M.count media.old }
        ensures present { M.present media.new ≡ M.present media.old }
        ensures cause { HasCause (M.faults media.old) (M.faults media.new) result }
        ensures tell_faults { M.tell_faults media.new ≡ M.tell_faults media.old }
    {
        let size = (16385 * u64::from(n)).min(self.log.len());
        self.log.cut(media, size)?;
        self.records = n;
        self.settled = n;
        Ok(())
    }
}
