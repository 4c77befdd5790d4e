// A log in a file of a media.
ghost use Rattle.std.specs.Prelude.{◌≡◌, ◌+◌, ◌^◌, ◌<◌, ◌≤◌, ◌++◌, ◌⊎◌, ◌↔◌, List, ℕ, length, take, drop, OnOk, OnErr, IfOk, IsTrue, Err, false};
ghost use Rattle.crash_moments.specs.Moments.{Leads, HasCause, HasCauseAt};
ghost use Rattle.media_core.specs.Media.{Image, AtFile, Same};
ghost use Rattle.crash_log.specs.Log.{is_damaged, log_of, HasLog, HasOneOf, Any};
ghost use Rattle.crash_log.specs.State.{IsBounded};
ghost use Rattle.crash_log.specs.Fit.{IsStill};

use crate::apart::write_apart;
use crate::mend::mend;
use crate::open::read_state;
use crate::state::{LogState, Needs, SLOTS};
use crate::turn::turn_over;
use media_core::{Failed, Media};
use thiserror::Error;

/// A put or a replace was refused: the log would be longer than its limit, or a call of the media failed.
#[derive(Clone, Copy, Debug, PartialEq, Eq, Drop, Error)]
pub enum PutFault {
    #[error("the log would pass its limit")]
    LogFull,
    #[error("a call of the media failed")]
    Failed,
}

/// The state of a log in one file of a media, in bytes. It doesn't hold the media: each call is lent it, and asks that the
/// log fits its file. `open` gives that, and each call keeps it unless it answers `Failed`. No call takes memory.
///
/// A crash at any moment of a call leaves the settled log from before it or the one after it. The other files and what was
/// told are as in an image at the call's entry. This is said of a log that survives a crash: one at whose opening no write
/// to the file waited for a sync, and any log from the next commit, cut or replace on.
#[derive(Drop)]
pub struct CrashLog {
    state: LogState,
    ghost bounded: { IsBounded state },
}

impl CrashLog {
    ghost use Rattle.crash_log.specs.CrashLog.{file_of, limit_of, length_of, settled_of, damaged_of, log_bytes, settled_log, FitsIts, Survives, IsNow};

    /// Opens the log of a file. It writes nothing. Its conditions are that the file is here and a limit of at most 2^36
    /// bytes. Where no write to the file waits for a sync, the log survives a crash. Else it does from the next commit, cut or
    /// replace on.
    pub fn open<M: Media>(media: &mut M, f: u32, limit: u64) -> Result<CrashLog, Failed>
        requires here { IsTrue (M.present media.old f) }
        requires limit { limit ≤ 2 ^ 36 }
        ensures file { IfOk result (λ log. file_of log ≡ f) }
        ensures limit { IfOk result (λ log. limit_of log ≡ limit) }
        ensures whole { IfOk result (λ log. settled_of log ≡ length_of log) }
        ensures fits { M.tells → IfOk result (λ log. FitsIts M.seen log media.new) }
        ensures survives { M.tells → IsStill M.time M.seen f media.old → IfOk result (λ log. Survives M.time M.seen log media.new) }
        ensures bytes { M.tells → IfOk result (λ log. log_bytes log ((M.seen media.old).file f) ≡ log_of ((M.seen media.old).file f)) }
        ensures settled { M.tells → IfOk result (λ log. settled_log log ((M.seen media.old).file f) ≡ log_of ((M.seen media.old).file f)) }
        ensures damaged { M.tells → IfOk result (λ log. damaged_of log ≡ is_damaged ((M.seen media.old).file f)) }
        ensures seen { M.tells → M.seen media.new ≡ M.seen media.old }
        ensures crash { M.tells → Leads M.time media.old media.new Same }
        ensures count { M.count media.new ≡ M.count media.old }
        ensures present { M.present media.new ≡ M.present media.old }
        ensures cause { HasCause (M.faults media.old) (M.faults media.new) result }
        ensures tell_faults { M.tell_faults media.new ≡ M.tell_faults media.old }
    {
        let state = read_state(media, f, limit)?;
        Ok(CrashLog { state })
    }

    /// How many bytes the log has, with those that were put.
    pub fn len(&self) -> u64
        ensures length { result ≡ length_of self.now }
        ensures bounded { result ≤ 2 ^ 38 }
    {
        self.state.size + self.state.more
    }

    /// Whether the file had 8,192 bytes or more and no good slot, and wasn't formatted since. The log is then empty.
    pub fn damaged(&self) -> bool
        ensures damaged { result ≡ damaged_of self.now }
        ensures empty { IsTrue result → length_of self.now ≡ 0 }
    {
        match self.state.needs {
            Needs::Damaged { .. } => true,
            Needs::Nothing | Needs::Blank | Needs::Stale => false,
        }
    }

    /// Fills `into` with the bytes of the log from `at` on.
    pub fn read<M: Media>(&self, media: &mut M, at: u64, into: &mut [u8]) -> Result<(), Failed>
        requires here { IsTrue (M.present media.old (file_of self.now)) }
        requires within { at + length into.old ≤ length_of self.now }
        requires fits { M.tells → FitsIts M.seen self.now media.old }
        ensures bytes { M.tells → OnOk result (into.new ≡ take (length into.old) (drop at (log_bytes self.now ((M.seen media.old).file (file_of self.now))))) }
        ensures fits { M.tells → FitsIts M.seen self.now media.new }
        ensures survives { M.tells → Survives M.time M.seen self.now media.old → Survives M.time M.seen self.now media.new }
        ensures seen { M.tells → M.seen media.new ≡ M.seen media.old }
        ensures crash { M.tells → Leads M.time media.old media.new Same }
        ensures count { M.count media.new ≡ M.count media.old }
        ensures present { M.present media.new ≡ M.present media.old }
        ensures cause { HasCause (M.faults media.old) (M.faults media.new) result }
        ensures tell_faults { M.tell_faults media.new ≡ M.tell_faults media.old }
    {
        if into.len() == 0 {
            return Ok(());
        }
        media.read(self.state.file, self.state.start + at, into)?;
        Ok(())
    }

    /// Puts bytes behind the log. They are settled by the next commit or cut. `LogFull` comes exactly where the log would be
    /// longer than its limit, and nothing is written then.
    pub fn put<M: Media>(&mut self, media: &mut M, piece: &[u8]) -> Result<(), PutFault>
        requires here { IsTrue (M.present media.old (file_of self.old)) }
        requires fits { M.tells → FitsIts M.seen self.old media.old }
        ensures log { OnOk result (IsNow self.old (length_of self.old + length piece.now) (settled_of self.old) self.new) }
        ensures full { (result ≡ Err PutFault.LogFull) ↔ (limit_of self.old < length_of self.old + length piece.now) }
        ensures full_state { result ≡ Err PutFault.LogFull → (self.new ≡ self.old) × (media.new ≡ media.old) }
        ensures fits { M.tells → OnOk result (FitsIts M.seen self.new media.new) }
        ensures survives { M.tells → Survives M.time M.seen self.old media.old → OnOk result (Survives M.time M.seen self.new media.new) }
        ensures bytes { M.tells → OnOk result (log_bytes self.new ((M.seen media.new).file (file_of self.old)) ≡ log_bytes self.old ((M.seen media.old).file (file_of self.old)) ++ piece.now) }
        ensures settled { M.tells → OnOk result (settled_log self.new ((M.seen media.new).file (file_of self.old)) ≡ settled_log self.old ((M.seen media.old).file (file_of self.old))) }
        ensures frame { M.tells → OnOk result (AtFile (file_of self.old) Any (M.seen media.old) (M.seen media.new)) }
        ensures told { M.tells → (M.seen media.new).told ≡ (M.seen media.old).told }
        ensures crash { M.tells → Survives M.time M.seen self.old media.old → Leads M.time media.old media.new (AtFile (file_of self.old) (HasLog (settled_log self.old ((M.seen media.old).file (file_of self.old))))) }
        ensures count { M.count media.new ≡ M.count media.old }
        ensures present { M.present media.new ≡ M.present media.old }
        ensures cause { HasCauseAt PutFault.Failed (M.faults media.old) (M.faults media.new) result }
        ensures tell_faults { M.tell_faults media.new ≡ M.tell_faults media.old }
    {
        let used = self.state.size + self.state.more;
        if used > self.state.limit || piece.len() as u64 > self.state.limit - used {
            return Err(PutFault::LogFull);
        }
        match self.put_within(media, piece) {
            Ok(()) => Ok(()),
            Err(Failed) => Err(PutFault::Failed),
        }
    }

    /// Puts bytes for which there is room.
    fn put_within<M: Media>(&mut self, media: &mut M, piece: &[u8]) -> Result<(), Failed>
        requires here { IsTrue (M.present media.old (file_of self.old)) }
        requires room { length_of self.old + length piece.now ≤ limit_of self.old }
        requires fits { M.tells → FitsIts M.seen self.old media.old }
        ensures log { OnOk result (IsNow self.old (length_of self.old + length piece.now) (settled_of self.old) self.new) }
        ensures fits { M.tells → OnOk result (FitsIts M.seen self.new media.new) }
        ensures survives { M.tells → Survives M.time M.seen self.old media.old → OnOk result (Survives M.time M.seen self.new media.new) }
        ensures bytes { M.tells → OnOk result (log_bytes self.new ((M.seen media.new).file (file_of self.old)) ≡ log_bytes self.old ((M.seen media.old).file (file_of self.old)) ++ piece.now) }
        ensures settled { M.tells → OnOk result (settled_log self.new ((M.seen media.new).file (file_of self.old)) ≡ settled_log self.old ((M.seen media.old).file (file_of self.old))) }
        ensures frame { M.tells → OnOk result (AtFile (file_of self.old) Any (M.seen media.old) (M.seen media.new)) }
        ensures told { M.tells → (M.seen media.new).told ≡ (M.seen media.old).told }
        ensures crash { M.tells → Survives M.time M.seen self.old media.old → Leads M.time media.old media.new (AtFile (file_of self.old) (HasLog (settled_log self.old ((M.seen media.old).file (file_of self.old))))) }
        ensures count { M.count media.new ≡ M.count media.old }
        ensures present { M.present media.new ≡ M.present media.old }
        ensures cause { HasCause (M.faults media.old) (M.faults media.new) result }
        ensures tell_faults { M.tell_faults media.new ≡ M.tell_faults media.old }
    {
        mend(&self.state, media)?;
        let at = self.state.start + (self.state.size + self.state.more);
        write_apart(&self.state, media, at, piece)?;
        self.state.needs = Needs::Nothing;
        self.state.more += piece.len() as u64;
        Ok(())
    }

    /// Settles what was put.
    pub fn commit<M: Media>(&mut self, media: &mut M) -> Result<(), Failed>
        requires here { IsTrue (M.present media.old (file_of self.old)) }
        requires fits { M.tells → FitsIts M.seen self.old media.old }
        ensures log { OnOk result (IsNow self.old (length_of self.old) (length_of self.old) self.new) }
        ensures fits { M.tells → OnOk result (FitsIts M.seen self.new media.new) }
        ensures survives { M.tells → OnOk result (Survives M.time M.seen self.new media.new) }
        ensures bytes { M.tells → OnOk result (log_bytes self.new ((M.seen media.new).file (file_of self.old)) ≡ log_bytes self.old ((M.seen media.old).file (file_of self.old))) }
        ensures durable { M.tells → OnOk result ((c : Image) → M.time.may_leave media.new c → log_of (c.file (file_of self.old)) ≡ log_bytes self.old ((M.seen media.old).file (file_of self.old))) }
        ensures still { M.tells → OnOk result (IsStill M.time M.seen (file_of self.old) media.new) }
        ensures whole { M.tells → OnOk result (is_damaged ((M.seen media.new).file (file_of self.old)) ≡ false) }
        ensures frame { M.tells → OnOk result (AtFile (file_of self.old) Any (M.seen media.old) (M.seen media.new)) }
        ensures told { M.tells → (M.seen media.new).told ≡ (M.seen media.old).told }
        ensures crash { M.tells → Survives M.time M.seen self.old media.old → Leads M.time media.old media.new (AtFile (file_of self.old) (HasOneOf (settled_log self.old ((M.seen media.old).file (file_of self.old))) (log_bytes self.old ((M.seen media.old).file (file_of self.old))))) }
        ensures count { M.count media.new ≡ M.count media.old }
        ensures present { M.present media.new ≡ M.present media.old }
        ensures cause { HasCause (M.faults media.old) (M.faults media.new) result }
        ensures tell_faults { M.tell_faults media.new ≡ M.tell_faults media.old }
    {
        let all = self.state.size + self.state.more;
        self.cut(media, all)?;
        Ok(())
    }

    /// Keeps the first `n` bytes of the log, settled.
    pub fn cut<M: Media>(&mut self, media: &mut M, n: u64) -> Result<(), Failed>
        requires here { IsTrue (M.present media.old (file_of self.old)) }
        requires within { n ≤ length_of self.old }
        requires fits { M.tells → FitsIts M.seen self.old media.old }
        ensures log { OnOk result (IsNow self.old n n self.new) }
        ensures fits { M.tells → OnOk result (FitsIts M.seen self.new media.new) }
        ensures survives { M.tells → OnOk result (Survives M.time M.seen self.new media.new) }
        ensures bytes { M.tells → OnOk result (log_bytes self.new ((M.seen media.new).file (file_of self.old)) ≡ take n (log_bytes self.old ((M.seen media.old).file (file_of self.old)))) }
        ensures durable { M.tells → OnOk result ((c : Image) → M.time.may_leave media.new c → log_of (c.file (file_of self.old)) ≡ take n (log_bytes self.old ((M.seen media.old).file (file_of self.old)))) }
        ensures still { M.tells → OnOk result (IsStill M.time M.seen (file_of self.old) media.new) }
        ensures whole { M.tells → OnOk result (is_damaged ((M.seen media.new).file (file_of self.old)) ≡ false) }
        ensures frame { M.tells → OnOk result (AtFile (file_of self.old) Any (M.seen media.old) (M.seen media.new)) }
        ensures told { M.tells → (M.seen media.new).told ≡ (M.seen media.old).told }
        ensures crash { M.tells → Survives M.time M.seen self.old media.old → Leads M.time media.old media.new (AtFile (file_of self.old) (HasOneOf (settled_log self.old ((M.seen media.old).file (file_of self.old))) (take n (log_bytes self.old ((M.seen media.old).file (file_of self.old)))))) }
        ensures count { M.count media.new ≡ M.count media.old }
        ensures present { M.present media.new ≡ M.present media.old }
        ensures cause { HasCause (M.faults media.old) (M.faults media.new) result }
        ensures tell_faults { M.tell_faults media.new ≡ M.tell_faults media.old }
    {
        mend(&self.state, media)?;
        turn_over(&self.state, media, self.state.start, n)?;
        self.state = self.state.moved(self.state.start, n);
        Ok(())
    }

    /// Makes these bytes the log, settled. What was put is gone. `LogFull` comes exactly where they are longer than the
    /// limit, and nothing is written then.
    pub fn replace<M: Media>(&mut self, media: &mut M, bytes: &[u8]) -> Result<(), PutFault>
        requires here { IsTrue (M.present media.old (file_of self.old)) }
        requires fits { M.tells → FitsIts M.seen self.old media.old }
        ensures log { OnOk result (IsNow self.old (length bytes.now) (length bytes.now) self.new) }
        ensures full { (result ≡ Err PutFault.LogFull) ↔ (limit_of self.old < length bytes.now) }
        ensures full_state { result ≡ Err PutFault.LogFull → (self.new ≡ self.old) × (media.new ≡ media.old) }
        ensures fits { M.tells → OnOk result (FitsIts M.seen self.new media.new) }
        ensures survives { M.tells → OnOk result (Survives M.time M.seen self.new media.new) }
        ensures bytes { M.tells → OnOk result (log_bytes self.new ((M.seen media.new).file (file_of self.old)) ≡ bytes.now) }
        ensures durable { M.tells → OnOk result ((c : Image) → M.time.may_leave media.new c → log_of (c.file (file_of self.old)) ≡ bytes.now) }
        ensures still { M.tells → OnOk result (IsStill M.time M.seen (file_of self.old) media.new) }
        ensures whole { M.tells → OnOk result (is_damaged ((M.seen media.new).file (file_of self.old)) ≡ false) }
        ensures frame { M.tells → OnOk result (AtFile (file_of self.old) Any (M.seen media.old) (M.seen media.new)) }
        ensures told { M.tells → (M.seen media.new).told ≡ (M.seen media.old).told }
        ensures crash { M.tells → Survives M.time M.seen self.old media.old → Leads M.time media.old media.new (AtFile (file_of self.old) (HasOneOf (settled_log self.old ((M.seen media.old).file (file_of self.old))) bytes.now)) }
        ensures count { M.count media.new ≡ M.count media.old }
        ensures present { M.present media.new ≡ M.present media.old }
        ensures cause { HasCauseAt PutFault.Failed (M.faults media.old) (M.faults media.new) result }
        ensures tell_faults { M.tell_faults media.new ≡ M.tell_faults media.old }
    {
        if bytes.len() as u64 > self.state.limit {
            return Err(PutFault::LogFull);
        }
        match self.replace_within(media, bytes) {
            Ok(()) => Ok(()),
            Err(Failed) => Err(PutFault::Failed),
        }
    }

    /// Makes bytes the log for which there is room.
    fn replace_within<M: Media>(&mut self, media: &mut M, bytes: &[u8]) -> Result<(), Failed>
        requires here { IsTrue (M.present media.old (file_of self.old)) }
        requires room { length bytes.now ≤ limit_of self.old }
        requires fits { M.tells → FitsIts M.seen self.old media.old }
        ensures log { OnOk result (IsNow self.old (length bytes.now) (length bytes.now) self.new) }
        ensures fits { M.tells → OnOk result (FitsIts M.seen self.new media.new) }
        ensures survives { M.tells → OnOk result (Survives M.time M.seen self.new media.new) }
        ensures bytes { M.tells → OnOk result (log_bytes self.new ((M.seen media.new).file (file_of self.old)) ≡ bytes.now) }
        ensures durable { M.tells → OnOk result ((c : Image) → M.time.may_leave media.new c → log_of (c.file (file_of self.old)) ≡ bytes.now) }
        ensures still { M.tells → OnOk result (IsStill M.time M.seen (file_of self.old) media.new) }
        ensures whole { M.tells → OnOk result (is_damaged ((M.seen media.new).file (file_of self.old)) ≡ false) }
        ensures frame { M.tells → OnOk result (AtFile (file_of self.old) Any (M.seen media.old) (M.seen media.new)) }
        ensures told { M.tells → (M.seen media.new).told ≡ (M.seen media.old).told }
        ensures crash { M.tells → Survives M.time M.seen self.old media.old → Leads M.time media.old media.new (AtFile (file_of self.old) (HasOneOf (settled_log self.old ((M.seen media.old).file (file_of self.old))) bytes.now)) }
        ensures count { M.count media.new ≡ M.count media.old }
        ensures present { M.present media.new ≡ M.present media.old }
        ensures cause { HasCause (M.faults media.old) (M.faults media.new) result }
        ensures tell_faults { M.tell_faults media.new ≡ M.tell_faults media.old }
    {
        mend(&self.state, media)?;
        let at = self.free_start(bytes.len() as u64);
        write_apart(&self.state, media, at, bytes)?;
        turn_over(&self.state, media, at, bytes.len() as u64)?;
        self.state = self.state.moved(at, bytes.len() as u64);
        Ok(())
    }

    /// Where bytes stand that replace the log: right behind the slots where they end at or before the current range, else
    /// behind that.
    fn free_start(&self, size: u64) -> u64
        requires { size ≤ limit_of self.now }
        ensures low { SLOTS ≤ result }
        ensures high { result ≤ 2 ^ 40 }
        ensures apart { (result + size ≤ self.now.state.start) ⊎ (self.now.state.start + self.now.state.size ≤ result) }
        ensures within { result ≤ self.now.state.start + self.now.state.size }
    {
        if SLOTS + size <= self.state.start {
            SLOTS
        } else {
            self.state.start + self.state.size
        }
    }
}
