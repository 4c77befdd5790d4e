// What has to be done to a file before the first put, commit, cut or replace.
ghost use Rattle.std.specs.Prelude.{◌≡◌, ◌+◌, ◌^◌, ◌<◌, ◌≤◌, ◌⊎◌, List, ℕ, length, OnOk, IsTrue};
ghost use Rattle.crash_moments.specs.Moments.{Leads, HasCause};
ghost use Rattle.media_core.specs.Media.{Image, AtFile};
ghost use Rattle.crash_log.specs.Log.{span, HasLog, Any};
ghost use Rattle.crash_log.specs.State.{settled_bytes};
ghost use Rattle.crash_log.specs.Fit.{Fits, IsBlank, IsBad, IsStale, IsReady, IsSound, IsStill, SameLog, as_read};

use crate::format::{format_blank, format_damaged};
use crate::settle::settle;
use crate::state::{CLOSED, LogState, Needs};
use media_core::{Failed, Media};

/// Closes the other gate, which is 1 though its slot isn't good. Else the file, as it grows, could make that slot good.
fn close_stale<M: Media>(log: &LogState, media: &mut M) -> Result<(), Failed>
    requires here { IsTrue (M.present media.old log.now.file) }
    requires stale { M.tells → IsStale (as_read M.seen) M.seen log.now media.old }
    ensures ready { M.tells → OnOk result (IsReady (as_read M.seen) M.seen log.now media.new) }
    ensures same { M.tells → OnOk result (SameLog log.now ((M.seen media.old).file log.now.file) ((M.seen media.new).file log.now.file)) }
    ensures still { M.tells → OnOk result (IsStill M.time M.seen log.now.file media.new) }
    ensures frame { M.tells → OnOk result (AtFile log.now.file Any (M.seen media.old) (M.seen media.new)) }
    ensures told { M.tells → (M.seen media.new).told ≡ (M.seen media.old).told }
    ensures crash { M.tells → IsStale M.time M.seen log.now media.old → Leads M.time media.old media.new (AtFile log.now.file (HasLog (settled_bytes log.now ((M.seen media.old).file log.now.file)))) }
    ensures count { M.count media.new ≡ M.count media.old }
    ensures present { M.present media.new ≡ M.present media.old }
    ensures cause { HasCause (M.faults media.old) (M.faults media.new) result }
    ensures tell_faults { M.tell_faults media.new ≡ M.tell_faults media.old }
{
    settle(media, log.file, log.other(), &[CLOSED])?;
    Ok(())
}

/// Formats the file, or closes a stale gate, where that is needed.
pub fn mend<M: Media>(log: &LogState, media: &mut M) -> Result<(), Failed>
    requires here { IsTrue (M.present media.old log.now.file) }
    requires fits { M.tells → Fits (as_read M.seen) M.seen log.now media.old }
    ensures ready { M.tells → OnOk result (IsReady (as_read M.seen) M.seen log.now media.new) }
    ensures survives { M.tells → Fits M.time M.seen log.now media.old → OnOk result (IsSound M.time M.seen log.now media.new) }
    ensures same { M.tells → OnOk result (SameLog log.now ((M.seen media.old).file log.now.file) ((M.seen media.new).file log.now.file)) }
    ensures frame { M.tells → OnOk result (AtFile log.now.file Any (M.seen media.old) (M.seen media.new)) }
    ensures told { M.tells → (M.seen media.new).told ≡ (M.seen media.old).told }
    ensures crash { M.tells → Fits M.time M.seen log.now media.old → Leads M.time media.old media.new (AtFile log.now.file (HasLog (settled_bytes log.now ((M.seen media.old).file log.now.file)))) }
    ensures count { M.count media.new ≡ M.count media.old }
    ensures present { M.present media.new ≡ M.present media.old }
    ensures cause { HasCause (M.faults media.old) (M.faults media.new) result }
    ensures tell_faults { M.tell_faults media.new ≡ M.tell_faults media.old }
{
    match log.needs {
        Needs::Nothing => Ok(()),
        Needs::Blank => {
            format_blank(media, log.file)?;
            Ok(())
        }
        Needs::Damaged {
            first_open,
            second_open,
        } => {
            format_damaged(media, log.file, first_open, second_open)?;
            Ok(())
        }
        Needs::Stale => {
            close_stale(log, media)?;
            Ok(())
        }
    }
}
