// Data is written apart from the current range.
ghost use Rattle.std.specs.Prelude.{◌≡◌, ◌+◌, ◌^◌, ◌<◌, ◌≤◌, ◌⊎◌, List, ℕ, length, OnOk, IsTrue};
ghost use Rattle.crash_moments.specs.Moments.{Leads, HasCause};
ghost use Rattle.media_core.specs.Media.{Image, AtFile};
ghost use Rattle.crash_log.specs.Log.{span, HasLog, Any};
ghost use Rattle.crash_log.specs.State.{settled_bytes};
ghost use Rattle.crash_log.specs.Fit.{IsReady, IsStill, as_read};

use crate::state::{LogState, SLOTS};
use media_core::{Failed, Media};

/// Writes bytes from `at` on, behind the slots and outside of the current range. The next sync settles them.
pub fn write_apart<M: Media>(
    log: &LogState,
    media: &mut M,
    at: u64,
    bytes: &[u8],
) -> Result<(), Failed>
    requires here { IsTrue (M.present media.old log.now.file) }
    requires low { SLOTS ≤ at }
    requires apart { (at + length bytes.now ≤ log.now.start) ⊎ (log.now.start + log.now.size ≤ at) }
    requires small { at + length bytes.now < 2 ^ 62 }
    requires ready { M.tells → IsReady (as_read M.seen) M.seen log.now media.old }
    requires within { M.tells → at ≤ length ((M.seen media.old).file log.now.file) }
    ensures ready { M.tells → OnOk result (IsReady (as_read M.seen) M.seen log.now media.new) }
    ensures survives { M.tells → IsReady M.time M.seen log.now media.old → OnOk result (IsReady M.time M.seen log.now media.new) }
    ensures quiet { M.tells → IsStill M.time M.seen log.now.file media.old → length bytes.now ≡ 0 → OnOk result (IsStill M.time M.seen log.now.file media.new) }
    ensures bytes { M.tells → OnOk result (span at (length bytes.now) ((M.seen media.new).file log.now.file) ≡ bytes.now) }
    ensures long { M.tells → OnOk result (at + length bytes.now ≤ length ((M.seen media.new).file log.now.file)) }
    ensures before { M.tells → OnOk result ((a n : ℕ) → a + n ≤ at → span a n ((M.seen media.new).file log.now.file) ≡ span a n ((M.seen media.old).file log.now.file)) }
    ensures settled { M.tells → OnOk result (settled_bytes log.now ((M.seen media.new).file log.now.file) ≡ settled_bytes log.now ((M.seen media.old).file log.now.file)) }
    ensures frame { M.tells → OnOk result (AtFile log.now.file Any (M.seen media.old) (M.seen media.new)) }
    ensures told { M.tells → (M.seen media.new).told ≡ (M.seen media.old).told }
    ensures crash { M.tells → IsReady M.time M.seen log.now media.old → Leads M.time media.old media.new (AtFile log.now.file (HasLog (settled_bytes log.now ((M.seen media.old).file log.now.file)))) }
    ensures count { M.count media.new ≡ M.count media.old }
    ensures present { M.present media.new ≡ M.present media.old }
    ensures cause { HasCause (M.faults media.old) (M.faults media.new) result }
    ensures tell_faults { M.tell_faults media.new ≡ M.tell_faults media.old }
{
    media.write(log.file, at, bytes)?;
    Ok(())
}
