// Writes that wait until they are on the disk.
ghost use Rattle.std.specs.Prelude.{◌≡◌, ◌+◌, ◌^◌, ◌<◌, ◌≤◌, List, ℕ, length, OnOk, IsTrue};
ghost use Rattle.crash_moments.specs.Moments.{Leads, HasCause};
ghost use Rattle.media_core.specs.Media.{Image, Holds, Torn, AtFile};
ghost use Rattle.media_core.specs.Still.{IsStill};

use media_core::{Failed, Media};

/// Writes into one file, and waits until the file is on the disk.
pub fn settle<M: Media>(media: &mut M, f: u32, at: u64, bytes: &[u8]) -> Result<(), Failed>
    requires here { IsTrue (M.present media.old f) }
    requires within { M.tells → at ≤ length ((M.seen media.old).file f) }
    requires small { at + length bytes.now < 2 ^ 62 }
    ensures written { M.tells → OnOk result (AtFile f (Holds at bytes.now) (M.seen media.old) (M.seen media.new)) }
    ensures told { M.tells → (M.seen media.new).told ≡ (M.seen media.old).told }
    ensures durable { M.tells → OnOk result (IsStill M.time M.seen f media.new) }
    ensures crash { M.tells → Leads M.time media.old media.new (AtFile f (Torn at (length bytes.now))) }
    ensures count { M.count media.new ≡ M.count media.old }
    ensures present { M.present media.new ≡ M.present media.old }
    ensures cause { HasCause (M.faults media.old) (M.faults media.new) result }
    ensures tell_faults { M.tell_faults media.new ≡ M.tell_faults media.old }
{
    media.write(f, at, bytes)?;
    media.sync(f)
}
