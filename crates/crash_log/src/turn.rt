// The other slot becomes the current one: it is closed, gets its fields, and is opened, each with a sync.
ghost use Rattle.std.specs.Prelude.{◌≡◌, ◌+◌, ◌^◌, ◌<◌, ◌≤◌, List, ℕ, length, OnOk, IsTrue};
ghost use Rattle.std.specs.Int.{w64, to_be_bytes};
ghost use Rattle.crash_moments.specs.Moments.{Leads, HasCause};
ghost use Rattle.media_core.specs.Media.{Image, AtFile, Holds, Torn};
ghost use Rattle.crash_log.specs.Log.{place_of, span, IsFine, HasLog, HasOneOf, Any, successor};
ghost use Rattle.crash_log.specs.State.{settled_bytes, place_for, moved_to};
ghost use Rattle.crash_log.specs.Fit.{IsReady, IsStill, SameBehind, as_read};
ghost use Rattle.crash_log.specs.Turn.{IsClosed, IsNext, IsNamed};

use crate::settle::settle;
use crate::state::{CLOSED, LogState, OPEN, SLOT, following};
use byteorder::{BigEndian, ByteOrder};
use media_core::{Failed, Media};

/// The eight bytes of a number, the highest first.
fn bytes_of(number: u64) -> [u8; 8]
    ensures { result ≡ to_be_bytes w64 number }
{
    let mut bytes = [0; 8];
    BigEndian::write_u64(&mut bytes, number);
    bytes
}

/// The bytes of a slot behind its gate.
pub fn fields(turn: u8, start: u64, size: u64) -> [u8; 23]
    ensures place { place_of result ≡ record { turn = turn; start = start; size = size } }
    ensures length { length result ≡ 23 }
{
    let s = bytes_of(start);
    let n = bytes_of(size);
    [
        turn, 0, 0, 0, 0, 0, 0, s[0], s[1], s[2], s[3], s[4], s[5], s[6], s[7], n[0], n[1], n[2],
        n[3], n[4], n[5], n[6], n[7],
    ]
}

/// Writes the fields of the slot at a base, behind its gate, and waits until they are on the disk: no gate is opened in the
/// sync of its fields.
pub fn settle_fields<M: Media>(
    media: &mut M,
    f: u32,
    base: u64,
    fields: &[u8; 23],
) -> Result<(), Failed>
    requires here { IsTrue (M.present media.old f) }
    requires base { base ≤ SLOT }
    requires within { M.tells → base + 1 ≤ length ((M.seen media.old).file f) }
    ensures written { M.tells → OnOk result (AtFile f (Holds (base + 1) fields.now) (M.seen media.old) (M.seen media.new)) }
    ensures told { M.tells → (M.seen media.new).told ≡ (M.seen media.old).told }
    ensures durable { M.tells → OnOk result (IsStill M.time M.seen f media.new) }
    ensures crash { M.tells → Leads M.time media.old media.new (AtFile f (Torn (base + 1) 23)) }
    ensures count { M.count media.new ≡ M.count media.old }
    ensures present { M.present media.new ≡ M.present media.old }
    ensures cause { HasCause (M.faults media.old) (M.faults media.new) result }
    ensures tell_faults { M.tell_faults media.new ≡ M.tell_faults media.old }
{
    settle(media, f, base + 1, fields)
}

/// Closes the other slot, where it is open. A gate that isn't 1 isn't written again.
fn close_other<M: Media>(log: &LogState, media: &mut M) -> Result<(), Failed>
    requires here { IsTrue (M.present media.old log.now.file) }
    requires ready { M.tells → IsReady (as_read M.seen) M.seen log.now media.old }
    ensures closed { M.tells → OnOk result (IsClosed (as_read M.seen) M.seen log.now media.new) }
    ensures survives { M.tells → IsReady M.time M.seen log.now media.old → OnOk result (IsClosed M.time M.seen log.now media.new) }
    ensures same { M.tells → OnOk result (SameBehind ((M.seen media.old).file log.now.file) ((M.seen media.new).file log.now.file)) }
    ensures frame { M.tells → OnOk result (AtFile log.now.file Any (M.seen media.old) (M.seen media.new)) }
    ensures told { M.tells → (M.seen media.new).told ≡ (M.seen media.old).told }
    ensures crash { M.tells → IsReady M.time M.seen log.now media.old → Leads M.time media.old media.new (AtFile log.now.file (HasLog (settled_bytes log.now ((M.seen media.old).file log.now.file)))) }
    ensures count { M.count media.new ≡ M.count media.old }
    ensures present { M.present media.new ≡ M.present media.old }
    ensures cause { HasCause (M.faults media.old) (M.faults media.new) result }
    ensures tell_faults { M.tell_faults media.new ≡ M.tell_faults media.old }
{
    if log.other_open {
        settle(media, log.file, log.other(), &[CLOSED])?;
        return Ok(());
    }
    Ok(())
}

/// Writes the next place into the other slot, which is closed. The sync settles what was put, too.
fn name_place<M: Media>(log: &LogState, media: &mut M, start: u64, size: u64) -> Result<(), Failed>
    requires here { IsTrue (M.present media.old log.now.file) }
    requires turn { log.now.turn ≤ 2 }
    requires closed { M.tells → IsClosed (as_read M.seen) M.seen log.now media.old }
    ensures named { M.tells → OnOk result (IsNamed (as_read M.seen) M.seen log.now (place_for log.now start size) media.new) }
    ensures still { M.tells → OnOk result (IsStill M.time M.seen log.now.file media.new) }
    ensures same { M.tells → OnOk result (SameBehind ((M.seen media.old).file log.now.file) ((M.seen media.new).file log.now.file)) }
    ensures frame { M.tells → OnOk result (AtFile log.now.file Any (M.seen media.old) (M.seen media.new)) }
    ensures told { M.tells → (M.seen media.new).told ≡ (M.seen media.old).told }
    ensures crash { M.tells → IsClosed M.time M.seen log.now media.old → Leads M.time media.old media.new (AtFile log.now.file (HasLog (settled_bytes log.now ((M.seen media.old).file log.now.file)))) }
    ensures count { M.count media.new ≡ M.count media.old }
    ensures present { M.present media.new ≡ M.present media.old }
    ensures cause { HasCause (M.faults media.old) (M.faults media.new) result }
    ensures tell_faults { M.tell_faults media.new ≡ M.tell_faults media.old }
{
    let fields = fields(following(log.turn), start, size);
    settle_fields(media, log.file, log.other(), &fields)?;
    Ok(())
}

/// Opens the other slot, which has the next place.
fn open_other<M: Media>(log: &LogState, media: &mut M, start: u64, size: u64) -> Result<(), Failed>
    requires here { IsTrue (M.present media.old log.now.file) }
    requires named { M.tells → IsNamed (as_read M.seen) M.seen log.now (place_for log.now start size) media.old }
    requires next { M.tells → IsNext log.now (place_for log.now start size) ((M.seen media.old).file log.now.file) }
    ensures ready { M.tells → OnOk result (IsReady (as_read M.seen) M.seen (moved_to log.now (place_for log.now start size)) media.new) }
    ensures still { M.tells → OnOk result (IsStill M.time M.seen log.now.file media.new) }
    ensures same { M.tells → OnOk result (SameBehind ((M.seen media.old).file log.now.file) ((M.seen media.new).file log.now.file)) }
    ensures frame { M.tells → OnOk result (AtFile log.now.file Any (M.seen media.old) (M.seen media.new)) }
    ensures told { M.tells → (M.seen media.new).told ≡ (M.seen media.old).told }
    ensures crash { M.tells → IsNamed M.time M.seen log.now (place_for log.now start size) media.old → Leads M.time media.old media.new (AtFile log.now.file (HasOneOf (settled_bytes log.now ((M.seen media.old).file log.now.file)) (span start size ((M.seen media.old).file log.now.file)))) }
    ensures count { M.count media.new ≡ M.count media.old }
    ensures present { M.present media.new ≡ M.present media.old }
    ensures cause { HasCause (M.faults media.old) (M.faults media.new) result }
    ensures tell_faults { M.tell_faults media.new ≡ M.tell_faults media.old }
{
    settle(media, log.file, log.other(), &[OPEN])?;
    Ok(())
}

/// Makes the other slot the current one, at this place. A crash leaves the settled log or the bytes of this place.
pub fn turn_over<M: Media>(
    log: &LogState,
    media: &mut M,
    start: u64,
    size: u64,
) -> Result<(), Failed>
    requires here { IsTrue (M.present media.old log.now.file) }
    requires turn { log.now.turn ≤ 2 }
    requires fine { IsFine (place_for log.now start size) }
    requires ready { M.tells → IsReady (as_read M.seen) M.seen log.now media.old }
    requires within { M.tells → start + size ≤ length ((M.seen media.old).file log.now.file) }
    ensures ready { M.tells → OnOk result (IsReady (as_read M.seen) M.seen (moved_to log.now (place_for log.now start size)) media.new) }
    ensures still { M.tells → OnOk result (IsStill M.time M.seen log.now.file media.new) }
    ensures same { M.tells → OnOk result (SameBehind ((M.seen media.old).file log.now.file) ((M.seen media.new).file log.now.file)) }
    ensures frame { M.tells → OnOk result (AtFile log.now.file Any (M.seen media.old) (M.seen media.new)) }
    ensures told { M.tells → (M.seen media.new).told ≡ (M.seen media.old).told }
    ensures crash { M.tells → IsReady M.time M.seen log.now media.old → Leads M.time media.old media.new (AtFile log.now.file (HasOneOf (settled_bytes log.now ((M.seen media.old).file log.now.file)) (span start size ((M.seen media.old).file log.now.file)))) }
    ensures count { M.count media.new ≡ M.count media.old }
    ensures present { M.present media.new ≡ M.present media.old }
    ensures cause { HasCause (M.faults media.old) (M.faults media.new) result }
    ensures tell_faults { M.tell_faults media.new ≡ M.tell_faults media.old }
{
    close_other(log, media)?;
    name_place(log, media, start, size)?;
    open_other(log, media, start, size)?;
    Ok(())
}
