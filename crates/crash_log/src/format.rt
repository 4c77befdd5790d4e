// A blank file and a damaged one become a log without bytes. A crash at any moment leaves an empty log.
ghost use Rattle.std.specs.Prelude.{◌≡◌, ◌≢◌, ◌⊎◌, ◌↔◌, ◌+◌, ◌<◌, ◌≤◌, [], List, ℕ, length, OnOk, IsTrue};
ghost use Rattle.crash_moments.specs.Moments.{Leads, HasCause};
ghost use Rattle.media_core.specs.Media.{Image, AtFile};
ghost use Rattle.crash_log.specs.Log.{gate_at, HasLog, Any};
ghost use Rattle.crash_log.specs.Fit.{IsStill, as_read};
ghost use Rattle.crash_log.specs.Format.{IsFront, HasNoGood, IsShut, IsPlaced, IsFormatted, Has};

use crate::settle::settle;
use crate::state::{CLOSED, OPEN, SLOT, SLOTS};
use crate::turn::{fields, settle_fields};
use media_core::{Failed, Media};

/// How long the slots are without their last byte.
const FRONT: usize = SLOTS as usize - 1;

/// Bytes 0 to 8,190 of a log without bytes: the first slot has gate 1, turn 0, start 8,192 and size 0, the second one is
/// closed.
fn front() -> [u8; FRONT]
    ensures { IsFront result }
{
    let mut bytes = [CLOSED; FRONT];
    bytes[0] = OPEN;
    bytes[1..24].copy_from_slice(&fields(0, SLOTS, 0));
    bytes
}

/// Writes all but the last byte of the slots. The file stays blank, since it is shorter than they are.
fn write_front<M: Media>(media: &mut M, f: u32) -> Result<(), Failed>
    requires here { IsTrue (M.present media.old f) }
    requires short { M.tells → length ((M.seen media.old).file f) < SLOTS }
    ensures front { M.tells → OnOk result (Has (as_read M.seen) M.seen IsFront f media.new) }
    ensures still { M.tells → OnOk result (IsStill M.time M.seen f media.new) }
    ensures frame { M.tells → OnOk result (AtFile f Any (M.seen media.old) (M.seen media.new)) }
    ensures told { M.tells → (M.seen media.new).told ≡ (M.seen media.old).told }
    ensures crash { M.tells → IsStill M.time M.seen f media.old → Leads M.time media.old media.new (AtFile f (HasLog [])) }
    ensures count { M.count media.new ≡ M.count media.old }
    ensures present { M.present media.new ≡ M.present media.old }
    ensures cause { HasCause (M.faults media.old) (M.faults media.new) result }
    ensures tell_faults { M.tell_faults media.new ≡ M.tell_faults media.old }
{
    settle(media, f, 0, &front())?;
    Ok(())
}

/// Writes the last byte of the slots.
fn write_end<M: Media>(media: &mut M, f: u32) -> Result<(), Failed>
    requires here { IsTrue (M.present media.old f) }
    requires front { M.tells → Has (as_read M.seen) M.seen IsFront f media.old }
    ensures formatted { M.tells → OnOk result (Has (as_read M.seen) M.seen IsFormatted f media.new) }
    ensures still { M.tells → OnOk result (IsStill M.time M.seen f media.new) }
    ensures frame { M.tells → OnOk result (AtFile f Any (M.seen media.old) (M.seen media.new)) }
    ensures told { M.tells → (M.seen media.new).told ≡ (M.seen media.old).told }
    ensures crash { M.tells → Has M.time M.seen IsFront f media.old → Leads M.time media.old media.new (AtFile f (HasLog [])) }
    ensures count { M.count media.new ≡ M.count media.old }
    ensures present { M.present media.new ≡ M.present media.old }
    ensures cause { HasCause (M.faults media.old) (M.faults media.new) result }
    ensures tell_faults { M.tell_faults media.new ≡ M.tell_faults media.old }
{
    settle(media, f, FRONT as u64, &[CLOSED])?;
    Ok(())
}

/// Formats a blank file.
pub fn format_blank<M: Media>(media: &mut M, f: u32) -> Result<(), Failed>
    requires here { IsTrue (M.present media.old f) }
    requires short { M.tells → length ((M.seen media.old).file f) < SLOTS }
    ensures formatted { M.tells → OnOk result (Has (as_read M.seen) M.seen IsFormatted f media.new) }
    ensures still { M.tells → OnOk result (IsStill M.time M.seen f media.new) }
    ensures frame { M.tells → OnOk result (AtFile f Any (M.seen media.old) (M.seen media.new)) }
    ensures told { M.tells → (M.seen media.new).told ≡ (M.seen media.old).told }
    ensures crash { M.tells → IsStill M.time M.seen f media.old → Leads M.time media.old media.new (AtFile f (HasLog [])) }
    ensures count { M.count media.new ≡ M.count media.old }
    ensures present { M.present media.new ≡ M.present media.old }
    ensures cause { HasCause (M.faults media.old) (M.faults media.new) result }
    ensures tell_faults { M.tell_faults media.new ≡ M.tell_faults media.old }
{
    write_front(media, f)?;
    write_end(media, f)?;
    Ok(())
}

/// Closes the gate of the slot at a base, where it is open. A gate that isn't 1 isn't written again.
fn close_gate<M: Media>(media: &mut M, f: u32, base: u64, is_open: bool) -> Result<(), Failed>
    requires here { IsTrue (M.present media.old f) }
    requires base { (base ≡ 0) ⊎ (base ≡ SLOT) }
    requires bad { M.tells → Has (as_read M.seen) M.seen HasNoGood f media.old }
    requires gate { M.tells → (IsTrue is_open ↔ (gate_at base ((M.seen media.old).file f) ≡ 1)) }
    ensures bad { M.tells → OnOk result (Has (as_read M.seen) M.seen HasNoGood f media.new) }
    ensures survives { M.tells → Has M.time M.seen HasNoGood f media.old → OnOk result (Has M.time M.seen HasNoGood f media.new) }
    ensures shut { M.tells → OnOk result (gate_at base ((M.seen media.new).file f) ≢ 1) }
    ensures others { M.tells → OnOk result ((o : ℕ) → (o + 1 ≤ base) ⊎ (base + 1 ≤ o) → gate_at o ((M.seen media.new).file f) ≡ gate_at o ((M.seen media.old).file f)) }
    ensures frame { M.tells → OnOk result (AtFile f Any (M.seen media.old) (M.seen media.new)) }
    ensures told { M.tells → (M.seen media.new).told ≡ (M.seen media.old).told }
    ensures crash { M.tells → Has M.time M.seen HasNoGood f media.old → Leads M.time media.old media.new (AtFile f (HasLog [])) }
    ensures count { M.count media.new ≡ M.count media.old }
    ensures present { M.present media.new ≡ M.present media.old }
    ensures cause { HasCause (M.faults media.old) (M.faults media.new) result }
    ensures tell_faults { M.tell_faults media.new ≡ M.tell_faults media.old }
{
    if is_open {
        settle(media, f, base, &[CLOSED])?;
        return Ok(());
    }
    Ok(())
}

/// Closes both gates of a damaged file, of which it is known which are open.
fn close_gates<M: Media>(media: &mut M, f: u32, first: bool, second: bool) -> Result<(), Failed>
    requires here { IsTrue (M.present media.old f) }
    requires bad { M.tells → Has (as_read M.seen) M.seen HasNoGood f media.old }
    requires first { M.tells → (IsTrue first ↔ (gate_at 0 ((M.seen media.old).file f) ≡ 1)) }
    requires second { M.tells → (IsTrue second ↔ (gate_at SLOT ((M.seen media.old).file f) ≡ 1)) }
    ensures shut { M.tells → OnOk result (Has (as_read M.seen) M.seen IsShut f media.new) }
    ensures survives { M.tells → Has M.time M.seen HasNoGood f media.old → OnOk result (Has M.time M.seen IsShut f media.new) }
    ensures frame { M.tells → OnOk result (AtFile f Any (M.seen media.old) (M.seen media.new)) }
    ensures told { M.tells → (M.seen media.new).told ≡ (M.seen media.old).told }
    ensures crash { M.tells → Has M.time M.seen HasNoGood f media.old → Leads M.time media.old media.new (AtFile f (HasLog [])) }
    ensures count { M.count media.new ≡ M.count media.old }
    ensures present { M.present media.new ≡ M.present media.old }
    ensures cause { HasCause (M.faults media.old) (M.faults media.new) result }
    ensures tell_faults { M.tell_faults media.new ≡ M.tell_faults media.old }
{
    close_gate(media, f, 0, first)?;
    close_gate(media, f, SLOT, second)?;
    Ok(())
}

/// Writes the first slot's fields. Its gate is closed.
fn write_place<M: Media>(media: &mut M, f: u32) -> Result<(), Failed>
    requires here { IsTrue (M.present media.old f) }
    requires shut { M.tells → Has (as_read M.seen) M.seen IsShut f media.old }
    ensures placed { M.tells → OnOk result (Has (as_read M.seen) M.seen IsPlaced f media.new) }
    ensures still { M.tells → OnOk result (IsStill M.time M.seen f media.new) }
    ensures frame { M.tells → OnOk result (AtFile f Any (M.seen media.old) (M.seen media.new)) }
    ensures told { M.tells → (M.seen media.new).told ≡ (M.seen media.old).told }
    ensures crash { M.tells → Has M.time M.seen IsShut f media.old → Leads M.time media.old media.new (AtFile f (HasLog [])) }
    ensures count { M.count media.new ≡ M.count media.old }
    ensures present { M.present media.new ≡ M.present media.old }
    ensures cause { HasCause (M.faults media.old) (M.faults media.new) result }
    ensures tell_faults { M.tell_faults media.new ≡ M.tell_faults media.old }
{
    let fields = fields(0, SLOTS, 0);
    settle_fields(media, f, 0, &fields)?;
    Ok(())
}

/// Opens the first slot, which has its fields.
fn open_first<M: Media>(media: &mut M, f: u32) -> Result<(), Failed>
    requires here { IsTrue (M.present media.old f) }
    requires placed { M.tells → Has (as_read M.seen) M.seen IsPlaced f media.old }
    ensures formatted { M.tells → OnOk result (Has (as_read M.seen) M.seen IsFormatted f media.new) }
    ensures still { M.tells → OnOk result (IsStill M.time M.seen f media.new) }
    ensures frame { M.tells → OnOk result (AtFile f Any (M.seen media.old) (M.seen media.new)) }
    ensures told { M.tells → (M.seen media.new).told ≡ (M.seen media.old).told }
    ensures crash { M.tells → Has M.time M.seen IsPlaced f media.old → Leads M.time media.old media.new (AtFile f (HasLog [])) }
    ensures count { M.count media.new ≡ M.count media.old }
    ensures present { M.present media.new ≡ M.present media.old }
    ensures cause { HasCause (M.faults media.old) (M.faults media.new) result }
    ensures tell_faults { M.tell_faults media.new ≡ M.tell_faults media.old }
{
    settle(media, f, 0, &[OPEN])?;
    Ok(())
}

/// Formats a damaged file, of which it is known which gates are open.
pub fn format_damaged<M: Media>(
    media: &mut M,
    f: u32,
    first: bool,
    second: bool,
) -> Result<(), Failed>
    requires here { IsTrue (M.present media.old f) }
    requires bad { M.tells → Has (as_read M.seen) M.seen HasNoGood f media.old }
    requires first { M.tells → (IsTrue first ↔ (gate_at 0 ((M.seen media.old).file f) ≡ 1)) }
    requires second { M.tells → (IsTrue second ↔ (gate_at SLOT ((M.seen media.old).file f) ≡ 1)) }
    ensures formatted { M.tells → OnOk result (Has (as_read M.seen) M.seen IsFormatted f media.new) }
    ensures still { M.tells → OnOk result (IsStill M.time M.seen f media.new) }
    ensures frame { M.tells → OnOk result (AtFile f Any (M.seen media.old) (M.seen media.new)) }
    ensures told { M.tells → (M.seen media.new).told ≡ (M.seen media.old).told }
    ensures crash { M.tells → Has M.time M.seen HasNoGood f media.old → Leads M.time media.old media.new (AtFile f (HasLog [])) }
    ensures count { M.count media.new ≡ M.count media.old }
    ensures present { M.present media.new ≡ M.present media.old }
    ensures cause { HasCause (M.faults media.old) (M.faults media.new) result }
    ensures tell_faults { M.tell_faults media.new ≡ M.tell_faults media.old }
{
    close_gates(media, f, first, second)?;
    write_place(media, f)?;
    open_first(media, f)?;
    Ok(())
}
