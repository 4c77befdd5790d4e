// A look at the first record of a tape.
ghost use Rattle.std.specs.Prelude.{◌≡◌, ◌≢◌, ◌+◌, ◌<◌, ◌≤◌, ℕ, Option, Some, None, IfOk, IfSome, IsTrue};
ghost use Rattle.crash_moments.specs.Moments.{Leads, HasCause};
ghost use Rattle.media_core.specs.Media.{Image, Same};
ghost use Rattle.plant_core.specs.Records.{ShowsFirst};
ghost use Rattle.plant_media.specs.Loaded.{TapeFits};
ghost use Rattle.plant_media.specs.Slots.{tape_at};

use crate::tape::Tape;
use media_core::Media;
use plant_core::{Block, Failed, Kind};

/// Shows the first record of the tape in a slot. Another tape than the loaded one is opened for this look alone.
pub fn look<M: Media>(
    media: &mut M,
    tape: &Option<Tape>,
    slot: u32,
    into: &mut Block,
) -> Result<Option<Kind>, Failed>
    requires slot { slot < 65535 }
    requires here { IsTrue (M.present media.old (slot + 1)) }
    requires loaded { IfSome tape.now (λ t. TapeFits M.tells M.seen M.present t media.old) }
    ensures first { M.tells → IfOk result (λ kind. ShowsFirst (tape_at tape.now (M.seen media.old) slot) kind into.new) }
    ensures seen { M.tells → M.seen media.new ≡ M.seen media.old }
    ensures crash { M.tells → Leads M.time media.old media.new Same }
    ensures count { M.count media.new ≡ M.count media.old }
    ensures present { M.present media.new ≡ M.present media.old }
    ensures cause { HasCause (M.faults media.old) (M.faults media.new) result }
    ensures tell_faults { M.tell_faults media.new ≡ M.tell_faults media.old }
{
    if let Some(tape) = tape {
        if tape.slot == slot {
            return match tape.first(media, into) {
                Ok(kind) => Ok(kind),
                Err(_) => Err(Failed),
            };
        }
    }
    match Tape::open(media, slot) {
        Ok(tape) => match tape.first(media, into) {
            Ok(kind) => Ok(kind),
            Err(_) => Err(Failed),
        },
        Err(_) => Err(Failed),
    }
}
