//! The next dump of a chain, all of whose fragments were found.

ghost use Rattle.std.specs.Prelude.{◌≡◌, ◌≢◌, ◌+◌, ◌<◌, false, [], ℕ, Option as AnyOption, Some, None, List as AnyList, is_some, length, get_or, Err, IfOk, OnOk, IsTrue};
ghost use Rattle.std.specs.List.{list_any};
ghost use Rattle.budb_changes.specs.declared.records.VolRecordFields.{VolRecordFields as AnyVolume};
ghost use Rattle.budb_changes.specs.declared.records.DumpRecordFields.{DumpRecordFields as AnyDump};
ghost use Rattle.budb_fold.specs.Lookups.{VolumeDump, volume_of};
ghost use Rattle.tape_scan.specs.Slots.{Slot};
ghost use Rattle.tape_frames.specs.TapeNames.{numbered};
ghost use Rattle.archive_model.specs.Holding.{called_for};
ghost use Rattle.restore_chain.specs.Keeping.{AllRead};
ghost use Rattle.mount_plan.specs.Courses.{is_unread, missing_tape, first_missing, MakesNext, Awaits, IsGoing};

use crate::course::{Going, Missed};
use crate::told::{Told, told_of};
use budb_changes::DumpRecord;
use restore_chain::{Kept, LookFault, play_kept};
use std::alloc::Global;
use tape_frames::tape_name;
use vnode_model::Volume;

/// What a dump makes of the volume so far.
#[derive(Drop)]
pub enum Outcome {
    /// A volume.
    Made(Volume),
    /// A fault.
    Faulted(Told),
}

/// Whether nothing is kept of a fragment.
fn is_unread(kept: &Kept) -> bool
    ensures { result ≡ is_unread kept.now }
{
    match kept {
        Kept::Unread => true,
        Kept::Missing(_) => false,
        Kept::Held => false,
        Kept::Whole { .. } => false,
        Kept::Bad(_) => false,
    }
}

/// Whether nothing is kept of some fragment.
fn is_some_unread(all: &[Kept]) -> bool
    ensures { result ≡ list_any is_unread all.now }
{
    all.iter().any(|kept| is_unread(kept))
}

/// The tape of a fragment, where it is missing.
fn missing_tape(kept: &Kept) -> Option<u32>
    ensures { result ≡ missing_tape kept.now }
{
    match kept {
        Kept::Missing(tape) => Some(*tape),
        Kept::Unread => None,
        Kept::Held => None,
        Kept::Whole { .. } => None,
        Kept::Bad(_) => None,
    }
}

/// The tape of the first fragment whose tape is missing.
fn first_missing(all: &[Kept]) -> Option<u32>
    ensures { result ≡ first_missing all.now }
{
    for kept in all {
        match missing_tape(kept) {
            Some(tape) => return Some(tape),
            None => {}
        }
    }
    None
}

/// Plays the next dump of a chain over the volume so far.
fn make_next(
    alloc: Global,
    dump: &DumpRecord,
    going: &Going,
    base: Option<Volume>,
) -> Result<Outcome, LookFault>
    ensures makes { (slots : AnyList Slot) (v : AnyVolume) → volume_of dump.now going.now.name ≡ Some v → AllRead slots dump.now (called_for dump.now going.now.name) going.now.kept.items → IfOk result (MakesNext slots going.now.name dump.now base) }
    ensures never { result ≢ Err LookFault.Failed }
{
    let all = going.kept.as_slice();
    match play_kept(alloc, dump, going.name.bytes(), all, base) {
        Ok(volume) => Ok(Outcome::Made(volume)),
        Err(fault) => match told_of(fault) {
            Ok(told) => Ok(Outcome::Faulted(told)),
            Err(fault) => Err(fault),
        },
    }
}

/// Goes on to the dump behind.
fn pass_on(going: &mut Going)
    ensures name { going.new.name ≡ going.old.name }
    ensures dumps { going.new.dumps ≡ going.old.dumps }
    ensures played { going.old.played < length going.old.dumps → going.new.played ≡ going.old.played + 1 }
    ensures volume { going.new.volume ≡ going.old.volume }
    ensures fault { going.new.fault ≡ going.old.fault }
    ensures missing { going.new.missing ≡ going.old.missing }
    ensures kept { going.new.kept.items ≡ [] }
{
    let count = going.dumps.len();
    if going.played < count {
        going.played += 1;
    }
    going.kept.clear();
}

/// Plays the next dump of a chain, and goes on to the one behind.
fn play_next(alloc: Global, dump: &DumpRecord, going: &mut Going) -> Result<(), LookFault>
    ensures goes { (slots : AnyList Slot) (listed : AnyList AnyDump) (one : VolumeDump) (id : ℕ) → Awaits slots listed one dump.now id going.old → list_any is_unread going.old.kept.items ≡ false → first_missing going.old.kept.items ≡ None → going.old.fault ≡ None → OnOk result (IsGoing slots listed one going.new) }
    ensures never { result ≢ Err LookFault.Failed }
{
    let base = going.volume.take();
    match make_next(alloc, dump, going, base) {
        Err(fault) => Err(fault),
        Ok(outcome) => match outcome {
            Outcome::Made(volume) => {
                going.volume = Some(volume);
                pass_on(going);
                Ok(())
            }
            Outcome::Faulted(told) => {
                going.fault = Some(told);
                pass_on(going);
                Ok(())
            }
        },
    }
}

/// Plays the next dump of a chain, where no dump before has a fault, and goes on to the one behind.
fn go_on(alloc: Global, dump: &DumpRecord, going: &mut Going) -> Result<(), LookFault>
    ensures goes { (slots : AnyList Slot) (listed : AnyList AnyDump) (one : VolumeDump) (id : ℕ) → Awaits slots listed one dump.now id going.old → list_any is_unread going.old.kept.items ≡ false → first_missing going.old.kept.items ≡ None → OnOk result (IsGoing slots listed one going.new) }
    ensures never { result ≢ Err LookFault.Failed }
{
    if going.fault.is_some() {
        pass_on(going);
        return Ok(());
    }
    play_next(alloc, dump, going)
}

/// Ends a chain with a tape of its next dump, which is missing.
fn miss(alloc: Global, dump: &DumpRecord, tape: u32, going: &mut Going) -> Result<(), LookFault>
    ensures goes { (slots : AnyList Slot) (listed : AnyList AnyDump) (one : VolumeDump) (id : ℕ) → Awaits slots listed one dump.now id going.old → list_any is_unread going.old.kept.items ≡ false → first_missing going.old.kept.items ≡ Some tape → OnOk result (IsGoing slots listed one going.new) }
    ensures never { result ≢ Err LookFault.Failed }
{
    let fields = dump.fields();
    match tape_name(alloc, &fields.base, tape) {
        Err(_) => Err(LookFault::Memory),
        Ok(name) => {
            going.missing = Some(Missed {
                name,
                initial: fields.initial,
            });
            Ok(())
        }
    }
}

/// Ends the next dump of a chain, where all of its fragments were looked for: the first tape that is missing is noted, or the dump is
/// played.
pub(crate) fn end_dump(alloc: Global, dump: &DumpRecord, going: &mut Going) -> Result<(), LookFault>
    ensures goes { (slots : AnyList Slot) (listed : AnyList AnyDump) (one : VolumeDump) (id : ℕ) → Awaits slots listed one dump.now id going.old → OnOk result (IsGoing slots listed one going.new) }
    ensures never { result ≢ Err LookFault.Failed }
{
    if is_some_unread(going.kept.as_slice()) {
        return Ok(());
    }
    match first_missing(going.kept.as_slice()) {
        Some(tape) => miss(alloc, dump, tape, going),
        None => go_on(alloc, dump, going),
    }
}
