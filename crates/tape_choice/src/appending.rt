//! The place at which a dump is appended.

ghost use Rattle.std.specs.Prelude.{◌≡◌, ◌≢◌, ◌↔◌, ◌≤◌, ◌-◌, [], ℕ, Bool, List as AnyList, Some, None, Err, IfOk, IfSome, IsSome, IsTrue};
ghost use Rattle.std.specs.Option.{option_copied};
ghost use Rattle.bk_text.specs.Alphabets.{IsTapeName};
ghost use Rattle.byte_formats.specs.Forms.{IsMaybe};
ghost use Rattle.crash_moments.specs.Moments.{HasCauseAt};
ghost use Rattle.plant_core.specs.Records.{NoBad};
ghost use Rattle.plant_effects.specs.Runs.{state_of, loaded_of, Done, Leaves, SameNumbers, StaysQuiet};
ghost use Rattle.tape_text.specs.Items.{Item, Read};
ghost use Rattle.tape_scan.specs.Slots.{Slot};
ghost use Rattle.tape_choice.specs.Scene.{UnlessFailed};
ghost use Rattle.tape_scan.specs.Looking.{HasSlots, Loads, LeavesLoads};
ghost use Rattle.tape_choice.specs.Append.{AreWhole, append_set, append_slot, appending, no_tape};
ghost use Rattle.tape_choice.specs.Surveys.{IsPlace, name_first, name_of, front_of, stands_on, place_with, behind_with, place_at, place_in, told_of, IsBehind, IsPut, IsAppendable, IsFoundAppendable};

use crate::fault::ChoiceFault;
use crate::lasts::{LastPart, append_set, last_part, latest_of};
use crate::places::{Appending, Place};
use crate::reading::{First, read_first};
use crate::survey::{Survey, count_records, is_head_at};
use bk_text::{Bytes, SetName};
use budb_changes::DumpRecord;
use plant_core::Plant;
use plant_effects::{is_whole, load_tape};
use std::alloc::{AllocError, Global};
use tape_config::Port;

/// The permanent name of a label of a dump set's tape.
fn name_first(first: First, initial: u32, tape: u32) -> Option<Bytes>
    ensures is { result ≡ name_first initial tape first }
    ensures form { IfSome result (IsMaybe IsTapeName) }
    ensures some { IfSome result (λ name. 1 ≤ tape → 1 ≤ initial) }
{
    match first {
        First::Blank => None,
        First::Label(label) => {
            let fields = label.into_fields();
            if fields.initial == initial && fields.tape == tape {
                Some(fields.permanent)
            } else {
                None
            }
        }
        First::Other => None,
    }
}

/// The permanent name of the tape in a slot that is here, where its label is that of a dump set's tape. The loaded tape stays.
fn read_name<P: Plant>(
    alloc: Global,
    plant: &mut P,
    slot: u32,
    initial: u32,
    tape: u32,
) -> Result<Option<Bytes>, ChoiceFault>
    requires sound { P.sound plant.old }
    requires here { IsTrue ((P.view plant.old).present slot) }
    ensures is { P.tells → (items : AnyList Item) → Read ((state_of P.Plant plant.old).tape slot) items → IfOk result (λ name. name ≡ name_of initial tape items) }
    ensures form { IfOk result (λ name. IfSome name (IsMaybe IsTapeName)) }
    ensures some { IfOk result (λ name. IfSome name (λ name. 1 ≤ tape → 1 ≤ initial)) }
    ensures done { UnlessFailed result (Done P.Plant [] plant.old plant.new) }
    ensures leaves { Leaves P.Plant [] plant.old plant.new }
    ensures numbers { UnlessFailed result (SameNumbers P.Plant plant.old plant.new) }
    ensures stays { StaysQuiet P.Plant plant.old plant.new }
    ensures cause { HasCauseAt ChoiceFault.Failed (P.view plant.old).faults (P.view plant.new).faults result }
{
    let first = read_first(alloc, plant, slot)?;
    Ok(name_first(first, initial, tape))
}

/// What is counted of the first records of the loaded tape, where it has no bad record and so many of these are filemarks.
fn count_front<P: Plant>(plant: &mut P, end: u32, marks: u32) -> Result<Option<Survey>, ChoiceFault>
    requires sound { P.sound plant.old }
    requires loaded { IsSome (loaded_of P.Plant plant.old) }
    requires within { end ≤ (P.view plant.old).records }
    ensures is { P.tells → (k : ℕ) (items : AnyList Item) (whole : Bool) → loaded_of P.Plant plant.old ≡ Some k → Read ((state_of P.Plant plant.old).tape k) items → (IsTrue whole ↔ NoBad ((state_of P.Plant plant.old).tape k)) → IfOk result (λ seen. seen ≡ front_of end marks whole items) }
    ensures done { UnlessFailed result (Done P.Plant [] plant.old plant.new) }
    ensures leaves { Leaves P.Plant [] plant.old plant.new }
    ensures numbers { UnlessFailed result (SameNumbers P.Plant plant.old plant.new) }
    ensures stays { StaysQuiet P.Plant plant.old plant.new }
    ensures cause { HasCauseAt ChoiceFault.Failed (P.view plant.old).faults (P.view plant.new).faults result }
    ensures never { result ≢ Err ChoiceFault.Memory }
{
    if !is_whole(plant)? {
        return Ok(None);
    }
    let seen = count_records(plant, end)?;
    if seen.marks == marks {
        Ok(Some(seen))
    } else {
        Ok(None)
    }
}

/// What is counted of the loaded tape, where it is as the record of the last dump says.
fn stands_on<P: Plant>(
    alloc: Global,
    plant: &mut P,
    last: &LastPart<'_>,
) -> Result<Option<Survey>, ChoiceFault>
    requires sound { P.sound plant.old }
    requires loaded { IsSome (loaded_of P.Plant plant.old) }
    ensures is { P.tells → (k : ℕ) (items : AnyList Item) (whole : Bool) → loaded_of P.Plant plant.old ≡ Some k → Read ((state_of P.Plant plant.old).tape k) items → (IsTrue whole ↔ NoBad ((state_of P.Plant plant.old).tape k)) → IfOk result (λ seen. seen ≡ stands_on last.now whole items) }
    ensures marks { IfOk result (λ seen. IfSome seen (λ seen. last.now.part.marks ≤ last.now.part.end - last.now.part.marks)) }
    ensures some { IfOk result (λ seen. IfSome seen (λ seen. 1 ≤ last.now.part.tape)) }
    ensures done { UnlessFailed result (Done P.Plant [] plant.old plant.new) }
    ensures leaves { Leaves P.Plant [] plant.old plant.new }
    ensures numbers { UnlessFailed result (SameNumbers P.Plant plant.old plant.new) }
    ensures stays { StaysQuiet P.Plant plant.old plant.new }
    ensures cause { HasCauseAt ChoiceFault.Failed (P.view plant.old).faults (P.view plant.new).faults result }
{
    let part = last.part;
    if !is_head_at(alloc, plant, part.first, last.dump.fields().id, part.tape)? {
        return Ok(None);
    }
    if part.end > plant.tape_len() {
        return Ok(None);
    }
    if part.marks > part.end.saturating_sub(part.marks) {
        return Ok(None);
    }
    count_front(plant, part.end, part.marks)
}

/// The place behind the last dump of a tape.
fn place_of(
    last: &LastPart<'_>,
    slot: u32,
    seen: Survey,
    permanent: Bytes,
) -> Result<Place, AllocError>
    requires { last.now.part.marks ≤ last.now.part.end - last.now.part.marks }
    ensures { IfOk result (λ place. place ≡ place_with last.now slot seen permanent) }
{
    let part = last.part;
    let fields = last.dump.fields();
    Ok(Place {
        slot,
        initial: fields.initial,
        tape: part.tape,
        base: fields.base.clone()?,
        end: part.end,
        marks: part.marks,
        blocks: part.end - part.marks,
        uses: if seen.uses == 0 { 1 } else { seen.uses },
        permanent,
    })
}

/// Loads the tape in a slot that is here, and looks whether a dump may be appended to it.
fn look_at<P: Plant>(
    alloc: Global,
    plant: &mut P,
    last: &LastPart<'_>,
    slot: u32,
) -> Result<Option<Survey>, ChoiceFault>
    requires sound { P.sound plant.old }
    requires here { IsTrue ((P.view plant.old).present slot) }
    ensures is { P.tells → (items : AnyList Item) (whole : Bool) → Read ((state_of P.Plant plant.old).tape slot) items → (IsTrue whole ↔ NoBad ((state_of P.Plant plant.old).tape slot)) → IfOk result (λ seen. seen ≡ stands_on last.now whole items) }
    ensures marks { IfOk result (λ seen. IfSome seen (λ seen. last.now.part.marks ≤ last.now.part.end - last.now.part.marks)) }
    ensures some { IfOk result (λ seen. IfSome seen (λ seen. 1 ≤ last.now.part.tape)) }
    ensures loads { UnlessFailed result (Loads P.Plant plant.old plant.new) }
    ensures leaves { LeavesLoads P.Plant plant.old plant.new }
    ensures log_size { UnlessFailed result ((P.view plant.new).log_size ≡ (P.view plant.old).log_size) }
    ensures stays { StaysQuiet P.Plant plant.old plant.new }
    ensures cause { HasCauseAt ChoiceFault.Failed (P.view plant.old).faults (P.view plant.new).faults result }
{
    load_tape(plant, slot)?;
    stands_on(alloc, plant, last)
}

/// The place at which a dump may be appended in a slot that is here, whose label is that of the tape.
fn look_behind<P: Plant>(
    alloc: Global,
    plant: &mut P,
    last: &LastPart<'_>,
    slot: u32,
    permanent: Bytes,
) -> Result<Option<Place>, ChoiceFault>
    requires sound { P.sound plant.old }
    requires here { IsTrue ((P.view plant.old).present slot) }
    ensures is { P.tells → (items : AnyList Item) (whole : Bool) → Read ((state_of P.Plant plant.old).tape slot) items → (IsTrue whole ↔ NoBad ((state_of P.Plant plant.old).tape slot)) → IfOk result (λ place. place ≡ behind_with last.now slot permanent (stands_on last.now whole items)) }
    ensures form { IfOk result (λ place. IfSome place (λ place. IsBehind last.now slot permanent place)) }
    ensures loads { UnlessFailed result (Loads P.Plant plant.old plant.new) }
    ensures leaves { LeavesLoads P.Plant plant.old plant.new }
    ensures log_size { UnlessFailed result ((P.view plant.new).log_size ≡ (P.view plant.old).log_size) }
    ensures stays { StaysQuiet P.Plant plant.old plant.new }
    ensures cause { HasCauseAt ChoiceFault.Failed (P.view plant.old).faults (P.view plant.new).faults result }
{
    let Some(seen) = look_at(alloc, plant, last, slot)? else {
        return Ok(None);
    };
    Ok(Some(place_of(last, slot, seen, permanent)?))
}

/// The place at which a dump may be appended in a slot, where the slot passes.
fn try_place<P: Plant>(
    alloc: Global,
    plant: &mut P,
    last: &LastPart<'_>,
    slot: u32,
) -> Result<Option<Place>, ChoiceFault>
    requires sound { P.sound plant.old }
    requires place { IsPlace last.now }
    ensures is { P.tells → (s : Slot) (whole : ℕ → Bool) → s.here ≡ (P.view plant.old).present slot → Read ((state_of P.Plant plant.old).tape slot) s.items → (IsTrue (whole slot) ↔ NoBad ((state_of P.Plant plant.old).tape slot)) → IfOk result (λ place. place ≡ place_at last.now whole slot s) }
    ensures here { IfOk result (λ place. IfSome place (λ place. IsTrue ((P.view plant.old).present slot))) }
    ensures form { IfOk result (λ place. IfSome place (λ place. IsPut slot place)) }
    ensures loads { UnlessFailed result (Loads P.Plant plant.old plant.new) }
    ensures leaves { LeavesLoads P.Plant plant.old plant.new }
    ensures log_size { UnlessFailed result ((P.view plant.new).log_size ≡ (P.view plant.old).log_size) }
    ensures stays { StaysQuiet P.Plant plant.old plant.new }
    ensures cause { HasCauseAt ChoiceFault.Failed (P.view plant.old).faults (P.view plant.new).faults result }
{
    if !plant.here(slot) {
        return Ok(None);
    }
    let initial = last.dump.fields().initial;
    let Some(permanent) = read_name(alloc, plant, slot, initial, last.part.tape)? else {
        return Ok(None);
    };
    look_behind(alloc, plant, last, slot, permanent)
}

/// The least of a coordinator's slots at which a dump may be appended behind the last one of a tape.
fn find_place<P: Plant>(
    alloc: Global,
    plant: &mut P,
    last: &LastPart<'_>,
    port: &Port,
) -> Result<Option<Place>, ChoiceFault>
    requires sound { P.sound plant.old }
    requires place { IsPlace last.now }
    ensures is { P.tells → (slots : AnyList Slot) (whole : ℕ → Bool) → HasSlots P.Plant slots plant.old → AreWhole P.Plant whole plant.old → IfOk result (λ place. place ≡ place_in last.now (append_slot last.now.dump last.now.part port.now whole slots)) }
    ensures form { IfOk result (λ place. IfSome place (IsAppendable (P.view plant.old).present port.now)) }
    ensures loads { UnlessFailed result (Loads P.Plant plant.old plant.new) }
    ensures leaves { LeavesLoads P.Plant plant.old plant.new }
    ensures log_size { UnlessFailed result ((P.view plant.new).log_size ≡ (P.view plant.old).log_size) }
    ensures stays { StaysQuiet P.Plant plant.old plant.new }
    ensures cause { HasCauseAt ChoiceFault.Failed (P.view plant.old).faults (P.view plant.new).faults result }
{
    let fields = port.fields();
    for slot in fields.first..fields.last + 1 {
        if let Some(place) = try_place(alloc, plant, last, slot)? {
            return Ok(Some(place));
        }
    }
    Ok(None)
}

/// What is told of a dump set no dump of which names a tape.
fn no_tape(latest: Option<&DumpRecord>) -> Result<Appending, AllocError>
    ensures { IfOk result (λ told. told ≡ no_tape (option_copied latest.entry)) }
{
    match latest {
        None => Ok(Appending::NoSet),
        Some(dump) => Ok(Appending::NotFound {
            base: dump.fields().base.clone()?,
            tape: 0,
        }),
    }
}

/// What is told of a place, and where there is none of its tape.
fn told(last: &LastPart<'_>, place: Option<Place>) -> Result<Appending, AllocError>
    ensures { IfOk result (λ told. told ≡ told_of last.now place) }
{
    match place {
        None => Ok(Appending::NotFound {
            base: last.dump.fields().base.clone()?,
            tape: last.part.tape,
        }),
        Some(place) => Ok(Appending::Found(place)),
    }
}

/// Finds where a dump of a volume set is appended: behind the last listed dump of the last tape of the dump set with the
/// greatest initial id of that volume set. The tape is looked for among the coordinator's slots that are here, the least
/// first: by its label, and by the head of that dump at the record that the database names; it must have no bad record,
/// and stand as the database says up to the dump's end. Slots whose tapes don't pass are passed by (this project's own
/// rules). Tapes whose labels match are loaded; nothing else is changed.
pub fn find_append<P: Plant>(
    alloc: Global,
    plant: &mut P,
    listed: &[DumpRecord],
    set: &SetName,
    port: &Port,
) -> Result<Appending, ChoiceFault>
    requires { P.sound plant.old }
    ensures appending { P.tells → (slots : AnyList Slot) (whole : ℕ → Bool) → HasSlots P.Plant slots plant.old → AreWhole P.Plant whole plant.old → IfOk result (λ told. told ≡ appending listed.now set.now port.now whole slots) }
    ensures no_set { IfOk result (λ told. told ≡ Appending.NoSet → append_set listed.now set.now ≡ None) }
    ensures is_no_set { IfOk result (λ told. append_set listed.now set.now ≡ None → told ≡ Appending.NoSet) }
    ensures form { IfOk result (IsFoundAppendable (P.view plant.old).present port.now) }
    ensures loads { UnlessFailed result (Loads P.Plant plant.old plant.new) }
    ensures leaves { LeavesLoads P.Plant plant.old plant.new }
    ensures log_size { UnlessFailed result ((P.view plant.new).log_size ≡ (P.view plant.old).log_size) }
    ensures stays { StaysQuiet P.Plant plant.old plant.new }
    ensures cause { HasCauseAt ChoiceFault.Failed (P.view plant.old).faults (P.view plant.new).faults result }
{
    let Some(initial) = append_set(listed, set) else {
        return Ok(Appending::NoSet);
    };
    let Some(last) = last_part(listed, initial) else {
        return Ok(no_tape(latest_of(listed, initial))?);
    };
    let place = find_place(alloc, plant, &last, port)?;
    Ok(told(&last, place)?)
}
