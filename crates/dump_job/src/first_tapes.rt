//! The tape on which a dump begins.

ghost use Rattle.std.specs.Prelude.{◌≡◌, ◌≢◌, ◌≤◌, ℕ, Bool, List as AnyList, length, IfOk, IsTrue};
ghost use Rattle.bk_text.specs.Alphabets.{IsTapeName};
ghost use Rattle.byte_formats.specs.Forms.{IsMaybe, base_most};
ghost use Rattle.tape_scan.specs.Slots.{Slot};
ghost use Rattle.tape_choice.specs.declared.choosing.Chosen.{Chosen as AnyChosen};
ghost use Rattle.tape_scan.specs.Looking.{HasSlots};
ghost use Rattle.tape_choice.specs.Choice.{permanent_in};
ghost use Rattle.tape_choice.specs.Append.{AreWhole, appending};
ghost use Rattle.tape_choice.specs.Surveys.{IsAppendable, IsFoundAppendable};
ghost use Rattle.tape_frames.specs.TapeNames.{numbered};
ghost use Rattle.tape_writer.specs.Room.{HasRoom};
ghost use Rattle.dump_job.specs.Reels.{records_on, has_room};
ghost use Rattle.dump_job.specs.Faults.{Answers, Searches};
ghost use Rattle.dump_job.specs.Beginning.{wanting_of, taken_tape, taken_or_none, next_tape, counts_at, place_tape, tape_behind, tape_within, tape_by, tape_found, IsStart, Stands, FoundStands};

use crate::fault::JobFault;
use crate::fields::Reel;
use crate::naming::{base_name, name_of};
use crate::order::DumpOrder;
use bk_text::{Bytes, List, TapeName};
use budb_journal::DumpRecord;
use plant_core::Plant;
use std::alloc::{AllocError, Global};
use tape_choice::{Appending, Chosen, Place, Wanting, choose_tape, find_append, initials_above};
use tape_config::Port;
use tape_frames::{Label, LabelFields};
use tape_writer::Writer;

/// The greatest number of a tape.
const LAST_TAPE: u64 = 4_294_967_295;

/// The tape on which a dump begins.
pub struct FirstTape {
    /// The initial id of the dump set that the dump goes to.
    pub initial: u32,
    /// What the names of the dump set's tapes begin with.
    pub base: TapeName,
    /// The number of the tape in its dump set.
    pub tape: u32,
    /// Its new label, where it is taken; none where the dump is appended to it.
    pub label: Option<Label>,
    /// Its permanent name, empty where it has none.
    pub permanent: Bytes,
    /// How often it was used, where that is known; 1 where it is taken, since that is read before it is cut.
    pub uses: u32,
    /// Its slot, and what stays on it.
    pub reel: Reel,
    /// The dump set that is forgotten when it is taken, by its initial id.
    pub take: Option<u32>,
}

/// It is written out, as an order's is.
impl Drop for FirstTape {
    fn drop(self) {
        let FirstTape {
            initial,
            base,
            tape,
            label,
            permanent,
            uses,
            reel,
            take,
        } = self;
    }
}

impl FirstTape {
    /// The new label, the slot, and what stays on the tape.
    pub(crate) fn into_parts(self) -> (Option<Label>, Reel)
        ensures label { result.0 ≡ self.label }
        ensures reel { result.1 ≡ self.reel }
    {
        let FirstTape {
            initial,
            base,
            tape,
            label,
            permanent,
            uses,
            reel,
            take,
        } = self;
        (label, reel)
    }
}

/// What a dump of this dump set wants of a tape of this name.
fn wanting_of(
    alloc: Global,
    listed: &[DumpRecord],
    order: &DumpOrder,
    initial: u32,
    name: TapeName,
) -> Result<Wanting, AllocError>
    ensures { IfOk result (λ wanting. wanting ≡ wanting_of order.now listed.now initial name) }
{
    Ok(Wanting {
        name,
        checked: order.port.fields().name_check,
        time: order.time,
        initial,
        parents: initials_above(alloc, listed, order.parent)?,
        used: List::new(alloc),
    })
}

/// The permanent name of a tape by its label. It takes no memory.
pub(crate) fn permanent_in(alloc: Global, label: Option<Label>) -> Bytes
    ensures is { result ≡ permanent_in label }
    ensures form { IsMaybe IsTapeName result }
{
    match label {
        None => Bytes::new(alloc),
        Some(label) => label.into_fields().permanent,
    }
}

/// The new label of a tape that is taken under a name.
fn new_label(
    alloc: Global,
    initial: u32,
    number: u32,
    name: &TapeName,
    permanent: &Bytes,
) -> Result<Label, AllocError>
    requires initial { 1 ≤ initial }
    requires number { 1 ≤ number }
    requires permanent { IsMaybe IsTapeName permanent.now }
    ensures { IfOk result (λ label. label ≡ record { initial = initial; tape = number; afs = name.now; permanent = permanent.now }) }
{
    Ok(Label::new(LabelFields {
        initial,
        tape: number,
        afs: Bytes::from_slice(alloc, name.bytes())?,
        permanent: permanent.copy()?,
    }))
}

/// A tape that was chosen, as that of a number of a dump set, under its name.
fn taken_tape(
    alloc: Global,
    initial: u32,
    base: TapeName,
    number: u32,
    name: &TapeName,
    chosen: Chosen,
) -> Result<FirstTape, AllocError>
    requires initial { 1 ≤ initial }
    requires number { 1 ≤ number }
    requires name { name.now ≡ numbered base number }
    ensures is { IfOk result (λ tape. tape ≡ taken_tape initial base number chosen) }
    ensures form { IfOk result (λ tape. IsMaybe IsTapeName tape.permanent) }
{
    let Chosen { slot, label, take } = chosen;
    let permanent = permanent_in(alloc, label);
    let label = new_label(alloc, initial, number, name, &permanent)?;
    Ok(FirstTape {
        initial,
        base,
        tape: number,
        label: Some(label),
        permanent,
        uses: 1,
        reel: Reel {
            slot,
            blocks: 0,
            marks: 0,
        },
        take,
    })
}

/// A tape that was chosen, or that none was.
fn taken_or_none(
    alloc: Global,
    initial: u32,
    base: TapeName,
    number: u32,
    name: TapeName,
    chosen: Option<Chosen>,
) -> Result<FirstTape, JobFault>
    requires initial { 1 ≤ initial }
    requires number { 1 ≤ number }
    requires name { name ≡ numbered base number }
    ensures is { Answers (taken_or_none initial base number chosen) result }
    ensures never { result ≢ Err JobFault.Failed }
    ensures form { IfOk result (λ tape. IsMaybe IsTapeName tape.permanent) }
    ensures taken { IfOk result (λ tape. (c : AnyChosen) × (chosen ≡ Some c) × (tape ≡ taken_tape initial base number c)) }
{
    match chosen {
        None => Err(JobFault::NoTape { name }),
        Some(chosen) => Ok(taken_tape(alloc, initial, base, number, &name, chosen)?),
    }
}

/// Chooses the tape of a number of a dump set, which is taken. No tape has a number above 4,294,967,295.
fn next_tape<P: Plant>(
    alloc: Global,
    plant: &mut P,
    listed: &[DumpRecord],
    order: &DumpOrder,
    initial: u32,
    base: TapeName,
    number: u64,
) -> Result<FirstTape, JobFault>
    requires sound { P.sound plant.old }
    requires initial { 1 ≤ initial }
    requires number { 1 ≤ number }
    requires most { number ≤ 4294967296 }
    ensures told { P.tells → (slots : AnyList Slot) → HasSlots P.Plant slots plant.old → Answers (next_tape order.now listed.now slots initial base number) result }
    ensures form { IfOk result (IsStart (P.view plant.new).present order.now.port) }
    ensures initial { IfOk result (λ tape. tape.initial ≡ initial) }
    ensures stands { IfOk result (λ tape. Stands P.Plant tape.reel.slot (records_on tape.reel) plant.new) }
    ensures plant { Searches P.Plant result plant.old plant.new }
{
    let name = name_of(alloc, &base, number)?;
    if number > LAST_TAPE {
        return Err(JobFault::NoTape { name });
    }
    let wanting = wanting_of(alloc, listed, order, initial, name)?;
    let chosen = choose_tape(alloc, plant, listed, &wanting, &order.port)?;
    let Wanting { name, .. } = wanting;
    taken_or_none(alloc, initial, base, number as u32, name, chosen)
}

/// Whether 5 blocks and 2 filemarks are left behind a place.
fn has_room_behind(port: &Port, place: &Place) -> bool
    requires { place.now.marks ≤ place.now.blocks }
    ensures is { result ≡ has_room 5 2 (counts_at port.now place.now) }
    ensures room { IsTrue result → HasRoom 5 2 (counts_at port.now place.now) }
{
    Writer::new(port, place.blocks, place.marks).has_room(5, 2)
}

/// The tape of a place behind which the dump begins. It takes no memory.
fn place_tape(place: Place) -> FirstTape
    ensures { result ≡ place_tape place }
{
    FirstTape {
        initial: place.initial,
        base: place.base,
        tape: place.tape,
        label: None,
        permanent: place.permanent,
        uses: place.uses,
        reel: Reel {
            slot: place.slot,
            blocks: place.blocks,
            marks: place.marks,
        },
        take: None,
    }
}

/// The tape on which a dump begins that is appended behind a place: that one where there is room, else the next one.
fn tape_behind<P: Plant>(
    alloc: Global,
    plant: &mut P,
    listed: &[DumpRecord],
    order: &DumpOrder,
    place: Place,
) -> Result<FirstTape, JobFault>
    requires sound { P.sound plant.old }
    requires place { IsAppendable (P.view plant.old).present order.now.port place }
    requires base { length place.base ≤ base_most }
    requires stands { Stands P.Plant place.slot place.end plant.old }
    ensures told { P.tells → (slots : AnyList Slot) → HasSlots P.Plant slots plant.old → Answers (tape_behind order.now listed.now slots place) result }
    ensures form { IfOk result (IsStart (P.view plant.new).present order.now.port) }
    ensures initial { IfOk result (λ tape. tape.initial ≡ place.initial) }
    ensures stands { IfOk result (λ tape. Stands P.Plant tape.reel.slot (records_on tape.reel) plant.new) }
    ensures plant { Searches P.Plant result plant.old plant.new }
{
    if has_room_behind(&order.port, &place) {
        return Ok(place_tape(place));
    }
    let number = place.tape as u64 + 1;
    next_tape(
        alloc,
        plant,
        listed,
        order,
        place.initial,
        place.base,
        number,
    )
}

/// The same, where the dump set isn't of an id above the dump's own. A head couldn't tell such a dump set; its tape counts as
/// one that isn't found.
fn tape_within<P: Plant>(
    alloc: Global,
    plant: &mut P,
    listed: &[DumpRecord],
    order: &DumpOrder,
    id: u32,
    place: Place,
) -> Result<FirstTape, JobFault>
    requires sound { P.sound plant.old }
    requires place { IsAppendable (P.view plant.old).present order.now.port place }
    requires stands { Stands P.Plant place.slot place.end plant.old }
    ensures told { P.tells → (slots : AnyList Slot) → HasSlots P.Plant slots plant.old → Answers (tape_within order.now listed.now slots id place) result }
    ensures form { IfOk result (IsStart (P.view plant.new).present order.now.port) }
    ensures within { IfOk result (λ tape. tape.initial ≤ id) }
    ensures stands { IfOk result (λ tape. Stands P.Plant tape.reel.slot (records_on tape.reel) plant.new) }
    ensures plant { Searches P.Plant result plant.old plant.new }
{
    let name = name_of(alloc, &place.base, place.tape as u64)?;
    if place.initial > id {
        return Err(JobFault::NoTape { name });
    }
    tape_behind(alloc, plant, listed, order, place)
}

/// The tape on which a dump begins that is appended, by what was found of its dump set.
fn tape_by<P: Plant>(
    alloc: Global,
    plant: &mut P,
    listed: &[DumpRecord],
    order: &DumpOrder,
    id: u32,
    found: Appending,
) -> Result<FirstTape, JobFault>
    requires sound { P.sound plant.old }
    requires found { IsFoundAppendable (P.view plant.old).present order.now.port found }
    requires stands { FoundStands P.Plant found plant.old }
    ensures told { P.tells → (slots : AnyList Slot) → HasSlots P.Plant slots plant.old → Answers (tape_by order.now listed.now slots id found) result }
    ensures form { IfOk result (IsStart (P.view plant.new).present order.now.port) }
    ensures within { IfOk result (λ tape. tape.initial ≤ id) }
    ensures stands { IfOk result (λ tape. Stands P.Plant tape.reel.slot (records_on tape.reel) plant.new) }
    ensures plant { Searches P.Plant result plant.old plant.new }
{
    match found {
        Appending::NoSet => Err(JobFault::NothingToAppend),
        Appending::NotFound { base, tape } => {
            let name = name_of(alloc, &base, tape as u64)?;
            Err(JobFault::NoTape { name })
        }
        Appending::Found(place) => tape_within(alloc, plant, listed, order, id, place),
    }
}

/// Finds where a dump is appended. Where contents are told the tape of a place has the records in front of it.
fn find_place<P: Plant>(
    alloc: Global,
    plant: &mut P,
    listed: &[DumpRecord],
    order: &DumpOrder,
) -> Result<Appending, JobFault>
    requires { P.sound plant.old }
    ensures told { P.tells → (slots : AnyList Slot) (whole : ℕ → Bool) → HasSlots P.Plant slots plant.old → AreWhole P.Plant whole plant.old → Answers (Ok (appending listed.now order.now.set order.now.port whole slots)) result }
    ensures form { IfOk result (IsFoundAppendable (P.view plant.new).present order.now.port) }
    ensures stands { IfOk result (λ found. FoundStands P.Plant found plant.new) }
    ensures plant { Searches P.Plant result plant.old plant.new }
{
    let found = find_append(alloc, plant, listed, &order.set, &order.port)?;
    Ok(found)
}

/// The tape on which a dump begins that is appended.
fn appended_tape<P: Plant>(
    alloc: Global,
    plant: &mut P,
    listed: &[DumpRecord],
    order: &DumpOrder,
    id: u32,
) -> Result<FirstTape, JobFault>
    requires { P.sound plant.old }
    ensures told { P.tells → (slots : AnyList Slot) (whole : ℕ → Bool) → HasSlots P.Plant slots plant.old → AreWhole P.Plant whole plant.old → Answers (tape_by order.now listed.now slots id (appending listed.now order.now.set order.now.port whole slots)) result }
    ensures form { IfOk result (IsStart (P.view plant.new).present order.now.port) }
    ensures within { IfOk result (λ tape. tape.initial ≤ id) }
    ensures stands { IfOk result (λ tape. Stands P.Plant tape.reel.slot (records_on tape.reel) plant.new) }
    ensures plant { Searches P.Plant result plant.old plant.new }
{
    let found = find_place(alloc, plant, listed, order)?;
    tape_by(alloc, plant, listed, order, id, found)
}

/// The tape on which a dump begins: the first one of a dump set of its own, or the one that it is appended to.
pub(crate) fn tape_found<P: Plant>(
    alloc: Global,
    plant: &mut P,
    listed: &[DumpRecord],
    order: &DumpOrder,
    id: u32,
) -> Result<FirstTape, JobFault>
    requires sound { P.sound plant.old }
    requires id { 1 ≤ id }
    ensures told { P.tells → (slots : AnyList Slot) (whole : ℕ → Bool) → HasSlots P.Plant slots plant.old → AreWhole P.Plant whole plant.old → Answers (tape_found order.now listed.now slots whole id) result }
    ensures form { IfOk result (IsStart (P.view plant.new).present order.now.port) }
    ensures within { IfOk result (λ tape. tape.initial ≤ id) }
    ensures stands { IfOk result (λ tape. Stands P.Plant tape.reel.slot (records_on tape.reel) plant.new) }
    ensures plant { Searches P.Plant result plant.old plant.new }
{
    if order.append {
        return appended_tape(alloc, plant, listed, order, id);
    }
    let base = base_name(alloc, order)?;
    next_tape(alloc, plant, listed, order, id, base, 1)
}
