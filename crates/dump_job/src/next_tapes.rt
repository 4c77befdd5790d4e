//! The tape on which a dump goes on.

ghost use Rattle.std.specs.Prelude.{◌≡◌, ◌≤◌, ◌+◌, false, List as AnyList, [], length, map, IfOk, IfSome, IsTrue};
ghost use Rattle.bk_text.specs.Alphabets.{IsTapeName};
ghost use Rattle.byte_formats.specs.Forms.{IsMaybe};
ghost use Rattle.crash_moments.specs.Moments.{HasCauseAt};
ghost use Rattle.plant_effects.specs.Runs.{Done, Leaves, SameNumbers, StaysQuiet};
ghost use Rattle.tape_scan.specs.Slots.{Slot};
ghost use Rattle.tape_scan.specs.Looking.{HasSlots};
ghost use Rattle.tape_choice.specs.Scene.{UnlessFailed};
ghost use Rattle.tape_choice.specs.Choice.{is_used};
ghost use Rattle.dump_job.specs.Passing.{next_name, slot_of, slots_taken, next_wanting, may_go_on, next_choice, label_by, head_by};

use crate::dump_names::DumpNames;
use crate::fields::{Filled, JobFields};
use crate::first_tapes::permanent_in;
use crate::naming::name_of;
use bk_text::{Bytes, List, TapeName};
use budb_journal::DumpRecord;
use plant_core::Plant;
use std::alloc::{AllocError, Global};
use tape_choice::{ChoiceFault, Chosen, Wanting, choose_tape, initials_above};
use tape_frames::{DumpHead, DumpHeadFields, Label, LabelFields};

/// The greatest number of a tape.
const LAST_TAPE: u32 = 4_294_967_295;

/// How many parts of a dump may be ended before its last one.
const PARTS_BEFORE: usize = 65_534;

/// The name under which the next tape is wanted, also where its number is one more than tapes have.
pub(crate) fn next_name(alloc: Global, job: &JobFields) -> Result<TapeName, AllocError>
    ensures { IfOk result (λ name. name ≡ next_name job.now) }
{
    let head = job.head.fields();
    name_of(alloc, &head.base, head.tape as u64 + 1)
}

/// The slots of the parts that are ended.
fn filled_slots(alloc: Global, filled: &[Filled]) -> Result<List<u32>, AllocError>
    ensures { IfOk result (λ slots. slots ≡ map slot_of filled.now) }
{
    let mut slots = List::new(alloc);
    for one in filled {
        slots.push(one.slot)?;
    }
    Ok(slots)
}

/// The slots that this dump has taken, that in hand as the last.
fn slots_taken(alloc: Global, job: &JobFields) -> Result<List<u32>, AllocError>
    ensures { IfOk result (λ slots. slots ≡ slots_taken job.now) }
{
    let mut slots = filled_slots(alloc, job.filled.as_slice())?;
    slots.push(job.reel.slot)?;
    Ok(slots)
}

/// What the dump wants of its next tape.
fn next_wanting(
    alloc: Global,
    listed: &[DumpRecord],
    job: &JobFields,
) -> Result<Wanting, AllocError>
    ensures { IfOk result (λ wanting. wanting ≡ next_wanting listed.now job.now) }
{
    let head = job.head.fields();
    Ok(Wanting {
        name: next_name(alloc, job)?,
        checked: job.port.fields().name_check,
        time: job.time,
        initial: head.initial,
        parents: initials_above(alloc, listed, head.parent)?,
        used: slots_taken(alloc, job)?,
    })
}

/// Whether the dump may go on on another tape.
fn may_go_on(job: &JobFields) -> bool
    ensures { result ≡ may_go_on job.now }
{
    job.filled.len() < PARTS_BEFORE && job.head.fields().tape < LAST_TAPE
}

/// Chooses the tape on which the dump goes on; none where no slot passes, or its number is one more than tapes have, or the
/// dump has as many parts as a record holds. First records are looked at alone.
pub(crate) fn choose_next<P: Plant>(
    alloc: Global,
    plant: &mut P,
    listed: &[DumpRecord],
    job: &JobFields,
) -> Result<Option<Chosen>, ChoiceFault>
    requires { P.sound plant.old }
    ensures chosen { P.tells → (slots : AnyList Slot) → HasSlots P.Plant slots plant.old → IfOk result (λ c. c ≡ next_choice listed.now slots job.now) }
    ensures number { IfOk result (λ c. IfSome c (λ c. job.now.head.tape + 1 ≤ 4294967295)) }
    ensures parts { IfOk result (λ c. IfSome c (λ c. length job.now.filled + 1 ≤ 65534)) }
    ensures here { IfOk result (λ c. IfSome c (λ c. IsTrue ((P.view plant.old).present c.slot))) }
    ensures first { IfOk result (λ c. IfSome c (λ c. job.now.port.first ≤ c.slot)) }
    ensures last { IfOk result (λ c. IfSome c (λ c. c.slot ≤ job.now.port.last)) }
    ensures unused { IfOk result (λ c. IfSome c (λ c. is_used (next_wanting listed.now job.now) c.slot ≡ false)) }
    ensures done { UnlessFailed result (Done P.Plant [] plant.old plant.new) }
    ensures leaves { Leaves P.Plant [] plant.old plant.new }
    ensures numbers { UnlessFailed result (SameNumbers P.Plant plant.old plant.new) }
    ensures stays { StaysQuiet P.Plant plant.old plant.new }
    ensures cause { HasCauseAt ChoiceFault.Failed (P.view plant.old).faults (P.view plant.new).faults result }
{
    if !may_go_on(job) {
        return Ok(None);
    }
    let wanting = next_wanting(alloc, listed, job)?;
    choose_tape(alloc, plant, listed, &wanting, &job.port)
}

/// The new label of the next tape, which keeps its permanent name.
fn next_label(alloc: Global, job: &JobFields, permanent: &Bytes) -> Result<Label, AllocError>
    requires number { job.now.head.tape + 1 ≤ 4294967295 }
    requires permanent { IsMaybe IsTapeName permanent.now }
    ensures { IfOk result (λ label. label ≡ record { initial = job.now.head.initial; tape = job.now.head.tape + 1; afs = next_name job.now; permanent = permanent.now }) }
{
    let head = job.head.fields();
    let name = next_name(alloc, job)?;
    Ok(Label::new(LabelFields {
        initial: head.initial,
        tape: head.tape + 1,
        afs: Bytes::from_slice(alloc, name.bytes())?,
        permanent: permanent.copy()?,
    }))
}

/// The head of the next part.
fn next_head(job: &JobFields, permanent: &Bytes) -> Result<DumpHead, AllocError>
    requires number { job.now.head.tape + 1 ≤ 4294967295 }
    requires part { job.now.head.part + 1 ≤ 4294967295 }
    requires permanent { IsMaybe IsTapeName permanent.now }
    ensures { IfOk result (λ head. head ≡ record job.now.head { tape = job.now.head.tape + 1; part = job.now.head.part + 1; uses = 1; permanent = permanent.now }) }
{
    let head = job.head.fields();
    let names = DumpNames::of(&head.set, &head.level, &head.base, &head.cell)?;
    let permanent = permanent.copy()?;
    let (set, level, base, cell) = names.into_parts();
    Ok(DumpHead::new(DumpHeadFields {
        id: head.id,
        initial: head.initial,
        parent: head.parent,
        expires: head.expires,
        tape: head.tape + 1,
        part: head.part + 1,
        volumes: head.volumes,
        set,
        level,
        base,
        cell,
        permanent,
        uses: 1,
    }))
}

/// The next part's label and head, and the head once more.
pub(crate) struct NextHeads {
    pub(crate) label: Label,
    pub(crate) head: DumpHead,
    pub(crate) spare: DumpHead,
}

/// It is written out, so that who lets them go calls it: derived, it would be proved once more at each such place.
impl Drop for NextHeads {
    fn drop(self) {
        let NextHeads { label, head, spare } = self;
    }
}

impl NextHeads {
    /// The label, the head, and the head once more.
    pub(crate) fn into_parts(self) -> (Label, DumpHead, DumpHead)
        ensures label { result.0 ≡ self.label }
        ensures head { result.1 ≡ self.head }
        ensures spare { result.2 ≡ self.spare }
    {
        let NextHeads { label, head, spare } = self;
        (label, head, spare)
    }
}

/// The head of the next part twice.
fn two_heads(job: &JobFields, permanent: &Bytes) -> Result<(DumpHead, DumpHead), AllocError>
    requires number { job.now.head.tape + 1 ≤ 4294967295 }
    requires part { job.now.head.part + 1 ≤ 4294967295 }
    requires permanent { IsMaybe IsTapeName permanent.now }
    ensures one { IfOk result (λ heads. heads.0 ≡ record job.now.head { tape = job.now.head.tape + 1; part = job.now.head.part + 1; uses = 1; permanent = permanent.now }) }
    ensures other { IfOk result (λ heads. heads.1 ≡ record job.now.head { tape = job.now.head.tape + 1; part = job.now.head.part + 1; uses = 1; permanent = permanent.now }) }
{
    let one = next_head(job, permanent)?;
    let other = next_head(job, permanent)?;
    Ok((one, other))
}

/// The next part's label and heads, on a tape with this label.
pub(crate) fn next_heads(
    alloc: Global,
    job: &JobFields,
    old: Option<Label>,
) -> Result<NextHeads, AllocError>
    requires number { job.now.head.tape + 1 ≤ 4294967295 }
    requires part { job.now.head.part + 1 ≤ 4294967295 }
    ensures label { IfOk result (λ next. next.label ≡ label_by old job.now) }
    ensures head { IfOk result (λ next. next.head ≡ head_by old job.now) }
    ensures spare { IfOk result (λ next. next.spare ≡ head_by old job.now) }
{
    let permanent = permanent_in(alloc, old);
    let label = next_label(alloc, job, &permanent)?;
    let (head, spare) = two_heads(job, &permanent)?;
    Ok(NextHeads { label, head, spare })
}
