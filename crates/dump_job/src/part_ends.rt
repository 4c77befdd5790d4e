//! The part end step: the next tape is chosen, the part is ended, and the dump goes on there or is refused.

ghost use Rattle.std.specs.Prelude.{◌≡◌, ◌≢◌, ◌≤◌, ◌+◌, ◌++◌, ◌∷◌, [], ℕ, Bool, List as AnyList, None, Some, Ok, Err, true, false, IfOk, IfSome, length};
ghost use Rattle.plant_effects.specs.Runs.{Leaves};
ghost use Rattle.tape_scan.specs.Slots.{Slot};
ghost use Rattle.tape_scan.specs.Looking.{HasSlots};
ghost use Rattle.tape_choice.specs.Choice.{takes};
ghost use Rattle.tape_writer.specs.Puts.{puts_on};
ghost use Rattle.tape_writer.specs.Room.{HasRoom};
ghost use Rattle.dump_job.specs.Reels.{records_on, with_more, counts_on, IsOn, turn_of};
ghost use Rattle.dump_job.specs.Taping.{IsFor};
ghost use Rattle.dump_job.specs.Ending.{part_end_items, closed_part};
ghost use Rattle.dump_job.specs.Closing.{committing, made_of, HasEnded, Closes, Makes};
ghost use Rattle.dump_job.specs.Passing.{next_choice, next_changes, next_name, label_by, head_by, next_frags, hand_with, closing_of, GoesBy, IsPassed, PartEnds};

use crate::changes::with_change;
use crate::closing::close;
use crate::ending::{closed_part, end_part};
use crate::fault::JobFault;
use crate::fields::{Filled, Hand, JobFields, Phase, Reel};
use crate::next_tapes::{NextHeads, choose_next, next_heads, next_name};
use bk_text::List;
use budb::{Budb, CommitFault};
use budb_journal::{Change, Frag};
use plant_core::Plant;
use std::alloc::{AllocError, Global};
use tape_choice::{ChoiceFault, Chosen};
use tape_frames::{Label, VolHead};

/// What a dump goes on with on its next tape: the part's label and heads, and where the fragments of the volume in hand begin, if
/// one was put on the tape before.
struct Onward {
    heads: NextHeads,
    frags: Option<List<Frag>>,
}

/// It is written out, so that each function that lets it go calls it.
impl Drop for Onward {
    fn drop(self) {
        let Onward { heads, frags } = self;
    }
}

impl Onward {
    /// The label and the heads, and the fragments.
    fn into_parts(self) -> (NextHeads, Option<List<Frag>>)
        ensures heads { result.0 ≡ self.heads }
        ensures frags { result.1 ≡ self.frags }
    {
        let Onward { heads, frags } = self;
        (heads, frags)
    }
}

/// What the next part is begun with, and what is committed for it.
#[derive(Drop)]
struct NextPart {
    onward: Onward,
    filled: Filled,
    changes: List<Change>,
}

/// Where the fragments of the volume in hand begin, if one was put on this tape.
fn next_frags(job: &JobFields, cut: bool) -> Result<Option<List<Frag>>, AllocError>
    ensures { IfOk result (λ frags. frags ≡ next_frags cut job.now.head.tape job.now.hand) }
{
    match &job.hand {
        None => Ok(None),
        Some(hand) => {
            if !cut {
                return Ok(None);
            }
            let mut frags = hand.frags.copy()?;
            frags.push(Frag {
                tape: job.head.fields().tape,
                at: hand.at,
            })?;
            Ok(Some(frags))
        }
    }
}

/// The change by which a dump set is forgotten.
fn takes(alloc: Global, take: Option<u32>) -> Result<List<Change>, AllocError>
    ensures { IfOk result (λ changes. changes ≡ takes take) }
{
    match take {
        None => Ok(List::new(alloc)),
        Some(initial) => with_change(List::new(alloc), Change::Take { initial }),
    }
}

/// All that the next part needs, on a tape with this label.
fn next_part(
    alloc: Global,
    job: &JobFields,
    label: Option<Label>,
    take: Option<u32>,
    cut: bool,
) -> Result<NextPart, AllocError>
    requires number { job.now.head.tape + 1 ≤ 4294967295 }
    requires part { job.now.head.part + 1 ≤ 4294967295 }
    requires marks { job.now.reel.marks ≤ job.now.reel.blocks }
    requires room { HasRoom 1 1 (counts_on job.now.port job.now.reel) }
    ensures label { IfOk result (λ next. next.onward.heads.label ≡ label_by label job.now) }
    ensures head { IfOk result (λ next. next.onward.heads.head ≡ head_by label job.now) }
    ensures spare { IfOk result (λ next. next.onward.heads.spare ≡ head_by label job.now) }
    ensures frags { IfOk result (λ next. next.onward.frags ≡ next_frags cut job.now.head.tape job.now.hand) }
    ensures filled { IfOk result (λ next. next.filled ≡ record { slot = job.now.reel.slot; part = closed_part job.now }) }
    ensures changes { IfOk result (λ next. next.changes ≡ takes take) }
{
    let onward = Onward {
        heads: next_heads(alloc, job, label)?,
        frags: next_frags(job, cut)?,
    };
    let filled = Filled {
        slot: job.reel.slot,
        part: closed_part(job)?,
    };
    Ok(NextPart {
        onward,
        filled,
        changes: takes(alloc, take)?,
    })
}

/// The head of a volume's next fragment.
fn head_behind(head: VolHead) -> VolHead
    requires { head.fragment ≤ 4294967294 }
    ensures { result ≡ record head { fragment = head.fragment + 1 } }
{
    let mut fields = head.into_fields();
    fields.fragment += 1;
    VolHead::new(fields)
}

/// The volume in hand behind a fragment of it.
fn carried(hand: Hand, frags: List<Frag>) -> Hand
    requires { hand.head.fragment ≤ 4294967294 }
    ensures { result ≡ record hand { head = record hand.head { fragment = hand.head.fragment + 1 }; frags = frags } }
{
    let (head, stream, at, bytes) = hand.into_parts();
    Hand {
        head: head_behind(head),
        stream,
        frags,
        at,
        bytes,
    }
}

/// The volume in hand on the next tape.
fn hand_with(frags: Option<List<Frag>>, hand: Option<Hand>) -> Option<Hand>
    requires { IfSome hand (λ h. h.head.fragment ≤ 4294967294) }
    ensures { result ≡ hand_with frags hand }
{
    match hand {
        None => None,
        Some(hand) => match frags {
            None => Some(hand),
            Some(frags) => Some(carried(hand, frags)),
        },
    }
}

/// Goes on on the tape in a slot.
fn go_on(job: &mut JobFields, slot: u32, onward: Onward)
    requires { IfSome job.old.hand (λ h. h.head.fragment ≤ 4294967294) }
    ensures { job.new ≡ record job.old { head = onward.heads.head; spare = Some onward.heads.spare; label = Some onward.heads.label; reel = record { slot = slot; blocks = 0; marks = 0 }; hand = hand_with onward.frags job.old.hand; phase = Phase.Tape } }
{
    let (heads, frags) = onward.into_parts();
    let (label, head, spare) = heads.into_parts();
    job.hand = hand_with(frags, job.hand.take());
    job.head = head;
    job.spare = Some(spare);
    job.label = Some(label);
    job.reel = Reel {
        slot,
        blocks: 0,
        marks: 0,
    };
    job.phase = Phase::Tape;
}

/// Ends the part in hand and commits changes behind it, and then has it among the parts that are ended. Memory is refused
/// before anything is put, and then nothing is changed.
fn close_filled<P: Plant>(
    job: &mut JobFields,
    budb: &mut Budb,
    plant: &mut P,
    filled: Filled,
    changes: &[Change],
) -> Result<bool, CommitFault>
    requires fit { IsOn P.Plant job.old.reel.slot (records_on job.old.reel) plant.old }
    requires marks { job.old.reel.marks ≤ job.old.reel.blocks }
    requires room { HasRoom 1 1 (counts_on job.old.port job.old.reel) }
    requires nothing { budb.old.prepared ≡ None }
    ensures moved { result ≡ Ok true → job.new ≡ record job.old { reel = with_more 1 1 job.old.reel; filled = job.old.filled ++ filled ∷ [] } }
    ensures full { (n : ℕ) → result ≡ Err (CommitFault.LogFull n) → job.new ≡ record job.old { reel = with_more 1 1 job.old.reel } }
    ensures same { result ≡ Ok false → job.new ≡ job.old }
    ensures memory { result ≡ Err CommitFault.Memory → job.new ≡ job.old }
    ensures fit { HasEnded result → IsOn P.Plant job.old.reel.slot (records_on (with_more 1 1 job.old.reel)) plant.new }
    ensures plant { Closes P.Plant job.old.reel.slot (part_end_items 1 job.old) changes.now result plant.old plant.new }
    ensures database { Makes P.Plant changes.now result budb.old budb.new plant.old plant.new }
{
    let count = job.filled.len();
    match job.filled.push(filled) {
        Ok(()) => {}
        Err(_) => return Err(CommitFault::Memory),
    }
    match close(job, budb, plant, 1, changes) {
        Ok(true) => Ok(true),
        Ok(false) => {
            job.filled.truncate(count);
            Ok(false)
        }
        Err(fault) => {
            job.filled.truncate(count);
            Err(fault)
        }
    }
}

/// Ends the part in hand and goes on on a tape that was chosen.
fn end_and_pass<P: Plant>(
    job: &mut JobFields,
    alloc: Global,
    budb: &mut Budb,
    plant: &mut P,
    chosen: Chosen,
    cut: bool,
) -> Result<bool, JobFault>
    requires fit { IsOn P.Plant job.old.reel.slot (records_on job.old.reel) plant.old }
    requires marks { job.old.reel.marks ≤ job.old.reel.blocks }
    requires room { HasRoom 1 1 (counts_on job.old.port job.old.reel) }
    requires number { job.old.head.tape + 1 ≤ 4294967295 }
    requires part { job.old.head.part + 1 ≤ 4294967295 }
    requires fragment { IfSome job.old.hand (λ h. h.head.fragment ≤ 4294967294) }
    requires nothing { budb.old.prepared ≡ None }
    ensures goes { GoesBy (next_name job.old) (Some chosen) result }
    ensures moved { IsPassed cut (Some chosen) result job.old job.new }
    ensures fit { HasEnded (closing_of result) → IsOn P.Plant job.old.reel.slot (records_on (with_more 1 1 job.old.reel)) plant.new }
    ensures plant { Closes P.Plant job.old.reel.slot (part_end_items 1 job.old) (takes chosen.take) (closing_of result) plant.old plant.new }
    ensures database { Makes P.Plant (takes chosen.take) (closing_of result) budb.old budb.new plant.old plant.new }
{
    let Chosen { slot, label, take } = chosen;
    let next = match next_part(alloc, job, label, take, cut) {
        Ok(next) => next,
        Err(_) => return Err(JobFault::Memory),
    };
    let NextPart {
        onward,
        filled,
        changes,
    } = next;
    let closed = close_filled(job, budb, plant, filled, changes.as_slice());
    drop(changes);
    match closed {
        Ok(true) => {
            go_on(job, slot, onward);
            Ok(true)
        }
        Ok(false) => Ok(false),
        Err(CommitFault::LogFull { length }) => {
            job.phase = Phase::Over;
            Err(JobFault::LogFull { length })
        }
        Err(CommitFault::Failed) => Err(JobFault::Failed),
        Err(CommitFault::Memory) => Err(JobFault::Memory),
    }
}

/// Ends the part in hand. The dump doesn't go on, since no slot has a tape that may be taken.
fn end_and_refuse<P: Plant>(
    job: &mut JobFields,
    alloc: Global,
    plant: &mut P,
) -> Result<bool, JobFault>
    requires fit { IsOn P.Plant job.old.reel.slot (records_on job.old.reel) plant.old }
    requires marks { job.old.reel.marks ≤ job.old.reel.blocks }
    requires room { HasRoom 1 1 (counts_on job.old.port job.old.reel) }
    ensures goes { GoesBy (next_name job.old) None result }
    ensures never { result ≢ Ok true }
    ensures moved { (cut : Bool) → IsPassed cut None result job.old job.new }
    ensures fit { HasEnded (closing_of result) → IsOn P.Plant job.old.reel.slot (records_on (with_more 1 1 job.old.reel)) plant.new }
    ensures plant { Closes P.Plant job.old.reel.slot (part_end_items 1 job.old) [] (closing_of result) plant.old plant.new }
{
    let name = match next_name(alloc, job) {
        Ok(name) => name,
        Err(_) => return Err(JobFault::Memory),
    };
    match end_part(job, plant, 1) {
        Ok(true) => {
            job.phase = Phase::Over;
            Err(JobFault::NoTape { name })
        }
        Ok(false) => Ok(false),
        Err(_) => Err(JobFault::Failed),
    }
}

/// Ends the part in hand, since its tape is full. The next tape is chosen first; then the part's end and a filemark are put;
/// then the dump set of a tape that is taken is forgotten by a commit, or the dump is refused where no slot passes, be it that
/// the number of the next tape is above 4,294,967,295, or that the dump has 65,535 parts. `cut` tells whether a fragment was
/// put on the tape in hand. Memory is refused before anything is put, and then nothing is changed.
pub(crate) fn part_end_step<P: Plant>(
    job: &mut JobFields,
    alloc: Global,
    budb: &mut Budb,
    plant: &mut P,
    cut: bool,
) -> Result<bool, JobFault>
    requires fit { IsOn P.Plant job.old.reel.slot (records_on job.old.reel) plant.old }
    requires marks { job.old.reel.marks ≤ job.old.reel.blocks }
    requires room { HasRoom 1 1 (counts_on job.old.port job.old.reel) }
    requires part { job.old.head.part + 1 ≤ 4294967295 }
    requires fragment { IfSome job.old.hand (λ h. h.head.fragment ≤ 4294967294) }
    requires nothing { budb.old.prepared ≡ None }
    ensures ended { PartEnds P.Plant cut result budb.old budb.new plant.old plant.new job.old job.new }
    ensures ready { result ≡ Ok true → IsFor P.Plant job.new.reel.slot (records_on job.new.reel) plant.new }
    ensures fit { HasEnded (closing_of result) → IsOn P.Plant job.old.reel.slot (records_on (with_more 1 1 job.old.reel)) plant.new }
    ensures leaves { P.tells → (slots : AnyList Slot) → HasSlots P.Plant slots plant.old → Leaves P.Plant (turn_of P.Plant job.old.reel.slot (puts_on job.old.reel.slot (part_end_items 1 job.old) ++ committing (made_of (P.view plant.old).log_size (next_changes (next_choice budb.old.database.listed slots job.old)))) plant.old) plant.old plant.new }
{
    let chosen = match choose_next(alloc, plant, budb.database().listed.as_slice(), job) {
        Ok(chosen) => chosen,
        Err(ChoiceFault::Failed) => return Err(JobFault::Failed),
        Err(ChoiceFault::Memory) => return Err(JobFault::Memory),
    };
    match chosen {
        Some(chosen) => end_and_pass(job, alloc, budb, plant, chosen, cut),
        None => end_and_refuse(job, alloc, plant),
    }
}
