//! The tape step. It takes no memory.

ghost use Rattle.std.specs.Prelude.{◌≡◌, ◌≢◌, ◌+◌, ◌*◌, ◌<◌, ◌≤◌, ℕ, List as AnyList, [], ◌∷◌, true, false, Ok, Some, None, Err, IfOk, OnOk, IsSome, IfSome, slice_index_or};
ghost use Rattle.crash_moments.specs.Moments.{HasCause, HasCauseAt};
ghost use Rattle.plant_core.specs.Effects.{cuts, putting_away};
ghost use Rattle.plant_core.specs.Records.{NoBad};
ghost use Rattle.plant_effects.specs.Runs.{state_of, loaded_of, OnLoaded, Done, Leaves, SameNumbers, StaysQuiet};
ghost use Rattle.tape_frames.specs.declared.dump_head.DumpHeadFields.{DumpHeadFields as AnyHead};
ghost use Rattle.tape_text.specs.Items.{Item, Nothing, Read};
ghost use Rattle.tape_writer.specs.Filling.{uses_in};
ghost use Rattle.tape_writer.specs.Puts.{IsCounted, records_of, puts_on, begun};
ghost use Rattle.tape_writer.specs.Room.{HasRoom, more, with_label};
ghost use Rattle.dump_job.specs.Reels.{records_on, counts_on, IsOn, Turns};
ghost use Rattle.dump_job.specs.Taping.{IsFor, uses_by, uses_for, head_with, reel_begun, head_at, phase_begun, tape_effects, IsTaped};

use crate::fields::{Hand, JobFields, Phase, Reel};
use crate::volumes::count_on;
use plant_core::{Failed, Kind, Plant};
use plant_effects::{cut_to, get_record, load_tape};
use tape_config::Port;
use tape_frames::{DumpHead, Label, one_frame, uses_of};
use tape_writer::{WriteFault, Writer};

/// The uses that the head at record 2 of the loaded tape tells; 0 where no head stands there.
fn uses_told<P: Plant>(plant: &mut P) -> Result<u32, Failed>
    requires sound { P.sound plant.old }
    requires loaded { IsSome (loaded_of P.Plant plant.old) }
    ensures uses { P.tells → (k : ℕ) (items : AnyList Item) → loaded_of P.Plant plant.old ≡ Some k → Read ((state_of P.Plant plant.old).tape k) items → IfOk result (λ uses. uses ≡ uses_in (slice_index_or items 2 Nothing)) }
    ensures done { OnOk result (Done P.Plant [] plant.old plant.new) }
    ensures leaves { Leaves P.Plant [] plant.old plant.new }
    ensures numbers { OnOk result (SameNumbers P.Plant plant.old plant.new) }
    ensures stays { StaysQuiet P.Plant plant.old plant.new }
    ensures cause { HasCause (P.view plant.old).faults (P.view plant.new).faults result }
{
    one_frame();
    let mut block = [0; 16384];
    if plant.tape_len() < 3 {
        return Ok(0);
    }
    let kind = get_record(plant, 2, &mut block)?;
    match kind {
        Kind::Block => Ok(uses_of(&block)),
        Kind::Mark => Ok(0),
        Kind::Bad => Ok(0),
    }
}

/// The uses of the part that is begun on the loaded tape: one more than are told on one that is taken.
fn uses_now<P: Plant>(plant: &mut P, label: &Option<Label>, known: u32) -> Result<u32, Failed>
    requires sound { P.sound plant.old }
    requires loaded { IsSome (loaded_of P.Plant plant.old) }
    requires some { 1 ≤ known }
    ensures uses { P.tells → (k : ℕ) (items : AnyList Item) → loaded_of P.Plant plant.old ≡ Some k → Read ((state_of P.Plant plant.old).tape k) items → IfOk result (λ uses. uses ≡ uses_by label.now known items) }
    ensures some { IfOk result (λ uses. 1 ≤ uses) }
    ensures done { OnOk result (Done P.Plant [] plant.old plant.new) }
    ensures leaves { Leaves P.Plant [] plant.old plant.new }
    ensures numbers { OnOk result (SameNumbers P.Plant plant.old plant.new) }
    ensures stays { StaysQuiet P.Plant plant.old plant.new }
    ensures cause { HasCause (P.view plant.old).faults (P.view plant.new).faults result }
{
    match label {
        None => Ok(known),
        Some(_) => {
            let told = uses_told(plant)?;
            Ok(told.saturating_add(1))
        }
    }
}

/// Cuts the loaded tape to the records that stay, which are counted.
fn cut_on<P: Plant>(plant: &mut P, slot: u32, count: u32) -> Result<(), Failed>
    requires sound { P.sound plant.old }
    requires loaded { loaded_of P.Plant plant.old ≡ Some slot }
    requires within { count ≤ (P.view plant.old).records }
    requires whole { 0 < count → OnLoaded P.Plant NoBad plant.old }
    ensures counted { OnOk result (IsCounted P.Plant count plant.new) }
    ensures done { OnOk result (Done P.Plant (cuts slot count ∷ []) plant.old plant.new) }
    ensures leaves { Leaves P.Plant (cuts slot count ∷ []) plant.old plant.new }
    ensures loaded { OnOk result (loaded_of P.Plant plant.new ≡ loaded_of P.Plant plant.old) }
    ensures log_size { OnOk result ((P.view plant.new).log_size ≡ (P.view plant.old).log_size) }
    ensures stays { StaysQuiet P.Plant plant.old plant.new }
    ensures cause { HasCause (P.view plant.old).faults (P.view plant.new).faults result }
{
    cut_to(plant, count)?;
    Ok(())
}

/// Begins a part behind the counted records, for which there is room.
fn begin_with<P: Plant>(
    writer: &mut Writer,
    plant: &mut P,
    label: &Option<Label>,
    head: &DumpHead,
) -> Result<(), WriteFault>
    requires counted { IsCounted P.Plant (records_of writer.old) plant.old }
    requires room { HasRoom 5 2 (with_label label.now writer.old) }
    ensures never_full { result ≡ Err WriteFault.TapeFull → ⊥ }
    ensures counts { OnOk result (writer.new ≡ more 1 0 (with_label label.now writer.old)) }
    ensures room { OnOk result (HasRoom 4 2 writer.new) }
    ensures counted { OnOk result (IsCounted P.Plant (records_of writer.new) plant.new) }
    ensures done { (k : ℕ) → loaded_of P.Plant plant.old ≡ Some k → OnOk result (Done P.Plant (puts_on k (begun label.now head.now)) plant.old plant.new) }
    ensures leaves { (k : ℕ) → loaded_of P.Plant plant.old ≡ Some k → Leaves P.Plant (puts_on k (begun label.now head.now)) plant.old plant.new }
    ensures loaded { OnOk result (loaded_of P.Plant plant.new ≡ loaded_of P.Plant plant.old) }
    ensures log_size { OnOk result ((P.view plant.new).log_size ≡ (P.view plant.old).log_size) }
    ensures stays { StaysQuiet P.Plant plant.old plant.new }
    ensures cause { HasCauseAt WriteFault.Failed (P.view plant.old).faults (P.view plant.new).faults result }
{
    match label {
        Some(label) => writer.begin_tape(plant, Some(label), head),
        None => writer.begin_tape(plant, None, head),
    }
}

/// The number of the record at which the part's head is put.
fn head_at(port: &Port, label: &Option<Label>, reel: &Reel) -> u32
    requires marks { reel.now.marks ≤ reel.now.blocks }
    requires few { reel.now.blocks * 16384 ≤ port.now.capacity }
    ensures { result ≡ head_at label.now reel.now }
{
    let _limits = port.fields();
    let count = count_on(port, reel);
    match label {
        None => count,
        Some(_) => count + 2,
    }
}

/// Counts a part's head, and a label with its filemark where there is one.
fn count_begun(port: &Port, label: &Option<Label>, reel: &mut Reel)
    requires few { reel.old.blocks * 16384 ≤ port.now.capacity }
    requires marks { reel.old.marks ≤ reel.old.blocks }
    ensures { reel.new ≡ reel_begun label.now reel.old }
{
    let _limits = port.fields();
    match label {
        None => reel.blocks += 1,
        Some(_) => {
            reel.blocks += 2;
            reel.marks += 1;
        }
    }
}

/// What follows the tape step: the volume in hand goes on, or the first one is cloned.
fn phase_begun(hand: &Option<Hand>) -> Phase
    ensures { result ≡ phase_begun hand.now }
{
    match hand {
        None => Phase::Clone,
        Some(_) => Phase::Head,
    }
}

/// Cuts the loaded tape and begins the part on it.
fn begin_on<P: Plant>(
    plant: &mut P,
    port: &Port,
    reel: &mut Reel,
    label: &Option<Label>,
    head: &DumpHead,
) -> Result<(), Failed>
    requires sound { P.sound plant.old }
    requires loaded { loaded_of P.Plant plant.old ≡ Some reel.old.slot }
    requires within { records_on reel.old ≤ (P.view plant.old).records }
    requires whole { 0 < records_on reel.old → OnLoaded P.Plant NoBad plant.old }
    requires marks { reel.old.marks ≤ reel.old.blocks }
    requires room { HasRoom 5 2 (with_label label.now (counts_on port.now reel.old)) }
    ensures reel { OnOk result (reel.new ≡ reel_begun label.now reel.old) }
    ensures room { OnOk result (HasRoom 4 2 (counts_on port.now reel.new)) }
    ensures fit { OnOk result (IsOn P.Plant reel.new.slot (records_on reel.new) plant.new) }
    ensures done { OnOk result (Done P.Plant (cuts reel.old.slot (records_on reel.old) ∷ puts_on reel.old.slot (begun label.now head.now)) plant.old plant.new) }
    ensures leaves { Leaves P.Plant (cuts reel.old.slot (records_on reel.old) ∷ puts_on reel.old.slot (begun label.now head.now)) plant.old plant.new }
    ensures loaded { OnOk result (loaded_of P.Plant plant.new ≡ loaded_of P.Plant plant.old) }
    ensures log_size { OnOk result ((P.view plant.new).log_size ≡ (P.view plant.old).log_size) }
    ensures stays { StaysQuiet P.Plant plant.old plant.new }
    ensures cause { HasCause (P.view plant.old).faults (P.view plant.new).faults result }
{
    let count = count_on(port, reel);
    cut_on(plant, reel.slot, count)?;
    let mut writer = Writer::new(port, reel.blocks, reel.marks);
    match begin_with(&mut writer, plant, label, head) {
        Ok(()) => {}
        Err(_) => return Err(Failed),
    }
    count_begun(port, label, reel);
    Ok(())
}

/// Loads the tape that is begun, and says the uses of the part; none where fewer records stand on it than stay. Where contents
/// are told it has as many.
fn open_tape<P: Plant>(
    plant: &mut P,
    slot: u32,
    count: u32,
    label: &Option<Label>,
    known: u32,
) -> Result<Option<u32>, Failed>
    requires fit { IsFor P.Plant slot count plant.old }
    requires some { 1 ≤ known }
    ensures told { P.tells → result ≢ Ok None }
    ensures uses { P.tells → (items : AnyList Item) → Read ((state_of P.Plant plant.old).tape slot) items → IfOk result (λ uses. IfSome uses (λ n. n ≡ uses_by label.now known items)) }
    ensures some { IfOk result (λ uses. IfSome uses (λ n. 1 ≤ n)) }
    ensures within { IfOk result (λ uses. IsSome uses → count ≤ (P.view plant.new).records) }
    ensures whole { OnOk result (0 < count → OnLoaded P.Plant NoBad plant.new) }
    ensures done { OnOk result (Done P.Plant (putting_away (loaded_of P.Plant plant.old) slot) plant.old plant.new) }
    ensures leaves { Leaves P.Plant (putting_away (loaded_of P.Plant plant.old) slot) plant.old plant.new }
    ensures loaded { OnOk result (loaded_of P.Plant plant.new ≡ Some slot) }
    ensures log_size { OnOk result ((P.view plant.new).log_size ≡ (P.view plant.old).log_size) }
    ensures stays { StaysQuiet P.Plant plant.old plant.new }
    ensures cause { HasCause (P.view plant.old).faults (P.view plant.new).faults result }
{
    load_tape(plant, slot)?;
    if plant.tape_len() < count {
        return Ok(None);
    }
    let uses = uses_now(plant, label, known)?;
    Ok(Some(uses))
}

/// The head with its uses, made of the spare one.
fn head_now(spare: &mut Option<DumpHead>, uses: u32) -> DumpHead
    requires spare { IsSome spare.old }
    requires some { 1 ≤ uses }
    ensures head { (h : AnyHead) → spare.old ≡ Some h → result ≡ head_with uses h }
    ensures none { spare.new ≡ None }
{
    let head = spare.take().unwrap();
    let mut fields = head.into_fields();
    fields.uses = uses;
    DumpHead::new(fields)
}

/// Cuts the chosen tape and begins the part on it. Where contents are told it is never answered that the tape has too few
/// records.
pub(crate) fn tape_step<P: Plant>(job: &mut JobFields, plant: &mut P) -> Result<bool, Failed>
    requires fit { IsFor P.Plant job.old.reel.slot (records_on job.old.reel) plant.old }
    requires marks { job.old.reel.marks ≤ job.old.reel.blocks }
    requires few { job.old.reel.blocks * 16384 ≤ job.old.port.capacity }
    requires room { HasRoom 5 2 (with_label job.old.label (counts_on job.old.port job.old.reel)) }
    requires spare { job.old.spare ≡ Some job.old.head }
    requires uses { 1 ≤ job.old.head.uses }
    ensures same { result ≡ Ok false → job.new ≡ job.old }
    ensures taped { result ≡ Ok true → IsTaped P.tells ((state_of P.Plant plant.old).tape job.old.reel.slot) job.old job.new }
    ensures room { result ≡ Ok true → HasRoom 4 2 (counts_on job.new.port job.new.reel) }
    ensures fit { result ≡ Ok true → IsOn P.Plant job.new.reel.slot (records_on job.new.reel) plant.new }
    ensures told { P.tells → result ≢ Ok false }
    ensures lost { result ≡ Ok false → Done P.Plant (putting_away (loaded_of P.Plant plant.old) job.old.reel.slot) plant.old plant.new }
    ensures log_size { OnOk result ((P.view plant.new).log_size ≡ (P.view plant.old).log_size) }
    ensures stays { StaysQuiet P.Plant plant.old plant.new }
    ensures cause { HasCause (P.view plant.old).faults (P.view plant.new).faults result }
    ensures plant { (items : AnyList Item) → (P.tells → Read ((state_of P.Plant plant.old).tape job.old.reel.slot) items) → Turns P.Plant job.old.reel.slot (tape_effects (uses_for job.old items) job.old) result plant.old plant.new }
{
    let first = head_at(&job.port, &job.label, &job.reel);
    let count = count_on(&job.port, &job.reel);
    let known = job.head.fields().uses;
    let found = open_tape(plant, job.reel.slot, count, &job.label, known)?;
    let uses = match found {
        Some(uses) => uses,
        None => return Ok(false),
    };
    let head = head_now(&mut job.spare, uses);
    job.head = head;
    begin_on(plant, &job.port, &mut job.reel, &job.label, &job.head)?;
    job.first = first;
    job.phase = phase_begun(&job.hand);
    Ok(true)
}
