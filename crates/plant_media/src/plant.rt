// A plant over a media.
ghost use Rattle.std.specs.Prelude.{◌≡◌, ◌≢◌, ◌↔◌, ◌+◌, ◌-◌, ◌^◌, min, ◌<◌, ◌≤◌, ◌++◌, [], ◌∷◌, List, ℕ, length, take, Option, Some, None, IfOk, IfErr, OnOk, IfSome, IsSome, IsTrue, Bool, true, false};
ghost use Rattle.crash_moments.specs.Moments.{Leads, HasCause, mapped};
ghost use Rattle.media_core.specs.Media.{Image, Same};
ghost use Rattle.crash_log.specs.Log.{is_damaged};
ghost use Rattle.crash_log.specs.CrashLog.{length_of, settled_of, damaged_of};
ghost use Rattle.crash_log.specs.Fit.{as_read};
ghost use Rattle.media_core.specs.Still.{AreStill};
ghost use Rattle.plant_core.specs.Crashes.{IsSettled, seen_in, settled_part};
ghost use Rattle.plant_core.specs.Steps.{Same as SameStock, MaySettle};
ghost use Rattle.plant_media.specs.Stock.{stock_of};

use crate::look::look;
use crate::open::{OpenFault, Unopened};
use crate::tape::Tape;
use crash_log::CrashLog;
use crash_moments::raised;
use media_core::Media;
use plant_core::{Block, Failed, Kind, Plant, PutFault};

/// The least number of records with which a tape takes no more. Where contents are told none has so many when one is put.
const RECORD_LIMIT: u32 = 524_288;

/// A log, tapes and an output over a media. File 0 is the log's, file `k + 1` that of slot `k`. Of the tapes at most the
/// loaded one's state is kept. No call takes memory.
#[derive(Drop)]
pub struct MediaPlant<M: Media> {
    media: M,
    journal: CrashLog,
    tape: Option<Tape>,
    loads: u64,
}

impl<M: Media> MediaPlant<M> {
    ghost use Rattle.plant_media.specs.Opening.{media_after, HasCauseIn};
    ghost use Rattle.plant_media.specs.Slots.{records_in};
    ghost use Rattle.plant_media.specs.State.{media_of, shown_of, moments_of, loaded_of, IsSound, Survives, SameBut};

    /// Opens the plant that the files of a media have. Nothing is written: the media reads as before, and a crash leaves what
    /// it left before. Opening has no condition, and all that the plant has is settled. It survives a crash where no write to a
    /// file waits for a sync: so it is where a program begins.
    ///
    /// `Failed` comes only where the media's count of faults rose, `BadLog` exactly where the journal's file is damaged. Then
    /// the media is handed back.
    pub fn open(mut media: M) -> Result<MediaPlant<M>, Unopened<M>>
        ensures sound { IfOk result (λ plant. IsSound M.tells M.seen M.present plant) }
        ensures survives { M.tells → AreStill M.time M.seen media → IfOk result (λ plant. Survives M.tells M.time M.seen M.present plant) }
        ensures stock { M.tells → IfOk result (λ plant. stock_of (M.seen media) ≡ seen_in (shown_of M.seen plant)) }
        ensures settled { M.tells → IfOk result (λ plant. IsSettled (shown_of M.seen plant)) }
        ensures loaded { IfOk result (λ plant. loaded_of plant ≡ None) }
        ensures loads { IfOk result (λ plant. plant.loads ≡ 0) }
        ensures whole { M.tells → OnOk result (is_damaged ((M.seen media).file 0) ≡ false) }
        ensures fault { IfErr result (λ unopened. HasCauseIn M.tells (is_damaged ((M.seen media).file 0)) (M.faults media) (M.faults unopened.media) unopened.fault) }
        ensures seen { M.tells → M.seen (media_after result) ≡ M.seen media }
        ensures crash { M.tells → Leads M.time media (media_after result) Same }
        ensures count { M.count (media_after result) ≡ M.count media }
        ensures present { M.present (media_after result) ≡ M.present media }
        ensures faults { OnOk result (M.faults (media_after result) ≡ M.faults media) }
        ensures tell_faults { M.tell_faults (media_after result) ≡ M.tell_faults media }
    {
        match CrashLog::open(&mut media, 0, 268435456) {
            Ok(journal) => {
                if journal.damaged() {
                    return Err(Unopened {
                        fault: OpenFault::BadLog { at: 0 },
                        media,
                    });
                }
                Ok(MediaPlant {
                    media,
                    journal,
                    tape: None,
                    loads: 0,
                })
            }
            Err(_) => Err(Unopened {
                fault: OpenFault::Failed,
                media,
            }),
        }
    }

    /// Hands the media back. Its files have what is settled of the plant: all that the plant shows, where all is settled. Of
    /// one that survives a crash no write to a file waits for a sync then, so that a next plant on the media survives one too.
    pub fn into_media(self) -> M
        ensures media { result ≡ media_of self }
        ensures stock { M.tells → IsSound M.tells M.seen M.present self → stock_of (M.seen result) ≡ settled_part (shown_of M.seen self) }
        ensures still { M.tells → Survives M.tells M.time M.seen M.present self → IsSettled (shown_of M.seen self) → AreStill M.time M.seen result }
    {
        let MediaPlant {
            media,
            journal: _,
            tape: _,
            loads: _,
        } = self;
        media
    }

    /// Whether the tape in a slot is the loaded one.
    fn is_loaded(&self, slot: u32) -> bool
        ensures { IsTrue result ↔ (loaded_of self.now ≡ Some slot) }
    {
        match &self.tape {
            Some(tape) => tape.slot == slot,
            None => false,
        }
    }

    /// Whether the loaded tape has so many records that it takes no more.
    fn is_full(&self) -> bool
        ensures { IsTrue result ↔ (524288 ≤ records_in self.now.tape) }
    {
        match &self.tape {
            Some(tape) => tape.records >= RECORD_LIMIT,
            None => false,
        }
    }

    /// Settles what was put on the loaded tape, before another one is loaded.
    fn put_away(&mut self, slot: u32) -> Result<(), Failed>
        requires sound { IsSound M.tells M.seen M.present self.old }
        requires other { loaded_of self.old ≢ Some slot }
        ensures sound { OnOk result (IsSound M.tells M.seen M.present self.new) }
        ensures survives { M.tells → Survives M.tells M.time M.seen M.present self.old → OnOk result (Survives M.tells M.time M.seen M.present self.new) }
        ensures all { OnOk result (IfSome self.new.tape (λ t. t.settled ≡ t.records)) }
        ensures loaded { OnOk result (loaded_of self.new ≡ loaded_of self.old) }
        ensures journal { self.new.journal ≡ self.old.journal }
        ensures seen { M.tells → OnOk result (SameBut (shown_of M.seen self.old) (shown_of M.seen self.new)) }
        ensures told { M.tells → (shown_of M.seen self.new).told ≡ (shown_of M.seen self.old).told }
        ensures crash { M.tells → Survives M.tells M.time M.seen M.present self.old → Leads (moments_of M.time) self.old self.new (MaySettle (loaded_of self.old) slot (shown_of M.seen self.old)) }
        ensures count { M.count self.new.media ≡ M.count self.old.media }
        ensures present { M.present self.new.media ≡ M.present self.old.media }
        ensures cause { HasCause (M.faults self.old.media) (M.faults self.new.media) result }
        ensures tell_faults { M.tell_faults self.new.media ≡ M.tell_faults self.old.media }
        ensures loads { self.new.loads ≡ self.old.loads }
    {
        match &mut self.tape {
            Some(tape) => match tape.settle(&mut self.media) {
                Ok(()) => Ok(()),
                Err(_) => Err(Failed),
            },
            None => Ok(()),
        }
    }

    /// Loads another tape, once all that was put is settled.
    fn take_up(&mut self, slot: u32) -> Result<(), Failed>
        requires sound { IsSound M.tells M.seen M.present self.old }
        requires other { loaded_of self.old ≢ Some slot }
        requires slot { slot < 65535 }
        requires here { IsTrue (M.present self.old.media (slot + 1)) }
        requires all { IfSome self.old.tape (λ t. t.settled ≡ t.records) }
        ensures sound { OnOk result (IsSound M.tells M.seen M.present self.new) }
        ensures survives { M.tells → Survives M.tells M.time M.seen M.present self.old → OnOk result (Survives M.tells M.time M.seen M.present self.new) }
        ensures loaded { OnOk result (loaded_of self.new ≡ Some slot) }
        ensures journal { self.new.journal ≡ self.old.journal }
        ensures seen { M.tells → OnOk result (SameBut (shown_of M.seen self.old) (shown_of M.seen self.new)) }
        ensures told { M.tells → (shown_of M.seen self.new).told ≡ (shown_of M.seen self.old).told }
        ensures all { M.tells → OnOk result ((k : ℕ) → (shown_of M.seen self.new).settled k ≡ length ((shown_of M.seen self.new).tape k)) }
        ensures crash { M.tells → Leads (moments_of M.time) self.old self.new SameStock }
        ensures count { M.count self.new.media ≡ M.count self.old.media }
        ensures present { M.present self.new.media ≡ M.present self.old.media }
        ensures cause { HasCause (M.faults self.old.media) (M.faults self.new.media) result }
        ensures tell_faults { M.tell_faults self.new.media ≡ M.tell_faults self.old.media }
        ensures counted { OnOk result (self.new.loads ≡ min (self.old.loads + 1) (2 ^ 64 - 1)) }
        ensures loads { self.old.loads ≤ self.new.loads }
        ensures more { self.new.loads ≤ self.old.loads + 1 }
    {
        match Tape::open(&mut self.media, slot) {
            Ok(tape) => {
                self.tape = Some(tape);
                self.loads = raised(self.loads);
                Ok(())
            }
            Err(_) => Err(Failed),
        }
    }
}

impl<M: Media> Plant for MediaPlant<M> {
    ghost use Rattle.plant_media.specs.State.{view_of, moments_of, IsSound, Survives};
    ghost use Rattle.plant_media.specs.Laws.{few, below, small_log, is_here, counted, log_counted, few_records, all_within, others_whole, is_left, told_is_left, settled_is_left};

    ghost tells = { M.tells };

    ghost view = { view_of M.seen M.count M.present M.faults M.tell_faults };

    ghost time = { moments_of M.time };

    ghost under = { Image };

    ghost beneath = { λ s. M.seen s.media };

    ghost sound = { IsSound M.tells M.seen M.present };

    ghost survives = { Survives M.tells M.time M.seen M.present };

    ghost few_slots = { λ s sound. few (M.count s.media) (M.few_files s.media) };

    ghost here_below = { λ s k sound is. below (M.present s.media) (M.count s.media) k (M.here_below s.media) is };

    ghost loaded_here = { λ s k sound loaded. is_here M.tells (as_read M.seen) M.seen M.present s sound k loaded };

    ghost records_told = { λ s k told sound loaded. counted M.tells (as_read M.seen) M.seen M.present s sound told k loaded };

    ghost log_told = { λ s told sound. log_counted M.tells (as_read M.seen) M.seen M.present s sound told };

    ghost log_small = { λ s sound. small_log s.journal };

    ghost short_tapes = { λ s k told sound. few_records M.tells (as_read M.seen) M.seen M.present s sound told k };

    ghost within = { λ s told sound. all_within M.tells (as_read M.seen) M.seen M.present s sound told };

    ghost others_settled = { λ s k told sound other. others_whole M.tells (as_read M.seen) M.seen M.present s sound told k other };

    ghost left = { λ s c told sound survives left. is_left M.tells M.time M.seen M.present s survives told (λ i was. M.told_left s.media i told was) c left };

    ghost told_left = { λ s c told left. told_is_left M.time M.seen s (λ i was. M.told_left s.media i told was) c left };

    ghost settled_may_be_left = { λ s told sound survives. settled_is_left M.tells M.time M.seen M.present s survives told (M.seen_may_be_left s.media told) };

    fn slots(&self) -> u32 {
        self.media.count() - 1
    }

    fn here(&self, slot: u32) -> bool {
        match slot.checked_add(1) {
            Some(f) => self.media.here(f),
            None => false,
        }
    }

    fn peek(&mut self, slot: u32, into: &mut Block) -> Result<Option<Kind>, Failed> {
        let shown = look(&mut self.media, &self.tape, slot, into)?;
        Ok(shown)
    }

    fn load(&mut self, slot: u32) -> Result<(), Failed> {
        if self.is_loaded(slot) {
            return Ok(());
        }
        self.put_away(slot)?;
        self.take_up(slot)?;
        Ok(())
    }

    fn loaded(&self) -> Option<u32> {
        match &self.tape {
            Some(tape) => Some(tape.slot),
            None => None,
        }
    }

    fn tape_len(&self) -> u32 {
        match &self.tape {
            Some(tape) => tape.records,
            None => 0,
        }
    }

    fn tape_get(&mut self, i: u32, into: &mut Block) -> Result<Kind, Failed> {
        match &self.tape {
            Some(tape) => match tape.get(&mut self.media, i, into) {
                Ok(kind) => Ok(kind),
                Err(_) => Err(Failed),
            },
            None => unreachable!(),
        }
    }

    fn tape_put(&mut self, block: &Block) -> Result<(), Failed> {
        if self.is_full() {
            return Ok(());
        }
        match &mut self.tape {
            Some(tape) => match tape.put(&mut self.media, block) {
                Ok(()) => Ok(()),
                Err(_) => Err(Failed),
            },
            None => unreachable!(),
        }
    }

    fn tape_mark(&mut self) -> Result<(), Failed> {
        if self.is_full() {
            return Ok(());
        }
        match &mut self.tape {
            Some(tape) => match tape.mark(&mut self.media) {
                Ok(()) => Ok(()),
                Err(_) => Err(Failed),
            },
            None => unreachable!(),
        }
    }

    fn tape_cut(&mut self, n: u32) -> Result<(), Failed> {
        match &mut self.tape {
            Some(tape) => match tape.cut(&mut self.media, n) {
                Ok(()) => Ok(()),
                Err(_) => Err(Failed),
            },
            None => unreachable!(),
        }
    }

    fn log_len(&self) -> u64 {
        self.journal.len()
    }

    fn log_read(&mut self, at: u64, into: &mut [u8]) -> Result<(), Failed> {
        match self.journal.read(&mut self.media, at, into) {
            Ok(()) => Ok(()),
            Err(_) => Err(Failed),
        }
    }

    fn log_put(&mut self, piece: &[u8]) -> Result<(), PutFault> {
        match self.journal.put(&mut self.media, piece) {
            Ok(()) => Ok(()),
            Err(crash_log::PutFault::LogFull) => Err(PutFault::LogFull),
            Err(crash_log::PutFault::Failed) => Err(PutFault::Failed),
        }
    }

    fn log_commit(&mut self) -> Result<(), Failed> {
        match self.journal.commit(&mut self.media) {
            Ok(()) => Ok(()),
            Err(_) => Err(Failed),
        }
    }

    fn log_replace(&mut self, bytes: &[u8]) -> Result<(), PutFault> {
        match self.journal.replace(&mut self.media, bytes) {
            Ok(()) => Ok(()),
            Err(crash_log::PutFault::LogFull) => Err(PutFault::LogFull),
            Err(crash_log::PutFault::Failed) => Err(PutFault::Failed),
        }
    }

    fn tell(&mut self, piece: &[u8]) -> Result<usize, Failed> {
        match self.media.tell(piece) {
            Ok(n) => Ok(n),
            Err(_) => Err(Failed),
        }
    }
}
