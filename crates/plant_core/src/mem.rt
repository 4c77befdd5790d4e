// A log, tapes and an output in memory.
ghost use Rattle.std.specs.Prelude.{◌≡◌, ◌≢◌, ◌↔◌, ◌+◌, ◌-◌, ◌^◌, ◌≤◌, ◌<◌, ◌++◌, [], ◌∷◌, ℕ, length, min, Option, Some, None, IfOk, OnOk, OnErr, IsTrue, vec_len};
ghost use Rattle.std.specs.Prelude.{take, drop};
ghost use Rattle.crash_moments.specs.Moments.{HasCause};
ghost use Rattle.plant_core.specs.Crashes.{LeftIn, blank};
ghost use Rattle.plant_core.specs.Past.{after};
ghost use Rattle.plant_core.specs.Stock.{Stock, IsNothing};
ghost use Rattle.plant_core.specs.Tapes.{record_of, records_at};

use crate::event::{Event, keep, keep_log_put, keep_log_replace, keep_put, keep_tell, two_blocks};
use crate::fault::{Failed, Memory, PutFault};
use crate::plant::Plant;
use crate::record::{Block, Kind};
use crate::refusals::Refusals;
use crate::stored::{Stored, blank_tapes, count_in, cut_in, show_at, show_first};
use crash_moments::raised;
use std::alloc::Global;

/// The most bytes that a log has.
const LOG_LIMIT: u64 = 268_435_456;

/// A log, tapes and an output in memory. All slots are here. What was asked of it is kept, so that each image that a crash may
/// leave is told. One of its calls answers `Failed` exactly where a growth was refused to it.
#[derive(Drop)]
pub struct MemPlant {
    alloc: Global,
    tapes: Vec<Vec<Stored>>,
    loaded: Option<u32>,
    log: Vec<u8>,
    past: Vec<Event>,
    loads: u64,
    refusals: Refusals,
    ghost tapes_kept: { (k : ℕ) → records_at tapes.items k ≡ (after past.items blank).tape k },
    ghost log_kept: { log.items ≡ (after past.items blank).log },
    ghost log_short: { length log.items ≤ 268435456 },
    ghost few_slots: { length tapes.items ≤ 65535 },
    ghost short: { (k : ℕ) → length (records_at tapes.items k) ≤ 524288 },
    ghost loaded_here: { (k : ℕ) → loaded ≡ Some k → k < length tapes.items },
    ghost others_settled: { (k : ℕ) → loaded ≢ Some k → (after past.items blank).settled k ≡ length ((after past.items blank).tape k) },
}

impl Plant for MemPlant {
    ghost use Rattle.plant_core.specs.Kept.{always_within, settled_is_left, is_below, below_is, records_are, short_log, short_tape};
    ghost use Rattle.plant_core.specs.Shown.{IsSound, Survives, events_of, view_of, moments_of};
    ghost use Rattle.plant_core.specs.declared.event.Event.{Event};
    ghost use Rattle.std.specs.Prelude.{refl, List};

    ghost tells = { Unit {0} };

    ghost view = { view_of };

    ghost time = { moments_of };

    ghost under = { List Event };

    ghost beneath = { events_of };

    ghost sound = { IsSound };

    ghost survives = { Survives };

    ghost few_slots = { λ m sound. m.few_slots };

    ghost here_below = { λ m k sound is. is_below k (length m.tapes.items) is };

    ghost loaded_here = { λ m k sound is. below_is k (length m.tapes.items) (m.loaded_here k is) };

    ghost records_told = { λ m k tells sound. records_are m.loaded k (after m.past.items blank) };

    ghost log_told = { λ m tells sound. refl };

    ghost log_small = { λ m sound. short_log m.log.items (after m.past.items blank).log m.log_kept m.log_short };

    ghost short_tapes = { λ m k tells sound. short_tape (records_at m.tapes.items k) ((after m.past.items blank).tape k) (m.tapes_kept k) (m.short k) };

    ghost within = { λ m tells sound. always_within m.past.items };

    ghost others_settled = { λ m k tells sound. m.others_settled k };

    ghost left = { λ m c tells sound survives left. left };

    ghost told_left = { λ m c tells left. left.told };

    ghost settled_may_be_left = { λ m tells sound survives. settled_is_left m.past.items };

    fn slots(&self) -> u32 {
        self.tapes.len() as u32
    }

    fn here(&self, slot: u32) -> bool {
        (slot as usize) < self.tapes.len()
    }

    fn peek(&mut self, slot: u32, into: &mut Block) -> Result<Option<Kind>, Failed> {
        Ok(show_first(&self.tapes, slot as usize, into))
    }

    fn load(&mut self, slot: u32) -> Result<(), Failed> {
        match self.loaded {
            None => {
                self.loaded = Some(slot);
                self.loads = raised(self.loads);
                Ok(())
            }
            Some(other) if other == slot => Ok(()),
            Some(other) => {
                self.settle(other)?;
                self.loaded = Some(slot);
                self.loads = raised(self.loads);
                Ok(())
            }
        }
    }

    fn loaded(&self) -> Option<u32> {
        self.loaded
    }

    fn tape_len(&self) -> u32 {
        match self.loaded {
            Some(slot) => count_in(&self.tapes, slot as usize) as u32,
            None => 0,
        }
    }

    fn tape_get(&mut self, i: u32, into: &mut Block) -> Result<Kind, Failed> {
        match self.loaded {
            Some(slot) => Ok(show_at(&self.tapes, slot as usize, i as usize, into)),
            None => unreachable!(),
        }
    }

    fn tape_put(&mut self, block: &Block) -> Result<(), Failed> {
        match self.loaded {
            Some(slot) => match two_blocks(self.alloc, block) {
                Ok(both) => self.put(slot, both.0, both.1),
                Err(_) => {
                    self.refusals.refuse();
                    Err(Failed)
                }
            },
            None => unreachable!(),
        }
    }

    fn tape_mark(&mut self) -> Result<(), Failed> {
        match self.loaded {
            Some(slot) => {
                self.put(slot, Stored::Mark, Stored::Mark)?;
                self.settle(slot)?;
                Ok(())
            }
            None => unreachable!(),
        }
    }

    fn tape_cut(&mut self, n: u32) -> Result<(), Failed> {
        match self.loaded {
            Some(slot) => match keep(&mut self.past, Event::Cut(slot, n)) {
                Ok(()) => {
                    cut_in(&mut self.tapes, slot as usize, n as usize);
                    Ok(())
                }
                Err(_) => {
                    self.refusals.refuse();
                    Err(Failed)
                }
            },
            None => unreachable!(),
        }
    }

    fn log_len(&self) -> u64 {
        self.log.len() as u64
    }

    fn log_read(&mut self, at: u64, into: &mut [u8]) -> Result<(), Failed> {
        copy_front(&self.log, at as usize, into);
        Ok(())
    }

    fn log_put(&mut self, piece: &[u8]) -> Result<(), PutFault> {
        if piece.len() as u64 > LOG_LIMIT - self.log.len() as u64 {
            return Err(PutFault::LogFull);
        }
        match keep_log_put(self.alloc, &mut self.log, &mut self.past, piece) {
            Ok(()) => Ok(()),
            Err(_) => {
                self.refusals.refuse();
                Err(PutFault::Failed)
            }
        }
    }

    fn log_commit(&mut self) -> Result<(), Failed> {
        match keep(&mut self.past, Event::LogCommit) {
            Ok(()) => Ok(()),
            Err(_) => {
                self.refusals.refuse();
                Err(Failed)
            }
        }
    }

    fn log_replace(&mut self, bytes: &[u8]) -> Result<(), PutFault> {
        if bytes.len() as u64 > LOG_LIMIT {
            return Err(PutFault::LogFull);
        }
        match keep_log_replace(self.alloc, &mut self.log, &mut self.past, bytes) {
            Ok(()) => Ok(()),
            Err(_) => {
                self.refusals.refuse();
                Err(PutFault::Failed)
            }
        }
    }

    fn tell(&mut self, piece: &[u8]) -> Result<usize, Failed> {
        match keep_tell(self.alloc, &mut self.past, piece) {
            Ok(()) => Ok(piece.len()),
            Err(_) => {
                self.refusals.refuse_tell();
                Err(Failed)
            }
        }
    }
}

impl MemPlant {
    ghost use Rattle.plant_core.specs.Shown.{IsSound, Survives, IsNew, events_of, state_of, view_of, moments_of, wants_of};

    /// So many blank tapes, all of them here, an empty log, and nothing told. The number of slots is at most 65,535.
    pub fn new(alloc: Global, slots: u32) -> Result<MemPlant, Memory>
        requires few { slots ≤ 65535 }
        ensures slots { IfOk result (λ m. (view_of m).slots ≡ slots) }
        ensures present { IfOk result (λ m. (k : ℕ) → k < slots → IsTrue ((view_of m).present k)) }
        ensures state { IfOk result (λ m. (view_of m).state ≡ blank) }
        ensures fresh { IfOk result (λ m. (c : Stock) → moments_of.may_leave m c → IsNothing c) }
        ensures is_new { IfOk result IsNew }
        ensures sound { IfOk result IsSound }
        ensures survives { IfOk result Survives }
    {
        let tapes = blank_tapes(alloc, slots)?;
        Ok(MemPlant {
            alloc,
            tapes,
            loaded: None,
            log: Vec::new(alloc),
            past: Vec::new(alloc),
            loads: 0,
            refusals: Refusals::new(),
        })
    }

    /// How many growths were refused. The faults of its calls are these alone.
    pub fn wants(&self) -> u64
        ensures wants { result ≡ wants_of self.now }
        ensures alone { result ≡ min ((view_of self.now).faults + (view_of self.now).tell_faults) (2 ^ 64 - 1) }
    {
        self.refusals.wants()
    }

    /// How often a tape was loaded that wasn't the loaded one. The count ends at 2^64 - 1.
    pub fn loads(&self) -> u64
        ensures { result ≡ (view_of self.now).loads }
    {
        self.loads
    }

    /// Puts a record on the loaded tape.
    fn put(&mut self, slot: u32, stored: Stored, kept: Stored) -> Result<(), Failed>
        requires loaded { self.old.loaded ≡ Some slot }
        requires room { length ((state_of self.old).tape slot) < 524288 }
        requires same { record_of kept ≡ record_of stored }
        ensures ok { OnOk result (events_of self.new ≡ events_of self.old ++ Event.Put slot kept ∷ []) }
        ensures err { OnErr result (events_of self.new ≡ events_of self.old) }
        ensures loaded { self.new.loaded ≡ self.old.loaded }
        ensures slots { vec_len self.new.tapes ≡ vec_len self.old.tapes }
        ensures loads { self.new.loads ≡ self.old.loads }
        ensures tell_faults { self.new.refusals.tell_faults ≡ self.old.refusals.tell_faults }
        ensures cause { HasCause self.old.refusals.faults self.new.refusals.faults result }
    {
        match keep_put(&mut self.tapes, &mut self.past, slot, stored, kept) {
            Ok(()) => Ok(()),
            Err(_) => {
                self.refusals.refuse();
                Err(Failed)
            }
        }
    }

    /// Settles the loaded tape.
    fn settle(&mut self, slot: u32) -> Result<(), Failed>
        requires { self.old.loaded ≡ Some slot }
        ensures ok { OnOk result (events_of self.new ≡ events_of self.old ++ Event.Settle slot ∷ []) }
        ensures all { OnOk result ((k : ℕ) → (state_of self.new).settled k ≡ length ((state_of self.new).tape k)) }
        ensures err { OnErr result (events_of self.new ≡ events_of self.old) }
        ensures loaded { self.new.loaded ≡ self.old.loaded }
        ensures slots { vec_len self.new.tapes ≡ vec_len self.old.tapes }
        ensures loads { self.new.loads ≡ self.old.loads }
        ensures tell_faults { self.new.refusals.tell_faults ≡ self.old.refusals.tell_faults }
        ensures cause { HasCause self.old.refusals.faults self.new.refusals.faults result }
    {
        match keep(&mut self.past, Event::Settle(slot)) {
            Ok(()) => Ok(()),
            Err(_) => {
                self.refusals.refuse();
                Err(Failed)
            }
        }
    }

    /// A law: a crash may leave just what the crash model allows, no less and no more. The log is what is settled of it, each
    /// tape has its settled records, any front of those put since and at most one bad one, and of the output any front is
    /// there, each for itself.
    pub fn leaves_by_the_crash_model(&self)
        ensures { (c : Stock) → moments_of.may_leave self.now c ↔ LeftIn (view_of self.now).state c }
    {}
}

/// Copies a part of a log.
fn copy_front(log: &Vec<u8>, at: usize, into: &mut [u8])
    requires { at + length into.old ≤ vec_len log.now }
    ensures { into.new ≡ take (length into.old) (drop at log.now.items) }
{
    let rest = &log[at..];
    into.copy_from_slice(&rest[..into.len()]);
}
