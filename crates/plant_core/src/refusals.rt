// How often a growth was refused to a plant in memory.
ghost use Rattle.std.specs.Prelude.{◌≡◌, ◌+◌, ◌-◌, ◌^◌, ◌≤◌, min};
ghost use Rattle.crash_moments.specs.Moments.{Rose};

use crash_moments::raised;

/// How many growths were refused: in calls on the log and the tapes, in calls on the output, and in all. Each count ends at
/// 2^64 - 1.
#[derive(Drop)]
pub struct Refusals {
    faults: u64,
    tell_faults: u64,
    wants: u64,
    ghost alone: { wants ≡ min (faults + tell_faults) (2 ^ 64 - 1) },
}

impl Refusals {
    /// None was refused.
    pub fn new() -> Refusals
        ensures faults { result.faults ≡ 0 }
        ensures tell_faults { result.tell_faults ≡ 0 }
        ensures wants { result.wants ≡ 0 }
    {
        Refusals {
            faults: 0,
            tell_faults: 0,
            wants: 0,
        }
    }

    /// One was refused in a call on the log or a tape.
    pub fn refuse(&mut self)
        ensures tell_faults { self.new.tell_faults ≡ self.old.tell_faults }
        ensures risen { Rose self.old.faults self.new.faults }
        ensures later { self.old.faults ≤ self.new.faults }
        ensures wanted { Rose self.old.wants self.new.wants }
        ensures wants_later { self.old.wants ≤ self.new.wants }
    {
        self.wants = raised(self.wants);
        self.faults = raised(self.faults);
    }

    /// One was refused in a call on the output.
    pub fn refuse_tell(&mut self)
        ensures faults { self.new.faults ≡ self.old.faults }
        ensures risen { Rose self.old.tell_faults self.new.tell_faults }
        ensures later { self.old.tell_faults ≤ self.new.tell_faults }
        ensures wanted { Rose self.old.wants self.new.wants }
        ensures wants_later { self.old.wants ≤ self.new.wants }
    {
        self.wants = raised(self.wants);
        self.tell_faults = raised(self.tell_faults);
    }

    /// How many were refused in all.
    pub fn wants(&self) -> u64
        ensures wants { result ≡ self.now.wants }
        ensures alone { result ≡ min (self.now.faults + self.now.tell_faults) (2 ^ 64 - 1) }
    {
        self.wants
    }
}
