// Which calls of an object in memory failed.
ghost use Rattle.std.specs.Prelude.{◌≡◌, ◌+◌, ◌-◌, ◌^◌, ◌≤◌, ◌≢◌, min, false, IsTrue, OnOk, OnErr};
ghost use Rattle.crash_moments.specs.Moments.{Rose};
ghost use Rattle.media_core.specs.Plan.{turn_of, goes, counted, is_planned, is_stopped, more_where, one_more, stopped_at, GainsCall, SamePlan, IsUnplanned};

use crate::plan::{Plan, Turn};
use crash_moments::raised;
use std::alloc::{AllocError, Global};

/// The plan of an object with files and an output, how often its calls failed on each, and how many growths were refused.
/// Each count ends at 2^64 - 1. Where nothing was planned, the faults are the refused growths alone.
#[derive(Drop)]
pub struct Failures {
    plan: Plan,
    faults: u64,
    tell_faults: u64,
    wants: u64,
    ghost unplanned: { IsUnplanned plan → wants ≡ min (faults + tell_faults) (2 ^ 64 - 1) },
}

impl Failures {
    /// Nothing is planned, and nothing failed.
    pub fn new(alloc: Global) -> Failures
        ensures calls { result.plan.calls ≡ 0 }
        ensures unplanned { IsUnplanned result.plan }
        ensures faults { result.faults ≡ 0 }
        ensures tell_faults { result.tell_faults ≡ 0 }
        ensures wants { result.wants ≡ 0 }
    {
        Failures {
            plan: Plan::new(alloc),
            faults: 0,
            tell_faults: 0,
            wants: 0,
        }
    }

    /// A call on files begins. It has failed where that is planned.
    pub fn begin(&mut self) -> Turn
        ensures turn { result ≡ turn_of self.old.plan }
        ensures plan { self.new.plan ≡ counted self.old.plan }
        ensures faults { self.new.faults ≡ more_where (is_planned self.old.plan) self.old.faults }
        ensures tell_faults { self.new.tell_faults ≡ self.old.tell_faults }
        ensures wants { self.new.wants ≡ self.old.wants }
        ensures planned { result ≢ Turn.Goes → IsTrue (is_planned self.old.plan) }
        ensures goes { result ≡ Turn.Goes → is_planned self.old.plan ≡ false }
        ensures stops { result ≡ Turn.Stops → IsTrue (is_stopped self.old.plan) }
        ensures fails { result ≡ Turn.Fails → is_stopped self.old.plan ≡ false }
        ensures later { self.old.faults ≤ self.new.faults }
        ensures risen { result ≢ Turn.Goes → Rose self.old.faults self.new.faults }
    {
        let turn = self.plan.next();
        if turn != Turn::Goes {
            self.faults = raised(self.faults);
        }
        turn
    }

    /// A call on the output begins. It has failed where that is planned.
    pub fn begin_tell(&mut self) -> Turn
        ensures turn { result ≡ turn_of self.old.plan }
        ensures plan { self.new.plan ≡ counted self.old.plan }
        ensures faults { self.new.faults ≡ self.old.faults }
        ensures tell_faults { self.new.tell_faults ≡ more_where (is_planned self.old.plan) self.old.tell_faults }
        ensures wants { self.new.wants ≡ self.old.wants }
        ensures planned { result ≢ Turn.Goes → IsTrue (is_planned self.old.plan) }
        ensures goes { result ≡ Turn.Goes → is_planned self.old.plan ≡ false }
        ensures stops { result ≡ Turn.Stops → IsTrue (is_stopped self.old.plan) }
        ensures fails { result ≡ Turn.Fails → is_stopped self.old.plan ≡ false }
        ensures later { self.old.tell_faults ≤ self.new.tell_faults }
        ensures risen { result ≢ Turn.Goes → Rose self.old.tell_faults self.new.tell_faults }
    {
        let turn = self.plan.next();
        if turn != Turn::Goes {
            self.tell_faults = raised(self.tell_faults);
        }
        turn
    }

    /// A growth was refused in a call on files, which fails by that where it went its way so far. One that was
    /// stopped is counted as failed already.
    pub fn refuse(&mut self, turn: Turn)
        requires { turn ≢ Turn.Goes → IsUnplanned self.old.plan → ⊥ }
        ensures plan { self.new.plan ≡ self.old.plan }
        ensures faults { self.new.faults ≡ more_where (goes turn) self.old.faults }
        ensures later { self.old.faults ≤ self.new.faults }
        ensures tell_faults { self.new.tell_faults ≡ self.old.tell_faults }
        ensures wants { self.new.wants ≡ one_more self.old.wants }
        ensures wanted { Rose self.old.wants self.new.wants }
        ensures wants_later { self.old.wants ≤ self.new.wants }
    {
        self.wants = raised(self.wants);
        match turn {
            Turn::Goes => self.faults = raised(self.faults),
            Turn::Fails | Turn::Stops => {}
        }
    }

    /// A growth was refused in a call on the output, which fails by that where it went its way so far. One that was
    /// stopped is counted as failed already.
    pub fn refuse_tell(&mut self, turn: Turn)
        requires { turn ≢ Turn.Goes → IsUnplanned self.old.plan → ⊥ }
        ensures plan { self.new.plan ≡ self.old.plan }
        ensures faults { self.new.faults ≡ self.old.faults }
        ensures tell_faults { self.new.tell_faults ≡ more_where (goes turn) self.old.tell_faults }
        ensures later { self.old.tell_faults ≤ self.new.tell_faults }
        ensures wants { self.new.wants ≡ one_more self.old.wants }
        ensures wanted { Rose self.old.wants self.new.wants }
        ensures wants_later { self.old.wants ≤ self.new.wants }
    {
        self.wants = raised(self.wants);
        match turn {
            Turn::Goes => self.tell_faults = raised(self.tell_faults),
            Turn::Fails | Turn::Stops => {}
        }
    }

    /// Names a call that fails and changes nothing. On an error all stays.
    pub fn fail_at(&mut self, call: u64) -> Result<(), AllocError>
        ensures ok { OnOk result (GainsCall self.old.plan self.new.plan call) }
        ensures err { OnErr result (SamePlan self.old.plan self.new.plan) }
        ensures faults { self.new.faults ≡ self.old.faults }
        ensures tell_faults { self.new.tell_faults ≡ self.old.tell_faults }
        ensures wants { self.new.wants ≡ self.old.wants }
    {
        self.plan.fail_at(call)?;
        Ok(())
    }

    /// Names a call that is stopped with all later ones.
    pub fn stop_at(&mut self, call: u64)
        ensures plan { self.new.plan ≡ stopped_at self.old.plan call }
        ensures faults { self.new.faults ≡ self.old.faults }
        ensures tell_faults { self.new.tell_faults ≡ self.old.tell_faults }
        ensures wants { self.new.wants ≡ self.old.wants }
    {
        self.plan.stop_at(call);
    }

    /// How many growths were refused.
    pub fn wants(&self) -> u64
        ensures wants { result ≡ self.now.wants }
        ensures alone { IsUnplanned self.now.plan → result ≡ min (self.now.faults + self.now.tell_faults) (2 ^ 64 - 1) }
    {
        self.wants
    }
}
