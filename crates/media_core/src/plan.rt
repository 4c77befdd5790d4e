// Which calls of an object in memory are to fail.
ghost use Rattle.std.specs.Prelude.{◌≡◌, OnOk, OnErr};

use crash_moments::raised;
use std::alloc::{AllocError, Global};

/// What becomes of a call: it goes its way, it fails and changes nothing, or it fails in progress.
#[derive(Clone, Copy, Debug, PartialEq, Eq)]
pub enum Turn {
    Goes,
    Fails,
    Stops,
}

/// The number of calls so far, the numbers of those that fail, and the first one of those that are stopped. Calls are
/// numbered from 0.
#[derive(Drop)]
pub struct Plan {
    calls: u64,
    fails: Vec<u64>,
    stop: Option<u64>,
}

impl Plan {
    ghost use Rattle.media_core.specs.Plan.{turn_of, counted, stopped_at, GainsCall, SamePlan, IsUnplanned};

    /// No call was made, and none is planned to fail.
    pub fn new(alloc: Global) -> Plan
        ensures calls { result.calls ≡ 0 }
        ensures unplanned { IsUnplanned result }
    {
        Plan {
            calls: 0,
            fails: Vec::new(alloc),
            stop: None,
        }
    }

    /// What becomes of the next call, which is counted.
    pub fn next(&mut self) -> Turn
        ensures turn { result ≡ turn_of self.old }
        ensures counted { self.new ≡ counted self.old }
    {
        let number = self.calls;
        self.calls = raised(number);
        match self.stop {
            Some(at) if at <= number => Turn::Stops,
            _ => {
                if self.fails.contains(&number) {
                    Turn::Fails
                } else {
                    Turn::Goes
                }
            }
        }
    }

    /// Names a call that fails and changes nothing. On an error all stays.
    pub fn fail_at(&mut self, call: u64) -> Result<(), AllocError>
        ensures ok { OnOk result (GainsCall self.old self.new call) }
        ensures err { OnErr result (SamePlan self.old self.new) }
    {
        self.fails.push(call)?;
        Ok(())
    }

    /// Names a call that is stopped with all later ones.
    pub fn stop_at(&mut self, call: u64)
        ensures { self.new ≡ stopped_at self.old call }
    {
        self.stop = match self.stop {
            Some(at) => Some(at.min(call)),
            None => Some(call),
        };
    }
}
