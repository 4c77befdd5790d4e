// A source of bytes.
ghost use Rattle.std.specs.Prelude.{◌≡◌, ◌≢◌, ◌⊎◌, ◌≤◌, ◌-◌, min, [], ℕ, List, length, take, drop, IfOk, OnOk, OnErr, IsOk, IsTrue, vec_len, false};
ghost use Rattle.crash_moments.specs.Moments.{HasCause};
ghost use Rattle.media_core.specs.Plan.{counted, is_planned, more_where, GainsCall, SamePlan, IsUnplanned};

use crate::media::{Failed, Memory};
use crate::plan::{Plan, Turn};
use crash_moments::raised;
use std::alloc::Global;

/// A source of bytes, read from the front to its end.
pub trait Source {
    /// Whether the bytes that are left are told: always for those in memory, never for an adapter over the outside.
    ghost tells: { Type 0 };

    /// The bytes that are left.
    ghost left: { Self → List ℕ };

    /// How often a read was refused. It ends at 2^64 - 1.
    ghost faults: { Self → ℕ };

    /// Takes a front of what is left, at most `into.len()` bytes, and says how many bytes it is. It is 0 for an `into`
    /// that isn't empty exactly where none are left; this is the end. Behind them `into` stays. A `Failed` takes nothing.
    fn read(&mut self, into: &mut [u8]) -> Result<usize, Failed>
        ensures room { IfOk result (λ n. n ≤ length into.old) }
        ensures within { tells → IfOk result (λ n. n ≤ length (left self.old)) }
        ensures end { tells → IfOk result (λ n. n ≡ 0 → (length into.old ≡ 0) ⊎ (left self.old ≡ [])) }
        ensures bytes { tells → IfOk result (λ n. take n into.new ≡ take n (left self.old)) }
        ensures behind { tells → IfOk result (λ n. drop n into.new ≡ drop n into.old) }
        ensures rest { tells → IfOk result (λ n. left self.new ≡ drop n (left self.old)) }
        ensures failed { tells → OnErr result (left self.new ≡ left self.old) }
        ensures cause { HasCause (faults self.old) (faults self.new) result };
}

/// Stated bytes as a source. A read fails exactly where `fail_at` names it. Reads are numbered from 0.
#[derive(Drop)]
pub struct SourceMem {
    bytes: Vec<u8>,
    at: usize,
    plan: Plan,
    faults: u64,
    ghost within: { at ≤ vec_len bytes },
}

impl Source for SourceMem {
    ghost use Rattle.media_core.specs.Source.{left_of, source_plan, source_faults};

    ghost tells = { Unit {0} };

    ghost left = { left_of };

    ghost faults = { source_faults };

    fn read(&mut self, into: &mut [u8]) -> Result<usize, Failed>
        ensures room { IfOk result (λ n. n ≤ length into.old) }
        ensures within { IfOk result (λ n. n ≤ length (left_of self.old)) }
        ensures end { IfOk result (λ n. n ≡ 0 → (length into.old ≡ 0) ⊎ (left_of self.old ≡ [])) }
        ensures bytes { IfOk result (λ n. take n into.new ≡ take n (left_of self.old)) }
        ensures behind { IfOk result (λ n. drop n into.new ≡ drop n into.old) }
        ensures rest { IfOk result (λ n. left_of self.new ≡ drop n (left_of self.old)) }
        ensures failed { OnErr result (left_of self.new ≡ left_of self.old) }
        ensures cause { HasCause (source_faults self.old) (source_faults self.new) result }
        ensures plan { source_plan self.new ≡ counted (source_plan self.old) }
        ensures faults { source_faults self.new ≡ more_where (is_planned (source_plan self.old)) (source_faults self.old) }
        ensures named { OnErr result (IsTrue (is_planned (source_plan self.old))) }
        ensures not_named { OnOk result (is_planned (source_plan self.old) ≡ false) }
    {
        if self.plan.next() != Turn::Goes {
            self.faults = raised(self.faults);
            return Err(Failed);
        }
        let count = copy_part(&self.bytes, self.at, into);
        self.at += count;
        Ok(count)
    }
}

/// Copies a front of a list from an offset on, as much as there is room for, and says how many bytes it is.
fn copy_part(bytes: &Vec<u8>, at: usize, into: &mut [u8]) -> usize
    requires { at ≤ vec_len bytes.now }
    ensures count { result ≡ min (length into.old) (vec_len bytes.now - at) }
    ensures front { take result into.new ≡ take result (drop at bytes.now.items) }
    ensures behind { drop result into.new ≡ drop result into.old }
{
    let rest = &bytes[at..];
    let count = into.len().min(rest.len());
    into[..count].copy_from_slice(&rest[..count]);
    count
}

impl SourceMem {
    ghost use Rattle.media_core.specs.Source.{left_of, source_plan, source_faults};

    /// These bytes, of which no read fails.
    pub fn new(alloc: Global, bytes: &[u8]) -> Result<SourceMem, Memory>
        ensures left { IfOk result (λ s. left_of s ≡ bytes.now) }
        ensures calls { IfOk result (λ s. (source_plan s).calls ≡ 0) }
        ensures unplanned { IfOk result (λ s. IsUnplanned (source_plan s)) }
        ensures faults { IfOk result (λ s. source_faults s ≡ 0) }
    {
        Ok(SourceMem {
            bytes: bytes.to_vec(alloc)?,
            at: 0,
            plan: Plan::new(alloc),
            faults: 0,
        })
    }

    /// Makes the read of that number fail and take nothing. On an error all stays.
    pub fn fail_at(&mut self, read: u64) -> Result<(), Memory>
        ensures ok { OnOk result (GainsCall (source_plan self.old) (source_plan self.new) read) }
        ensures err { OnErr result (SamePlan (source_plan self.old) (source_plan self.new)) }
        ensures left { left_of self.new ≡ left_of self.old }
        ensures faults { source_faults self.new ≡ source_faults self.old }
    {
        self.plan.fail_at(read)?;
        Ok(())
    }
}
