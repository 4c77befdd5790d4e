//! The words in which all layers above say what a crash may leave, and a count of faults that stays at 2^64 - 1:
//! `raised`. `Moments` in `specs/Moments.antt` has the images that a crash may leave at a moment, and `Leads` says
//! how a call goes from one state to the next: each image that a crash might have left, also inside the call, is one
//! of the old state after a step. What may be left now counts as left since each earlier moment. No count of faults
//! falls: `HasCause` and `HasCauseAt`. The lemmas that join, weaken, map and view such steps are in `proofs/`.
//! `media_core` and `plant_core` stand above; no crate of this repository stands below.
#![tactic(auto)]

ghost use Rattle.std.specs.Prelude.{◌≡◌, ◌+◌, ◌-◌, ◌^◌, min};

/// A count of faults with one more. It stays at 2^64 - 1, the end of its type (this project's own rule).
pub fn raised(count: u64) -> u64
    ensures { result ≡ min (count + 1) (2 ^ 64 - 1) }
{
    count.saturating_add(1)
}
