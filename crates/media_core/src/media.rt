// Numbered files and one output.
ghost use Rattle.std.specs.Prelude.{◌≡◌, ◌+◌, ◌^◌, ◌<◌, ◌≤◌, ◌++◌, List, ℕ, length, take, drop, IfOk, OnOk, OnErr, IsTrue, Bool};
ghost use Rattle.crash_moments.specs.Moments.{Moments, Leads, HasCause};
ghost use Rattle.crash_moments.specs.Telling.{IsFront, ToldPart, in_progress};
ghost use Rattle.media_core.specs.Media.{Image, Holds, Torn, AtFile, Same, Tells};
ghost use Rattle.media_core.specs.Still.{IsStill};

use std::alloc::AllocError;
use thiserror::Error;

/// Want of memory, where it is the only error.
pub type Memory = AllocError;

/// A call was refused by the outside. Its cause is a count of faults that rose.
#[derive(Clone, Copy, Debug, PartialEq, Eq, Drop, Error)]
#[error("a call of the media failed")]
pub struct Failed;

/// Numbered files and one output. File 0 is the journal and is always here, file `k + 1` is tape slot `k`. Offsets and
/// lengths are in bytes. After a `Failed` no further call is made on a media; it is opened again (this project's rules).
///
/// The clauses on contents hold where the type tells contents. What a crash may leave is told at each moment, also inside
/// a call: each image since the call's start is one of its start, changed as the clause `crash` says.
pub trait Media {
    /// Whether contents are told: always for files in memory, never for an adapter over the outside.
    ghost tells: { Type 0 };

    /// What reads give, and what was told.
    ghost seen: { Self → Image };

    /// What a crash may leave, now and at the moments before.
    ghost time: { Moments Self Image };

    /// How many files there are.
    ghost count: { Self → ℕ };

    /// Which files are here.
    ghost present: { Self → ℕ → Bool };

    /// How often a call on files was refused. It ends at 2^64 - 1.
    ghost faults: { Self → ℕ };

    /// How often a call on the output was refused. It ends at 2^64 - 1.
    ghost tell_faults: { Self → ℕ };

    /// The number of files, 1 to 65,536.
    fn count(&self) -> u32
        ensures { result ≡ count self.now };

    /// Whether a file is here. This doesn't change during a run.
    fn here(&self, f: u32) -> bool
        ensures { result ≡ present self.now f };

    /// The length of a file.
    fn len(&mut self, f: u32) -> Result<u64, Failed>
        requires { IsTrue (present self.old f) }
        ensures length { tells → IfOk result (λ n. n ≡ length ((seen self.old).file f)) }
        ensures seen { tells → seen self.new ≡ seen self.old }
        ensures crash { tells → Leads time self.old self.new Same }
        ensures count { count self.new ≡ count self.old }
        ensures present { present self.new ≡ present self.old }
        ensures cause { HasCause (faults self.old) (faults self.new) result }
        ensures tell_faults { tell_faults self.new ≡ tell_faults self.old };

    /// Fills `into` with the bytes of a file from `at` on.
    fn read(&mut self, f: u32, at: u64, into: &mut [u8]) -> Result<(), Failed>
        requires here { IsTrue (present self.old f) }
        requires within { tells → at + length into.old ≤ length ((seen self.old).file f) }
        ensures bytes { tells → OnOk result (into.new ≡ take (length into.old) (drop at ((seen self.old).file f))) }
        ensures seen { tells → seen self.new ≡ seen self.old }
        ensures crash { tells → Leads time self.old self.new Same }
        ensures count { count self.new ≡ count self.old }
        ensures present { present self.new ≡ present self.old }
        ensures cause { HasCause (faults self.old) (faults self.new) result }
        ensures tell_faults { tell_faults self.new ≡ tell_faults self.old };

    /// Writes over what is there from `at` on, and past the end. Until the next sync of the file a crash may leave any
    /// bytes in the range and past the old end, and any length between. It tells nothing, also where it fails.
    fn write(&mut self, f: u32, at: u64, from: &[u8]) -> Result<(), Failed>
        requires here { IsTrue (present self.old f) }
        requires at { tells → at ≤ length ((seen self.old).file f) }
        requires small { at + length from.now < 2 ^ 62 }
        ensures written { tells → OnOk result (AtFile f (Holds at from.now) (seen self.old) (seen self.new)) }
        ensures told { tells → (seen self.new).told ≡ (seen self.old).told }
        ensures crash { tells → Leads time self.old self.new (AtFile f (Torn at (length from.now))) }
        ensures count { count self.new ≡ count self.old }
        ensures present { present self.new ≡ present self.old }
        ensures cause { HasCause (faults self.old) (faults self.new) result }
        ensures tell_faults { tell_faults self.new ≡ tell_faults self.old };

    /// Waits until a file is on the disk: from then on a crash leaves of it what a read gives.
    fn sync(&mut self, f: u32) -> Result<(), Failed>
        requires { IsTrue (present self.old f) }
        ensures durable { tells → OnOk result (IsStill time seen f self.new) }
        ensures seen { tells → seen self.new ≡ seen self.old }
        ensures crash { tells → Leads time self.old self.new Same }
        ensures count { count self.new ≡ count self.old }
        ensures present { present self.new ≡ present self.old }
        ensures cause { HasCause (faults self.old) (faults self.new) result }
        ensures tell_faults { tell_faults self.new ≡ tell_faults self.old };

    /// Takes a front of a piece for the output, and says how many bytes of it. It takes none only where the piece is empty.
    /// Where it fails, what was told has all of the piece that may be out: a crash leaves a front of it.
    fn tell(&mut self, piece: &[u8]) -> Result<usize, Failed>
        ensures front { IfOk result (λ n. n ≤ length piece.now) }
        ensures some { IfOk result (λ n. n ≡ 0 → length piece.now ≡ 0) }
        ensures told { tells → IfOk result (λ n. (seen self.new).told ≡ (seen self.old).told ++ take n piece.now) }
        ensures part { tells → OnErr result (ToldPart piece.now (seen self.old).told (seen self.new).told) }
        ensures files { tells → (seen self.new).file ≡ (seen self.old).file }
        ensures crash { tells → Leads time self.old self.new (Tells (seen self.old).told (in_progress result piece.now)) }
        ensures count { count self.new ≡ count self.old }
        ensures present { present self.new ≡ present self.old }
        ensures cause { HasCause (tell_faults self.old) (tell_faults self.new) result }
        ensures faults { faults self.new ≡ faults self.old };

    /// There are 1 to 65,536 files.
    ghost some_files: { (s : Self) → 1 ≤ count s };

    ghost few_files: { (s : Self) → count s ≤ 65536 };

    /// The journal is always here, and no file past the last one is.
    ghost journal_here: { (s : Self) → IsTrue (present s 0) };

    ghost here_below: { (s : Self) (f : ℕ) → IsTrue (present s f) → f < count s };

    /// What reads give is one of the images.
    ghost seen_may_be_left: { (s : Self) → tells → time.may_leave s (seen s) };

    /// What was told of an image is a front of what was told.
    ghost told_left: { (s : Self) (c : Image) → tells → time.may_leave s c → IsFront c.told (seen s).told };
}
