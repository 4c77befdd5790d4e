// A log, tapes and an output.
ghost use Rattle.std.specs.Prelude.{◌≡◌, ◌≢◌, ◌↔◌, ◌+◌, ◌^◌, ◌<◌, ◌≤◌, ◌++◌, [], ◌∷◌, ℕ, length, take, drop, Some, Err, IfOk, OnOk, OnErr, IsSome, IsTrue};
ghost use Rattle.crash_moments.specs.Moments.{Moments, Leads, HasCause, HasCauseAt};
ghost use Rattle.crash_moments.specs.Telling.{IsFront, ToldPart, in_progress};
ghost use Rattle.plant_core.specs.Crashes.{IsWithin, LeftIn, settled_part};
ghost use Rattle.plant_core.specs.Effects.{replaces, puts, settles, cuts, comes, log_with, log_kept};
ghost use Rattle.plant_core.specs.Records.{NoBad, ShowsAt, ShowsFirst, block_with, mark};
ghost use Rattle.plant_core.specs.Steps.{Same, OldOr, MayGain, MayKeep, MaySettle, TellsTo};
ghost use Rattle.plant_core.specs.Stock.{Stock};
ghost use Rattle.plant_core.specs.Views.{View, OnlyReads, OnlyTape, OnlyLoads, OnlyLog, OnlyOutput, OnlyFaults, OnlyLoadFaults, OnlyTellFaults, loads_after};

use crate::fault::{Failed, PutFault};
use crate::record::{Block, Kind};

/// One log, tape slots with tapes that are lists of records, and one output. At most one tape is loaded. Lengths of the log
/// and of pieces are in bytes, those of tapes in records. After a `Failed` no further call is made on a plant; it is opened
/// again (this project's rules).
///
/// What a call does is said over one view of the plant. The clauses on its state hold where the type tells contents, those on
/// its numbers always. What a crash may leave is told at each moment, also inside a call: each image since the call's start
/// is one of its start, changed as the clause `crash` says. This, slots, counts and what was told are said after a `Failed` too,
/// and all else is owed after an Ok alone.
///
/// What is said of a crash, the clauses `crash` of calls that may write and the law on images, holds of a plant that
/// survives one: `survives`. All else holds of each sound plant.
///
/// Who calls can test each condition: `here`, `loaded`, `tape_len` and `log_len` are answers of their own, and `tape_get`
/// shows whether a record is bad.
pub trait Plant {
    /// Whether contents are told: always in memory, and over a media where that one tells its own.
    ghost tells: { Type 0 };

    /// What reads give and what is settled, slots, the loaded tape, and counts.
    ghost view: { Self → View };

    /// What a crash may leave, now and at the moments before.
    ghost time: { Moments Self Stock };

    /// What lies beneath the plant, and calls that only read leave as it is, whatever they answer: of a plant over files these with all
    /// their bytes, and what was told.
    ghost under: { Type 0 };

    ghost beneath: { Self → under };

    /// A state in which calls may be made. Each call keeps it, but for one that answers `Failed`. It says nothing of a crash.
    ghost sound: { Self → Type 0 };

    /// A crash leaves what is settled. A plant has it from its opening on where no write waited for a sync then; each call
    /// keeps it where it holds, but for one that answers `Failed`.
    ghost survives: { Self → Type 0 };

    /// The number of tape slots, at most 65,535.
    fn slots(&self) -> u32
        requires { sound self.now }
        ensures { result ≡ (view self.now).slots };

    /// Whether a slot is here. This doesn't change during a run. It is false past the last slot.
    fn here(&self, slot: u32) -> bool
        requires { sound self.now }
        ensures { result ≡ (view self.now).present slot };

    /// Shows the first record of the tape in a slot that is here: its kind, and its bytes in `into` where it is a block. It
    /// answers None for a tape without records. Of the loaded tape it shows what was put; the loaded tape stays.
    fn peek(&mut self, slot: u32, into: &mut Block) -> Result<Option<Kind>, Failed>
        requires sound { sound self.old }
        requires here { IsTrue ((view self.old).present slot) }
        ensures first { tells → IfOk result (λ shown. ShowsFirst ((view self.old).state.tape slot) shown into.new) }
        ensures only { OnOk result (OnlyReads tells (view self.old) (view self.new)) }
        ensures beneath { tells → beneath self.new ≡ beneath self.old }
        ensures sound { OnOk result (sound self.new) }
        ensures survives { tells → survives self.old → OnOk result (survives self.new) }
        ensures crash { tells → Leads time self.old self.new Same }
        ensures stays { OnlyFaults tells (view self.old) (view self.new) }
        ensures cause { HasCause (view self.old).faults (view self.new).faults result };

    /// Loads the tape of a slot that is here. Where another tape was loaded, what was put on that one is settled first. Where
    /// it is the loaded tape, nothing changes. A tape that wasn't loaded counts as one load; the count ends at 2^64 - 1. Whatever
    /// is answered, it counts one load at most.
    fn load(&mut self, slot: u32) -> Result<(), Failed>
        requires sound { sound self.old }
        requires here { IsTrue ((view self.old).present slot) }
        ensures only { OnOk result (OnlyLoads tells slot (view self.old) (view self.new)) }
        ensures again { (view self.old).loaded ≡ Some slot → OnOk result (self.new ≡ self.old) }
        ensures counted { OnOk result ((view self.new).loads ≡ loads_after (view self.old).loaded slot (view self.old).loads) }
        ensures sound { OnOk result (sound self.new) }
        ensures survives { tells → survives self.old → OnOk result (survives self.new) }
        ensures crash { tells → survives self.old → Leads time self.old self.new (MaySettle (view self.old).loaded slot (view self.old).state) }
        ensures stays { OnlyLoadFaults tells (view self.old) (view self.new) }
        ensures cause { HasCause (view self.old).faults (view self.new).faults result };

    /// The slot of the loaded tape.
    fn loaded(&self) -> Option<u32>
        requires { sound self.now }
        ensures { result ≡ (view self.now).loaded };

    /// The number of records of the loaded tape, with those that were put.
    fn tape_len(&self) -> u32
        requires sound { sound self.now }
        requires loaded { IsSome (view self.now).loaded }
        ensures { result ≡ (view self.now).records };

    /// Shows a record of the loaded tape: its kind, and its bytes in `into` where it is a block.
    fn tape_get(&mut self, i: u32, into: &mut Block) -> Result<Kind, Failed>
        requires sound { sound self.old }
        requires loaded { IsSome (view self.old).loaded }
        requires within { i < (view self.old).records }
        ensures found { tells → (k : ℕ) → (view self.old).loaded ≡ Some k → IfOk result (λ kind. ShowsAt ((view self.old).state.tape k) i kind into.new) }
        ensures only { OnOk result (OnlyReads tells (view self.old) (view self.new)) }
        ensures beneath { tells → beneath self.new ≡ beneath self.old }
        ensures sound { OnOk result (sound self.new) }
        ensures survives { tells → survives self.old → OnOk result (survives self.new) }
        ensures crash { tells → Leads time self.old self.new Same }
        ensures stays { OnlyFaults tells (view self.old) (view self.new) }
        ensures cause { HasCause (view self.old).faults (view self.new).faults result };

    /// Puts a block on the loaded tape. Where contents are told it has fewer than 524,288 records and no bad one (this
    /// project's own limit); where they aren't, nothing is put on a tape that has so many. The next mark, cut or load of
    /// another tape settles the block.
    fn tape_put(&mut self, block: &Block) -> Result<(), Failed>
        requires sound { sound self.old }
        requires loaded { IsSome (view self.old).loaded }
        requires room { tells → (k : ℕ) → (view self.old).loaded ≡ Some k → length ((view self.old).state.tape k) < 524288 }
        requires whole { tells → (k : ℕ) → (view self.old).loaded ≡ Some k → NoBad ((view self.old).state.tape k) }
        ensures only { (k : ℕ) → (view self.old).loaded ≡ Some k → OnOk result (OnlyTape tells (puts k (block_with block.now) ∷ []) (view self.old) (view self.new)) }
        ensures records { (view self.old).records < 524288 → OnOk result ((view self.new).records ≡ (view self.old).records + 1) }
        ensures sound { OnOk result (sound self.new) }
        ensures survives { tells → survives self.old → OnOk result (survives self.new) }
        ensures crash { tells → survives self.old → (k : ℕ) → (view self.old).loaded ≡ Some k → Leads time self.old self.new (MayGain (block_with block.now) k (view self.old).state) }
        ensures stays { OnlyFaults tells (view self.old) (view self.new) }
        ensures cause { HasCause (view self.old).faults (view self.new).faults result };

    /// Puts a mark on the loaded tape, under the same conditions. All that was put on the tape is settled.
    fn tape_mark(&mut self) -> Result<(), Failed>
        requires sound { sound self.old }
        requires loaded { IsSome (view self.old).loaded }
        requires room { tells → (k : ℕ) → (view self.old).loaded ≡ Some k → length ((view self.old).state.tape k) < 524288 }
        requires whole { tells → (k : ℕ) → (view self.old).loaded ≡ Some k → NoBad ((view self.old).state.tape k) }
        ensures only { (k : ℕ) → (view self.old).loaded ≡ Some k → OnOk result (OnlyTape tells (puts k mark ∷ settles k ∷ []) (view self.old) (view self.new)) }
        ensures records { (view self.old).records < 524288 → OnOk result ((view self.new).records ≡ (view self.old).records + 1) }
        ensures sound { OnOk result (sound self.new) }
        ensures survives { tells → survives self.old → OnOk result (survives self.new) }
        ensures crash { tells → survives self.old → (k : ℕ) → (view self.old).loaded ≡ Some k → Leads time self.old self.new (MayGain mark k (view self.old).state) }
        ensures stays { OnlyFaults tells (view self.old) (view self.new) }
        ensures cause { HasCause (view self.old).faults (view self.new).faults result };

    /// Keeps the first records of the loaded tape, settled. Where a record is bad, none is kept.
    fn tape_cut(&mut self, n: u32) -> Result<(), Failed>
        requires sound { sound self.old }
        requires loaded { IsSome (view self.old).loaded }
        requires within { n ≤ (view self.old).records }
        requires whole { tells → 0 < n → (k : ℕ) → (view self.old).loaded ≡ Some k → NoBad ((view self.old).state.tape k) }
        ensures only { (k : ℕ) → (view self.old).loaded ≡ Some k → OnOk result (OnlyTape tells (cuts k n ∷ []) (view self.old) (view self.new)) }
        ensures records { OnOk result ((view self.new).records ≡ n) }
        ensures sound { OnOk result (sound self.new) }
        ensures survives { tells → survives self.old → OnOk result (survives self.new) }
        ensures crash { tells → survives self.old → (k : ℕ) → (view self.old).loaded ≡ Some k → Leads time self.old self.new (MayKeep n k (view self.old).state) }
        ensures stays { OnlyFaults tells (view self.old) (view self.new) }
        ensures cause { HasCause (view self.old).faults (view self.new).faults result };

    /// The length of the log in bytes, with what was put.
    fn log_len(&self) -> u64
        requires { sound self.now }
        ensures { result ≡ (view self.now).log_size };

    /// Fills `into` with the bytes of the log from `at` on, also with what was put.
    fn log_read(&mut self, at: u64, into: &mut [u8]) -> Result<(), Failed>
        requires sound { sound self.old }
        requires within { at + length into.old ≤ (view self.old).log_size }
        ensures bytes { tells → OnOk result (into.new ≡ take (length into.old) (drop at (view self.old).state.log)) }
        ensures only { OnOk result (OnlyReads tells (view self.old) (view self.new)) }
        ensures beneath { tells → beneath self.new ≡ beneath self.old }
        ensures sound { OnOk result (sound self.new) }
        ensures survives { tells → survives self.old → OnOk result (survives self.new) }
        ensures crash { tells → Leads time self.old self.new Same }
        ensures stays { OnlyFaults tells (view self.old) (view self.new) }
        ensures cause { HasCause (view self.old).faults (view self.new).faults result };

    /// Puts bytes behind the log. A crash leaves none of them before the next commit. It is `LogFull` exactly where the log would
    /// have more than 268,435,456 bytes, and then nothing changes.
    fn log_put(&mut self, piece: &[u8]) -> Result<(), PutFault>
        requires sound { sound self.old }
        ensures full { result ≡ Err PutFault.LogFull ↔ 268435456 < (view self.old).log_size + length piece.now }
        ensures full_same { result ≡ Err PutFault.LogFull → self.new ≡ self.old }
        ensures only { OnOk result (OnlyLog tells (log_with piece.now (view self.old).state) ((view self.old).log_size + length piece.now) (view self.old) (view self.new)) }
        ensures sound { OnOk result (sound self.new) }
        ensures survives { tells → survives self.old → OnOk result (survives self.new) }
        ensures crash { tells → survives self.old → Leads time self.old self.new Same }
        ensures stays { OnlyFaults tells (view self.old) (view self.new) }
        ensures cause { HasCauseAt PutFault.Failed (view self.old).faults (view self.new).faults result };

    /// Settles the log: from then on a crash leaves all that was put.
    fn log_commit(&mut self) -> Result<(), Failed>
        requires sound { sound self.old }
        ensures only { OnOk result (OnlyLog tells (log_kept (view self.old).state) (view self.old).log_size (view self.old) (view self.new)) }
        ensures sound { OnOk result (sound self.new) }
        ensures survives { tells → survives self.old → OnOk result (survives self.new) }
        ensures crash { tells → survives self.old → Leads time self.old self.new (OldOr (view self.old).state.log) }
        ensures stays { OnlyFaults tells (view self.old) (view self.new) }
        ensures cause { HasCause (view self.old).faults (view self.new).faults result };

    /// Makes these bytes the whole log, settled. It is `LogFull` exactly where there are more than 268,435,456, and then nothing
    /// changes.
    fn log_replace(&mut self, bytes: &[u8]) -> Result<(), PutFault>
        requires sound { sound self.old }
        ensures full { result ≡ Err PutFault.LogFull ↔ 268435456 < length bytes.now }
        ensures full_same { result ≡ Err PutFault.LogFull → self.new ≡ self.old }
        ensures only { OnOk result (OnlyLog tells (comes (replaces bytes.now) (view self.old).state) (length bytes.now) (view self.old) (view self.new)) }
        ensures sound { OnOk result (sound self.new) }
        ensures survives { tells → survives self.old → OnOk result (survives self.new) }
        ensures crash { tells → survives self.old → Leads time self.old self.new (OldOr bytes.now) }
        ensures stays { OnlyFaults tells (view self.old) (view self.new) }
        ensures cause { HasCauseAt PutFault.Failed (view self.old).faults (view self.new).faults result };

    /// Takes a front of a piece for the output, and says how many bytes of it. It takes none only where the piece is empty.
    fn tell(&mut self, piece: &[u8]) -> Result<usize, Failed>
        requires sound { sound self.old }
        ensures front { IfOk result (λ n. n ≤ length piece.now) }
        ensures some { IfOk result (λ n. n ≡ 0 → length piece.now ≡ 0) }
        ensures only { IfOk result (λ n. OnlyOutput tells (take n piece.now) (view self.old) (view self.new)) }
        ensures part { tells → OnErr result (ToldPart piece.now (view self.old).state.told (view self.new).state.told) }
        ensures sound { OnOk result (sound self.new) }
        ensures survives { tells → survives self.old → OnOk result (survives self.new) }
        ensures crash { tells → Leads time self.old self.new (TellsTo ((view self.old).state.told ++ in_progress result piece.now)) }
        ensures stays { OnlyTellFaults (view self.old) (view self.new) }
        ensures cause { HasCause (view self.old).tell_faults (view self.new).tell_faults result };

    /// There are at most 65,535 slots.
    ghost few_slots: { (s : Self) → sound s → (view s).slots ≤ 65535 };

    /// No slot past the last one is here.
    ghost here_below: { (s : Self) (k : ℕ) → sound s → IsTrue ((view s).present k) → k < (view s).slots };

    /// The loaded tape is one that is here.
    ghost loaded_here: { (s : Self) (k : ℕ) → sound s → (view s).loaded ≡ Some k → IsTrue ((view s).present k) };

    /// The numbers of records and of bytes are those of what reads give.
    ghost records_told: { (s : Self) (k : ℕ) → tells → sound s → (view s).loaded ≡ Some k → (view s).records ≡ length ((view s).state.tape k) };

    ghost log_told: { (s : Self) → tells → sound s → (view s).log_size ≡ length (view s).state.log };

    /// No log has more bytes than its form allows: 2^38, more than can be put.
    ghost log_small: { (s : Self) → sound s → (view s).log_size ≤ 2 ^ 38 };

    /// No tape has more records than a number of four bytes counts.
    ghost short_tapes: { (s : Self) (k : ℕ) → tells → sound s → length ((view s).state.tape k) ≤ 4294967295 };

    /// No more is settled than there is.
    ghost within: { (s : Self) → tells → sound s → IsWithin (view s).state };

    /// A tape that isn't loaded is settled whole.
    ghost others_settled: { (s : Self) (k : ℕ) → tells → sound s → (view s).loaded ≢ Some k → (view s).state.settled k ≡ length ((view s).state.tape k) };

    /// An image is what the crash model leaves of the state.
    ghost left: { (s : Self) (c : Stock) → tells → sound s → survives s → time.may_leave s c → LeftIn (view s).state c };

    /// What was told of an image is a front of what was told, whatever waited for a sync.
    ghost told_left: { (s : Self) (c : Stock) → tells → time.may_leave s c → IsFront c.told (view s).state.told };

    /// What reads give is one of the images, but for what was put since on the log and on the tapes.
    ghost settled_may_be_left: { (s : Self) → tells → sound s → survives s → time.may_leave s (settled_part (view s).state) };
}
