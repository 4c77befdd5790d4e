// A log is opened.
ghost use Rattle.std.specs.Prelude.{◌≡◌, ◌+◌, ◌^◌, ◌<◌, ◌≤◌, ◌↔◌, List, ℕ, length, drop, OnOk, IfOk, IsTrue, false, slice_index};
ghost use Rattle.std.specs.Int.{w64, from_be_bytes};
ghost use Rattle.crash_moments.specs.Moments.{Leads, HasCause};
ghost use Rattle.media_core.specs.Media.{Image, Same};
ghost use Rattle.crash_log.specs.Log.{place_of};
ghost use Rattle.crash_log.specs.State.{IsBounded, empty_state};
ghost use Rattle.crash_log.specs.Fit.{as_read};
ghost use Rattle.crash_log.specs.Opened.{IsSlot, IsOpened, opened_state, stale_where};

use crate::state::{LogState, MOST_SIZE, MOST_START, Needs, OPEN, SLOT, SLOTS, following};
use byteorder::{BigEndian, ByteOrder};
use media_core::{Failed, Media};

/// What a slot says: whether its gate is 1, and its fields.
#[derive(Clone, Copy, Debug)]
pub struct Slot {
    pub open: bool,
    pub turn: u8,
    pub start: u64,
    pub size: u64,
}

/// A number of eight bytes, the highest first.
#[tactic(auto, using(crate::proofs::Numbers::big_eight))]
fn number(bytes: &[u8]) -> u64
    requires { length bytes.now ≡ 8 }
    ensures { result ≡ from_be_bytes w64 bytes.now }
{
    BigEndian::read_u64(bytes)
}

/// A slot of its bytes.
fn parse(bytes: &[u8]) -> Slot
    requires { length bytes.now ≡ 24 }
    ensures gate { IsTrue result.open ↔ (slice_index bytes.now 0 ≡ 1) }
    ensures place { place_of (drop 1 bytes.now) ≡ record { turn = result.turn; start = result.start; size = result.size } }
{
    Slot {
        open: bytes[0] == OPEN,
        turn: bytes[1],
        start: number(&bytes[8..16]),
        size: number(&bytes[16..24]),
    }
}

impl Slot {
    ghost use Rattle.crash_log.specs.Opened.{slot_good, at_slot};

    /// Whether the slot is good in a file of this length.
    fn is_good(&self, long: u64) -> bool
        ensures { result ≡ slot_good self.now long }
    {
        self.open
            && self.turn <= 2
            && SLOTS <= self.start
            && self.start <= MOST_START
            && self.size <= MOST_SIZE
            && self.start <= long
            && self.size <= long - self.start
    }

    /// The state of a log whose current slot is this one, where it is the first and the other one is closed.
    fn state(&self, f: u32, limit: u64) -> LogState
        ensures { result ≡ at_slot self.now false false Needs.Nothing f limit }
    {
        LogState {
            file: f,
            limit,
            needs: Needs::Nothing,
            second: false,
            turn: self.turn,
            start: self.start,
            size: self.size,
            more: 0,
            other_open: false,
        }
    }
}

/// The state of an empty log, before its file is formatted.
fn empty(f: u32, limit: u64, needs: Needs) -> LogState
    ensures { result ≡ empty_state f limit needs }
{
    LogState {
        file: f,
        limit,
        needs,
        second: false,
        turn: 0,
        start: SLOTS,
        size: 0,
        more: 0,
        other_open: false,
    }
}

/// What has to be done first where the other slot isn't good: its gate is stale where it is 1.
fn stale(is_open: bool) -> Needs
    ensures { result ≡ stale_where is_open }
{
    if is_open {
        Needs::Stale
    } else {
        Needs::Nothing
    }
}

/// The state of a log of its two slots. Of two good ones the current one is that whose turn follows the other's; with equal
/// turns it is the first.
fn choose(first: &Slot, second: &Slot, f: u32, limit: u64, long: u64) -> LogState
    requires { limit ≤ 2 ^ 36 }
    ensures state { result ≡ opened_state first.now second.now f limit long }
    ensures bounded { IsBounded result }
    ensures fresh { result.more ≡ 0 }
{
    let first_good = first.is_good(long);
    let second_good = second.is_good(long);
    if first_good && second_good {
        if second.turn == following(first.turn) {
            return LogState {
                second: true,
                other_open: true,
                ..second.state(f, limit)
            };
        }
        return LogState {
            other_open: true,
            ..first.state(f, limit)
        };
    }
    if first_good {
        return LogState {
            needs: stale(second.open),
            ..first.state(f, limit)
        };
    }
    if second_good {
        return LogState {
            second: true,
            needs: stale(first.open),
            ..second.state(f, limit)
        };
    }
    let needs = Needs::Damaged {
        first_open: first.open,
        second_open: second.open,
    };
    empty(f, limit, needs)
}

/// A slot of a file.
fn read_slot<M: Media>(media: &mut M, f: u32, base: u64) -> Result<Slot, Failed>
    requires here { IsTrue (M.present media.old f) }
    requires within { M.tells → base + 24 ≤ length ((M.seen media.old).file f) }
    ensures slot { M.tells → IfOk result (λ s. IsSlot base ((M.seen media.old).file f) s) }
    ensures seen { M.tells → M.seen media.new ≡ M.seen media.old }
    ensures crash { M.tells → Leads M.time media.old media.new Same }
    ensures count { M.count media.new ≡ M.count media.old }
    ensures present { M.present media.new ≡ M.present media.old }
    ensures cause { HasCause (M.faults media.old) (M.faults media.new) result }
    ensures tell_faults { M.tell_faults media.new ≡ M.tell_faults media.old }
{
    let mut bytes = [0; 24];
    media.read(f, base, &mut bytes)?;
    Ok(parse(&bytes))
}

/// Both slots of a file.
fn read_slots<M: Media>(media: &mut M, f: u32) -> Result<(Slot, Slot), Failed>
    requires here { IsTrue (M.present media.old f) }
    requires within { M.tells → SLOTS ≤ length ((M.seen media.old).file f) }
    ensures first { M.tells → IfOk result (λ both. IsSlot 0 ((M.seen media.old).file f) both.0) }
    ensures second { M.tells → IfOk result (λ both. IsSlot SLOT ((M.seen media.old).file f) both.1) }
    ensures seen { M.tells → M.seen media.new ≡ M.seen media.old }
    ensures crash { M.tells → Leads M.time media.old media.new Same }
    ensures count { M.count media.new ≡ M.count media.old }
    ensures present { M.present media.new ≡ M.present media.old }
    ensures cause { HasCause (M.faults media.old) (M.faults media.new) result }
    ensures tell_faults { M.tell_faults media.new ≡ M.tell_faults media.old }
{
    let first = read_slot(media, f, 0)?;
    let second = read_slot(media, f, SLOT)?;
    Ok((first, second))
}

/// The state of the log that a file of this length has.
fn state_of_slots<M: Media>(
    media: &mut M,
    f: u32,
    limit: u64,
    long: u64,
) -> Result<LogState, Failed>
    requires here { IsTrue (M.present media.old f) }
    requires limit { limit ≤ 2 ^ 36 }
    requires long { M.tells → long ≡ length ((M.seen media.old).file f) }
    requires slots { SLOTS ≤ long }
    ensures opened { M.tells → IfOk result (λ s. IsOpened (as_read M.seen) M.seen f media.new s) }
    ensures bounded { IfOk result IsBounded }
    ensures fresh { IfOk result (λ s. s.more ≡ 0) }
    ensures file { IfOk result (λ s. s.file ≡ f) }
    ensures limit { IfOk result (λ s. s.limit ≡ limit) }
    ensures seen { M.tells → M.seen media.new ≡ M.seen media.old }
    ensures crash { M.tells → Leads M.time media.old media.new Same }
    ensures count { M.count media.new ≡ M.count media.old }
    ensures present { M.present media.new ≡ M.present media.old }
    ensures cause { HasCause (M.faults media.old) (M.faults media.new) result }
    ensures tell_faults { M.tell_faults media.new ≡ M.tell_faults media.old }
{
    let (first, second) = read_slots(media, f)?;
    Ok(choose(&first, &second, f, limit, long))
}

/// The state of the log that a file has.
pub fn read_state<M: Media>(media: &mut M, f: u32, limit: u64) -> Result<LogState, Failed>
    requires here { IsTrue (M.present media.old f) }
    requires limit { limit ≤ 2 ^ 36 }
    ensures opened { M.tells → IfOk result (λ s. IsOpened (as_read M.seen) M.seen f media.new s) }
    ensures bounded { IfOk result IsBounded }
    ensures fresh { IfOk result (λ s. s.more ≡ 0) }
    ensures file { IfOk result (λ s. s.file ≡ f) }
    ensures limit { IfOk result (λ s. s.limit ≡ limit) }
    ensures seen { M.tells → M.seen media.new ≡ M.seen media.old }
    ensures crash { M.tells → Leads M.time media.old media.new Same }
    ensures count { M.count media.new ≡ M.count media.old }
    ensures present { M.present media.new ≡ M.present media.old }
    ensures cause { HasCause (M.faults media.old) (M.faults media.new) result }
    ensures tell_faults { M.tell_faults media.new ≡ M.tell_faults media.old }
{
    let long = media.len(f)?;
    if long < SLOTS {
        return Ok(empty(f, limit, Needs::Blank));
    }
    let state = state_of_slots(media, f, limit, long)?;
    Ok(state)
}
