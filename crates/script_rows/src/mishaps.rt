//! A row's script with a mishap in each call in turn, or in calls at random.

use crate::trials::{Mishap, Trial, Wanted, try_call};
use crate::world::World;
use media_core::Pick;
use std::alloc::Global;

/// More calls than a row's script makes.
const MOST_CALLS: u64 = 100_000;

/// What a crash makes of what waits for a sync.
const PICKS: [Pick; 5] = [
    Pick::Old,
    Pick::New,
    Pick::Torn(0),
    Pick::Torn(1),
    Pick::Torn(255),
];

/// How many runs were made, how many of them were stopped or failed on the way, and how many kept what is promised; and how many dumps were listed behind all of them, and how many
/// of these were listed again once the journal was lost.
#[derive(Clone, Copy)]
pub struct Counts {
    pub runs: u64,
    pub stopped: u64,
    pub kept: u64,
    pub listed: u64,
    pub again: u64,
}

impl Counts {
    fn new() -> Counts {
        Counts {
            runs: 0,
            stopped: 0,
            kept: 0,
            listed: 0,
            again: 0,
        }
    }

    fn add(&mut self, trial: Trial) {
        self.runs = self.runs.saturating_add(1);
        if !trial.is_whole {
            self.stopped = self.stopped.saturating_add(1);
        }
        if trial.is_kept {
            self.kept = self.kept.saturating_add(1);
        }
        self.listed = self.listed.saturating_add(trial.listed);
        self.again = self.again.saturating_add(trial.again);
    }
}

/// Tries each pick at a call of the media, and the first one at any other. The answer is whether the script was run to its end.
fn try_picks(
    alloc: Global,
    world: &World,
    wanted: &Wanted,
    mishap: Mishap,
    call: u64,
    counts: &mut Counts,
) -> anyhow::Result<bool> {
    let mut is_whole = true;
    let count = if mishap.is_of_media() { PICKS.len() } else { 1 };
    for pick in PICKS.iter().take(count) {
        let trial = try_call(alloc, world, wanted, mishap, call, *pick)?;
        counts.add(trial);
        is_whole = is_whole && trial.is_whole;
    }
    Ok(is_whole)
}

/// Tries each call, and the whole script last.
pub fn try_calls(alloc: Global, world: &World, mishap: Mishap) -> anyhow::Result<Counts> {
    let wanted = Wanted::new(alloc, world)?;
    let mut counts = Counts::new();
    for call in 0..MOST_CALLS {
        if try_picks(alloc, world, &wanted, mishap, call, &mut counts)? {
            break;
        }
    }
    Ok(counts)
}

/// The number at random behind another one.
fn next_random(state: u64) -> u64 {
    state
        .wrapping_mul(6364136223846793005)
        .wrapping_add(1442695040888963407)
}

/// What a number at random makes of what waits for a sync.
fn pick_of(state: u64) -> Pick {
    let bits = ((state >> 40) % 256) as u8;
    match bits % 4 {
        0 => Pick::Old,
        1 => Pick::New,
        _ => Pick::Torn(bits),
    }
}

/// Whether the script makes just so many calls of the media: it is stopped in the last of them, and in none behind it.
pub fn makes_calls(alloc: Global, world: &World, count: u32) -> anyhow::Result<bool> {
    let wanted = Wanted::new(alloc, world)?;
    let count = u64::from(count);
    let mishap = Mishap::MediaStops;
    let last = try_call(
        alloc,
        world,
        &wanted,
        mishap,
        count.saturating_sub(1),
        Pick::Old,
    )?;
    let behind = try_call(alloc, world, &wanted, mishap, count, Pick::Old)?;
    Ok(!last.is_whole && behind.is_whole)
}

/// Stops the script in so many calls at random, each below a bound. It isn't run to its end.
pub fn try_random(
    alloc: Global,
    world: &World,
    seed: u64,
    count: u32,
    bound: u32,
) -> anyhow::Result<Counts> {
    let wanted = Wanted::new(alloc, world)?;
    let mut counts = Counts::new();
    if bound == 0 {
        return Ok(counts);
    }
    let mut state = seed;
    for _ in 0..count {
        state = next_random(state);
        let call = (state >> 33) % u64::from(bound);
        state = next_random(state);
        let mishap = Mishap::MediaStops;
        let trial = try_call(alloc, world, &wanted, mishap, call, pick_of(state))?;
        counts.add(trial);
    }
    Ok(counts)
}
