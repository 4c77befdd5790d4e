//! Whose turn is next, by a schedule.

ghost use Rattle.std.specs.Prelude.{◌≡◌, ◌≤◌, ◌==◌, ◌&&◌, length, slice_get};
ghost use Rattle.std.specs.List.{list_any};
ghost use Rattle.job_pool.specs.Schedules.{next_number as number_behind, running_from, picked, turn_for as turn_of_job, turn_at};

use crate::jobs::PoolJob;
use crate::turn::{Kill, Turn};

/// The number behind this one, by which the next turn is told.
pub(crate) fn next_number(x: u32) -> u32
    ensures { result ≡ number_behind x }
{
    ((u64::from(x) * 1_103_515_245 + 12_345) % 2_147_483_648) as u32
}

/// How many of these dumps run.
fn count_running(jobs: &[PoolJob]) -> usize
    ensures { result ≡ length (running_from 0 jobs.now) }
{
    let mut count = 0;
    for i in 0..jobs.len() {
        if jobs[i].end.is_none() {
            count += 1;
        }
    }
    count
}

/// The number of the dump at a place among those that run.
fn running_at(jobs: &[PoolJob], place: usize) -> Option<usize>
    ensures { result ≡ slice_get (running_from 0 jobs.now) place }
{
    let mut left = place;
    for i in 0..jobs.len() {
        if jobs[i].end.is_none() {
            if left == 0 {
                return Some(i);
            }
            left -= 1;
        }
    }
    None
}

/// The number of the dump that a number picks among those that run.
fn pick(jobs: &[PoolJob], x: u32) -> Option<usize>
    ensures { result ≡ picked x (running_from 0 jobs.now) }
{
    let count = count_running(jobs);
    if count == 0 {
        return None;
    }
    running_at(jobs, (x / 65_536) as usize % count)
}

/// Whether a kill names a dump of this number behind so many steps.
fn is_killed(kills: &[Kill], number: u32, steps: u64) -> bool
    ensures { result ≡ list_any (λ k. (k.job == number) && (k.after == steps)) kills.now }
{
    kills
        .iter()
        .any(|k| k.job == number && u64::from(k.after) == steps)
}

/// The turn of a dump that runs.
fn turn_for(job: &PoolJob, kills: &[Kill], number: u32) -> Turn
    ensures { result ≡ turn_of_job kills.now number job.now }
{
    if is_killed(kills, number, job.steps) {
        Turn::Kill(number)
    } else {
        Turn::Step(number)
    }
}

/// The turn that a number tells: none where no dump runs.
pub(crate) fn turn_told(jobs: &[PoolJob], kills: &[Kill], x: u32) -> Option<Turn>
    requires few { length jobs.now ≤ 4294967295 }
    ensures { result ≡ turn_at kills.now jobs.now (picked x (running_from 0 jobs.now)) }
{
    match pick(jobs, x) {
        Some(number) => Some(turn_for(&jobs[number], kills, number as u32)),
        None => None,
    }
}
