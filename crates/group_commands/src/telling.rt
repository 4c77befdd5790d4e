//! What is told of the dumps of the last group.

ghost use Rattle.std.specs.Prelude.{◌≡◌, ◌<◌, ◌≤◌, ◌++◌, [], ◌∷◌, ℕ, Some, IfOk, OnOk, length, slice_get};
ghost use Rattle.group_commands.specs.declared.began.Began.TheVariants.{Runs};
ghost use Rattle.group_commands.specs.Lines.{state_of, told_job, told_held, told_jobs, state_word, told_line, jobs_lines, AreOfPool};

use crate::began::Began;
use crate::told::{JobState, ToldJob};
use backup_replies::{put_job, put_ok};
use bk_text::{Bytes, List, Out};
use dump_job::Job;
use job_pool::{JobEnd, Pool};
use std::alloc::{AllocError, Global};

/// How a dump ended, in short.
fn state_of(end: &JobEnd) -> JobState
    ensures { result ≡ state_of end.now }
{
    match end {
        JobEnd::Done(_) => JobState::Done,
        JobEnd::Refused(_) => JobState::Refused,
        JobEnd::Killed(_) => JobState::Killed,
    }
}

/// What is told of a dump that has ended, which was held under this number.
fn told_of(number: u32, job: &Job, end: &JobEnd) -> Result<ToldJob, AllocError>
    ensures { IfOk result (λ told. told ≡ record { number = number; id = job.now.head.id; set = job.now.head.set; level = job.now.head.level; state = state_of end.now }) }
{
    let head = job.head();
    let set = head.set.clone()?;
    let level = head.level.clone()?;
    Ok(ToldJob {
        number,
        id: head.id,
        set,
        level,
        state: state_of(end),
    })
}

/// Puts the dump of a number in the pool at the end, where it has ended.
fn tell_job(
    told: &mut List<ToldJob>,
    number: u32,
    pool: &Pool,
    place: u32,
) -> Result<(), AllocError>
    requires { place < length pool.now.jobs }
    ensures { OnOk result (told.new ≡ told.old ++ told_job number (slice_get pool.now.jobs place) []) }
{
    let job = pool.job_of(place);
    match pool.end_of(place) {
        None => Ok(()),
        Some(end) => {
            let one = told_of(number, job, end)?;
            told.push(one)
        }
    }
}

/// Puts a held dump at the end, where it was begun and has ended.
fn tell_held(
    told: &mut List<ToldJob>,
    number: u32,
    began: &Began,
    pool: &Pool,
) -> Result<(), AllocError>
    requires { (n : ℕ) → began.now ≡ Runs n → n < length pool.now.jobs }
    ensures { OnOk result (told.new ≡ told.old ++ told_held number began.now pool.now.jobs []) }
{
    match began {
        Began::Refused(_) => Ok(()),
        Began::Runs(place) => tell_job(told, number, pool, *place),
    }
}

/// The dumps of a pool that have ended, by the numbers under which they were held.
pub(crate) fn told_jobs(
    alloc: Global,
    began: &[Began],
    pool: &Pool,
) -> Result<List<ToldJob>, AllocError>
    requires few { length began.now ≤ 16 }
    requires within { AreOfPool began.now pool.now.jobs }
    ensures { IfOk result (λ told. told ≡ told_jobs 1 began.now pool.now.jobs) }
{
    let mut told = List::new(alloc);
    for i in 0..began.len() {
        tell_held(&mut told, i as u32 + 1, &began[i], pool)?;
    }
    Ok(told)
}

/// The word of a state.
fn state_word(state: JobState) -> &'static [u8]
    ensures { result.now ≡ state_word state }
{
    match state {
        JobState::Done => b"done",
        JobState::Refused => b"refused",
        JobState::Killed => b"killed",
    }
}

/// The line of a dump of the last group.
fn put_told(line: &mut Out, job: &ToldJob) -> Result<(), AllocError>
    ensures { OnOk result (line.new ≡ line.old ++ told_line job.now) }
{
    put_job(
        line,
        job.number as u64,
        job.id,
        &job.set,
        &job.level,
        state_word(job.state),
    )
}

/// What `jobs` tells of the dumps of the last group.
pub fn jobs_text(alloc: Global, jobs: &[ToldJob]) -> Result<Bytes, AllocError>
    ensures { IfOk result (λ text. text ≡ jobs_lines jobs.now) }
{
    let mut lines = Out::new(alloc);
    for job in jobs {
        put_told(&mut lines, job)?;
    }
    put_ok(&mut lines)?;
    Ok(lines.into_bytes())
}
