//! What is told at the end of a group.

ghost use Rattle.std.specs.Prelude.{◌≡◌, ◌<◌, ◌++◌, ℕ, Some, IfOk, OnOk, length, slice_get};
ghost use Rattle.dump_job.specs.Ending.{done_record};
ghost use Rattle.dump_commands.specs.Refusals.{fault_line};
ghost use Rattle.backup_replies.specs.Texts.{ok_line};
ghost use Rattle.group_commands.specs.declared.began.Began.TheVariants.{Runs};
ghost use Rattle.group_commands.specs.Lines.{record_line, end_text, job_text, held_text, held_texts, AreOfPool};

use crate::began::Began;
use backup_replies::{put_killed, put_made, put_ok};
use backup_words::DumpCommand;
use bk_text::{Bytes, Out};
use dump_commands::fault_line;
use dump_job::{Job, JobFault};
use job_pool::{JobEnd, Pool};
use std::alloc::{AllocError, Global};

/// The line of a dump that is done, by what it has recorded. No memory holds so many volumes or tapes that 64 bits don't hold their number.
fn put_record(line: &mut Out, job: &Job) -> Result<(), AllocError>
    ensures { OnOk result (line.new ≡ line.old ++ record_line (done_record job.now)) }
{
    let head = job.head();
    match (job.volume_count(), job.tape_count()) {
        (Some(volumes), Some(tapes)) => put_made(
            line,
            head.id,
            &head.set,
            &head.level,
            head.parent,
            volumes,
            tapes,
        ),
        _ => Err(AllocError),
    }
}

/// The line of a dump that was refused behind its begin.
fn put_fault(
    line: &mut Out,
    alloc: Global,
    command: &DumpCommand,
    fault: &JobFault,
) -> Result<(), AllocError>
    ensures { OnOk result (line.new ≡ line.old ++ fault_line command.now.set command.now.offset fault.now) }
{
    let text = fault_line(alloc, &command.set, command.offset, fault)?;
    line.piece(text.as_slice())
}

/// How a held dump of this number ended.
fn put_end(
    line: &mut Out,
    alloc: Global,
    number: u64,
    command: &DumpCommand,
    job: &Job,
    end: &JobEnd,
) -> Result<(), AllocError>
    ensures { OnOk result (line.new ≡ line.old ++ end_text number command.now job.now (Some end.now)) }
{
    match end {
        JobEnd::Done(_) => put_record(line, job),
        JobEnd::Refused(fault) => put_fault(line, alloc, command, fault),
        JobEnd::Killed(id) => put_killed(line, number, *id),
    }
}

/// How the held dump of this number ended, which has a number in the pool; nothing of one that runs.
fn put_job(
    line: &mut Out,
    alloc: Global,
    number: u64,
    command: &DumpCommand,
    pool: &Pool,
    place: u32,
) -> Result<(), AllocError>
    requires { place < length pool.now.jobs }
    ensures { OnOk result (line.new ≡ line.old ++ job_text number command.now (slice_get pool.now.jobs place)) }
{
    let job = pool.job_of(place);
    match pool.end_of(place) {
        None => Ok(()),
        Some(end) => put_end(line, alloc, number, command, job, end),
    }
}

/// What is told of a held dump of this number.
fn put_held(
    line: &mut Out,
    alloc: Global,
    number: u64,
    command: &DumpCommand,
    began: &Began,
    pool: &Pool,
) -> Result<(), AllocError>
    requires { (n : ℕ) → began.now ≡ Runs n → n < length pool.now.jobs }
    ensures { OnOk result (line.new ≡ line.old ++ held_text number command.now began.now pool.now.jobs) }
{
    match began {
        Began::Refused(text) => line.piece(text.as_slice()),
        Began::Runs(place) => put_job(line, alloc, number, command, pool, *place),
    }
}

/// What is told of held dumps, in order, and that the group is done.
pub(crate) fn held_texts(
    alloc: Global,
    held: &[DumpCommand],
    began: &[Began],
    pool: &Pool,
) -> Result<Bytes, AllocError>
    requires each { length began.now ≡ length held.now }
    requires within { AreOfPool began.now pool.now.jobs }
    ensures { IfOk result (λ text. text ≡ held_texts 1 held.now began.now pool.now.jobs ++ ok_line) }
{
    let mut lines = Out::new(alloc);
    for i in 0..held.len() {
        put_held(&mut lines, alloc, i as u64 + 1, &held[i], &began[i], pool)?;
    }
    put_ok(&mut lines)?;
    Ok(lines.into_bytes())
}
