//! The kills of a group, by the numbers that its dumps have in the pool.

ghost use Rattle.std.specs.Prelude.{◌≡◌, ◌++◌, [], Some, IfOk, OnOk, slice_get};
ghost use Rattle.group_commands.specs.Begins.{number_of, with_kill, kills_of};

use crate::began::Began;
use bk_text::List;
use job_pool::Kill;
use std::alloc::{AllocError, Global};

/// The number of a dump in the pool, where it was begun.
fn number_in(began: &Began) -> Option<u32>
    ensures { result ≡ number_of (Some began.now) }
{
    match began {
        Began::Refused(_) => None,
        Began::Runs(number) => Some(*number),
    }
}

/// The number in the pool of the held dump at a place, where it was begun.
fn number_of(began: &[Began], place: u32) -> Option<u32>
    ensures { result ≡ number_of (slice_get began.now place) }
{
    match began.get(place as usize) {
        None => None,
        Some(one) => number_in(one),
    }
}

/// Puts the kill of a held dump at the end, where that was begun.
fn add_kill(kills: &mut List<Kill>, began: &[Began], kill: &Kill) -> Result<(), AllocError>
    ensures { OnOk result (kills.new ≡ kills.old ++ with_kill (number_of (slice_get began.now kill.now.job)) kill.now.after []) }
{
    match number_of(began, kill.job) {
        None => Ok(()),
        Some(job) => kills.push(Kill {
            job,
            after: kill.after,
        }),
    }
}

/// The kills of the held dumps that were begun, by their numbers in the pool.
pub(crate) fn kills_of(
    alloc: Global,
    began: &[Began],
    kills: &[Kill],
) -> Result<List<Kill>, AllocError>
    ensures { IfOk result (λ of_pool. of_pool ≡ kills_of began.now kills.now) }
{
    let mut of_pool = List::new(alloc);
    for kill in kills {
        add_kill(&mut of_pool, began, kill)?;
    }
    Ok(of_pool)
}
