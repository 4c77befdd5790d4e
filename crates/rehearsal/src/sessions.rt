//! The sessions of a rehearsal, as batches of commands.

ghost use Rattle.std.specs.Prelude.{◌≡◌, ◌≤◌, ◌++◌, OnOk, IfOk};
ghost use Rattle.rehearsal.specs.Commands.{round as batches_of, first_session, second_session, third_session};

use crate::batch::Batch;
use crate::commands::{add_host, changing, dumping, making, scanning};
use bk_text::List;
use std::alloc::{AllocError, Global};

/// Changes volumes and dumps them at a level.
fn put_round(
    alloc: Global,
    batches: &mut List<Batch>,
    volumes: u32,
    round: u32,
    level: &[u8],
) -> Result<(), AllocError>
    requires few { volumes ≤ 200 }
    requires round { round ≤ 3 }
    ensures { OnOk result (batches.new ≡ batches.old ++ batches_of volumes round level.now) }
{
    let moment = u64::from(100 * round);
    batches.push(Batch {
        now: 1_000_050 + moment,
        commands: changing(alloc, volumes, round)?,
    })?;
    batches.push(Batch {
        now: 1_000_100 + moment,
        commands: dumping(alloc, level)?,
    })?;
    Ok(())
}

/// Volumes are made, dumped, changed and dumped.
pub fn first_session(alloc: Global, volumes: u32) -> Result<List<Batch>, AllocError>
    requires { volumes ≤ 200 }
    ensures { IfOk result (λ batches. batches ≡ first_session volumes) }
{
    let mut batches = List::new(alloc);
    batches.push(Batch {
        now: 1_000_000,
        commands: making(alloc, volumes)?,
    })?;
    batches.push(Batch {
        now: 1_000_100,
        commands: dumping(alloc, b"/full")?,
    })?;
    put_round(alloc, &mut batches, volumes, 1, b"/full/r1")?;
    put_round(alloc, &mut batches, volumes, 2, b"/full/r1/r2")?;
    put_round(alloc, &mut batches, volumes, 3, b"/full/r1/r2/r3")?;
    Ok(batches)
}

/// The tapes are scanned into an empty journal, and each volume is restored.
pub fn second_session(alloc: Global, volumes: u32) -> Result<List<Batch>, AllocError>
    requires { volumes ≤ 200 }
    ensures { IfOk result (λ batches. batches ≡ second_session volumes) }
{
    let mut commands = List::new(alloc);
    commands.push(add_host(alloc)?)?;
    scanning(alloc, &mut commands, volumes)?;
    let mut batches = List::new(alloc);
    batches.push(Batch {
        now: 1_000_500,
        commands,
    })?;
    Ok(batches)
}

/// The tapes are scanned again, and each volume is restored.
pub fn third_session(alloc: Global, volumes: u32) -> Result<List<Batch>, AllocError>
    requires { volumes ≤ 200 }
    ensures { IfOk result (λ batches. batches ≡ third_session volumes) }
{
    let mut commands = List::new(alloc);
    scanning(alloc, &mut commands, volumes)?;
    let mut batches = List::new(alloc);
    batches.push(Batch {
        now: 1_000_600,
        commands,
    })?;
    Ok(batches)
}
