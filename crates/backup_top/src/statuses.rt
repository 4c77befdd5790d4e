//! The status of each answer of what a run calls.

ghost use Rattle.std.specs.Prelude.{◌≡◌};
ghost use Rattle.backup_top.specs.Answers.{whole_status, stop_status, run_status, opening_status, config_status};

use crate::status::Status;
use backup_script::RunStop;
use plant_media::OpenFault;
use tape_config::ConfigFault;

fn of_whole(refused: bool) -> Status
    ensures { result ≡ whole_status refused }
{
    if refused {
        Status::SomeRefused
    } else {
        Status::Done
    }
}

fn of_stop(stop: RunStop) -> Status
    ensures { result ≡ stop_status stop }
{
    match stop {
        RunStop::Read => Status::ReadFault,
        RunStop::Plant => Status::MediaFault,
        RunStop::Cell => Status::CellFault,
        RunStop::Output => Status::OutputFault,
        RunStop::TooLong => Status::ScriptTooLong,
        RunStop::BadLog { at } => Status::BadLog { at },
        RunStop::Memory => Status::Memory,
    }
}

/// The status of a run over a plant and a cell.
pub fn of_run(answer: Result<bool, RunStop>) -> Status
    ensures { result ≡ run_status answer }
{
    match answer {
        Ok(refused) => of_whole(refused),
        Err(stop) => of_stop(stop),
    }
}

/// The status of media that no plant was opened on.
pub fn of_opening(fault: OpenFault) -> Status
    ensures { result ≡ opening_status fault }
{
    match fault {
        OpenFault::Failed => Status::MediaFault,
        OpenFault::BadLog { at } => Status::BadLog { at },
    }
}

/// The status of a configuration that is refused.
pub fn of_config(fault: ConfigFault) -> Status
    ensures { result ≡ config_status fault }
{
    match fault {
        ConfigFault::BadLine { line } => Status::BadConfig { line },
        ConfigFault::PortTwice { line } => Status::BadConfig { line },
        ConfigFault::SlotTwice { line } => Status::BadConfig { line },
        ConfigFault::Memory => Status::Memory,
    }
}
