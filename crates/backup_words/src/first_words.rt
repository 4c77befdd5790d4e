//! The first words of the lines that say commands.

ghost use Rattle.std.specs.Prelude.{◌≡◌};
ghost use Rattle.backup_words.specs.FirstWords.{database_word, tape_word, group_word, restore_word, command_word};

use crate::command::{Command, DatabaseCommand, GroupCommand, RestoredVolumes, TapeCommand};

/// The word of a command on the database.
fn database_word(command: &DatabaseCommand) -> &'static [u8]
    ensures { result.now ≡ database_word command.now }
{
    match command {
        DatabaseCommand::Addvolset { .. } => b"addvolset",
        DatabaseCommand::Delvolset { .. } => b"delvolset",
        DatabaseCommand::Addvolentry { .. } => b"addvolentry",
        DatabaseCommand::Delvolentry { .. } => b"delvolentry",
        DatabaseCommand::Listvolsets { .. } => b"listvolsets",
        DatabaseCommand::Adddump { .. } => b"adddump",
        DatabaseCommand::Setexp { .. } => b"setexp",
        DatabaseCommand::Deldump { .. } => b"deldump",
        DatabaseCommand::Listdumps => b"listdumps",
        DatabaseCommand::Listhosts => b"listhosts",
        DatabaseCommand::Checkpoint => b"checkpoint",
        DatabaseCommand::Addhost { .. } => b"addhost",
        DatabaseCommand::Delhost { .. } => b"delhost",
        DatabaseCommand::Deletedump { .. } => b"deletedump",
        DatabaseCommand::Dumpinfo { .. } => b"dumpinfo",
        DatabaseCommand::Volinfo { .. } => b"volinfo",
        DatabaseCommand::Dbverify => b"dbverify",
    }
}

/// The word of a command on tapes.
fn tape_word(command: &TapeCommand) -> &'static [u8]
    ensures { result.now ≡ tape_word command.now }
{
    match command {
        TapeCommand::Labeltape { .. } => b"labeltape",
        TapeCommand::Readlabel { .. } => b"readlabel",
        TapeCommand::Scantape { .. } => b"scantape",
        TapeCommand::Savedb { .. } => b"savedb",
        TapeCommand::Restoredb { .. } => b"restoredb",
    }
}

/// The word of a command on a group of dumps.
fn group_word(command: &GroupCommand) -> &'static [u8]
    ensures { result.now ≡ group_word command.now }
{
    match command {
        GroupCommand::Together { .. } => b"together",
        GroupCommand::Kill { .. } => b"kill",
        GroupCommand::End => b"end",
        GroupCommand::Jobs => b"jobs",
    }
}

/// The word of a command that restores these volumes.
fn restore_word(volumes: &RestoredVolumes) -> &'static [u8]
    ensures { result.now ≡ restore_word volumes.now }
{
    match volumes {
        RestoredVolumes::One(_) => b"volrestore",
        RestoredVolumes::OfDisk(_) => b"diskrestore",
        RestoredVolumes::OfSet(_) => b"volsetrestore",
    }
}

impl Command {
    /// The first word of the line that says the command: the command's own word, and `vos` for each command on the cell. A refusal
    /// of a command where it can't stand tells it.
    #[tactic(auto, unfolding(crate::specs::FirstWords::command_word))]
    pub fn word(&self) -> &'static [u8]
        ensures { result.now ≡ command_word self.now }
    {
        match self {
            Command::Database(command) => database_word(command),
            Command::Tape(command) => tape_word(command),
            Command::Cell(_) => b"vos",
            Command::Dump(_) => b"dump",
            Command::Group(command) => group_word(command),
            Command::Restore(command) => restore_word(&command.volumes),
        }
    }
}
