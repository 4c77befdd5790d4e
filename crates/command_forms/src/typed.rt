//! What is so of every command by the types of its fields: laws that take it by reference, since there is nothing to find out.

ghost use Rattle.std.specs.Prelude.{All, IfSome};
ghost use Rattle.bk_text.specs.Alphabets.{IsName, IsHost, IsSetName, IsTapeName};
ghost use Rattle.bk_text.specs.LevelPaths.{IsLevelPath};
ghost use Rattle.byte_formats.specs.Forms.{IsTwo, IsFour, IsAnyOr};
ghost use Rattle.budb_changes.specs.Printable.{IsPatternBytes};
ghost use Rattle.budb_changes.specs.Forms.{IsExpiry};
ghost use Rattle.dump_stream.specs.Forms.{IsBytes};
ghost use Rattle.command_forms.specs.Forms.{DatabaseForms, TapeForms, CellForms, GroupForms, RestoredForms, HasForms};

use backup_words::{
    CellCommand, Command, DatabaseCommand, GroupCommand, RestoredVolumes, TapeCommand,
};
use bk_text::{Bytes, Expiry, Host, LevelPath, Name, Part, SetName, TapeName};
use volume_sets::Pattern;

fn short_is_formed(number: u16)
    ensures { IsTwo number }
{}

fn number_is_formed(number: u32)
    ensures { IsFour number }
{}

fn bytes_are_formed(bytes: &[u8])
    ensures { IsBytes bytes.now }
{
    let _bytes = bytes;
}

fn text_is_formed(text: &Option<Bytes>)
    ensures { IfSome text.now IsBytes }
{
    match text {
        None => {}
        Some(text) => bytes_are_formed(text.as_slice()),
    }
}

fn name_is_formed(name: &Name)
    ensures { IsName name.now }
{
    let _bytes = name.bytes();
}

fn set_is_formed(name: &SetName)
    ensures { IsSetName name.now }
{
    let _bytes = name.bytes();
}

fn host_is_formed(host: &Host)
    ensures { IsHost host.now }
{
    let _bytes = host.bytes();
}

fn any_host_is_formed(host: &Option<Host>)
    ensures any { IsAnyOr IsHost host.now }
    ensures some { IfSome host.now IsHost }
{
    match host {
        None => {}
        Some(host) => host_is_formed(host),
    }
}

fn part_is_formed(partition: &Part)
    ensures { IsName partition.now }
{
    let _bytes = partition.bytes();
}

fn any_part_is_formed(partition: &Option<Part>)
    ensures any { IsAnyOr IsName partition.now }
    ensures some { IfSome partition.now IsName }
{
    match partition {
        None => {}
        Some(partition) => part_is_formed(partition),
    }
}

fn pattern_is_formed(pattern: &Pattern)
    ensures { IsPatternBytes pattern.now }
{
    let _bytes = pattern.bytes();
}

fn tape_is_formed(name: &Option<TapeName>)
    ensures { IfSome name.now IsTapeName }
{
    match name {
        None => {}
        Some(name) => {
            let _bytes = name.bytes();
        }
    }
}

fn level_is_formed(level: &LevelPath)
    ensures { IsLevelPath level.now }
{
    let _bytes = level.bytes();
}

fn levels_are_formed(levels: &[LevelPath])
    ensures { All IsLevelPath levels.now }
{
    for level in levels {
        level_is_formed(level);
    }
}

fn expiry_is_formed(expiry: Expiry)
    ensures { IsExpiry expiry }
{
    match expiry {
        Expiry::Unset => {}
        Expiry::Never => {}
        Expiry::At(moment) => number_is_formed(moment),
        Expiry::In {
            years,
            months,
            days,
        } => {
            short_is_formed(years);
            short_is_formed(months);
            short_is_formed(days);
        }
    }
}

fn database_is_formed(command: &DatabaseCommand)
    ensures { DatabaseForms command.now }
{
    match command {
        DatabaseCommand::Addvolset { name } => set_is_formed(name),
        DatabaseCommand::Delvolset { name } => set_is_formed(name),
        DatabaseCommand::Addvolentry {
            name,
            server,
            partition,
            volumes,
        } => {
            set_is_formed(name);
            any_host_is_formed(server);
            any_part_is_formed(partition);
            pattern_is_formed(volumes);
        }
        DatabaseCommand::Delvolentry { name, entry } => {
            set_is_formed(name);
            number_is_formed(*entry);
        }
        DatabaseCommand::Listvolsets { .. } => {}
        DatabaseCommand::Adddump { dump, expires } => {
            levels_are_formed(dump.as_slice());
            expiry_is_formed(*expires);
        }
        DatabaseCommand::Setexp { dump, expires } => {
            levels_are_formed(dump.as_slice());
            expiry_is_formed(*expires);
        }
        DatabaseCommand::Deldump { dump } => level_is_formed(dump),
        DatabaseCommand::Listdumps => {}
        DatabaseCommand::Listhosts => {}
        DatabaseCommand::Checkpoint => {}
        DatabaseCommand::Addhost {
            tapehost,
            portoffset,
        } => {
            host_is_formed(tapehost);
            short_is_formed(*portoffset);
        }
        DatabaseCommand::Delhost { portoffset, .. } => short_is_formed(*portoffset),
        DatabaseCommand::Deletedump { dumpid } => number_is_formed(*dumpid),
        DatabaseCommand::Dumpinfo { .. } => {}
        DatabaseCommand::Volinfo { .. } => {}
        DatabaseCommand::Dbverify => {}
    }
}

fn tape_command_is_formed(command: &TapeCommand)
    ensures { TapeForms command.now }
{
    match command {
        TapeCommand::Labeltape { name, pname, .. } => {
            tape_is_formed(name);
            tape_is_formed(pname);
        }
        TapeCommand::Readlabel { .. } => {}
        TapeCommand::Scantape { .. } => {}
        TapeCommand::Savedb { .. } => {}
        TapeCommand::Restoredb { .. } => {}
    }
}

fn cell_command_is_formed(command: &CellCommand)
    ensures { CellForms command.now }
{
    match command {
        CellCommand::VosCreate {
            server,
            partition,
            name,
        } => {
            host_is_formed(server);
            part_is_formed(partition);
            name_is_formed(name);
        }
        CellCommand::VosWrite { vnode, text, .. } => {
            number_is_formed(*vnode);
            text_is_formed(text);
        }
        CellCommand::VosRmvnode { .. } => {}
        CellCommand::VosBackup { .. } => {}
        CellCommand::VosRemove { .. } => {}
        CellCommand::VosListvol => {}
    }
}

fn group_command_is_formed(command: &GroupCommand)
    ensures { GroupForms command.now }
{
    match command {
        GroupCommand::Together { schedule } => number_is_formed(*schedule),
        GroupCommand::Kill { job, after } => {
            number_is_formed(*job);
            number_is_formed(*after);
        }
        GroupCommand::End => {}
        GroupCommand::Jobs => {}
    }
}

fn restored_are_formed(volumes: &RestoredVolumes)
    ensures { RestoredForms volumes.now }
{
    match volumes {
        RestoredVolumes::One(wanted) => {
            host_is_formed(&wanted.server);
            part_is_formed(&wanted.partition);
        }
        RestoredVolumes::OfDisk(disk) => {
            host_is_formed(&disk.server);
            part_is_formed(&disk.partition);
            any_host_is_formed(&disk.new_server);
            any_part_is_formed(&disk.new_partition);
        }
        RestoredVolumes::OfSet(_) => {}
    }
}

/// The fields of a command have the forms in which the journal, tapes and the cell write them, whoever made the command: their types
/// allow no others. So no line is needed to know so.
pub fn commands_have_forms(command: &Command)
    ensures { HasForms command.now }
{
    match command {
        Command::Database(command) => database_is_formed(command),
        Command::Tape(command) => tape_command_is_formed(command),
        Command::Cell(command) => cell_command_is_formed(command),
        Command::Dump(command) => {
            set_is_formed(&command.set);
            level_is_formed(&command.level);
        }
        Command::Group(command) => group_command_is_formed(command),
        Command::Restore(command) => restored_are_formed(&command.volumes),
    }
}
