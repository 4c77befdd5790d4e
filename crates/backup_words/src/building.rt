//! The commands of words that fit.

ghost use Rattle.backup_words.specs.Fitting.{IsPlainWord, AllFit};
ghost use Rattle.std.specs.Prelude.{◌≡◌, IfOk, All};
ghost use Rattle.backup_words.specs.Table.{rules_of};
ghost use Rattle.backup_words.specs.Commands.{wanted_in, disk_in, built};
ghost use Rattle.backup_words.specs.declared.kinds.Kind.TheVariants.{Addvolset as AddvolsetKind, Delvolset as DelvolsetKind, Addvolentry as AddvolentryKind, Delvolentry as DelvolentryKind, Listvolsets as ListvolsetsKind, Adddump as AdddumpKind, Setexp as SetexpKind, Deldump as DeldumpKind, Addhost as AddhostKind, Delhost as DelhostKind, Labeltape as LabeltapeKind, Readlabel as ReadlabelKind, Scantape as ScantapeKind, Savedb as SavedbKind, Restoredb as RestoredbKind, Dump as DumpKind, Together as TogetherKind, Kill as KillKind, Deletedump as DeletedumpKind, Dumpinfo as DumpinfoKind, Volinfo as VolinfoKind, Volrestore as VolrestoreKind, Diskrestore as DiskrestoreKind, Volsetrestore as VolsetrestoreKind, VosCreate as VosCreateKind, VosWrite as VosWriteKind, VosRmvnode as VosRmvnodeKind, VosBackup as VosBackupKind, VosRemove as VosRemoveKind};

use crate::command::{
    CellCommand, Command, DatabaseCommand, Disk, DumpCommand, GroupCommand, RestoreCommand,
    RestoredVolumes, TapeCommand, Wanted,
};
use crate::kinds::Kind;
use crate::options::{Need, OptionName, TextForm};
use crate::reading::{
    any_host, any_part, expiry, extension, host, level, levels, maybe_bytes, maybe_date,
    maybe_host, maybe_number, maybe_part, maybe_set_name, maybe_tape_name, name, new_name, number,
    part, pattern, port, set_name,
};
use crate::words::has;
use bk_text::Bytes;
use std::alloc::{AllocError, Global};

/// `addvolset`.
fn addvolset(alloc: Global, words: &[Bytes]) -> Result<Command, AllocError>
    requires { AllFit words.now (rules_of AddvolsetKind) }
    ensures { IfOk result (λ command. command ≡ built AddvolsetKind words.now) }
{
    Ok(Command::Database(DatabaseCommand::Addvolset {
        name: set_name(alloc, words, OptionName::Name)?,
    }))
}

/// `delvolset`.
fn delvolset(alloc: Global, words: &[Bytes]) -> Result<Command, AllocError>
    requires { AllFit words.now (rules_of DelvolsetKind) }
    ensures { IfOk result (λ command. command ≡ built DelvolsetKind words.now) }
{
    Ok(Command::Database(DatabaseCommand::Delvolset {
        name: set_name(alloc, words, OptionName::Name)?,
    }))
}

/// `addvolentry`.
fn addvolentry(alloc: Global, words: &[Bytes]) -> Result<Command, AllocError>
    requires { AllFit words.now (rules_of AddvolentryKind) }
    ensures { IfOk result (λ command. command ≡ built AddvolentryKind words.now) }
{
    Ok(Command::Database(DatabaseCommand::Addvolentry {
        name: set_name(alloc, words, OptionName::Name)?,
        server: any_host(alloc, words, OptionName::Server)?,
        partition: any_part(alloc, words, OptionName::Partition)?,
        volumes: pattern(alloc, words, OptionName::Volumes)?,
    }))
}

/// `delvolentry`.
fn delvolentry(alloc: Global, words: &[Bytes]) -> Result<Command, AllocError>
    requires { AllFit words.now (rules_of DelvolentryKind) }
    ensures { IfOk result (λ command. command ≡ built DelvolentryKind words.now) }
{
    Ok(Command::Database(DatabaseCommand::Delvolentry {
        name: set_name(alloc, words, OptionName::Name)?,
        entry: number(words, OptionName::Entry, 1, u32::MAX),
    }))
}

/// `listvolsets`.
fn listvolsets(alloc: Global, words: &[Bytes]) -> Result<Command, AllocError>
    requires { AllFit words.now (rules_of ListvolsetsKind) }
    ensures { IfOk result (λ command. command ≡ built ListvolsetsKind words.now) }
{
    Ok(Command::Database(DatabaseCommand::Listvolsets {
        name: maybe_set_name(alloc, words, OptionName::Name)?,
    }))
}

/// `adddump`.
fn adddump(alloc: Global, words: &[Bytes]) -> Result<Command, AllocError>
    requires fit { AllFit words.now (rules_of AdddumpKind) }
    requires plain { All IsPlainWord words.now }
    ensures { IfOk result (λ command. command ≡ built AdddumpKind words.now) }
{
    Ok(Command::Database(DatabaseCommand::Adddump {
        dump: levels(alloc, words, OptionName::Dump)?,
        expires: expiry(alloc, words, OptionName::Expires)?,
    }))
}

/// `setexp`.
fn setexp(alloc: Global, words: &[Bytes]) -> Result<Command, AllocError>
    requires fit { AllFit words.now (rules_of SetexpKind) }
    requires plain { All IsPlainWord words.now }
    ensures { IfOk result (λ command. command ≡ built SetexpKind words.now) }
{
    Ok(Command::Database(DatabaseCommand::Setexp {
        dump: levels(alloc, words, OptionName::Dump)?,
        expires: expiry(alloc, words, OptionName::Expires)?,
    }))
}

/// `deldump`.
fn deldump(alloc: Global, words: &[Bytes]) -> Result<Command, AllocError>
    requires { AllFit words.now (rules_of DeldumpKind) }
    ensures { IfOk result (λ command. command ≡ built DeldumpKind words.now) }
{
    Ok(Command::Database(DatabaseCommand::Deldump {
        dump: level(alloc, words, OptionName::Dump)?,
    }))
}

/// `addhost`.
fn addhost(alloc: Global, words: &[Bytes]) -> Result<Command, AllocError>
    requires { AllFit words.now (rules_of AddhostKind) }
    ensures { IfOk result (λ command. command ≡ built AddhostKind words.now) }
{
    Ok(Command::Database(DatabaseCommand::Addhost {
        tapehost: host(alloc, words, OptionName::Tapehost)?,
        portoffset: port(words),
    }))
}

/// `delhost`.
fn delhost(alloc: Global, words: &[Bytes]) -> Result<Command, AllocError>
    requires { AllFit words.now (rules_of DelhostKind) }
    ensures { IfOk result (λ command. command ≡ built DelhostKind words.now) }
{
    Ok(Command::Database(DatabaseCommand::Delhost {
        tapehost: host(alloc, words, OptionName::Tapehost)?,
        portoffset: port(words),
    }))
}

/// `labeltape`.
fn labeltape(alloc: Global, words: &[Bytes]) -> Result<Command, AllocError>
    requires { AllFit words.now (rules_of LabeltapeKind) }
    ensures { IfOk result (λ command. command ≡ built LabeltapeKind words.now) }
{
    let without_name = Need::NotWith(OptionName::Name);
    Ok(Command::Tape(TapeCommand::Labeltape {
        name: maybe_tape_name(alloc, words, OptionName::Name, Need::Free)?,
        pname: maybe_tape_name(alloc, words, OptionName::Pname, without_name)?,
        portoffset: port(words),
        slot: maybe_number(words, OptionName::Slot, Need::Free, 0, u32::MAX),
    }))
}

/// `readlabel`.
fn readlabel(words: &[Bytes]) -> Command
    requires { AllFit words.now (rules_of ReadlabelKind) }
    ensures { result ≡ built ReadlabelKind words.now }
{
    Command::Tape(TapeCommand::Readlabel {
        portoffset: port(words),
        slot: maybe_number(words, OptionName::Slot, Need::Free, 0, u32::MAX),
    })
}

/// `scantape`.
fn scantape(words: &[Bytes]) -> Command
    requires { AllFit words.now (rules_of ScantapeKind) }
    ensures { result ≡ built ScantapeKind words.now }
{
    Command::Tape(TapeCommand::Scantape {
        dbadd: has(words, OptionName::Dbadd),
        portoffset: port(words),
    })
}

/// `savedb`.
fn savedb(words: &[Bytes]) -> Command
    requires { AllFit words.now (rules_of SavedbKind) }
    ensures { result ≡ built SavedbKind words.now }
{
    Command::Tape(TapeCommand::Savedb {
        portoffset: port(words),
    })
}

/// `restoredb`.
fn restoredb(words: &[Bytes]) -> Command
    requires { AllFit words.now (rules_of RestoredbKind) }
    ensures { result ≡ built RestoredbKind words.now }
{
    Command::Tape(TapeCommand::Restoredb {
        portoffset: port(words),
    })
}

/// `dump`.
fn dump(alloc: Global, words: &[Bytes]) -> Result<Command, AllocError>
    requires { AllFit words.now (rules_of DumpKind) }
    ensures { IfOk result (λ command. command ≡ built DumpKind words.now) }
{
    Ok(Command::Dump(DumpCommand {
        set: set_name(alloc, words, OptionName::Volumeset)?,
        level: level(alloc, words, OptionName::Dump)?,
        offset: port(words),
        append: has(words, OptionName::Append),
        trial: has(words, OptionName::N),
    }))
}

/// `together`.
fn together(words: &[Bytes]) -> Command
    requires { AllFit words.now (rules_of TogetherKind) }
    ensures { result ≡ built TogetherKind words.now }
{
    Command::Group(GroupCommand::Together {
        schedule: number(words, OptionName::Schedule, 0, 2147483647),
    })
}

/// `kill`.
fn kill(words: &[Bytes]) -> Command
    requires { AllFit words.now (rules_of KillKind) }
    ensures { result ≡ built KillKind words.now }
{
    Command::Group(GroupCommand::Kill {
        job: number(words, OptionName::Job, 0, u32::MAX),
        after: number(words, OptionName::After, 0, u32::MAX),
    })
}

/// `deletedump`.
fn deletedump(words: &[Bytes]) -> Command
    requires { AllFit words.now (rules_of DeletedumpKind) }
    ensures { result ≡ built DeletedumpKind words.now }
{
    Command::Database(DatabaseCommand::Deletedump {
        dumpid: number(words, OptionName::Dumpid, 0, u32::MAX),
    })
}

/// `dumpinfo`.
fn dumpinfo(words: &[Bytes]) -> Command
    requires { AllFit words.now (rules_of DumpinfoKind) }
    ensures { result ≡ built DumpinfoKind words.now }
{
    let without_ndumps = Need::NotWith(OptionName::Ndumps);
    Command::Database(DatabaseCommand::Dumpinfo {
        ndumps: maybe_number(words, OptionName::Ndumps, Need::Free, 1, u32::MAX),
        id: maybe_number(words, OptionName::Id, without_ndumps, 0, u32::MAX),
    })
}

/// `volinfo`.
fn volinfo(alloc: Global, words: &[Bytes]) -> Result<Command, AllocError>
    requires { AllFit words.now (rules_of VolinfoKind) }
    ensures { IfOk result (λ command. command ≡ built VolinfoKind words.now) }
{
    Ok(Command::Database(DatabaseCommand::Volinfo {
        volume: name(alloc, words, OptionName::Volume)?,
    }))
}

/// The volume that `volrestore` wants.
fn wanted(alloc: Global, words: &[Bytes]) -> Result<Wanted, AllocError>
    requires fit { AllFit words.now (rules_of VolrestoreKind) }
    requires plain { All IsPlainWord words.now }
    ensures { IfOk result (λ wanted. wanted ≡ wanted_in words.now) }
{
    Ok(Wanted {
        name: name(alloc, words, OptionName::Volume)?,
        before: maybe_date(alloc, words, OptionName::Date)?,
        server: host(alloc, words, OptionName::Server)?,
        partition: part(alloc, words, OptionName::Partition)?,
    })
}

/// `volrestore`.
fn volrestore(alloc: Global, words: &[Bytes]) -> Result<Command, AllocError>
    requires fit { AllFit words.now (rules_of VolrestoreKind) }
    requires plain { All IsPlainWord words.now }
    ensures { IfOk result (λ command. command ≡ built VolrestoreKind words.now) }
{
    Ok(Command::Restore(RestoreCommand {
        volumes: RestoredVolumes::One(wanted(alloc, words)?),
        extension: extension(alloc, words)?,
        trial: has(words, OptionName::N),
    }))
}

/// The partition whose volumes `diskrestore` wants.
fn disk(alloc: Global, words: &[Bytes]) -> Result<Disk, AllocError>
    requires { AllFit words.now (rules_of DiskrestoreKind) }
    ensures { IfOk result (λ disk. disk ≡ disk_in words.now) }
{
    Ok(Disk {
        server: host(alloc, words, OptionName::Server)?,
        partition: part(alloc, words, OptionName::Partition)?,
        new_server: maybe_host(alloc, words, OptionName::Newserver)?,
        new_partition: maybe_part(alloc, words, OptionName::Newpartition)?,
    })
}

/// `diskrestore`.
fn diskrestore(alloc: Global, words: &[Bytes]) -> Result<Command, AllocError>
    requires { AllFit words.now (rules_of DiskrestoreKind) }
    ensures { IfOk result (λ command. command ≡ built DiskrestoreKind words.now) }
{
    Ok(Command::Restore(RestoreCommand {
        volumes: RestoredVolumes::OfDisk(disk(alloc, words)?),
        extension: extension(alloc, words)?,
        trial: has(words, OptionName::N),
    }))
}

/// `volsetrestore`.
fn volsetrestore(alloc: Global, words: &[Bytes]) -> Result<Command, AllocError>
    requires { AllFit words.now (rules_of VolsetrestoreKind) }
    ensures { IfOk result (λ command. command ≡ built VolsetrestoreKind words.now) }
{
    Ok(Command::Restore(RestoreCommand {
        volumes: RestoredVolumes::OfSet(set_name(alloc, words, OptionName::Name)?),
        extension: extension(alloc, words)?,
        trial: has(words, OptionName::N),
    }))
}

/// `vos create`.
fn vos_create(alloc: Global, words: &[Bytes]) -> Result<Command, AllocError>
    requires { AllFit words.now (rules_of VosCreateKind) }
    ensures { IfOk result (λ command. command ≡ built VosCreateKind words.now) }
{
    Ok(Command::Cell(CellCommand::VosCreate {
        server: host(alloc, words, OptionName::Server)?,
        partition: part(alloc, words, OptionName::Partition)?,
        name: new_name(alloc, words, OptionName::Name)?,
    }))
}

/// `vos write`.
fn vos_write(alloc: Global, words: &[Bytes]) -> Result<Command, AllocError>
    requires { AllFit words.now (rules_of VosWriteKind) }
    ensures { IfOk result (λ command. command ≡ built VosWriteKind words.now) }
{
    let without_size = Need::Unless(OptionName::Size);
    let without_text = Need::NotWith(OptionName::Text);
    Ok(Command::Cell(CellCommand::VosWrite {
        volume: name(alloc, words, OptionName::Volume)?,
        vnode: number(words, OptionName::Vnode, 1, u32::MAX),
        text: maybe_bytes(alloc, words, OptionName::Text, without_size, TextForm::Any)?,
        size: maybe_number(words, OptionName::Size, without_text, 0, u32::MAX),
    }))
}

/// `vos rmvnode`.
fn vos_rmvnode(alloc: Global, words: &[Bytes]) -> Result<Command, AllocError>
    requires { AllFit words.now (rules_of VosRmvnodeKind) }
    ensures { IfOk result (λ command. command ≡ built VosRmvnodeKind words.now) }
{
    Ok(Command::Cell(CellCommand::VosRmvnode {
        volume: name(alloc, words, OptionName::Volume)?,
        vnode: number(words, OptionName::Vnode, 0, u32::MAX),
    }))
}

/// `vos backup`.
fn vos_backup(alloc: Global, words: &[Bytes]) -> Result<Command, AllocError>
    requires { AllFit words.now (rules_of VosBackupKind) }
    ensures { IfOk result (λ command. command ≡ built VosBackupKind words.now) }
{
    Ok(Command::Cell(CellCommand::VosBackup {
        volume: name(alloc, words, OptionName::Volume)?,
    }))
}

/// `vos remove`.
fn vos_remove(alloc: Global, words: &[Bytes]) -> Result<Command, AllocError>
    requires { AllFit words.now (rules_of VosRemoveKind) }
    ensures { IfOk result (λ command. command ≡ built VosRemoveKind words.now) }
{
    Ok(Command::Cell(CellCommand::VosRemove {
        volume: name(alloc, words, OptionName::Volume)?,
    }))
}

/// The command of words that fit.
pub fn build(alloc: Global, kind: Kind, words: &[Bytes]) -> Result<Command, AllocError>
    requires fit { AllFit words.now (rules_of kind) }
    requires plain { All IsPlainWord words.now }
    ensures { IfOk result (λ command. command ≡ built kind words.now) }
{
    match kind {
        Kind::Addvolset => addvolset(alloc, words),
        Kind::Delvolset => delvolset(alloc, words),
        Kind::Addvolentry => addvolentry(alloc, words),
        Kind::Delvolentry => delvolentry(alloc, words),
        Kind::Listvolsets => listvolsets(alloc, words),
        Kind::Adddump => adddump(alloc, words),
        Kind::Setexp => setexp(alloc, words),
        Kind::Deldump => deldump(alloc, words),
        Kind::Listdumps => Ok(Command::Database(DatabaseCommand::Listdumps)),
        Kind::Listhosts => Ok(Command::Database(DatabaseCommand::Listhosts)),
        Kind::Checkpoint => Ok(Command::Database(DatabaseCommand::Checkpoint)),
        Kind::Addhost => addhost(alloc, words),
        Kind::Delhost => delhost(alloc, words),
        Kind::Labeltape => labeltape(alloc, words),
        Kind::Readlabel => Ok(readlabel(words)),
        Kind::Scantape => Ok(scantape(words)),
        Kind::Savedb => Ok(savedb(words)),
        Kind::Restoredb => Ok(restoredb(words)),
        Kind::Dump => dump(alloc, words),
        Kind::Together => Ok(together(words)),
        Kind::Kill => Ok(kill(words)),
        Kind::End => Ok(Command::Group(GroupCommand::End)),
        Kind::Jobs => Ok(Command::Group(GroupCommand::Jobs)),
        Kind::Deletedump => Ok(deletedump(words)),
        Kind::Dumpinfo => Ok(dumpinfo(words)),
        Kind::Volinfo => volinfo(alloc, words),
        Kind::Dbverify => Ok(Command::Database(DatabaseCommand::Dbverify)),
        Kind::Volrestore => volrestore(alloc, words),
        Kind::Diskrestore => diskrestore(alloc, words),
        Kind::Volsetrestore => volsetrestore(alloc, words),
        Kind::VosCreate => vos_create(alloc, words),
        Kind::VosWrite => vos_write(alloc, words),
        Kind::VosRmvnode => vos_rmvnode(alloc, words),
        Kind::VosBackup => vos_backup(alloc, words),
        Kind::VosRemove => vos_remove(alloc, words),
        Kind::VosListvol => Ok(Command::Cell(CellCommand::VosListvol)),
    }
}
