//! The commands on the cell.

ghost use Rattle.std.specs.Prelude.{◌≡◌, ◌≢◌, [], ℕ, List, map, Ok, Err, Some, IfOk, OnOk};
ghost use Rattle.std.specs.List.{flat_map};
ghost use Rattle.crash_moments.specs.Moments.{HasCauseAt};
ghost use Rattle.cell_core.specs.Answers.{OnlyFromOutside};
ghost use Rattle.cell_core.specs.Calls.{entry_of_stored, after_create, after_write, after_remove_vnode, after_backup, after_remove};
ghost use Rattle.backup_replies.specs.Texts.{ok_line};
ghost use Rattle.backup_replies.specs.Volumes.{listed_line, listed_lines};
ghost use Rattle.backup_session.specs.Fitting.{OnTheWay};
ghost use Rattle.backup_session.specs.Cells.{answered, created, data_for, cell_answer, StandsFor, text_of, without_id, IsAnswer};

use crate::reply::Reply;
use crate::stops::Stop;
use backup_replies::{Refusal, ok_line, put_listed, refused_at, refused_number, refused_word};
use backup_words::CellCommand;
use bk_text::{Bytes, Host, Name, Out, Part};
use cell_core::{Cell, CellFault};
use std::alloc::{AllocError, Global};

/// The text of a refusal by the cell.
fn refusal(alloc: Global, fault: CellFault, name: &Name, number: u32) -> Result<Bytes, Stop>
    ensures text { IfOk result (λ text. text ≡ text_of name.now number (Err fault)) }
    ensures failed { fault ≡ CellFault.Failed → result ≡ Err Stop.Cell }
    ensures memory { fault ≡ CellFault.Memory → result ≡ Err Stop.Memory }
    ensures only_failed { result ≡ Err Stop.Cell → fault ≡ CellFault.Failed }
    ensures never { result ≢ Err Stop.Plant }
{
    let text = match fault {
        CellFault::Failed => return Err(Stop::Cell),
        CellFault::Memory => return Err(Stop::Memory),
        CellFault::NoVolume => refused_word(alloc, Refusal::NoVolume, name.bytes()),
        CellFault::VolumeExists => refused_word(alloc, Refusal::VolumeExists, name.bytes()),
        CellFault::NoVnode => refused_number(alloc, Refusal::NoVnode, number as u64),
        CellFault::TooLarge => refused_word(alloc, Refusal::TooLarge, name.bytes()),
        CellFault::BadImage { at } => refused_at(alloc, Refusal::BadImage, name.bytes(), at),
    };
    match text {
        Ok(text) => Ok(text),
        Err(_) => Err(Stop::Memory),
    }
}

/// What is replied to the answer of a call of the cell.
fn reply_to(
    alloc: Global,
    answer: Result<(), CellFault>,
    done: Bytes,
    name: &Name,
    number: u32,
) -> Result<Reply, Stop>
    requires { done ≡ ok_line }
    ensures text { IfOk result (λ reply. reply.text ≡ text_of name.now number answer) }
    ensures failed { answer ≡ Err CellFault.Failed → result ≡ Err Stop.Cell }
    ensures memory { answer ≡ Err CellFault.Memory → result ≡ Err Stop.Memory }
    ensures only_failed { result ≡ Err Stop.Cell → answer ≡ Err CellFault.Failed }
    ensures never { result ≢ Err Stop.Plant }
{
    match answer {
        Ok(()) => Ok(Reply::new(done)),
        Err(fault) => Ok(Reply::new(refusal(alloc, fault, name, number)?)),
    }
}

/// The answer of a call that makes a volume, without the id.
fn without_id(answer: Result<u32, CellFault>) -> Result<(), CellFault>
    ensures { result ≡ without_id answer }
{
    match answer {
        Ok(_) => Ok(()),
        Err(fault) => Err(fault),
    }
}

/// `vos create`.
fn create<C: Cell>(
    alloc: Global,
    cell: &mut C,
    server: &Host,
    partition: &Part,
    name: &Name,
    now: u32,
) -> Result<Reply, Stop>
    ensures answer { C.tells → IfOk result (λ reply. IsAnswer (answered name.now 0 (created (after_create (C.list cell.old) server.now partition.now name.now now))) reply (C.list cell.old) (C.list cell.new)) }
    ensures left { C.tells → OnTheWay (C.list cell.old) (answered name.now 0 (created (after_create (C.list cell.old) server.now partition.now name.now now))).cells (C.list cell.new) }
    ensures cause { HasCauseAt Stop.Cell (C.faults cell.old) (C.faults cell.new) result }
    ensures never { result ≢ Err Stop.Plant }
{
    let done = ok_line(alloc)?;
    let answer = without_id(cell.create(server, partition, name, now));
    reply_to(alloc, answer, done, name, 0)
}

/// The most bytes of a vnode's data, and one more: so many are built of any greater number.
const ENOUGH: u32 = 16_777_217;

/// The data that a vnode gets: a text, or so many bytes `x`. Of more than a vnode takes enough are built to be refused.
fn data_of(alloc: Global, text: &Option<Bytes>, size: &Option<u32>) -> Result<Bytes, AllocError>
    ensures { IfOk result (λ given. StandsFor (data_for text.now size.now) given) }
{
    match (text, size) {
        (Some(text), _) => text.copy(),
        (None, Some(size)) => {
            let mut data = Vec::new(alloc);
            data.resize((*size).min(ENOUGH) as usize, b'x')?;
            Ok(Bytes::from_vec(data))
        }
        (None, None) => Ok(Bytes::new(alloc)),
    }
}

/// Data written to a vnode.
fn write<C: Cell>(
    alloc: Global,
    cell: &mut C,
    name: &Name,
    number: u32,
    body: &[u8],
    now: u32,
) -> Result<Reply, Stop>
    ensures answer { C.tells → IfOk result (λ reply. IsAnswer (answered name.now number (after_write (C.list cell.old) name.now number body.now now)) reply (C.list cell.old) (C.list cell.new)) }
    ensures left { C.tells → OnTheWay (C.list cell.old) (answered name.now number (after_write (C.list cell.old) name.now number body.now now)).cells (C.list cell.new) }
    ensures cause { HasCauseAt Stop.Cell (C.faults cell.old) (C.faults cell.new) result }
    ensures never { result ≢ Err Stop.Plant }
{
    let done = ok_line(alloc)?;
    let answer = cell.write(name, number, body, now);
    reply_to(alloc, answer, done, name, number)
}

/// `vos write`.
fn write_vnode<C: Cell>(
    alloc: Global,
    cell: &mut C,
    name: &Name,
    number: u32,
    text: &Option<Bytes>,
    size: &Option<u32>,
    now: u32,
) -> Result<Reply, Stop>
    ensures answer { C.tells → IfOk result (λ reply. IsAnswer (answered name.now number (after_write (C.list cell.old) name.now number (data_for text.now size.now) now)) reply (C.list cell.old) (C.list cell.new)) }
    ensures left { C.tells → OnTheWay (C.list cell.old) (answered name.now number (after_write (C.list cell.old) name.now number (data_for text.now size.now) now)).cells (C.list cell.new) }
    ensures cause { HasCauseAt Stop.Cell (C.faults cell.old) (C.faults cell.new) result }
    ensures never { result ≢ Err Stop.Plant }
{
    let data = data_of(alloc, text, size)?;
    write(alloc, cell, name, number, data.as_slice(), now)
}

/// `vos rmvnode`.
fn remove_vnode<C: Cell>(
    alloc: Global,
    cell: &mut C,
    name: &Name,
    number: u32,
    now: u32,
) -> Result<Reply, Stop>
    ensures answer { C.tells → IfOk result (λ reply. IsAnswer (answered name.now number (after_remove_vnode (C.list cell.old) name.now number now)) reply (C.list cell.old) (C.list cell.new)) }
    ensures left { C.tells → OnTheWay (C.list cell.old) (answered name.now number (after_remove_vnode (C.list cell.old) name.now number now)).cells (C.list cell.new) }
    ensures cause { HasCauseAt Stop.Cell (C.faults cell.old) (C.faults cell.new) result }
    ensures never { result ≢ Err Stop.Plant }
{
    let done = ok_line(alloc)?;
    let answer = cell.remove_vnode(name, number, now);
    reply_to(alloc, answer, done, name, number)
}

/// `vos backup`.
fn backup<C: Cell>(alloc: Global, cell: &mut C, name: &Name, now: u32) -> Result<Reply, Stop>
    ensures answer { C.tells → IfOk result (λ reply. IsAnswer (answered name.now 0 (after_backup (C.list cell.old) name.now now)) reply (C.list cell.old) (C.list cell.new)) }
    ensures left { C.tells → OnTheWay (C.list cell.old) (answered name.now 0 (after_backup (C.list cell.old) name.now now)).cells (C.list cell.new) }
    ensures cause { HasCauseAt Stop.Cell (C.faults cell.old) (C.faults cell.new) result }
    ensures never { result ≢ Err Stop.Plant }
{
    let done = ok_line(alloc)?;
    let answer = cell.backup(name, now);
    reply_to(alloc, answer, done, name, 0)
}

/// `vos remove`.
fn remove<C: Cell>(alloc: Global, cell: &mut C, name: &Name) -> Result<Reply, Stop>
    ensures answer { C.tells → IfOk result (λ reply. IsAnswer (answered name.now 0 (after_remove (C.list cell.old) name.now)) reply (C.list cell.old) (C.list cell.new)) }
    ensures left { C.tells → OnTheWay (C.list cell.old) (answered name.now 0 (after_remove (C.list cell.old) name.now)).cells (C.list cell.new) }
    ensures cause { HasCauseAt Stop.Cell (C.faults cell.old) (C.faults cell.new) result }
    ensures never { result ≢ Err Stop.Plant }
{
    let done = ok_line(alloc)?;
    let answer = cell.remove(name);
    reply_to(alloc, answer, done, name, 0)
}

/// The lines of all volumes of a cell. Its list stays.
fn listed<C: Cell>(alloc: Global, cell: &mut C) -> Result<Bytes, CellFault>
    ensures lines { C.tells → IfOk result (λ lines. lines ≡ listed_lines (map entry_of_stored (C.list cell.old))) }
    ensures errors { OnlyFromOutside result }
    ensures list { C.tells → C.list cell.new ≡ C.list cell.old }
    ensures cause { HasCauseAt CellFault.Failed (C.faults cell.old) (C.faults cell.new) result }
{
    let mut lines = Out::new(alloc);
    for i in 0..cell.count() {
        let entry = cell.entry(i)?;
        let told = put_listed(&mut lines, &entry);
        drop(entry);
        told?;
    }
    lines.piece(b"ok\n")?;
    Ok(lines.into_bytes())
}

/// `vos listvol`.
fn show<C: Cell>(alloc: Global, cell: &mut C) -> Result<Reply, Stop>
    ensures text { C.tells → IfOk result (λ reply. reply.text ≡ listed_lines (map entry_of_stored (C.list cell.old))) }
    ensures list { C.tells → C.list cell.new ≡ C.list cell.old }
    ensures cause { HasCauseAt Stop.Cell (C.faults cell.old) (C.faults cell.new) result }
    ensures never { result ≢ Err Stop.Plant }
{
    match listed(alloc, cell) {
        Ok(text) => Ok(Reply::new(text)),
        Err(CellFault::Failed) => Err(Stop::Cell),
        Err(_) => Err(Stop::Memory),
    }
}

/// A command on the cell, at the session's time.
pub(crate) fn on_cell<C: Cell>(
    alloc: Global,
    cell: &mut C,
    command: &CellCommand,
    now: u32,
) -> Result<Reply, Stop>
    ensures answer { C.tells → IfOk result (λ reply. IsAnswer (cell_answer (C.list cell.old) now command.now) reply (C.list cell.old) (C.list cell.new)) }
    ensures left { C.tells → OnTheWay (C.list cell.old) (cell_answer (C.list cell.old) now command.now).cells (C.list cell.new) }
    ensures cause { HasCauseAt Stop.Cell (C.faults cell.old) (C.faults cell.new) result }
    ensures never { result ≢ Err Stop.Plant }
{
    match command {
        CellCommand::VosCreate {
            server,
            partition,
            name,
        } => create(alloc, cell, server, partition, name, now),
        CellCommand::VosWrite {
            volume,
            vnode,
            text,
            size,
        } => write_vnode(alloc, cell, volume, *vnode, text, size, now),
        CellCommand::VosRmvnode { volume, vnode } => remove_vnode(alloc, cell, volume, *vnode, now),
        CellCommand::VosBackup { volume } => backup(alloc, cell, volume, now),
        CellCommand::VosRemove { volume } => remove(alloc, cell, volume),
        CellCommand::VosListvol => show(alloc, cell),
    }
}
