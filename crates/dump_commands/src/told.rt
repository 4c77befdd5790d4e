//! What a dump is answered.

ghost use Rattle.std.specs.Prelude.{◌≡◌, IfOk};
ghost use Rattle.std.specs.Option.{option_copied};
ghost use Rattle.dump_courses.specs.Running.{answer_of};
ghost use Rattle.dump_commands.specs.Answers.{made_text, end_line};

use crate::refusals::fault_line;
use backup_replies::put_made;
use bk_text::{Bytes, Out, SetName};
use budb::Budb;
use budb_journal::DumpRecord;
use dump_courses::End;
use std::alloc::{AllocError, Global};

/// What a dump is answered: a text that is still to be told, and the session's time behind it, in seconds since 1970.
#[derive(Debug, Drop)]
pub struct Dumped {
    /// The text.
    pub text: Bytes,
    /// The session's time.
    pub time: u32,
}

/// The lines of a dump that is listed; where it isn't, it is only told that all was done.
fn made_text(alloc: Global, dump: Option<&DumpRecord>) -> Result<Bytes, AllocError>
    ensures { IfOk result (λ text. text ≡ made_text (option_copied dump.entry)) }
{
    let mut lines = Out::new(alloc);
    if let Some(dump) = dump {
        let fields = dump.fields();
        put_made(
            &mut lines,
            fields.id,
            &fields.set,
            &fields.level,
            fields.parent,
            fields.volumes.len() as u64,
            fields.tapes.len() as u64,
        )?;
    }
    lines.piece(b"ok\n")?;
    Ok(lines.into_bytes())
}

/// What is told of a dump that was begun.
pub(crate) fn end_line(
    alloc: Global,
    budb: &Budb,
    set: &SetName,
    offset: u16,
    end: &End,
) -> Result<Bytes, AllocError>
    ensures { IfOk result (λ text. text ≡ end_line set.now offset budb.now.database.listed (answer_of end.now)) }
{
    match end {
        End::Made(id) => made_text(alloc, budb.record(*id)),
        End::Refused(fault) => fault_line(alloc, set, offset, fault),
    }
}
