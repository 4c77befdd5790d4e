//! What is told of a volume.

ghost use Rattle.std.specs.Prelude.{◌≡◌, ◌++◌, IfOk};
ghost use Rattle.backup_replies.specs.Texts.{ok_line};
ghost use Rattle.restore_commands.specs.Answers.{reply_alone, told_lines};

use backup_replies::ok_line;
use bk_text::Bytes;
use std::alloc::{AllocError, Global};

/// What is told of a volume that was to be restored.
#[derive(Drop)]
pub enum Told {
    /// The lines of a volume that was restored, or would be.
    Restored(Bytes),
    /// The line of its refusal.
    Refused(Bytes),
}

impl Told {
    /// Its lines.
    pub(crate) fn lines(&self) -> &[u8]
        ensures { result.now ≡ told_lines self.now }
    {
        match self {
            Told::Restored(lines) => lines.as_slice(),
            Told::Refused(line) => line.as_slice(),
        }
    }

    /// The reply to a command that was for this volume alone: a refusal is its one line.
    pub(crate) fn reply(self, alloc: Global) -> Result<Bytes, AllocError>
        ensures { IfOk result (λ reply. reply ≡ reply_alone self) }
    {
        match self {
            Told::Restored(lines) => {
                let mut reply = lines;
                reply.extend_from_slice(ok_line(alloc)?.as_slice())?;
                Ok(reply)
            }
            Told::Refused(line) => Ok(line),
        }
    }
}
