//! The reply to a line that is no command.

ghost use Rattle.std.specs.Prelude.{◌≡◌, IfOk};
ghost use Rattle.std.specs.Result.{IsErr};
ghost use Rattle.backup_replies.specs.WordRefusals.{word_refusal};

use crate::refusals::Refusal;
use crate::refused::{refused_alone, refused_number, refused_word};
use backup_words::WordFault;
use bk_text::Bytes;
use std::alloc::{AllocError, Global};

/// The reply to a line that is no command. Where the fault is want of memory, the answer is that too.
pub fn fault_line(alloc: Global, fault: &WordFault) -> Result<Bytes, AllocError>
    ensures line { IfOk result (λ line. line ≡ word_refusal fault.now) }
    ensures memory { fault.now ≡ WordFault.Memory → IsErr result }
{
    match fault {
        WordFault::NoSuchCommand { word } => {
            refused_word(alloc, Refusal::NoSuchCommand, word.as_slice())
        }
        WordFault::BadOption { word } => refused_word(alloc, Refusal::BadOption, word.as_slice()),
        WordFault::MissingOption { option } => {
            refused_word(alloc, Refusal::MissingOption, option.as_slice())
        }
        WordFault::BadValue { option } => refused_word(alloc, Refusal::BadValue, option.as_slice()),
        WordFault::LineTooLong => refused_alone(alloc, Refusal::LineTooLong),
        WordFault::NotAscii { at } => refused_number(alloc, Refusal::NotAscii, *at as u64),
        WordFault::BadPattern { at } => refused_number(alloc, Refusal::BadPattern, *at as u64),
        WordFault::BadDate { at } => refused_number(alloc, Refusal::BadDate, *at as u64),
        WordFault::DateOutOfRange => refused_alone(alloc, Refusal::DateOutOfRange),
        WordFault::Memory => Err(AllocError),
    }
}
