//! What a line of a script says.

ghost use Rattle.std.specs.Prelude.{◌≡◌, ◌==◌, slice_index, false, IfOk, OnErr};
ghost use Rattle.std.specs.List.{list_all};
ghost use Rattle.bk_text.specs.Blanks.{is_blank};
ghost use Rattle.backup_script.specs.Lines.{is_quit as line_is_quit};
ghost use Rattle.backup_script.specs.Items.{is_silent as line_is_silent, said, item_of};
ghost use Rattle.backup_words.specs.Commands.{command_of};

use backup_replies::fault_line;
use backup_words::{Command, WordFault};
use bk_text::Bytes;
use std::alloc::{AllocError, Global};

/// What a line of a script says.
#[derive(Drop)]
pub enum Item {
    /// Nothing; it has no reply.
    Silent,
    /// That the script ends.
    Quit,
    /// A command.
    Runs(Command),
    /// No command; it is refused by this reply.
    Refused(Bytes),
}

fn is_quit(line: &[u8]) -> bool
    ensures { result ≡ line_is_quit line.now }
{
    line == b"quit".as_slice()
}

/// Whether there is nothing but spaces and tabs.
fn is_empty(line: &[u8]) -> bool
    ensures { result ≡ list_all is_blank line.now }
{
    line.iter().all(|byte| *byte == b' ' || *byte == b'\t')
}

/// Whether it begins with `#`.
fn is_comment(line: &[u8]) -> bool
    ensures { result ≡ (slice_index line.now 0 == 35) }
{
    !line.is_empty() && line[0] == b'#'
}

fn is_silent(line: &[u8]) -> bool
    ensures { result ≡ line_is_silent line.now }
{
    is_empty(line) || is_comment(line)
}

/// Reads the words of a line that is neither silent nor `quit`.
fn read_words(alloc: Global, line: &[u8]) -> Result<Item, AllocError>
    ensures { IfOk result (λ item. item ≡ said (command_of line.now)) }
{
    match Command::parse(alloc, line) {
        Ok(command) => Ok(Item::Runs(command)),
        Err(WordFault::Memory) => Err(AllocError),
        Err(fault) => Ok(Item::Refused(fault_line(alloc, &fault)?)),
    }
}

/// Reads a line, without its end.
#[tactic(auto, unfolding(crate::specs::Items::item_of))]
pub fn read_item(alloc: Global, line: &[u8]) -> Result<Item, AllocError>
    ensures item { IfOk result (λ item. item ≡ item_of line.now) }
    ensures not_quit { OnErr result (line_is_quit line.now ≡ false) }
{
    if is_quit(line) {
        return Ok(Item::Quit);
    }
    if is_silent(line) {
        return Ok(Item::Silent);
    }
    read_words(alloc, line)
}
