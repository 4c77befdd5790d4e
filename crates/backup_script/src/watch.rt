//! A watch on what is told.

ghost use Rattle.std.specs.Prelude.{◌≡◌};
ghost use Rattle.backup_script.specs.Watching.{begins_with as text_begins_with};

use std::marker::Model;

/// The word by which a line refuses.
const WORD: &[u8] = b"refused";

/// What is known of what was told: whether some line of it begins with `refused`.
#[derive(Drop)]
pub struct Watch {
    refused: bool,
    // what is due of the word in the line that isn't ended; nothing where it begins otherwise, or has the word
    due: &'static [u8],
}

impl Model for Watch {
    ghost use Rattle.backup_script.specs.Watching.{Watched};

    ghost Value = { Watched };

    ghost view = { λ a. record { refused = a.refused; due = a.due.now } };
}

/// Whether these bytes begin with this one.
fn begins_with(due: &[u8], byte: u8) -> bool
    ensures { result ≡ text_begins_with due.now byte }
{
    !due.is_empty() && due[0] == byte
}

impl Watch {
    ghost use Rattle.backup_script.specs.Watching.{at_start, with_byte, with_text};

    /// A watch to which nothing was told.
    pub fn new() -> Watch
        ensures { result ≡ at_start }
    {
        Watch {
            refused: false,
            due: WORD,
        }
    }

    /// Reads a byte that is told.
    fn read(&mut self, byte: u8)
        ensures { self.new ≡ with_byte self.old byte }
    {
        if byte == b'\n' {
            self.due = WORD;
        } else if begins_with(self.due, byte) {
            self.refused = self.refused || self.due.len() == 1;
            self.due = &self.due[1..];
        } else {
            self.due = &[];
        }
    }

    /// Reads a text that is told.
    pub fn watch(&mut self, text: &[u8])
        ensures { self.new ≡ with_text self.old text.now }
    {
        for byte in text {
            self.read(*byte);
        }
    }

    /// Whether some line begins with `refused`.
    pub fn refused(&self) -> bool
        ensures { result ≡ self.now.refused }
    {
        self.refused
    }
}
