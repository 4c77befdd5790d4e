//! How a command restores its volumes.

use bk_text::Bytes;
use std::marker::Model;

/// How a command restores its volumes.
#[derive(Drop)]
pub struct Manner<'a> {
    /// What is put behind the base name of each volume, where something is.
    pub extension: &'a Option<Bytes>,
    /// The time as which they are made, in seconds since 1970.
    pub time: u32,
    /// Whether it is only told what would be restored.
    pub is_trial: bool,
}

impl<'a> Model for Manner<'a> {
    ghost use Rattle.restore_commands.specs.Answers.{Manner};

    ghost Value = { Manner };

    ghost view = { λ m. record { extension = m.extension.now; time = m.time; is_trial = m.is_trial } };
}
