//! What is kept of a fragment until its turn among the fragments of its volume.

ghost use Rattle.std.specs.Prelude.{◌≡◌};
ghost use Rattle.tape_frames.specs.Layouts.{FitsData};
ghost use Rattle.restore_chain.specs.Playing.{spot_of};

use crate::play_joined::Site;
use bk_text::List;
use std::marker::Model;
use tape_frames::{Data, DataFields};

/// A Data of a fragment, with the record of its tape at which it stands.
#[derive(Drop)]
pub struct KeptPiece {
    pub(crate) site: Site,
    pub(crate) piece: Data,
}

impl Model for KeptPiece {
    ghost use Rattle.archive_model.specs.Plays.{Piece};
    ghost use Rattle.restore_chain.specs.Playing.{spot_of};

    ghost Value = { Piece };

    ghost view = { λ k. record { spot = spot_of k.site; data_frame = k.piece } };
}

impl KeptPiece {
    /// The record of its tape at which it stands.
    pub(crate) fn site(&self) -> Site
        ensures { spot_of result ≡ self.now.spot }
    {
        self.site
    }

    /// The Data.
    pub(crate) fn fields(&self) -> &DataFields
        ensures is { result.now ≡ self.now.data_frame }
        ensures fits { FitsData result.now }
    {
        self.piece.fields()
    }
}

/// What is kept of a fragment of a volume in a dump.
#[derive(Drop)]
pub enum Kept {
    /// Nothing: its tape wasn't looked for yet.
    Unread,
    /// No slot here holds its tape, which has this number in its dump set.
    Missing(u32),
    /// A slot here holds its tape, and it wasn't read.
    Held,
    /// It stands: its Data, and its end.
    Whole { pieces: List<KeptPiece>, end: Site },
    /// Its first record that isn't what the database calls for.
    Bad(Site),
}

/// What is done with the fragments of a tape.
#[derive(Clone, Copy, Debug, PartialEq, Eq)]
pub enum Reading {
    /// They are kept as missing: no slot here holds the tape.
    Missing,
    /// They are kept as held, and not read: a slot here holds the tape.
    Held,
    /// They are read from the loaded tape, which is the one of the least slot here that holds it.
    Loaded,
}
