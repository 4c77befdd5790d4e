//! What a command is answered.

ghost use Rattle.std.specs.Prelude.{◌≡◌};
ghost use Rattle.backup_session.specs.Views.{IsReply};

use backup_replies::has_refusal;
use bk_text::Bytes;
use std::marker::Model;

/// A reply that is still to be told: its lines, and whether one of them begins with `refused`.
#[derive(Drop)]
pub struct Reply {
    text: Bytes,
    refused: bool,
}

impl Model for Reply {
    ghost use Rattle.backup_session.specs.Views.{ReplyView, IsReply};

    ghost Value = { ReplyView };

    ghost view = { λ a. record { text = a.text; refused = a.refused } };

    ghost invariant = { λ a. IsReply (record { text = a.text; refused = a.refused }) };
}

impl Reply {
    /// The reply of this text.
    pub(crate) fn new(text: Bytes) -> Reply
        ensures { result.text ≡ text }
    {
        let refused = has_refusal(text.as_slice());
        Reply { text, refused }
    }

    /// Its text.
    pub fn text(&self) -> &[u8]
        ensures { result.now ≡ self.now.text }
    {
        self.text.as_slice()
    }

    /// Whether some line of it begins with `refused`.
    pub fn refused(&self) -> bool
        ensures is { result ≡ self.now.refused }
        ensures form { IsReply self.now }
    {
        self.refused
    }
}
