//! Refusals among what was told.

ghost use Rattle.std.specs.Prelude.{◌≡◌};
ghost use Rattle.backup_replies.specs.Texts.{has_refusal};

/// Whether some line of a text begins with `refused`.
pub fn has_refusal(text: &[u8]) -> bool
    ensures { result ≡ has_refusal text.now }
{
    text.split(|byte| *byte == b'\n')
        .any(|line| line.starts_with(b"refused"))
}
