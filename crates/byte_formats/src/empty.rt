//! Texts of a form that may be empty.

ghost use Rattle.std.specs.Prelude.{◌↔◌, IsTrue};
ghost use Rattle.bk_text.specs.Alphabets.{IsHost, IsTapeName};
ghost use Rattle.byte_formats.specs.Forms.{IsMaybe};

use bk_text::{Host, TapeName};

/// Whether these bytes are a tape's name, or none.
pub fn is_maybe_tape_name(bytes: &[u8]) -> bool
    ensures { IsTrue result ↔ IsMaybe IsTapeName bytes.now }
{
    TapeName::is_tape_name(bytes) || bytes.is_empty()
}

/// Whether these bytes are a server's name, or none.
pub fn is_maybe_host(bytes: &[u8]) -> bool
    ensures { IsTrue result ↔ IsMaybe IsHost bytes.now }
{
    Host::is_host(bytes) || bytes.is_empty()
}
