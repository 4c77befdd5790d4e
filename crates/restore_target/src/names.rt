//! The name that a restored volume gets.

ghost use Rattle.std.specs.Prelude.{◌≡◌, IfOk};
ghost use Rattle.restore_target.specs.Targets.{target_text};

use bk_text::{Bytes, Name};
use std::alloc::{AllocError, Global};

/// The bytes of a volume's base name with an extension, where there is one. They may be too many for a name.
pub fn target_name(
    alloc: Global,
    name: &Name,
    extension: &Option<Bytes>,
) -> Result<Bytes, AllocError>
    ensures { IfOk result (λ text. text ≡ target_text name.now extension.now) }
{
    let mut text = Bytes::from_slice(alloc, name.base())?;
    if let Some(extension) = extension {
        text.extend_from_slice(extension.as_slice())?;
    }
    Ok(text)
}
