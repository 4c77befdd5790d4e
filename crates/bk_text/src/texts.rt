//! Why a text has no form, and the test of a text against an alphabet.

ghost use Rattle.std.specs.Prelude.{◌≡◌};
ghost use Rattle.bk_text.specs.declared.texts.TextFault.TheVariants.{Memory};

use std::alloc::AllocError;
use thiserror::Error;

/// Why a text was refused.
#[derive(Clone, Copy, Debug, PartialEq, Eq, Drop, Error)]
pub enum TextFault {
    /// The text isn't of the form. `at` is the least number such that no text of the form begins with the first
    /// `at + 1` bytes, and the text's length where it begins one.
    #[error("the text is not of its form at byte {at}")]
    BadText { at: usize },
    /// Memory was refused.
    #[error("memory was refused")]
    Memory,
}

impl From<AllocError> for TextFault {
    ghost from_gives = { λ _ e. e ≡ Memory };

    fn from(_e: AllocError) -> TextFault {
        TextFault::Memory
    }
}
