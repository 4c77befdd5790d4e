//! The bytes of a volume entry's pattern.

ghost use Rattle.std.specs.Prelude.{◌≡◌, ◌↔◌, IsTrue, IfOk};
ghost use Rattle.budb_changes.specs.Printable.{IsPatternBytes};

use bk_text::{Alphabet, Bytes, fault_in};
use std::alloc::{AllocError, Global};
use std::marker::Model;

/// The pattern of a volume entry as the journal has it: 1 to 128 bytes of 33 to 126, whether or not they are a pattern.
#[derive(Debug, Drop)]
pub struct PatternBytes {
    bytes: Bytes,
}

impl Model for PatternBytes {
    ghost use Rattle.std.specs.Prelude.{List, ℕ};
    ghost use Rattle.budb_changes.specs.Printable.{IsPatternBytes};

    ghost Value = { List ℕ };

    ghost view = { λ a. a.bytes };

    ghost invariant = { λ a. IsPatternBytes a.bytes };
}

impl Clone for PatternBytes {
    ghost is_clone = { λ a b. b ≡ a };

    fn clone(&self) -> Result<PatternBytes, AllocError> {
        Ok(PatternBytes {
            bytes: self.bytes.copy()?,
        })
    }
}

impl PatternBytes {
    /// Whether these bytes are of the form.
    pub fn is_pattern_bytes(bytes: &[u8]) -> bool
        ensures { IsTrue result ↔ IsPatternBytes bytes.now }
    {
        fault_in(Alphabet::Printable, 128, bytes).is_none()
    }

    /// The pattern of these bytes, which are of the form.
    pub fn from_bytes(alloc: Global, bytes: &[u8]) -> Result<Self, AllocError>
        requires { IsPatternBytes bytes.now }
        ensures { IfOk result (λ kept. kept ≡ bytes.now) }
    {
        Ok(PatternBytes {
            bytes: Bytes::from_slice(alloc, bytes)?,
        })
    }

    /// Its bytes, which are of the form.
    pub fn bytes(&self) -> &[u8]
        ensures value { result.now ≡ self.now }
        ensures form { IsPatternBytes self.now }
    {
        self.bytes.as_slice()
    }
}
