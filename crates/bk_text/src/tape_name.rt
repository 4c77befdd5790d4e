//! The name on a tape's label.

ghost use Rattle.std.specs.Prelude.{◌≡◌, ◌↔◌, IsTrue, IfOk};
ghost use Rattle.bk_text.specs.Alphabets.{IsTapeName};
ghost use Rattle.bk_text.specs.Parses.{Parses};
ghost use Rattle.bk_text.specs.Tests.{tape_name_test};

use crate::list::Bytes;
use crate::texts::TextFault;
use crate::words::{Alphabet, fault_in, is_word};
use std::alloc::{AllocError, Global};
use std::marker::Model;

/// The name on a tape's label: 1 to 80 bytes of 33 to 126 without `/`.
#[derive(Debug, Drop)]
pub struct TapeName {
    bytes: Bytes,
}

impl Model for TapeName {
    ghost use Rattle.std.specs.Prelude.{List, ℕ};
    ghost use Rattle.bk_text.specs.Alphabets.{IsTapeName};

    ghost Value = { List ℕ };

    ghost view = { λ a. a.bytes };

    ghost invariant = { λ a. IsTapeName a.bytes };
}

impl Clone for TapeName {
    ghost is_clone = { λ a b. b ≡ a };

    fn clone(&self) -> Result<TapeName, AllocError> {
        Ok(TapeName {
            bytes: self.bytes.copy()?,
        })
    }
}

impl TapeName {
    /// Whether these bytes are of the form.
    pub fn is_tape_name(bytes: &[u8]) -> bool
        ensures form { IsTrue result ↔ IsTapeName bytes.now }
        ensures test { result ≡ tape_name_test bytes.now }
    {
        is_word(Alphabet::AnyFirst, 80, bytes)
    }

    /// Reads a tape's name.
    pub fn parse(alloc: Global, text: &[u8]) -> Result<Self, TextFault>
        ensures { Parses IsTapeName text.now result }
    {
        match fault_in(Alphabet::AnyFirst, 80, text) {
            Some(at) => Err(TextFault::BadText { at }),
            None => Ok(TapeName::from_bytes(alloc, text)?),
        }
    }

    /// The name of these bytes, which are of the form.
    pub fn from_bytes(alloc: Global, bytes: &[u8]) -> Result<Self, AllocError>
        requires { IsTapeName bytes.now }
        ensures { IfOk result (λ kept. kept ≡ bytes.now) }
    {
        Ok(TapeName {
            bytes: Bytes::from_slice(alloc, bytes)?,
        })
    }

    /// Its bytes, which are of the form.
    pub fn bytes(&self) -> &[u8]
        ensures value { result.now ≡ self.now }
        ensures form { IsTapeName self.now }
    {
        self.bytes.as_slice()
    }
}
