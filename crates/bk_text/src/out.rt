//! Writing big-endian number fields.

ghost use Rattle.std.specs.Prelude.{◌≡◌, ◌++◌, ◌∷◌, [], length, OnOk, OnErr};
ghost use Rattle.std.specs.Int.{w16, w32, w64, to_be_bytes};

use crate::list::Bytes;
use crate::numbers::{bytes_of_u16, bytes_of_u32, bytes_of_u64};
use std::alloc::{AllocError, Global};
use std::marker::Model;

/// Bytes that are written at the end, number fields with the most significant byte first. Where memory is refused a
/// call writes nothing.
#[derive(Debug, Drop)]
pub struct Out {
    bytes: Bytes,
}

impl Model for Out {
    ghost use Rattle.std.specs.Prelude.{List, ℕ};

    ghost Value = { List ℕ };

    ghost view = { λ a. a.bytes };
}

impl Out {
    /// Nothing is written. It takes no memory.
    pub fn new(alloc: Global) -> Self
        ensures { result ≡ [] }
    {
        Out {
            bytes: Bytes::new(alloc),
        }
    }

    /// Writes bytes.
    pub fn piece(&mut self, v: &[u8]) -> Result<(), AllocError>
        ensures ok { OnOk result (self.new ≡ self.old ++ v.now) }
        ensures err { OnErr result (self.new ≡ self.old) }
    {
        self.bytes.extend_from_slice(v)?;
        Ok(())
    }

    /// Writes a byte.
    pub fn byte(&mut self, v: u8) -> Result<(), AllocError>
        ensures ok { OnOk result (self.new ≡ self.old ++ v ∷ []) }
        ensures err { OnErr result (self.new ≡ self.old) }
    {
        self.bytes.push(v)?;
        Ok(())
    }

    /// Writes a number of two bytes.
    pub fn two(&mut self, v: u16) -> Result<(), AllocError>
        ensures ok { OnOk result (self.new ≡ self.old ++ to_be_bytes w16 v) }
        ensures err { OnErr result (self.new ≡ self.old) }
    {
        self.piece(&bytes_of_u16(v))?;
        Ok(())
    }

    /// Writes a number of four bytes.
    pub fn four(&mut self, v: u32) -> Result<(), AllocError>
        ensures ok { OnOk result (self.new ≡ self.old ++ to_be_bytes w32 v) }
        ensures err { OnErr result (self.new ≡ self.old) }
    {
        self.piece(&bytes_of_u32(v))?;
        Ok(())
    }

    /// Writes a number of eight bytes.
    pub fn eight(&mut self, v: u64) -> Result<(), AllocError>
        ensures ok { OnOk result (self.new ≡ self.old ++ to_be_bytes w64 v) }
        ensures err { OnErr result (self.new ≡ self.old) }
    {
        self.piece(&bytes_of_u64(v))?;
        Ok(())
    }

    /// What was written so far.
    pub fn as_slice(&self) -> &[u8]
        ensures { result.now ≡ self.now }
    {
        self.bytes.as_slice()
    }

    /// All that was written. It takes no memory.
    pub fn into_bytes(self) -> Bytes
        ensures { result ≡ self }
    {
        let Out { bytes } = self;
        bytes
    }
}
