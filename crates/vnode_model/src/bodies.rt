//! The data of a vnode.

ghost use Rattle.std.specs.Prelude.{◌≡◌, [], length, drop, IfOk};

use bk_text::Bytes;
use std::alloc::{AllocError, Global};
use std::marker::Model;

/// The data of a vnode: bytes behind so many others, so that a reader may hand over what it has read in one piece, without a
/// copy.
#[derive(Debug, Drop)]
pub struct Body {
    bytes: Bytes,
    from: usize,
}

impl Model for Body {
    ghost use Rattle.std.specs.Prelude.{List, ℕ, ◌≤◌, length, drop};

    ghost Value = { List ℕ };

    ghost view = { λ a. drop a.from a.bytes };

    ghost invariant = { λ a. a.from ≤ length a.bytes };
}

impl Body {
    /// No data. It takes no memory.
    pub fn new(alloc: Global) -> Body
        ensures { result ≡ [] }
    {
        Body {
            bytes: Bytes::new(alloc),
            from: 0,
        }
    }

    /// The bytes from a place on; none where there are fewer. It takes no memory.
    pub fn behind(bytes: Bytes, from: usize) -> Body
        ensures { result ≡ drop from bytes }
    {
        let from = from.min(bytes.len());
        Body { bytes, from }
    }

    /// A copy of these bytes.
    pub fn from_slice(alloc: Global, bytes: &[u8]) -> Result<Body, AllocError>
        ensures { IfOk result (λ body. body ≡ bytes.now) }
    {
        Ok(Body {
            bytes: Bytes::from_slice(alloc, bytes)?,
            from: 0,
        })
    }

    /// The bytes.
    pub fn as_slice(&self) -> &[u8]
        ensures { result.now ≡ self.now }
    {
        &self.bytes.as_slice()[self.from..]
    }

    /// How many bytes there are.
    pub fn len(&self) -> usize
        ensures { result ≡ length self.now }
    {
        self.bytes.len() - self.from
    }

    /// The same data once more.
    pub fn copy(&self) -> Result<Body, AllocError>
        ensures { IfOk result (λ body. body ≡ self.now) }
    {
        Ok(Body {
            bytes: self.bytes.copy()?,
            from: self.from,
        })
    }
}
