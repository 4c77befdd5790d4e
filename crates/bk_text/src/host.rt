//! A server's name.

ghost use Rattle.std.specs.Prelude.{◌≡◌, ◌↔◌, IsTrue, IfOk};
ghost use Rattle.bk_text.specs.Alphabets.{IsHost};
ghost use Rattle.bk_text.specs.Parses.{Parses};
ghost use Rattle.bk_text.specs.Tests.{host_test};

use crate::list::Bytes;
use crate::texts::TextFault;
use crate::words::{Alphabet, fault_in, is_word};
use std::alloc::{AllocError, Global};
use std::marker::Model;

/// A server's name: 1 to 63 bytes of 33 to 126 without `/`, the first one not `-`.
#[derive(Debug, Drop)]
pub struct Host {
    bytes: Bytes,
}

impl Model for Host {
    ghost use Rattle.std.specs.Prelude.{List, ℕ};
    ghost use Rattle.bk_text.specs.Alphabets.{IsHost};

    ghost Value = { List ℕ };

    ghost view = { λ a. a.bytes };

    ghost invariant = { λ a. IsHost a.bytes };
}

impl Clone for Host {
    ghost is_clone = { λ a b. b ≡ a };

    fn clone(&self) -> Result<Host, AllocError> {
        Ok(Host {
            bytes: self.bytes.copy()?,
        })
    }
}

impl Host {
    /// Whether these bytes are of the form.
    pub fn is_host(bytes: &[u8]) -> bool
        ensures form { IsTrue result ↔ IsHost bytes.now }
        ensures test { result ≡ host_test bytes.now }
    {
        is_word(Alphabet::Plain, 63, bytes)
    }

    /// Reads a server's name.
    pub fn parse(alloc: Global, text: &[u8]) -> Result<Self, TextFault>
        ensures { Parses IsHost text.now result }
    {
        match fault_in(Alphabet::Plain, 63, text) {
            Some(at) => Err(TextFault::BadText { at }),
            None => Ok(Host::from_bytes(alloc, text)?),
        }
    }

    /// The name of these bytes, which are of the form.
    pub fn from_bytes(alloc: Global, bytes: &[u8]) -> Result<Self, AllocError>
        requires { IsHost bytes.now }
        ensures { IfOk result (λ kept. kept ≡ bytes.now) }
    {
        Ok(Host {
            bytes: Bytes::from_slice(alloc, bytes)?,
        })
    }

    /// Its bytes, which are of the form.
    pub fn bytes(&self) -> &[u8]
        ensures value { result.now ≡ self.now }
        ensures form { IsHost self.now }
    {
        self.bytes.as_slice()
    }
}
