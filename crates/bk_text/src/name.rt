//! A volume's name.

ghost use Rattle.std.specs.Prelude.{◌≡◌, ◌↔◌, IsTrue, IfOk};
ghost use Rattle.bk_text.specs.Alphabets.{IsName};
ghost use Rattle.bk_text.specs.Bases.{base_of};
ghost use Rattle.bk_text.specs.Parses.{Parses};
ghost use Rattle.bk_text.specs.Tests.{name_test};

use crate::list::Bytes;
use crate::texts::TextFault;
use crate::words::{Alphabet, fault_in, is_word};
use std::alloc::{AllocError, Global};
use std::marker::Model;

/// A volume's name: 1 to 31 bytes of 33 to 126 without `/`, the first one not `-`.
#[derive(Debug, Drop)]
pub struct Name {
    bytes: Bytes,
}

/// What the name of a backup volume ends in.
const BACKUP: &[u8] = b".backup";

fn base_part(name: &[u8]) -> &[u8]
    ensures { result.now ≡ base_of name.now }
{
    if name.len() > 7 && name.ends_with(BACKUP) {
        &name[..name.len() - 7]
    } else {
        name
    }
}

impl Model for Name {
    ghost use Rattle.std.specs.Prelude.{List, ℕ};
    ghost use Rattle.bk_text.specs.Alphabets.{IsName};

    ghost Value = { List ℕ };

    ghost view = { λ a. a.bytes };

    ghost invariant = { λ a. IsName a.bytes };
}

impl Clone for Name {
    ghost is_clone = { λ a b. b ≡ a };

    fn clone(&self) -> Result<Name, AllocError> {
        Ok(Name {
            bytes: self.bytes.copy()?,
        })
    }
}

impl Name {
    /// Whether these bytes are of the form.
    pub fn is_name(bytes: &[u8]) -> bool
        ensures form { IsTrue result ↔ IsName bytes.now }
        ensures test { result ≡ name_test bytes.now }
    {
        is_word(Alphabet::Plain, 31, bytes)
    }

    /// Reads a name.
    pub fn parse(alloc: Global, text: &[u8]) -> Result<Self, TextFault>
        ensures { Parses IsName text.now result }
    {
        match fault_in(Alphabet::Plain, 31, text) {
            Some(at) => Err(TextFault::BadText { at }),
            None => Ok(Name::from_bytes(alloc, text)?),
        }
    }

    /// The name of these bytes, which are of the form.
    pub fn from_bytes(alloc: Global, bytes: &[u8]) -> Result<Self, AllocError>
        requires { IsName bytes.now }
        ensures { IfOk result (λ kept. kept ≡ bytes.now) }
    {
        Ok(Name {
            bytes: Bytes::from_slice(alloc, bytes)?,
        })
    }

    /// Its bytes, which are of the form.
    pub fn bytes(&self) -> &[u8]
        ensures value { result.now ≡ self.now }
        ensures form { IsName self.now }
    {
        self.bytes.as_slice()
    }

    /// The name without a final `.backup`, which the name of a backup volume has; the whole where nothing else would
    /// be left. It takes no memory.
    pub fn base(&self) -> &[u8]
        ensures { result.now ≡ base_of self.now }
    {
        base_part(self.bytes.as_slice())
    }
}
