//! A volume set's name.

ghost use Rattle.std.specs.Prelude.{◌≡◌, ◌↔◌, IsTrue, IfOk, nat_eq};
ghost use Rattle.std.specs.Hash as fed;
ghost use Rattle.std.specs.Cmp.Lexicographic.{pointwise, nat_list_eq_equiv};
ghost use Rattle.std.specs.Cmp.{partial_equiv_from_equiv};
ghost use Rattle.std.specs.Cmp.Rules.{hashing};
ghost use Rattle.std.proofs.Common.{rules};
ghost use Rattle.bk_text.specs.Alphabets.{IsSetName};
ghost use Rattle.bk_text.specs.Parses.{Parses};
ghost use Rattle.bk_text.specs.Tests.{set_name_test};

use crate::list::Bytes;
use crate::texts::TextFault;
use crate::words::{Alphabet, fault_in, is_word};
use std::alloc::{AllocError, Global};
use std::hash::{Hash, Hasher};
use std::marker::Model;

/// A volume set's name: 1 to 31 bytes of 33 to 126 without `/` and period, the first one not `-`. A dump is named
/// by its set, a period and the last element of its level.
#[derive(Debug, Drop)]
pub struct SetName {
    bytes: Bytes,
}

impl Model for SetName {
    ghost use Rattle.std.specs.Prelude.{List, ℕ};
    ghost use Rattle.bk_text.specs.Alphabets.{IsSetName};

    ghost Value = { List ℕ };

    ghost view = { λ a. a.bytes };

    ghost invariant = { λ a. IsSetName a.bytes };
}

impl Clone for SetName {
    ghost is_clone = { λ a b. b ≡ a };

    fn clone(&self) -> Result<SetName, AllocError> {
        Ok(SetName {
            bytes: self.bytes.copy()?,
        })
    }
}

impl PartialEq for SetName {
    ghost eq = { pointwise nat_eq };

    ghost laws = { partial_equiv_from_equiv nat_list_eq_equiv };

    fn eq(&self, other: &SetName) -> bool {
        self.bytes() == other.bytes()
    }
}

impl Eq for SetName {
    ghost laws = { nat_list_eq_equiv };
}

impl Hash for SetName {
    ghost hash_input = { fed.slice fed.u8 };

    ghost respects_eq = { Prim.search (hashing, rules) };

    fn hash<H: Hasher>(&self, state: &mut H) {
        self.bytes().hash(state);
    }
}

impl SetName {
    /// Whether these bytes are of the form.
    pub fn is_set_name(bytes: &[u8]) -> bool
        ensures form { IsTrue result ↔ IsSetName bytes.now }
        ensures test { result ≡ set_name_test bytes.now }
    {
        is_word(Alphabet::NoPeriod, 31, bytes)
    }

    /// Reads a volume set's name.
    pub fn parse(alloc: Global, text: &[u8]) -> Result<Self, TextFault>
        ensures { Parses IsSetName text.now result }
    {
        match fault_in(Alphabet::NoPeriod, 31, text) {
            Some(at) => Err(TextFault::BadText { at }),
            None => Ok(SetName::from_bytes(alloc, text)?),
        }
    }

    /// The name of these bytes, which are of the form.
    pub fn from_bytes(alloc: Global, bytes: &[u8]) -> Result<Self, AllocError>
        requires { IsSetName bytes.now }
        ensures { IfOk result (λ kept. kept ≡ bytes.now) }
    {
        Ok(SetName {
            bytes: Bytes::from_slice(alloc, bytes)?,
        })
    }

    /// Its bytes, which are of the form.
    pub fn bytes(&self) -> &[u8]
        ensures value { result.now ≡ self.now }
        ensures form { IsSetName self.now }
    {
        self.bytes.as_slice()
    }
}
