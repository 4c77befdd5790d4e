//! The path of a dump level.

ghost use Rattle.std.specs.Prelude.{◌≡◌, ◌↔◌, ◌<◌, ◌++◌, ◌∷◌, ◌==◌, [], List, ℕ, length, IsTrue, IfOk, MatchOption};
ghost use Rattle.std.specs.List.{count_by};
ghost use Rattle.bk_text.specs.LevelPaths.{IsLevelPath, IsPathOf, IsAbove, IsLastSlash, MayFollow};
ghost use Rattle.bk_text.specs.Parses.{Parses};
ghost use Rattle.bk_text.specs.Places.{FailsAt};
ghost use Rattle.bk_text.specs.Tests.{level_path_test};

use crate::list::Bytes;
use crate::texts::TextFault;
use crate::words::{Alphabet, is_allowed};
use std::alloc::{AllocError, Global};
use std::marker::Model;

/// The path of a dump level: one element or more, each a `/` and 1 to 28 bytes of 33 to 126 without `/`, and at most
/// 256 bytes in all. The limits are this project's own choice.
#[derive(Debug, Drop)]
pub struct LevelPath {
    bytes: Bytes,
}

/// Whether a byte may follow at a place of a path, where the element there has so many bytes so far.
fn may_follow(count: usize, at: usize, byte: u8) -> bool
    ensures { IsTrue result ↔ MayFollow count at byte }
{
    if byte == b'/' {
        count > 0 && at < 255
    } else {
        count < 28 && at < 256 && is_allowed(Alphabet::AnyFirst, byte)
    }
}

/// Where a text stops being the path of a level; `None` where it is one.
fn fault_in_path(text: &[u8]) -> Option<usize>
    ensures { MatchOption result (IsLevelPath text.now) (λ at. FailsAt IsLevelPath text.now at) }
{
    if text.is_empty() {
        return Some(0);
    }
    if text[0] != b'/' {
        return Some(0);
    }
    let mut count = 0;
    for at in 1..text.len() {
        let byte = text[at];
        if !may_follow(count, at, byte) {
            return Some(at);
        }
        count = if byte == b'/' { 0 } else { count + 1 };
    }
    if count == 0 { Some(text.len()) } else { None }
}

/// Where the last slash of a path stands.
fn last_slash(path: &[u8]) -> usize
    requires { IsLevelPath path.now }
    ensures within { result < length path.now }
    ensures last { IsLastSlash path.now result }
{
    let mut at = path.len() - 1;
    while path[at] != b'/' {
        at -= 1;
    }
    at
}

/// How many slashes a text has.
fn slashes_in(text: &[u8]) -> usize
    ensures { result ≡ count_by (λ b. b == 47) text.now }
{
    let mut count = 0;
    for byte in text {
        if *byte == b'/' {
            count += 1;
        }
    }
    count
}

impl Model for LevelPath {
    ghost use Rattle.std.specs.Prelude.{List, ℕ};
    ghost use Rattle.bk_text.specs.LevelPaths.{IsLevelPath};

    ghost Value = { List ℕ };

    ghost view = { λ a. a.bytes };

    ghost invariant = { λ a. IsLevelPath a.bytes };
}

impl Clone for LevelPath {
    ghost is_clone = { λ a b. b ≡ a };

    fn clone(&self) -> Result<LevelPath, AllocError> {
        Ok(LevelPath {
            bytes: self.bytes.copy()?,
        })
    }
}

impl LevelPath {
    /// Whether these bytes are of the form.
    #[tactic(auto, using(crate::proofs::TestLaws::no_path_fault))]
    pub fn is_level_path(bytes: &[u8]) -> bool
        ensures form { IsTrue result ↔ IsLevelPath bytes.now }
        ensures test { result ≡ level_path_test bytes.now }
    {
        fault_in_path(bytes).is_none()
    }

    /// Reads a level's path.
    pub fn parse(alloc: Global, text: &[u8]) -> Result<Self, TextFault>
        ensures { Parses IsLevelPath text.now result }
    {
        match fault_in_path(text) {
            Some(at) => Err(TextFault::BadText { at }),
            None => Ok(LevelPath::from_bytes(alloc, text)?),
        }
    }

    /// The path of these bytes, which are of the form.
    pub fn from_bytes(alloc: Global, bytes: &[u8]) -> Result<Self, AllocError>
        requires { IsLevelPath bytes.now }
        ensures { IfOk result (λ kept. kept ≡ bytes.now) }
    {
        Ok(LevelPath {
            bytes: Bytes::from_slice(alloc, bytes)?,
        })
    }

    /// Its bytes, which are of the form.
    pub fn bytes(&self) -> &[u8]
        ensures value { result.now ≡ self.now }
        ensures form { IsLevelPath self.now }
    {
        self.bytes.as_slice()
    }

    /// The last element, without its slash. It takes no memory.
    pub fn last(&self) -> &[u8]
        ensures { (elements : List (List ℕ)) (last : List ℕ) → IsPathOf (elements ++ last ∷ []) self.now → result.now ≡ last }
    {
        let path = self.bytes.as_slice();
        &path[last_slash(path) + 1..]
    }

    /// The number of elements. It takes no memory.
    pub fn depth(&self) -> usize
        ensures { (elements : List (List ℕ)) → IsPathOf elements self.now → result ≡ length elements }
    {
        slashes_in(self.bytes.as_slice())
    }

    /// The path without its last element; `None` where there is one element.
    pub fn above(&self) -> Result<Option<LevelPath>, AllocError>
        ensures { (elements : List (List ℕ)) (last : List ℕ) → IsPathOf (elements ++ last ∷ []) self.now → IfOk result (IsAbove elements) }
    {
        let at = last_slash(self.bytes.as_slice());
        if at == 0 {
            return Ok(None);
        }
        let mut bytes = self.bytes.copy()?;
        bytes.truncate(at);
        Ok(Some(LevelPath { bytes }))
    }
}
