//! What the program's words ask for.

ghost use Rattle.std.specs.Prelude.{◌≡◌, ◌≤◌, ℕ, Some, IfOk, map};
ghost use Rattle.backup_top.specs.declared.words.Asked.TheVariants.{Rehearse as RehearseAsked};
ghost use Rattle.std.specs.String.{string_bytes};
ghost use Rattle.backup_top.specs.Words.{asked_of, asked};

use backup_words::{Mode, OuterFault, outer};
use std::alloc::{AllocError, Global};

/// The words as texts.
fn texts_of<'a>(alloc: Global, words: &'a [String]) -> Result<Vec<&'a str>, AllocError>
    ensures { IfOk result (λ texts. map (λ s. s.now) texts.items ≡ map string_bytes words.now) }
{
    let mut texts = Vec::new(alloc);
    for word in words {
        texts.push(word.as_str())?;
    }
    Ok(texts)
}

/// What the program's words ask for.
#[derive(Clone, Copy, Debug, PartialEq, Eq, Drop)]
pub enum Asked {
    /// To run a script.
    Run,
    /// To tell a dump stream.
    Examine,
    /// To rehearse with so many volumes.
    Rehearse(u32),
    /// Nothing: they aren't those of a mode.
    Nothing,
}

fn of_mode(mode: Mode) -> Asked
    ensures { result ≡ asked_of (Some mode) }
{
    match mode {
        Mode::Run => Asked::Run,
        Mode::Examine => Asked::Examine,
        Mode::Rehearse(volumes) => Asked::Rehearse(volumes),
    }
}

/// What the words ask for.
#[tactic(auto, using(crate::proofs::WordLaws::few_volumes))]
pub fn asked_by(alloc: Global, words: &Vec<String>) -> Result<Asked, AllocError>
    ensures is { IfOk result (λ mode. mode ≡ asked words.now.items) }
    ensures few { (n : ℕ) → asked words.now.items ≡ RehearseAsked n → n ≤ 200 }
{
    let texts = texts_of(alloc, words.as_slice())?;
    match outer(alloc, texts.as_slice()) {
        Ok(mode) => Ok(of_mode(mode)),
        Err(OuterFault::Usage) => Ok(Asked::Nothing),
        Err(OuterFault::Memory) => Err(AllocError),
    }
}
