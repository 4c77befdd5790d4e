//! What a command decides.

ghost use Rattle.std.specs.Prelude.{◌≡◌, [], ◌∷◌, IfOk};
ghost use Rattle.backup_replies.specs.Texts.{refused_word, refused_number, refused_numbers, ok_line};

use backup_replies::{Refusal, ok_line, refused_number, refused_numbers, refused_word};
use bk_text::{Bytes, List};
use budb_journal::Change;
use std::alloc::{AllocError, Global};

/// What a command decides by the database alone.
#[derive(Drop)]
pub enum Verdict {
    /// It is refused by this reply.
    Refuses(Bytes),
    /// It makes these changes, which are one commit, and has this reply then.
    Makes(List<Change>, Bytes),
    /// It makes the log short, by a checkpoint.
    Shortens,
    /// It shows this reply.
    Shows(Bytes),
}

/// Changes, with nothing to tell.
pub(crate) fn makes_all(alloc: Global, changes: List<Change>) -> Result<Verdict, AllocError>
    ensures { IfOk result (λ v. v ≡ Verdict.Makes changes ok_line) }
{
    Ok(Verdict::Makes(changes, ok_line(alloc)?))
}

/// One change, with nothing to tell.
pub(crate) fn makes(alloc: Global, change: Change) -> Result<Verdict, AllocError>
    ensures { IfOk result (λ v. v ≡ Verdict.Makes (change ∷ []) ok_line) }
{
    let mut changes = List::new(alloc);
    changes.push(change)?;
    makes_all(alloc, changes)
}

/// A refusal of a word.
pub(crate) fn refuses_word(
    alloc: Global,
    refusal: Refusal,
    word: &[u8],
) -> Result<Verdict, AllocError>
    ensures { IfOk result (λ v. v ≡ Verdict.Refuses (refused_word refusal word.now)) }
{
    Ok(Verdict::Refuses(refused_word(alloc, refusal, word)?))
}

/// A refusal of a number.
pub(crate) fn refuses_number(
    alloc: Global,
    refusal: Refusal,
    number: u64,
) -> Result<Verdict, AllocError>
    ensures { IfOk result (λ v. v ≡ Verdict.Refuses (refused_number refusal number)) }
{
    Ok(Verdict::Refuses(refused_number(alloc, refusal, number)?))
}

/// A refusal of two numbers.
pub(crate) fn refuses_numbers(
    alloc: Global,
    refusal: Refusal,
    first: u64,
    second: u64,
) -> Result<Verdict, AllocError>
    ensures { IfOk result (λ v. v ≡ Verdict.Refuses (refused_numbers refusal first second)) }
{
    Ok(Verdict::Refuses(refused_numbers(alloc, refusal, first, second)?))
}
