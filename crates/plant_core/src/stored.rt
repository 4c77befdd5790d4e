// Tapes that are kept in memory.
ghost use Rattle.std.specs.Prelude.{◌≡◌, ◌+◌, ◌-◌, ◌<◌, ◌≤◌, ◌==◌, ◌++◌, [], ◌∷◌, ℕ, length, take, OnOk, OnErr, IfOk, vec_len, if◌then◌else◌};
ghost use Rattle.plant_core.specs.Records.{Shows, ShowsAt, ShowsFirst};
ghost use Rattle.plant_core.specs.Tapes.{record_of, records_in, records_at};

use crate::record::{Block, Kind};
use std::alloc::{AllocError, Global};

/// A record in memory, where none is bad.
#[derive(Drop)]
pub enum Stored {
    Block(Box<Block>),
    Mark,
}

/// Shows a record: its kind, and its bytes in `into` where it is a block.
fn show(stored: &Stored, into: &mut Block) -> Kind
    ensures { Shows (record_of stored.now) result into.new }
{
    match stored {
        Stored::Block(bytes) => {
            *into = **bytes;
            Kind::Block
        }
        Stored::Mark => Kind::Mark,
    }
}

/// Shows a record of one tape.
fn show_one(tape: &Vec<Stored>, i: usize, into: &mut Block) -> Kind
    requires { i < vec_len tape.now }
    ensures { ShowsAt (records_in tape.now.items) i result into.new }
{
    show(&tape[i], into)
}

/// Shows a record of a tape.
pub fn show_at(tapes: &Vec<Vec<Stored>>, slot: usize, i: usize, into: &mut Block) -> Kind
    requires here { slot < vec_len tapes.now }
    requires within { i < length (records_at tapes.now.items slot) }
    ensures { ShowsAt (records_at tapes.now.items slot) i result into.new }
{
    show_one(&tapes[slot], i, into)
}

/// Shows the first record of one tape, where there is one.
fn show_front(tape: &Vec<Stored>, into: &mut Block) -> Option<Kind>
    ensures { ShowsFirst (records_in tape.now.items) result into.new }
{
    match tape.first() {
        Some(first) => Some(show(first, into)),
        None => None,
    }
}

/// Shows the first record of a tape, where there is one.
pub fn show_first(tapes: &Vec<Vec<Stored>>, slot: usize, into: &mut Block) -> Option<Kind>
    requires { slot < vec_len tapes.now }
    ensures { ShowsFirst (records_at tapes.now.items slot) result into.new }
{
    show_front(&tapes[slot], into)
}

/// How many records a tape has. There are none where no tape is.
pub fn count_in(tapes: &Vec<Vec<Stored>>, slot: usize) -> usize
    ensures { result ≡ length (records_at tapes.now.items slot) }
{
    match tapes.get(slot) {
        Some(tape) => tape.len(),
        None => 0,
    }
}

/// Puts a record on one tape. On an error it stays.
fn push_on(tape: &mut Vec<Stored>, stored: Stored) -> Result<(), AllocError>
    ensures ok { OnOk result (tape.new.items ≡ tape.old.items ++ stored ∷ []) }
    ensures err { OnErr result (tape.new.items ≡ tape.old.items) }
{
    match tape.push(stored) {
        Ok(()) => Ok(()),
        Err(_) => Err(AllocError),
    }
}

/// Puts a record on a tape. On an error all tapes stay.
pub fn push_in(tapes: &mut Vec<Vec<Stored>>, slot: usize, stored: Stored) -> Result<(), AllocError>
    requires { slot < vec_len tapes.old }
    ensures count { vec_len tapes.new ≡ vec_len tapes.old }
    ensures ok { OnOk result ((k : ℕ) → records_at tapes.new.items k ≡ (if k == slot then records_at tapes.old.items k ++ record_of stored ∷ [] else records_at tapes.old.items k)) }
    ensures err { OnErr result ((k : ℕ) → records_at tapes.new.items k ≡ records_at tapes.old.items k) }
{
    match push_on(&mut tapes[slot], stored) {
        Ok(()) => Ok(()),
        Err(error) => Err(error),
    }
}

/// Keeps the first records of a tape.
pub fn cut_in(tapes: &mut Vec<Vec<Stored>>, slot: usize, n: usize)
    requires { slot < vec_len tapes.old }
    ensures count { vec_len tapes.new ≡ vec_len tapes.old }
    ensures cut { (k : ℕ) → records_at tapes.new.items k ≡ (if k == slot then take n (records_at tapes.old.items k) else records_at tapes.old.items k) }
{
    tapes[slot].truncate(n);
}

/// Tapes without records.
pub fn blank_tapes(alloc: Global, count: u32) -> Result<Vec<Vec<Stored>>, AllocError>
    ensures count { IfOk result (λ tapes. vec_len tapes ≡ count) }
    ensures blank { IfOk result (λ tapes. (k : ℕ) → records_at tapes.items k ≡ []) }
{
    let mut tapes = Vec::new(alloc);
    for index in 0..count {
        tapes.push(Vec::new(alloc))?;
    }
    Ok(tapes)
}
