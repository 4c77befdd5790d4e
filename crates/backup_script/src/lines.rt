//! Reading a script line by line.

ghost use Rattle.std.specs.Prelude.{◌≡◌, ◌+◌, ◌<◌, ◌≤◌, ◌∷◌, [], List, ℕ, length, Ok, Err, IfOk, OnErr, IsErr, MatchOption};
ghost use Rattle.backup_script.specs.Lines.{TakesLine};
ghost use Rattle.crash_moments.specs.Moments.{HasCauseAt};

use bk_text::Bytes;
use media_core::Source;
use std::alloc::Global;

/// The most bytes of a script (this project's own limit).
pub const MOST: usize = 16_777_216;

/// Why no line was read.
#[derive(Clone, Copy, Debug, PartialEq, Eq)]
pub enum LineStop {
    /// A read failed.
    Failed,
    /// More bytes came than a script may have.
    TooLong,
    /// Memory was refused.
    Memory,
}

/// The next of a script.
#[derive(Debug, Drop)]
pub enum Next {
    /// A line, without the line feed that ended it.
    Ended(Bytes),
    /// The last line, which no line feed ended; it has a byte.
    Last(Bytes),
    /// The end of the script.
    End,
}

/// Takes one byte of a source; none at its end.
fn take_byte<S: Source>(source: &mut S) -> Result<Option<u8>, LineStop>
    ensures took { S.tells → IfOk result (λ next. MatchOption next ((S.left source.old ≡ []) × (S.left source.new ≡ [])) (λ b. S.left source.old ≡ b ∷ S.left source.new)) }
    ensures failed { S.tells → IsErr result → S.left source.new ≡ S.left source.old }
    ensures stop { OnErr result (result ≡ Err LineStop.Failed) }
    ensures cause { HasCauseAt LineStop.Failed (S.faults source.old) (S.faults source.new) result }
{
    let mut one = [0u8; 1];
    match source.read(&mut one) {
        Err(_) => Err(LineStop::Failed),
        Ok(0) => Ok(None),
        Ok(_) => Ok(Some(one[0])),
    }
}

/// Takes the next line, and counts the bytes taken.
pub fn take_line<S: Source>(
    alloc: Global,
    source: &mut S,
    taken: &mut usize,
) -> Result<Next, LineStop>
    requires { taken.old ≤ 16777217 }
    ensures within { taken.new ≤ 16777217 }
    ensures some { (line : List ℕ) → result ≡ Ok (Next.Ended line) → taken.new ≡ taken.old + length line + 1 }
    ensures last { (line : List ℕ) → result ≡ Ok (Next.Last line) → (0 < length line) × (taken.new ≡ taken.old + length line) × (taken.new ≤ 16777216) }
    ensures end { result ≡ Ok Next.End → (taken.new ≡ taken.old) × (taken.new ≤ 16777216) }
    ensures long { result ≡ Err LineStop.TooLong → taken.new ≡ 16777217 }
    ensures took { S.tells → TakesLine (S.left source.old) (S.left source.new) result }
    ensures count { S.tells → length (S.left source.old) + taken.old ≡ length (S.left source.new) + taken.new }
    ensures cause { HasCauseAt LineStop.Failed (S.faults source.old) (S.faults source.new) result }
{
    let mut line = Bytes::new(alloc);
    while *taken <= MOST {
        match take_byte(source) {
            Err(stop) => return Err(stop),
            Ok(None) => {
                if line.is_empty() {
                    return Ok(Next::End);
                }
                return Ok(Next::Last(line));
            }
            Ok(Some(byte)) => {
                *taken += 1;
                if byte == b'\n' {
                    return Ok(Next::Ended(line));
                }
                if line.push(byte).is_err() {
                    return Err(LineStop::Memory);
                }
            }
        }
    }
    Err(LineStop::TooLong)
}
