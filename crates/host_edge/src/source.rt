//! A reader of the system as a source.

ghost use Rattle.std.specs.Prelude.{◌≡◌, ◌≤◌, length, IfOk};
ghost use Rattle.std.specs.Io.KnownBytes.{ReadConsumes};
ghost use Rattle.crash_moments.specs.Moments.{HasCause};

use crate::calls::read_again;
use crate::refusal::Explains;
use crash_moments::raised;
use media_core::{Failed, Source};
use std::io::{self, Read, Write};

/// A reader of the system as a source. What a system gives is not told; of a reader that knows its bytes, as a list in
/// memory does, a read gives the next ones, none is lost, and it gives none only at their end. A read that is refused takes
/// nothing and is counted, and no other one is.
#[derive(Drop)]
pub struct StdSource<R: Read + Drop> {
    reader: R,
    faults: u64,
    refused: Option<io::Error>,
}

impl<R: Read + Drop> StdSource<R> {
    /// No read was refused so far.
    pub fn new(reader: R) -> Self
        ensures faults { result.faults ≡ 0 }
        ensures reader { result.reader ≡ reader }
    {
        StdSource {
            reader,
            faults: 0,
            refused: None,
        }
    }
}

impl<R: Read + Drop> Source for StdSource<R> {
    ghost use Rattle.std.specs.Prelude.{[]};

    ghost tells = { ⊥ };

    ghost left = { λ s. [] };

    ghost faults = { λ s. s.faults };

    fn read(&mut self, into: &mut [u8]) -> Result<usize, Failed>
        ensures room { IfOk result (λ n. n ≤ length into.old) }
        ensures bytes { ReadConsumes (R.remaining self.old.reader) (R.remaining self.new.reader) result into.new }
        ensures cause { HasCause self.old.faults self.new.faults result }
    {
        match read_again(&mut self.reader, into) {
            Ok(count) => Ok(count),
            Err(cause) => {
                self.refused = Some(cause);
                self.faults = raised(self.faults);
                Err(Failed)
            }
        }
    }
}

impl<R: Read + Drop> Explains for StdSource<R> {
    fn explain_fault<E: Write>(&self, errors: &mut E) -> io::Result<()> {
        match &self.refused {
            None => Ok(()),
            Some(cause) => writeln!(errors, "standard input: {cause}"),
        }
    }
}
