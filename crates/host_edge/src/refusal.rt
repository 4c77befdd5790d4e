//! What the system refused last, and how it is said.

use std::io::{self, Write};

/// A call on a file that the system refused.
#[derive(Debug, Drop)]
pub struct Refusal {
    /// The number of the file: 0 is the journal, k + 1 the tape of slot k.
    pub file: u32,
    /// What the system says of it.
    pub cause: io::Error,
}

/// Something whose calls the system may refuse.
pub trait Explains {
    /// Prints, as one line, the path that the call which was refused last was about, and what the system says of it; nothing where no
    /// call was refused.
    fn explain_fault<E: Write>(&self, errors: &mut E) -> io::Result<()>;
}

/// Media that know the paths of their files, and why their output took no more.
pub trait ExplainsMedia: Explains {
    /// Prints, as one line, that the opening made an empty journal; nothing where it was there.
    fn explain_made<E: Write>(&self, errors: &mut E) -> io::Result<()>;

    /// Prints, as one line, why the output took no more; nothing where it took all.
    fn explain_output<E: Write>(&self, errors: &mut E) -> io::Result<()>;

    /// Prints, as one line, the path of the journal, and the byte from which on it is no list of changes.
    fn explain_log<E: Write>(&self, errors: &mut E, at: u64) -> io::Result<()>;
}
