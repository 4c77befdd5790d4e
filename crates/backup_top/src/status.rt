//! How a run ended.

ghost use Rattle.std.specs.Prelude.{◌≡◌, None, Some, MatchOption};

/// How a run ended.
#[derive(Clone, Copy, Debug, PartialEq, Eq)]
pub enum Status {
    /// The input was read to its end, and no line told begins with `refused`.
    Done,
    /// The same, and some line told does.
    SomeRefused,
    /// The words aren't those of a mode; the usage line is told.
    Usage,
    /// A read of the source failed.
    ReadFault,
    /// A call on the journal or a tape failed.
    MediaFault,
    /// A call on the cell failed.
    CellFault,
    /// Memory was refused.
    Memory,
    /// The configuration is refused at this line.
    BadConfig { line: u32 },
    /// The journal is no list of changes from this byte on; 0 where its file is damaged.
    BadLog { at: u64 },
    /// The output took no more.
    OutputFault,
    /// The source gave more bytes than a run reads, with no end.
    ScriptTooLong,
}

impl Status {
    ghost use Rattle.backup_top.specs.Statuses.{status_number, line_of_status};

    /// The program's exit status.
    pub fn number(&self) -> u8
        ensures { result ≡ status_number self.now }
    {
        match self {
            Status::Done => 0,
            Status::SomeRefused => 1,
            Status::Usage => 2,
            Status::ReadFault => 3,
            Status::MediaFault => 4,
            Status::CellFault => 5,
            Status::Memory => 6,
            Status::BadConfig { .. } => 7,
            Status::BadLog { .. } => 8,
            Status::OutputFault => 9,
            Status::ScriptTooLong => 10,
        }
    }

    /// The line on standard error of a run that told nothing of how it ended. It takes no memory.
    pub fn line(&self) -> Option<&'static [u8]>
        ensures { MatchOption result (line_of_status self.now ≡ None) (λ text. line_of_status self.now ≡ Some text.now) }
    {
        match self {
            Status::Done | Status::SomeRefused | Status::Usage => None,
            Status::ReadFault => Some(b"the input could not be read\n"),
            Status::MediaFault => Some(b"a call on the journal or a tape failed\n"),
            Status::CellFault => Some(b"a call on the cell failed\n"),
            Status::Memory => Some(b"memory was refused\n"),
            Status::BadConfig { .. } => Some(b"the configuration has no known form\n"),
            Status::BadLog { .. } => Some(b"the journal is no list of changes\n"),
            Status::OutputFault => Some(b"the output took no more\n"),
            Status::ScriptTooLong => Some(b"the input is longer than it may be\n"),
        }
    }
}
