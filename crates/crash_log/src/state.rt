// What is known of a log's file.
ghost use Rattle.std.specs.Prelude.{◌≡◌, ◌≤◌};
ghost use Rattle.crash_log.specs.Log.{successor};

/// Where the log's bytes may begin: behind the two slots.
pub const SLOTS: u64 = 8192;

/// How long a slot is: the first one begins at 0, the second one here.
pub const SLOT: u64 = 4096;

/// The first byte of a slot that is open. With any other it is closed.
pub const OPEN: u8 = 1;

/// The byte that closes a slot.
pub const CLOSED: u8 = 0;

/// The greatest start of a good slot.
pub const MOST_START: u64 = 1 << 40;

/// The greatest size of a good slot.
pub const MOST_SIZE: u64 = 1 << 38;

/// What has to be done to the file before the first put, commit, cut or replace: nothing; formatting, of a blank file or of
/// a damaged one, of which is said which gates are 1; or closing the other gate, which is 1 though its slot isn't good.
#[derive(Clone, Copy, Debug)]
pub enum Needs {
    Nothing,
    Blank,
    Damaged { first_open: bool, second_open: bool },
    Stale,
}

/// The file's number and the log's limit in bytes; what has to be done first; which slot is the current one and what its
/// fields say; how many bytes were put since; and whether the other slot is open.
#[derive(Clone, Copy, Debug)]
pub struct LogState {
    pub file: u32,
    pub limit: u64,
    pub needs: Needs,
    pub second: bool,
    pub turn: u8,
    pub start: u64,
    pub size: u64,
    pub more: u64,
    pub other_open: bool,
}

impl LogState {
    ghost use Rattle.crash_log.specs.State.{base_of, other_of, moved_to};

    /// Where the other slot begins.
    pub fn other(&self) -> u64
        ensures { result ≡ other_of self.now }
    {
        if self.second { 0 } else { SLOT }
    }

    /// The state once the other slot is the current one, at this place.
    pub fn moved(&self, start: u64, size: u64) -> LogState
        requires { self.now.turn ≤ 2 }
        ensures { result ≡ moved_to self.now (record { turn = successor self.now.turn; start = start; size = size }) }
    {
        LogState {
            file: self.file,
            limit: self.limit,
            needs: Needs::Nothing,
            second: !self.second,
            turn: following(self.turn),
            start,
            size,
            more: 0,
            other_open: true,
        }
    }
}

/// The turn after this one.
pub fn following(turn: u8) -> u8
    requires { turn ≤ 2 }
    ensures { result ≡ successor turn }
{
    if turn == 2 { 0 } else { turn + 1 }
}
