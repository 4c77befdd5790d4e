//! What a program opens at its start, in its order, and how it ends where something can't be opened.

ghost use Rattle.std.specs.Prelude.{◌≡◌, ℕ, Result, Ok, Err, MatchResult, Vec};
ghost use Rattle.std.specs.declared.alloc.Global.{Global};
ghost use Rattle.host_edge.specs.declared.fault.EdgeFault.{EdgeFault};
ghost use Rattle.host_edge.specs.Openings.{exit_number, OpensFirst};

use crate::fault::EdgeFault;
use thiserror::Error;

/// What a program opens.
#[derive(Clone, Copy, Debug, PartialEq, Eq)]
pub enum Place {
    /// The folder of the journal and the tapes, which is locked first.
    Media,
    /// The folder of the volumes.
    Cell,
    /// The configuration.
    Config,
}

/// What couldn't be opened, and why.
#[derive(Debug, Drop, Error)]
#[error("cannot open\n{fault}")]
pub struct Unopened {
    pub at: Place,
    pub fault: EdgeFault,
}

impl Unopened {
    /// The program's exit status: 4, 5 or 11 by the place, and 6 for want of memory.
    pub fn number(&self) -> u8
        ensures { result ≡ exit_number self.now }
    {
        match &self.fault {
            EdgeFault::Memory => 6,
            EdgeFault::Unreadable { .. } | EdgeFault::TooMany => match self.at {
                Place::Media => 4,
                Place::Cell => 5,
                Place::Config => 11,
            },
        }
    }
}

/// What a program opens at its start. An impl says what each call may answer, where it knows that.
pub trait Doors {
    type Lock: Drop;

    type Media: Drop;

    type Cell: Drop;

    /// What the calls may answer.
    ghost lock_answers: { Self → Result Self.Lock EdgeFault → Type 0 };

    ghost media_answers: { Self → Result Self.Media EdgeFault → Type 0 };

    ghost cell_answers: { Self → Result Self.Cell EdgeFault → Type 0 };

    ghost config_answers: { Self → Result (Vec ℕ Global) EdgeFault → Type 0 };

    /// Takes the folder of the media for this program.
    fn lock(&self) -> Result<Self::Lock, EdgeFault>
        ensures { lock_answers self.now result };

    /// Opens the media.
    fn media(&self) -> Result<Self::Media, EdgeFault>
        ensures { media_answers self.now result };

    /// Opens the cell.
    fn cell(&self) -> Result<Self::Cell, EdgeFault>
        ensures { cell_answers self.now result };

    /// Reads the configuration.
    fn config(&self) -> Result<Vec<u8>, EdgeFault>
        ensures { config_answers self.now result };
}

/// What a program has opened.
#[derive(Drop)]
pub struct Opened<L: Drop, M: Drop, C: Drop> {
    pub media: M,
    pub cell: C,
    pub config: Vec<u8>,
    pub lock: L,
}

/// The answer of a call at a place.
fn placed<T: Drop>(at: Place, answer: Result<T, EdgeFault>) -> Result<T, Unopened>
    ensures { MatchResult result (λ value. answer ≡ Ok value) (λ unopened. (answer ≡ Err unopened.fault) × (unopened.at ≡ at)) }
{
    match answer {
        Ok(value) => Ok(value),
        Err(fault) => Err(Unopened { at, fault }),
    }
}

/// Opens the lock, the media, the cell and the configuration, in this order, up to the first that fails. A lock that fails
/// is a fault of the media.
pub fn open_all<D: Doors>(doors: &D) -> Result<Opened<D::Lock, D::Media, D::Cell>, Unopened>
    ensures { OpensFirst (record { lock = D.lock_answers doors.now; media = D.media_answers doors.now; cell = D.cell_answers doors.now; config = D.config_answers doors.now }) result }
{
    let lock = placed(Place::Media, doors.lock())?;
    let media = placed(Place::Media, doors.media())?;
    let cell = placed(Place::Cell, doors.cell())?;
    let config = placed(Place::Config, doors.config())?;
    Ok(Opened {
        media,
        cell,
        config,
        lock,
    })
}
