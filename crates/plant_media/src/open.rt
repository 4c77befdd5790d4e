// How a plant over a media isn't opened.

use thiserror::Error;

/// Why a plant wasn't opened.
#[derive(Clone, Copy, Debug, PartialEq, Eq, Drop, Error)]
pub enum OpenFault {
    /// A call of the media was refused: its count of faults rose.
    #[error("a call of the media failed")]
    Failed,
    /// The journal's file is damaged. `at` is 0.
    #[error("the journal is damaged at byte {at}")]
    BadLog { at: u64 },
}

/// A plant that wasn't opened, with the media as the reading calls left it.
#[derive(Drop)]
pub struct Unopened<M> {
    pub fault: OpenFault,
    pub media: M,
}
