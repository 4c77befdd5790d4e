// The records of a tape.

/// The bytes of a block: 16,384, this project's own size.
pub type Block = [u8; 16384];

/// What a record of a tape is.
#[derive(Clone, Copy, Debug, PartialEq, Eq, Drop)]
pub enum Kind {
    /// A block of 16,384 bytes.
    Block,
    /// A mark.
    Mark,
    /// A record that can't be read: a torn put or foreign bytes left it.
    Bad,
}
