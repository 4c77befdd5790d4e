//! The kinds of frames.

ghost use Rattle.std.specs.Prelude.{◌≡◌};
ghost use Rattle.tape_frames.specs.Kinds.{head};

/// A kind of frame, in a version.
#[derive(Clone, Copy, Debug, PartialEq, Eq)]
pub enum Kind {
    /// Version 1, kind 1.
    Label,
    /// Version 1, kind 2: a dump's head that tells no uses.
    PlainHead,
    /// Version 2, kind 2.
    DumpHead,
    /// Version 1, kind 3.
    VolHead,
    /// Version 1, kind 4.
    Data,
    /// Version 1, kind 5.
    VolEnd,
    /// Version 1, kind 6.
    DumpEnd,
}

/// The first eight bytes of a kind's blocks.
pub fn head_of(kind: Kind) -> [u8; 8]
    ensures { result ≡ head kind }
{
    let (version, code) = match kind {
        Kind::Label => (1, 1),
        Kind::PlainHead => (1, 2),
        Kind::DumpHead => (2, 2),
        Kind::VolHead => (1, 3),
        Kind::Data => (1, 4),
        Kind::VolEnd => (1, 5),
        Kind::DumpEnd => (1, 6),
    };
    [b'A', b'F', b'S', b'T', version, code, 0, 0]
}
