//! The refusals that the program tells. Numbers and names are this project's own.

ghost use Rattle.std.specs.Prelude.{◌≡◌};
ghost use Rattle.backup_top.specs.Refusals.{refusal_number, refusal_name};

/// A refusal, by its number and its name.
#[derive(Clone, Copy, Debug, PartialEq, Eq)]
pub enum Refusal {
    /// Bytes are no dump stream that this project reads.
    BadImage,
    /// Bytes end before the dump stream that they begin.
    CutStream,
}

impl Refusal {
    /// Its number.
    pub fn number(self) -> u8
        ensures { result ≡ refusal_number self }
    {
        match self {
            Refusal::BadImage => 85,
            Refusal::CutStream => 86,
        }
    }

    /// Its name.
    pub fn name(self) -> &'static [u8]
        ensures { result.now ≡ refusal_name self }
    {
        match self {
            Refusal::BadImage => b"BadImage",
            Refusal::CutStream => b"CutStream",
        }
    }
}
