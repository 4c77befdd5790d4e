//! The forms of texts that stand behind their length in one byte.

ghost use Rattle.std.specs.Prelude.{◌≡◌, ◌≤◌};
ghost use Rattle.byte_formats.specs.Texts.{alphabet_of, most_of};

use bk_text::Alphabet;

/// Which names a text may be.
#[derive(Clone, Copy, Debug, PartialEq, Eq)]
pub enum Text {
    /// A volume's or a partition's name.
    Name,
    /// A server's name.
    Host,
    /// The name of a volume set.
    SetName,
    /// The name on a tape's label.
    TapeName,
    /// What the names of a dump's tapes begin with: a tape's name that has room for a number behind it.
    Base,
}

impl Text {
    /// Which bytes it may have.
    pub fn alphabet(self) -> Alphabet
        ensures { result ≡ alphabet_of self }
    {
        match self {
            Text::Name | Text::Host => Alphabet::Plain,
            Text::SetName => Alphabet::NoPeriod,
            Text::TapeName | Text::Base => Alphabet::AnyFirst,
        }
    }

    /// How many bytes it has at most.
    pub fn most(self) -> u8
        ensures is { result ≡ most_of self }
        ensures some { 1 ≤ result }
    {
        match self {
            Text::Name | Text::SetName => 31,
            Text::Host => 63,
            Text::TapeName => 80,
            Text::Base => 69,
        }
    }
}
