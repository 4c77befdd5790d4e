//! The first byte of a text that doesn't fit its alphabet or its length.

ghost use Rattle.std.specs.Prelude.{◌≡◌, ◌<◌, ◌↔◌, IsTrue, MatchOption};
ghost use Rattle.bk_text.specs.Places.{FailsAt};
ghost use Rattle.bk_text.specs.Tests.{word_test};
ghost use Rattle.bk_text.specs.Words.{Allowed, AllowedFirst, IsWordOf, MayStand};

/// Which bytes a text may have.
#[derive(Clone, Copy, Debug, PartialEq, Eq)]
pub enum Alphabet {
    /// Those of a name, and no dash at the front.
    Plain,
    /// The same without a period.
    NoPeriod,
    /// Those of a name, and any of them at the front.
    AnyFirst,
    /// Each byte of 33 to 126.
    Printable,
}

/// Whether a text of the alphabet may have this byte behind its first one.
pub fn is_allowed(alphabet: Alphabet, byte: u8) -> bool
    ensures { IsTrue result ↔ Allowed alphabet byte }
{
    let printable = 32 < byte && byte < 127;
    match alphabet {
        Alphabet::Plain | Alphabet::AnyFirst => printable && byte != b'/',
        Alphabet::NoPeriod => printable && byte != b'/' && byte != b'.',
        Alphabet::Printable => printable,
    }
}

fn is_allowed_first(alphabet: Alphabet, byte: u8) -> bool
    ensures { IsTrue result ↔ AllowedFirst alphabet byte }
{
    match alphabet {
        Alphabet::Plain | Alphabet::NoPeriod => byte != b'-',
        Alphabet::AnyFirst | Alphabet::Printable => true,
    }
}

/// Whether a byte may stand at this place of a text of at most so many bytes.
pub fn may_stand(alphabet: Alphabet, most: usize, at: usize, byte: u8) -> bool
    ensures { IsTrue result ↔ MayStand alphabet most at byte }
{
    at < most && is_allowed(alphabet, byte) && (at > 0 || is_allowed_first(alphabet, byte))
}

/// Where a text stops being 1 to `most` bytes of an alphabet; `None` where it is that.
pub fn fault_in(alphabet: Alphabet, most: usize, text: &[u8]) -> Option<usize>
    requires { 0 < most }
    ensures { MatchOption result (IsWordOf alphabet most text.now) (λ at. FailsAt (IsWordOf alphabet most) text.now at) }
{
    for (at, byte) in text.iter().enumerate() {
        if !may_stand(alphabet, most, at, *byte) {
            return Some(at);
        }
    }
    if text.is_empty() { Some(0) } else { None }
}

/// Whether a text is 1 to `most` bytes of an alphabet.
#[tactic(auto, using(crate::proofs::TestLaws::no_fault))]
pub fn is_word(alphabet: Alphabet, most: usize, text: &[u8]) -> bool
    requires { 0 < most }
    ensures form { IsTrue result ↔ IsWordOf alphabet most text.now }
    ensures test { result ≡ word_test alphabet most text.now }
{
    fault_in(alphabet, most, text).is_none()
}
