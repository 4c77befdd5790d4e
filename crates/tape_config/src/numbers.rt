//! The numbers of a configuration.

ghost use Rattle.std.specs.Prelude.{◌≡◌, ◌<◌, ◌≤◌, IfSome};
ghost use Rattle.tape_config.specs.Numbers.{count_of, plain_of, unit_of, size_of};

use bk_text::{capped_number, digits_in};

/// What either size of a tape is reduced to.
const MOST: u64 = 4_000_000_000;

/// A number of one to nine digits.
fn count_in(word: &[u8]) -> Option<u64>
    ensures is { result ≡ count_of word.now }
    ensures within { IfSome result (λ n. n < 1000000000) }
{
    let number = digits_in(word, 1, 9)?;
    Some(number as u64)
}

/// A number up to a limit, without leading zeros.
pub fn plain_in(word: &[u8], most: u32) -> Option<u32>
    requires { most ≤ 65535 }
    ensures is { result ≡ plain_of most word.now }
    ensures within { IfSome result (λ n. n ≤ most) }
{
    if word.is_empty() || (word.len() > 1 && word[0] == b'0') {
        return None;
    }
    let number = capped_number(word)?;
    if number > most as u64 {
        return None;
    }
    Some(number as u32)
}

fn unit_in(byte: u8) -> Option<u64>
    ensures { result ≡ unit_of byte }
{
    match byte {
        b'k' | b'K' => Some(1 << 10),
        b'm' | b'M' => Some(1 << 20),
        b'g' | b'G' => Some(1 << 30),
        b't' | b'T' => Some(1 << 40),
        _ => None,
    }
}

/// A size in bytes, with its unit, reduced.
pub fn size_in(word: &[u8]) -> Option<u64>
    ensures { result ≡ size_of word.now }
{
    let last = *word.last()?;
    let (digits, unit) = match unit_in(last) {
        Some(unit) => (&word[..word.len() - 1], unit),
        None => (word, 1),
    };
    let number = count_in(digits)?;
    Some(number.saturating_mul(unit).min(MOST))
}
