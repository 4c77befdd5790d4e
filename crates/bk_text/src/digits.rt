//! Numbers in decimal digits.

ghost use Rattle.std.specs.Prelude.{◌≡◌, ◌<◌, ◌≤◌, IfSome, MatchOption, min, true, false};
ghost use Rattle.std.specs.Str.{all_ascii_digits};
ghost use Rattle.std.specs.Str.Parse.{digits_value};
ghost use Rattle.bk_text.specs.Digits.{digits_of};

/// More than any number that is asked for.
const CAP: u64 = 10_000_000_000;

/// The number that a word of digits writes, or 10,000,000,000 where it is more; `None` where a byte is no digit. No digit at
/// all writes 0.
pub fn capped_number(word: &[u8]) -> Option<u64>
    ensures { MatchOption
        result
        (all_ascii_digits word.now ≡ false)
        (λ n. (all_ascii_digits word.now ≡ true) × (n ≡ min (digits_value 10 word.now) 10000000000)) }
{
    let mut number = 0;
    for byte in word {
        if !byte.is_ascii_digit() {
            return None;
        }
        number = CAP.min(number * 10 + (*byte - b'0') as u64);
    }
    Some(number)
}

/// The number that digits write, from so many to so many of them, at most nine.
pub fn digits_in(word: &[u8], least: usize, most: usize) -> Option<u32>
    requires { most ≤ 9 }
    ensures is { result ≡ digits_of least most word.now }
    ensures within { IfSome result (λ n. n < 1000000000) }
    ensures small { most ≤ 4 → IfSome result (λ n. n < 10000) }
{
    if word.len() < least || most < word.len() {
        return None;
    }
    let number = capped_number(word)?;
    Some(number as u32)
}

/// The number that digits write, from so many to so many of them, at most ten.
pub fn long_digits_in(word: &[u8], least: usize, most: usize) -> Option<u64>
    requires { most ≤ 10 }
    ensures is { result ≡ digits_of least most word.now }
    ensures within { IfSome result (λ n. n < 10000000000) }
{
    if word.len() < least || most < word.len() {
        return None;
    }
    capped_number(word)
}
