//! Numbers and words in the table.

/// A decimal number below 2^32.
pub fn number(word: &str) -> anyhow::Result<u32> {
    match word.parse::<u32>() {
        Ok(number) => Ok(number),
        Err(_) => anyhow::bail!("{word} is no number below 2^32"),
    }
}

/// The first word of a text, and what stands behind it.
pub fn word(text: &str) -> (&str, &str) {
    match text.split_once(' ') {
        Some(words) => words,
        None => (text, ""),
    }
}

/// The number that is the first word of a text, and what stands behind it.
pub fn next_number(text: &str) -> anyhow::Result<(u32, &str)> {
    let (first, rest) = word(text);
    let number = number(first)?;
    Ok((number, rest))
}
