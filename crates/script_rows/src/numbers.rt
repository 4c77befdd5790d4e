//! Numbers in the table.

use std::alloc::Global;

/// A decimal number.
pub fn number(word: &str) -> anyhow::Result<u64> {
    match word.parse::<u64>() {
        Ok(number) => Ok(number),
        Err(_) => anyhow::bail!("{word} is no number"),
    }
}

/// A decimal number below 2^32.
pub fn small_number(word: &str) -> anyhow::Result<u32> {
    match word.parse::<u32>() {
        Ok(number) => Ok(number),
        Err(_) => anyhow::bail!("{word} is no number below 2^32"),
    }
}

/// A decimal number below 256.
pub fn small_byte(word: &str) -> anyhow::Result<u8> {
    match word.parse::<u8>() {
        Ok(number) => Ok(number),
        Err(_) => anyhow::bail!("{word} is no number below 256"),
    }
}

/// The words of a text, parted by spaces.
pub fn two_words(text: &str) -> anyhow::Result<(&str, &str)> {
    match text.split_once(' ') {
        Some(words) => Ok(words),
        None => anyhow::bail!("{text} is one word where two are wanted"),
    }
}

/// Bytes in hexadecimal, parted by spaces.
pub fn bytes(alloc: Global, text: &str) -> anyhow::Result<Vec<u8>> {
    let mut bytes = Vec::new(alloc);
    for word in text.split_whitespace() {
        match u8::from_str_radix(word, 16) {
            Ok(byte) => bytes.push(byte)?,
            Err(_) => anyhow::bail!("{word} is no byte"),
        }
    }
    Ok(bytes)
}
