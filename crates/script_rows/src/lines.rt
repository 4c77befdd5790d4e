//! Lines that are printed.

/// Prints a line.
pub fn print_line(printed: &mut Vec<u8>, line: &str) -> anyhow::Result<()> {
    printed.extend_from_slice(line.as_bytes())?;
    printed.push(b'\n')?;
    Ok(())
}
