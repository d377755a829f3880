//! Pieces of text: what a line begins with, and what is put at the end of what is said.
use grind_outside::{List, Memory};
use std::alloc::Global;

/// The first word and what stands after the space after it.
pub fn split(line: &str) -> (&str, &str) {
    match line.split_once(' ') {
        Some((word, rest)) => (word, rest),
        None => (line, ""),
    }
}

/// Puts a text at the end.
pub fn put(said: &mut List<u8>, text: &str) -> Result<(), Memory> {
    said.extend(text.as_bytes())?;
    Ok(())
}

/// Puts bytes at the end, with their name and their number before them, and a line feed after them where they do not end with one.
pub fn show_part(
    alloc: Global,
    name: &str,
    bytes: &List<u8>,
    said: &mut List<u8>,
) -> Result<(), Memory> {
    let Some(last) = bytes.as_slice().last() else {
        return Ok(());
    };
    let line = format!(in alloc; "{name}, {} bytes\n", bytes.len())?;
    put(said, line.as_str())?;
    said.extend(bytes.as_slice())?;
    if *last != b'\n' {
        said.push(b'\n')?;
    }
    Ok(())
}
