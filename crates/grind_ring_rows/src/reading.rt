//! The lines of the file of cases, and the files that they name.
use crate::Trouble;
use grind_outside::{FileShelf, ReadRefusal, Shelf};
use std::alloc::Global;
use std::rt::Files;
use std::str;

/// No file has more bytes.
const LONGEST: u64 = 1_000_000;

/// How the equations are taken.
#[derive(Clone, Copy, PartialEq, Eq)]
pub enum Taken {
    /// As equalities, whose sides stay in their classes.
    Apart,
    /// As equalities, whose sides are put into one class.
    Joined,
    /// As polynomials that are 0.
    Zeros,
}

/// A case.
#[derive(Clone, Copy)]
pub struct Case<'a> {
    /// The theory file.
    pub name: &'a str,
    /// How many normal forms may join.
    pub limit: u32,
    /// How the equations are taken.
    pub taken: Taken,
}

/// The case of a line, if it is one.
pub fn case_of(line: &str) -> Option<Case<'_>> {
    let (name, rest) = line.split_once(' ')?;
    let (number, word) = rest.split_once(' ')?;
    let Ok(limit) = number.parse::<u32>() else {
        return None;
    };
    let taken = match word {
        "apart" => Taken::Apart,
        "joined" => Taken::Joined,
        "zeros" => Taken::Zeros,
        _ => return None,
    };
    Some(Case { name, limit, taken })
}

/// The text of the file of that name.
pub fn read(rt: &impl Files, alloc: Global, name: &str) -> Result<String, Trouble> {
    let bytes = match FileShelf::new(rt).read(alloc, name, LONGEST) {
        Ok(bytes) => bytes,
        Err(ReadRefusal::Memory) => return Err(Trouble::Memory),
        Err(_) => return Err(Trouble::Unread),
    };
    let Ok(text) = str::from_utf8(bytes.as_slice()) else {
        return Err(Trouble::Unread);
    };
    match String::from_str(alloc, text) {
        Ok(text) => Ok(text),
        Err(_) => Err(Trouble::Memory),
    }
}
