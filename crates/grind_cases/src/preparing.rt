//! The directives that change what a case asks for.
use crate::case::Case;
use crate::texts::split;
use crate::unfollowed::Unfollowed;
use grind_outside::List;
use std::alloc::Global;

/// Changes what the case asks for, by the directive of this word.
///
/// # Errors
///
/// `Malformed` where it is no such directive, or asks for what may not be asked for.
pub fn prepare(alloc: Global, case: &mut Case, word: &str, rest: &str) -> Result<(), Unfollowed> {
    match word {
        "file" => case.begin_file(alloc, rest)?,
        "words" => case.take_words(alloc, rest)?,
        "text" | "line" | "times" | "count" | "bytes" => return written(alloc, case, word, rest),
        "fail" => return failing(alloc, case, rest),
        "most" => return limited(case, rest),
        "branch" | "proof" | "change" => return proved(alloc, case, word, rest),
        _ => return Err(Unfollowed::Malformed),
    }
    Ok(())
}

/// Adds to the last file.
fn written(alloc: Global, case: &mut Case, word: &str, rest: &str) -> Result<(), Unfollowed> {
    match word {
        "text" => case.add(alloc, rest.as_bytes(), 1),
        "line" => {
            let whole = format!(in alloc; "{rest}\n")?;
            case.add(alloc, whole.as_bytes(), 1)
        }
        "count" => counted(alloc, case, rest),
        _ => repeated(alloc, case, word, rest),
    }
}

/// Adds a text for each number of a range.
fn counted(alloc: Global, case: &mut Case, rest: &str) -> Result<(), Unfollowed> {
    let (first, rest) = split(rest);
    let (last, text) = split(rest);
    let (Ok(first), Ok(last)) = (first.parse::<u16>(), last.parse::<u16>()) else {
        return Err(Unfollowed::Malformed);
    };
    for number in first..=last {
        let numeral = format!(in alloc; "{number}")?;
        let piece = text.replace(alloc, "#", numeral.as_str())?;
        case.add(alloc, piece.as_bytes(), 1)?;
    }
    Ok(())
}

/// Adds a text or bytes to the last file, so many times.
fn repeated(alloc: Global, case: &mut Case, word: &str, rest: &str) -> Result<(), Unfollowed> {
    let (times, piece) = split(rest);
    let Ok(times) = times.parse::<u32>() else {
        return Err(Unfollowed::Malformed);
    };
    if word == "times" {
        return case.add(alloc, piece.as_bytes(), times);
    }
    let mut bytes = List::new(alloc);
    for number in piece.split_whitespace() {
        let Ok(byte) = number.parse::<u8>() else {
            return Err(Unfollowed::Malformed);
        };
        bytes.push(byte)?;
    }
    case.add(alloc, bytes.as_slice(), times)
}

/// Takes the numbers of the calls that fail.
fn failing(alloc: Global, case: &mut Case, rest: &str) -> Result<(), Unfollowed> {
    let (place, numbers) = split(rest);
    let mut calls = List::new(alloc);
    for number in numbers.split_whitespace() {
        let Ok(call) = number.parse::<u64>() else {
            return Err(Unfollowed::Malformed);
        };
        calls.push(call)?;
    }
    match place {
        "shelf" => case.shelf = calls,
        "out" => case.out.failing = calls,
        "notes" => case.notes.failing = calls,
        _ => return Err(Unfollowed::Malformed),
    }
    Ok(())
}

/// Takes how many bytes a call of a sink takes.
fn limited(case: &mut Case, rest: &str) -> Result<(), Unfollowed> {
    let (place, number) = split(rest);
    let Ok(most) = number.parse::<usize>() else {
        return Err(Unfollowed::Malformed);
    };
    match place {
        "out" => case.out.most = most,
        "notes" => case.notes.most = most,
        _ => return Err(Unfollowed::Malformed),
    }
    Ok(())
}

/// Adds to the proof, or changes a line of it.
fn proved(alloc: Global, case: &mut Case, word: &str, rest: &str) -> Result<(), Unfollowed> {
    match word {
        "branch" => case.branches.push(String::from_str(alloc, rest)?)?,
        "proof" => case.lines.push(String::from_str(alloc, rest)?)?,
        _ => return changed(alloc, case, rest),
    }
    Ok(())
}

fn changed(alloc: Global, case: &mut Case, rest: &str) -> Result<(), Unfollowed> {
    let (number, line) = split(rest);
    let Ok(number) = number.parse::<usize>() else {
        return Err(Unfollowed::Malformed);
    };
    if number >= case.lines.len() {
        return Err(Unfollowed::Malformed);
    }
    let line = String::from_str(alloc, line)?;
    case.lines.set(number, line);
    Ok(())
}
