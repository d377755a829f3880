//! The words of the command line.
ghost use Rattle.std.specs.Prelude.{◌≡◌, ◌↔◌, ℕ, List, IsTrue, IsNone, IfSome, IfOk, IfErr, drop, map};
ghost use Rattle.std.specs.IoError.{error_kind};
ghost use Rattle.std.specs.String.{string_bytes};
ghost use Rattle.std.specs.Vec.Iter.{into_iter_items};
ghost use Rattle.grind_command.specs.Commands.{IsSolve, BeginsWithDash};

use std::alloc::Global;
use std::env::{self, Args};
use std::io::{self, ErrorKind};
use std::rt::Env;

/// The words of the command line, without the program's name.
///
/// # Errors
///
/// A word that is no text, or want of memory for the words.
pub fn words_of(rt: &(impl Env + AllocGlobal)) -> io::Result<Vec<String>> {
    let words = after_name(rt.alloc(), env::args(rt)?)?;
    Ok(words)
}

/// The words after the first, which is the program's name.
///
/// # Errors
///
/// Out of memory.
pub fn after_name(alloc: Global, all: Args) -> io::Result<Vec<String>>
    ensures ok { IfOk result (λ words. words.items ≡ drop 1 (into_iter_items all)) }
    ensures err { IfErr result (λ error. error_kind error ≡ ErrorKind.OutOfMemory) }
{
    let mut rest = all;
    let _name = rest.next();
    let words = all_of(alloc, rest)?;
    Ok(words)
}

/// All the words that are left.
fn all_of(alloc: Global, left: Args) -> io::Result<Vec<String>>
    ensures ok { IfOk result (λ words. words.items ≡ into_iter_items left) }
    ensures err { IfErr result (λ error. error_kind error ≡ ErrorKind.OutOfMemory) }
{
    let mut rest = left;
    let mut words = Vec::new(alloc);
    while let Some(word) = rest.next() {
        if words.push(word).is_err() {
            return Err(io::Error::from(ErrorKind::OutOfMemory));
        }
    }
    Ok(words)
}

/// The name of the file that is to be solved, or None where the words are no command.
pub fn file_of(words: &[String]) -> Option<&str>
    ensures some { IfSome result (λ name. IsSolve (map string_bytes words.now) name.now) }
    ensures none { IsNone result → (name : List ℕ) → IsSolve (map string_bytes words.now) name → ⊥ }
{
    let [command, name] = words else {
        return None;
    };
    if command.as_str() != "solve" {
        return None;
    }
    let file = name.as_str();
    if begins_with_dash(file.as_bytes()) {
        return None;
    }
    Some(file)
}

fn begins_with_dash(word: &[u8]) -> bool
    ensures { IsTrue result ↔ BeginsWithDash word.now }
{
    matches!(word, [b'-', ..])
}
