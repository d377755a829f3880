//! The characters of a text and the runs that names and comments make of them.
ghost use Rattle.std.specs.Prelude.{◌≡◌, ◌≤◌, ◌↔◌, IsTrue, IfSome, IfNone, length, take, encode_utf8, IsUtf8};
ghost use Rattle.std.specs.Char.{IsScalar};
ghost use Rattle.std.specs.Str.{StartsWithNoChar};
ghost use Rattle.grind_tokens.specs.Tokens.{IsNameStart, Begins, StopsChars};
ghost use Rattle.grind_tokens.specs.Fronts.{IsOf, Runs, BeginsName};

use std::str::from_utf8;
use unicode_ident::{is_xid_continue, is_xid_start};

// Of which characters a run is made.
#[derive(Clone, Copy)]
pub(crate) enum Run {
    // Those that may stand in a name after the first.
    Name,
    // Those that may stand in a comment.
    Comment,
}

// Whether a name may begin with a character.
fn is_name_start(character: char) -> bool
    ensures { IsTrue result ↔ IsNameStart character }
{
    character == '_' || is_xid_start(character)
}

// Whether a run goes on with a character.
fn goes_on(run: Run, character: char) -> bool
    ensures { IsTrue result ↔ IsOf run character }
{
    match run {
        Run::Name => is_xid_continue(character),
        Run::Comment => character != '\n',
    }
}

// The bytes at the front of a text among which its first character stands.
fn first_bytes(text: &[u8]) -> &[u8]
    ensures { result.now ≡ take 4 text.now }
{
    if text.len() > 4 {
        return text.split_at(4).0;
    }
    text
}

// The characters of UTF-8 with which a text begins, as far as they stand in its first four bytes.
fn first_text(text: &[u8]) -> &str
    ensures begins { Begins text.now result.now }
    ensures none { length result.now ≡ 0 → StartsWithNoChar text.now }
{
    let bytes = first_bytes(text);
    match from_utf8(bytes) {
        Ok(whole) => whole,
        Err(fault) => whole_text(bytes.split_at(fault.valid_up_to()).0),
    }
}

// Bytes that are UTF-8, as a text.
fn whole_text(bytes: &[u8]) -> &str
    requires { IsUtf8 bytes.now }
    ensures { result.now ≡ bytes.now }
{
    from_utf8(bytes).unwrap_or("")
}

// The first character of a text of UTF-8.
fn first_of(text: &str) -> Option<char>
    ensures some { IfSome result (λ c. IsScalar c × Begins text.now (encode_utf8 c)) }
    ensures none { IfNone result (length text.now ≡ 0) }
{
    text.chars().next()
}

// The first character of a text, if one begins there.
fn first_character(text: &[u8]) -> Option<char>
    ensures some { IfSome result (λ c. IsScalar c × Begins text.now (encode_utf8 c)) }
    ensures none { IfNone result (StartsWithNoChar text.now) }
{
    match text {
        [first, ..] if first.is_ascii() => Some(*first as char),
        _ => first_of(first_text(text)),
    }
}

// The first character of a text, if a name may begin with it.
pub(crate) fn name_start(text: &[u8]) -> Option<char>
    ensures some { IfSome result (BeginsName text.now) }
    ensures none { IfNone result (StopsChars IsNameStart text.now) }
{
    let Some(first) = first_character(text) else {
        return None;
    };
    if is_name_start(first) {
        return Some(first);
    }
    None
}

// How many bytes the run at the front of a text has.
pub(crate) fn run_len(run: Run, text: &[u8]) -> usize
    ensures { Runs (IsOf run) text.now result }
{
    let mut rest = text;
    let mut len = 0;
    while let Some(character) = first_character(rest) {
        if !goes_on(run, character) {
            return len;
        }
        let size = character.len_utf8();
        let (_, tail) = rest.split_at(size);
        rest = tail;
        len += size;
    }
    len
}
