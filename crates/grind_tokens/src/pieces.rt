//! The piece with which a text begins: a token, white space or a comment, or the fault there.
ghost use Rattle.std.specs.Prelude.{◌≡◌, ◌≤◌, ◌↔◌, ◌<◌, ◌+◌, ◌*◌, ◌^◌, ◌++◌, pos, IsTrue, IfSome, IfNone, IfOk, IfErr, length, take, drop};
ghost use Rattle.std.specs.Char.{digit_value};
ghost use Rattle.std.specs.List.{AllByRecursion};
ghost use Rattle.std.specs.Str.Parse.{digits_value};
ghost use Rattle.grind_tokens.specs.Tokens.{IsBlank, IsDigit, IsNameStart, Stops, StopsChars, EndsLine, Begins, dashes, IsFault};
ghost use Rattle.grind_tokens.specs.Fronts.{BeginsName, BeginsWithFront};

use crate::characters::{Run, name_start, run_len};
use crate::symbols::{longest_symbol, symbol_len};
use crate::tokens::{LexRefusal, TokenKind};

// How many bytes a name has at most.
const NAME_LIMIT: usize = 255;

// The largest number.
const LARGEST: u128 = 170_141_183_460_469_231_731_687_303_715_884_105_727;

// A piece at the front of a text: a token of a kind, or white space or a comment where there is no kind.
#[derive(Clone, Copy)]
pub(crate) struct Front {
    pub(crate) kind: Option<TokenKind>,
    pub(crate) len: usize,
}

// Whether a byte is white space.
fn is_blank(byte: u8) -> bool
    ensures { IsTrue result ↔ IsBlank byte }
{
    matches!(byte, b' ' | b'\t' | b'\r' | b'\n')
}

// Whether a byte is a digit.
fn is_digit(byte: u8) -> bool
    ensures { IsTrue result ↔ IsDigit byte }
{
    byte.is_ascii_digit()
}

// Whether a text is at its end or goes on with a line feed.
fn ends_line(text: &[u8]) -> bool
    ensures { IsTrue result ↔ EndsLine text.now }
{
    matches!(text, [] | [b'\n', ..])
}

// The comment of which the bytes after its two minus signs are given.
fn comment_at(body: &[u8], at: u32) -> Result<Front, LexRefusal>
    requires { at + (2 + length body.now) < 2 ^ 32 }
    ensures ok { IfOk result (BeginsWithFront (dashes ++ body.now)) }
    ensures refused { IfErr result (IsFault at (dashes ++ body.now)) }
{
    let len = run_len(Run::Comment, body);
    let (_, rest) = body.split_at(len);
    if ends_line(rest) {
        return Ok(Front {
            kind: None,
            len: len + 2,
        });
    }
    Err(LexRefusal::BadByte {
        offset: at + 2 + len as u32,
    })
}

// The name at the front of a text that begins with a character.
fn word_at(text: &[u8], first: char, at: u32) -> Result<Front, LexRefusal>
    requires { BeginsName text.now first }
    ensures ok { IfOk result (BeginsWithFront text.now) }
    ensures refused { IfErr result (IsFault at text.now) }
{
    let size = first.len_utf8();
    let (_, tail) = text.split_at(size);
    let len = size + run_len(Run::Name, tail);
    if len > NAME_LIMIT {
        return Err(LexRefusal::NameTooLong { offset: at });
    }
    Ok(Front {
        kind: Some(TokenKind::Word),
        len,
    })
}

// A number with one more digit after it, unless that is too large.
fn with_digit(value: u128, digit: u8) -> Option<u128>
    requires { IsDigit digit }
    ensures some { IfSome result (λ next. (next ≡ value * 10 + digit_value digit) × (next < 2 ^ 127)) }
    ensures none { IfNone result (2 ^ 127 ≤ value * 10 + digit_value digit) }
{
    if value > LARGEST / 10 {
        return None;
    }
    let next = value * 10 + (digit - b'0') as u128;
    if next > LARGEST {
        return None;
    }
    Some(next)
}

// The number that digits write, unless it is too large.
fn number_of(digits: &[u8]) -> Option<u128>
    requires { AllByRecursion IsDigit digits.now }
    ensures some { IfSome result (λ value. (value ≡ digits_value 10 digits.now) × (value < 2 ^ 127)) }
    ensures none { IfNone result (2 ^ 127 ≤ digits_value 10 digits.now) }
{
    let mut value = 0;
    let mut rest = digits;
    while let Some((digit, tail)) = rest.split_first() {
        let Some(next) = with_digit(value, *digit) else {
            return None;
        };
        value = next;
        rest = tail;
    }
    Some(value)
}

// How many digits stand at the front of a text.
fn digit_count(text: &[u8]) -> usize
    ensures within { result ≤ length text.now }
    ensures front { AllByRecursion IsDigit (take result text.now) }
    ensures stops { Stops IsDigit (drop result text.now) }
{
    text.iter().take_while(|b| is_digit(**b)).count()
}

// The number at the front of a text that begins with a digit.
fn number_at(text: &[u8], at: u32) -> Result<Front, LexRefusal>
    requires some { 0 < length text.now }
    requires digit { ¬ Stops IsDigit text.now }
    ensures ok { IfOk result (BeginsWithFront text.now) }
    ensures refused { IfErr result (IsFault at text.now) }
{
    let len = digit_count(text);
    let (digits, _) = text.split_at(len);
    let Some(value) = number_of(digits) else {
        return Err(LexRefusal::NumberTooLarge { offset: at });
    };
    Ok(Front {
        kind: Some(TokenKind::Number(value as i128)),
        len,
    })
}

// The symbol at the front of a text that begins as nothing else.
fn symbol_at(text: &[u8], at: u32) -> Result<Front, LexRefusal>
    requires some { 0 < length text.now }
    requires no_blank { Stops IsBlank text.now }
    requires no_name { StopsChars IsNameStart text.now }
    requires no_number { Stops IsDigit text.now }
    requires no_comment { ¬ Begins text.now dashes }
    ensures ok { IfOk result (BeginsWithFront text.now) }
    ensures refused { IfErr result (IsFault at text.now) }
{
    let Some(symbol) = longest_symbol(text) else {
        return Err(LexRefusal::BadByte { offset: at });
    };
    let len = symbol_len(symbol);
    Ok(Front {
        kind: Some(TokenKind::Symbol(symbol)),
        len,
    })
}

// The name or the symbol at the front of a text that begins as nothing else.
fn word_or_symbol_at(text: &[u8], at: u32) -> Result<Front, LexRefusal>
    requires some { 0 < length text.now }
    requires no_blank { Stops IsBlank text.now }
    requires no_number { Stops IsDigit text.now }
    requires no_comment { ¬ Begins text.now dashes }
    ensures ok { IfOk result (BeginsWithFront text.now) }
    ensures refused { IfErr result (IsFault at text.now) }
{
    if let Some(first) = name_start(text) {
        return word_at(text, first, at);
    }
    symbol_at(text, at)
}

// The piece with which a text begins, which stands at an offset of the file.
pub(crate) fn first_front(text: &[u8], at: u32) -> Result<Front, LexRefusal>
    requires some { 0 < length text.now }
    requires within { at + length text.now < 2 ^ 32 }
    ensures ok { IfOk result (BeginsWithFront text.now) }
    ensures refused { IfErr result (IsFault at text.now) }
{
    match text {
        [b'-', b'-', body @ ..] => comment_at(body, at),
        [first, ..] if is_blank(*first) => Ok(Front { kind: None, len: 1 }),
        [first, ..] if is_digit(*first) => number_at(text, at),
        _ => word_or_symbol_at(text, at),
    }
}
