//! Numbers and names of a report, read from words.
ghost use Rattle.std.specs.Prelude.{◌≡◌, ◌≢◌, ◌≤◌, ◌↔◌, ◌<◌, ◌+◌, ◌*◌, ◌^◌, ◌∷◌, ℕ, suc, ℤ, negsuc, IsTrue, IfSome, IfNone, IsNone, All, decimal};
ghost use Rattle.std.specs.Char.{digit_value};
ghost use Rattle.std.specs.List.{AllByRecursion};
ghost use Rattle.std.specs.Str.Parse.{digits_value};
ghost use Rattle.grind_schemes.specs.Labels.{IsLabel};
ghost use Rattle.grind_report_words.specs.Words.{IsWide, IsNatural, IsInteger};
ghost use Rattle.grind_report_reader.specs.Numerals.{IsDigit, AreDigits, IsNumeral, IsSolidByte};

// The magnitude of the least whole number of 128 bits.
const LEAST: u128 = 170_141_183_460_469_231_731_687_303_715_884_105_728;

// Whether a byte is a digit.
fn is_digit(byte: u8) -> bool
    ensures { IsTrue result ↔ IsDigit byte }
{
    byte.is_ascii_digit()
}

// Whether all bytes are digits.
fn are_digits(word: &[u8]) -> bool
    ensures { IsTrue result ↔ AreDigits word.now }
{
    word.iter().all(|byte| is_digit(*byte))
}

// Whether the word has digits alone, at least one, and no zero before others.
fn is_numeral(word: &[u8]) -> bool
    ensures { IsTrue result ↔ IsNumeral word.now }
{
    let Some((first, tail)) = word.split_first() else {
        return false;
    };
    if *first == b'0' {
        return tail.is_empty();
    }
    are_digits(word)
}

// A number with one more digit after it, unless it is over the greatest.
fn with_digit(value: u128, digit: u8, most: u128) -> Option<u128>
    requires digit { IsDigit digit }
    requires most { most ≤ 2 ^ 127 }
    ensures some { IfSome result (λ next. (next ≡ value * 10 + digit_value digit) × (next ≤ most)) }
    ensures none { IfNone result (most < value * 10 + digit_value digit) }
{
    if value > most / 10 {
        return None;
    }
    let next = value * 10 + (digit - b'0') as u128;
    if next > most {
        return None;
    }
    Some(next)
}

// The number that digits write, unless it is over the greatest.
fn value_of(digits: &[u8], most: u128) -> Option<u128>
    requires digits { AllByRecursion IsDigit digits.now }
    requires most { most ≤ 2 ^ 127 }
    ensures some { IfSome result (λ value. (value ≡ digits_value 10 digits.now) × (value ≤ most)) }
    ensures none { IfNone result (most < digits_value 10 digits.now) }
{
    let mut value = 0;
    let mut rest = digits;
    while let Some((digit, tail)) = rest.split_first() {
        let Some(next) = with_digit(value, *digit, most) else {
            return None;
        };
        value = next;
        rest = tail;
    }
    Some(value)
}

// The number of which the word is the decimal, unless there is none up to the greatest.
fn natural_up_to(word: &[u8], most: u128) -> Option<u128>
    requires { most ≤ 2 ^ 127 }
    ensures some { IfSome result (λ n. (word.now ≡ decimal n) × (n ≤ most)) }
    ensures none { IsNone result → (n : ℕ) → n ≤ most → word.now ≡ decimal n → ⊥ }
{
    if !is_numeral(word) {
        return None;
    }
    let value = value_of(word, most)?;
    Some(value)
}

/// The natural number that a word of a report says: in decimal without leading zeros, and below 2^32. None comes exactly where
/// it says none.
pub fn number_of(word: &[u8]) -> Option<u32>
    ensures some { IfSome result (λ n. IsNatural word.now n) }
    ensures none { IsNone result → (n : ℕ) → IsNatural word.now n → ⊥ }
{
    let number = natural_up_to(word, 0xffff_ffff)?;
    Some(number as u32)
}

// The negative number of which the digits after the minus sign are given.
fn negative_of(digits: &[u8]) -> Option<i128>
    ensures some { IfSome result (λ z. IsInteger (45 ∷ digits.now) z) }
    ensures none { IsNone result → (k : ℕ) → IsWide (negsuc k) → digits.now ≡ decimal (suc k) → ⊥ }
{
    let number = natural_up_to(digits, LEAST)?;
    if number == 0 {
        return None;
    }
    let before = (number - 1) as i128;
    Some(-before - 1)
}

/// The whole number that a word of a report says: in decimal without leading zeros, with a minus sign before a negative one alone,
/// and of at most 128 bits. None comes exactly where it says none.
pub fn integer_of(word: &[u8]) -> Option<i128>
    ensures some { IfSome result (λ z. IsInteger word.now z) }
    ensures none { IsNone result → (z : ℤ) → IsInteger word.now z → ⊥ }
{
    let Some((first, digits)) = word.split_first() else {
        return None;
    };
    if *first == b'-' {
        let number = negative_of(digits)?;
        return Some(number);
    }
    let number = natural_up_to(word, LEAST - 1)?;
    Some(number as i128)
}

// Whether a byte may stand in a name.
fn is_solid(byte: u8) -> bool
    ensures { IsTrue result ↔ IsSolidByte byte }
{
    byte != b' ' && byte != b'\n'
}

// Whether each byte may.
fn are_solid(word: &[u8]) -> bool
    ensures { IsTrue result ↔ All IsSolidByte word.now }
{
    word.iter().all(|byte| is_solid(*byte))
}

/// Whether a word of a report is a name: 1 to 255 bytes other than space and line feed.
pub fn is_name(word: &[u8]) -> bool
    ensures { IsTrue result ↔ IsLabel word.now }
{
    if word.is_empty() || word.len() > 255 {
        return false;
    }
    are_solid(word)
}
