//! The symbols at the front of a text.
ghost use Rattle.std.specs.Prelude.{◌≡◌, IfSome, IfNone, length};
ghost use Rattle.grind_tokens.specs.Tokens.{Begins, IsLongest, spelling};
ghost use Rattle.grind_tokens.specs.declared.tokens.Sym.{Sym};

use crate::tokens::Sym;

// The longest symbol with which a text begins.
pub(crate) fn longest_symbol(text: &[u8]) -> Option<Sym>
    ensures some { IfSome result (λ s. Begins text.now (spelling s) × IsLongest s text.now) }
    ensures none { IfNone result ((s : Sym) → ¬ Begins text.now (spelling s)) }
{
    match text {
        [b'<', b'-', b'>', ..] => Some(Sym::Iff),
        [b'!', b'=', ..] => Some(Sym::Ne),
        [b'<', b'=', ..] => Some(Sym::Le),
        [b'>', b'=', ..] => Some(Sym::Ge),
        [b'/', b'\\', ..] => Some(Sym::And),
        [b'\\', b'/', ..] => Some(Sym::Or),
        [b'-', b'>', ..] => Some(Sym::Arrow),
        [b'|', b'-', ..] => Some(Sym::Turnstile),
        [b'.', ..] => Some(Sym::Dot),
        [b',', ..] => Some(Sym::Comma),
        [b':', ..] => Some(Sym::Colon),
        [b';', ..] => Some(Sym::Semicolon),
        [b'(', ..] => Some(Sym::LeftParen),
        [b')', ..] => Some(Sym::RightParen),
        [b'[', ..] => Some(Sym::LeftSquare),
        [b']', ..] => Some(Sym::RightSquare),
        [b'=', ..] => Some(Sym::Eq),
        [b'<', ..] => Some(Sym::Lt),
        [b'>', ..] => Some(Sym::Gt),
        [b'+', ..] => Some(Sym::Plus),
        [b'-', ..] => Some(Sym::Minus),
        [b'*', ..] => Some(Sym::Star),
        [b'~', ..] => Some(Sym::Not),
        _ => None,
    }
}

// How many bytes a symbol has.
pub(crate) fn symbol_len(symbol: Sym) -> usize
    ensures { result ≡ length (spelling symbol) }
{
    match symbol {
        Sym::Iff => 3,
        Sym::Ne | Sym::Le | Sym::Ge | Sym::And | Sym::Or | Sym::Arrow | Sym::Turnstile => 2,
        _ => 1,
    }
}
