//! What a reader reads.
ghost use Rattle.grind_syntax.specs.Places.{Placed};

use grind_outside::Memory;
use grind_tokens::tokens::Token;
use std::alloc::Global;

// What a reader gives: what it read and the place after it, or nothing where the grammar has no such thing here.
pub(crate) type Read<T> = Result<Option<(T, usize)>, Memory>;

// A text and tokens of it, each of which stands in the text, and where memory is taken. A place in it is a number of
// tokens from its beginning.
#[derive(Drop)]
pub(crate) struct Source<'a> {
    pub(crate) alloc: Global,
    pub(crate) text: &'a [u8],
    pub(crate) tokens: &'a [Token],
    ghost placed: { Placed text.now tokens.now },
}
