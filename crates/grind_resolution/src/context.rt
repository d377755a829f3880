//! What gives the names of a declaration their meaning.
ghost use Rattle.grind_signature.specs.Signatures.{IsSignature};
ghost use Rattle.grind_resolution.specs.Scopes.{AreDistinct, AreApart};

use crate::scope::Scope;
use grind_signature::Signature;
use std::alloc::Global;

/// What gives the names of a declaration their meaning: the text in which they stand, the declared names, and the
/// binders, none of which has a declared name.
#[derive(Drop)]
pub struct Context<'a> {
    /// Where memory is taken.
    pub alloc: Global,
    /// The text.
    pub text: &'a [u8],
    /// The declared names.
    pub signature: &'a Signature,
    /// The binders.
    pub scope: &'a Scope,
    pub ghost keeps: { IsSignature signature.now },
    pub ghost distinct: { AreDistinct scope.now },
    pub ghost apart: { AreApart signature.now scope.now },
}
