//! What a name stands for, by one look-up among the binders and one among the functions.
ghost use Rattle.std.specs.Prelude.{◌≡◌, ◌<◌, length, position, Some, None, MatchOption};
ghost use Rattle.std.specs.Str.{bytes_eq};
ghost use Rattle.grind_grammar.specs.Keeps.{IsPlaced, name_of};
ghost use Rattle.grind_signature.specs.Signatures.{function_names};
ghost use Rattle.grind_resolution.specs.Scopes.{binder_names, IsOnly, IsUnknown, given_data};
ghost use Rattle.grind_resolution.specs.Contexts.{gives_in};

use crate::context::Context;
use crate::meaning::Meaning;
use grind_grammar::Name;
use grind_term_graph::{FunId, Head, SortId};

/// What a name stands for.
#[derive(Drop)]
pub struct Found<'a> {
    /// The variable, or the head.
    pub meaning: Meaning,
    /// The sorts of its arguments, in order.
    pub args: &'a [SortId],
    /// The sort of the whole.
    pub sort: SortId,
}

// What the binder with this number stands for.
fn binder_found<'a>(context: &'a Context<'_>, name: &[u8], number: u32) -> Found<'a>
    requires { position (bytes_eq name.now) (binder_names context.now.scope.now.binders) ≡ Some number }
    ensures { IsOnly (gives_in context.now) name.now (given_data result.meaning result.args.now result.sort) }
{
    Found {
        meaning: context.scope.meaning(number),
        args: &[],
        sort: context.scope.sort(number),
    }
}

// What the function with this number stands for.
fn function_found<'a>(context: &'a Context<'_>, name: &[u8], function: FunId) -> Found<'a>
    requires { position (bytes_eq name.now) (function_names context.now.signature.now.functions) ≡ Some function }
    ensures { IsOnly (gives_in context.now) name.now (given_data result.meaning result.args.now result.sort) }
{
    Found {
        meaning: Meaning::Headed(Head::Fun(function)),
        args: context.signature.args_of(function),
        sort: context.signature.sort_of(function),
    }
}

// No binder and no function has the name.
fn none_found<'a>(context: &'a Context<'_>, name: &[u8]) -> Option<Found<'a>>
    requires binders { position (bytes_eq name.now) (binder_names context.now.scope.now.binders) ≡ None }
    requires functions { position (bytes_eq name.now) (function_names context.now.signature.now.functions) ≡ None }
    ensures none { result ≡ None }
    ensures unknown { IsUnknown (gives_in context.now) name.now }
{
    None
}

// What the name stands for, or None if it stands for nothing.
fn find_name<'a>(context: &'a Context<'_>, name: &[u8]) -> Option<Found<'a>>
    ensures { MatchOption result (IsUnknown (gives_in context.now) name.now)
        (λ found. IsOnly (gives_in context.now) name.now (given_data found.meaning found.args.now found.sort)) }
{
    if let Some(number) = context.scope.find(name) {
        return Some(binder_found(context, name, number));
    }
    if let Some(function) = context.signature.find_fun(name) {
        return Some(function_found(context, name, function));
    }
    none_found(context, name)
}

/// The bytes of a name.
pub fn bytes_of(text: &[u8], name: Name) -> &[u8]
    requires { IsPlaced text.now name }
    ensures { result.now ≡ name_of text.now name }
{
    &text[name.start as usize..name.end as usize]
}

/// What the name at a place of the text stands for, or None if it stands for nothing.
pub fn name_at<'a>(context: &'a Context<'_>, name: Name) -> Option<Found<'a>>
    requires { IsPlaced context.now.text.now name }
    ensures { MatchOption result (IsUnknown (gives_in context.now) (name_of context.now.text.now name))
        (λ found. IsOnly (gives_in context.now) (name_of context.now.text.now name) (given_data found.meaning found.args.now found.sort)) }
{
    let bytes = bytes_of(context.text, name);
    find_name(context, bytes)
}
