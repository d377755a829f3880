//! The limits of a search that a theory may set.
ghost use Rattle.std.specs.Prelude.{◌≡◌, ◌≤◌, ◌↔◌, IsTrue, Contains, OnOk, Err, MatchOption};
ghost use Rattle.grind_grammar.specs.Terms.{Limit};
ghost use Rattle.grind_grammar.specs.Keeps.{IsPlaced, name_of};
ghost use Rattle.grind_theory.specs.States.{limit_name, greatest, limits_data, with_limit};
ghost use Rattle.grind_theory.specs.Declaring.{HasLimitFault, IsLimitAdded};

use crate::theory::{DeclRefusal, Fault};
use grind_grammar::Name;
use grind_outside::List;
use grind_resolution::bytes_of;
use grind_schemes::Limits;

/// A limit of a search.
#[derive(Clone, Copy, Debug, PartialEq, Eq)]
pub enum LimitKind {
    /// How many decisions may be in force at once.
    Splits,
    /// The generation that no match may reach.
    Generation,
    /// How many instances of theorems may be posted.
    Instances,
    /// How many combinations of inequalities may be posted.
    Cuts,
    /// How many basis elements may be made.
    Pairs,
}

// The limit with that name, or None if there is none.
fn find_limit(name: &[u8]) -> Option<LimitKind>
    ensures { MatchOption result ((kind : LimitKind) → ¬ (name.now ≡ limit_name kind)) (λ kind. name.now ≡ limit_name kind) }
{
    if name == b"splits".as_slice() {
        return Some(LimitKind::Splits);
    }
    if name == b"generation".as_slice() {
        return Some(LimitKind::Generation);
    }
    if name == b"instances".as_slice() {
        return Some(LimitKind::Instances);
    }
    if name == b"cuts".as_slice() {
        return Some(LimitKind::Cuts);
    }
    if name == b"pairs".as_slice() {
        return Some(LimitKind::Pairs);
    }
    None
}

// The greatest value of a limit.
fn greatest_of(kind: LimitKind) -> u32
    ensures { result ≡ greatest kind }
{
    match kind {
        LimitKind::Splits => 12,
        LimitKind::Generation => 20,
        LimitKind::Instances => 2000,
        LimitKind::Cuts => 10000,
        LimitKind::Pairs => 2000,
    }
}

// Whether a limit is among these.
fn is_set(set: &[LimitKind], kind: LimitKind) -> bool
    ensures { IsTrue result ↔ Contains set.now kind }
{
    set.contains(&kind)
}

// The limits with this one set to the value.
fn with_value(limits: Limits, kind: LimitKind, value: u32) -> Limits
    requires { value ≤ greatest kind }
    ensures { limits_data result ≡ with_limit (limits_data limits) kind value }
{
    match kind {
        LimitKind::Splits => Limits {
            splits: value,
            generation: limits.generation,
            instances: limits.instances,
            cuts: limits.cuts,
            pairs: limits.pairs,
        },
        LimitKind::Generation => Limits {
            splits: limits.splits,
            generation: value,
            instances: limits.instances,
            cuts: limits.cuts,
            pairs: limits.pairs,
        },
        LimitKind::Instances => Limits {
            splits: limits.splits,
            generation: limits.generation,
            instances: value,
            cuts: limits.cuts,
            pairs: limits.pairs,
        },
        LimitKind::Cuts => Limits {
            splits: limits.splits,
            generation: limits.generation,
            instances: limits.instances,
            cuts: value,
            pairs: limits.pairs,
        },
        LimitKind::Pairs => Limits {
            splits: limits.splits,
            generation: limits.generation,
            instances: limits.instances,
            cuts: limits.cuts,
            pairs: value,
        },
    }
}

/// Sets a limit.
pub(crate) fn declare_limit(
    text: &[u8],
    limits: &mut Limits,
    set: &mut List<LimitKind>,
    name: Name,
    value: i128,
) -> Result<(), DeclRefusal>
    requires placed { IsPlaced text.now name }
    ensures ok { OnOk result (IsLimitAdded (limits_data limits.old) set.old (Limit (name_of text.now name) value) (limits_data limits.new) set.new) }
    ensures faulty { (fault : Fault) → result ≡ Err (DeclRefusal.Faulty fault)
        → HasLimitFault (limits_data limits.old) set.old (Limit (name_of text.now name) value) fault }
{
    let Some(kind) = find_limit(bytes_of(text, name)) else {
        return Err(DeclRefusal::Faulty(Fault::Unknown));
    };
    if is_set(set.as_slice(), kind) {
        return Err(DeclRefusal::Faulty(Fault::Duplicate));
    }
    let most = greatest_of(kind);
    if value < 0 || value > most as i128 {
        return Err(DeclRefusal::Faulty(Fault::Size));
    }
    match set.push(kind) {
        Ok(()) => {
            *limits = with_value(*limits, kind, value as u32);
            Ok(())
        }
        Err(_) => Err(DeclRefusal::Memory),
    }
}
