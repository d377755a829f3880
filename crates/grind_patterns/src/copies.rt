//! Copies of schemes.
ghost use Rattle.std.specs.Prelude.{◌≡◌, [], ◌∷◌, ◌++◌, IfOk, OnOk};
ghost use Rattle.grind_patterns.specs.Copies.{IsCopy, AreCopies};

use grind_outside::{List, Memory};
use grind_schemes::Scheme;
use std::alloc::Global;

/// A copy of the scheme.
#[cycle(copying)]
pub fn copied(alloc: Global, scheme: &Scheme) -> Result<Scheme, Memory>
    ensures { IfOk result (λ copy. IsCopy copy scheme.now) }
{
    match scheme {
        Scheme::Var(number) => Ok(Scheme::Var(*number)),
        Scheme::Apply { head, sort, args } => {
            let args = match copied_each(alloc, args) {
                Ok(args) => args,
                Err(want) => return Err(want),
            };
            Ok(Scheme::Apply {
                head: *head,
                sort: *sort,
                args,
            })
        }
    }
}

// Copies of the schemes.
#[cycle(copying)]
fn copied_each(alloc: Global, schemes: &[Scheme]) -> Result<Vec<Scheme>, Memory>
    ensures { IfOk result (λ copies. AreCopies copies.items schemes.now) }
{
    let mut copies = Vec::new(alloc);
    for scheme in schemes {
        let copy = copied(alloc, scheme)?;
        pushed(&mut copies, copy)?;
    }
    Ok(copies)
}

// Appends a copy.
fn pushed(copies: &mut Vec<Scheme>, copy: Scheme) -> Result<(), Memory>
    ensures { OnOk result (copies.new.items ≡ copies.old.items ++ copy ∷ []) }
{
    match copies.push(copy) {
        Ok(()) => Ok(()),
        Err(_) => Err(Memory),
    }
}

// Copies of the schemes, in a list.
pub(crate) fn copied_list(alloc: Global, schemes: &[Scheme]) -> Result<List<Scheme>, Memory>
    ensures { IfOk result (λ copies. AreCopies copies schemes.now) }
{
    let mut copies = List::new(alloc);
    for scheme in schemes {
        let copy = copied(alloc, scheme)?;
        copies.push(copy)?;
    }
    Ok(copies)
}

// The list of a copy of the scheme.
pub(crate) fn copied_alone(alloc: Global, scheme: &Scheme) -> Result<List<Scheme>, Memory>
    ensures { IfOk result (λ copies. AreCopies copies (scheme.now ∷ [])) }
{
    let copy = copied(alloc, scheme)?;
    let mut copies = List::new(alloc);
    copies.push(copy)?;
    Ok(copies)
}
