//! The theory of a file, from its declarations in order.
ghost use Rattle.std.specs.Prelude.{◌≡◌, ℕ, [], IfOk, Err};
ghost use Rattle.grind_theory.specs.States.{opening_state};
ghost use Rattle.grind_theory.specs.Theories.{AreDeclared};
ghost use Rattle.grind_theory.specs.Kept.{AreKept};
ghost use Rattle.grind_theory.specs.Building.{state_at, IsTheoryRead, AreRefused};

use crate::declarations::{Building, declare};
use crate::theory::{DeclRefusal, Fault, Theory, TheoryRefusal};
use grind_grammar::Decl;
use grind_outside::{List, Memory};
use grind_schemes::{Lemmas, Limits};
use grind_signature::Signature;
use std::alloc::Global;

// The beginning: nothing is declared, and no limit is set.
fn begin(alloc: Global) -> Result<Building, Memory>
    ensures state { IfOk result (λ building. state_at building ≡ opening_state) }
    ensures none { IfOk result (λ building. building.goals ≡ []) }
{
    let signature = Signature::new(alloc)?;
    Ok(Building {
        signature,
        theorems: List::new(alloc),
        limits: Limits::standard(),
        set: List::new(alloc),
        goals: List::new(alloc),
    })
}

// The refusal of the declaration with that number.
fn refused(number: u32, refusal: DeclRefusal) -> TheoryRefusal
    ensures { (decl : ℕ) (fault : Fault) → result ≡ TheoryRefusal.Bad decl fault → (number ≡ decl) × (refusal ≡ DeclRefusal.Faulty fault) }
{
    match refusal {
        DeclRefusal::Faulty(fault) => TheoryRefusal::Bad {
            decl: number,
            fault,
        },
        DeclRefusal::Memory => TheoryRefusal::Memory,
    }
}

/// The theory of the declarations, in order.
///
/// # Errors
///
/// `Bad` exactly where a declaration has a fault: its number, counted from 1, and its first fault. `Memory`.
pub fn elaborate(alloc: Global, text: &[u8], decls: &List<Decl>) -> Result<Theory, TheoryRefusal>
    requires { AreKept text.now decls.now }
    ensures ok { IfOk result (IsTheoryRead text.now decls.now) }
    ensures refused { (decl : ℕ) (fault : Fault) → result ≡ Err (TheoryRefusal.Bad decl fault) → AreRefused text.now decls.now decl fault }
    ensures declared { IfOk result (λ theory. AreDeclared theory.signature theory.goals) }
{
    let Ok(mut building) = begin(alloc) else {
        return Err(TheoryRefusal::Memory);
    };
    let mut number: u32 = 0;
    let mut rest = decls.as_slice();
    while let Some((decl, later)) = rest.split_first() {
        number += 1;
        match declare(alloc, text, &mut building, decl) {
            Ok(()) => {}
            Err(refusal) => return Err(refused(number, refusal)),
        }
        rest = later;
    }
    Ok(Theory {
        signature: building.signature,
        lemmas: Lemmas {
            theorems: building.theorems,
            limits: building.limits,
        },
        goals: building.goals,
    })
}
