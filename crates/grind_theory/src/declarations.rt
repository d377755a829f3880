//! One declaration of a theory.
ghost use Rattle.std.specs.Prelude.{◌≡◌, All, OnOk, Err};
ghost use Rattle.std.specs.List.{AllByRecursion};
ghost use Rattle.grind_schemes.specs.Labels.{IsLabel};
ghost use Rattle.grind_grammar.specs.Keeps.{IsPlacedTree};
ghost use Rattle.grind_annotations.specs.Written.{IsPlacedAnnot};
ghost use Rattle.grind_theory.specs.States.{bound_names};
ghost use Rattle.grind_theory.specs.Faults.{FaultOf};
ghost use Rattle.grind_theory.specs.Theories.{Takes, AreDeclared};
ghost use Rattle.grind_theory.specs.Kept.{declaration_of, IsPlacedDecl, HasLabels, HasNoHeading};
ghost use Rattle.grind_theory.specs.Headings.{name_in, bounds_in, theorem_under, goal_under};
ghost use Rattle.grind_theory.specs.Building.{state_at};

use crate::goals::read_goal;
use crate::heading::Heading;
use crate::limits::{LimitKind, declare_limit};
use crate::sorts::{Signed, declare_fun, declare_sort, refusal_of};
use crate::theorems::read_theorem;
use crate::theory::{DeclRefusal, Fault};
use grind_grammar::{Annot, Decl, Tree};
use grind_outside::List;
use grind_resolution::bytes_of;
use grind_schemes::{Goal, Limits, Theorem};
use grind_signature::Signature;
use std::alloc::Global;

/// What is declared so far.
#[derive(Drop)]
pub(crate) struct Building {
    /// The declared names.
    pub(crate) signature: Signature,
    /// The theorems, in order.
    pub(crate) theorems: List<Theorem>,
    /// The limits of a search.
    pub(crate) limits: Limits,
    /// Which of them have been set.
    pub(crate) set: List<LimitKind>,
    /// The goals, in order.
    pub(crate) goals: List<Goal>,
}

// Declares a theorem and appends it.
fn declare_theorem(
    building: &mut Building,
    heading: &Heading<'_>,
    annots: &[Annot],
    body: &Tree,
) -> Result<(), DeclRefusal>
    requires annots { All (IsPlacedAnnot heading.now.text.now) annots.now }
    requires body { IsPlacedTree heading.now.text.now body.now }
    requires label { IsLabel (name_in heading.now) }
    ensures ok { OnOk result (Takes (state_at building.old) (theorem_under heading.now annots.now body.now) (state_at building.new)) }
    ensures faulty { (fault : Fault) → result ≡ Err (DeclRefusal.Faulty fault) → FaultOf (state_at building.old) (theorem_under heading.now annots.now body.now) fault }
    ensures declared { AreDeclared building.old.signature building.old.goals → OnOk result (AreDeclared building.new.signature building.new.goals) }
{
    let theorem = match read_theorem(&building.signature, heading, annots, body) {
        Ok(theorem) => theorem,
        Err(refusal) => return Err(refusal),
    };
    let name = bytes_of(heading.text, heading.name);
    match building.signature.declare_label(heading.alloc, name) {
        Ok(()) => match building.theorems.push(theorem) {
            Ok(()) => Ok(()),
            Err(_) => Err(DeclRefusal::Memory),
        },
        Err(refusal) => Err(refusal_of(refusal)),
    }
}

// Declares a goal and appends it.
fn declare_goal(
    building: &mut Building,
    heading: &Heading<'_>,
    hyps: &[Tree],
    show: &Tree,
) -> Result<(), DeclRefusal>
    requires hyps { All (IsPlacedTree heading.now.text.now) hyps.now }
    requires show { IsPlacedTree heading.now.text.now show.now }
    requires label { IsLabel (name_in heading.now) }
    requires labels { AllByRecursion IsLabel (bound_names (bounds_in heading.now)) }
    ensures ok { OnOk result (Takes (state_at building.old) (goal_under heading.now hyps.now show.now) (state_at building.new)) }
    ensures faulty { (fault : Fault) → result ≡ Err (DeclRefusal.Faulty fault) → FaultOf (state_at building.old) (goal_under heading.now hyps.now show.now) fault }
    ensures declared { AreDeclared building.old.signature building.old.goals → OnOk result (AreDeclared building.new.signature building.new.goals) }
{
    let goal = match read_goal(&building.signature, heading, hyps, show) {
        Ok(goal) => goal,
        Err(refusal) => return Err(refusal),
    };
    let name = bytes_of(heading.text, heading.name);
    match building.signature.declare_label(heading.alloc, name) {
        Ok(()) => match building.goals.push(goal) {
            Ok(()) => Ok(()),
            Err(_) => Err(DeclRefusal::Memory),
        },
        Err(refusal) => Err(refusal_of(refusal)),
    }
}

// Takes a declaration of a sort, a function or a limit.
fn declare_name(
    alloc: Global,
    text: &[u8],
    building: &mut Building,
    decl: &Decl,
) -> Result<(), DeclRefusal>
    requires placed { IsPlacedDecl text.now decl.now }
    requires labels { HasLabels (declaration_of text.now decl.now) }
    requires name { HasNoHeading decl.now }
    ensures ok { OnOk result (Takes (state_at building.old) (declaration_of text.now decl.now) (state_at building.new)) }
    ensures faulty { (fault : Fault) → result ≡ Err (DeclRefusal.Faulty fault) → FaultOf (state_at building.old) (declaration_of text.now decl.now) fault }
    ensures declared { AreDeclared building.old.signature building.old.goals → OnOk result (AreDeclared building.new.signature building.new.goals) }
{
    match decl {
        Decl::Sort { name } => declare_sort(alloc, text, &mut building.signature, *name),
        Decl::Fun { name, args, result } => {
            let fun = Signed {
                name: *name,
                args: args.as_slice(),
                own: *result,
            };
            declare_fun(alloc, text, &mut building.signature, &fun)
        }
        Decl::Theorem { .. } => unreachable!(),
        Decl::Goal { .. } => unreachable!(),
        Decl::Limit { name, value } => declare_limit(
            text,
            &mut building.limits,
            &mut building.set,
            *name,
            *value,
        ),
    }
}

/// Takes one declaration.
pub(crate) fn declare(
    alloc: Global,
    text: &[u8],
    building: &mut Building,
    decl: &Decl,
) -> Result<(), DeclRefusal>
    requires placed { IsPlacedDecl text.now decl.now }
    requires labels { HasLabels (declaration_of text.now decl.now) }
    ensures ok { OnOk result (Takes (state_at building.old) (declaration_of text.now decl.now) (state_at building.new)) }
    ensures faulty { (fault : Fault) → result ≡ Err (DeclRefusal.Faulty fault) → FaultOf (state_at building.old) (declaration_of text.now decl.now) fault }
    ensures declared { AreDeclared building.old.signature building.old.goals → OnOk result (AreDeclared building.new.signature building.new.goals) }
{
    match decl {
        Decl::Sort { .. } => declare_name(alloc, text, building, decl),
        Decl::Fun { .. } => declare_name(alloc, text, building, decl),
        Decl::Limit { .. } => declare_name(alloc, text, building, decl),
        Decl::Theorem {
            name,
            binders,
            annots,
            body,
        } => {
            let heading = Heading {
                alloc,
                text,
                name: *name,
                binders: binders.as_slice(),
            };
            let marks = annots.as_slice();
            declare_theorem(building, &heading, marks, body)
        }
        Decl::Goal {
            name,
            binders,
            hyps,
            show,
        } => {
            let heading = Heading {
                alloc,
                text,
                name: *name,
                binders: binders.as_slice(),
            };
            let trees = hyps.as_slice();
            declare_goal(building, &heading, trees, show)
        }
    }
}
