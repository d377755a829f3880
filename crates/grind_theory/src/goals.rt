//! The goal of a declaration.
ghost use Rattle.std.specs.Prelude.{◌≡◌, [], All, IfOk, OnOk, Err};
ghost use Rattle.std.specs.List.{AllByRecursion};
ghost use Rattle.grind_term_graph.specs.Terms.{prop};
ghost use Rattle.grind_schemes.specs.Labels.{IsLabel};
ghost use Rattle.grind_schemes.specs.Goals.{IsGoal, goal_data};
ghost use Rattle.grind_grammar.specs.Keeps.{IsPlacedTree, term_of};
ghost use Rattle.grind_signature.specs.Signatures.{with_label};
ghost use Rattle.grind_resolution.specs.declared.meaning.BinderKind.TheVariants.{Constant as OfGoal};
ghost use Rattle.grind_resolution.specs.Scopes.{binder_names, Gives};
ghost use Rattle.grind_resolution.specs.Contexts.{gives_in};
ghost use Rattle.grind_resolution.specs.Sorting.{HasSort};
ghost use Rattle.grind_theory.specs.States.{bound_names};
ghost use Rattle.grind_theory.specs.Theories.{IsGoalDeclared};
ghost use Rattle.grind_annotations.specs.Written.{terms_of};
ghost use Rattle.grind_theory.specs.Headings.{name_in, bounds_in, goal_under};
ghost use Rattle.grind_theory.specs.Declaring.{HasFault, IsPutAs, IsOver, ArePutAs, AreOver, AreGoalTerms, AreTooMany, IsGoalAdded, IsGoalIn, IsOpened};

use crate::binders::open_scope;
use crate::goal_faults::fault_of_formulas;
use crate::heading::Heading;
use crate::theory::{DeclRefusal, Fault};
use grind_grammar::Tree;
use grind_outside::{List, Memory};
use grind_resolution::laws::{one_meaning, one_scheme, schemes_are_formed};
use grind_resolution::{BinderKind, Context, Scope, bytes_of, resolve};
use grind_schemes::{Goal, intern_scheme};
use grind_signature::Signature;
use grind_term_graph::{NodeId, TermRefusal, TermTable};
use std::alloc::Global;

// The terms of a goal.
#[derive(Drop)]
struct GoalTerms {
    // The table in which they stand.
    table: TermTable,
    // The hypotheses, in order.
    hyps: List<NodeId>,
    // The conclusion.
    show: NodeId,
}

// Puts a formula into the table.
fn intern_formula(
    context: &Context<'_>,
    tree: &Tree,
    table: &mut TermTable,
) -> Result<NodeId, DeclRefusal>
    requires placed { IsPlacedTree context.now.text.now tree.now }
    requires goal { context.now.scope.now.kind ≡ OfGoal }
    requires formula { HasSort (gives_in context.now) (term_of context.now.text.now tree.now) prop }
    ensures ok { IfOk result (IsPutAs (gives_in context.now) (term_of context.now.text.now tree.now) table.old.nodes table.new.nodes) }
    ensures size { (fault : Fault) → result ≡ Err (DeclRefusal.Faulty fault) → fault ≡ Fault.Size }
    ensures over { (fault : Fault) → result ≡ Err (DeclRefusal.Faulty fault) → IsOver (gives_in context.now) (term_of context.now.text.now tree.now) table.old.limit table.old.nodes }
    ensures limit { table.new.limit ≡ table.old.limit }
{
    one_meaning();
    one_scheme();
    schemes_are_formed();
    let scheme = match resolve(context, tree) {
        Ok(scheme) => scheme,
        Err(_) => return Err(DeclRefusal::Memory),
    };
    match intern_scheme(context.alloc, &scheme, &[], table) {
        Ok(id) => Ok(id),
        Err(TermRefusal::Full) => Err(DeclRefusal::Faulty(Fault::Size)),
        Err(TermRefusal::Memory) => Err(DeclRefusal::Memory),
    }
}

// Puts formulas into the table, in order.
fn intern_formulas(
    context: &Context<'_>,
    trees: &[Tree],
    table: &mut TermTable,
) -> Result<List<NodeId>, DeclRefusal>
    requires placed { All (IsPlacedTree context.now.text.now) trees.now }
    requires goal { context.now.scope.now.kind ≡ OfGoal }
    requires formulas { All (λ tree. HasSort (gives_in context.now) (term_of context.now.text.now tree) prop) trees.now }
    ensures ok { IfOk result (ArePutAs (gives_in context.now) (terms_of context.now.text.now trees.now) table.old.nodes table.new.nodes) }
    ensures size { (fault : Fault) → result ≡ Err (DeclRefusal.Faulty fault) → fault ≡ Fault.Size }
    ensures over { (fault : Fault) → result ≡ Err (DeclRefusal.Faulty fault) → AreOver (gives_in context.now) (terms_of context.now.text.now trees.now) table.old.limit table.old.nodes }
    ensures limit { table.new.limit ≡ table.old.limit }
{
    one_meaning();
    one_scheme();
    let mut ids = List::new(context.alloc);
    let mut rest = trees;
    while let Some((tree, later)) = rest.split_first() {
        let id = match intern_formula(context, tree, table) {
            Ok(id) => id,
            Err(refusal) => return Err(refusal),
        };
        match ids.push(id) {
            Ok(()) => {}
            Err(_) => return Err(DeclRefusal::Memory),
        }
        rest = later;
    }
    Ok(ids)
}

// The table of the hypotheses, in order, and then of the conclusion.
fn goal_terms(context: &Context<'_>, hyps: &[Tree], show: &Tree) -> Result<GoalTerms, DeclRefusal>
    requires hyps { All (IsPlacedTree context.now.text.now) hyps.now }
    requires show { IsPlacedTree context.now.text.now show.now }
    requires goal { context.now.scope.now.kind ≡ OfGoal }
    requires formulas { All (λ tree. HasSort (gives_in context.now) (term_of context.now.text.now tree) prop) hyps.now }
    requires formula { HasSort (gives_in context.now) (term_of context.now.text.now show.now) prop }
    ensures ok { IfOk result (λ terms. AreGoalTerms (gives_in context.now) (terms_of context.now.text.now hyps.now) (term_of context.now.text.now show.now) terms.table terms.hyps terms.show) }
    ensures size { (fault : Fault) → result ≡ Err (DeclRefusal.Faulty fault) → fault ≡ Fault.Size }
    ensures over { (fault : Fault) → result ≡ Err (DeclRefusal.Faulty fault) → AreTooMany (gives_in context.now) (terms_of context.now.text.now hyps.now) (term_of context.now.text.now show.now) }
{
    one_meaning();
    one_scheme();
    let Ok(mut table) = TermTable::new(context.alloc, 65536) else {
        return Err(DeclRefusal::Memory);
    };
    match intern_formulas(context, hyps, &mut table) {
        Ok(hyps) => match intern_formula(context, show, &mut table) {
            Ok(show) => Ok(GoalTerms { table, hyps, show }),
            Err(refusal) => Err(refusal),
        },
        Err(refusal) => Err(refusal),
    }
}

// The goal of these parts.
fn name_goal(alloc: Global, name: &[u8], scope: Scope, terms: GoalTerms) -> Result<Goal, Memory>
    requires { IsGoal (goal_data name.now scope.binders terms.table terms.hyps terms.show) }
    ensures { IfOk result (λ goal. goal ≡ goal_data name.now scope.binders terms.table terms.hyps terms.show) }
{
    let mut own = List::new(alloc);
    own.extend(name)?;
    let GoalTerms { table, hyps, show } = terms;
    Ok(Goal {
        name: own,
        constants: scope.into_binders(),
        terms: table,
        hyps,
        show,
    })
}

// The goal of a name, a scope and formulas.
fn goal_in(
    signature: &Signature,
    heading: &Heading<'_>,
    scope: Scope,
    hyps: &[Tree],
    show: &Tree,
) -> Result<Goal, DeclRefusal>
    requires hyps { All (IsPlacedTree heading.now.text.now) hyps.now }
    requires show { IsPlacedTree heading.now.text.now show.now }
    requires opened { IsOpened OfGoal signature.now (name_in heading.now) (bounds_in heading.now) scope }
    requires formulas { All (λ tree. HasSort (Gives signature.now scope) (term_of heading.now.text.now tree) prop) hyps.now }
    requires formula { HasSort (Gives signature.now scope) (term_of heading.now.text.now show.now) prop }
    requires label { IsLabel (name_in heading.now) }
    requires labels { AllByRecursion IsLabel (binder_names scope.binders) }
    ensures ok { IfOk result (IsGoalIn signature.now (name_in heading.now) scope (terms_of heading.now.text.now hyps.now) (term_of heading.now.text.now show.now)) }
    ensures declared { IfOk result (IsGoalDeclared signature.now) }
    ensures size { (fault : Fault) → result ≡ Err (DeclRefusal.Faulty fault) → fault ≡ Fault.Size }
    ensures over { (fault : Fault) → result ≡ Err (DeclRefusal.Faulty fault) → AreTooMany (Gives signature.now scope) (terms_of heading.now.text.now hyps.now) (term_of heading.now.text.now show.now) }
{
    one_meaning();
    let found = {
        let context = Context {
            alloc: heading.alloc,
            text: heading.text,
            signature,
            scope: &scope,
        };
        goal_terms(&context, hyps, show)
    };
    match found {
        Ok(terms) => {
            let _nodes = terms.table.len();
            let name = bytes_of(heading.text, heading.name);
            match name_goal(heading.alloc, name, scope, terms) {
                Ok(goal) => Ok(goal),
                Err(_) => Err(DeclRefusal::Memory),
            }
        }
        Err(refusal) => Err(refusal),
    }
}

/// The goal that a declaration makes under a signature.
pub(crate) fn read_goal(
    signature: &Signature,
    heading: &Heading<'_>,
    hyps: &[Tree],
    show: &Tree,
) -> Result<Goal, DeclRefusal>
    requires hyps { All (IsPlacedTree heading.now.text.now) hyps.now }
    requires show { IsPlacedTree heading.now.text.now show.now }
    requires label { IsLabel (name_in heading.now) }
    requires labels { AllByRecursion IsLabel (bound_names (bounds_in heading.now)) }
    ensures ok { IfOk result (IsGoalAdded signature.now (goal_under heading.now hyps.now show.now) (with_label signature.now (name_in heading.now))) }
    ensures declared { IfOk result (IsGoalDeclared signature.now) }
    ensures faulty { (fault : Fault) → result ≡ Err (DeclRefusal.Faulty fault) → HasFault signature.now (goal_under heading.now hyps.now show.now) fault }
{
    let scope = match open_scope(signature, BinderKind::Constant, heading) {
        Ok(scope) => scope,
        Err(refusal) => return Err(refusal),
    };
    let found = {
        let context = Context {
            alloc: heading.alloc,
            text: heading.text,
            signature,
            scope: &scope,
        };
        fault_of_formulas(&context, hyps, show)
    };
    if let Some(fault) = found {
        return Err(DeclRefusal::Faulty(fault));
    }
    match goal_in(signature, heading, scope, hyps, show) {
        Ok(goal) => Ok(goal),
        Err(refusal) => Err(refusal),
    }
}
