//! The theorem of a declaration.
ghost use Rattle.std.specs.Prelude.{◌≡◌, ◌↔◌, ◌<◌, All, IfOk, IsTrue, Err, length};
ghost use Rattle.grind_term_graph.specs.Terms.{prop};
ghost use Rattle.grind_schemes.specs.Theorems.{IsTheorem, theorem_data};
ghost use Rattle.grind_grammar.specs.Keeps.{IsPlaced, IsPlacedTree, name_of, term_of};
ghost use Rattle.grind_signature.specs.Signatures.{with_label};
ghost use Rattle.grind_resolution.specs.Scopes.{variable_sorts};
ghost use Rattle.grind_resolution.specs.Contexts.{gives_in};
ghost use Rattle.grind_resolution.specs.Sorting.{HasSort, IsSorted};
ghost use Rattle.grind_annotations.specs.Written.{AllWritten, annotations_of, IsPlacedAnnot};
ghost use Rattle.grind_theory.specs.Headings.{name_in, theorem_under};
ghost use Rattle.grind_theory.specs.Declaring.{HasFault, IsTheoremAdded};
ghost use Rattle.grind_theory.specs.Theorems.{IsTheoremIn, FaultOfTheorem};

use crate::binders::{open_scope, sorts_of_binders};
use crate::heading::Heading;
use crate::theorem_faults::fault_of_terms;
use crate::theorem_sizes::is_small;
use crate::theory::{DeclRefusal, Fault};
use grind_annotations::lists_of_annots;
use grind_grammar::{Annot, Name, Tree};
use grind_outside::{List, Memory};
use grind_resolution::laws::{one_meaning, one_scheme, schemes_are_formed};
use grind_resolution::{BinderKind, Context, bytes_of, resolve};
use grind_schemes::{Scheme, Theorem};
use grind_signature::Signature;
use grind_term_graph::SortId;
use std::alloc::Global;

// Whether there is an annotation exactly where there is a variable.
fn is_annotated(vars: &[SortId], annots: &[Annot]) -> bool
    ensures { IsTrue result ↔ ((0 < length vars.now) ↔ (0 < length annots.now)) }
{
    let some_vars = vars.len() > 0;
    let some_annots = annots.len() > 0;
    some_vars == some_annots
}

// The theorem of these parts.
fn name_theorem(
    alloc: Global,
    name: &[u8],
    vars: List<SortId>,
    body: Scheme,
    patterns: List<List<Scheme>>,
) -> Result<Theorem, Memory>
    requires { IsTheorem (theorem_data name.now vars body patterns) }
    ensures { IfOk result (λ theorem. theorem ≡ theorem_data name.now vars body patterns) }
{
    let mut own = List::new(alloc);
    own.extend(name)?;
    Ok(Theorem {
        name: own,
        vars,
        body,
        patterns,
    })
}

// The theorem of a name, variables, annotations and a formula.
fn theorem_in(
    context: &Context<'_>,
    name: Name,
    vars: List<SortId>,
    annots: &[Annot],
    body: &Tree,
) -> Result<Theorem, DeclRefusal>
    requires name { IsPlaced context.now.text.now name }
    requires annots { All (IsPlacedAnnot context.now.text.now) annots.now }
    requires body { IsPlacedTree context.now.text.now body.now }
    requires variables { variable_sorts context.now.scope.now ≡ vars }
    requires sorted { AllWritten (IsSorted (gives_in context.now)) (annotations_of context.now.text.now annots.now) }
    requires formula { HasSort (gives_in context.now) (term_of context.now.text.now body.now) prop }
    ensures ok { IfOk result (IsTheoremIn (gives_in context.now) (name_of context.now.text.now name) vars (annotations_of context.now.text.now annots.now) (term_of context.now.text.now body.now)) }
    ensures faulty { (fault : Fault) → result ≡ Err (DeclRefusal.Faulty fault) → FaultOfTheorem (gives_in context.now) vars (annotations_of context.now.text.now annots.now) (term_of context.now.text.now body.now) fault }
{
    one_meaning();
    one_scheme();
    schemes_are_formed();
    let sorts = vars.as_slice();
    if !is_annotated(sorts, annots) {
        return Err(DeclRefusal::Faulty(Fault::Pattern));
    }
    let scheme = match resolve(context, body) {
        Ok(scheme) => scheme,
        Err(_) => return Err(DeclRefusal::Memory),
    };
    let found = match lists_of_annots(context, sorts, &scheme, annots) {
        Ok(found) => found,
        Err(_) => return Err(DeclRefusal::Memory),
    };
    let Some(lists) = found else {
        return Err(DeclRefusal::Faulty(Fault::Pattern));
    };
    if !is_small(sorts, annots, body) {
        return Err(DeclRefusal::Faulty(Fault::Size));
    }
    match name_theorem(
        context.alloc,
        bytes_of(context.text, name),
        vars,
        scheme,
        lists,
    ) {
        Ok(theorem) => Ok(theorem),
        Err(_) => Err(DeclRefusal::Memory),
    }
}

/// The theorem that a declaration makes under a signature.
pub(crate) fn read_theorem(
    signature: &Signature,
    heading: &Heading<'_>,
    annots: &[Annot],
    body: &Tree,
) -> Result<Theorem, DeclRefusal>
    requires annots { All (IsPlacedAnnot heading.now.text.now) annots.now }
    requires body { IsPlacedTree heading.now.text.now body.now }
    ensures ok { IfOk result (IsTheoremAdded signature.now (theorem_under heading.now annots.now body.now) (with_label signature.now (name_in heading.now))) }
    ensures faulty { (fault : Fault) → result ≡ Err (DeclRefusal.Faulty fault) → HasFault signature.now (theorem_under heading.now annots.now body.now) fault }
{
    let scope = match open_scope(signature, BinderKind::Variable, heading) {
        Ok(scope) => scope,
        Err(refusal) => return Err(refusal),
    };
    let vars = match sorts_of_binders(signature, heading) {
        Ok(vars) => vars,
        Err(_) => return Err(DeclRefusal::Memory),
    };
    let sorts = vars.as_slice();
    let context = Context {
        alloc: heading.alloc,
        text: heading.text,
        signature,
        scope: &scope,
    };
    if let Some(fault) = fault_of_terms(&context, sorts, annots, body) {
        return Err(DeclRefusal::Faulty(fault));
    }
    match theorem_in(&context, heading.name, vars, annots, body) {
        Ok(theorem) => Ok(theorem),
        Err(refusal) => Err(refusal),
    }
}
