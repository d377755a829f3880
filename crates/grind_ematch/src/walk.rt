//! Patterns at nodes.
ghost use Rattle.std.specs.Prelude.{◌≡◌, ◌≤◌, ◌<◌, ℕ, List, Option, Some, [], ◌∷◌, ◌++◌, ◌⊎◌, ◌↔◌, All, Contains, None, length, replicate, IfOk, OnOk, IsTrue};
ghost use Rattle.grind_classes.specs.Classes.{IsActive};
ghost use Rattle.grind_schemes.specs.Schemes.{IsScheme};
ghost use Rattle.grind_schemes.specs.declared.scheme.Scheme.{Var};
ghost use Rattle.grind_ematch.specs.Matches.{generation_of};
ghost use Rattle.grind_ematch.specs.Partials.{ListsClasses, ListsOneOf, HoldsBoth, GoesOnAt};

use crate::joining::joined;
use crate::partial::Partial;
use crate::query::Query;
use crate::slots::Slots;
use crate::thinning::thinned;
use grind_outside::{List, Memory};
use grind_schemes::Scheme;
use grind_term_graph::{Head, Node, NodeId, SortId};
use std::alloc::Global;

/// The partial matches of a pattern at these nodes.
#[cycle(walking)]
pub fn at_nodes(
    alloc: Global,
    query: &Query,
    pattern: &Scheme,
    nodes: &[NodeId],
) -> Result<List<Partial>, Memory>
    requires active { All (IsActive query.now.scene.classes) nodes.now }
    requires scheme { IsScheme query.now.vars pattern.now }
    ensures { IfOk result (λ list. ListsOneOf query.now pattern.now nodes.now list) }
{
    match pattern {
        Scheme::Var(number) => at_var(alloc, query, *number, nodes),
        Scheme::Apply { head, sort, args } => {
            let items = args.as_slice();
            let mut found = List::new(alloc);
            for n in nodes {
                let node = query.node(*n);
                if !is_headed(node, *head, *sort, items.len()) {
                    continue;
                }
                let from = query.generation(*n);
                if from > query.most() {
                    continue;
                }
                let list = match at_args(alloc, query, items, node.args.as_slice(), from) {
                    Ok(list) => list,
                    Err(want) => return Err(want),
                };
                append(&mut found, list)?;
            }
            let list = thinned(alloc, found)?;
            Ok(list)
        }
    }
}

/// The partial matches of several patterns, each at the class of its node, of generation at least the given one.
#[cycle(walking)]
fn at_args(
    alloc: Global,
    query: &Query,
    args: &[Scheme],
    ids: &[NodeId],
    from: u32,
) -> Result<List<Partial>, Memory>
    requires active { All (IsActive query.now.scene.classes) ids.now }
    requires schemes { All (IsScheme query.now.vars) args.now }
    requires pairs { length args.now ≡ length ids.now }
    requires least { from ≤ query.now.most }
    ensures { IfOk result (λ list. ListsClasses query.now from args.now ids.now list) }
{
    let mut found = start(alloc, query, from)?;
    for (k, arg) in args.iter().enumerate() {
        let nodes = query.targets(arg, ids[k]);
        let list = match at_nodes(alloc, query, arg, nodes) {
            Ok(list) => list,
            Err(want) => return Err(want),
        };
        found = joined(alloc, found.as_slice(), list)?;
    }
    Ok(found)
}

// Whether a node has this head and sort and so many arguments.
fn is_headed(node: &Node, head: Head, sort: SortId, count: usize) -> bool
    ensures { IsTrue result ↔ ((node.now.head ≡ head) × (node.now.sort ≡ sort) × (length node.now.args ≡ count)) }
{
    node.head == head && node.sort == sort && node.args.as_slice().len() == count
}

// Appends partial matches.
pub(crate) fn append(found: &mut List<Partial>, list: List<Partial>) -> Result<(), Memory>
    ensures { OnOk result (HoldsBoth found.old list found.new) }
{
    let mut rest = list;
    while let Some(partial) = rest.pop() {
        found.push(partial)?;
    }
    Ok(())
}

// The partial match in which no variable stands for anything, of this generation.
pub(crate) fn start(alloc: Global, query: &Query, from: u32) -> Result<List<Partial>, Memory>
    requires { from ≤ query.now.most }
    ensures { IfOk result (λ list. ListsClasses query.now from [] [] list) }
{
    let slots = empty(alloc, query.vars().len())?;
    let mut found = List::new(alloc);
    found.push(Partial {
        slots: Slots::new(slots),
        generation: from,
    })?;
    Ok(found)
}

// So many empty slots.
fn empty(alloc: Global, count: usize) -> Result<List<Option<NodeId>>, Memory>
    ensures { IfOk result (λ slots. slots ≡ replicate count None) }
{
    let mut slots = List::new(alloc);
    for _k in 0..count {
        slots.push(None)?;
    }
    Ok(slots)
}

// The partial matches of a variable at these nodes.
fn at_var(
    alloc: Global,
    query: &Query,
    number: u32,
    nodes: &[NodeId],
) -> Result<List<Partial>, Memory>
    requires active { All (IsActive query.now.scene.classes) nodes.now }
    requires within { number < length query.now.vars }
    ensures { IfOk result (λ list. ListsOneOf query.now (Var number) nodes.now list) }
{
    let mut found = List::new(alloc);
    for n in nodes {
        bind(alloc, query, number, *n, &mut found)?;
    }
    Ok(found)
}

// Appends the partial match in which the variable stands for the class of the node, if the node is of its sort.
fn bind(
    alloc: Global,
    query: &Query,
    number: u32,
    n: NodeId,
    found: &mut List<Partial>,
) -> Result<(), Memory>
    requires active { IsActive query.now.scene.classes n }
    requires within { number < length query.now.vars }
    ensures { OnOk result (GoesOnAt query.now number n found.old found.new) }
{
    let vars = query.vars();
    if !query.fits(n, number) {
        return Ok(());
    }
    let mut slots = empty(alloc, vars.len())?;
    slots.set(number as usize, Some(query.root(n)));
    found.push(Partial {
        slots: Slots::new(slots),
        generation: 0,
    })?;
    Ok(())
}
