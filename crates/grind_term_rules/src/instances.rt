//! The rule of instances: inst.
ghost use Rattle.std.specs.Prelude.{IsTrue, ◌↔◌, ◌≡◌, ℕ, List, [], Some, None, IfSome, IfNone, slice_get};
ghost use Rattle.std.specs.Option.{IsSomeAnd};
ghost use Rattle.grind_term_graph.specs.Terms.{sort_at};
ghost use Rattle.grind_term_graph.specs.declared.node.Node.{Node as NodeData};
ghost use Rattle.grind_schemes.specs.Instances.{IsSubstitution, IsInstance};
ghost use Rattle.grind_claims.specs.Claims.{claims_of};
ghost use Rattle.grind_term_rules.specs.Instances.{AreInstancesOf};
ghost use Rattle.grind_term_rules.specs.TermRules.{IsBodyAt, IsInst};

use crate::setting::Setting;
use grind_claims::Claim;
use grind_schemes::{Lemmas, Scheme, Theorem};
use grind_term_graph::{Head, NodeId, SortId, TermTable};

/// inst: from nothing, what the theorem says of these nodes holds.
pub fn is_inst(
    setting: &Setting,
    theorem: u32,
    subst: &[NodeId],
    premises: &[&Claim],
    claim: &Claim,
) -> bool
    ensures { IsTrue result ↔ IsInst setting.now.lemmas.now setting.now.terms.now.nodes theorem subst.now (claims_of premises.now) claim.now }
{
    let Claim::Holds(node) = claim else {
        return false;
    };
    if !has_none(premises) {
        return false;
    }
    let Some(theorem) = theorem_at(setting.lemmas, theorem) else {
        return false;
    };
    is_body_at(setting.terms, theorem, subst, *node)
}

/// Whether there are no premises.
fn has_none(premises: &[&Claim]) -> bool
    ensures { IsTrue result ↔ (claims_of premises.now ≡ []) }
{
    premises.is_empty()
}

/// The theorem of that number, where there is one.
fn theorem_at(lemmas: &Lemmas, number: u32) -> Option<&Theorem>
    ensures some { IfSome result (λ theorem. slice_get lemmas.now.theorems number ≡ Some theorem.now) }
    ensures none { IfNone result (slice_get lemmas.now.theorems number ≡ None) }
{
    lemmas.theorems.as_slice().get(number as usize)
}

/// Whether the node is what the theorem says of these nodes.
fn is_body_at(terms: &TermTable, theorem: &Theorem, subst: &[NodeId], node: NodeId) -> bool
    ensures { IsTrue result ↔ IsBodyAt terms.now.nodes theorem.now subst.now node }
{
    let _name = theorem.name();
    is_substitution(terms, theorem.vars.as_slice(), subst)
        && is_instance(terms, &theorem.body, subst, node)
}

/// Whether there is a node of the right sort for each variable.
fn is_substitution(terms: &TermTable, vars: &[SortId], subst: &[NodeId]) -> bool
    ensures { IsTrue result ↔ IsSubstitution terms.now.nodes vars.now subst.now }
{
    let mut sorts = vars;
    let mut nodes = subst;
    while let Some((node, other_nodes)) = nodes.split_first() {
        let Some((sort, other_sorts)) = sorts.split_first() else {
            return false;
        };
        if !is_of_sort(terms, *node, *sort) {
            return false;
        }
        nodes = other_nodes;
        sorts = other_sorts;
    }
    sorts.is_empty()
}

/// Whether the node stands among the terms and has that sort.
fn is_of_sort(terms: &TermTable, node: NodeId, sort: SortId) -> bool
    ensures { IsTrue result ↔ (sort_at terms.now.nodes node ≡ Some sort) }
{
    node.number() < terms.len() && terms.sort(node) == sort
}

/// Whether the node is the scheme with the nodes of the substitution for its variables.
#[cycle(matching)]
fn is_instance(terms: &TermTable, scheme: &Scheme, subst: &[NodeId], id: NodeId) -> bool
    ensures { IsTrue result ↔ IsInstance terms.now.nodes subst.now scheme.now id }
{
    match scheme {
        Scheme::Var(number) => stands_at(subst, *number as usize, id),
        Scheme::Apply { head, sort, args } => {
            let Some(ids) = args_at(terms, id, *head, *sort) else {
                return false;
            };
            are_instances(terms, args, subst, ids)
        }
    }
}

/// Whether the nodes are the schemes, one by one.
#[cycle(matching)]
fn are_instances(terms: &TermTable, schemes: &[Scheme], subst: &[NodeId], ids: &[NodeId]) -> bool
    ensures { IsTrue result ↔ AreInstancesOf terms.now.nodes subst.now schemes.now ids.now }
{
    let mut rest = ids;
    for scheme in schemes {
        let Some((id, tail)) = rest.split_first() else {
            return false;
        };
        if !is_instance(terms, scheme, subst, *id) {
            return false;
        }
        rest = tail;
    }
    rest.is_empty()
}

/// Whether the node stands at that place, counted from 0.
fn stands_at(nodes: &[NodeId], place: usize, node: NodeId) -> bool
    ensures { IsTrue result ↔ (slice_get nodes.now place ≡ Some node) }
{
    place < nodes.len() && nodes[place] == node
}

/// The arguments of the node, where it has that head and that sort.
fn args_at(terms: &TermTable, id: NodeId, head: Head, sort: SortId) -> Option<&[NodeId]>
    ensures some { IfSome result (λ ids. IsSomeAnd (slice_get terms.now.nodes id)
        (λ (it : NodeData). (it.head ≡ head) × (it.sort ≡ sort) × (it.args ≡ ids.now))) }
    ensures none { IfNone result ((ids : List ℕ) → ¬ IsSomeAnd (slice_get terms.now.nodes id)
        (λ (it : NodeData). (it.head ≡ head) × (it.sort ≡ sort) × (it.args ≡ ids))) }
{
    if id.number() >= terms.len() {
        return None;
    }
    let node = terms.node(id);
    if node.head != head || node.sort != sort {
        return None;
    }
    Some(node.args.as_slice())
}
