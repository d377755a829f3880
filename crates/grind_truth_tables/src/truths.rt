//! Truths of nodes under an assignment: a list of truths, one for each free node.
ghost use Rattle.std.specs.Prelude.{ℕ, ◌≤◌, ◌≡◌, ◌&&◌, ◌||◌, not, Bool, length, map, IfOk};
ghost use Rattle.std.specs.Option.{option_map};
ghost use Rattle.grind_truth_tables.specs.Needed.{Lists, RestsOn, IsSelfContained, told};
ghost use Rattle.grind_truth_tables.specs.Tables.{free_truth, unary_truth, binary_truth, implies, alike, joined_truth, truth_of, literal_truth, conclusion_truth};

use grind_claims::Claim;
use grind_outside::Memory;
use grind_term_graph::{Head, NodeId, TermTable};
use std::alloc::Global;
use std::collections::BTreeMap;

/// The truths of nodes, by their numbers.
pub type Truths = BTreeMap<u32, Option<bool>>;

/// The truths of these nodes under an assignment. The last of them comes first, since each rests on those after it.
///
/// # Errors
/// `Memory` where there is none.
pub fn truths_of(
    alloc: Global,
    terms: &TermTable,
    free: &[NodeId],
    chosen: &[bool],
    order: &[NodeId],
) -> Result<Truths, Memory>
    requires count { length free.now ≤ length chosen.now }
    requires contained { IsSelfContained terms.now.nodes free.now order.now }
    ensures { IfOk result (λ known. (n : ℕ) → Lists order.now n → told known n ≡ truth_of terms.now.nodes free.now chosen.now n) }
{
    let mut known = BTreeMap::new(alloc);
    for done in 0..order.len() {
        let place = order.len() - 1 - done;
        let node = order[place];
        let truth = node_truth(terms, free, chosen, &known, node);
        known.insert(node.number(), truth)?;
    }
    Ok(known)
}

/// The truth of a node, from those of the nodes on which it rests.
fn node_truth(
    terms: &TermTable,
    free: &[NodeId],
    chosen: &[bool],
    known: &Truths,
    node: NodeId,
) -> Option<bool>
    requires count { length free.now ≤ length chosen.now }
    requires told { (m : ℕ) → RestsOn terms.now.nodes free.now node m → told known.now m ≡ truth_of terms.now.nodes free.now chosen.now m }
    ensures { result ≡ truth_of terms.now.nodes free.now chosen.now node }
{
    if node.number() >= terms.len() {
        return None;
    }
    let it = terms.node(node);
    let chosen_truth = free_truth(free, chosen, node);
    if chosen_truth.is_some() {
        return chosen_truth;
    }
    joined_truth(it.head, known, it.args.as_slice())
}

/// What an assignment makes a free node, and nothing for another node.
fn free_truth(free: &[NodeId], chosen: &[bool], n: NodeId) -> Option<bool>
    ensures { result ≡ free_truth free.now chosen.now n }
{
    let mut nodes = free;
    let mut truths = chosen;
    while let Some((node, other_nodes)) = nodes.split_first() {
        let Some((truth, other_truths)) = truths.split_first() else {
            return None;
        };
        if *node == n {
            return Some(*truth);
        }
        nodes = other_nodes;
        truths = other_truths;
    }
    None
}

/// What a head makes of the truths of its arguments.
fn joined_truth(head: Head, known: &Truths, args: &[NodeId]) -> Option<bool>
    ensures { result ≡ joined_truth head (map (told known.now) args.now) }
{
    match head {
        Head::True => Some(true),
        Head::False => Some(false),
        Head::Not => negated(one_truth(known, args)),
        Head::And => both(two_truths(known, args)),
        Head::Or => either(two_truths(known, args)),
        Head::Implies => implied(two_truths(known, args)),
        Head::Eq => alike(two_truths(known, args)),
        Head::Le
        | Head::Int(_)
        | Head::Add
        | Head::Neg
        | Head::Mul
        | Head::Fun(_)
        | Head::Const(_) => None,
    }
}

/// The opposite of a truth.
fn negated(truth: Option<bool>) -> Option<bool>
    ensures { result ≡ option_map not truth }
{
    match truth {
        Some(truth) => Some(!truth),
        None => None,
    }
}

/// Whether both are true.
fn both(truths: Option<(bool, bool)>) -> Option<bool>
    ensures { result ≡ option_map (λ pair. pair.0 && pair.1) truths }
{
    match truths {
        Some((a, b)) => Some(a && b),
        None => None,
    }
}

/// Whether one of the two is true, or both.
fn either(truths: Option<(bool, bool)>) -> Option<bool>
    ensures { result ≡ option_map (λ pair. pair.0 || pair.1) truths }
{
    match truths {
        Some((a, b)) => Some(a || b),
        None => None,
    }
}

/// Whether the first implies the second.
fn implied(truths: Option<(bool, bool)>) -> Option<bool>
    ensures { result ≡ option_map (λ pair. implies pair.0 pair.1) truths }
{
    match truths {
        Some((a, b)) => Some(!a || b),
        None => None,
    }
}

/// Whether the two are one truth.
fn alike(truths: Option<(bool, bool)>) -> Option<bool>
    ensures { result ≡ option_map (λ pair. alike pair.0 pair.1) truths }
{
    match truths {
        Some((a, b)) => Some(a == b),
        None => None,
    }
}

/// The truth of the only argument, where there is one argument and it has a truth.
fn one_truth(known: &Truths, args: &[NodeId]) -> Option<bool>
    ensures { (f : Bool → Bool) → unary_truth f (map (told known.now) args.now) ≡ option_map f result }
{
    let [only] = args else {
        return None;
    };
    truth_at(known, *only)
}

/// The truths of the two arguments, where there are two and both have a truth.
fn two_truths(known: &Truths, args: &[NodeId]) -> Option<(bool, bool)>
    ensures { (f : Bool → Bool → Bool) → binary_truth f (map (told known.now) args.now)
        ≡ option_map (λ pair. f pair.0 pair.1) result }
{
    let [first, second] = args else {
        return None;
    };
    let Some(one) = truth_at(known, *first) else {
        return None;
    };
    let Some(other) = truth_at(known, *second) else {
        return None;
    };
    Some((one, other))
}

/// The truth of a node among those that are known.
fn truth_at(known: &Truths, node: NodeId) -> Option<bool>
    ensures { result ≡ told known.now node }
{
    match known.get(&node.number()) {
        Some(truth) => *truth,
        None => None,
    }
}

/// The truth of a literal.
pub fn literal_truth(known: &Truths, claim: &Claim) -> Option<bool>
    ensures { result ≡ literal_truth (told known.now) claim.now }
{
    match claim {
        Claim::Holds(node) => truth_at(known, *node),
        Claim::Fails(node) => negated(truth_at(known, *node)),
        Claim::Same(_, _)
        | Claim::Differ(_, _)
        | Claim::AtMost(_)
        | Claim::Zero(_)
        | Claim::Absurd => None,
    }
}

/// The truth of what the rule may claim: a literal, or a contradiction, which is never true.
pub fn conclusion_truth(known: &Truths, claim: &Claim) -> Option<bool>
    ensures { result ≡ conclusion_truth (told known.now) claim.now }
{
    match claim {
        Claim::Holds(node) => truth_at(known, *node),
        Claim::Fails(node) => negated(truth_at(known, *node)),
        Claim::Same(_, _) | Claim::Differ(_, _) | Claim::AtMost(_) | Claim::Zero(_) => None,
        Claim::Absurd => Some(false),
    }
}
