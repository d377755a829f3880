//! The terms that schemes become once nodes stand for their variables.
ghost use Rattle.std.specs.Prelude.{◌≡◌, ◌<◌, ◌≤◌, length, IfOk, IsErrOf};
ghost use Rattle.grind_term_graph.specs.declared.table.TermRefusal.{TermRefusal};
ghost use Rattle.grind_term_graph.specs.Shape.{WellShaped};
ghost use Rattle.grind_term_graph.specs.Placed.{placed};
ghost use Rattle.grind_schemes.specs.Instances.{node_of, interned, IsUnderway, IsSubstitution, Suits};
ghost use Rattle.grind_schemes.specs.InstanceRows.{interned_list, SuitsEach};
ghost use Rattle.grind_schemes.specs.InstanceNodes.{AreInstanceNodesPast, AddsInstance};

use crate::counting::missing;
use crate::scheme::Scheme;
use crate::theorem::Theorem;
use grind_outside::List;
use grind_term_graph::{Args, Head, Node, NodeId, SortId, TermRefusal, TermTable};
use std::alloc::Global;

/// The node of a theorem's body, where these nodes stand for its variables. The absent nodes of the instance go last,
/// arguments before their node and from the left, and nothing else is added.
///
/// # Errors
///
/// `Full` exactly where more nodes are needed than the limit allows; the table is then unchanged. `Memory` where
/// memory was wanted; the table then may have some of the nodes.
pub fn instantiate(
    alloc: Global,
    theorem: &Theorem,
    subst: &[NodeId],
    table: &mut TermTable,
) -> Result<NodeId, TermRefusal>
    requires { IsSubstitution table.old.nodes theorem.now.vars subst.now }
    ensures ok { IfOk result (λ id. (table.new.nodes, id) ≡ interned table.old.nodes subst.now theorem.now.body) }
    ensures room { IfOk result (λ _. length (interned table.old.nodes subst.now theorem.now.body).0 ≤ table.old.limit) }
    ensures full { IsErrOf result TermRefusal.Full → table.old.limit < length (interned table.old.nodes subst.now theorem.now.body).0 }
    ensures unchanged { IsErrOf result TermRefusal.Full → table.new ≡ table.old }
    ensures underway { IsUnderway table.old table.new (interned table.old.nodes subst.now theorem.now.body).0 }
    ensures adds { IfOk result (λ id. AddsInstance table.old.nodes subst.now theorem.now.body table.new.nodes id) }
    ensures only { AreInstanceNodesPast (length table.old.nodes) (interned table.old.nodes subst.now theorem.now.body).0 subst.now theorem.now.body }
{
    let _name = theorem.name();
    let count = missing(alloc, theorem, subst, table)?;
    if count > table.limit() - table.len() {
        return Err(TermRefusal::Full);
    }
    intern_scheme(alloc, &theorem.body, subst, table)
}

/// The node of a scheme, where these nodes stand for its variables. Nodes that are absent go last, arguments before
/// their node and from the left. There is no roll-back: after a refusal the table may have some of the nodes.
///
/// # Errors
///
/// `Full` only where more nodes are needed than the limit allows; `Memory` where a node finds none.
#[cycle(interning)]
pub fn intern_scheme(
    alloc: Global,
    scheme: &Scheme,
    subst: &[NodeId],
    table: &mut TermTable,
) -> Result<NodeId, TermRefusal>
    requires { Suits table.old.nodes subst.now scheme.now }
    ensures ok { IfOk result (λ id. (table.new.nodes, id) ≡ interned table.old.nodes subst.now scheme.now) }
    ensures full { IsErrOf result TermRefusal.Full → table.old.limit < length (interned table.old.nodes subst.now scheme.now).0 }
    ensures underway { IsUnderway table.old table.new (interned table.old.nodes subst.now scheme.now).0 }
{
    match scheme {
        Scheme::Var(number) => Ok(subst[*number as usize]),
        Scheme::Apply { head, sort, args } => {
            let ids = match intern_args(alloc, args, subst, table) {
                Ok(ids) => ids,
                Err(refusal) => return Err(refusal),
            };
            intern_node(alloc, *head, *sort, ids.as_slice(), table)
        }
    }
}

// The nodes of several schemes, one after the other.
#[cycle(interning)]
fn intern_args(
    alloc: Global,
    args: &[Scheme],
    subst: &[NodeId],
    table: &mut TermTable,
) -> Result<List<NodeId>, TermRefusal>
    requires { SuitsEach table.old.nodes subst.now args.now }
    ensures ok { IfOk result (λ ids. (table.new.nodes, ids) ≡ interned_list table.old.nodes subst.now args.now) }
    ensures full { IsErrOf result TermRefusal.Full → table.old.limit < length (interned_list table.old.nodes subst.now args.now).0 }
    ensures underway { IsUnderway table.old table.new (interned_list table.old.nodes subst.now args.now).0 }
{
    let mut ids = List::new(alloc);
    for arg in args {
        let id = match intern_scheme(alloc, arg, subst, table) {
            Ok(id) => id,
            Err(refusal) => return Err(refusal),
        };
        ids.push(id)?;
    }
    Ok(ids)
}

// The node of a head at these arguments. It goes last if it is new.
fn intern_node(
    alloc: Global,
    head: Head,
    sort: SortId,
    ids: &[NodeId],
    table: &mut TermTable,
) -> Result<NodeId, TermRefusal>
    requires fits { WellShaped table.old.nodes (node_of head sort ids.now) }
    requires few { length ids.now ≤ 16 }
    ensures ok { IfOk result (λ id. (table.new.nodes, id) ≡ placed table.old.nodes (node_of head sort ids.now)) }
    ensures full { IsErrOf result TermRefusal.Full → table.old.limit < length (placed table.old.nodes (node_of head sort ids.now)).0 }
    ensures underway { IsUnderway table.old table.new (placed table.old.nodes (node_of head sort ids.now)).0 }
{
    let args = Args::from_slice(alloc, ids)?;
    let node = Node { head, sort, args };
    match table.intern(alloc, node) {
        Ok(id) => Ok(id),
        Err(refusal) => Err(refusal),
    }
}
