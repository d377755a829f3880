//! How many nodes an instance needs that a table does not have yet.
ghost use Rattle.std.specs.Prelude.{◌≡◌, ◌+◌, ◌≤◌, ◌++◌, length, Contains, IfOk};
ghost use Rattle.std.specs.List.{position_or_len};
ghost use Rattle.grind_term_graph.specs.Same.{is_same_node};
ghost use Rattle.grind_term_graph.specs.Placed.{placed};
ghost use Rattle.grind_schemes.specs.Instances.{node_of, interned, IsSubstitution, Suits};
ghost use Rattle.grind_schemes.specs.InstanceRows.{interned_list, SuitsEach};

use crate::scheme::Scheme;
use crate::theorem::Theorem;
use grind_outside::{List, Memory};
use grind_term_graph::{Args, Head, Node, NodeId, SortId, TermTable};
use std::alloc::Global;

/// How many different nodes of the instance are absent from the table, where these nodes stand for the variables.
pub fn missing(
    alloc: Global,
    theorem: &Theorem,
    subst: &[NodeId],
    table: &TermTable,
) -> Result<u32, Memory>
    requires { IsSubstitution table.now.nodes theorem.now.vars subst.now }
    ensures { IfOk result (λ count. length table.now.nodes + count ≡ length (interned table.now.nodes subst.now theorem.now.body).0) }
{
    let _name = theorem.name();
    let mut fresh = List::new(alloc);
    find_scheme(alloc, &theorem.body, subst, table, &mut fresh)?;
    Ok(fresh.len() as u32)
}

// The node of a scheme in the table or among the fresh nodes, which have their numbers after those of the table.
#[cycle(finding)]
fn find_scheme(
    alloc: Global,
    scheme: &Scheme,
    subst: &[NodeId],
    table: &TermTable,
    fresh: &mut List<Node>,
) -> Result<NodeId, Memory>
    requires { Suits (table.now.nodes ++ fresh.old) subst.now scheme.now }
    ensures { IfOk result (λ id. (table.now.nodes ++ fresh.new, id) ≡ interned (table.now.nodes ++ fresh.old) subst.now scheme.now) }
{
    match scheme {
        Scheme::Var(number) => Ok(subst[*number as usize]),
        Scheme::Apply { head, sort, args } => {
            let ids = match find_args(alloc, args, subst, table, fresh) {
                Ok(ids) => ids,
                Err(want) => return Err(want),
            };
            let node = match node_at(alloc, *head, *sort, ids.as_slice()) {
                Ok(node) => node,
                Err(want) => return Err(want),
            };
            find_node(node, table, fresh)
        }
    }
}

// The nodes of several schemes, one after the other.
#[cycle(finding)]
fn find_args(
    alloc: Global,
    args: &[Scheme],
    subst: &[NodeId],
    table: &TermTable,
    fresh: &mut List<Node>,
) -> Result<List<NodeId>, Memory>
    requires { SuitsEach (table.now.nodes ++ fresh.old) subst.now args.now }
    ensures { IfOk result (λ ids. (table.now.nodes ++ fresh.new, ids) ≡ interned_list (table.now.nodes ++ fresh.old) subst.now args.now) }
{
    let mut ids = List::new(alloc);
    for arg in args {
        let id = match find_scheme(alloc, arg, subst, table, fresh) {
            Ok(id) => id,
            Err(want) => return Err(want),
        };
        ids.push(id)?;
    }
    Ok(ids)
}

// The node of a head at these arguments.
fn node_at(alloc: Global, head: Head, sort: SortId, ids: &[NodeId]) -> Result<Node, Memory>
    requires { length ids.now ≤ 16 }
    ensures { IfOk result (λ node. node ≡ node_of head sort ids.now) }
{
    let args = Args::from_slice(alloc, ids)?;
    Ok(Node { head, sort, args })
}

// The number of a node, which goes last among the fresh nodes if it is new.
fn find_node(node: Node, table: &TermTable, fresh: &mut List<Node>) -> Result<NodeId, Memory>
    ensures { IfOk result (λ id. (table.now.nodes ++ fresh.new, id) ≡ placed (table.now.nodes ++ fresh.old) node) }
{
    match table.find(&node) {
        Some(id) => Ok(id),
        None => find_fresh(node, table, fresh),
    }
}

// The number of a node that is absent from the table.
fn find_fresh(node: Node, table: &TermTable, fresh: &mut List<Node>) -> Result<NodeId, Memory>
    requires { ¬ Contains table.now.nodes node }
    ensures { IfOk result (λ id. (table.now.nodes ++ fresh.new, id) ≡ placed (table.now.nodes ++ fresh.old) node) }
{
    let place = place_among(fresh.as_slice(), &node);
    let number = table.len() as usize + place;
    if number >= 0xffff_ffff {
        return Err(Memory);
    }
    if place < fresh.len() {
        return Ok(NodeId::new(number as u32));
    }
    fresh.push(node)?;
    Ok(NodeId::new(number as u32))
}

// Where the node stands among the nodes, or how many they are.
fn place_among(nodes: &[Node], node: &Node) -> usize
    ensures value { result ≡ position_or_len (is_same_node node.now) nodes.now }
    ensures bound { result ≤ length nodes.now }
{
    let mut place = 0;
    let mut rest = nodes;
    while let Some((other, tail)) = rest.split_first() {
        if node.is_same(other) {
            return place;
        }
        place += 1;
        rest = tail;
    }
    place
}
