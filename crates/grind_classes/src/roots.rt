//! The roots of nodes, in an array by node.
ghost use Rattle.std.specs.Prelude.{◌≡◌, ℕ, ◌<◌, All, length, OnOk};
ghost use Rattle.grind_classes.specs.Roots.{root_at, repointed};

use grind_outside::{List, Memory};
use grind_term_graph::NodeId;

// The root that is written for a node, if there is one.
pub(crate) fn root_of(roots: &[Option<NodeId>], n: NodeId) -> Option<NodeId>
    ensures { result ≡ root_at roots.now n }
{
    match roots.get(n.number() as usize) {
        Some(root) => *root,
        None => None,
    }
}

// Makes the array long enough for a node, by entries without a root.
pub(crate) fn reach(roots: &mut List<Option<NodeId>>, n: NodeId) -> Result<(), Memory>
    ensures same { (m : ℕ) → root_at roots.new m ≡ root_at roots.old m }
    ensures ok { OnOk result (n < length roots.new) }
{
    while roots.len() <= n.number() as usize {
        roots.push(None)?;
    }
    Ok(())
}

// Gives nodes one root.
pub(crate) fn repoint(roots: &mut List<Option<NodeId>>, nodes: &[NodeId], root: NodeId)
    requires { All (λ n. n < length roots.old) nodes.now }
    ensures { roots.new ≡ repointed roots.old nodes.now root }
{
    let mut rest = nodes;
    while let Some((n, tail)) = rest.split_first() {
        roots.set(n.number() as usize, Some(root));
        rest = tail;
    }
}
