//! The order of monomials.
ghost use Rattle.std.specs.Prelude.{◌≡◌, IfOk};
ghost use Rattle.grind_monomials.specs.Order.{place, place_by_nodes};

use grind_term_graph::NodeId;

/// Where a monomial stands beside another.
#[derive(Clone, Copy, Debug, PartialEq, Eq)]
pub enum Place {
    /// It is the greater one.
    Above,
    /// They are one monomial.
    Same,
    /// It is the lesser one.
    Below,
}

/// Where the first monomial stands beside the second. One of higher degree is greater, and of two of one degree the
/// one whose list of nodes comes first.
pub fn compare(a: &[NodeId], b: &[NodeId]) -> Place
    ensures { result ≡ place a.now b.now }
{
    if b.len() < a.len() {
        return Place::Above;
    }
    if a.len() < b.len() {
        return Place::Below;
    }
    compare_nodes(a, b)
}

// Where the first of two lists of one length stands beside the second.
fn compare_nodes(a: &[NodeId], b: &[NodeId]) -> Place
    ensures { result ≡ place_by_nodes a.now b.now }
{
    let mut rest = a;
    let mut others = b;
    while let Some((x, xs)) = rest.split_first() {
        let Some((y, ys)) = others.split_first() else {
            return Place::Same;
        };
        if *x < *y {
            return Place::Above;
        }
        if *y < *x {
            return Place::Below;
        }
        rest = xs;
        others = ys;
    }
    Place::Same
}
