//! What holds of every table of terms. Each law is a call without a body: who makes the call knows the law.
ghost use Rattle.grind_term_graph.specs.Laws as laws;

/// A table begins with itself.
pub fn tables_begin_with_themselves()
    ensures { laws.TablesBeginWithThemselves }
{}

/// Where a table begins with a second, and the second with a third, it begins with the third.
pub fn beginnings_chain()
    ensures { laws.BeginningsChain }
{}

/// A table begins with another exactly where so many of its first nodes are that other.
pub fn begins_by_its_first_nodes()
    ensures { laws.BeginsByItsFirstNodes }
{}

/// Where a table grows, each node keeps its number.
pub fn nodes_keep_their_numbers()
    ensures { laws.NodesKeepTheirNumbers }
{}

/// Two nodes are the same exactly where they are equal.
pub fn same_nodes_are_equal()
    ensures { laws.SameNodesAreEqual }
{}

/// A node that stands in a list stays, at its first number, and a new one goes last.
pub fn nodes_are_placed_once()
    ensures { laws.NodesArePlacedOnce }
{}
