//! A table of terms in which equal terms have one number. A term is a node: a head, a sort and the
//! numbers of its arguments, which stand before it. The table holds no node twice, answers the number
//! of a node in one look-up, and never gives a number another node.
#![tactic(auto)]

pub mod args;
pub mod head;
pub mod ids;
pub mod laws;
pub mod node;
pub mod table;

pub use args::Args;
pub use head::Head;
pub use ids::{FunId, NodeId, SortId};
pub use laws::{
    beginnings_chain, begins_by_its_first_nodes, nodes_are_placed_once, nodes_keep_their_numbers,
    same_nodes_are_equal, tables_begin_with_themselves,
};
pub use node::Node;
pub use table::{TermRefusal, TermTable};
