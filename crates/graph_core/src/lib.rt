//! Directed graphs: a topological order by depth-first search (fanins first), and the first node on a cycle. A
//! graph is the list of each node's fanins, the nodes that it reads; orders and paths are defined in `specs/`.
//! The crate is independent of what the nodes are.
//!
//! The search keeps its stack on the heap, so that paths may be as long as the number of nodes. The first node
//! on a cycle is found by strongly connected components (Tarjan, 1972). Their numbers aren't proved but checked:
//! if they never rise from a node to a fanin, a node whose fanins all have smaller numbers is on no cycle.
//!
//! ```text
//! // node 0 reads the nodes 2 and 1, and these read nothing: the order is 2, 1, 0
//! visit_all(alloc, &[Fanins::new(two_and_one), Fanins::new(none), Fanins::new(none)])?
//! ```
#![tactic(auto)]

mod components;
mod cycles;
mod visiting;

pub use cycles::first_cyclic;
pub use visiting::{Fanins, visit_all};
