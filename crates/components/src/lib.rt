//! The strongly connected components of a finite graph, found in a time that is linear in its size.
#![tactic(auto)]

ghost use Rattle.std.specs.Prelude.{◌<◌, ◌↔◌, All, IsTrue, IfOk};
ghost use Rattle.components.specs.Graphs.{IsGraph, AreComponentNumbers};

mod marks;
mod search;
#[cfg(test)]
mod tests;

use crate::search::component_numbers;
use sqlite_items::Items;
use std::alloc::{AllocError, Global};

fn are_below(nodes: usize, list: &[usize]) -> bool
    ensures { IsTrue result ↔ All (λ b. b < nodes) list.now }
{
    list.iter().all(|node| *node < nodes)
}

/// Whether each successor in these lists is a node. There is a node for each list, and nodes are counted from 0.
pub fn is_graph(successors: &[Items<usize>]) -> bool
    ensures { IsTrue result ↔ IsGraph successors.now }
{
    for list in successors {
        if !are_below(successors.len(), list.as_slice()) {
            return false;
        }
    }
    true
}

/// A number for each node of a graph, from 1 on and with no gap (Gabow, "Path-based depth-first search for strong and
/// biconnected components", 2000; Cheriyan and Mehlhorn, "Algorithms for dense graphs and networks on the random access
/// computer", 1996). Two nodes have the same number exactly if each reaches the other by a walk along edges. If a node reaches
/// another that does not reach it, the other has the lower number.
///
/// The graph is given by the successors of each node. Each of them has to be a node: `is_graph` tells whether they are. The
/// one error is want of memory. It takes one step for each edge and three for each node.
pub fn components(alloc: Global, successors: &[Items<usize>]) -> Result<Items<u64>, AllocError>
    requires { IsGraph successors.now }
    ensures { IfOk result (AreComponentNumbers successors.now) }
{
    component_numbers(alloc, successors)
}
