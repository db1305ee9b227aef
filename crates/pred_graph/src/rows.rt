// The successors of the nodes of a graph, and the numbers of its components.
ghost use Rattle.std.specs.Prelude.{◌≡◌, ℕ, ◌<◌, ◌++◌, ◌∷◌, [], length, All, OnOk, IfOk};
ghost use Rattle.pred_graph.specs.Graphs.{successors_of, IsSuccessorAdded, IsEdgeBelow, AreRows, AreNumbers};

use crate::graph::Edge;
use components::components;
use sqlite_items::Items;
use std::alloc::{AllocError, Global};

fn empty_rows(alloc: Global, nodes: usize) -> Result<Vec<Items<usize>>, AllocError>
    ensures size { IfOk result (λ rows. length rows.items ≡ nodes) }
    ensures none { IfOk result (λ rows. (a : ℕ) → successors_of rows.items a ≡ []) }
{
    let mut rows = Vec::new(alloc);
    for _ in 0..nodes {
        rows.push(Items::new(alloc))?;
    }
    Ok(rows)
}

fn push_successor(rows: &mut Vec<Items<usize>>, edge: Edge) -> Result<(), AllocError>
    requires { edge.from < length rows.old.items }
    ensures { OnOk result (IsSuccessorAdded rows.old.items rows.new.items edge) }
{
    rows[edge.from].push(edge.to)
}

/// The successors of each node.
fn rows_of(alloc: Global, nodes: usize, edges: &[Edge]) -> Result<Vec<Items<usize>>, AllocError>
    requires { All (IsEdgeBelow nodes) edges.now }
    ensures { IfOk result (λ rows. AreRows nodes edges.now rows.items) }
{
    let mut rows = empty_rows(alloc, nodes)?;
    for edge in edges {
        push_successor(&mut rows, *edge)?;
    }
    Ok(rows)
}

/// A number for each node: that of its component. Each edge must lie between nodes below `nodes`. It fails for want of memory
/// alone.
pub fn numbers_of(alloc: Global, nodes: usize, edges: &[Edge]) -> Result<Items<u64>, AllocError>
    requires { All (IsEdgeBelow nodes) edges.now }
    ensures { IfOk result (AreNumbers nodes edges.now) }
{
    let rows = rows_of(alloc, nodes, edges)?;
    components(alloc, rows.as_slice())
}
