// What is computed of rules.
ghost use Rattle.std.specs.Prelude.{◌≡◌, ◌+◌, length, IfOk};
ghost use Rattle.pred_graph.specs.Known.{IsSafe};

use crate::decided::{leading, undecided};
use crate::graph::edges_of;
use crate::pred::Pred;
use crate::rows::numbers_of;
use crate::safe::Safe;
use crate::table::table_of;
use ap_syntax::Rule;
use indexmap::IndexSet;
use std::alloc::{AllocError, Global};

/// How many nodes the graph has.
fn count_nodes(table: &IndexSet<Pred>, rules: &[Rule]) -> Result<usize, AllocError>
    ensures { IfOk result (λ size. size ≡ length table.now.keys + length rules.now) }
{
    table.len().checked_add(rules.len()).ok_or(AllocError)
}

/// The components of the predicates that the rules mention, and which predicates are definite. `base` tells whether the rules
/// are those of a base program or those of a type's program. It fails for want of memory; where `pred_of` fails for one of the
/// atoms, and where the number of a node is no `usize`, it answers that too.
pub fn judge(alloc: Global, rules: &[Rule], base: bool) -> Result<Safe, AllocError>
    ensures safe { IfOk result (IsSafe rules.now) }
    ensures base { IfOk result (λ safe. safe.base ≡ base) }
{
    let table = table_of(alloc, rules)?;
    let edges = edges_of(alloc, &table, rules)?;
    let size = count_nodes(&table, rules)?;
    let numbers = numbers_of(alloc, size, edges.as_slice())?;
    let (edge_list, number_list) = (edges.as_slice(), numbers.as_slice());
    let nodes = undecided(alloc, base, &table, number_list, edge_list, rules)?;
    let indefinite = leading(alloc, size, edge_list, nodes.as_slice())?;
    Ok(Safe {
        base,
        table,
        numbers,
        indefinite,
    })
}
