// The numbers of nodes.
ghost use Rattle.std.specs.Prelude.{◌≡◌};
ghost use Rattle.pred_graph.specs.Graphs.{number_of};

/// The number of a node; 0 if it has none.
pub fn number_at(numbers: &[u64], node: usize) -> u64
    ensures { result ≡ number_of numbers.now node }
{
    match numbers.get(node) {
        Some(number) => *number,
        None => 0,
    }
}
