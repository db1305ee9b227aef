//! Lists of numbers and of statuses.
ghost use Rattle.std.specs.Prelude.{◌≡◌, ◌<◌, [], length, take, All, MatchOption};
ghost use Rattle.components.specs.Searches.{IsLast, AreNumbered};

use crate::search::Status;
use sqlite_items::Items;

/// The last number of a list.
pub fn last(list: &[usize]) -> Option<usize>
    ensures { MatchOption result (list.now ≡ []) (IsLast list.now) }
{
    list.last().copied()
}

/// Cuts a list off at this length.
pub fn cut(list: &mut Items<usize>, size: usize)
    ensures { list.new ≡ take size list.old }
{
    while list.len() > size {
        let _ = list.pop();
    }
}

/// Closes each node of a list with this number.
pub fn number_nodes(statuses: &mut Items<Status>, nodes: &[usize], number: u64)
    requires { All (λ v. v < length statuses.old) nodes.now }
    ensures { AreNumbered statuses.old statuses.new nodes.now number }
{
    for node in nodes {
        statuses.set(*node, Status::Closed(number));
    }
}
