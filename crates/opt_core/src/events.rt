//! What happens to chains, and what comes of it.
use ground_form::{AtomSet, SetId};

/// What happens in a search. Chains are numbered from 0.
///
/// * `Start`: a closed chain begins with a set that was not met.
/// * `Better`: a set was found that is preferred to the set of an open chain.
/// * `Stuck`: no set is preferred to the set of an open chain.
/// * `Dry`: the search has ended; no set is left.
#[derive(Debug, Drop)]
pub enum Event {
    Start { chain: u8, set: AtomSet },
    Better { chain: u8, set: AtomSet },
    Stuck { chain: u8 },
    Dry,
}

/// What comes of an event.
#[derive(Clone, Copy, Debug, PartialEq, Eq)]
pub enum Output {
    /// The chain is open with the new set.
    Nothing,
    /// The set of this number is to be printed, and its chain is closed.
    Print(SetId),
    /// The chain is closed, and nothing is to be printed.
    Closed,
    /// The search has ended.
    End,
}

/// A set that was passed, and the set that passed it: the second is preferred to the first.
#[derive(Clone, Copy, Debug, PartialEq, Eq)]
pub struct Passed {
    /// The number of the set that was passed.
    pub set: SetId,
    /// The number of the set that passed it.
    pub by: SetId,
}
