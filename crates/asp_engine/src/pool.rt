// Which learned clauses are let go first. It is a hint: contracts see it as one value.
ghost use Rattle.std.specs.Prelude.{◌<◌, ◌≤◌};

use std::alloc::Global;
use std::marker::Model;
use theory_form::ClauseId;

// A learned clause that may be let go. The order is that in which clauses are kept: short ones first, and of two that are as long the
// one with the higher key.
#[derive(Clone, Copy, PartialEq, Eq, PartialOrd, Ord, Debug)]
pub(crate) struct Candidate {
    size: u64,
    key: u64,
}

/// The learned clauses that may be let go, by key.
#[derive(Drop)]
pub(crate) struct Pool {
    list: Vec<Candidate>,
}

impl Model for Pool {
    ghost Value = { Unit {0} };

    ghost view = { λ _. tt };
}

impl Pool {
    /// Without clauses.
    pub fn new(alloc: Global) -> Self {
        Pool {
            list: Vec::new(alloc),
        }
    }

    /// A clause was learned. Where memory runs out it is never let go.
    pub fn note(&mut self, key: ClauseId, size: usize) {
        let _noted = self.list.push(Candidate {
            size: size as u64,
            key: key.0,
        });
    }

    /// Puts those that are to be let go behind the others, and tells how many there are, and how many are to stay.
    pub fn rank(&mut self) -> (usize, usize) {
        let _sorted = self.list.sort();
        let all = self.list.len();
        (all / 2, all)
    }

    /// The key of the clause at a place.
    pub fn key_at(&self, at: usize) -> Option<ClauseId> {
        match self.list.get(at) {
            Some(candidate) => Some(ClauseId(candidate.key)),
            None => None,
        }
    }

    /// The clause at a place was let go; the last one comes to stand there.
    pub fn remove(&mut self, at: usize) {
        if at < self.list.len() {
            let _gone = self.list.swap_remove(at);
        }
    }
}
