// When a search starts again.
use std::marker::Model;

// So many conflicts are one unit of the sequence.
const UNIT: u64 = 100;

/// Counts conflicts, and tells after which of them a search starts again from level 0: after 100 times the members of the sequence
/// 1, 1, 2, 1, 1, 2, 4, .. of Luby, Sinclair and Zuckerman 1993.
#[derive(Drop)]
pub struct Restarts {
    // How many more conflicts there are before the next start.
    left: u64,
    // How many runs of length 1 were begun, and the length of the present run in units.
    ones: u64,
    units: u64,
}

impl Model for Restarts {
    ghost Value = { Unit {0} };

    ghost view = { λ _. tt };
}

impl Restarts {
    /// Before the first conflict.
    pub fn new() -> Self {
        Restarts {
            left: UNIT,
            ones: 1,
            units: 1,
        }
    }

    /// One conflict more; whether the search is to start again.
    pub fn is_due(&mut self) -> bool {
        self.left = self.left.saturating_sub(1);
        if self.left > 0 {
            return false;
        }
        self.begin_next();
        true
    }

    // Begins the next run. After a run that is as long as the greatest power of 2 that divides the number of runs of length 1, the next
    // one is of length 1; after every other run, the next one is twice as long.
    fn begin_next(&mut self) {
        if self.ones & self.ones.wrapping_neg() == self.units {
            self.ones = self.ones.wrapping_add(1);
            self.units = 1;
        } else {
            self.units = self.units.saturating_mul(2);
        }
        self.left = self.units.saturating_mul(UNIT);
    }
}
