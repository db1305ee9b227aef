// Tables of marks that are all taken away at once: a variable is marked where its stamp is that of the present round.
ghost use Rattle.std.specs.Prelude.{◌≡◌, ◌<◌, ◌↔◌, ℕ, length, take, true, slice_set, IsFalse, IsTrue, OnErr, OnOk};
ghost use Rattle.theory_form.specs.Numbers.{grown};
ghost use Rattle.loop_nogoods.specs.Marks.{marked};

use std::alloc::{AllocError, Global};
use std::marker::Model;
use theory_form::Var;

#[derive(Drop)]
pub struct Stamps {
    stamps: Vec<u64>,
    round: u64,
}

impl Model for Stamps {
    ghost use Rattle.std.specs.Prelude.{List, Bool, map, ◌==◌};

    ghost Value = { List Bool };

    ghost use Rattle.loop_nogoods.specs.Stamps.{IsStamped};

    ghost view = { λ s. map (λ stamp. stamp == s.round) s.stamps.items };

    ghost invariant = { λ s. IsStamped s.stamps.items s.round };
}

// Makes so many stamps, of which each new one is of no round.
fn resize(stamps: &mut Vec<u64>, places: usize) -> Result<(), AllocError>
    ensures ok { OnOk result (stamps.new.items ≡ grown (take places stamps.old.items) places 0) }
    ensures err { OnErr result (stamps.new.items ≡ take places stamps.old.items) }
{
    stamps.truncate(places);
    stamps.resize(places, 0)?;
    Ok(())
}

impl Stamps {
    // The table without marks.
    pub(crate) fn new(alloc: Global) -> Self {
        Stamps {
            stamps: Vec::new(alloc),
            round: 1,
        }
    }

    // Takes every mark away. After the last round that can be numbered the stamps are forgotten.
    fn clear(&mut self)
        ensures { (v : ℕ) → IsFalse (marked self.new v) }
    {
        match self.round.checked_add(1) {
            Some(round) => self.round = round,
            None => {
                self.stamps.clear();
                self.round = 1;
            }
        }
    }

    // Takes every mark away, and makes so many places.
    pub(crate) fn restart(&mut self, places: usize) -> Result<(), AllocError>
        ensures places { OnOk result (length self.new ≡ places) }
        ensures clear { OnOk result ((v : ℕ) → IsFalse (marked self.new v)) }
    {
        self.clear();
        resize(&mut self.stamps, places)?;
        Ok(())
    }

    // Marks a variable.
    pub(crate) fn set(&mut self, v: Var)
        requires { v.0 < length self.old }
        ensures { self.new ≡ slice_set self.old v.0 true }
    {
        self.stamps[v.0 as usize] = self.round;
    }

    // Whether a variable is marked. One without a place is not.
    pub(crate) fn is_marked(&self, v: Var) -> bool
        ensures { IsTrue result ↔ IsTrue (marked self.now v.0) }
    {
        self.stamps.get(v.0 as usize).copied() == Some(self.round)
    }
}
