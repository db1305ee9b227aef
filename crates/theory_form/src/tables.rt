// Tables by variable.
ghost use Rattle.std.specs.Prelude.{◌≡◌, ◌+◌, ◌<◌, ◌↔◌, [], length, false, true, slice_index_or, slice_set, IfOk, OnOk, OnErr, IsTrue};
ghost use Rattle.theory_form.specs.Numbers.{grown};

use crate::literals::Var;
use std::alloc::{AllocError, Global};
use std::marker::Model;

// How many places a table needs for the variables up to `vars`. A table of 2^64 places fits no memory.
pub(crate) fn places_up_to(vars: u64) -> Result<usize, AllocError>
    ensures { IfOk result (λ places. places ≡ vars + 1) }
{
    match vars.checked_add(1) {
        Some(places) => Ok(places as usize),
        None => Err(AllocError),
    }
}

/// A table of marks, one for each variable. Contracts see it as the list of its bits.
#[derive(Drop)]
pub struct Marks {
    bits: Vec<bool>,
}

impl Model for Marks {
    ghost use Rattle.std.specs.Prelude.{List, Bool};

    ghost Value = { List Bool };

    ghost view = { λ m. m.bits.items };
}

impl Marks {
    /// The table without bits.
    pub fn new(alloc: Global) -> Self
        ensures { result ≡ [] }
    {
        Marks {
            bits: Vec::new(alloc),
        }
    }

    /// Gives each variable up to `vars` that has no bit a clear one. Only memory can run out, and then nothing changes.
    pub fn reserve(&mut self, vars: u64) -> Result<(), AllocError>
        ensures ok { OnOk result (self.new ≡ grown self.old (vars + 1) false) }
        ensures err { OnErr result (self.new ≡ self.old) }
    {
        let places = places_up_to(vars)?;
        if self.bits.len() < places {
            self.bits.resize(places, false)?;
        }
        Ok(())
    }

    /// Marks a variable, which has a bit: it was reserved.
    pub fn set(&mut self, v: Var)
        requires { v.0 < length self.old }
        ensures { self.new ≡ slice_set self.old v.0 true }
    {
        self.bits[v.0 as usize] = true;
    }

    /// Takes the mark of a variable away, which has a bit: it was reserved.
    pub fn clear(&mut self, v: Var)
        requires { v.0 < length self.old }
        ensures { self.new ≡ slice_set self.old v.0 false }
    {
        self.bits[v.0 as usize] = false;
    }

    /// Whether a variable is marked. One without a bit is not.
    pub fn is_marked(&self, v: Var) -> bool
        ensures { IsTrue result ↔ (slice_index_or self.now v.0 false ≡ true) }
    {
        self.bits.get(v.0 as usize).copied().unwrap_or(false)
    }
}
