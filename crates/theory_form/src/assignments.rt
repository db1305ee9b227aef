// Assignments.
ghost use Rattle.std.specs.Prelude.{◌≡◌, ◌+◌, ◌<◌, ◌↔◌, [], length, Some, None, slice_set, OnOk, OnErr, IsTrue};
ghost use Rattle.theory_form.specs.Numbers.{grown};
ghost use Rattle.theory_form.specs.Truth.{IsTruth, IsTrueIn, IsFalseIn, IsFreeIn, value_of};

use crate::literals::{Lit, Var};
use crate::tables::places_up_to;
use std::alloc::{AllocError, Global};
use std::marker::Model;

/// What an assignment says of a literal.
#[derive(Clone, Copy, PartialEq, Eq, Debug)]
pub enum Truth {
    True,
    False,
    Free,
}

/// The values of variables, by their numbers. Contracts see the table of them, in which `None` stands where a variable has
/// no value.
#[derive(Drop)]
pub struct Assignment {
    values: Vec<Option<bool>>,
}

impl Model for Assignment {
    ghost use Rattle.std.specs.Prelude.{List, Option, Bool};

    ghost Value = { List (Option Bool) };

    ghost view = { λ a. a.values.items };
}

impl Assignment {
    /// The assignment without room and without values.
    pub fn new(alloc: Global) -> Self
        ensures { result ≡ [] }
    {
        Assignment {
            values: Vec::new(alloc),
        }
    }

    /// How many places the table has: there is room for each variable below this number.
    pub fn places(&self) -> u64
        ensures { result ≡ length self.now }
    {
        self.values.len() as u64
    }

    /// The value of a variable, and `None` exactly where it is unassigned.
    pub fn value(&self, v: Var) -> Option<bool>
        ensures { result ≡ value_of self.now v.0 }
    {
        self.values.get(v.0 as usize).copied().unwrap_or(None)
    }

    /// Makes room for each variable up to `vars`. Only memory can run out, and then nothing changes.
    pub fn reserve(&mut self, vars: u64) -> Result<(), AllocError>
        ensures ok { OnOk result (self.new ≡ grown self.old (vars + 1) None) }
        ensures err { OnErr result (self.new ≡ self.old) }
    {
        let places = places_up_to(vars)?;
        if self.values.len() < places {
            self.values.resize(places, None)?;
        }
        Ok(())
    }

    /// Makes a literal true. There is room for its variable, which is below `places`.
    pub fn set(&mut self, l: Lit)
        requires { l.var.0 < length self.old }
        ensures { self.new ≡ slice_set self.old l.var.0 (Some l.yes) }
    {
        self.values[l.var.0 as usize] = Some(l.yes);
    }

    /// Takes the value of a variable away. There is room for it: it is below `places`.
    pub fn clear(&mut self, v: Var)
        requires { v.0 < length self.old }
        ensures { self.new ≡ slice_set self.old v.0 None }
    {
        self.values[v.0 as usize] = None;
    }

    /// What it says of a literal.
    pub fn truth(&self, l: Lit) -> Truth
        ensures { IsTruth self.now l result }
    {
        match self.value(l.var) {
            None => Truth::Free,
            Some(value) => {
                if value == l.yes {
                    Truth::True
                } else {
                    Truth::False
                }
            }
        }
    }

    /// Whether a literal is true.
    pub fn is_true(&self, l: Lit) -> bool
        ensures { IsTrue result ↔ IsTrueIn self.now l }
    {
        self.value(l.var) == Some(l.yes)
    }

    /// Whether a literal is false.
    pub fn is_false(&self, l: Lit) -> bool
        ensures { IsTrue result ↔ IsFalseIn self.now l }
    {
        self.value(l.var) == Some(!l.yes)
    }

    /// Whether the variable of a literal has no value.
    pub fn is_free(&self, l: Lit) -> bool
        ensures { IsTrue result ↔ IsFreeIn self.now l }
    {
        self.value(l.var).is_none()
    }
}
