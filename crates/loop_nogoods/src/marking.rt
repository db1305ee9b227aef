// Sets of variables as marks.
ghost use Rattle.std.specs.Prelude.{◌≡◌, ◌<◌, ◌&&◌, ℕ, All, IsTrue, length, slice_set};
ghost use Rattle.std.specs.List.{list_any};
ghost use Rattle.theory_form.specs.declared.literals.Var.{Var as Variable};
ghost use Rattle.theory_form.specs.Order.{lit_eq};
ghost use Rattle.loop_nogoods.specs.Bodies as spec;
ghost use Rattle.loop_nogoods.specs.Bodies.{is_support};
ghost use Rattle.loop_nogoods.specs.Marks.{Written};
ghost use Rattle.loop_nogoods.specs.Sets.{has};

use crate::supports::{is_variable, support_lits};
use theory_form::{Lit, Marks, Theory, Var};

// Marks a variable, or takes its mark away.
fn write(v: Var, value: bool, marks: &mut Marks)
    requires { v.0 < length marks.old }
    ensures { marks.new ≡ slice_set marks.old v.0 value }
{
    if value {
        marks.set(v);
    } else {
        marks.clear(v);
    }
}

// Marks the variables of a list, or takes their marks away.
pub(crate) fn write_all(vars: &[Var], value: bool, marks: &mut Marks)
    requires { All (λ (v : Variable). v.0 < length marks.old) vars.now }
    ensures { Written (has vars.now) value marks.old marks.new }
{
    for v in vars {
        write(*v, value, marks);
    }
}

// The same for the variables of the theory whose literal of this sign is in a list.
fn write_lits(t: &Theory, lits: &[Lit], yes: bool, value: bool, marks: &mut Marks)
    requires { (v : ℕ) → IsTrue (spec.is_variable t.now v) → v < length marks.old }
    ensures { Written (λ v. spec.is_variable t.now v && list_any (λ s. lit_eq s (record { var = record { 0 = v }; yes = yes })) lits.now) value marks.old marks.new }
{
    for l in lits {
        if l.yes == yes && is_variable(t, l.var) {
            write(l.var, value, marks);
        }
    }
}

// The same for those whose literal of this sign is a support of a member of `u`.
pub(crate) fn write_supports(t: &Theory, u: &[Var], yes: bool, value: bool, marks: &mut Marks)
    requires { (v : ℕ) → IsTrue (spec.is_variable t.now v) → v < length marks.old }
    ensures { Written (λ v. spec.is_variable t.now v && is_support t.now u.now (record { var = record { 0 = v }; yes = yes })) value marks.old marks.new }
{
    for v in u {
        write_lits(t, support_lits(t, *v), yes, value, marks);
    }
}
