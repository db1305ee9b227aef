// Bodies and supports, with a set of variables as marks.
ghost use Rattle.std.specs.Prelude.{◌≡◌};
ghost use Rattle.std.specs.List.{list_any};
ghost use Rattle.theory_model.specs.Loops as loops;
ghost use Rattle.loop_nogoods.specs.Bodies as spec;
ghost use Rattle.loop_nogoods.specs.Bodies.{marked_set};

use theory_form::{Lit, Marks, Theory, Var};

// The literals of the body that a variable stands for, and none where it stands for no body.
pub(crate) fn body_lits(t: &Theory, v: Var) -> &[Lit]
    ensures { result.now ≡ spec.body_lits t.now v.0 }
{
    match t.body(v) {
        Some(row) => row.lits.as_slice(),
        None => &[],
    }
}

// The supports of a variable, and none where it is no atom.
pub(crate) fn support_lits(t: &Theory, v: Var) -> &[Lit]
    ensures { result.now ≡ spec.support_lits t.now v.0 }
{
    match t.supports(v) {
        Some(supports) => supports,
        None => &[],
    }
}

// Whether the theory has a variable of this number.
pub(crate) fn is_variable(t: &Theory, v: Var) -> bool
    ensures { result ≡ spec.is_variable t.now v.0 }
{
    0 < v.0 && v.0 <= t.var_count()
}

// Whether the theory has this variable, and it is marked.
pub(crate) fn is_in(t: &Theory, marks: &Marks, v: Var) -> bool
    ensures { result ≡ marked_set t.now marks.now v.0 }
{
    is_variable(t, v) && marks.is_marked(v)
}

// Whether the literal is the positive one of a marked variable.
fn is_positive_in(t: &Theory, marks: &Marks, l: Lit) -> bool
    ensures { result ≡ loops.is_positive_in (marked_set t.now marks.now) l }
{
    l.yes && is_in(t, marks, l.var)
}

// Whether one of the literals is.
fn any_positive_in(t: &Theory, marks: &Marks, lits: &[Lit]) -> bool
    ensures { result ≡ list_any (loops.is_positive_in (marked_set t.now marks.now)) lits.now }
{
    lits.iter().any(|l| is_positive_in(t, marks, *l))
}

// Whether a support rests on the set of the marked variables.
pub(crate) fn is_internal(t: &Theory, marks: &Marks, support: Lit) -> bool
    ensures { result ≡ loops.is_internal t.now (marked_set t.now marks.now) support }
{
    support.yes && any_positive_in(t, marks, body_lits(t, support.var))
}
