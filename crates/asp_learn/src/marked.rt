// Variables that a walk came to, as a list and as marks.
ghost use Rattle.std.specs.Prelude.{◌≡◌, ◌++◌, ◌<◌, ◌≤◌, [], ◌∷◌, Bool, List, length, true, slice_set, vec_len, IsFalse, OnOk};
ghost use Rattle.std.specs.List.{All};
ghost use Rattle.theory_form.specs.declared.literals.Var.{Var as Variable};
ghost use Rattle.asp_learn.specs.Marked.{AreCleared, AreMarked, marked};

use std::alloc::AllocError;
use theory_form::{Marks, Var};

/// Marks a variable that is not marked, and puts it on the list. Where memory runs out nothing changes.
pub fn visit(seen: &mut Vec<Var>, v: Var, marks: &mut Marks) -> Result<(), AllocError>
    requires { v.0 < length marks.old }
    ensures seen { OnOk result (seen.new.items ≡ seen.old.items ++ v ∷ []) }
    ensures len { vec_len seen.old ≤ vec_len seen.new }
    ensures bits { OnOk result (marks.new ≡ slice_set marks.old v.0 true) }
    ensures marked { (base : List Bool) → IsFalse (marked marks.old v.0) → AreMarked seen.old.items base marks.old → AreMarked seen.new.items base marks.new }
{
    seen.push(v)?;
    marks.set(v);
    Ok(())
}

/// Takes the marks of these variables away.
pub fn clear_all(seen: &[Var], marks: &mut Marks)
    requires { All (λ (v : Variable). v.0 < length marks.old) seen.now }
    ensures { AreCleared seen.now marks.old marks.new }
{
    for v in seen {
        marks.clear(*v);
    }
}
