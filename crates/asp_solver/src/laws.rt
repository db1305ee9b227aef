//! Which theories can be searched.
ghost use Rattle.ground_form.specs.Programs.{Parts};
ghost use Rattle.ground_form.specs.Ranges.{IsInRange};
ghost use Rattle.theory_build.specs.Completion.{base_theory};
ghost use Rattle.asp_solver.specs.Conditions.{CanSearch, SkipsNone};

use theory_law::theories_stand;

/// A program's own theory is one that `Solver::new` takes.
pub fn base_theories_can_be_searched()
    ensures can_search { (g : Parts) → IsInRange g → CanSearch (base_theory g) }
    ensures skips { (g : Parts) → SkipsNone (base_theory g) }
{
    theories_stand();
}
