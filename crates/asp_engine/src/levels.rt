// The levels of literals.
ghost use Rattle.std.specs.Prelude.{◌≤◌, ◌⊎◌};
ghost use Rattle.theory_form.specs.Truth.{IsFreeIn};
ghost use Rattle.asp_store.specs.Store.{assigned};
ghost use Rattle.asp_learn.specs.Conflicts.{level_in};
ghost use Rattle.asp_engine.specs.Search.{HasTwoAbove};

use asp_store::Store;
use theory_form::Lit;

// The level of a literal. One without a value is above all levels.
fn level_at(s: &Store, l: Lit) -> u64
    ensures { IsFreeIn (assigned s.now) l ⊎ (result ≤ level_in s.now.entries l.var.0) }
{
    match s.why(l.var) {
        Some((_, level)) => level,
        None => u64::MAX,
    }
}

// The second highest level of the literals, where one without a value is above all levels, or 0 where there are no two literals.
pub(crate) fn second_level(s: &Store, lits: &[Lit]) -> u64
    ensures { HasTwoAbove s.now.places s.now.entries lits.now result }
{
    let mut top = 0;
    let mut second = 0;
    for l in lits {
        let level = level_at(s, *l);
        if level > top {
            second = top;
            top = level;
        } else if level > second {
            second = level;
        }
    }
    second
}
