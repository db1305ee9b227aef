// The hint rule.
ghost use Rattle.std.specs.Prelude.{◌≡◌, ◌↔◌, ◌+◌, ◌<◌, ◌≤◌, ℕ, Bool, List, Option, None, length, IsTrue, IfSome};
ghost use Rattle.theory_form.specs.Hints.{Follows, FollowsByHints, all_false, made_true};
ghost use Rattle.theory_form.specs.Truth.{value_of};
ghost use Rattle.proof_log.specs.Added.{slots_of};
ghost use Rattle.proof_log.specs.States.{clause_among};
ghost use Rattle.proof_log.specs.Working.{AreFree, AreOver, AreSame, Frees, HasValuesIn, HintsAreFree, HintsAreOver, IsHint, LitsAreFree};

use crate::added::Added;
use crate::clauses::clause_among;
use theory_form::{Assignment, ClauseId, Lit, Sight, Theory, Var, look};

// What the clause of a hint is under an assignment: it is false; or all its literals but one are false, and that one has
// no value; or neither.
#[derive(Clone, Copy, PartialEq, Eq)]
pub enum Hint {
    Refuted,
    Forces(Lit),
    Neither,
}

// What this hint is.
fn hint_at(theory: &Theory, added: &Added, values: &Assignment, id: ClauseId) -> Hint
    ensures { IsHint (clause_among theory.now (slots_of added.now)) values.now id.0 result }
{
    match clause_among(theory, added, id) {
        Some(clause) => {
            let lits = clause.lits();
            match look(values, lits) {
                Sight::Empty => Hint::Refuted,
                Sight::Single(place) => Hint::Forces(lits[place]),
                Sight::True(_) => Hint::Neither,
                Sight::Wide(_, _) => Hint::Neither,
            }
        }
        None => Hint::Neither,
    }
}

// Makes a literal true, if its variable is one of the first `vars`.
fn make_true(values: &mut Assignment, vars: u64, l: Lit)
    requires { vars < length values.old }
    ensures size { length values.new ≡ length values.old }
    ensures same { (a : List (Option Bool)) → length a ≡ vars + 1 → AreSame values.old a → AreSame values.new (made_true a l) }
    ensures within { (set : ℕ → Bool) → IsTrue (set l.var.0) → HasValuesIn set values.old → HasValuesIn set values.new }
{
    if l.var.0 <= vars {
        values.set(l);
    }
}

// Makes the literals false, where no variable has a value.
fn make_false(values: &mut Assignment, vars: u64, lits: &[Lit])
    requires room { vars < length values.old }
    requires free { AreFree values.old }
    ensures size { length values.new ≡ length values.old }
    ensures same { AreSame values.new (all_false (vars + 1) lits.now) }
    ensures within { (set : ℕ → Bool) → AreOver set lits.now → HasValuesIn set values.new }
{
    for l in lits.iter().rev() {
        make_true(values, vars, l.opposite());
    }
}

// Whether the hints, taken in order, end in a false clause: each but the last forces a literal, which is made true.
fn follows(
    theory: &Theory,
    added: &Added,
    values: &mut Assignment,
    vars: u64,
    hints: &[ClauseId],
) -> bool
    requires { vars < length values.old }
    ensures size { length values.new ≡ length values.old }
    ensures exact { (a : List (Option Bool)) → length a ≡ vars + 1 → AreSame values.old a → IsTrue result ↔ Follows (clause_among theory.now (slots_of added.now)) a hints.now }
    ensures within { (set : ℕ → Bool) → HintsAreOver set (clause_among theory.now (slots_of added.now)) hints.now → HasValuesIn set values.old → HasValuesIn set values.new }
{
    for (i, id) in hints.iter().enumerate() {
        let last = i + 1 == hints.len();
        match hint_at(theory, added, values, *id) {
            Hint::Refuted => return last,
            Hint::Forces(l) => {
                if last {
                    return false;
                }
                make_true(values, vars, l);
            }
            Hint::Neither => return false,
        }
    }
    false
}

// Takes the value of a variable away, if it has a place.
fn free(values: &mut Assignment, v: Var)
    ensures frees { Frees values.old values.new }
    ensures free { value_of values.new v.0 ≡ None }
{
    if v.0 < values.places() {
        values.clear(v);
    }
}

// The same for the variables of the literals.
fn free_lits(values: &mut Assignment, lits: &[Lit])
    ensures frees { Frees values.old values.new }
    ensures free { LitsAreFree values.new lits.now }
{
    for l in lits {
        free(values, l.var);
    }
}

// The same for the variables of the clause of a number.
fn free_hint(theory: &Theory, added: &Added, values: &mut Assignment, id: ClauseId)
    ensures frees { Frees values.old values.new }
    ensures free { IfSome (clause_among theory.now (slots_of added.now) id.0) (LitsAreFree values.new) }
{
    if let Some(clause) = clause_among(theory, added, id) {
        free_lits(values, clause.lits());
    }
}

// The same for the variables of the clauses of the hints.
fn free_hints(theory: &Theory, added: &Added, values: &mut Assignment, hints: &[ClauseId])
    ensures frees { Frees values.old values.new }
    ensures free { HintsAreFree (clause_among theory.now (slots_of added.now)) values.new hints.now }
{
    for id in hints {
        free_hint(theory, added, values, *id);
    }
}

// Whether a clause follows by hints. No variable has a value before and after. It costs the literals of the clause and of
// the hints, twice, and takes no memory.
pub(crate) fn follows_by_hints(
    theory: &Theory,
    added: &Added,
    values: &mut Assignment,
    lits: &[Lit],
    hints: &[ClauseId],
) -> bool
    requires room { length theory.now.variables < length values.old }
    requires free { AreFree values.old }
    ensures exact { IsTrue result ↔ FollowsByHints (clause_among theory.now (slots_of added.now)) (length theory.now.variables + 1) lits.now hints.now }
    ensures size { length values.new ≡ length values.old }
    ensures free { AreFree values.new }
{
    let vars = theory.var_count();
    make_false(values, vars, lits);
    let answer = follows(theory, added, values, vars, hints);
    free_hints(theory, added, values, hints);
    free_lits(values, lits);
    answer
}
