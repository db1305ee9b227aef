// What is a condition of every call that takes a step.
ghost use Rattle.std.specs.Prelude.{◌≡◌, ◌↔◌, ◌<◌, not, All, IsTrue};
ghost use Rattle.std.specs.List.{list_all};
ghost use Rattle.ground_form.specs.declared.atoms.AtomId.{AtomId as Atom};
ghost use Rattle.theory_form.specs.declared.literals.ClauseId.{ClauseId as Number};
ghost use Rattle.theory_form.specs.declared.literals.Lit.{Lit as Literal};
ghost use Rattle.theory_form.specs.declared.literals.Var.{Var as Variable};
ghost use Rattle.theory_form.specs.Literals.{opposite};
ghost use Rattle.loop_nogoods.specs.Sets.{AreAscending};
ghost use Rattle.loop_nogoods.specs.Tests.{is_among};
ghost use Rattle.proof_log.specs.Steps.{AreAtoms, AreLiterals, AreVariables};

use ground_form::{AtomId, AtomSet};
use theory_form::{Clause, ClauseId, Lit, Var};

// Whether no atom has number 0.
fn are_atoms_numbered(atoms: &[AtomId]) -> bool
    ensures { IsTrue result ↔ All (λ (a : Atom). 0 < a.0) atoms.now }
{
    atoms.iter().all(|a| 0 < a.0)
}

// Whether they are atoms as a step lists them.
pub(crate) fn are_atoms(atoms: &AtomSet) -> bool
    ensures { IsTrue result ↔ AreAtoms atoms.now }
{
    are_atoms_numbered(atoms.ids())
}

// Whether no variable has number 0.
fn are_variables_numbered(vars: &[Var]) -> bool
    ensures { IsTrue result ↔ All (λ (v : Variable). 0 < v.0) vars.now }
{
    vars.iter().all(|v| 0 < v.0)
}

// Whether each variable is below those that follow it.
fn are_ascending(vars: &[Var]) -> bool
    ensures { IsTrue result ↔ AreAscending vars.now }
{
    for i in 1..vars.len() {
        if vars[i].0 <= vars[i - 1].0 {
            return false;
        }
    }
    true
}

// Whether they are variables as a step lists them.
pub(crate) fn are_variables(vars: &[Var]) -> bool
    ensures { IsTrue result ↔ AreVariables vars.now }
{
    are_variables_numbered(vars) && are_ascending(vars)
}

// Whether no hint has number 0.
pub(crate) fn are_hints(hints: &[ClauseId]) -> bool
    ensures { IsTrue result ↔ All (λ (h : Number). 0 < h.0) hints.now }
{
    hints.iter().all(|h| 0 < h.0)
}

// Whether no literal is over the variable of number 0.
fn are_literals_numbered(lits: &[Lit]) -> bool
    ensures { IsTrue result ↔ All (λ (l : Literal). 0 < l.var.0) lits.now }
{
    lits.iter().all(|l| 0 < l.var.0)
}

// Whether a clause holds a literal. It looks by halving.
fn is_among(c: &Clause, l: Lit) -> bool
    ensures { result ≡ is_among c.now l }
{
    c.lits().binary_search(&l).is_ok()
}

// Whether a clause holds the opposite of none of these literals.
fn lacks_opposites(c: &Clause, lits: &[Lit]) -> bool
    ensures { result ≡ list_all (λ l. not (is_among c.now (opposite l))) lits.now }
{
    lits.iter().all(|l| !is_among(c, l.opposite()))
}

// Whether they are literals as a step lists them.
pub(crate) fn are_literals(c: &Clause) -> bool
    ensures { IsTrue result ↔ AreLiterals c.now }
{
    let lits = c.lits();
    are_literals_numbered(lits) && lacks_opposites(c, lits)
}
