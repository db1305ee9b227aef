// Loop steps.
ghost use Rattle.std.specs.Prelude.{◌≡◌, ◌≢◌, ◌↔◌, ◌∷◌, All, IsTrue, IfOk, Some};
ghost use Rattle.theory_form.specs.declared.literals.Var.{Var as Variable};
ghost use Rattle.theory_form.specs.Theories.{block_of};
ghost use Rattle.theory_model.specs.Loops.{IsLoopClause};
ghost use Rattle.loop_nogoods.specs.Sets.{has};
ghost use Rattle.proof_log.specs.Valid.{AreOfProgram};
ghost use Rattle.proof_log.specs.Working.{AreUnmarked};

use loop_nogoods::external;
use std::alloc::{AllocError, Global};
use theory_form::{Clause, Lit, Marks, Theory, Var};

// Whether none of the variables is this one.
fn are_apart(atom: Var, others: &[Var]) -> bool
    ensures { IsTrue result ↔ All (λ (v : Variable). v.0 ≢ atom.0) others.now }
{
    others.iter().all(|v| v.0 != atom.0)
}

// Whether the variables are atoms of this program.
fn are_atoms_of(theory: &Theory, block: u64, vars: &[Var]) -> bool
    ensures { IsTrue result ↔ All (λ (v : Variable). block_of theory.now v.0 ≡ Some block) vars.now }
{
    vars.iter().all(|v| theory.block_of(*v) == Some(block))
}

// Whether an atom and others are different atoms of one program.
pub(crate) fn are_of_program(theory: &Theory, atom: Var, others: &[Var]) -> bool
    ensures { IsTrue result ↔ AreOfProgram theory.now atom others.now }
{
    match theory.block_of(atom) {
        Some(block) => are_apart(atom, others) && are_atoms_of(theory, block, others),
        None => false,
    }
}

// The loop clause of an atom, for the set of it and others. No variable is marked before and after.
pub(crate) fn loop_clause(
    alloc: Global,
    theory: &Theory,
    marks: &mut Marks,
    atom: Var,
    others: &[Var],
) -> Result<Clause, AllocError>
    requires unmarked { AreUnmarked marks.old }
    requires program { AreOfProgram theory.now atom others.now }
    ensures clause { IfOk result (IsLoopClause theory.now (has (atom ∷ others.now)) atom.0) }
    ensures unmarked { AreUnmarked marks.new }
{
    marks.reserve(theory.var_count())?;
    let mut set = Vec::new(alloc);
    set.push(atom)?;
    set.extend_from_slice(others)?;
    let mut lits = external(alloc, theory, set.as_slice(), marks)?;
    lits.push(Lit {
        var: atom,
        yes: false,
    })?;
    Clause::sorted(lits)
}
