// Clauses of loops under an assignment.
ghost use Rattle.std.specs.Prelude.{◌≡◌, ◌+◌, ◌<◌, ◌∷◌, ℕ, Bool, length, IfNone, IfOk, IfSome};
ghost use Rattle.theory_model.specs.Loops.{AreAtomsOf, IsLoopClause};
ghost use Rattle.theory_model.specs.Whole.{IsWhole};
ghost use Rattle.loop_nogoods.specs.Marks.{AreClear};
ghost use Rattle.loop_nogoods.specs.Sets.{AreAscending, has};
ghost use Rattle.loop_nogoods.specs.Unfounded.{IsUnfounded};
ghost use Rattle.asp_engine.specs.Keys.{AreUnmarked};
ghost use Rattle.asp_engine.specs.Lates.{IsLate, IsLoopOf};

use crate::additions::Late;
use loop_nogoods::{Tables, external, loop_clause_is_false_or_unit, unfounded};
use proof_log::Step;
use sqlite_items::Items;
use std::alloc::{AllocError, Global};
use theory_form::{Assignment, Clause, Lit, Marks, Theory, Var};

// The first of some variables, and the others.
fn split(vars: &[Var]) -> (Var, &[Var])
    requires { 0 < length vars.now }
    ensures { result.0 ∷ result.1.now ≡ vars.now }
{
    (vars[0], &vars[1..])
}

// The loop clause of an atom for a set of atoms of a program.
fn loop_clause(
    alloc: Global,
    t: &Theory,
    atom: Var,
    set: &[Var],
    marks: &mut Marks,
) -> Result<Clause, AllocError>
    requires program { (block : ℕ) × AreAtomsOf t.now block (has set.now) }
    requires marks { AreClear t.now marks.old }
    ensures marks { marks.new ≡ marks.old }
    ensures clause { IfOk result (IsLoopClause t.now (has set.now) atom.0) }
{
    let mut lits = external(alloc, t, set, marks)?;
    lits.push(Lit {
        var: atom,
        yes: false,
    })?;
    Clause::sorted(lits)
}

// What is added for a set of atoms of a program: the loop clause of its first member.
fn loop_of(alloc: Global, t: &Theory, set: &[Var], marks: &mut Marks) -> Result<Late, AllocError>
    requires some { 0 < length set.now }
    requires program { (block : ℕ) × AreAtomsOf t.now block (has set.now) }
    requires marks { AreClear t.now marks.old }
    ensures marks { marks.new ≡ marks.old }
    ensures late { IfOk result (IsLoopOf t.now set.now) }
{
    let (atom, others) = split(set);
    let clause = loop_clause(alloc, t, atom, set, marks)?;
    let step = Step::Loop {
        atom,
        others: Items::from_slice(alloc, others)?,
    };
    Ok(Late { clause, step })
}

// What is added for a program that has an unfounded set.
fn find_loop_of(
    alloc: Global,
    t: &Theory,
    a: &Assignment,
    block: u64,
    tables: &mut Tables,
    marks: &mut Marks,
) -> Result<Option<Late>, AllocError>
    requires whole { IsWhole t.now }
    requires marks { AreClear t.now marks.old }
    ensures marks { marks.new ≡ marks.old }
    ensures some { IfOk result (λ o. IfSome o (IsLate t.now a.now)) }
    ensures none { IfOk result (λ o. IfNone o ((u : ℕ → Bool) → IsUnfounded t.now block a.now u → ⊥)) }
{
    loop_clause_is_false_or_unit();
    let found = unfounded(alloc, t, block, a, tables)?;
    match found {
        None => Ok(None),
        Some(set) => {
            let late = loop_of(alloc, t, set.as_slice(), marks)?;
            Ok(Some(late))
        }
    }
}

// What is added for the first program that has an unfounded set.
pub(crate) fn find_loop(
    alloc: Global,
    t: &Theory,
    a: &Assignment,
    tables: &mut Tables,
    marks: &mut Marks,
) -> Result<Option<Late>, AllocError>
    requires whole { IsWhole t.now }
    requires places { length a.now ≡ length t.now.variables + 1 }
    requires marks { AreUnmarked (length a.now) marks.old }
    ensures marks { marks.new ≡ marks.old }
    ensures some { IfOk result (λ o. IfSome o (IsLate t.now a.now)) }
    ensures none { IfOk result (λ o. IfNone o ((block : ℕ) → block < t.now.blocks → (u : ℕ → Bool) → IsUnfounded t.now block a.now u → ⊥)) }
{
    for block in 0..t.blocks() {
        let found = find_loop_of(alloc, t, a, block, tables, marks)?;
        match found {
            Some(late) => return Ok(Some(late)),
            None => {}
        }
    }
    Ok(None)
}
