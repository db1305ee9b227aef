// Clauses of loops and sums are added.
ghost use Rattle.std.specs.Prelude.{◌≡◌, ◌+◌, ℕ, Bool, List, length, IfNone, IfOk, IfSome, OnErr, OnOk};
ghost use Rattle.theory_form.specs.declared.literals.Lit.{Lit as Literal};
ghost use Rattle.theory_form.specs.Truth.{IsFalseClause};
ghost use Rattle.theory_model.specs.Whole.{IsWhole};
ghost use Rattle.asp_store.specs.Store.{Adds, assigned};
ghost use Rattle.search_law.specs.Closed.{IsClosed, IsTotal};
ghost use Rattle.asp_engine.specs.declared.periods.Period.{Period as Term};
ghost use Rattle.asp_engine.specs.Keys.{AreUnmarked, IsEngine};
ghost use Rattle.asp_engine.specs.Lates.{IsLate};
ghost use Rattle.asp_engine.specs.Moves.{Went};
ghost use Rattle.asp_engine.specs.Search.{Stands};

use crate::descent::go_back;
use crate::engine::Engine;
use crate::keeping::keep;
use crate::levels::second_level;
use crate::loops::find_loop;
use crate::sums::find_sum;
use loop_nogoods::Tables;
use proof_log::Step;
use std::alloc::{AllocError, Global};
use theory_form::{Assignment, Clause, ClauseId, Lit, Marks, Theory};

/// A clause that is to be added, and its step.
#[derive(Drop)]
pub struct Late {
    pub clause: Clause,
    pub step: Step,
}

// What is added for the first program that has an unfounded set, or for the first row that implies a clause.
fn find(
    alloc: Global,
    t: &Theory,
    a: &Assignment,
    tables: &mut Tables,
    marks: &mut Marks,
) -> Result<Option<Late>, AllocError>
    requires whole { IsWhole t.now }
    requires places { length a.now ≡ length t.now.variables + 1 }
    requires marks { AreUnmarked (length a.now) marks.old }
    ensures marks { marks.new ≡ marks.old }
    ensures some { IfOk result (λ o. IfSome o (IsLate t.now a.now)) }
    ensures none { IfOk result (λ o. IfNone o (IsClosed t.now a.now)) }
{
    let found = match find_loop(alloc, t, a, tables, marks) {
        Ok(found) => found,
        Err(want) => return Err(want),
    };
    match found {
        Some(late) => Ok(Some(late)),
        None => find_sum(alloc, t, a),
    }
}

// Adds a clause that a program or a row implies and that is false or unit, and goes back to where two of its literals have no value;
// or tells that there is none. Only memory can run out.
pub(crate) fn add_late(e: &mut Engine, assume: &[Lit]) -> Result<Option<ClauseId>, AllocError>
    requires engine { IsEngine e.old }
    requires stands { Stands e.old.parts.store.clauses e.old.parts.store.places assume.now e.old.parts.store.entries }
    ensures places { e.new.parts.store.places ≡ e.old.parts.store.places }
    ensures variables { e.new.theory.variables ≡ e.old.theory.variables }
    ensures eager { e.new.parts.eager ≡ e.old.parts.eager }
    ensures went { (held : ℕ → Bool) (p : Term) → Went held e.old e.new p p 0 }
    ensures stands { OnOk result (Stands e.new.parts.store.clauses e.new.parts.store.places assume.now e.new.parts.store.entries) }
    ensures none { IfOk result (λ o. IfNone o ((e.new.parts.store ≡ e.old.parts.store) × (e.new.theory ≡ e.old.theory) × IsClosed e.old.theory (assigned e.old.parts.store))) }
    ensures some { IfOk result (λ o. IfSome o (λ key. (c : List Literal) × Adds e.old.parts.store.clauses e.new.parts.store.clauses key.0 c
        × (IsTotal (assigned e.old.parts.store) → IsFalseClause (assigned e.old.parts.store) c))) }
{
    let found = match find(
        e.parts.alloc,
        &e.theory,
        e.parts.store.assignment(),
        &mut e.parts.tables,
        &mut e.parts.marks,
    ) {
        Ok(found) => found,
        Err(want) => return Err(want),
    };
    let Some(late) = found else {
        return Ok(None);
    };
    let Late { clause, step } = late;
    let level = second_level(&e.parts.store, clause.lits());
    go_back(&mut e.parts.store, &mut e.parts.branching, level);
    match keep(e, &clause, step) {
        Ok(key) => Ok(Some(key)),
        Err(want) => Err(want),
    }
}
