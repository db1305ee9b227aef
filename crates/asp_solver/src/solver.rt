// The solver.
ghost use Rattle.std.specs.Prelude.{◌≡◌, ◌+◌, ◌-◌, ◌<◌, ◌⊎◌, ℕ, Bool, [], List, Option, length, IsTrue, All};

use crate::answers::{Answer, Turn};
use crate::kept::{Kept, Rest};
use crate::runs::run;
use ap_base::Budget;
use asp_engine::{Engine, Parts, Query};
use proof_log::{Log, logs_are_true, logs_stay_valid, steps_keep_logs};
use std::alloc::Global;
use std::marker::Model;
use theory_form::{Lit, Theory, Var};
use theory_law::loop_clauses_are_one;

// A first period of a query ends when so many clauses were learned in it.
const SPAN: u64 = 2000;

/// A search for answer sets of a program under assumptions, over a theory that begins with the program's own and may grow. It keeps what it
/// learned from one query to the next.
///
/// A query is named by its list of assumptions. A call with a list that is not open opens that query, and `Found` and `Refuted` close it.
/// Contracts see a solver as `SolverView` of `specs/Views.antt`.
#[derive(Drop)]
pub struct Solver {
    engine: Engine,
    queries: Vec<Query>,
    taken: u64,
    found: bool,
}

impl Model for Solver {
    ghost use Rattle.asp_solver.specs.Calls.{first_span};
    ghost use Rattle.asp_solver.specs.Holding.{Holds};
    ghost use Rattle.asp_solver.specs.Views.{SolverView, view_of};

    ghost Value = { SolverView };

    ghost view = { λ s. view_of s.engine s.queries.items s.found };

    ghost invariant = { λ s. Holds first_span s.engine s.queries.items s.taken };
}

impl Solver {
    ghost use Rattle.theory_form.specs.declared.literals.Lit.{Lit as Literal};
    ghost use Rattle.theory_form.specs.Theories.{TheoryView};
    ghost use Rattle.theory_form.specs.Truth.{value_of};
    ghost use Rattle.theory_model.specs.Models.{IsModel};
    ghost use Rattle.theory_model.specs.Truth.{clause_true};
    ghost use Rattle.proof_log.specs.Logs.{IsLog};
    ghost use Rattle.proof_log.specs.States.{StateView, clause_in};
    ghost use Rattle.proof_log.specs.Steps.{LogView};
    ghost use Rattle.asp_engine.specs.declared.periods.Period.{Period as Term};
    ghost use Rattle.asp_engine.specs.Answers.{left_of};
    ghost use Rattle.asp_engine.specs.Periods.{IsPeriod};
    ghost use Rattle.asp_engine.specs.Search.{AreAssumptions};
    ghost use Rattle.asp_solver.specs.Answers.{IsRefutedOrMemory, IsRefutedSpentOrMemory, NoneRefuted, ShowsAnswer, ShowsTurn, as_turn};
    ghost use Rattle.asp_solver.specs.Calls.{Did, Leaves, first_span};
    ghost use Rattle.asp_solver.specs.Conditions.{CanSearch, ComesBack, SkipsNone};
    ghost use Rattle.asp_solver.specs.Lent.{IsLent};
    ghost use Rattle.asp_solver.specs.Rests.{rest_of};
    ghost use Rattle.asp_solver.specs.Views.{IsStateOf};

    /// The solver of a theory, with an empty log and no open query. The theory begins with that of a program, names its own variables alone,
    /// its clauses define its bodies, and it skipped no number. It takes no memory: the theory is taken in by the next query.
    pub fn new(alloc: Global, theory: Theory) -> Solver
        requires can_search { CanSearch theory }
        requires skips { SkipsNone theory }
        ensures { result ≡ record { theory = theory; log = record { steps = []; room = 0 }; queries = []; found = [] } }
    {
        steps_keep_logs();
        logs_are_true();
        Solver {
            engine: Engine {
                theory,
                log: Log::new(alloc),
                parts: Parts::new(alloc, SPAN),
            },
            queries: Vec::new(alloc),
            taken: 0,
            found: false,
        }
    }

    /// Its theory.
    pub fn theory(&self) -> &Theory
        ensures theory { result.now ≡ self.now.theory }
        ensures can_search { CanSearch self.now.theory }
    {
        &self.engine.theory
    }

    /// Its log.
    ///
    /// * `valid`: it is valid over the theory.
    /// * `models`: each clause that is kept in it is true in every model of the theory.
    /// * `queries`: what the open queries learned in their present periods is kept.
    pub fn log(&self) -> &Log
        ensures log { result.now ≡ self.now.log }
        ensures valid { (added : List (Option (List Literal))) × IsLog self.now.theory self.now.log.steps added }
        ensures models { (v : StateView) → IsStateOf self.now.theory self.now.log.steps v → (f : ℕ → Bool) → IsModel self.now.theory f →
            (k : ℕ) (c : List Literal) → clause_in v k ≡ Some c → IsTrue (clause_true f c) }
        ensures queries { (v : StateView) → IsStateOf self.now.theory self.now.log.steps v →
            All (λ q. IsPeriod first_span (length self.now.theory.variables) v q.period) self.now.queries }
    {
        logs_are_true();
        logs_stay_valid();
        loop_clauses_are_one();
        &self.engine.log
    }

    /// The value of a variable in the model behind the last answer, if that was `Found`, and `None` else and where there is no such
    /// variable.
    pub fn found(&self, v: Var) -> Option<bool>
        ensures { result ≡ value_of self.now.found v.0 }
    {
        if self.found {
            self.engine.parts.store.assignment().value(v)
        } else {
            None
        }
    }

    /// Hands the theory and the log out, and keeps the rest. It takes no memory.
    pub fn lend(self) -> (Theory, Kept)
        ensures theory { result.0 ≡ self.theory }
        ensures log { result.1.log ≡ self.log }
        ensures queries { (rest_of result.1).queries ≡ self.queries }
        ensures lent { IsLent self.theory self.log (rest_of result.1) }
    {
        let Solver {
            engine,
            queries,
            taken,
            found: _,
        } = self;
        let Engine { theory, log, parts } = engine;
        (
            theory,
            Kept {
                log,
                rest: Rest {
                    parts,
                    queries,
                    taken,
                },
            },
        )
    }

    /// The solver that lent its theory and its log, with more of both: variables, clauses and programs behind those that were there, without
    /// a number skipped, and steps that neither add a clause nor erase one. It takes no memory: what the theory gained is taken in by
    /// the next query.
    pub fn resume(theory: Theory, kept: Kept) -> Solver
        requires { (lent : TheoryView) × (log : LogView) × IsLent lent log (rest_of kept) × ComesBack lent log.steps theory kept.log.steps }
        ensures { result ≡ record { theory = theory; log = kept.log; queries = (rest_of kept).queries; found = [] } }
    {
        steps_keep_logs();
        logs_are_true();
        logs_stay_valid();
        let Kept { log, rest } = kept;
        let Rest {
            parts,
            queries,
            taken,
        } = rest;
        Solver {
            engine: Engine { theory, log, parts },
            queries,
            taken,
            found: false,
        }
    }

    /// Searches a model of the theory in which every assumption is true, whose atoms of the base are an answer set of the base. Each clause
    /// that is learned takes one of the budget. No variable stands twice in the assumptions, and all are variables of the theory.
    ///
    /// * `at_once`: where a kept clause holds negated assumptions alone at entry, nothing is learned, and the answer names such a clause, if
    ///   memory suffices.
    /// * `spent`: a call with no budget left never searches.
    pub fn query(&mut self, assume: &[Lit], budget: &mut Budget) -> Answer
        requires { AreAssumptions (length self.old.theory.variables) assume.now }
        ensures answer { ShowsAnswer self.new assume.now budget.new.left result }
        ensures did { (n : ℕ) × (period : Term) × (n + budget.new.left ≡ budget.old.left) × Did first_span self.old self.new assume.now n period
            × Leaves self.old self.new assume.now n period (as_turn result) }
        ensures at_once { NoneRefuted self.old assume.now ⊎ ((budget.new.left ≡ budget.old.left) × IsRefutedOrMemory (as_turn result)) }
        ensures spent { budget.old.left ≡ 0 → IsRefutedSpentOrMemory (as_turn result) }
    {
        let turn = run(
            &mut self.engine,
            &mut self.queries,
            &mut self.taken,
            &mut self.found,
            assume,
            budget,
            None,
        );
        match turn {
            Turn::Found(atoms) => Answer::Found(atoms),
            Turn::Refuted(number) => Answer::Refuted(number),
            Turn::Spent => Answer::Spent,
            Turn::Again => unreachable!(),
            Turn::Memory => Answer::Memory,
        }
    }

    /// As `query`, until so many clauses were learned in this call. The query is gone on with by the next call with its assumptions.
    pub fn turn(&mut self, assume: &[Lit], budget: &mut Budget, quota: u32) -> Turn
        requires assumptions { AreAssumptions (length self.old.theory.variables) assume.now }
        requires quota { 0 < quota }
        ensures answer { ShowsTurn self.new assume.now budget.new.left (quota - (budget.old.left - budget.new.left)) result }
        ensures did { (n : ℕ) × (period : Term) × (n + budget.new.left ≡ budget.old.left) × Did first_span self.old self.new assume.now n period
            × Leaves self.old self.new assume.now n period result }
        ensures at_once { NoneRefuted self.old assume.now ⊎ ((budget.new.left ≡ budget.old.left) × IsRefutedOrMemory result) }
        ensures spent { budget.old.left ≡ 0 → IsRefutedSpentOrMemory result }
    {
        run(
            &mut self.engine,
            &mut self.queries,
            &mut self.taken,
            &mut self.found,
            assume,
            budget,
            Some(u64::from(quota)),
        )
    }
}
