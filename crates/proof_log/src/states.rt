// The state in which a step is judged.
ghost use Rattle.std.specs.Prelude.{◌≡◌, ◌↔◌, ◌+◌, ◌<◌, [], length, Some, None, if◌then◌else◌, IsTrue, IfOk, OnOk, OnErr, max};
ghost use Rattle.proof_log.specs.declared.causes.Cause.{Cause as CauseOf};
ghost use Rattle.proof_log.specs.Added.{slots_of};
ghost use Rattle.proof_log.specs.After.{IsAfter};
ghost use Rattle.proof_log.specs.States.{AddedAreTrue, IsReserved, clause_among, with_clause};
ghost use Rattle.proof_log.specs.Steps.{IsJudged, IsStep};
ghost use Rattle.proof_log.specs.declared.steps.Step.TheVariants.{Loop};
ghost use Rattle.proof_log.specs.Valid.{AreOfProgram, IsCause, IsValid, Judged, LearnAsks};
ghost use Rattle.proof_log.specs.Working.{AreFree};

use crate::added::Added;
use crate::causes::Cause;
use crate::clauses::are_clauses;
use crate::hints::follows_by_hints;
use crate::laws::added_are_true;
use crate::loops::{are_of_program, loop_clause};
use crate::steps::Step;
use crate::sums::is_sum_clause;
use std::alloc::{AllocError, Global};
use std::marker::Model;
use theory_form::{Assignment, Clause, ClauseId, Marks, Theory, Var};

/// The state in which a step of a log is judged: the theory, and the clauses that steps added and that are not erased.
#[derive(Drop)]
pub struct CheckState {
    /// The theory. A clause that a step adds takes its next number, and is kept beside it.
    pub theory: Theory,
    optimised: bool,
    added: Added,
    marks: Marks,
    values: Assignment,
}

impl Model for CheckState {
    ghost use Rattle.std.specs.Prelude.{length};
    ghost use Rattle.proof_log.specs.States.{StateView};

    ghost Value = { StateView };

    ghost use Rattle.proof_log.specs.Added.{slots_of};
    ghost use Rattle.proof_log.specs.Working.{AreClear};

    ghost view = { λ s. record { theory = s.theory; optimised = s.optimised; added = slots_of s.added; places = length s.values } };

    ghost invariant = { λ s. AreClear s.marks s.values };
}

impl CheckState {
    /// The state before the first step. `optimised` tells whether there is something to optimise. The marks are reserved.
    /// Only memory can run out.
    pub fn new(alloc: Global, theory: Theory, optimised: bool) -> Result<Self, AllocError>
        ensures state { IfOk result (λ s. s ≡ record { theory = theory; optimised = optimised; added = []; places = length theory.variables + 1 }) }
        ensures truth { IfOk result AddedAreTrue }
    {
        let mut state = CheckState {
            theory,
            optimised,
            added: Added::new(alloc),
            marks: Marks::new(alloc),
            values: Assignment::new(alloc),
        };
        state.reserve_marks()?;
        Ok(state)
    }

    /// Reserves the marks for every variable of the theory, as it has to be done after variables were added to it. Only
    /// memory can run out, and then nothing changes.
    pub fn reserve_marks(&mut self) -> Result<(), AllocError>
        ensures ok { OnOk result (self.new ≡ record self.old { places = max self.old.places (length self.old.theory.variables + 1) }) }
        ensures err { OnErr result (self.new ≡ self.old) }
    {
        let vars = self.theory.var_count();
        self.marks.reserve(vars)?;
        self.values.reserve(vars)?;
        Ok(())
    }

    /// Makes the state the one after a step. The step is valid. Each clause that it adds is true in every model of the
    /// theory, where those that were added before are. Only memory can run out, and then nothing changes.
    pub fn apply(&mut self, step: &Step) -> Result<(), AllocError>
        requires { IsValid self.old step.now }
        ensures ok { OnOk result (IsAfter self.old step.now self.new) }
        ensures err { OnErr result (self.new ≡ self.old) }
        ensures truth { AddedAreTrue self.old → AddedAreTrue self.new }
        ensures reserved { IsReserved self.old → IsReserved self.new }
    {
        added_are_true();
        self.change(step)?;
        Ok(())
    }

    // The same.
    fn change(&mut self, step: &Step) -> Result<(), AllocError>
        requires { IsValid self.old step.now }
        ensures ok { OnOk result (IsAfter self.old step.now self.new) }
        ensures err { OnErr result (self.new ≡ self.old) }
    {
        match step {
            Step::Learn { lits, .. } => self.add_copy(lits)?,
            Step::Loop { atom, others } => self.add_loop(*atom, others.as_slice())?,
            Step::Sum { lits, .. } => self.add_copy(lits)?,
            Step::Erase { clause } => self.added.take(*clause),
            _ => unreachable!(),
        }
        Ok(())
    }

    // Adds a clause under the next number.
    fn add(&mut self, clause: Clause) -> Result<(), AllocError>
        ensures ok { OnOk result (self.new ≡ with_clause self.old clause) }
        ensures err { OnErr result (self.new ≡ self.old) }
    {
        let number = self.theory.next_id().0 as usize;
        self.added.reserve(number)?;
        self.theory.reserve_id()?;
        self.theory.skip();
        self.added.put(number, clause);
        Ok(())
    }

    // Adds an equal clause.
    fn add_copy(&mut self, clause: &Clause) -> Result<(), AllocError>
        ensures ok { OnOk result (self.new ≡ with_clause self.old clause.now) }
        ensures err { OnErr result (self.new ≡ self.old) }
    {
        let copy = clause.copy(self.added.allocator())?;
        self.add(copy)?;
        Ok(())
    }

    // Adds the loop clause of an atom, for the set of it and others.
    fn add_loop(&mut self, atom: Var, others: &[Var]) -> Result<(), AllocError>
        requires { AreOfProgram self.old.theory atom others.now }
        ensures ok { OnOk result (IsAfter self.old (Loop atom others.now) self.new) }
        ensures err { OnErr result (self.new ≡ self.old) }
    {
        let alloc = self.added.allocator();
        let clause = loop_clause(alloc, &self.theory, &mut self.marks, atom, others)?;
        self.add(clause)?;
        Ok(())
    }
}

// The cause, unless a condition holds.
fn unless(holds: bool, cause: Cause) -> Option<Cause>
    ensures { result ≡ (if holds then None else Some cause) }
{
    if holds { None } else { Some(cause) }
}

// What comes of a learned clause and its hints.
fn judge_learned(
    theory: &Theory,
    added: &Added,
    values: &mut Assignment,
    lits: &Clause,
    hints: &[ClauseId],
) -> Option<Cause>
    requires room { length theory.now.variables < length values.old }
    requires free { AreFree values.old }
    ensures judged { LearnAsks (clause_among theory.now (slots_of added.now)) (length theory.now.variables + 1) lits.now hints.now result }
    ensures size { length values.new ≡ length values.old }
    ensures free { AreFree values.new }
{
    if !are_clauses(theory, added, hints) {
        return Some(Cause::Clause);
    }
    let follows = follows_by_hints(theory, added, values, lits.lits(), hints);
    unless(follows, Cause::Hint)
}

// What comes of a step.
fn judge(state: &mut CheckState, step: &Step) -> Option<Cause>
    requires step { IsStep step.now }
    requires judged { IsJudged step.now }
    requires reserved { IsReserved state.old }
    ensures judged { Judged state.old step.now result }
    ensures same { state.new ≡ state.old }
{
    match step {
        Step::Learn { lits, hints } => {
            judge_learned(
                &state.theory,
                &state.added,
                &mut state.values,
                lits,
                hints.as_slice(),
            )
        }
        Step::Loop { atom, others } => {
            let holds = are_of_program(&state.theory, *atom, others.as_slice());
            unless(holds, Cause::Loop)
        }
        Step::Sum { guard, lits } => {
            unless(is_sum_clause(&state.theory, *guard, lits), Cause::Sum)
        }
        Step::Erase { clause } => { unless(state.added.get(*clause).is_some(), Cause::Clause) }
        _ => unreachable!(),
    }
}

/// Why a step is not valid in a state: the cause of the first of its conditions that fails, and `None` exactly where it is
/// valid. The marks of the state are reserved. It takes no memory and leaves the state as it was.
///
/// The steps that are judged are `Learn`, `Loop`, `Sum` and `Erase`.
pub fn step_cause(state: &mut CheckState, step: &Step) -> Option<Cause>
    requires step { IsStep step.now }
    requires judged { IsJudged step.now }
    requires reserved { IsReserved state.old }
    ensures none { (result ≡ None) ↔ IsValid state.old step.now }
    ensures some { (first : CauseOf) → (result ≡ Some first) ↔ IsCause state.old step.now first }
    ensures same { state.new ≡ state.old }
{
    judge(state, step)
}

/// Whether a step is valid in a state. The marks of the state are reserved. It takes no memory and leaves the state as it
/// was.
///
/// The steps that are judged are `Learn`, `Loop`, `Sum` and `Erase`.
pub fn step_valid(state: &mut CheckState, step: &Step) -> bool
    requires step { IsStep step.now }
    requires judged { IsJudged step.now }
    requires reserved { IsReserved state.old }
    ensures valid { IsTrue result ↔ IsValid state.old step.now }
    ensures same { state.new ≡ state.old }
{
    step_cause(state, step).is_none()
}
