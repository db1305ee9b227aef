// What no clause says: that the calls succeed with ample memory. The steps hold the answers against ones that were worked
// out by hand, over the theory of `a :- b. b :- a. b :- c. {c}. :- c.`
ghost use Rattle.std.specs.Prelude.{◌≡◌, ◌<◌, IsTrue};
ghost use Rattle.proof_log.specs.States.{IsReserved};
ghost use Rattle.proof_log.specs.Steps.{IsJudged};

use crate::{Cause, CheckState, Log, Step, step_cause, step_valid};
use ground_form::{AtomId, AtomSet, SetId};
use sqlite_items::Items;
use std::alloc::{AllocError, Global};
use std::test::Fail;
use theory_form::{Clause, ClauseId, Lit, Theory, Var, VarKind};

// The variables: the atoms a, b and c are 1 to 3, `true` is 4, the bodies [], [a], [b] and [c] are 5 to 8, and the search
// guard is 9. Besides, 10 is an atom of another program, and 11 says whether 2a + b - c is at least 3.
const SUPPORTS: [&[i64]; 3] = [&[7], &[6, 8], &[5]];

const BODIES: [&[i64]; 4] = [&[], &[1], &[2], &[3]];

// Clauses 1 to 16; the last one excludes the empty set. A number stands for a literal: -3 is the opposite of variable 3.
const CLAUSES: [&[i64]; 16] = [
    &[4],
    &[5],
    &[1, -6],
    &[-1, 6],
    &[2, -7],
    &[-2, 7],
    &[1, -7],
    &[2, -6],
    &[2, -8],
    &[-1, 7],
    &[-2, 6, 8],
    &[-3, 5],
    &[3, -8],
    &[-3, 8],
    &[-8],
    &[1, 2, 3, -9],
];

// A step.
enum Row {
    Learn(&'static [i64], &'static [u64]),
    Loop(u64, &'static [u64]),
    Sum(u64, &'static [i64]),
    Erase(u64),
}

// Steps, each with the cause why it is not valid. Those that are valid are made, and add the clauses 17 to 25.
static ROWS: [(Row, Option<Cause>); 40] = [
    // Hints that are no clauses, before the hint rule is looked at.
    (
        Row::Learn(&[-9], &[15, 17, 18, 14, 16]),
        Some(Cause::Clause),
    ),
    (Row::Learn(&[-9], &[16, 99]), Some(Cause::Clause)),
    (Row::Learn(&[-9], &[16]), Some(Cause::Hint)),
    // The atom again, an atom of another program, and variables that are no atoms.
    (Row::Loop(1, &[1]), Some(Cause::Loop)),
    (Row::Loop(1, &[10]), Some(Cause::Loop)),
    (Row::Loop(10, &[1]), Some(Cause::Loop)),
    (Row::Loop(1, &[4]), Some(Cause::Loop)),
    (Row::Loop(5, &[]), Some(Cause::Loop)),
    (Row::Loop(9, &[1]), Some(Cause::Loop)),
    // {-1, 8} is clause 17, and {-2, 8} clause 18.
    (Row::Loop(1, &[2]), None),
    (
        Row::Learn(&[-9], &[15, 17, 18, 14, 16]),
        Some(Cause::Clause),
    ),
    (Row::Loop(2, &[1]), None),
    // No hint; a last hint that is unit; one that is not unit at its place; one that is satisfied; one that is false
    // before the last.
    (Row::Learn(&[-9], &[]), Some(Cause::Hint)),
    (Row::Learn(&[-9], &[15, 17, 18, 14]), Some(Cause::Hint)),
    (Row::Learn(&[-9], &[17, 15, 18, 14, 16]), Some(Cause::Hint)),
    (
        Row::Learn(&[-9], &[15, 15, 17, 18, 14, 16]),
        Some(Cause::Hint),
    ),
    (
        Row::Learn(&[-9], &[15, 17, 18, 14, 16, 16]),
        Some(Cause::Hint),
    ),
    (Row::Learn(&[-9], &[15, 17, 14, 16]), Some(Cause::Hint)),
    (Row::Learn(&[-9], &[15, 17, 18, 14, 16]), None),
    // By clause 19, which was learned, with a literal added and by one hint; and a clause of the base again.
    (Row::Learn(&[-9, 10], &[19]), None),
    (Row::Learn(&[-8], &[15]), None),
    (Row::Learn(&[9], &[19]), Some(Cause::Hint)),
    // The sum is 3 at most and -1 at least; without a it is 1 at most; with a and b and without c it is 3.
    (Row::Sum(11, &[1, -11]), None),
    (Row::Sum(11, &[-1, -11]), Some(Cause::Sum)),
    (Row::Sum(11, &[-11]), Some(Cause::Sum)),
    (Row::Sum(11, &[2, -11]), None),
    (Row::Sum(11, &[3, -11]), Some(Cause::Sum)),
    (Row::Sum(11, &[-1, -2, 3, 11]), None),
    (Row::Sum(11, &[-1, -2, 11]), Some(Cause::Sum)),
    (Row::Sum(11, &[1, 2]), Some(Cause::Sum)),
    (Row::Sum(8, &[1, -8]), Some(Cause::Sum)),
    // A clause of the base, one that is gone, and numbers that no clause has.
    (Row::Erase(15), Some(Cause::Clause)),
    (Row::Erase(17), None),
    (Row::Erase(17), Some(Cause::Clause)),
    (Row::Erase(0), Some(Cause::Clause)),
    (Row::Erase(99), Some(Cause::Clause)),
    (
        Row::Learn(&[-9], &[15, 17, 18, 14, 16]),
        Some(Cause::Clause),
    ),
    // The set of a alone: {-1, 7} is clause 25.
    (Row::Loop(1, &[]), None),
    (Row::Learn(&[-1, 7], &[25]), None),
    (Row::Learn(&[-1], &[25]), Some(Cause::Hint)),
];

// Steps, each with whether its lists are as those of steps are.
static FORMS: [(Row, bool); 9] = [
    (Row::Learn(&[], &[]), true),
    (Row::Learn(&[1, -2], &[2, 1, 2]), true),
    (Row::Learn(&[1, -1], &[1]), false),
    (Row::Learn(&[0], &[1]), false),
    (Row::Learn(&[1], &[1, 0]), false),
    (Row::Loop(0, &[1, 2]), true),
    (Row::Loop(1, &[2, 2]), false),
    (Row::Loop(1, &[0, 2]), false),
    (Row::Sum(1, &[-1, 1, 2]), false),
];

fn lit(number: i64) -> Lit {
    Lit {
        var: Var(number.unsigned_abs()),
        yes: number > 0,
    }
}

fn clause(alloc: Global, numbers: &[i64]) -> Result<Clause, AllocError> {
    let mut lits = Vec::new(alloc);
    for number in numbers {
        lits.push(lit(*number))?;
    }
    Clause::sorted(lits)
}

fn literals(alloc: Global, numbers: &[i64]) -> Result<Items<Lit>, AllocError> {
    let mut lits = Items::new(alloc);
    for number in numbers {
        lits.push(lit(*number))?;
    }
    Ok(lits)
}

fn variables(alloc: Global, numbers: &[u64]) -> Result<Items<Var>, AllocError> {
    let mut vars = Items::new(alloc);
    for number in numbers {
        vars.push(Var(*number))?;
    }
    Ok(vars)
}

fn clause_ids(alloc: Global, numbers: &[u64]) -> Result<Items<ClauseId>, AllocError> {
    let mut ids = Items::new(alloc);
    for number in numbers {
        ids.push(ClauseId(*number))?;
    }
    Ok(ids)
}

// Adds the atoms of the base.
fn add_atoms(alloc: Global, theory: &mut Theory) -> Result<(), AllocError>
    requires { 0 < theory.old.blocks }
    ensures { theory.new.blocks ≡ theory.old.blocks }
{
    for numbers in &SUPPORTS {
        let supports = literals(alloc, numbers)?;
        theory.add_var(VarKind::Atom { block: 0, supports })?;
    }
    Ok(())
}

// Adds `true` and the bodies.
fn add_bodies(alloc: Global, theory: &mut Theory) -> Result<(), AllocError>
    ensures { theory.new.blocks ≡ theory.old.blocks }
{
    theory.add_var(VarKind::Other)?;
    for numbers in &BODIES {
        let lits = literals(alloc, numbers)?;
        theory.add_var(VarKind::Body { lits })?;
    }
    Ok(())
}

// Adds the sum.
fn add_sum(alloc: Global, theory: &mut Theory) -> Result<(), AllocError> {
    let terms = [(2, Var(1)), (1, Var(2)), (-1, Var(3))];
    let terms = Items::from_slice(alloc, terms.as_slice())?;
    theory.add_var(VarKind::Sum { terms, bound: 3 })?;
    Ok(())
}

// The theory.
fn theory(alloc: Global) -> Result<Theory, AllocError> {
    let mut theory = Theory::new(alloc);
    theory.add_block()?;
    let block = theory.add_block()?;
    add_atoms(alloc, &mut theory)?;
    add_bodies(alloc, &mut theory)?;
    theory.add_var(VarKind::Other)?;
    let supports = Items::new(alloc);
    theory.add_var(VarKind::Atom { block, supports })?;
    add_sum(alloc, &mut theory)?;
    for numbers in &CLAUSES {
        theory.add_clause(clause(alloc, numbers)?)?;
    }
    Ok(theory)
}

fn step(alloc: Global, row: &Row) -> Result<Step, AllocError> {
    match row {
        Row::Learn(lits, hints) => Ok(Step::Learn {
            lits: clause(alloc, lits)?,
            hints: clause_ids(alloc, hints)?,
        }),
        Row::Loop(atom, others) => Ok(Step::Loop {
            atom: Var(*atom),
            others: variables(alloc, others)?,
        }),
        Row::Sum(guard, lits) => Ok(Step::Sum {
            guard: Var(*guard),
            lits: clause(alloc, lits)?,
        }),
        Row::Erase(clause) => Ok(Step::Erase {
            clause: ClauseId(*clause),
        }),
    }
}

fn is_judged(step: &Step) -> bool
    ensures { IsTrue result → IsJudged step.now }
{
    match step {
        Step::Learn { .. } => true,
        Step::Loop { .. } => true,
        Step::Sum { .. } => true,
        Step::Erase { .. } => true,
        _ => false,
    }
}

// Makes a step if it is valid. Whether its cause is this one.
fn answers(state: &mut CheckState, step: &Step, want: Option<Cause>) -> Result<bool, AllocError>
    requires { IsReserved state.old }
    ensures { IsReserved state.new }
{
    if !step.is_step() || !is_judged(step) {
        return Ok(false);
    }
    let cause = step_cause(state, step);
    if step_valid(state, step) {
        state.apply(step)?;
    }
    Ok(cause == want)
}

// The place of the first row that is answered in another way.
fn first_wrong(alloc: Global, state: &mut CheckState) -> Result<Option<usize>, AllocError>
    requires { IsReserved state.old }
{
    for (place, row) in ROWS.iter().enumerate() {
        let (row, want) = row;
        if !answers(state, &step(alloc, row)?, *want)? {
            return Ok(Some(place));
        }
    }
    Ok(None)
}

#[test]
fn each_step_has_its_cause(rt: HostRuntime) -> Result<(), Fail> {
    let mut state = CheckState::new(rt.alloc(), theory(rt.alloc())?, true)?;
    assert_eq!(rt; first_wrong(rt.alloc(), &mut state)?, None);
    assert_eq!(rt; state.theory.next_id(), ClauseId(27));
    Ok(())
}

#[test]
fn steps_in_other_forms(rt: HostRuntime) -> Result<(), Fail> {
    for (row, want) in &FORMS {
        assert_eq!(rt; step(rt.alloc(), row)?.is_step(), *want);
    }
    Ok(())
}

#[test]
fn a_log_keeps_its_steps(rt: HostRuntime) -> Result<(), Fail> {
    let alloc = rt.alloc();
    let mut log = Log::new(alloc);
    let steps = vec![in alloc;
        Step::Found {
            atoms: AtomSet::new(vec![in alloc; AtomId(1)]?)
        },
        Step::Passed {
            set: SetId(1),
            by: SetId(2)
        },
        Step::Improve,
        Step::Dominate { set: SetId(1) },
        Step::Exclude { set: SetId(1) },
        step(alloc, &Row::Learn(&[-9, 2], &[3, 1]))?,
        step(alloc, &Row::Loop(1, &[2, 3]))?,
        step(alloc, &Row::Sum(1, &[2]))?,
        Step::Erase {
            clause: ClauseId(1)
        },
        Step::Optimal {
            set: SetId(1),
            clause: ClauseId(0)
        },
        Step::Closed {
            clause: ClauseId(1)
        },
    ]?;
    for step in &steps {
        if step.is_step() {
            log.push(step.copy(alloc)?)?;
        }
    }
    assert_eq!(rt; log.steps().len(), 11);
    log.reserve(2)?;
    log.push_reserved(Step::Improve);
    log.push(Step::Improve)?;
    log.push_reserved(Step::Improve);
    assert_eq!(rt; log.steps().len(), 14);
    Ok(())
}
