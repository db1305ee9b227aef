// What no clause says: that the calls succeed with ample memory, and how long propagation takes. The steps hold the clauses
// against answers that were worked out by hand, and the watched store is compared with the plain one.
use crate::{Store, Why, plain};
use std::alloc::{AllocError, Global};
use std::test::Fail;
use theory_form::{Clause, ClauseId, Lit, Var};

// What is asked of a store, and its answer. A number stands for a literal: -3 is the opposite of variable 3.
enum Step<'a> {
    Add(&'a [i64]),
    Decide(i64),
    Back(u64),
    Forget(u64, bool),
    // The key of the clause that is false.
    Propagate(Option<u64>),
    // The literals that are true, and no others.
    Assigned(&'a [i64]),
    // The key of the clause that is the reason of a variable at level 0.
    Reason(u64, u64),
    // Whether the clause of a key is a reason.
    IsReason(u64, bool),
    NextKey(u64),
    // The literals of the clause of a key.
    Clause(u64, &'a [i64]),
    // The key of a clause each of whose literals is the opposite of one of these.
    Refuting(&'a [i64], Option<u64>),
}

fn lit(number: i64) -> Lit {
    Lit {
        var: Var(number.unsigned_abs()),
        yes: number > 0,
    }
}

fn literals(alloc: Global, numbers: &[i64]) -> Result<Vec<Lit>, AllocError> {
    let mut lits = Vec::new(alloc);
    for number in numbers {
        lits.push(lit(*number))?;
    }
    Ok(lits)
}

// Adds the clause of these literals.
fn add(alloc: Global, store: &mut Store, numbers: &[i64]) -> Result<(), AllocError> {
    store.add(&Clause::sorted(literals(alloc, numbers)?)?)?;
    Ok(())
}

// Whether the clause of a key has these literals, in this order.
fn has_clause(store: &Store, key: u64, numbers: &[i64]) -> bool {
    match store.clause(ClauseId(key)) {
        Some(lits) => lits.len() == numbers.len()
            && lits.iter().zip(numbers).all(|(l, n)| *l == lit(*n)),
        None => false,
    }
}

// Decides a literal if its variable has a place and no value.
fn decide(store: &mut Store, l: Lit) -> bool {
    let can = l.var.0 < store.places() && store.assignment().is_free(l);
    if can {
        store.decide(l);
    }
    can
}

// Whether these literals are true, and no others.
fn has_assigned(store: &Store, numbers: &[i64]) -> bool {
    store.trail().len() == numbers.len() && numbers.iter().all(|n| store.trail().contains(&lit(*n)))
}

// Whether a store answers as the step says.
fn answers(alloc: Global, store: &mut Store, step: &Step<'_>) -> Result<bool, AllocError> {
    match step {
        Step::Add(numbers) => {
            add(alloc, store, numbers)?;
            Ok(true)
        }
        Step::Decide(number) => Ok(decide(store, lit(*number))),
        Step::Back(level) => {
            store.back(*level);
            Ok(store.level() == *level)
        }
        Step::Forget(key, want) => Ok(store.forget(ClauseId(*key)) == *want),
        Step::Propagate(want) => Ok(store.propagate()? == want.map(ClauseId)),
        Step::Assigned(numbers) => Ok(has_assigned(store, numbers)),
        Step::Reason(var, key) => {
            Ok(store.why(Var(*var)) == Some((Why::Clause(ClauseId(*key)), 0)))
        }
        Step::IsReason(key, want) => Ok(store.is_reason(ClauseId(*key)) == *want),
        Step::NextKey(key) => Ok(store.next_key() == ClauseId(*key)),
        Step::Clause(key, numbers) => Ok(has_clause(store, *key, numbers)),
        Step::Refuting(numbers, want) => {
            let assume = literals(alloc, numbers)?;
            Ok(store.refuting(assume.as_slice()) == want.map(ClauseId))
        }
    }
}

// The place of the first step that a store answers in another way.
fn first_wrong(alloc: Global, steps: &[Step<'_>]) -> Result<Option<usize>, AllocError> {
    let mut store = Store::new(alloc);
    for (place, step) in steps.iter().enumerate() {
        if !answers(alloc, &mut store, step)? {
            return Ok(Some(place));
        }
    }
    Ok(None)
}

const EMPTY_CLAUSE: [Step<'static>; 6] = [
    Step::Propagate(None),
    Step::Back(0),
    Step::Assigned(&[]),
    Step::Forget(0, false),
    Step::Add(&[]),
    Step::Propagate(Some(0)),
];

const CONFLICT_AT_LEVEL_0: [Step<'static>; 8] = [
    Step::Add(&[1, 2]),
    Step::Add(&[1, -2]),
    Step::Add(&[-1, 2]),
    Step::Add(&[-1, -2]),
    Step::Propagate(None),
    Step::Assigned(&[]),
    Step::Add(&[1]),
    Step::Propagate(Some(3)),
];

const BACK_AND_ON: [Step<'static>; 16] = [
    Step::Add(&[-1, 3]),
    Step::Add(&[-2, -3]),
    Step::Add(&[-2, 4, 5]),
    Step::Decide(1),
    Step::Propagate(None),
    Step::Assigned(&[1, 3, -2]),
    Step::Back(0),
    Step::Assigned(&[]),
    Step::Decide(2),
    Step::Decide(-4),
    Step::Propagate(None),
    Step::Assigned(&[2, -4, -3, -1, 5]),
    Step::Back(1),
    Step::Assigned(&[2]),
    Step::Propagate(None),
    Step::Assigned(&[2, -3, -1]),
];

// Clauses that are unit or false when they come, also below the present level.
const LATE_CLAUSES: [Step<'static>; 16] = [
    Step::Add(&[1, 2, 3]),
    Step::Decide(1),
    Step::Decide(2),
    Step::Propagate(None),
    Step::Add(&[-1, 3]),
    Step::Propagate(None),
    Step::Assigned(&[1, 2, 3]),
    Step::Add(&[-1]),
    Step::Propagate(Some(2)),
    Step::Back(1),
    Step::Propagate(Some(2)),
    Step::Back(0),
    Step::Propagate(None),
    Step::Reason(1, 2),
    Step::Add(&[]),
    Step::Propagate(Some(3)),
];

const REFUTED_CLAUSES: [Step<'static>; 16] = [
    Step::Refuting(&[1, 2], None),
    Step::Add(&[1, 2]),
    Step::Add(&[3, -1, 4]),
    Step::Refuting(&[-1], None),
    Step::Refuting(&[-2, 5, -1], Some(0)),
    Step::Refuting(&[-3, 1, -4], Some(1)),
    Step::Decide(-1),
    Step::Propagate(None),
    Step::Refuting(&[-3, 1, -4], Some(1)),
    Step::Refuting(&[-3, -1, -4], None),
    Step::NextKey(2),
    Step::Add(&[]),
    Step::Clause(1, &[-1, 3, 4]),
    Step::Refuting(&[], Some(2)),
    Step::Forget(2, true),
    Step::Refuting(&[5], None),
];

const FORGET_AND_ADD_AGAIN: [Step<'static>; 18] = [
    Step::Add(&[1]),
    Step::Add(&[-2, -1]),
    Step::Add(&[2, 3]),
    Step::Forget(2, true),
    Step::Forget(2, false),
    Step::Propagate(None),
    Step::Assigned(&[1, -2]),
    Step::IsReason(1, true),
    Step::IsReason(2, false),
    Step::NextKey(2),
    Step::Forget(0, false),
    Step::Forget(1, false),
    Step::Add(&[2, 3]),
    Step::Propagate(None),
    Step::Assigned(&[1, -2, 3]),
    Step::Reason(3, 2),
    Step::Add(&[1, 4]),
    Step::Forget(3, true),
];

#[test]
fn each_step_is_answered_as_it_says(rt: HostRuntime) -> Result<(), Fail> {
    let alloc = rt.alloc();
    assert_eq!(rt; first_wrong(alloc, &EMPTY_CLAUSE)?, None);
    assert_eq!(rt; first_wrong(alloc, &CONFLICT_AT_LEVEL_0)?, None);
    assert_eq!(rt; first_wrong(alloc, &BACK_AND_ON)?, None);
    assert_eq!(rt; first_wrong(alloc, &LATE_CLAUSES)?, None);
    assert_eq!(rt; first_wrong(alloc, &REFUTED_CLAUSES)?, None);
    assert_eq!(rt; first_wrong(alloc, &FORGET_AND_ADD_AGAIN)?, None);
    Ok(())
}

// Adds the clause by which one variable implies another.
fn add_step(alloc: Global, store: &mut Store, from: u64, to: u64) -> Result<(), AllocError> {
    let mut lits = Vec::new(alloc);
    lits.push(Lit {
        var: Var(from),
        yes: false,
    })?;
    lits.push(Lit {
        var: Var(to),
        yes: true,
    })?;
    store.add(&Clause::sorted(lits)?)?;
    Ok(())
}

// The clauses by which each of the variables from 1 on implies the next.
fn chain(alloc: Global, end: u64) -> Result<Store, AllocError> {
    let mut store = Store::new(alloc);
    store.reserve_trail(end)?;
    let mut from = 1;
    for to in 2..end {
        add_step(alloc, &mut store, from, to)?;
        from = to;
    }
    Ok(store)
}

#[test]
fn a_chain_of_units_runs_to_its_end(rt: HostRuntime) -> Result<(), Fail> {
    for (end, clauses) in [(1_002, 1_000), (100_002, 100_000)] {
        let mut store = chain(rt.alloc(), end)?;
        assert!(rt; store.propagate()?.is_none() && decide(&mut store, lit(1)));
        assert!(rt; store.propagate()?.is_none());
        assert_eq!(rt; store.trail().len(), clauses + 1);
    }
    Ok(())
}

// Numbers that look random (a linear congruential generator).
#[derive(Drop)]
struct Random {
    state: u64,
}

impl Random {
    fn number(&mut self) -> u64 {
        self.state = self
            .state
            .wrapping_mul(6364136223846793005)
            .wrapping_add(1442695040888963407);
        self.state >> 33
    }

    // A literal over the variables 0 to 5.
    fn literal(&mut self) -> Lit {
        Lit {
            var: Var(self.number() % 6),
            yes: self.number() % 2 == 0,
        }
    }

    // A clause of one to three literals.
    fn clause(&mut self, alloc: Global) -> Result<Clause, AllocError> {
        let mut lits = Vec::new(alloc);
        lits.push(self.literal())?;
        for _ in 0..self.number() % 3 {
            lits.push(self.literal())?;
        }
        Clause::sorted(lits)
    }
}

// A watched and a plain store that are asked the same.
#[derive(Drop)]
struct Pair {
    watched: Store,
    slow: plain::Store,
}

impl Pair {
    fn add(&mut self, clause: &Clause) -> Result<(), AllocError> {
        self.watched.add(clause)?;
        self.slow.add(clause)?;
        Ok(())
    }

    // Whether each finds a false clause.
    fn propagate(&mut self) -> Result<(bool, bool), AllocError> {
        let watched = self.watched.propagate()?.is_some();
        let slow = self.slow.propagate()?.is_some();
        Ok((watched, slow))
    }

    fn decide(&mut self, l: Lit) {
        decide(&mut self.watched, l);
        if l.var.0 < self.slow.places() && self.slow.assignment().is_free(l) {
            self.slow.decide(l);
        }
    }

    fn back(&mut self) {
        let level = self.watched.level() / 2;
        self.watched.back(level);
        self.slow.back(level);
    }

    fn has_same_values(&self) -> bool {
        (0u64..6).all(|v| {
            self.watched.assignment().value(Var(v)) == self.slow.assignment().value(Var(v))
        })
    }
}

// One propagation, and then a return, a late clause or a decision. Whether both stores say the same.
fn agree_once(alloc: Global, random: &mut Random, pair: &mut Pair) -> Result<bool, AllocError> {
    let (watched, slow) = pair.propagate()?;
    if watched != slow || (!watched && !pair.has_same_values()) {
        return Ok(false);
    }
    if watched || random.number() % 4 == 0 {
        pair.back();
    } else if random.number() % 5 == 0 {
        pair.add(&random.clause(alloc)?)?;
    } else {
        pair.decide(random.literal());
    }
    Ok(true)
}

// Whether both stores say the same in a run over a formula that looks random.
fn agree(alloc: Global, seed: u64) -> Result<bool, AllocError> {
    let mut random = Random { state: seed };
    let mut pair = Pair {
        watched: Store::new(alloc),
        slow: plain::Store::new(alloc),
    };
    for _ in 0..9 {
        pair.add(&random.clause(alloc)?)?;
    }
    for _ in 0..20 {
        if !agree_once(alloc, &mut random, &mut pair)? {
            return Ok(false);
        }
    }
    Ok(true)
}

#[test]
fn both_propagations_agree(rt: HostRuntime) -> Result<(), Fail> {
    for seed in 0..2000 {
        assert!(rt; agree(rt.alloc(), seed)?, "seed {seed}");
    }
    Ok(())
}
