// Going down: decisions and propagation.
ghost use Rattle.std.specs.Prelude.{◌≡◌, ◌<◌, ◌≤◌, ℕ, length, slice_index_or, IfOk, MatchOption};
ghost use Rattle.theory_form.specs.declared.literals.Lit.{Lit as Literal};
ghost use Rattle.theory_form.specs.Truth.{IsFreeIn, IsTrueIn};
ghost use Rattle.asp_trail.specs.Trail.{back};
ghost use Rattle.asp_store.specs.Store.{AllSettled, Grew, IsConflict, IsWithin, assigned};
ghost use Rattle.search_law.specs.Closed.{IsTotal};
ghost use Rattle.asp_engine.specs.Search.{ShowsNext, ShowsStop, Stands};

use asp_branching::Branching;
use asp_learn::Fault;
use asp_store::Store;
use std::alloc::AllocError;
use theory_form::{Assignment, ClauseId, Lit, Truth, Var};

/// The first assumption that is not true.
#[derive(Clone, Copy, PartialEq, Eq, Debug)]
pub enum Next {
    Decide(Lit),
    Broken(Lit),
    Ready,
}

/// Where a descent stops.
#[derive(Clone, Copy, PartialEq, Eq, Debug)]
pub enum Stop {
    Stuck(Fault),
    Full,
}

// Looks for the first assumption that is not true. Those before the cursor are true; it is moved on.
fn next_open(a: &Assignment, assume: &[Lit], cursor: &mut usize) -> Next
    requires before { (k : ℕ) (d : Literal) → k < cursor.old → k < length assume.now → IsTrueIn a.now (slice_index_or assume.now k d) }
    ensures next { ShowsNext a.now assume.now result }
    ensures before { (k : ℕ) (d : Literal) → k < cursor.new → k < length assume.now → IsTrueIn a.now (slice_index_or assume.now k d) }
{
    'assumptions: while *cursor < assume.len() {
        let l = assume[*cursor];
        match a.truth(l) {
            Truth::Free => return Next::Decide(l),
            Truth::False => return Next::Broken(l),
            Truth::True => {}
        }
        *cursor += 1;
    }
    Next::Ready
}

// The first variable without a value.
fn free_var(a: &Assignment) -> Option<Lit>
    ensures { MatchOption result (IsTotal a.now) (λ l. (0 < l.var.0) × (l.var.0 < length a.now) × IsFreeIn a.now l) }
{
    for i in 1..a.places() {
        if a.value(Var(i)).is_none() {
            return Some(Lit {
                var: Var(i),
                yes: false,
            });
        }
    }
    None
}

// A literal over a variable without a value: the one that branching picks, or else the first.
fn choose(branching: &mut Branching, a: &Assignment) -> Option<Lit>
    ensures { MatchOption result (IsTotal a.now) (λ l. (0 < l.var.0) × (l.var.0 < length a.now) × IsFreeIn a.now l) }
{
    match branching.pick(a) {
        Some(l) => Some(l),
        None => free_var(a),
    }
}

// Gives back the literals above a level.
fn give_back(store: &Store, branching: &mut Branching, level: u64) {
    for l in store.trail().iter().rev() {
        match store.why(l.var) {
            Some((_, own)) if own > level => branching.give_back(*l),
            _ => return,
        }
    }
}

// Goes back to a level; the literals that lose their values are given back to branching. It takes no memory.
pub(crate) fn go_back(store: &mut Store, branching: &mut Branching, level: u64)
    ensures { store.new ≡ record store.old { entries = back level store.old.entries } }
{
    give_back(store, branching, level);
    store.back(level);
}

// Propagates. What was true stays true.
fn settle(store: &mut Store, assume: &[Lit]) -> Result<Option<ClauseId>, AllocError>
    requires stands { Stands store.old.clauses store.old.places assume.now store.old.entries }
    ensures same { store.new ≡ record store.old { entries = store.new.entries } }
    ensures stands { Stands store.new.clauses store.new.places assume.now store.new.entries }
    ensures longer { length store.old.entries ≤ length store.new.entries }
    ensures kept { (l : Literal) → IsTrueIn (assigned store.old) l → IsTrueIn (assigned store.new) l }
    ensures answer { IfOk result (λ o. MatchOption o (AllSettled store.new.clauses (assigned store.new)) (λ id. IsConflict store.new.clauses (assigned store.new) id.0)) }
{
    let found = store.propagate();
    // Its clauses tell what is true of every store.
    let _assignment = store.assignment();
    found
}

// Decides until a clause is false, an assumption is false, or every variable has a value.
pub(crate) fn descend(
    store: &mut Store,
    branching: &mut Branching,
    assume: &[Lit],
) -> Result<Stop, AllocError>
    requires within { IsWithin store.old.places assume.now }
    requires stands { Stands store.old.clauses store.old.places assume.now store.old.entries }
    ensures same { store.new ≡ record store.old { entries = store.new.entries } }
    ensures stands { Stands store.new.clauses store.new.places assume.now store.new.entries }
    ensures stop { IfOk result (λ x. ShowsStop store.new assume.now x) }
{
    let mut cursor = 0;
    'descend: loop {
        if let Some(id) = settle(store, assume)? {
            return Ok(Stop::Stuck(Fault::Conflict(id)));
        }
        match next_open(store.assignment(), assume, &mut cursor) {
            Next::Broken(l) => return Ok(Stop::Stuck(Fault::Against(l))),
            Next::Decide(l) => store.decide(l),
            Next::Ready => {
                let Some(l) = choose(branching, store.assignment()) else {
                    return Ok(Stop::Full);
                };
                store.decide(l);
            }
        }
    }
}
