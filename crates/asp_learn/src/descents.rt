// The way down from false literals to the decisions that they come from, along the reasons of implied variables.
ghost use Rattle.std.specs.Prelude.{◌≡◌, ◌<◌, ◌≤◌, ◌+◌, ◌*◌, ◌∷◌, ℕ, [], Bool, List, length, not, true, count_by, reverse, slice_index_or, slice_set, IfOk, IsFalse, MatchOption, OnOk};
ghost use Rattle.std.specs.List.{All};
ghost use Rattle.theory_form.specs.Truth.{IsFalseIn};
ghost use Rattle.theory_form.specs.declared.literals.Lit.{Lit as Literal};
ghost use Rattle.asp_store.specs.Store.{assigned};
ghost use Rattle.asp_learn.specs.Conflicts.{AreClear};
ghost use Rattle.asp_learn.specs.Descents.{Explained};
ghost use Rattle.asp_learn.specs.Marked.{AreMarked, OnlyMarked, has, marked};

use crate::marked::{clear_all, visit};
use asp_store::{Store, Why};
use std::alloc::{AllocError, Global};
use theory_form::{ClauseId, Lit, Marks, Var};

/// An implied variable on the way, the key of its reason, and how many literals of that were gone over.
#[derive(Clone, Copy, PartialEq, Eq, Debug)]
pub struct Frame {
    pub var: Var,
    pub id: ClauseId,
    pub place: usize,
}

/// The way down: the implied variables that it stands at, the innermost last, the variables that it came to, which are
/// marked, the literals whose opposites were decided, and the keys of the reasons that it left, in which each stands
/// behind those of its literals.
#[derive(Drop)]
pub struct Descent {
    pub path: Vec<Frame>,
    pub seen: Vec<Var>,
    pub lits: Vec<Lit>,
    pub hints: Vec<ClauseId>,
}

// The first place, from this one on, of a literal whose variable is not marked.
fn next_unmarked(lits: &[Lit], from: usize, marks: &Marks) -> Option<usize>
    ensures { MatchOption result ((k : ℕ) (d : Literal) → from ≤ k → k < length lits.now → marked marks.now (slice_index_or lits.now k d).var.0 ≡ true) (λ i. (i < length lits.now) × ((k : ℕ) (d : Literal) → from ≤ k → k < i → marked marks.now (slice_index_or lits.now k d).var.0 ≡ true) × ((d : Literal) → IsFalse (marked marks.now (slice_index_or lits.now i d).var.0))) }
{
    for i in from..lits.len() {
        if !marks.is_marked(lits[i].var) {
            return Some(i);
        }
    }
    None
}

impl Descent {
    ghost use Rattle.asp_learn.specs.Descents.{IsAtRest, IsDescended, IsEntered, StaysWithin};

    pub fn new(alloc: Global) -> Self
        ensures path { result.path.items ≡ [] }
        ensures seen { result.seen.items ≡ [] }
        ensures lits { result.lits.items ≡ [] }
        ensures hints { result.hints.items ≡ [] }
    {
        Descent {
            path: Vec::new(alloc),
            seen: Vec::new(alloc),
            lits: Vec::new(alloc),
            hints: Vec::new(alloc),
        }
    }

    // Comes to a variable: stands at it where it is implied, and keeps the literal where it was decided.
    fn enter(&mut self, s: &Store, l: Lit, marks: &mut Marks) -> Result<(), AllocError>
        requires within { l.var.0 < length marks.old }
        requires is_false { IsFalseIn (assigned s.now) l }
        ensures entered { OnOk result (IsEntered s.now l self.old self.new) }
        ensures bits { OnOk result (marks.new ≡ slice_set marks.old l.var.0 true) }
        ensures marked { (base : List Bool) → IsFalse (marked marks.old l.var.0) → AreMarked self.old.seen.items base marks.old → AreMarked self.new.seen.items base marks.new }
    {
        let _assignment = s.assignment();
        visit(&mut self.seen, l.var, marks)?;
        match s.why(l.var) {
            Some((Why::Clause(id), _)) => self.path.push(Frame {
                var: l.var,
                id,
                place: 0,
            })?,
            Some((Why::Decision, _)) => self.lits.push(l)?,
            None => unreachable!(),
        }
        Ok(())
    }

    // Goes on at a frame that was taken from the path: into the first literal that it did not come to, or else back, with
    // the key as a hint.
    fn go_on(&mut self, s: &Store, frame: Frame, marks: &mut Marks) -> Result<(), AllocError>
        requires descended { IsDescended s.now (frame ∷ reverse self.old.path.items) self.old }
        requires only { OnlyMarked s.now self.old.seen.items marks.old }
        ensures descended { OnOk result (IsDescended s.now (reverse self.new.path.items) self.new) }
        ensures kept { OnOk result ((v : ℕ) → has self.old.seen.items v ≡ true → has self.new.seen.items v ≡ true) }
        ensures within { OnOk result (StaysWithin s.now [] self.old self.new) }
        ensures marked { (base : List Bool) → AreMarked self.old.seen.items base marks.old → AreMarked self.new.seen.items base marks.new }
        ensures smaller { OnOk result (2 * count_by not marks.new + length self.new.path.items ≤ 2 * count_by not marks.old + length self.old.path.items) }
    {
        let lits = match s.clause(frame.id) {
            Some(lits) => lits,
            None => unreachable!(),
        };
        match next_unmarked(lits, frame.place, marks) {
            Some(place) => {
                self.path.push(Frame {
                    place: place + 1,
                    ..frame
                })?;
                self.enter(s, lits[place], marks)?;
            }
            None => self.hints.push(frame.id)?,
        }
        Ok(())
    }

    // Goes down from a false literal.
    fn descend(&mut self, s: &Store, l: Lit, marks: &mut Marks) -> Result<(), AllocError>
        requires is_false { IsFalseIn (assigned s.now) l }
        requires rest { IsAtRest s.now self.old }
        requires only { OnlyMarked s.now self.old.seen.items marks.old }
        ensures rest { OnOk result (IsAtRest s.now self.new) }
        ensures met { OnOk result (has self.new.seen.items l.var.0 ≡ true) }
        ensures kept { OnOk result ((v : ℕ) → has self.old.seen.items v ≡ true → has self.new.seen.items v ≡ true) }
        ensures within { OnOk result (StaysWithin s.now (l ∷ []) self.old self.new) }
        ensures marked { (base : List Bool) → AreMarked self.old.seen.items base marks.old → AreMarked self.new.seen.items base marks.new }
    {
        let _assignment = s.assignment();
        if marks.is_marked(l.var) {
            return Ok(());
        }
        self.enter(s, l, marks)?;
        while let Some(frame) = self.path.pop() {
            self.go_on(s, frame, marks)?;
        }
        Ok(())
    }

    // Goes down from each of these literals.
    fn descend_all(&mut self, s: &Store, lits: &[Lit], marks: &mut Marks) -> Result<(), AllocError>
        requires are_false { All (IsFalseIn (assigned s.now)) lits.now }
        requires rest { IsAtRest s.now self.old }
        requires only { OnlyMarked s.now self.old.seen.items marks.old }
        ensures rest { OnOk result (IsAtRest s.now self.new) }
        ensures met { OnOk result (All (λ l. has self.new.seen.items l.var.0 ≡ true) lits.now) }
        ensures within { OnOk result (StaysWithin s.now lits.now self.old self.new) }
        ensures marked { (base : List Bool) → AreMarked self.old.seen.items base marks.old → AreMarked self.new.seen.items base marks.new }
    {
        for l in lits {
            self.descend(s, *l, marks)?;
        }
        Ok(())
    }
}

/// Where false literals come from: the literals whose opposites were decided, and the reasons, each behind those of its
/// literals. It costs a look at each literal of the reasons, whatever else is on the trail.
pub fn explain(
    alloc: Global,
    s: &Store,
    lits: &[Lit],
    marks: &mut Marks,
) -> Result<Descent, AllocError>
    requires are_false { All (IsFalseIn (assigned s.now)) lits.now }
    requires clear { AreClear s.now marks.old }
    ensures explained { IfOk result (λ d. Explained s.now lits.now d.lits.items d.hints.items) }
    ensures marks { marks.new ≡ marks.old }
{
    // Its clauses tell what is true of every store.
    let _assignment = s.assignment();
    let mut down = Descent::new(alloc);
    let done = down.descend_all(s, lits, marks);
    clear_all(down.seen.as_slice(), marks);
    done?;
    Ok(down)
}
