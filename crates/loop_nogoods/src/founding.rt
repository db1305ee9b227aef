// The founded variables of a program, by a worklist.
//
// An atom is open where it is one of the program and not false. An open atom is founded where one of its supports is not
// false and either rests on no body or is the positive literal of a founded body. A body is founded where each open atom
// that stands positively in it is. The open atoms that are left are the greatest unfounded set.
ghost use Rattle.std.specs.Prelude.{◌≡◌, ◌≢◌, ◌↔◌, ◌⊎◌, ◌||◌, ◌==◌, not, ℕ, Bool, false, Some, ◌+◌, ◌<◌, ◌≤◌, [], length, take, All, Contains, IfOk, IsFalse, IsTrue, MatchOption, OnOk};
ghost use Rattle.std.specs.List.{AllWithin, HoldsAt};
ghost use Rattle.theory_form.specs.Theories.{TheoryView};
ghost use Rattle.loop_nogoods.specs.declared.waits.Wait.{Wait as Waiting};
ghost use Rattle.theory_form.specs.declared.literals.Lit.{Lit as Literal};
ghost use Rattle.theory_form.specs.declared.literals.Var.{Var as Variable};
ghost use Rattle.theory_form.specs.Truth.{value_of};
ghost use Rattle.sets.specs.Sets.{IsSubset};
ghost use Rattle.loop_nogoods.specs.Bodies as bodies;
ghost use Rattle.loop_nogoods.specs.Founding as spec;
ghost use Rattle.loop_nogoods.specs.Founding.{Awaits, Drains, IsBegun, IsEmptied, IsFinished, IsFit, IsFounding, IsRested, IsSettled, IsSound, IsTended, Keeps, Misses, SettlesAll, Step, waits};
ghost use Rattle.loop_nogoods.specs.Marks.{marked};

use crate::stamps::Stamps;
use crate::supports::{body_lits, support_lits};
use crate::waits::{Wait, Waits};
use std::alloc::{AllocError, Global};
use theory_form::{Assignment, Lit, Theory, Var};

// The open atoms, the founded variables, what waits for each variable, and the founded variables for which what waits is
// still to be looked at.
#[derive(Drop)]
pub struct Founding {
    atoms: Stamps,
    founded: Stamps,
    waiting: Waits,
    pending: Vec<Var>,
}

// Whether an atom is not false.
fn is_open(a: &Assignment, v: Var) -> bool
    ensures { IsTrue result ↔ (value_of a.now v.0 ≢ Some false) }
{
    a.value(v) != Some(false)
}

// How many places a table needs for the variables of the theory. A table of 2^64 places fits no memory.
fn places_of(t: &Theory) -> Result<usize, AllocError>
    ensures { IfOk result (λ places. places ≡ length t.now.variables + 1) }
{
    match t.var_count().checked_add(1) {
        Some(places) => Ok(places as usize),
        None => Err(AllocError),
    }
}

// Marks those of the variables that are not false.
fn mark_open(vars: &[Var], a: &Assignment, atoms: &mut Stamps)
    requires places { All (λ (v : Variable). v.0 < length atoms.old) vars.now }
    requires clear { (v : ℕ) → IsFalse (marked atoms.old v) }
    ensures places { length atoms.new ≡ length atoms.old }
    ensures marks { (v : Variable) → IsTrue (marked atoms.new v.0) ↔ (Contains vars.now v × (value_of a.now v.0 ≢ Some false)) }
{
    for v in vars {
        if is_open(a, *v) {
            atoms.set(*v);
        }
    }
}

impl Founding {
    // Whether the literal is the positive one of an open atom that is not founded.
    fn blocks(&self, l: Lit) -> bool
        ensures { result ≡ spec.blocks self.now l }
    {
        l.yes && self.is_unfounded(l.var)
    }

    // Whether a variable is an open atom and not founded.
    pub(crate) fn is_unfounded(&self, v: Var) -> bool
        ensures { result ≡ spec.unfounded_in self.now v.0 }
    {
        self.atoms.is_marked(v) && !self.founded.is_marked(v)
    }

    // The first place from `from` on whose literal blocks.
    fn first_block(&self, lits: &[Lit], from: usize) -> Option<usize>
        ensures { MatchOption result (AllWithin (λ l. IsFalse (spec.blocks self.now l)) lits.now from (length lits.now)) (λ place. (from ≤ place) × (place < length lits.now) × AllWithin (λ l. IsFalse (spec.blocks self.now l)) lits.now from place × HoldsAt (λ l. IsTrue (spec.blocks self.now l)) lits.now place) }
    {
        for place in from..lits.len() {
            if self.blocks(lits[place]) {
                return Some(place);
            }
        }
        None
    }

    // Marks a variable as founded, and makes it pending if it was not founded before.
    fn found(&mut self, v: Var) -> Result<(), AllocError>
        requires { v.0 < length self.old.founded }
        ensures step { OnOk result ((t : TheoryView) → Step t self.old self.new) }
        ensures founded { OnOk result (IsTrue (marked self.new.founded v.0)) }
        ensures sound { OnOk result ((t : TheoryView) (w : ℕ → Bool) → Misses w v.0 (bodies.body_lits t v.0) → IsSound t w self.old → IsSound t w self.new) }
    {
        if !self.founded.is_marked(v) {
            self.founded.set(v);
            self.pending.push(v)?;
        }
        Ok(())
    }

    // Founds a variable whose body nothing blocks from its place on, or lets it wait for the first that does.
    fn settle(&mut self, t: &Theory, entry: Wait) -> Result<(), AllocError>
        requires valid { IsFounding self.old }
        requires head { entry.head.0 < length self.old.founded }
        ensures step { OnOk result (Step t.now self.old self.new) }
        ensures rested { OnOk result (IsRested t.now self.new entry.head.0) }
        ensures sound { OnOk result ((w : ℕ → Bool) → IsSubset w (marked self.old.atoms) → Misses w entry.head.0 (take entry.place (bodies.body_lits t.now entry.head.0)) → IsSound t.now w self.old → IsSound t.now w self.new) }
    {
        let lits = body_lits(t, entry.head);
        match self.first_block(lits, entry.place) {
            None => self.found(entry.head)?,
            Some(place) => {
                let next = Wait {
                    head: entry.head,
                    place: place + 1,
                };
                self.waiting.add(lits[place].var, next)?;
            }
        }
        Ok(())
    }

    // Settles what waited for a variable.
    fn settle_all(&mut self, t: &Theory, list: &[Wait]) -> Result<(), AllocError>
        requires valid { IsFounding self.old }
        requires heads { All (λ (e : Waiting). e.head.0 < length self.old.founded) list.now }
        ensures step { OnOk result (Step t.now self.old self.new) }
        ensures rested { OnOk result (All (λ (e : Waiting). IsRested t.now self.new e.head.0) list.now) }
        ensures sound { OnOk result ((w : ℕ → Bool) → IsSubset w (marked self.old.atoms) → All (λ (e : Waiting). Misses w e.head.0 (take e.place (bodies.body_lits t.now e.head.0))) list.now → IsSound t.now w self.old → IsSound t.now w self.new) }
    {
        for entry in list {
            self.settle(t, *entry)?;
        }
        Ok(())
    }

    // Whether a variable is founded, or something waits for it.
    fn is_begun(&self, v: Var) -> bool
        ensures { result ≡ (marked self.now.founded v.0 || not (length (waits self.now.waiting v.0) == 0)) }
    {
        self.founded.is_marked(v) || !self.waiting.list(v).is_empty()
    }

    // Settles a body, unless it is founded or something waits for it: then it has been settled.
    fn settle_body(&mut self, t: &Theory, body: Var) -> Result<(), AllocError>
        requires valid { IsFounding self.old }
        requires tended { IsTended t.now self.old }
        requires place { body.0 < length self.old.founded }
        requires no_atom { IsFalse (marked self.old.atoms body.0) }
        ensures step { OnOk result (Step t.now self.old self.new) }
        ensures rested { OnOk result (IsRested t.now self.new body.0) }
        ensures sound { OnOk result ((w : ℕ → Bool) → IsSubset w (marked self.old.atoms) → IsSound t.now w self.old → IsSound t.now w self.new) }
    {
        if !self.is_begun(body) {
            let entry = Wait {
                head: body,
                place: 0,
            };
            self.settle(t, entry)?;
        }
        Ok(())
    }

    // Founds an atom with the body of a support, or lets it wait for that.
    fn await_body(&mut self, t: &Theory, v: Var, body: Var) -> Result<(), AllocError>
        requires valid { IsFounding self.old }
        requires tended { IsTended t.now self.old }
        requires head { v.0 < length self.old.founded }
        requires place { body.0 < length self.old.founded }
        requires no_atom { IsFalse (marked self.old.atoms body.0) }
        ensures step { OnOk result (Step t.now self.old self.new) }
        ensures settled { OnOk result (IsTrue (marked self.new.founded v.0) ⊎ Awaits self.new body.0 v.0) }
        ensures sound { OnOk result ((w : ℕ → Bool) → IsSubset w (marked self.old.atoms) → (Misses w body.0 (bodies.body_lits t.now body.0) → Misses w v.0 (bodies.body_lits t.now v.0)) → IsSound t.now w self.old → IsSound t.now w self.new) }
    {
        self.settle_body(t, body)?;
        if self.founded.is_marked(body) {
            self.found(v)?;
        } else {
            let entry = Wait { head: v, place: 0 };
            self.waiting.add(body, entry)?;
        }
        Ok(())
    }

    // Settles a support of an atom: a false one does nothing, and one that rests on no body founds it.
    fn settle_support(
        &mut self,
        t: &Theory,
        a: &Assignment,
        v: Var,
        support: Lit,
    ) -> Result<(), AllocError>
        requires valid { IsFounding self.old }
        requires tended { IsTended t.now self.old }
        requires fit { IsFit t.now self.old }
        requires atom { IsTrue (marked self.old.atoms v.0) }
        ensures step { OnOk result (Step t.now self.old self.new) }
        ensures settled { OnOk result (IsSettled a.now self.new v.0 support) }
        ensures sound { OnOk result ((w : ℕ → Bool) → IsSubset w (marked self.old.atoms) → Keeps t.now a.now w v.0 support → IsSound t.now w self.old → IsSound t.now w self.new) }
    {
        if a.is_false(support) {
            return Ok(());
        }
        if support.yes && !body_lits(t, support.var).is_empty() {
            self.await_body(t, v, support.var)?;
        } else {
            self.found(v)?;
        }
        Ok(())
    }

    // Settles the supports of an atom.
    fn settle_atom(&mut self, t: &Theory, a: &Assignment, v: Var) -> Result<(), AllocError>
        requires valid { IsFounding self.old }
        requires tended { IsTended t.now self.old }
        requires fit { IsFit t.now self.old }
        requires atom { IsTrue (marked self.old.atoms v.0) }
        ensures step { OnOk result (Step t.now self.old self.new) }
        ensures settled { OnOk result (All (IsSettled a.now self.new v.0) (bodies.support_lits t.now v.0)) }
        ensures sound { OnOk result ((w : ℕ → Bool) → IsSubset w (marked self.old.atoms) → All (Keeps t.now a.now w v.0) (bodies.support_lits t.now v.0) → IsSound t.now w self.old → IsSound t.now w self.new) }
    {
        for support in support_lits(t, v) {
            self.settle_support(t, a, v, *support)?;
        }
        Ok(())
    }

    // Settles the supports of the open atoms among these variables.
    fn settle_atoms(&mut self, t: &Theory, a: &Assignment, vars: &[Var]) -> Result<(), AllocError>
        requires valid { IsFounding self.old }
        requires tended { IsTended t.now self.old }
        requires fit { IsFit t.now self.old }
        ensures { OnOk result (SettlesAll t.now a.now self.old self.new vars.now) }
    {
        for v in vars {
            if self.atoms.is_marked(*v) {
                self.settle_atom(t, a, *v)?;
            }
        }
        Ok(())
    }

    // Settles what waits for the founded variables, until none is pending.
    fn drain(&mut self, alloc: Global, t: &Theory) -> Result<(), AllocError>
        requires valid { IsFounding self.old }
        requires tended { IsTended t.now self.old }
        ensures drains { OnOk result (Drains t.now self.old self.new) }
        ensures none { OnOk result (self.new.pending.items ≡ []) }
    {
        while let Some(v) = self.pending.pop() {
            let list = self.waiting.take(alloc, v);
            self.settle_all(t, list.as_slice())?;
        }
        Ok(())
    }

    // Empties the tables, with a place for each variable of the theory.
    fn restart(&mut self, alloc: Global, t: &Theory) -> Result<(), AllocError>
        ensures { OnOk result (IsEmptied t.now self.new) }
    {
        let places = places_of(t)?;
        self.atoms.restart(places)?;
        self.founded.restart(places)?;
        self.waiting.restart(alloc, places)?;
        self.pending.clear();
        Ok(())
    }

    // Nothing is founded yet.
    fn begin(
        &mut self,
        alloc: Global,
        t: &Theory,
        block: u64,
        a: &Assignment,
    ) -> Result<(), AllocError>
        ensures { OnOk result (IsBegun t.now block a.now self.new) }
    {
        self.restart(alloc, t)?;
        mark_open(t.atoms(block), a, &mut self.atoms);
        Ok(())
    }

    // The empty tables.
    pub(crate) fn new(alloc: Global) -> Self {
        Founding {
            atoms: Stamps::new(alloc),
            founded: Stamps::new(alloc),
            waiting: Waits::new(alloc),
            pending: Vec::new(alloc),
        }
    }

    // Finds the founded variables of a program.
    pub(crate) fn run(
        &mut self,
        alloc: Global,
        t: &Theory,
        block: u64,
        a: &Assignment,
    ) -> Result<(), AllocError>
        ensures { OnOk result (IsFinished t.now block a.now self.new) }
    {
        self.begin(alloc, t, block, a)?;
        self.settle_atoms(t, a, t.atoms(block))?;
        self.drain(alloc, t)?;
        Ok(())
    }
}
