// The loop clause of an atom and a set.
ghost use Rattle.std.specs.Prelude.{◌≡◌, ◌↔◌, ◌⊎◌, ◌&&◌, ℕ, Bool, All, Contains, IsTrue, Some, true, false};
ghost use Rattle.std.specs.List.{list_any};
ghost use Rattle.theory_form.specs.declared.literals.Lit.{Lit as Literal};
ghost use Rattle.theory_form.specs.declared.literals.Var.{Var as Variable};
ghost use Rattle.theory_form.specs.Literals.{IsAscending};
ghost use Rattle.theory_form.specs.Order.{lit_eq};
ghost use Rattle.theory_form.specs.Theories.{block_of};
ghost use Rattle.theory_model.specs.Loops.{AreAtomsOf, IsExternal};
ghost use Rattle.theory_model.specs.Models.{IsModel};
ghost use Rattle.theory_model.specs.Truth.{clause_true};
ghost use Rattle.loop_nogoods.specs.Bodies as bodies;
ghost use Rattle.loop_nogoods.specs.Bodies.{marked_set};
ghost use Rattle.loop_nogoods.specs.Marks.{AreClear, IsVariable};
ghost use Rattle.loop_nogoods.specs.Sets.{has};
ghost use Rattle.loop_nogoods.specs.Tests as spec;
ghost use Rattle.loop_nogoods.specs.Valid.{IsLoopNogood};

use crate::marking::{write_all, write_supports};
use crate::supports::{is_internal, is_variable, support_lits};
use theory_form::{Clause, Lit, Marks, Theory, Var};
use theory_model::loop_clause_is_true;

// Whether a clause holds a literal. It looks by halving.
fn is_among(c: &Clause, l: Lit) -> bool
    ensures { result ≡ spec.is_among c.now l }
{
    c.lits().binary_search(&l).is_ok()
}

// Whether each of the supports rests on the marked set, or is in the clause.
fn is_covered(t: &Theory, marks: &Marks, c: &Clause, supports: &[Lit]) -> bool
    ensures { result ≡ spec.is_covered t.now (marked_set t.now marks.now) c.now supports.now }
{
    supports
        .iter()
        .all(|s| is_internal(t, marks, *s) || is_among(c, *s))
}

// Whether each support of a member of `u` does.
fn covers(t: &Theory, marks: &Marks, c: &Clause, u: &[Var]) -> bool
    ensures { result ≡ spec.covers t.now (marked_set t.now marks.now) c.now u.now }
{
    u.iter()
        .all(|v| is_covered(t, marks, c, support_lits(t, *v)))
}

// Whether, but for one, none of the literals rests on the marked set.
fn stays_outside(t: &Theory, marks: &Marks, but: Lit, lits: &[Lit]) -> bool
    ensures { result ≡ spec.stays_outside t.now (marked_set t.now marks.now) but lits.now }
{
    lits.iter().all(|l| *l == but || !is_internal(t, marks, *l))
}

// Both: the clause has the supports of `u` that do not rest on the marked set and, but for one literal, none that does.
fn fits_set(t: &Theory, marks: &Marks, u: &[Var], but: Lit, c: &Clause) -> bool
    ensures { result ≡ spec.fits_set t.now u.now (marked_set t.now marks.now) but c.now }
{
    covers(t, marks, c, u) && stays_outside(t, marks, but, c.lits())
}

// Whether the clause has the external supports of `u` and, but for one literal, no internal ones.
fn has_externals(t: &Theory, u: &[Var], but: Lit, c: &Clause, marks: &mut Marks) -> bool
    requires clear { AreClear t.now marks.old }
    requires variables { All (λ (v : Variable). IsVariable t.now v.0) u.now }
    ensures value { result ≡ spec.fits_set t.now u.now (has u.now) but c.now }
    ensures marks { marks.new ≡ marks.old }
{
    write_all(u, true, marks);
    let fits = fits_set(t, marks, u, but, c);
    write_all(u, false, marks);
    fits
}

// Whether a literal is a support of an atom.
fn has_support(t: &Theory, v: Var, l: Lit) -> bool
    ensures { result ≡ list_any (λ s. lit_eq s l) (bodies.support_lits t.now v.0) }
{
    support_lits(t, v).contains(&l)
}

// Whether a literal is a support of a member of `u`. It looks through all of them.
fn is_support(t: &Theory, u: &[Var], l: Lit) -> bool
    ensures { result ≡ bodies.is_support t.now u.now l }
{
    u.iter().any(|v| has_support(t, *v, l))
}

// The same, where marks tell it for the variables of the theory.
fn is_named(t: &Theory, marks: &Marks, u: &[Var], l: Lit) -> bool
    ensures { result ≡ spec.is_named t.now marks.now u.now l }
{
    if is_variable(t, l.var) {
        marks.is_marked(l.var)
    } else {
        is_support(t, u, l)
    }
}

// Whether each literal of this sign, but for one, is.
fn are_named(t: &Theory, marks: &Marks, u: &[Var], but: Lit, yes: bool, lits: &[Lit]) -> bool
    ensures { result ≡ spec.are_named t.now marks.now u.now but yes lits.now }
{
    lits.iter().all(|l| *l == but || (l.yes != yes || is_named(t, marks, u, *l)))
}

// Whether each literal of the clause of this sign, but for one, is a support of a member of `u`.
fn are_supports(t: &Theory, u: &[Var], but: Lit, yes: bool, c: &Clause, marks: &mut Marks) -> bool
    requires { AreClear t.now marks.old }
    ensures value { result ≡ spec.are_supports t.now u.now but yes c.now }
    ensures marks { marks.new ≡ marks.old }
{
    write_supports(t, u, yes, true, marks);
    let named = are_named(t, marks, u, but, yes, c.lits());
    write_supports(t, u, yes, false, marks);
    named
}

// Whether the members of `u` are atoms of this program.
fn are_atoms_of(t: &Theory, block: u64, u: &[Var]) -> bool
    ensures { IsTrue result ↔ All (λ (v : Variable). block_of t.now v.0 ≡ Some block) u.now }
{
    u.iter().all(|v| t.block_of(*v) == Some(block))
}

// Whether `a` is of `u`, and the members of `u` are atoms of one program.
fn is_of_program(t: &Theory, a: Var, u: &[Var]) -> bool
    ensures { IsTrue result ↔ (IsTrue (has u.now a.0) × ((block : ℕ) × AreAtomsOf t.now block (has u.now))) }
{
    match t.block_of(a) {
        Some(block) => u.contains(&a) && are_atoms_of(t, block, u),
        None => false,
    }
}

// Whether each literal of the clause, but for one, is a support of a member of `u`.
fn has_supports_alone(t: &Theory, u: &[Var], but: Lit, c: &Clause, marks: &mut Marks) -> bool
    requires { AreClear t.now marks.old }
    ensures value { result ≡ (spec.are_supports t.now u.now but true c.now && spec.are_supports t.now u.now but false c.now) }
    ensures marks { marks.new ≡ marks.old }
{
    are_supports(t, u, but, true, c, marks) && are_supports(t, u, but, false, c, marks)
}

// Whether the literals of the clause, but for one, are the external supports of `u`.
fn has_externals_alone(t: &Theory, u: &[Var], but: Lit, c: &Clause, marks: &mut Marks) -> bool
    requires clear { AreClear t.now marks.old }
    requires variables { All (λ (v : Variable). IsVariable t.now v.0) u.now }
    ensures value { result ≡ (spec.fits_set t.now u.now (has u.now) but c.now && (spec.are_supports t.now u.now but true c.now && spec.are_supports t.now u.now but false c.now)) }
    ensures marks { marks.new ≡ marks.old }
{
    has_externals(t, u, but, c, marks) && has_supports_alone(t, u, but, c, marks)
}

// Whether the literals of the clause are one literal and the external supports of `u`.
fn has_literals(t: &Theory, u: &[Var], one: Lit, c: &Clause, marks: &mut Marks) -> bool
    requires clear { AreClear t.now marks.old }
    requires variables { All (λ (v : Variable). IsVariable t.now v.0) u.now }
    ensures value { IsTrue result ↔ ((l : Literal) → Contains c.now l ↔ ((l ≡ one) ⊎ IsExternal t.now (has u.now) l)) }
    ensures marks { marks.new ≡ marks.old }
{
    is_among(c, one) && has_externals_alone(t, u, one, c, marks)
}

/// Whether `c` is the loop clause of the atom `a` and the set `u`: the members of `u` are atoms of one program, `a` is one
/// of them, and `c` has the negation of `a`, the external supports of `u` and no other literal. Such a clause is true in
/// every model of the theory. Every variable of the theory has a clear bit in `marks`, which are left as they were. It
/// takes no memory.
pub fn loop_valid(t: &Theory, a: Var, u: &[Var], c: &Clause, marks: &mut Marks) -> bool
    requires { AreClear t.now marks.old }
    ensures valid { IsTrue result ↔ IsLoopNogood t.now (has u.now) a.0 c.now }
    ensures model { IsTrue result → (f : ℕ → Bool) → IsModel t.now f → IsTrue (clause_true f c.now) }
    ensures marks { marks.new ≡ marks.old }
{
    loop_clause_is_true();
    let _ = c.lits(); // they ascend
    if !is_of_program(t, a, u) {
        return false;
    }
    let negation = Lit { var: a, yes: false };
    has_literals(t, u, negation, c, marks)
}
