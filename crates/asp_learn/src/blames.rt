// What a false clause or a false literal comes from, in decisions alone.
ghost use Rattle.std.specs.Prelude.{◌≡◌, ◌⊎◌, ◌++◌, ◌==◌, [], ◌∷◌, not, IfOk, filter};
ghost use Rattle.std.specs.List.{All};
ghost use Rattle.theory_form.specs.Hints.{FollowsByHints};
ghost use Rattle.theory_form.specs.Truth.{IsFalseIn};
ghost use Rattle.asp_store.specs.Store.{assigned, clause_at, IsConflict};
ghost use Rattle.asp_learn.specs.Blames.{CanBlame, IsBlamed, IsImplied, IsOfFault};
ghost use Rattle.asp_learn.specs.Conflicts.{AreClear, IsAbove0, IsWellFormed};
ghost use Rattle.asp_learn.specs.Learning.{IsBlame, IsMadeOf};

use crate::descents::explain;
use asp_store::{Store, Why};
use sqlite_items::Items;
use std::alloc::{AllocError, Global};
use theory_form::{Clause, ClauseId, Lit, Marks, Var};

/// What is blamed on decisions.
#[derive(Clone, Copy, PartialEq, Eq, Debug)]
pub enum Fault {
    /// That the clause of this key is false.
    Conflict(ClauseId),
    /// That this literal is false, whose opposite a clause implied.
    Against(Lit),
}

/// What was blamed.
#[derive(Drop)]
pub struct Blamed {
    /// A clause of the opposites of decisions, and of the opposite of the literal that is false.
    pub clause: Clause,
    /// The keys of clauses by which it follows, in this order.
    pub hints: Items<ClauseId>,
}

/// Blames a fault on the decisions from which it comes, by resolution with the reasons of all implied entries on the way.
/// Every variable of the store has a clear bit in `marks`, which are left as they were, whatever the answer. Only memory
/// can run out.
pub fn blame(
    alloc: Global,
    s: &Store,
    fault: Fault,
    marks: &mut Marks,
) -> Result<Blamed, AllocError>
    requires can { CanBlame s.now fault }
    requires clear { AreClear s.now marks.old }
    ensures well_formed { IfOk result (λ b. IsWellFormed b.clause) }
    ensures follows { IfOk result (λ b. FollowsByHints (clause_at s.now.clauses) s.now.places b.clause b.hints) }
    ensures blamed { IfOk result (λ b. All (IsBlamed s.now.entries fault) b.clause) }
    ensures above_0 { IfOk result (λ b. All (λ l. IsAbove0 s.now.entries l ⊎ IsOfFault fault l) b.clause) }
    ensures marks { marks.new ≡ marks.old }
{
    match fault {
        Fault::Conflict(id) => blame_clause(alloc, s, id, marks),
        Fault::Against(l) => blame_literal(alloc, s, l, marks),
    }
}

// Blames a false clause.
fn blame_clause(
    alloc: Global,
    s: &Store,
    id: ClauseId,
    marks: &mut Marks,
) -> Result<Blamed, AllocError>
    requires can { IsConflict s.now.clauses (assigned s.now) id.0 }
    requires clear { AreClear s.now marks.old }
    ensures blame { IfOk result (IsBlame s.now (Fault.Conflict id)) }
    ensures marks { marks.new ≡ marks.old }
{
    // Its clauses tell what is true of every store.
    let _assignment = s.assignment();
    let lits = match s.clause(id) {
        Some(lits) => lits,
        None => unreachable!(),
    };
    let down = explain(alloc, s, lits, marks)?;
    make_blamed(down.lits, down.hints, id)
}

// Blames a literal that is false, whose opposite a clause implied.
fn blame_literal(alloc: Global, s: &Store, l: Lit, marks: &mut Marks) -> Result<Blamed, AllocError>
    requires is_false { IsFalseIn (assigned s.now) l }
    requires implied { IsImplied s.now.entries l.var.0 }
    requires clear { AreClear s.now marks.old }
    ensures blame { IfOk result (IsBlame s.now (Fault.Against l)) }
    ensures marks { marks.new ≡ marks.old }
{
    let _assignment = s.assignment();
    let id = match s.why(l.var) {
        Some((Why::Clause(id), _)) => id,
        _ => unreachable!(),
    };
    let lits = match s.clause(id) {
        Some(lits) => lits,
        None => unreachable!(),
    };
    let others = without(alloc, lits, l.var)?;
    let mut down = explain(alloc, s, others.as_slice(), marks)?;
    down.lits.push(l.opposite())?;
    make_blamed(down.lits, down.hints, id)
}

// The literals that are not of this variable.
fn without(alloc: Global, lits: &[Lit], v: Var) -> Result<Vec<Lit>, AllocError>
    ensures { IfOk result (λ others. others.items ≡ filter (λ l. not (l.var.0 == v.0)) lits.now) }
{
    let mut others = Vec::new(alloc);
    for l in lits {
        if l.var != v {
            others.push(*l)?;
        }
    }
    Ok(others)
}

// The clause of these literals, with these hints and one more.
fn make_blamed(lits: Vec<Lit>, hints: Vec<ClauseId>, last: ClauseId) -> Result<Blamed, AllocError>
    ensures { IfOk result (IsMadeOf lits.items (hints.items ++ last ∷ [])) }
{
    let mut hints = hints;
    hints.push(last)?;
    Ok(Blamed {
        clause: Clause::sorted(lits)?,
        hints: Items::from_vec(hints),
    })
}
