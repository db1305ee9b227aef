// The variables of the groups.
ghost use Rattle.std.specs.Prelude.{◌≡◌, ◌+◌, ◌==◌, pos, ◌≤ℤ◌, [], ◌∷◌, IfOk, IfSome, length};
ghost use Rattle.std.specs.List.{enumerate_from};
ghost use Rattle.ground_form.specs.Ranges.{IsGuardNumber};
ghost use Rattle.theory_build.specs.Drafts.{Adds, AddsTerms, IsLonger, next_of};
ghost use Rattle.theory_build.specs.Entries.{reaches, yes};
ghost use Rattle.theory_build.specs.Groups as spec;
ghost use Rattle.theory_build.specs.Marks.{AreMarks, Marks};
ghost use Rattle.theory_build.specs.Pieces.{in_turn};

use crate::clauses::{ascending, negative, positive};
use crate::drafts::Draft;
use crate::entries::Entry;
use crate::frames::Frame;
use crate::guards::Guards;
use crate::marks::mark;
use ground_form::{Body, GroundProgram, Group, GroupGuard, GroupRow, GuardRel};
use sqlite_items::Items;
use std::alloc::{AllocError, Global};
use theory_form::{Lit, Var};

// ---- Tuples.

// The literal that is true where all of these are.
fn add_conjunct(alloc: Global, draft: &mut Draft, lits: &[Lit]) -> Result<Lit, AllocError>
    ensures { IfOk result (Adds draft.old draft.new (spec.conjunct_piece (next_of draft.old) lits.now)) }
{
    if lits.len() == 1 {
        return Ok(lits[0]);
    }
    let v = draft.next()?;
    draft.add(Entry::all_of(alloc, v, lits)?)?;
    Ok(positive(v))
}

// The literal that is true where this condition is.
fn add_condition(
    alloc: Global,
    p: &Frame,
    draft: &mut Draft,
    condition: &[i64],
) -> Result<Lit, AllocError>
    ensures { IfOk result (Adds draft.old draft.new (spec.condition_piece p.now (next_of draft.old) condition.now)) }
{
    let mut lits = Vec::new(alloc);
    p.push_atom_lits(&mut lits, condition)?;
    let lits = ascending(lits)?;
    add_conjunct(alloc, draft, lits.as_slice())
}

// The literals of the conditions of a tuple.
fn add_conditions(
    alloc: Global,
    p: &Frame,
    draft: &mut Draft,
    conditions: &[Items<i64>],
) -> Result<Vec<Lit>, AllocError>
    ensures { IfOk result (λ names. Adds draft.old draft.new (in_turn (spec.condition_piece p.now) (next_of draft.old) conditions.now) names.items) }
{
    let mut names = Vec::new(alloc);
    for condition in conditions {
        let name = add_condition(alloc, p, draft, condition.as_slice())?;
        names.push(name)?;
    }
    Ok(names)
}

// A tuple. It answers the term that it is of the sum, if its first member is an integer.
fn add_row(
    alloc: Global,
    p: &Frame,
    draft: &mut Draft,
    row: &GroupRow,
) -> Result<Option<(i64, Var)>, AllocError>
    ensures { IfOk result (Adds draft.old draft.new (spec.row_piece p.now (next_of draft.old) row.now)) }
{
    let conditions = add_conditions(alloc, p, draft, row.conditions.as_slice())?;
    let t = draft.next()?;
    draft.add(Entry::any_of(alloc, t, conditions.as_slice())?)?;
    Ok(row.weight.map(|weight| (weight, Var(t))))
}

// The tuples of a group. It answers the terms that they are of the sum.
fn add_rows(
    alloc: Global,
    p: &Frame,
    draft: &mut Draft,
    rows: &[GroupRow],
) -> Result<Vec<(i64, Var)>, AllocError>
    ensures { IfOk result (λ terms. AddsTerms draft.old draft.new (in_turn (spec.row_piece p.now) (next_of draft.old) rows.now) terms.items) }
{
    let mut terms = Vec::new(alloc);
    for row in rows {
        if let Some(term) = add_row(alloc, p, draft, row)? {
            terms.push(term)?;
        }
    }
    Ok(terms)
}

// ---- Guards.

// A variable for that the sum reaches the bound.
fn add_sum(
    alloc: Global,
    draft: &mut Draft,
    terms: &[(i64, Var)],
    bound: i64,
) -> Result<u64, AllocError>
    ensures { IfOk result (λ v. (v ≡ next_of draft.old) × IsLonger draft.old draft.new (reaches terms.now bound ∷ [])) }
{
    let v = draft.next()?;
    draft.add(Entry::reaches(alloc, terms, bound)?)?;
    Ok(v)
}

// A variable for that the sum is k, behind those for that it reaches k and k + 1.
fn add_equal(
    alloc: Global,
    draft: &mut Draft,
    terms: &[(i64, Var)],
    k: i64,
) -> Result<u64, AllocError>
    requires { k ≤ℤ pos 2147483647 }
    ensures { IfOk result (λ v. (v ≡ next_of draft.old + 2) × IsLonger draft.old draft.new (spec.equal_piece terms.now (next_of draft.old) k (yes v)).entries) }
{
    let at_least = add_sum(alloc, draft, terms, k)?;
    let above = add_sum(alloc, draft, terms, k + 1)?;
    let v = draft.next()?;
    let lits = [positive(at_least), negative(above)];
    draft.add(Entry::all_of(alloc, v, &lits)?)?;
    Ok(v)
}

// The literal that is true where the sum stands so to k.
fn add_comparison(
    alloc: Global,
    draft: &mut Draft,
    terms: &[(i64, Var)],
    rel: GuardRel,
    k: i64,
) -> Result<Lit, AllocError>
    requires { k ≤ℤ pos 2147483647 }
    ensures { IfOk result (Adds draft.old draft.new (spec.compare_piece terms.now (next_of draft.old) rel k)) }
{
    match rel {
        GuardRel::Ge => Ok(positive(add_sum(alloc, draft, terms, k)?)),
        GuardRel::Gt => Ok(positive(add_sum(alloc, draft, terms, k + 1)?)),
        GuardRel::Lt => Ok(negative(add_sum(alloc, draft, terms, k)?)),
        GuardRel::Le => Ok(negative(add_sum(alloc, draft, terms, k + 1)?)),
        GuardRel::Eq => Ok(positive(add_equal(alloc, draft, terms, k)?)),
        GuardRel::Ne => Ok(negative(add_equal(alloc, draft, terms, k)?)),
    }
}

// The literal of a guard.
#[tactic(auto, unfolding(crate::specs::Groups::guard_piece))]
fn add_guard(
    alloc: Global,
    p: &Frame,
    draft: &mut Draft,
    terms: &[(i64, Var)],
    guard: Option<GroupGuard>,
) -> Result<Lit, AllocError>
    requires { IfSome guard IsGuardNumber }
    ensures { IfOk result (Adds draft.old draft.new (spec.guard_piece p.now.truth terms.now (next_of draft.old) guard)) }
{
    match guard {
        None => Ok(positive(p.truth)),
        Some(GroupGuard::Fixed(yes)) => Ok(Lit {
            var: Var(p.truth),
            yes,
        }),
        Some(GroupGuard::Compare(rel, k)) => add_comparison(alloc, draft, terms, rel, k),
    }
}

// The literal of both guards, which has a variable where it is needed.
fn add_both(
    alloc: Global,
    p: &Frame,
    draft: &mut Draft,
    needed: bool,
    left: Lit,
    right: Lit,
) -> Result<Lit, AllocError>
    ensures { IfOk result (Adds draft.old draft.new (spec.both_piece p.now.truth needed (next_of draft.old) left right)) }
{
    if !needed {
        return Ok(positive(p.truth));
    }
    let v = draft.next()?;
    let lits = [left, right];
    draft.add(Entry::all_of(alloc, v, &lits)?)?;
    Ok(positive(v))
}

// ---- Groups.

// A group. It answers the literals of its guards.
fn add_group(
    alloc: Global,
    p: &Frame,
    draft: &mut Draft,
    needed: bool,
    group: &Group,
) -> Result<Guards, AllocError>
    requires left { IfSome group.now.left IsGuardNumber }
    requires right { IfSome group.now.right IsGuardNumber }
    ensures { IfOk result (Adds draft.old draft.new (spec.group_piece p.now needed (next_of draft.old) group.now)) }
{
    let terms = add_rows(alloc, p, draft, group.rows.as_slice())?;
    let sum = terms.as_slice();
    let left = add_guard(alloc, p, draft, sum, group.left)?;
    let right = add_guard(alloc, p, draft, sum, group.right)?;
    let both = add_both(alloc, p, draft, needed, left, right)?;
    Ok(Guards { left, right, both })
}

// Marks each group of which a body asks for both guards.
fn mark_groups(marks: &mut [bool], body: &Body)
    ensures { Marks marks.old marks.new (λ k. spec.asks_for_both k body.now) }
{
    for guard in body.guards.as_slice() {
        if guard.guard == 2 {
            mark(marks, guard.group);
        }
    }
}

// For each group, whether some body asks for both of its guards.
#[tactic(auto, unfolding(crate::specs::Groups::needs_both))]
fn marks_of_both(alloc: Global, g: &GroundProgram) -> Result<Vec<bool>, AllocError>
    ensures { IfOk result (λ marks. AreMarks (length g.now.groups) (spec.needs_both g.now) marks.items) }
{
    let mut marks = vec![in alloc; false; g.groups().len()]?;
    for body in g.bodies() {
        mark_groups(&mut marks, body);
    }
    Ok(marks)
}

// The groups of a program. It answers the literals of their guards.
pub(crate) fn add_groups(
    alloc: Global,
    p: &Frame,
    draft: &mut Draft,
    g: &GroundProgram,
) -> Result<Vec<Guards>, AllocError>
    ensures { IfOk result (λ guards. Adds draft.old draft.new (in_turn (spec.group_piece_at p.now g.now) (next_of draft.old) (enumerate_from 1 g.now.groups)) guards.items) }
{
    let needed = marks_of_both(alloc, g)?;
    let mut guards = Vec::new(alloc);
    for (place, group) in g.groups().iter().enumerate() {
        let literals = add_group(alloc, p, draft, needed[place], group)?;
        guards.push(literals)?;
    }
    Ok(guards)
}
