// The bodies of the rules.
ghost use Rattle.std.specs.Prelude.{◌≡◌, ◌+◌, ◌++◌, ◌==◌, IfOk, OnOk, length, map};
ghost use Rattle.std.specs.List.{enumerate_from, list_any, range_with_len};
ghost use Rattle.std.specs.List.Sorted.{IsStrictlySortedBy};
ghost use Rattle.ground_form.specs.declared.rules.GroundRule.{GroundRule as Rule};
ghost use Rattle.theory_build.specs.Ascending.{SameMembers, lits_cmp, place_in};
ghost use Rattle.theory_build.specs.Bodies as spec;
ghost use Rattle.theory_build.specs.Drafts.{IsLonger, next_of};
ghost use Rattle.theory_build.specs.Entries.{no, yes};
ghost use Rattle.theory_build.specs.Groups.{groups_piece};
ghost use Rattle.theory_build.specs.Marks.{AreMarks};

use crate::clauses::{ascending, negative, positive};
use crate::conjunctions::Conjunction;
use crate::drafts::Draft;
use crate::entries::Entry;
use crate::frames::Frame;
use crate::guards::Guards;
use crate::marks::mark;
use crate::numbers::sum;
use ground_form::{Body, GroundProgram, GuardUse, numbered};
use std::alloc::{AllocError, Global};
use theory_form::Lit;

// ---- Literals.

// The literal of a guard of a group: 0 is the left one, 1 the right one, and else both.
fn guard_lit(truth: u64, guard: u8, guards: Option<Guards>) -> Lit
    ensures { result ≡ spec.guard_lit truth guard guards }
{
    match guards {
        None => positive(truth),
        Some(guards) => match guard {
            0 => guards.left,
            1 => guards.right,
            _ => guards.both,
        },
    }
}

// The literal of a guard that a body uses.
fn use_lit(p: &Frame, guards: &[Guards], guard: GuardUse) -> Lit
    ensures { result ≡ spec.use_lit p.now guards.now guard }
{
    let named = numbered(guards, guard.group).copied();
    let lit = guard_lit(p.truth, guard.guard, named);
    if guard.yes { lit } else { lit.opposite() }
}

// Appends the literals of the guards that a body uses.
fn push_use_lits(
    lits: &mut Vec<Lit>,
    p: &Frame,
    guards: &[Guards],
    uses: &[GuardUse],
) -> Result<(), AllocError>
    ensures { OnOk result (lits.new.items ≡ lits.old.items ++ map (spec.use_lit p.now guards.now) uses.now) }
{
    for guard in uses {
        lits.push(use_lit(p, guards, *guard))?;
    }
    Ok(())
}

// Appends the literals that are true in every set, or false in every set.
fn push_truth_lits(lits: &mut Vec<Lit>, p: &Frame, body: &Body) -> Result<(), AllocError>
    ensures { OnOk result (lits.new.items ≡ lits.old.items ++ (spec.only_if body.now.always (yes p.now.truth) ++ spec.only_if body.now.never (no p.now.truth))) }
{
    if body.always {
        lits.push(positive(p.truth))?;
    }
    if body.never {
        lits.push(negative(p.truth))?;
    }
    Ok(())
}

// The literals of a body.
#[tactic(auto, unfolding(crate::specs::Bodies::body_lits))]
fn body_lits(
    alloc: Global,
    p: &Frame,
    guards: &[Guards],
    body: &Body,
) -> Result<Conjunction, AllocError>
    ensures { IfOk result (λ lits. lits ≡ spec.body_lits p.now guards.now body.now) }
{
    let mut lits = Vec::new(alloc);
    push_truth_lits(&mut lits, p, body)?;
    push_use_lits(&mut lits, p, guards, body.guards.as_slice())?;
    p.push_atom_lits(&mut lits, body.lits.as_slice())?;
    Ok(Conjunction::new(ascending(lits)?))
}

// ---- Bodies.

// For each body, whether it is that of a rule.
fn marks_of_used(alloc: Global, g: &GroundProgram) -> Result<Vec<bool>, AllocError>
    ensures { IfOk result (λ marks. AreMarks (length g.now.bodies) (λ b. list_any (λ (rule : Rule). rule.body.0 == b) g.now.rules) marks.items) }
{
    let mut marks = vec![in alloc; false; g.bodies().len()]?;
    for rule in g.rules() {
        mark(&mut marks, rule.body.0);
    }
    Ok(marks)
}

// The lists of literals of those bodies that are bodies of rules, one for each.
fn used_lits(
    alloc: Global,
    p: &Frame,
    g: &GroundProgram,
    guards: &[Guards],
) -> Result<Vec<Conjunction>, AllocError>
    requires { guards.now ≡ (groups_piece p.now g.now).name }
    ensures { IfOk result (λ all. SameMembers all.items (map (λ (rule : Rule). spec.lits_of p.now g.now rule.body.0) g.now.rules)) }
{
    let used = marks_of_used(alloc, g)?;
    let mut all = Vec::new(alloc);
    for (place, body) in g.bodies().iter().enumerate() {
        if used[place] {
            let lits = body_lits(alloc, p, guards, body)?;
            all.push(lits)?;
        }
    }
    Ok(all)
}

// The bodies of the rules as lists of literals, in ascending order, each once.
pub(crate) fn rule_bodies(
    alloc: Global,
    p: &Frame,
    g: &GroundProgram,
    guards: &[Guards],
) -> Result<Vec<Conjunction>, AllocError>
    requires { guards.now ≡ (groups_piece p.now g.now).name }
    ensures { IfOk result (λ bodies. bodies.items ≡ spec.rule_bodies p.now g.now) }
{
    let mut bodies = used_lits(alloc, p, g, guards)?;
    bodies.sort()?;
    bodies.dedup();
    Ok(bodies)
}

// The place of a list of literals among the bodies, or 0.
fn place_of(bodies: &[Conjunction], lits: &Conjunction) -> usize
    requires { IsStrictlySortedBy lits_cmp bodies.now }
    ensures { result ≡ place_in bodies.now lits.now }
{
    bodies.binary_search(lits).unwrap_or(0)
}

// The literal of a body, where the variables of the bodies stand from `from` on.
fn body_literal(
    alloc: Global,
    p: &Frame,
    guards: &[Guards],
    bodies: &[Conjunction],
    from: u64,
    body: &Body,
) -> Result<Lit, AllocError>
    requires { IsStrictlySortedBy lits_cmp bodies.now }
    ensures { IfOk result (λ l. l ≡ yes (from + place_in bodies.now (spec.body_lits p.now guards.now body.now))) }
{
    let lits = body_lits(alloc, p, guards, body)?;
    let var = sum(from, place_of(bodies, &lits) as u64)?;
    Ok(positive(var))
}

// The literals of the bodies by number. For a body of no rule it means nothing.
pub(crate) fn body_literals(
    alloc: Global,
    p: &Frame,
    g: &GroundProgram,
    guards: &[Guards],
    bodies: &[Conjunction],
    from: u64,
) -> Result<Vec<Lit>, AllocError>
    requires guards { guards.now ≡ (groups_piece p.now g.now).name }
    requires bodies { bodies.now ≡ spec.rule_bodies p.now g.now }
    requires from { from ≡ spec.bodies_from p.now g.now }
    ensures { IfOk result (λ lits. lits.items ≡ map (spec.body_lit p.now g.now) (range_with_len 1 (length g.now.bodies))) }
{
    let mut lits = Vec::new(alloc);
    for body in g.bodies() {
        let literal = body_literal(alloc, p, guards, bodies, from, body)?;
        lits.push(literal)?;
    }
    Ok(lits)
}

// The variables of the bodies.
pub(crate) fn add_bodies(
    alloc: Global,
    draft: &mut Draft,
    bodies: Vec<Conjunction>,
) -> Result<(), AllocError>
    ensures { OnOk result (IsLonger draft.old draft.new (map spec.body_entry_at (enumerate_from (next_of draft.old) bodies.items))) }
{
    for body in bodies {
        let v = draft.next()?;
        draft.add(Entry::body(alloc, v, body.into_lits())?)?;
    }
    Ok(())
}
