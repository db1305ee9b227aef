//! Whether five lists are those of a ground program.
ghost use Rattle.std.specs.Prelude.{◌≡◌, ◌≢◌, ◌↔◌, ℕ, pos, ◌<◌, ◌≤◌, ◌^◌, All, IsTrue, IfSome, length, slice_index_or, sum_by};
ghost use Rattle.ap_term.specs.declared.shape.TermId.{TermId as Term};
ghost use Rattle.ground_form.specs.Ranges as spec;
ghost use Rattle.ground_form.specs.declared.atoms.AtomId.{AtomId as Id};
ghost use Rattle.ground_form.specs.declared.groups.GroupRow.{GroupRow as Row};

use crate::atoms::AtomId;
use crate::bodies::{Body, GuardUse};
use crate::groups::{Group, GroupGuard, GroupRow};
use crate::numbers::{is_number_of, numbered};
use crate::rules::{GroundRule, Head};
use ap_term::TermId;

/// Whether these lists are those of a ground program, as `GroundProgram::new` asks. It compares each two atoms, so it is
/// for programs of some hundred atoms.
pub fn is_in_range(
    atoms: &[TermId],
    rules: &[GroundRule],
    bodies: &[Body],
    groups: &[Group],
    inputs: &[AtomId],
) -> bool
    ensures { IsTrue result ↔ spec.IsInRange (record { atoms = atoms.now; rules = rules.now; bodies = bodies.now; groups = groups.now; inputs = inputs.now }) }
{
    if !are_distinct(atoms) {
        return false;
    }
    if !are_rules_of(atoms.len(), bodies.len(), rules) {
        return false;
    }
    if !are_bodies_of(atoms.len(), groups, bodies) {
        return false;
    }
    are_groups_of(atoms.len(), groups) && are_atoms_of(atoms.len(), inputs)
}

/// Whether no earlier atom is the same as the one at this place.
fn is_new(atoms: &[TermId], place: usize) -> bool
    requires { place < length atoms.now }
    ensures { IsTrue result ↔ ((i : ℕ) (d : Term) → i < place → (slice_index_or atoms.now i d).0 ≢ (slice_index_or atoms.now place d).0) }
{
    for i in 0..place {
        if atoms[i].0 == atoms[place].0 {
            return false;
        }
    }
    true
}

fn are_distinct(atoms: &[TermId]) -> bool
    ensures { IsTrue result ↔ spec.AreDistinct atoms.now }
{
    for place in 0..atoms.len() {
        if !is_new(atoms, place) {
            return false;
        }
    }
    true
}

fn are_atoms_of(atoms: usize, ids: &[AtomId]) -> bool
    ensures { IsTrue result ↔ All (λ (a : Id). spec.IsNumberOf atoms a.0) ids.now }
{
    ids.iter().all(|id| is_number_of(atoms, id.0))
}

fn is_head_of(atoms: usize, head: Head) -> bool
    ensures { IsTrue result ↔ spec.IsHeadOf atoms head }
{
    match head {
        Head::One(atom) | Head::Choice(atom) => is_number_of(atoms, atom.0),
        Head::Nothing => true,
    }
}

fn is_rule_of(atoms: usize, bodies: usize, rule: GroundRule) -> bool
    ensures { IsTrue result ↔ spec.IsRuleOf atoms bodies rule }
{
    is_head_of(atoms, rule.head) && is_number_of(bodies, rule.body.0)
}

fn are_rules_of(atoms: usize, bodies: usize, rules: &[GroundRule]) -> bool
    ensures { IsTrue result ↔ All (spec.IsRuleOf atoms bodies) rules.now }
{
    rules.iter().all(|rule| is_rule_of(atoms, bodies, *rule))
}

fn is_literal_of(atoms: usize, literal: i64) -> bool
    ensures { IsTrue result ↔ spec.IsLiteralOf atoms literal }
{
    is_number_of(atoms, literal.unsigned_abs())
}

fn are_literals_of(atoms: usize, literals: &[i64]) -> bool
    ensures { IsTrue result ↔ All (spec.IsLiteralOf atoms) literals.now }
{
    literals
        .iter()
        .all(|literal| is_literal_of(atoms, *literal))
}

fn has_guard(guard: u8, group: &Group) -> bool
    ensures { result ≡ spec.has_guard guard group.now }
{
    if guard == 0 {
        return group.left.is_some();
    }
    if guard == 1 {
        return group.right.is_some();
    }
    guard == 2 && group.left.is_some() && group.right.is_some()
}

fn is_guard_use_of(groups: &[Group], guard: GuardUse) -> bool
    ensures { IsTrue result ↔ spec.IsGuardUseOf groups.now guard }
{
    match numbered(groups, guard.group) {
        Some(group) => has_guard(guard.guard, group),
        None => false,
    }
}

fn are_guard_uses_of(groups: &[Group], guards: &[GuardUse]) -> bool
    ensures { IsTrue result ↔ All (spec.IsGuardUseOf groups.now) guards.now }
{
    guards.iter().all(|guard| is_guard_use_of(groups, *guard))
}

fn is_body_of(atoms: usize, groups: &[Group], body: &Body) -> bool
    ensures { IsTrue result ↔ spec.IsBodyOf atoms groups.now body.now }
{
    are_literals_of(atoms, body.lits.as_slice())
        && are_guard_uses_of(groups, body.guards.as_slice())
}

fn are_bodies_of(atoms: usize, groups: &[Group], bodies: &[Body]) -> bool
    ensures { IsTrue result ↔ All (spec.IsBodyOf atoms groups.now) bodies.now }
{
    for body in bodies {
        if !is_body_of(atoms, groups, body) {
            return false;
        }
    }
    true
}

fn is_row_of(atoms: usize, row: &GroupRow) -> bool
    ensures { IsTrue result ↔ spec.IsRowOf atoms row.now }
{
    row.conditions
        .as_slice()
        .iter()
        .all(|condition| are_literals_of(atoms, condition.as_slice()))
}

fn are_rows_of(atoms: usize, rows: &[GroupRow]) -> bool
    ensures { IsTrue result ↔ All (spec.IsRowOf atoms) rows.now }
{
    rows.iter().all(|row| is_row_of(atoms, row))
}

fn weight_size(weight: Option<i64>) -> u64
    ensures { result ≡ spec.weight_size weight }
{
    match weight {
        Some(weight) => weight.unsigned_abs(),
        None => 0,
    }
}

fn has_small_sums(rows: &[GroupRow]) -> bool
    ensures { IsTrue result ↔ (sum_by (λ (row : Row). spec.weight_size row.weight) rows.now < 2 ^ 52) }
{
    let mut sum: u64 = 0;
    for row in rows {
        sum = sum.saturating_add(weight_size(row.weight));
    }
    sum < 1 << 52
}

fn is_guard_number(guard: Option<GroupGuard>) -> bool
    ensures { IsTrue result ↔ IfSome guard spec.IsGuardNumber }
{
    match guard {
        Some(GroupGuard::Compare(_, number)) => -2147483647 <= number && number <= 2147483647,
        _ => true,
    }
}

fn is_group_of(atoms: usize, group: &Group) -> bool
    ensures { IsTrue result ↔ spec.IsGroupOf atoms group.now }
{
    let rows = are_rows_of(atoms, group.rows.as_slice()) && has_small_sums(group.rows.as_slice());
    rows && is_guard_number(group.left) && is_guard_number(group.right)
}

fn are_groups_of(atoms: usize, groups: &[Group]) -> bool
    ensures { IsTrue result ↔ All (spec.IsGroupOf atoms) groups.now }
{
    groups.iter().all(|group| is_group_of(atoms, group))
}
