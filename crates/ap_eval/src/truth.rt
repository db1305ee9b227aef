//! Truth of the bodies of a ground program in a set of atoms.
ghost use Rattle.std.specs.Prelude.{◌≡◌, ℕ, ◌<◌, ◌^◌, ◌≤ℤ◌, pos, neg_ℤ, ◌&&◌, All, sum_by};
ghost use Rattle.std.specs.List.{list_all};
ghost use Rattle.ground_form.specs.Ranges.{IsGroupOf, weight_size};
ghost use Rattle.ground_form.specs.Sets.{has};
ghost use Rattle.ground_form.specs.Truth as spec;
ghost use Rattle.ground_form.specs.declared.groups.GroupRow.{GroupRow as Row};

use crate::membership::Membership;
use ground_form::{
    AtomSet, Body, BodyId, GroundProgram, Group, GroupGuard, GroupRow, GuardRel, GuardUse, numbered,
};

fn literal_true<X: Membership>(x: &X, literal: i64) -> bool
    ensures { result ≡ spec.literal_true (X.test x.now) literal }
{
    if literal >= 0 {
        x.has(literal as u64)
    } else {
        !x.has(literal.unsigned_abs())
    }
}

fn literals_true<X: Membership>(x: &X, literals: &[i64]) -> bool
    ensures { result ≡ spec.literals_true (X.test x.now) literals.now }
{
    literals.iter().all(|literal| literal_true(x, *literal))
}

/// Whether a tuple counts: one of its conditions is true.
fn row_counts<X: Membership>(x: &X, row: &GroupRow) -> bool
    ensures { result ≡ spec.row_counts (X.test x.now) row.now }
{
    row.conditions
        .as_slice()
        .iter()
        .any(|condition| literals_true(x, condition.as_slice()))
}

fn weight_value(weight: Option<i64>) -> i64
    ensures value { result ≡ spec.weight_value weight }
    ensures low { neg_ℤ (pos (weight_size weight)) ≤ℤ result }
    ensures high { result ≤ℤ pos (weight_size weight) }
{
    match weight {
        Some(weight) => weight,
        None => 0,
    }
}

/// What a tuple adds to the value of its group.
fn row_value<X: Membership>(x: &X, row: &GroupRow) -> i64
    ensures value { result ≡ spec.row_value (X.test x.now) row.now }
    ensures low { neg_ℤ (pos (weight_size row.now.weight)) ≤ℤ result }
    ensures high { result ≤ℤ pos (weight_size row.now.weight) }
{
    if row_counts(x, row) {
        weight_value(row.weight)
    } else {
        0
    }
}

pub fn rows_sum<X: Membership>(x: &X, rows: &[GroupRow]) -> i64
    requires { sum_by (λ (row : Row). weight_size row.weight) rows.now < 2 ^ 52 }
    ensures { result ≡ spec.rows_sum (X.test x.now) rows.now }
{
    let mut sum: i64 = 0;
    for row in rows {
        sum += row_value(x, row);
    }
    sum
}

fn compares(rel: GuardRel, value: i64, number: i64) -> bool
    ensures { result ≡ spec.compares rel value number }
{
    match rel {
        GuardRel::Eq => value == number,
        GuardRel::Ne => value != number,
        GuardRel::Lt => value < number,
        GuardRel::Le => value <= number,
        GuardRel::Gt => value > number,
        GuardRel::Ge => value >= number,
    }
}

fn guard_holds(value: i64, guard: Option<GroupGuard>) -> bool
    ensures { result ≡ spec.guard_holds_if_there value guard }
{
    match guard {
        None => true,
        Some(GroupGuard::Fixed(fixed)) => fixed,
        Some(GroupGuard::Compare(rel, number)) => compares(rel, value, number),
    }
}

/// Whether a group of this value meets its left guard (0), its right one (1) or both (2).
pub fn guards_hold(value: i64, guard: u8, group: &Group) -> bool
    ensures { result ≡ spec.guards_hold value guard group.now }
{
    if guard == 0 {
        return guard_holds(value, group.left);
    }
    if guard == 1 {
        return guard_holds(value, group.right);
    }
    guard_holds(value, group.left) && guard_holds(value, group.right)
}

fn group_true<X: Membership>(x: &X, guard: u8, group: &Group) -> bool
    requires { (n : ℕ) × IsGroupOf n group.now }
    ensures { result ≡ spec.group_true (X.test x.now) guard group.now }
{
    guards_hold(rows_sum(x, group.rows.as_slice()), guard, group)
}

fn guard_true<X: Membership>(groups: &[Group], x: &X, guard: GuardUse) -> bool
    requires { (n : ℕ) × All (IsGroupOf n) groups.now }
    ensures { result ≡ spec.guard_true groups.now (X.test x.now) guard }
{
    match numbered(groups, guard.group) {
        Some(group) => guard.yes == group_true(x, guard.guard, group),
        None => !guard.yes,
    }
}

fn all_guards_true<X: Membership>(groups: &[Group], x: &X, guards: &[GuardUse]) -> bool
    requires { (n : ℕ) × All (IsGroupOf n) groups.now }
    ensures { result ≡ list_all (spec.guard_true groups.now (X.test x.now)) guards.now }
{
    guards.iter().all(|guard| guard_true(groups, x, *guard))
}

/// Whether what a body has besides literals over atoms is true.
pub fn guards_true<X: Membership>(groups: &[Group], x: &X, body: &Body) -> bool
    requires { (n : ℕ) × All (IsGroupOf n) groups.now }
    ensures { result ≡ spec.guards_true groups.now (X.test x.now) body.now }
{
    !body.never && all_guards_true(groups, x, body.guards.as_slice())
}

fn body_holds<X: Membership>(groups: &[Group], x: &X, body: &Body) -> bool
    requires { (n : ℕ) × All (IsGroupOf n) groups.now }
    ensures { result ≡ (spec.guards_true groups.now (X.test x.now) body.now && spec.literals_true (X.test x.now) body.now.lits) }
{
    guards_true(groups, x, body) && literals_true(x, body.lits.as_slice())
}

/// Whether the body of this number is true.
pub fn body_in<X: Membership>(g: &GroundProgram, body: BodyId, x: &X) -> bool
    ensures { result ≡ spec.body_true g.now (X.test x.now) body.0 }
{
    match numbered(g.bodies(), body.0) {
        Some(body) => body_holds(g.groups(), x, body),
        None => false,
    }
}

/// Whether a body is true in a set of atoms: each of its literals over atoms is, each of its guards, and it is not the
/// body that never is. It takes no memory. A number that is no body's is not true.
pub fn body_true(g: &GroundProgram, body: BodyId, x: &AtomSet) -> bool
    ensures { result ≡ spec.body_true g.now (has x.now) body.0 }
{
    body_in(g, body, x)
}
