//! The reduct of a ground program by a set, as rules without negation. The rules of one body are one rule with several
//! heads, so that a body that many rules share is looked at once.
ghost use Rattle.std.specs.Prelude.{◌≡◌, ℕ, ◌+◌, ◌<◌, ◌≤◌, List, [], map, length, All, IfOk, OnOk, slice_index_or, slice_set};
ghost use Rattle.std.specs.List.{list_all, filter_map};
ghost use Rattle.std.specs.Option.{option_copied};
ghost use Rattle.definite.specs.Rules.{marked};
ghost use Rattle.definite.specs.declared.Rule.{Rule as RuleSpec};
ghost use Rattle.ground_form.specs.Ranges as ranges;
ghost use Rattle.ground_form.specs.Reduct as spec;
ghost use Rattle.ground_form.specs.declared.rules.GroundRule.{GroundRule as Ground};
ghost use Rattle.ap_eval.specs.Reductions as words;

use crate::membership::Membership;
use crate::truth::{guards_hold, rows_sum};
use definite::Rule;
use ground_form::{Body, GroundProgram, GroundRule, Group, GuardUse, Head, numbered};
use sqlite_items::Items;
use std::alloc::{AllocError, Global};

/// The value of each group in the set.
fn group_values(alloc: Global, groups: &[Group], x: &Items<bool>) -> Result<Vec<i64>, AllocError>
    requires { (n : ℕ) × All (ranges.IsGroupOf n) groups.now }
    ensures { IfOk result (λ values. values.items ≡ map (words.group_value (marked x.now)) groups.now) }
{
    groups
        .iter()
        .map(|group| rows_sum(x, group.rows.as_slice()))
        .collect(alloc)
}

/// Whether the guards that are named hold, of a group and its value.
fn value_met(group: Option<&Group>, value: Option<i64>, guard: u8) -> bool
    ensures { result ≡ words.value_true guard (option_copied group.entry) value }
{
    match (group, value) {
        (Some(group), Some(value)) => guards_hold(value, guard, group),
        _ => false,
    }
}

/// Whether a literal over guards is true, where the groups have these values.
fn guard_met(groups: &[Group], values: &[i64], guard: GuardUse) -> bool
    ensures { result ≡ words.guard_by groups.now values.now guard }
{
    let value = numbered(values, guard.group).copied();
    guard.yes == value_met(numbered(groups, guard.group), value, guard.guard)
}

fn guards_met(groups: &[Group], values: &[i64], guards: &[GuardUse]) -> bool
    ensures { result ≡ list_all (words.guard_by groups.now values.now) guards.now }
{
    guards.iter().all(|guard| guard_met(groups, values, *guard))
}

/// Whether a literal is none that is negative and false in the set.
fn not_refuted(x: &Items<bool>, literal: i64) -> bool
    ensures { result ≡ spec.not_refuted (marked x.now) literal }
{
    if literal >= 0 {
        true
    } else {
        !x.has(literal.unsigned_abs())
    }
}

fn none_refuted(x: &Items<bool>, literals: &[i64]) -> bool
    ensures { result ≡ list_all (spec.not_refuted (marked x.now)) literals.now }
{
    literals.iter().all(|literal| not_refuted(x, *literal))
}

/// Whether the reduct keeps a body: no guard of it and no negative literal is false in the set.
fn is_kept(groups: &[Group], values: &[i64], x: &Items<bool>, body: &Body) -> bool
    ensures { result ≡ words.kept_by groups.now values.now (marked x.now) body.now }
{
    let guards = !body.never && guards_met(groups, values, body.guards.as_slice());
    guards && none_refuted(x, body.lits.as_slice())
}

/// For each body whether the reduct keeps it.
fn kept_bodies(
    alloc: Global,
    g: &GroundProgram,
    values: &[i64],
    x: &Items<bool>,
) -> Result<Vec<bool>, AllocError>
    ensures { IfOk result (λ kept. kept.items ≡ map (words.kept_by g.now.groups values.now (marked x.now)) g.now.bodies) }
{
    let groups = g.groups();
    g.bodies()
        .iter()
        .map(|body| is_kept(groups, values, x, body))
        .collect(alloc)
}

/// The atom of a positive literal.
fn positive(literal: i64) -> Option<usize>
    ensures { result ≡ spec.positive_of literal }
{
    if literal >= 0 {
        Some(literal as usize)
    } else {
        None
    }
}

/// The atoms that a body asks for.
fn positives(alloc: Global, literals: &[i64]) -> Result<Vec<usize>, AllocError>
    ensures { IfOk result (λ atoms. atoms.items ≡ filter_map spec.positive_of literals.now) }
{
    literals
        .iter()
        .filter_map(|literal| positive(*literal))
        .collect(alloc)
}

/// A rule for each body, as yet without heads.
fn rules_without_heads(alloc: Global, bodies: &[Body]) -> Result<Vec<Rule>, AllocError>
    ensures bodies { IfOk result (λ rules. map words.body_of rules.items ≡ map words.positives_in bodies.now) }
    ensures heads { IfOk result (λ rules. All (λ (rule : RuleSpec). rule.heads ≡ []) rules.items) }
{
    let mut rules = Vec::new(alloc);
    for body in bodies {
        rules.push(Rule {
            body: Items::from_vec(positives(alloc, body.lits.as_slice())?),
            heads: Items::new(alloc),
        })?;
    }
    Ok(rules)
}

/// The atom that the reduct gives a head. A choice has it where it is in the set; a constraint has 0, which is no atom and
/// in no set.
fn head_in(x: &Items<bool>, head: Head) -> Option<usize>
    ensures { result ≡ words.head_in (marked x.now) head }
{
    match head {
        Head::One(atom) => Some(atom.0 as usize),
        Head::Choice(atom) => x.has(atom.0).then_some(atom.0 as usize),
        Head::Nothing => Some(0),
    }
}

/// Gives a rule one more head.
fn add_head(rules: &mut [Rule], place: usize, head: usize) -> Result<(), AllocError>
    requires { place < length rules.old }
    ensures { OnOk result ((d : RuleSpec) → rules.new ≡ slice_set rules.old place (words.with_head (slice_index_or rules.old place d) head)) }
{
    rules[place].heads.push(head)
}

/// Adds the head of a rule of the program to the rule of its body, if the reduct keeps the body.
fn add_rule(
    x: &Items<bool>,
    kept: &[bool],
    rule: GroundRule,
    rules: &mut [Rule],
) -> Result<(), AllocError>
    requires kept { length kept.now ≡ length rules.old }
    requires range { (atoms : ℕ) × ranges.IsRuleOf atoms (length rules.old) rule }
    ensures { OnOk result ((atoms : ℕ) → ranges.IsRuleOf atoms (length rules.old) rule → words.AddsRule kept.now (marked x.now) (atoms + 1) rules.old rules.new rule) }
{
    let place = rule.body.0 as usize - 1;
    match head_in(x, rule.head) {
        Some(head) if kept[place] => add_head(rules, place, head),
        _ => Ok(()),
    }
}

/// Adds the heads of the program's rules.
fn add_rules(
    x: &Items<bool>,
    kept: &[bool],
    program: &[GroundRule],
    rules: &mut [Rule],
) -> Result<(), AllocError>
    requires kept { length kept.now ≡ length rules.old }
    requires range { (atoms : ℕ) × All (ranges.IsRuleOf atoms (length rules.old)) program.now }
    ensures { OnOk result ((atoms : ℕ) → All (ranges.IsRuleOf atoms (length rules.old)) program.now → words.AddsRules kept.now (marked x.now) (atoms + 1) rules.old rules.new program.now) }
{
    for rule in program {
        add_rule(x, kept, *rule, rules)?;
    }
    Ok(())
}

/// The reduct of the program by the set, with 0 as the head of the constraints. Its atoms are at most as many as the
/// program's.
pub fn reduct(alloc: Global, g: &GroundProgram, x: &Items<bool>) -> Result<Vec<Rule>, AllocError>
    ensures { IfOk result (λ rules. words.IsReduct g.now (marked x.now) rules.items) }
{
    let values = group_values(alloc, g.groups(), x)?;
    let kept = kept_bodies(alloc, g, &values, x)?;
    let mut rules = rules_without_heads(alloc, g.bodies())?;
    add_rules(x, &kept, g.rules(), &mut rules)?;
    Ok(rules)
}
