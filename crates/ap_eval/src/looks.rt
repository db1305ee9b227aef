//! An order of the atoms of a ground program in which each stands behind those that its rules look at.
ghost use Rattle.std.specs.Prelude.{◌≡◌, ◌↔◌, ℕ, Bool, ◌+◌, ◌<◌, ◌&&◌, List, [], ◌∷◌, length, slice_index_or, All, Contains, IsTrue, IfOk, IfSome, OnOk};
ghost use Rattle.std.specs.List.{list_all};
ghost use Rattle.std.specs.Option.{option_copied};
ghost use Rattle.definite.specs.Rules.{marked};
ghost use Rattle.definite.specs.declared.Rule.{Rule as RuleSpec};
ghost use Rattle.ground_form.specs.Ranges.{IsHeadOf, IsNumberOf};
ghost use Rattle.ground_form.specs.declared.rules.GroundRule.{GroundRule as Ground};
ghost use Rattle.ap_eval.specs.Looks as words;
ghost use Rattle.ap_eval.specs.Supports as supports;

use definite::{Derived, Rule, least};
use ground_form::{
    AtomId, Body, GroundProgram, GroundRule, Group, GroupRow, GuardUse, Head, numbered,
};
use sqlite_items::Items;
use std::alloc::{AllocError, Global};

/// Adds the atoms of these literals.
fn add_literals(looked: &mut Items<usize>, literals: &[i64]) -> Result<(), AllocError>
    ensures { OnOk result (words.AddsLooked looked.old looked.new (λ p. words.of_literals p literals.now)) }
{
    for literal in literals {
        looked.push(literal.unsigned_abs() as usize)?;
    }
    Ok(())
}

/// Adds the atoms of a tuple's conditions.
fn add_row(looked: &mut Items<usize>, row: &GroupRow) -> Result<(), AllocError>
    ensures { OnOk result (words.AddsLooked looked.old looked.new (λ p. words.of_row p row.now)) }
{
    for condition in row.conditions.as_slice() {
        add_literals(looked, condition.as_slice())?;
    }
    Ok(())
}

/// Adds the atoms of a group's tuples.
fn add_group(looked: &mut Items<usize>, group: &Group) -> Result<(), AllocError>
    ensures { OnOk result (words.AddsLooked looked.old looked.new (λ p. list_all (words.of_row p) group.now.rows)) }
{
    for row in group.rows.as_slice() {
        add_row(looked, row)?;
    }
    Ok(())
}

/// Adds the atoms of the group that is named.
fn add_guard(looked: &mut Items<usize>, groups: &[Group], guard: GuardUse) -> Result<(), AllocError>
    ensures { OnOk result (words.AddsLooked looked.old looked.new (λ p. words.of_guard groups.now p guard)) }
{
    match numbered(groups, guard.group) {
        Some(group) => add_group(looked, group),
        None => Ok(()),
    }
}

/// Adds the atoms of the groups that are named.
fn add_guards(
    looked: &mut Items<usize>,
    groups: &[Group],
    guards: &[GuardUse],
) -> Result<(), AllocError>
    ensures { OnOk result (words.AddsLooked looked.old looked.new (λ p. list_all (words.of_guard groups.now p) guards.now)) }
{
    for guard in guards {
        add_guard(looked, groups, *guard)?;
    }
    Ok(())
}

/// Adds the atoms that a body looks at.
fn add_body(
    looked: &mut Items<usize>,
    groups: &[Group],
    body: Option<&Body>,
) -> Result<(), AllocError>
    ensures { OnOk result (words.AddsLooked looked.old looked.new (λ p. words.of_body groups.now p (option_copied body.entry))) }
{
    match body {
        Some(body) => {
            add_literals(looked, body.lits.as_slice())?;
            add_guards(looked, groups, body.guards.as_slice())
        }
        None => Ok(()),
    }
}

/// The atom that a head has.
pub fn atom_in(head: Head) -> Option<AtomId>
    ensures value { result ≡ supports.atom_in head }
    ensures known { (n : ℕ) → IsHeadOf n head → IfSome result (λ a. IsNumberOf n a.0) }
{
    match head {
        Head::One(atom) => Some(atom),
        Head::Choice(atom) => Some(atom),
        Head::Nothing => None,
    }
}

/// Adds what a rule of the program looks at to the rule for its atom.
fn add_rule(g: &GroundProgram, rule: GroundRule, looks: &mut [Rule]) -> Result<(), AllocError>
    requires { (n : ℕ) × IsHeadOf n rule.head × (n < length looks.old) }
    ensures { OnOk result (words.AddsRule g.now looks.old looks.new rule) }
{
    match atom_in(rule.head) {
        Some(atom) => {
            let body = numbered(g.bodies(), rule.body.0);
            add_body(&mut looks[atom.0 as usize].body, g.groups(), body)
        }
        None => Ok(()),
    }
}

/// Adds what the rules of the program look at.
fn add_rules(
    g: &GroundProgram,
    program: &[GroundRule],
    looks: &mut [Rule],
) -> Result<(), AllocError>
    requires { (n : ℕ) × All (λ (rule : Ground). IsHeadOf n rule.head) program.now × (n < length looks.old) }
    ensures { OnOk result (words.AddsRules g.now looks.old looks.new program.now) }
{
    for rule in program {
        add_rule(g, *rule, looks)?;
    }
    Ok(())
}

/// A rule for each atom, as yet without a body.
fn atoms_alone(alloc: Global, places: usize) -> Result<Vec<Rule>, AllocError>
    ensures looked { IfOk result (λ looks. (a : ℕ) → words.looked_by looks.items a ≡ []) }
    ensures heads { IfOk result (λ looks. (a : ℕ) (d : RuleSpec) → a < length looks.items → (slice_index_or looks.items a d).heads ≡ a ∷ []) }
    ensures size { IfOk result (λ looks. length looks.items ≡ places) }
{
    let mut looks = Vec::new(alloc);
    for atom in 0..places {
        looks.push(Rule {
            body: Items::new(alloc),
            heads: Items::from_vec(vec![in alloc; atom]?),
        })?;
    }
    Ok(looks)
}

/// For each atom, and for 0, a rule without negation: the atom, if those are there that its rules look at.
fn looks(alloc: Global, g: &GroundProgram) -> Result<Vec<Rule>, AllocError>
    ensures { IfOk result (λ looks. words.AreLooks g.now looks.items) }
{
    let mut looks = atoms_alone(alloc, g.atoms().len() + 1)?;
    add_rules(g, g.rules(), &mut looks)?;
    Ok(looks)
}

/// The atoms, and 0, in an order in which each stands behind those that its rules look at, and marks of those that stand in it. In
/// an acyclic program it has all atoms.
pub fn order(alloc: Global, g: &GroundProgram) -> Result<Derived, AllocError>
    ensures order { IfOk result (λ found. words.IsOrder g.now found.order) }
    ensures marks { IfOk result (λ found. (a : ℕ) → IsTrue (marked found.marks a) ↔ Contains found.order a) }
    ensures size { IfOk result (λ found. length found.marks ≡ length g.now.atoms + 1) }
{
    let looks = looks(alloc, g)?;
    let found = least(alloc, &looks, g.atoms().len() + 1)?;
    Ok(found)
}
